//! Writes the records of epochs as they close, and at the end of the epochs that are still open.

ghost use Rattle.rtk_convert.specs.Epochs.{set_of};
ghost use Rattle.rtk_convert.specs.Steps.Faults.{NamesFailedFile};
ghost use Rattle.rtk_convert.specs.Steps.Closing.{AllAbove, ClosesEpoch, ClosesRemaining};
ghost use Rattle.rtk_convert.specs.Steps.ShownCells.{AllBelow};
ghost use Rattle.rtk_convert.specs.ClosedEpochs.{HasClosed};
ghost use Rattle.rtk_obs.specs.declared.any_code.AnyCode.{AnyCode};
ghost use Rattle.rtk_rinex.specs.Header.{position_view};
ghost use Rattle.std.specs.Prelude.{◌≡◌, ℕ, ◌<◌, [], List, Bool, false, map, IfOk};

use crate::epoch_rows::push_rows;
use crate::fault::ConvertFault;
use crate::file_entry::FileEntry;
use crate::row_lines::RowLines;
use crate::writing::write_record;
use arrayvec::ArrayVec;
use rtk_collect::{GatheredSet, GatheredSets};
use rtk_frame::Sink;
use rtk_obs::Position;
use rtk_setup::Setup;
use std::alloc::{AllocError, Global};
use std::marker::Model;

/// What is known of the closed epochs: the last phases, whether the header is written, and how many
/// records are written.
///
/// The text of a record is kept from epoch to epoch. The last phases are large, and lie on the heap, so that no
/// function on the way to them needs a large stack.
#[derive(Drop)]
pub(crate) struct ClosedEpochs<E: FileEntry> {
    phases: Box<E::Phases>,
    lines: E::Lines,
    is_header_out: bool,
    count: u64,
}

// Clauses don't see the lines, which are written anew for each epoch. The reason why the invariant names every
// field stands at `Converter`.
impl<E: FileEntry> Model for ClosedEpochs<E> {
    ghost use Rattle.std.specs.Prelude.{◌≡◌};
    ghost use Rattle.rtk_convert.specs.ClosedEpochs.{ClosedEpochsView};

    ghost Value = { ClosedEpochsView };

    ghost view = { λ r. record { tracks = E.places r.phases.value; is_header_out = r.is_header_out; count = r.count } };

    ghost invariant = { λ r. r ≡ record { phases = r.phases; lines = r.lines; is_header_out = r.is_header_out; count = r.count } };
}

/// Makes room for the cells of an epoch that came in a 1004, in which none stands yet. It is large, and lies on the
/// heap. Each function on the way to it is lent it, so that the size of a cell is known where it is made.
#[inline(never)]
pub(crate) fn new_room<E: FileEntry>(alloc: Global) -> Result<Box<ArrayVec<E, 64>>, AllocError>
    ensures { IfOk result (λ room. room.value.items ≡ []) }
{
    Ok(Box::new(alloc, ArrayVec::new())?)
}

impl<E: FileEntry> ClosedEpochs<E> {
    /// Makes the state in which no epoch is closed.
    pub(crate) fn new(alloc: Global) -> Result<ClosedEpochs<E>, AllocError>
        ensures follows { IfOk result (λ r. (doppler : Bool) (listed : List AnyCode) → HasClosed r doppler listed []) }
        ensures below { IfOk result (λ r. (epoch : ℕ) → AllBelow r.tracks epoch) }
    {
        Ok(ClosedEpochs {
            phases: E::new_phases(alloc)?,
            lines: E::Lines::new(alloc),
            is_header_out: false,
            count: 0,
        })
    }

    /// Returns whether the header is written.
    pub(crate) fn is_header_out(&self) -> bool
        ensures { result ≡ self.now.is_header_out }
    {
        self.is_header_out
    }

    /// Returns how many records are written.
    pub(crate) fn count(&self) -> u64
        ensures { result ≡ self.now.count }
    {
        self.count
    }

    /// Writes the record of an epoch that closes, if it has one, and the header before the first.
    ///
    /// After a fault nothing is said of the last phases, the header and the count.
    pub(crate) fn close<O: Sink>(
        &mut self,
        alloc: Global,
        setup: &Setup,
        position: &Position,
        set: &GatheredSet<E>,
        room: &mut ArrayVec<E, 64>,
        out: &mut O,
    ) -> Result<(), ConvertFault>
        requires shows { E.Lines.CanShow setup.now.head.doppler }
        requires above { AllBelow self.old.tracks set.now.epoch }
        ensures closes { ClosesEpoch setup.now (position_view position.now) self.old (set_of E.signal_of set.now) result self.new
            (O.taken out.old) (O.taken out.new) }
        ensures failed { NamesFailedFile result (O.failures out.old) (O.failures out.new) }
    {
        let listed = setup.head().codes();
        let doppler = setup.has_doppler();
        push_rows(
            &mut *self.phases,
            set,
            listed,
            doppler,
            &mut self.lines,
            room,
        )?;
        let epoch = set.epoch();
        self.lines.finish(epoch);
        let text = self.lines.text();
        let has_record = write_record(
            alloc,
            setup,
            position,
            self.is_header_out,
            epoch,
            text,
            out,
        )?;
        if !has_record {
            return Ok(());
        }
        self.is_header_out = true;
        self.count = self.count.saturating_add(1);
        Ok(())
    }
}

/// Writes the records of the epochs that are left, rising, and the header before the first record
/// of the file.
pub(crate) fn close_remaining<E: FileEntry, O: Sink>(
    alloc: Global,
    setup: &Setup,
    position: &Position,
    closed_epochs: &mut ClosedEpochs<E>,
    left: &mut GatheredSets<E>,
    room: &mut ArrayVec<E, 64>,
    out: &mut O,
) -> Result<(), ConvertFault>
    requires shows { E.Lines.CanShow setup.now.head.doppler }
    requires above { AllAbove closed_epochs.old (map (set_of E.signal_of) left.old.sets) }
    ensures closes { ClosesRemaining setup.now (position_view position.now) closed_epochs.old (map (set_of E.signal_of) left.old.sets) result
        closed_epochs.new (O.taken out.old) (O.taken out.new) }
    ensures failed { NamesFailedFile result (O.failures out.old) (O.failures out.new) }
{
    'left: while let Some(set) = left.next_left() {
        closed_epochs.close(alloc, setup, position, &set, room, out)?;
    }
    Ok(())
}
