//! A gatherer of the signals of all systems.

ghost use Rattle.rtk_collect.specs.Signals.{signals, entries_by};
ghost use Rattle.std.specs.Prelude.{◌≡◌, ◌≤◌, ℤ, Bool, List, Option, [], length, IsTrue, IfOk, OnErr};
ghost use Rattle.rtk_collect.specs.Key.{KeysRise};
ghost use Rattle.rtk_collect.specs.EpochSet.{AreOfOneSource};
ghost use Rattle.rtk_collect.specs.Steps.Borrowed.{borrowed};
ghost use Rattle.rtk_collect.specs.Offered.{AnswersArrival, ClosesBelow, ClosesLeast, LeastNeverFalls, WouldBeTaken};

use crate::conflicts::{AnySatelliteCode, Conflicts};
use crate::dated_ref::{Borrowed, DatedRef};
use crate::entry::Entry;
use crate::gatherer::Gatherer;
use crate::outcome::Outcome;
use crate::window::{offer_cells, place_of_epoch};
use rtk_obs::{Channels, SignalEntry};
use std::alloc::AllocError;

// Returns whether the keys of cells of one kind of message rise. Their kind is the same in all keys. The loop goes over
// all cells, since a way out of it would cost an instruction or two for each cell, and nearly all messages rise.
fn keys_rise<E: Entry>(cells: &[E]) -> bool
    requires { AreOfOneSource E.entries cells.now }
    ensures { IsTrue result → KeysRise E.entries cells.now }
{
    if cells.is_empty() {
        return true;
    }
    let mut rises = true;
    let mut at = cells.len() - 1;
    let mut above = cells[at].place();
    while at > 0 {
        at -= 1;
        let place = cells[at].place();
        rises = rises && place < above;
        above = place;
    }
    rises
}

// Returns whether the keys of the cells of a message rise. Nothing is looked at of those that do so in any case.
fn cells_rise(message: Borrowed<'_>, cells: &[SignalEntry]) -> bool
    requires kind { AreOfOneSource signals cells.now }
    requires own { (sbas : Bool) × (doppler : Bool) × (channels : List (Option ℤ)) × (cells.now ≡ entries_by sbas doppler channels (borrowed message)) }
    ensures { IsTrue result → KeysRise signals cells.now }
{
    if message.is_msm_beside_gps() {
        return true;
    }
    keys_rise(cells)
}

impl Gatherer<SignalEntry> {
    /// Takes what is new in a message of any system, as `offer` does for GPS. Phases of GLONASS are made
    /// by these channels. Satellites of SBAS in a 1004 have cells if `sbas` says so, and cells of an MSM have
    /// Doppler shifts if `doppler` says so. All messages of a gatherer are offered with the same channels, `sbas` and
    /// `doppler`.
    pub fn offer_signals(
        &mut self,
        dated: DatedRef<'_>,
        channels: &Channels,
        sbas: bool,
        doppler: bool,
        conflicts: &mut Conflicts<AnySatelliteCode>,
    ) -> Result<Outcome<SignalEntry>, AllocError>
        ensures places { self.new.places ≡ self.old.places }
        ensures bound { length self.new.sets ≤ self.new.places }
        // Fails only if memory is refused: tests/system/calls, rows signals, offer.
        ensures answer { IfOk result (λ offer. AnswersArrival signals (entries_by sbas doppler channels.now) self.old dated.entry offer conflicts.new self.new) }
        ensures closed { IfOk result (λ offer. ClosesBelow offer self.new.sets) }
        ensures least_closes { IfOk result (λ offer. ClosesLeast self.old.places self.old.sets offer) }
        ensures least { LeastNeverFalls self.old self.new }
        ensures err { OnErr result (self.new ≡ self.old) }
        ensures refused { OnErr result (WouldBeTaken signals (entries_by sbas doppler channels.now) self.old dated.entry) }
        ensures none { OnErr result (conflicts.new ≡ []) }
    {
        conflicts.clear();
        let Some(epoch) = dated.epoch else {
            let Borrowed::Message(message) = dated.message else {
                unreachable!();
            };
            let full = self.sets.len() == self.places;
            return Ok(self.stations.offer(message, full));
        };
        let at = place_of_epoch(&self.sets, epoch);
        dated
            .message
            .put_entries(channels, sbas, doppler, &mut self.cells);
        let cells = self.cells.as_slice();
        let rises = cells_rise(dated.message, cells);
        let (sets, spare) = (&mut self.sets, &mut self.spare);
        offer_cells(
            sets,
            self.places,
            self.alloc,
            at,
            epoch,
            cells,
            rises,
            spare,
            conflicts,
        )
    }
}
