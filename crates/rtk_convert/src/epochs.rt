//! The epochs of a conversion: the open ones and the closed ones, with cells of GPS or of any system.

ghost use Rattle.std.specs.Prelude.{◌≡◌, option_map, IfOk, IsTrue};
ghost use Rattle.rtk_collect.specs.Arrival.{message_of};
ghost use Rattle.rtk_convert.specs.Conversion.{IsAhead};
ghost use Rattle.rtk_convert.specs.Epochs.{outcome_of, set_of};
ghost use Rattle.rtk_convert.specs.Outcome.{NamesFailedStreams};
ghost use Rattle.rtk_setup.specs.Setup.{is_of_gps};
ghost use Rattle.rtk_convert.specs.Steps.AddedMessage.{AddsArrival, IsTakenBy, closed_by};
ghost use Rattle.rtk_convert.specs.Steps.Closing.{EndsEpochs};
ghost use Rattle.rtk_convert.specs.Steps.WrittenAnswer.{ClosesAbove, WritesAnswer};
ghost use Rattle.rtk_convert.specs.Steps.EpochsSteps.{AreEpochsOf, AreNewEpochs, HandsOn, epochs_in};
ghost use Rattle.rtk_convert.specs.Steps.Faults.{NamesFailedFile};
ghost use Rattle.rtk_convert.specs.Steps.OfferLines.{class_named, class_of_offer};
ghost use Rattle.rtk_convert.specs.Writing.{written};

use crate::closed_epochs::{ClosedEpochs, close_remaining, new_room};
use crate::fault::ConvertFault;
use crate::file_entry::FileEntry;
use crate::link_number::LinkNumber;
use crate::message_class::MessageClass;
use crate::report;
use crate::writing::{write_header_if_none, write_lines};
use arrayvec::ArrayVec;
use rtk_collect::{Conflicts, DatedRef, GatheredSet, Gatherer, Outcome};
use rtk_frame::Sink;
use rtk_obs::{CellEntry, SignalEntry};
use rtk_setup::Setup;
use std::alloc::{AllocError, Global};
use std::marker::Model;

/// The open epochs with the station messages, and what is known of the closed epochs.
#[derive(Drop)]
pub(crate) struct Epochs<E: FileEntry> {
    collector: Gatherer<E>,
    closed: ClosedEpochs<E>,
    // The conflicting cells of the message that was offered last.
    conflicts: Conflicts<E::Signal>,
}

// Clauses see the cells as those of any system, and don't see the conflicts, which each message replaces.
// The reason why the invariant names every field stands at `Converter`.
impl<E: FileEntry> Model for Epochs<E> {
    ghost use Rattle.std.specs.Prelude.{◌≡◌};
    ghost use Rattle.rtk_convert.specs.Epochs.{EpochsView, window_of};

    ghost Value = { EpochsView };

    ghost view = { λ e. record { collector = window_of E.signal_of e.collector; closed = e.closed } };

    ghost invariant = { λ e. e ≡ record { collector = e.collector; closed = e.closed; conflicts = e.conflicts } };
}

// Returns the class of an answer.
fn class_of<E: FileEntry>(offer: &Outcome<E>) -> MessageClass
    ensures { class_named result ≡ class_of_offer (outcome_of E.signal_of offer.now) }
{
    match offer {
        Outcome::Late => MessageClass::Late,
        Outcome::Taken { .. } => MessageClass::Taken,
        Outcome::Repeat => MessageClass::Repeat,
        Outcome::Conflict => MessageClass::Conflict,
    }
}

// Returns the epoch that is closed by a message with this answer.
fn closed_by<E: FileEntry>(offer: Outcome<E>) -> Option<GatheredSet<E>>
    ensures { option_map (set_of E.signal_of) result ≡ closed_by (outcome_of E.signal_of offer) }
{
    match offer {
        Outcome::Taken { closed, .. } => closed,
        _ => None,
    }
}

impl<E: FileEntry> Epochs<E> {
    /// Makes the epochs of a conversion to which no message came.
    pub(crate) fn new(alloc: Global, setup: &Setup) -> Result<Epochs<E>, AllocError>
        ensures { IfOk result (AreNewEpochs setup.now) }
    {
        Ok(Epochs {
            collector: Gatherer::new(alloc, setup.window()),
            closed: ClosedEpochs::new(alloc)?,
            conflicts: Conflicts::new(),
        })
    }

    // Writes what comes of a message: the record of the epoch that its answer closes, and then its lines.
    fn write_answer<O: Sink, L: Sink>(
        &mut self,
        alloc: Global,
        setup: &Setup,
        offer: Outcome<E>,
        lines: &[u8],
        room: &mut ArrayVec<E, 64>,
        out: &mut O,
        log: &mut L,
    ) -> Result<(), ConvertFault>
        requires shows { E.Lines.CanShow setup.now.head.doppler }
        requires above { ClosesAbove self.old.closed (closed_by (outcome_of E.signal_of offer)) }
        ensures window { self.new.collector ≡ self.old.collector }
        ensures writes { WritesAnswer setup.now self.old (closed_by (outcome_of E.signal_of offer)) lines.now result self.new
            (written (O.taken out.old) (L.taken log.old)) (written (O.taken out.new) (L.taken log.new)) }
        ensures failed { NamesFailedStreams result (O.failures out.old) (O.failures out.new) (L.failures log.old) (L.failures log.new) }
    {
        let Some(set) = closed_by(offer) else {
            return write_lines(log, lines);
        };
        let position = self.collector.station();
        self.closed.close(alloc, setup, &position, &set, room, out)?;
        self.collector.hand_back(set);
        write_lines(log, lines)
    }

    /// Writes the records of the epochs that are open, rising, and the header if it is not out. Returns how
    /// many records are written in all.
    pub(crate) fn finish<O: Sink>(
        self,
        alloc: Global,
        setup: &Setup,
        room: &mut ArrayVec<E, 64>,
        out: &mut O,
    ) -> Result<u64, ConvertFault>
        requires shows { E.Lines.CanShow setup.now.head.doppler }
        requires places { self.collector.places ≡ setup.now.window }
        requires ahead { IsAhead self.collector self.closed }
        ensures ends { EndsEpochs setup.now self result (O.taken out.old) (O.taken out.new) }
        ensures failed { NamesFailedFile result (O.failures out.old) (O.failures out.new) }
    {
        let position = self.collector.station();
        let mut closed = self.closed;
        let mut left = self.collector.close();
        close_remaining(alloc, setup, &position, &mut closed, &mut left, room, out)?;
        write_header_if_none(alloc, setup, &position, closed.is_header_out(), out)?;
        Ok(closed.count())
    }
}

impl Epochs<CellEntry> {
    /// Offers a message to the window, and writes what comes of it. All listed codes are of GPS.
    pub(crate) fn add<O: Sink, L: Sink>(
        &mut self,
        alloc: Global,
        setup: &Setup,
        link: LinkNumber,
        dated: DatedRef<'_>,
        room: &mut ArrayVec<CellEntry, 64>,
        out: &mut O,
        log: &mut L,
    ) -> Result<MessageClass, ConvertFault>
        requires taken { IsTakenBy setup.now (message_of dated) }
        requires gps { IsTrue (is_of_gps setup.now) }
        requires places { self.old.collector.places ≡ setup.now.window }
        requires ahead { IsAhead self.old.collector self.old.closed }
        ensures stays { HandsOn setup.now self.old result self.new }
        ensures adds { AddsArrival setup.now self.old link dated.entry result self.new
            (written (O.taken out.old) (L.taken log.old)) (written (O.taken out.new) (L.taken log.new)) }
        ensures failed { NamesFailedStreams result (O.failures out.old) (O.failures out.new) (L.failures log.old) (L.failures log.new) }
    {
        let (number, epoch) = (dated.number(), dated.epoch());
        let offer = self.collector.offer(dated, &mut self.conflicts)?;
        let class = class_of(&offer);
        let conflicts = self.conflicts.as_slice();
        let lines = report::message_lines::<CellEntry>(
            alloc, link, number, epoch, class, conflicts,
        )?;
        self.write_answer(alloc, setup, offer, &lines, room, out, log)?;
        Ok(class)
    }
}

impl Epochs<SignalEntry> {
    /// Offers a message to the window, and writes what comes of it.
    pub(crate) fn add_signals<O: Sink, L: Sink>(
        &mut self,
        alloc: Global,
        setup: &Setup,
        link: LinkNumber,
        dated: DatedRef<'_>,
        room: &mut ArrayVec<SignalEntry, 64>,
        out: &mut O,
        log: &mut L,
    ) -> Result<MessageClass, ConvertFault>
        requires taken { IsTakenBy setup.now (message_of dated) }
        requires places { self.old.collector.places ≡ setup.now.window }
        requires ahead { IsAhead self.old.collector self.old.closed }
        ensures stays { HandsOn setup.now self.old result self.new }
        ensures adds { AddsArrival setup.now self.old link dated.entry result self.new
            (written (O.taken out.old) (L.taken log.old)) (written (O.taken out.new) (L.taken log.new)) }
        ensures failed { NamesFailedStreams result (O.failures out.old) (O.failures out.new) (L.failures log.old) (L.failures log.new) }
    {
        let (number, epoch) = (dated.number(), dated.epoch());
        let channels = setup.channels();
        let sbas = setup.takes_sbas();
        let doppler = setup.has_doppler();
        let offer = self
            .collector
            .offer_signals(dated, channels, sbas, doppler, &mut self.conflicts)?;
        let class = class_of(&offer);
        let conflicts = self.conflicts.as_slice();
        let lines = report::message_lines::<SignalEntry>(
            alloc, link, number, epoch, class, conflicts,
        )?;
        self.write_answer(alloc, setup, offer, &lines, room, out, log)?;
        Ok(class)
    }
}

/// Epochs with cells of GPS, or of any system, each with room for the cells of an epoch that came in a 1004.
#[derive(Drop)]
pub(crate) enum AnyEpochs {
    /// Those of a setup whose codes are of GPS.
    Gps(Epochs<CellEntry>, Box<ArrayVec<CellEntry, 64>>),
    /// Those of any other one.
    Any(Epochs<SignalEntry>, Box<ArrayVec<SignalEntry, 64>>),
}

impl AnyEpochs {
    /// Makes the epochs of a conversion to which no message came. Those of GPS alone are less to make.
    pub(crate) fn new(alloc: Global, setup: &Setup) -> Result<AnyEpochs, AllocError>
        ensures { IfOk result (λ epochs. AreNewEpochs setup.now (epochs_in epochs) × AreEpochsOf setup.now epochs) }
    {
        if setup.is_of_gps() {
            return Ok(AnyEpochs::Gps(Epochs::new(alloc, setup)?, new_room(alloc)?));
        }
        Ok(AnyEpochs::Any(Epochs::new(alloc, setup)?, new_room(alloc)?))
    }

    /// Offers a message to the window, and writes what comes of it.
    pub(crate) fn add<O: Sink, L: Sink>(
        &mut self,
        alloc: Global,
        setup: &Setup,
        link: LinkNumber,
        dated: DatedRef<'_>,
        out: &mut O,
        log: &mut L,
    ) -> Result<MessageClass, ConvertFault>
        requires taken { IsTakenBy setup.now (message_of dated) }
        requires form { AreEpochsOf setup.now self.old }
        requires places { (epochs_in self.old).collector.places ≡ setup.now.window }
        requires ahead { IsAhead (epochs_in self.old).collector (epochs_in self.old).closed }
        ensures stays { HandsOn setup.now (epochs_in self.old) result (epochs_in self.new) }
        ensures form { AreEpochsOf setup.now self.new }
        ensures adds { AddsArrival setup.now (epochs_in self.old) link dated.entry result (epochs_in self.new)
            (written (O.taken out.old) (L.taken log.old)) (written (O.taken out.new) (L.taken log.new)) }
        ensures failed { NamesFailedStreams result (O.failures out.old) (O.failures out.new) (L.failures log.old) (L.failures log.new) }
    {
        match self {
            AnyEpochs::Gps(epochs, room) => {
                epochs.add(alloc, setup, link, dated, &mut *room, out, log)
            }
            AnyEpochs::Any(epochs, room) => {
                epochs.add_signals(alloc, setup, link, dated, &mut *room, out, log)
            }
        }
    }

    /// Writes the records of the epochs that are open, rising, and the header if it is not out. Returns how
    /// many records are written in all.
    pub(crate) fn finish<O: Sink>(
        self,
        alloc: Global,
        setup: &Setup,
        out: &mut O,
    ) -> Result<u64, ConvertFault>
        requires form { AreEpochsOf setup.now self }
        requires places { (epochs_in self).collector.places ≡ setup.now.window }
        requires ahead { IsAhead (epochs_in self).collector (epochs_in self).closed }
        ensures ends { EndsEpochs setup.now (epochs_in self) result (O.taken out.old) (O.taken out.new) }
        ensures failed { NamesFailedFile result (O.failures out.old) (O.failures out.new) }
    {
        match self {
            AnyEpochs::Gps(epochs, mut room) => epochs.finish(alloc, setup, &mut room, out),
            AnyEpochs::Any(epochs, mut room) => epochs.finish(alloc, setup, &mut room, out),
        }
    }
}
