//! The state of a conversion: it takes the frames of all links, one at a time.
//!
//! The record of the epoch that closes is written before the lines of the message that closes it.
//! Memory for lines is taken only if there are any. That each closed epoch is above all last phases
//! is an invariant (`IsAhead`): there is a last phase only once the window is full, and its epoch
//! is below all epochs of the window.

ghost use Rattle.std.specs.Prelude.{◌≡◌, ◌||◌, true, false, Err, IfOk, is_err};
ghost use Rattle.std.specs.List.{list_any};
ghost use Rattle.rtk_message.specs.declared.any_message.AnyMessage.TheVariants as AnyMessage;
ghost use Rattle.rtk_message.specs.declared.system.System.{System};
ghost use Rattle.rtk_obs.specs.SbasCells.{is_sbas_number};
ghost use Rattle.rtk_collect.specs.Arrival.{message_of};
ghost use Rattle.rtk_convert.specs.Steps.AddedMessage.{HandlesMessage, IsTakenBy};
ghost use Rattle.rtk_convert.specs.Steps.Closing.{EndsConversion};
ghost use Rattle.rtk_convert.specs.Steps.AcceptedFrame.{IsUnderWay, StaysUnderWay, HandlesPayload};
ghost use Rattle.rtk_convert.specs.Report.{brings_sbas, counted_as, holds_sbas};
ghost use Rattle.rtk_convert.specs.Steps.OfferLines.{class_named};
ghost use Rattle.rtk_convert.specs.Conversion.{IsNewConversion};
ghost use Rattle.rtk_convert.specs.Outcome.{KeepsWindow, NamesFailedStreams, RefusesStopped};
ghost use Rattle.rtk_convert.specs.Systems.{has_system};
ghost use Rattle.rtk_convert.specs.Steps.ReadMessage.{brings_by, sbas_by, system_of_number};
ghost use Rattle.rtk_convert.specs.Writing.{written};

use crate::epochs::AnyEpochs;
use crate::fault::ConvertFault;
use crate::frame_class::{FrameClass, classify, read_message};
use crate::link_number::LinkNumber;
use crate::message_class::MessageClass;
use crate::remarks::Remarks;
use crate::report;
use crate::systems::Systems;
use crate::writing::write_lines;
use rtk_collect::DatedRef;
use rtk_frame::Sink;
use rtk_message::{AnyDecoder, Message, MsmType, Satellite, System};
use rtk_obs::GpsMs;
use rtk_setup::{Counts, Setup};
use std::alloc::{AllocError, Global};
use std::marker::Model;

/// The state of a conversion: the open epochs and the station messages, the last phases of the
/// closed epochs, whether the header is written, the counts, and what the last lines of the report tell beside
/// these.
///
/// A call that breaks off stops it: each later call answers V8.
#[derive(Drop)]
pub(crate) struct Conversion {
    alloc: Global,
    setup: Setup,
    epochs: AnyEpochs,
    counts: Counts,
    remarks: Remarks,
    stopped: bool,
}

// Clauses don't see the allocator, nor whether the epochs are of GPS alone. The reason why the invariant names
// every field stands at `Converter`.
impl Model for Conversion {
    ghost use Rattle.std.specs.Prelude.{◌≡◌};
    ghost use Rattle.rtk_convert.specs.Conversion.{ConversionView, IsConversionView};
    ghost use Rattle.rtk_convert.specs.Steps.EpochsSteps.{AreEpochsOf, epochs_in};

    ghost Value = { ConversionView };

    ghost view = { λ c. record {
      setup = c.setup;
      collector = (epochs_in c.epochs).collector;
      closed_epochs = (epochs_in c.epochs).closed;
      counts = c.counts;
      remarks = c.remarks;
      stopped = c.stopped;
    } };

    ghost invariant = { λ c. (c ≡ record {
      alloc = c.alloc;
      setup = c.setup;
      epochs = c.epochs;
      counts = c.counts;
      remarks = c.remarks;
      stopped = c.stopped;
    })
        × AreEpochsOf c.setup c.epochs
        × IsConversionView (record {
          setup = c.setup;
          collector = (epochs_in c.epochs).collector;
          closed_epochs = (epochs_in c.epochs).closed;
          counts = c.counts;
          remarks = c.remarks;
          stopped = c.stopped;
        }) };
}

impl Conversion {
    /// Makes a conversion that has found no frame yet.
    pub(crate) fn new(alloc: Global, setup: Setup) -> Result<Conversion, AllocError>
        ensures { IfOk result (IsNewConversion setup) }
    {
        let epochs = AnyEpochs::new(alloc, &setup)?;
        let remarks = Remarks::new();
        Ok(Conversion {
            alloc,
            setup,
            epochs,
            counts: Counts {
                frames: 0,
                other: 0,
                refused: 0,
                foreign: 0,
                taken: 0,
                repeat: 0,
                conflict: 0,
                late: 0,
                epochs: 0,
            },
            remarks,
            stopped: false,
        })
    }

    /// Returns whether a call broke off.
    pub(crate) fn is_stopped(&self) -> bool
        ensures { result ≡ self.now.stopped }
    {
        self.stopped
    }

    /// Takes the payload of a frame that was found on a link. It writes the record of the epoch
    /// that the payload closes to `out`, and its lines to `log`. It answers the epoch of the
    /// payload if this is an observation of the chosen station, whether it is late or not.
    ///
    /// A converter asks beforehand whether the conversion has stopped; this call has no such
    /// condition, so it asks too, and so does `finish`.
    pub(crate) fn accept_frame<O: Sink, L: Sink>(
        &mut self,
        decoder: &mut AnyDecoder,
        link: LinkNumber,
        payload: &[u8],
        out: &mut O,
        log: &mut L,
    ) -> Result<Option<GpsMs>, ConvertFault>
        ensures keeps { KeepsWindow self.old self.new }
        ensures refused { RefusesStopped self.old.stopped result out.old out.new log.old log.new }
        ensures halts { self.new.stopped ≡ is_err result }
        ensures handles { self.old.stopped ≡ false → HandlesPayload self.old link payload.now result self.new
            (written (O.taken out.old) (L.taken log.old)) (written (O.taken out.new) (L.taken log.new)) }
        ensures failed { NamesFailedStreams result (O.failures out.old) (O.failures out.new) (L.failures log.old) (L.failures log.new) }
    {
        if self.stopped {
            return Err(ConvertFault::Stopped);
        }
        self.stopped = true;
        let epoch = self.handle_payload(decoder, link, payload, out, log)?;
        self.stopped = false;
        Ok(epoch)
    }

    // Handles the payload of a frame. `stopped` stays as it is.
    fn handle_payload<O: Sink, L: Sink>(
        &mut self,
        decoder: &mut AnyDecoder,
        link: LinkNumber,
        payload: &[u8],
        out: &mut O,
        log: &mut L,
    ) -> Result<Option<GpsMs>, ConvertFault>
        requires under_way { IsUnderWay self.old }
        ensures stays { StaysUnderWay self.old result self.new }
        ensures handles { HandlesPayload self.old link payload.now result self.new
            (written (O.taken out.old) (L.taken log.old)) (written (O.taken out.new) (L.taken log.new)) }
        ensures failed { NamesFailedStreams result (O.failures out.old) (O.failures out.new) (L.failures log.old) (L.failures log.new) }
    {
        self.counts.frames = self.counts.frames.saturating_add(1);
        let reading = read_message(&self.setup, decoder, payload);
        match classify(&self.setup, reading) {
            FrameClass::OtherMessage => {
                self.counts.other = self.counts.other.saturating_add(1);
                Ok(None)
            }
            FrameClass::Foreign => {
                self.counts.foreign = self.counts.foreign.saturating_add(1);
                Ok(None)
            }
            FrameClass::Refused(fault) => {
                self.counts.refused = self.counts.refused.saturating_add(1);
                let line = report::refused_line(self.alloc, link, fault)?;
                write_lines(log, &line)?;
                Ok(None)
            }
            FrameClass::Dated(dated) => {
                let epoch = dated.epoch();
                self.remarks.put_slots(self.setup.channels(), reading);
                self.handle_message(link, dated, out, log)?;
                Ok(epoch)
            }
        }
    }

    // Offers a message to the window, counts it, and writes what comes of it.
    fn handle_message<O: Sink, L: Sink>(
        &mut self,
        link: LinkNumber,
        dated: DatedRef<'_>,
        out: &mut O,
        log: &mut L,
    ) -> Result<(), ConvertFault>
        requires under_way { IsUnderWay self.old }
        requires taken { IsTakenBy self.old.setup (message_of dated) }
        ensures stays { StaysUnderWay self.old result self.new }
        ensures handles { HandlesMessage self.old link dated.entry result self.new
            (written (O.taken out.old) (L.taken log.old)) (written (O.taken out.new) (L.taken log.new)) }
        ensures failed { NamesFailedStreams result (O.failures out.old) (O.failures out.new) (L.failures log.old) (L.failures log.new) }
    {
        let (number, epoch) = (dated.number(), dated.epoch());
        let sbas = brings_sbas(&self.setup, &dated);
        let class = self
            .epochs
            .add(self.alloc, &self.setup, link, dated, out, log)?;
        count_message(&mut self.counts, class);
        put_system(&mut self.remarks.systems, number, epoch, class);
        put_sbas(&mut self.remarks.systems, sbas, class);
        Ok(())
    }
}

impl Conversion {
    /// Ends the conversion. It writes the records of the epochs that are open, rising, and the
    /// header if it is not out, to `out`, and the last lines to `log`.
    pub(crate) fn finish<O: Sink, L: Sink>(
        self,
        out: &mut O,
        log: &mut L,
    ) -> Result<Counts, ConvertFault>
        ensures refused { RefusesStopped self.stopped result out.old out.new log.old log.new }
        ensures ends { self.stopped ≡ false → EndsConversion self result
            (written (O.taken out.old) (L.taken log.old)) (written (O.taken out.new) (L.taken log.new)) }
        ensures failed { NamesFailedStreams result (O.failures out.old) (O.failures out.new) (L.failures log.old) (L.failures log.new) }
    {
        if self.stopped {
            return Err(ConvertFault::Stopped);
        }
        let (alloc, setup) = (self.alloc, self.setup);
        let mut counts = self.counts;
        counts.epochs = self.epochs.finish(alloc, &setup, out)?;
        let lines = report::last_lines(alloc, &setup, self.remarks, &counts)?;
        write_lines(log, &lines)?;
        Ok(counts)
    }
}

// Returns the system of an observation of this number. Most are of GPS.
fn system_of(number: u16) -> System
    ensures { result ≡ system_of_number number }
{
    match number {
        1004 | 1074..=1077 => System::Gps,
        1012 => System::Glonass,
        _ => match MsmType::of_number(number) {
            Some(msm_type) => msm_type.system,
            None => System::Gps,
        },
    }
}

// Puts the system of a message of this number, epoch and class into a set, if it is an observation that was
// taken.
fn put_system(systems: &mut Systems, number: u16, epoch: Option<GpsMs>, class: MessageClass)
    ensures { (system : System) → has_system systems.new system ≡ (brings_by number epoch (class_named class) system || has_system systems.old system) }
{
    if epoch.is_none() {
        return;
    }
    match class {
        MessageClass::Taken => systems.put(system_of(number)),
        MessageClass::Late | MessageClass::Repeat | MessageClass::Conflict => {}
    }
}

// The satellite IDs of SBAS in a 1004 (DF009), for PRN 120 to 138.
const FIRST_SBAS: u8 = 40;

const LAST_SBAS: u8 = 58;

// Returns whether a satellite ID is of SBAS.
fn is_sbas(number: u8) -> bool
    ensures { result ≡ is_sbas_number number }
{
    FIRST_SBAS <= number && number <= LAST_SBAS
}

// Returns whether some of the satellites of a 1004 is of SBAS.
fn is_any_of_sbas(satellites: &[Satellite]) -> bool
    ensures { result ≡ list_any (λ s. is_sbas_number s.satellite) satellites.now }
{
    for satellite in satellites {
        if is_sbas(satellite.satellite) {
            return true;
        }
    }
    false
}

// Returns whether a message is a 1004 with a satellite of SBAS.
fn holds_sbas(message: &Message) -> bool
    ensures { result ≡ holds_sbas (AnyMessage.Message message.now) }
{
    match message {
        Message::Obs1004(message) => is_any_of_sbas(message.satellites.as_slice()),
        Message::Arp1005(_) | Message::Arp1006(_) | Message::Msm1074(_) => false,
    }
}

// Returns whether a message is a 1004 with a satellite of SBAS, whose cells the setup takes. Few setups do.
fn brings_sbas(setup: &Setup, dated: &DatedRef<'_>) -> bool
    ensures { result ≡ brings_sbas setup.now (message_of dated.now) }
{
    if !setup.takes_sbas() {
        return false;
    }
    match dated.message() {
        Some(message) => holds_sbas(message),
        None => false,
    }
}

// Puts SBAS into a set, if a message of this class has satellites of it and was taken.
fn put_sbas(systems: &mut Systems, sbas: bool, class: MessageClass)
    ensures { (system : System) → has_system systems.new system ≡ (sbas_by sbas (class_named class) system || has_system systems.old system) }
{
    if !sbas {
        return;
    }
    match class {
        MessageClass::Taken => systems.put(System::Sbas),
        MessageClass::Late | MessageClass::Repeat | MessageClass::Conflict => {}
    }
}

// Counts a message of this class.
fn count_message(counts: &mut Counts, class: MessageClass)
    ensures { counts.new ≡ counted_as (class_named class) counts.old }
{
    match class {
        MessageClass::Late => counts.late = counts.late.saturating_add(1),
        MessageClass::Taken => counts.taken = counts.taken.saturating_add(1),
        MessageClass::Repeat => counts.repeat = counts.repeat.saturating_add(1),
        MessageClass::Conflict => counts.conflict = counts.conflict.saturating_add(1),
    }
}
