//! The station of a conversion: the one that is named, or else the first one that has an observation of a system that
//! dates.

ghost use Rattle.std.specs.Prelude.{◌≡◌, ℕ, List, [], ◌∷◌, length, Option, Some, Ok, Err, true, OnOk};
ghost use Rattle.rtk_message.specs.declared.any_message.AnyMessage.{AnyMessage};
ghost use Rattle.rtk_message.specs.declared.any_fault.AnyFault.{AnyFault};
ghost use Rattle.rtk_message.specs.AnyDecoded.{station_of};
ghost use Rattle.rtk_survey.specs.BesideGps.{cells_beside_gps};
ghost use Rattle.rtk_survey.specs.CaptureDates.{no_dates};
ghost use Rattle.rtk_survey.specs.ClockSpans.{followed_with_value};
ghost use Rattle.rtk_survey.specs.StationClocks.{clocks_by_station, with_time_for, with_time_for_if_any};
ghost use Rattle.rtk_survey.specs.Counting.{shown_count};
ghost use Rattle.rtk_survey.specs.Parting as parting;
ghost use Rattle.rtk_survey.specs.ReadFrames.{ReadFrame, read_frame};
ghost use Rattle.rtk_survey.specs.Targets as spec;
ghost use Rattle.rtk_survey.specs.Targets.{IsTargetOf, IsAnswer};
ghost use Rattle.rtk_survey.specs.Tracing.{entries_of_message};
ghost use Rattle.rtk_survey.specs.declared.dating_systems.DatingSystems.{DatingSystems};
ghost use Rattle.rtk_survey.specs.declared.target.Target.{Target};

use crate::capture_dates::CaptureDates;
use crate::clock_marks::{ClockMarks, marks_in};
use crate::clock_spans::{FollowedTime, followed_with_value};
use crate::date_message::{DateMessage, date_in};
use crate::dating_systems::DatingSystems;
use crate::equipment_message::{EquipmentMessage, equipment_in};
use crate::parting::Parting;
use crate::phases::Phases;
use crate::signals::have_value;
use crate::station_clocks::{StationClocks, no_clocks_followed, take_followed_time};
use crate::system_msm::gives_value;
use crate::system_phases::SystemPhases;
use crate::tellings::Told;
use crate::to_come::told_to_come;
use rtk_message::AnyMessage;
use rtk_obs::{CellEntry, GpsMs, SignalEntry};
use std::alloc::{AllocError, Global};
use std::collections::BTreeMap;

/// For which station a capture is surveyed.
#[derive(Clone, Copy, Debug, PartialEq, Eq)]
pub struct Target {
    /// The station, if one is named.
    pub station: Option<u16>,
    /// The systems whose observations date.
    pub systems: DatingSystems,
    /// The present: no date is after it.
    pub present: GpsMs,
}

/// The station that is known, and what a capture tells of its epochs.
#[derive(Clone, Drop)]
pub struct TargetDates {
    /// The systems whose observations date.
    pub systems: DatingSystems,
    /// The station that was named, or else the first one that had an observation of such a system.
    pub station: Option<u16>,
    pub capture: CaptureDates,
}

/// When messages told an antenna and a receiver last: the time of week of the epoch before the message, in
/// ms. `None` if no epoch of the station came before it, or no such message.
#[derive(Clone, Copy, Debug, PartialEq, Eq)]
pub struct EquipmentTimes {
    /// Of a 1007, 1008 or 1033.
    pub antenna: Option<u32>,
    /// Of a 1033.
    pub receiver: Option<u32>,
}

/// What a capture tells of the station of a conversion.
#[derive(Drop)]
pub struct TargetSurvey {
    /// The present: no date is after it.
    pub present: GpsMs,
    pub dates: TargetDates,
    pub phases: Phases,
    /// When its antenna and its receiver were told last.
    pub equipment: EquipmentTimes,
    /// Where a second date begins.
    pub parting: Parting,
    /// The first message with a date, of any station, that is passed over since it is to come, with the moment that it
    /// names.
    pub to_come: Option<Told>,
    /// How far the clocks of GLONASS and BeiDou of each station go.
    pub clocks: BTreeMap<u16, StationClocks>,
    /// Its phases of other systems than GPS.
    pub system_phases: SystemPhases,
}

// Has a message with these cells an observation of GPS?
fn observes_gps(_message: &AnyMessage, entries: &[CellEntry]) -> bool
    requires { entries.now ≡ entries_of_message _message.now }
    ensures { result ≡ spec.observes_gps _message.now }
{
    have_value(entries)
}

// Has a message with these cells an observation of a system that dates?
fn observes(
    systems: &DatingSystems,
    message: &AnyMessage,
    entries: &[CellEntry],
    signals: &[SignalEntry],
) -> bool
    requires entries { entries.now ≡ entries_of_message message.now }
    requires signals { signals.now ≡ cells_beside_gps message.now }
    ensures { result ≡ spec.observes systems.now message.now }
{
    (observes_gps(message, entries) && systems.gps)
        || (gives_value(message, signals) && systems.have_part(message))
}

impl TargetDates {
    // Nothing came; this station is named, or none.
    fn new(systems: DatingSystems, station: Option<u16>) -> TargetDates
        ensures { result ≡ spec.dates_with systems station no_dates }
    {
        TargetDates {
            systems,
            station,
            capture: CaptureDates::new(),
        }
    }

    // A message more that has an observation.
    fn take_observation(&mut self, now: GpsMs, message: &AnyMessage)
        requires { spec.observes self.old.systems message.now ≡ true }
        ensures { self.new ≡ spec.with_observation now self.old message.now }
    {
        let Some(tow) = message.tow() else {
            return;
        };
        let station = message.station();
        if self.station.unwrap_or(station) == station {
            self.station = Some(station);
            self.capture.take_epoch(now, station, tow);
        }
    }

    // A message more, if it has a date.
    fn take_date(&mut self, now: GpsMs, message: Option<DateMessage>)
        ensures { self.new ≡ spec.with_date_if_any now self.old message }
    {
        let Some(message) = message else {
            return;
        };
        match self.station {
            Some(station) => self.capture.take_date(now, station, message),
            None => self.capture.wait(message),
        }
    }
}

// The time of week of the last epoch of a station, if this station is known and has one.
fn time_at(dates: &TargetDates, station: u16) -> Option<u32>
    ensures { result ≡ spec.time_at dates.now station }
{
    let Some(span) = &dates.capture.span else {
        return None;
    };
    if dates.station.unwrap_or(station) == station {
        Some(span.last_time_of_week())
    } else {
        None
    }
}

impl EquipmentTimes {
    // No message came.
    fn new() -> EquipmentTimes
        ensures { result ≡ spec.no_times }
    {
        EquipmentTimes {
            antenna: None,
            receiver: None,
        }
    }

    // A message more at this time of week.
    fn take_at(&mut self, tow: u32, has_receiver: bool)
        ensures { self.new ≡ spec.with_message_at tow has_receiver self.old }
    {
        self.antenna = Some(tow);
        if has_receiver {
            self.receiver = Some(tow);
        }
    }

    // A message more, if it tells an antenna, after these epochs.
    fn take(&mut self, dates: &TargetDates, message: Option<EquipmentMessage>)
        ensures { self.new ≡ spec.with_equipment_if_any dates.now self.old message }
    {
        let Some(message) = message else {
            return;
        };
        if let Some(tow) = time_at(dates, message.station) {
            self.take_at(tow, message.receiver.is_some());
        }
    }
}

// The first date that is to come: one that was told before, or else this one.
fn first_to_come(now: GpsMs, before: Option<Told>, message: Option<DateMessage>) -> Option<Told>
    ensures { result ≡ spec.first_to_come now before message }
{
    match (before, message) {
        (None, Some(message)) => told_to_come(now, &message),
        _ => before,
    }
}

fn take_message(
    dates: &mut TargetDates,
    now: GpsMs,
    message: &AnyMessage,
    entries: &[CellEntry],
    signals: &[SignalEntry],
)
    requires entries { entries.now ≡ entries_of_message message.now }
    requires signals { signals.now ≡ cells_beside_gps message.now }
    ensures { dates.new ≡ spec.with_observation now dates.old message.now }
{
    if observes(&dates.systems, message, entries, signals) {
        dates.take_observation(now, message);
    }
}

// Counts the phases of GPS of a message, if it is of the station that is now known.
fn take_phases(
    alloc: Global,
    phases: &mut Phases,
    station: Option<u16>,
    message: &AnyMessage,
    entries: &[CellEntry],
) -> Result<(), AllocError>
    requires { entries.now ≡ entries_of_message message.now }
    ensures { OnOk result ((systems : DatingSystems) (before : Option ℕ) (ms : List AnyMessage) → systems.gps ≡ true
        → station ≡ spec.station_after systems before message.now
        → spec.HasTargetPhases phases.old before ms → spec.HasTargetPhases phases.new station (message.now ∷ ms)) }
{
    let Some(station) = station else {
        return Ok(());
    };
    if message.station() == station {
        return phases.take_message(alloc, message, entries);
    }
    Ok(())
}

/// The epochs of a station, or before the first of them the dates that it names, if no other station is known.
pub fn marks_if_known(now: GpsMs, dates: &TargetDates, station: u16) -> Option<ClockMarks>
    ensures { result ≡ spec.marks_if_known now station dates.now }
{
    if dates.station.unwrap_or(station) == station {
        marks_in(now, station, &dates.capture)
    } else {
        None
    }
}

// A message more that tells this time of a clock that gives no epoch.
fn take_time_of(
    clocks: &mut BTreeMap<u16, StationClocks>,
    now: GpsMs,
    dates: &TargetDates,
    message: &AnyMessage,
    told: FollowedTime,
) -> Result<(), AllocError>
    ensures { OnOk result ((n : ℕ) → clocks_by_station clocks.new n
        ≡ with_time_for n (station_of message.now) (spec.marks_if_known now (station_of message.now) dates.now) told (clocks_by_station clocks.old n)) }
{
    let station = message.station();
    let marks = marks_if_known(now, dates, station);
    take_followed_time(clocks, station, &marks, told)
}

// A message more, if it has a value and tells such a clock.
fn take_clock_time(
    clocks: &mut BTreeMap<u16, StationClocks>,
    now: GpsMs,
    dates: &TargetDates,
    message: &AnyMessage,
    signals: &[SignalEntry],
) -> Result<(), AllocError>
    requires { signals.now ≡ cells_beside_gps message.now }
    ensures { OnOk result ((n : ℕ) → clocks_by_station clocks.new n
        ≡ with_time_for_if_any n (station_of message.now) (spec.marks_if_known now (station_of message.now) dates.now)
        (followed_with_value message.now) (clocks_by_station clocks.old n)) }
{
    match followed_with_value(message, signals) {
        Some(told) => take_time_of(clocks, now, dates, message, told),
        None => Ok(()),
    }
}

impl TargetSurvey {
    // Nothing came.
    fn new(alloc: Global, target: &Target) -> TargetSurvey
        ensures { IsTargetOf target.now [] result }
    {
        TargetSurvey {
            present: target.present,
            dates: TargetDates::new(target.systems, target.station),
            phases: Phases::new(alloc),
            equipment: EquipmentTimes::new(),
            parting: Parting::new(),
            to_come: None,
            clocks: no_clocks_followed(alloc),
            system_phases: SystemPhases::new(alloc, target.station),
        }
    }

    // A frame more that is this message.
    fn take_message(
        &mut self,
        alloc: Global,
        message: &AnyMessage,
        entries: &[CellEntry],
        signals: &[SignalEntry],
        frame: u64,
    ) -> Result<(), AllocError>
        requires entries { entries.now ≡ entries_of_message message.now }
        requires signals { signals.now ≡ cells_beside_gps message.now }
        ensures { OnOk result ((q : Target) (fs : List ReadFrame) (payload : List ℕ) → frame ≡ shown_count (length fs)
            → IsTargetOf q fs self.old → IsTargetOf q (read_frame payload (Ok message.now) ∷ fs) self.new) }
    {
        let present = self.present;
        take_clock_time(&mut self.clocks, present, &self.dates, message, signals)?;
        let (station, before) = (self.dates.station, self.dates.capture.span);
        take_message(&mut self.dates, self.present, message, entries, signals);
        let after = self.dates.capture.span;
        self.parting
            .take_message_of(station, message, before, after, frame);
        self.system_phases.count_phases(alloc, message, signals)?;
        take_phases(
            alloc,
            &mut self.phases,
            self.dates.station,
            message,
            entries,
        )
    }

    // A message more, if it has a date.
    fn take_date(&mut self, message: Option<DateMessage>, frame: u64)
        ensures dates { self.new.dates ≡ spec.with_date_if_any self.old.present self.old.dates message }
        ensures parting { self.new.parting ≡ parting.parting_with_date self.old.present self.old.dates.station self.old.dates.capture message frame self.old.parting }
        ensures to_come { self.new.to_come ≡ spec.first_to_come self.old.present self.old.to_come message }
        ensures others { (self.new.present ≡ self.old.present) × (self.new.phases ≡ self.old.phases) × (self.new.equipment ≡ self.old.equipment)
            × (self.new.clocks ≡ self.old.clocks) }
        ensures system_phases { self.new.system_phases ≡ self.old.system_phases }
    {
        self.to_come = first_to_come(self.present, self.to_come, message);
        let (station, capture) = (self.dates.station, &self.dates.capture);
        self.parting
            .take_date(self.present, station, capture, message, frame);
        self.dates.take_date(self.present, message);
    }

    // A frame more that is no message.
    fn take_fault(&mut self, payload: &[u8], frame: u64)
        ensures { (q : Target) (fs : List ReadFrame) (fault : AnyFault) → frame ≡ shown_count (length fs) → IsTargetOf q fs self.old
            → IsTargetOf q (read_frame payload.now (Err fault) ∷ fs) self.new }
    {
        self.equipment.take(&self.dates, equipment_in(payload));
        self.take_date(date_in(payload), frame);
    }
}

/// Nothing came.
pub(crate) fn answer_to(alloc: Global, target: Option<Target>) -> Option<TargetSurvey>
    ensures { IsAnswer target [] result }
{
    match target {
        Some(target) => Some(TargetSurvey::new(alloc, &target)),
        None => None,
    }
}

/// A frame more that is this message, if the station is asked for; so many frames came before it.
pub(crate) fn take_target_message(
    alloc: Global,
    answer: &mut Option<TargetSurvey>,
    message: &AnyMessage,
    entries: &[CellEntry],
    signals: &[SignalEntry],
    frame: u64,
) -> Result<(), AllocError>
    requires entries { entries.now ≡ entries_of_message message.now }
    requires signals { signals.now ≡ cells_beside_gps message.now }
    ensures { OnOk result ((q : Option Target) (fs : List ReadFrame) (payload : List ℕ) → frame ≡ shown_count (length fs)
        → IsAnswer q fs answer.old → IsAnswer q (read_frame payload (Ok message.now) ∷ fs) answer.new) }
{
    match answer {
        Some(survey) => survey.take_message(alloc, message, entries, signals, frame),
        None => Ok(()),
    }
}

/// A frame more that is no message, if the station is asked for; so many frames came before it.
pub(crate) fn take_target_fault(answer: &mut Option<TargetSurvey>, payload: &[u8], frame: u64)
    ensures { (q : Option Target) (fs : List ReadFrame) (fault : AnyFault) → frame ≡ shown_count (length fs) → IsAnswer q fs answer.old
        → IsAnswer q (read_frame payload.now (Err fault) ∷ fs) answer.new }
{
    if let Some(survey) = answer {
        survey.take_fault(payload, frame);
    }
}
