//! What the frames of a capture hold, as far as they were read.

ghost use Rattle.std.specs.Prelude.{◌≡◌, ◌+◌, ◌∷◌, [], List, Option, Ok, Err, OnOk};
ghost use Rattle.std.specs.List.{cons_option};
ghost use Rattle.rtk_bits.specs.Bits.{bits};
ghost use Rattle.rtk_message.specs.declared.any_message.AnyMessage.{AnyMessage};
ghost use Rattle.rtk_survey.specs.BesideGps.{cells_beside_gps};
ghost use Rattle.rtk_survey.specs.Contents.{AreStations, CountsBeside, CountsWeeks, HasSystemTellings, HoldsFrames, others_held};
ghost use Rattle.rtk_survey.specs.DateMessages.{date_in};
ghost use Rattle.rtk_survey.specs.EquipmentMessages.{equipment_in};
ghost use Rattle.rtk_survey.specs.ReadFrames.{ReadFrame, read_frame};
ghost use Rattle.rtk_survey.specs.SystemMessages.{system_message_in};
ghost use Rattle.rtk_survey.specs.Tracing.{entries_of_message};
ghost use Rattle.rtk_survey.specs.declared.date_message.DateMessage.{DateMessage};
ghost use Rattle.rtk_survey.specs.declared.equipment_message.EquipmentMessage.{EquipmentMessage};
ghost use Rattle.rtk_survey.specs.declared.system_message.SystemMessage.{SystemMessage};
ghost use Rattle.rtk_survey.specs.declared.target.Target.{Target};

use crate::beside_gps::is_beside_gps;
use crate::date_message::{DateMessage, date_in};
use crate::dayless::count_dayless;
use crate::equipment_message::equipment_in;
use crate::signals::Codes;
use crate::station::StationSurvey;
use crate::stations::{take_date, take_equipment, take_message};
use crate::system_message::system_message_in;
use crate::system_signals::SystemSignals;
use crate::system_tellings::SystemTellings;
use crate::target::{Target, TargetSurvey, answer_to, take_target_fault, take_target_message};
use crate::unread::{Unread, count_number, count_of_number};
use rtk_message::{AnyFault, AnyMessage};
use rtk_obs::{CellEntry, SignalEntry};
use std::alloc::{AllocError, Global};
use std::collections::BTreeMap;

/// What the frames of a capture hold. Counts stop at the greatest `u64`.
#[derive(Drop)]
pub struct Contents {
    pub frames: u64,
    /// The bytes in frames.
    pub framed: u64,
    /// The stations that were heard, by number (DF003).
    pub stations: BTreeMap<u16, StationSurvey>,
    /// The codes of GPS of all stations.
    pub codes: Codes,
    /// The satellites and codes of other systems of all stations.
    pub system_signals: SystemSignals,
    /// How many 1019 name each week modulo 1,024 (DF076).
    pub weeks: BTreeMap<u16, u64>,
    /// What 1042, 1045, 1046, 1020 and 1013 tell.
    pub system_tellings: SystemTellings,
    pub unread: Unread,
    /// How many messages of other systems than GPS came, by number (DF002).
    pub beside: BTreeMap<u16, u64>,
    /// What they tell of the station of a conversion, if it is asked for.
    pub target: Option<TargetSurvey>,
    /// How many MSM of GLONASS tell no day (DF416 7), by number (DF002). A conversion without 1012 can't read them.
    pub dayless: BTreeMap<u16, u64>,
}

// Counts what a message tells of a date.
fn take_date_message(
    alloc: Global,
    stations: &mut BTreeMap<u16, StationSurvey>,
    weeks: &mut BTreeMap<u16, u64>,
    message: DateMessage,
) -> Result<(), AllocError>
    ensures stations { OnOk result ((ms : List AnyMessage) (ds : List DateMessage) (es : List EquipmentMessage)
        → AreStations ms ds es stations.old → AreStations ms (message ∷ ds) es stations.new) }
    ensures weeks { OnOk result ((ds : List DateMessage) → CountsWeeks weeks.old ds → CountsWeeks weeks.new (message ∷ ds)) }
{
    match message {
        DateMessage::Utc(date) => take_date(alloc, stations, date),
        DateMessage::Ephemeris(ephemeris) => count_number(weeks, ephemeris.week),
        DateMessage::OtherEphemeris(_week) => Ok(()),
    }
}

// Counts what a payload tells of a date, if it is such a message.
fn take_dates_in(
    alloc: Global,
    stations: &mut BTreeMap<u16, StationSurvey>,
    weeks: &mut BTreeMap<u16, u64>,
    payload: &[u8],
) -> Result<(), AllocError>
    ensures stations { OnOk result ((ms : List AnyMessage) (ds : List DateMessage) (es : List EquipmentMessage)
        → AreStations ms ds es stations.old → AreStations ms (cons_option (date_in (bits payload.now)) ds) es stations.new) }
    ensures weeks { OnOk result ((ds : List DateMessage) → CountsWeeks weeks.old ds
        → CountsWeeks weeks.new (cons_option (date_in (bits payload.now)) ds)) }
{
    match date_in(payload) {
        Some(message) => take_date_message(alloc, stations, weeks, message),
        None => Ok(()),
    }
}

// Takes what a payload tells of an antenna and a receiver, if it is such a message.
fn take_equipment_in(
    alloc: Global,
    stations: &mut BTreeMap<u16, StationSurvey>,
    payload: &[u8],
) -> Result<(), AllocError>
    ensures { OnOk result ((ms : List AnyMessage) (ds : List DateMessage) (es : List EquipmentMessage)
        → AreStations ms ds es stations.old → AreStations ms ds (cons_option (equipment_in payload.now) es) stations.new) }
{
    match equipment_in(payload) {
        Some(message) => take_equipment(alloc, stations, message),
        None => Ok(()),
    }
}

// Takes what a payload tells of weeks, channels or leap seconds, if it is such a message.
fn take_tellings_in(tellings: &mut SystemTellings, payload: &[u8]) -> Result<(), AllocError>
    ensures { OnOk result ((ts : List SystemMessage) → HasSystemTellings tellings.old ts
        → HasSystemTellings tellings.new (cons_option (system_message_in (bits payload.now)) ts)) }
{
    match system_message_in(payload) {
        Some(message) => tellings.take(&message),
        None => Ok(()),
    }
}

// Counts a message of another system than GPS.
fn count_beside(counts: &mut BTreeMap<u16, u64>, message: &AnyMessage) -> Result<(), AllocError>
    ensures { OnOk result ((ms : List AnyMessage) → CountsBeside counts.old ms → CountsBeside counts.new (message.now ∷ ms)) }
{
    if is_beside_gps(message) {
        count_number(counts, message.number())
    } else {
        Ok(())
    }
}

/// How many messages of a number came that a conversion of GPS does not read.
pub fn others_numbered(contents: &Contents, number: u16) -> u64
    ensures { result ≡ others_held contents.now number }
{
    let others = count_of_number(&contents.unread.others, number);
    others.saturating_add(count_of_number(&contents.beside, number))
}

impl Contents {
    /// No frame came.
    pub(crate) fn new(alloc: Global, target: Option<Target>) -> Contents
        ensures { HoldsFrames target [] result }
    {
        Contents {
            frames: 0,
            framed: 0,
            stations: BTreeMap::new(alloc),
            codes: Codes::new(),
            system_signals: SystemSignals::new(),
            weeks: BTreeMap::new(alloc),
            system_tellings: SystemTellings::new(alloc),
            unread: Unread::new(alloc),
            beside: BTreeMap::new(alloc),
            target: answer_to(alloc, target),
            dayless: BTreeMap::new(alloc),
        }
    }

    /// A frame more, whose payload is this message with these cells: those of GPS, and those of other
    /// systems.
    pub(crate) fn take_message(
        &mut self,
        alloc: Global,
        payload: &[u8],
        message: &AnyMessage,
        entries: &[CellEntry],
        signals: &[SignalEntry],
    ) -> Result<(), AllocError>
        requires entries { entries.now ≡ entries_of_message message.now }
        requires signals { signals.now ≡ cells_beside_gps message.now }
        ensures { OnOk result ((q : Option Target) (before : List ReadFrame) → HoldsFrames q before self.old
            → HoldsFrames q (read_frame payload.now (Ok message.now) ∷ before) self.new) }
    {
        let frame = self.frames;
        self.frames = frame.saturating_add(1);
        self.framed = self.framed.saturating_add(payload.len() as u64 + 6);
        let codes = Codes::of(entries);
        self.codes.join(&codes);
        self.system_signals.mark_entries(signals);
        count_beside(&mut self.beside, message)?;
        count_dayless(&mut self.dayless, message)?;
        take_message(alloc, &mut self.stations, message, entries, &codes, signals)?;
        take_target_message(alloc, &mut self.target, message, entries, signals, frame)
    }

    /// A frame more, whose payload is no message that is read. It may tell a date, an antenna or a
    /// receiver.
    pub(crate) fn take_fault(
        &mut self,
        alloc: Global,
        payload: &[u8],
        fault: AnyFault,
    ) -> Result<(), AllocError>
        ensures { OnOk result ((q : Option Target) (before : List ReadFrame) → HoldsFrames q before self.old
            → HoldsFrames q (read_frame payload.now (Err fault) ∷ before) self.new) }
    {
        let frame = self.frames;
        self.frames = frame.saturating_add(1);
        self.framed = self.framed.saturating_add(payload.len() as u64 + 6);
        self.unread.count_fault(fault)?;
        take_target_fault(&mut self.target, payload, frame);
        take_dates_in(alloc, &mut self.stations, &mut self.weeks, payload)?;
        take_tellings_in(&mut self.system_tellings, payload)?;
        take_equipment_in(alloc, &mut self.stations, payload)
    }
}
