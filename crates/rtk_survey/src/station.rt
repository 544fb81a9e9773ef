//! What a capture tells of one station.

ghost use Rattle.std.specs.Prelude.{◌≡◌, List, [], ◌∷◌, OnOk};
ghost use Rattle.rtk_message.specs.declared.any_message.AnyMessage.{AnyMessage};
ghost use Rattle.rtk_survey.specs.BesideGps.{cells_beside_gps};
ghost use Rattle.rtk_survey.specs.Contents.{equipment_at, CountsMessages, HasCodes, IsStationOf};
ghost use Rattle.rtk_survey.specs.EquipmentHistory.{no_equipment, with_message};
ghost use Rattle.rtk_survey.specs.FrameDates.{no_station_dates, station_dates};
ghost use Rattle.rtk_survey.specs.Tracing.{entries_of_message};
ghost use Rattle.rtk_survey.specs.declared.date_message.DateMessage.{DateMessage};
ghost use Rattle.rtk_survey.specs.declared.date_message.DateMessage.TheVariants.{Utc};
ghost use Rattle.rtk_survey.specs.declared.equipment.Equipment.{Equipment};
ghost use Rattle.rtk_survey.specs.declared.station_dates.StationDates.{StationDates};

use crate::channels::{no_channels_told, take_channels};
use crate::clock_chains::{ClockSurvey, take_clock};
use crate::counting::count_if;
use crate::date_message::UtcDate;
use crate::equipment::Equipment;
use crate::equipment_message::EquipmentMessage;
use crate::msm_parts::MsmParts;
use crate::nameless::{count_nameless, no_nameless};
use crate::reference_point::{
    ReferencePoint, far_point_with, first_point_with, has_other_point_with,
};
use crate::sbas::has_sbas;
use crate::signals::{Codes, Signals};
use crate::station_dates::StationDates;
use crate::system_msm::{SystemMsm, no_systems, take_system_message};
use crate::system_signals::SystemSignals;
use crate::times_of_week::Times;
use rtk_message::AnyMessage;
use rtk_obs::{CellEntry, SignalEntry};
use std::alloc::{AllocError, Global};
use std::collections::BTreeMap;

/// How many messages of a station were read. Counts stop at the greatest `u64`.
#[derive(Clone, Copy, Debug, PartialEq, Eq)]
pub struct MessageCounts {
    /// Those of all numbers.
    pub messages: u64,
    pub obs_1004: u64,
    pub arp_1005: u64,
    pub arp_1006: u64,
    /// The 1004 that have a satellite of SBAS.
    pub sbas_1004: u64,
}

/// What one capture tells of a station that was heard in it.
#[derive(Drop)]
pub struct StationSurvey {
    pub counts: MessageCounts,
    /// The times of week of its observation messages of GPS, Galileo, QZSS, SBAS and NavIC.
    pub times: Times,
    /// The satellites and codes of GPS that have a value.
    pub signals: Signals,
    pub msm: MsmParts,
    /// The satellites and codes of other systems that have a value.
    pub system_signals: SystemSignals,
    /// Its messages of other systems, and its 1004 in which a satellite of SBAS has a value, by number (DF002).
    pub system_msm: BTreeMap<u16, SystemMsm>,
    /// How many messages tell each channel of each slot of GLONASS (`count_of_field`).
    pub channels: BTreeMap<u16, u64>,
    /// How far the clocks of its systems are apart: an entry, or none if each chain has one message.
    pub clocks: Vec<ClockSurvey>,
    /// That of its first 1005 or 1006 that has one.
    pub reference_point: Option<ReferencePoint>,
    /// The first one that is more than 100 m from it.
    pub far_point: Option<ReferencePoint>,
    /// The dates that its 1013 and 1029 tell.
    pub dates: StationDates,
    /// What its 1007, 1008 and 1033 tell: an entry, or none if there is no such message.
    pub equipment: Vec<Equipment>,
    /// How many of its messages have cells of satellites or signals without a name, by number (DF002).
    pub nameless: BTreeMap<u16, u64>,
    /// Has one of its 1005 or 1006 another reference point than the first that has one?
    pub has_other_point: bool,
}

impl MessageCounts {
    /// No message came.
    pub fn new() -> MessageCounts
        ensures { CountsMessages result [] }
    {
        MessageCounts {
            messages: 0,
            obs_1004: 0,
            arp_1005: 0,
            arp_1006: 0,
            sbas_1004: 0,
        }
    }

    /// Counts a message under its number, by its cells of other systems than GPS.
    pub(crate) fn count_message(&mut self, message: &AnyMessage, signals: &[SignalEntry])
        requires { signals.now ≡ cells_beside_gps message.now }
        ensures { (ms : List AnyMessage) → CountsMessages self.old ms → CountsMessages self.new (message.now ∷ ms) }
    {
        let number = message.number();
        self.messages = count_if(self.messages, true);
        self.obs_1004 = count_if(self.obs_1004, number == 1004);
        self.arp_1005 = count_if(self.arp_1005, number == 1005);
        self.arp_1006 = count_if(self.arp_1006, number == 1006);
        self.sbas_1004 = count_if(self.sbas_1004, has_sbas(message, signals));
    }
}

// A message more that tells an antenna or a receiver; the first one makes the entry.
fn take_equipment(entries: &mut Vec<Equipment>, message: EquipmentMessage) -> Result<(), AllocError>
    ensures { OnOk result (equipment_at entries.new ≡ with_message message (equipment_at entries.old)) }
{
    if entries.is_empty() {
        entries.push(Equipment::new())?;
    }
    entries[0].take(message);
    Ok(())
}

impl StationSurvey {
    /// Nothing came.
    pub(crate) fn new(alloc: Global) -> StationSurvey
        ensures { IsStationOf [] no_station_dates no_equipment result }
    {
        StationSurvey {
            counts: MessageCounts::new(),
            times: Times::new(),
            signals: Signals::new(),
            msm: MsmParts::new(),
            system_signals: SystemSignals::new(),
            system_msm: no_systems(alloc),
            channels: no_channels_told(alloc),
            clocks: Vec::new(alloc),
            reference_point: None,
            far_point: None,
            dates: StationDates::new(),
            equipment: Vec::new(alloc),
            nameless: no_nameless(alloc),
            has_other_point: false,
        }
    }

    /// A message more of the station, with its cells and their codes: those of GPS, and those of other systems.
    pub(crate) fn take_message(
        &mut self,
        message: &AnyMessage,
        entries: &[CellEntry],
        codes: &Codes,
        signals: &[SignalEntry],
    ) -> Result<(), AllocError>
        requires entries { entries.now ≡ entries_of_message message.now }
        requires codes { HasCodes codes.now (entries_of_message message.now) }
        requires signals { signals.now ≡ cells_beside_gps message.now }
        ensures { OnOk result ((ms : List AnyMessage) (d : StationDates) (e : Equipment) → IsStationOf ms d e self.old
            → IsStationOf (message.now ∷ ms) d e self.new) }
    {
        self.counts.count_message(message, signals);
        self.times.note_message(message);
        self.signals.mark_entries(entries);
        self.msm.add_message(message, entries, codes);
        self.system_signals.mark_entries(signals);
        let first = self.reference_point;
        self.far_point = far_point_with(first, self.far_point, message);
        self.has_other_point = has_other_point_with(first, self.has_other_point, message);
        self.reference_point = first_point_with(first, message);
        take_channels(&mut self.channels, message)?;
        take_clock(&mut self.clocks, message)?;
        count_nameless(&mut self.nameless, message, entries, signals)?;
        take_system_message(&mut self.system_msm, message, signals)
    }

    /// A 1013 or a 1029 more of the station.
    pub(crate) fn take_date(&mut self, date: UtcDate)
        ensures { (ms : List AnyMessage) (ds : List DateMessage) (e : Equipment)
            → IsStationOf ms (station_dates date.station ds) e self.old
            → IsStationOf ms (station_dates date.station (Utc date ∷ ds)) e self.new }
    {
        self.dates.count(date);
    }

    /// A 1007, 1008 or 1033 more of the station.
    pub(crate) fn take_equipment(&mut self, message: EquipmentMessage) -> Result<(), AllocError>
        ensures { OnOk result ((ms : List AnyMessage) (d : StationDates) (e : Equipment) → IsStationOf ms d e self.old
            → IsStationOf ms d (with_message message e) self.new) }
    {
        take_equipment(&mut self.equipment, message)
    }
}
