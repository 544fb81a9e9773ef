//! What 1042, 1045, 1046, 1020 and 1013 tell: weeks of BeiDou and Galileo, channels of GLONASS and leap
//! seconds.

ghost use Rattle.std.specs.Prelude.{◌≡◌, ◌≢◌, ℕ, List, [], ◌∷◌, Some, OnOk};
ghost use Rattle.std.specs.BTreeMap.{get};
ghost use Rattle.std.specs.Ordering.{nat_cmp};
ghost use Rattle.rtk_survey.specs.Contents.{CountsSystemWeeks, HasSystemTellings};
ghost use Rattle.rtk_survey.specs.SystemTellings as spec;
ghost use Rattle.rtk_survey.specs.SystemTellings.{HasLeapRanges};
ghost use Rattle.rtk_survey.specs.declared.system_message.SystemMessage.{SystemMessage};

use crate::channels::{no_slots_told, take_slot_channel};
use crate::system_message::{LeapSeconds, SystemMessage};
use crate::unread::count_number;
use std::alloc::{AllocError, Global};
use std::collections::BTreeMap;

/// The least and the most leap seconds that were told.
#[derive(Clone, Copy, Debug, PartialEq, Eq)]
pub struct LeapRange {
    pub least: u8,
    pub greatest: u8,
}

/// What such messages tell.
#[derive(Drop)]
pub struct SystemTellings {
    /// How many 1042 name each week of BeiDou (DF489).
    pub weeks_1042: BTreeMap<u16, u64>,
    /// How many 1045 name each week of Galileo (DF289).
    pub weeks_1045: BTreeMap<u16, u64>,
    /// How many 1046 name each week of Galileo (DF289).
    pub weeks_1046: BTreeMap<u16, u64>,
    /// How many 1020, which name no station, tell each channel of each slot (`count_of_field`).
    pub channels: BTreeMap<u16, u64>,
    /// The leap seconds that 1013 tell, by station.
    pub leap_seconds: BTreeMap<u16, LeapRange>,
}

// ---- weeks

fn system_week_of(number: u16, message: &SystemMessage) -> Option<u16>
    ensures { result ≡ spec.system_week_of number message.now }
{
    match message {
        SystemMessage::Week(week) => {
            if week.number == number {
                Some(week.week)
            } else {
                None
            }
        }
        SystemMessage::Slot(_) | SystemMessage::Leap(_) => None,
    }
}

// Counts the week that a message of this number names.
fn count_week(
    weeks: &mut BTreeMap<u16, u64>,
    number: u16,
    message: &SystemMessage,
) -> Result<(), AllocError>
    ensures { OnOk result ((ts : List SystemMessage) → CountsSystemWeeks number weeks.old ts
        → CountsSystemWeeks number weeks.new (message.now ∷ ts)) }
{
    match system_week_of(number, message) {
        Some(week) => count_number(weeks, week),
        None => Ok(()),
    }
}

// ---- leap seconds

fn leap_in(message: &SystemMessage) -> Option<LeapSeconds>
    ensures { result ≡ spec.leap_in message.now }
{
    match message {
        SystemMessage::Week(_) | SystemMessage::Slot(_) => None,
        SystemMessage::Leap(leap) => Some(*leap),
    }
}

fn widened(range: LeapRange, seconds: u8) -> LeapRange
    ensures { result ≡ spec.widened range seconds }
{
    LeapRange {
        least: range.least.min(seconds),
        greatest: range.greatest.max(seconds),
    }
}

// Takes the leap seconds of a station.
fn take_seconds(ranges: &mut BTreeMap<u16, LeapRange>, leap: LeapSeconds) -> Result<(), AllocError>
    ensures own { OnOk result (get nat_cmp ranges.new leap.station ≡ Some (spec.leap_with (get nat_cmp ranges.old leap.station) leap.seconds)) }
    ensures others { OnOk result ((n : ℕ) → n ≢ leap.station → get nat_cmp ranges.new n ≡ get nat_cmp ranges.old n) }
{
    let told = LeapRange {
        least: leap.seconds,
        greatest: leap.seconds,
    };
    let range = ranges.entry(leap.station)?.or_insert(told);
    *range = widened(*range, leap.seconds);
    Ok(())
}

// Takes the leap seconds that a message tells.
fn take_leap(
    ranges: &mut BTreeMap<u16, LeapRange>,
    message: &SystemMessage,
) -> Result<(), AllocError>
    ensures { OnOk result ((ts : List SystemMessage) → HasLeapRanges ranges.old ts → HasLeapRanges ranges.new (message.now ∷ ts)) }
{
    match leap_in(message) {
        Some(leap) => take_seconds(ranges, leap),
        None => Ok(()),
    }
}

impl SystemTellings {
    /// Nothing came.
    pub(crate) fn new(alloc: Global) -> SystemTellings
        ensures { HasSystemTellings result [] }
    {
        SystemTellings {
            weeks_1042: BTreeMap::new(alloc),
            weeks_1045: BTreeMap::new(alloc),
            weeks_1046: BTreeMap::new(alloc),
            channels: no_slots_told(alloc),
            leap_seconds: BTreeMap::new(alloc),
        }
    }

    /// A message more.
    pub(crate) fn take(&mut self, message: &SystemMessage) -> Result<(), AllocError>
        ensures { OnOk result ((ts : List SystemMessage) → HasSystemTellings self.old ts
            → HasSystemTellings self.new (message.now ∷ ts)) }
    {
        count_week(&mut self.weeks_1042, 1042, message)?;
        count_week(&mut self.weeks_1045, 1045, message)?;
        count_week(&mut self.weeks_1046, 1046, message)?;
        take_slot_channel(&mut self.channels, message)?;
        take_leap(&mut self.leap_seconds, message)
    }
}
