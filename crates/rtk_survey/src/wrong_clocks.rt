//! Systems whose clocks are wrong, which the command of a station leaves out.

ghost use Rattle.std.specs.Prelude.{◌≡◌};
ghost use Rattle.rtk_survey.specs.WrongClocks as spec;

use crate::clock_chains::{ClockOffset, ClockOffsets};
use crate::clock_lines::{gps_ahead_with, leap_seconds_by, told_gps};
use crate::date_message::UtcDate;
use rtk_message::System;
use rtk_obs::WEEK_MS;

/// An offset of so many ms or more is wrong.
const WRONG_MS: u64 = 500;

fn count_if_right(leap_seconds: u8, offset: ClockOffset) -> u64
    ensures { result ≡ spec.count_if_right leap_seconds offset }
{
    if gps_ahead_with(leap_seconds, offset.ahead_ms) == 0 {
        offset.count
    } else {
        0
    }
}

// How many clocks are right.
fn right_clocks(leap_seconds: u8, offsets: &[ClockOffset]) -> u64
    ensures { result ≡ spec.right_clocks leap_seconds offsets.now }
{
    let mut count = 0u64;
    for offset in offsets {
        count = count.saturating_add(count_if_right(leap_seconds, *offset));
    }
    count
}

// Is the offset that is told wrong, and more frequent than right clocks?
fn is_wrong(right: u64, told: Option<ClockOffset>) -> bool
    ensures { result ≡ spec.is_wrong right told }
{
    match told {
        Some(offset) => {
            let ahead = u64::from(offset.ahead_ms);
            WRONG_MS <= ahead && ahead <= WEEK_MS - WRONG_MS && right < offset.count
        }
        None => false,
    }
}

fn are_wrong(leap_seconds: u8, offsets: &[ClockOffset]) -> bool
    ensures { result ≡ spec.are_wrong leap_seconds offsets.now }
{
    is_wrong(
        right_clocks(leap_seconds, offsets),
        told_gps(leap_seconds, offsets),
    )
}

fn are_wrong_at(date: Option<UtcDate>, offsets: &[ClockOffset]) -> bool
    ensures { result ≡ spec.are_wrong_at date offsets.now }
{
    match date {
        Some(date) => are_wrong(leap_seconds_by(date), offsets),
        None => false,
    }
}

/// Are the clocks of a system wrong? Those of GLONASS take the leap seconds of a date, and without one none
/// of them is known to be wrong.
#[tactic(auto, unfolding(crate::specs::WrongClocks::is_system_wrong))]
pub(crate) fn is_system_wrong(date: Option<UtcDate>, offsets: &ClockOffsets, system: System) -> bool
    ensures { result ≡ spec.is_system_wrong date offsets.now system }
{
    match system {
        System::Gps => false,
        System::Glonass => are_wrong_at(date, offsets.glonass.as_slice()),
        System::Galileo => are_wrong(0, offsets.galileo.as_slice()),
        System::Beidou => are_wrong(0, offsets.beidou.as_slice()),
        System::Qzss => are_wrong(0, offsets.qzss.as_slice()),
        System::Sbas => are_wrong(0, offsets.sbas.as_slice()),
        System::Navic => are_wrong(0, offsets.navic.as_slice()),
    }
}
