//! The leap seconds of a conversion.

ghost use Rattle.std.specs.Prelude.{◌≡◌, ◌≤◌, IfOk};
ghost use Rattle.rtk_rinex.specs.MixedHead.{has_glonass};
ghost use Rattle.rtk_systems.specs.FoundSeconds.{asks_glonass, AreSecondsOfSetup};
ghost use Rattle.rtk_captures.specs.Dating.{captures_of, IsSpanOf};
ghost use Rattle.rtk_plan.specs.Plan.{AreLeapSecondsOf, clock_seconds, seconds_are_found};
ghost use Rattle.rtk_systems.specs.SlotChannels.{AreSecondsChosen};

use crate::wanted::Wanted;
use rtk_captures::DatedSpan;
use rtk_obs::{AnyCode, GpsMs, leap_seconds_at};
use rtk_setup::{LeapSeconds, Setup};
use rtk_survey::CaptureSurvey;
use rtk_systems::{ClockSeconds, seconds_in_captures};
use std::alloc::{AllocError, Global};

/// The leap seconds that are given, else those of the table at a moment.
pub(crate) fn seconds_chosen(given: &Option<LeapSeconds>, near: GpsMs) -> u8
    ensures said { AreSecondsChosen given.now near result }
    ensures bound { result ≤ 99 }
{
    match given {
        Some(given) => given.number(),
        None => leap_seconds_at(near),
    }
}

fn number_if_any(given: &Option<LeapSeconds>) -> Option<u8>
    ensures { result ≡ given.now }
{
    match given {
        Some(given) => Some(given.number()),
        None => None,
    }
}

/// The leap seconds by which clocks are compared that are dated near a moment: those that are given, else those of the
/// table on the day of each clock.
pub(crate) fn seconds_compared(given: &Option<LeapSeconds>, near: GpsMs) -> ClockSeconds
    ensures { result ≡ clock_seconds given.now near }
{
    ClockSeconds {
        given: number_if_any(given),
        near,
    }
}

/// Is a listed code of GLONASS?
pub(crate) fn has_glonass(listed: &[AnyCode]) -> bool
    ensures { result ≡ has_glonass listed.now }
{
    for code in listed {
        if code.text()[0] == b'R' {
            return true;
        }
    }
    false
}

// Is GLONASS asked for?
fn asks_glonass(wanted: &Wanted) -> bool
    ensures { result ≡ asks_glonass wanted.now.codes wanted.now.systems }
{
    match &wanted.codes {
        Some(codes) => has_glonass(codes.as_slice()),
        None => wanted.systems.glonass,
    }
}

// The leap seconds that are given, else those that captures with these epochs tell.
fn seconds_said_or_found(
    alloc: Global,
    surveys: &[CaptureSurvey],
    station: u16,
    wanted: &Wanted,
    near: GpsMs,
    span: &DatedSpan,
) -> Result<Option<LeapSeconds>, AllocError>
    ensures { IfOk result (AreSecondsOfSetup wanted.now.leap_seconds (asks_glonass wanted.now.codes wanted.now.systems) surveys.now station near span.now.from span.now.until) }
{
    if let Some(given) = wanted.leap_seconds {
        return Ok(Some(given));
    }
    let asked = asks_glonass(wanted);
    let seconds = seconds_in_captures(alloc, asked, surveys, station, near, span.from, span.until)?;
    Ok(seconds)
}

/// The leap seconds of the setup of a station, whose captures have these epochs and are dated near this moment.
pub(crate) fn seconds_of_setup(
    alloc: Global,
    surveys: &[CaptureSurvey],
    station: u16,
    wanted: &Wanted,
    near: GpsMs,
    span: &DatedSpan,
) -> Result<Option<LeapSeconds>, AllocError>
    requires { IsSpanOf wanted.now.near (captures_of surveys.now station) station span.now }
    ensures { IfOk result (AreLeapSecondsOf surveys.now wanted.now station near) }
{
    let seconds = seconds_said_or_found(alloc, surveys, station, wanted, near, span)?;
    Ok(seconds)
}

/// Were the leap seconds of a setup found by the clocks of GLONASS: has it some, and are none given?
pub(crate) fn seconds_are_found(wanted: &Wanted, setup: &Setup) -> bool
    ensures { result ≡ seconds_are_found wanted.now.leap_seconds setup.now.leap_seconds }
{
    match wanted.leap_seconds {
        Some(_) => false,
        None => setup.leap_seconds().is_some(),
    }
}
