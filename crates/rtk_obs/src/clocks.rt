//! The moment of the clock of a system.

ghost use Rattle.std.specs.Prelude.{◌≡◌, ◌<◌};
ghost use Rattle.rtk_obs.specs.Dating.{IsReference};
ghost use Rattle.rtk_obs.specs.Clocks.{IsClock, beidou_tow, IsClockMoment};

use crate::dating::{WEEK_MS, date};
use crate::glonass_time::GlonassTime;
use crate::time::GpsMs;
use rtk_message::System;

// By how much GPS time is ahead of BeiDou time.
const BEIDOU_MS: u64 = 14_000;

// Returns the GPS time of week of a BeiDou time of week.
fn beidou_tow(clock: u32) -> u32
    ensures value { result ≡ beidou_tow clock }
    ensures bound { result < WEEK_MS }
{
    ((u64::from(clock) + BEIDOU_MS) % WEEK_MS) as u32
}

/// Returns the moment of a clock of a system near a reference. The clock is the 30 bits after the
/// station ID of its MSM.
///
/// A number of leap seconds that is given replaces that of the table. Only GLONASS needs it.
pub fn date_clock(system: System, near: GpsMs, clock: u32, leap_seconds: Option<u8>) -> GpsMs
    requires reference { IsReference near }
    requires clock { IsClock system clock }
    ensures { IsClockMoment system near clock leap_seconds result }
{
    match system {
        System::Glonass => GlonassTime::of_clock(clock).date(near, leap_seconds),
        System::Beidou => date(near, beidou_tow(clock)),
        _ => date(near, clock),
    }
}
