//! The moment of a time that GLONASS tells.

ghost use Rattle.std.specs.Prelude.{◌≡◌, ◌<◌, ◌≤◌};
ghost use Rattle.std.specs.Bool.{Decides};
ghost use Rattle.rtk_obs.specs.Dating.{IsReference};
ghost use Rattle.rtk_obs.specs.LeapSeconds.{IsLastRow};
ghost use Rattle.rtk_obs.specs.GlonassTime.{glonass_time_of, glonass_tow, glonass_tod, known_day, IsDatedInDay, IsMomentWith, HasBegunBy, IsNumberOf, IsGlonassMoment};

use crate::dating::{WEEK_MS, date};
use crate::leap_seconds::{LEAP_SECONDS, leap_start};
use crate::time::GpsMs;

/// A time that a message of GLONASS tells: Moscow time, which is 3 h ahead of UTC.
#[derive(Clone, Copy, Debug, PartialEq, Eq)]
pub struct GlonassTime {
    /// The day of the week in Moscow (DF416), from 0 for Sunday to 6; `None` if the message tells none.
    pub day: Option<u8>,
    /// The time of day in Moscow (DF034), in ms.
    pub time_of_day_ms: u32,
}

const DAY_MS: u64 = 86_400_000;

const HALF_DAY_MS: u64 = DAY_MS / 2;

// By how much Moscow time is ahead of UTC.
const MOSCOW_MS: u64 = 10_800_000;

// The clock of an MSM has 3 bits of the day before 27 bits of the time of day.
const TIME_OF_DAY: u32 = 1 << 27;

// Returns a day of the week, of which 7 is unknown.
fn known_day(day: u32) -> Option<u8>
    ensures { result ≡ known_day day }
{
    if day < 7 { Some(day as u8) } else { None }
}

// Returns the GPS time of week of a day of the week and a time of day in Moscow.
fn time_of_week(day: u8, ms: u32, leap_seconds: u8) -> u32
    ensures value { result ≡ glonass_tow day ms leap_seconds }
    ensures bound { result < WEEK_MS }
{
    let moscow = DAY_MS * u64::from(day) + u64::from(ms);
    let gps = moscow + 1000 * u64::from(leap_seconds) + (WEEK_MS - MOSCOW_MS);
    (gps % WEEK_MS) as u32
}

// Returns the GPS time of day of a time of day in Moscow.
fn time_of_day(ms: u32, leap_seconds: u8) -> u64
    ensures value { result ≡ glonass_tod ms leap_seconds }
    ensures bound { result < DAY_MS }
{
    (u64::from(ms) + 1000 * u64::from(leap_seconds) + (DAY_MS - MOSCOW_MS)) % DAY_MS
}

// Returns the moment with this time of day that lies nearest to a reference. If two moments are half a
// day away, it is the one before the reference.
fn date_in_day(near: GpsMs, time_of_day: u64) -> GpsMs
    requires reference { IsReference near }
    requires in_day { time_of_day < DAY_MS }
    ensures { IsDatedInDay near time_of_day result }
{
    let first = near.ms() - HALF_DAY_MS;
    let ahead = (time_of_day + DAY_MS - first % DAY_MS) % DAY_MS;
    GpsMs::at(first + ahead)
}

impl GlonassTime {
    /// Returns the time that the clock of an MSM tells, the 30 bits after the station ID.
    pub fn of_clock(clock: u32) -> GlonassTime
        ensures { result ≡ glonass_time_of clock }
    {
        GlonassTime {
            day: known_day(clock / TIME_OF_DAY),
            time_of_day_ms: clock % TIME_OF_DAY,
        }
    }

    /// Returns the moment of this time near a reference, with a number of leap seconds.
    ///
    /// It lies within half a week of the reference, or within half a day if the day is not known.
    pub fn date_with(self, near: GpsMs, leap_seconds: u8) -> GpsMs
        requires { IsReference near }
        ensures { IsMomentWith near self leap_seconds result }
    {
        match self.day {
            Some(day) => date(near, time_of_week(day, self.time_of_day_ms, leap_seconds)),
            None => date_in_day(near, time_of_day(self.time_of_day_ms, leap_seconds)),
        }
    }

    // Returns whether the moment that a number of leap seconds gives is not before the GPS time from
    // which on there are so many.
    fn has_begun(self, near: GpsMs, leap_seconds: u8) -> bool
        requires reference { IsReference near }
        requires some { 1 ≤ leap_seconds }
        requires known { leap_seconds ≤ LEAP_SECONDS }
        ensures { Decides result (HasBegunBy near self leap_seconds) }
    {
        leap_start(leap_seconds) <= self.date_with(near, leap_seconds).ms()
    }

    // Returns the number of leap seconds by the table.
    fn leap_seconds(self, near: GpsMs) -> u8
        requires { IsReference near }
        ensures { IsLastRow (HasBegunBy near self) result }
    {
        let mut leap_seconds = LEAP_SECONDS;
        while 0 < leap_seconds {
            if self.has_begun(near, leap_seconds) {
                return leap_seconds;
            }
            leap_seconds -= 1;
        }
        0
    }

    // Returns the number of leap seconds that was given, or else the one by the table.
    fn number(self, near: GpsMs, given: Option<u8>) -> u8
        requires { IsReference near }
        ensures { IsNumberOf near self given result }
    {
        match given {
            Some(leap_seconds) => leap_seconds,
            None => self.leap_seconds(near),
        }
    }

    /// Returns the moment of this time near a reference.
    ///
    /// If no number of leap seconds is given, it is that of the last row of the table whose GPS time is
    /// at or before the moment that the number gives. A leap second has the same time of day as the
    /// second after it, so it is dated a second late.
    pub fn date(self, near: GpsMs, leap_seconds: Option<u8>) -> GpsMs
        requires { IsReference near }
        ensures { IsGlonassMoment near self leap_seconds result }
    {
        self.date_with(near, self.number(near, leap_seconds))
    }
}
