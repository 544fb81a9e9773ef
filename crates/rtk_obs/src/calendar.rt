//! The civil reading of a moment, and the moment of a reading, by `jiff`'s calendar.

ghost use Rattle.std.specs.Prelude.{◌≡◌, ℕ, ◌≤◌, pos, ◌≤ℤ◌, Option, Some, MatchOption};
ghost use Rattle.std.specs.Option.{SomeIff};
ghost use Rattle.rtk_obs.specs.declared.time.TheConstants.{LAST_MS};
ghost use Rattle.rtk_obs.specs.Calendar.{IsOnDay, IsTimeOfDay, ReadsAs, IsInYears, ms_of_day};
ghost use Rattle.rtk_obs.specs.declared.time.Civil.{Civil};

use crate::time::{Civil, GpsMs};
use jiff_core::civil::Date;

const DAY_MS: u64 = 86_400_000;

// The days from jiff's first day, -9999-01-01, to 1980-01-06.
const FIRST_DAY: u32 = 4_371_587 + 3657;

// Returns the year of a date that isn't before the year 0.
fn year_of(date: Date) -> u16
    requires { pos 0 ≤ℤ date.year }
    ensures { pos result ≡ date.year }
{
    date.year.unsigned_abs()
}

/// Returns the civil reading of a moment in GPS time, whose days have 86,400 seconds.
pub fn civil(time: GpsMs) -> Civil
    ensures reading { ReadsAs time result }
    ensures years { IsInYears result.year }
{
    let ms = time.ms();
    let date = Date::from_days_since_min(FIRST_DAY + (ms / DAY_MS) as u32);
    let rest = (ms % DAY_MS) as u32;
    Civil {
        year: year_of(date),
        month: date.month,
        day: date.day,
        hour: (rest / 3_600_000) as u8,
        minute: (rest / 60_000 % 60) as u8,
        second: (rest / 1000 % 60) as u8,
        millisecond: (rest % 1000) as u16,
    }
}

// Returns how many days lie between 1980-01-06 and the day of a reading, if the calendar has that
// day and it isn't before 1980-01-06.
fn day_of(reading: Civil) -> Option<u32>
    ensures { MatchOption result ((k : ℕ) → ¬ (IsOnDay k reading)) (λ k. IsOnDay k reading) }
{
    let Ok(year) = i16::try_from(reading.year) else {
        return None;
    };
    let Ok(month) = i8::try_from(reading.month) else {
        return None;
    };
    let Ok(day) = i8::try_from(reading.day) else {
        return None;
    };
    let Ok(date) = Date::new(year, month, day) else {
        return None;
    };
    date.days_since_min().checked_sub(FIRST_DAY)
}

// Returns the milliseconds since midnight of a reading, if it shows a time of day.
fn time_of_day(reading: Civil) -> Option<u32>
    ensures { SomeIff result (IsTimeOfDay reading) (ms_of_day reading) }
{
    if reading.hour >= 24
        || reading.minute >= 60
        || reading.second >= 60
        || reading.millisecond >= 1000
    {
        return None;
    }
    let minutes = u32::from(reading.hour) * 60 + u32::from(reading.minute);
    let seconds = minutes * 60 + u32::from(reading.second);
    Some(seconds * 1000 + u32::from(reading.millisecond))
}

/// Returns the moment that a reading names, or `None` exactly if the calendar has no such day, the
/// clock has no such time, or the moment lies outside `GpsMs`.
pub fn of_civil(reading: Civil) -> Option<GpsMs>
    ensures { MatchOption result ((t : ℕ) → t ≤ LAST_MS → ¬ (ReadsAs t reading)) (λ t. ReadsAs t reading) }
{
    let day = day_of(reading)?;
    let rest = time_of_day(reading)?;
    GpsMs::new(u64::from(day) * DAY_MS + u64::from(rest))
}
