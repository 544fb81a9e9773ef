//! How many seconds GPS time is ahead of UTC.

ghost use Rattle.std.specs.Prelude.{◌≡◌, ◌≤◌};
ghost use Rattle.rtk_obs.specs.LeapSeconds.{leap_start, IsLeapSecondsAt};

use crate::time::GpsMs;

/// The leap seconds that the table knows.
pub(crate) const LEAP_SECONDS: u8 = 18;

// The days from 1980-01-06 to the UTC days that began after a leap second. The first came after 1 leap
// second, and each other one after one more. Source: IERS, Bulletin C.
const LEAP_DAYS: [u16; 18] = [
    542, // 1981-07-01
    907, // 1982-07-01
    1272, // 1983-07-01
    2003, // 1985-07-01
    2917, // 1988-01-01
    3648, // 1990-01-01
    4013, // 1991-01-01
    4560, // 1992-07-01
    4925, // 1993-07-01
    5290, // 1994-07-01
    5839, // 1996-01-01
    6386, // 1997-07-01
    6935, // 1999-01-01
    9492, // 2006-01-01
    10_588, // 2009-01-01
    11_865, // 2012-07-01
    12_960, // 2015-07-01
    13_510, // 2017-01-01
];

const DAY_MS: u64 = 86_400_000;

/// Returns the GPS time, in ms, from which on there are this many leap seconds.
pub(crate) fn leap_start(leap_seconds: u8) -> u64
    requires some { 1 ≤ leap_seconds }
    requires known { leap_seconds ≤ LEAP_SECONDS }
    ensures { result ≡ leap_start leap_seconds }
{
    let day = LEAP_DAYS[usize::from(leap_seconds) - 1];
    DAY_MS * u64::from(day) + 1000 * u64::from(leap_seconds)
}

/// Returns how many leap seconds there are at a moment, by which GPS time is ahead of UTC.
pub fn leap_seconds_at(time: GpsMs) -> u8
    ensures { IsLeapSecondsAt time result }
{
    let ms = time.ms();
    let mut leap_seconds = LEAP_SECONDS;
    while 0 < leap_seconds {
        if leap_start(leap_seconds) <= ms {
            return leap_seconds;
        }
        leap_seconds -= 1;
    }
    0
}
