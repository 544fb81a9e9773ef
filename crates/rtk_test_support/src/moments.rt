//! Moments of the tests, by their numbers; a number after the last moment ends the test.

ghost use Rattle.std.specs.Prelude.{◌≤◌, OkIff};
ghost use Rattle.rtk_obs.specs.declared.time.TheConstants.{LAST_MS};

use rtk_obs::GpsMs;
use std::test::Fail;

/// 2024-05-17 12:00:00.000.
pub const NOON: u64 = 1_399_982_400_000;

/// 2024-05-17 13:00:00.000.
pub const MADE: u64 = 1_399_986_000_000;

/// The moment with this number of milliseconds since 1980-01-06 00:00:00.000 (GPS time).
pub fn moment(ms: u64) -> Result<GpsMs, Fail>
    ensures { OkIff result (ms ≤ LAST_MS) ms }
{
    Ok(GpsMs::new(ms).ok_or("no moment")?)
}
