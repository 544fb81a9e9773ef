//! The date of a time of week.

ghost use Rattle.std.specs.Prelude.{◌≡◌, ℕ, ◌<◌};
ghost use Rattle.rtk_obs.specs.Dating.{IsReference, IsDated};

use crate::time::GpsMs;

/// A week of GPS time, in ms.
pub const WEEK_MS: u64 = rtk_message::WEEK_MS as u64;

/// Half a week of GPS time, in ms.
pub const HALF_WEEK_MS: u64 = WEEK_MS / 2;

/// Returns the moment with this time of week (DF004, in ms) that lies nearest to a reference. If
/// two moments are half a week away, it is the one before the reference.
pub fn date(near: GpsMs, tow: u32) -> GpsMs
    requires reference { IsReference near }
    requires in_week { tow < WEEK_MS }
    ensures { IsDated near tow result }
{
    let first = near.ms() - HALF_WEEK_MS;
    let ahead = (u64::from(tow) + WEEK_MS - first % WEEK_MS) % WEEK_MS;
    GpsMs::at(first + ahead)
}
