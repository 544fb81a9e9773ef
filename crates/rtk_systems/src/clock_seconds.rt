//! The leap seconds by which clocks of GLONASS, which tell UTC, are compared with those of GPS.

ghost use Rattle.std.specs.Prelude.{◌≡◌};
ghost use Rattle.rtk_systems.specs.ClockSeconds as spec;

use rtk_obs::{GpsMs, LAST_MS};
use rtk_survey::{dated, table_seconds_at};

const DAY_MS: u32 = 86_400_000;

const NOON_MS: u32 = 43_200_000;

/// The leap seconds by which clocks of GLONASS are compared: a number that is given, else those of the table on the day
/// that a clock tells.
#[derive(Clone, Copy, Debug, PartialEq, Eq)]
pub struct ClockSeconds {
    pub given: Option<u8>,
    /// A moment within half a week of the clocks.
    pub near: GpsMs,
}

// Noon on this day of the week that lies nearest to a moment.
fn noon_near(near: GpsMs, day: u8) -> GpsMs
    ensures { result ≡ spec.noon_near near day }
{
    let time = DAY_MS * u32::from(day % 7) + NOON_MS;
    let Some(noon) = GpsMs::new(dated(near, time).min(LAST_MS)) else {
        unreachable!();
    };
    noon
}

// The leap seconds of the table on a day.
fn table_on(near: GpsMs, day: u8) -> u8
    ensures { result ≡ spec.table_on near day }
{
    table_seconds_at(noon_near(near, day))
}

impl ClockSeconds {
    /// The leap seconds on a day of the week, 0 for Sunday.
    pub(crate) fn on(&self, day: u8) -> u8
        ensures { result ≡ spec.seconds_on self.now day }
    {
        match self.given {
            Some(given) => given,
            None => table_on(self.near, day),
        }
    }
}
