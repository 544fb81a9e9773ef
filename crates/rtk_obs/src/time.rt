//! Moments of GPS time, and civil readings.

ghost use Rattle.std.specs.Prelude.{◌≡◌, ℕ, ◌≤◌};
ghost use Rattle.std.specs.Option.{SomeIff};
ghost use Rattle.rtk_obs.specs.declared.time.TheConstants.{LAST_MS};

use std::marker::Model;

/// 2100-12-31 23:59:59.999, in ms since 1980-01-06 00:00:00.000.
pub const LAST_MS: u64 = 3_818_015_999_999;

/// A moment of GPS time, to the end of 2100: ms since 1980-01-06 00:00:00.000, no leap seconds.
///
/// Moments are ordered by their milliseconds. Contracts see that number.
#[derive(Clone, Copy, Debug, PartialEq, Eq, Hash, PartialOrd, Ord)]
pub struct GpsMs {
    ms: u64,
}

impl Model for GpsMs {
    ghost Value = { ℕ };

    ghost view = { λ t. t.ms };

    ghost invariant = { λ t. t.ms ≤ LAST_MS };

    ghost inverse = { λ n. record { ms = n } };
}

impl GpsMs {
    /// Returns the moment with this number of milliseconds, or `None` if it is after 2100.
    pub fn new(ms: u64) -> Option<Self>
        ensures { SomeIff result (ms ≤ LAST_MS) ms }
    {
        if ms <= LAST_MS {
            Some(GpsMs { ms })
        } else {
            None
        }
    }

    /// Returns the moment with this number of milliseconds.
    pub(crate) fn at(ms: u64) -> Self
        requires { ms ≤ LAST_MS }
        ensures { result ≡ ms }
    {
        GpsMs { ms }
    }

    /// Returns the milliseconds since 1980-01-06 00:00:00.000.
    pub fn ms(self) -> u64
        ensures value { result ≡ self }
        ensures bound { result ≤ LAST_MS }
    {
        self.ms
    }
}

/// A date and a time of day as they are written; they may name no day, or no time of day.
#[derive(Clone, Copy, Debug, PartialEq, Eq, Hash)]
pub struct Civil {
    /// The year, as 2024.
    pub year: u16,
    /// The month, from 1.
    pub month: u8,
    /// The day of the month, from 1.
    pub day: u8,
    pub hour: u8,
    pub minute: u8,
    pub second: u8,
    pub millisecond: u16,
}
