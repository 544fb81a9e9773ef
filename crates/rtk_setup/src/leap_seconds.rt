//! A number of leap seconds.

ghost use Rattle.std.specs.Prelude.{◌≡◌};
ghost use Rattle.std.specs.Option.{SomeIff};
ghost use Rattle.rtk_setup.specs.Setup.{IsLeapSeconds};

use std::marker::Model;

/// The greatest number of leap seconds, since it has two digits.
pub const GREATEST_LEAP_SECONDS: u8 = 99;

/// A number of leap seconds, by which GPS time is ahead of UTC, from 0 to 99. Clauses see the number.
#[derive(Clone, Copy, Debug, PartialEq, Eq)]
pub struct LeapSeconds {
    number: u8,
}

impl Model for LeapSeconds {
    ghost use Rattle.std.specs.Prelude.{ℕ};
    ghost use Rattle.rtk_setup.specs.Setup.{IsLeapSeconds};

    ghost Value = { ℕ };

    ghost view = { λ l. l.number };

    ghost invariant = { λ l. IsLeapSeconds l.number };

    ghost inverse = { λ n. record { number = n } };
}

impl LeapSeconds {
    /// Makes this number of leap seconds, or answers `None` if it is greater than 99.
    pub fn new(number: u8) -> Option<LeapSeconds>
        ensures { SomeIff result (IsLeapSeconds number) number }
    {
        if number > GREATEST_LEAP_SECONDS {
            return None;
        }
        Some(LeapSeconds { number })
    }

    /// Returns the number.
    pub fn number(self) -> u8
        ensures value { result ≡ self }
        ensures good { IsLeapSeconds result }
    {
        self.number
    }
}
