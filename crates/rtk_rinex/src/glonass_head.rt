//! What a header tells of GLONASS.

ghost use Rattle.std.specs.Prelude.{◌≡◌, ◌≤◌};
ghost use Rattle.std.specs.Option.{SomeIff};

use rtk_obs::Channels;
use std::marker::Model;

/// What a header tells of GLONASS: the channels of the slots, and the leap seconds, from 0 to 99.
/// Source: RINEX 3.05, Table A2.
#[derive(Clone, Copy, Debug, PartialEq, Eq)]
pub struct Glonass {
    channels: Channels,
    leap_seconds: u8,
}

impl Model for Glonass {
    ghost use Rattle.rtk_rinex.specs.MixedHead.{GlonassView, IsGlonassView};

    ghost Value = { GlonassView };

    ghost view = { λ g. record { channels = g.channels; leap_seconds = g.leap_seconds } };

    ghost invariant = { λ g. IsGlonassView (record { channels = g.channels; leap_seconds = g.leap_seconds }) };

    ghost inverse = { λ v. record { channels = v.channels; leap_seconds = v.leap_seconds } };
}

impl Glonass {
    /// Makes what a header tells of these channels and leap seconds, or answers `None` if there are
    /// more than 99 leap seconds.
    pub fn new(channels: Channels, leap_seconds: u8) -> Option<Glonass>
        ensures { SomeIff result (leap_seconds ≤ 99) (record { channels = channels; leap_seconds = leap_seconds }) }
    {
        if leap_seconds > 99 {
            return None;
        }
        Some(Glonass {
            channels,
            leap_seconds,
        })
    }

    /// Returns the channels of the slots.
    pub fn channels(&self) -> Channels
        ensures { result ≡ self.now.channels }
    {
        self.channels
    }

    /// Returns the leap seconds.
    pub fn leap_seconds(&self) -> u8
        ensures value { result ≡ self.now.leap_seconds }
        ensures bound { result ≤ 99 }
    {
        self.leap_seconds
    }
}
