//! The number of a reference station.

ghost use Rattle.std.specs.Prelude.{◌≡◌, IfOk, IfErr};
ghost use Rattle.rtk_setup.specs.Setup.{IsStation};

use crate::setup_fault::SetupFault;
use std::marker::Model;

/// The greatest reference station (DF003 has 12 bits).
pub const GREATEST_STATION: u16 = 4095;

/// A reference station, by its number from 0 to 4095. Source: RTCM 10403.3, DF003.
#[derive(Clone, Copy, Debug, PartialEq, Eq)]
pub struct Station {
    number: u16,
}

impl Model for Station {
    ghost use Rattle.std.specs.Prelude.{ℕ};
    ghost use Rattle.rtk_setup.specs.Setup.{IsStation};

    ghost Value = { ℕ };

    ghost view = { λ s. s.number };

    ghost invariant = { λ s. IsStation s.number };

    ghost inverse = { λ n. record { number = n } };
}

impl Station {
    /// Makes the station of this number if there is one, else answers `SetupFault::Station`.
    pub fn new(number: u16) -> Result<Station, SetupFault>
        ensures number { IfOk result (λ station. station ≡ number) }
        ensures good { IfOk result IsStation }
        ensures fault { IfErr result (λ fault. (fault ≡ SetupFault.Station) × ¬ (IsStation number)) }
    {
        if number > GREATEST_STATION {
            return Err(SetupFault::Station);
        }
        Ok(Station { number })
    }

    /// Returns the number.
    pub fn number(self) -> u16
        ensures value { result ≡ self }
        ensures good { IsStation result }
    {
        self.number
    }
}
