//! The moment at which a file is made.

ghost use Rattle.std.specs.Prelude.{◌≡◌, ◌≢◌, ◌%◌, IfOk, IfErr};

use crate::head_fault::HeadFault;
use rtk_obs::GpsMs;
use std::marker::Model;

/// The moment at which a file is made: a whole second, since the header shows no part of one. Clauses
/// see its milliseconds. Source: RINEX 3.05, Table A2.
#[derive(Clone, Copy, Debug, PartialEq, Eq)]
pub struct CreationTime {
    moment: GpsMs,
}

impl Model for CreationTime {
    ghost use Rattle.std.specs.Prelude.{◌≡◌, ◌%◌, ℕ};

    ghost Value = { ℕ };

    ghost view = { λ t. t.moment };

    ghost invariant = { λ t. t.moment % 1000 ≡ 0 };

    ghost inverse = { λ n. record { moment = n } };
}

impl CreationTime {
    /// Makes the creation time of this moment if it is a whole second, else answers
    /// `HeadFault::Made`.
    pub fn new(moment: GpsMs) -> Result<CreationTime, HeadFault>
        ensures moment { IfOk result (λ made. made ≡ moment) }
        ensures whole_second { IfOk result (λ made. made % 1000 ≡ 0) }
        ensures fault { IfErr result (λ fault. (fault ≡ HeadFault.Made) × (moment % 1000 ≢ 0)) }
    {
        if moment.ms() % 1000 != 0 {
            return Err(HeadFault::Made);
        }
        Ok(CreationTime { moment })
    }

    /// Returns the moment.
    pub fn moment(self) -> GpsMs
        ensures value { result ≡ self }
        ensures whole_second { result % 1000 ≡ 0 }
    {
        self.moment
    }
}
