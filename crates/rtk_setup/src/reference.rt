//! The moment near which times of week are dated.

ghost use Rattle.std.specs.Prelude.{◌≡◌, IfOk, IfErr, Decides};
ghost use Rattle.rtk_obs.specs.Dating.{IsReference};

use crate::setup_fault::SetupFault;
use rtk_obs::{GpsMs, WEEK_MS};
use std::marker::Model;

// 1980-01-13 00:00:00.000, a week after the first moment.
const FIRST_REFERENCE_MS: u64 = WEEK_MS;

// 2099-12-31 23:59:59.999.
const LAST_REFERENCE_MS: u64 = 3_786_479_999_999;

/// A moment near which times of week are dated: 1980-01-13 00:00:00.000 to 2099-12-31 23:59:59.999.
/// Clauses see its milliseconds.
#[derive(Clone, Copy, Debug, PartialEq, Eq)]
pub struct Reference {
    moment: GpsMs,
}

impl Model for Reference {
    ghost use Rattle.std.specs.Prelude.{ℕ};
    ghost use Rattle.rtk_obs.specs.Dating.{IsReference};

    ghost Value = { ℕ };

    ghost view = { λ r. r.moment };

    ghost invariant = { λ r. IsReference r.moment };

    ghost inverse = { λ n. record { moment = n } };
}

// Returns whether times of week can be dated near this moment.
fn is_reference(moment: GpsMs) -> bool
    ensures { Decides result (IsReference moment) }
{
    FIRST_REFERENCE_MS <= moment.ms() && moment.ms() <= LAST_REFERENCE_MS
}

impl Reference {
    /// Makes the reference of this moment if times of week can be dated near it, else answers
    /// `SetupFault::Near`.
    pub fn new(moment: GpsMs) -> Result<Reference, SetupFault>
        ensures moment { IfOk result (λ near. near ≡ moment) }
        ensures good { IfOk result IsReference }
        ensures fault { IfErr result (λ fault. (fault ≡ SetupFault.Near) × ¬ (IsReference moment)) }
    {
        if !is_reference(moment) {
            return Err(SetupFault::Near);
        }
        Ok(Reference { moment })
    }

    /// Returns the moment.
    pub fn moment(self) -> GpsMs
        ensures value { result ≡ self }
        ensures good { IsReference result }
    {
        self.moment
    }
}
