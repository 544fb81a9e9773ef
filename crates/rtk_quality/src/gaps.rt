//! The gaps of a file.

ghost use Rattle.std.specs.Prelude.{◌≡◌, ◌<◌};
ghost use Rattle.rtk_quality.specs.Gaps.{gap_between};

use crate::largest::Measured;
use rtk_obs::{Civil, GpsMs, civil};
use rtk_tracking::missing_between;

/// A gap: the moments of the records before and after it, and the epochs that are missing.
#[derive(Clone, Copy)]
pub(crate) struct Gap {
    pub(crate) from: Civil,
    pub(crate) until: Civil,
    pub(crate) missing: u64,
}

impl Measured for Gap {
    ghost use Rattle.rtk_quality.specs.Gaps.{size_of_gap};

    ghost size = { size_of_gap };

    fn size(&self) -> u64 {
        self.missing
    }
}

/// The gap between two records, if an epoch is missing there.
pub(crate) fn gap_between(unit_ms: u64, last: Option<GpsMs>, time: GpsMs) -> Option<Gap>
    requires { 0 < unit_ms }
    ensures { result ≡ gap_between unit_ms last time }
{
    let Some(last) = last else {
        return None;
    };
    let missing = missing_between(unit_ms, last.ms(), time.ms());
    if missing == 0 {
        return None;
    }
    Some(Gap {
        from: civil(last),
        until: civil(time),
        missing,
    })
}
