//! The epochs at which several satellites slip.

ghost use Rattle.std.specs.Prelude.{◌≡◌};
ghost use Rattle.rtk_quality.specs.Moments.{none_together, together_plus, moment_if_several};

use crate::largest::Measured;
use rtk_obs::{Civil, GpsMs, civil};

/// How many satellites of an epoch slip, and how many have a phase.
#[derive(Clone, Copy)]
pub(crate) struct Together {
    pub(crate) slipping: u64,
    pub(crate) tracked: u64,
}

/// An epoch at which several satellites slip.
#[derive(Clone, Copy)]
pub(crate) struct Moment {
    pub(crate) time: Civil,
    pub(crate) together: Together,
}

impl Measured for Moment {
    ghost use Rattle.rtk_quality.specs.Moments.{size_of_moment};

    ghost size = { size_of_moment };

    fn size(&self) -> u64 {
        self.together.slipping
    }
}

impl Together {
    /// Of no satellite.
    pub(crate) fn none() -> Together
        ensures { result ≡ none_together }
    {
        Together {
            slipping: 0,
            tracked: 0,
        }
    }

    /// With one more satellite, which has so many slips, and perhaps a phase.
    pub(crate) fn plus(&self, slips: u64, is_tracked: bool) -> Together
        ensures { result ≡ together_plus self.now slips is_tracked }
    {
        Together {
            slipping: self.slipping.saturating_add(u64::from(slips > 0)),
            tracked: self.tracked.saturating_add(u64::from(is_tracked)),
        }
    }
}

/// The epoch at this moment, if several of its satellites slip.
pub(crate) fn moment_if_several(time: GpsMs, together: Together) -> Option<Moment>
    ensures { result ≡ moment_if_several time together }
{
    if together.slipping < 2 {
        return None;
    }
    Some(Moment {
        time: civil(time),
        together,
    })
}
