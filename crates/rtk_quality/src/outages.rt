//! The outages of satellites.

ghost use Rattle.std.specs.Prelude.{◌≡◌};
ghost use Rattle.rtk_quality.specs.Outages.{outage_of};

use crate::largest::Measured;
use rtk_obs::{Civil, SatelliteIndex};

/// The moments of the last phase before an outage and of the first one after it, and its time in ms.
#[derive(Clone, Copy)]
pub(crate) struct Absence {
    pub(crate) from: Civil,
    pub(crate) until: Civil,
    pub(crate) ms: u64,
}

/// An outage of a satellite.
#[derive(Clone, Copy)]
pub(crate) struct Outage {
    pub(crate) satellite: SatelliteIndex,
    pub(crate) absence: Absence,
}

impl Measured for Outage {
    ghost use Rattle.rtk_quality.specs.Outages.{size_of_outage};

    ghost size = { size_of_outage };

    fn size(&self) -> u64 {
        self.absence.ms
    }
}

/// The outage of a satellite, if it was absent.
pub(crate) fn outage_of(satellite: SatelliteIndex, absence: Option<Absence>) -> Option<Outage>
    ensures { result ≡ outage_of satellite absence }
{
    match absence {
        Some(absence) => Some(Outage { satellite, absence }),
        None => None,
    }
}
