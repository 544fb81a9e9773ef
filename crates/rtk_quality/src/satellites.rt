//! The satellites of all systems, by the places of their counts and by their rows.

ghost use Rattle.std.specs.Prelude.{◌≡◌, ◌<◌, ◌+◌};
ghost use Rattle.rtk_obs.specs.SatelliteIndex.{IsSatelliteIndex};

use rtk_obs::SatelliteIndex;
use rtk_rinex::SatelliteRow;

/// The satellite whose counts stand at a place.
pub(crate) fn satellite_at(place: usize) -> SatelliteIndex
    requires { place < 221 }
    ensures { result ≡ place + 1 }
{
    let Some(satellite) = SatelliteIndex::new(place as u8 + 1) else {
        unreachable!();
    };
    satellite
}

/// The satellite of a row.
pub(crate) fn satellite_of(row: &SatelliteRow) -> SatelliteIndex
    requires { IsSatelliteIndex row.now.satellite }
    ensures { result ≡ row.now.satellite }
{
    let Some(satellite) = SatelliteIndex::new(row.satellite) else {
        unreachable!();
    };
    satellite
}
