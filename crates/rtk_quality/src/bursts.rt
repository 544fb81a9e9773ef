//! The hours in which a satellite slips at several epochs.

ghost use Rattle.std.specs.Prelude.{◌≡◌};
ghost use Rattle.rtk_quality.specs.Bursts.{hour_with, other_hour, hour_after, hour_ended, burst_of};

use crate::largest::Measured;
use rtk_obs::SatelliteIndex;

/// An hour, by the hours of GPS time before it, and at how many of its epochs a satellite slips.
#[derive(Clone, Copy)]
pub(crate) struct HourMoments {
    pub(crate) hour: u64,
    pub(crate) moments: u64,
}

/// The same of a satellite that slips at several of them.
#[derive(Clone, Copy)]
pub(crate) struct Burst {
    pub(crate) satellite: SatelliteIndex,
    pub(crate) hour: u64,
    pub(crate) moments: u64,
}

/// What an epoch makes of the last hour with slips: the hour that ends before it, and the last one after it.
#[derive(Clone, Copy)]
pub(crate) struct HourStep {
    pub(crate) ended: Option<HourMoments>,
    pub(crate) last: Option<HourMoments>,
}

impl Measured for Burst {
    ghost use Rattle.rtk_quality.specs.Bursts.{size_of_burst};

    ghost size = { size_of_burst };

    fn size(&self) -> u64 {
        self.moments
    }
}

// An hour with one more epoch at which the satellite slips: the last such hour, or one that begins.
fn hour_with(hour: u64, last: Option<HourMoments>) -> HourMoments
    ensures { result ≡ hour_with hour last }
{
    match last {
        Some(last) if last.hour == hour => HourMoments {
            hour,
            moments: last.moments.saturating_add(1),
        },
        _ => HourMoments { hour, moments: 1 },
    }
}

// The last hour, unless it is this one.
fn other_hour(hour: u64, last: Option<HourMoments>) -> Option<HourMoments>
    ensures { result ≡ other_hour hour last }
{
    match last {
        Some(last) if last.hour != hour => Some(last),
        _ => None,
    }
}

/// What an epoch with so many slips in an hour makes of the last hour with slips.
pub(crate) fn next_hour(last: Option<HourMoments>, slips: u64, hour: u64) -> HourStep
    ensures ended { result.ended ≡ hour_ended last slips hour }
    ensures last { result.last ≡ hour_after last slips hour }
{
    if slips == 0 {
        return HourStep { ended: None, last };
    }
    HourStep {
        ended: other_hour(hour, last),
        last: Some(hour_with(hour, last)),
    }
}

/// The hour of a satellite, if it slips at several epochs.
pub(crate) fn burst_of(satellite: SatelliteIndex, hour: Option<HourMoments>) -> Option<Burst>
    ensures { result ≡ burst_of satellite hour }
{
    match hour {
        Some(hour) if hour.moments >= 2 => Some(Burst {
            satellite,
            hour: hour.hour,
            moments: hour.moments,
        }),
        _ => None,
    }
}
