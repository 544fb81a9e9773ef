//! What the epochs of a pass, of a satellite and of a file add up to.

ghost use Rattle.std.specs.Prelude.{◌≡◌};
ghost use Rattle.rtk_quality.specs.SatellitePasses.{no_sums, sums_of, sums_plus};

/// Phases and slips of all codes, the moments at which a code slips, and outages with their time in ms.
#[derive(Clone, Copy)]
pub(crate) struct PassSums {
    pub(crate) phases: u64,
    pub(crate) slips: u64,
    pub(crate) moments: u64,
    pub(crate) outages: u64,
    pub(crate) outage_ms: u64,
}

impl PassSums {
    /// Of no epoch.
    pub(crate) fn none() -> PassSums
        ensures { result ≡ no_sums }
    {
        PassSums {
            phases: 0,
            slips: 0,
            moments: 0,
            outages: 0,
            outage_ms: 0,
        }
    }

    /// Of one epoch, with which perhaps an outage of so many ms ends.
    pub(crate) fn of(phases: u64, slips: u64, outage_ms: Option<u64>) -> PassSums
        ensures { result ≡ sums_of phases slips outage_ms }
    {
        PassSums {
            phases,
            slips,
            moments: u64::from(slips > 0),
            outages: u64::from(outage_ms.is_some()),
            outage_ms: outage_ms.unwrap_or(0),
        }
    }

    /// Of these epochs and others together.
    pub(crate) fn plus(&self, other: &PassSums) -> PassSums
        ensures { result ≡ sums_plus self.now other.now }
    {
        PassSums {
            phases: self.phases.saturating_add(other.phases),
            slips: self.slips.saturating_add(other.slips),
            moments: self.moments.saturating_add(other.moments),
            outages: self.outages.saturating_add(other.outages),
            outage_ms: self.outage_ms.saturating_add(other.outage_ms),
        }
    }
}
