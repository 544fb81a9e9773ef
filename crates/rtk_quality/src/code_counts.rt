//! The counts of a code of a satellite.

ghost use Rattle.std.specs.Prelude.{◌≡◌, List, [], ◌∷◌, if◌then◌else◌};
ghost use Rattle.rtk_quality.specs.Counts.{Noted, plus, is_observed, counts_of};

use rtk_rinex::Observed;
use rtk_tracking::{greater, lesser};

/// What came of a code: counts, and the least and the greatest strength in thousandths of a dB-Hz.
#[derive(Clone, Copy)]
pub(crate) struct CodeCounts {
    /// Some epoch has a range, a phase, a Doppler shift or a strength.
    pub(crate) seen: bool,
    pub(crate) phases: u64,
    /// Ranges without a phase.
    pub(crate) ranges: u64,
    pub(crate) slips: u64,
    pub(crate) returns: u64,
    pub(crate) rises: u64,
    /// Half cycles.
    pub(crate) halves: u64,
    /// Doppler shifts.
    pub(crate) shifts: u64,
    pub(crate) strengths: u64,
    pub(crate) strength_sum: u64,
    pub(crate) least: Option<u32>,
    pub(crate) greatest: Option<u32>,
}

// One more, if a test holds.
fn one_more(count: u64, test: bool) -> u64
    ensures { result ≡ plus count (if test then 1 else 0) }
{
    count.saturating_add(u64::from(test))
}

fn is_observed(observed: &Observed) -> bool
    ensures { result ≡ is_observed observed.now }
{
    observed.range_mm.is_some()
        || observed.phase_millicycles.is_some()
        || observed.doppler_millihertz.is_some()
        || observed.strength_millidbhz.is_some()
}

impl CodeCounts {
    /// Of a code that no epoch has: each count is 0, and there is no strength.
    pub(crate) fn new() -> CodeCounts
        ensures { result ≡ counts_of [] }
    {
        CodeCounts {
            seen: false,
            phases: 0,
            ranges: 0,
            slips: 0,
            returns: 0,
            rises: 0,
            halves: 0,
            shifts: 0,
            strengths: 0,
            strength_sum: 0,
            least: None,
            greatest: None,
        }
    }

    /// Counts one more epoch: what the code shows, and whether it had a phase earlier in the pass, and since
    /// the last outage in it.
    pub(crate) fn note(&mut self, observed: &Observed, known: bool, kept: bool)
        ensures { (ns : List Noted) → self.old ≡ counts_of ns
            → self.new ≡ counts_of (record { observed = observed.now; known = known; kept = kept } ∷ ns) }
    {
        let phase = observed.phase_millicycles.is_some();
        let strength = observed.strength_millidbhz;
        self.seen = is_observed(observed) || self.seen;
        self.phases = one_more(self.phases, phase);
        self.ranges = one_more(self.ranges, observed.range_mm.is_some() && !phase);
        self.slips = one_more(self.slips, observed.slip && kept);
        self.returns = one_more(self.returns, observed.slip && known && !kept);
        self.rises = one_more(self.rises, observed.slip && !known);
        self.halves = one_more(self.halves, observed.half);
        self.shifts = one_more(self.shifts, observed.doppler_millihertz.is_some());
        self.strengths = one_more(self.strengths, strength.is_some());
        self.strength_sum = self
            .strength_sum
            .saturating_add(u64::from(strength.unwrap_or(0)));
        self.least = lesser(strength, self.least);
        self.greatest = greater(strength, self.greatest);
    }
}
