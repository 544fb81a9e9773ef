//! The passes of a satellite, epoch by epoch.

ghost use Rattle.std.specs.Prelude.{◌≡◌, ◌<◌, ◌^◌, ℕ, ◌||◌, Bool, true, false, List, [], ◌∷◌, Option, get_or, is_some, not, ◌&&◌};
ghost use Rattle.std.specs.List.{list_any};
ghost use Rattle.rtk_tracking.specs.Epochs.{shows_phase};
ghost use Rattle.rtk_tracking.specs.Passes.{Sighting, absence_of, absence_before, outage_before, is_longer, has_phase, last_record, is_away, is_out, is_same_moment, begins_pass, is_break, is_known, is_kept};
ghost use Rattle.rtk_tracking.specs.Standing.{AreMarked, StandsForPass, AreKnown};

use crate::intervals::nearness_ms;
use crate::observations::shows_phase;
use rtk_rinex::Observed;

/// How long in ms an absence is at most within a pass.
const LONGEST_IN_PASS_MS: u64 = 1_800_000;

/// How long in ms an absence is at most that is no outage.
const LONGEST_UNBROKEN_MS: u64 = 120_000;

/// A satellite so far: the moment of its last phase, and the codes, by their places, that had one since its
/// last pass began, and since its last outage.
#[derive(Clone, Copy)]
pub struct Pass {
    pub last_ms: Option<u64>,
    pub had: [bool; 16],
    pub kept: [bool; 16],
}

/// The codes, by their places, that had a phase before an epoch: in its pass, and since the last outage in
/// it. A bit 0 of a code that did not is a rise, or a return.
#[derive(Clone, Copy)]
pub struct Known {
    pub had: [bool; 16],
    pub kept: [bool; 16],
}

// Returns how long in ms a satellite was absent.
fn absence_ms(interval: Option<u64>, last_ms: u64, time_ms: u64) -> u64
    ensures { result ≡ absence_of interval last_ms time_ms }
{
    time_ms
        .saturating_sub(last_ms)
        .saturating_sub(interval.unwrap_or(0))
}

// Returns whether the absence is longer than so many ms, by more than the tolerance.
fn is_longer(interval: Option<u64>, longest_ms: u64, last_ms: u64, time_ms: u64) -> bool
    requires { longest_ms < 2 ^ 32 }
    ensures { result ≡ is_longer interval longest_ms last_ms time_ms }
{
    absence_ms(interval, last_ms, time_ms) > longest_ms + 2 * nearness_ms(interval)
}

// Returns whether some code has a phase.
fn has_phase(observed: &[Observed]) -> bool
    ensures { result ≡ has_phase observed.now }
{
    observed.iter().any(|o| o.phase_millicycles.is_some())
}

// Returns whether no phase came before, or the absence since the last one is too long for a pass.
fn is_away(interval: Option<u64>, last_ms: Option<u64>, time_ms: u64) -> bool
    ensures { result ≡ is_away interval last_ms time_ms }
{
    match last_ms {
        Some(last_ms) => is_longer(interval, LONGEST_IN_PASS_MS, last_ms, time_ms),
        None => true,
    }
}

// Returns whether the absence since the last phase is too long to be no outage.
fn is_out(interval: Option<u64>, last_ms: Option<u64>, time_ms: u64) -> bool
    ensures { result ≡ is_out interval last_ms time_ms }
{
    match last_ms {
        Some(last_ms) => is_longer(interval, LONGEST_UNBROKEN_MS, last_ms, time_ms),
        None => false,
    }
}

// Returns whether the two moments are there and the same.
fn is_same_moment(one_ms: Option<u64>, other_ms: Option<u64>) -> bool
    ensures { result ≡ is_same_moment one_ms other_ms }
{
    match (one_ms, other_ms) {
        (Some(one_ms), Some(other_ms)) => one_ms == other_ms,
        _ => false,
    }
}

// Returns the absence in ms before an epoch, or 0 if no phase came before it.
fn absence_before_ms(interval: Option<u64>, last_ms: Option<u64>, time_ms: u64) -> u64
    ensures { result ≡ absence_before interval last_ms time_ms }
{
    match last_ms {
        Some(last_ms) => absence_ms(interval, last_ms, time_ms),
        None => 0,
    }
}

// Marks the codes that have a phase.
fn add_phases(had: &mut [bool; 16], observed: &[Observed])
    ensures { AreMarked had.new (λ place. shows_phase place observed.now || get_or had.old place false) }
{
    for place in 0..observed.len().min(16) {
        had[place] = shows_phase(observed, place) || had[place];
    }
}

impl Pass {
    /// Makes the state before the first epoch, in which no phase came and no pass has begun.
    pub fn new() -> Pass
        ensures { (interval : Option ℕ) → StandsForPass result interval [] }
    {
        Pass {
            last_ms: None,
            had: [false; 16],
            kept: [false; 16],
        }
    }

    /// Returns whether a pass begins with the next epoch.
    pub fn begins(&self, interval: Option<u64>, time_ms: u64, observed: &[Observed]) -> bool
        ensures { (before : List Sighting) → StandsForPass self.now interval before
            → result ≡ begins_pass interval before (record { time = time_ms; observed = observed.now }) }
    {
        has_phase(observed) && is_away(interval, self.last_ms, time_ms)
    }

    /// Returns how long in ms the outage was that ends with the next epoch, which comes after a record at
    /// this moment or is the first one, or `None` if no outage ends.
    pub fn outage_ms(
        &self,
        interval: Option<u64>,
        record_ms: Option<u64>,
        time_ms: u64,
        observed: &[Observed],
    ) -> Option<u64>
        ensures { (before : List Sighting) → StandsForPass self.now interval before → record_ms ≡ last_record before
            → result ≡ outage_before interval before (record { time = time_ms; observed = observed.now }) }
    {
        let begins = self.begins(interval, time_ms, observed);
        if begins || !self.breaks(interval, record_ms, time_ms, observed) {
            return None;
        }
        Some(absence_before_ms(interval, self.last_ms, time_ms))
    }

    // Returns whether a pass begins or an outage ends with the next epoch, which comes after a record at
    // this moment.
    fn breaks(
        &self,
        interval: Option<u64>,
        record_ms: Option<u64>,
        time_ms: u64,
        observed: &[Observed],
    ) -> bool
        ensures { (before : List Sighting) → StandsForPass self.now interval before → record_ms ≡ last_record before
            → result ≡ is_break interval before (record { time = time_ms; observed = observed.now }) }
    {
        let last_ms = self.last_ms;
        let away = is_away(interval, last_ms, time_ms);
        let out = is_out(interval, last_ms, time_ms) && !is_same_moment(last_ms, record_ms);
        has_phase(observed) && (away || out)
    }

    /// Returns which codes had a phase before the next epoch, in its pass and since the last outage in it.
    /// The epoch comes after a record at this moment, or is the first one.
    pub fn known(
        &self,
        interval: Option<u64>,
        record_ms: Option<u64>,
        time_ms: u64,
        observed: &[Observed],
    ) -> Known
        ensures { (before : List Sighting) → StandsForPass self.now interval before → record_ms ≡ last_record before
            → AreKnown result interval before (record { time = time_ms; observed = observed.now }) }
    {
        let begins = self.begins(interval, time_ms, observed);
        let breaks = self.breaks(interval, record_ms, time_ms, observed);
        Known {
            had: if begins { [false; 16] } else { self.had },
            kept: if breaks { [false; 16] } else { self.kept },
        }
    }

    /// Notes the next epoch, which comes after a record at this moment, or is the first one.
    pub fn note(
        &mut self,
        interval: Option<u64>,
        record_ms: Option<u64>,
        time_ms: u64,
        observed: &[Observed],
    )
        ensures { (before : List Sighting) → StandsForPass self.old interval before → record_ms ≡ last_record before
            → StandsForPass self.new interval (record { time = time_ms; observed = observed.now } ∷ before) }
    {
        let mut known = self.known(interval, record_ms, time_ms, observed);
        add_phases(&mut known.had, observed);
        add_phases(&mut known.kept, observed);
        self.had = known.had;
        self.kept = known.kept;
        if has_phase(observed) {
            self.last_ms = Some(time_ms);
        }
    }
}
