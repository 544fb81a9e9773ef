//! The steps between epochs, and the most frequent of them.
//!
//! The most frequent step is kept beside the counts, since only a step that comes again can
//! overtake it.

ghost use Rattle.std.specs.Prelude.{◌≡◌, ◌<◌, ◌≤◌, ◌⊎◌, true, false, List, ℕ, [], ◌∷◌, IfOk, OnOk};
ghost use Rattle.rtk_rinex.specs.Record.{EpochTableView};
ghost use Rattle.rtk_tracking.specs.Epochs.{newest_moment};
ghost use Rattle.rtk_tracking.specs.Interval.{times_of_step, steps_in, IsInterval, interval_of};
ghost use Rattle.rtk_tracking.specs.Standing.{CountsSteps, IsFrequent, StandsForSteps, StandsForStepsBetween};

use rtk_obs::GpsMs;
use rtk_rinex::EpochTable;
use std::alloc::{AllocError, Global};
use std::collections::BTreeMap;

/// A step in ms, and how often it came.
#[derive(Clone, Copy)]
pub(crate) struct Frequent {
    pub(crate) step: u64,
    pub(crate) count: u64,
}

/// How often each step came, and the most frequent one.
#[derive(Drop)]
pub(crate) struct Steps {
    pub(crate) counts: BTreeMap<u64, u64>,
    pub(crate) frequent: Option<Frequent>,
}

// Counts a step, and answers how often it came.
fn count_step(counts: &mut BTreeMap<u64, u64>, step: u64) -> Result<u64, AllocError>
    ensures counts { OnOk result ((steps : List ℕ) → CountsSteps counts.old steps → CountsSteps counts.new (step ∷ steps)) }
    ensures count { IfOk result (λ count. (steps : List ℕ) → CountsSteps counts.old steps
        → count ≡ times_of_step step (step ∷ steps)) }
{
    let count = counts.get(&step).copied().unwrap_or(0).saturating_add(1);
    counts.insert(step, count)?;
    Ok(count)
}

// Returns whether a step that came so often is more frequent than the most frequent one so far, or
// as frequent and less.
fn overtakes(best: Frequent, step: u64, count: u64) -> bool
    ensures yes { result ≡ true → (best.count < count) ⊎ ((count ≡ best.count) × (step < best.step)) }
    ensures no { result ≡ false → (count ≤ best.count) × (count ≡ best.count → best.step ≤ step) }
{
    if count == best.count {
        return step < best.step;
    }
    count > best.count
}

// Returns the more frequent of the most frequent step so far and the one that came again.
fn more_frequent(best: Option<Frequent>, step: u64, count: u64) -> Option<Frequent>
    ensures { (steps : List ℕ) → IsFrequent best steps → count ≡ times_of_step step (step ∷ steps)
        → IsFrequent result (step ∷ steps) }
{
    let Some(best) = best else {
        return Some(Frequent { step, count });
    };
    if overtakes(best, step, count) {
        return Some(Frequent { step, count });
    }
    Some(best)
}

impl Steps {
    /// Makes the state in which no step came.
    pub(crate) fn new(alloc: Global) -> Steps
        ensures { StandsForSteps result [] }
    {
        Steps {
            counts: BTreeMap::new(alloc),
            frequent: None,
        }
    }

    /// Counts one more step.
    pub(crate) fn add_step(&mut self, step: u64) -> Result<(), AllocError>
        ensures { OnOk result ((steps : List ℕ) → StandsForSteps self.old steps → StandsForSteps self.new (step ∷ steps)) }
    {
        let count = count_step(&mut self.counts, step)?;
        self.frequent = more_frequent(self.frequent, step, count);
        Ok(())
    }

    /// Returns the step that came most often, and of two alike the lesser one.
    pub(crate) fn interval(&self) -> Option<u64>
        ensures { (steps : List ℕ) → StandsForSteps self.now steps → IsInterval steps result }
    {
        match self.frequent {
            Some(frequent) => Some(frequent.step),
            None => None,
        }
    }
}

/// The steps between the epochs that came, and the moment of the last one.
#[derive(Drop)]
pub struct StepCounts {
    pub(crate) steps: Steps,
    pub(crate) last: Option<GpsMs>,
}

impl StepCounts {
    /// Makes the state in which no epoch came.
    pub fn new(alloc: Global) -> StepCounts
        ensures { StandsForStepsBetween result [] }
    {
        StepCounts {
            steps: Steps::new(alloc),
            last: None,
        }
    }

    /// Counts the step to one more epoch, which is at this moment.
    pub fn note_time(&mut self, time: GpsMs) -> Result<(), AllocError>
        ensures { OnOk result ((es : List EpochTableView) (e : EpochTableView) → e.time ≡ time → StandsForStepsBetween self.old es
            → StandsForStepsBetween self.new (e ∷ es)) }
    {
        if let Some(last) = self.last {
            self.steps.add_step(time.ms().saturating_sub(last.ms()))?;
        }
        self.last = Some(time);
        Ok(())
    }

    /// Counts the step to one more epoch.
    pub fn note_epoch(&mut self, epoch: &EpochTable) -> Result<(), AllocError>
        ensures { OnOk result ((es : List EpochTableView) → StandsForStepsBetween self.old es
            → StandsForStepsBetween self.new (epoch.now ∷ es)) }
    {
        self.note_time(epoch.time())?;
        Ok(())
    }

    /// Returns the interval in ms, which is the step that came most often, and of two alike the
    /// lesser one.
    pub fn interval(&self) -> Option<u64>
        ensures { (es : List EpochTableView) → StandsForStepsBetween self.now es → result ≡ interval_of (steps_in es) }
    {
        self.steps.interval()
    }

    /// Returns the moment of the last epoch.
    pub fn last(&self) -> Option<GpsMs>
        ensures { (es : List EpochTableView) → StandsForStepsBetween self.now es → result ≡ newest_moment es }
    {
        self.last
    }
}
