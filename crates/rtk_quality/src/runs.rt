//! Runs of half cycles of satellites.

ghost use Rattle.std.specs.Prelude.{◌≡◌};
ghost use Rattle.rtk_quality.specs.Runs.{run_with, run_into, run_after, run_ended, half_run};

use crate::largest::Measured;
use rtk_obs::{Civil, SatelliteIndex};

/// Epochs of a satellite that follow one another: the moments of the first and the last one, and how many.
#[derive(Clone, Copy)]
pub(crate) struct Run {
    pub(crate) from: Civil,
    pub(crate) until: Civil,
    pub(crate) epochs: u64,
}

/// A run of half cycles of a satellite.
#[derive(Clone, Copy)]
pub(crate) struct HalfRun {
    pub(crate) satellite: SatelliteIndex,
    pub(crate) run: Run,
}

/// What an epoch makes of a run: the run that ends before it, and the one that goes on.
#[derive(Clone, Copy)]
pub(crate) struct RunStep {
    pub(crate) ended: Option<Run>,
    pub(crate) newest: Option<Run>,
}

impl Measured for HalfRun {
    ghost use Rattle.rtk_quality.specs.Runs.{size_of_run};

    ghost size = { size_of_run };

    fn size(&self) -> u64 {
        self.run.epochs
    }
}

// A run with one more epoch, or one that begins with it.
fn run_with(run: Option<Run>, reading: Civil) -> Run
    ensures { result ≡ run_with run reading }
{
    match run {
        Some(run) => Run {
            from: run.from,
            until: reading,
            epochs: run.epochs.saturating_add(1),
        },
        None => Run {
            from: reading,
            until: reading,
            epochs: 1,
        },
    }
}

// The run that goes on with an epoch, unless a pass begins with it.
fn run_into(begins: bool, run: Option<Run>) -> Option<Run>
    ensures { result ≡ run_into begins run }
{
    if begins { None } else { run }
}

// The run after an epoch with a phase.
fn run_after(run: Option<Run>, begins: bool, half: bool, reading: Civil) -> Option<Run>
    ensures { result ≡ run_after run begins half reading }
{
    if half {
        Some(run_with(run_into(begins, run), reading))
    } else {
        None
    }
}

// The run that ends before an epoch with a phase.
fn run_ended(run: Option<Run>, begins: bool, half: bool) -> Option<Run>
    ensures { result ≡ run_ended run begins half }
{
    if begins || !half { run } else { None }
}

/// What an epoch with a phase makes of a run of half cycles, and perhaps a pass that begins with it.
pub(crate) fn next_run(run: Option<Run>, begins: bool, half: bool, reading: Civil) -> RunStep
    ensures ended { result.ended ≡ run_ended run begins half }
    ensures newest { result.newest ≡ run_after run begins half reading }
{
    RunStep {
        ended: run_ended(run, begins, half),
        newest: run_after(run, begins, half, reading),
    }
}

/// The run of a satellite, if there is one.
pub(crate) fn half_run(satellite: SatelliteIndex, run: Option<Run>) -> Option<HalfRun>
    ensures { result ≡ half_run satellite run }
{
    match run {
        Some(run) => Some(HalfRun { satellite, run }),
        None => None,
    }
}
