//! The times at which codes of satellites are missing.

ghost use Rattle.std.specs.Prelude.{◌≡◌, ◌<◌, ◌≤◌, ◌++◌, map, not, ℕ, List, [], ◌∷◌, Option, None, length, IfOk, OnOk};
ghost use Rattle.rtk_obs.specs.Reading.{reading_of};
ghost use Rattle.rtk_rinex.specs.Record.{EpochTableView};
ghost use Rattle.rtk_tracking.specs.Passes.{Sighting, has_phase, begins_pass};
ghost use Rattle.rtk_quality.specs.Largest.{list_of, AreLargest};
ghost use Rattle.rtk_quality.specs.Missing.{is_listed, if_listed, missing_code, missing_runs, missing_of, missing_from, all_missing, size_of_missing};
ghost use Rattle.rtk_quality.specs.Runs.{run_after, run_ended};
ghost use Rattle.rtk_quality.specs.Standing.{StandsForSatellite, StandForSatellites, StandsForMissing, StandForCodes, StandForMissing};
ghost use Rattle.rtk_quality.specs.declared.missing.MissingCode.{MissingCode};

use crate::largest::{Largest, Measured};
use crate::runs::{Run, next_run};
use crate::satellite_counts::SatelliteCounts;
use crate::satellites::satellite_at;
use rtk_obs::{AnyCode, Civil, SatelliteIndex};
use rtk_rinex::Observed;
use rtk_tracking::{nearness_ms, shows_phase};
use std::alloc::{AllocError, Global};

/// How long in ms the epochs of a run last at most that is not listed.
const LONGEST_UNLISTED_MS: u64 = 120_000;

/// A run of epochs at which a code of a satellite is missing.
#[derive(Clone, Copy)]
pub(crate) struct MissingCode {
    pub(crate) satellite: SatelliteIndex,
    pub(crate) code: AnyCode,
    pub(crate) run: Run,
}

/// The runs of epochs at which a code of a satellite is missing.
#[derive(Drop)]
pub(crate) struct MissingRuns {
    /// The run that goes on.
    pub(crate) newest: Option<Run>,
    /// The runs that ended and are listed if the satellite has the code, in the order of time.
    pub(crate) ended: Vec<Run>,
}

/// The same for each listed code of a satellite.
#[derive(Drop)]
pub(crate) struct MissingCodes {
    pub(crate) codes: Vec<MissingRuns>,
}

impl Measured for MissingCode {
    ghost use Rattle.rtk_quality.specs.Missing.{size_of_missing};

    ghost size = { size_of_missing };

    fn size(&self) -> u64 {
        self.run.epochs
    }
}

// The epochs of a run last longer than 120 s, by more than the tolerance that an outage has.
fn is_listed(interval: Option<u64>, run: &Run) -> bool
    ensures { result ≡ is_listed interval run.now }
{
    let lasting_ms = run.epochs.saturating_mul(interval.unwrap_or(0));
    lasting_ms > LONGEST_UNLISTED_MS + 2 * nearness_ms(interval)
}

// A run, if it is there and long enough to be listed.
fn if_listed(interval: Option<u64>, run: Option<Run>) -> Option<Run>
    ensures { result ≡ if_listed interval run }
{
    match run {
        Some(run) if is_listed(interval, &run) => Some(run),
        _ => None,
    }
}

// Adds a run, if it is there.
fn add_run(runs: &mut Vec<Run>, run: Option<Run>) -> Result<(), AllocError>
    ensures { OnOk result (runs.new.items ≡ runs.old.items ++ list_of run) }
{
    match run {
        Some(run) => {
            runs.push(run)?;
            Ok(())
        }
        None => Ok(()),
    }
}

impl MissingRuns {
    /// Of no epoch.
    fn new(alloc: Global) -> MissingRuns
        ensures newest { result.newest ≡ None }
        ensures ended { result.ended.items ≡ [] }
    {
        MissingRuns {
            newest: None,
            ended: Vec::new(alloc),
        }
    }

    // Notes an epoch with a phase, and whether the code lacks one there. Perhaps a pass begins with it.
    fn note(
        &mut self,
        interval: Option<u64>,
        begins: bool,
        lacks: bool,
        reading: Civil,
    ) -> Result<(), AllocError>
        ensures newest { OnOk result (self.new.newest ≡ run_after self.old.newest begins lacks reading) }
        ensures ended { OnOk result (self.new.ended.items ≡ self.old.ended.items ++ list_of (if_listed interval (run_ended self.old.newest begins lacks))) }
    {
        if !lacks && self.newest.is_none() {
            return Ok(());
        }
        let step = next_run(self.newest, begins, lacks, reading);
        self.newest = step.newest;
        add_run(&mut self.ended, if_listed(interval, step.ended))
    }
}

impl MissingCodes {
    /// Of no epoch, with so many codes.
    pub(crate) fn new(alloc: Global, count: usize) -> Result<MissingCodes, AllocError>
        ensures { IfOk result (λ missing. (interval : Option ℕ) → StandForCodes missing.codes.items count interval []) }
    {
        let mut codes = Vec::new(alloc);
        for _code in 0..count {
            codes.push(MissingRuns::new(alloc))?;
        }
        Ok(MissingCodes { codes })
    }

    /// Notes an epoch, in which the codes of the satellite show this, and some code perhaps a phase.
    pub(crate) fn note_codes(
        &mut self,
        interval: Option<u64>,
        is_tracked: bool,
        begins: bool,
        reading: Civil,
        observed: &[Observed],
    ) -> Result<(), AllocError>
        requires { is_tracked ≡ has_phase observed.now }
        ensures { OnOk result ((count : ℕ) (before : List Sighting) (s : Sighting) → s.observed ≡ observed.now → reading ≡ reading_of s.time
            → begins ≡ begins_pass interval before s → StandForCodes self.old.codes.items count interval before
            → StandForCodes self.new.codes.items count interval (s ∷ before)) }
    {
        if !is_tracked {
            return Ok(());
        }
        for place in 0..self.codes.len() {
            let lacks = !shows_phase(observed, place);
            self.codes[place].note(interval, begins, lacks, reading)?;
        }
        Ok(())
    }
}

// Notes the runs of a code that ended.
fn note_ended(
    missing: &mut Largest<MissingCode>,
    satellite: SatelliteIndex,
    code: AnyCode,
    ended: &[Run],
) -> Result<(), AllocError>
    ensures { OnOk result ((all : List MissingCode) → AreLargest size_of_missing missing.old all
        → AreLargest size_of_missing missing.new (all ++ map (missing_code satellite code) ended.now)) }
{
    for run in ended {
        missing.note(MissingCode {
            satellite,
            code,
            run: *run,
        })?;
    }
    Ok(())
}

// Notes the runs of a code.
fn note_runs(
    missing: &mut Largest<MissingCode>,
    interval: Option<u64>,
    satellite: SatelliteIndex,
    code: AnyCode,
    runs: &MissingRuns,
) -> Result<(), AllocError>
    ensures { OnOk result ((place : ℕ) (before : List Sighting) (all : List MissingCode) → StandsForMissing runs.now interval place before → AreLargest size_of_missing missing.old all
        → AreLargest size_of_missing missing.new (all ++ map (missing_code satellite code) (missing_runs interval place before))) }
{
    note_ended(missing, satellite, code, runs.ended.as_slice())?;
    match if_listed(interval, runs.newest) {
        Some(run) => {
            missing.note(MissingCode {
                satellite,
                code,
                run,
            })?;
            Ok(())
        }
        None => Ok(()),
    }
}

// Notes the runs of the code at this place, if the satellite has a phase of it.
fn note_code(
    missing: &mut Largest<MissingCode>,
    interval: Option<u64>,
    satellite: SatelliteIndex,
    place: usize,
    code: AnyCode,
    counts: &SatelliteCounts,
    runs: &MissingRuns,
) -> Result<(), AllocError>
    requires { place < 16 }
    ensures { OnOk result ((before : List Sighting) (all : List MissingCode) → StandsForSatellite counts.now interval before → StandsForMissing runs.now interval place before
        → AreLargest size_of_missing missing.old all → AreLargest size_of_missing missing.new (all ++ missing_of interval before satellite place code)) }
{
    if counts.numbers(place).counts.phases == 0 {
        return Ok(());
    }
    note_runs(missing, interval, satellite, code, runs)
}

// Notes the runs of the codes of a satellite.
fn note_satellite(
    missing: &mut Largest<MissingCode>,
    interval: Option<u64>,
    satellite: SatelliteIndex,
    codes: &[AnyCode],
    counts: &SatelliteCounts,
    runs: &[MissingRuns],
) -> Result<(), AllocError>
    requires few { length codes.now ≤ 16 }
    ensures { OnOk result ((before : List Sighting) (all : List MissingCode) → StandsForSatellite counts.now interval before → StandForCodes runs.now (length codes.now) interval before
        → AreLargest size_of_missing missing.old all → AreLargest size_of_missing missing.new (all ++ missing_from interval before satellite 0 codes.now)) }
{
    for (place, code) in codes.iter().enumerate() {
        let Some(runs) = runs.get(place) else {
            return Ok(());
        };
        note_code(missing, interval, satellite, place, *code, counts, runs)?;
    }
    Ok(())
}

/// Notes the runs of the codes of all satellites.
pub(crate) fn note_missing(
    missing: &mut Largest<MissingCode>,
    interval: Option<u64>,
    codes: &[AnyCode],
    satellites: &[SatelliteCounts],
    runs: &[MissingCodes],
) -> Result<(), AllocError>
    requires few { length codes.now ≤ 16 }
    requires satellites { length satellites.now ≤ 221 }
    requires runs { length runs.now ≡ length satellites.now }
    ensures { OnOk result ((most : ℕ) (es : List EpochTableView) (all : List MissingCode) → StandForSatellites satellites.now most interval es → StandForMissing runs.now (length codes.now) most interval es
        → AreLargest size_of_missing missing.old all → AreLargest size_of_missing missing.new (all ++ all_missing most interval codes.now es)) }
{
    for (place, counts) in satellites.iter().enumerate() {
        let satellite = satellite_at(place);
        let runs = runs[place].codes.as_slice();
        note_satellite(missing, interval, satellite, codes, counts, runs)?;
    }
    Ok(())
}
