//! The counts of a satellite: its codes, and its passes.

ghost use Rattle.std.specs.Prelude.{◌≡◌, ◌<◌, ℕ, ◌&&◌, not, List, [], ◌∷◌, Option, None, Some, if◌then◌else◌};
ghost use Rattle.std.specs.List.{list_any};
ghost use Rattle.rtk_obs.specs.Reading.{reading_of};
ghost use Rattle.rtk_tracking.specs.Passes.{Sighting, last_record, has_phase, begins_pass, is_kept, is_slip, is_return};
ghost use Rattle.rtk_tracking.specs.Standing.{AreMarked, AreKnown};
ghost use Rattle.rtk_tracking.specs.Epochs.{shown_at};
ghost use Rattle.rtk_quality.specs.Counts.{plus, code_counts_of};
ghost use Rattle.rtk_quality.specs.Hours.{returns_at};
ghost use Rattle.rtk_quality.specs.Outages.{absence_at};
ghost use Rattle.rtk_quality.specs.Runs.{has_half, ended_run};
ghost use Rattle.rtk_quality.specs.Bursts.{hour_before};
ghost use Rattle.rtk_quality.specs.Steps.Noted.{locks_at, absence_after};
ghost use Rattle.rtk_quality.specs.Quality.{numbers_of, is_in_file};
ghost use Rattle.rtk_quality.specs.SatellitePasses.{phases_in, slips_at, sums_plus, sums_in, epochs_in_passes};
ghost use Rattle.rtk_quality.specs.Standing.{with_epoch, absent_at, StandsForSatellite, StandsForEnded};

use crate::bursts::{HourMoments, next_hour};
use crate::code_counts::CodeCounts;
use crate::code_numbers::CodeNumbers;
use crate::hours::{Locks, hour_at};
use crate::outages::Absence;
use crate::pass_sums::PassSums;
use crate::runs::{Run, next_run};
use rtk_obs::{Civil, GpsMs};
use rtk_rinex::Observed;
use rtk_tracking::{Known, Pass};

/// A pass of a satellite: the moments of its first and its last phase, and the sums of its epochs.
#[derive(Clone, Copy)]
pub(crate) struct PassCounts {
    pub(crate) from: Civil,
    pub(crate) until: Civil,
    pub(crate) sums: PassSums,
}

/// What a row tells beside the counts: the pass that ended when another one began, the slips and returns, the
/// absence with which an outage ended, whether there is a phase, whether a pass begins with it, the run of half
/// cycles that ended before it, and the hour with slips that did.
#[derive(Clone, Copy)]
pub(crate) struct RowNotes {
    pub(crate) ended: Option<PassCounts>,
    pub(crate) locks: Locks,
    pub(crate) absence: Option<Absence>,
    pub(crate) is_tracked: bool,
    pub(crate) begins: bool,
    pub(crate) run: Option<Run>,
    pub(crate) hour: Option<HourMoments>,
}

/// A satellite so far.
#[derive(Clone, Copy)]
pub(crate) struct SatelliteCounts {
    pub(crate) pass: Pass,
    pub(crate) codes: [CodeCounts; 16],
    /// The epochs from the first to the last phase of each pass.
    pub(crate) in_passes: u64,
    /// The epochs since the last phase.
    pub(crate) since_phase: u64,
    /// The last pass.
    pub(crate) last: Option<PassCounts>,
    /// The sums of all epochs.
    pub(crate) sums: PassSums,
    /// The run of half cycles that goes on.
    pub(crate) run: Option<Run>,
    /// The last hour with slips.
    pub(crate) hour: Option<HourMoments>,
}

// What the code at this place shows.
fn shown_at(observed: &[Observed], place: usize) -> Observed
    ensures { result ≡ shown_at place observed.now }
{
    observed.get(place).copied().unwrap_or_default()
}

// Counts one more epoch of each code. What is not observed changes no count.
fn note_codes(codes: &mut [CodeCounts; 16], observed: &[Observed], known: &Known)
    ensures { (interval : Option ℕ) (before : List Sighting) (s : Sighting) → observed.now ≡ s.observed
        → AreKnown known.now interval before s
        → codes.old ≡ code_counts_of interval before → codes.new ≡ code_counts_of interval (s ∷ before) }
{
    for place in 0..observed.len().min(16) {
        codes[place].note(&observed[place], known.had[place], known.kept[place]);
    }
}

// Some code was seen.
fn has_seen(codes: &[CodeCounts; 16]) -> bool
    ensures { result ≡ list_any (λ counts. counts.seen) codes.now }
{
    codes.iter().any(|counts| counts.seen)
}

// How many phases an epoch has.
fn phases_in(observed: &[Observed]) -> u64
    ensures { result ≡ phases_in observed.now }
{
    observed
        .iter()
        .filter(|o| o.phase_millicycles.is_some())
        .count() as u64
}

// Some code has a phase.
fn has_phase(observed: &[Observed]) -> bool
    ensures { result ≡ has_phase observed.now }
{
    observed.iter().any(|o| o.phase_millicycles.is_some())
}

// Some code has an open half cycle.
fn has_half(observed: &[Observed]) -> bool
    ensures { result ≡ has_half observed.now }
{
    observed.iter().any(|o| o.half)
}

// The code at this place has slipped: it had a phase earlier in the pass and since
// the last outage.
fn is_slip(observed: &[Observed], kept: &[bool; 16], place: usize) -> bool
    requires { place < 16 }
    ensures { (interval : Option ℕ) (before : List Sighting) (s : Sighting) → observed.now ≡ s.observed
        → AreMarked kept.now (λ place. is_kept interval place before s) → result ≡ is_slip interval place before s }
{
    shown_at(observed, place).slip && kept[place]
}

// How many slips an epoch has, of codes that had a phase earlier in the pass and since the
// last outage.
fn slips_in(observed: &[Observed], kept: &[bool; 16]) -> u64
    ensures { (interval : Option ℕ) (before : List Sighting) (s : Sighting) → observed.now ≡ s.observed
        → AreMarked kept.now (λ place. is_kept interval place before s) → result ≡ slips_at interval before s }
{
    let mut slips = 0;
    for place in 0..observed.len().min(16) {
        if is_slip(observed, kept, place) {
            slips += 1;
        }
    }
    slips
}

// A bit 0 of a code that had a phase earlier in the pass, but none since the last outage.
fn has_returned(bit: bool, known: bool, kept: bool) -> bool
    ensures { result ≡ (bit && (known && not kept)) }
{
    bit && known && !kept
}

// The code at this place has returned.
fn is_return(observed: &[Observed], known: &Known, place: usize) -> bool
    requires { place < 16 }
    ensures { (interval : Option ℕ) (before : List Sighting) (s : Sighting) → observed.now ≡ s.observed
        → AreKnown known.now interval before s → result ≡ is_return interval place before s }
{
    let bit = shown_at(observed, place).slip;
    has_returned(bit, known.had[place], known.kept[place])
}

// How many returns an epoch has.
fn returns_in(observed: &[Observed], known: &Known) -> u64
    ensures { (interval : Option ℕ) (before : List Sighting) (s : Sighting) → observed.now ≡ s.observed
        → AreKnown known.now interval before s → result ≡ returns_at interval before s }
{
    let mut returns = 0;
    for place in 0..observed.len().min(16) {
        if is_return(observed, known, place) {
            returns += 1;
        }
    }
    returns
}

// The last pass with an epoch more, or a pass that begins with it.
fn with_epoch(last: Option<PassCounts>, begins: bool, reading: Civil, sums: &PassSums) -> PassCounts
    ensures { result ≡ with_epoch last begins reading sums.now }
{
    match last {
        Some(pass) if !begins => PassCounts {
            from: pass.from,
            until: reading,
            sums: pass.sums.plus(sums),
        },
        _ => PassCounts {
            from: reading,
            until: reading,
            sums: *sums,
        },
    }
}

// The absence with which an outage of so many ms ends: it began with the last phase of the last pass.
fn absence_after(last: Option<PassCounts>, until: Civil, outage_ms: Option<u64>) -> Option<Absence>
    ensures { result ≡ absence_after last until outage_ms }
{
    match (last, outage_ms) {
        (Some(pass), Some(ms)) => Some(Absence {
            from: pass.until,
            until,
            ms,
        }),
        _ => None,
    }
}

impl SatelliteCounts {
    /// Of a satellite that no epoch has: no pass has begun, and each count is 0.
    pub(crate) fn new() -> SatelliteCounts
        ensures { (interval : Option ℕ) → StandsForSatellite result interval [] }
    {
        SatelliteCounts {
            pass: Pass::new(),
            codes: [CodeCounts::new(); 16],
            in_passes: 0,
            since_phase: 0,
            last: None,
            sums: PassSums::none(),
            run: None,
            hour: None,
        }
    }

    /// The numbers of the code at this place.
    pub(crate) fn numbers(&self, place: usize) -> CodeNumbers
        requires { place < 16 }
        ensures { (interval : Option ℕ) (before : List Sighting) → StandsForSatellite self.now interval before → result ≡ numbers_of interval before place }
    {
        CodeNumbers {
            counts: self.codes[place],
            possible: self.in_passes,
            satellites: 1,
        }
    }

    /// How many phases could be there of each code.
    pub(crate) fn possible(&self) -> u64
        ensures { (interval : Option ℕ) (before : List Sighting) → StandsForSatellite self.now interval before → result ≡ epochs_in_passes interval before }
    {
        self.in_passes
    }

    /// The sums of all epochs.
    pub(crate) fn sums(&self) -> PassSums
        ensures { (interval : Option ℕ) (before : List Sighting) → StandsForSatellite self.now interval before → result ≡ sums_in interval before }
    {
        self.sums
    }

    /// Has the satellite a code?
    pub(crate) fn is_in_file(&self) -> bool
        ensures { (interval : Option ℕ) (before : List Sighting) → StandsForSatellite self.now interval before → result ≡ is_in_file interval before }
    {
        has_seen(&self.codes)
    }

    // Notes that the epoch has a phase: it goes on with the last pass, or begins one, and then the answer
    // is the pass before it.
    fn note_phases(&mut self, begins: bool, reading: Civil, sums: &PassSums) -> Option<PassCounts>
        ensures pass { self.new.pass ≡ self.old.pass }
        ensures codes { self.new.codes ≡ self.old.codes }
        ensures in_passes { self.new.in_passes ≡ plus self.old.in_passes (if begins then 1 else self.old.since_phase) }
        ensures since_phase { self.new.since_phase ≡ 0 }
        ensures last { self.new.last ≡ Some (with_epoch self.old.last begins reading sums.now) }
        ensures sums { self.new.sums ≡ sums_plus self.old.sums sums.now }
        ensures ended { result ≡ (if begins then self.old.last else None) }
    {
        let had = self.last;
        self.last = Some(with_epoch(had, begins, reading, sums));
        self.sums = self.sums.plus(sums);
        let since_phase = self.since_phase;
        self.since_phase = 0;
        if begins {
            self.in_passes = self.in_passes.saturating_add(1);
            return had;
        }
        self.in_passes = self.in_passes.saturating_add(since_phase);
        None
    }

    /// Notes one more epoch, of which no row came so far.
    pub(crate) fn note_epoch(&mut self)
        ensures { (interval : Option ℕ) (before : List Sighting) (time : ℕ) → StandsForSatellite self.old interval before
            → StandsForSatellite self.new interval (absent_at time ∷ before) }
    {
        self.since_phase = self.since_phase.saturating_add(1);
    }

    /// Notes the row of that epoch, which comes after a record at this moment or is the first one: what
    /// the codes of the satellite show.
    pub(crate) fn note_row(
        &mut self,
        interval: Option<u64>,
        record_ms: Option<u64>,
        time: GpsMs,
        reading: Civil,
        observed: &[Observed],
    ) -> RowNotes
        requires { reading ≡ reading_of time }
        ensures stands { (before : List Sighting) → StandsForSatellite self.old interval (absent_at time ∷ before)
            → record_ms ≡ last_record before → StandsForSatellite self.new interval (record { time = time; observed = observed.now } ∷ before) }
        ensures ended { (before : List Sighting) → StandsForSatellite self.old interval (absent_at time ∷ before)
            → record_ms ≡ last_record before → StandsForEnded result.ended interval before (record { time = time; observed = observed.now }) }
        ensures locks { (before : List Sighting) → StandsForSatellite self.old interval (absent_at time ∷ before)
            → record_ms ≡ last_record before → result.locks ≡ locks_at interval before (record { time = time; observed = observed.now }) }
        ensures absence { (before : List Sighting) → StandsForSatellite self.old interval (absent_at time ∷ before)
            → record_ms ≡ last_record before → result.absence ≡ absence_at interval before (record { time = time; observed = observed.now }) }
        ensures tracked { result.is_tracked ≡ has_phase observed.now }
        ensures begins { (before : List Sighting) → StandsForSatellite self.old interval (absent_at time ∷ before)
            → result.begins ≡ begins_pass interval before (record { time = time; observed = observed.now }) }
        ensures run { (before : List Sighting) → StandsForSatellite self.old interval (absent_at time ∷ before)
            → record_ms ≡ last_record before → result.run ≡ ended_run interval before (record { time = time; observed = observed.now }) }
        ensures hour { (before : List Sighting) → StandsForSatellite self.old interval (absent_at time ∷ before)
            → record_ms ≡ last_record before → result.hour ≡ hour_before interval before (record { time = time; observed = observed.now }) }
    {
        let time_ms = time.ms();
        let begins = self.pass.begins(interval, time_ms, observed);
        let known = self.pass.known(interval, record_ms, time_ms, observed);
        note_codes(&mut self.codes, observed, &known);
        let outage_ms = self.pass.outage_ms(interval, record_ms, time_ms, observed);
        self.pass.note(interval, record_ms, time_ms, observed);
        if !has_phase(observed) {
            let locks = Locks::none();
            return RowNotes {
                ended: None,
                locks,
                absence: None,
                is_tracked: false,
                begins: false,
                run: None,
                hour: None,
            };
        }
        let slips = slips_in(observed, &known.kept);
        let returns = returns_in(observed, &known);
        let sums = PassSums::of(phases_in(observed), slips, outage_ms);
        let absence = absence_after(self.last, reading, outage_ms);
        let run = next_run(self.run, begins, has_half(observed), reading);
        let hour = next_hour(self.hour, slips, hour_at(interval, time));
        let ended = self.note_phases(begins, reading, &sums);
        self.run = run.newest;
        self.hour = hour.last;
        RowNotes {
            ended,
            locks: Locks { slips, returns },
            absence,
            is_tracked: true,
            begins,
            run: run.ended,
            hour: hour.ended,
        }
    }
}
