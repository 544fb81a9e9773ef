//! The bins of a picture with what their epochs call for.

ghost use Rattle.std.specs.Prelude.{◌≡◌, ◌<◌, ◌*◌, ◌&&◌, nat_le, ℕ, Option, Some, List, [], ◌∷◌, length, get_or, IfOk};
ghost use Rattle.rtk_obs.specs.declared.code.Band.{Band};
ghost use Rattle.rtk_obs.specs.Reading.{IsMoment};
ghost use Rattle.rtk_rinex.specs.Record.{EpochTableView};
ghost use Rattle.rtk_tracking.specs.Interval.{missing_before};
ghost use Rattle.rtk_chart.specs.Scale.{IsScale};
ghost use Rattle.rtk_tracking.specs.Epochs.{newest_moment};
ghost use Rattle.rtk_tracking.specs.Passes.{Sighting, last_record};
ghost use Rattle.rtk_tracking.specs.Standing.{StandsForPass};
ghost use Rattle.rtk_chart.specs.Grid.{bins_of, has_missing_before, recorded_of};
ghost use Rattle.rtk_chart.specs.Steps.Standing.{AddsMarks, CountsMissing, StandForPasses, StandsForGrid};
ghost use Rattle.rtk_chart.specs.Steps.Shown.{bin_of};

use crate::observations::is_seen;
use crate::outages::note_outages;
use crate::scale::Scale;
use crate::strengths::{MOST_COLUMNS, Strengths, note_strengths};
use crate::time_bin::TimeBin;
use rtk_obs::{Band, GpsMs};
use rtk_rinex::{EpochTable, Observed};
use rtk_tracking::{Pass, missing_between, observed_in};
use std::alloc::{AllocError, Global};

/// The bins with what was read, and the epochs that are missing.
#[derive(Drop)]
pub(crate) struct Grid {
    pub(crate) bins: Vec<TimeBin>,
    /// Whether each satellite has an outage in each bin: those of a bin stand side by side.
    pub(crate) outages: Vec<bool>,
    /// Whether an epoch is missing in each bin.
    pub(crate) gaps: Vec<bool>,
    /// Whether a record lies in each bin.
    pub(crate) recorded: Vec<bool>,
    /// What the last epoch called for. It is kept because to blank so many marks anew takes as long as to fill
    /// them.
    pub(crate) called: TimeBin,
    /// The strengths of each band, in columns of some bins.
    pub(crate) strengths: Vec<Strengths>,
    pub(crate) missing: u64,
    pub(crate) slips: u64,
    pub(crate) returns: u64,
    pub(crate) rises: u64,
    /// The moment of the record that was read last.
    pub(crate) last: Option<GpsMs>,
    /// The satellites 1 to 32.
    pub(crate) passes: [Pass; 32],
}

// Marks the bins from one to another, both with it.
fn mark(gaps: &mut Vec<bool>, from: u64, to: u64)
    ensures { AddsMarks (λ c. nat_le from c && nat_le c to) gaps.old.items gaps.new.items }
{
    for bin in 0..gaps.len() {
        if from <= bin as u64 && bin as u64 <= to {
            gaps[bin] = true;
        }
    }
}

// Marks the bins of the epochs that are missing between two moments, which are so many.
fn mark_missing(gaps: &mut Vec<bool>, scale: &Scale, before: u64, moment: u64, missing: u64)
    requires good { IsScale scale.now }
    requires before { IsMoment before }
    requires moment { IsMoment moment }
    requires missing { missing ≡ missing_before scale.now.unit (Some before) moment }
    ensures { AddsMarks (has_missing_before scale.now (Some before) moment) gaps.old.items gaps.new.items }
{
    if missing > 0 {
        let from = scale.bin_at(before + scale.unit);
        let to = scale.bin_at(before + missing * scale.unit);
        mark(gaps, from, to);
    }
}

// Adds what an epoch calls for to the bin of its moment.
fn note_in_bin(bins: &mut Vec<TimeBin>, scale: &Scale, moment: u64, called: &TimeBin)
    requires good { IsScale scale.now }
    requires moment { IsMoment moment }
    ensures size { length bins.new.items ≡ length bins.old.items }
    ensures noted { (e : EpochTableView) (es : List EpochTableView) → moment ≡ e.time
        → called.now ≡ bin_of scale.now.interval es e
        → bins.old.items ≡ bins_of scale.now es → bins.new.items ≡ bins_of scale.now (e ∷ es) }
{
    let place = scale.bin_at(moment) as usize;
    if place < bins.len() {
        bins[place].add(called);
    }
}

// Marks the bin of a record at a moment.
fn note_record(recorded: &mut Vec<bool>, scale: &Scale, moment: u64)
    requires good { IsScale scale.now }
    requires moment { IsMoment moment }
    ensures { (e : EpochTableView) (es : List EpochTableView) → moment ≡ e.time
        → recorded.old.items ≡ recorded_of scale.now es → recorded.new.items ≡ recorded_of scale.now (e ∷ es) }
{
    let place = scale.bin_at(moment) as usize;
    if place < recorded.len() {
        recorded[place] = true;
    }
}

// A moment in ms, if it is there.
fn ms_of(moment: Option<GpsMs>) -> Option<u64>
    ensures { result ≡ moment }
{
    match moment {
        Some(moment) => Some(moment.ms()),
        None => None,
    }
}

// Notes the next epoch in the pass of a satellite. Without a row of the satellite its pass stays as it is.
fn note_pass(
    pass: &mut Pass,
    interval: Option<u64>,
    record_ms: Option<u64>,
    time_ms: u64,
    observed: &[Observed],
)
    ensures { (before : List Sighting) → StandsForPass pass.old interval before → record_ms ≡ last_record before
        → StandsForPass pass.new interval (record { time = time_ms; observed = observed.now } ∷ before) }
{
    if is_seen(observed) {
        pass.note(interval, record_ms, time_ms, observed);
    }
}

// Notes an epoch in the pass of each satellite. It comes after a record at this moment, or is the first one.
fn note_passes(
    passes: &mut [Pass; 32],
    interval: Option<u64>,
    record_ms: Option<u64>,
    epoch: &EpochTable,
)
    ensures { (es : List EpochTableView) → StandForPasses passes.old interval es → record_ms ≡ newest_moment es
        → StandForPasses passes.new interval (epoch.now ∷ es) }
{
    let rows = epoch.rows();
    let time_ms = epoch.time().ms();
    for place in 0u8..32 {
        let observed = observed_in(rows, place + 1);
        note_pass(
            &mut passes[usize::from(place)],
            interval,
            record_ms,
            time_ms,
            observed,
        );
    }
}

impl Grid {
    /// No record was read.
    pub(crate) fn new(alloc: Global, scale: &Scale) -> Result<Grid, AllocError>
        requires { IsScale scale.now }
        ensures bins { IfOk result (λ grid. length grid.bins.items ≡ scale.now.bins) }
        ensures outages { IfOk result (λ grid. length grid.outages.items ≡ 32 * scale.now.bins) }
        ensures gaps { IfOk result (λ grid. length grid.gaps.items ≡ scale.now.bins) }
        ensures grid { IfOk result (λ grid. (listed : List (Option Band)) → StandsForGrid grid scale.now listed []) }
    {
        Ok(Grid {
            bins: vec![in alloc; TimeBin::new(); scale.bins as usize]?,
            outages: vec![in alloc; false; 32 * scale.bins as usize]?,
            gaps: vec![in alloc; false; scale.bins as usize]?,
            recorded: vec![in alloc; false; scale.bins as usize]?,
            called: TimeBin::new(),
            strengths: vec![in alloc; Strengths::none(); MOST_COLUMNS]?,
            missing: 0,
            slips: 0,
            returns: 0,
            rises: 0,
            last: None,
            passes: [Pass::new(); 32],
        })
    }

    // Counts the epochs that are missing before an epoch, and marks their bins.
    fn count_missing(&mut self, scale: &Scale, epoch: &EpochTable)
        requires { IsScale scale.now }
        ensures bins { self.new.bins ≡ self.old.bins }
        ensures outages { self.new.outages ≡ self.old.outages }
        ensures passes { self.new.passes ≡ self.old.passes }
        ensures slips { self.new.slips ≡ self.old.slips }
        ensures returns { self.new.returns ≡ self.old.returns }
        ensures rises { self.new.rises ≡ self.old.rises }
        ensures recorded { self.new.recorded ≡ self.old.recorded }
        ensures called { self.new.called ≡ self.old.called }
        ensures strengths { self.new.strengths ≡ self.old.strengths }
        ensures size { length self.new.gaps.items ≡ length self.old.gaps.items }
        ensures missing { CountsMissing self.old self.new scale.now epoch.now }
    {
        let moment = epoch.time();
        if let Some(last) = self.last {
            let missing = missing_between(scale.unit, last.ms(), moment.ms());
            self.missing = self.missing.saturating_add(missing);
            mark_missing(&mut self.gaps, scale, last.ms(), moment.ms(), missing);
        }
    }

    /// Notes one more record: its marks in its bin, its slips, returns and rises, the passes of its satellites,
    /// the outages that end with it, the epochs that are missing before it, and its strengths.
    pub(crate) fn place_record(&mut self, scale: &Scale, bands: &[Option<Band>], epoch: &EpochTable)
        requires good { IsScale scale.now }
        requires outages { length self.old.outages.items ≡ 32 * scale.now.bins }
        ensures bins { length self.new.bins.items ≡ length self.old.bins.items }
        ensures outages { length self.new.outages.items ≡ length self.old.outages.items }
        ensures gaps { length self.new.gaps.items ≡ length self.old.gaps.items }
        ensures grid { (es : List EpochTableView) → StandsForGrid self.old scale.now bands.now es
            → StandsForGrid self.new scale.now bands.now (epoch.now ∷ es) }
    {
        let interval = scale.interval;
        let record_ms = ms_of(self.last);
        self.called
            .call_for(&self.passes, interval, record_ms, epoch);
        let counts = self.called.counts();
        self.count_missing(scale, epoch);
        self.slips = self.slips.saturating_add(counts.slips);
        self.returns = self.returns.saturating_add(counts.returns);
        self.rises = self.rises.saturating_add(counts.rises);
        note_in_bin(&mut self.bins, scale, epoch.time().ms(), &self.called);
        note_record(&mut self.recorded, scale, epoch.time().ms());
        note_strengths(&mut self.strengths, scale, bands, epoch);
        note_outages(&mut self.outages, scale, &self.passes, record_ms, epoch);
        note_passes(&mut self.passes, interval, record_ms, epoch);
        self.last = Some(epoch.time());
    }
}
