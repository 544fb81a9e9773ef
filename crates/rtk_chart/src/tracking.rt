//! How a satellite was tracked in the epochs of a bin.

ghost use Rattle.std.specs.Prelude.{◌≡◌, ◌≤◌, ◌<◌, List, map, count_by};
ghost use Rattle.std.specs.List.{range_with_len};
ghost use Rattle.rtk_tracking.specs.Passes.{Sighting, last_record, has_phase};
ghost use Rattle.rtk_tracking.specs.Standing.{StandsForPass};
ghost use Rattle.rtk_chart.specs.Epochs.{is_seen};
ghost use Rattle.rtk_chart.specs.Grid.{no_tracking};
ghost use Rattle.rtk_chart.specs.Steps.Shown.{called_at, both_codes, both_trackings, codes_with, tracking_of};

use crate::code_marks::CodeMarks;
use crate::observations::{has_phase, is_seen, shown_at};
use rtk_rinex::Observed;
use rtk_tracking::{Known, Pass};

/// A satellite: the marks of its codes by their places, and whether it has a row.
#[derive(Clone, Copy)]
pub(crate) struct Tracking {
    pub(crate) codes: [CodeMarks; 16],
    pub(crate) seen: bool,
}

/// How many codes have a slip, a return and a rise.
#[derive(Drop)]
pub(crate) struct Counts {
    pub(crate) slips: u64,
    pub(crate) returns: u64,
    pub(crate) rises: u64,
}

// What an epoch calls for of the code at this place, after the codes that are known.
fn called_at(observed: &[Observed], tracked: bool, known: &Known, code: usize) -> CodeMarks
    requires tracked { tracked ≡ has_phase observed.now }
    requires code { code < 16 }
    ensures { result ≡ called_at observed.now known.now.had known.now.kept code }
{
    CodeMarks::of(
        shown_at(observed, code),
        tracked,
        known.had[code],
        known.kept[code],
    )
}

// What an epoch calls for of each code. Those that it does not show are all alike, and a file lists few codes.
fn called_for(observed: &[Observed], known: &Known) -> [CodeMarks; 16]
    ensures { result ≡ map (called_at observed.now known.now.had known.now.kept) (range_with_len 0 16) }
{
    let tracked = has_phase(observed);
    let unshown = CodeMarks::of(Observed::default(), tracked, false, false);
    let mut codes = [unshown; 16];
    for code in 0..observed.len().min(16) {
        codes[code] = called_at(observed, tracked, known, code);
    }
    codes
}

// Adds the marks of one more epoch.
fn add_codes(codes: &mut [CodeMarks; 16], more: &[CodeMarks; 16])
    ensures { codes.new ≡ map (both_codes more.now codes.old) (range_with_len 0 16) }
{
    for code in 0..16 {
        codes[code].add(more[code]);
    }
}

// Counts the codes that have a slip, a return or a rise.
fn counts_of(codes: &[CodeMarks; 16]) -> Counts
    ensures slips { result.slips ≡ count_by (λ m. m.slip) codes.now }
    ensures returns { result.returns ≡ count_by (λ m. m.returned) codes.now }
    ensures rises { result.rises ≡ count_by (λ m. m.rise) codes.now }
    ensures few { (result.slips ≤ 16) × (result.returns ≤ 16) × (result.rises ≤ 16) }
{
    let mut slips = 0u64;
    let mut returns = 0u64;
    let mut rises = 0u64;
    for marks in codes {
        slips += u64::from(marks.slip);
        returns += u64::from(marks.returned);
        rises += u64::from(marks.rise);
    }
    Counts {
        slips,
        returns,
        rises,
    }
}

impl Tracking {
    /// No epoch came.
    pub(crate) fn new() -> Tracking
        ensures { result ≡ no_tracking }
    {
        Tracking {
            codes: [CodeMarks::new(); 16],
            seen: false,
        }
    }

    // What an epoch calls for, after the codes that are known.
    fn of(observed: &[Observed], known: &Known) -> Tracking
        ensures codes { result.codes ≡ map (called_at observed.now known.now.had known.now.kept) (range_with_len 0 16) }
        ensures seen { result.seen ≡ is_seen observed.now }
    {
        Tracking {
            codes: called_for(observed, known),
            seen: is_seen(observed),
        }
    }

    /// What an epoch calls for, after what came before it, and after a record at this moment if it is not
    /// the first one.
    pub(crate) fn of_epoch(
        pass: &Pass,
        interval: Option<u64>,
        record_ms: Option<u64>,
        time_ms: u64,
        observed: &[Observed],
    ) -> Tracking
        ensures { (before : List Sighting) → StandsForPass pass.now interval before → record_ms ≡ last_record before
            → result ≡ tracking_of interval before (record { time = time_ms; observed = observed.now }) }
    {
        if !is_seen(observed) {
            return Tracking::new();
        }
        let known = pass.known(interval, record_ms, time_ms, observed);
        Tracking::of(observed, &known)
    }

    /// Adds what one more epoch calls for.
    pub(crate) fn add(&mut self, more: &Tracking)
        ensures { self.new ≡ both_trackings more.now self.old }
    {
        let has_row = more.seen;
        if has_row {
            add_codes(&mut self.codes, &more.codes);
            self.seen = true;
        }
    }

    /// How many codes have a slip, a return and a rise, if the satellite has a row.
    pub(crate) fn counts(&self) -> Counts
        ensures slips { result.slips ≡ codes_with (λ m. m.slip) self.now }
        ensures returns { result.returns ≡ codes_with (λ m. m.returned) self.now }
        ensures rises { result.rises ≡ codes_with (λ m. m.rise) self.now }
        ensures few { (result.slips ≤ 16) × (result.returns ≤ 16) × (result.rises ≤ 16) }
    {
        let has_row = self.seen;
        if has_row {
            return counts_of(&self.codes);
        }
        Counts {
            slips: 0,
            returns: 0,
            rises: 0,
        }
    }
}
