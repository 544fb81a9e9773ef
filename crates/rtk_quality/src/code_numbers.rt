//! The numbers of a code: its counts, of how many phases that could be there, and fractions of them.

ghost use Rattle.std.specs.Prelude.{◌≡◌, ◌<◌, ◌^◌};
ghost use Rattle.rtk_tracking.specs.Epochs.{capped};
ghost use Rattle.rtk_quality.specs.Counts.{rounded_fraction, percent_tenths, phases_per_slip, mean_hundredths, mean_tenths};
ghost use Rattle.rtk_quality.specs.Quality.{together, no_numbers, with_satellite, station_numbers};

use crate::code_counts::CodeCounts;
use rtk_tracking::{greater, lesser};

/// The counts of a code, how many phases could be there, and of how many satellites these are.
#[derive(Clone, Copy)]
pub(crate) struct CodeNumbers {
    pub(crate) counts: CodeCounts,
    pub(crate) possible: u64,
    pub(crate) satellites: u64,
}

/// How many phases there are for each slip.
#[derive(Clone, Copy)]
pub(crate) enum PerSlip {
    NoPhase,
    NoneLost,
    Each(u64),
}

// The counts of two satellites together.
fn together(one: &CodeCounts, other: &CodeCounts) -> CodeCounts
    ensures { result ≡ together one.now other.now }
{
    CodeCounts {
        seen: true,
        phases: one.phases.saturating_add(other.phases),
        ranges: one.ranges.saturating_add(other.ranges),
        slips: one.slips.saturating_add(other.slips),
        returns: one.returns.saturating_add(other.returns),
        rises: one.rises.saturating_add(other.rises),
        halves: one.halves.saturating_add(other.halves),
        shifts: one.shifts.saturating_add(other.shifts),
        strengths: one.strengths.saturating_add(other.strengths),
        strength_sum: one.strength_sum.saturating_add(other.strength_sum),
        least: lesser(one.least, other.least),
        greatest: greater(one.greatest, other.greatest),
    }
}

impl CodeNumbers {
    /// No satellite has the code.
    pub(crate) fn none() -> CodeNumbers
        ensures { result ≡ no_numbers }
    {
        CodeNumbers {
            counts: CodeCounts::new(),
            possible: 0,
            satellites: 0,
        }
    }

    /// Adds the numbers of one more satellite, if it has the code.
    pub(crate) fn add_satellite(&mut self, own: &CodeNumbers)
        ensures { self.new ≡ with_satellite self.old own.now }
    {
        if own.counts.seen {
            self.counts = together(&self.counts, &own.counts);
            self.possible = self.possible.saturating_add(own.possible);
            self.satellites = self.satellites.saturating_add(own.satellites);
        }
    }

    /// The numbers for the station, if so many phases could be there of a code that each satellite sends.
    pub(crate) fn of_station(&self, possible: u64) -> CodeNumbers
        ensures { result ≡ station_numbers possible self.now }
    {
        if self.counts.seen {
            return *self;
        }
        CodeNumbers {
            counts: self.counts,
            possible,
            satellites: 0,
        }
    }
}

// A fraction as a whole number: of two alike near, the greater one.
fn rounded(number: u128, divisor: u128) -> u64
    requires positive { 0 < divisor }
    requires small { number < 2 ^ 96 }
    requires small_divisor { divisor < 2 ^ 96 }
    ensures { result ≡ capped (rounded_fraction number divisor) }
{
    ((2 * number + divisor) / (2 * divisor)).min(u128::from(u64::MAX)) as u64
}

/// How many of those that could be there are there, in tenths of a percent, rounded down.
pub(crate) fn percent_tenths(number: u64, possible: u64) -> u64
    ensures { result ≡ percent_tenths number possible }
{
    if possible == 0 {
        return 0;
    }
    (1000 * u128::from(number) / u128::from(possible)).min(u128::from(u64::MAX)) as u64
}

/// How many phases there are for each slip.
pub(crate) fn phases_per_slip(phases: u64, slips: u64) -> PerSlip
    ensures { result ≡ phases_per_slip phases slips }
{
    if phases == 0 {
        return PerSlip::NoPhase;
    }
    if slips == 0 {
        return PerSlip::NoneLost;
    }
    PerSlip::Each(rounded(u128::from(phases), u128::from(slips)))
}

/// The mean of so many strengths in hundredths of a dB-Hz; their sum is in thousandths.
pub(crate) fn mean_hundredths(sum: u64, count: u64) -> Option<u64>
    ensures { result ≡ mean_hundredths sum count }
{
    if count == 0 {
        return None;
    }
    Some(rounded(u128::from(sum), 10 * u128::from(count)))
}

/// How many satellites an epoch has in the mean, in tenths, by those of all records together.
pub(crate) fn mean_tenths(rows: u64, records: u64) -> Option<u64>
    ensures { result ≡ mean_tenths rows records }
{
    if records == 0 {
        return None;
    }
    Some(rounded(10 * u128::from(rows), u128::from(records)))
}
