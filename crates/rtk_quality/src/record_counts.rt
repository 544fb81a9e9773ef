//! The counts of records.

ghost use Rattle.std.specs.Prelude.{◌≡◌, ◌<◌, ℕ, List, [], ◌∷◌, length};
ghost use Rattle.rtk_rinex.specs.Record.{EpochTableView};
ghost use Rattle.rtk_tracking.specs.Epochs.{capped, newest_moment};
ghost use Rattle.rtk_tracking.specs.Interval.{missing_in};
ghost use Rattle.rtk_quality.specs.Records.{unit_of, record_counts_of};

use rtk_obs::GpsMs;
use rtk_tracking::{greater, lesser, missing_between};

/// The records so far, the epochs that are missing, the moment of the last record, and the satellites of
/// all records together, of the record with the fewest, and of the one with the most.
#[derive(Clone, Copy)]
pub(crate) struct RecordCounts {
    pub(crate) records: u64,
    pub(crate) missing: u64,
    pub(crate) last: Option<GpsMs>,
    pub(crate) rows: u64,
    pub(crate) least_rows: Option<u32>,
    pub(crate) most_rows: Option<u32>,
}

/// The length in ms by which missing epochs are counted.
pub(crate) fn unit_ms(interval: Option<u64>) -> u64
    ensures value { result ≡ unit_of interval }
    ensures some { 0 < result }
{
    match interval {
        Some(interval) => interval.max(1),
        None => 1,
    }
}

// The missing epochs so far, and those before one more epoch.
fn with_missing(missing: u64, last: Option<GpsMs>, unit_ms: u64, time: GpsMs) -> u64
    requires { 0 < unit_ms }
    ensures { (es : List EpochTableView) (e : EpochTableView) → missing ≡ capped (missing_in unit_ms es) → last ≡ newest_moment es
        → time ≡ e.time → result ≡ capped (missing_in unit_ms (e ∷ es)) }
{
    match last {
        Some(last) => missing.saturating_add(missing_between(unit_ms, last.ms(), time.ms())),
        None => missing,
    }
}

impl RecordCounts {
    /// No record came.
    pub(crate) fn new() -> RecordCounts
        ensures { (unit : ℕ) → result ≡ record_counts_of unit [] }
    {
        RecordCounts {
            records: 0,
            missing: 0,
            last: None,
            rows: 0,
            least_rows: None,
            most_rows: None,
        }
    }

    /// Counts one more record, which has the rows of so many satellites.
    pub(crate) fn note_record(&mut self, unit_ms: u64, time: GpsMs, rows: u32)
        requires { 0 < unit_ms }
        ensures { (es : List EpochTableView) (e : EpochTableView) → e.time ≡ time → length e.rows ≡ rows → self.old ≡ record_counts_of unit_ms es
            → self.new ≡ record_counts_of unit_ms (e ∷ es) }
    {
        self.missing = with_missing(self.missing, self.last, unit_ms, time);
        self.records = self.records.saturating_add(1);
        self.last = Some(time);
        self.rows = self.rows.saturating_add(u64::from(rows));
        self.least_rows = lesser(Some(rows), self.least_rows);
        self.most_rows = greater(Some(rows), self.most_rows);
    }
}
