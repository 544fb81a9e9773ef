//! The records of a file of any systems, and its gaps.

ghost use Rattle.std.specs.Prelude.{◌≡◌, ◌<◌, ℕ, List, [], ◌∷◌, length, IfOk, OnOk};
ghost use Rattle.rtk_rinex.specs.MixedTable.{MixedTable, IsMixedTable, mixed_table_text};
ghost use Rattle.rtk_rinex.specs.Record.{EpochTableView};
ghost use Rattle.rtk_tracking.specs.Epochs.{newest_first};
ghost use Rattle.rtk_quality.specs.Standing.{IsTimesOf};

use crate::gaps::{Gap, gap_between};
use crate::largest::Largest;
use crate::record_counts::RecordCounts;
use rtk_obs::GpsMs;
use rtk_rinex::MixedTextTable;
use std::alloc::{AllocError, Global};

/// What the moments of a file tell, and how many satellites its records have.
#[derive(Drop)]
pub(crate) struct FileTimes {
    pub(crate) records: RecordCounts,
    pub(crate) gaps: Largest<Gap>,
}

impl FileTimes {
    // Of a file without records.
    fn new(alloc: Global) -> FileTimes
        ensures { (unit : ℕ) → IsTimesOf result unit [] }
    {
        FileTimes {
            records: RecordCounts::new(),
            gaps: Largest::new(alloc),
        }
    }

    // Notes one more record, which has the rows of so many satellites.
    fn note_record(&mut self, unit_ms: u64, time: GpsMs, rows: u32) -> Result<(), AllocError>
        requires { 0 < unit_ms }
        ensures { OnOk result ((es : List EpochTableView) (e : EpochTableView) → e.time ≡ time → length e.rows ≡ rows
            → IsTimesOf self.old unit_ms es → IsTimesOf self.new unit_ms (e ∷ es)) }
    {
        self.gaps
            .note_if_any(gap_between(unit_ms, self.records.last, time))?;
        self.records.note_record(unit_ms, time, rows);
        Ok(())
    }
}

/// What the moments of a table tell, whose missing epochs are counted by this length.
pub(crate) fn times_of(
    alloc: Global,
    table: &MixedTextTable<'_>,
    unit_ms: u64,
) -> Result<FileTimes, AllocError>
    requires { 0 < unit_ms }
    ensures { IfOk result (λ times. (t : MixedTable) → IsMixedTable t → table.now.text ≡ mixed_table_text t
        → IsTimesOf times unit_ms (newest_first t.epochs)) }
{
    let mut times = FileTimes::new(alloc);
    let mut records = table.records();
    while let Some(record) = records.next() {
        times.note_record(unit_ms, record.time(), record.count() as u32)?;
    }
    Ok(times)
}
