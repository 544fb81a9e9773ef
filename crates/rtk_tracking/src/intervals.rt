//! The interval of a file, the epochs that are missing by it, and how near to a moment an epoch counts.

ghost use Rattle.std.specs.Prelude.{◌≡◌, ◌<◌, ◌≤◌, Some, IfOk};
ghost use Rattle.rtk_obs.specs.Reading.{IsMoment};
ghost use Rattle.rtk_rinex.specs.Table.{WellFormedTable, IsWellFormedTable, table_text};
ghost use Rattle.rtk_rinex.specs.MixedTable.{MixedTable, IsMixedTable, mixed_table_text};
ghost use Rattle.rtk_tracking.specs.Interval.{interval_of_file, interval_of_epochs, missing_before, nearness_of};

use crate::steps::StepCounts;
use rtk_rinex::{MixedTextTable, TextTable};
use std::alloc::{AllocError, Global};

/// How far in ms an epoch may lie from a moment at most and still counts as being there.
const NEAREST_MS: u64 = 25;

/// Returns the interval in ms of a table, or `None` if it has fewer than two records. It reads the
/// moments of the records alone.
pub fn interval(alloc: Global, table: &TextTable<'_>) -> Result<Option<u64>, AllocError>
    // Fails only if memory is refused: tests/system/calls, row interval.
    ensures { IfOk result (λ interval. (t : WellFormedTable) → IsWellFormedTable t → table.now.text ≡ table_text t
        → interval ≡ interval_of_file t) }
{
    let mut steps = StepCounts::new(alloc);
    let mut records = table.records();
    while let Some(time) = records.next_time() {
        steps.note_time(time)?;
    }
    Ok(steps.interval())
}

/// Returns the interval in ms of a table of any systems, as `interval` does for GPS.
pub fn mixed_interval(alloc: Global, table: &MixedTextTable<'_>) -> Result<Option<u64>, AllocError>
    // Fails only if memory is refused: tests/system/calls, row mixed_interval.
    ensures { IfOk result (λ interval. (t : MixedTable) → IsMixedTable t → table.now.text ≡ mixed_table_text t
        → interval ≡ interval_of_epochs t.epochs) }
{
    let mut steps = StepCounts::new(alloc);
    let mut records = table.records();
    while let Some(rows) = records.next() {
        steps.note_time(rows.time())?;
    }
    Ok(steps.interval())
}

/// Returns how far in ms an epoch of a file with this interval may lie from a moment and still
/// counts as being there.
pub fn nearness_ms(interval: Option<u64>) -> u64
    ensures value { result ≡ nearness_of interval }
    ensures few { result ≤ 25 }
{
    match interval {
        Some(interval) => (interval / 10).min(NEAREST_MS),
        None => 0,
    }
}

/// Returns how many epochs are missing between two moments in ms.
pub fn missing_between(interval_ms: u64, before_ms: u64, time_ms: u64) -> u64
    requires interval { 0 < interval_ms }
    requires time { IsMoment time_ms }
    ensures { result ≡ missing_before interval_ms (Some before_ms) time_ms }
{
    let step = time_ms.saturating_sub(before_ms);
    ((step + (interval_ms - 1) / 2) / interval_ms).saturating_sub(1)
}
