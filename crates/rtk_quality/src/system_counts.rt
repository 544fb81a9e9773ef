//! The counts of one system of a file.

ghost use Rattle.std.specs.Prelude.{◌≡◌, ◌==◌, ◌≤◌, length, IfOk, OnOk};
ghost use Rattle.std.specs.List.{filter};
ghost use Rattle.rtk_obs.specs.SatelliteIndex.{system_at, letter_of};
ghost use Rattle.rtk_rinex.specs.MixedRecords.{IsRecordOf};
ghost use Rattle.rtk_rinex.specs.MixedTable.{MixedTable, IsMixedTable, mixed_table_text};
ghost use Rattle.rtk_rinex.specs.Record.{EpochTableView};
ghost use Rattle.rtk_tracking.specs.Epochs.{newest_first};
ghost use Rattle.rtk_quality.specs.Records.{unit_of};
ghost use Rattle.rtk_quality.specs.Standing.{AreRowsUpTo, HasCounted};
ghost use Rattle.rtk_quality.specs.SystemParts.{is_row_of, epochs_of_system};

use crate::file_counts::FileCounts;
use crate::record_counts::unit_ms;
use rtk_message::System;
use rtk_obs::{AnyCode, SatelliteIndex, letter_of};
use rtk_rinex::{MixedRows, MixedTextTable, SatelliteRow};
use std::alloc::{AllocError, Global};
use std::mem;

/// How many satellites all systems have.
const ALL_SATELLITES: usize = 221;

// Is a satellite of this system?
fn is_of_system(satellite: SatelliteIndex, system: System) -> bool
    ensures { result ≡ (letter_of (system_at satellite) == letter_of system) }
{
    letter_of(satellite.system()) == letter_of(system)
}

// Reads the rows of a system in a record.
fn read_rows(
    read: &MixedRows<'_>,
    system: System,
    own: &mut Vec<SatelliteRow>,
) -> Result<(), AllocError>
    ensures rows { OnOk result ((e : EpochTableView) → IsRecordOf e read.now → own.new.items ≡ filter (is_row_of system) e.rows) }
    ensures satellites { OnOk result (AreRowsUpTo 221 own.new.items) }
    ensures few { OnOk result (length own.new.items ≤ 221) }
{
    own.clear();
    let mut rows = read.again();
    let mut row = SatelliteRow::default();
    while let Some(satellite) = rows.next_row(&mut row.observed) {
        row.satellite = satellite.index();
        if is_of_system(satellite, system) {
            own.push(mem::replace(&mut row, SatelliteRow::default()))?;
        }
    }
    Ok(())
}

/// Counts all records of a table of any systems, with the satellites of one system alone. These are its codes, and
/// this is the interval of the file.
pub(crate) fn count_system(
    alloc: Global,
    table: &MixedTextTable<'_>,
    system: System,
    codes: &[AnyCode],
    interval: Option<u64>,
) -> Result<FileCounts, AllocError>
    requires { length codes.now ≤ 16 }
    ensures size { IfOk result (λ counts. length counts.satellites.items ≡ 221) }
    ensures counts { IfOk result (λ counts. (t : MixedTable) → IsMixedTable t → table.now.text ≡ mixed_table_text t
        → HasCounted counts 221 interval (unit_of interval) codes.now (newest_first (epochs_of_system system t.epochs))) }
{
    let unit_ms = unit_ms(interval);
    let mut counts = FileCounts::new(alloc, codes, ALL_SATELLITES)?;
    let mut rows = Vec::new(alloc);
    let mut records = table.records();
    while let Some(record) = records.next() {
        read_rows(&record, system, &mut rows)?;
        counts.note_epoch(interval, unit_ms, codes, record.time(), rows.as_slice())?;
    }
    counts.finish(interval, codes)?;
    Ok(counts)
}
