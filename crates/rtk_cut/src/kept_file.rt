//! The text of a file with some of its systems alone.

ghost use Rattle.std.specs.Prelude.{◌≡◌, ◌≢◌, ◌++◌, None, List, [], flat_map, IfOk, OnOk, IfSome, MatchOption};
ghost use Rattle.rtk_rinex.specs.Record.{EpochTableView};
ghost use Rattle.rtk_rinex.specs.MixedRecord.{mixed_record_text};
ghost use Rattle.rtk_rinex.specs.MixedRecords.{AreMixedLeft};
ghost use Rattle.rtk_rinex.specs.MixedTable.{MixedTable, IsMixedTable, mixed_table_text};
ghost use Rattle.rtk_cut.specs.Cut.{first_of_part};
ghost use Rattle.rtk_cut.specs.KeptSystems.{kept_codes, kept_epoch, keeps_some, kept_epochs, kept_table};
ghost use Rattle.rtk_cut.specs.Steps.MixedFile.{IsRecordIn};

use crate::kept_head::kept_head;
use arrayvec::ArrayVec;
use rtk_obs::GpsMs;
use rtk_rinex::{
    MixedRecordLines, MixedRecords, MixedRows, MixedTextTable, SystemFlags, mixed_header,
};
use std::alloc::{AllocError, Global};

// Has a record a satellite of these systems?
fn keeps_some(kept: SystemFlags, read: &MixedRows<'_>) -> bool
    ensures { (e : EpochTableView) → IsRecordIn read.now e → result ≡ keeps_some kept e }
{
    let mut rows = read.again();
    let mut observed = ArrayVec::new();
    while let Some(satellite) = rows.next_row(&mut observed) {
        if kept.has(satellite.system()) {
            return true;
        }
    }
    false
}

// The moment of the first record with a satellite of these systems, or else this one.
fn first_kept(kept: SystemFlags, records: MixedRecords<'_>, otherwise: GpsMs) -> GpsMs
    ensures { (epochs : List EpochTableView) → AreMixedLeft records.entry epochs → result ≡ first_of_part None otherwise (kept_epochs kept epochs) }
{
    let mut rest = records;
    while let Some(read) = rest.next() {
        if keeps_some(kept, &read) {
            return read.time();
        }
    }
    otherwise
}

// Adds the record with the satellites of these systems alone; nothing if it has none.
fn put_kept_record(
    text: &mut Vec<u8>,
    lines: &mut MixedRecordLines,
    kept: SystemFlags,
    read: &MixedRows<'_>,
) -> Result<(), AllocError>
    ensures { OnOk result ((e : EpochTableView) → IsRecordIn read.now e
        → text.new.items ≡ text.old.items ++ mixed_record_text read.now.form.doppler (kept_epoch kept e)) }
{
    let mut rows = read.again();
    let mut observed = ArrayVec::new();
    lines.restart_with(read.has_doppler());
    while let Some(satellite) = rows.next_row(&mut observed) {
        if kept.has(satellite.system()) {
            lines.push_row(satellite, observed.as_slice())?;
        }
    }
    lines.finish(read.time());
    text.extend_from_slice(lines.text())?;
    Ok(())
}

// Adds all records with the satellites of these systems alone.
fn put_kept_records(
    alloc: Global,
    text: &mut Vec<u8>,
    kept: SystemFlags,
    records: MixedRecords<'_>,
) -> Result<(), AllocError>
    ensures { OnOk result ((epochs : List EpochTableView) → AreMixedLeft records.entry epochs
        → text.new.items ≡ text.old.items ++ flat_map (mixed_record_text records.entry.form.doppler) (kept_epochs kept epochs)) }
{
    let mut lines = MixedRecordLines::new(alloc);
    let mut rest = records;
    while let Some(read) = rest.next() {
        put_kept_record(text, &mut lines, kept, &read)?;
    }
    Ok(())
}

/// The text of a file with some of its systems alone: their codes and their satellites. A record without such a
/// satellite is left out. The answer is `None` if the file has no code of these systems. As much memory is taken as the
/// file has bytes, and a header more.
pub fn keep_systems(
    alloc: Global,
    table: &MixedTextTable<'_>,
    kept: SystemFlags,
) -> Result<Option<Vec<u8>>, AllocError>
    // Fails only if memory is refused: tests/system/calls, row `keep_systems`.
    ensures text { IfOk result (λ narrow. (t : MixedTable) → IsMixedTable t → table.now.text ≡ mixed_table_text t
        → MatchOption narrow (kept_codes kept t.head.listed ≡ []) (λ text. text.items ≡ mixed_table_text (kept_table kept t))) }
    ensures some { IfOk result (λ narrow. (t : MixedTable) → IsMixedTable t → table.now.text ≡ mixed_table_text t
        → IfSome narrow (λ text. kept_codes kept t.head.listed ≢ [])) }
{
    let heading = table.heading();
    let Some(head) = kept_head(kept, &heading.head) else {
        return Ok(None);
    };
    let first = first_kept(kept, table.records(), heading.first);
    let top = mixed_header(alloc, &head, &heading.position, first)?;
    // What is kept is no longer than the file.
    let mut text = Vec::with_capacity(alloc, table.as_bytes().len())?;
    text.extend_from_slice(top.as_slice())?;
    put_kept_records(alloc, &mut text, kept, table.records())?;
    Ok(Some(text))
}
