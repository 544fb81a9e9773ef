//! A file of any systems of which a part is written.
//!
//! The rows of a record are read from its text, and none is kept. So a record that shows slips of records
//! that are left out is read a second time when it is written.

ghost use Rattle.std.specs.Prelude.{◌≡◌, ◌≤◌, ◌||◌, ◌&&◌, not, false, length, All, IfOk};
ghost use Rattle.std.specs.List.{list_any};
ghost use Rattle.rtk_rinex.specs.Record.{EpochTableView};
ghost use Rattle.rtk_rinex.specs.MixedRecord.{mixed_record_text};
ghost use Rattle.rtk_rinex.specs.MixedTable.{MixedTable, IsMixedTable, mixed_table_text};
ghost use Rattle.rtk_cut.specs.Steps.MixedFile.{IsMixedFileOf, IsRecordIn};
ghost use Rattle.rtk_cut.specs.Steps.Pending.{StandsForNone, mark_of, MarksBecome, row_has_slip, row_has_phase, epoch_with_own_marks};

use crate::epoch_file::EpochFile;
use crate::slips::{note_row, show_in_row};
use rtk_obs::GpsMs;
use rtk_rinex::{
    MixedHeading, MixedRecordLines, MixedRecords, MixedRows, MixedTextTable, Observed,
    SatelliteRow, mixed_header,
};
use std::alloc::{AllocError, Global};

// The marks of 221 satellites; none has the number 0.
const MARKS: usize = 3552;

/// A file of any systems that is read record by record. It takes no memory.
#[derive(Drop)]
pub(crate) struct MixedFile<'a> {
    pub(crate) heading: MixedHeading<'a>,
    pub(crate) records: MixedRecords<'a>,
    pub(crate) marks: [bool; MARKS],
    /// The marks before the record that was shown last.
    pub(crate) marks_before: [bool; MARKS],
}

// Marks the slips of a record.
fn note_record(marks: &mut [bool], read: &MixedRows<'_>)
    requires { length marks.old ≡ 3552 }
    ensures size { length marks.new ≡ length marks.old }
    ensures marks { (e : EpochTableView) → IsRecordIn read.now e
        → MarksBecome marks.new (λ s c. list_any (row_has_slip s c) e.rows || mark_of marks.old s c) }
{
    let mut rows = read.again();
    let mut row = SatelliteRow::default();
    while let Some(satellite) = rows.next_row(&mut row.observed) {
        row.satellite = satellite.index();
        note_row(marks, &row);
    }
}

// Clears the marks of the phases of a record. Does a mark show a slip that the record itself does not have?
fn clear_marks(marks: &mut [bool], read: &MixedRows<'_>) -> bool
    requires { length marks.old ≡ 3552 }
    ensures size { length marks.new ≡ length marks.old }
    ensures marks { (e : EpochTableView) → IsRecordIn read.now e
        → MarksBecome marks.new (λ s c. not (list_any (row_has_phase s c) e.rows) && mark_of marks.old s c) }
    ensures same { result ≡ false → (e : EpochTableView) → IsRecordIn read.now e → epoch_with_own_marks marks.old e ≡ e }
    ensures few { (e : EpochTableView) → IsRecordIn read.now e → All (λ r. length r.observed.items ≤ 16) e.rows }
{
    let mut rows = read.again();
    let mut row = SatelliteRow::default();
    // This is room alone: `show_in_row` writes each value before it is read.
    let mut shown = [Observed::default(); 16];
    let mut is_changed = false;
    while let Some(satellite) = rows.next_row(&mut row.observed) {
        row.satellite = satellite.index();
        let is_row_changed = show_in_row(marks, &row, &mut shown[..row.observed.len()]);
        is_changed |= is_row_changed;
    }
    is_changed
}

// Makes the text of a record with the slips that are marked.
fn text_with_marks(
    alloc: Global,
    marks: &mut [bool],
    read: &MixedRows<'_>,
) -> Result<Vec<u8>, AllocError>
    requires { length marks.old ≡ 3552 }
    ensures { IfOk result (λ text. (e : EpochTableView) → IsRecordIn read.now e
        → text.items ≡ mixed_record_text read.now.form.doppler (epoch_with_own_marks marks.old e)) }
{
    let mut rows = read.again();
    let mut row = SatelliteRow::default();
    let mut shown = [Observed::default(); 16];
    let mut lines = MixedRecordLines::new(alloc);
    lines.restart_with(read.has_doppler());
    while let Some(satellite) = rows.next_row(&mut row.observed) {
        row.satellite = satellite.index();
        let codes = &mut shown[..row.observed.len()];
        show_in_row(marks, &row, codes);
        lines.push_row(satellite, codes)?;
    }
    lines.finish(read.time());
    Ok(lines.into_text())
}

impl<'a> MixedFile<'a> {
    /// Makes the file of a table, of which no record was read.
    pub(crate) fn new(table: &MixedTextTable<'a>) -> MixedFile<'a>
        ensures file { (t : MixedTable) → IsMixedTable t → table.now.text ≡ mixed_table_text t → IsMixedFileOf t result }
        ensures marks { StandsForNone result.marks }
    {
        MixedFile {
            heading: table.heading(),
            records: table.records(),
            marks: [false; MARKS],
            marks_before: [false; MARKS],
        }
    }
}

impl<'a> EpochFile for MixedFile<'a> {
    ghost use Rattle.std.specs.Prelude.{◌≡◌, length};
    ghost use Rattle.rtk_rinex.specs.Header.{position_view};
    ghost use Rattle.rtk_rinex.specs.Record.{EpochTableView};
    ghost use Rattle.rtk_cut.specs.Steps.FileTexts.{mixed_texts};
    ghost use Rattle.rtk_cut.specs.Steps.MixedFile.{AreLeftIn, IsRecordWith};
    ghost use Rattle.rtk_cut.specs.Steps.Pending.{epoch_with_own_marks};

    type Record = MixedRows<'a>;

    ghost texts = { λ f. mixed_texts f.heading.head (position_view f.heading.position) f.heading.first };

    ghost marks = { λ f. f.marks };

    ghost AreLeft = { λ f epochs. AreLeftIn f.heading.head.doppler f.records epochs };

    ghost size = { λ f. length f.records.text };

    ghost IsRecordOf = { λ f rows e. IsRecordWith f.heading.head.doppler rows e };

    ghost HasShown = { λ f. Unit {0} };

    ghost IsShownAs = { λ f rows e. (own : EpochTableView) × IsRecordWith f.heading.head.doppler rows own × (e ≡ epoch_with_own_marks f.marks_before own) };

    fn next(&mut self) -> Option<MixedRows<'a>> {
        self.records.next()
    }

    fn time(&self, read: &MixedRows<'a>) -> GpsMs {
        read.time()
    }

    fn text<'r>(&self, read: &'r MixedRows<'a>) -> &'r [u8] {
        read.text()
    }

    fn note(&mut self, read: &MixedRows<'a>) {
        note_record(&mut self.marks, read);
    }

    fn show(&mut self, read: &MixedRows<'a>) -> bool {
        self.marks_before = self.marks;
        clear_marks(&mut self.marks, read)
    }

    fn shown_text(&self, alloc: Global, read: &MixedRows<'a>) -> Result<Vec<u8>, AllocError> {
        let mut marks = self.marks_before;
        text_with_marks(alloc, &mut marks, read)
    }

    fn header(&self, alloc: Global, first: GpsMs) -> Result<Vec<u8>, AllocError> {
        mixed_header(alloc, &self.heading.head, &self.heading.position, first)
    }

    fn first(&self) -> GpsMs {
        self.heading.first
    }
}
