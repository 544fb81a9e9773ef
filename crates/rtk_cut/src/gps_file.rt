//! A file of GPS of which a part is written.

ghost use Rattle.std.specs.Prelude.{◌≡◌, IfOk};
ghost use Rattle.rtk_rinex.specs.Table.{WellFormedTable, IsWellFormedTable, table_text};
ghost use Rattle.rtk_cut.specs.Steps.GpsFile.{IsFileOf};
ghost use Rattle.rtk_cut.specs.Steps.Pending.{StandsForNone};

use crate::epoch_file::EpochFile;
use crate::slips::{note_rows, show_in_rows};
use rtk_obs::GpsMs;
use rtk_rinex::{EpochTable, Heading, Records, TextTable, header, record};
use std::alloc::{AllocError, Global};

// The marks of 32 satellites; no satellite has the number 0.
const MARKS: usize = 528;

/// A file of GPS that is read record by record. Its memory does not grow.
#[derive(Drop)]
pub(crate) struct GpsFile<'a> {
    pub(crate) heading: Heading,
    pub(crate) records: Records<'a>,
    /// The epoch of the record that was read last. It is large, so it lies on the heap.
    pub(crate) epoch: Box<EpochTable>,
    /// The epoch as it was shown last.
    pub(crate) shown: Box<EpochTable>,
    pub(crate) marks: [bool; MARKS],
}

// Makes a table without a row. This function alone needs the stack for one, which is gone when it returns.
#[inline(never)]
fn new_table(alloc: Global, start: GpsMs) -> Result<Box<EpochTable>, AllocError> {
    Ok(Box::new(alloc, EpochTable::new(start))?)
}

impl<'a> GpsFile<'a> {
    /// Makes the file of a table, of which no record was read.
    pub(crate) fn new(alloc: Global, table: &TextTable<'a>) -> Result<GpsFile<'a>, AllocError>
        ensures file { IfOk result (λ file. (t : WellFormedTable) → IsWellFormedTable t → table.now.text ≡ table_text t → IsFileOf t file) }
        ensures marks { IfOk result (λ file. StandsForNone file.marks) }
    {
        let heading = table.heading();
        let epoch = new_table(alloc, heading.first)?;
        let shown = new_table(alloc, heading.first)?;
        Ok(GpsFile {
            heading,
            records: table.records(),
            epoch,
            shown,
            marks: [false; MARKS],
        })
    }
}

impl<'a> EpochFile for GpsFile<'a> {
    ghost use Rattle.std.specs.Prelude.{◌≡◌, length};
    ghost use Rattle.rtk_rinex.specs.Header.{position_view};
    ghost use Rattle.rtk_rinex.specs.Record.{HasWidth, record_text};
    ghost use Rattle.rtk_rinex.specs.Records.{AreLeft};
    ghost use Rattle.rtk_rinex.specs.Table.{IsTableEpoch};
    ghost use Rattle.rtk_cut.specs.Steps.FileTexts.{gps_texts};

    type Record = &'a [u8];

    ghost texts = { λ f. gps_texts f.heading.head (position_view f.heading.position) f.heading.first };

    ghost marks = { λ f. f.marks };

    ghost AreLeft = { λ f epochs. AreLeft f.records epochs × (f.records.code_count ≡ length f.heading.head.listed) };

    ghost size = { λ f. length f.records.text };

    ghost IsRecordOf = { λ f text e. (f.epoch.value ≡ e) × (text.now ≡ record_text e) × IsTableEpoch (length f.heading.head.listed) e };

    ghost HasShown = { λ f. HasWidth (length f.heading.head.listed) f.shown.value.rows };

    ghost IsShownAs = { λ f text e. f.shown.value ≡ e };

    fn next(&mut self) -> Option<&'a [u8]> {
        self.records.next(&mut self.epoch)
    }

    fn time(&self, _read: &&'a [u8]) -> GpsMs {
        self.epoch.time()
    }

    fn text<'r>(&self, read: &'r &'a [u8]) -> &'r [u8] {
        read
    }

    fn note(&mut self, _read: &&'a [u8]) {
        note_rows(&mut self.marks, self.epoch.rows());
    }

    fn show(&mut self, _read: &&'a [u8]) -> bool {
        let code_count = self.heading.head.codes().len();
        self.shown.restart(self.epoch.time());
        show_in_rows(
            &mut self.marks,
            self.epoch.rows(),
            code_count,
            &mut self.shown,
        )
    }

    fn shown_text(&self, alloc: Global, _read: &&'a [u8]) -> Result<Vec<u8>, AllocError> {
        record(alloc, &self.heading.head, &self.shown)
    }

    fn header(&self, alloc: Global, first: GpsMs) -> Result<Vec<u8>, AllocError> {
        header(alloc, &self.heading.head, &self.heading.position, first)
    }

    fn first(&self) -> GpsMs {
        self.heading.first
    }
}
