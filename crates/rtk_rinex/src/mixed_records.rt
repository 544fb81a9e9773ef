//! The records of a checked text of any systems, read one by one, and the rows of each.
//!
//! An epoch can have 221 rows, which need much more stack than there is. So a record is given as the lines
//! of its rows, and these are read one after another.

ghost use Rattle.std.specs.Prelude.{◌≡◌, ℕ, ◌≤◌, ◌++◌, List, length, flat_map};
ghost use Rattle.rtk_rinex.specs.declared.epoch_table.SatelliteRow.{SatelliteRow};
ghost use Rattle.rtk_rinex.specs.Lines.{IsLine};
ghost use Rattle.rtk_rinex.specs.Record.{EpochTableView};
ghost use Rattle.rtk_rinex.specs.MixedRecord.{mixed_satellite_line, mixed_record_text};
ghost use Rattle.rtk_rinex.specs.MixedTable.{IsMixedRow, IsMixedEpoch};
ghost use Rattle.rtk_rinex.specs.MixedRecords.{IsRecordOf};
ghost use Rattle.rtk_rinex.specs.Steps.MixedReadRecords.{BeginsWithMixedRecord, BeginsMixedRecords};
ghost use Rattle.rtk_rinex.specs.Steps.ReadRecords.{IsEndOrRecord};

use crate::columns::EPOCH_LINE;
use crate::digits::is_same;
use crate::epoch_line_check::{EpochStamp, stamp_in};
use crate::epoch_table::Observed;
use crate::mixed_form::RecordForm;
use crate::mixed_satellite_line_check::satellite_of_mixed_form;
use crate::records::skip_rows;
use crate::records_check::next_line;
use crate::satellite_line_read::read_cells_in;
use arrayvec::ArrayVec;
use rtk_obs::{GpsMs, SatelliteIndex};
use std::marker::Model;

/// The records of a file of any systems that are still to be read, as text. It takes no memory.
#[derive(Drop)]
pub struct MixedRecords<'a> {
    rest: &'a [u8],
    form: RecordForm,
}

impl<'a> Model for MixedRecords<'a> {
    ghost use Rattle.rtk_rinex.specs.MixedRecords.{MixedRecordsView, IsMixedRecordsView};

    ghost Value = { MixedRecordsView };

    ghost view = { λ r. record { form = r.form; text = r.rest.now } };

    ghost invariant = { λ r. IsMixedRecordsView (record { form = r.form; text = r.rest.now }) };
}

/// A record of a file of any systems, whose rows are still to be read, or some of them. It takes no memory.
#[derive(Drop)]
pub struct MixedRows<'a> {
    form: RecordForm,
    time: GpsMs,
    text: &'a [u8],
    lines: &'a [u8],
    count: usize,
}

impl<'a> Model for MixedRows<'a> {
    ghost use Rattle.rtk_rinex.specs.MixedRecords.{MixedRowsView, IsMixedRowsView};

    ghost Value = { MixedRowsView };

    ghost view = { λ r. record { form = r.form; time = r.time; text = r.text.now; lines = r.lines.now; count = r.count } };

    ghost invariant = { λ r. IsMixedRowsView (record { form = r.form; time = r.time; text = r.text.now; lines = r.lines.now; count = r.count }) };
}

// Returns the moment and the count of the epoch line that begins a text, and the text after this line.
fn read_stamp<'a>(text: &'a [u8], form: &RecordForm) -> (EpochStamp, &'a [u8])
    requires { ∥ BeginsWithMixedRecord form.now text.now ∥₁ }
    ensures stamp { (e : EpochTableView) (rest : List ℕ) → IsMixedEpoch form.now e → text.now ≡ mixed_record_text form.now.doppler e ++ rest
        → (result.0.time ≡ e.time) × (result.0.count ≡ length e.rows) × (result.1.now ≡ flat_map (mixed_satellite_line form.now.doppler) e.rows ++ rest) }
    ensures few { result.0.count ≤ 221 }
    ensures len { length result.1.now ≤ length text.now }
{
    let Some((line, after)) = next_line(text) else {
        unreachable!();
    };
    let Some(stamp) = stamp_in(line.split_at(EPOCH_LINE - 1).0, form.most_satellites()) else {
        unreachable!();
    };
    (stamp, after)
}

// Returns the part of a text before this rest of it, and the rest.
fn split_before<'a>(text: &'a [u8], rest: &[u8]) -> (&'a [u8], &'a [u8])
    requires { length rest.now ≤ length text.now }
    ensures whole { text.now ≡ result.0.now ++ result.1.now }
    ensures parts { (front : List ℕ) → text.now ≡ front ++ rest.now → (result.0.now ≡ front) × (result.1.now ≡ rest.now) }
{
    text.split_at(text.len() - rest.len())
}

// Reads the satellite and what its codes show from the line of a row.
fn read_mixed_row(
    line: &[u8],
    form: &RecordForm,
    observed: &mut ArrayVec<Observed, 16>,
) -> SatelliteIndex
    requires line { IsLine line.now }
    requires some { ∥ ((r : SatelliteRow) × IsMixedRow form.now r × (line.now ≡ mixed_satellite_line form.now.doppler r)) ∥₁ }
    ensures row { IsMixedRow form.now (record { satellite = result; observed = observed.new }) }
    ensures text { line.now ≡ mixed_satellite_line form.now.doppler (record { satellite = result; observed = observed.new }) }
{
    let Some(satellite) = satellite_of_mixed_form(line, form) else {
        unreachable!();
    };
    read_cells_in(
        form.has_doppler(),
        &line[3..line.len() - 1],
        form.width(satellite),
        observed,
    );
    satellite
}

// Returns the record that begins a text, and the text after it.
fn first_record<'a>(text: &'a [u8], form: &RecordForm) -> (MixedRows<'a>, &'a [u8])
    requires { ∥ BeginsMixedRecords form.now text.now ∥₁ }
    ensures parts { (e : EpochTableView) (rest : List ℕ) → IsMixedEpoch form.now e → IsEndOrRecord rest → text.now ≡ mixed_record_text form.now.doppler e ++ rest
        → IsRecordOf e result.0 × (result.1.now ≡ rest) }
    ensures whole { text.now ≡ result.0.text ++ result.1.now }
    ensures few { result.0.count ≤ 221 }
    ensures form { result.0.form ≡ form.now }
{
    let (stamp, lines) = read_stamp(text, form);
    let skipped = skip_rows(lines);
    let (whole, rest) = split_before(text, skipped);
    let (rows, _) = split_before(lines, skipped);
    (MixedRows::of_lines(*form, stamp, whole, rows), rest)
}

impl<'a> MixedRows<'a> {
    ghost use Rattle.std.specs.Prelude.{◌≡◌, ◌≤◌, List, [], IsTrue, IfSome, MatchOption};
    ghost use Rattle.rtk_rinex.specs.declared.epoch_table.SatelliteRow.{SatelliteRow};
    ghost use Rattle.rtk_rinex.specs.MixedTable.{IsMixedRow};
    ghost use Rattle.rtk_rinex.specs.MixedRecords.{IsMixedRowsView, AreRowsLeft, IsNextRowOf, ReadsRow};

    // Makes the iteration over the rows of which these are the lines.
    fn of_lines(
        form: RecordForm,
        stamp: EpochStamp,
        text: &'a [u8],
        lines: &'a [u8],
    ) -> MixedRows<'a>
        requires { IsMixedRowsView (record { form = form; time = stamp.time; text = text.now; lines = lines.now; count = stamp.count }) }
        ensures { result ≡ record { form = form; time = stamp.time; text = text.now; lines = lines.now; count = stamp.count } }
    {
        MixedRows {
            form,
            time: stamp.time,
            text,
            lines,
            count: stamp.count,
        }
    }

    /// Returns the moment of the record.
    pub fn time(&self) -> GpsMs
        ensures { result ≡ self.now.time }
    {
        self.time
    }

    /// Returns the text of the record, with the rows that have been read.
    pub fn text(&self) -> &'a [u8]
        ensures { result.now ≡ self.now.text }
    {
        self.text
    }

    /// Returns whether the lines of the record show Doppler shifts.
    pub fn has_doppler(&self) -> bool
        ensures { result ≡ self.now.form.doppler }
    {
        self.form.has_doppler()
    }

    /// Returns how many rows are still to be read.
    pub fn count(&self) -> usize
        ensures value { result ≡ self.now.count }
        ensures few { result ≤ 221 }
    {
        self.count
    }

    /// Returns whether the lines that are still to be read are those of another record, in a file of the same form. So
    /// they show the same rows. A caller may then read the rows of one record alone.
    pub fn has_rows_of(&self, other: &MixedRows<'_>) -> bool
        ensures { IsTrue result → (rows : List SatelliteRow) → AreRowsLeft other.now rows → AreRowsLeft self.now rows }
    {
        self.count == other.count
            && is_same(self.lines, other.lines)
            && self.form.is_same(&other.form)
    }

    /// Returns the record with the rows that are still to be read, so that they can be read twice.
    pub fn again(&self) -> MixedRows<'a>
        ensures value { result ≡ self.now }
        ensures few { result.count ≤ 221 }
    {
        MixedRows {
            form: self.form,
            time: self.time,
            text: self.text,
            lines: self.lines,
            count: self.count,
        }
    }

    /// Reads the next row: what the codes of a satellite show into `observed`, and its satellite as the
    /// answer. After the last row the answer is `None`, and `observed` stays as it was.
    ///
    /// There is an `Observed` for each code that the header lists of the system of the satellite, in its
    /// order; a value that is blank in the file is `None`.
    pub fn next_row(&mut self, observed: &mut ArrayVec<Observed, 16>) -> Option<SatelliteIndex>
        ensures next { (rows : List SatelliteRow) → AreRowsLeft self.old rows
            → MatchOption result (rows ≡ []) (λ s. IsNextRowOf rows (record { satellite = s; observed = observed.new }) self.new) }
        ensures end { MatchOption result
            ((self.old.count ≡ 0) × (self.new ≡ self.old) × (observed.new ≡ observed.old))
            (λ s. ReadsRow self.old self.new) }
        ensures row { IfSome result (λ s. IsMixedRow self.old.form (record { satellite = s; observed = observed.new })) }
    {
        if self.count == 0 {
            return None;
        }
        let Some((line, after)) = next_line(self.lines) else {
            unreachable!();
        };
        let satellite = read_mixed_row(line, &self.form, observed);
        self.lines = after;
        self.count -= 1;
        Some(satellite)
    }
}

impl<'a> MixedRecords<'a> {
    ghost use Rattle.std.specs.Prelude.{◌≡◌, ◌<◌, ◌≤◌, ◌++◌, List, [], length, IfSome, MatchOption};
    ghost use Rattle.rtk_rinex.specs.Record.{EpochTableView};
    ghost use Rattle.rtk_rinex.specs.MixedRecords.{AreMixedLeft, IsMixedRecordsView, IsNextRecordOf};

    /// Makes the iteration over the records that a text is, in a file of this form.
    pub(crate) fn of_text(text: &'a [u8], form: RecordForm) -> MixedRecords<'a>
        requires { IsMixedRecordsView (record { form = form; text = text.now }) }
        ensures { result ≡ record { form = form; text = text.now } }
    {
        MixedRecords { rest: text, form }
    }

    /// Returns the next record, whose rows are read from it one after another, or not at all. After the last
    /// record the answer is `None`.
    pub fn next(&mut self) -> Option<MixedRows<'a>>
        ensures next { (epochs : List EpochTableView) → AreMixedLeft self.old epochs
            → MatchOption result (epochs ≡ []) (λ rows. IsNextRecordOf epochs rows self.new) }
        ensures end { MatchOption result
            ((self.old.text ≡ []) × (self.new ≡ self.old))
            (λ rows. self.old.text ≡ rows.text ++ self.new.text) }
        ensures few { IfSome result (λ rows. rows.count ≤ 221) }
        ensures same_form { IfSome result (λ rows. rows.form ≡ self.old.form) }
        ensures less { IfSome result (λ rows. length self.new.text < length self.old.text) }
        ensures form { self.new.form ≡ self.old.form }
    {
        if self.rest.len() == 0 {
            return None;
        }
        let (rows, rest) = first_record(self.rest, &self.form);
        self.rest = rest;
        Some(rows)
    }
}
