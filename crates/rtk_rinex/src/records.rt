//! The records of a checked text, read one by one.
//!
//! The invariant of `Records` says that the rest of the text is a sequence of good records, so
//! reading cannot fail.

ghost use Rattle.std.specs.Prelude.{◌≡◌, ◌≢◌, ℕ, ◌<◌, ◌≤◌, ◌++◌, [], List, length, flat_map, None, IfSome, MatchOption};
ghost use Rattle.rtk_rinex.specs.declared.epoch_table.SatelliteRow.{SatelliteRow};
ghost use Rattle.rtk_rinex.specs.Record.{EpochTableView, satellite_line, record_text};
ghost use Rattle.rtk_rinex.specs.Table.{IsTableEpoch};
ghost use Rattle.rtk_rinex.specs.CheckText.{AreRows};
ghost use Rattle.rtk_rinex.specs.Steps.ReadRecords.{ReadsRows, WritesRows, IsEndOrRecord, BeginsWithRecord};
ghost use Rattle.rtk_rinex.specs.Records.{IsRecordsView};

use crate::columns::{EPOCH_LINE, GPS_SATELLITES};
use crate::epoch_line_check::{read_epoch_line, stamp_in};
use crate::epoch_table::{EpochTable, SatelliteRow};
use crate::records_check::next_line;
use crate::satellite_line_read::read_row;
use memchr::memchr;
use rtk_obs::GpsMs;
use std::marker::Model;

/// The records of a file that are still to be read, as text. It takes no memory.
#[derive(Drop)]
pub struct Records<'a> {
    rest: &'a [u8],
    code_count: usize,
}

impl<'a> Model for Records<'a> {
    ghost use Rattle.rtk_rinex.specs.Records.{RecordsView, IsRecordsView};

    ghost Value = { RecordsView };

    ghost view = { λ r. record { code_count = r.code_count; text = r.rest.now } };

    ghost invariant = { λ r. IsRecordsView (record { code_count = r.code_count; text = r.rest.now }) };
}

// Reads `count` satellite lines into the rows of an epoch, and returns the text after them.
fn read_rows<'a>(
    text: &'a [u8],
    code_count: usize,
    count: usize,
    epoch: &mut EpochTable,
) -> &'a [u8]
    requires code_count { code_count ≤ 16 }
    requires count { count ≤ 32 }
    requires none { epoch.old.rows ≡ [] }
    requires lines { ∥ ((rest : List ℕ) × ReadsRows code_count count text.now rest) ∥₁ }
    ensures time { epoch.new.time ≡ epoch.old.time }
    ensures rows { AreRows code_count None epoch.new.rows }
    ensures count { length epoch.new.rows ≡ count }
    ensures text { text.now ≡ flat_map satellite_line epoch.new.rows ++ result.now }
{
    let mut rest = text;
    let mut row = SatelliteRow::default();
    for _ in 0..count {
        let Some((line, after)) = next_line(rest) else {
            unreachable!();
        };
        read_row(line, code_count, &mut row);
        epoch.push_row(row.satellite, row.observed.as_slice());
        rest = after;
    }
    rest
}

// Reads the record that begins a text into `epoch`, and returns the text after it.
fn read_record<'a>(text: &'a [u8], code_count: usize, epoch: &mut EpochTable) -> &'a [u8]
    requires code_count { code_count ≤ 16 }
    requires record { ∥ BeginsWithRecord code_count text.now ∥₁ }
    ensures epoch { IsTableEpoch code_count epoch.new }
    ensures text { text.now ≡ record_text epoch.new ++ result.now }
{
    let Some((line, after)) = next_line(text) else {
        unreachable!();
    };
    let Some(stamp) = read_epoch_line(line, GPS_SATELLITES) else {
        unreachable!();
    };
    epoch.restart(stamp.time);
    read_rows(after, code_count, stamp.count, epoch)
}

/// Returns the text after the lines of rows: the next record, which the first `>` begins, or nothing after the last one.
pub(crate) fn skip_rows(text: &[u8]) -> &[u8]
    ensures rest { (line_of : SatelliteRow → List ℕ) (rows : List SatelliteRow) (rest : List ℕ) → WritesRows line_of → IsEndOrRecord rest
        → text.now ≡ flat_map line_of rows ++ rest → result.now ≡ rest }
    ensures len { length result.now ≤ length text.now }
{
    match memchr(b'>', text) {
        Some(next) => text.split_at(next).1,
        None => &[],
    }
}

// Returns the moment of the record that begins a text, and the text after the record, whose values
// are not read.
fn skip_record<'a>(text: &'a [u8]) -> (GpsMs, &'a [u8])
    requires { ∥ ((code_count : ℕ) × BeginsWithRecord code_count text.now) ∥₁ }
    ensures { (code_count : ℕ) (e : EpochTableView) (rest : List ℕ) → IsTableEpoch code_count e → IsEndOrRecord rest → text.now ≡ record_text e ++ rest
        → (result.0 ≡ e.time) × (result.1.now ≡ rest) }
{
    let Some((line, after)) = next_line(text) else {
        unreachable!();
    };
    let Some(stamp) = stamp_in(line.split_at(EPOCH_LINE - 1).0, GPS_SATELLITES) else {
        unreachable!();
    };
    (stamp.time, skip_rows(after))
}

impl<'a> Records<'a> {
    ghost use Rattle.rtk_rinex.specs.Records.{RecordsView, AreLeft, IsRecordsView, IsNextOf, IsNextTimeOf};

    /// Makes the iteration over the records that a text is, in a file of `code_count` codes.
    pub(crate) fn of_text(text: &'a [u8], code_count: usize) -> Records<'a>
        requires { IsRecordsView (record { code_count = code_count; text = text.now }) }
        ensures { result ≡ record { code_count = code_count; text = text.now } }
    {
        Records {
            rest: text,
            code_count,
        }
    }

    /// Reads the next record into `epoch`, and returns its text. After the last record the answer
    /// is `None`, and `epoch` stays as it was.
    ///
    /// The rows have an `Observed` for each code of the header, in its order; a value that is blank
    /// in the file is `None`.
    pub fn next(&mut self, epoch: &mut EpochTable) -> Option<&'a [u8]>
        ensures next { (epochs : List EpochTableView) → AreLeft self.old epochs
            → MatchOption result (epochs ≡ []) (λ text. IsNextOf epochs text.now epoch.new self.new) }
        ensures end { MatchOption result
            ((self.old.text ≡ []) × (self.new ≡ self.old) × (epoch.new ≡ epoch.old))
            (λ text. self.old.text ≡ text.now ++ self.new.text) }
        ensures record { IfSome result (λ text. IsTableEpoch self.old.code_count epoch.new × (text.now ≡ record_text epoch.new)) }
        ensures less { IfSome result (λ text. length self.new.text < length self.old.text) }
        ensures code_count { self.new.code_count ≡ self.old.code_count }
    {
        if self.rest.len() == 0 {
            return None;
        }
        let rest = read_record(self.rest, self.code_count, epoch);
        let (text, _) = self.rest.split_at(self.rest.len() - rest.len());
        self.rest = rest;
        Some(text)
    }

    /// Reads the moment of the next record, and goes on after the record, whose values are not
    /// read. After the last record the answer is `None`.
    pub fn next_time(&mut self) -> Option<GpsMs>
        ensures next { (epochs : List EpochTableView) → AreLeft self.old epochs
            → MatchOption result (epochs ≡ []) (λ time. IsNextTimeOf epochs time self.new) }
        ensures end { MatchOption result ((self.old.text ≡ []) × (self.new ≡ self.old)) (λ time. self.old.text ≢ []) }
        ensures less { IfSome result (λ time. length self.new.text < length self.old.text) }
        ensures code_count { self.new.code_count ≡ self.old.code_count }
    {
        if self.rest.len() == 0 {
            return None;
        }
        let (time, rest) = skip_record(self.rest);
        self.rest = rest;
        Some(time)
    }
}
