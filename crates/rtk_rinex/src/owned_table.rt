//! A table that keeps its text.

ghost use Rattle.std.specs.Prelude.{◌≡◌, ◌≢◌, ◌<◌, ◌++◌, ◌⊎◌, [], length, OnOk, IfOk, IfErr};
ghost use Rattle.rtk_rinex.specs.Lines.{IsLine};
ghost use Rattle.rtk_rinex.specs.CheckTable.{HoldsTable, IsFault, IsTableView, IsWithoutTable};
ghost use Rattle.rtk_rinex.specs.KeptTable.{HasLine, IsTextOfTable};

use crate::check_fault::{Cause, CheckFault};
use crate::records_check::{LineCounts, next_line};
use crate::table_check::{TextTable, check_text};
use std::alloc::{AllocError, Global};
use std::marker::Model;

/// A well-formed table of observations. It keeps its text, so the bytes that were checked may go.
#[derive(Drop)]
pub struct Table {
    text: Vec<u8>,
    counts: LineCounts,
}

impl Model for Table {
    ghost use Rattle.rtk_rinex.specs.CheckTable.{TableView, IsTableView};

    ghost Value = { TableView };

    ghost view = { λ t. record { text = t.text.items; epochs = t.counts.epochs; satellites = t.counts.satellites } };

    ghost invariant = { λ t. IsTableView (record { text = t.text.items; epochs = t.counts.epochs; satellites = t.counts.satellites }) };
}

impl Table {
    /// Returns how many records the table has.
    pub fn epochs(&self) -> usize
        ensures { result ≡ self.now.epochs }
    {
        self.counts.epochs
    }

    /// Returns how many satellite lines the records of the table have.
    pub fn satellites(&self) -> usize
        ensures { result ≡ self.now.satellites }
    {
        self.counts.satellites
    }

    /// Returns the same table, for the calls that read one in its text.
    pub fn as_text_table(&self) -> TextTable<'_>
        ensures { result ≡ self.now }
    {
        TextTable::of_text(self.text.as_slice(), self.counts)
    }
}

// Returns the first line of a text, with its LF if it has one, and the text after the line.
fn first_line(text: &[u8]) -> (&[u8], &[u8])
    requires { text.now ≢ [] }
    ensures text { text.now ≡ result.0.now ++ result.1.now }
    ensures line { IsLine result.0.now ⊎ (result.1.now ≡ []) }
    ensures less { length result.1.now < length text.now }
{
    match next_line(text) {
        Some(parts) => parts,
        None => text.split_at(text.len()),
    }
}

// Keeps the line of this number.
fn keep_line(text: &mut Vec<u8>, line: &[u8], number: usize) -> Result<(), CheckFault>
    ensures ok { OnOk result (text.new.items ≡ text.old.items ++ line.now) }
    ensures memory { IfErr result (λ fault. (fault.cause ≡ Cause.OutOfMemory) × (fault.line ≡ number)) }
{
    text.extend_from_slice(line).map_err(|refused| CheckFault {
        line: number,
        cause: Cause::from(refused),
    })
}

// Returns a copy of a text. It takes memory line by line, so that a refusal can say which line was
// read.
fn kept_text(alloc: Global, bytes: &[u8]) -> Result<Vec<u8>, CheckFault>
    ensures text { IfOk result (λ text. text.items ≡ bytes.now) }
    ensures memory { IfErr result (λ fault. (fault.cause ≡ Cause.OutOfMemory) × HasLine bytes.now fault.line) }
{
    let mut text = Vec::new(alloc);
    let mut rest = bytes;
    let mut number = 0;
    while rest.len() > 0 {
        number += 1;
        let (line, after) = first_line(rest);
        keep_line(&mut text, line, number)?;
        rest = after;
    }
    Ok(text)
}

/// Returns the well-formed table whose text this is if there is one, else the first line that is
/// wrong.
///
/// The text is checked in its place, as by `check_text`, and then kept line by line. So a text with a
/// fault is refused with this fault, whether there is memory or not.
pub fn check(alloc: Global, bytes: &[u8]) -> Result<Table, CheckFault>
    ensures text { IfOk result (λ t. t.text ≡ bytes.now) }
    ensures table { IfOk result (λ t. HoldsTable bytes.now t.epochs t.satellites) }
    ensures fault { IfErr result (λ fault. fault.cause ≢ Cause.OutOfMemory → IsFault bytes.now fault × IsWithoutTable bytes.now) }

    // `OutOfMemory` comes only if memory is refused: tests/system/calls, rows `check ..`.
    ensures memory { IfErr result (λ fault. fault.cause ≡ Cause.OutOfMemory → IsTextOfTable bytes.now × HasLine bytes.now fault.line) }
{
    let table = check_text(bytes)?;
    Ok(Table {
        text: kept_text(alloc, bytes)?,
        counts: table.counts(),
    })
}

/// Returns the text of a table. Memory is taken once.
pub fn text(alloc: Global, table: &Table) -> Result<Vec<u8>, AllocError>
    // Fails only if memory is refused: tests/system/calls, rows `text ..`.
    ensures text { IfOk result (λ t. t.items ≡ table.now.text) }
    ensures table { IsTableView table.now }
{
    let mut copy = Vec::with_capacity(alloc, table.text.len())?;
    copy.extend_from_slice(table.text.as_slice())?;
    Ok(copy)
}
