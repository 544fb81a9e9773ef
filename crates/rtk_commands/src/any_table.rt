//! A table in its text, of GPS alone or with other systems. A file of GPS with Doppler shifts is read as one of any
//! systems.

ghost use Rattle.std.specs.Prelude.{◌≡◌, ◌≢◌, true, false, drop, Err, IfOk, OnOk, OnErr, IfErr, IsErrOf};
ghost use Rattle.rtk_frame.specs.Stream.{CountRises};
ghost use Rattle.rtk_cut.specs.Cut.{IsStepOrNone};
ghost use Rattle.rtk_cut.specs.declared.fault.CutFault.TheVariants.{Write};
ghost use Rattle.rtk_commands.specs.FileTable.{IsTextOfSomeFile, HoldsFile, IsTextOfNoFile, IsFaultOfFile, is_gps_text, text_of, records_of, lines_of, HasItsLetter};
ghost use Rattle.rtk_commands.specs.CutInput.{WritesPartOfFile, WritesFirstOfPartOfFile, CountsPartOfFile, TellsExtent};
ghost use Rattle.rtk_commands.specs.LabelInput.{TellsIsFor, WritesWithLines, WritesFirstWithLines, WritesFrontOfFile, WritesFirstOfFrontOfFile, WritesFrontAndLines, WritesFirstOfFrontAndLines};

use rtk_cut::{
    CutCounts, CutFault, Extent, Part, cut, cut_mixed, extent_of_mixed_part, extent_of_part,
};
use rtk_frame::{Sink, StreamFault, write_all};
use rtk_label::{Label, PLAIN_FRONT, is_for, is_for_mixed, write_front, write_front_mixed};
use rtk_rinex::{CheckFault, MixedTextTable, TextTable, check_mixed_text, check_text};
use std::alloc::{AllocError, Global};

/// A well-formed table in its text.
#[derive(Drop)]
pub(crate) enum AnyTable<'a> {
    /// Of GPS alone.
    Gps(TextTable<'a>),
    /// With other systems.
    Mixed(MixedTextTable<'a>),
}

// Is a text read as one of a file of GPS alone? Such a file has the letter of GPS in its first line, and no Doppler
// shift as the third type of its tenth line, before which nine lines of 81 bytes stand.
fn is_gps_text(text: &[u8]) -> bool
    ensures { result ≡ is_gps_text text.now }
{
    let letter = text.get(40).copied().unwrap_or_default();
    let third_type = text.get(744).copied().unwrap_or_default();
    letter == b'G' && third_type != b'D'
}

fn check_gps(text: &[u8]) -> Result<AnyTable<'_>, CheckFault>
    requires { is_gps_text text.now ≡ true }
    ensures text { IfOk result (λ table. text_of table ≡ text.now) }
    ensures letter { IfOk result HasItsLetter }
    ensures table { OnOk result (IsTextOfSomeFile text.now) }
    ensures counts { IfOk result (λ table. HoldsFile text.now (records_of table) (lines_of table)) }
    ensures fault { IfErr result (IsFaultOfFile text.now) }
    ensures none { OnErr result (IsTextOfNoFile text.now) }
{
    match check_text(text) {
        Ok(table) => Ok(AnyTable::Gps(table)),
        Err(fault) => Err(fault),
    }
}

fn check_mixed(text: &[u8]) -> Result<AnyTable<'_>, CheckFault>
    requires { is_gps_text text.now ≡ false }
    ensures text { IfOk result (λ table. text_of table ≡ text.now) }
    ensures letter { IfOk result HasItsLetter }
    ensures table { OnOk result (IsTextOfSomeFile text.now) }
    ensures counts { IfOk result (λ table. HoldsFile text.now (records_of table) (lines_of table)) }
    ensures fault { IfErr result (IsFaultOfFile text.now) }
    ensures none { OnErr result (IsTextOfNoFile text.now) }
{
    match check_mixed_text(text) {
        Ok(table) => Ok(AnyTable::Mixed(table)),
        Err(fault) => Err(fault),
    }
}

/// Returns the table of a text, or the first line that is wrong.
pub(crate) fn check_any(text: &[u8]) -> Result<AnyTable<'_>, CheckFault>
    ensures text { IfOk result (λ table. text_of table ≡ text.now) }
    ensures letter { IfOk result HasItsLetter }
    ensures table { OnOk result (IsTextOfSomeFile text.now) }
    ensures counts { IfOk result (λ table. HoldsFile text.now (records_of table) (lines_of table)) }
    ensures fault { IfErr result (IsFaultOfFile text.now) }
    ensures none { OnErr result (IsTextOfNoFile text.now) }
{
    if is_gps_text(text) {
        return check_gps(text);
    }
    check_mixed(text)
}

// What stands in a text behind its first nine lines.
fn behind_front(text: &[u8]) -> &[u8]
    ensures { result.now ≡ drop 729 text.now }
{
    if text.len() < PLAIN_FRONT {
        return text.split_at(text.len()).1;
    }
    text.split_at(PLAIN_FRONT).1
}

impl AnyTable<'_> {
    /// How many records the table has.
    pub(crate) fn epochs(&self) -> usize
        ensures { result ≡ records_of self.now }
    {
        match self {
            AnyTable::Gps(table) => table.epochs(),
            AnyTable::Mixed(table) => table.epochs(),
        }
    }

    /// How many satellite lines the records of the table have.
    pub(crate) fn satellites(&self) -> usize
        ensures { result ≡ lines_of self.now }
    {
        match self {
            AnyTable::Gps(table) => table.satellites(),
            AnyTable::Mixed(table) => table.satellites(),
        }
    }

    /// Is a label for this file?
    pub(crate) fn is_for(&self, label: &Label) -> bool
        requires { HasItsLetter self.now }
        ensures { TellsIsFor label.now (text_of self.now) result }
    {
        match self {
            AnyTable::Gps(table) => is_for(label, table),
            AnyTable::Mixed(table) => is_for_mixed(label, table),
        }
    }

    // The text of the table.
    fn as_bytes(&self) -> &[u8]
        ensures { result.now ≡ text_of self.now }
    {
        match self {
            AnyTable::Gps(table) => table.as_bytes(),
            AnyTable::Mixed(table) => table.as_bytes(),
        }
    }

    /// How far the records of a part of the file extend.
    pub(crate) fn extent(&self, alloc: Global, part: Part) -> Result<Extent, AllocError>
        requires letter { HasItsLetter self.now }
        requires step { IsStepOrNone part.every }
        ensures { IfOk result (TellsExtent (text_of self.now) part) }
    {
        match self {
            AnyTable::Gps(table) => extent_of_part(alloc, table, part),
            AnyTable::Mixed(table) => extent_of_mixed_part(alloc, table, part),
        }
    }

    /// Writes only the lines that a label changes.
    pub(crate) fn write_front<W: Sink>(&self, label: &Label, out: &mut W) -> Result<(), StreamFault>
        requires { HasItsLetter self.now }
        ensures all { OnOk result (WritesFrontOfFile (text_of self.now) label.now (W.taken out.old) (W.taken out.new)) }
        ensures first { WritesFirstOfFrontOfFile (text_of self.now) label.now (W.taken out.old) (W.taken out.new) }
        ensures write_failed { OnErr result (CountRises (W.failures out.old) (W.failures out.new)) }
        ensures no_failed_write { OnOk result (W.failures out.new ≡ W.failures out.old) }
    {
        match self {
            AnyTable::Gps(table) => write_front(label, table, out),
            AnyTable::Mixed(table) => write_front_mixed(label, table, out),
        }
    }

    /// Writes the lines that a label changes, and these lines behind them.
    pub(crate) fn write_front_and_lines<W: Sink>(
        &self,
        label: &Label,
        lines: &[u8],
        out: &mut W,
    ) -> Result<(), StreamFault>
        requires { HasItsLetter self.now }
        ensures all { OnOk result (WritesFrontAndLines (text_of self.now) label.now lines.now (W.taken out.old) (W.taken out.new)) }
        ensures first { WritesFirstOfFrontAndLines (text_of self.now) label.now lines.now (W.taken out.old) (W.taken out.new) }
        ensures write_failed { OnErr result (CountRises (W.failures out.old) (W.failures out.new)) }
        ensures no_failed_write { OnOk result (W.failures out.new ≡ W.failures out.old) }
    {
        self.write_front(label, out)?;
        write_all(out, lines)
    }

    /// Writes the file with a label, and with these lines behind those that the label changes.
    pub(crate) fn write_with_lines<W: Sink>(
        &self,
        label: &Label,
        lines: &[u8],
        out: &mut W,
    ) -> Result<(), StreamFault>
        requires { HasItsLetter self.now }
        ensures all { OnOk result (WritesWithLines (text_of self.now) label.now lines.now (W.taken out.old) (W.taken out.new)) }
        ensures first { WritesFirstWithLines (text_of self.now) label.now lines.now (W.taken out.old) (W.taken out.new) }
        ensures write_failed { OnErr result (CountRises (W.failures out.old) (W.failures out.new)) }
        ensures no_failed_write { OnOk result (W.failures out.new ≡ W.failures out.old) }
    {
        self.write_front_and_lines(label, lines, out)?;
        write_all(out, behind_front(self.as_bytes()))
    }

    /// Writes a part of the file.
    pub(crate) fn cut<W: Sink>(
        &self,
        alloc: Global,
        part: Part,
        out: &mut W,
    ) -> Result<CutCounts, CutFault>
        requires letter { HasItsLetter self.now }
        requires step { IsStepOrNone part.every }
        ensures all { OnOk result (WritesPartOfFile (text_of self.now) part (W.taken out.old) (W.taken out.new)) }
        ensures counts { IfOk result (CountsPartOfFile (text_of self.now) part) }
        ensures first { OnErr result (WritesFirstOfPartOfFile (text_of self.now) part (W.taken out.old) (W.taken out.new)) }
        ensures write_failed { IsErrOf result Write → CountRises (W.failures out.old) (W.failures out.new) }
        ensures no_failed_write { result ≢ Err Write → W.failures out.new ≡ W.failures out.old }
    {
        match self {
            AnyTable::Gps(table) => cut(alloc, table, part, out),
            AnyTable::Mixed(table) => cut_mixed(alloc, table, part, out),
        }
    }
}
