//! A text that is a file without the label and the time lines that it has, perhaps a blank one and none.

ghost use Rattle.std.specs.Prelude.{◌≡◌, ◌+◌, ◌<◌, ◌^◌, IfOk};
ghost use Rattle.rtk_label.specs.LabelWriting.{line_in_text};
ghost use Rattle.rtk_commands.specs.FileTable.{text_of, HasItsLetter};
ghost use Rattle.rtk_commands.specs.CompareInput.{TellsWrongMixedLine, IsReadMixed};
ghost use Rattle.rtk_commands.specs.WithLabel.{TellsWrongLine, IsReadTable};

use crate::any_table::{AnyTable, check_any};
use crate::due_lines::{lines_of_file, lines_of_mixed};
use rtk_label::{Label, TimeLines, Unlabelled, unlabel};
use rtk_rinex::{Cause, CheckFault, MixedTextTable, check_mixed_text};
use std::alloc::{AllocError, Global};

/// A file without its label and its time lines, and which these are.
#[derive(Drop)]
pub(crate) struct LabelledTable<'a> {
    pub(crate) label: Label,
    pub(crate) times: TimeLines,
    pub(crate) table: AnyTable<'a>,
}

// The fault of a text, by that of what is left of it.
fn fault_in_text(unlabelled: &Unlabelled, fault: CheckFault) -> CheckFault
    ensures line { fault.line + unlabelled.now.from < 2 ^ 64
        → result.line ≡ line_in_text unlabelled.now.from unlabelled.now.lines.items fault.line }
    ensures cause { result.cause ≡ fault.cause }
{
    CheckFault {
        line: unlabelled.line(fault.line),
        cause: fault.cause,
    }
}

// The number of the first time line of a text that is not as it is due.
fn wrong_line(
    alloc: Global,
    unlabelled: &Unlabelled,
    table: &AnyTable<'_>,
) -> Result<Option<usize>, AllocError>
    requires { HasItsLetter table.now }
    ensures { IfOk result (TellsWrongLine (text_of table.now) unlabelled.now.from unlabelled.now.times unlabelled.now.lines.items) }
{
    let due = lines_of_file(alloc, table, unlabelled.times)?;
    Ok(unlabelled.wrong_line(due.as_slice()))
}

/// The table of a text, whose label and time lines are taken from it in its place. Else the first fault, with
/// the number of the line in the text as it was.
pub(crate) fn table_with_label<'a>(
    alloc: Global,
    text: &'a mut [u8],
) -> Result<Result<LabelledTable<'a>, CheckFault>, AllocError>
    ensures { IfOk result (IsReadTable text.old) }
{
    let unlabelled = unlabel(text);
    let (_, plain) = text.split_at(unlabelled.from);
    let table = match check_any(plain) {
        Ok(table) => table,
        Err(fault) => return Ok(Err(fault_in_text(&unlabelled, fault))),
    };
    let wrong = wrong_line(alloc, &unlabelled, &table)?;
    match wrong {
        None => Ok(Ok(LabelledTable {
            label: unlabelled.label,
            times: unlabelled.times,
            table,
        })),
        Some(line) => Ok(Err(CheckFault {
            line,
            cause: Cause::HeaderLine,
        })),
    }
}

/// A file of any systems without its label and its time lines, and which these are.
#[derive(Drop)]
pub(crate) struct LabelledMixed<'a> {
    pub(crate) label: Label,
    pub(crate) times: TimeLines,
    pub(crate) table: MixedTextTable<'a>,
}

// As `wrong_line`, of a table of any systems.
fn wrong_mixed_line(
    alloc: Global,
    unlabelled: &Unlabelled,
    table: &MixedTextTable<'_>,
) -> Result<Option<usize>, AllocError>
    ensures { IfOk result (TellsWrongMixedLine table.now.text unlabelled.now.from unlabelled.now.times unlabelled.now.lines.items) }
{
    let due = lines_of_mixed(alloc, table, unlabelled.times)?;
    Ok(unlabelled.wrong_line(due.as_slice()))
}

/// The table of any systems of a text, as `table_with_label` has that of GPS.
pub(crate) fn mixed_with_label<'a>(
    alloc: Global,
    text: &'a mut [u8],
) -> Result<Result<LabelledMixed<'a>, CheckFault>, AllocError>
    ensures { IfOk result (IsReadMixed text.old) }
{
    let unlabelled = unlabel(text);
    let (_, plain) = text.split_at(unlabelled.from);
    let table = match check_mixed_text(plain) {
        Ok(table) => table,
        Err(fault) => return Ok(Err(fault_in_text(&unlabelled, fault))),
    };
    let wrong = wrong_mixed_line(alloc, &unlabelled, &table)?;
    match wrong {
        None => Ok(Ok(LabelledMixed {
            label: unlabelled.label,
            times: unlabelled.times,
            table,
        })),
        Some(line) => Ok(Err(CheckFault {
            line,
            cause: Cause::HeaderLine,
        })),
    }
}
