//! The command `check`: whether a text is one of this project's files, and if not, the first line
//! that is wrong.

ghost use Rattle.std.specs.Prelude.{◌≡◌, ◌≢◌, ◌++◌, Err, IfOk, OnOk, IfErr, IsErrOf, Decides};
ghost use Rattle.rtk_frame.specs.Stream.{CountRises};
ghost use Rattle.rtk_commands.specs.Input.{GivesText, ReadsWhole};
ghost use Rattle.rtk_rinex.specs.CauseText.{cause_text};
ghost use Rattle.rtk_commands.specs.FileTable.{records_of, lines_of};
ghost use Rattle.rtk_commands.specs.CheckInput.{valid_text, check_fault_text, WritesVerdict, ChecksText, ChecksPartOf};
ghost use Rattle.rtk_commands.specs.declared.fault.ToolFault.TheVariants.{Output};
ghost use Rattle.rtk_commands.specs.declared.file_answer.FileAnswer.TheVariants.{Written};

use crate::any_table::{AnyTable, check_any};
use crate::fault::ToolFault;
use crate::file_answer::FileAnswer;
use crate::file_command::{CHECK_LIMIT, FileCommand};
use crate::input::read_whole;
use crate::rendered::{Rendered, write_rendered};
use rtk_frame::{Sink, Source, write_all};
use rtk_message::put_named;
use rtk_rinex::{Cause, CheckFault};
use std::alloc::{AllocError, Global};

fn valid_line(alloc: Global, table: &AnyTable<'_>) -> Result<Vec<u8>, AllocError>
    ensures { IfOk result (λ line. line.items ≡ valid_text (records_of table.now) (lines_of table.now)) }
{
    let mut line = Vec::new(alloc);
    put_named(&mut line, b"valid: ", table.epochs() as u64)?;
    put_named(&mut line, b" epochs, ", table.satellites() as u64)?;
    line.extend_from_slice(b" satellite lines\n")?;
    Ok(line)
}

fn put_cause(line: &mut Vec<u8>, cause: Cause) -> Result<(), AllocError>
    ensures { OnOk result (line.new.items ≡ line.old.items ++ cause_text cause) }
{
    line.extend_from_slice(cause.as_str().as_bytes())
}

fn fault_line(alloc: Global, fault: CheckFault) -> Result<Vec<u8>, AllocError>
    ensures { IfOk result (λ line. line.items ≡ check_fault_text fault) }
{
    let mut line = Vec::new(alloc);
    put_named(&mut line, b"line ", fault.line as u64)?;
    line.extend_from_slice(b": ")?;
    put_cause(&mut line, fault.cause)?;
    line.push(b'\n')?;
    Ok(line)
}

// What is said of a text.
fn verdict_of(alloc: Global, text: &[u8]) -> Result<Rendered, AllocError>
    ensures { IfOk result (λ verdict. WritesVerdict text.now verdict.answer verdict.bytes.items) }
{
    match check_any(text) {
        Ok(table) => Ok(Rendered {
            answer: FileAnswer::Written,
            bytes: valid_line(alloc, &table)?,
        }),
        Err(fault) => Ok(Rendered {
            answer: FileAnswer::NotValid,
            bytes: fault_line(alloc, fault)?,
        }),
    }
}

// Does an answer say yes?
fn is_yes(answer: FileAnswer) -> bool
    ensures { Decides result (answer ≡ Written) }
{
    matches!(answer, FileAnswer::Written)
}

/// Reads an input whole and checks it: is it a text that `convert` could have written? Writes one
/// line, `valid: E epochs, S satellite lines` or `line N: C3 Value`, which names the first line
/// that is wrong and why. Answers whether the check said yes.
///
/// The line is whole before a byte of it is written, so after each fault but a failed write nothing
/// is out.
pub fn check_file<R: Source, W: Sink>(
    alloc: Global,
    reader: &mut R,
    out: &mut W,
) -> Result<bool, ToolFault>
    ensures told { IfOk result (λ valid. GivesText (R.given reader.old) (R.given reader.new) (λ text.
        ChecksText valid text (W.taken out.old) (W.taken out.new))) }

    // `OutOfMemory` comes only if memory is refused: tests/system/calls, rows `check_file ..`.
    ensures whole { ReadsWhole R.given R.failures R.is_at_end CHECK_LIMIT (λ _. ⊥) reader.old reader.new result }
    ensures output { IsErrOf result Output → CountRises (W.failures out.old) (W.failures out.new) }
    ensures no_failed_write { result ≢ Err Output → W.failures out.new ≡ W.failures out.old }

    // Not done: a first part of the line is out after a failed write, and else nothing.
    ensures part { IsErrOf result Output → GivesText (R.given reader.old) (R.given reader.new) (λ text.
        ChecksPartOf text (W.taken out.old) (W.taken out.new)) }
    ensures nothing { IfErr result (λ fault. fault ≢ Output → W.taken out.new ≡ W.taken out.old) }
{
    let text = read_whole(alloc, reader, CHECK_LIMIT)?;
    let verdict = verdict_of(alloc, text.as_slice())?;
    if write_all(out, verdict.bytes.as_slice()).is_err() {
        return Err(ToolFault::Output);
    }
    Ok(is_yes(verdict.answer))
}

/// The command `check`.
#[derive(Clone, Copy, Debug, PartialEq, Eq)]
pub struct Check;

impl FileCommand for Check {
    ghost use Rattle.std.specs.Prelude.{false};
    ghost use Rattle.rtk_commands.specs.CheckInput.{WritesVerdict};

    ghost IN_PIECES = { false };

    const IN_PIECES: bool = false;

    ghost IsAllowed = { λ _. Unit {0} };

    ghost writes = { λ _. WritesVerdict };

    fn write<W: Sink + Drop>(
        &self,
        alloc: Global,
        text: &mut [u8],
        out: W,
    ) -> (W, Result<FileAnswer, ToolFault>) {
        write_rendered(verdict_of(alloc, text), out)
    }
}
