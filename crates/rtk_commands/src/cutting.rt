//! The command `cut`: a part of a file.

ghost use Rattle.std.specs.Prelude.{◌≡◌, ◌≢◌, ◌⊎◌, Err, IfOk, OnOk, OnErr, IfErr, IsErrOf};
ghost use Rattle.rtk_frame.specs.Stream.{CountRises};
ghost use Rattle.rtk_cut.specs.Cut.{IsStepOrNone};
ghost use Rattle.rtk_commands.specs.CutInput.{CountsPartOfFile, WritesLabelledPart, WritesFirstOfLabelledPart};
ghost use Rattle.rtk_commands.specs.FileTable.{text_of, HasItsLetter};
ghost use Rattle.rtk_commands.specs.declared.fault.ToolFault.TheVariants.{OutOfMemory, Output};

use crate::after_front::cut_rest;
use crate::due_lines::lines_of_part;
use crate::fault::ToolFault;
use crate::file_answer::FileAnswer;
use crate::file_command::FileCommand;
use crate::with_label::{LabelledTable, table_with_label};
use rtk_cut::{CutCounts, Part};
use rtk_frame::Sink;
use std::alloc::Global;

/// Writes the part of a table with a label, and with its own time lines if the file has such lines.
pub(crate) fn cut_labelled<W: Sink + Drop>(
    alloc: Global,
    file: &LabelledTable<'_>,
    part: &Part,
    out: W,
) -> (W, Result<CutCounts, ToolFault>)
    requires letter { HasItsLetter file.now.table }
    requires step { IsStepOrNone part.now.every }
    ensures all { OnOk result.1 (WritesLabelledPart file.now.label file.now.times (text_of file.now.table) part.now (W.taken out) (W.taken result.0)) }
    ensures counts { IfOk result.1 (CountsPartOfFile (text_of file.now.table) part.now) }
    ensures first { OnErr result.1 (WritesFirstOfLabelledPart file.now.label file.now.times (text_of file.now.table) part.now (W.taken out) (W.taken result.0)) }
    ensures output { IsErrOf result.1 Output → CountRises (W.failures out) (W.failures result.0) }
    ensures no_failed_write { result.1 ≢ Err Output → W.failures result.0 ≡ W.failures out }
    ensures faults { IfErr result.1 (λ fault. (fault ≡ OutOfMemory) ⊎ (fault ≡ Output)) }
{
    let lines = match lines_of_part(alloc, &file.table, file.times, *part) {
        Ok(lines) => lines,
        Err(refused) => return (out, Err(refused.into())),
    };
    let mut out = out;
    if file
        .table
        .write_front_and_lines(&file.label, lines.as_slice(), &mut out)
        .is_err()
    {
        return (out, Err(ToolFault::Output));
    }
    cut_rest(alloc, &file.table, *part, out)
}

/// The command `cut` of this part. The part has the label of the file, and time lines if the file has them.
impl FileCommand for Part {
    ghost use Rattle.std.specs.Prelude.{true};
    ghost use Rattle.rtk_cut.specs.Cut.{IsStepOrNone};
    ghost use Rattle.rtk_commands.specs.CutInput.{CutsTable};
    ghost use Rattle.rtk_commands.specs.WithLabel.{WritesOfTable};

    ghost IN_PIECES = { true };

    const IN_PIECES: bool = true;

    ghost IsAllowed = { λ part. IsStepOrNone part.every };

    ghost writes = { λ part. WritesOfTable (CutsTable part) };

    fn write<W: Sink + Drop>(
        &self,
        alloc: Global,
        text: &mut [u8],
        out: W,
    ) -> (W, Result<FileAnswer, ToolFault>) {
        let read = match table_with_label(alloc, text) {
            Ok(read) => read,
            Err(refused) => return (out, Err(refused.into())),
        };
        let file = match read {
            Ok(file) => file,
            Err(fault) => return (out, Ok(FileAnswer::Refused(fault))),
        };
        let (out, done) = cut_labelled(alloc, &file, self, out);
        match done {
            Ok(counts) => (out, Ok(FileAnswer::Cut(counts))),
            Err(fault) => (out, Err(fault)),
        }
    }
}
