//! The command `label`: a file with more fields in its header.

use crate::due_lines::lines_of_file;
use crate::fault::ToolFault;
use crate::file_answer::FileAnswer;
use crate::file_command::FileCommand;
use crate::with_label::table_with_label;
use rtk_frame::Sink;
use rtk_label::{Label, TimeLines};
use std::alloc::Global;

/// What `label` writes into the header of a file.
#[derive(Drop)]
pub struct Labelling {
    /// The fields that no message of the stream tells.
    pub label: Label,
    /// Which of the lines that follow from the records.
    pub times: TimeLines,
}

/// The command `label` of this label and these lines.
impl FileCommand for Labelling {
    ghost use Rattle.std.specs.Prelude.{true};
    ghost use Rattle.rtk_commands.specs.LabelInput.{LabelsTable};
    ghost use Rattle.rtk_commands.specs.WithLabel.{WritesOfTable};

    ghost IN_PIECES = { true };

    const IN_PIECES: bool = true;

    ghost IsAllowed = { λ _. Unit {0} };

    ghost writes = { λ labelling. WritesOfTable (LabelsTable labelling.label labelling.times) };

    fn write<W: Sink + Drop>(
        &self,
        alloc: Global,
        text: &mut [u8],
        out: W,
    ) -> (W, Result<FileAnswer, ToolFault>) {
        let read = match table_with_label(alloc, text) {
            Ok(read) => read,
            Err(refused) => return (out, Err(refused.into())),
        };
        let file = match read {
            Ok(file) => file,
            Err(fault) => return (out, Ok(FileAnswer::Refused(fault))),
        };
        if !file.table.is_for(&self.label) {
            return (out, Ok(FileAnswer::Height));
        }
        let lines = match lines_of_file(alloc, &file.table, self.times) {
            Ok(lines) => lines,
            Err(refused) => return (out, Err(refused.into())),
        };
        let mut out = out;
        match file
            .table
            .write_with_lines(&self.label, lines.as_slice(), &mut out)
        {
            Ok(()) => (out, Ok(FileAnswer::Written)),
            Err(_) => (out, Err(ToolFault::Output)),
        }
    }
}
