//! The command `quality`: the numbers of a file.

ghost use Rattle.std.specs.Prelude.{◌≡◌, IfOk};
ghost use Rattle.rtk_commands.specs.QualityInput.{TellsTable};
ghost use Rattle.rtk_commands.specs.FileTable.{text_of, HasItsLetter};
ghost use Rattle.rtk_commands.specs.WithLabel.{MakesOfFile, WritesOfTable};

use crate::any_table::AnyTable;
use crate::fault::ToolFault;
use crate::file_answer::FileAnswer;
use crate::file_command::FileCommand;
use crate::rendered::{Rendered, write_rendered};
use crate::with_label::table_with_label;
use rtk_frame::Sink;
use rtk_quality::{Form, mixed_quality, quality};
use std::alloc::{AllocError, Global};

// The numbers of a file.
fn numbers_of_file(alloc: Global, table: &AnyTable<'_>, form: Form) -> Result<Rendered, AllocError>
    requires { HasItsLetter table.now }
    ensures { IfOk result (λ numbers. MakesOfFile (TellsTable form) (text_of table.now) numbers.answer numbers.bytes.items) }
{
    match table {
        AnyTable::Gps(table) => Ok(Rendered {
            answer: FileAnswer::Written,
            bytes: quality(alloc, form, table)?,
        }),
        AnyTable::Mixed(table) => Ok(Rendered {
            answer: FileAnswer::Written,
            bytes: mixed_quality(alloc, form, table)?,
        }),
    }
}

// The numbers of a text, without the label and the time lines that it has.
fn numbers_of(alloc: Global, text: &mut [u8], form: Form) -> Result<Rendered, AllocError>
    ensures { IfOk result (λ numbers. WritesOfTable (TellsTable form) text.old numbers.answer numbers.bytes.items) }
{
    let read = table_with_label(alloc, text)?;
    match read {
        Ok(file) => numbers_of_file(alloc, &file.table, form),
        Err(fault) => Ok(Rendered::refusal(alloc, fault)),
    }
}

/// The command `quality` of this form.
impl FileCommand for Form {
    ghost use Rattle.std.specs.Prelude.{false};
    ghost use Rattle.rtk_commands.specs.QualityInput.{TellsTable};
    ghost use Rattle.rtk_commands.specs.WithLabel.{WritesOfTable};

    ghost IN_PIECES = { false };

    const IN_PIECES: bool = false;

    ghost IsAllowed = { λ _. Unit {0} };

    ghost writes = { λ form. WritesOfTable (TellsTable form) };

    fn write<W: Sink + Drop>(
        &self,
        alloc: Global,
        text: &mut [u8],
        out: W,
    ) -> (W, Result<FileAnswer, ToolFault>) {
        write_rendered(numbers_of(alloc, text, *self), out)
    }
}
