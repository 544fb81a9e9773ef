//! The time lines that a file or its part is due: those of its records.

ghost use Rattle.std.specs.Prelude.{IfOk};
ghost use Rattle.rtk_cut.specs.Cut.{IsStepOrNone};
ghost use Rattle.rtk_commands.specs.FileTable.{text_of, HasItsLetter, HaveLines};
ghost use Rattle.rtk_commands.specs.CompareInput.{HaveMixedLines};
ghost use Rattle.rtk_commands.specs.CutInput.{HaveLinesOfPart};

use crate::any_table::AnyTable;
use arrayvec::ArrayVec;
use rtk_cut::{Part, extent_of_mixed_part, own_step_gives_file};
use rtk_label::{FRONT, TimeLines};
use rtk_rinex::MixedTextTable;
use std::alloc::{AllocError, Global};

/// The time lines of a part of a file, as far as they are asked for. If none is, no record is read.
pub(crate) fn lines_of_part(
    alloc: Global,
    table: &AnyTable<'_>,
    times: TimeLines,
    part: Part,
) -> Result<ArrayVec<u8, FRONT>, AllocError>
    requires letter { HasItsLetter table.now }
    requires step { IsStepOrNone part.every }
    ensures { IfOk result (λ lines. HaveLinesOfPart (text_of table.now) times part lines.items) }
{
    if times.are_none() {
        return Ok(ArrayVec::new());
    }
    let extent = table.extent(alloc, part)?;
    Ok(times.text(extent.interval_ms, extent.last))
}

/// The time lines of a file.
pub(crate) fn lines_of_file(
    alloc: Global,
    table: &AnyTable<'_>,
    times: TimeLines,
) -> Result<ArrayVec<u8, FRONT>, AllocError>
    requires { HasItsLetter table.now }
    ensures { IfOk result (λ lines. HaveLines (text_of table.now) times lines.items) }
{
    own_step_gives_file();
    let whole = Part {
        from: None,
        until: None,
        every: None,
    };
    lines_of_part(alloc, table, times, whole)
}

/// The time lines of a file that is read as one of any systems.
pub(crate) fn lines_of_mixed(
    alloc: Global,
    table: &MixedTextTable<'_>,
    times: TimeLines,
) -> Result<ArrayVec<u8, FRONT>, AllocError>
    ensures { IfOk result (λ lines. HaveMixedLines table.now.text times lines.items) }
{
    own_step_gives_file();
    if times.are_none() {
        return Ok(ArrayVec::new());
    }
    let whole = Part {
        from: None,
        until: None,
        every: None,
    };
    let extent = extent_of_mixed_part(alloc, table, whole)?;
    Ok(times.text(extent.interval_ms, extent.last))
}
