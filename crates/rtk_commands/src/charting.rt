//! The command `chart`: a picture of a file.

ghost use Rattle.std.specs.Prelude.{◌≡◌, IfOk};
ghost use Rattle.std.specs.Option.{ForSome};
ghost use Rattle.rtk_chart.specs.Chart.{IsWidth};
ghost use Rattle.rtk_commands.specs.ChartInput.{IsPicture, IsMixedPicture, DrawsFile, DrawsMixedFile, DrawsTable};
ghost use Rattle.rtk_commands.specs.FileTable.{text_of, HasItsLetter};
ghost use Rattle.rtk_commands.specs.WithLabel.{MakesOfFile, WritesOfTable};

use crate::any_table::AnyTable;
use crate::fault::ToolFault;
use crate::file_answer::FileAnswer;
use crate::file_command::FileCommand;
use crate::rendered::{Rendered, write_rendered};
use crate::with_label::table_with_label;
use rtk_chart::{
    Choice, chosen_svg, chosen_text, is_there, is_there_of_any, mixed_chart_svg, mixed_chart_text,
};
use rtk_frame::Sink;
use rtk_rinex::{MixedTextTable, TextTable};
use std::alloc::{AllocError, Global};

/// The command `chart`.
#[derive(Clone, Copy, Debug, PartialEq, Eq)]
pub struct Chart {
    /// How many characters wide the picture is, 40 to 400; `None` is a picture in SVG.
    pub width: Option<u16>,
    /// Which satellites are drawn.
    pub choice: Choice,
}

// The picture of a table.
fn picture_of(alloc: Global, table: &TextTable<'_>, chart: &Chart) -> Result<Vec<u8>, AllocError>
    requires { ForSome chart.now.width IsWidth }
    ensures { IfOk result (λ picture. IsPicture chart.now.width chart.now.choice table.now.text picture.items) }
{
    match chart.width {
        Some(width) => chosen_text(alloc, table, &chart.choice, width),
        None => chosen_svg(alloc, table, &chart.choice),
    }
}

// The picture of a table, if it has something of what is chosen.
fn picture_if_any(
    alloc: Global,
    table: &TextTable<'_>,
    chart: &Chart,
) -> Result<Rendered, AllocError>
    requires { ForSome chart.now.width IsWidth }
    ensures { IfOk result (λ picture. DrawsFile chart.now table.now.text picture.answer picture.bytes.items) }
{
    if !is_there(table, &chart.choice) {
        return Ok(Rendered {
            answer: FileAnswer::NoneChosen,
            bytes: Vec::new(alloc),
        });
    }
    Ok(Rendered {
        answer: FileAnswer::Written,
        bytes: picture_of(alloc, table, chart)?,
    })
}

// The picture of a table of any systems.
fn mixed_picture_of(
    alloc: Global,
    table: &MixedTextTable<'_>,
    chart: &Chart,
) -> Result<Vec<u8>, AllocError>
    requires { ForSome chart.now.width IsWidth }
    ensures { IfOk result (λ picture. IsMixedPicture chart.now.width chart.now.choice table.now.text picture.items) }
{
    match chart.width {
        Some(width) => mixed_chart_text(alloc, table, &chart.choice, width),
        None => mixed_chart_svg(alloc, table, &chart.choice),
    }
}

// The same, if the table has something of what is chosen.
fn mixed_picture_if_any(
    alloc: Global,
    table: &MixedTextTable<'_>,
    chart: &Chart,
) -> Result<Rendered, AllocError>
    requires { ForSome chart.now.width IsWidth }
    ensures { IfOk result (λ picture. DrawsMixedFile chart.now table.now.text picture.answer picture.bytes.items) }
{
    if !is_there_of_any(table, &chart.choice) {
        return Ok(Rendered {
            answer: FileAnswer::NoneChosen,
            bytes: Vec::new(alloc),
        });
    }
    Ok(Rendered {
        answer: FileAnswer::Written,
        bytes: mixed_picture_of(alloc, table, chart)?,
    })
}

// The picture of a file.
fn picture_of_file(
    alloc: Global,
    table: &AnyTable<'_>,
    chart: &Chart,
) -> Result<Rendered, AllocError>
    requires width { ForSome chart.now.width IsWidth }
    requires letter { HasItsLetter table.now }
    ensures { IfOk result (λ picture. MakesOfFile (DrawsTable chart.now) (text_of table.now) picture.answer picture.bytes.items) }
{
    match table {
        AnyTable::Gps(table) => picture_if_any(alloc, table, chart),
        AnyTable::Mixed(table) => mixed_picture_if_any(alloc, table, chart),
    }
}

// The picture of a text, without the label and the time lines that it has.
fn picture_of_text(alloc: Global, text: &mut [u8], chart: &Chart) -> Result<Rendered, AllocError>
    requires { ForSome chart.now.width IsWidth }
    ensures { IfOk result (λ picture. WritesOfTable (DrawsTable chart.now) text.old picture.answer picture.bytes.items) }
{
    let read = table_with_label(alloc, text)?;
    match read {
        Ok(file) => picture_of_file(alloc, &file.table, chart),
        Err(fault) => Ok(Rendered::refusal(alloc, fault)),
    }
}

impl FileCommand for Chart {
    ghost use Rattle.std.specs.Prelude.{false};
    ghost use Rattle.std.specs.Option.{ForSome};
    ghost use Rattle.rtk_chart.specs.Chart.{IsWidth};
    ghost use Rattle.rtk_commands.specs.ChartInput.{DrawsTable};
    ghost use Rattle.rtk_commands.specs.WithLabel.{WritesOfTable};

    ghost IN_PIECES = { false };

    const IN_PIECES: bool = false;

    ghost IsAllowed = { λ chart. ForSome chart.width IsWidth };

    ghost writes = { λ chart. WritesOfTable (DrawsTable chart) };

    fn write<W: Sink + Drop>(
        &self,
        alloc: Global,
        text: &mut [u8],
        out: W,
    ) -> (W, Result<FileAnswer, ToolFault>) {
        write_rendered(picture_of_text(alloc, text, self), out)
    }
}
