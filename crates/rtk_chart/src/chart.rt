//! The pictures of a table.

ghost use Rattle.std.specs.Prelude.{◌≡◌, IfOk};
ghost use Rattle.rtk_chart.specs.Chart.{IsWidth, ShowsTable, ShowsChosen, ShowsTableInSvg, ShowsChosenInSvg};

use crate::choice::Choice;
use crate::passes::{fill_grid, survey_records};
use crate::scale::{MOST_BINS, Scale};
use crate::strengths::bands_of;
use crate::svg_picture::{svg_of_none, svg_picture};
use crate::text_picture::{text_of_none, text_picture};
use rtk_rinex::TextTable;
use std::alloc::{AllocError, Global};

/// How many characters wide a picture is at least.
pub const LEAST_WIDTH: u16 = 40;

/// How many characters wide a picture is at most.
pub const MOST_WIDTH: u16 = 400;

/// How many characters of a row are no bins: three of the label, and two bars, as in G05|5555|.
pub(crate) const FRAME: u16 = 5;

/// The picture of a table in characters: a heading, a row for each satellite, with a character for each
/// bin of time, the codes that satellites have nowhere, and what the signs mean. Rows are at most so many
/// characters wide.
pub fn chart_text(alloc: Global, table: &TextTable<'_>, width: u16) -> Result<Vec<u8>, AllocError>
    requires { IsWidth width }
    // Fails only if memory is refused: tests/system/calls, row chart_text.
    ensures { IfOk result (λ text. ShowsTable table.now.text width text.items) }
{
    let text = chosen_text(alloc, table, &Choice::All, width)?;
    Ok(text)
}

/// The same picture of chosen satellites. It is that of a file in which the other satellites have no rows, but
/// which has the same records, times and codes.
pub fn chosen_text(
    alloc: Global,
    table: &TextTable<'_>,
    choice: &Choice,
    width: u16,
) -> Result<Vec<u8>, AllocError>
    requires { IsWidth width }
    // Fails only if memory is refused: tests/system/calls, row chart_text.
    ensures { IfOk result (λ text. ShowsChosen choice.now table.now.text width text.items) }
{
    let heading = table.heading();
    let survey = survey_records(alloc, table, heading.first)?;
    let marker = heading.head.marker();
    let codes = heading.head.codes();
    let Some(last) = survey.steps.last() else {
        let text = text_of_none(alloc, marker)?;
        return Ok(text);
    };
    let interval = survey.steps.interval();
    let scale = Scale::new(heading.first, last, interval, u64::from(width - FRAME));
    let bands = bands_of(alloc, codes)?;
    let grid = fill_grid(
        alloc,
        table,
        &scale,
        bands.as_slice(),
        heading.first,
        choice,
    )?;
    let text = text_picture(alloc, marker, codes, &scale, width, &survey, &grid)?;
    Ok(text)
}

/// The picture of a table in SVG: a band for each satellite, and in it a bar for each code with its least
/// strength, slips, rises and half cycles, in 1440 bins of time at most.
pub fn chart_svg(alloc: Global, table: &TextTable<'_>) -> Result<Vec<u8>, AllocError>
    // Fails only if memory is refused: tests/system/calls, row chart_svg.
    ensures { IfOk result (λ svg. ShowsTableInSvg table.now.text svg.items) }
{
    let svg = chosen_svg(alloc, table, &Choice::All)?;
    Ok(svg)
}

/// The same picture of chosen satellites.
pub fn chosen_svg(
    alloc: Global,
    table: &TextTable<'_>,
    choice: &Choice,
) -> Result<Vec<u8>, AllocError>
    // Fails only if memory is refused: tests/system/calls, row chart_svg.
    ensures { IfOk result (λ svg. ShowsChosenInSvg choice.now table.now.text svg.items) }
{
    let heading = table.heading();
    let survey = survey_records(alloc, table, heading.first)?;
    let marker = heading.head.marker();
    let codes = heading.head.codes();
    let Some(last) = survey.steps.last() else {
        let svg = svg_of_none(alloc, marker)?;
        return Ok(svg);
    };
    let interval = survey.steps.interval();
    let scale = Scale::new(heading.first, last, interval, MOST_BINS);
    let bands = bands_of(alloc, codes)?;
    let grid = fill_grid(
        alloc,
        table,
        &scale,
        bands.as_slice(),
        heading.first,
        choice,
    )?;
    let svg = svg_picture(alloc, marker, codes, &scale, &survey, &grid)?;
    Ok(svg)
}
