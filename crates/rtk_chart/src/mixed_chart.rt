//! The pictures of a table of any systems.

ghost use Rattle.std.specs.Prelude.{◌≡◌, ◌≤◌, ◌++◌, length, IfOk, OnOk};
ghost use Rattle.rtk_chart.specs.Chart.{IsWidth};
ghost use Rattle.rtk_chart.specs.MixedChart.{systems_picture, ShowsSystems};
ghost use Rattle.rtk_chart.specs.Scale.{IsScale};
ghost use Rattle.rtk_chart.specs.Steps.Pictures.{view_of};
ghost use Rattle.rtk_chart.specs.Steps.SvgParts.{svg_view_of};
ghost use Rattle.rtk_chart.specs.SvgSystems.{never_group, both_strips, systems_svg_body, systems_svg, ShowsSystemsInSvg};

use crate::chart::FRAME;
use crate::choice::Choice;
use crate::drawing::Drawing;
use crate::drawn::{Drawn, drawn_systems};
use crate::grid::Grid;
use crate::group_rows::{fill_moments, survey_moments};
use crate::scale::{MOST_BINS, Scale};
use crate::svg_axis::{put_gaps, put_satellites, put_ticks};
use crate::svg_drawn::{SvgDrawn, svg_of_systems};
use crate::svg_never::NEVER_STEP;
use crate::svg_picture::{put_counts, put_legend, put_span, put_start, svg_of_none};
use crate::svg_strip::{put_strip, strip_height};
use crate::svg_text::put_between;
use crate::text_picture::{SIGNS, put_gap_row, put_heading, put_numbers, text_of_none};
use crate::text_time::put_time;
use rtk_rinex::MixedTextTable;
use std::alloc::{AllocError, Global};

// The picture of a file with so many records, so many characters wide, of which this is drawn; the grid has its moments.
fn systems_picture(
    alloc: Global,
    marker: &[u8],
    scale: &Scale,
    width: u16,
    records: u64,
    drawn: &Drawn,
    moments: &Grid,
) -> Result<Vec<u8>, AllocError>
    requires { IsScale scale.now }
    ensures { IfOk result (λ text. text.items ≡ systems_picture marker.now scale.now width records (view_of drawn.now) moments.now.missing moments.now.recorded.items moments.now.gaps.items) }
{
    let mut text = Vec::new(alloc);
    put_heading(&mut text, marker, scale)?;
    put_numbers(
        &mut text,
        scale,
        records,
        drawn.numbers.satellites,
        drawn.numbers.slips,
        drawn.numbers.returns,
        drawn.numbers.rises,
        moments.missing,
    )?;
    text.extend_from_slice(drawn.rows.as_slice())?;
    put_gap_row(
        &mut text,
        moments.recorded.as_slice(),
        moments.gaps.as_slice(),
    )?;
    put_time(&mut text, scale, width)?;
    text.extend_from_slice(drawn.never.as_slice())?;
    text.extend_from_slice(SIGNS)?;
    Ok(text)
}

/// The picture of chosen satellites of a table of any systems in characters, as `chosen_text` gives it for GPS: the rows
/// of each system stand below its name, in the order of the file, and the heading has the numbers of all of them. A
/// system without a row is left out. The table is read twice, and once more for each 32 satellites of a system
/// of which the file lists a code.
pub fn mixed_chart_text(
    alloc: Global,
    table: &MixedTextTable<'_>,
    choice: &Choice,
    width: u16,
) -> Result<Vec<u8>, AllocError>
    requires { IsWidth width }
    // Fails only if memory is refused: tests/system/calls, row mixed_chart_text.
    ensures { IfOk result (λ text. ShowsSystems choice.now table.now.text width text.items) }
{
    let heading = table.heading();
    let survey = survey_moments(alloc, table)?;
    let marker = heading.head.marker();
    let Some(last) = survey.steps.last() else {
        let text = text_of_none(alloc, marker)?;
        return Ok(text);
    };
    let codes = heading.head.codes();
    let interval = survey.steps.interval();
    let scale = Scale::new(heading.first, last, interval, u64::from(width - FRAME));
    let drawing = Drawing {
        table,
        scale,
        choice,
    };
    let drawn = drawn_systems(alloc, &drawing, width, codes)?;
    let moments = fill_moments(alloc, table, &scale)?;
    let text = systems_picture(
        alloc,
        marker,
        &scale,
        width,
        survey.records,
        &drawn,
        &moments,
    )?;
    Ok(text)
}

// The lines of the codes that satellites have nowhere, below the bands.
fn put_never_group(text: &mut Vec<u8>, drawn: &SvgDrawn) -> Result<(), AllocError>
    ensures { OnOk result (text.new.items ≡ text.old.items ++ never_group (svg_view_of drawn.now)) }
{
    put_between(text, b"<g transform='translate(0 ", drawn.top, b")'>\n")?;
    text.extend_from_slice(drawn.never.as_slice())?;
    text.extend_from_slice(b"</g>\n")?;
    Ok(())
}

// Appends the strips of both kinds of bands, of which the first begins so far from the top.
fn put_strips(
    alloc: Global,
    text: &mut Vec<u8>,
    top: u64,
    scale: &Scale,
    drawn: &SvgDrawn,
) -> Result<(), AllocError>
    requires good { IsScale scale.now }
    requires top { top ≤ 900_000 }
    ensures { OnOk result (text.new.items ≡ text.old.items ++ both_strips top scale.now (svg_view_of drawn.now)) }
{
    let (lower, upper) = (drawn.lower.as_slice(), drawn.upper.as_slice());
    let each = scale.bins_per_column();
    let bins = scale.bins as usize;
    let second = top + strip_height(lower);
    put_strip(alloc, text, false, top, lower, each, bins)?;
    put_strip(alloc, text, true, second, upper, each, bins)?;
    Ok(())
}

// What stands below the heading of a picture in SVG of which this is drawn.
fn put_svg_body(
    alloc: Global,
    text: &mut Vec<u8>,
    scale: &Scale,
    drawn: &SvgDrawn,
    gaps: &[bool],
) -> Result<(), AllocError>
    requires good { IsScale scale.now }
    requires top { drawn.now.top ≤ 200_000 }
    requires lines { drawn.now.lines ≤ 224 }
    requires counts { length drawn.now.tracked.items ≤ 1440 }
    requires gaps { length gaps.now ≤ 1440 }
    ensures { OnOk result (text.new.items ≡ text.old.items ++ systems_svg_body scale.now (svg_view_of drawn.now) gaps.now) }
{
    let end = drawn.top + NEVER_STEP * drawn.lines;
    let strips = strip_height(drawn.lower.as_slice()) + strip_height(drawn.upper.as_slice());
    text.extend_from_slice(drawn.bands.as_slice())?;
    put_never_group(text, drawn)?;
    put_gaps(text, end, gaps)?;
    put_satellites(text, end + 26, drawn.tracked.as_slice())?;
    put_strips(alloc, text, end + 72, scale, drawn)?;
    put_ticks(text, scale, end + strips + 72)?;
    put_legend(text, end + strips + 104)?;
    text.extend_from_slice(b"</svg>\n")?;
    Ok(())
}

// The picture in SVG of a file with so many records, of which this is drawn; the grid has its moments.
fn systems_svg(
    alloc: Global,
    marker: &[u8],
    scale: &Scale,
    records: u64,
    drawn: &SvgDrawn,
    moments: &Grid,
) -> Result<Vec<u8>, AllocError>
    requires good { IsScale scale.now }
    requires top { drawn.now.top ≤ 200_000 }
    requires lines { drawn.now.lines ≤ 224 }
    requires counts { length drawn.now.tracked.items ≤ 1440 }
    requires gaps { length moments.now.gaps.items ≤ 1440 }
    ensures { IfOk result (λ text. text.items ≡ systems_svg marker.now scale.now records (svg_view_of drawn.now) moments.now.missing moments.now.gaps.items) }
{
    let strips = strip_height(drawn.lower.as_slice()) + strip_height(drawn.upper.as_slice());
    let mut text = Vec::new(alloc);
    put_start(
        &mut text,
        marker,
        drawn.top + NEVER_STEP * drawn.lines + strips + 230,
    )?;
    put_span(&mut text, scale)?;
    put_counts(
        &mut text,
        records,
        drawn.numbers.satellites,
        drawn.numbers.slips,
        drawn.numbers.returns,
        drawn.numbers.rises,
        moments.missing,
    )?;
    put_svg_body(alloc, &mut text, scale, drawn, moments.gaps.as_slice())?;
    Ok(text)
}

/// The same picture in SVG, as `chosen_svg` gives it for GPS. The lines of codes always lie close.
pub fn mixed_chart_svg(
    alloc: Global,
    table: &MixedTextTable<'_>,
    choice: &Choice,
) -> Result<Vec<u8>, AllocError>
    // Fails only if memory is refused: tests/system/calls, row mixed_chart_svg.
    ensures { IfOk result (λ text. ShowsSystemsInSvg choice.now table.now.text text.items) }
{
    let heading = table.heading();
    let survey = survey_moments(alloc, table)?;
    let marker = heading.head.marker();
    let Some(last) = survey.steps.last() else {
        let text = svg_of_none(alloc, marker)?;
        return Ok(text);
    };
    let codes = heading.head.codes();
    let interval = survey.steps.interval();
    let scale = Scale::new(heading.first, last, interval, MOST_BINS);
    let drawing = Drawing {
        table,
        scale,
        choice,
    };
    let drawn = svg_of_systems(alloc, &drawing, codes)?;
    let moments = fill_moments(alloc, table, &scale)?;
    let text = systems_svg(alloc, marker, &scale, survey.records, &drawn, &moments)?;
    Ok(text)
}
