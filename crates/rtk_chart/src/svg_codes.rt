//! The lines of a satellite's codes in an SVG picture.

ghost use Rattle.std.specs.Prelude.{◌≡◌, ◌≤◌, ◌<◌, ◌++◌, length, OnOk};
ghost use Rattle.rtk_chart.specs.SvgPicture.{column_numbers, code_numbers, drawn_bar, codes_before, code_line, line_if_had, code_lines};

use crate::groups::Names;
use crate::layer::Layer;
use crate::never::put_label;
use crate::signs::has_code;
use crate::spacing::Spacing;
use crate::svg_layers::{columns_of, put_levels, put_locks, put_missing};
use crate::svg_text::put_between;
use crate::time_bin::TimeBin;
use std::alloc::{AllocError, Global};

// How many columns have what of a code.
fn put_column_numbers(
    text: &mut Vec<u8>,
    phases: u64,
    missing: u64,
    slips: u64,
    returns: u64,
    rises: u64,
    halves: u64,
) -> Result<(), AllocError>
    ensures { OnOk result (text.new.items ≡ text.old.items ++ column_numbers phases missing slips returns rises halves) }
{
    put_between(text, b": columns with phase ", phases, b", missing ")?;
    put_between(text, b"", missing, b", slips ")?;
    put_between(text, b"", slips, b", returns ")?;
    put_between(text, b"", returns, b", rises ")?;
    put_between(text, b"", rises, b", half cycles ")?;
    put_between(text, b"", halves, b"</title>\n")?;
    Ok(())
}

// Each number is counted in the flags by which its layer is drawn, so that it says what can be seen.
fn put_code_numbers(
    alloc: Global,
    text: &mut Vec<u8>,
    bins: &[TimeBin],
    place: usize,
    code: usize,
) -> Result<(), AllocError>
    requires { place < 32 }
    ensures { OnOk result (text.new.items ≡ text.old.items ++ code_numbers bins.now place code) }
{
    let phases = columns_of(alloc, bins, place, code, Layer::Phase)?;
    let missing = columns_of(alloc, bins, place, code, Layer::Missing)?;
    let slips = columns_of(alloc, bins, place, code, Layer::Slip)?;
    let returns = columns_of(alloc, bins, place, code, Layer::Return)?;
    let rises = columns_of(alloc, bins, place, code, Layer::Rise)?;
    let halves = columns_of(alloc, bins, place, code, Layer::Half)?;
    put_column_numbers(text, phases, missing, slips, returns, rises, halves)?;
    Ok(())
}

// The bar of a code that the satellite has.
fn put_drawn_bar(
    alloc: Global,
    text: &mut Vec<u8>,
    bins: &[TimeBin],
    place: usize,
    code: usize,
) -> Result<(), AllocError>
    requires place { place < 32 }
    requires few { length bins.now ≤ 1440 }
    ensures { OnOk result (text.new.items ≡ text.old.items ++ drawn_bar bins.now place code) }
{
    put_code_numbers(alloc, text, bins, place, code)?;
    put_levels(alloc, text, bins, place, code)?;
    put_missing(alloc, text, bins, place, code)?;
    put_locks(alloc, text, bins, place, code)?;
    Ok(())
}

// How many codes before a place a satellite has.
pub(crate) fn codes_before(bins: &[TimeBin], place: usize, at: usize) -> u64
    requires place { place < 32 }
    requires at { at ≤ 16 }
    ensures value { result ≡ codes_before bins.now place at }
    ensures bound { result ≤ 16 }
{
    let mut count = 0;
    for before in 0..at {
        if has_code(bins, place, before) {
            count += 1;
        }
    }
    count
}

// The line of a code that the satellite has.
fn put_code_line(
    alloc: Global,
    text: &mut Vec<u8>,
    names: Names,
    spacing: Spacing,
    bins: &[TimeBin],
    place: usize,
    at: usize,
    code: [u8; 2],
) -> Result<(), AllocError>
    requires names { names.before ≤ 67 }
    requires place { place < 32 }
    requires few { length bins.now ≤ 1440 }
    requires listed { at < 16 }
    ensures { OnOk result (text.new.items ≡ text.old.items ++ code_line names spacing bins.now place at code) }
{
    let top = spacing.line_top(codes_before(bins, place, at));
    put_between(
        text,
        b"<g transform='translate(0 ",
        top,
        spacing.line_start(),
    )?;
    put_label(text, names.letter, names.before + place as u8 + 1)?;
    text.extend_from_slice(b" ")?;
    text.extend_from_slice(&code)?;
    put_drawn_bar(alloc, text, bins, place, at)?;
    text.extend_from_slice(spacing.code_start())?;
    text.extend_from_slice(&code)?;
    text.extend_from_slice(b"</text>\n</g>\n")?;
    Ok(())
}

// A code that the satellite never has gets no line: it is missing nowhere, since many satellites don't send
// L2C or L5.
fn put_line_if_had(
    alloc: Global,
    text: &mut Vec<u8>,
    names: Names,
    spacing: Spacing,
    bins: &[TimeBin],
    place: usize,
    at: usize,
    code: [u8; 2],
) -> Result<(), AllocError>
    requires names { names.before ≤ 67 }
    requires place { place < 32 }
    requires few { length bins.now ≤ 1440 }
    requires listed { at < 16 }
    ensures { OnOk result (text.new.items ≡ text.old.items ++ line_if_had names spacing bins.now place at code) }
{
    if has_code(bins, place, at) {
        put_code_line(alloc, text, names, spacing, bins, place, at, code)?;
    }
    Ok(())
}

/// Appends the lines of the codes of a satellite, which have these names.
pub(crate) fn put_code_lines(
    alloc: Global,
    text: &mut Vec<u8>,
    names: Names,
    spacing: Spacing,
    bins: &[TimeBin],
    place: usize,
    codes: &[[u8; 2]],
) -> Result<(), AllocError>
    requires names { names.before ≤ 67 }
    requires place { place < 32 }
    requires few { length bins.now ≤ 1440 }
    requires listed { length codes.now ≤ 16 }
    ensures { OnOk result (text.new.items ≡ text.old.items ++ code_lines names spacing bins.now place 0 codes.now) }
{
    for (at, code) in codes.iter().enumerate() {
        put_line_if_had(alloc, text, names, spacing, bins, place, at, *code)?;
    }
    Ok(())
}
