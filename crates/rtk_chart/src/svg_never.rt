//! The codes that satellites have nowhere in a file, in an SVG picture.

ghost use Rattle.std.specs.Prelude.{◌≡◌, ◌≤◌, ◌<◌, ◌+◌, ◌*◌, ◌++◌, length, flat_map, OnOk};
ghost use Rattle.std.specs.List.{range_with_len};
ghost use Rattle.rtk_chart.specs.SvgPicture.{never_name, never_title, is_lacked, lacked_before, never_text, never_if_lacked, never_texts};

use crate::groups::Names;
use crate::never::{never_before, put_label};
use crate::signs::is_never;
use crate::svg_text::put_between;
use crate::time_bin::TimeBin;
use std::alloc::AllocError;

/// How far below the bands the first line stands, in units of SVG.
pub(crate) const NEVER_DROP: u64 = 18;

/// How far apart the lines lie.
pub(crate) const NEVER_STEP: u64 = 24;

// Some satellite has the code at this place nowhere.
fn is_lacked(bins: &[TimeBin], at: usize) -> bool
    ensures { result ≡ is_lacked bins.now at }
{
    never_before(bins, at, 32) != 0
}

/// How many codes before a place some satellite has nowhere.
pub(crate) fn lacked_before(bins: &[TimeBin], at: usize) -> u64
    requires { at ≤ 16 }
    ensures value { result ≡ lacked_before bins.now at }
    ensures bound { result ≤ 16 }
{
    let mut count = 0;
    for before in 0..at {
        if is_lacked(bins, before) {
            count += 1;
        }
    }
    count
}

fn put_name(
    text: &mut Vec<u8>,
    names: Names,
    bins: &[TimeBin],
    at: usize,
    place: usize,
) -> Result<(), AllocError>
    requires names { names.before ≤ 67 }
    requires place { place < 32 }
    ensures { OnOk result (text.new.items ≡ text.old.items ++ never_name names bins.now at place) }
{
    if !is_never(bins, at, place) {
        return Ok(());
    }
    text.extend_from_slice(b" ")?;
    put_label(text, names.letter, names.before + place as u8 + 1)
}

fn put_names(
    text: &mut Vec<u8>,
    names: Names,
    bins: &[TimeBin],
    at: usize,
) -> Result<(), AllocError>
    requires { names.before ≤ 67 }
    ensures { OnOk result (text.new.items ≡ text.old.items ++ flat_map (never_name names bins.now at) (range_with_len 0 32)) }
{
    for place in 0..32 {
        put_name(text, names, bins, at, place)?;
    }
    Ok(())
}

// Appends the name of a code, with the letter of its system unless this is GPS.
fn put_title(text: &mut Vec<u8>, names: Names, code: [u8; 2]) -> Result<(), AllocError>
    ensures { OnOk result (text.new.items ≡ text.old.items ++ never_title names code) }
{
    if names.letter == b'G' {
        return text.extend_from_slice(&code);
    }
    text.extend_from_slice(&[names.letter])?;
    text.extend_from_slice(&code)
}

// The line of a code that some satellite has nowhere.
fn put_line(
    text: &mut Vec<u8>,
    names: Names,
    bins: &[TimeBin],
    top: u64,
    at: usize,
    code: [u8; 2],
) -> Result<(), AllocError>
    requires names { names.before ≤ 67 }
    requires top { top ≤ 1_000_000 }
    requires listed { at < 16 }
    ensures { OnOk result (text.new.items ≡ text.old.items ++ never_text names bins.now top at code) }
{
    let y = top + NEVER_STEP * lacked_before(bins, at);
    put_between(text, b"<text class='never' x='110' y='", y, b"'>never ")?;
    put_title(text, names, code)?;
    text.extend_from_slice(b":")?;
    put_names(text, names, bins, at)?;
    text.extend_from_slice(b"</text>\n")?;
    Ok(())
}

fn put_line_if_lacked(
    text: &mut Vec<u8>,
    names: Names,
    bins: &[TimeBin],
    top: u64,
    at: usize,
    code: [u8; 2],
) -> Result<(), AllocError>
    requires names { names.before ≤ 67 }
    requires top { top ≤ 1_000_000 }
    requires listed { at < 16 }
    ensures { OnOk result (text.new.items ≡ text.old.items ++ never_if_lacked names bins.now top at code) }
{
    if is_lacked(bins, at) {
        put_line(text, names, bins, top, at, code)?;
    }
    Ok(())
}

/// Appends a line for each code that some satellite has nowhere, the first one so far from the top.
pub(crate) fn put_never_texts(
    text: &mut Vec<u8>,
    names: Names,
    bins: &[TimeBin],
    top: u64,
    codes: &[[u8; 2]],
) -> Result<(), AllocError>
    requires names { names.before ≤ 67 }
    requires top { top ≤ 1_000_000 }
    requires listed { length codes.now ≤ 16 }
    ensures { OnOk result (text.new.items ≡ text.old.items ++ never_texts names bins.now top 0 codes.now) }
{
    for (at, code) in codes.iter().enumerate() {
        put_line_if_lacked(text, names, bins, top, at, *code)?;
    }
    Ok(())
}
