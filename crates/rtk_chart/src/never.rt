//! The codes that satellites have nowhere in a file, in a picture in characters.

ghost use Rattle.std.specs.Prelude.{◌≡◌, ◌≤◌, ◌<◌, ◌++◌, OnOk};
ghost use Rattle.rtk_obs.specs.Code.{name_of};
ghost use Rattle.rtk_chart.specs.TextPicture.{satellite_label, never_in_line, never_before, line_end, never_start, never_part, never_lines, all_never_lines};
ghost use Rattle.rtk_chart.specs.Groups.{title_of};

use crate::groups::Names;
use crate::signs::is_never;
use crate::time_bin::TimeBin;
use rtk_obs::{AnyCode, Code, letter_of};
use std::alloc::AllocError;

/// How many satellites stand in a line of a picture of this width, behind a code with a name of two characters.
pub(crate) fn never_in_line(width: u16) -> u64
    requires { 39 ≤ width }
    ensures value { result ≡ never_in_line width }
    ensures some { 0 < result }
{
    u64::from(width - 9) / 4
}

/// Appends the label of a satellite, as in G05.
pub(crate) fn put_label(text: &mut Vec<u8>, letter: u8, number: u8) -> Result<(), AllocError>
    requires { number ≤ 99 }
    ensures { OnOk result (text.new.items ≡ text.old.items ++ satellite_label letter number) }
{
    text.extend_from_slice(&[letter, b'0' + number / 10, b'0' + number % 10])
}

// Appends the end of a line, unless none has begun.
fn put_line_end(text: &mut Vec<u8>, count: u64) -> Result<(), AllocError>
    ensures { OnOk result (text.new.items ≡ text.old.items ++ line_end count) }
{
    if count == 0 {
        return Ok(());
    }
    text.extend_from_slice(b"\n")
}

// Appends what stands before a satellite, after so many satellites.
fn put_start(text: &mut Vec<u8>, title: &[u8], in_line: u64, count: u64) -> Result<(), AllocError>
    requires { 0 < in_line }
    ensures { OnOk result (text.new.items ≡ text.old.items ++ never_start title.now in_line count) }
{
    if count % in_line != 0 {
        return Ok(());
    }
    put_line_end(text, count)?;
    text.extend_from_slice(b"never ")?;
    text.extend_from_slice(title)?;
    text.extend_from_slice(b":")
}

/// How many satellites before a place have the code at a place nowhere.
pub(crate) fn never_before(bins: &[TimeBin], at: usize, place: usize) -> u64
    requires { place ≤ 32 }
    ensures { result ≡ never_before bins.now at place }
{
    let mut count = 0;
    for before in 0..place {
        if is_never(bins, at, before) {
            count += 1;
        }
    }
    count
}

// Appends a satellite, if it has the code at a place nowhere.
fn put_part(
    text: &mut Vec<u8>,
    names: Names,
    bins: &[TimeBin],
    title: &[u8],
    at: usize,
    in_line: u64,
    place: usize,
) -> Result<(), AllocError>
    requires names { names.before ≤ 67 }
    requires in_line { 0 < in_line }
    requires place { place < 32 }
    ensures { OnOk result (text.new.items ≡ text.old.items ++ never_part names bins.now title.now at in_line place) }
{
    if !is_never(bins, at, place) {
        return Ok(());
    }
    put_start(text, title, in_line, never_before(bins, at, place))?;
    text.extend_from_slice(b" ")?;
    put_label(text, names.letter, names.before + place as u8 + 1)
}

// Appends the satellites that have the code at a place nowhere, behind its name.
fn put_never_of(
    text: &mut Vec<u8>,
    names: Names,
    bins: &[TimeBin],
    in_line: u64,
    at: usize,
    title: &[u8],
) -> Result<(), AllocError>
    requires names { names.before ≤ 67 }
    requires in_line { 0 < in_line }
    ensures { OnOk result (text.new.items ≡ text.old.items ++ never_lines names bins.now in_line at title.now) }
{
    for place in 0..32 {
        put_part(text, names, bins, title, at, in_line, place)?;
    }
    put_line_end(text, never_before(bins, at, 32))?;
    Ok(())
}

/// Appends the satellites of GPS that have a code nowhere, code by code, so many in a line.
pub(crate) fn put_never(
    text: &mut Vec<u8>,
    names: Names,
    bins: &[TimeBin],
    in_line: u64,
    codes: &[Code],
) -> Result<(), AllocError>
    requires names { names.before ≤ 67 }
    requires in_line { 0 < in_line }
    ensures { OnOk result (text.new.items ≡ text.old.items ++ all_never_lines name_of names bins.now in_line 0 codes.now) }
{
    for (at, code) in codes.iter().enumerate() {
        put_never_of(text, names, bins, in_line, at, &code.name())?;
    }
    Ok(())
}

// Appends the satellites that have a code nowhere. The name of a code of GPS has no letter.
fn put_titled(
    text: &mut Vec<u8>,
    names: Names,
    bins: &[TimeBin],
    in_line: u64,
    at: usize,
    code: AnyCode,
) -> Result<(), AllocError>
    requires names { names.before ≤ 67 }
    requires in_line { 0 < in_line }
    ensures { OnOk result (text.new.items ≡ text.old.items ++ never_lines names bins.now in_line at (title_of code)) }
{
    if letter_of(code.system()) == b'G' {
        return put_never_of(text, names, bins, in_line, at, &code.name());
    }
    put_never_of(text, names, bins, in_line, at, &code.text())
}

/// Appends the satellites that have a code of their system nowhere, code by code, so many in a line.
pub(crate) fn put_never_of_system(
    text: &mut Vec<u8>,
    names: Names,
    bins: &[TimeBin],
    in_line: u64,
    codes: &[AnyCode],
) -> Result<(), AllocError>
    requires names { names.before ≤ 67 }
    requires in_line { 0 < in_line }
    ensures { OnOk result (text.new.items ≡ text.old.items ++ all_never_lines title_of names bins.now in_line 0 codes.now) }
{
    for (at, code) in codes.iter().enumerate() {
        put_titled(text, names, bins, in_line, at, *code)?;
    }
    Ok(())
}
