//! The text of a header, a function for each part of it.

ghost use Rattle.std.specs.Prelude.{◌≡◌, ℕ, ◌+◌, ◌*◌, ◌≤◌, ◌<◌, [], ◌∷◌, ◌++◌, take, drop, length, IfOk, codes, decimal, pos};
ghost use Rattle.rtk_obs.specs.Coordinates.{IsCoordinate};
ghost use Rattle.rtk_rinex.specs.Columns.{left, right, fixed};
ghost use Rattle.rtk_rinex.specs.Header.{header_line, version_line, made_text, made_line, marker_line, position_view, place_line, height_line, types_of, types, continuation_line, types_lines, unit_line, first_text, first_line, header_text};

use crate::columns::{
    append, fixed_14_4, integer_3, integer_6, put_last_digits, seconds, unsigned_13_7,
};
use crate::digits::{after, front};
use crate::head::Head;
use arrayvec::ArrayVec;
use rtk_obs::{Civil, Code, GpsMs, Position, civil};
use std::alloc::{AllocError, Global};

/// The label of the lines of observation types.
pub(crate) const TYPES: &[u8] = b"SYS / # / OBS TYPES";

/// The bytes of the longest header: 17 lines of 81 bytes, four of them with observation types.
pub(crate) const LONGEST_HEADER: usize = 1377;

// Appends a text and blanks after it, `width` columns in all.
fn put_left<const N: usize>(out: &mut ArrayVec<u8, N>, text: &[u8], width: usize)
    requires fits { length text.now ≤ width }
    requires small { width ≤ 80 }
    requires room { length out.old.items + width ≤ N }
    ensures items { out.new.items ≡ out.old.items ++ left width text.now }
    ensures len { length out.new.items ≡ length out.old.items + width }
{
    let blanks = [b' '; 80];
    append(out, text);
    append(out, &blanks[..width - text.len()]);
}

/// Appends a line: what stands in its first 60 columns, and its label.
pub(crate) fn put_header_line<const N: usize>(
    out: &mut ArrayVec<u8, N>,
    content: &[u8],
    label: &[u8],
)
    requires content { length content.now ≤ 60 }
    requires label { length label.now ≤ 20 }
    requires room { length out.old.items + 81 ≤ N }
    ensures items { out.new.items ≡ out.old.items ++ header_line content.now label.now }
    ensures len { length out.new.items ≡ length out.old.items + 81 }
{
    put_left(out, content, 60);
    put_left(out, label, 20);
    append(out, b"\n");
}

// Returns the 20 columns of the date and time at which the file is made.
fn made_field(made: Civil) -> [u8; 20]
    ensures { result ≡ made_text made }
{
    let mut field = *b"yyyymmdd hhmmss UTC ";
    put_last_digits(&mut field[0..4], u64::from(made.year));
    put_last_digits(&mut field[4..6], u64::from(made.month));
    put_last_digits(&mut field[6..8], u64::from(made.day));
    put_last_digits(&mut field[9..11], u64::from(made.hour));
    put_last_digits(&mut field[11..13], u64::from(made.minute));
    put_last_digits(&mut field[13..15], u64::from(made.second));
    field
}

// Returns the columns of the line with the program and the time at which the file is made.
fn made_content(made: Civil) -> ArrayVec<u8, 60>
    ensures value { result.items ≡ codes "rtcm2rinex                              " ++ made_text made }
    ensures len { length result.items ≤ 60 }
{
    let mut content = ArrayVec::new();
    append(&mut content, b"rtcm2rinex                              ");
    append(&mut content, &made_field(made));
    content
}

/// Puts the line with the version, the kind of the file and its system.
pub(crate) fn put_version_line(out: &mut ArrayVec<u8, LONGEST_HEADER>)
    requires room { length out.old.items + 81 ≤ 1377 }
    ensures items { out.new.items ≡ out.old.items ++ version_line }
    ensures len { length out.new.items ≡ length out.old.items + 81 }
{
    put_header_line(
        out,
        b"     3.05           OBSERVATION DATA    G",
        b"RINEX VERSION / TYPE",
    );
}

/// Puts the line with the program and the time at which the file is made.
pub(crate) fn put_made_line<const N: usize>(out: &mut ArrayVec<u8, N>, made: Civil)
    requires room { length out.old.items + 81 ≤ N }
    ensures items { out.new.items ≡ out.old.items ++ made_line made }
    ensures len { length out.new.items ≡ length out.old.items + 81 }
{
    put_header_line(out, made_content(made).as_slice(), b"PGM / RUN BY / DATE");
}

/// Puts the line with the marker's name.
pub(crate) fn put_marker_line<const N: usize>(out: &mut ArrayVec<u8, N>, marker: &[u8])
    requires marker { length marker.now ≤ 60 }
    requires room { length out.old.items + 81 ≤ N }
    ensures items { out.new.items ≡ out.old.items ++ marker_line marker.now }
    ensures len { length out.new.items ≡ length out.old.items + 81 }
{
    put_header_line(out, marker, b"MARKER NAME");
}

/// Puts the lines from the marker's type to the antenna's type. Observer, receiver and antenna are
/// blank, since no message that is converted tells them.
pub(crate) fn put_unknown_lines<const N: usize>(out: &mut ArrayVec<u8, N>)
    requires room { length out.old.items + 324 ≤ N }
    ensures items { out.new.items ≡ out.old.items ++ header_line (codes "GEODETIC") (codes "MARKER TYPE") ++ header_line [] (codes "OBSERVER / AGENCY")
        ++ header_line [] (codes "REC # / TYPE / VERS") ++ header_line [] (codes "ANT # / TYPE") }
    ensures len { length out.new.items ≡ length out.old.items + 324 }
{
    put_header_line(out, b"GEODETIC", b"MARKER TYPE");
    put_header_line(out, b"", b"OBSERVER / AGENCY");
    put_header_line(out, b"", b"REC # / TYPE / VERS");
    put_header_line(out, b"", b"ANT # / TYPE");
}

// Returns the columns of the line with the position.
fn position_content(position: &Position) -> ArrayVec<u8, 60>
    ensures value { result.items ≡ fixed 4 14 position.now.x ++ fixed 4 14 position.now.y ++ fixed 4 14 position.now.z }
    ensures len { length result.items ≤ 60 }
{
    let mut content = ArrayVec::new();
    append(&mut content, &fixed_14_4(position.x));
    append(&mut content, &fixed_14_4(position.y));
    append(&mut content, &fixed_14_4(position.z));
    content
}

// Returns the columns of the line with the antenna's height. Its offsets to the east and to the
// north are zero.
fn height_content(height: u16) -> ArrayVec<u8, 60>
    ensures value { result.items ≡ fixed 4 14 (pos height) ++ codes "        0.0000        0.0000" }
    ensures len { length result.items ≤ 60 }
{
    let mut content = ArrayVec::new();
    append(&mut content, &fixed_14_4(i64::from(height)));
    append(&mut content, b"        0.0000        0.0000");
    content
}

/// Puts the line with the position.
pub(crate) fn put_place_line<const N: usize>(out: &mut ArrayVec<u8, N>, position: &Position)
    requires room { length out.old.items + 81 ≤ N }
    ensures items { out.new.items ≡ out.old.items ++ place_line (position_view position.now) }
    ensures len { length out.new.items ≡ length out.old.items + 81 }
{
    put_header_line(
        out,
        position_content(position).as_slice(),
        b"APPROX POSITION XYZ",
    );
}

/// Puts the line with the antenna's height.
pub(crate) fn put_height_line<const N: usize>(out: &mut ArrayVec<u8, N>, height: u16)
    requires room { length out.old.items + 81 ≤ N }
    ensures items { out.new.items ≡ out.old.items ++ height_line height }
    ensures len { length out.new.items ≡ length out.old.items + 81 }
{
    put_header_line(
        out,
        height_content(height).as_slice(),
        b"ANTENNA: DELTA H/E/N",
    );
}

// Returns the observation types of a code: its pseudorange, its phase and its strength, four
// columns each.
fn types_of_code(code: Code) -> [u8; 12]
    ensures { result ≡ types_of code }
{
    let [band, attribute] = code.name();
    [
        b' ', b'C', band, attribute, b' ', b'L', band, attribute, b' ', b'S', band, attribute,
    ]
}

// Returns the observation types of the codes, four columns each.
fn types_of_codes(listed: &[Code]) -> ArrayVec<u8, 192>
    requires { length listed.now ≤ 16 }
    ensures value { result.items ≡ types listed.now }
    ensures len { length result.items ≡ 12 * length listed.now }
{
    let mut text = ArrayVec::new();
    for code in listed {
        append(&mut text, &types_of_code(*code));
    }
    text
}

// Returns the columns of the first line of observation types: how many types there are, and those
// that it shows.
fn types_content(count: usize, shown: &[u8]) -> ArrayVec<u8, 60>
    requires count { count ≤ 48 }
    requires shown { length shown.now ≤ 52 }
    ensures value { result.items ≡ codes "G  " ++ right 3 (decimal count) ++ shown.now }
    ensures len { length result.items ≤ 60 }
{
    let mut content = ArrayVec::new();
    append(&mut content, b"G  ");
    append(&mut content, &integer_3(count as u64));
    append(&mut content, shown);
    content
}

// Returns the columns of a further line of observation types.
fn continuation_content(text: &[u8]) -> ArrayVec<u8, 60>
    ensures value { result.items ≡ codes "      " ++ take 52 text.now }
    ensures len { length result.items ≤ 60 }
{
    let mut content = ArrayVec::new();
    append(&mut content, b"      ");
    append(&mut content, front(text, 52));
    content
}

/// Puts a further line of observation types if any types are left.
pub(crate) fn put_continuation_line<const N: usize>(out: &mut ArrayVec<u8, N>, text: &[u8])
    requires room { length out.old.items + 81 ≤ N }
    ensures items { out.new.items ≡ out.old.items ++ continuation_line text.now }
    ensures len { length out.new.items ≤ length out.old.items + 81 }
{
    if text.len() > 0 {
        put_header_line(out, continuation_content(text).as_slice(), TYPES);
    }
}

/// Puts the lines of the observation types. Thirteen types of four columns stand on a line, which
/// are 52 columns. 16 codes have 192 columns.
pub(crate) fn put_types_lines(out: &mut ArrayVec<u8, LONGEST_HEADER>, listed: &[Code])
    requires listed { length listed.now ≤ 16 }
    requires room { length out.old.items + 324 ≤ 1377 }
    ensures items { out.new.items ≡ out.old.items ++ types_lines listed.now }
    ensures len { length out.new.items ≤ length out.old.items + 324 }
{
    let types = types_of_codes(listed);
    let text = types.as_slice();
    put_header_line(
        out,
        types_content(3 * listed.len(), front(text, 52)).as_slice(),
        TYPES,
    );
    put_continuation_line(out, after(text, 52));
    put_continuation_line(out, after(text, 104));
    put_continuation_line(out, after(text, 156));
}

// Returns the columns of the line with the time of the first observation.
fn first_content(first: Civil) -> ArrayVec<u8, 60>
    requires second { first.second < 60 }
    requires millisecond { first.millisecond < 1000 }
    ensures value { result.items ≡ first_text first }
    ensures len { length result.items ≤ 60 }
{
    let mut content = ArrayVec::new();
    append(&mut content, &integer_6(u64::from(first.year)));
    append(&mut content, &integer_6(u64::from(first.month)));
    append(&mut content, &integer_6(u64::from(first.day)));
    append(&mut content, &integer_6(u64::from(first.hour)));
    append(&mut content, &integer_6(u64::from(first.minute)));
    append(&mut content, &unsigned_13_7(seconds(first)));
    append(&mut content, b"     GPS");
    content
}

/// Puts the line with the unit of the signal strengths.
pub(crate) fn put_unit_line<const N: usize>(out: &mut ArrayVec<u8, N>)
    requires room { length out.old.items + 81 ≤ N }
    ensures items { out.new.items ≡ out.old.items ++ unit_line }
    ensures len { length out.new.items ≡ length out.old.items + 81 }
{
    put_header_line(out, b"DBHZ", b"SIGNAL STRENGTH UNIT");
}

/// Puts the line with the time of the first observation.
pub(crate) fn put_first_line<const N: usize>(out: &mut ArrayVec<u8, N>, first: Civil)
    requires second { first.second < 60 }
    requires millisecond { first.millisecond < 1000 }
    requires room { length out.old.items + 81 ≤ N }
    ensures items { out.new.items ≡ out.old.items ++ first_line first }
    ensures len { length out.new.items ≡ length out.old.items + 81 }
{
    put_header_line(out, first_content(first).as_slice(), b"TIME OF FIRST OBS");
}

/// Puts the lines with the phase shifts, which are unknown, and with the end.
pub(crate) fn put_end_lines(out: &mut ArrayVec<u8, LONGEST_HEADER>)
    requires room { length out.old.items + 162 ≤ 1377 }
    ensures items { out.new.items ≡ out.old.items ++ header_line (codes "G") (codes "SYS / PHASE SHIFT") ++ header_line [] (codes "END OF HEADER") }
    ensures len { length out.new.items ≡ length out.old.items + 162 }
{
    put_header_line(out, b"G", b"SYS / PHASE SHIFT");
    put_header_line(out, b"", b"END OF HEADER");
}

/// Returns the header of a file of this head, whose first observation is at `first`.
pub(crate) fn header_lines(
    head: &Head,
    position: &Position,
    first: GpsMs,
) -> ArrayVec<u8, LONGEST_HEADER>
    ensures { result.items ≡ header_text head.now (position_view position.now) first }
{
    let mut out = ArrayVec::new();
    put_version_line(&mut out);
    put_made_line(&mut out, civil(head.made()));
    put_marker_line(&mut out, head.marker());
    put_unknown_lines(&mut out);
    put_place_line(&mut out, position);
    put_height_line(&mut out, position.height);
    put_types_lines(&mut out, head.codes());
    put_unit_line(&mut out);
    put_first_line(&mut out, civil(first));
    put_end_lines(&mut out);
    out
}

/// Returns the header of a file of this head, whose first observation is at `first`.
///
/// The position is the antenna reference point, and its height is the antenna's height above it.
/// Memory is taken once. Source: RINEX 3.05, Table A2.
pub fn header(
    alloc: Global,
    head: &Head,
    position: &Position,
    first: GpsMs,
) -> Result<Vec<u8>, AllocError>
    // Fails only if memory is refused: tests/system/calls, rows `header ..`.
    ensures { IfOk result (λ text. text.items ≡ header_text head.now (position_view position.now) first) }
{
    let lines = header_lines(head, position, first);
    let mut out = Vec::with_capacity(alloc, LONGEST_HEADER)?;
    out.extend_from_slice(lines.as_slice())?;
    Ok(out)
}
