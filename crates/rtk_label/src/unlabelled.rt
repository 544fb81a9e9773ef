//! A text that is parted into a label, time lines and a plain text.
//!
//! The parts of a label are read from their columns, and these become blank where they show a field. Time lines
//! are known by their labels, and are left out. What no label fills stays as it is, so that `check` finds the
//! first wrong line.

ghost use Rattle.std.specs.Prelude.{◌≡◌, ◌+◌, ◌-◌, ◌/◌, ◌^◌, ◌<◌, ◌≤◌, [], ◌++◌, length, take, drop, MatchOption};
ghost use Rattle.rtk_rinex.specs.Columns.{IsField};
ghost use Rattle.rtk_label.specs.Fields.{marker_number_line};
ghost use Rattle.rtk_label.specs.Labelled.{IsLabel};
ghost use Rattle.rtk_label.specs.LabelWriting.{IsCutText, IsParted, IsWrongLine, line_in_text};
ghost use Rattle.rtk_label.specs.Steps.Fronts.{plain_file, plain_front};
ghost use Rattle.rtk_label.specs.Steps.Shown.{IsNumberIn, IsLabelIn, IsRead};

use crate::columns::{FRONT, PLAIN_FRONT, add, put_number_line};
use crate::fields::{Field, columns_at, is_same, read_field, read_offset};
use crate::front::plain;
use crate::label::Label;
use crate::time_lines::{TimeLines, told_lines};
use arrayvec::ArrayVec;

/// The bytes of a line, and of three.
const LINE: usize = 81;

const THREE_LINES: usize = 243;

/// The first ten lines of a file without a label.
const PLAIN_LINES: &[u8] =
    b"     3.05           OBSERVATION DATA    G                   RINEX VERSION / TYPE\n\
rtcm2rinex                              19800106 000000 UTC PGM / RUN BY / DATE \n\
-                                                           MARKER NAME         \n\
GEODETIC                                                    MARKER TYPE         \n\
\x20                                                           OBSERVER / AGENCY   \n\
\x20                                                           REC # / TYPE / VERS \n\
\x20                                                           ANT # / TYPE        \n\
\x20       0.0000        0.0000        0.0000                  APPROX POSITION XYZ \n\
\x20       0.0000        0.0000        0.0000                  ANTENNA: DELTA H/E/N\n\
G    3 C1C L1C S1C                                          SYS / # / OBS TYPES \n";

/// The label and the time lines of a text, and where its plain text begins.
#[derive(Drop)]
pub struct Unlabelled {
    pub label: Label,
    /// Which time lines the text had.
    pub times: TimeLines,
    /// These lines.
    pub lines: ArrayVec<u8, FRONT>,
    /// The number of bytes before the plain text: 81 for each line that was left out, which are the time lines
    /// and that of the marker's number.
    pub from: usize,
}

impl Unlabelled {
    // The number of lines that were left out before the time lines: one if the text had a marker's number.
    fn number_lines(&self) -> usize
        ensures value { result ≡ (self.now.from - length self.now.lines.items) / 81 }
        ensures small { result < 2 ^ 60 }
    {
        self.from.saturating_sub(self.lines.len()) / LINE
    }

    /// The number of a line of the plain text in the text that was parted.
    pub fn line(&self, line: usize) -> usize
        ensures { line + self.now.from < 2 ^ 64 → result ≡ line_in_text self.now.from self.now.lines.items line }
    {
        if line <= 3 {
            line
        } else if line <= 9 {
            line.saturating_add(self.number_lines())
        } else {
            line.saturating_add(self.from / LINE)
        }
    }

    /// If the time lines are not these, the number of the first wrong one in the text that was parted.
    pub fn wrong_line(&self, due: &[u8]) -> Option<usize>
        ensures { MatchOption result (self.now.lines.items ≡ due.now) (IsWrongLine self.now.from self.now.lines.items due.now) }
    {
        let lines = self.lines.as_slice();
        if is_same(lines, due) {
            return None;
        }
        if is_same(columns_at(lines, 0, LINE), columns_at(due, 0, LINE)) {
            return Some(11 + self.number_lines());
        }
        Some(10 + self.number_lines())
    }
}

// The marker's number whose line this is; a blank one if it is the line of none.
fn read_number(line: &[u8]) -> Field
    requires { length line.now ≡ 81 }
    ensures { IsNumberIn line.now result.items }
{
    let number = read_field(columns_at(line, 0, 20));
    let mut written = ArrayVec::new();
    put_number_line(&mut written, number.as_slice());
    if !is_same(written.as_slice(), line) {
        return ArrayVec::new();
    }
    number
}

// The label that three lines, a marker's number and six lines show.
fn read_label(top: &[u8], number: Field, middle: &[u8]) -> Label
    requires top { length top.now ≡ 243 }
    requires number { IsField 20 number.items }
    requires middle { length middle.now ≡ 486 }
    ensures { IsLabelIn top.now number.items middle.now result }
{
    Label {
        run_by: read_field(columns_at(top, 101, 20)),
        marker_number: number,
        observer: read_field(columns_at(middle, 81, 20)),
        agency: read_field(columns_at(middle, 101, 40)),
        receiver_number: read_field(columns_at(middle, 162, 20)),
        receiver_type: read_field(columns_at(middle, 182, 20)),
        receiver_version: read_field(columns_at(middle, 202, 20)),
        antenna_number: read_field(columns_at(middle, 243, 20)),
        antenna_type: read_field(columns_at(middle, 263, 20)),
        height: read_offset(columns_at(middle, 405, 14)),
        east: read_offset(columns_at(middle, 419, 14)),
        north: read_offset(columns_at(middle, 433, 14)),
    }
}

// The bytes of the line of a marker's number, which is absent if there is none.
fn line_len(number: &[u8]) -> usize
    ensures blank { length number.now ≡ 0 → result ≡ 0 }
    ensures filled { 0 < length number.now → result ≡ 81 }
{
    if number.len() == 0 { 0 } else { 81 }
}

// What is read of a text: its label, and the first nine lines of its plain text.
#[derive(Drop)]
struct Reading {
    label: Label,
    front: ArrayVec<u8, FRONT>,
}

// Reads a text of ten lines at least. Of its lines the fourth is that of this marker's number, with so
// many bytes, or is absent.
fn reading_of(text: &[u8], number: Field, from: usize) -> Reading
    requires ten { 810 ≤ length text.now }
    requires number { IsNumberIn (take 81 (drop 243 text.now)) number.items }
    requires blank { length number.items ≡ 0 → from ≡ 0 }
    requires filled { 0 < length number.items → from ≡ 81 }
    ensures read { IsRead text.now number.items from result.label }
    ensures front { result.front.items ≡ plain_front text.now from result.label }
    ensures good { IsLabel result.label }
    ensures from { from ≡ length (marker_number_line result.label.marker_number) }
    ensures line { from ≤ 81 }
    ensures len { length result.front.items ≡ 729 }
{
    let top = columns_at(text, 0, THREE_LINES);
    let middle = columns_at(text, from + THREE_LINES, 486);
    let label = read_label(top, number, middle);
    let front = plain(&label, top, middle);
    Reading { label, front }
}

// The marker's number of whole lines; a blank one if its line is not among them.
fn number_in(lines: &[u8]) -> Field
    ensures none { length lines.now < 324 → result.items ≡ [] }
    ensures some { 324 ≤ length lines.now → IsNumberIn (take 81 (drop 243 lines.now)) result.items }
{
    if lines.len() < 324 {
        return ArrayVec::new();
    }
    read_number(columns_at(lines, THREE_LINES, 81))
}

// The bytes of the line of a marker's number, which is absent if there is none; it is one of these
// lines.
fn len_in(lines: &[u8], number: &[u8]) -> usize
    requires { length lines.now < 324 → number.now ≡ [] }
    ensures blank { length number.now ≡ 0 → result ≡ 0 }
    ensures filled { 0 < length number.now → result ≡ 81 }
    ensures within { result ≤ length lines.now }
    ensures small { result ≤ 81 }
{
    line_len(number)
}

// Whole lines, of which so many bytes are the line of a marker's number, and then lines of a file
// without a label, ten in all.
fn completed(lines: &[u8], from: usize) -> ArrayVec<u8, FRONT>
    requires lines { length lines.now ≤ 729 }
    requires from { from ≤ length lines.now }
    requires number { from ≤ 81 }
    ensures items { result.items ≡ take 810 (lines.now ++ drop (length lines.now - from) plain_file) }
    ensures len { length result.items ≡ 810 }
{
    let mut out = ArrayVec::new();
    add(&mut out, lines);
    add(
        &mut out,
        columns_at(PLAIN_LINES, lines.len() - from, FRONT - lines.len()),
    );
    out
}

// Parts a text that ends within its first ten lines. The line that is cut stays as it is.
fn unlabel_cut(text: &mut [u8]) -> Unlabelled
    requires { length text.old < 810 }
    ensures len { length text.new ≡ length text.old }
    ensures none { result.lines.items ≡ [] }
    ensures from { result.from ≡ length (marker_number_line result.label.marker_number) }
    ensures within { result.from ≤ length text.new }
    ensures good { IsLabel result.label }
    ensures cut { IsCutText text.old (drop result.from text.new) result.label }
{
    let whole = LINE * (text.len() / LINE);
    let lines = columns_at(text, 0, whole);
    let number = number_in(lines);
    let from = len_in(lines, number.as_slice());
    let ten = completed(lines, from);
    let reading = reading_of(ten.as_slice(), number, from);
    text[from..whole].copy_from_slice(columns_at(reading.front.as_slice(), 0, whole - from));
    Unlabelled {
        label: reading.label,
        times: TimeLines::none(),
        lines: ArrayVec::new(),
        from,
    }
}

/// Parts a text in its place: what is left from `from` on is the plain text. No byte after the twelfth
/// line is moved.
///
/// If the text ends within its first ten lines, the fields are taken from the lines before the one
/// that is cut. So `check` finds that the text is cut, and not a field.
pub fn unlabel(text: &mut [u8]) -> Unlabelled
    ensures len { length text.new ≡ length text.old }
    ensures rest { drop 972 text.new ≡ drop 972 text.old }
    ensures from { result.from ≡ length (marker_number_line result.label.marker_number) + length result.lines.items }
    ensures within { result.from ≤ length text.new }
    ensures parted { IsParted text.old (drop result.from text.new) result.label result.times result.lines.items }
{
    if text.len() < 810 {
        return unlabel_cut(text);
    }
    let number = read_number(columns_at(text, THREE_LINES, LINE));
    let number_len = line_len(number.as_slice());
    let reading = reading_of(text, number, number_len);
    let told = told_lines(text, number_len + PLAIN_FRONT);
    let from = number_len + told.lines.len();
    text[from..from + PLAIN_FRONT].copy_from_slice(reading.front.as_slice());
    Unlabelled {
        label: reading.label,
        times: told.times,
        lines: told.lines,
        from,
    }
}
