//! The lines of a header that follow from the records of its file, written and read.

ghost use Rattle.std.specs.Prelude.{◌≡◌, ◌≢◌, ◌+◌, ◌^◌, ◌<◌, ◌≤◌, [], ◌∷◌, ◌++◌, length, take, drop, pos, decimal, if◌then◌else◌, not, false, ◌&&◌, Decides};
ghost use Rattle.rtk_obs.specs.CivilText.{last_digits};
ghost use Rattle.rtk_rinex.specs.Columns.{right, fixed, seconds_of};
ghost use Rattle.rtk_rinex.specs.Header.{header_line, first_text};
ghost use Rattle.rtk_label.specs.TimeLines.{interval_line, last_time_line, asked, extent_lines};
ghost use Rattle.rtk_label.specs.Steps.Told.{AreTold};

use crate::columns::{FRONT, add, put_left, put_right};
use crate::fields::{after, columns_at, is_same};
use arrayvec::ArrayVec;
use itoa::Buffer;
use rtk_obs::{Civil, GpsMs, civil};

/// A longer interval in ms has no place in the columns of its line.
const TOO_LONG_MS: u64 = 1_000_000_000;

/// The columns 61 to 80 of each line, and its LF.
const INTERVAL_END: &[u8] = b"INTERVAL            \n";

const LAST_END: &[u8] = b"TIME OF LAST OBS    \n";

/// Which of the lines a header has that follow from the records.
#[derive(Clone, Copy, Debug, PartialEq, Eq)]
pub struct TimeLines {
    /// `INTERVAL`: the interval of the records.
    pub interval: bool,
    /// `TIME OF LAST OBS`: the moment of the last record.
    pub last: bool,
}

// Returns a point and the three last digits of a number.
fn point_and_three(number: u64) -> [u8; 4]
    ensures { result ≡ 46 ∷ last_digits 3 number }
{
    let digit = |number: u64| b'0' + (number % 10) as u8;
    [
        b'.',
        digit(number / 10 / 10),
        digit(number / 10),
        digit(number),
    ]
}

// Returns a point and the seven last digits of a number.
fn point_and_seven(number: u64) -> [u8; 8]
    ensures { result ≡ 46 ∷ last_digits 7 number }
{
    let digit = |number: u64| b'0' + (number % 10) as u8;
    [
        b'.',
        digit(number / 10 / 10 / 10 / 10 / 10 / 10),
        digit(number / 10 / 10 / 10 / 10 / 10),
        digit(number / 10 / 10 / 10 / 10),
        digit(number / 10 / 10 / 10),
        digit(number / 10 / 10),
        digit(number / 10),
        digit(number),
    ]
}

// Appends a number at the right end of six columns.
fn put_integer(out: &mut ArrayVec<u8, FRONT>, number: u64)
    requires digits { number < 10 ^ 6 }
    requires room { length out.old.items + 6 ≤ 810 }
    ensures items { out.new.items ≡ out.old.items ++ right 6 (decimal number) }
    ensures len { length out.new.items ≡ length out.old.items + 6 }
{
    put_right(out, Buffer::new().format(number).as_bytes(), 6);
}

// Appends a number with what follows it from its point on, at the right end of `width` columns.
fn put_with_point(out: &mut ArrayVec<u8, FRONT>, number: u64, point: &[u8], width: usize)
    requires digits { length (decimal number) + length point.now ≤ width }
    requires small { width ≤ 80 }
    requires room { length out.old.items + width ≤ 810 }
    ensures items { out.new.items ≡ out.old.items ++ right width (decimal number ++ point.now) }
    ensures len { length out.new.items ≡ length out.old.items + width }
{
    let mut text = ArrayVec::new();
    add(&mut text, Buffer::new().format(number).as_bytes());
    add(&mut text, point);
    put_right(out, text.as_slice(), width);
}

// Returns the columns of an interval.
fn interval_columns(interval_ms: u64) -> ArrayVec<u8, FRONT>
    requires { interval_ms < 1_000_000_000 }
    ensures value { result.items ≡ fixed 3 10 (pos interval_ms) }
    ensures len { length result.items ≡ 10 }
{
    let mut columns = ArrayVec::new();
    put_with_point(
        &mut columns,
        interval_ms / 1000,
        &point_and_three(interval_ms),
        10,
    );
    columns
}

// Returns the seconds of a reading in units of 10^-7 s.
fn seconds(time: Civil) -> u64
    requires second { time.second < 60 }
    requires millisecond { time.millisecond < 1000 }
    ensures value { result ≡ seconds_of time }
    ensures bound { result < 600_000_000 }
{
    u64::from(time.second) * 10_000_000 + u64::from(time.millisecond) * 10_000
}

// Returns the columns of a moment.
fn moment_columns(time: Civil) -> ArrayVec<u8, FRONT>
    requires second { time.second < 60 }
    requires millisecond { time.millisecond < 1000 }
    ensures value { result.items ≡ first_text time }
    ensures len { length result.items ≡ 51 }
{
    let units = seconds(time);
    let mut columns = ArrayVec::new();
    put_integer(&mut columns, u64::from(time.year));
    put_integer(&mut columns, u64::from(time.month));
    put_integer(&mut columns, u64::from(time.day));
    put_integer(&mut columns, u64::from(time.hour));
    put_integer(&mut columns, u64::from(time.minute));
    put_with_point(
        &mut columns,
        units / 10_000_000,
        &point_and_seven(units),
        13,
    );
    add(&mut columns, b"     GPS");
    columns
}

// Appends a line: what stands in its first 60 columns, and its label.
fn put_line(out: &mut ArrayVec<u8, FRONT>, columns: &[u8], label: &[u8])
    requires columns { length columns.now ≤ 60 }
    requires label { length label.now ≤ 20 }
    requires room { length out.old.items + 81 ≤ 810 }
    ensures items { out.new.items ≡ out.old.items ++ header_line columns.now label.now }
    ensures len { length out.new.items ≡ length out.old.items + 81 }
{
    put_left(out, columns, 60);
    put_left(out, label, 20);
    add(out, b"\n");
}

// Appends the line of an interval, if there is one that its columns can show.
fn put_interval_line(out: &mut ArrayVec<u8, FRONT>, interval_ms: Option<u64>)
    requires { length out.old.items + 81 ≤ 810 }
    ensures items { out.new.items ≡ out.old.items ++ interval_line interval_ms }
    ensures len { length out.new.items ≤ length out.old.items + 81 }
{
    let Some(ms) = interval_ms else {
        return;
    };
    if ms < TOO_LONG_MS {
        put_line(out, interval_columns(ms).as_slice(), b"INTERVAL");
    }
}

// Appends the line of the moment of the last record, if there is one.
fn put_last_line(out: &mut ArrayVec<u8, FRONT>, last: Option<GpsMs>)
    requires { length out.old.items + 81 ≤ 810 }
    ensures items { out.new.items ≡ out.old.items ++ last_time_line last }
    ensures len { length out.new.items ≤ length out.old.items + 81 }
{
    let Some(time) = last else {
        return;
    };
    put_line(
        out,
        moment_columns(civil(time)).as_slice(),
        b"TIME OF LAST OBS",
    );
}

// Returns whether a text begins with a line that ends so.
fn begins_with(text: &[u8], end: &[u8]) -> bool
    ensures { Decides result (take 21 (drop 60 text.now) ≡ end.now) }
{
    is_same(columns_at(text, 60, 21), end)
}

// Returns the bytes of a line if there is one.
fn len_if(is: bool) -> usize
    ensures value { result ≡ (if is then 81 else 0) }
    ensures small { result ≤ 81 }
{
    if is { 81 } else { 0 }
}

/// The time lines at the begin of a text, and which they are.
#[derive(Drop)]
pub(crate) struct ToldLines {
    pub(crate) times: TimeLines,
    pub(crate) lines: ArrayVec<u8, FRONT>,
}

/// Reads the time lines that stand in a text from a place on. Their labels alone say which they are.
pub(crate) fn told_lines(text: &[u8], from: usize) -> ToldLines
    ensures told { AreTold (drop from text.now) result.times result.lines.items }
    ensures few { length result.lines.items ≤ 162 }
    ensures within { from ≤ length text.now → from + length result.lines.items ≤ length text.now }
{
    let rest = after(text, from);
    let interval = begins_with(rest, INTERVAL_END);
    let first = len_if(interval);
    let last = begins_with(after(rest, first), LAST_END);
    let second = len_if(last);
    let mut lines = ArrayVec::new();
    add(&mut lines, columns_at(rest, 0, first + second));
    ToldLines {
        times: TimeLines { interval, last },
        lines,
    }
}

impl TimeLines {
    // The interval, if its line is asked for.
    fn asked_interval(self, interval_ms: Option<u64>) -> Option<u64>
        ensures { result ≡ asked self.interval interval_ms }
    {
        if self.interval { interval_ms } else { None }
    }

    // The moment, if its line is asked for.
    fn asked_last(self, last: Option<GpsMs>) -> Option<GpsMs>
        ensures { result ≡ asked self.last last }
    {
        if self.last { last } else { None }
    }

    /// No line.
    pub fn none() -> TimeLines
        ensures interval { result.interval ≡ false }
        ensures last { result.last ≡ false }
    {
        TimeLines {
            interval: false,
            last: false,
        }
    }

    /// Is no line asked for?
    pub fn are_none(self) -> bool
        ensures { result ≡ (not self.interval && not self.last) }
    {
        !self.interval && !self.last
    }

    /// The text of these lines of a file, by the interval of its records in ms and the moment of its last one.
    pub fn text(self, interval_ms: Option<u64>, last: Option<GpsMs>) -> ArrayVec<u8, FRONT>
        ensures value { result.items ≡ extent_lines self interval_ms last }
        ensures len { length result.items ≤ 162 }
    {
        let mut out = ArrayVec::new();
        put_interval_line(&mut out, self.asked_interval(interval_ms));
        put_last_line(&mut out, self.asked_last(last));
        out
    }
}
