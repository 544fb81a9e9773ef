//! The lines of a record: the epoch line, and a line for each satellite that shows something.

ghost use Rattle.std.specs.Prelude.{◌≡◌, ◌+◌, ◌<◌, ◌≤◌, ◌-◌, [], ◌∷◌, ◌++◌, length, take, drop, replicate, codes, decimal, false};
ghost use Rattle.std.specs.List.{list_any};
ghost use Rattle.rtk_obs.specs.CivilText.{last_digits};
ghost use Rattle.rtk_rinex.specs.Record.{is_written, is_present, observation, observations, observations_with_doppler, strength_digit, strength_value, lli_digit, has_observation, has_observation_or_doppler, has_line, trim_end, epoch_date_text, epoch_line};
ghost use Rattle.rtk_rinex.specs.Columns.{right, decimals, seconds_of};
ghost use Rattle.rtk_rinex.specs.RecordLines.{ended};

use crate::columns::{
    EPOCH_LINE, put_decimal, put_fixed_14_3, put_long_14_3, put_pair, put_point_and_three,
    put_short_14_3,
};
use crate::epoch_table::{Observed, SatelliteRow};
use rtk_obs::Civil;

// The least value that F14.3 has room for, in thousandths.
const LEAST_F14_3: i64 = -999_999_999_999;

// The greatest value that F14.3 has room for, in thousandths.
const GREATEST_F14_3: i64 = 9_999_999_999_999;

// Returns whether a value in thousandths is written, which means that F14.3 has room for it and it
// is not 0. A phase with rolls was tested by `rolled` of rtk_obs, but an `Observed` of any program
// may have any value.
fn is_written_value(value: i64) -> bool
    ensures { result ≡ is_written value }
{
    value != 0 && value >= LEAST_F14_3 && value <= GREATEST_F14_3
}

// Writes F14.3 and two digits over 16 blanks, or leaves the blanks, whatever the value is.
#[inline(never)]
fn put_any_observation(field: &mut [u8], value: Option<i64>, first: u8, second: u8)
    requires blank { field.old ≡ replicate 16 32 }
    ensures value { field.new ≡ observation value first second }
    ensures len { length field.new ≡ 16 }
{
    match value {
        Some(value) if is_written_value(value) => {
            put_fixed_14_3(&mut field[..14], value);
            field[14] = first;
            field[15] = second;
        }
        _ => {}
    }
}

// Writes what `put_any_observation` writes, in fewer steps for a value of the size of a range or phase
// of a satellite.
#[inline(always)]
fn put_observation(field: &mut [u8], value: Option<i64>, first: u8, second: u8)
    requires blank { field.old ≡ replicate 16 32 }
    ensures value { field.new ≡ observation value first second }
    ensures len { length field.new ≡ 16 }
{
    match value {
        Some(value) if value >= 1_000_000_000 && value <= 999_999_999_999 => {
            put_long_14_3(&mut field[..14], value);
            field[14] = first;
            field[15] = second;
        }
        _ => put_any_observation(field, value, first, second),
    }
}

/// Returns the signal strength digit of a strength in thousandths of a dB-Hz. `level_of` in
/// observations.rt of rtk_chart gives it as a number.
pub(crate) fn digit_of_strength(strength: Option<u32>) -> u8
    ensures { result ≡ strength_digit strength }
{
    match strength {
        Some(strength) => b'0' + (strength / 6000).max(1).min(9) as u8,
        None => b' ',
    }
}

// Returns the loss-of-lock digit of a slip and a half-cycle ambiguity, or a blank if there is
// neither.
fn digit_of_lock(slip: bool, half: bool) -> u8
    ensures { result ≡ lli_digit slip half }
{
    if slip || half {
        b'0' + u8::from(slip) + 2 * u8::from(half)
    } else {
        b' '
    }
}

// Returns a signal strength in thousandths of a dB-Hz as a value of an observation.
fn value_of_strength(strength: Option<u32>) -> Option<i64>
    ensures { result ≡ strength_value strength }
{
    match strength {
        Some(strength) => Some(i64::from(strength)),
        None => None,
    }
}

// Writes a signal strength over 16 blanks. A message gives one below 100 dB-Hz.
fn put_strength(field: &mut [u8], strength: Option<u32>)
    requires blank { field.old ≡ replicate 16 32 }
    ensures value { field.new ≡ observation (strength_value strength) 32 32 }
    ensures len { length field.new ≡ 16 }
{
    match strength {
        Some(strength) if strength > 0 && strength < 1_000_000 => {
            put_short_14_3(&mut field[..14], strength);
        }
        _ => put_any_observation(field, value_of_strength(strength), b' ', b' '),
    }
}

/// Writes the columns of a code over 48 blanks.
#[inline(always)]
pub(crate) fn put_columns(columns: &mut [u8], observed: &Observed)
    requires blank { columns.old ≡ replicate 48 32 }
    ensures { columns.new ≡ observations observed.now }
{
    let digit = digit_of_strength(observed.strength_millidbhz);
    let lock = digit_of_lock(observed.slip, observed.half);
    put_observation(&mut columns[..16], observed.range_mm, b' ', digit);
    put_observation(
        &mut columns[16..32],
        observed.phase_millicycles,
        lock,
        digit,
    );
    put_strength(&mut columns[32..], observed.strength_millidbhz);
}

// Writes a Doppler shift over 16 blanks.
fn put_doppler(field: &mut [u8], shift: Option<i64>)
    requires blank { field.old ≡ replicate 16 32 }
    ensures value { field.new ≡ observation shift 32 32 }
    ensures len { length field.new ≡ 16 }
{
    put_any_observation(field, shift, b' ', b' ');
}

// Writes a Doppler shift and a signal strength over 32 blanks.
#[inline(always)]
fn put_last_columns(columns: &mut [u8], observed: &Observed)
    requires blank { columns.old ≡ replicate 32 32 }
    ensures value { columns.new ≡ observation observed.now.doppler_millihertz 32 32 ++ observation (strength_value observed.now.strength_millidbhz) 32 32 }
    ensures len { length columns.new ≡ 32 }
{
    put_doppler(&mut columns[..16], observed.doppler_millihertz);
    put_strength(&mut columns[16..], observed.strength_millidbhz);
}

/// Writes the columns of a code in a file with Doppler shifts over 64 blanks.
#[inline(always)]
pub(crate) fn put_doppler_columns(columns: &mut [u8], observed: &Observed)
    requires blank { columns.old ≡ replicate 64 32 }
    ensures { columns.new ≡ observations_with_doppler observed.now }
{
    let digit = digit_of_strength(observed.strength_millidbhz);
    let lock = digit_of_lock(observed.slip, observed.half);
    put_observation(&mut columns[..16], observed.range_mm, b' ', digit);
    put_observation(
        &mut columns[16..32],
        observed.phase_millicycles,
        lock,
        digit,
    );
    put_last_columns(&mut columns[32..], observed);
}

/// Returns the number of bytes before the blanks at the end.
pub(crate) fn trimmed_len(bytes: &[u8]) -> usize
    ensures within { result ≤ length bytes.now }
    ensures value { take result bytes.now ≡ trim_end bytes.now }
{
    let mut end = bytes.len();
    while end > 0 && bytes[end - 1] == b' ' {
        end -= 1;
    }
    end
}

// Returns whether there is a value and it is written.
fn is_present(value: Option<i64>) -> bool
    ensures { result ≡ is_present value }
{
    match value {
        Some(value) => is_written_value(value),
        None => false,
    }
}

/// Returns whether an observation of the code is written.
#[inline(always)]
pub(crate) fn has_observation(observed: &Observed) -> bool
    ensures { result ≡ has_observation observed.now }
{
    observed.strength_millidbhz.is_some()
        || is_present(observed.range_mm)
        || is_present(observed.phase_millicycles)
}

/// Returns whether an observation of the code is written, be it the Doppler shift.
#[inline(always)]
pub(crate) fn has_observation_or_doppler(observed: &Observed) -> bool
    ensures { result ≡ has_observation_or_doppler observed.now }
{
    has_observation(observed) || is_present(observed.doppler_millihertz)
}

/// Returns whether an observation of these codes is written.
pub(crate) fn shows_observation(codes: &[Observed]) -> bool
    ensures { result ≡ list_any has_observation codes.now }
{
    for observed in codes {
        if has_observation(observed) {
            return true;
        }
    }
    false
}

/// Returns whether an observation of the satellite is written, so that it has a line.
pub(crate) fn has_line(row: &SatelliteRow) -> bool
    ensures { result ≡ has_line row.now }
{
    shows_observation(row.observed.as_slice())
}

/// Returns the name of a satellite of GPS.
#[inline(always)]
pub(crate) fn gps_name(satellite: u8) -> [u8; 3]
    ensures { result ≡ 71 ∷ last_digits 2 satellite }
{
    let mut name = [b'G'; 3];
    put_pair(&mut name, 1, u64::from(satellite) % 100);
    name
}

/// Ends the line of a satellite of this name, whose columns end here, and returns how long it is.
#[inline(always)]
pub(crate) fn end_line(line: &mut [u8], name: [u8; 3], end: usize) -> usize
    requires name { length name ≡ 3 }
    requires columns { 3 ≤ end }
    requires room { end < length line.old }
    requires blank { drop end line.old ≡ replicate (length line.old - end) 32 }
    ensures text { line.new ≡ ended name line.old ++ replicate (length line.old - result) 32 }
    ensures len { result ≡ length (ended name line.old) }
    ensures within { result ≤ end + 1 }
{
    line[0] = name[0];
    line[1] = name[1];
    line[2] = name[2];
    let len = trimmed_len(&line[..end]);
    line[len] = b'\n';
    len + 1
}

// Writes the columns of the epoch line up to the minute.
fn put_epoch_date(field: &mut [u8], time: Civil)
    requires columns { length field.old ≡ 18 }
    requires year { time.year < 10_000 }
    requires date { (time.month < 100) × (time.day < 100) }
    requires clock { (time.hour < 100) × (time.minute < 100) }
    ensures { field.new ≡ epoch_date_text time }
{
    field.copy_from_slice(b"> yyyy mm dd hh mm");
    put_pair(field, 2, u64::from(time.year / 100));
    put_pair(field, 4, u64::from(time.year % 100));
    put_pair(field, 7, u64::from(time.month));
    put_pair(field, 10, u64::from(time.day));
    put_pair(field, 13, u64::from(time.hour));
    put_pair(field, 16, u64::from(time.minute));
}

// Writes F11.7 of the seconds of a date and time.
fn put_seconds(field: &mut [u8], time: Civil)
    requires columns { length field.old ≡ 11 }
    requires second { time.second < 60 }
    requires millisecond { time.millisecond < 1000 }
    ensures { field.new ≡ right 11 (decimals 7 false (seconds_of time)) }
{
    field.copy_from_slice(b"       0000");
    put_decimal(&mut field[..3], u64::from(time.second));
    put_point_and_three(&mut field[3..7], usize::from(time.millisecond));
}

// Writes the columns of the epoch line after the seconds.
fn put_count(field: &mut [u8], count: usize)
    requires columns { length field.old ≡ 7 }
    requires count { count < 1000 }
    ensures { field.new ≡ codes "  0" ++ (right 3 (decimal count) ++ 10 ∷ []) }
{
    field.copy_from_slice(b"  0   \n");
    put_decimal(&mut field[3..6], count as u64);
}

/// Writes the epoch line of a date and time and a count of satellites over the first columns.
pub(crate) fn put_epoch_line(text: &mut [u8], time: Civil, count: usize)
    requires columns { 36 ≤ length text.old }
    requires year { time.year < 10_000 }
    requires date { (time.month < 100) × (time.day < 100) }
    requires clock { (time.hour < 100) × (time.minute < 100) }
    requires second { time.second < 60 }
    requires millisecond { time.millisecond < 1000 }
    requires count { count < 1000 }
    ensures { text.new ≡ epoch_line time count ++ drop 36 text.old }
{
    put_epoch_date(&mut text[..18], time);
    put_seconds(&mut text[18..29], time);
    put_count(&mut text[29..EPOCH_LINE], count);
}

/// Returns the epoch line of a date and time and a count of satellites.
pub(crate) fn epoch_line(time: Civil, count: usize) -> [u8; EPOCH_LINE]
    requires year { time.year < 10_000 }
    requires date { (time.month < 100) × (time.day < 100) }
    requires clock { (time.hour < 100) × (time.minute < 100) }
    requires second { time.second < 60 }
    requires millisecond { time.millisecond < 1000 }
    requires count { count < 1000 }
    ensures { result ≡ epoch_line time count }
{
    let mut line = [b' '; EPOCH_LINE];
    put_epoch_line(&mut line, time, count);
    line
}
