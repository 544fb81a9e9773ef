//! The columns of an observation that are known to show one, read without a test of their form.
//!
//! value_check.rt tells whether columns show one.

ghost use Rattle.std.specs.Prelude.{◌≡◌, ◌≢◌, ℕ, ℤ, pos, Bool, ◌+◌, ◌*◌, ◌^◌, ◌%◌, ◌<◌, ◌≤◌, length, get_or, take, Option, IsTrue};
ghost use Rattle.rtk_rinex.specs.Columns.{left};
ghost use Rattle.rtk_rinex.specs.Record.{observation, observations, observations_with_doppler, strength_value, lli_digit, IsStrengthOrNone};
ghost use Rattle.rtk_rinex.specs.Table.{IsAbsentOrWritten, IsObserved, IsObservedWithDoppler};
ghost use Rattle.rtk_rinex.specs.Steps.Digits.{padded_digits_from};
ghost use Rattle.rtk_rinex.specs.declared.epoch_table.Observed.{Observed};

use crate::epoch_table::Observed;
use crate::value_check::written_value;

// Returns the number after one more blank or digit. A blank has the low bits of a 0.
fn with_padded_digit(value: u64, byte: u8) -> u64
    requires { value < 10 ^ 18 }
    ensures value { result ≡ value * 10 + byte % 16 }
    ensures bound { result ≤ value * 10 + 15 }
{
    value * 10 + u64::from(byte % 16)
}

// Returns the number whose digits stand at the end of a text, after blanks.
#[inline(always)]
fn number_of_padded_digits(text: &[u8]) -> u64
    requires { length text.now ≤ 10 }
    ensures value { result ≡ padded_digits_from 0 text.now }
    ensures bound { result < 2 * 10 ^ 10 }
{
    let mut value = 0u64;
    for byte in text {
        value = with_padded_digit(value, *byte);
    }
    value
}

// Returns whether a value that is written in these columns has eight digits or more before the point, and no sign.
// Ranges and phases of satellites are such.
fn is_long_without_sign(columns: &[u8]) -> bool
    requires { length columns.now ≡ 16 }
    ensures { IsTrue result → (48 ≤ get_or columns.now 2 0) × (get_or columns.now 1 0 ≢ 45) × (get_or columns.now 0 0 ≢ 45) }
{
    columns[2] >= b'0' && columns[1] != b'-' && columns[0] != b'-'
}

// Returns a number as a value.
fn without_sign(magnitude: u64) -> i64
    requires { magnitude < 10 ^ 14 }
    ensures { result ≡ pos magnitude }
{
    magnitude as i64
}

// Reads the value that 16 columns show, or that they show none.
#[inline(always)]
fn read_value(columns: &[u8]) -> Option<i64>
    requires { length columns.now ≡ 16 }
    ensures { (v : Option ℤ) (first second : ℕ) → IsAbsentOrWritten v → columns.now ≡ observation v first second → result ≡ v }
{
    if columns[13] == b' ' {
        return None;
    }
    if !is_long_without_sign(columns) {
        return written_value(columns.split_at(14).0);
    }
    let whole = number_of_padded_digits(&columns[..10]);
    let decimals = number_of_padded_digits(&columns[11..14]);
    Some(without_sign(whole * 1000 + decimals))
}

// Reads the signal strength in thousandths of a dB-Hz that columns show, or that they show none. It is below 100 dB-Hz.
#[inline(always)]
fn read_strength(columns: &[u8]) -> Option<u32>
    requires { 14 ≤ length columns.now }
    ensures { (s : Option ℕ) → IsStrengthOrNone s → take 14 columns.now ≡ take 14 (observation (strength_value s) 32 32) → result ≡ s }
{
    if columns[13] == b' ' {
        return None;
    }
    let whole = u32::from(columns[8] % 16) * 10 + u32::from(columns[9] % 16);
    let tenths = u32::from(columns[11] % 16) * 10 + u32::from(columns[12] % 16);
    Some(whole * 1000 + tenths * 10 + u32::from(columns[13] % 16))
}

// Reads the slip and the half-cycle ambiguity that a loss-of-lock digit shows.
fn read_lock(digit: u8) -> (bool, bool)
    ensures { (slip half : Bool) → digit ≡ lli_digit slip half → (result.0 ≡ slip) × (result.1 ≡ half) }
{
    match digit {
        b'1' => (true, false),
        b'2' => (false, true),
        b'3' => (true, true),
        _ => (false, false),
    }
}

/// Reads what the columns of a code show. The two blanks after the strength may be missing.
pub(crate) fn read_observed(columns: &[u8]) -> Observed
    requires { 46 ≤ length columns.now }
    ensures { (o : Observed) → IsObserved o → left 48 columns.now ≡ observations o → result ≡ o }
{
    let (range, others) = columns.split_at(16);
    let (phase, strength) = others.split_at(16);
    let (slip, half) = read_lock(phase[14]);
    let range_mm = read_value(range);
    let phase_millicycles = read_value(phase);
    let strength_millidbhz = read_strength(strength);
    Observed {
        range_mm,
        phase_millicycles,
        doppler_millihertz: None,
        strength_millidbhz,
        slip,
        half,
    }
}

/// Reads what the columns of a code show in a file with Doppler shifts. The two blanks after the strength may be missing.
pub(crate) fn read_with_doppler(columns: &[u8]) -> Observed
    requires { 62 ≤ length columns.now }
    ensures { (o : Observed) → IsObservedWithDoppler o → left 64 columns.now ≡ observations_with_doppler o → result ≡ o }
{
    let (range, others) = columns.split_at(16);
    let (phase, last) = others.split_at(16);
    let (shift, strength) = last.split_at(16);
    let (slip, half) = read_lock(phase[14]);
    let range_mm = read_value(range);
    let phase_millicycles = read_value(phase);
    let doppler_millihertz = read_value(shift);
    let strength_millidbhz = read_strength(strength);
    Observed {
        range_mm,
        phase_millicycles,
        doppler_millihertz,
        strength_millidbhz,
        slip,
        half,
    }
}
