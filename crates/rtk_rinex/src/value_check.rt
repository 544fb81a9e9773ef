//! The columns of an observation, told by their form.

ghost use Rattle.std.specs.Prelude.{◌≡◌, ◌≢◌, ℕ, ℤ, pos, neg_ℤ, Bool, ◌+◌, ◌*◌, ◌^◌, ◌<◌, ◌≤◌, ◌++◌, [], ◌∷◌, length, slice_get, Some, replicate, decimal, if◌then◌else◌, IsTrue, ◌↔◌, IfSome, MatchOption, Option};
ghost use Rattle.std.specs.Fmt.{sign_text};
ghost use Rattle.rtk_obs.specs.CivilText.{last_digits};
ghost use Rattle.rtk_rinex.specs.Columns.{right, fixed};
ghost use Rattle.rtk_rinex.specs.Record.{is_written, observation, observations, observations_with_doppler, strength_value, lli_digit, IsStrengthOrNone};
ghost use Rattle.rtk_rinex.specs.Table.{IsAbsentOrWritten, IsLock, IsObserved, IsObservedWithDoppler};
ghost use Rattle.rtk_rinex.specs.declared.epoch_table.Observed.{Observed};

use crate::digits::is_same;
use crate::epoch_table::Observed;
use crate::record_text::digit_of_strength;

// The least signal strength of a message in thousandths of a dB-Hz, which is also the step between
// two of them.
const LEAST_STRENGTH: u64 = 250;

// The greatest signal strength of a message in thousandths of a dB-Hz.
const GREATEST_STRENGTH: u64 = 63_750;

// The columns of a value that is not written, and of its digits.
const BLANKS: [u8; 16] = [b' '; 16];

// Returns the digit that a character writes.
fn digit_of(byte: u8) -> Option<u64>
    ensures { MatchOption result ((d : ℕ) → d < 10 → byte ≢ 48 + d) (λ d. (d < 10) × (byte ≡ 48 + d)) }
{
    if byte >= b'0' && byte <= b'9' {
        Some(u64::from(byte - b'0'))
    } else {
        None
    }
}

// Returns the text after the blanks at its front.
fn after_blanks(text: &[u8]) -> &[u8]
    ensures blanks { (k : ℕ) × (text.now ≡ replicate k 32 ++ result.now) × (slice_get result.now 0 ≢ Some 32) }
    ensures len { length result.now ≤ length text.now }
{
    let mut start = 0;
    while start < text.len() && text[start] == b' ' {
        start += 1;
    }
    text.split_at(start).1
}

// Returns the number whose decimal digits a text is.
fn number_of_decimal(text: &[u8]) -> Option<u64>
    requires { length text.now ≤ 10 }
    ensures value { MatchOption result ((n : ℕ) → n < 10 ^ 10 → text.now ≢ decimal n) (λ n. text.now ≡ decimal n) }
    ensures bound { IfSome result (λ n. n < 10 ^ length text.now) }
{
    let [first, others @ ..] = text else {
        return None;
    };
    let mut number = digit_of(*first)?;
    if others.len() == 0 {
        return Some(number);
    }
    if number == 0 {
        return None;
    }
    for byte in others {
        number = number * 10 + digit_of(*byte)?;
    }
    Some(number)
}

// Returns the sign and the number that stand at the right end of ten columns.
fn signed_number(columns: &[u8]) -> Option<(bool, u64)>
    requires { length columns.now ≡ 10 }
    ensures value { MatchOption result
        ((negative : Bool) (n : ℕ) → n < 10 ^ 10 → columns.now ≢ right 10 (sign_text negative ++ decimal n))
        (λ s. columns.now ≡ right 10 (sign_text s.0 ++ decimal s.1)) }
    ensures bound { IfSome result (λ s. s.1 < (if s.0 then 10 ^ 9 else 10 ^ 10)) }
{
    let text = after_blanks(columns);
    if text.len() > 0 && text[0] == b'-' {
        Some((true, number_of_decimal(&text[1..])?))
    } else {
        Some((false, number_of_decimal(text)?))
    }
}

// Returns the number below 1000 whose three digits a text is.
fn number_of_three(text: &[u8]) -> Option<u64>
    ensures { MatchOption result ((n : ℕ) → text.now ≢ last_digits 3 n) (λ n. (n < 1000) × (text.now ≡ last_digits 3 n)) }
{
    let [hundreds, tens, units] = text else {
        return None;
    };
    Some(digit_of(*hundreds)? * 100 + digit_of(*tens)? * 10 + digit_of(*units)?)
}

// Returns a number with this sign.
fn with_sign(negative: bool, magnitude: u64) -> i64
    requires { magnitude < 10 ^ 13 }
    ensures { result ≡ (if negative then neg_ℤ (pos magnitude) else pos magnitude) }
{
    let number = magnitude as i64;
    if negative { -number } else { number }
}

/// Returns the value in thousandths that stands in 14 columns as F14.3.
pub(crate) fn written_value(field: &[u8]) -> Option<i64>
    requires { length field.now ≡ 14 }
    ensures { MatchOption result
        ((v : ℤ) → IsTrue (is_written v) → field.now ≢ fixed 3 14 v)
        (λ v. IsTrue (is_written v) × (field.now ≡ fixed 3 14 v)) }
{
    let (columns, decimals) = field.split_at(10);
    if decimals[0] != b'.' {
        return None;
    }
    let (negative, whole) = signed_number(columns)?;
    let magnitude = whole * 1000 + number_of_three(&decimals[1..])?;
    if magnitude == 0 {
        return None;
    }
    Some(with_sign(negative, magnitude))
}

// Returns the value that 16 columns show, with these digits after it, or that they show none.
fn shown_observation(columns: &[u8], first: u8, second: u8) -> Option<Option<i64>>
    requires { length columns.now ≡ 16 }
    ensures { MatchOption result
        ((v : Option ℤ) → IsAbsentOrWritten v → columns.now ≢ observation v first second)
        (λ v. IsAbsentOrWritten v × (columns.now ≡ observation v first second)) }
{
    if is_same(columns, &BLANKS) {
        return Some(None);
    }
    let (field, digits) = columns.split_at(14);
    if digits[0] != first || digits[1] != second {
        return None;
    }
    Some(Some(written_value(field)?))
}

// Returns whether this is a signal strength of a message, in thousandths of a dB-Hz.
fn is_strength(strength: u64) -> bool
    ensures { IsTrue result ↔ IsStrengthOrNone (Some strength) }
{
    strength >= LEAST_STRENGTH && strength <= GREATEST_STRENGTH && strength % LEAST_STRENGTH == 0
}

// Returns the signal strength of a message that a value is.
fn strength_of(value: i64) -> Option<u32>
    ensures { MatchOption result
        ((s : ℕ) → IsStrengthOrNone (Some s) → value ≢ pos s)
        (λ s. IsStrengthOrNone (Some s) × (value ≡ pos s)) }
{
    if value < 0 {
        return None;
    }
    let strength = value.unsigned_abs();
    if !is_strength(strength) {
        return None;
    }
    Some(strength as u32)
}

// Returns the signal strength in thousandths of a dB-Hz that 16 columns show, or that they show
// none.
fn shown_strength(columns: &[u8]) -> Option<Option<u32>>
    requires { length columns.now ≡ 16 }
    ensures { MatchOption result
        ((s : Option ℕ) → IsStrengthOrNone s → columns.now ≢ observation (strength_value s) 32 32)
        (λ s. IsStrengthOrNone s × (columns.now ≡ observation (strength_value s) 32 32)) }
{
    let Some(value) = shown_observation(columns, b' ', b' ')? else {
        return Some(None);
    };
    Some(Some(strength_of(value)?))
}

// Returns the slip and the half-cycle ambiguity that a loss-of-lock digit shows.
fn shown_lock(digit: u8) -> Option<(bool, bool)>
    ensures { MatchOption result
        ((slip half : Bool) → digit ≢ lli_digit slip half)
        (λ lock. digit ≡ lli_digit lock.0 lock.1) }
{
    match digit {
        b' ' => Some((false, false)),
        b'1' => Some((true, false)),
        b'2' => Some((false, true)),
        b'3' => Some((true, true)),
        _ => None,
    }
}

/// Returns what 48 columns show of a code, or `None` exactly if nothing that a code can show is
/// written so.
pub(crate) fn shown_observed(columns: &[u8]) -> Option<Observed>
    requires { length columns.now ≡ 48 }
    ensures { MatchOption result
        ((o : Observed) → IsObserved o → columns.now ≢ observations o)
        (λ o. IsObserved o × (columns.now ≡ observations o)) }
{
    let (range, others) = columns.split_at(16);
    let (phase, strength) = others.split_at(16);
    let strength = shown_strength(strength)?;
    let digit = digit_of_strength(strength);
    let (slip, half) = shown_lock(phase[14])?;
    let range_mm = shown_observation(range, b' ', digit)?;
    let phase_millicycles = shown_observation(phase, phase[14], digit)?;
    Some(Observed {
        range_mm,
        phase_millicycles,
        doppler_millihertz: None,
        strength_millidbhz: strength,
        slip,
        half,
    })
}

/// Returns what 64 columns show of a code in a file with Doppler shifts, or `None` exactly if nothing that a code can
/// show there is written so.
pub(crate) fn shown_with_doppler(columns: &[u8]) -> Option<Observed>
    requires { length columns.now ≡ 64 }
    ensures { MatchOption result
        ((o : Observed) → IsObservedWithDoppler o → columns.now ≢ observations_with_doppler o)
        (λ o. IsObservedWithDoppler o × (columns.now ≡ observations_with_doppler o)) }
{
    let (range, others) = columns.split_at(16);
    let (phase, last) = others.split_at(16);
    let (shift, strength) = last.split_at(16);
    let strength = shown_strength(strength)?;
    let digit = digit_of_strength(strength);
    let (slip, half) = shown_lock(phase[14])?;
    let range_mm = shown_observation(range, b' ', digit)?;
    let phase_millicycles = shown_observation(phase, phase[14], digit)?;
    let doppler_millihertz = shown_observation(shift, b' ', b' ')?;
    Some(Observed {
        range_mm,
        phase_millicycles,
        doppler_millihertz,
        strength_millidbhz: strength,
        slip,
        half,
    })
}
