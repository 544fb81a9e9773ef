//! Columns of a text, and the numbers that they show, read without a test of their form.
//!
//! columns.rt writes these numbers.

ghost use Rattle.std.specs.Prelude.{◌≡◌, ℕ, ◌+◌, ◌*◌, ◌^◌, ◌<◌, ◌≤◌, length, take, drop, Decides};
ghost use Rattle.rtk_rinex.specs.Steps.Digits.{digits_from, has_minus, number_in};
ghost use Rattle.rtk_rinex.specs.Steps.Digits as spec;

/// Returns the first bytes of a text, as many as `width`, or all if it has fewer.
pub(crate) fn front(text: &[u8], width: usize) -> &[u8]
    ensures value { result.now ≡ take width text.now }
    ensures len { length result.now ≤ width }
{
    if text.len() <= width {
        return text;
    }
    text.split_at(width).0
}

/// Returns the bytes of a text from a place on, or no bytes if the text ends before it.
pub(crate) fn after(text: &[u8], from: usize) -> &[u8]
    ensures { result.now ≡ drop from text.now }
{
    text.split_at(text.len().min(from)).1
}

/// Returns the bytes of a text in `width` columns after the first `from`, as far as the text has
/// them.
pub(crate) fn columns_at(text: &[u8], from: usize, width: usize) -> &[u8]
    ensures value { result.now ≡ take width (drop from text.now) }
    ensures len { length result.now ≤ width }
{
    front(after(text, from), width)
}

/// Returns whether two texts are the same. The function only hands on, and it is here for its
/// clause.
pub(crate) fn is_same(text: &[u8], other: &[u8]) -> bool
    ensures { Decides result (text.now ≡ other.now) }
{
    text == other
}

// Returns the number after one more character. A digit is added to it, and any other character is
// passed over.
fn with_digit(value: u64, byte: u8) -> u64
    requires { value < 10 ^ 18 }
    ensures value { result ≡ spec.with_digit value byte }
    ensures bound { result ≤ value * 10 + 9 }
{
    if byte >= b'0' && byte <= b'9' {
        value * 10 + u64::from(byte - b'0')
    } else {
        value
    }
}

/// Returns the number that the digits of a text write, whatever stands between them.
pub(crate) fn number_of_digits(text: &[u8]) -> u64
    requires { length text.now ≤ 18 }
    ensures value { result ≡ digits_from 0 text.now }
    ensures width { result < 10 ^ length text.now }
    ensures bound { result < 10 ^ 18 }
{
    let mut value = 0u64;
    for byte in text {
        value = with_digit(value, *byte);
    }
    value
}

// Returns whether a text has a minus sign.
#[tactic(auto, unfolding(crate::specs::Steps::Digits::has_minus))]
fn contains_minus(text: &[u8]) -> bool
    ensures { result ≡ has_minus text.now }
{
    for byte in text {
        if *byte == b'-' {
            return true;
        }
    }
    false
}

// Returns the number that the digits of a text write, negative if it has a minus sign.
fn number_in(text: &[u8]) -> i64
    requires { length text.now ≤ 18 }
    ensures { result ≡ number_in text.now }
{
    let magnitude = number_of_digits(text) as i64;
    if contains_minus(text) {
        -magnitude
    } else {
        magnitude
    }
}

/// Returns the number that the digits in these columns write.
pub(crate) fn number_at(line: &[u8], from: usize, width: usize) -> u64
    requires { width ≤ 18 }
    ensures value { result ≡ digits_from 0 (take width (drop from line.now)) }
    ensures bound { result < 10 ^ width }
{
    number_of_digits(columns_at(line, from, width))
}

/// Returns the number in 14 columns, negative if they have a minus sign.
pub(crate) fn signed_number_at(line: &[u8], from: usize) -> i64
    ensures { result ≡ number_in (take 14 (drop from line.now)) }
{
    number_in(columns_at(line, from, 14))
}
