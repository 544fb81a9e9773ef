//! Fields in columns: what may stand in them, and what columns show.

ghost use Rattle.std.specs.Prelude.{◌≡◌, ◌≢◌, ◌+◌, ◌≤◌, ◌<◌, length, take, drop, replicate, All, Decides, slice_index};
ghost use Rattle.std.specs.Int.{IsInRange};
ghost use Rattle.rtk_rinex.specs.Record.{trim_end};
ghost use Rattle.rtk_rinex.specs.Columns.{IsField};
ghost use Rattle.rtk_label.specs.Fields.{IsSign, AreDigits, IsSigned, IsOffset};
ghost use Rattle.rtk_label.specs.Steps.Shown.{IsFieldIn, IsOffsetIn};

use arrayvec::ArrayVec;
use rtk_rinex::is_field;

/// The bytes of a field; no bytes if it is blank.
pub(crate) type Field = ArrayVec<u8, 40>;

/// A field of these bytes.
pub(crate) fn field_of(text: &[u8]) -> Field
    requires { length text.now ≤ 40 }
    ensures { result.items ≡ text.now }
{
    let mut field = ArrayVec::new();
    if field.try_extend_from_slice(text).is_err() {
        unreachable!();
    }
    field
}

/// The bytes of a text from a place on; no bytes if the text ends before it.
pub(crate) fn after(text: &[u8], from: usize) -> &[u8]
    ensures { result.now ≡ drop from text.now }
{
    text.split_at(text.len().min(from)).1
}

/// The bytes of a text in `width` columns after the first `from`, as far as the text has them.
pub(crate) fn columns_at(text: &[u8], from: usize, width: usize) -> &[u8]
    ensures value { result.now ≡ take width (drop from text.now) }
    ensures len { length result.now ≤ width }
    ensures whole { from + width ≤ length text.now → length result.now ≡ width }
{
    let rest = after(text, from);
    rest.split_at(rest.len().min(width)).0
}

/// Are two texts the same?
pub(crate) fn is_same(text: &[u8], other: &[u8]) -> bool
    ensures { Decides result (text.now ≡ other.now) }
{
    text == other
}

fn are_digits(text: &[u8]) -> bool
    ensures { Decides result (AreDigits text.now) }
{
    for byte in text {
        if *byte < b'0' || *byte > b'9' {
            return false;
        }
    }
    true
}

fn is_sign(byte: u8) -> bool
    ensures { Decides result (IsSign byte) }
{
    byte == b'+' || byte == b'-'
}

// A sign, one to four digits, a point and four digits.
fn is_signed(text: &[u8]) -> bool
    ensures { Decides result (IsSigned text.now) }
{
    if text.len() < 7 || text.len() > 10 {
        return false;
    }
    let point = text.len() - 5;
    is_sign(text[0])
        && text[point] == b'.'
        && are_digits(&text[1..point])
        && are_digits(&text[point + 1..])
}

/// Is a text an offset, or blank?
pub(crate) fn is_offset(text: &[u8]) -> bool
    ensures { Decides result (IsOffset text.now) }
{
    text.len() == 0 || is_signed(text)
}

// The number of bytes before the blanks at the end.
fn trimmed_len(bytes: &[u8]) -> usize
    ensures within { result ≤ length bytes.now }
    ensures value { take result bytes.now ≡ trim_end bytes.now }
{
    let mut end = bytes.len();
    while end > 0 && bytes[end - 1] == b' ' {
        end -= 1;
    }
    end
}

/// The field whose columns these are; a blank one if they are the columns of none.
pub(crate) fn read_field(columns: &[u8]) -> Field
    requires { length columns.now ≤ 40 }
    ensures { IsFieldIn (length columns.now) columns.now result.items }
{
    let shown = columns.split_at(trimmed_len(columns)).0;
    if !is_field(shown, columns.len()) {
        return ArrayVec::new();
    }
    field_of(shown)
}

// The number of blanks at the begin.
fn blank_count(columns: &[u8]) -> usize
    ensures within { result ≤ length columns.now }
    ensures blanks { take result columns.now ≡ replicate result 32 }
    ensures most { result < length columns.now → slice_index columns.now result ≢ 32 }
{
    for k in 0..columns.len() {
        if columns[k] != b' ' {
            return k;
        }
    }
    columns.len()
}

/// The offset whose columns these are; a blank one if they are the columns of none.
pub(crate) fn read_offset(columns: &[u8]) -> Field
    requires { length columns.now ≡ 14 }
    ensures { IsOffsetIn columns.now result.items }
{
    let shown = columns.split_at(blank_count(columns)).1;
    if !is_offset(shown) {
        return ArrayVec::new();
    }
    field_of(shown)
}
