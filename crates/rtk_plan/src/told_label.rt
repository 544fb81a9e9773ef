//! The label of what messages told of the station's antenna and receiver.

ghost use Rattle.std.specs.Prelude.{◌≡◌, ◌<◌, ◌-◌, List, None, true, false, length, get_or, IfOk};
ghost use Rattle.std.specs.List.{list_all, suffix_len};
ghost use Rattle.rtk_plan.specs.ToldLabel as spec;

use crate::wanted::Ways;
use rtk_label::{Label, LabelParts};
use rtk_survey::{Equipment, Text};

// A text without the blanks at its begin.
fn without_leading(text: &[u8]) -> &[u8]
    ensures { result.now ≡ spec.without_leading text.now }
{
    let mut at = 0;
    while at < text.len() && text[at] == b' ' {
        at += 1;
    }
    &text[at..]
}

// The place behind the last byte of a text that is no blank.
fn trailing_place(text: &[u8]) -> usize
    ensures { result ≡ length text.now - suffix_len spec.is_blank text.now }
{
    let mut place = text.len();
    while 0 < place && text[place - 1] == b' ' {
        place -= 1;
    }
    place
}

fn without_trailing(text: &[u8]) -> &[u8]
    ensures { result.now ≡ spec.without_trailing text.now }
{
    &text[..trailing_place(text)]
}

/// A text without the blanks at its begin and at its end.
pub(crate) fn trimmed(text: &[u8]) -> &[u8]
    ensures { result.now ≡ spec.trimmed text.now }
{
    without_trailing(without_leading(text))
}

fn is_printed(byte: u8) -> bool
    ensures { result ≡ spec.is_printed byte }
{
    0x20 <= byte && byte <= 0x7E
}

/// Are all bytes printable ASCII?
pub(crate) fn are_printed(text: &[u8]) -> bool
    ensures { result ≡ list_all spec.is_printed text.now }
{
    text.iter().all(|byte| is_printed(*byte))
}

/// Does a text fit the 20 columns of a field?
pub(crate) fn fits_field(text: &[u8]) -> bool
    ensures { result ≡ spec.fits_field text.now }
{
    let len = text.len();
    0 < len && len <= 20 && are_printed(text) && text[0] != b' ' && text[len - 1] != b' '
}

// The byte at a place; a blank if there is none.
fn byte_or_blank(text: &[u8], place: usize) -> u8
    ensures { result ≡ get_or text.now place 32 }
{
    text.get(place).copied().unwrap_or(b' ')
}

// Does a text name an antenna that stands for none?
fn is_null_antenna(text: &[u8]) -> bool
    ensures { result ≡ spec.is_null_antenna text.now }
{
    (text.starts_with(b"GPPNULLANTENNA") || text.starts_with(b"ADVNULLANTENNA"))
        && byte_or_blank(text, 14) == b' '
}

/// Does the text that was told name an antenna that stands for none?
pub(crate) fn is_null_told(text: &Option<Text>) -> bool
    ensures { result ≡ spec.is_null_told text.now }
{
    match text {
        Some(text) => is_null_antenna(trimmed(text.as_slice())),
        None => false,
    }
}

// The field of a text that is trimmed, blank if it does not fit.
fn field_if_fits(text: &[u8]) -> &[u8]
    ensures { result.now ≡ spec.field_if_fits text.now }
{
    if fits_field(text) { text } else { b"" }
}

// The field of a text.
fn field_of(text: &[u8]) -> &[u8]
    ensures { result.now ≡ spec.field_of text.now }
{
    field_if_fits(trimmed(text))
}

fn field_told(text: &Option<Text>) -> &[u8]
    ensures { result.now ≡ spec.field_told text.now }
{
    match text {
        Some(text) => field_of(text.as_slice()),
        None => b"",
    }
}

// The field of an antenna, blank if it stands for none.
fn antenna_field<'a>(told: &Equipment, text: &'a Option<Text>) -> &'a [u8]
    ensures { result.now ≡ spec.antenna_field told.now text.now }
{
    if is_null_told(&told.antenna_type.last) {
        b""
    } else {
        field_told(text)
    }
}

/// The fields of what was told; those that no message tells are blank.
pub(crate) fn parts_told(told: &Equipment) -> LabelParts<'_>
    ensures { result ≡ spec.label_told told.now }
{
    LabelParts {
        receiver_number: field_told(&told.receiver_serial.last),
        receiver_type: field_told(&told.receiver_type.last),
        receiver_version: field_told(&told.receiver_version.last),
        antenna_number: antenna_field(told, &told.antenna_serial.last),
        antenna_type: antenna_field(told, &told.antenna_type.last),
        ..LabelParts::blank()
    }
}

// Is no field filled of those that messages tell?
fn is_untold(parts: &LabelParts<'_>) -> bool
    ensures { result ≡ spec.is_untold parts.now }
{
    parts.antenna_type.len() == 0
        && parts.antenna_number.len() == 0
        && parts.receiver_type.len() == 0
        && parts.receiver_version.len() == 0
        && parts.receiver_number.len() == 0
}

// The label of what was told, if a field is filled.
fn label_if_any(told: &Equipment) -> Option<Label>
    ensures { result ≡ spec.label_if_any told.now }
{
    let parts = parts_told(told);
    if is_untold(&parts) {
        return None;
    }
    let Ok(label) = Label::new(&parts) else {
        unreachable!();
    };
    Some(label)
}

/// The label that the file of a station gets that told this, if it is asked for and something fits.
pub fn label_wanted(told: &Equipment, ways: &Ways<'_>) -> Option<Label>
    ensures asked { ways.now.label ≡ true → result ≡ spec.label_if_any told.now }
    ensures not_asked { ways.now.label ≡ false → result ≡ None }
{
    if ways.label { label_if_any(told) } else { None }
}
