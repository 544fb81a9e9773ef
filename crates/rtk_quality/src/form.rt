//! The three forms of a text: a table, lines, and JSON.

ghost use Rattle.std.specs.Prelude.{◌≡◌, ◌≤◌, ◌-◌, ◌++◌, ℕ, List, length, OnOk};
ghost use Rattle.rtk_obs.specs.CivilText.{civil_text};
ghost use Rattle.rtk_quality.specs.Forms.{in_form, padded, lined_up, point_text, line_number, json_number, value_text, moment_text, name_text, start_text, end_text, json_character, json_text};

use crate::columns::pad_from;
use rtk_message::put_number;
use rtk_obs::{Civil, put_civil, three_digits, two_digits};
use std::alloc::AllocError;

/// The form of a text.
#[derive(Clone, Copy, Debug, PartialEq, Eq)]
pub enum Form {
    /// A table of at most 80 columns, as long as no number is wider than its column.
    Table,
    /// Lines, each of which begins with a keyword.
    Lines,
    /// One JSON object: an object of the file, and arrays of objects that stand for the further lines.
    Json,
}

/// How wide a word and its value are in the heading of a table, the line end before the word included.
const HEADING_WIDTH: usize = 44;

/// The unit of a number, by the digits behind its point.
#[derive(Clone, Copy)]
pub(crate) enum Decimals {
    Whole,
    Tenths,
    Hundredths,
    Thousandths,
}

// Appends a number of such units with its point.
fn put_point(text: &mut Vec<u8>, decimals: Decimals, number: u64) -> Result<(), AllocError>
    ensures { OnOk result (text.new.items ≡ text.old.items ++ point_text decimals number) }
{
    match decimals {
        Decimals::Whole => put_number(text, number),
        Decimals::Tenths => {
            put_number(text, number / 10)?;
            text.extend_from_slice(&[b'.', b'0' + (number % 10) as u8])
        }
        Decimals::Hundredths => {
            put_number(text, number / 100)?;
            text.push(b'.')?;
            text.extend_from_slice(&two_digits((number % 100) as u8))
        }
        Decimals::Thousandths => {
            put_number(text, number / 1000)?;
            text.push(b'.')?;
            text.extend_from_slice(&three_digits((number % 1000) as u16))
        }
    }
}

/// Appends a number in decimal, or a hyphen if there is none.
pub(crate) fn put_line_number(
    text: &mut Vec<u8>,
    decimals: Decimals,
    number: Option<u64>,
) -> Result<(), AllocError>
    ensures { OnOk result (text.new.items ≡ text.old.items ++ line_number decimals number) }
{
    match number {
        Some(number) => put_point(text, decimals, number),
        None => text.extend_from_slice(b"-"),
    }
}

fn put_json_number(text: &mut Vec<u8>, number: Option<u64>) -> Result<(), AllocError>
    ensures { OnOk result (text.new.items ≡ text.old.items ++ json_number number) }
{
    match number {
        Some(number) => put_number(text, number),
        None => text.extend_from_slice(b"null"),
    }
}

// Moves what was appended after words from a place on to the right, up to the end of its column.
fn line_up(text: &mut Vec<u8>, at: usize, words: &[u8]) -> Result<(), AllocError>
    requires { at ≤ length text.old.items }
    ensures { OnOk result ((before value : List ℕ) → length before ≡ at → text.old.items ≡ before ++ value
        → text.new.items ≡ before ++ padded (44 - length words.now) value) }
{
    pad_from(text, at, HEADING_WIDTH.saturating_sub(words.len()))
}

// Appends a number of the heading of a table after its words.
fn put_lined_up(
    text: &mut Vec<u8>,
    words: &[u8],
    decimals: Decimals,
    number: Option<u64>,
) -> Result<(), AllocError>
    ensures { OnOk result (text.new.items ≡ text.old.items ++ lined_up words.now (line_number decimals number)) }
{
    text.extend_from_slice(words)?;
    let at = text.len();
    put_line_number(text, decimals, number)?;
    line_up(text, at, words)?;
    Ok(())
}

// Appends a moment of the heading of a table after its words.
fn put_moment_lined_up(text: &mut Vec<u8>, words: &[u8], reading: Civil) -> Result<(), AllocError>
    ensures { OnOk result (text.new.items ≡ text.old.items ++ lined_up words.now (civil_text reading)) }
{
    text.extend_from_slice(words)?;
    let at = text.len();
    put_civil(text, reading)?;
    line_up(text, at, words)?;
    Ok(())
}

/// Appends a number after its words in the heading of a table or in a line, or after its key.
#[tactic(auto, unfolding(crate::specs::Forms::value_text))]
pub(crate) fn put_value(
    text: &mut Vec<u8>,
    form: Form,
    words: &[u8],
    key: &[u8],
    decimals: Decimals,
    number: Option<u64>,
) -> Result<(), AllocError>
    ensures { OnOk result (text.new.items ≡ text.old.items ++ value_text form words.now key.now decimals number) }
{
    match form {
        Form::Table => put_lined_up(text, words, decimals, number),
        Form::Lines => {
            text.extend_from_slice(words)?;
            put_line_number(text, decimals, number)
        }
        Form::Json => {
            text.extend_from_slice(key)?;
            put_json_number(text, number)
        }
    }
}

/// Returns the same number in 64 bits.
pub(crate) fn widened(number: Option<u32>) -> Option<u64>
    ensures { result ≡ number }
{
    match number {
        Some(number) => Some(u64::from(number)),
        None => None,
    }
}

/// Appends the same of a number of 32 bits.
pub(crate) fn put_narrow(
    text: &mut Vec<u8>,
    form: Form,
    words: &[u8],
    key: &[u8],
    decimals: Decimals,
    number: Option<u32>,
) -> Result<(), AllocError>
    ensures { OnOk result (text.new.items ≡ text.old.items ++ value_text form words.now key.now decimals number) }
{
    put_value(text, form, words, key, decimals, widened(number))
}

/// Appends a moment after its words in the heading of a table or in a line, or after its key.
#[tactic(auto, unfolding(crate::specs::Forms::moment_text))]
pub(crate) fn put_moment(
    text: &mut Vec<u8>,
    form: Form,
    words: &[u8],
    key: &[u8],
    reading: Civil,
) -> Result<(), AllocError>
    ensures { OnOk result (text.new.items ≡ text.old.items ++ moment_text form words.now key.now reading) }
{
    match form {
        Form::Table => put_moment_lined_up(text, words, reading),
        Form::Lines => {
            text.extend_from_slice(words)?;
            put_civil(text, reading)
        }
        Form::Json => {
            text.extend_from_slice(key)?;
            text.push(b'"')?;
            put_civil(text, reading)?;
            text.push(b'"')?;
            Ok(())
        }
    }
}

/// Appends a name after a blank in a line, or after its key.
#[tactic(auto, unfolding(crate::specs::Forms::name_text))]
pub(crate) fn put_name(
    text: &mut Vec<u8>,
    form: Form,
    key: &[u8],
    name: &[u8],
) -> Result<(), AllocError>
    ensures { OnOk result (text.new.items ≡ text.old.items ++ name_text form key.now name.now) }
{
    match form {
        Form::Table | Form::Lines => {
            text.push(b' ')?;
            text.extend_from_slice(name)
        }
        Form::Json => {
            text.extend_from_slice(key)?;
            text.extend_from_slice(name)?;
            text.push(b'"')?;
            Ok(())
        }
    }
}

/// Appends a text in a table or a line, or another one in JSON.
pub(crate) fn put_either(
    text: &mut Vec<u8>,
    form: Form,
    line: &[u8],
    json: &[u8],
) -> Result<(), AllocError>
    ensures { OnOk result (text.new.items ≡ text.old.items ++ in_form form line.now json.now) }
{
    match form {
        Form::Table | Form::Lines => text.extend_from_slice(line),
        Form::Json => text.extend_from_slice(json),
    }
}

/// Appends the start of a line.
#[tactic(auto, unfolding(crate::specs::Forms::start_text))]
pub(crate) fn put_start(text: &mut Vec<u8>, form: Form, keyword: &[u8]) -> Result<(), AllocError>
    ensures { OnOk result (text.new.items ≡ text.old.items ++ start_text form keyword.now) }
{
    match form {
        Form::Table | Form::Lines => text.extend_from_slice(keyword),
        Form::Json => text.extend_from_slice(b",\n{"),
    }
}

/// Appends the end of a line.
pub(crate) fn put_end(text: &mut Vec<u8>, form: Form) -> Result<(), AllocError>
    ensures { OnOk result (text.new.items ≡ text.old.items ++ end_text form) }
{
    match form {
        Form::Table | Form::Lines => text.extend_from_slice(b"\n"),
        Form::Json => text.extend_from_slice(b"}"),
    }
}

fn put_json_character(text: &mut Vec<u8>, character: u8) -> Result<(), AllocError>
    ensures { OnOk result (text.new.items ≡ text.old.items ++ json_character character) }
{
    if character == b'"' || character == b'\\' {
        return text.extend_from_slice(&[b'\\', character]);
    }
    text.extend_from_slice(&[character])
}

/// Appends a text of characters from blank to tilde, as it stands between quotes.
pub(crate) fn put_json_text(text: &mut Vec<u8>, words: &[u8]) -> Result<(), AllocError>
    ensures { OnOk result (text.new.items ≡ text.old.items ++ json_text words.now) }
{
    for character in words {
        put_json_character(text, *character)?;
    }
    Ok(())
}
