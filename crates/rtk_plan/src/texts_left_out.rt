//! The texts that messages told last of the antenna and the receiver, and that a label does not have.
//!
//! If memory is refused, a first part of what is put may stand there.

ghost use Rattle.std.specs.Prelude.{◌≡◌, ◌++◌, OnOk};
ghost use Rattle.rtk_plan.specs.TextsLeftOut as spec;

use crate::told_label::{are_printed, fits_field, is_null_told, trimmed};
use rtk_survey::{Equipment, Text, put_shown};
use std::alloc::AllocError;

// Why a text has no field in a label; nothing if it has one, or if it is empty.
fn reason(text: &[u8]) -> &'static [u8]
    ensures { result.now ≡ spec.reason text.now }
{
    if text.len() == 0 || fits_field(text) {
        return b"";
    }
    if are_printed(text) {
        b" has more than 20 characters: "
    } else {
        b" has characters that are no printable ASCII: "
    }
}

fn put_field_and_reason(lines: &mut Vec<u8>, field: &[u8], reason: &[u8]) -> Result<(), AllocError>
    ensures { OnOk result (lines.new.items ≡ lines.old.items ++ spec.field_and_reason field.now reason.now) }
{
    lines.extend_from_slice(b" not-in-label ")?;
    lines.extend_from_slice(field)?;
    lines.extend_from_slice(reason)?;
    Ok(())
}

// Appends a field, a reason and a text as a line, if there is a reason.
fn put_line_of(
    lines: &mut Vec<u8>,
    field: &[u8],
    reason: &[u8],
    text: &[u8],
) -> Result<(), AllocError>
    ensures { OnOk result (lines.new.items ≡ lines.old.items ++ spec.left_out_line field.now reason.now text.now) }
{
    if reason.len() == 0 {
        return Ok(());
    }
    put_field_and_reason(lines, field, reason)?;
    put_shown(lines, text)?;
    lines.push(b'\n')?;
    Ok(())
}

// Appends the line of a text that a field can't have.
fn put_text(lines: &mut Vec<u8>, field: &[u8], text: &Option<Text>) -> Result<(), AllocError>
    ensures { OnOk result (lines.new.items ≡ lines.old.items ++ spec.unfit_line field.now text.now) }
{
    match text {
        Some(text) => {
            let text = trimmed(text.as_slice());
            put_line_of(lines, field, reason(text), text)
        }
        None => Ok(()),
    }
}

// Appends the line of a text that is left out for this reason, if the text is not empty.
fn put_without_antenna(
    lines: &mut Vec<u8>,
    field: &[u8],
    reason: &[u8],
    text: &Option<Text>,
) -> Result<(), AllocError>
    ensures { OnOk result (lines.new.items ≡ lines.old.items ++ spec.line_without_antenna field.now reason.now text.now) }
{
    let Some(text) = text else {
        return Ok(());
    };
    let text = trimmed(text.as_slice());
    if text.len() == 0 {
        return Ok(());
    }
    put_line_of(lines, field, reason, text)
}

#[tactic(auto, unfolding(crate::specs::TextsLeftOut::antenna_left_out))]
fn put_antenna(lines: &mut Vec<u8>, told: &Equipment) -> Result<(), AllocError>
    ensures { OnOk result (lines.new.items ≡ lines.old.items ++ spec.antenna_left_out told.now) }
{
    let antenna_type = &told.antenna_type.last;
    let serial = &told.antenna_serial.last;
    if is_null_told(antenna_type) {
        put_without_antenna(lines, b"antenna-type", b" names no antenna: ", antenna_type)?;
        put_without_antenna(lines, b"antenna-serial", b" is of no antenna: ", serial)?;
        return Ok(());
    }
    put_text(lines, b"antenna-type", antenna_type)?;
    put_text(lines, b"antenna-serial", serial)?;
    Ok(())
}

fn put_receiver(lines: &mut Vec<u8>, told: &Equipment) -> Result<(), AllocError>
    ensures { OnOk result (lines.new.items ≡ lines.old.items ++ spec.receiver_left_out told.now) }
{
    put_text(lines, b"receiver-type", &told.receiver_type.last)?;
    put_text(lines, b"receiver-version", &told.receiver_version.last)?;
    put_text(lines, b"receiver-serial", &told.receiver_serial.last)?;
    Ok(())
}

/// Appends a line for each text that was told last and that the label of the station does not have.
pub(crate) fn put_texts_left_out(lines: &mut Vec<u8>, told: &Equipment) -> Result<(), AllocError>
    ensures { OnOk result (lines.new.items ≡ lines.old.items ++ spec.texts_left_out told.now) }
{
    put_antenna(lines, told)?;
    put_receiver(lines, told)?;
    Ok(())
}
