//! The lines of the antenna and the receiver of a station.
//!
//! If memory is refused, a first part of what is put may stand there.

ghost use Rattle.std.specs.Prelude.{◌≡◌, ◌<◌, ◌++◌, flat_map, get_or, OnOk};
ghost use Rattle.rtk_survey.specs.EquipmentHistory.{no_equipment, is_told};
ghost use Rattle.rtk_survey.specs.EquipmentText as spec;

use crate::equipment::{Equipment, SetupHistory, TextHistory};
use crate::equipment_message::Text;
use crate::line::put_counted;
use rtk_message::put_named;
use std::alloc::AllocError;

/// Some message told something of the station.
pub(crate) fn is_told(station: &[Equipment]) -> bool
    ensures { result ≡ is_told (get_or station.now 0 no_equipment) }
{
    match station.first() {
        Some(told) => told.antenna_type.last.is_some(),
        None => false,
    }
}

// A digit of a number below 16.
fn hex_digit(n: u8) -> u8
    requires { n < 16 }
    ensures { result ≡ spec.hex_digit n }
{
    if n < 10 { b'0' + n } else { b'A' + (n - 10) }
}

fn put_byte(lines: &mut Vec<u8>, byte: u8) -> Result<(), AllocError>
    ensures { OnOk result (lines.new.items ≡ lines.old.items ++ spec.shown_byte byte) }
{
    if 0x20 <= byte && byte <= 0x7E {
        lines.push(byte)?;
        return Ok(());
    }
    let escaped = [b'\\', b'x', hex_digit(byte / 16), hex_digit(byte % 16)];
    lines.extend_from_slice(&escaped)
}

/// Appends bytes of a text: those from blank to tilde as they are, others as in `\x0A`.
pub fn put_shown(lines: &mut Vec<u8>, bytes: &[u8]) -> Result<(), AllocError>
    ensures { OnOk result (lines.new.items ≡ lines.old.items ++ flat_map spec.shown_byte bytes.now) }
{
    for byte in bytes {
        put_byte(lines, *byte)?;
    }
    Ok(())
}

// A text; an empty one has no line.
fn put_text(lines: &mut Vec<u8>, words: &[u8], text: &[u8]) -> Result<(), AllocError>
    ensures { OnOk result (lines.new.items ≡ lines.old.items ++ spec.text_line words.now text.now) }
{
    if text.is_empty() {
        return Ok(());
    }
    lines.extend_from_slice(words)?;
    put_shown(lines, text)?;
    lines.push(b'\n')?;
    Ok(())
}

fn put_text_if_any(lines: &mut Vec<u8>, words: &[u8], text: &Option<Text>) -> Result<(), AllocError>
    ensures { OnOk result (lines.new.items ≡ lines.old.items ++ spec.line_if_any words.now text.now) }
{
    match text {
        Some(text) => put_text(lines, words, text.as_slice()),
        None => Ok(()),
    }
}

// The last text that was told, and how often it changed.
#[tactic(auto, unfolding(crate::specs::EquipmentText::text_lines))]
fn put_text_told(
    lines: &mut Vec<u8>,
    words: &[u8],
    changes: &[u8],
    told: &TextHistory,
) -> Result<(), AllocError>
    ensures { OnOk result (lines.new.items ≡ lines.old.items ++ spec.text_lines words.now changes.now told.now) }
{
    put_text_if_any(lines, words, &told.last)?;
    put_counted(lines, changes, told.changes)
}

fn put_setup(lines: &mut Vec<u8>, setup: Option<u8>) -> Result<(), AllocError>
    ensures { OnOk result (lines.new.items ≡ lines.old.items ++ spec.setup_line setup) }
{
    let Some(setup) = setup else {
        return Ok(());
    };
    put_named(lines, b" antenna-setup ", u64::from(setup))?;
    lines.push(b'\n')?;
    Ok(())
}

// The last setup that was told, and how often it changed.
#[tactic(auto, unfolding(crate::specs::EquipmentText::setup_lines))]
fn put_setup_told(lines: &mut Vec<u8>, told: SetupHistory) -> Result<(), AllocError>
    ensures { OnOk result (lines.new.items ≡ lines.old.items ++ spec.setup_lines told) }
{
    put_setup(lines, told.last)?;
    put_counted(lines, b" changes-of-antenna-setup ", told.changes)
}

fn put_antenna(lines: &mut Vec<u8>, told: &Equipment) -> Result<(), AllocError>
    ensures { OnOk result (lines.new.items ≡ lines.old.items ++ spec.antenna_lines told.now) }
{
    put_text_told(
        lines,
        b" antenna-type ",
        b" changes-of-antenna-type ",
        &told.antenna_type,
    )?;
    put_text_told(
        lines,
        b" antenna-serial ",
        b" changes-of-antenna-serial ",
        &told.antenna_serial,
    )?;
    put_setup_told(lines, told.antenna_setup)?;
    Ok(())
}

fn put_receiver(lines: &mut Vec<u8>, told: &Equipment) -> Result<(), AllocError>
    ensures { OnOk result (lines.new.items ≡ lines.old.items ++ spec.receiver_lines told.now) }
{
    put_text_told(
        lines,
        b" receiver-type ",
        b" changes-of-receiver-type ",
        &told.receiver_type,
    )?;
    put_text_told(
        lines,
        b" receiver-version ",
        b" changes-of-receiver-version ",
        &told.receiver_version,
    )?;
    put_text_told(
        lines,
        b" receiver-serial ",
        b" changes-of-receiver-serial ",
        &told.receiver_serial,
    )?;
    Ok(())
}

fn put_both(lines: &mut Vec<u8>, told: &Equipment) -> Result<(), AllocError>
    ensures { OnOk result (lines.new.items ≡ lines.old.items ++ spec.equipment_lines told.now) }
{
    put_antenna(lines, told)?;
    put_receiver(lines, told)
}

/// Appends the lines of the antenna and the receiver of a station, of which there is an entry or none.
pub(crate) fn put_equipment(lines: &mut Vec<u8>, station: &[Equipment]) -> Result<(), AllocError>
    ensures { OnOk result (lines.new.items ≡ lines.old.items ++ spec.equipment_lines (get_or station.now 0 no_equipment)) }
{
    if station.len() == 0 {
        return Ok(());
    }
    put_both(lines, &station[0])
}
