//! What captures told of an antenna and a receiver beside those that were told last.
//!
//! If memory is refused, a first part of what is put may stand there.

ghost use Rattle.std.specs.Prelude.{◌≡◌, ◌++◌, OnOk};
ghost use Rattle.std.specs.Option.{option_copied};
ghost use Rattle.rtk_survey.specs.EquipmentHistory.{is_other_text};
ghost use Rattle.rtk_plan.specs.OtherEquipment as spec;

use crate::texts_left_out::put_texts_left_out;
use rtk_captures::{Captures, put_name_line};
use rtk_message::put_number;
use rtk_setup::Setup;
use rtk_survey::{CaptureSurvey, Equipment, StationSurvey, Text, TextHistory, put_shown};
use std::alloc::AllocError;

fn put_field(lines: &mut Vec<u8>, words: &[u8], field: &[u8]) -> Result<(), AllocError>
    ensures { OnOk result (lines.new.items ≡ lines.old.items ++ spec.field_after words.now field.now) }
{
    lines.extend_from_slice(words)?;
    lines.extend_from_slice(field)?;
    lines.extend_from_slice(b" ")?;
    Ok(())
}

fn is_other_text(counts: &Option<Text>, text: &Text) -> bool
    ensures { result ≡ is_other_text counts.now text.now }
{
    match counts {
        Some(counts) => counts.as_slice() != text.as_slice(),
        None => false,
    }
}

// Is a text another one than the one that counts?
fn is_other_named(counts: &Option<Text>, text: &Text) -> bool
    ensures { result ≡ spec.is_other_named counts.now text.now }
{
    0 < text.as_slice().len() && is_other_text(counts, text)
}

// Appends the text that a capture told last, if it is another one than the one that counts.
fn put_other_named(
    lines: &mut Vec<u8>,
    field: &[u8],
    name: &str,
    counts: &Option<Text>,
    text: &Text,
) -> Result<(), AllocError>
    ensures { OnOk result (lines.new.items ≡ lines.old.items ++ spec.other_named_line field.now name.now counts.now text.now) }
{
    if !is_other_named(counts, text) {
        return Ok(());
    }
    put_field(lines, b" other-", field)?;
    put_shown(lines, text.as_slice())?;
    put_name_line(lines, b" in ", name)?;
    Ok(())
}

fn put_other_told(
    lines: &mut Vec<u8>,
    field: &[u8],
    name: &str,
    counts: &Option<Text>,
    told: &Option<Text>,
) -> Result<(), AllocError>
    ensures { OnOk result (lines.new.items ≡ lines.old.items ++ spec.other_told_line field.now name.now counts.now told.now) }
{
    match told {
        Some(text) => put_other_named(lines, field, name, counts, text),
        None => Ok(()),
    }
}

// Appends how often a capture told another text than before, if it did.
fn put_changes(
    lines: &mut Vec<u8>,
    field: &[u8],
    name: &str,
    changes: u64,
) -> Result<(), AllocError>
    ensures { OnOk result (lines.new.items ≡ lines.old.items ++ spec.changes_line field.now name.now changes) }
{
    if changes == 0 {
        return Ok(());
    }
    put_field(lines, b" changes-of-", field)?;
    put_number(lines, changes)?;
    put_name_line(lines, b" in ", name)?;
    Ok(())
}

fn put_field_notes(
    lines: &mut Vec<u8>,
    field: &[u8],
    name: &str,
    counts: &TextHistory,
    told: &TextHistory,
) -> Result<(), AllocError>
    ensures { OnOk result (lines.new.items ≡ lines.old.items ++ spec.field_notes field.now name.now counts.now told.now) }
{
    put_other_told(lines, field, name, &counts.last, &told.last)?;
    put_changes(lines, field, name, told.changes)?;
    Ok(())
}

fn put_antenna_notes(
    lines: &mut Vec<u8>,
    name: &str,
    counts: &Equipment,
    told: &Equipment,
) -> Result<(), AllocError>
    ensures { OnOk result (lines.new.items ≡ lines.old.items ++ spec.antenna_notes name.now counts.now told.now) }
{
    put_field_notes(
        lines,
        b"antenna-type",
        name,
        &counts.antenna_type,
        &told.antenna_type,
    )?;
    put_field_notes(
        lines,
        b"antenna-serial",
        name,
        &counts.antenna_serial,
        &told.antenna_serial,
    )?;
    Ok(())
}

fn put_receiver_notes(
    lines: &mut Vec<u8>,
    name: &str,
    counts: &Equipment,
    told: &Equipment,
) -> Result<(), AllocError>
    ensures { OnOk result (lines.new.items ≡ lines.old.items ++ spec.receiver_notes name.now counts.now told.now) }
{
    put_field_notes(
        lines,
        b"receiver-type",
        name,
        &counts.receiver_type,
        &told.receiver_type,
    )?;
    put_field_notes(
        lines,
        b"receiver-version",
        name,
        &counts.receiver_version,
        &told.receiver_version,
    )?;
    put_field_notes(
        lines,
        b"receiver-serial",
        name,
        &counts.receiver_serial,
        &told.receiver_serial,
    )?;
    Ok(())
}

fn put_told(
    lines: &mut Vec<u8>,
    name: &str,
    counts: &Equipment,
    told: &Equipment,
) -> Result<(), AllocError>
    ensures { OnOk result (lines.new.items ≡ lines.old.items
        ++ (spec.antenna_notes name.now counts.now told.now ++ spec.receiver_notes name.now counts.now told.now)) }
{
    put_antenna_notes(lines, name, counts, told)?;
    put_receiver_notes(lines, name, counts, told)?;
    Ok(())
}

// Appends what a capture told of a station beside what counts.
fn put_other_of_station(
    lines: &mut Vec<u8>,
    name: &str,
    counts: &Equipment,
    station: Option<&StationSurvey>,
) -> Result<(), AllocError>
    ensures { OnOk result (lines.new.items ≡ lines.old.items ++ spec.other_of_station name.now counts.now (option_copied station.entry)) }
{
    let Some(station) = station else {
        return Ok(());
    };
    match station.equipment.first() {
        Some(told) => put_told(lines, name, counts, told),
        None => Ok(()),
    }
}

// The same of a capture with this survey.
fn put_other_in(
    lines: &mut Vec<u8>,
    survey: &CaptureSurvey,
    station: u16,
    counts: &Equipment,
    name: &str,
) -> Result<(), AllocError>
    ensures { OnOk result (lines.new.items ≡ lines.old.items ++ spec.other_in_capture station counts.now survey.now name.now) }
{
    put_other_of_station(lines, name, counts, survey.contents.stations.get(&station))?;
    Ok(())
}

// Appends what captures told of a station beside what they told last of all.
fn put_all_other(
    lines: &mut Vec<u8>,
    captures: &Captures<'_, '_>,
    station: u16,
    counts: &Equipment,
) -> Result<(), AllocError>
    ensures { OnOk result (lines.new.items ≡ lines.old.items
        ++ spec.all_other_equipment captures.now.names.now station counts.now captures.now.surveys.now) }
{
    for (at, survey) in captures.surveys.iter().enumerate() {
        put_other_in(lines, survey, station, counts, captures.name(at))?;
    }
    Ok(())
}

/// Appends the texts that were told last and that a label does not have, and what captures told beside them.
pub(crate) fn put_equipment_notes(
    lines: &mut Vec<u8>,
    captures: &Captures<'_, '_>,
    setup: &Setup,
    counts: &Equipment,
) -> Result<(), AllocError>
    ensures { OnOk result (lines.new.items ≡ lines.old.items
        ++ spec.equipment_notes captures.now.names.now captures.now.surveys.now setup.now.station counts.now) }
{
    put_texts_left_out(lines, counts)?;
    put_all_other(lines, captures, setup.station(), counts)?;
    Ok(())
}
