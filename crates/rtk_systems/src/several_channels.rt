//! The lines of slots of GLONASS of which messages tell several channels.
//!
//! If memory is refused, a first part of what is put may stand there.

ghost use Rattle.std.specs.Prelude.{◌≡◌, ◌++◌, flat_map, OnOk};
ghost use Rattle.std.specs.List.{sum_by};
ghost use Rattle.rtk_survey.specs.Counting.{shown_count};
ghost use Rattle.rtk_systems.specs.SeveralChannels as spec;

use crate::alike_channels::{channel_in_slot, is_alike};
use crate::slot_channels::{count_of_1020, is_slot_given, own_count};
use crate::values::TakenMessages;
use rtk_obs::{Channels, two_digits};
use rtk_survey::{CaptureSurvey, put_field_channel};
use std::alloc::AllocError;

/// The fields that tell a channel.
pub(crate) const FIELDS: [u8; 21] = [
    0, 1, 2, 3, 4, 5, 6, 7, 8, 9, 10, 11, 12, 13, 14, 15, 16, 17, 18, 19, 20,
];

/// Appends the name of the satellite of a slot.
pub(crate) fn put_slot_name(lines: &mut Vec<u8>, slot: u8) -> Result<(), AllocError>
    ensures { OnOk result (lines.new.items ≡ lines.old.items ++ spec.satellite_of_slot slot) }
{
    lines.extend_from_slice(b" R")?;
    lines.extend_from_slice(&two_digits(slot))
}

// Have the messages of the station no channel of a slot that a file can have, or one of too many slots?
fn is_from_1020(own: &Channels, slot: u8) -> bool
    ensures { result ≡ spec.is_from_1020 own.now slot }
{
    channel_in_slot(own, slot).is_none() || is_alike(own, slot)
}

/// Do messages tell a field of a slot: those of the station, or 1020 if these give the slot its channel?
pub(crate) fn is_field_told(
    surveys: &[CaptureSurvey],
    station: u16,
    own: &Channels,
    slot: u8,
    field: u8,
) -> bool
    ensures { result ≡ spec.is_field_told surveys.now station own.now slot field }
{
    0 < own_count(surveys, station, slot, field)
        || (is_from_1020(own, slot) && 0 < count_of_1020(surveys, slot, field))
}

#[tactic(auto, unfolding(crate::specs::SeveralChannels::count_if_told))]
fn count_if_told(
    surveys: &[CaptureSurvey],
    station: u16,
    own: &Channels,
    slot: u8,
    field: u8,
) -> u64
    ensures { result ≡ spec.count_if_told surveys.now station own.now slot field }
{
    u64::from(is_field_told(surveys, station, own, slot, field))
}

// How many of these fields messages tell of a slot.
fn told_among(
    surveys: &[CaptureSurvey],
    station: u16,
    own: &Channels,
    slot: u8,
    fields: &[u8],
) -> u64
    ensures { result ≡ shown_count (sum_by (spec.count_if_told surveys.now station own.now slot) fields.now) }
{
    let mut count = 0u64;
    for field in fields {
        count = count.saturating_add(count_if_told(surveys, station, own, slot, *field));
    }
    count
}

// How many channels messages tell of a slot.
fn channels_told_of(surveys: &[CaptureSurvey], station: u16, own: &Channels, slot: u8) -> u64
    ensures { result ≡ spec.channels_told_of surveys.now station own.now slot }
{
    told_among(surveys, station, own, slot, &FIELDS)
}

#[tactic(auto, unfolding(crate::specs::SeveralChannels::told_channel))]
fn put_told_channel(
    lines: &mut Vec<u8>,
    surveys: &[CaptureSurvey],
    station: u16,
    own: &Channels,
    slot: u8,
    field: u8,
) -> Result<(), AllocError>
    ensures { OnOk result (lines.new.items ≡ lines.old.items ++ spec.told_channel surveys.now station own.now slot field) }
{
    if !is_field_told(surveys, station, own, slot, field) {
        return Ok(());
    }
    lines.push(b' ')?;
    put_field_channel(lines, field)?;
    Ok(())
}

fn put_told_channels(
    lines: &mut Vec<u8>,
    surveys: &[CaptureSurvey],
    station: u16,
    own: &Channels,
    slot: u8,
    fields: &[u8],
) -> Result<(), AllocError>
    ensures { OnOk result (lines.new.items ≡ lines.old.items ++ flat_map (spec.told_channel surveys.now station own.now slot) fields.now) }
{
    for field in fields {
        put_told_channel(lines, surveys, station, own, slot, *field)?;
    }
    Ok(())
}

#[tactic(auto, unfolding(crate::specs::SeveralChannels::several_words))]
fn put_several_words(
    lines: &mut Vec<u8>,
    surveys: &[CaptureSurvey],
    station: u16,
    own: &Channels,
    slot: u8,
) -> Result<(), AllocError>
    ensures { OnOk result (lines.new.items ≡ lines.old.items ++ spec.several_words surveys.now station own.now slot) }
{
    lines.extend_from_slice(b" several-channels")?;
    put_slot_name(lines, slot)?;
    put_told_channels(lines, surveys, station, own, slot, &FIELDS)?;
    lines.extend_from_slice(b"\n")?;
    Ok(())
}

// Has a slot a value, and do messages tell several channels of it?
fn has_several(
    surveys: &[CaptureSurvey],
    station: u16,
    taken: TakenMessages,
    own: &Channels,
    slot: u8,
) -> bool
    ensures { result ≡ spec.has_several surveys.now station taken own.now slot }
{
    slot < 28
        && is_slot_given(surveys, station, taken, slot)
        && 1 < channels_told_of(surveys, station, own, slot)
}

fn put_several_line(
    lines: &mut Vec<u8>,
    surveys: &[CaptureSurvey],
    station: u16,
    taken: TakenMessages,
    own: &Channels,
    slot: u8,
) -> Result<(), AllocError>
    ensures { OnOk result (lines.new.items ≡ lines.old.items ++ spec.several_line surveys.now station taken own.now slot) }
{
    if has_several(surveys, station, taken, own, slot) {
        put_several_words(lines, surveys, station, own, slot)
    } else {
        Ok(())
    }
}

/// Appends the lines of those of these slots of which messages tell several channels.
pub(crate) fn put_several_among(
    lines: &mut Vec<u8>,
    surveys: &[CaptureSurvey],
    station: u16,
    taken: TakenMessages,
    own: &Channels,
    slots: &[u8],
) -> Result<(), AllocError>
    ensures { OnOk result (lines.new.items ≡ lines.old.items ++ flat_map (spec.several_line surveys.now station taken own.now) slots.now) }
{
    for slot in slots {
        put_several_line(lines, surveys, station, taken, own, *slot)?;
    }
    Ok(())
}
