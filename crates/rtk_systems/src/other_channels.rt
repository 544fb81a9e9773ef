//! The lines of slots of GLONASS whose messages tell another channel than the file has.
//!
//! If memory is refused, a first part of what is put may stand there.

ghost use Rattle.std.specs.Prelude.{◌≡◌, ◌++◌, flat_map, Some, OnOk};
ghost use Rattle.rtk_systems.specs.OtherChannels as spec;

use crate::alike_channels::{channel_in_slot, is_same_channel};
use crate::channel_words::put_channel;
use crate::several_channels::{FIELDS, is_field_told, put_slot_name};
use crate::slot_channels::{channel_of_field, is_slot_given, own_count};
use crate::values::TakenMessages;
use rtk_obs::{Channel, Channels};
use rtk_survey::{CaptureSurvey, put_field_channel};
use std::alloc::AllocError;

fn is_own_field(surveys: &[CaptureSurvey], station: u16, slot: u8, field: u8) -> bool
    ensures { result ≡ spec.is_own_field surveys.now station slot field }
{
    0 < own_count(surveys, station, slot, field)
}

// Do messages of the station tell a channel of a slot?
#[tactic(auto, unfolding(crate::specs::OtherChannels::is_own_told))]
fn is_own_told(surveys: &[CaptureSurvey], station: u16, slot: u8) -> bool
    ensures { result ≡ spec.is_own_told surveys.now station slot }
{
    FIELDS
        .iter()
        .any(|field| is_own_field(surveys, station, slot, *field))
}

fn is_channel_of_field(channel: Option<i8>, field: u8) -> bool
    ensures { result ≡ spec.is_channel_of_field channel field }
{
    if field < 14 {
        is_same_channel(Some(channel_of_field(field).number()), channel)
    } else {
        false
    }
}

// Do messages tell a field of a slot that is this channel?
fn is_told_by(
    surveys: &[CaptureSurvey],
    station: u16,
    own: &Channels,
    slot: u8,
    channel: Option<i8>,
    field: u8,
) -> bool
    ensures { result ≡ spec.is_told_by surveys.now station own.now slot channel field }
{
    is_field_told(surveys, station, own, slot, field) && is_channel_of_field(channel, field)
}

// Do messages tell this channel of a slot?
#[tactic(auto, unfolding(crate::specs::OtherChannels::is_channel_told))]
fn is_channel_told(
    surveys: &[CaptureSurvey],
    station: u16,
    own: &Channels,
    slot: u8,
    channel: Option<i8>,
) -> bool
    ensures { result ≡ spec.is_channel_told surveys.now station own.now slot channel }
{
    FIELDS.iter().any(|field| is_told_by(surveys, station, own, slot, channel, *field))
}

// Do messages of the station tell channels of a slot, but none this one?
fn tells_others(
    surveys: &[CaptureSurvey],
    station: u16,
    own: &Channels,
    slot: u8,
    channel: Option<i8>,
) -> bool
    ensures { result ≡ spec.tells_others surveys.now station own.now slot channel }
{
    is_own_told(surveys, station, slot) && !is_channel_told(surveys, station, own, slot, channel)
}

// The same of a slot that has a value.
fn is_other_told(
    surveys: &[CaptureSurvey],
    station: u16,
    taken: TakenMessages,
    own: &Channels,
    slot: u8,
    channel: Channel,
) -> bool
    ensures { result ≡ spec.is_other_told surveys.now station taken own.now slot channel }
{
    slot < 28
        && is_slot_given(surveys, station, taken, slot)
        && tells_others(surveys, station, own, slot, Some(channel.number()))
}

#[tactic(auto, unfolding(crate::specs::OtherChannels::own_channel))]
fn put_own_channel(
    lines: &mut Vec<u8>,
    surveys: &[CaptureSurvey],
    station: u16,
    slot: u8,
    field: u8,
) -> Result<(), AllocError>
    ensures { OnOk result (lines.new.items ≡ lines.old.items ++ spec.own_channel surveys.now station slot field) }
{
    if !is_own_field(surveys, station, slot, field) {
        return Ok(());
    }
    lines.push(b' ')?;
    put_field_channel(lines, field)?;
    Ok(())
}

fn put_own_channels(
    lines: &mut Vec<u8>,
    surveys: &[CaptureSurvey],
    station: u16,
    slot: u8,
    fields: &[u8],
) -> Result<(), AllocError>
    ensures { OnOk result (lines.new.items ≡ lines.old.items ++ flat_map (spec.own_channel surveys.now station slot) fields.now) }
{
    for field in fields {
        put_own_channel(lines, surveys, station, slot, *field)?;
    }
    Ok(())
}

// Appends a slot and its channel.
#[tactic(auto, unfolding(crate::specs::OtherChannels::other_head))]
fn put_other_head(lines: &mut Vec<u8>, slot: u8, channel: Channel) -> Result<(), AllocError>
    ensures { OnOk result (lines.new.items ≡ lines.old.items ++ spec.other_head slot channel) }
{
    lines.extend_from_slice(b" other-channel")?;
    put_slot_name(lines, slot)?;
    lines.extend_from_slice(b" ")?;
    put_channel(lines, channel)?;
    Ok(())
}

// Appends the channels that messages of the station tell of a slot.
#[tactic(auto, unfolding(crate::specs::OtherChannels::own_channels_words))]
fn put_own_words(
    lines: &mut Vec<u8>,
    surveys: &[CaptureSurvey],
    station: u16,
    slot: u8,
) -> Result<(), AllocError>
    ensures { OnOk result (lines.new.items ≡ lines.old.items ++ spec.own_channels_words surveys.now station slot) }
{
    lines.extend_from_slice(b": messages tell")?;
    put_own_channels(lines, surveys, station, slot, &FIELDS)?;
    lines.extend_from_slice(b"\n")?;
    Ok(())
}

fn put_other_words(
    lines: &mut Vec<u8>,
    surveys: &[CaptureSurvey],
    station: u16,
    slot: u8,
    channel: Channel,
) -> Result<(), AllocError>
    ensures { OnOk result (lines.new.items ≡ lines.old.items ++ spec.other_words surveys.now station slot channel) }
{
    put_other_head(lines, slot, channel)?;
    put_own_words(lines, surveys, station, slot)?;
    Ok(())
}

fn put_other_of(
    lines: &mut Vec<u8>,
    surveys: &[CaptureSurvey],
    station: u16,
    taken: TakenMessages,
    own: &Channels,
    slot: u8,
    channel: Channel,
) -> Result<(), AllocError>
    ensures { OnOk result (lines.new.items ≡ lines.old.items ++ spec.other_line_of surveys.now station taken own.now slot (Some channel)) }
{
    if is_other_told(surveys, station, taken, own, slot, channel) {
        put_other_words(lines, surveys, station, slot, channel)
    } else {
        Ok(())
    }
}

fn put_other_line(
    lines: &mut Vec<u8>,
    surveys: &[CaptureSurvey],
    station: u16,
    taken: TakenMessages,
    own: &Channels,
    channels: &Channels,
    slot: u8,
) -> Result<(), AllocError>
    ensures { OnOk result (lines.new.items ≡ lines.old.items ++ spec.other_channel_line surveys.now station taken own.now channels.now slot) }
{
    match channel_in_slot(channels, slot) {
        Some(channel) => put_other_of(lines, surveys, station, taken, own, slot, channel),
        None => Ok(()),
    }
}

/// Appends the lines of those of these slots whose messages tell another channel than these, which the file has.
pub(crate) fn put_other_among(
    lines: &mut Vec<u8>,
    surveys: &[CaptureSurvey],
    station: u16,
    taken: TakenMessages,
    own: &Channels,
    channels: &Channels,
    slots: &[u8],
) -> Result<(), AllocError>
    ensures { OnOk result (lines.new.items ≡ lines.old.items ++ flat_map (spec.other_channel_line surveys.now station taken own.now channels.now) slots.now) }
{
    for slot in slots {
        put_other_line(lines, surveys, station, taken, own, channels, *slot)?;
    }
    Ok(())
}
