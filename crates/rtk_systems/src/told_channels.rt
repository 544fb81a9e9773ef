//! The lines of what messages tell of channels of GLONASS: one channel of many slots, several of one slot, none, and
//! another one than the file has.
//!
//! If memory is refused, a first part of what is put may stand there.

ghost use Rattle.std.specs.Prelude.{◌≡◌, ◌++◌, Some, flat_map, OnOk};
ghost use Rattle.rtk_systems.specs.AlikeChannels.{constellation_slots};
ghost use Rattle.rtk_systems.specs.ToldChannels as spec;

use crate::alike_channels::{CONSTELLATION, have_too_many, is_same_channel, number_in_slot};
use crate::channel_words::{SLOTS, put_channel, put_no_channel_line};
use crate::other_channels::put_other_among;
use crate::several_channels::{put_several_among, put_slot_name};
use crate::slot_channels::channel_of_field;
use crate::values::TakenMessages;
use rtk_obs::{Channel, Channels};
use rtk_rinex::Glonass;
use rtk_survey::CaptureSurvey;
use std::alloc::AllocError;

/// The fields that tell a channel that a file can have.
const FIELDS: [u8; 14] = [0, 1, 2, 3, 4, 5, 6, 7, 8, 9, 10, 11, 12, 13];

// ---- one channel of many slots

fn put_alike_name(
    lines: &mut Vec<u8>,
    own: &Channels,
    channel: Option<i8>,
    slot: u8,
) -> Result<(), AllocError>
    ensures { OnOk result (lines.new.items ≡ lines.old.items ++ spec.alike_name own.now channel slot) }
{
    if is_same_channel(number_in_slot(own, slot), channel) {
        put_slot_name(lines, slot)
    } else {
        Ok(())
    }
}

fn put_alike_names(
    lines: &mut Vec<u8>,
    own: &Channels,
    channel: Option<i8>,
    slots: &[u8],
) -> Result<(), AllocError>
    ensures { OnOk result (lines.new.items ≡ lines.old.items ++ flat_map (spec.alike_name own.now channel) slots.now) }
{
    for slot in slots {
        put_alike_name(lines, own, channel, *slot)?;
    }
    Ok(())
}

// Appends the slots of the constellation that have a channel.
fn put_alike_slots(lines: &mut Vec<u8>, own: &Channels, channel: Channel) -> Result<(), AllocError>
    ensures { OnOk result (lines.new.items ≡ lines.old.items ++ flat_map (spec.alike_name own.now (Some channel)) constellation_slots) }
{
    put_alike_names(lines, own, Some(channel.number()), &CONSTELLATION)
}

#[tactic(auto, unfolding(crate::specs::ToldChannels::alike_words))]
fn put_alike_words(lines: &mut Vec<u8>, own: &Channels, channel: Channel) -> Result<(), AllocError>
    ensures { OnOk result (lines.new.items ≡ lines.old.items ++ spec.alike_words own.now channel) }
{
    lines.extend_from_slice(b" channels-alike ")?;
    put_channel(lines, channel)?;
    put_alike_slots(lines, own, channel)?;
    lines.extend_from_slice(b"\n")?;
    Ok(())
}

fn put_alike_line(lines: &mut Vec<u8>, own: &Channels, channel: Channel) -> Result<(), AllocError>
    ensures { OnOk result (lines.new.items ≡ lines.old.items ++ spec.alike_line own.now channel) }
{
    if have_too_many(own, Some(channel.number())) {
        put_alike_words(lines, own, channel)
    } else {
        Ok(())
    }
}

#[tactic(auto, unfolding(crate::specs::ToldChannels::alike_line_of))]
fn put_alike_line_of(lines: &mut Vec<u8>, own: &Channels, field: u8) -> Result<(), AllocError>
    ensures { OnOk result (lines.new.items ≡ lines.old.items ++ spec.alike_line_of own.now field) }
{
    if field < 14 {
        put_alike_line(lines, own, channel_of_field(field))
    } else {
        Ok(())
    }
}

fn put_alike_among(lines: &mut Vec<u8>, own: &Channels, fields: &[u8]) -> Result<(), AllocError>
    ensures { OnOk result (lines.new.items ≡ lines.old.items ++ flat_map (spec.alike_line_of own.now) fields.now) }
{
    for field in fields {
        put_alike_line_of(lines, own, *field)?;
    }
    Ok(())
}

// ---- all of them

// Appends what messages tell of channels, the slots without one, and those that the file has otherwise.
fn put_channels_of(
    lines: &mut Vec<u8>,
    surveys: &[CaptureSurvey],
    station: u16,
    taken: TakenMessages,
    own: &Channels,
    glonass: Glonass,
) -> Result<(), AllocError>
    ensures { OnOk result (lines.new.items ≡ lines.old.items ++ spec.told_channel_lines surveys.now station taken own.now (Some glonass)) }
{
    let chosen = glonass.channels();
    put_alike_among(lines, own, &FIELDS)?;
    put_several_among(lines, surveys, station, taken, own, &SLOTS)?;
    put_no_channel_line(lines, surveys, station, taken, &chosen)?;
    put_other_among(lines, surveys, station, taken, own, &chosen, &SLOTS)?;
    Ok(())
}

/// Appends what messages tell of channels of GLONASS, the slots that have a value and no channel, and those of which the
/// file has another one, if this is told of GLONASS.
pub fn put_channel_lines(
    lines: &mut Vec<u8>,
    surveys: &[CaptureSurvey],
    station: u16,
    taken: TakenMessages,
    own: &Channels,
    glonass: Option<Glonass>,
) -> Result<(), AllocError>
    ensures { OnOk result (lines.new.items ≡ lines.old.items ++ spec.told_channel_lines surveys.now station taken own.now glonass) }
{
    match glonass {
        Some(glonass) => put_channels_of(lines, surveys, station, taken, own, glonass),
        None => Ok(()),
    }
}
