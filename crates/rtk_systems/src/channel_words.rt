//! The option that names the channels of GLONASS, and the line of slots that have none.
//!
//! If memory is refused, a first part of what is put may stand there.

ghost use Rattle.std.specs.Prelude.{◌≡◌, ◌++◌, flat_map, OnOk};
ghost use Rattle.rtk_systems.specs.AlikeChannels.{channel_in_slot};
ghost use Rattle.rtk_systems.specs.ChannelWords as spec;

use crate::alike_channels::channel_in_slot;
use crate::slot_channels::is_slot_given;
use crate::values::TakenMessages;
use rtk_message::put_number;
use rtk_obs::{Channel, Channels, two_digits};
use rtk_rinex::Glonass;
use rtk_survey::CaptureSurvey;
use std::alloc::AllocError;

/// The slots of GLONASS.
pub(crate) const SLOTS: [u8; 27] = [
    1, 2, 3, 4, 5, 6, 7, 8, 9, 10, 11, 12, 13, 14, 15, 16, 17, 18, 19, 20, 21, 22, 23, 24, 25, 26,
    27,
];

/// What is to be done about satellites without a channel.
const TO_GIVE: &[u8] =
    b": give --channels, as a header's GLONASS SLOT / FRQ # of the same days has them\n";

// ---- the option

/// Appends a channel.
pub(crate) fn put_channel(line: &mut Vec<u8>, channel: Channel) -> Result<(), AllocError>
    ensures { OnOk result (line.new.items ≡ line.old.items ++ spec.said_channel channel) }
{
    let number = channel.number();
    if number < 0 {
        line.push(b'-')?;
    }
    put_number(line, u64::from(number.unsigned_abs()))
}

// Appends a slot and its channel, if it has one, behind a separator.
fn put_slot(
    line: &mut Vec<u8>,
    separator: u8,
    slot: u8,
    channel: Option<Channel>,
) -> Result<(), AllocError>
    ensures { OnOk result (line.new.items ≡ line.old.items ++ spec.said_slot separator slot channel) }
{
    let Some(channel) = channel else {
        return Ok(());
    };
    line.push(separator)?;
    put_number(line, u64::from(slot))?;
    line.push(b':')?;
    put_channel(line, channel)?;
    Ok(())
}

// Appends a slot, if it has one of these channels, behind a separator.
fn put_slot_of(
    line: &mut Vec<u8>,
    channels: &Channels,
    separator: u8,
    slot: u8,
) -> Result<(), AllocError>
    ensures { OnOk result (line.new.items ≡ line.old.items ++ spec.said_slot separator slot (channel_in_slot channels.now slot)) }
{
    put_slot(line, separator, slot, channel_in_slot(channels, slot))?;
    Ok(())
}

fn separator_after(channels: &Channels, separator: u8, slot: u8) -> u8
    ensures { result ≡ spec.separator_after separator (channel_in_slot channels.now slot) }
{
    match channel_in_slot(channels, slot) {
        Some(_) => b',',
        None => separator,
    }
}

// Appends the slots of some that have a channel.
fn put_slots(line: &mut Vec<u8>, channels: &Channels, slots: &[u8]) -> Result<(), AllocError>
    ensures { OnOk result (line.new.items ≡ line.old.items ++ spec.said_slots 32 channels.now slots.now) }
{
    let mut separator = b' ';
    for slot in slots {
        put_slot_of(line, channels, separator, *slot)?;
        separator = separator_after(channels, separator, *slot);
    }
    Ok(())
}

fn slot_has_channel(channels: &Channels, slot: u8) -> bool
    ensures { result ≡ spec.slot_has_channel channels.now slot }
{
    channel_in_slot(channels, slot).is_some()
}

fn have_channel(channels: &Channels) -> bool
    ensures { result ≡ spec.have_channel channels.now }
{
    SLOTS.iter().any(|slot| slot_has_channel(channels, *slot))
}

// Appends the channels as the option lists them.
fn put_channels(line: &mut Vec<u8>, channels: &Channels) -> Result<(), AllocError>
    ensures { OnOk result (line.new.items ≡ line.old.items ++ spec.said_channels channels.now) }
{
    if have_channel(channels) {
        put_slots(line, channels, &SLOTS)
    } else {
        line.extend_from_slice(b" none")
    }
}

fn put_option(line: &mut Vec<u8>, channels: &Channels) -> Result<(), AllocError>
    ensures { OnOk result (line.new.items ≡ line.old.items ++ spec.channels_option channels.now) }
{
    line.extend_from_slice(b" --channels")?;
    put_channels(line, channels)?;
    Ok(())
}

/// Appends the option of what a file tells of GLONASS, if it has it.
pub fn put_glonass_words(line: &mut Vec<u8>, glonass: Option<Glonass>) -> Result<(), AllocError>
    ensures { OnOk result (line.new.items ≡ line.old.items ++ spec.glonass_words glonass) }
{
    match glonass {
        Some(glonass) => put_option(line, &glonass.channels()),
        None => Ok(()),
    }
}

// ---- slots without a channel

// Has a slot a value, and no channel?
fn lacks_channel(
    surveys: &[CaptureSurvey],
    station: u16,
    taken: TakenMessages,
    channels: &Channels,
    slot: u8,
) -> bool
    ensures { result ≡ spec.lacks_channel surveys.now station taken channels.now slot }
{
    slot < 28 && is_slot_given(surveys, station, taken, slot) && !slot_has_channel(channels, slot)
}

fn have_none(
    surveys: &[CaptureSurvey],
    station: u16,
    taken: TakenMessages,
    channels: &Channels,
) -> bool
    ensures { result ≡ spec.have_none surveys.now station taken channels.now }
{
    SLOTS.iter().any(|slot| lacks_channel(surveys, station, taken, channels, *slot))
}

// Appends the name of the satellite of a slot, if it has a value and no channel.
fn put_lacking(
    lines: &mut Vec<u8>,
    surveys: &[CaptureSurvey],
    station: u16,
    taken: TakenMessages,
    channels: &Channels,
    slot: u8,
) -> Result<(), AllocError>
    ensures { OnOk result (lines.new.items ≡ lines.old.items ++ spec.lacking_name surveys.now station taken channels.now slot) }
{
    if !lacks_channel(surveys, station, taken, channels, slot) {
        return Ok(());
    }
    lines.extend_from_slice(b" R")?;
    lines.extend_from_slice(&two_digits(slot))
}

fn put_lacking_among(
    lines: &mut Vec<u8>,
    surveys: &[CaptureSurvey],
    station: u16,
    taken: TakenMessages,
    channels: &Channels,
    slots: &[u8],
) -> Result<(), AllocError>
    ensures { OnOk result (lines.new.items ≡ lines.old.items ++ flat_map (spec.lacking_name surveys.now station taken channels.now) slots.now) }
{
    for slot in slots {
        put_lacking(lines, surveys, station, taken, channels, *slot)?;
    }
    Ok(())
}

#[tactic(auto, unfolding(crate::specs::ChannelWords::no_channel_words))]
fn put_no_channel_words(
    lines: &mut Vec<u8>,
    surveys: &[CaptureSurvey],
    station: u16,
    taken: TakenMessages,
    channels: &Channels,
) -> Result<(), AllocError>
    ensures { OnOk result (lines.new.items ≡ lines.old.items ++ spec.no_channel_words surveys.now station taken channels.now) }
{
    lines.extend_from_slice(b" no-channel")?;
    put_lacking_among(lines, surveys, station, taken, channels, &SLOTS)?;
    lines.extend_from_slice(TO_GIVE)?;
    Ok(())
}

/// Appends the slots that have a value and no channel, if there are some.
pub(crate) fn put_no_channel_line(
    lines: &mut Vec<u8>,
    surveys: &[CaptureSurvey],
    station: u16,
    taken: TakenMessages,
    channels: &Channels,
) -> Result<(), AllocError>
    ensures { OnOk result (lines.new.items ≡ lines.old.items ++ spec.no_channel_line surveys.now station taken channels.now) }
{
    if have_none(surveys, station, taken, channels) {
        put_no_channel_words(lines, surveys, station, taken, channels)
    } else {
        Ok(())
    }
}
