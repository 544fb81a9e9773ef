//! The frequency channels of GLONASS as the words of a command line write them, as `1:1,9:-6`.

ghost use Rattle.std.specs.Prelude.{◌≡◌, ◌≢◌, ◌<◌, ◌≤◌, ◌+◌, ◌/◌, ◌%◌, ℕ, ℤ, List, All, IfOk, IfErr, MatchOption, unsigned_abs};
ghost use Rattle.rtk_obs.specs.Carriers.{IsChannel, IsSlot};
ghost use Rattle.rtk_rinex.specs.Columns.{is_negative as is_below_0};
ghost use Rattle.rtk_cli.specs.FaultLines.{IsRefusal};
ghost use Rattle.rtk_cli.specs.declared.channel_list.SlotChannel.{SlotChannel};
ghost use Rattle.rtk_cli.specs.Steps.Parts.{marked_parts};
ghost use Rattle.rtk_cli.specs.Steps.ChannelList.{slot_word, channel_word, IsSlotChannel, slot_parts, ListsSlots, is_none_word, WritesSlots, AreSlotsUnlike, AreChannelsOf, WritesChannels, HasNoChannels};

use crate::parts::first_part;
use crate::words::{BadWords, WordsFault};
use rtk_obs::{Channel, Channels};
use std::alloc::{AllocError, Global};

/// A slot of GLONASS, and its frequency channel.
#[derive(Clone, Copy)]
pub(crate) struct SlotChannel {
    pub(crate) slot: u8,
    pub(crate) channel: Channel,
}

// The slot of one digit.
fn slot_of_one(ones: u8) -> Option<u8>
    ensures { MatchOption result
        ((s : ℕ) → IsSlot s → s < 10 → ones ≢ 48 + s)
        (λ s. IsSlot s × (s < 10) × (ones ≡ 48 + s)) }
{
    if ones < b'1' || ones > b'9' {
        return None;
    }
    Some(ones - b'0')
}

// The slot of two digits.
fn slot_of_two(tens: u8, ones: u8) -> Option<u8>
    ensures { MatchOption result
        ((s : ℕ) → IsSlot s → 10 ≤ s → tens ≡ 48 + s / 10 → ones ≢ 48 + s % 10)
        (λ s. IsSlot s × (10 ≤ s) × (tens ≡ 48 + s / 10) × (ones ≡ 48 + s % 10)) }
{
    if tens < b'1' || tens > b'2' || ones < b'0' || ones > b'9' {
        return None;
    }
    let slot = 10 * (tens - b'0') + (ones - b'0');
    if slot > 27 {
        return None;
    }
    Some(slot)
}

// The slot that digits write.
fn slot_of(text: &[u8]) -> Option<u8>
    ensures { MatchOption result ((s : ℕ) → IsSlot s → text.now ≢ slot_word s) (λ s. IsSlot s × (text.now ≡ slot_word s)) }
{
    match text {
        &[ones] => slot_of_one(ones),
        &[tens, ones] => slot_of_two(tens, ones),
        _ => None,
    }
}

// The channel of a digit, which stands behind a hyphen if it is negative.
fn signed_channel(is_negative: bool, digit: u8) -> Option<Channel>
    ensures { MatchOption result
        ((k : ℤ) → IsChannel k → is_negative ≡ is_below_0 k → digit ≢ 48 + unsigned_abs k)
        (λ k. IsChannel k × (is_negative ≡ is_below_0 k) × (digit ≡ 48 + unsigned_abs k)) }
{
    if digit < b'0' || digit > b'7' {
        return None;
    }
    let number = (digit - b'0') as i8;
    if !is_negative {
        return Channel::new(number);
    }
    if number == 0 {
        return None;
    }
    Channel::new(-number)
}

// The channel that a word writes.
fn channel_of(text: &[u8]) -> Option<Channel>
    ensures { MatchOption result ((k : ℤ) → IsChannel k → text.now ≢ channel_word k) (λ k. IsChannel k × (text.now ≡ channel_word k)) }
{
    match text {
        &[digit] => signed_channel(false, digit),
        &[b'-', digit] => signed_channel(true, digit),
        _ => None,
    }
}

// The slot and the channel of the two parts of a word.
fn slot_and_channel(slot: &[u8], channel: &[u8]) -> Option<SlotChannel>
    ensures { MatchOption result
        ((p : SlotChannel) → IsSlotChannel p → slot.now ≡ slot_word p.slot → channel.now ≢ channel_word p.channel)
        (λ p. IsSlotChannel p × (slot.now ≡ slot_word p.slot) × (channel.now ≡ channel_word p.channel)) }
{
    let Some(slot) = slot_of(slot) else {
        return None;
    };
    let Some(channel) = channel_of(channel) else {
        return None;
    };
    Some(SlotChannel { slot, channel })
}

// The slot and the channel of a word.
fn slot_of_word(word: &[u8]) -> Option<SlotChannel>
    ensures { MatchOption result
        ((p : SlotChannel) → IsSlotChannel p → marked_parts 58 word.now ≢ slot_parts p)
        (λ p. IsSlotChannel p × (marked_parts 58 word.now ≡ slot_parts p)) }
{
    let (slot, behind) = first_part(word, b':');
    let Some(behind) = behind else {
        return None;
    };
    let (channel, more) = first_part(behind, b':');
    if more.is_some() {
        return None;
    }
    slot_and_channel(slot, channel)
}

// The slots that a text lists, with their channels; a slot may stand twice. `None` if it is no such list.
fn slots_listed(alloc: Global, text: &[u8]) -> Result<Option<Vec<SlotChannel>>, AllocError>
    // An error comes only if memory is refused: tests/system/calls, rows `job of convert`.
    ensures { IfOk result (λ listed. MatchOption listed ((slots : List SlotChannel) → ¬ (ListsSlots text.now slots)) (λ slots. ListsSlots text.now slots.items)) }
{
    let mut slots = Vec::new(alloc);
    let mut rest = text;
    loop {
        let (word, behind) = first_part(rest, b',');
        let Some(slot) = slot_of_word(word) else {
            return Ok(None);
        };
        slots.push(slot)?;
        let Some(next) = behind else {
            return Ok(Some(slots));
        };
        rest = next;
    }
}

// The slots that a text writes.
fn slots_of(alloc: Global, text: &[u8]) -> Result<Option<Vec<SlotChannel>>, AllocError>
    // An error comes only if memory is refused: tests/system/calls, rows `job of convert`.
    ensures { IfOk result (λ listed. MatchOption listed ((slots : List SlotChannel) → ¬ (WritesSlots text.now slots)) (λ slots. WritesSlots text.now slots.items)) }
{
    if text == b"none".as_slice() {
        return Ok(Some(Vec::new(alloc)));
    }
    slots_listed(alloc, text)
}

// The channels of these slots; `None` exactly if a slot stands twice.
fn channels_of(slots: &[SlotChannel]) -> Option<Channels>
    requires { All IsSlotChannel slots.now }
    ensures { MatchOption result (¬ (AreSlotsUnlike slots.now)) (λ channels. AreSlotsUnlike slots.now × AreChannelsOf slots.now channels) }
{
    let mut channels = Channels::new();
    for place in 0..slots.len() {
        let own = slots[place];
        if channels.channel(own.slot).is_some() {
            return None;
        }
        channels.set(own.slot, own.channel);
    }
    Some(channels)
}

/// The channels that a text writes.
pub(crate) fn channels_said(alloc: Global, text: &str) -> Result<Channels, WordsFault>
    ensures said { IfOk result (WritesChannels text.now) }
    // `OutOfMemory` comes only if memory is refused: tests/system/calls, rows `job of convert ..`.
    ensures refused { IfErr result (IsRefusal (λ cause. (cause ≡ BadWords.Channels) × HasNoChannels text.now)) }
{
    let Some(slots) = slots_of(alloc, text.as_bytes())? else {
        return Err(BadWords::Channels.into());
    };
    match channels_of(slots.as_slice()) {
        Some(channels) => Ok(channels),
        None => Err(BadWords::Channels.into()),
    }
}
