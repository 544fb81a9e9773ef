//! Channels that more than two slots of GLONASS have.

ghost use Rattle.std.specs.Prelude.{◌≡◌};
ghost use Rattle.std.specs.List.{sum_by};
ghost use Rattle.rtk_survey.specs.Counting.{shown_count};
ghost use Rattle.rtk_systems.specs.AlikeChannels as spec;

use rtk_obs::{Channel, Channels};

/// The slots of the constellation.
pub(crate) const CONSTELLATION: [u8; 24] = [
    1, 2, 3, 4, 5, 6, 7, 8, 9, 10, 11, 12, 13, 14, 15, 16, 17, 18, 19, 20, 21, 22, 23, 24,
];

/// The channel of a slot, if it has one.
pub(crate) fn channel_in_slot(channels: &Channels, slot: u8) -> Option<Channel>
    ensures { result ≡ spec.channel_in_slot channels.now slot }
{
    if 1 <= slot && slot <= 27 {
        channels.channel(slot)
    } else {
        None
    }
}

/// The number of that channel.
pub(crate) fn number_in_slot(channels: &Channels, slot: u8) -> Option<i8>
    ensures { result ≡ spec.channel_in_slot channels.now slot }
{
    match channel_in_slot(channels, slot) {
        Some(channel) => Some(channel.number()),
        None => None,
    }
}

/// Are both of these one channel?
pub(crate) fn is_same_channel(a: Option<i8>, b: Option<i8>) -> bool
    ensures { result ≡ spec.is_same_channel a b }
{
    match (a, b) {
        (Some(a), Some(b)) => a == b,
        _ => false,
    }
}

fn count_if_same(channels: &Channels, channel: Option<i8>, slot: u8) -> u64
    ensures { result ≡ spec.count_if_same channels.now channel slot }
{
    u64::from(is_same_channel(number_in_slot(channels, slot), channel))
}

// How many of these slots have a channel.
fn slots_among(channels: &Channels, channel: Option<i8>, slots: &[u8]) -> u64
    ensures { result ≡ shown_count (sum_by (spec.count_if_same channels.now channel) slots.now) }
{
    let mut count = 0u64;
    for slot in slots {
        count = count.saturating_add(count_if_same(channels, channel, *slot));
    }
    count
}

// How many slots of the constellation have a channel.
fn slots_with_channel(channels: &Channels, channel: Option<i8>) -> u64
    ensures { result ≡ spec.slots_with_channel channels.now channel }
{
    slots_among(channels, channel, &CONSTELLATION)
}

/// Have more slots a channel than may share it?
pub(crate) fn have_too_many(channels: &Channels, channel: Option<i8>) -> bool
    ensures { result ≡ spec.are_too_many (spec.slots_with_channel channels.now channel) }
{
    2 < slots_with_channel(channels, channel)
}

/// Have more slots than may share a channel that of this one?
pub(crate) fn is_alike(channels: &Channels, slot: u8) -> bool
    ensures { result ≡ spec.is_alike channels.now slot }
{
    slot <= 24 && have_too_many(channels, number_in_slot(channels, slot))
}
