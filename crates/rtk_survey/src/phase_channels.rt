//! The channels of GLONASS on which the phases of a message are counted.

ghost use Rattle.std.specs.Prelude.{◌≡◌, ◌≢◌, ◌<◌, ◌-ℤ◌, ℕ, pos, Some};
ghost use Rattle.rtk_obs.specs.Carriers.{IsSlot, channel_at};
ghost use Rattle.rtk_survey.specs.PhaseChannels as spec;

use crate::channels::{CHANNELS, SLOTS, field_told, tells_channels};
use rtk_message::AnyMessage;
use rtk_obs::{Channel, Channels};

/// The field that tells channel 0.
const FIELD_OF_0: u8 = 7;

// The field of the channel on which phases are counted.
fn phase_field(field: Option<u8>) -> u8
    ensures value { result ≡ spec.phase_field field }
    ensures bound { result < 14 }
{
    match field {
        Some(field) if field < CHANNELS => field,
        _ => FIELD_OF_0,
    }
}

// The channel that a field tells.
fn channel_of_field(field: u8) -> Channel
    requires { field < 14 }
    ensures { result ≡ pos field -ℤ pos 7 }
{
    let Some(channel) = Channel::new(field as i8 - 7) else {
        unreachable!();
    };
    channel
}

// Sets the channel of a slot on which its phases are counted.
fn set_slot(channels: &mut Channels, message: &AnyMessage, slot: u8)
    requires { IsSlot slot }
    ensures own { channel_at channels.new slot ≡ spec.phase_channel message.now slot }
    ensures others { (s : ℕ) → IsSlot s → s ≢ slot → channel_at channels.new s ≡ channel_at channels.old s }
{
    let channel = channel_of_field(phase_field(field_told(message, slot)));
    channels.set(slot, channel);
}

// Each slot is on channel 0.
fn on_channel_0() -> Channels
    ensures { (slot : ℕ) → IsSlot slot → channel_at result slot ≡ Some (pos 0) }
{
    let channel = channel_of_field(FIELD_OF_0);
    let mut channels = Channels::new();
    for slot in 1..SLOTS {
        channels.set(slot, channel);
    }
    channels
}

// Each slot is on the channel that the message tells, or else on channel 0.
fn on_told_channels(message: &AnyMessage) -> Channels
    ensures { (slot : ℕ) → IsSlot slot → channel_at result slot ≡ spec.phase_channel message.now slot }
{
    let mut channels = Channels::new();
    for slot in 1..SLOTS {
        set_slot(&mut channels, message, slot);
    }
    channels
}

/// The channels on which the phases of a message are counted.
pub(crate) fn phase_channels(message: &AnyMessage) -> Channels
    ensures { result ≡ spec.phase_channels message.now }
{
    // most messages tell no channel of any slot
    if tells_channels(message) {
        on_told_channels(message)
    } else {
        on_channel_0()
    }
}
