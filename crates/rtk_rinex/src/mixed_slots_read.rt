//! The slots of GLONASS in a header, read without a test of their form.

ghost use Rattle.std.specs.Prelude.{◌≡◌, ℕ, ℤ, ◌≤◌, take, drop, unsigned_abs, Some};
ghost use Rattle.rtk_obs.specs.Carriers.{IsChannel, AreChannels};
ghost use Rattle.rtk_rinex.specs.Columns.{is_negative as is_negative_channel};
ghost use Rattle.rtk_rinex.specs.MixedHeader.{channel_text};
ghost use Rattle.rtk_rinex.specs.Steps.HeaderShown.{number_at};
ghost use Rattle.rtk_rinex.specs.Steps.MixedHeaderRead.{slot_at, ShowsSlots};

use crate::digits::{columns_at, is_same, number_at};
use rtk_obs::{Channel, Channels};

// The bytes of a line of slots, its LF included.
const SLOTS_LINE: usize = 81;

// The number of slots.
const SLOTS: usize = 27;

// Returns how many slots the first line of slots shows, at which a text begins, or 27 if it shows more.
fn read_slot_count(text: &[u8]) -> usize
    ensures bound { result ≤ 27 }
    ensures shown { (n : ℕ) → n ≤ 27 → number_at 0 3 text.now ≡ n → result ≡ n }
{
    (number_at(text, 0, 3) as usize).min(SLOTS)
}

// Returns the columns of the slot that follows `before` slots in the lines of slots, at which a text
// begins.
fn read_slot(text: &[u8], before: usize) -> &[u8]
    requires { before ≤ 26 }
    ensures { result.now ≡ slot_at before text.now }
{
    let line = columns_at(text, SLOTS_LINE * (before / 8), SLOTS_LINE);
    columns_at(line, 4 + 7 * (before % 8), 7)
}

// Returns the number of a slot in its columns if it is one of these, else the least of these.
fn slot_number(columns: &[u8], least: u8, most: u8) -> u8
    requires least { least ≤ most }
    requires most { most ≤ 27 }
    ensures low { least ≤ result }
    ensures high { result ≤ most }
    ensures shown { (slot : ℕ) → least ≤ slot → slot ≤ most → number_at 1 2 columns.now ≡ slot → result ≡ slot }
{
    let number = number_at(columns, 1, 2);
    if number < u64::from(least) || number > u64::from(most) {
        return least;
    }
    number as u8
}

// Returns the channel of a sign and a digit, or `None` if there is none.
fn signed_channel(is_negative: bool, digit: u8) -> Option<Channel>
    requires { digit ≤ 9 }
    ensures { (k : ℤ) → IsChannel k → is_negative ≡ is_negative_channel k → digit ≡ unsigned_abs k → result ≡ Some k }
{
    let number = digit as i8;
    if is_negative {
        Channel::new(-number)
    } else {
        Channel::new(number)
    }
}

// Returns the channel 0.
fn any_channel() -> Channel {
    let Some(channel) = Channel::new(0) else {
        unreachable!();
    };
    channel
}

// Returns the channel in the columns of a slot, or 0 if there is none.
fn slot_channel(columns: &[u8]) -> Channel
    ensures { (k : ℤ) → IsChannel k → take 2 (drop 4 columns.now) ≡ channel_text k → result ≡ k }
{
    let is_negative = is_same(columns_at(columns, 4, 1), b"-");
    let digit = number_at(columns, 5, 1) as u8;
    signed_channel(is_negative, digit).unwrap_or(any_channel())
}

// Returns the same channels. The function only hands on, and it is here for its clause.
fn known(channels: Channels) -> Channels
    ensures value { result ≡ channels }
    ensures good { AreChannels result }
{
    channels
}

/// Returns the channels of the slots that the lines of slots show, at which a text begins. Where they
/// show no slot that can stand there, another one stands in its place.
pub(crate) fn read_slots(text: &[u8]) -> Channels
    ensures { ShowsSlots text.now result }
{
    let count = read_slot_count(text);
    let mut channels = Channels::new();
    let mut last = 0u8;
    for i in 0..count {
        let columns = read_slot(text, i);
        // The slots that follow need numbers too.
        let most = (SLOTS + 1 + i - count) as u8;
        let slot = slot_number(columns, last + 1, most);
        channels.set(slot, slot_channel(columns));
        last = slot;
    }
    known(channels)
}
