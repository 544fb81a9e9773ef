//! The frequencies of carriers, and the frequency channels of GLONASS.

ghost use Rattle.std.specs.Prelude.{◌≡◌, ◌≢◌, ℕ, ◌%◌, IfSome, Some, None};
ghost use Rattle.std.specs.Option.{SomeIff};
ghost use Rattle.rtk_obs.specs.declared.carrier.Carrier.TheVariants.{G1, G2};
ghost use Rattle.rtk_obs.specs.Carriers.{IsChannel, frequency_at, IsSlot, channel_at};

use std::marker::Model;

/// A frequency channel of GLONASS, from -7 to 6. Contracts see its number.
#[derive(Clone, Copy, Debug, PartialEq, Eq, Hash)]
pub struct Channel {
    number: i8,
}

impl Model for Channel {
    ghost use Rattle.std.specs.Prelude.{ℤ};
    ghost use Rattle.rtk_obs.specs.Carriers.{IsChannel};

    ghost Value = { ℤ };

    ghost view = { λ c. c.number };

    ghost invariant = { λ c. IsChannel c.number };

    ghost inverse = { λ k. record { number = k } };
}

impl Channel {
    /// Returns the channel with this number, or `None` if there is none.
    pub fn new(number: i8) -> Option<Channel>
        ensures { SomeIff result (IsChannel number) number }
    {
        if -7 <= number && number <= 6 {
            Some(Channel { number })
        } else {
            None
        }
    }

    /// Returns the number, from -7 to 6.
    pub fn number(self) -> i8
        ensures value { result ≡ self }
        ensures bound { IsChannel result }
    {
        self.number
    }
}

/// The carrier of a signal. Source: RINEX 3.05, Tables 4 to 10.
#[derive(Clone, Copy, Debug, PartialEq, Eq, Hash)]
pub enum Carrier {
    /// L1, E1 and B1C, 1,575.42 MHz.
    L1,
    /// L2, 1,227.60 MHz.
    L2,
    /// L5, E5a and B2a, 1,176.45 MHz.
    L5,
    /// G1, 1,602 MHz, and 562.5 kHz for each channel.
    G1,
    /// G2, 1,246 MHz, and 437.5 kHz for each channel.
    G2,
    /// B1, 1,561.098 MHz.
    B1,
    /// B3, 1,268.52 MHz.
    B3,
    /// E6 and L6, 1,278.75 MHz.
    E6,
    /// E5b, B2 and B2b, 1,207.14 MHz.
    E5b,
    /// E5, 1,191.795 MHz.
    E5,
}

// Returns the frequency of G1 on a channel, in Hz.
fn g1_frequency(channel: Channel) -> u32
    ensures whole { result % 4 ≡ 0 }
    ensures value { Some result ≡ frequency_at G1 (Some channel) }
{
    (1_602_000_000 + 562_500 * i32::from(channel.number())) as u32
}

// Returns the frequency of G2 on a channel, in Hz.
fn g2_frequency(channel: Channel) -> u32
    ensures whole { result % 4 ≡ 0 }
    ensures value { Some result ≡ frequency_at G2 (Some channel) }
{
    (1_246_000_000 + 437_500 * i32::from(channel.number())) as u32
}

impl Carrier {
    /// Returns the frequency in Hz, or `None` if it depends on a channel that is not known.
    pub fn frequency(self, channel: Option<Channel>) -> Option<u32>
        ensures value { result ≡ frequency_at self channel }
        ensures whole { IfSome result (λ f. f % 4 ≡ 0) }
    {
        match self {
            Carrier::L1 => Some(1_575_420_000),
            Carrier::L2 => Some(1_227_600_000),
            Carrier::L5 => Some(1_176_450_000),
            Carrier::G1 => Some(g1_frequency(channel?)),
            Carrier::G2 => Some(g2_frequency(channel?)),
            Carrier::B1 => Some(1_561_098_000),
            Carrier::B3 => Some(1_268_520_000),
            Carrier::E6 => Some(1_278_750_000),
            Carrier::E5b => Some(1_207_140_000),
            Carrier::E5 => Some(1_191_795_000),
        }
    }
}

// The slots of GLONASS.
const SLOTS: usize = 27;

/// The frequency channels of the slots of GLONASS from 1 to 27. A slot can have none.
///
/// Contracts see the list of places, read by `channel_at`.
#[derive(Clone, Copy, Debug, PartialEq, Eq)]
pub struct Channels {
    numbers: [Option<i8>; SLOTS],
}

impl Model for Channels {
    ghost use Rattle.std.specs.Prelude.{ℤ, List, Option};
    ghost use Rattle.rtk_obs.specs.Carriers.{AreChannels};

    ghost Value = { List (Option ℤ) };

    ghost view = { λ c. c.numbers };

    ghost invariant = { λ c. AreChannels c.numbers };

    ghost inverse = { λ ns. record { numbers = ns } };
}

impl Channels {
    /// Makes channels of which no slot has one.
    pub fn new() -> Channels
        ensures { (slot : ℕ) → channel_at result slot ≡ None }
    {
        Channels {
            numbers: [None; SLOTS],
        }
    }

    /// Sets the channel of a slot.
    pub fn set(&mut self, slot: u8, channel: Channel)
        requires { IsSlot slot }
        ensures set { channel_at self.new slot ≡ Some channel }
        ensures others { (s : ℕ) → IsSlot s → s ≢ slot → channel_at self.new s ≡ channel_at self.old s }
    {
        self.numbers[usize::from(slot) - 1] = Some(channel.number());
    }

    /// Returns the channel of a slot, if it has one.
    pub fn channel(&self, slot: u8) -> Option<Channel>
        requires { IsSlot slot }
        ensures { result ≡ channel_at self.now slot }
    {
        match self.numbers[usize::from(slot) - 1] {
            Some(number) => Channel::new(number),
            None => None,
        }
    }
}
