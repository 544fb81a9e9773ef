//! A message of the wider set: one of the four types, another MSM4 to MSM7 of any system, or a 1012.

ghost use Rattle.std.specs.Prelude.{◌≡◌, IsTrue, ◌↔◌};
ghost use Rattle.rtk_message.specs.AnyDecoded.{IsValid, station_of, number_of, tow_of};

use crate::layout::Layout;
use crate::message::Message;
use crate::msm::Msm;
use crate::obs1012::Obs1012;

/// A message that a set of messages can have (`Accepted`), with all fields of its table. Source: RTCM
/// 10403.3, messages 1004 to 1006, 1012, and 1071 to 1137.
#[derive(PartialEq, Eq, Drop)]
pub enum AnyMessage {
    /// A 1004, 1005, 1006 or 1074.
    Message(Message),
    /// An MSM4 to MSM7 of any system, but no 1074.
    Msm(Msm),
    /// GLONASS observations on L1 and L2.
    Obs1012(Obs1012),
}

impl AnyMessage {
    /// Returns whether the message can be written as bits: each field fits its width, list lengths
    /// agree with counts and masks, the clock tells a time, and the cell mask has at most 64 bits.
    /// An `Msm` of GPS and of the kind MSM4 can't: a 1074 is a `Msm1074`.
    pub fn fits(&self) -> bool
        ensures { IsTrue result ↔ IsValid self.now }
    {
        match self {
            AnyMessage::Message(message) => message.fits(),
            AnyMessage::Msm(message) => message.fits(),
            AnyMessage::Obs1012(message) => message.fits(),
        }
    }

    /// Returns the reference station ID (DF003), which is 0 to 4095 in a message that fits.
    pub fn station(&self) -> u16
        ensures { result ≡ station_of self.now }
    {
        match self {
            AnyMessage::Message(message) => message.station(),
            AnyMessage::Msm(message) => message.header.station,
            AnyMessage::Obs1012(message) => message.station,
        }
    }

    /// Returns the message number (DF002).
    pub fn number(&self) -> u16
        ensures { result ≡ number_of self.now }
    {
        match self {
            AnyMessage::Message(message) => message.number(),
            AnyMessage::Msm(message) => message.msm_type().number(),
            AnyMessage::Obs1012(_) => Obs1012::NUMBER,
        }
    }

    /// Returns the clock of the message's system, as `MsmHeader` has it. That of GPS is its time of
    /// week (DF004) in ms, and that of a 1012 has an unknown day. It is `None` exactly for 1005 and 1006,
    /// which have no time.
    pub fn tow(&self) -> Option<u32>
        ensures { result ≡ tow_of self.now }
    {
        match self {
            AnyMessage::Message(message) => message.tow(),
            AnyMessage::Msm(message) => Some(message.header.tow),
            AnyMessage::Obs1012(message) => Some(message.clock()),
        }
    }
}
