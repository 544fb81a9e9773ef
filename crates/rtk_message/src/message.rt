//! A message of any of the four types, and what differs by its type.

ghost use Rattle.std.specs.Prelude.{◌≡◌, ◌<◌, ◌∷◌, ◌++◌, Some, IfOk, IfErr, OnOk, IsTrue, ◌↔◌};
ghost use Rattle.rtk_message.specs.declared.message.Message.{Message};
ghost use Rattle.rtk_message.specs.Decoded.{IsValid, station_of, number_of, tow_of, table, fault_after_number};
ghost use Rattle.rtk_message.specs.Fields.{u, bits_of_fields};
ghost use Rattle.rtk_message.specs.Steps.AfterNumber.{BeginsAfterNumber};

use crate::arp1005::Arp1005;
use crate::arp1006::Arp1006;
use crate::fault::DecodeFault;
use crate::layout::Layout;
use crate::msm1074::Msm1074;
use crate::obs1004::Obs1004;
use rtk_bits::{BitReader, BitWriter};
use std::alloc::AllocError;

/// A message of a base station with all fields of its table, reserved ones included. Source: RTCM
/// 10403.3, messages 1004, 1005, 1006 and 1074.
#[derive(PartialEq, Eq, Drop)]
pub enum Message {
    /// GPS observations on L1 and L2.
    Obs1004(Obs1004),
    /// The antenna reference point.
    Arp1005(Arp1005),
    /// The antenna reference point with the antenna height.
    Arp1006(Arp1006),
    /// GPS observations of any signals (MSM4).
    Msm1074(Msm1074),
}

impl Message {
    /// Returns whether the message can be written as bits: each field fits its width, list lengths
    /// agree with counts and masks, the time of week is less than 604,800,000 ms, and the cell mask
    /// has at most 64 bits.
    pub fn fits(&self) -> bool
        ensures { IsTrue result ↔ IsValid self.now }
    {
        match self {
            Message::Obs1004(message) => message.fits(),
            Message::Arp1005(message) => message.fits(),
            Message::Arp1006(message) => message.fits(),
            Message::Msm1074(message) => message.fits(),
        }
    }

    /// Returns the reference station ID (DF003), which is 0 to 4095 in a message that fits.
    pub fn station(&self) -> u16
        ensures { result ≡ station_of self.now }
    {
        match self {
            Message::Obs1004(message) => message.station,
            Message::Arp1005(message) => message.station,
            Message::Arp1006(message) => message.arp.station,
            Message::Msm1074(message) => message.header.station,
        }
    }

    /// Returns the message number (DF002).
    pub fn number(&self) -> u16
        ensures { result ≡ number_of self.now }
    {
        match self {
            Message::Obs1004(_) => Obs1004::NUMBER,
            Message::Arp1005(_) => Arp1005::NUMBER,
            Message::Arp1006(_) => Arp1006::NUMBER,
            Message::Msm1074(_) => Msm1074::NUMBER,
        }
    }

    /// Returns the GPS time of week (DF004) in ms. It is `None` exactly for 1005 and 1006, which
    /// have no time.
    pub fn tow(&self) -> Option<u32>
        ensures { result ≡ tow_of self.now }
    {
        match self {
            Message::Obs1004(message) => Some(message.tow),
            Message::Arp1005(_) | Message::Arp1006(_) => None,
            Message::Msm1074(message) => Some(message.header.tow),
        }
    }

    /// Puts the number and the fields after it.
    pub(crate) fn write(&self, writer: &mut BitWriter) -> Result<(), AllocError>
        requires { IsValid self.now }
        ensures { OnOk result (writer.new ≡ writer.old ++ bits_of_fields (table self.now)) }
    {
        match self {
            Message::Obs1004(message) => write_as(writer, message),
            Message::Arp1005(message) => write_as(writer, message),
            Message::Arp1006(message) => write_as(writer, message),
            Message::Msm1074(message) => write_as(writer, message),
        }
    }
}

/// Puts the number and the fields after it. The proof uses only the clauses of `Layout`.
pub(crate) fn write_as<T: Layout>(writer: &mut BitWriter, message: &T) -> Result<(), AllocError>
    requires number { T.NUMBER < 4096 }
    requires valid { T.IsValid message.now }
    ensures { OnOk result (writer.new ≡ writer.old ++ bits_of_fields (u 12 T.NUMBER ∷ T.table message.now)) }
{
    writer.put_u(12, T::NUMBER as u64)?;
    message.write(writer)?;
    Ok(())
}

/// Reads the message after its number, which was read already.
pub(crate) fn read_by_number(number: u16, reader: BitReader<'_>) -> Result<Message, DecodeFault>
    ensures message { IfOk result (λ m. BeginsAfterNumber number reader.entry m) }
    ensures fault { IfErr result (λ f. fault_after_number number reader.entry ≡ Some f) }
{
    match number {
        Obs1004::NUMBER => read_1004(reader),
        Arp1005::NUMBER => read_1005(reader),
        Arp1006::NUMBER => read_1006(reader),
        Msm1074::NUMBER => read_1074(reader),
        _ => Err(DecodeFault::Other { number }),
    }
}

// Reads a 1004 after its number. Each message type has a function of its own that is not inlined,
// for two reasons. A function clears the memory of its locals when it is called: here this is the
// memory of one message, and in `read_by_number` it would be that of all four. And a function that
// is not inlined writes its result where its caller wants it, so a message of a thousand bytes is
// moved once less.
#[inline(never)]
fn read_1004(mut reader: BitReader<'_>) -> Result<Message, DecodeFault>
    ensures message { IfOk result (λ m. BeginsAfterNumber 1004 reader.entry m) }
    ensures fault { IfErr result (λ f. fault_after_number 1004 reader.entry ≡ Some f) }
{
    let mut message = Obs1004::empty();
    message.read(&mut reader)?;
    Ok(Message::Obs1004(message))
}

// Reads a 1005 after its number.
#[inline(never)]
fn read_1005(mut reader: BitReader<'_>) -> Result<Message, DecodeFault>
    ensures message { IfOk result (λ m. BeginsAfterNumber 1005 reader.entry m) }
    ensures fault { IfErr result (λ f. fault_after_number 1005 reader.entry ≡ Some f) }
{
    let mut message = Arp1005::empty();
    message.read(&mut reader)?;
    Ok(Message::Arp1005(message))
}

// Reads a 1006 after its number.
#[inline(never)]
fn read_1006(mut reader: BitReader<'_>) -> Result<Message, DecodeFault>
    ensures message { IfOk result (λ m. BeginsAfterNumber 1006 reader.entry m) }
    ensures fault { IfErr result (λ f. fault_after_number 1006 reader.entry ≡ Some f) }
{
    let mut message = Arp1006::empty();
    message.read(&mut reader)?;
    Ok(Message::Arp1006(message))
}

// Reads a 1074 after its number.
#[inline(never)]
fn read_1074(mut reader: BitReader<'_>) -> Result<Message, DecodeFault>
    ensures message { IfOk result (λ m. BeginsAfterNumber 1074 reader.entry m) }
    ensures fault { IfErr result (λ f. fault_after_number 1074 reader.entry ≡ Some f) }
{
    let mut message = Msm1074::empty();
    message.read(&mut reader)?;
    Ok(Message::Msm1074(message))
}
