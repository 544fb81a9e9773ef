//! From a message to the bytes of its payload, and back again.

ghost use Rattle.std.specs.Prelude.{◌≡◌, ◌++◌, OnOk, IfOk, IsTrue, Ok, List, ℕ, Result};
ghost use Rattle.rtk_bits.specs.Bits.{bits};
ghost use Rattle.rtk_message.specs.Fields.{bits_of_fields};
ghost use Rattle.rtk_message.specs.declared.message.Message.{Message};
ghost use Rattle.rtk_message.specs.declared.fault.DecodeFault.{DecodeFault};
ghost use Rattle.rtk_message.specs.declared.accepted.Accepted.{Accepted};
ghost use Rattle.rtk_message.specs.declared.any_fault.AnyFault.{AnyFault};
ghost use Rattle.rtk_message.specs.declared.any_message.AnyMessage.{AnyMessage};
ghost use Rattle.rtk_message.specs.Accepted.{accepts};
ghost use Rattle.rtk_message.specs.Decoded.{IsValid, IsPayloadOf, Decodes};
ghost use Rattle.rtk_message.specs.AnyDecoded as any;
ghost use Rattle.rtk_message.specs.MsmForm as form;

use crate::accepted::Accepted;
use crate::any_fault::AnyFault;
use crate::any_message::AnyMessage;
use crate::fault::DecodeFault;
use crate::message::{Message, write_as};
use crate::msm::Msm;
use rtk_bits::BitWriter;
use std::alloc::{AllocError, Global};

/// Returns the bytes of a payload, which are the fields of the message, filled up to a whole byte
/// with zero bits. An `Err` means that memory was refused.
pub fn encode(alloc: Global, message: &Message) -> Result<Vec<u8>, AllocError>
    requires { IsValid message.now }
    // Fails only if memory is refused: tests/system/calls, rows encode.
    ensures { IfOk result (λ payload. IsPayloadOf message.now payload.items) }
{
    let mut writer = BitWriter::new(alloc);
    message.write(&mut writer)?;
    Ok(writer.finish())
}

/// Returns the bytes of a payload of a message of the wider set, as `encode` makes them.
pub fn encode_any(alloc: Global, message: &AnyMessage) -> Result<Vec<u8>, AllocError>
    requires { any.IsValid message.now }
    ensures { IfOk result (λ payload. any.IsPayloadOf message.now payload.items) }
{
    let mut writer = BitWriter::new(alloc);
    match message {
        AnyMessage::Message(message) => message.write(&mut writer)?,
        AnyMessage::Msm(message) => write_msm(&mut writer, message)?,
        AnyMessage::Obs1012(message) => write_as(&mut writer, message)?,
    }
    Ok(writer.finish())
}

// Puts the number of an MSM other than 1074, and the fields after it.
fn write_msm(writer: &mut BitWriter, message: &Msm) -> Result<(), AllocError>
    requires { form.IsValid message.now }
    ensures { OnOk result (writer.new ≡ writer.old ++ bits_of_fields (any.table (AnyMessage.Msm message.now))) }
{
    writer.put_u(12, message.msm_type().number() as u64)?;
    message.write(writer)?;
    Ok(())
}

/// A law: if `encode` writes a message, `decode` reads the same message from these bytes.
pub fn decode_of_encode()
    ensures { (m : Message) (payload : List ℕ) (r : Result Message DecodeFault) → IsValid m
        → IsPayloadOf m payload → Decodes (bits payload) r → r ≡ Ok m }
{}

/// A law: if `encode_any` writes a message of a set, `decode_any` reads the same message from these
/// bytes by this set, and so does `AnyDecoder::read`. An MSM of GLONASS whose day is unknown is read by a set
/// with 1012.
pub fn decode_any_of_encode_any()
    ensures { (a : Accepted) (m : AnyMessage) (payload : List ℕ) (r : Result AnyMessage AnyFault) → any.IsValid m
        → IsTrue (accepts a (any.number_of m)) → IsTrue (any.takes_clock a.obs1012 m) → any.IsPayloadOf m payload
        → any.DecodesBy a (bits payload) r → r ≡ Ok m }
{}
