//! From the bytes of a payload to its message.

ghost use Rattle.rtk_bits.specs.Bits.{bits};
ghost use Rattle.rtk_message.specs.Decoded.{Decodes};

use crate::fault::DecodeFault;
use crate::message::{Message, read_by_number};
use rtk_bits::BitReader;

/// Returns the message that the payload begins with. If it begins with no message, the answer is
/// the first fault; `DecodeFault` says in which order faults are looked for.
///
/// Bits after the last field are not part of the message. No memory is allocated.
#[inline(never)]
pub fn decode(payload: &[u8]) -> Result<Message, DecodeFault>
    ensures { Decodes (bits payload.now) result }
{
    let mut reader = BitReader::new(payload);
    let Some(number) = reader.take_u(12) else {
        return Err(DecodeFault::NoNumber);
    };
    read_by_number(number as u16, reader)
}
