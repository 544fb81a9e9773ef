//! From the bytes of a payload to its message, by a set of messages.

ghost use Rattle.std.specs.Prelude.{◌≡◌, ◌<◌, ◌++◌, Bool, false, List, Some, Err, IfOk, IfErr, IsTrue};
ghost use Rattle.rtk_bits.specs.Bits.{bits, bits_of};
ghost use Rattle.rtk_message.specs.AnyDecoded.{DecodesBy, any_of, fault_after_number, takes_clock};
ghost use Rattle.rtk_message.specs.MsmForm.{IsWide};
ghost use Rattle.rtk_message.specs.Steps.AfterAnyNumber.{BeginsAfterAnyNumber};
ghost use Rattle.rtk_message.specs.Systems.{number_of_type};

use crate::accepted::Accepted;
use crate::any_fault::AnyFault;
use crate::any_message::AnyMessage;
use crate::arp1005::Arp1005;
use crate::arp1006::Arp1006;
use crate::fault::DecodeFault;
use crate::layout::Layout;
use crate::message::{Message, read_by_number};
use crate::msm::Msm;
use crate::msm_type::MsmType;
use crate::msm1074::Msm1074;
use crate::obs1004::Obs1004;
use crate::obs1012::Obs1012;
use rtk_bits::BitReader;

/// Returns the message of the set that the payload begins with. If it begins with no message of the
/// set, the answer is the first fault; `AnyFault` says in which order faults are looked for.
///
/// Bits after the last field are not part of the message. No memory is allocated. With the set
/// `Accepted::FOUR` the answer is that of `decode`.
#[inline(never)]
pub fn decode_any(accepted: Accepted, payload: &[u8]) -> Result<AnyMessage, AnyFault>
    ensures { DecodesBy accepted (bits payload.now) result }
{
    let mut reader = BitReader::new(payload);
    let Some(number) = reader.take_u(12) else {
        return Err(AnyFault::NoNumber);
    };
    let number = number as u16;
    if !accepted.accepts(number) {
        return Err(AnyFault::Other { number });
    }
    read_any_by_number(number, accepted.obs1012, reader)
}

/// Decodes payloads one after another by a set of messages, and keeps the last reading of each kind.
///
/// A message is read over the last one of its type: the room of a reading, more than a thousand bytes,
/// is then neither cleared nor moved. A decoder holds some 10,000 bytes.
#[derive(Drop)]
pub struct AnyDecoder {
    // The last reading of a 1004.
    obs1004: Result<AnyMessage, AnyFault>,
    // The last reading of a 1074.
    msm1074: Result<AnyMessage, AnyFault>,
    // The last reading of another MSM.
    msm: Result<AnyMessage, AnyFault>,
    // The last reading of a 1005.
    arp1005: Result<AnyMessage, AnyFault>,
    // The last reading of a 1006.
    arp1006: Result<AnyMessage, AnyFault>,
    // The last reading of another payload.
    other: Result<AnyMessage, AnyFault>,
}

impl AnyDecoder {
    /// Makes a decoder that has read nothing yet. It takes no memory.
    pub fn new() -> AnyDecoder {
        AnyDecoder {
            obs1004: Err(AnyFault::NoNumber),
            msm1074: Err(AnyFault::NoNumber),
            msm: Err(AnyFault::NoNumber),
            arp1005: Err(AnyFault::NoNumber),
            arp1006: Err(AnyFault::NoNumber),
            other: Err(AnyFault::NoNumber),
        }
    }

    /// Returns the message of the set that the payload begins with, or the first fault. This is the
    /// answer of `decode_any`, whatever was read before and by which set. It is lent until the next
    /// call. No memory is allocated.
    #[inline(never)]
    pub fn read(&mut self, accepted: Accepted, payload: &[u8]) -> &Result<AnyMessage, AnyFault>
        ensures { DecodesBy accepted (bits payload.now) result.now }
    {
        let mut reader = BitReader::new(payload);
        let Some(number) = reader.take_u(12) else {
            keep_fault(&mut self.other, AnyFault::NoNumber);
            return &self.other;
        };
        let number = number as u16;
        match number {
            Obs1004::NUMBER => {
                keep_1004(&mut self.obs1004, reader);
                &self.obs1004
            }
            Msm1074::NUMBER if accepted.gps.msm4 => {
                keep_1074(&mut self.msm1074, reader);
                &self.msm1074
            }
            Arp1005::NUMBER => {
                keep_1005(&mut self.arp1005, reader);
                &self.arp1005
            }
            Arp1006::NUMBER => {
                keep_1006(&mut self.arp1006, reader);
                &self.arp1006
            }
            _ => self.read_other_number(accepted, number, reader),
        }
    }

    // Reads a message with another number than 1004, and than 1074 if that is in the set.
    fn read_other_number(
        &mut self,
        accepted: Accepted,
        number: u16,
        reader: BitReader<'_>,
    ) -> &Result<AnyMessage, AnyFault>
        requires { number < 4096 }
        ensures { (bs : List Bool) → bs ≡ bits_of 12 number ++ reader.entry → DecodesBy accepted bs result.now }
    {
        if !accepted.accepts(number) {
            keep_fault(&mut self.other, AnyFault::Other { number });
            return &self.other;
        }
        let Some(msm_type) = MsmType::wide_of_number(number) else {
            keep_new(&mut self.other, number, accepted.obs1012, reader);
            return &self.other;
        };
        keep_msm(&mut self.msm, msm_type, accepted.obs1012, reader);
        &self.msm
    }
}

// Reads a 1004, over the one that is kept.
#[inline(never)]
fn keep_1004(kept: &mut Result<AnyMessage, AnyFault>, mut reader: BitReader<'_>)
    ensures message { IfOk kept.new (λ m. BeginsAfterAnyNumber 1004 reader.entry m) }
    ensures fault { IfErr kept.new (λ f. fault_after_number false 1004 reader.entry ≡ Some f) }
{
    if let Ok(AnyMessage::Message(Message::Obs1004(message))) = kept {
        let Err(fault) = message.replace_fields(&mut reader) else {
            return;
        };
        keep_fault(kept, AnyFault::from(fault));
        return;
    }
    keep_new(kept, Obs1004::NUMBER, false, reader);
}

// Reads a 1074, over the one that is kept.
#[inline(never)]
fn keep_1074(kept: &mut Result<AnyMessage, AnyFault>, mut reader: BitReader<'_>)
    ensures message { IfOk kept.new (λ m. BeginsAfterAnyNumber 1074 reader.entry m) }
    ensures fault { IfErr kept.new (λ f. fault_after_number false 1074 reader.entry ≡ Some f) }
{
    if let Ok(AnyMessage::Message(Message::Msm1074(message))) = kept {
        let Err(fault) = message.replace_fields(&mut reader) else {
            return;
        };
        keep_fault(kept, AnyFault::from(fault));
        return;
    }
    keep_new(kept, Msm1074::NUMBER, false, reader);
}

// Reads a 1005, over the one that is kept.
#[inline(never)]
fn keep_1005(kept: &mut Result<AnyMessage, AnyFault>, mut reader: BitReader<'_>)
    ensures message { IfOk kept.new (λ m. BeginsAfterAnyNumber 1005 reader.entry m) }
    ensures fault { IfErr kept.new (λ f. fault_after_number false 1005 reader.entry ≡ Some f) }
{
    if let Ok(AnyMessage::Message(Message::Arp1005(message))) = kept {
        let Err(fault) = message.read(&mut reader) else {
            return;
        };
        keep_fault(kept, AnyFault::from(fault));
        return;
    }
    keep_new(kept, Arp1005::NUMBER, false, reader);
}

// Reads a 1006, over the one that is kept.
#[inline(never)]
fn keep_1006(kept: &mut Result<AnyMessage, AnyFault>, mut reader: BitReader<'_>)
    ensures message { IfOk kept.new (λ m. BeginsAfterAnyNumber 1006 reader.entry m) }
    ensures fault { IfErr kept.new (λ f. fault_after_number false 1006 reader.entry ≡ Some f) }
{
    if let Ok(AnyMessage::Message(Message::Arp1006(message))) = kept {
        let Err(fault) = message.read(&mut reader) else {
            return;
        };
        keep_fault(kept, AnyFault::from(fault));
        return;
    }
    keep_new(kept, Arp1006::NUMBER, false, reader);
}

// Reads an MSM other than 1074, over the one of these that is kept.
#[inline(never)]
fn keep_msm(
    kept: &mut Result<AnyMessage, AnyFault>,
    msm_type: MsmType,
    any_day: bool,
    mut reader: BitReader<'_>,
)
    requires { IsWide msm_type }
    ensures message { IfOk kept.new (λ m. BeginsAfterAnyNumber (number_of_type msm_type) reader.entry m) }
    ensures clock { IfOk kept.new (λ m. IsTrue (takes_clock any_day m)) }
    ensures fault { IfErr kept.new (λ f. fault_after_number any_day (number_of_type msm_type) reader.entry ≡ Some f) }
{
    if let Ok(AnyMessage::Msm(message)) = kept {
        let Err(fault) = message.replace_fields(msm_type, any_day, &mut reader) else {
            return;
        };
        keep_fault(kept, fault);
        return;
    }
    keep_new_msm(kept, msm_type, any_day, reader);
}

// These have a reading among their locals, which a function clears when it is called. They are not
// inlined, so that this is done only if one of them is called.

// Keeps a new reading of a message of this number.
#[inline(never)]
fn keep_new(
    kept: &mut Result<AnyMessage, AnyFault>,
    number: u16,
    any_day: bool,
    reader: BitReader<'_>,
)
    ensures message { IfOk kept.new (λ m. BeginsAfterAnyNumber number reader.entry m) }
    ensures clock { IfOk kept.new (λ m. IsTrue (takes_clock any_day m)) }
    ensures fault { IfErr kept.new (λ f. fault_after_number any_day number reader.entry ≡ Some f) }
{
    *kept = read_any_by_number(number, any_day, reader);
}

// Keeps a new reading of an MSM that is no 1074.
#[inline(never)]
fn keep_new_msm(
    kept: &mut Result<AnyMessage, AnyFault>,
    msm_type: MsmType,
    any_day: bool,
    reader: BitReader<'_>,
)
    requires { IsWide msm_type }
    ensures message { IfOk kept.new (λ m. BeginsAfterAnyNumber (number_of_type msm_type) reader.entry m) }
    ensures clock { IfOk kept.new (λ m. IsTrue (takes_clock any_day m)) }
    ensures fault { IfErr kept.new (λ f. fault_after_number any_day (number_of_type msm_type) reader.entry ≡ Some f) }
{
    *kept = read_msm(msm_type, any_day, reader);
}

// Keeps a fault in place of a reading.
#[inline(never)]
fn keep_fault(kept: &mut Result<AnyMessage, AnyFault>, fault: AnyFault)
    ensures { kept.new ≡ Err fault }
{
    *kept = Err(fault);
}

// Reads the message after its number.
fn read_any_by_number(
    number: u16,
    any_day: bool,
    reader: BitReader<'_>,
) -> Result<AnyMessage, AnyFault>
    ensures message { IfOk result (λ m. BeginsAfterAnyNumber number reader.entry m) }
    ensures clock { IfOk result (λ m. IsTrue (takes_clock any_day m)) }
    ensures fault { IfErr result (λ f. fault_after_number any_day number reader.entry ≡ Some f) }
{
    if number == Obs1012::NUMBER {
        return read_1012(reader);
    }
    match MsmType::wide_of_number(number) {
        Some(msm_type) => read_msm(msm_type, any_day, reader),
        None => widened(read_by_number(number, reader)),
    }
}

// Returns a reading of one of the four messages as a reading of the wider set.
fn widened(reading: Result<Message, DecodeFault>) -> Result<AnyMessage, AnyFault>
    ensures { result ≡ any_of reading }
{
    match reading {
        Ok(message) => Ok(AnyMessage::Message(message)),
        Err(fault) => Err(AnyFault::from(fault)),
    }
}

// Reads an MSM that is no 1074 after its number.
#[inline(never)]
fn read_msm(
    msm_type: MsmType,
    any_day: bool,
    mut reader: BitReader<'_>,
) -> Result<AnyMessage, AnyFault>
    requires { IsWide msm_type }
    ensures message { IfOk result (λ m. BeginsAfterAnyNumber (number_of_type msm_type) reader.entry m) }
    ensures clock { IfOk result (λ m. IsTrue (takes_clock any_day m)) }
    ensures fault { IfErr result (λ f. fault_after_number any_day (number_of_type msm_type) reader.entry ≡ Some f) }
{
    let mut message = Msm::empty(msm_type);
    message.replace_fields(msm_type, any_day, &mut reader)?;
    Ok(AnyMessage::Msm(message))
}

// Reads a 1012 after its number. One comes at most once an epoch, so it is not read over the last one.
#[inline(never)]
fn read_1012(mut reader: BitReader<'_>) -> Result<AnyMessage, AnyFault>
    ensures message { IfOk result (λ m. BeginsAfterAnyNumber 1012 reader.entry m) }
    ensures clock { (any_day : Bool) → IfOk result (λ m. IsTrue (takes_clock any_day m)) }
    ensures fault { IfErr result (λ f. fault_after_number false 1012 reader.entry ≡ Some f) }
{
    let mut message = Obs1012::empty();
    match message.read(&mut reader) {
        Ok(()) => Ok(AnyMessage::Obs1012(message)),
        Err(fault) => Err(AnyFault::from(fault)),
    }
}
