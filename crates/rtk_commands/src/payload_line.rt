//! The line that is shown of a payload.

ghost use Rattle.std.specs.Prelude.{◌≡◌, ◌++◌, ◌∷◌, [], List, ℕ, IfOk, OnOk};
ghost use Rattle.rtk_message.specs.AnyDecoded.{IsValid};
ghost use Rattle.rtk_message.specs.Decoded as decoded;
ghost use Rattle.rtk_commands.specs.Shown.{four_decimals, metres, coordinate, reference_point, text_1004, text_1005, text_1006, clock_word, msm_text, message_text, IsLineOf};
ghost use Rattle.rtk_commands.specs.ShownBySet.{text_1012, any_message_text, any_refusal_text, any_unread_text, any_line_of, IsLineBy};

use rtk_message::{
    Accepted, AnyDecoder, AnyFault, AnyMessage, Arp1005, Arp1006, Layout, Message, Msm1074,
    MsmHeader, MsmKind, Obs1004, Obs1012, System, decode_any, put_any_fault, put_named, put_number,
};
use std::alloc::{AllocError, Global};

fn decimals_of(magnitude: u64) -> [u8; 5]
    ensures { result ≡ four_decimals magnitude }
{
    let digit = |place: u64| b'0' + (magnitude / place % 10) as u8;
    [b'.', digit(1000), digit(100), digit(10), digit(1)]
}

// A length in 0.0001 m, in metres.
#[tactic(auto, unfolding(crate::specs::Shown::metres))]
fn put_metres(line: &mut Vec<u8>, length: u64) -> Result<(), AllocError>
    ensures { OnOk result (line.new.items ≡ line.old.items ++ metres length) }
{
    put_number(line, length / 10_000)?;
    line.extend_from_slice(&decimals_of(length))
}

// By reference: a signed field of a message that is read and passed by value has no range for the
// prover.
#[tactic(auto, unfolding(crate::specs::Shown::coordinate))]
fn put_coordinate(line: &mut Vec<u8>, value: &i64) -> Result<(), AllocError>
    ensures { OnOk result (line.new.items ≡ line.old.items ++ coordinate value.now) }
{
    if *value < 0 {
        line.push(b'-')?;
    }
    put_metres(line, value.unsigned_abs())
}

// The station and its antenna reference point.
fn put_reference_point(line: &mut Vec<u8>, message: &Arp1005) -> Result<(), AllocError>
    ensures { OnOk result (line.new.items ≡ line.old.items ++ reference_point message.now) }
{
    put_named(line, b" station ", message.station as u64)?;
    line.extend_from_slice(b" x ")?;
    put_coordinate(line, &message.x)?;
    line.extend_from_slice(b" y ")?;
    put_coordinate(line, &message.y)?;
    line.extend_from_slice(b" z ")?;
    put_coordinate(line, &message.z)?;
    Ok(())
}

fn put_1004(line: &mut Vec<u8>, message: &Obs1004) -> Result<(), AllocError>
    ensures { OnOk result (line.new.items ≡ line.old.items ++ text_1004 message.now) }
{
    put_named(line, b"1004 station ", message.station as u64)?;
    put_named(line, b" tow ", message.tow as u64)?;
    put_named(line, b" satellites ", message.satellites.len() as u64)?;
    Ok(())
}

fn put_1005(line: &mut Vec<u8>, message: &Arp1005) -> Result<(), AllocError>
    ensures { OnOk result (line.new.items ≡ line.old.items ++ text_1005 message.now) }
{
    line.extend_from_slice(b"1005")?;
    put_reference_point(line, message)?;
    Ok(())
}

fn put_1006(line: &mut Vec<u8>, message: &Arp1006) -> Result<(), AllocError>
    ensures { OnOk result (line.new.items ≡ line.old.items ++ text_1006 message.now) }
{
    line.extend_from_slice(b"1006")?;
    put_reference_point(line, &message.arp)?;
    line.extend_from_slice(b" height ")?;
    put_metres(line, message.height as u64)?;
    Ok(())
}

// The word before the clock of an MSM of this system.
fn clock_word(system: System) -> &'static [u8]
    ensures { result.now ≡ clock_word system }
{
    match system {
        System::Glonass | System::Beidou => b" clock ",
        System::Gps | System::Galileo | System::Qzss | System::Sbas | System::Navic => b" tow ",
    }
}

// An MSM of this number and system, with so many cells.
fn put_msm(
    line: &mut Vec<u8>,
    number: u16,
    system: System,
    header: MsmHeader,
    cells: usize,
) -> Result<(), AllocError>
    ensures { OnOk result (line.new.items ≡ line.old.items ++ msm_text number system header cells) }
{
    put_number(line, number as u64)?;
    put_named(line, b" station ", header.station as u64)?;
    put_named(line, clock_word(system), header.tow as u64)?;
    put_named(line, b" satellites ", header.satellite_count() as u64)?;
    put_named(line, b" signals ", header.signal_count() as u64)?;
    put_named(line, b" cells ", cells as u64)?;
    Ok(())
}

fn put_message_text(line: &mut Vec<u8>, message: &Message) -> Result<(), AllocError>
    requires { decoded.IsValid message.now }
    ensures { OnOk result (line.new.items ≡ line.old.items ++ message_text message.now) }
{
    match message {
        Message::Obs1004(message) => put_1004(line, message),
        Message::Arp1005(message) => put_1005(line, message),
        Message::Arp1006(message) => put_1006(line, message),
        Message::Msm1074(message) => put_msm(
            line,
            Msm1074::NUMBER,
            System::Gps,
            message.header,
            message.cnr.len(),
        ),
    }
}

fn put_1012(line: &mut Vec<u8>, message: &Obs1012) -> Result<(), AllocError>
    ensures { OnOk result (line.new.items ≡ line.old.items ++ text_1012 message.now) }
{
    put_named(line, b"1012 station ", message.station as u64)?;
    put_named(line, b" clock ", message.time_of_day_ms as u64)?;
    put_named(line, b" satellites ", message.satellites.len() as u64)?;
    Ok(())
}

fn put_any_message_text(line: &mut Vec<u8>, message: &AnyMessage) -> Result<(), AllocError>
    requires { IsValid message.now }
    ensures { OnOk result (line.new.items ≡ line.old.items ++ any_message_text message.now) }
{
    match message {
        AnyMessage::Message(message) => put_message_text(line, message),
        AnyMessage::Msm(message) => put_msm(
            line,
            message.msm_type().number(),
            message.system,
            message.header,
            message.cnr.len(),
        ),
        AnyMessage::Obs1012(message) => put_1012(line, message),
    }
}

fn put_refusal(line: &mut Vec<u8>, fault: AnyFault) -> Result<(), AllocError>
    ensures { OnOk result (line.new.items ≡ line.old.items ++ any_refusal_text fault) }
{
    line.extend_from_slice(b"refused ")?;
    put_any_fault(line, fault)
}

fn put_unread(line: &mut Vec<u8>, fault: AnyFault) -> Result<(), AllocError>
    ensures { OnOk result (line.new.items ≡ line.old.items ++ any_unread_text fault) }
{
    match fault {
        AnyFault::Other { number } => {
            put_number(line, number as u64)?;
            line.extend_from_slice(b" other")
        }
        _ => put_refusal(line, fault),
    }
}

// Appends the line of what a payload is read as, with its line feed. If memory is refused, a part of the
// line may stand there.
fn put_reading(
    lines: &mut Vec<u8>,
    reading: &Result<AnyMessage, AnyFault>,
) -> Result<(), AllocError>
    requires { IfOk reading.now IsValid }
    ensures { OnOk result (lines.new.items ≡ lines.old.items ++ any_line_of reading.now) }
{
    match reading {
        Ok(message) => put_any_message_text(lines, message)?,
        Err(fault) => put_unread(lines, *fault)?,
    }
    lines.push(b'\n')?;
    Ok(())
}

/// Appends the line of a payload by a set of messages, with its line feed. If memory is refused, a part of
/// the line may stand there.
pub(crate) fn put_payload_line(
    lines: &mut Vec<u8>,
    decoder: &mut AnyDecoder,
    accepted: Accepted,
    payload: &[u8],
) -> Result<(), AllocError>
    ensures { OnOk result ((line : List ℕ) × IsLineBy accepted payload.now line
        × (lines.new.items ≡ lines.old.items ++ line)) }
{
    put_reading(lines, decoder.read(accepted, payload))
}

/// The line of a payload, with its line feed: the message that it is, or why it is refused. Of all MSM
/// only 1074 is read.
pub fn show_line(alloc: Global, payload: &[u8]) -> Result<Vec<u8>, AllocError>
    // Fails only if memory is refused: tests/system/calls, rows `show_line ..`.
    ensures { IfOk result (λ line. IsLineOf payload.now line.items) }
{
    let mut line = Vec::new(alloc);
    put_reading(
        &mut line,
        &decode_any(Accepted::only(MsmKind::Msm4), payload),
    )?;
    Ok(line)
}
