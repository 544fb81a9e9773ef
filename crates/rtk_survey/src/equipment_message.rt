//! The messages that tell an antenna or a receiver: 1007, 1008 and 1033.

ghost use Rattle.std.specs.Prelude.{◌≡◌, ◌≤◌, ◌<◌, ◌+◌, ◌^◌, length, take, get_or, Some, None};
ghost use Rattle.rtk_survey.specs.EquipmentMessages as spec;

use arrayvec::ArrayVec;
use rtk_bits::BitReader;

/// The bytes of a text. A count of one byte bounds it.
pub type Text = ArrayVec<u8, 255>;

/// An antenna, as a message tells it.
#[derive(Clone, Drop)]
pub struct Antenna {
    /// Antenna descriptor (DF030): in the form of IGS, 16 columns of type and 4 of radome.
    pub antenna_type: Text,
    /// Antenna setup ID (DF031); 0 is the standard model.
    pub setup: u8,
    /// Antenna serial number (DF033), if the message has the field.
    pub serial: Option<Text>,
}

/// A receiver, as a message tells it.
#[derive(Clone, Drop)]
pub struct Receiver {
    /// Receiver type descriptor (DF228).
    pub receiver_type: Text,
    /// Receiver firmware version (DF230).
    pub version: Text,
    /// Receiver serial number (DF232).
    pub serial: Text,
}

/// What a 1007, a 1008 or a 1033 tells.
#[derive(Clone, Drop)]
pub struct EquipmentMessage {
    /// Reference station ID (DF003), 0 to 4095.
    pub station: u16,
    pub antenna: Antenna,
    /// Of a 1033.
    pub receiver: Option<Receiver>,
}

// The text of these bytes.
fn text_of(bytes: &[u8]) -> Text
    requires { length bytes.now ≤ 255 }
    ensures { result.items ≡ bytes.now }
{
    let mut text = ArrayVec::new();
    if text.try_extend_from_slice(bytes).is_err() {
        unreachable!();
    }
    text
}

// The byte at a place; 0 if there is none.
fn byte_at(bytes: &[u8], place: usize) -> u8
    ensures { result ≡ get_or bytes.now place 0 }
{
    bytes.get(place).copied().unwrap_or(0)
}

// The place behind the text whose count stands at a place.
fn behind_text(bytes: &[u8], place: usize) -> usize
    requires { place < 2 ^ 32 }
    ensures place { result ≡ spec.behind_text place bytes.now }
    ensures bound { result ≤ place + 256 }
{
    place + 1 + usize::from(byte_at(bytes, place))
}

// The text whose count stands at a place, as far as there are bytes.
fn text_at(bytes: &[u8], place: usize) -> Text
    requires { place < 2 ^ 32 }
    ensures { result ≡ spec.text_at place bytes.now }
{
    let count = usize::from(byte_at(bytes, place));
    let rest = bytes.split_at(bytes.len().min(place + 1)).1;
    text_of(rest.split_at(rest.len().min(count)).0)
}

#[tactic(auto, unfolding(crate::specs::EquipmentMessages::setup_place))]
fn setup_place(bytes: &[u8]) -> usize
    ensures place { result ≡ spec.setup_place bytes.now }
    ensures bound { result ≤ 259 }
{
    behind_text(bytes, 3)
}

#[tactic(auto, unfolding(crate::specs::EquipmentMessages::end_of_1007))]
fn end_of_1007(bytes: &[u8]) -> usize
    ensures place { result ≡ spec.end_of_1007 bytes.now }
    ensures bound { result ≤ 260 }
{
    setup_place(bytes) + 1
}

#[tactic(auto, unfolding(crate::specs::EquipmentMessages::end_of_1008))]
fn end_of_1008(bytes: &[u8]) -> usize
    ensures place { result ≡ spec.end_of_1008 bytes.now }
    ensures bound { result ≤ 516 }
{
    behind_text(bytes, end_of_1007(bytes))
}

#[tactic(auto, unfolding(crate::specs::EquipmentMessages::version_place))]
fn version_place(bytes: &[u8]) -> usize
    ensures place { result ≡ spec.version_place bytes.now }
    ensures bound { result ≤ 772 }
{
    behind_text(bytes, end_of_1008(bytes))
}

#[tactic(auto, unfolding(crate::specs::EquipmentMessages::receiver_serial_place))]
fn receiver_serial_place(bytes: &[u8]) -> usize
    ensures place { result ≡ spec.receiver_serial_place bytes.now }
    ensures bound { result ≤ 1028 }
{
    behind_text(bytes, version_place(bytes))
}

#[tactic(auto, unfolding(crate::specs::EquipmentMessages::end_of_1033))]
fn end_of_1033(bytes: &[u8]) -> usize
    ensures place { result ≡ spec.end_of_1033 bytes.now }
    ensures bound { result ≤ 1284 }
{
    behind_text(bytes, receiver_serial_place(bytes))
}

fn antenna_at(bytes: &[u8], serial: Option<Text>) -> Antenna
    ensures { result ≡ spec.antenna_at serial bytes.now }
{
    Antenna {
        antenna_type: text_at(bytes, 3),
        setup: byte_at(bytes, setup_place(bytes)),
        serial,
    }
}

fn receiver_at(bytes: &[u8]) -> Receiver
    ensures { result ≡ spec.receiver_at bytes.now }
{
    Receiver {
        receiver_type: text_at(bytes, end_of_1008(bytes)),
        version: text_at(bytes, version_place(bytes)),
        serial: text_at(bytes, receiver_serial_place(bytes)),
    }
}

fn read_1007(bytes: &[u8], station: u16) -> Option<EquipmentMessage>
    ensures { result ≡ spec.told_by_1007 station bytes.now }
{
    if bytes.len() < end_of_1007(bytes) {
        return None;
    }
    Some(EquipmentMessage {
        station,
        antenna: antenna_at(bytes, None),
        receiver: None,
    })
}

fn read_1008(bytes: &[u8], station: u16) -> Option<EquipmentMessage>
    ensures { result ≡ spec.told_by_1008 station bytes.now }
{
    if bytes.len() < end_of_1008(bytes) {
        return None;
    }
    let serial = text_at(bytes, end_of_1007(bytes));
    Some(EquipmentMessage {
        station,
        antenna: antenna_at(bytes, Some(serial)),
        receiver: None,
    })
}

fn read_1033(bytes: &[u8], station: u16) -> Option<EquipmentMessage>
    ensures { result ≡ spec.told_by_1033 station bytes.now }
{
    if bytes.len() < end_of_1033(bytes) {
        return None;
    }
    let serial = text_at(bytes, end_of_1007(bytes));
    Some(EquipmentMessage {
        station,
        antenna: antenna_at(bytes, Some(serial)),
        receiver: Some(receiver_at(bytes)),
    })
}

// What a message of this number and station tells.
fn read_numbered(bytes: &[u8], number: u64, station: u16) -> Option<EquipmentMessage>
    ensures { result ≡ spec.equipment_numbered number station bytes.now }
{
    match number {
        1007 => read_1007(bytes, station),
        1008 => read_1008(bytes, station),
        1033 => read_1033(bytes, station),
        _ => None,
    }
}

/// The message that tells an antenna or a receiver, if the payload begins with one. A message with
/// fewer bytes than its counts ask for is none. Bytes after the last field are not part of the message.
pub fn equipment_in(payload: &[u8]) -> Option<EquipmentMessage>
    ensures { result ≡ spec.equipment_in payload.now }
{
    let mut reader = BitReader::new(payload);
    if reader.remaining() < 24 {
        return None;
    }
    let number = reader.next_u(12);
    let station = reader.next_u(12) as u16;
    read_numbered(payload, number, station)
}
