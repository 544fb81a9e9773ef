//! The messages that tell a week of Galileo or BeiDou, a channel of GLONASS or leap seconds: 1042, 1045,
//! 1046, 1020 and 1013.
//!
//! Of these messages only such fields are read, and the counts that say how long the message is.

ghost use Rattle.std.specs.Prelude.{◌≡◌, ◌≤◌, ◌<◌, ◌+◌, ◌^◌, length, drop};
ghost use Rattle.rtk_bits.specs.Bits.{bits};
ghost use Rattle.rtk_survey.specs.DateMessages.{unsigned_at, size_of_1013, beidou_week_at, galileo_week_at};
ghost use Rattle.rtk_survey.specs.SystemMessages as spec;
ghost use Rattle.rtk_survey.specs.declared.system_message.SystemMessage.TheVariants.{Week, Slot};

use rtk_bits::BitReader;

/// The week and the reference time of a satellite's ephemeris, as a 1042, 1045 or 1046 has them.
#[derive(Clone, Copy, Debug, PartialEq, Eq)]
pub struct SystemWeek {
    /// Message number (DF002): 1042 of BeiDou, or 1045 or 1046 of Galileo.
    pub number: u16,
    /// Satellite ID (DF488, DF252).
    pub satellite: u8,
    /// Week of the system: of BeiDou modulo 8,192 (DF489), of Galileo modulo 4,096 (DF289).
    pub week: u16,
    /// Reference time of the ephemeris (DF505, DF304), in s of the week of the system.
    pub reference_time_s: u32,
}

/// The channel of a slot, as a 1020 has it.
#[derive(Clone, Copy, Debug, PartialEq, Eq)]
pub struct SlotChannel {
    /// Satellite ID (DF038).
    pub slot: u8,
    /// 7 more than the channel (DF040).
    pub field: u8,
}

/// By how many seconds GPS time is ahead of UTC, as a 1013 has them.
#[derive(Clone, Copy, Debug, PartialEq, Eq)]
pub struct LeapSeconds {
    /// Reference station ID (DF003).
    pub station: u16,
    /// The leap seconds (DF054), less than 255.
    pub seconds: u8,
}

/// What such a message tells.
#[derive(Clone, Copy, Debug, PartialEq, Eq)]
pub enum SystemMessage {
    /// A 1042, 1045 or 1046.
    Week(SystemWeek),
    /// A 1020.
    Slot(SlotChannel),
    /// A 1013 whose leap seconds are given.
    Leap(LeapSeconds),
}

// Passes bits.
fn pass(reader: &mut BitReader<'_>, count: usize)
    requires { count ≤ length reader.old }
    ensures { reader.new ≡ drop count reader.old }
{
    for _passed in 0..count {
        let _bit = reader.next_u(1);
    }
}

// The number of so many bits from a place on.
fn field_at(payload: &[u8], place: usize, width: usize) -> u64
    requires width { (1 ≤ width) × (width ≤ 64) }
    requires enough { place + width ≤ length (bits payload.now) }
    ensures value { result ≡ unsigned_at place width (bits payload.now) }
    ensures bound { result < 2 ^ width }
{
    let mut reader = BitReader::new(payload);
    pass(&mut reader, place);
    reader.next_u(width)
}

/// How many bits the payload has.
pub(crate) fn bit_count(payload: &[u8]) -> u128
    ensures { result ≡ length (bits payload.now) }
{
    let reader = BitReader::new(payload);
    reader.remaining()
}

/// What a 1042 tells.
pub(crate) fn beidou_week(payload: &[u8]) -> SystemWeek
    requires { 511 ≤ length (bits payload.now) }
    ensures { result ≡ beidou_week_at (bits payload.now) }
{
    SystemWeek {
        number: 1042,
        satellite: field_at(payload, 12, 6) as u8,
        week: field_at(payload, 18, 13) as u16,
        reference_time_s: 8 * field_at(payload, 299, 17) as u32,
    }
}

/// What a 1045 or a 1046 tells.
pub(crate) fn galileo_week(payload: &[u8], number: u16) -> SystemWeek
    requires { 496 ≤ length (bits payload.now) }
    ensures { result ≡ galileo_week_at number (bits payload.now) }
{
    SystemWeek {
        number,
        satellite: field_at(payload, 12, 6) as u8,
        week: field_at(payload, 18, 12) as u16,
        reference_time_s: 60 * field_at(payload, 294, 14) as u32,
    }
}

fn slot_channel(payload: &[u8]) -> SlotChannel
    requires { 360 ≤ length (bits payload.now) }
    ensures { result ≡ spec.slot_channel_at (bits payload.now) }
{
    SlotChannel {
        slot: field_at(payload, 12, 6) as u8,
        field: field_at(payload, 18, 5) as u8,
    }
}

fn leap_seconds(payload: &[u8]) -> LeapSeconds
    requires { 70 ≤ length (bits payload.now) }
    ensures { result ≡ spec.leap_seconds_at (bits payload.now) }
{
    LeapSeconds {
        station: field_at(payload, 12, 12) as u16,
        seconds: field_at(payload, 62, 8) as u8,
    }
}

fn read_1042(payload: &[u8]) -> Option<SystemMessage>
    ensures { result ≡ spec.if_long 511 (bits payload.now) (Week (beidou_week_at (bits payload.now))) }
{
    if bit_count(payload) < 511 {
        return None;
    }
    Some(SystemMessage::Week(beidou_week(payload)))
}

fn read_1045(payload: &[u8]) -> Option<SystemMessage>
    ensures { result ≡ spec.if_long 496 (bits payload.now) (Week (galileo_week_at 1045 (bits payload.now))) }
{
    if bit_count(payload) < 496 {
        return None;
    }
    Some(SystemMessage::Week(galileo_week(payload, 1045)))
}

fn read_1046(payload: &[u8]) -> Option<SystemMessage>
    ensures { result ≡ spec.if_long 504 (bits payload.now) (Week (galileo_week_at 1046 (bits payload.now))) }
{
    if bit_count(payload) < 504 {
        return None;
    }
    Some(SystemMessage::Week(galileo_week(payload, 1046)))
}

fn read_1020(payload: &[u8]) -> Option<SystemMessage>
    ensures { result ≡ spec.if_long 360 (bits payload.now) (Slot (spec.slot_channel_at (bits payload.now))) }
{
    if bit_count(payload) < 360 {
        return None;
    }
    Some(SystemMessage::Slot(slot_channel(payload)))
}

// How many bits a 1013 has.
fn size_of_1013(payload: &[u8]) -> u128
    requires { 70 ≤ length (bits payload.now) }
    ensures { result ≡ size_of_1013 (bits payload.now) }
{
    70 + 29 * u128::from(field_at(payload, 57, 5))
}

fn leap_if_given(leap: LeapSeconds) -> Option<SystemMessage>
    ensures { result ≡ spec.leap_if_given leap }
{
    if leap.seconds == 255 {
        None
    } else {
        Some(SystemMessage::Leap(leap))
    }
}

// The leap seconds that a 1013 tells, if they are given.
fn leap_told(payload: &[u8]) -> Option<SystemMessage>
    requires { 70 ≤ length (bits payload.now) }
    ensures { result ≡ spec.leap_if_given (spec.leap_seconds_at (bits payload.now)) }
{
    leap_if_given(leap_seconds(payload))
}

fn read_leap_seconds(payload: &[u8]) -> Option<SystemMessage>
    ensures { result ≡ spec.leap_if_long (bits payload.now) }
{
    let size = bit_count(payload);
    if size < 70 {
        return None;
    }
    if size < size_of_1013(payload) {
        return None;
    }
    leap_told(payload)
}

// What a message of this number tells.
fn read_numbered(payload: &[u8], number: u64) -> Option<SystemMessage>
    ensures { result ≡ spec.system_message_numbered number (bits payload.now) }
{
    match number {
        1042 => read_1042(payload),
        1045 => read_1045(payload),
        1046 => read_1046(payload),
        1020 => read_1020(payload),
        1013 => read_leap_seconds(payload),
        _ => None,
    }
}

/// What a payload tells, if it begins with such a message. A message with fewer bits than its counts ask
/// for tells nothing. Bits after the last field are not part of the message.
pub fn system_message_in(payload: &[u8]) -> Option<SystemMessage>
    ensures { result ≡ spec.system_message_in (bits payload.now) }
{
    let mut reader = BitReader::new(payload);
    if reader.remaining() < 12 {
        return None;
    }
    let number = reader.next_u(12);
    read_numbered(payload, number)
}
