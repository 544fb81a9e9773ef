//! The messages that tell a date: 1013, 1029, 1019, 1042, 1045 and 1046.
//!
//! Of these messages only the fields that tell a date are read, and the counts that say how long the
//! message is.

ghost use Rattle.std.specs.Prelude.{◌≡◌, ◌≤◌, length, drop};
ghost use Rattle.rtk_bits.specs.Bits.{bits};
ghost use Rattle.rtk_survey.specs.DateMessages.{utc_at, size_of_1013, size_of_1029, ephemeris_at, beidou_week_at, galileo_week_at, if_whole, date_in};
ghost use Rattle.rtk_survey.specs.declared.date_message.DateMessage.TheVariants.{Utc, Ephemeris, OtherEphemeris};

use crate::system_message::{SystemWeek, beidou_week, bit_count, galileo_week};
use rtk_bits::BitReader;

/// A day and a second of the day (UTC), as a 1013 or a 1029 has them. They may be no date.
#[derive(Clone, Copy, Debug, Default, PartialEq, Eq)]
pub struct UtcDate {
    /// Message number (DF002): 1013 or 1029.
    pub number: u16,
    /// Reference station ID (DF003), 0 to 4095.
    pub station: u16,
    /// Modified Julian Day (DF051).
    pub day: u16,
    /// Second of the day (DF052).
    pub second: u32,
}

/// The week and the reference time of a satellite's ephemeris, as a 1019 has them.
#[derive(Clone, Copy, Debug, Default, PartialEq, Eq)]
pub struct EphemerisDate {
    /// Satellite ID (DF009).
    pub satellite: u8,
    /// Week modulo 1,024 (DF076).
    pub week: u16,
    /// Reference time of the ephemeris (DF093), in s of the week.
    pub reference_time_s: u32,
}

/// What a message tells that has a date.
#[derive(Clone, Copy, Debug, PartialEq, Eq)]
pub enum DateMessage {
    /// A 1013 or a 1029.
    Utc(UtcDate),
    /// A 1019.
    Ephemeris(EphemerisDate),
    /// A 1042, 1045 or 1046: the ephemeris of a satellite of BeiDou or Galileo.
    OtherEphemeris(SystemWeek),
}

// A list that has room for such messages is filled with it.
impl Default for DateMessage {
    fn default() -> DateMessage {
        DateMessage::Utc(UtcDate::default())
    }
}

// The date in the first 57 bits.
fn next_utc(reader: &mut BitReader<'_>, number: u16) -> UtcDate
    requires { 57 ≤ length reader.old }
    ensures date { result ≡ utc_at number reader.old }
    ensures rest { reader.new ≡ drop 57 reader.old }
{
    let _number = reader.next_u(12);
    let station = reader.next_u(12) as u16;
    let day = reader.next_u(16) as u16;
    let second = reader.next_u(17) as u32;
    UtcDate {
        number,
        station,
        day,
        second,
    }
}

fn read_1013(payload: &[u8]) -> Option<DateMessage>
    ensures { result ≡ if_whole (size_of_1013 (bits payload.now)) (bits payload.now) (Utc (utc_at 1013 (bits payload.now))) }
{
    let mut reader = BitReader::new(payload);
    let size = reader.remaining();
    if size < 70 {
        return None;
    }
    let date = next_utc(&mut reader, 1013);
    let announced = reader.next_u(5);
    if size < 70 + 29 * u128::from(announced) {
        return None;
    }
    Some(DateMessage::Utc(date))
}

fn read_1029(payload: &[u8]) -> Option<DateMessage>
    ensures { result ≡ if_whole (size_of_1029 (bits payload.now)) (bits payload.now) (Utc (utc_at 1029 (bits payload.now))) }
{
    let mut reader = BitReader::new(payload);
    let size = reader.remaining();
    if size < 72 {
        return None;
    }
    let date = next_utc(&mut reader, 1029);
    let _characters = reader.next_u(7);
    let code_units = reader.next_u(8);
    if size < 72 + 8 * u128::from(code_units) {
        return None;
    }
    Some(DateMessage::Utc(date))
}

// Passes the 260 bits of a 1019 from its week to its reference time.
fn pass_to_reference_time(reader: &mut BitReader<'_>)
    requires { 260 ≤ length reader.old }
    ensures { reader.new ≡ drop 260 reader.old }
{
    let _passed = reader.next_u(64);
    let _passed = reader.next_u(64);
    let _passed = reader.next_u(64);
    let _passed = reader.next_u(64);
    let _passed = reader.next_u(4);
}

fn read_1019(payload: &[u8]) -> Option<DateMessage>
    ensures { result ≡ if_whole 488 (bits payload.now) (Ephemeris (ephemeris_at (bits payload.now))) }
{
    let mut reader = BitReader::new(payload);
    if reader.remaining() < 488 {
        return None;
    }
    let _number = reader.next_u(12);
    let satellite = reader.next_u(6) as u8;
    let week = reader.next_u(10) as u16;
    pass_to_reference_time(&mut reader);
    let reference_time_s = 16 * reader.next_u(16) as u32;
    Some(DateMessage::Ephemeris(EphemerisDate {
        satellite,
        week,
        reference_time_s,
    }))
}

fn read_1042(payload: &[u8]) -> Option<DateMessage>
    ensures { result ≡ if_whole 511 (bits payload.now) (OtherEphemeris (beidou_week_at (bits payload.now))) }
{
    if bit_count(payload) < 511 {
        return None;
    }
    Some(DateMessage::OtherEphemeris(beidou_week(payload)))
}

fn read_1045(payload: &[u8]) -> Option<DateMessage>
    ensures { result ≡ if_whole 496 (bits payload.now) (OtherEphemeris (galileo_week_at 1045 (bits payload.now))) }
{
    if bit_count(payload) < 496 {
        return None;
    }
    Some(DateMessage::OtherEphemeris(galileo_week(payload, 1045)))
}

fn read_1046(payload: &[u8]) -> Option<DateMessage>
    ensures { result ≡ if_whole 504 (bits payload.now) (OtherEphemeris (galileo_week_at 1046 (bits payload.now))) }
{
    if bit_count(payload) < 504 {
        return None;
    }
    Some(DateMessage::OtherEphemeris(galileo_week(payload, 1046)))
}

/// The message that tells a date, if the payload begins with one. A message with fewer bits than its
/// counts ask for is none. Bits after the last field are not part of the message.
pub fn date_in(payload: &[u8]) -> Option<DateMessage>
    ensures { result ≡ date_in (bits payload.now) }
{
    let mut reader = BitReader::new(payload);
    match reader.take_u(12)? {
        1013 => read_1013(payload),
        1029 => read_1029(payload),
        1019 => read_1019(payload),
        1042 => read_1042(payload),
        1045 => read_1045(payload),
        1046 => read_1046(payload),
        _ => None,
    }
}
