//! Message 1005: the antenna reference point of a station.

ghost use Rattle.std.specs.Prelude.{◌≡◌, ◌+◌, ◌≤◌, ◌↔◌, length, IsTrue};
ghost use Rattle.rtk_message.specs.Fields.{FieldsFit, TakesAll};
ghost use Rattle.rtk_message.specs.Arp1005.{table};

use crate::fault::DecodeFault;
use crate::field::{fits_i, next_word, put_flag, put_i64, put_u};
use crate::layout::Layout;
use rtk_bits::{BitReader, BitWriter};
use std::alloc::AllocError;

/// The antenna reference point (ARP) of a station, earth-centred and earth-fixed: 152 bits.
///
/// Source: RTCM 10403.3, message 1005.
#[derive(Clone, Copy, Debug, Default, PartialEq, Eq)]
pub struct Arp1005 {
    /// Reference station ID (DF003), 0 to 4095.
    pub station: u16,
    /// ITRF realization year (DF021), 0 to 63.
    pub realization_year: u8,
    /// GPS indicator (DF022).
    pub gps: bool,
    /// GLONASS indicator (DF023).
    pub glonass: bool,
    /// Galileo indicator (DF024).
    pub galileo: bool,
    /// Reference-station indicator (DF141).
    pub reference_station: bool,
    /// X (DF025), in 0.0001 m, 38 bits signed.
    pub x: i64,
    /// Single receiver oscillator indicator (DF142).
    pub single_oscillator: bool,
    /// Reserved bit (DF001).
    pub reserved: bool,
    /// Y (DF026), in 0.0001 m, 38 bits signed.
    pub y: i64,
    /// Quarter cycle indicator (DF364), 0 to 3.
    pub quarter_cycle: u8,
    /// Z (DF027), in 0.0001 m, 38 bits signed.
    pub z: i64,
}

impl Layout for Arp1005 {
    ghost use Rattle.std.specs.Prelude.{⊤};
    ghost use Rattle.rtk_message.specs.Arp1005.{table, first_fault, IsValid};
    ghost use Rattle.rtk_message.specs.Arp1005Laws.{is_accepted, is_unique};

    ghost NUMBER = { 1005 };

    const NUMBER: u16 = 1005;

    ghost table = { table };

    ghost IsValid = { IsValid };

    ghost first_fault = { first_fault };

    ghost IsEmpty = { λ m. ⊤ };

    fn empty() -> Arp1005 {
        Arp1005::default()
    }

    fn read(&mut self, reader: &mut BitReader<'_>) -> Result<(), DecodeFault> {
        if reader.remaining() < 140 {
            return Err(DecodeFault::Short { number: 1005 });
        }
        *self = next_reference_point(reader);
        Ok(())
    }

    fn write(&self, writer: &mut BitWriter) -> Result<(), AllocError> {
        put_u(writer, 12, self.station as u64)?;
        put_u(writer, 6, self.realization_year as u64)?;
        put_flag(writer, self.gps)?;
        put_flag(writer, self.glonass)?;
        put_flag(writer, self.galileo)?;
        put_flag(writer, self.reference_station)?;
        put_i64(writer, 38, &self.x)?;
        put_flag(writer, self.single_oscillator)?;
        put_flag(writer, self.reserved)?;
        put_i64(writer, 38, &self.y)?;
        put_u(writer, 2, self.quarter_cycle as u64)?;
        put_i64(writer, 38, &self.z)?;
        Ok(())
    }

    fn fits(&self) -> bool {
        let message = *self;
        message.fields_fit()
    }

    ghost accepted = { is_accepted };

    ghost unique = { is_unique };
}

/// Reads the antenna reference point in the next 140 bits, which are all fields of a 1005 and the
/// first fields of a 1006.
pub(crate) fn next_reference_point(reader: &mut BitReader<'_>) -> Arp1005
    requires { 140 ≤ length reader.old }
    ensures fields { TakesAll (table result) reader.old reader.new }
    ensures left { length reader.old ≡ 140 + length reader.new }
{
    let mut first = next_word(reader, 60);
    let mut second = next_word(reader, 42);
    let mut third = next_word(reader, 38);
    Arp1005 {
        station: first.next_u16(12),
        realization_year: first.next_u8(6),
        gps: first.next_flag(),
        glonass: first.next_flag(),
        galileo: first.next_flag(),
        reference_station: first.next_flag(),
        x: first.next_i64(38),
        single_oscillator: second.next_flag(),
        reserved: second.next_flag(),
        y: second.next_i64(38),
        quarter_cycle: second.next_u8(2),
        z: third.next_i64(38),
    }
}

impl Arp1005 {
    // Takes the message by value: the prover then knows that each field is in the range of its
    // type.
    fn fields_fit(self) -> bool
        ensures { IsTrue result ↔ FieldsFit (table self) }
    {
        if self.station >= 1 << 12
            || self.realization_year >= 1 << 6
            || self.quarter_cycle >= 1 << 2
        {
            return false;
        }
        fits_i(self.x, 38) && fits_i(self.y, 38) && fits_i(self.z, 38)
    }
}
