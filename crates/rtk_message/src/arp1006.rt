//! Message 1006: the antenna reference point of a station with the height of its antenna.

ghost use Rattle.rtk_message.specs.Arp1006.{table};
ghost use Rattle.rtk_message.specs.Fields.{FieldsFit};
ghost use Rattle.std.specs.Prelude.{IsTrue, ◌↔◌};

use crate::arp1005::{Arp1005, next_reference_point};
use crate::fault::DecodeFault;
use crate::field::{next_word, put_u};
use crate::layout::Layout;
use rtk_bits::{BitReader, BitWriter};
use std::alloc::AllocError;

/// The fields of a 1005, and after them the height of the antenna: 168 bits.
///
/// Source: RTCM 10403.3, message 1006.
#[derive(Clone, Copy, Debug, Default, PartialEq, Eq)]
pub struct Arp1006 {
    /// The station and its antenna reference point (DF003 to DF027).
    pub arp: Arp1005,
    /// Antenna height (DF028), in 0.0001 m.
    pub height: u16,
}

impl Layout for Arp1006 {
    ghost use Rattle.std.specs.Prelude.{⊤};
    ghost use Rattle.rtk_message.specs.Arp1006.{table, first_fault, IsValid};
    ghost use Rattle.rtk_message.specs.Arp1006Laws.{is_accepted, is_unique};

    ghost NUMBER = { 1006 };

    const NUMBER: u16 = 1006;

    ghost table = { table };

    ghost IsValid = { IsValid };

    ghost first_fault = { first_fault };

    ghost IsEmpty = { λ m. ⊤ };

    fn empty() -> Arp1006 {
        Arp1006::default()
    }

    fn read(&mut self, reader: &mut BitReader<'_>) -> Result<(), DecodeFault> {
        if reader.remaining() < 156 {
            return Err(DecodeFault::Short { number: 1006 });
        }
        self.arp = next_reference_point(reader);
        let mut last = next_word(reader, 16);
        self.height = last.next_u16(16);
        Ok(())
    }

    fn write(&self, writer: &mut BitWriter) -> Result<(), AllocError> {
        self.arp.write(writer)?;
        put_u(writer, 16, self.height as u64)?;
        Ok(())
    }

    fn fits(&self) -> bool {
        let message = *self;
        message.fields_fit()
    }

    ghost accepted = { is_accepted };

    ghost unique = { is_unique };
}

impl Arp1006 {
    // Takes the message by value: the prover then knows that the height is in the range of its
    // type, 16 bits.
    fn fields_fit(self) -> bool
        ensures { IsTrue result ↔ FieldsFit (table self) }
    {
        self.arp.fits()
    }
}
