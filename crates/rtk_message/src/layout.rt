//! What each message type promises: it reads and writes the fields of its table, and no other bits.

ghost use Rattle.std.specs.Prelude.{◌≡◌, ℕ, ◌++◌, Bool, List, Option, Some, None, IfErr, OnOk, IsTrue, ◌↔◌};
ghost use Rattle.rtk_message.specs.Fields.{Field, FieldsAreZero, bits_of_fields, TakesAll};
ghost use Rattle.rtk_message.specs.declared.fault.DecodeFault.{DecodeFault};

use crate::fault::DecodeFault;
use rtk_bits::{BitReader, BitWriter};
use std::alloc::AllocError;

/// A message type. The bits that it reads and writes, after the message number, are the
/// concatenated fields of its table.
pub trait Layout: Sized {
    ghost NUMBER: { ℕ };
    /// The message number (DF002).
    const NUMBER: u16;

    /// The fields after the number, in the order of the standard.
    ghost table: { Self → List Field };

    /// Which values can be written as bits: each field fits its width, the time of week is less
    /// than 604,800,000 ms, a cell mask has at most 64 bits, and the lists have the lengths that
    /// counts and masks give.
    ghost IsValid: { Self → Type 0 };

    /// The first cause why the bits after a number don't begin with such a message; `None` if there
    /// is no cause.
    ghost first_fault: { List Bool → Option DecodeFault };

    /// Which values have no satellites and no cells.
    ghost IsEmpty: { Self → Type 0 };

    /// Makes an empty message, which `read` fills: its fields are 0, it has no satellites and no
    /// cells.
    fn empty() -> Self
        ensures empty { IsEmpty result }
        ensures zero { FieldsAreZero (table result) };

    /// Reads the fields after the number into an empty message.
    ///
    /// It reads in place, since a message of a thousand bytes is slow to move. After an `Err`
    /// nothing is known of the message, nor of the bits that the reader has left.
    fn read(&mut self, reader: &mut BitReader<'_>) -> Result<(), DecodeFault>
        requires { IsEmpty self.old }
        ensures fields { OnOk result (IsValid self.new × TakesAll (table self.new) reader.old reader.new) }
        ensures fault { IfErr result (λ f. first_fault reader.old ≡ Some f) };

    /// Puts the fields after the number. An `Err` means that memory was refused; some of the fields
    /// may have been put before.
    fn write(&self, writer: &mut BitWriter) -> Result<(), AllocError>
        requires { IsValid self.now }
        ensures { OnOk result (writer.new ≡ writer.old ++ bits_of_fields (table self.now)) };

    /// Returns whether the value can be written as bits.
    fn fits(&self) -> bool
        ensures { IsTrue result ↔ IsValid self.now };

    /// Bits that begin with a message have no fault.
    ghost accepted: { (m : Self) (rest : List Bool) → IsValid m → first_fault (bits_of_fields (table m) ++ rest) ≡ None };

    /// No bits begin with two different messages.
    ghost unique: { (m n : Self) (a b : List Bool) → IsValid m → IsValid n
        → bits_of_fields (table m) ++ a ≡ bits_of_fields (table n) ++ b → m ≡ n };
}
