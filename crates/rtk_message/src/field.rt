//! Fields of messages: the bits that hold them, their values, and how they are read and written.
//!
//! At most 57 bits are read at once (`Word`), so that they lie in eight bytes wherever they begin.
//! Three reads are longer: the first 60 bits of a 1005 or a 1006, which begin four bits into a
//! byte; the satellite mask; the cell mask.

ghost use Rattle.rtk_bits.specs.Bits.{bits_of, unsigned, signed_bits_of, FitsSigned};
ghost use Rattle.rtk_message.specs.Fields.{u, i, flag, Field, FieldFits};
ghost use Rattle.rtk_message.specs.Steps.FieldSteps.{TakesField, Puts};
ghost use Rattle.std.specs.Prelude.{◌≡◌, ◌+◌, ◌-◌, ◌*◌, ◌^◌, ◌<◌, ◌≤◌, ◌++◌, length, count_ones, OnOk, IsTrue, ◌↔◌, ℕ};

use rtk_bits::{BitReader, BitWriter};
use std::alloc::AllocError;
use std::marker::Model;

/// At most 64 bits, from which fields are read. A contract sees the bits that are not read yet.
///
/// The bits are loaded once for all fields that lie in them: each field then costs a shift and a
/// mask.
#[derive(Drop)]
pub(crate) struct Word {
    bits: u64,
    left: usize,
}

// Clauses see the bits that are left: the low bits of the number.
impl Model for Word {
    ghost use Rattle.std.specs.Prelude.{List, Bool, ◌≤◌};
    ghost use Rattle.rtk_bits.specs.Bits.{bits_of};

    ghost Value = { List Bool };

    ghost view = { λ w. bits_of w.left w.bits };

    ghost invariant = { λ w. w.left ≤ 64 };
}

/// Takes the next `width` bits.
#[inline(always)]
pub(crate) fn next_word(reader: &mut BitReader<'_>, width: usize) -> Word
    requires width { (1 ≤ width) × (width ≤ 64) }
    requires enough { width ≤ length reader.old }
    ensures bits { reader.old ≡ result ++ reader.new }
    ensures width { length result ≡ width }
    ensures left { length reader.old ≡ width + length reader.new }
{
    Word {
        bits: reader.next_u(width),
        left: width,
    }
}

impl Word {
    /// Returns how many of the bits are set.
    pub(crate) fn count_ones(&self) -> u32
        requires { 1 ≤ length self.now }
        ensures { result ≡ count_ones (unsigned self.now) }
    {
        (self.bits & (u64::MAX >> (64 - self.left))).count_ones()
    }

    /// Reads the next unsigned field.
    pub(crate) fn next_u64(&mut self, width: usize) -> u64
        requires width { (1 ≤ width) × (width ≤ 64) }
        requires enough { width ≤ length self.old }
        ensures taken { TakesField (u width result) self.old self.new }
        ensures left { length self.old ≡ width + length self.new }
    {
        self.left -= width;
        (self.bits >> self.left) & (u64::MAX >> (64 - width))
    }

    /// Reads the next unsigned field of at most 32 bits.
    pub(crate) fn next_u32(&mut self, width: usize) -> u32
        requires width { (1 ≤ width) × (width ≤ 32) }
        requires enough { width ≤ length self.old }
        ensures taken { TakesField (u width result) self.old self.new }
        ensures left { length self.old ≡ width + length self.new }
    {
        self.next_u64(width) as u32
    }

    /// Reads the next unsigned field of at most 16 bits.
    pub(crate) fn next_u16(&mut self, width: usize) -> u16
        requires width { (1 ≤ width) × (width ≤ 16) }
        requires enough { width ≤ length self.old }
        ensures taken { TakesField (u width result) self.old self.new }
        ensures left { length self.old ≡ width + length self.new }
    {
        self.next_u64(width) as u16
    }

    /// Reads the next unsigned field of at most 8 bits.
    pub(crate) fn next_u8(&mut self, width: usize) -> u8
        requires width { (1 ≤ width) × (width ≤ 8) }
        requires enough { width ≤ length self.old }
        ensures taken { TakesField (u width result) self.old self.new }
        ensures left { length self.old ≡ width + length self.new }
    {
        self.next_u64(width) as u8
    }

    /// Reads the next field of one bit.
    pub(crate) fn next_flag(&mut self) -> bool
        requires { 1 ≤ length self.old }
        ensures taken { TakesField (flag result) self.old self.new }
        ensures left { length self.old ≡ 1 + length self.new }
    {
        self.next_u64(1) == 1
    }

    /// Reads the next two's complement field.
    pub(crate) fn next_i64(&mut self, width: usize) -> i64
        requires width { (1 ≤ width) × (width ≤ 63) }
        requires enough { width ≤ length self.old }
        ensures taken { TakesField (i width result) self.old self.new }
        ensures left { length self.old ≡ width + length self.new }
    {
        signed_of(self.next_u64(width), width)
    }

    /// Reads the next two's complement field of at most 32 bits.
    pub(crate) fn next_i32(&mut self, width: usize) -> i32
        requires width { (1 ≤ width) × (width ≤ 32) }
        requires enough { width ≤ length self.old }
        ensures taken { TakesField (i width result) self.old self.new }
        ensures left { length self.old ≡ width + length self.new }
    {
        self.next_i64(width) as i32
    }

    /// Reads the next two's complement field of at most 16 bits.
    pub(crate) fn next_i16(&mut self, width: usize) -> i16
        requires width { (1 ≤ width) × (width ≤ 16) }
        requires enough { width ≤ length self.old }
        ensures taken { TakesField (i width result) self.old self.new }
        ensures left { length self.old ≡ width + length self.new }
    {
        self.next_i64(width) as i16
    }
}

// Returns the two's complement number that the `width` bits spell.
fn signed_of(bits: u64, width: usize) -> i64
    requires width { (1 ≤ width) × (width ≤ 63) }
    requires bits { bits < 2 ^ width }
    ensures fits { FitsSigned width result }
    ensures bits { signed_bits_of width result ≡ bits_of width bits }
{
    let shift = 64 - width;
    (bits << shift).cast_signed() >> shift
}

/// A type whose values are fields of a column.
pub(crate) trait FieldValue: Copy + Default {
    /// The field of this width with this value.
    ghost field: { ℕ → Self → Field };

    /// The widths that a field of this type may have.
    ghost IsWidth: { ℕ → Type 0 };

    /// Reads the next field.
    fn next(word: &mut Word, width: usize) -> Self
        requires width { IsWidth width }
        requires some { 1 ≤ width }
        requires enough { width ≤ length word.old }
        ensures taken { TakesField (field width result) word.old word.new }
        ensures left { length word.old ≡ width + length word.new };

    /// Puts the field.
    fn put(&self, writer: &mut BitWriter, width: usize) -> Result<(), AllocError>
        requires width { IsWidth width }
        requires some { 1 ≤ width }
        requires fits { FieldFits (field width self.now) }
        ensures { OnOk result (Puts (field width self.now) writer.old writer.new) };

    /// Returns whether the value fits the width.
    fn fits(&self, width: usize) -> bool
        requires width { IsWidth width }
        ensures { IsTrue result ↔ FieldFits (field width self.now) };
}

impl FieldValue for u8 {
    ghost use Rattle.std.specs.Prelude.{◌≤◌};
    ghost use Rattle.rtk_message.specs.Fields.{u};

    ghost field = { λ w x. u w x };

    ghost IsWidth = { λ w. w ≤ 8 };

    fn next(word: &mut Word, width: usize) -> u8 {
        word.next_u8(width)
    }

    fn put(&self, writer: &mut BitWriter, width: usize) -> Result<(), AllocError> {
        put_u(writer, width, *self as u64)
    }

    fn fits(&self, width: usize) -> bool {
        fits_u(*self as u64, width)
    }
}

impl FieldValue for u16 {
    ghost use Rattle.std.specs.Prelude.{◌≤◌};
    ghost use Rattle.rtk_message.specs.Fields.{u};

    ghost field = { λ w x. u w x };

    ghost IsWidth = { λ w. w ≤ 16 };

    fn next(word: &mut Word, width: usize) -> u16 {
        word.next_u16(width)
    }

    fn put(&self, writer: &mut BitWriter, width: usize) -> Result<(), AllocError> {
        put_u(writer, width, *self as u64)
    }

    fn fits(&self, width: usize) -> bool {
        fits_u(*self as u64, width)
    }
}

impl FieldValue for u32 {
    ghost use Rattle.std.specs.Prelude.{◌≤◌};
    ghost use Rattle.rtk_message.specs.Fields.{u};

    ghost field = { λ w x. u w x };

    ghost IsWidth = { λ w. w ≤ 32 };

    fn next(word: &mut Word, width: usize) -> u32 {
        word.next_u32(width)
    }

    fn put(&self, writer: &mut BitWriter, width: usize) -> Result<(), AllocError> {
        put_u(writer, width, *self as u64)
    }

    fn fits(&self, width: usize) -> bool {
        fits_u(*self as u64, width)
    }
}

impl FieldValue for i16 {
    ghost use Rattle.std.specs.Prelude.{◌≤◌};
    ghost use Rattle.rtk_message.specs.Fields.{i};

    ghost field = { λ w x. i w x };

    ghost IsWidth = { λ w. (1 ≤ w) × (w ≤ 16) };

    fn next(word: &mut Word, width: usize) -> i16 {
        word.next_i16(width)
    }

    fn put(&self, writer: &mut BitWriter, width: usize) -> Result<(), AllocError> {
        put_i16(writer, width, self)
    }

    fn fits(&self, width: usize) -> bool {
        fits_i(*self as i64, width)
    }
}

impl FieldValue for i32 {
    ghost use Rattle.std.specs.Prelude.{◌≤◌};
    ghost use Rattle.rtk_message.specs.Fields.{i};

    ghost field = { λ w x. i w x };

    ghost IsWidth = { λ w. (1 ≤ w) × (w ≤ 32) };

    fn next(word: &mut Word, width: usize) -> i32 {
        word.next_i32(width)
    }

    fn put(&self, writer: &mut BitWriter, width: usize) -> Result<(), AllocError> {
        put_i32(writer, width, self)
    }

    fn fits(&self, width: usize) -> bool {
        fits_i(*self as i64, width)
    }
}

impl FieldValue for bool {
    ghost use Rattle.std.specs.Prelude.{◌≡◌};
    ghost use Rattle.rtk_message.specs.Fields.{flag};

    ghost field = { λ w x. flag x };

    ghost IsWidth = { λ w. w ≡ 1 };

    fn next(word: &mut Word, width: usize) -> bool {
        word.next_flag()
    }

    fn put(&self, writer: &mut BitWriter, width: usize) -> Result<(), AllocError> {
        put_flag(writer, *self)
    }

    fn fits(&self, width: usize) -> bool {
        true
    }
}

/// The milliseconds of a week. A time of week (DF004) is less than this number.
pub const WEEK_MS: u32 = 604_800_000;

/// The milliseconds of a day that ends with a leap second. A time of day (DF034) is less than this number.
pub(crate) const LONGEST_DAY_MS: u32 = 86_401_000;

/// Puts an unsigned field.
pub(crate) fn put_u(writer: &mut BitWriter, width: usize, value: u64) -> Result<(), AllocError>
    requires { (1 ≤ width) × (width ≤ 64) × (value < 2 ^ width) }
    ensures { OnOk result (Puts (u width value) writer.old writer.new) }
{
    writer.put_u(width, value)?;
    Ok(())
}

/// Puts a two's complement field of at most 64 bits.
pub(crate) fn put_i64(writer: &mut BitWriter, width: usize, value: &i64) -> Result<(), AllocError>
    requires width { (1 ≤ width) × (width ≤ 64) }
    requires value { FitsSigned width value.now }
    ensures { OnOk result (Puts (i width value.now) writer.old writer.new) }
{
    writer.put_i(width, *value)?;
    Ok(())
}

/// Puts a two's complement field of at most 32 bits.
pub(crate) fn put_i32(writer: &mut BitWriter, width: usize, value: &i32) -> Result<(), AllocError>
    requires width { (1 ≤ width) × (width ≤ 64) }
    requires value { FitsSigned width value.now }
    ensures { OnOk result (Puts (i width value.now) writer.old writer.new) }
{
    writer.put_i(width, *value as i64)?;
    Ok(())
}

/// Puts a two's complement field of at most 16 bits.
pub(crate) fn put_i16(writer: &mut BitWriter, width: usize, value: &i16) -> Result<(), AllocError>
    requires width { (1 ≤ width) × (width ≤ 64) }
    requires value { FitsSigned width value.now }
    ensures { OnOk result (Puts (i width value.now) writer.old writer.new) }
{
    writer.put_i(width, *value as i64)?;
    Ok(())
}

/// Puts a field of one bit.
pub(crate) fn put_flag(writer: &mut BitWriter, value: bool) -> Result<(), AllocError>
    ensures { OnOk result (Puts (flag value) writer.old writer.new) }
{
    writer.put_u(1, value as u64)?;
    Ok(())
}

/// Returns whether a number fits an unsigned field of this width.
pub(crate) fn fits_u(value: u64, width: usize) -> bool
    requires { width ≤ 63 }
    ensures { IsTrue result ↔ (value < 2 ^ width) }
{
    if value >> width != 0 {
        return false;
    }
    true
}

/// Returns whether a number fits a two's complement field of this width.
pub(crate) fn fits_i(value: i64, width: usize) -> bool
    requires { (1 ≤ width) × (width ≤ 64) }
    ensures { IsTrue result ↔ FitsSigned width value }
{
    let beyond = if value < 0 { -(value + 1) } else { value };
    fits_u(beyond as u64, width - 1)
}
