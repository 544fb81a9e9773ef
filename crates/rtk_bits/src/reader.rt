//! A reader of bit fields. Contracts see it as the list of the bits that are left.
//!
//! A field is one load of eight bytes, a shift and a mask. Within the last seven bytes, and for a
//! field that ends in a ninth byte, it is a fold over the bytes that it touches.

ghost use Rattle.std.specs.Prelude.{◌≡◌, ◌+◌, ◌*◌, ◌^◌, ◌<◌, ◌≤◌, ◌↔◌, ◌++◌, length, take, drop, IsSome, IfSome, IfNone, OnSome};
ghost use Rattle.rtk_bits.specs.Bits.{bits, bits_of, unsigned, signed, signed_bits_of, FitsSigned};

use std::marker::Model;

/// Reads fields of 1 to 64 bits from bytes, the most significant bit first.
///
/// A contract sees the bits that are left. Reading takes no memory.
#[derive(Drop)]
pub struct BitReader<'a> {
    // The bytes from the first one that has a bit left.
    rest: &'a [u8],
    // How many bits of that byte were taken already, 0 to 7.
    skip: usize,
}

impl<'a> Model for BitReader<'a> {
    ghost use Rattle.std.specs.Prelude.{List, Bool, length, drop, ◌<◌, ◌≤◌, ◌*◌};
    ghost use Rattle.rtk_bits.specs.Bits.{bits};

    ghost Value = { List Bool };

    ghost view = { λ r. drop r.skip (bits r.rest.now) };

    ghost invariant = { λ r. (r.skip < 8) × (r.skip ≤ 8 * length r.rest.now) };
}

impl<'a> BitReader<'a> {
    /// Makes a reader at the first bit of the bytes.
    pub fn new(bytes: &'a [u8]) -> BitReader<'a>
        ensures { result ≡ bits bytes.now }
    {
        BitReader {
            rest: bytes,
            skip: 0,
        }
    }

    /// Returns how many bits are left. A slice may have more bits than a `usize` counts.
    pub fn remaining(&self) -> u128
        ensures { result ≡ length self.now }
    {
        self.rest.len() as u128 * 8 - self.skip as u128
    }

    /// Takes the next `width` bits, 1 to 64, as an unsigned number (RTCM 10403.3, data types
    /// `uint` and `bit`).
    ///
    /// If fewer bits are left, it answers `None` and takes nothing.
    #[inline(always)]
    pub fn take_u(&mut self, width: usize) -> Option<u64>
        requires { (1 ≤ width) × (width ≤ 64) }
        ensures enough { IsSome result ↔ (width ≤ length self.old) }
        ensures number { IfSome result (λ n. n ≡ unsigned (take width self.old)) }
        ensures bound { IfSome result (λ n. n < 2 ^ width) }
        ensures rest { OnSome result (self.new ≡ drop width self.old) }
        ensures field { IfSome result (λ n. self.old ≡ bits_of width n ++ self.new) }
        ensures short { IfNone result (self.new ≡ self.old) }
    {
        if self.remaining() < width as u128 {
            return None;
        }
        Some(self.next_u(width))
    }

    /// Takes the next `width` bits, 1 to 64, as `take_u` does, where it is known that so many are
    /// left.
    #[inline(always)]
    pub fn next_u(&mut self, width: usize) -> u64
        requires width { (1 ≤ width) × (width ≤ 64) }
        requires enough { width ≤ length self.old }
        ensures number { result ≡ unsigned (take width self.old) }
        ensures bound { result < 2 ^ width }
        ensures rest { self.new ≡ drop width self.old }
        ensures field { self.old ≡ bits_of width result ++ self.new }
    {
        let end = self.skip + width;
        prove!(end as u128 <= self.rest.len() as u128 * 8);
        let number = field_at(self.rest, self.skip, width);
        self.rest = &self.rest[end / 8..];
        self.skip = end % 8;
        number
    }

    /// Takes the next `width` bits, 1 to 64, as a two's complement number (RTCM 10403.3, data
    /// type `int`).
    ///
    /// If fewer bits are left, it answers `None` and takes nothing.
    pub fn take_i(&mut self, width: usize) -> Option<i64>
        requires { (1 ≤ width) × (width ≤ 64) }
        ensures enough { IsSome result ↔ (width ≤ length self.old) }
        ensures number { IfSome result (λ z. z ≡ signed (take width self.old)) }
        ensures bound { IfSome result (λ z. FitsSigned width z) }
        ensures rest { OnSome result (self.new ≡ drop width self.old) }
        ensures field { IfSome result (λ z. self.old ≡ signed_bits_of width z ++ self.new) }
        ensures short { IfNone result (self.new ≡ self.old) }
    {
        let number = self.take_u(width)?;
        let shift = 64 - width;
        Some((number << shift).cast_signed() >> shift)
    }
}

// Returns the number of the `width` bits after the first `skip` bits.
//
// It comes from one load of eight bytes. If there are fewer than eight bytes, or if the field ends
// in the ninth one, it comes from the bytes up to the end of the field.
#[inline(always)]
fn field_at(bytes: &[u8], skip: usize, width: usize) -> u64
    requires low { (skip < 8) × (1 ≤ width) × (width ≤ 64) }
    requires enough { skip + width ≤ 8 * length bytes.now }
    ensures { result ≡ unsigned (take width (drop skip (bits bytes.now))) }
{
    // `skip` is less than 8. The compiler is told so, since a field of at most 57 bits then never ends
    // in a ninth byte.
    let end = skip % 8 + width;
    match bytes.first_chunk::<8>() {
        Some(chunk) if end <= 64 => {
            let word = u64::from_be_bytes(*chunk);
            (word >> (64 - end)) & (u64::MAX >> (64 - width))
        }
        _ => field_of_bytes(bytes, skip, width),
    }
}

// Returns the number of the `width` bits after the first `skip` bits, from the bytes up to the end
// of the field. It is not inlined, since only the last fields of a payload call it.
#[inline(never)]
fn field_of_bytes(bytes: &[u8], skip: usize, width: usize) -> u64
    requires low { (skip < 8) × (1 ≤ width) × (width ≤ 64) }
    requires enough { skip + width ≤ 8 * length bytes.now }
    ensures { result ≡ unsigned (take width (drop skip (bits bytes.now))) }
{
    let end = skip + width;
    let count = (end + 7) / 8;
    let mask = u64::MAX >> (64 - width);
    let word = big_endian(&bytes[..count]);
    ((word >> (8 * count - end)) & mask as u128) as u64
}

// Returns the number that the bytes spell, the most significant byte first. There are at most
// sixteen of them.
fn big_endian(bytes: &[u8]) -> u128
    requires { length bytes.now ≤ 16 }
    ensures { result ≡ unsigned (bits bytes.now) }
{
    let mut word = 0;
    for byte in bytes {
        word = word << 8 | *byte as u128;
    }
    word
}
