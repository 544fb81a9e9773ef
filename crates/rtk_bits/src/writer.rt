//! A writer of bit fields. Contracts see it as the list of the bits that were put so far.
//!
//! It holds the whole bytes and up to 7 bits after them, with room for the byte that these become.
//! So `finish` takes no memory.

ghost use Rattle.std.specs.Prelude.{◌≡◌, ◌^◌, ◌<◌, ◌≤◌, [], ◌++◌, length, OnOk, OnErr};
ghost use Rattle.rtk_bits.specs.Bits.{bits, bits_of, signed_bits_of, FitsSigned, padding};

use std::alloc::{AllocError, Global};
use std::marker::Model;

/// Writes fields of 1 to 64 bits, the most significant bit first.
///
/// A contract sees the bits that were put.
#[derive(Drop)]
pub struct BitWriter {
    // The whole bytes.
    bytes: Vec<u8>,
    // The number that the bits after the whole bytes spell.
    tail: u8,
    // How many bits come after the whole bytes, 0 to 7.
    tail_width: usize,
}

impl Model for BitWriter {
    ghost use Rattle.std.specs.Prelude.{List, Bool, ◌++◌, ◌<◌, ◌^◌, vec_len, vec_capacity};
    ghost use Rattle.rtk_bits.specs.Bits.{bits, bits_of};

    ghost Value = { List Bool };

    ghost view = { λ w. bits w.bytes.items ++ bits_of w.tail_width w.tail };

    // If there is a tail, there is room for the byte that `finish` makes of it.
    ghost invariant = { λ w. (w.tail_width < 8) × (w.tail < 2 ^ w.tail_width)
        × (0 < w.tail_width → vec_len w.bytes < vec_capacity w.bytes) };
}

impl BitWriter {
    /// Makes a writer with no bits. It takes no memory before the first field is put.
    pub fn new(alloc: Global) -> BitWriter
        ensures { result ≡ [] }
    {
        BitWriter {
            bytes: Vec::new(alloc),
            tail: 0,
            tail_width: 0,
        }
    }

    /// Puts an unsigned number in `width` bits, 1 to 64 (RTCM 10403.3, data types `uint` and
    /// `bit`).
    ///
    /// # Errors
    ///
    /// The call fails if memory is refused. The writer is then unchanged.
    pub fn put_u(&mut self, width: usize, value: u64) -> Result<(), AllocError>
        requires width { (1 ≤ width) × (width ≤ 64) }
        requires value { value < 2 ^ width }
        // Fails only if memory is refused: tests/system/calls, rows put_u.
        ensures put { OnOk result (self.new ≡ self.old ++ bits_of width value) }
        ensures err { OnErr result (self.new ≡ self.old) }
    {
        // Room for eight whole bytes, and for the one that `finish` makes of a tail.
        self.bytes.reserve(9)?;
        let all = (self.tail as u128) << width | value as u128;
        let end = self.tail_width + width;
        let left = end % 8;
        let whole = (all >> left) as u64;
        self.bytes
            .extend_from_slice(&whole.to_be_bytes()[8 - end / 8..])?;
        self.tail = (all & ((1 << left) - 1)) as u8;
        self.tail_width = left;
        Ok(())
    }

    /// Puts a two's complement number in `width` bits, 1 to 64 (RTCM 10403.3, data type `int`).
    ///
    /// # Errors
    ///
    /// The call fails if memory is refused. The writer is then unchanged.
    pub fn put_i(&mut self, width: usize, value: i64) -> Result<(), AllocError>
        requires width { (1 ≤ width) × (width ≤ 64) }
        requires value { FitsSigned width value }
        // Fails only if memory is refused: tests/system/calls, rows put_i.
        ensures put { OnOk result (self.new ≡ self.old ++ signed_bits_of width value) }
        ensures err { OnErr result (self.new ≡ self.old) }
    {
        self.put_u(width, value.cast_unsigned() & (u64::MAX >> (64 - width)))
    }

    /// Returns the bytes of the bits that were put, with zero bits up to a whole byte. It takes no
    /// memory.
    pub fn finish(self) -> Vec<u8>
        ensures { bits result.items ≡ self ++ padding (length self) }
    {
        let BitWriter {
            mut bytes,
            tail,
            tail_width,
        } = self;
        if tail_width > 0 {
            match bytes.push(tail << (8 - tail_width)) {
                Ok(()) => {}
                Err(_) => unreachable!(),
            }
        }
        bytes
    }
}
