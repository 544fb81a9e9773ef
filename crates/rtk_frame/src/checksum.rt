//! The checksum CRC-24Q: of bytes, sixteen a step; of one byte more; of a part, from those of the whole.

ghost use Rattle.std.specs.Prelude.{◌≡◌, ◌<◌, ◌≤◌, ◌^◌, ℕ, List, [], ◌∷◌, ◌++◌, length};
ghost use Rattle.rtk_frame.specs.Checksum.{crc};
ghost use Rattle.rtk_bits.specs.Bits.{bits_of};
ghost use Rattle.rtk_frame.specs.Steps.Product.{IsPower, after_zeros, rest_of};
ghost use Rattle.rtk_frame.specs.Steps.Remainder.{remainder};
ghost use Rattle.rtk_frame.specs.Steps.Tables.{word_of};

use crate::checksum_far_tables::FAR_TABLES;
use crate::checksum_powers::POWERS;
use crate::checksum_tables::TABLES;

/// Returns the checksum CRC-24Q of the bytes. It has 24 bits, the generator 1864CFB and the state 0
/// at first, and takes the most significant bit first.
///
/// Source: RTCM 10403.3, transport layer.
pub fn crc24q(bytes: &[u8]) -> u32
    ensures value { result ≡ crc bytes.now }
    ensures within { result < 2 ^ 24 }
{
    let mut state = 0u32;
    let mut rest = bytes;
    while let Some((block, tail)) = rest.split_first_chunk::<16>() {
        state = after_sixteen(state, block);
        rest = tail;
    }
    if let Some((block, tail)) = rest.split_first_chunk::<8>() {
        state = after_eight(state, block);
        rest = tail;
    }
    for byte in rest {
        state = after_byte(state, *byte);
    }
    state >> 8
}

// Returns the state after sixteen bytes more. Its upper 24 bits are the remainder so far, its lower
// 8 bits are zero.
fn after_sixteen(state: u32, bytes: &[u8; 16]) -> u32
    ensures { (rest : List ℕ) → remainder result rest ≡ remainder state (bytes.now ++ rest) }
{
    let front = state ^ u32::from_be_bytes([bytes[0], bytes[1], bytes[2], bytes[3]]);
    entry(15, (front >> 24) as u8)
        ^ entry(14, ((front >> 16) % 256) as u8)
        ^ entry(13, ((front >> 8) % 256) as u8)
        ^ entry(12, (front % 256) as u8)
        ^ entry(11, bytes[4])
        ^ entry(10, bytes[5])
        ^ entry(9, bytes[6])
        ^ entry(8, bytes[7])
        ^ entry(7, bytes[8])
        ^ entry(6, bytes[9])
        ^ entry(5, bytes[10])
        ^ entry(4, bytes[11])
        ^ entry(3, bytes[12])
        ^ entry(2, bytes[13])
        ^ entry(1, bytes[14])
        ^ entry(0, bytes[15])
}

// Returns the state after eight bytes more.
fn after_eight(state: u32, bytes: &[u8; 8]) -> u32
    ensures { (rest : List ℕ) → remainder result rest ≡ remainder state (bytes.now ++ rest) }
{
    let front = state ^ u32::from_be_bytes([bytes[0], bytes[1], bytes[2], bytes[3]]);
    entry(7, (front >> 24) as u8)
        ^ entry(6, ((front >> 16) % 256) as u8)
        ^ entry(5, ((front >> 8) % 256) as u8)
        ^ entry(4, (front % 256) as u8)
        ^ entry(3, bytes[4])
        ^ entry(2, bytes[5])
        ^ entry(1, bytes[6])
        ^ entry(0, bytes[7])
}

// Returns the state after one byte more.
fn after_byte(state: u32, byte: u8) -> u32
    ensures { (rest : List ℕ) → remainder result rest ≡ remainder state (byte ∷ rest) }
{
    state << 8 ^ entry(0, (state >> 24) as u8 ^ byte)
}

// Returns what the tables have for a byte and so many zero bytes after it. They are two arrays,
// since the prover takes long for one of 4,096 entries.
fn entry(zeros: usize, byte: u8) -> u32
    requires { zeros < 16 }
    ensures { result ≡ word_of zeros byte }
{
    let place = 256 * zeros + byte as usize;
    if place < 2048 {
        TABLES[place]
    } else {
        FAR_TABLES[place - 2048]
    }
}

/// Returns the checksum of a text with one byte more, from the checksum of the text.
pub(crate) fn checksum_with(checksum: u32, byte: u8) -> u32
    requires { checksum < 2 ^ 24 }
    ensures value { (text : List ℕ) → checksum ≡ crc text → result ≡ crc (text ++ byte ∷ []) }
    ensures within { result < 2 ^ 24 }
{
    after_byte(checksum << 8, byte) >> 8
}

/// Returns the checksum of the last `count` bytes of a text, from the checksum of the whole text
/// and that of the bytes before them.
///
/// A text is the sum of its first bytes with `count` zero bytes after them, and of its last bytes;
/// and the remainder of a sum is the sum of the remainders.
pub(crate) fn checksum_of_last(whole: u32, before: u32, count: usize) -> u32
    requires { (whole < 2 ^ 24) × (before < 2 ^ 24) × (count ≤ 1026) }
    ensures { (front last : List ℕ) → before ≡ crc front → whole ≡ crc (front ++ last)
        → length last ≡ count → result ≡ crc last }
{
    whole ^ reduced(product(before, POWERS[count]))
}

// Returns the product of two polynomials over the field of two elements, each of 24 bits. If the
// right one is the remainder of x^(8n), then it leaves what the left one with n zero bytes after it
// leaves.
fn product(left: u32, right: u32) -> u64
    requires { (left < 2 ^ 24) × (right < 2 ^ 24) }
    ensures rest { (n : ℕ) → IsPower n right → rest_of result ≡ after_zeros n left }
    ensures within { result < 2 ^ 48 }
{
    let mut sum = 0u64;
    for place in 0..24u32 {
        let bit = (left >> (23 - place)) % 2;
        sum = sum << 1 ^ (bit * right) as u64;
    }
    sum
}

// Returns the remainder of a polynomial of 48 bits by the generator.
fn reduced(polynomial: u64) -> u32
    requires { polynomial < 2 ^ 48 }
    ensures rest { bits_of 24 result ≡ rest_of polynomial }
    ensures within { result < 2 ^ 24 }
{
    let high = (polynomial >> 24) as u32;
    let low = (polynomial % 0x100_0000) as u32;
    let sum = entry(2, (high >> 16) as u8)
        ^ entry(1, ((high >> 8) % 256) as u8)
        ^ entry(0, (high % 256) as u8);
    sum >> 8 ^ low
}
