//! A frame at the front of a text, and the bytes of a frame.

ghost use Rattle.std.specs.Prelude.{◌≡◌, ◌≢◌, ◌↔◌, ℕ, ◌+◌, ◌<◌, ◌≤◌, length, drop, take, slice_index, IfOk, IsErrOf, ◌==◌};
ghost use Rattle.rtk_frame.specs.Checksum.{crc};
ghost use Rattle.rtk_frame.specs.Frame.{three_bytes, framed};
ghost use Rattle.rtk_frame.specs.Steps.Scanning.{IsStart, IsFront};
ghost use Rattle.rtk_frame.specs.declared.frame.FrameFault.TheVariants.{TooLong};

use crate::checksum::crc24q;
use std::alloc::{AllocError, Global};
use thiserror::Error;

// The first byte of each frame.
const PREAMBLE: u8 = 0xD3;

// The bytes before the payload: the preamble, and two with the length.
pub(crate) const BEFORE_PAYLOAD: usize = 3;

// The bytes of a frame besides its payload: those before it, and the three of the checksum.
pub(crate) const AROUND_PAYLOAD: usize = 6;

/// The bytes of the longest frame: six, and the 1,023 of its payload.
pub const LONGEST_FRAME: usize = 1029;

/// Why a frame or a scanner is not made: the first cause that holds, in this order.
#[derive(Clone, Copy, Debug, PartialEq, Eq, Error)]
pub enum FrameFault {
    /// The payload has more than 1,023 bytes, which the ten bits of the length can't say.
    #[error("F1 payload of more than 1023 bytes")]
    TooLong,
    /// Memory was refused.
    #[error("F2 out of memory")]
    OutOfMemory,
}

impl From<AllocError> for FrameFault {
    ghost use Rattle.std.specs.Prelude.{◌≡◌};
    ghost use Rattle.rtk_frame.specs.declared.frame.FrameFault.TheVariants.{OutOfMemory};

    ghost from_gives = { λ _ e. e ≡ OutOfMemory };

    fn from(_refused: AllocError) -> Self {
        FrameFault::OutOfMemory
    }
}

/// Returns the frame with this payload: the preamble D3, six reserved bits that are zero, the
/// length in ten bits, the payload of at most 1,023 bytes, and the checksum of all these bytes.
///
/// Source: RTCM 10403.3, transport layer.
pub fn encode_frame(alloc: Global, payload: &[u8]) -> Result<Vec<u8>, FrameFault>
    // `OutOfMemory` comes only if memory is refused: tests/system/calls, rows encode_frame.
    ensures frame { IfOk result (λ frame.
        (length payload.now ≤ 1023) × (frame.items ≡ framed payload.now)) }
    ensures too_long { IsErrOf result TooLong ↔ (1023 < length payload.now) }
{
    let len = payload.len();
    if len > 1023 {
        return Err(FrameFault::TooLong);
    }
    let mut frame = Vec::with_capacity(alloc, len + AROUND_PAYLOAD)?;
    frame.extend_from_slice(&[PREAMBLE, (len / 256) as u8, (len % 256) as u8])?;
    frame.extend_from_slice(payload)?;
    let checksum = crc24q(frame.as_slice());
    frame.extend_from_slice(&[
        (checksum / 0x10000) as u8,
        (checksum / 0x100 % 256) as u8,
        (checksum % 256) as u8,
    ])?;
    Ok(frame)
}

/// What is at the front of a text.
#[derive(Clone, Copy)]
pub(crate) enum Front {
    /// A frame, with this number of bytes of payload.
    Whole(usize),
    /// The start of a frame, or no byte at all: bytes are missing.
    Partial,
    /// Neither of them.
    Other,
}

/// What the bytes begin with, as far as their first three bytes and their number tell.
pub(crate) enum Start {
    /// A candidate: all bytes of a frame with this number of bytes of payload, whose checksum is
    /// still to be tested.
    Candidate(usize),
    /// The start of a frame, or no byte at all: bytes are missing.
    Partial,
    /// Neither of them.
    Other,
}

/// Returns what the bytes begin with, but for the checksum.
pub(crate) fn start_of(bytes: &[u8]) -> Start
    ensures { IsStart bytes.now result }
{
    let [first, ..] = bytes else {
        return Start::Partial;
    };
    if *first != PREAMBLE {
        return Start::Other;
    }
    if bytes.len() < 3 {
        return Start::Partial;
    }
    let payload_len = bytes[1] as usize % 4 * 256 + bytes[2] as usize;
    if bytes.len() < payload_len + AROUND_PAYLOAD {
        Start::Partial
    } else {
        Start::Candidate(payload_len)
    }
}

/// Returns what is at the front of the bytes.
pub(crate) fn front_of(bytes: &[u8]) -> Front
    ensures { IsFront bytes.now result }
{
    match start_of(bytes) {
        Start::Candidate(payload_len) => {
            if has_checksum(bytes, payload_len + BEFORE_PAYLOAD) {
                Front::Whole(payload_len)
            } else {
                Front::Other
            }
        }
        Start::Partial => Front::Partial,
        Start::Other => Front::Other,
    }
}

/// Returns whether the three bytes after the first `covered` bytes are their checksum.
pub(crate) fn has_checksum(bytes: &[u8], covered: usize) -> bool
    requires { covered + 3 ≤ length bytes.now }
    ensures { result ≡ (crc (take covered bytes.now) == three_bytes (drop covered bytes.now)) }
{
    crc24q(&bytes[..covered]) == stored_checksum(&bytes[covered..])
}

/// Returns the number of the first three bytes, the most significant first.
pub(crate) fn stored_checksum(bytes: &[u8]) -> u32
    requires { 3 ≤ length bytes.now }
    ensures { result ≡ three_bytes bytes.now }
{
    bytes[0] as u32 * 0x10000 + bytes[1] as u32 * 0x100 + bytes[2] as u32
}

/// Returns how many bytes stand before the first preamble, which are all of them if there is no
/// preamble.
pub(crate) fn before_preamble(bytes: &[u8]) -> usize
    ensures within { result ≤ length bytes.now }
    ensures none { (i : ℕ) → i < result → slice_index bytes.now i ≢ 0xD3 }
    ensures next { result < length bytes.now → slice_index bytes.now result ≡ 0xD3 }
{
    match bytes.iter().position(|byte| *byte == PREAMBLE) {
        Some(place) => place,
        None => bytes.len(),
    }
}

/// Returns the place of the first preamble from a place on, or the end if there is no preamble.
pub(crate) fn next_preamble(bytes: &[u8], from: usize) -> usize
    requires { from ≤ length bytes.now }
    ensures within { (from ≤ result) × (result ≤ length bytes.now) }
    ensures none { (i : ℕ) → from ≤ i → i < result → slice_index bytes.now i ≢ 0xD3 }
{
    from + before_preamble(&bytes[from..])
}
