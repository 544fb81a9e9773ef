//! The checksums of the prefixes of a text, from which that of any part follows without a look at
//! its bytes.
//!
//! Candidates that fail may overlap: each byte may be a preamble, and each candidate may have 1,029
//! bytes. After the first one that fails, the checksum of a candidate follows from two prefixes.
//! The checksum is linear: that of the last n bytes is that of the whole minus that of the prefix
//! times x^(8n). This takes some 24 steps, whatever the length.

ghost use Rattle.std.specs.Prelude.{◌≡◌, ◌+◌, ◌<◌, ◌≤◌, ◌==◌, length, drop, take};
ghost use Rattle.arrayvec.specs.ArrayVec.{array_vec_len};
ghost use Rattle.rtk_frame.specs.Checksum.{crc};
ghost use Rattle.rtk_frame.specs.Frame.{three_bytes};
ghost use Rattle.rtk_frame.specs.Prefixes.{ArePrefixChecksums};
ghost use Rattle.rtk_frame.specs.Steps.Scanning.{IsFront};

use crate::checksum::{checksum_of_last, checksum_with};
use crate::frame::{
    BEFORE_PAYLOAD, Front, LONGEST_FRAME, Start, has_checksum, start_of, stored_checksum,
};
use arrayvec::ArrayVec;

/// The most checksums of prefixes: those of the first 0 to 2,058 bytes.
pub(crate) const MOST_PREFIXES: usize = 2059;

/// Returns what is at the place, as `front_of` says of the bytes from there on.
///
/// The first candidate is tested by its bytes. Once one has failed, each further candidate is tested
/// by the checksums of prefixes, so that bytes of many candidates are read once.
pub(crate) fn front_at(
    bytes: &[u8],
    place: usize,
    prefixes: &mut ArrayVec<u32, MOST_PREFIXES>,
) -> Front
    requires place { (place ≤ length bytes.now) × (place ≤ LONGEST_FRAME) }
    requires prefixes { ArePrefixChecksums prefixes.old.items bytes.now }
    ensures front { IsFront (drop place bytes.now) result }
    ensures prefixes { ArePrefixChecksums prefixes.new.items bytes.now }
{
    match start_of(&bytes[place..]) {
        Start::Candidate(payload_len) => {
            if has_checksum_at(bytes, place, payload_len + BEFORE_PAYLOAD, prefixes) {
                Front::Whole(payload_len)
            } else {
                Front::Other
            }
        }
        Start::Partial => Front::Partial,
        Start::Other => Front::Other,
    }
}

// Returns whether the bytes from the place on have their checksum after the first `covered` of
// them.
fn has_checksum_at(
    bytes: &[u8],
    place: usize,
    covered: usize,
    prefixes: &mut ArrayVec<u32, MOST_PREFIXES>,
) -> bool
    requires within { place + covered + 3 ≤ length bytes.now }
    requires place { (place ≤ LONGEST_FRAME) × (covered ≤ 1026) }
    requires prefixes { ArePrefixChecksums prefixes.old.items bytes.now }
    ensures checksum { result
        ≡ (crc (take covered (drop place bytes.now)) == three_bytes (drop covered (drop place bytes.now))) }
    ensures prefixes { ArePrefixChecksums prefixes.new.items bytes.now }
{
    if prefixes.is_empty() {
        let good = has_checksum(&bytes[place..], covered);
        if !good {
            prefixes.push(0);
        }
        return good;
    }
    let end = place + covered;
    know_prefix(prefixes, bytes, end);
    let known = prefixes.as_slice();
    checksum_of_last(known[end], known[place], covered) == stored_checksum(&bytes[end..])
}

// Adds the checksums of longer prefixes, until that of the first `count` bytes is known.
fn know_prefix(prefixes: &mut ArrayVec<u32, MOST_PREFIXES>, bytes: &[u8], count: usize)
    requires count { (count ≤ length bytes.now) × (count < MOST_PREFIXES) }
    requires prefixes { (0 < length prefixes.old.items) × ArePrefixChecksums prefixes.old.items bytes.now }
    ensures known { count < length prefixes.new.items }
    ensures prefixes { ArePrefixChecksums prefixes.new.items bytes.now }
{
    let mut known = prefixes.len() - 1;
    let mut checksum = prefixes.as_slice()[known];
    while known < count {
        checksum = checksum_with(checksum, bytes[known]);
        prefixes.push(checksum);
        known += 1;
    }
}
