//! The next frame of a whole text.
//!
//! `next_frame` has no state, so each of its calls may read a candidate anew. Take `Frames` for all
//! frames of a text.

ghost use Rattle.std.specs.Prelude.{◌≡◌, ℕ, List, ◌<◌, ◌≤◌, length, take, drop, MatchOption, IfSome, ◌+◌};
ghost use Rattle.rtk_frame.specs.Frame.{IsFrameAt, payload_of};
ghost use Rattle.rtk_frame.specs.Prefixes.{ArePrefixChecksums};
ghost use Rattle.rtk_frame.specs.Search.{IsNextFrame};
ghost use Rattle.rtk_frame.specs.declared.frame.TheConstants.{LONGEST_FRAME};

use crate::frame::{AROUND_PAYLOAD, BEFORE_PAYLOAD, Front, LONGEST_FRAME, front_of, next_preamble};
use crate::prefixes::{MOST_PREFIXES, front_at};
use arrayvec::ArrayVec;
use std::marker::Model;

/// A frame at a place of a text: where it begins, and its payload.
#[derive(Clone, Copy, Debug)]
pub struct Placed<'a> {
    /// The place of its preamble, counted from the text's first byte as 0.
    pub place: usize,
    /// Its payload, of at most 1,023 bytes.
    pub payload: &'a [u8],
}

/// Returns the first frame that begins at the place `from` or after it, or `None` if there is no
/// such frame.
///
/// A frame is `payload.len() + 6` bytes long, so the next one that doesn't overlap it is looked for
/// from `place + payload.len() + 6` on.
pub fn next_frame(bytes: &[u8], from: usize) -> Option<Placed<'_>>
    requires { from ≤ length bytes.now }
    ensures least { MatchOption result ((p : ℕ) → from ≤ p → IsFrameAt bytes.now p → ⊥)
        (λ found. (from ≤ found.place) × IsFrameAt bytes.now found.place
        × (found.payload.now ≡ payload_of (drop found.place bytes.now))
        × ((p : ℕ) → from ≤ p → p < found.place → IsFrameAt bytes.now p → ⊥)) }
    ensures within { IfSome result (λ found.
        found.place + (length found.payload.now + 6) ≤ length bytes.now) }
{
    let place = next_preamble(bytes, from);
    if place == bytes.len() {
        return None;
    }
    match front_of(&bytes[place..]) {
        Front::Whole(payload_len) => Some(found_at(bytes, place, payload_len)),
        // A text whose first candidate fails may have many that overlap.
        Front::Partial | Front::Other => next_frame_of_many(bytes, from),
    }
}

// Returns the first frame from the place on, by checksums of prefixes. It is not inlined, so that
// their room is blanked only if there is a candidate that fails.
#[inline(never)]
fn next_frame_of_many(bytes: &[u8], from: usize) -> Option<Placed<'_>>
    requires { from ≤ length bytes.now }
    ensures least { IsNextFrame bytes.now from result }
    ensures within { IfSome result (λ found.
        found.place + (length found.payload.now + 6) ≤ length bytes.now) }
{
    let mut start = from;
    let mut prefixes = ArrayVec::new();
    search(bytes, from, &mut start, &mut prefixes)
}

// Returns the first frame from the place on, by checksums of prefixes of the bytes from the place
// `start` on.
fn search<'a>(
    bytes: &'a [u8],
    from: usize,
    start: &mut usize,
    prefixes: &mut ArrayVec<u32, MOST_PREFIXES>,
) -> Option<Placed<'a>>
    requires places { (start.old ≤ from) × (from ≤ length bytes.now) }
    requires prefixes { ArePrefixChecksums prefixes.old.items (drop start.old bytes.now) }
    ensures least { IsNextFrame bytes.now from result }
    ensures within { IfSome result (λ found.
        found.place + (length found.payload.now + 6) ≤ length bytes.now) }
    ensures start { MatchOption result (start.new ≤ length bytes.now) (λ found. start.new ≤ found.place) }
    ensures prefixes { ArePrefixChecksums prefixes.new.items (drop start.new bytes.now) }
{
    let mut place = next_preamble(bytes, from);
    while place < bytes.len() {
        restart_if_far(place, start, prefixes);
        if let Front::Whole(payload_len) = front_at(&bytes[*start..], place - *start, prefixes) {
            return Some(found_at(bytes, place, payload_len));
        }
        place = next_preamble(bytes, place + 1);
    }
    None
}

// If the place is further from the start than the longest frame, it is the new start.
fn restart_if_far(place: usize, start: &mut usize, prefixes: &mut ArrayVec<u32, MOST_PREFIXES>)
    requires { start.old ≤ place }
    ensures near { (start.new ≤ place) × (place ≤ start.new + LONGEST_FRAME) }
    ensures prefixes { (text : List ℕ) → ArePrefixChecksums prefixes.old.items (drop start.old text)
        → ArePrefixChecksums prefixes.new.items (drop start.new text) }
{
    if place - *start > LONGEST_FRAME {
        *start = place;
        prefixes.clear();
    }
}

// Returns the frame at the place.
fn found_at(bytes: &[u8], place: usize, payload_len: usize) -> Placed<'_>
    requires { place + payload_len + 6 ≤ length bytes.now }
    ensures { (result.place ≡ place) × (result.payload.now ≡ take payload_len (drop 3 (drop place bytes.now))) }
{
    let start = place + BEFORE_PAYLOAD;
    Placed {
        place,
        payload: &bytes[start..start + payload_len],
    }
}

/// The frames of a whole text, one after another.
///
/// It keeps checksums from one frame to the next, at most 2,059 of them, so that candidates that
/// overlap cost no more than two looks at each byte.
#[derive(Drop)]
pub struct Frames<'a> {
    bytes: &'a [u8],
    // From where on the next frame is looked for.
    from: usize,
    // The checksums are those of prefixes of the bytes from this place on.
    start: usize,
    prefixes: ArrayVec<u32, MOST_PREFIXES>,
}

// Clauses see the text, and from where on the next frame is looked for.
impl<'a> Model for Frames<'a> {
    ghost use Rattle.std.specs.Prelude.{◌≡◌, ◌≤◌, length, drop};
    ghost use Rattle.rtk_frame.specs.FramesView.{FramesView, frames_view, frames_view_code};
    ghost use Rattle.rtk_frame.specs.Prefixes.{ArePrefixChecksums};

    ghost Value = { FramesView };

    ghost coded = { frames_view_code };

    ghost view = { λ s. frames_view s.bytes.now s.from };

    ghost invariant = { λ s.
        (s ≡ record { bytes = s.bytes; from = s.from; start = s.start; prefixes = s.prefixes })
        × (s.start ≤ s.from) × (s.from ≤ length s.bytes.now)
        × ArePrefixChecksums s.prefixes.items (drop s.start s.bytes.now) };
}

impl<'a> Frames<'a> {
    ghost use Rattle.rtk_frame.specs.FramesView.{frames_view};

    /// Makes the iteration over the frames of the text, none of which was given.
    pub fn new(bytes: &'a [u8]) -> Frames<'a>
        ensures { result ≡ frames_view bytes.now 0 }
    {
        Frames {
            bytes,
            from: 0,
            start: 0,
            prefixes: ArrayVec::new(),
        }
    }

    /// Returns the next frame, or `None` if there is no further one.
    pub fn next_frame(&mut self) -> Option<Placed<'a>>
        ensures text { self.new.text ≡ self.old.text }
        ensures least { IsNextFrame self.old.text self.old.from result }
        ensures within { IfSome result (λ found.
            found.place + (length found.payload.now + 6) ≤ length self.old.text) }
        ensures from { IfSome result (λ found.
            self.new.from ≡ found.place + (length found.payload.now + 6)) }
    {
        let found = search(self.bytes, self.from, &mut self.start, &mut self.prefixes);
        self.from = match &found {
            Some(found) => found.place + found.payload.len() + AROUND_PAYLOAD,
            None => self.bytes.len(),
        };
        found
    }
}
