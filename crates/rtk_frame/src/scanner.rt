//! A scanner gives the frames of a stream of bytes that comes in pieces.
//!
//! Its ring begins with bytes that were given or are in no frame; the pending bytes follow. Passed
//! bytes go once they are all that is held, or more than 1,029. The others then move to the start
//! of the room, so the bytes of the ring always lie in one piece, and a payload is lent as a slice
//! of it. If nothing is pending, bytes that are no preamble do not enter the ring.

ghost use Rattle.std.specs.Prelude.{◌≡◌, ◌≢◌, ◌⊎◌, ℕ, ◌+◌, ◌-◌, ◌*◌, ◌<◌, ◌≤◌, List, [], ◌++◌, length, drop, take, slice_index, true, IfOk, MatchOption};
ghost use Rattle.circular_buffer.specs.Buffer.{buffer};
ghost use Rattle.rtk_frame.specs.Frame.{begins_frame, begins_partial, payload_length};
ghost use Rattle.rtk_frame.specs.Held.{RingHolds};
ghost use Rattle.rtk_frame.specs.Steps.Scanning.{Scanned, Searched};
ghost use Rattle.rtk_frame.specs.declared.frame.TheConstants.{LONGEST_FRAME};

use crate::frame::{
    AROUND_PAYLOAD, BEFORE_PAYLOAD, FrameFault, Front, LONGEST_FRAME, before_preamble,
    next_preamble,
};
use crate::lending::all_bytes;
use crate::prefixes::{MOST_PREFIXES, front_at};
use arrayvec::ArrayVec;
use circular_buffer::HeapCircularBuffer;
use std::alloc::{AllocError, Global};
use std::marker::Model;

/// The frames of a stream, however its bytes are cut into pieces.
///
/// It keeps at most 2,058 bytes: the pending ones, at most 1,029, and before them bytes that it gave
/// or passed; and of these bytes the checksums of prefixes. Pending bytes wait for more of the stream,
/// or for the next call: they may have whole frames that were not given yet.
#[derive(Drop)]
pub struct Scanner {
    ring: HeapCircularBuffer<u8>,
    // How many bytes at the ring's front were given, or are in no frame.
    passed: usize,
    // The checksums of the ring's first 0, 1, 2, .. bytes, as many as were needed: none as long as
    // each candidate is a frame.
    prefixes: Box<ArrayVec<u32, MOST_PREFIXES>>,
    ended: bool,
}

// Clauses see the pending bytes, and whether the stream has ended. The first part of the invariant
// names every field, so nobody can add a field in which bytes are kept unseen: the equation would then
// fail to check.
impl Model for Scanner {
    ghost use Rattle.std.specs.Prelude.{◌≡◌, drop};
    ghost use Rattle.rtk_frame.specs.ScannerView.{ScannerView, scanner_view, scanner_view_code};
    ghost use Rattle.rtk_frame.specs.Held.{RingHolds};

    ghost Value = { ScannerView };

    ghost coded = { scanner_view_code };

    ghost view = { λ s. scanner_view (drop s.passed s.ring.items) s.ended };

    ghost invariant = { λ s.
        (s ≡ record { ring = s.ring; passed = s.passed; prefixes = s.prefixes; ended = s.ended })
        × RingHolds s.ring s.passed s.prefixes.value.items };
}

/// What `feed` took of the piece, and what it found there.
#[derive(Clone, Copy, Debug)]
pub struct Fed<'a> {
    /// How many bytes of the piece were used. After `Found` the next call is fed the others, even if
    /// there are none: the pending bytes may have more frames.
    pub used: usize,
    /// What was found.
    pub answer: Answer<'a>,
}

/// What `feed` found.
#[derive(Clone, Copy, Debug)]
pub enum Answer<'a> {
    /// The next frame, by its payload.
    Found(&'a [u8]),
    /// No frame: the whole piece was used, and more bytes are wanted.
    Hungry,
}

impl Scanner {
    ghost use Rattle.std.specs.Prelude.{◌≡◌, ◌≤◌, ◌+◌, length, false, true, [], IfOk, IfErr};
    ghost use Rattle.std.specs.Borrow.{sem};
    ghost use Rattle.rtk_frame.specs.ScannerView.{scanner_view};
    ghost use Rattle.rtk_frame.specs.Scanner.{LeavesScanner, FedAnswer, RestAnswer};
    ghost use Rattle.rtk_frame.specs.declared.frame.FrameFault.TheVariants.{OutOfMemory};
    ghost use Rattle.rtk_frame.specs.declared.frame.TheConstants.{LONGEST_FRAME};

    /// Makes a scanner at the start of a stream. All the memory that it ever has is taken here.
    pub fn new(alloc: Global) -> Result<Scanner, FrameFault>
        // Fails only if memory is refused: tests/system/calls, row Scanner::new.
        ensures start { IfOk result (λ scanner. scanner ≡ scanner_view [] false) }
        ensures fault { IfErr result (λ fault. fault ≡ OutOfMemory) }
    {
        let ring = HeapCircularBuffer::with_capacity(alloc, 2 * LONGEST_FRAME)?;
        let prefixes = new_prefixes(alloc)?;
        Ok(Scanner {
            ring,
            passed: 0,
            prefixes,
            ended: false,
        })
    }

    /// Takes bytes of the piece until a frame is found, or all of them. It may also take bytes that
    /// come after the frame: they are pending.
    ///
    /// The payload is borrowed from the scanner until its next call.
    pub fn feed(&mut self, piece: &[u8]) -> Fed<'_>
        requires { self.old.ended ≡ false }
        ensures used { result.used ≤ length piece.now }
        ensures* after { sem 𝓛 (LeavesScanner self.entry (λ now.
            (now.ended ≡ false) × (length now.pending ≤ LONGEST_FRAME)
            × FedAnswer self.old.pending piece.now result.used result.answer now)) }
    {
        let scan = advance(&mut self.ring, &mut self.passed, &mut self.prefixes, piece);
        match scan.payload_len {
            None => Fed {
                used: scan.used,
                answer: Answer::Hungry,
            },
            Some(payload_len) => {
                let start = self.passed + BEFORE_PAYLOAD;
                self.passed += payload_len + AROUND_PAYLOAD;
                let bytes = all_bytes(&mut self.ring);
                Fed {
                    used: scan.used,
                    answer: Answer::Found(&bytes[start..start + payload_len]),
                }
            }
        }
    }

    /// Ends the stream and gives the next frame of the pending bytes, since no more will come.
    ///
    /// The payload is borrowed from the scanner until its next call. After a `None` the answer is
    /// always `None`.
    pub fn rest(&mut self) -> Option<&[u8]>
        ensures* after { sem 𝓛 (LeavesScanner self.entry (λ now.
            (now.ended ≡ true) × (length now.pending ≤ LONGEST_FRAME)
            × RestAnswer self.old.pending result now)) }
    {
        self.ended = true;
        match advance_ended(&mut self.ring, &mut self.passed, &mut self.prefixes) {
            None => None,
            Some(payload_len) => {
                let start = self.passed + BEFORE_PAYLOAD;
                let size = payload_len + AROUND_PAYLOAD;
                self.passed += size;
                let bytes = all_bytes(&mut self.ring);
                Some(&bytes[start..start + payload_len])
            }
        }
    }

    /// Returns how many bytes are pending. Directly after `Found` these are the bytes that were fed
    /// behind the frame.
    pub fn pending_len(&self) -> usize
        ensures { result ≡ length self.now.pending }
    {
        self.ring.len() - self.passed
    }

    /// Returns whether `rest` was called.
    pub fn ended(&self) -> bool
        ensures { result ≡ self.now.ended }
    {
        self.ended
    }
}

// How far a scan came.
#[derive(Clone, Copy)]
struct Reached {
    // How many bytes of the piece were used.
    used: usize,
    // The length of the payload, if a frame stands behind the passed bytes.
    payload_len: Option<usize>,
}

// Scans the ring from its passed bytes on, and bytes of the piece, up to the next frame or to the end.
// If bytes are wanted, as many enter the ring as there is room for.
fn advance(
    ring: &mut HeapCircularBuffer<u8>,
    passed: &mut usize,
    prefixes: &mut ArrayVec<u32, MOST_PREFIXES>,
    piece: &[u8],
) -> Reached
    requires { RingHolds ring.old passed.old prefixes.old.items }
    ensures held { RingHolds ring.new passed.new prefixes.new.items }
    ensures used { result.used ≤ length piece.now }
    ensures scanned { Scanned (drop passed.old ring.old.items ++ take result.used piece.now) (drop passed.new ring.new.items) }
    ensures found { MatchOption result.payload_len
        ((result.used ≡ length piece.now)
        × ((begins_partial (drop passed.new ring.new.items) ≡ true) ⊎ (drop passed.new ring.new.items ≡ [])))
        (λ n. (begins_frame (drop passed.new ring.new.items) ≡ true)
        × (n ≡ payload_length (drop passed.new ring.new.items)) × (n ≤ 1023)) }
{
    let mut used = 0;
    'scan: loop {
        drop_passed(ring, passed, prefixes);
        match front_at(ring.make_contiguous(), *passed, prefixes) {
            Front::Whole(payload_len) => {
                return Reached {
                    used,
                    payload_len: Some(payload_len),
                };
            }
            Front::Other => pass_to_preamble(ring, passed),
            Front::Partial => {
                used += bytes_to_pass(ring, *passed, &piece[used..]);
                if used == piece.len() {
                    return Reached {
                        used,
                        payload_len: None,
                    };
                }
                let room = LONGEST_FRAME - (ring.len() - *passed);
                let more = room.min(piece.len() - used);
                ring.fill_from_slice(&piece[used..used + more]);
                used += more;
            }
        }
    }
}

// Searches the ring from its passed bytes on for the next frame, as if no byte followed.
fn advance_ended(
    ring: &mut HeapCircularBuffer<u8>,
    passed: &mut usize,
    prefixes: &mut ArrayVec<u32, MOST_PREFIXES>,
) -> Option<usize>
    requires { RingHolds ring.old passed.old prefixes.old.items }
    ensures held { RingHolds ring.new passed.new prefixes.new.items }
    ensures searched { Searched (drop passed.old ring.old.items) (drop passed.new ring.new.items) }
    ensures found { MatchOption result
        (drop passed.new ring.new.items ≡ [])
        (λ n. (begins_frame (drop passed.new ring.new.items) ≡ true)
        × (n ≡ payload_length (drop passed.new ring.new.items)) × (n ≤ 1023)) }
{
    while *passed < ring.len() {
        drop_passed(ring, passed, prefixes);
        if let Front::Whole(payload_len) = front_at(ring.make_contiguous(), *passed, prefixes) {
            return Some(payload_len);
        }
        pass_to_preamble(ring, passed);
    }
    None
}

// Takes the passed bytes out of the ring if they are all its bytes, or more than the longest frame.
// Then the checksums of prefixes are forgotten.
fn drop_passed(
    ring: &mut HeapCircularBuffer<u8>,
    passed: &mut usize,
    prefixes: &mut ArrayVec<u32, MOST_PREFIXES>,
)
    requires { RingHolds ring.old passed.old prefixes.old.items }
    ensures held { RingHolds ring.new passed.new prefixes.new.items }
    ensures few { passed.new ≤ LONGEST_FRAME }
    ensures same { drop passed.new ring.new.items ≡ drop passed.old ring.old.items }
{
    if *passed == ring.len() || *passed > LONGEST_FRAME {
        remove_front(ring, *passed);
        *passed = 0;
        prefixes.clear();
    }
}

// Passes the byte behind the passed ones, and the bytes before the next preamble.
fn pass_to_preamble(ring: &mut HeapCircularBuffer<u8>, passed: &mut usize)
    requires { passed.old < length ring.old.items }
    ensures ring { ring.new ≡ ring.old }
    ensures further { (passed.old < passed.new) × (passed.new ≤ length ring.old.items) }
    ensures others { (i : ℕ) → passed.old < i → i < passed.new → slice_index ring.old.items i ≢ 0xD3 }
{
    *passed = next_preamble(ring.make_contiguous(), *passed + 1);
}

// Returns how many bytes of the piece need not enter the ring. If the ring has only passed bytes,
// these are the bytes before the piece's first preamble, else there are none.
fn bytes_to_pass(ring: &HeapCircularBuffer<u8>, passed: usize, piece: &[u8]) -> usize
    requires { passed ≤ length ring.now.items }
    ensures within { result ≤ length piece.now }
    ensures scanned { (text : List ℕ) → Scanned text (drop passed ring.now.items)
        → Scanned (text ++ take result piece.now) (drop passed ring.now.items) }
{
    if ring.len() == passed {
        before_preamble(piece)
    } else {
        0
    }
}

// Takes the first bytes out of the ring. The others stand at the start of its room then, so that they
// lie in one piece with bytes that come. That holds as long as no byte is taken out in another way:
// `clear` and `fill_from_slice` leave the place of the first byte.
fn remove_front(ring: &mut HeapCircularBuffer<u8>, count: usize)
    requires { (ring.old.capacity ≡ 2 * LONGEST_FRAME) × (count ≤ length ring.old.items)
        × (length ring.old.items ≤ count + LONGEST_FRAME) }
    ensures { ring.new ≡ buffer (drop count ring.old.items) ring.old.capacity }
{
    if count == ring.len() {
        ring.clear();
    } else {
        keep_rest(ring, count);
    }
}

// Takes the first bytes out of a ring in which some bytes stay. It is not inlined, so that its room
// is blanked only then.
#[inline(never)]
fn keep_rest(ring: &mut HeapCircularBuffer<u8>, count: usize)
    requires { (ring.old.capacity ≡ 2 * LONGEST_FRAME) × (count ≤ length ring.old.items)
        × (length ring.old.items ≤ count + LONGEST_FRAME) }
    ensures { ring.new ≡ buffer (drop count ring.old.items) ring.old.capacity }
{
    let rest = ring.len() - count;
    let mut room = [0u8; LONGEST_FRAME];
    copy_rest(ring.make_contiguous(), count, &mut room);
    ring.clear();
    ring.fill_from_slice(&room[..rest]);
}

// Copies the bytes from the place on into the room.
fn copy_rest(bytes: &[u8], place: usize, room: &mut [u8])
    requires { (place ≤ length bytes.now) × (length bytes.now ≤ place + length room.old) }
    ensures { take (length bytes.now - place) room.new ≡ drop place bytes.now }
{
    let rest = &bytes[place..];
    room[..rest.len()].copy_from_slice(rest);
}

// Makes room for checksums of prefixes. It is not inlined, so that only its own frame on the stack
// has the room that becomes a box.
#[inline(never)]
fn new_prefixes(alloc: Global) -> Result<Box<ArrayVec<u32, MOST_PREFIXES>>, AllocError>
    ensures { IfOk result (λ prefixes. prefixes.value.items ≡ []) }
{
    Ok(Box::new(alloc, ArrayVec::new())?)
}
