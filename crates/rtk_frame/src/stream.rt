//! Where bytes come from and where they go: the two traits, their fault, and two calls over them.
//!
//! A failed call moves no byte and raises the count of failed calls. A count stays at its greatest
//! value, and there it counts as risen.

ghost use Rattle.std.specs.Prelude.{◌≡◌, ◌≤◌, ◌<◌, List, ℕ, Option, Ok, length, take, slice_index_or, is_err, OnOk, OnErr};
ghost use Rattle.rtk_frame.specs.Stream.{moved_count, with_more, count_after, failures_after, is_failed_write, CountRises, TakesPart, ReadsOne};

use thiserror::Error;

/// A read or a write failed.
#[derive(Clone, Copy, Debug, PartialEq, Eq, Error)]
#[error("the stream failed")]
pub struct StreamFault;

/// Where bytes come from: std's `Read`, with a contract that tells what passed.
pub trait Source {
    /// All bytes that it gave so far, in order; `None` if nothing is known about them.
    ghost given: { Self → Option (List ℕ) };

    /// How many calls failed so far: a `u64` that stays at its greatest value.
    ghost failures: { Self → ℕ };

    /// How many calls were made so far: a `u64` that stays at its greatest value.
    ghost calls: { Self → ℕ };

    /// It has met its end: a read with room gave nothing.
    ghost is_at_end: { Self → Type 0 };

    /// Reads into the buffer and answers how many bytes it gave. If the buffer has room, 0 means
    /// the end.
    ///
    /// A failed call gives nothing. The contract says nothing about the rest of the buffer.
    fn read(&mut self, buf: &mut [u8]) -> Result<usize, StreamFault>
        ensures bound { moved_count result ≤ length buf.new }
        ensures given { given self.new ≡ with_more (given self.old) (take (moved_count result) buf.new) }
        ensures failures { failures self.new ≡ failures_after (failures self.old) (is_err result) }
        ensures calls { calls self.new ≡ count_after (calls self.old) }
        ensures at_end { 0 < length buf.old → result ≡ Ok 0 → is_at_end self.new };
}

/// Where bytes go: std's `Write`, with a contract that tells what passed.
pub trait Sink {
    /// All bytes that it took so far, in order; `None` if nothing is known about them.
    ghost taken: { Self → Option (List ℕ) };

    /// How many calls failed so far: a `u64` that stays at its greatest value.
    ghost failures: { Self → ℕ };

    /// Takes a first part of the bytes and answers how many they are.
    ///
    /// A failed call takes nothing. A call that was given bytes and takes none of them has failed.
    fn write(&mut self, bytes: &[u8]) -> Result<usize, StreamFault>
        ensures bound { moved_count result ≤ length bytes.now }
        ensures taken { taken self.new ≡ with_more (taken self.old) (take (moved_count result) bytes.now) }
        ensures failures { failures self.new
            ≡ failures_after (failures self.old) (is_failed_write result bytes.now) };
}

/// Writes all the bytes, however few each call takes, and stops at the first call that fails.
pub fn write_all<W: Sink>(sink: &mut W, bytes: &[u8]) -> Result<(), StreamFault>
    ensures all { OnOk result (W.taken sink.new ≡ with_more (W.taken sink.old) bytes.now) }
    ensures part { TakesPart (W.taken sink.old) (W.taken sink.new) bytes.now }
    ensures same { OnOk result (W.failures sink.new ≡ W.failures sink.old) }
    ensures failed { OnErr result (CountRises (W.failures sink.old) (W.failures sink.new)) }
{
    let mut at = 0;
    while at < bytes.len() {
        let count = sink.write(&bytes[at..])?;
        if count == 0 {
            return Err(StreamFault);
        }
        at += count;
    }
    Ok(())
}

/// Reads once from one of many sources. The other sources stay as they are. If the buffer has room
/// and the read gave nothing, the source that was read is at its end. The function only hands on,
/// and it is here for its clauses.
pub fn read_one<R: Source>(
    sources: &mut [R],
    link: usize,
    buf: &mut [u8],
) -> Result<usize, StreamFault>
    requires link { link < length sources.old }
    ensures bound { moved_count result ≤ length buf.new }
    ensures read { ReadsOne R.given R.failures R.calls sources.old sources.new link result buf.new }
    ensures at_end { (none : R) → 0 < length buf.old → result ≡ Ok 0 → R.is_at_end (slice_index_or sources.new link none) }
{
    sources[link].read(buf)
}
