//! A source and a sink over memory. Their contracts say in full what they answer.
//!
//! Both take all their memory in `new`.

ghost use Rattle.std.specs.Prelude.{◌≡◌, ◌≤◌, ◌<◌, ◌++◌, Some, length, min, take, IfOk, IsErr};
ghost use Rattle.rtk_frame.specs.Stream.{moved_count, count_after, failures_after, is_failed_write};

use crate::{Sink, Source, StreamFault};
use std::alloc::{AllocError, Global};
use std::marker::Model;

/// What a source over memory does when it has given its bytes.
#[derive(Clone, Copy, Debug, PartialEq, Eq)]
pub enum After {
    /// Each further read answers 0.
    End,
    /// Each further read fails.
    Failure,
    /// Each further read gives bytes that are 0. It fails if there would be more than 2^128 - 1 of
    /// them.
    Zeros,
}

/// A source over bytes in memory.
#[derive(Drop)]
pub struct MemSource {
    bytes: Vec<u8>,
    at: usize,
    zeros: u128,
    per_read: usize,
    after: After,
    failed_reads: u64,
    calls: u64,
}

// Clauses see what was given and what is left.
impl Model for MemSource {
    ghost use Rattle.std.specs.Prelude.{◌≡◌, ◌≤◌, ◌<◌, ◌++◌, take, drop, replicate, vec_len};
    ghost use Rattle.rtk_frame.specs.Memory.{MemSourceView};

    ghost Value = { MemSourceView };

    ghost view = { λ s. record {
      given = take s.at s.bytes.items ++ replicate s.zeros 0;
      left = drop s.at s.bytes.items;
      after = s.after;
      per_read = s.per_read;
      failures = s.failed_reads;
      calls = s.calls;
    } };

    ghost invariant = { λ s. (s.at ≤ vec_len s.bytes) × (0 < s.zeros → s.at ≡ vec_len s.bytes) × (1 ≤ s.per_read) };
}

impl MemSource {
    ghost use Rattle.rtk_frame.specs.Memory.{new_source};

    /// Makes a source of a copy of the bytes. Each read gives at most `per_read` of them.
    pub fn new(
        alloc: Global,
        bytes: &[u8],
        per_read: usize,
        after: After,
    ) -> Result<MemSource, AllocError>
        requires per_read { 1 ≤ per_read }
        // Fails only if memory is refused: tests/system/calls, rows MemSource::new.
        ensures { IfOk result (λ source. source ≡ new_source bytes.now per_read after) }
    {
        Ok(MemSource {
            bytes: Vec::from_slice(alloc, bytes)?,
            at: 0,
            zeros: 0,
            per_read,
            after,
            failed_reads: 0,
            calls: 0,
        })
    }
}

impl Source for MemSource {
    ghost use Rattle.std.specs.Prelude.{◌+◌, ◌^◌, Ok, replicate, is_err};
    ghost use Rattle.rtk_frame.specs.declared.memory.After.TheVariants.{End, Failure, Zeros};
    ghost use Rattle.rtk_frame.specs.Memory.{room_of, IsSpent, IsReadOn};

    ghost given = { λ s. Some s.given };

    ghost failures = { λ s. s.failures };

    ghost calls = { λ s. s.calls };

    ghost is_at_end = { λ s. IsSpent s End };

    /// Gives the next bytes, as many as fit. After the last of them it does what `After` says.
    fn read(&mut self, buf: &mut [u8]) -> Result<usize, StreamFault>
        ensures bound { moved_count result ≤ length buf.new }
        ensures given { self.new.given ≡ self.old.given ++ take (moved_count result) buf.new }
        ensures failures { self.new.failures ≡ failures_after self.old.failures (is_err result) }
        ensures calls { self.new.calls ≡ count_after self.old.calls }

        // What it answers, and the bytes.
        ensures bytes { 0 < length self.old.left
            → result ≡ Ok (min (room_of self.old buf.old) (length self.old.left)) }
        ensures end { IsSpent self.old End → result ≡ Ok 0 }
        ensures only_end { 0 < length buf.old → result ≡ Ok 0 → IsSpent self.old End }
        ensures failure { IsSpent self.old Failure → IsErr result }
        ensures zeros { IsSpent self.old Zeros
            → length self.old.given + length buf.old < 2 ^ 128
            → result ≡ Ok (room_of self.old buf.old) }
        ensures next { let count = moved_count result in
            take count buf.new ≡ take count (self.old.left ++ replicate count 0) }
        ensures rest { IsReadOn self.old self.new (moved_count result) }
    {
        self.calls = self.calls.saturating_add(1);
        let room = buf.len().min(self.per_read);
        let left = self.bytes.len() - self.at;
        if left > 0 {
            let count = room.min(left);
            buf[..count].copy_from_slice(&self.bytes[self.at..self.at + count]);
            self.at += count;
            return Ok(count);
        }
        let zeros = match self.after {
            After::End => return Ok(0),
            After::Failure => None,
            After::Zeros => self.zeros.checked_add(room as u128),
        };
        let Some(zeros) = zeros else {
            self.failed_reads = self.failed_reads.saturating_add(1);
            return Err(StreamFault);
        };
        buf[..room].fill(0);
        self.zeros = zeros;
        Ok(room)
    }
}

/// A sink into memory, with room for a fixed number of bytes.
#[derive(Drop)]
pub struct MemSink {
    bytes: Vec<u8>,
    len: usize,
    per_write: usize,
    failed_writes: u64,
}

// Clauses see what was taken and how much room is left.
impl Model for MemSink {
    ghost use Rattle.std.specs.Prelude.{◌≤◌, ◌-◌, take, vec_len};
    ghost use Rattle.rtk_frame.specs.Memory.{MemSinkView};

    ghost Value = { MemSinkView };

    ghost view = { λ s. record {
      taken = take s.len s.bytes.items;
      room = vec_len s.bytes - s.len;
      per_write = s.per_write;
      failures = s.failed_writes;
    } };

    ghost invariant = { λ s. (s.len ≤ vec_len s.bytes) × (1 ≤ s.per_write) };
}

impl MemSink {
    ghost use Rattle.rtk_frame.specs.Memory.{new_sink};

    /// Makes an empty sink. It takes `room` bytes in all, and at most `per_write` of them in each
    /// write.
    pub fn new(alloc: Global, room: usize, per_write: usize) -> Result<MemSink, AllocError>
        requires per_write { 1 ≤ per_write }
        // Fails only if memory is refused: tests/system/calls, rows MemSink::new.
        ensures { IfOk result (λ sink. sink ≡ new_sink room per_write) }
    {
        Ok(MemSink {
            bytes: vec![in alloc; 0u8; room]?,
            len: 0,
            per_write,
            failed_writes: 0,
        })
    }

    /// Returns the bytes that it took.
    pub fn bytes(&self) -> &[u8]
        ensures { result.now ≡ self.now.taken }
    {
        &self.bytes[..self.len]
    }
}

impl Sink for MemSink {
    ghost use Rattle.std.specs.Prelude.{◌-◌, ◌↔◌};

    ghost taken = { λ s. Some s.taken };

    ghost failures = { λ s. s.failures };

    /// Takes as many bytes as one write may take and as there is room for. It fails if there are
    /// bytes to write and no room is left.
    fn write(&mut self, bytes: &[u8]) -> Result<usize, StreamFault>
        ensures bound { moved_count result ≤ length bytes.now }
        ensures taken { self.new.taken ≡ self.old.taken ++ take (moved_count result) bytes.now }
        ensures failures { self.new.failures
            ≡ failures_after self.old.failures (is_failed_write result bytes.now) }

        // How many bytes it takes, and when it takes no byte.
        ensures count { let most = min self.old.per_write self.old.room in
            IfOk result (λ count. count ≡ min (length bytes.now) most) }
        ensures full { IsErr result ↔ ((0 < length bytes.now) × (self.old.room ≡ 0)) }
        ensures room { self.new.room ≡ self.old.room - moved_count result }
        ensures per_write { self.new.per_write ≡ self.old.per_write }
    {
        let room = self.bytes.len() - self.len;
        let count = bytes.len().min(self.per_write.min(room));
        if count == 0 && !bytes.is_empty() {
            self.failed_writes = self.failed_writes.saturating_add(1);
            return Err(StreamFault);
        }
        let end = self.len + count;
        self.bytes[self.len..end].copy_from_slice(&bytes[..count]);
        self.len = end;
        Ok(count)
    }
}
