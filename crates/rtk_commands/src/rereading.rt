//! Files that are read twice: whether the second reading gives what the first one gave.

ghost use Rattle.std.specs.Prelude.{◌≡◌, ◌<◌, length, IfOk};
ghost use Rattle.std.specs.Io.{ReadsAtMost};
ghost use Rattle.std.specs.Io.KnownBytes.{ReadConsumes};
ghost use Rattle.rtk_commands.specs.Digests as spec;

use std::cell::Cell;
use std::io;
use std::io::{Error, Read};

/// By this a checksum is multiplied for each byte. It is odd, so no change of a single byte gets lost.
const FACTOR: u64 = 1_099_511_628_211;

/// What was read: how many bytes, and a checksum in which each byte counts by its place.
#[derive(Clone, Copy, Debug, PartialEq, Eq)]
pub struct Digest {
    bytes: u64,
    check: u64,
}

// The checksum with a byte more.
fn with_byte(check: u64, byte: u8) -> u64
    ensures { result ≡ spec.with_byte check byte }
{
    check.wrapping_mul(FACTOR).wrapping_add(u64::from(byte))
}

// The checksum with more bytes.
fn check_with(before: u64, part: &[u8]) -> u64
    ensures { result ≡ spec.check_with before part.now }
{
    let mut check = before;
    for byte in part {
        check = with_byte(check, *byte);
    }
    check
}

impl Digest {
    /// Nothing was read.
    pub fn new() -> Digest
        ensures { result ≡ spec.no_digest }
    {
        Digest { bytes: 0, check: 0 }
    }

    /// How many bytes were read. Stays at the greatest `u64`.
    pub fn bytes(&self) -> u64
        ensures { result ≡ self.now.bytes }
    {
        self.bytes
    }

    /// What was read, and a part more. In how many parts the bytes come makes no difference.
    pub fn followed_by(&self, part: &[u8]) -> Digest
        ensures { result ≡ spec.digest_with self.now part.now }
    {
        Digest {
            bytes: self.bytes.saturating_add(part.len() as u64),
            check: check_with(self.check, part),
        }
    }
}

/// A reader that keeps a digest of what it has read.
#[derive(Drop)]
pub struct Digested<'a, R> {
    inner: R,
    digest: &'a Cell<Digest>,
}

impl<'a, R> Digested<'a, R> {
    /// The reader, and where the digest is kept.
    pub fn new(inner: R, digest: &'a Cell<Digest>) -> Digested<'a, R>
        ensures { result.inner ≡ inner }
    {
        Digested { inner, digest }
    }
}

impl<R: Read> Read for Digested<'_, R> {
    ghost remaining = { λ reader. R.remaining reader.inner };

    fn read(&mut self, buf: &mut [u8]) -> io::Result<usize> {
        let count = self.inner.read(buf)?;
        let digest = self.digest.get();
        self.digest.set(digest.followed_by(&buf[..count]));
        Ok(count)
    }
}

/// A reader that gives again what was read before. It fails at its end if what it gave is not the same, and
/// then it puts its mark into a cell.
#[derive(Drop)]
pub struct Again<'a, R, M> {
    inner: R,
    mark: M,
    before: Digest,
    given: Digest,
    differing: &'a Cell<Option<M>>,
}

impl<'a, R, M> Again<'a, R, M> {
    /// The reader with this mark, which gave this before.
    pub fn new(inner: R, mark: M, before: Digest, differing: &'a Cell<Option<M>>) -> Again<'a, R, M>
        ensures { result.inner ≡ inner }
    {
        Again {
            inner,
            mark,
            before,
            given: Digest::new(),
            differing,
        }
    }
}

impl<R: Read, M: Copy> Read for Again<'_, R, M> {
    ghost remaining = { λ reader. R.remaining reader.inner };

    fn read(&mut self, buf: &mut [u8]) -> io::Result<usize>
        ensures bound { ReadsAtMost result buf.new }
        ensures bytes { ReadConsumes (R.remaining self.old.inner) (R.remaining self.new.inner) result buf.new }
        ensures same { IfOk result (λ n. n ≡ 0 → 0 < length buf.new → self.new.given ≡ self.new.before) }
    {
        let count = self.inner.read(buf)?;
        self.given = self.given.followed_by(&buf[..count]);
        if count == 0 && !buf.is_empty() && self.given != self.before {
            self.differing.set(Some(self.mark));
            return Err(Error::other("the file has changed"));
        }
        Ok(count)
    }
}
