//! Readers and writers whose calls are made again if a signal interrupts them.
//!
//! They stand below all buffers and hand on no interruption, so that no buffer above makes a call
//! again without a count.

ghost use Rattle.std.specs.Prelude.{◌≡◌, ◌≢◌, ◌≤◌, IfErr};
ghost use Rattle.std.specs.Io.{ReadsAtMost, WritesAtMost};
ghost use Rattle.std.specs.Io.KnownBytes.{Keeps, ReadConsumes, WriteAppends};
ghost use Rattle.std.specs.IoError.{error_kind};
ghost use Rattle.std.specs.declared.io.ErrorKind.TheVariants.{Interrupted};
ghost use Rattle.rtk_commands.specs.Steps.Interrupts.{most_interruptions, FollowsError};

use std::io;
use std::io::{Error, ErrorKind, Read, Write};
use std::marker::Model;

/// How often in a row an interrupted call is made again.
const MOST_INTERRUPTIONS: u16 = 1000;

// What follows an error, after so many interruptions in a row. A call that was interrupted too
// often has failed, by an error of a kind for which no buffer above makes it again.
fn after_error(error: Error, interruptions: u16) -> io::Result<u16>
    requires { interruptions ≤ most_interruptions }
    ensures { FollowsError error interruptions result }
{
    if error.kind() != ErrorKind::Interrupted {
        return Err(error);
    }
    if interruptions == MOST_INTERRUPTIONS {
        return Err(Error::other("interrupted too often"));
    }
    Ok(interruptions + 1)
}

/// A reader or a writer below all buffers. None of its calls answers that it was interrupted.
#[derive(Drop)]
pub struct Resumed<T> {
    inner: T,
}

// Clauses see its field, and the invariant names it, so that no other can be added unseen.
impl<T> Model for Resumed<T> {
    ghost use Rattle.std.specs.Prelude.{◌≡◌};
    ghost use Rattle.rtk_commands.specs.StreamViews.{ResumedView, resumed_view_code};

    ghost Value = { ResumedView T };

    ghost coded = { resumed_view_code T.code };

    ghost view = { λ r. record { inner = r.inner } };

    ghost invariant = { λ r. r ≡ record { inner = r.inner } };
}

impl<T> Resumed<T> {
    /// The same reader or writer, whose interrupted calls are made again.
    pub fn new(inner: T) -> Resumed<T>
        ensures { result ≡ record { inner = inner } }
    {
        Resumed { inner }
    }

    /// The reader or the writer behind.
    pub fn into_inner(self) -> T
        ensures { result ≡ self.inner }
    {
        self.inner
    }
}

impl<R: Read> Read for Resumed<R> {
    ghost remaining = { λ reader. R.remaining reader.inner };

    fn read(&mut self, buf: &mut [u8]) -> io::Result<usize>
        ensures bound { ReadsAtMost result buf.new }
        ensures bytes { ReadConsumes (R.remaining self.old.inner) (R.remaining self.new.inner) result buf.new }
        ensures resumed { IfErr result (λ error. error_kind error ≢ Interrupted) }
    {
        let mut interruptions = 0;
        loop {
            match self.inner.read(buf) {
                Ok(count) => return Ok(count),
                Err(error) => interruptions = after_error(error, interruptions)?,
            }
        }
    }
}

impl<W: Write> Write for Resumed<W> {
    ghost contents = { λ writer. W.contents writer.inner };

    fn write(&mut self, buf: &[u8]) -> io::Result<usize>
        ensures bound { WritesAtMost result buf.now }
        ensures bytes { WriteAppends (W.contents self.old.inner) (W.contents self.new.inner) result buf.now }
        ensures resumed { IfErr result (λ error. error_kind error ≢ Interrupted) }
    {
        let mut interruptions = 0;
        loop {
            match self.inner.write(buf) {
                Ok(count) => return Ok(count),
                Err(error) => interruptions = after_error(error, interruptions)?,
            }
        }
    }

    fn flush(&mut self) -> io::Result<()>
        ensures bytes { Keeps (W.contents self.old.inner) (W.contents self.new.inner) }
        ensures resumed { IfErr result (λ error. error_kind error ≢ Interrupted) }
    {
        let mut interruptions = 0;
        loop {
            match self.inner.flush() {
                Ok(()) => return Ok(()),
                Err(error) => interruptions = after_error(error, interruptions)?,
            }
        }
    }
}
