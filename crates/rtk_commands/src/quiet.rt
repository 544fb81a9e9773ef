//! A writer that can be kept silent.

use std::io;
use std::io::Write;

/// A writer that is written to, or one that is not: then it takes all bytes and none of them is
/// written.
#[derive(Drop)]
pub struct Quiet<W> {
    inner: W,
    is_quiet: bool,
}

impl<W> Quiet<W> {
    /// The writer, and whether nothing goes to it.
    pub fn new(inner: W, is_quiet: bool) -> Quiet<W> {
        Quiet { inner, is_quiet }
    }

    /// The writer behind.
    pub fn into_inner(self) -> W {
        self.inner
    }
}

impl<W: Write> Write for Quiet<W> {
    ghost use Rattle.rtk_commands.specs.Quiet.{quiet_contents};

    ghost contents = { quiet_contents W.contents };

    fn write(&mut self, buf: &[u8]) -> io::Result<usize> {
        if self.is_quiet {
            return Ok(buf.len());
        }
        self.inner.write(buf)
    }

    fn flush(&mut self) -> io::Result<()> {
        if self.is_quiet {
            return Ok(());
        }
        self.inner.flush()
    }
}
