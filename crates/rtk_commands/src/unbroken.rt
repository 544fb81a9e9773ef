//! A writer whose failures do not end the work.

use std::io;
use std::io::{ErrorKind, Write};

/// A writer that goes on if the writer behind it fails: from then on it takes all bytes, and none of them is
/// written. Of its bytes nothing is known.
#[derive(Drop)]
pub struct Unbroken<W> {
    inner: W,
    has_failed: bool,
}

impl<W> Unbroken<W> {
    /// The writer, which has not failed.
    pub fn new(inner: W) -> Unbroken<W> {
        Unbroken {
            inner,
            has_failed: false,
        }
    }

    /// Has the writer behind failed?
    pub fn has_failed(&self) -> bool {
        self.has_failed
    }
}

impl<W: Write> Write for Unbroken<W> {
    fn write(&mut self, buf: &[u8]) -> io::Result<usize> {
        if self.has_failed {
            return Ok(buf.len());
        }
        match self.inner.write(buf) {
            Ok(count) if 0 < count || buf.is_empty() => Ok(count),
            Err(error) if error.kind() == ErrorKind::Interrupted => Err(error),
            Ok(_) | Err(_) => {
                self.has_failed = true;
                Ok(buf.len())
            }
        }
    }

    fn flush(&mut self) -> io::Result<()> {
        if !self.has_failed && self.inner.flush().is_err() {
            self.has_failed = true;
        }
        Ok(())
    }
}
