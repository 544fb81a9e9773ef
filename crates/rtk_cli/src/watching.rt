//! A writer whose text is looked at as it passes.

use rtk_plan::TakesText;
use std::alloc::AllocError;
use std::io;
use std::io::Write;

/// A writer, and what looks at the text that goes to it.
#[derive(Drop)]
pub(crate) struct Watched<W, T> {
    inner: W,
    watch: T,
    // Once memory is refused, the text is no longer looked at.
    taken: Result<(), AllocError>,
}

impl<W: Drop, T: Drop> Watched<W, T> {
    /// The writer, before its first call.
    pub(crate) fn new(inner: W, watch: T) -> Watched<W, T> {
        Watched {
            inner,
            watch,
            taken: Ok(()),
        }
    }

    /// The writer behind, and what looked at the whole text.
    pub(crate) fn into_parts(self) -> Result<(W, T), AllocError> {
        self.taken?;
        Ok((self.inner, self.watch))
    }
}

impl<W: Write, T: TakesText> Write for Watched<W, T> {
    ghost use Rattle.rtk_cli.specs.Watched.{watched_contents};

    ghost contents = { watched_contents W.contents };

    fn write(&mut self, buf: &[u8]) -> io::Result<usize> {
        let count = self.inner.write(buf)?;
        if self.taken.is_ok() && count <= buf.len() {
            self.taken = self.watch.take(&buf[..count]);
        }
        Ok(count)
    }

    fn flush(&mut self) -> io::Result<()> {
        self.inner.flush()
    }
}
