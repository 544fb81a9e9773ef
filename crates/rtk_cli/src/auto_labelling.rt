//! The label of `auto`: a writer that fills the first lines of a file as they pass.

ghost use Rattle.std.specs.Prelude.{◌≡◌, None, take, IfOk};
ghost use Rattle.std.specs.Io.{WritesAtMost};
ghost use Rattle.std.specs.Io.KnownBytes.{WriteAppends, Appends};
ghost use Rattle.rtk_cli.specs.LabelPassing.{AwaitsText, FillsText, FillsFirst};

use rtk_label::{Filling, Label};
use std::io;
use std::io::Write;

/// A writer, and the label that the file gets which is written to it. The first nine lines wait until they are
/// whole. Of its bytes nothing is known, but what each call does to those of the writer behind.
#[derive(Drop)]
pub(crate) struct Labelled<W> {
    inner: W,
    // The lines that wait, if the file gets a label and they are not written.
    filling: Option<Filling>,
}

impl<W> Labelled<W> {
    /// The writer, before its first call.
    pub(crate) fn new(inner: W, label: Option<Label>) -> Labelled<W>
        ensures inner { result.inner ≡ inner }
        ensures awaits { AwaitsText label result }
    {
        match label {
            Some(label) => Labelled {
                inner,
                filling: Some(Filling::new(label)),
            },
            None => Labelled {
                inner,
                filling: None,
            },
        }
    }

    /// The writer behind. A file has more than nine lines, so none waits any more.
    pub(crate) fn into_inner(self) -> W
        ensures { result ≡ self.inner }
    {
        self.inner
    }
}

impl<W: Write> Labelled<W> {
    // Writes lines, which hold so many bytes of the text.
    fn write_lines(&mut self, lines: &[u8], count: usize) -> io::Result<usize>
        ensures wrote { IfOk result (λ n. (n ≡ count) × Appends (W.contents self.old.inner) (W.contents self.new.inner) lines.now) }
        ensures filling { self.new.filling ≡ self.old.filling }
    {
        self.inner.write_all(lines)?;
        Ok(count)
    }

    // Hands on a part of the text.
    fn pass_on(&mut self, buf: &[u8]) -> io::Result<usize>
        ensures bound { WritesAtMost result buf.now }
        ensures bytes { WriteAppends (W.contents self.old.inner) (W.contents self.new.inner) result buf.now }
        ensures filling { self.new.filling ≡ self.old.filling }
    {
        self.inner.write(buf)
    }

    // Takes what the lines that wait lack, and writes them once they are whole.
    fn fill(&mut self, filling: Filling, buf: &[u8]) -> io::Result<usize>
        requires { self.old.filling ≡ None }
        ensures bound { WritesAtMost result buf.now }
        ensures fills { IfOk result (λ n. FillsFirst W.contents filling self.old.inner self.new (take n buf.now)) }
    {
        let mut filling = filling;
        let count = filling.take(buf);
        match filling.lines() {
            Some(lines) => self.write_lines(lines.as_slice(), count),
            None => {
                self.filling = Some(filling);
                Ok(count)
            }
        }
    }
}

impl<W: Write> Write for Labelled<W> {
    fn write(&mut self, buf: &[u8]) -> io::Result<usize>
        ensures bound { WritesAtMost result buf.now }
        ensures bytes { WriteAppends None None result buf.now }
        ensures fills { IfOk result (λ n. FillsText W.contents self.old self.new (take n buf.now)) }
    {
        match self.filling.take() {
            Some(filling) => self.fill(filling, buf),
            None => self.pass_on(buf),
        }
    }

    fn flush(&mut self) -> io::Result<()> {
        self.inner.flush()
    }
}
