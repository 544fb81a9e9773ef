//! Files and standard streams as sources and sinks. What a reader or a writer says of its bytes is
//! what they say; a file and a standard stream say nothing.
//!
//! Failed calls are counted, and a reader has met its end once a read with room gave nothing.

ghost use Rattle.std.specs.Prelude.{◌≡◌, OnOk, IfOk, IfErr, List, ℕ, true, false};
ghost use Rattle.std.specs.Io.Buffered.{writer_capacity, writer_contents};
ghost use Rattle.std.specs.Io.KnownBytes.{Keeps, append_known};
ghost use Rattle.rtk_commands.specs.Passed.{given_of, IsLeft, taken_of};
ghost use Rattle.rtk_commands.specs.declared.fault.ToolFault.TheVariants.{OutOfMemory};

use crate::before::Before;
use crate::fault::ToolFault;
use crate::resuming::Resumed;
use rtk_frame::{Sink, Source, StreamFault};
use std::alloc::Global;
use std::fs::Files;
use std::io::{BufWriter, Print, Printer, Read, Write};
use std::marker::{Brand, Model, PhantomData};
use std::{fs, io};

/// The word that names standard input.
pub const STDIN: &str = "stdin";

// constant
/// How many bytes of the part of `cut`, and of the file and the report of `convert`, are gathered
/// before they are written; of a conversion only if no link is standard input.
pub const GATHERED: usize = 65_536;

/// The most reads of a conversion, and of a summary.
pub const MOST_READS: u64 = 1_000_000_000;

/// An input of the program, a capture or a text: a file, or standard input.
#[derive(Drop)]
pub enum Capture<F: Read + Drop, I: Read + Drop> {
    File(F),
    Stdin(I),
}

impl<F: Read + Drop, I: Read + Drop> Read for Capture<F, I> {
    ghost use Rattle.rtk_commands.specs.CaptureBytes.{capture_remaining};

    ghost remaining = { capture_remaining F.remaining I.remaining };

    fn read(&mut self, buf: &mut [u8]) -> io::Result<usize> {
        match self {
            Capture::File(file) => file.read(buf),
            Capture::Stdin(stdin) => stdin.read(buf),
        }
    }
}

/// The capture or the text of this name, open; the word `stdin` is standard input. `None` if there is
/// no such file, or it may not be read.
pub fn open_input<R: Files + Input>(
    rt: &R,
    name: &str,
) -> Option<Resumed<Capture<R::File, R::Reader>>> {
    if name == STDIN {
        return Some(Resumed::new(Capture::Stdin(rt.reader())));
    }
    match fs::open(rt, name) {
        Ok(file) => Some(Resumed::new(Capture::File(file))),
        Err(_) => None,
    }
}

/// Can standard input be read? This is asked before a file is opened, which would be given the
/// descriptor of a closed one. The read has no room, so it takes no byte.
pub(crate) fn is_standard_input_readable<R: Input>(rt: &R) -> bool {
    Resumed::new(rt.reader()).read(&mut []).is_ok()
}

/// Standard output. It gathers nothing.
pub fn standard_output<R: Print>(rt: &R) -> Resumed<Printer<'_, R>> {
    Resumed::new(io::writer(rt))
}

/// A reader of std as a source. It gives the bytes that the reader had; its calls are counted. Its
/// number tells it from other readers, and says what was known of its bytes.
#[derive(Drop)]
pub struct Reads<R: Read, K: Before = Brand> {
    inner: R,
    number: u8,
    failed: u64,
    made: u64,
    ended: bool,
    of: PhantomData<K>,
}

// Clauses see every field. The invariant names every field too, so that none can be added in which
// bytes are counted or kept unseen. What a reader has left is the end of what it had.
impl<R: Read, K: Before> Model for Reads<R, K> {
    ghost use Rattle.std.specs.Prelude.{◌≡◌};
    ghost use Rattle.rtk_commands.specs.Passed.{IsLeft};
    ghost use Rattle.rtk_commands.specs.StreamViews.{ReadsView, reads_view_code};

    ghost Value = { ReadsView R };

    ghost coded = { reads_view_code R.code };

    ghost view = { λ s. record { inner = s.inner; number = s.number; failed = s.failed; made = s.made; ended = s.ended } };

    ghost invariant = { λ s.
        (s ≡ record { inner = s.inner; number = s.number; failed = s.failed; made = s.made; ended = s.ended; of = s.of })
        × IsLeft (K.had s.number) (R.remaining s.inner) s.ended };
}

impl<R: Read, K: Before> Reads<R, K> {
    /// A source over a reader, before its first call. If `K` knows the bytes of this number, they are
    /// those that the reader has to give.
    pub fn over(inner: R, number: u8) -> Reads<R, K>
        requires known { Keeps (K.had number) (R.remaining inner) }
        ensures no_call { (result.made ≡ 0) × (result.failed ≡ 0) × (result.ended ≡ false) }
        ensures inner { result.inner ≡ inner }
        ensures number { result.number ≡ number }
    {
        Reads {
            inner,
            number,
            failed: 0,
            made: 0,
            ended: false,
            of: PhantomData,
        }
    }
}

impl<R: Read, K: Before> Source for Reads<R, K> {
    ghost given = { λ source. given_of source.number (K.had source.number) (R.remaining source.inner) };

    ghost failures = { λ source. source.failed };

    ghost calls = { λ source. source.made };

    ghost is_at_end = { λ source. (source.ended ≡ true)
        × IsLeft (K.had source.number) (R.remaining source.inner) true };

    fn read(&mut self, buf: &mut [u8]) -> Result<usize, StreamFault> {
        self.made = self.made.saturating_add(1);
        match self.inner.read(buf) {
            Ok(0) if !buf.is_empty() => {
                self.ended = true;
                Ok(0)
            }
            Ok(count) => Ok(count),
            Err(_) => {
                self.failed = self.failed.saturating_add(1);
                Err(StreamFault)
            }
        }
    }
}

/// A writer of std as a sink. What it takes the writer holds; its failed calls are counted. Its number
/// tells it from other writers, and says what was known of its bytes.
#[derive(Drop)]
pub struct Writes<W: Write, K: Before = Brand> {
    inner: W,
    number: u8,
    failed: u64,
    of: PhantomData<K>,
}

// Clauses see every field, and the invariant names every field, as that of `Reads` does. Bytes that
// were known are known.
impl<W: Write, K: Before> Model for Writes<W, K> {
    ghost use Rattle.std.specs.Prelude.{◌≡◌};
    ghost use Rattle.rtk_commands.specs.Passed.{StaysKnown};
    ghost use Rattle.rtk_commands.specs.StreamViews.{WritesView, writes_view_code};

    ghost Value = { WritesView W };

    ghost coded = { writes_view_code W.code };

    ghost view = { λ s. record { inner = s.inner; number = s.number; failed = s.failed } };

    ghost invariant = { λ s.
        (s ≡ record { inner = s.inner; number = s.number; failed = s.failed; of = s.of })
        × StaysKnown (K.held s.number) (W.contents s.inner) };
}

impl<W: Write, K: Before> Writes<W, K> {
    /// A sink over a writer, before its first call. If `K` knows the bytes of this number, they are
    /// those that the writer holds.
    pub fn over(inner: W, number: u8) -> Writes<W, K>
        requires known { Keeps (K.held number) (W.contents inner) }
        ensures no_failed_call { result.failed ≡ 0 }
        ensures inner { result.inner ≡ inner }
        ensures number { result.number ≡ number }
    {
        Writes {
            inner,
            number,
            failed: 0,
            of: PhantomData,
        }
    }

    /// The writer behind. This flushes nothing: over a `BufWriter` call `into_writer`, which
    /// flushes.
    pub fn into_inner(self) -> W
        ensures { result ≡ self.inner }
    {
        self.inner
    }
}

// Hands on what was gathered, and ends with the writer behind. What can't be written now is let go,
// so that nothing comes after a fault line.
fn hand_on<W: Write + Drop>(gathered: BufWriter<W>) -> (W, Result<(), StreamFault>)
    ensures all { OnOk result.1 (Keeps (writer_contents W.contents gathered) (W.contents result.0)) }
    ensures part { (unwritten : List ℕ) × Keeps (writer_contents W.contents gathered) (append_known (W.contents result.0) unwritten) }
{
    let mut writer = gathered;
    let flushed = writer.flush();
    let (inner, _unwritten) = writer.into_parts();
    match flushed {
        Ok(()) => (inner, Ok(())),
        Err(_) => (inner, Err(StreamFault)),
    }
}

impl<W: Write + Drop, K: Before> Writes<BufWriter<W>, K> {
    /// Flushes what was gathered, and ends with the writer behind. If all is handed on, that writer
    /// holds what was taken. What can't be written now is let go.
    pub fn into_writer(self) -> (W, Result<(), StreamFault>)
        ensures taken { OnOk result.1 (taken_of (K.held self.number) (W.contents result.0)
            ≡ taken_of (K.held self.number) (writer_contents W.contents self.inner)) }
        ensures rest { (unwritten : List ℕ) × (taken_of (K.held self.number) (append_known (W.contents result.0) unwritten)
            ≡ taken_of (K.held self.number) (writer_contents W.contents self.inner)) }
        ensures all { OnOk result.1 (Keeps (writer_contents W.contents self.inner) (W.contents result.0)) }
        ensures part { (unwritten : List ℕ) × Keeps (writer_contents W.contents self.inner) (append_known (W.contents result.0) unwritten) }
    {
        // The pair is taken apart for its clauses.
        let (writer, written) = hand_on(self.inner);
        (writer, written)
    }
}

impl<W: Write, K: Before> Sink for Writes<W, K> {
    ghost taken = { λ sink. taken_of (K.held sink.number) (W.contents sink.inner) };

    ghost failures = { λ sink. sink.failed };

    fn write(&mut self, bytes: &[u8]) -> Result<usize, StreamFault> {
        match self.inner.write(bytes) {
            Ok(0) if !bytes.is_empty() => {
                self.failed = self.failed.saturating_add(1);
                Ok(0)
            }
            Ok(count) => Ok(count),
            Err(_) => {
                self.failed = self.failed.saturating_add(1);
                Err(StreamFault)
            }
        }
    }
}

/// A writer as a sink that gathers what it takes, or, with no room, passes each write on. If memory is
/// refused the writer is let go.
pub fn sink<W: Write + Drop, K: Before>(
    alloc: Global,
    room: usize,
    to: W,
    number: u8,
) -> Result<Writes<BufWriter<Resumed<W>>, K>, ToolFault>
    requires known { Keeps (K.held number) (W.contents to) }
    ensures fault { IfErr result (λ fault. fault ≡ OutOfMemory) }
    ensures room { IfOk result (λ s. writer_capacity s.inner ≡ room) }
    ensures number { IfOk result (λ s. s.number ≡ number) }
    ensures held { IfOk result (λ s. Keeps (K.held number) (⟦<BufWriter<Resumed<W>> as Write>⟧.contents s.inner)) }
{
    let writer = BufWriter::with_capacity(alloc, room, Resumed::new(to))?;
    Ok(Writes::over(writer, number))
}
