//! The command `show`: a line for each frame of a capture, by the messages that are read.

ghost use Rattle.std.specs.Prelude.{◌≡◌, ◌≢◌, ◌⊎◌, ℕ, ◌≤◌, Some, Err, [], length, IfOk, OnOk, IfErr, IsErrOf, IsNone, IsSome};
ghost use Rattle.std.specs.Io.KnownBytes.{Keeps};
ghost use Rattle.rtk_frame.specs.Frames.{frames};
ghost use Rattle.rtk_frame.specs.Stream.{CountRises, with_more, TakesPart};
ghost use Rattle.rtk_commands.specs.Input.{GivesText, ReadsWhole};
ghost use Rattle.rtk_commands.specs.Outcome.{IsOutcome};
ghost use Rattle.rtk_commands.specs.Hex.{capture_of};
ghost use Rattle.rtk_commands.specs.Show.{ShowsTextBy, ShowsPartOfBy, ShowsText, ShowsPartOf, IsBeforeOutput};
ghost use Rattle.rtk_commands.specs.Shown.{AreLinesOf, Shows, ShowsPart};
ghost use Rattle.rtk_commands.specs.ShownBySet.{IsLineBy};
ghost use Rattle.rtk_commands.specs.declared.fault.ToolFault.TheVariants.{NotHex, OutOfMemory, Output};

use crate::before::Before;
use crate::exit_status::{DONE, FAILED, fail, fail_to_open};
use crate::fault::ToolFault;
use crate::files::{Reads, Writes, open_input, standard_output};
use crate::hex_input::decode_hex;
use crate::input::read_whole;
use crate::payload_line::put_payload_line;
use rtk_frame::laws::frames_of_a_text;
use rtk_frame::{Frames, Sink, Source, write_all};
use rtk_message::{Accepted, AnyDecoder, MsmKind};
use std::alloc::Global;
use std::fs::Files;
use std::io::{Read, Write};
use std::marker::Brand;

// constant
/// The most bytes of an input of `show`, which holds it whole.
pub const SHOW_LIMIT: usize = 16_777_216;

/// Lines are written when they have this many bytes, and at the end. `show_frames` gathers them
/// itself: each line is put into a `Vec`, so a `BufWriter` would only copy it.
const FULL: usize = 65_536;

// The capture that the input is.
fn capture_from(alloc: Global, text: Vec<u8>, hex: bool) -> Result<Vec<u8>, ToolFault>
    ensures bytes { IfOk result (λ bytes. capture_of hex text.items ≡ Some bytes.items) }
    ensures not_hex { IsErrOf result NotHex → IsNone (capture_of hex text.items) }
    // `OutOfMemory` comes only if memory is refused: tests/system/calls, rows `show ..`.
    ensures else_memory { IfErr result (λ fault. fault ≢ NotHex → fault ≡ OutOfMemory) }
{
    if hex {
        decode_hex(alloc, text.as_slice())
    } else {
        Ok(text)
    }
}

// Writes the lines that were gathered, and clears them.
fn write_lines<W: Sink>(out: &mut W, lines: &mut Vec<u8>) -> Result<(), ToolFault>
    ensures taken { OnOk result (W.taken out.new ≡ with_more (W.taken out.old) lines.old.items) }
    ensures none { OnOk result (lines.new.items ≡ []) }
    ensures no_fault { OnOk result (W.failures out.new ≡ W.failures out.old) }
    ensures part { TakesPart (W.taken out.old) (W.taken out.new) lines.old.items }
    ensures output { IfErr result (λ fault. fault ≡ Output) }
    ensures failed { IsErrOf result Output → CountRises (W.failures out.old) (W.failures out.new) }
{
    if write_all(out, lines.as_slice()).is_err() {
        return Err(ToolFault::Output);
    }
    lines.clear();
    Ok(())
}

// Writes the line of each frame of a capture by a set of messages, and answers how many there are.
fn show_frames<W: Sink>(
    alloc: Global,
    capture: &[u8],
    out: &mut W,
    accepted: Accepted,
) -> Result<u64, ToolFault>
    ensures shown { OnOk result (Shows (IsLineBy accepted) capture.now (W.taken out.old) (W.taken out.new)) }
    ensures count { IfOk result (λ count. count ≡ length (frames capture.now)) }
    ensures no_fault { result ≢ Err Output → W.failures out.new ≡ W.failures out.old }
    ensures part { ShowsPart (IsLineBy accepted) capture.now (W.taken out.old) (W.taken out.new) }
    ensures output { IsErrOf result Output → CountRises (W.failures out.old) (W.failures out.new) }
    // `OutOfMemory` comes only if memory is refused: tests/system/calls, rows `show ..`.
    ensures else_memory { IfErr result (λ fault. fault ≢ Output → fault ≡ OutOfMemory) }
{
    // A law: the frames that `Frames` gives are those of the text. The loop's proof begins with it.
    frames_of_a_text();
    let mut lines = Vec::new(alloc);
    let mut decoder = AnyDecoder::new();
    let mut rest = Frames::new(capture);
    let mut count = 0u64;
    while let Some(found) = rest.next_frame() {
        let Ok(()) = put_payload_line(&mut lines, &mut decoder, accepted, found.payload) else {
            return Err(ToolFault::OutOfMemory);
        };
        count += 1;
        if lines.len() >= FULL {
            write_lines(out, &mut lines)?;
        }
    }
    write_lines(out, &mut lines)?;
    Ok(count)
}

/// Reads an input whole, as bytes or as hex text, and writes a line for each frame of the capture
/// that it is. Only the messages of this set are read. Answers how many lines.
///
/// The faults are looked for in the order of `ToolFault`, but refused memory and a failed write are
/// faults when they are met.
pub fn show_accepted<R: Source, W: Sink>(
    alloc: Global,
    reader: &mut R,
    out: &mut W,
    hex: bool,
    accepted: Accepted,
) -> Result<u64, ToolFault>
    ensures shown { IfOk result (λ count. GivesText (R.given reader.old) (R.given reader.new) (λ text.
        ShowsTextBy (IsLineBy accepted) hex count text (W.taken out.old) (W.taken out.new))) }

    // `OutOfMemory` comes only if memory is refused: tests/system/calls, rows `show ..`.
    ensures whole { ReadsWhole R.given R.failures R.is_at_end SHOW_LIMIT (λ text. IsNone (capture_of hex text))
        reader.old reader.new result }
    ensures output { IsErrOf result Output → CountRises (W.failures out.old) (W.failures out.new) }
    ensures no_failed_write { result ≢ Err Output → W.failures out.new ≡ W.failures out.old }
    ensures output_of_capture { IsErrOf result Output
        → GivesText (R.given reader.old) (R.given reader.new) (λ text.
        (length text ≤ SHOW_LIMIT) × IsSome (capture_of hex text)) }

    // Whatever the answer: this much is out.
    ensures part { GivesText (R.given reader.old) (R.given reader.new) (λ text.
        ShowsPartOfBy (IsLineBy accepted) (capture_of hex text) (W.taken out.old) (W.taken out.new)) }
    ensures nothing { IfErr result (λ fault.
        IsBeforeOutput fault → W.taken out.new ≡ W.taken out.old) }
    ensures memory { IsErrOf result OutOfMemory → (W.taken out.new ≡ W.taken out.old) ⊎ R.is_at_end reader.new }
{
    let text = read_whole(alloc, reader, SHOW_LIMIT)?;
    let capture = capture_from(alloc, text, hex)?;
    show_frames(alloc, capture.as_slice(), out, accepted)
}

/// Does as `show_accepted` with the set of 1004, 1005, 1006 and 1074.
pub fn show<R: Source, W: Sink>(
    alloc: Global,
    reader: &mut R,
    out: &mut W,
    hex: bool,
) -> Result<u64, ToolFault>
    ensures shown { IfOk result (λ count. GivesText (R.given reader.old) (R.given reader.new) (λ text.
        ShowsText hex count text (W.taken out.old) (W.taken out.new))) }

    // `OutOfMemory` comes only if memory is refused: tests/system/calls, rows `show ..`.
    ensures whole { ReadsWhole R.given R.failures R.is_at_end SHOW_LIMIT (λ text. IsNone (capture_of hex text))
        reader.old reader.new result }
    ensures output { IsErrOf result Output → CountRises (W.failures out.old) (W.failures out.new) }
    ensures no_failed_write { result ≢ Err Output → W.failures out.new ≡ W.failures out.old }
    ensures output_of_capture { IsErrOf result Output
        → GivesText (R.given reader.old) (R.given reader.new) (λ text.
        (length text ≤ SHOW_LIMIT) × IsSome (capture_of hex text)) }

    // Whatever the answer: this much is out.
    ensures part { GivesText (R.given reader.old) (R.given reader.new) (λ text.
        ShowsPartOf (capture_of hex text) (W.taken out.old) (W.taken out.new)) }
    ensures nothing { IfErr result (λ fault.
        IsBeforeOutput fault → W.taken out.new ≡ W.taken out.old) }
    ensures memory { IsErrOf result OutOfMemory → (W.taken out.new ≡ W.taken out.old) ⊎ R.is_at_end reader.new }
{
    show_accepted(alloc, reader, out, hex, Accepted::only(MsmKind::Msm4))
}

// `show_accepted` over the reader and the writer of number 0, by what `K` knows of them.
fn show_by<R: Read + Drop, W: Write + Drop, K: Before>(
    alloc: Global,
    reader: R,
    out: W,
    hex: bool,
    accepted: Accepted,
) -> (W, Result<u64, ToolFault>)
    requires had { Keeps (K.had 0) (R.remaining reader) }
    requires held { Keeps (K.held 0) (W.contents out) }
    requires one { (n : ℕ) → K.held n ≡ K.held 0 }
    ensures { IsOutcome SHOW_LIMIT (K.had 0) (K.held 0) (ShowsTextBy (IsLineBy accepted) hex)
        (λ text. ShowsPartOfBy (IsLineBy accepted) (capture_of hex text)) IsBeforeOutput result.1 (W.contents result.0) }
{
    let mut source: Reads<R, K> = Reads::over(reader, 0);
    let mut target: Writes<W, K> = Writes::over(out, 0);
    let shown = show_accepted(alloc, &mut source, &mut target, hex, accepted);
    let writer = target.into_inner();
    (writer, shown)
}

/// Shows what a reader has, by a set of messages, to a writer that is handed back. What is said holds if the
/// bytes of the reader and of the writer are known; the program shows files by the same call.
pub fn show_through<R: Read + Drop, W: Write + Drop>(
    alloc: Global,
    reader: R,
    out: W,
    hex: bool,
    accepted: Accepted,
) -> (W, Result<u64, ToolFault>)
    // Done: the lines of all that the reader had stand after what the writer held. Not done: a first
    // part of them, perhaps none, after a failed write or refused memory, and else nothing.
    ensures { IsOutcome SHOW_LIMIT (R.remaining reader) (W.contents out) (ShowsTextBy (IsLineBy accepted) hex)
        (λ text. ShowsPartOfBy (IsLineBy accepted) (capture_of hex text)) IsBeforeOutput result.1 (W.contents result.0) }
{
    show_by::<R, W, Brand>(alloc, reader, out, hex, accepted)
}

/// Writes the lines of the capture of this name, by a set of messages, to standard output.
#[inline(never)]
pub fn show_named<R: Files + Input + Print + Eprint + AllocGlobal>(
    rt: &R,
    hex: bool,
    accepted: Accepted,
    name: &str,
) -> u8
    ensures { result ≤ FAILED }
{
    let Some(reader) = open_input(rt, name) else {
        return fail_to_open(rt, name);
    };
    let (_out, shown) = show_through(rt.alloc(), reader, standard_output(rt), hex, accepted);
    match shown {
        Ok(_) => DONE,
        Err(fault) => fail(rt, fault),
    }
}

/// The lines of a capture in memory. No command calls this: it shows that the clauses of `show_through`
/// give a caller who knows the bytes the lines themselves, and that with 1074 as the only MSM they are those of
/// `show`.
pub fn show_bytes(alloc: Global, capture: &[u8]) -> Result<Vec<u8>, ToolFault>
    ensures { IfOk result (λ lines. AreLinesOf (frames capture.now) lines.items) }
{
    let accepted = Accepted::only(MsmKind::Msm4);
    let (lines, shown) = show_through(alloc, capture, Vec::new(alloc), false, accepted);
    match shown {
        Ok(_) => Ok(lines),
        Err(fault) => Err(fault),
    }
}
