//! The commands of a file, `check`, `chart`, `quality`, `cut` and `label`: each makes bytes of a text, and one
//! driver reads the text, has the command write, and says how it went.

ghost use Rattle.std.specs.Prelude.{◌≡◌, ◌≢◌, ◌⊎◌, ◌≤◌, ◌<◌, ℕ, List, Bool, Ok, Err, length, IsTrue, IfOk, IfErr, IfSome, IsOk, IsErrOf};
ghost use Rattle.std.specs.Io.KnownBytes.{Keeps, append_known};
ghost use Rattle.rtk_frame.specs.Stream.{CountRises};
ghost use Rattle.rtk_commands.specs.Input.{GivesText, ReadsWhole};
ghost use Rattle.rtk_commands.specs.Passed.{taken_of};
ghost use Rattle.rtk_commands.specs.declared.exit_status.TheConstants.{NOT_VALID};
ghost use Rattle.rtk_commands.specs.declared.fault.ToolFault.TheVariants.{TooLong, OutOfMemory, Output};
ghost use Rattle.rtk_commands.specs.declared.file_answer.FileAnswer.{FileAnswer};
ghost use Rattle.rtk_commands.specs.FileText.{WritesAll, WritesFirst, AnswersText, AnswersPartOf, LeavesPartOf, IsFileOutcome};
ghost use Rattle.rtk_commands.specs.Show.{IsBeforeOutput};

use crate::before::Before;
use crate::exit_status::{fail, fail_to_open};
use crate::fault::ToolFault;
use crate::file_answer::FileAnswer;
use crate::files::{GATHERED, Reads, Writes, open_input, sink, standard_output};
use crate::input::read_whole;
use crate::resuming::Resumed;
use rtk_frame::{Sink, Source, StreamFault};
use std::alloc::Global;
use std::fs::Files;
use std::io;
use std::io::{BufWriter, Read, Write};
use std::marker::Brand;

// constant
/// The most bytes of an input of the commands of a file, which hold it whole.
pub const CHECK_LIMIT: usize = 1_073_741_824;

/// A command of a file, by its options: a text, or the table whose text it is, to bytes.
pub trait FileCommand {
    ghost IN_PIECES: { Bool };
    /// The bytes are written in pieces, which are gathered before they are handed on. Only then memory
    /// may be refused after a first part of them is out.
    const IN_PIECES: bool;

    /// Which options there are.
    ghost IsAllowed: { Self → Type 0 };

    /// Of a text, what is answered, and the bytes that are written with it.
    ghost writes: { Self → List ℕ → FileAnswer → List ℕ → Type 0 };

    /// Writes what it makes of a text, which it may change. Hands the sink back.
    fn write<W: Sink + Drop>(
        &self,
        alloc: Global,
        text: &mut [u8],
        out: W,
    ) -> (W, Result<FileAnswer, ToolFault>)
        requires { IsAllowed self.now }
        ensures all { IfOk result.1 (λ answer. WritesAll (writes self.now text.old answer) (W.taken out) (W.taken result.0)) }

        // Not done: a first part is out after a failed write. After a refusal of memory it is nothing, or, in
        // pieces, a first part.
        ensures part { IsErrOf result.1 Output → WritesFirst (writes self.now text.old) (W.taken out) (W.taken result.0) }
        ensures memory { IsErrOf result.1 OutOfMemory → (W.taken result.0 ≡ W.taken out)
            ⊎ (IsTrue IN_PIECES × WritesFirst (writes self.now text.old) (W.taken out) (W.taken result.0)) }
        ensures output { IsErrOf result.1 Output → CountRises (W.failures out) (W.failures result.0) }
        ensures no_failed_write { result.1 ≢ Err Output → W.failures result.0 ≡ W.failures out }
        ensures faults { IfErr result.1 (λ fault. (fault ≡ OutOfMemory) ⊎ (fault ≡ Output)) };
}

// Reads an input whole, and writes what a command makes of it.
fn answer_input<C: FileCommand, R: Source, W: Sink + Drop>(
    alloc: Global,
    command: &C,
    reader: &mut R,
    out: W,
) -> (W, Result<FileAnswer, ToolFault>)
    requires { C.IsAllowed command.now }
    ensures told { IfOk result.1 (λ answer. GivesText (R.given reader.old) (R.given reader.new) (λ text.
        AnswersText (C.writes command.now) answer text (W.taken out) (W.taken result.0))) }
    ensures whole { ReadsWhole R.given R.failures R.is_at_end CHECK_LIMIT (λ _. ⊥) reader.old reader.new result.1 }
    ensures output { IsErrOf result.1 Output → CountRises (W.failures out) (W.failures result.0) }
    ensures no_failed_write { result.1 ≢ Err Output → W.failures result.0 ≡ W.failures out }
    ensures part { IsErrOf result.1 Output → GivesText (R.given reader.old) (R.given reader.new) (λ text.
        AnswersPartOf (C.writes command.now) text (W.taken out) (W.taken result.0)) }
    ensures memory { IsErrOf result.1 OutOfMemory → (W.taken result.0 ≡ W.taken out)
        ⊎ (IsTrue C.IN_PIECES × R.is_at_end reader.new × GivesText (R.given reader.old) (R.given reader.new) (λ text.
        AnswersPartOf (C.writes command.now) text (W.taken out) (W.taken result.0))) }
    ensures nothing { IfErr result.1 (λ fault. IsBeforeOutput fault → W.taken result.0 ≡ W.taken out) }
{
    match read_whole(alloc, reader, CHECK_LIMIT) {
        Ok(mut text) => command.write(alloc, text.as_mut_slice(), out),
        Err(fault) => (out, Err(fault)),
    }
}

// `answer_input` over the reader and the writer of number 0, by what `K` knows of them.
fn file_by<C: FileCommand, R: Read + Drop, W: Write + Drop, K: Before>(
    alloc: Global,
    command: &C,
    reader: R,
    out: W,
) -> (W, Result<FileAnswer, ToolFault>)
    requires allowed { C.IsAllowed command.now }
    requires had { Keeps (K.had 0) (R.remaining reader) }
    requires held { Keeps (K.held 0) (W.contents out) }
    requires one { (n : ℕ) → K.held n ≡ K.held 0 }
    ensures { IsFileOutcome C.IN_PIECES (C.writes command.now) (K.had 0) (K.held 0) result.1 (W.contents result.0) }
{
    let mut source: Reads<R, K> = Reads::over(reader, 0);
    let target: Writes<W, K> = Writes::over(out, 0);
    let (target, done) = answer_input(alloc, command, &mut source, target);
    (target.into_inner(), done)
}

/// Writes what a command makes of what a reader has, to a writer that is handed back. What is said holds if
/// the bytes of the reader and of the writer are known; the program reads files by the same call.
pub fn file_through<C: FileCommand, R: Read + Drop, W: Write + Drop>(
    alloc: Global,
    command: &C,
    reader: R,
    out: W,
) -> (W, Result<FileAnswer, ToolFault>)
    requires { C.IsAllowed command.now }
    // Done: what the command makes of all that the reader had stands after what the writer held. Not done:
    // a first part of it after a failed write, and else nothing, or, in pieces, a first part.
    ensures { IsFileOutcome C.IN_PIECES (C.writes command.now) (R.remaining reader) (W.contents out) result.1 (W.contents result.0) }
{
    file_by::<C, R, W, Brand>(alloc, command, reader, out)
}

// What was answered holds only if all that was written is out.
fn if_out(
    done: Result<FileAnswer, ToolFault>,
    written: Result<(), StreamFault>,
) -> Result<FileAnswer, ToolFault>
    ensures done { IfOk result (λ answer. (done ≡ Ok answer) × IsOk written) }
    ensures fault { IfErr result (λ fault. (done ≡ Err fault) ⊎ (fault ≡ Output)) }
{
    let answer = done?;
    match written {
        Ok(()) => Ok(answer),
        Err(_) => Err(ToolFault::Output),
    }
}

// The same through a writer that gathers.
fn gathered_by<C: FileCommand, R: Read + Drop, W: Write + Drop, K: Before>(
    alloc: Global,
    command: &C,
    reader: R,
    room: usize,
    out: W,
) -> Result<(W, Result<FileAnswer, ToolFault>), ToolFault>
    requires allowed { C.IsAllowed command.now }
    requires had { Keeps (K.had 0) (R.remaining reader) }
    requires held { Keeps (K.held 0) (W.contents out) }
    requires one { (n : ℕ) → K.held n ≡ K.held 0 }
    ensures told { IfOk result (λ end. IfOk end.1 (λ answer. IfSome (K.had 0) (λ text.
        AnswersText (C.writes command.now) answer text (K.held 0) (taken_of (K.held 0) (W.contents end.0))))) }
    ensures part { IfOk result (λ end. (unwritten : List ℕ) × IfSome (K.had 0) (λ text.
        LeavesPartOf (C.writes command.now) text (K.held 0) (taken_of (K.held 0) (append_known (W.contents end.0) unwritten)))) }
    ensures too_long { IfOk result (λ end. IsErrOf end.1 TooLong → IfSome (K.had 0) (λ text. CHECK_LIMIT < length text)) }
    ensures fault { IfErr result (λ fault. fault ≡ OutOfMemory) }
{
    let mut source: Reads<R, K> = Reads::over(reader, 0);
    let target = sink::<W, K>(alloc, room, out, 0)?;
    let (target, done) = answer_input(alloc, command, &mut source, target);
    // The first call flushes what was gathered. The second one has nothing to flush.
    let (resumed, written) = target.into_writer();
    let out = resumed.into_inner();
    Ok((out, if_out(done, written)))
}

/// The same through a writer that gathers so much before each write. If there is no memory to gather in,
/// nothing is read, and the writer is let go.
pub fn gathered_through<C: FileCommand, R: Read + Drop, W: Write + Drop>(
    alloc: Global,
    command: &C,
    reader: R,
    room: usize,
    out: W,
) -> Result<(W, Result<FileAnswer, ToolFault>), ToolFault>
    requires { C.IsAllowed command.now }
    // Done: what the command makes of all that the reader had stands after what the writer held.
    ensures told { IfOk result (λ end. IfOk end.1 (λ answer. IfSome (R.remaining reader) (λ text.
        AnswersText (C.writes command.now) answer text (W.contents out) (taken_of (W.contents out) (W.contents end.0))))) }

    // Whatever the answer: what is out, with what is let go after it, is nothing or a first part of what the
    // command makes, perhaps all of it.
    ensures part { IfOk result (λ end. (unwritten : List ℕ) × IfSome (R.remaining reader) (λ text.
        LeavesPartOf (C.writes command.now) text (W.contents out) (taken_of (W.contents out) (append_known (W.contents end.0) unwritten)))) }
    ensures too_long { IfOk result (λ end. IsErrOf end.1 TooLong → IfSome (R.remaining reader) (λ text. CHECK_LIMIT < length text)) }
    ensures fault { IfErr result (λ fault. fault ≡ OutOfMemory) }
{
    gathered_by::<C, R, W, Brand>(alloc, command, reader, room, out)
}

// Answers an open file on standard output.
fn answer_file<C: FileCommand, R: Print + AllocGlobal, F: Read + Drop>(
    rt: &R,
    command: &C,
    file: F,
) -> Result<FileAnswer, ToolFault>
    requires { C.IsAllowed command.now }
{
    if C::IN_PIECES {
        let (_out, done) = gathered_through(rt.alloc(), command, file, GATHERED, io::writer(rt))?;
        return done;
    }
    let (_out, done) = file_through(rt.alloc(), command, file, standard_output(rt));
    done
}

/// Writes what a command makes of the file of this name to standard output, and answers the exit status. What
/// `check` says of a file that another command refuses goes to standard error.
#[inline(never)]
pub fn run_file<C: FileCommand, R: Files + Input + Print + Eprint + AllocGlobal>(
    rt: &R,
    command: &C,
    name: &str,
) -> u8
    requires { C.IsAllowed command.now }
    ensures { result ≤ NOT_VALID }
{
    let Some(file) = open_input(rt, name) else {
        return fail_to_open(rt, name);
    };
    match answer_file(rt, command, file) {
        Ok(answer) => answer.tell(rt),
        Err(fault) => fail(rt, fault),
    }
}
