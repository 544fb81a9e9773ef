//! The command `summary`: what a capture holds.

ghost use Rattle.std.specs.Prelude.{◌≡◌, ◌≢◌, ℕ, ◌≤◌, ◌+◌, OnOk, OnErr, IfErr, IfSome, IsErrOf};
ghost use Rattle.std.specs.Io.KnownBytes.{Keeps};
ghost use Rattle.rtk_survey.specs.Summary.{Summarizes, SummarizesInPart, HasRisenBy};
ghost use Rattle.rtk_commands.specs.Passed.{taken_of};
ghost use Rattle.rtk_commands.specs.Summarized.{SummarizesText, SummarizesPartOf};
ghost use Rattle.rtk_commands.specs.Steps.ReadLimits.{most_reads};

use crate::before::Before;
use crate::exit_status::{DONE, FAILED, fail, fail_to_end, fail_to_open};
use crate::fault::ToolFault;
use crate::files::{MOST_READS, Reads, Writes, open_input, standard_output};
use rtk_frame::{Sink, Source};
use rtk_survey::SurveyFault;
use std::alloc::Global;
use std::fs::Files;
use std::io::{Read, Write};
use std::marker::Brand;

// Summarizes what the capture of this name gives, by a billion reads at most.
fn summarize<R: Source, W: Sink>(
    alloc: Global,
    name: &[u8],
    capture: &mut R,
    out: &mut W,
) -> Result<(), SurveyFault>
    ensures summary { OnOk result (Summarizes name.now (R.given capture.old) (R.given capture.new) (W.taken out.old) (W.taken out.new)) }
    ensures to_the_end { OnOk result (R.is_at_end capture.new) }
    ensures nothing { IfErr result (λ fault.
        fault ≢ SurveyFault.Write → W.taken out.new ≡ W.taken out.old) }
    ensures part { IsErrOf result SurveyFault.Write
        → SummarizesInPart name.now (R.given capture.old) (R.given capture.new) (W.taken out.old) (W.taken out.new) }
    ensures reads { R.calls capture.new ≤ R.calls capture.old + most_reads }
    ensures endless { IsErrOf result SurveyFault.Endless
        → HasRisenBy (R.calls capture.old) (R.calls capture.new) most_reads }
{
    rtk_survey::summarize(alloc, name, capture, out, MOST_READS)
}

// The same over the reader and the writer of number 0, by what `K` knows of them.
fn summarize_by<R: Read + Drop, W: Write + Drop, K: Before>(
    alloc: Global,
    name: &[u8],
    reader: R,
    out: W,
) -> (W, Result<(), SurveyFault>)
    requires had { Keeps (K.had 0) (R.remaining reader) }
    requires held { Keeps (K.held 0) (W.contents out) }
    requires one { (n : ℕ) → K.held n ≡ K.held 0 }
    ensures summary { OnOk result.1 (IfSome (K.had 0) (λ text.
        SummarizesText name.now text (K.held 0) (taken_of (K.held 0) (W.contents result.0)))) }
    ensures nothing { IfErr result.1 (λ fault.
        fault ≢ SurveyFault.Write → taken_of (K.held 0) (W.contents result.0) ≡ K.held 0) }
    ensures part { IsErrOf result.1 SurveyFault.Write → IfSome (K.had 0) (λ text.
        SummarizesPartOf name.now text (K.held 0) (taken_of (K.held 0) (W.contents result.0))) }
{
    let mut source: Reads<R, K> = Reads::over(reader, 0);
    let mut target: Writes<W, K> = Writes::over(out, 0);
    let done = summarize(alloc, name, &mut source, &mut target);
    let writer = target.into_inner();
    (writer, done)
}

/// Summarizes what a reader has, to a writer that is handed back; the lines name its file. What is said holds if the bytes of
/// the reader and of the writer are known; the program summarizes files by the same call.
pub fn summarize_through<R: Read + Drop, W: Write + Drop>(
    alloc: Global,
    name: &[u8],
    reader: R,
    out: W,
) -> (W, Result<(), SurveyFault>)
    // Done: the summary of all that the reader had stands after what the writer held.
    ensures summary { OnOk result.1 (IfSome (R.remaining reader) (λ text.
        SummarizesText name.now text (W.contents out) (taken_of (W.contents out) (W.contents result.0)))) }

    // Not done: nothing is out, but a first part after a failed write.
    ensures nothing { IfErr result.1 (λ fault.
        fault ≢ SurveyFault.Write → taken_of (W.contents out) (W.contents result.0) ≡ W.contents out) }
    ensures part { IsErrOf result.1 SurveyFault.Write → IfSome (R.remaining reader) (λ text.
        SummarizesPartOf name.now text (W.contents out) (taken_of (W.contents out) (W.contents result.0))) }
{
    summarize_by::<R, W, Brand>(alloc, name, reader, out)
}

/// The exit status of a summary, by its answer; the fault line goes to standard error.
pub fn summary_status<R: Eprint>(rt: &R, done: Result<(), SurveyFault>) -> u8
    ensures done { OnOk done (result ≡ DONE) }
    ensures failed { OnErr done (result ≡ FAILED) }
{
    match done {
        Ok(()) => DONE,
        Err(SurveyFault::OutOfMemory) => fail(rt, ToolFault::OutOfMemory),
        Err(SurveyFault::Read) => fail(rt, ToolFault::Input),
        Err(SurveyFault::Endless) => fail_to_end(rt),
        Err(SurveyFault::Write) => fail(rt, ToolFault::Output),
    }
}

/// Writes what the capture of this name holds to standard output.
#[inline(never)]
pub fn summarize_named<R: Files + Input + Print + Eprint + AllocGlobal>(rt: &R, name: &str) -> u8
    ensures { result ≤ FAILED }
{
    let Some(capture) = open_input(rt, name) else {
        return fail_to_open(rt, name);
    };
    let (_out, done) = summarize_through(rt.alloc(), name.as_bytes(), capture, standard_output(rt));
    summary_status(rt, done)
}
