//! Writing the summary of a capture.
//!
//! The text is made once the capture was read to its end.

ghost use Rattle.std.specs.Prelude.{◌≡◌, ◌≢◌, ◌≤◌, ◌+◌, Err, IfErr, IfOk, IsErrOf, OnOk};
ghost use Rattle.rtk_frame.specs.Stream.{CountRises};
ghost use Rattle.rtk_survey.specs.Summary.{IsSummaryOf, Summarizes, SummarizesInPart, HasRisenBy};
ghost use Rattle.rtk_survey.specs.declared.survey_fault.SurveyFault.TheVariants.{Read, Endless, Write};

use crate::lines::summary_lines;
use crate::reading::survey_capture;
use crate::survey_fault::SurveyFault;
use rtk_frame::{Sink, Source, write_all};
use std::alloc::Global;

// The lines of the capture of this name, which is read once, to its end.
fn lines_of<R: Source>(
    alloc: Global,
    name: &[u8],
    reader: &mut R,
    max_reads: u64,
) -> Result<Vec<u8>, SurveyFault>
    ensures lines { IfOk result (λ lines. IsSummaryOf name.now (R.given reader.old) (R.given reader.new) lines.items) }
    ensures to_the_end { OnOk result (R.is_at_end reader.new) }
    ensures reads { R.calls reader.new ≤ R.calls reader.old + max_reads }
    ensures read_failed { IsErrOf result Read → CountRises (R.failures reader.old) (R.failures reader.new) }
    ensures no_failed_read { result ≢ Err Read → R.failures reader.new ≡ R.failures reader.old }
    ensures endless { IsErrOf result Endless → HasRisenBy (R.calls reader.old) (R.calls reader.new) max_reads }
    ensures no_write { IsErrOf result Write → ⊥ }
{
    let survey = survey_capture(alloc, reader, None, max_reads)?;
    Ok(summary_lines(alloc, name, &survey)?)
}

/// Reads the capture of this name once, to its end, and writes what it holds.
pub fn summarize<R: Source, W: Sink>(
    alloc: Global,
    name: &[u8],
    reader: &mut R,
    out: &mut W,
    max_reads: u64,
) -> Result<(), SurveyFault>
    // Done: what was read, and what is out.
    ensures summary { OnOk result (Summarizes name.now (R.given reader.old) (R.given reader.new) (W.taken out.old) (W.taken out.new)) }
    ensures to_the_end { OnOk result (R.is_at_end reader.new) }
    ensures reads { R.calls reader.new ≤ R.calls reader.old + max_reads }

    // Each fault comes only if its cause is there, and no call fails without its fault.
    ensures read_failed { IsErrOf result Read → CountRises (R.failures reader.old) (R.failures reader.new) }
    ensures no_failed_read { result ≢ Err Read → R.failures reader.new ≡ R.failures reader.old }
    ensures endless { IsErrOf result Endless → HasRisenBy (R.calls reader.old) (R.calls reader.new) max_reads }
    ensures write_failed { IsErrOf result Write → CountRises (W.failures out.old) (W.failures out.new) }
    ensures no_failed_write { result ≢ Err Write → W.failures out.new ≡ W.failures out.old }

    // Not done: nothing is out, but a first part after a failed write.
    ensures part { IsErrOf result Write
        → SummarizesInPart name.now (R.given reader.old) (R.given reader.new) (W.taken out.old) (W.taken out.new) }
    ensures nothing { IfErr result (λ fault. fault ≢ Write → W.taken out.new ≡ W.taken out.old) }
{
    let lines = lines_of(alloc, name, reader, max_reads)?;
    if write_all(out, lines.as_slice()).is_err() {
        return Err(SurveyFault::Write);
    }
    Ok(())
}
