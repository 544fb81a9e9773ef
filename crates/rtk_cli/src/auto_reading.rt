//! The first pass of `auto`: it reads each capture to its end.

ghost use Rattle.std.specs.Prelude.{◌≡◌, ◌≤◌, ℕ, List, Some, length, IfOk, IfErr, IfSome};
ghost use Rattle.std.specs.Io.KnownBytes.{Keeps};
ghost use Rattle.rtk_cli.specs.SurveysText.{SurveysText, IsSurvey, AreSurveys};
ghost use Rattle.rtk_commands.specs.declared.exit_status.TheConstants.{NOT_VALID};

use rtk_commands::{
    Before, Digest, Digested, MOST_READS, Reads, ToolFault, fail, fail_to_open, open_input,
    summary_status,
};
use rtk_survey::{CaptureSurvey, SurveyFault, Target, survey_capture};
use std::alloc::Global;
use std::cell::Cell;
use std::fs::Files;
use std::io::Read;
use std::marker::Brand;

// Surveys what the reader of number 0 has, by what `K` knows of it.
fn survey_by<R: Read + Drop, K: Before>(
    alloc: Global,
    reader: R,
    target: Target,
) -> Result<CaptureSurvey, SurveyFault>
    requires { Keeps (K.had 0) (R.remaining reader) }
    ensures had { IfOk result (λ survey. IfSome (K.had 0) (λ bytes. SurveysText (Some target) bytes survey)) }
    ensures some { IfOk result (IsSurvey (Some target)) }
{
    let mut source: Reads<R, K> = Reads::over(reader, 0);
    let survey = survey_capture(alloc, &mut source, Some(target), MOST_READS)?;
    Ok(survey)
}

/// Surveys what a reader has, to its end. What is said holds if the bytes of the reader are known; the
/// program surveys files by the same call.
pub fn survey_through<R: Read + Drop>(
    alloc: Global,
    reader: R,
    target: Target,
) -> Result<CaptureSurvey, SurveyFault>
    ensures remaining { IfOk result (λ survey. IfSome (R.remaining reader) (λ bytes. SurveysText (Some target) bytes survey)) }
    ensures some { IfOk result (IsSurvey (Some target)) }
{
    survey_by::<R, Brand>(alloc, reader, target)
}

/// The captures that were read.
#[derive(Drop)]
pub(crate) struct Surveyed {
    pub(crate) surveys: Vec<CaptureSurvey>,
    /// A digest of the bytes of each.
    pub(crate) digests: Vec<Digest>,
}

// Surveys the capture of this name, and adds its digest to the others.
fn survey_named<R: Files + Input + Eprint + AllocGlobal>(
    rt: &R,
    target: &Target,
    name: &str,
    digests: &mut Vec<Digest>,
) -> Result<CaptureSurvey, u8>
    ensures survey { IfOk result (IsSurvey (Some target.now)) }
    ensures status { IfErr result (λ status. status ≤ NOT_VALID) }
{
    let Some(capture) = open_input(rt, name) else {
        return Err(fail_to_open(rt, name));
    };
    let digest = Cell::new(Digest::new());
    let survey = match survey_through(rt.alloc(), Digested::new(capture, &digest), *target) {
        Ok(survey) => survey,
        Err(fault) => return Err(summary_status(rt, Err(fault))),
    };
    if digests.push(digest.get()).is_err() {
        return Err(fail(rt, ToolFault::OutOfMemory));
    }
    Ok(survey)
}

/// Surveys the captures of these names for the station that is named, or else for the first one that has
/// an observation in each.
#[inline(never)]
pub(crate) fn survey_captures<R: Files + Input + Eprint + AllocGlobal>(
    rt: &R,
    target: &Target,
    names: &[&str],
) -> Result<Surveyed, u8>
    ensures surveys { IfOk result (λ read. AreSurveys (Some target.now) read.surveys.items) }
    ensures count { IfOk result (λ read. length read.surveys.items ≡ length names.now) }
    ensures status { IfErr result (λ status. status ≤ NOT_VALID) }
{
    let mut surveys = Vec::new(rt.alloc());
    let mut digests = Vec::new(rt.alloc());
    for name in names {
        let survey = survey_named(rt, target, *name, &mut digests)?;
        let Ok(()) = surveys.push(survey) else {
            return Err(fail(rt, ToolFault::OutOfMemory));
        };
    }
    Ok(Surveyed { surveys, digests })
}
