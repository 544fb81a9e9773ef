//! Where `auto` says that a capture is to be parted: the capture is read again, to find the byte.

ghost use Rattle.std.specs.Prelude.{◌≤◌, IfErr};
ghost use Rattle.rtk_commands.specs.declared.exit_status.TheConstants.{NOT_VALID};

use crate::auto_refusing::fail_differing;
use rtk_captures::put_parting;
use rtk_commands::{MOST_READS, Reads, ToolFault, fail, fail_to_open, open_input, summary_status};
use rtk_survey::{SurveyFault, place_of_frame};
use std::alloc::Global;
use std::fs::Files;
use std::io::Read;

// The byte at which the frame begins that comes after so many others, of what a reader has.
fn place_in<R: Read + Drop>(
    alloc: Global,
    reader: R,
    before: u64,
) -> Result<Option<u64>, SurveyFault> {
    let mut source: Reads<R> = Reads::over(reader, 0);
    place_of_frame(alloc, &mut source, before, MOST_READS)
}

// The byte at which the frame of a capture begins that comes after so many others.
fn byte_of_frame<R: Files + Input + Eprint + AllocGlobal>(
    rt: &R,
    name: &str,
    before: u64,
) -> Result<u64, u8>
    ensures { IfErr result (λ status. status ≤ NOT_VALID) }
{
    let Some(capture) = open_input(rt, name) else {
        return Err(fail_to_open(rt, name));
    };
    match place_in(rt.alloc(), capture, before) {
        Ok(Some(byte)) => Ok(byte),
        Ok(None) => Err(fail_differing(rt, name)),
        Err(fault) => Err(summary_status(rt, Err(fault))),
    }
}

/// Appends where the capture of this name is to be parted: before the frame that comes after so many others.
pub(crate) fn put_parting_of<R: Files + Input + Eprint + AllocGlobal>(
    rt: &R,
    lines: &mut Vec<u8>,
    name: &str,
    frame: u64,
) -> Result<(), u8>
    ensures { IfErr result (λ status. status ≤ NOT_VALID) }
{
    let byte = byte_of_frame(rt, name, frame)?;
    match put_parting(lines, name, byte) {
        Ok(()) => Ok(()),
        Err(_) => Err(fail(rt, ToolFault::OutOfMemory)),
    }
}
