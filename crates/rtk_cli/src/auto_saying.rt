//! What `auto` says: before it converts the command that has the setup and the captures of the conversion, and
//! afterwards how that went.
//!
//! If memory is refused, a first part of what is put may stand there.

ghost use Rattle.std.specs.Prelude.{◌≡◌, ◌≤◌, ◌++◌, true, false, IfOk, OnOk};
ghost use Rattle.rtk_commands.specs.declared.exit_status.TheConstants.{FAILED, NOT_VALID};
ghost use Rattle.rtk_cli.specs.Said.{names_of, names_of_links, names_in, same_by_hand};

use crate::auto_refusing::say_written;
use crate::auto_rereading::{CaptureRead, put_grown};
use rtk_commands::{DONE, FAILED, NOT_VALID, Unbroken};
use rtk_convert::{Counts, Setup};
use rtk_plan::{Known, Reported, WrittenFile, put_command, put_counts, put_file, put_known};
use std::alloc::{AllocError, Global};
use std::fs::Files;
use std::io::Write;

/// Writes lines to standard error. If nobody reads it the work goes on: its status tells it.
pub(crate) fn tell<W: Write>(report: &mut Unbroken<W>, lines: &[u8]) {
    let _told = report.write_all(lines);
}

// The names of captures.
fn names_of<'a>(alloc: Global, captures: &[CaptureRead<'a>]) -> Result<Vec<&'a str>, AllocError>
    ensures { IfOk result (λ names. names.items ≡ names_of captures.now) }
{
    let mut names = Vec::new(alloc);
    for capture in captures {
        names.push(capture.name)?;
    }
    Ok(names)
}

/// The names of the captures of each link.
pub(crate) fn names_of_links<'a>(
    alloc: Global,
    links: &[Vec<CaptureRead<'a>>],
) -> Result<Vec<Vec<&'a str>>, AllocError>
    ensures { IfOk result (λ named. names_in named.items ≡ names_of_links links.now) }
{
    let mut named = Vec::new(alloc);
    for link in links {
        named.push(names_of(alloc, link.as_slice())?)?;
    }
    Ok(named)
}

/// Appends the command of this setup, and of links with these names.
pub(crate) fn put_same_by_hand(
    lines: &mut Vec<u8>,
    setup: &Setup,
    named: &[Vec<&str>],
) -> Result<(), AllocError>
    ensures { OnOk result (lines.new.items ≡ lines.old.items ++ same_by_hand setup.now named.now) }
{
    lines.extend_from_slice(b" the same by hand:\n")?;
    put_command(lines, setup, named)?;
    Ok(())
}

/// How a conversion went that is done.
#[derive(Drop)]
pub(crate) struct Outcome {
    pub(crate) counts: Counts,
    /// What the file has.
    pub(crate) file: WrittenFile,
    /// What the report lists.
    pub(crate) reported: Reported,
    /// Standard error took all that was said.
    pub(crate) is_heard: bool,
}

/// What is said after the conversion: the counts, unless the report has them, what the file has, and what a
/// person should know.
pub(crate) fn said_after<R: Files + AllocGlobal>(
    rt: &R,
    outcome: &Outcome,
    known: &Known,
    links: &[Vec<CaptureRead<'_>>],
    is_reported: bool,
) -> Result<Vec<u8>, AllocError> {
    let mut lines = Vec::new(rt.alloc());
    if !is_reported {
        put_counts(&mut lines, &outcome.counts)?;
    }
    put_file(&mut lines, known, &outcome.file, &outcome.reported)?;
    put_known(&mut lines, known, &outcome.counts, &outcome.reported)?;
    put_grown(rt, &mut lines, links)?;
    Ok(lines)
}

/// The exit status of a conversion that is done.
pub(crate) fn done_status<R: Eprint>(rt: &R, outcome: &Outcome) -> u8
    ensures unheard { outcome.now.is_heard ≡ false → result ≡ FAILED }
    ensures no_epoch { outcome.now.is_heard ≡ true → outcome.now.counts.epochs ≡ 0 → result ≡ NOT_VALID }
    ensures bound { result ≤ NOT_VALID }
{
    if !outcome.is_heard {
        return FAILED;
    }
    if outcome.counts.epochs == 0 {
        let _told = eprintln!(rt; "rtcm2rinex: no record came; the file is a header alone");
        return NOT_VALID;
    }
    DONE
}

/// The exit status once a file has its name, which is said last. The name is as sh takes it.
pub(crate) fn named_status<R: Eprint>(rt: &R, outcome: &Outcome, name: &str) -> u8
    ensures { result ≤ NOT_VALID }
{
    let status = done_status(rt, outcome);
    if outcome.is_heard {
        say_written(rt, name, outcome.counts.epochs, &outcome.file);
    }
    status
}
