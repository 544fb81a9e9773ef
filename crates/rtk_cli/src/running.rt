//! The program: it reads its words, opens what they name, does the work, or says why it is not
//! done.

ghost use Rattle.std.specs.Prelude.{◌≤◌};
ghost use Rattle.rtk_commands.specs.declared.exit_status.TheConstants.{NOT_VALID};
ghost use Rattle.rtk_cli.specs.Words.{IsWithinLimits};

use crate::auto_running::auto_captures;
use crate::converting::convert_links;
use crate::jobs::job;
use crate::refusing::refuse_words;
use crate::show_words::messages_of;
use crate::words::Job;
use rtk_commands::{Check, ToolFault, compare_named, fail, run_file, show_named, summarize_named};
use rtk_message::Accepted;
use std::env::Env;
use std::fs::Files;
use std::io::{ErrorKind, Write};
use std::time::Clock;

// The words after the name of the program. A word that is no text (UTF-8) can't be read.
fn words_of<R: Env + AllocGlobal>(rt: &R) -> Result<Vec<String>, ToolFault> {
    let mut args = match std::env::args(rt) {
        Ok(args) => args,
        Err(error) if error.kind() == ErrorKind::OutOfMemory => return Err(ToolFault::OutOfMemory),
        Err(_) => return Err(ToolFault::Input),
    };
    let _name = args.next();
    let mut words = Vec::new(rt.alloc());
    for word in args {
        words.push(word).map_err(|_| ToolFault::OutOfMemory)?;
    }
    Ok(words)
}

// Each command by a call of its own: the check of a function that also reads the words takes minutes.
// No command is inlined: the stack has the values of one command alone.
fn run_job<R: Env + Clock + Files + Input + Print + Eprint + AllocGlobal, W: Write + Drop>(
    rt: &R,
    report: W,
    job: Job<'_>,
) -> u8
    requires { IsWithinLimits job }
    ensures { result ≤ NOT_VALID }
{
    match job {
        Job::Auto { options, captures } => {
            auto_captures(rt, report, &options, captures.as_slice())
        }
        Job::Convert { setup, links } => convert_links(rt, report, setup, links.as_slice()),
        Job::Show { hex, file } => show_named(rt, hex, Accepted::FOUR, file),
        Job::ShowMsm { hex, kinds, file } => show_named(rt, hex, messages_of(kinds), file),
        Job::Check { file } => run_file(rt, &Check, file),
        Job::Summary { file } => summarize_named(rt, file),
        Job::Chart { chart, file } => run_file(rt, &chart, file),
        Job::Quality { form, file } => run_file(rt, &form, file),
        Job::Cut { part, file } => run_file(rt, &part, file),
        Job::CutSystems { command, file } => run_file(rt, &command, file),
        Job::Label { labelling, file } => run_file(rt, &labelling, file),
        Job::Compare { command, old, new } => compare_named(rt, command, old, new),
    }
}

fn run_words<R: Env + Clock + Files + Input + Print + Eprint + AllocGlobal, W: Write + Drop>(
    rt: &R,
    report: W,
    words: &[&str],
) -> u8
    ensures { result ≤ NOT_VALID }
{
    match job(rt.alloc(), words) {
        Ok(job) => run_job(rt, report, job),
        Err(fault) => refuse_words(rt, fault),
    }
}

/// Runs the program, and answers its exit status: 0 if the work is done, 1 if an input or an output
/// failed or memory was refused, 2 if the words are refused, and 3 if `check` says no, also of a file
/// that is to be drawn, cut, labelled or compared, if a new file lacks something of the old one or has it
/// otherwise, or if captures don't tell enough for `auto`. The report of a conversion goes to `report`,
/// which is standard error.
pub fn run_program<R: Env + Clock + Files + Input + Print + Eprint + AllocGlobal, W: Write + Drop>(
    rt: &R,
    report: W,
) -> u8
    ensures { result ≤ NOT_VALID }
{
    let owned = match words_of(rt) {
        Ok(owned) => owned,
        Err(fault) => return fail(rt, fault),
    };
    let mut words = Vec::new(rt.alloc());
    for word in &owned {
        if words.push(word.as_str()).is_err() {
            return fail(rt, ToolFault::OutOfMemory);
        }
    }
    run_words(rt, report, words.as_slice())
}
