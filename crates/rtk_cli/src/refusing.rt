//! What the program says if words give no job, and the exit status then.

ghost use Rattle.std.specs.Prelude.{◌≡◌, ◌≤◌};
ghost use Rattle.rtk_commands.specs.declared.exit_status.TheConstants.{REFUSED};

use crate::words::WordsFault;
use rtk_commands::{DONE, REFUSED, Resumed, ToolFault, Writes, fail, standard_output};
use rtk_frame::write_all;
use std::io::Printer;

/// Says why words that clap takes are refused.
pub(crate) fn refuse<R: Eprint>(rt: &R, line: &str) -> u8
    ensures { result ≡ REFUSED }
{
    let _printed = eprintln!(rt; "rtcm2rinex: {line}");
    REFUSED
}

// Shows clap's text: what was asked for on standard output, a refusal on standard error.
fn print_clap_text<R: Print + Eprint>(rt: &R, text: &str, status: u8) -> u8
    ensures { result ≤ REFUSED }
{
    if status != DONE {
        let _printed = eprint!(rt; "{text}");
        return REFUSED;
    }
    let mut out: Writes<Resumed<Printer<'_, R>>> = Writes::over(standard_output(rt), 0);
    match write_all(&mut out, text.as_bytes()) {
        Ok(()) => DONE,
        Err(_) => fail(rt, ToolFault::Output),
    }
}

// Prints the line that follows a fault line, if one does.
fn print_more<R: Eprint>(rt: &R, more: Option<&str>) {
    if let Some(more) = more {
        let _printed = eprintln!(rt; "{more}");
    }
}

/// Says why words give no job.
pub(crate) fn refuse_words<R: Print + Eprint>(rt: &R, fault: WordsFault) -> u8
    ensures { result ≤ REFUSED }
{
    match fault {
        WordsFault::Clap { text, status } => print_clap_text(rt, text.as_str(), status),
        WordsFault::Bad { line, more } => {
            let status = refuse(rt, line);
            print_more(rt, more);
            status
        }
        WordsFault::OutOfMemory => fail(rt, ToolFault::OutOfMemory),
    }
}
