//! How the program ends: its exit statuses, and what it says if the work is not done.

ghost use Rattle.std.specs.Prelude.{◌≡◌};

use crate::fault::ToolFault;

/// The work is done.
pub const DONE: u8 = 0;

/// An input or an output failed, or there was no memory.
pub const FAILED: u8 = 1;

/// The words are refused.
pub const REFUSED: u8 = 2;

/// `check` says no: the text is not one that `convert` could have written; or it would say no of a
/// text that is to be drawn or cut.
pub const NOT_VALID: u8 = 3;

/// Says why the work is not done. If standard error is closed nobody reads it.
pub fn fail<R: Eprint>(rt: &R, fault: ToolFault) -> u8
    ensures { result ≡ FAILED }
{
    let _printed = eprintln!(rt; "rtcm2rinex: {fault}");
    FAILED
}

/// Says which file can't be opened.
pub fn fail_to_open<R: Eprint>(rt: &R, name: &str) -> u8
    ensures { result ≡ FAILED }
{
    let _printed = eprintln!(rt; "rtcm2rinex: cannot open {name}");
    FAILED
}

/// Says that all reads that are made at most were made, and none of them met the end.
pub fn fail_to_end<R: Eprint>(rt: &R) -> u8
    ensures { result ≡ FAILED }
{
    let _printed = eprintln!(rt; "rtcm2rinex: input does not end");
    FAILED
}
