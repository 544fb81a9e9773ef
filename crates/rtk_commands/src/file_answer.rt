//! What a command of a file answers, and what it says of it.

use crate::exit_status::{DONE, NOT_VALID, REFUSED};
use rtk_cut::CutCounts;
use rtk_message::System;
use rtk_obs::letter_of;
use rtk_rinex::CheckFault;

/// What came of a text that was read whole.
#[derive(Clone, Copy, Debug, PartialEq, Eq)]
pub enum FileAnswer {
    /// All is written; of `check` it is the line that says yes.
    Written,
    /// The part is written. So many records has the file, and so many its part.
    Cut(CutCounts),
    /// The line of `check` is written that says no.
    NotValid,
    /// Nothing is written: without its label and its time lines the text is no file of `check`, or these lines are
    /// not those of its records. This is its first fault, and the line is that of the text as it was read.
    Refused(CheckFault),
    /// Nothing is written: the label has an antenna height, and the stream told one.
    Height,
    /// Nothing is written: the file has no row of a satellite, or no code of a system, that is chosen.
    NoneChosen,
    /// Nothing is written: the file has no code of this system, which is to be kept.
    Absent(System),
}

impl FileAnswer {
    ghost use Rattle.std.specs.Prelude.{◌≡◌};
    ghost use Rattle.rtk_commands.specs.AnswerStatus.{answer_status};

    /// Says what stands in no output, and answers the exit status.
    pub(crate) fn tell<R: Eprint>(self, rt: &R) -> u8
        ensures { result ≡ answer_status self }
    {
        match self {
            FileAnswer::Written => DONE,
            FileAnswer::Cut(counts) => {
                let _printed = eprintln!(rt;
                    "records {} written {}",
                    counts.records, counts.written
                );
                DONE
            }
            FileAnswer::NotValid => NOT_VALID,
            FileAnswer::Refused(fault) => {
                let _printed = eprintln!(rt; "{fault}");
                NOT_VALID
            }
            FileAnswer::Height => {
                let _printed = eprintln!(rt;
                    "rtcm2rinex: bad --delta-height: the file tells a height"
                );
                REFUSED
            }
            FileAnswer::NoneChosen => {
                let _printed = eprintln!(rt;
                    "rtcm2rinex: none of the chosen satellites is in the file"
                );
                NOT_VALID
            }
            FileAnswer::Absent(system) => {
                let letter = char::from(letter_of(system));
                let _printed = eprintln!(rt; "rtcm2rinex: the file has no codes of {letter}");
                NOT_VALID
            }
        }
    }
}
