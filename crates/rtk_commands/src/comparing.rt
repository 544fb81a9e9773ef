//! The command `compare`: what a new file of a station lacks of an old one.

ghost use Rattle.std.specs.Prelude.{◌≡◌, ◌≤◌, if◌then◌else◌, ℕ, List, IfOk};
ghost use Rattle.rtk_commands.specs.declared.exit_status.TheConstants.{DONE, NOT_VALID};
ghost use Rattle.rtk_compare.specs.Differences.{HasFindings};
ghost use Rattle.rtk_commands.specs.CompareInput.{IsPartedMixed, lines_of_labels, ComparesTexts};

use crate::exit_status::{DONE, NOT_VALID, fail, fail_to_open};
use crate::fault::ToolFault;
use crate::file_command::CHECK_LIMIT;
use crate::files::{open_input, standard_output};
use crate::input::read_through;
use crate::with_label::{LabelledMixed, mixed_with_label};
use rtk_compare::{Findings, Form, answer_text, compare, compare_labels};
use rtk_label::Label;
use rtk_rinex::CheckFault;
use std::alloc::{AllocError, Global};
use std::fs::Files;
use std::io::Write;

/// What `compare` compares beside records and headers, and how it tells the differences.
#[derive(Clone, Copy, Debug, PartialEq, Eq)]
pub struct Compare {
    /// The labels are compared too.
    pub labels: bool,
    pub form: Form,
}

/// What comes of two texts.
#[derive(Drop)]
pub enum Compared {
    /// The text of the differences. Is something lost or changed?
    Told { worse: bool, text: Vec<u8> },
    /// Without its label and its time lines the old text is no file of `check`, or these lines are not those of its
    /// records. This is its first fault.
    OldRefused(CheckFault),
    /// This is the first fault of the new text.
    NewRefused(CheckFault),
}

impl Compare {
    // What the labels differ in, if they are compared.
    fn found_in_labels(&self, old: &Label, new: &Label) -> Findings
        ensures { HasFindings result (lines_of_labels self.now.labels old.now new.now) }
    {
        if !self.labels {
            return Findings::none();
        }
        let mut findings = Findings::none();
        compare_labels(old, new, &mut findings);
        findings
    }

    // Compares two files.
    fn files(
        &self,
        alloc: Global,
        old: &LabelledMixed<'_>,
        new: &LabelledMixed<'_>,
    ) -> Result<Compared, AllocError>
        ensures { IfOk result (λ compared. (old_text new_text : List ℕ) → IsPartedMixed old_text old.now.table.text old.now.label old.now.times
            → IsPartedMixed new_text new.now.table.text new.now.label new.now.times → ComparesTexts self.now old_text new_text compared) }
    {
        let mut findings = self.found_in_labels(&old.label, &new.label);
        compare(alloc, &old.table, &new.table, &mut findings)?;
        let worse = findings.is_worse();
        let text = answer_text(alloc, self.form, &findings)?;
        Ok(Compared::Told { worse, text })
    }

    /// Compares two texts, whose labels and time lines are taken from them in their places.
    pub fn texts(
        &self,
        alloc: Global,
        old: &mut [u8],
        new: &mut [u8],
    ) -> Result<Compared, AllocError>
        ensures { IfOk result (λ compared. ComparesTexts self.now old.old new.old compared) }
    {
        let read_old = mixed_with_label(alloc, old)?;
        let old_file = match read_old {
            Ok(file) => file,
            Err(fault) => return Ok(Compared::OldRefused(fault)),
        };
        let read_new = mixed_with_label(alloc, new)?;
        let new_file = match read_new {
            Ok(file) => file,
            Err(fault) => return Ok(Compared::NewRefused(fault)),
        };
        self.files(alloc, &old_file, &new_file)
    }
}

// The exit status: 0 exactly if nothing is lost or changed.
fn status_of(worse: bool) -> u8
    ensures value { result ≡ (if worse then NOT_VALID else DONE) }
    ensures bound { result ≤ NOT_VALID }
{
    if worse { NOT_VALID } else { DONE }
}

// Says that a file is refused.
fn refuse<R: Eprint>(rt: &R, name: &str, fault: CheckFault) -> u8
    ensures { result ≤ NOT_VALID }
{
    let _printed = eprintln!(rt; "rtcm2rinex: {name}: {fault}");
    NOT_VALID
}

// Writes the text of the differences.
fn tell<R: Print + Eprint>(rt: &R, worse: bool, text: &[u8]) -> u8
    ensures { result ≤ NOT_VALID }
{
    if standard_output(rt).write_all(text).is_err() {
        return fail(rt, ToolFault::Output);
    }
    status_of(worse)
}

/// Compares the files of these names, writes their differences to standard output, and answers the exit status.
#[inline(never)]
pub fn compare_named<R: Files + Input + Print + Eprint + AllocGlobal>(
    rt: &R,
    command: Compare,
    old: &str,
    new: &str,
) -> u8
    ensures { result ≤ NOT_VALID }
{
    let alloc = rt.alloc();
    // The old file is read before the new one is opened. Else the new one would have the number of standard
    // input where that is closed, and would be read in its place.
    let Some(old_file) = open_input(rt, old) else {
        return fail_to_open(rt, old);
    };
    let mut old_text = match read_through(alloc, old_file, CHECK_LIMIT) {
        Ok(text) => text,
        Err(fault) => return fail(rt, fault),
    };
    let Some(new_file) = open_input(rt, new) else {
        return fail_to_open(rt, new);
    };
    let mut new_text = match read_through(alloc, new_file, CHECK_LIMIT) {
        Ok(text) => text,
        Err(fault) => return fail(rt, fault),
    };
    let Ok(found) = command.texts(alloc, old_text.as_mut_slice(), new_text.as_mut_slice()) else {
        return fail(rt, ToolFault::OutOfMemory);
    };
    match found {
        Compared::Told { worse, text } => tell(rt, worse, text.as_slice()),
        Compared::OldRefused(fault) => refuse(rt, old, fault),
        Compared::NewRefused(fault) => refuse(rt, new, fault),
    }
}
