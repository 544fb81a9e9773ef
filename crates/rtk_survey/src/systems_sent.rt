//! The systems that a station sends.

ghost use Rattle.std.specs.Prelude.{◌≡◌, false, get_or};
ghost use Rattle.rtk_obs.specs.AnyCode.{number_of};
ghost use Rattle.rtk_obs.specs.Code.{place_of};
ghost use Rattle.rtk_survey.specs.BitMarks.{is_marked_in};
ghost use Rattle.rtk_survey.specs.UncheckedClocks as spec;

use crate::signals::CODES;
use crate::system_signals::AnyCodeMarks;
use rtk_message::System;
use rtk_obs::{ALL_ANY_CODES, ALL_CODES, AnyCode, Code, letter_of};

/// The systems that have a code with a value.
#[derive(Clone, Copy, Debug, PartialEq, Eq)]
pub struct SystemsSent {
    pub gps: bool,
    pub glonass: bool,
    pub galileo: bool,
    pub beidou: bool,
    pub qzss: bool,
    pub sbas: bool,
    pub navic: bool,
}

// Has a code a value, and is it of the system with this letter?
fn is_sent_code(letter: u8, marks: &AnyCodeMarks, code: AnyCode) -> bool
    ensures { result ≡ spec.is_sent_code letter (λ c. is_marked_in marks.now.words (number_of c)) code }
{
    letter_of(code.system()) == letter && marks.is_marked(code.number())
}

#[tactic(auto, unfolding(crate::specs::UncheckedClocks::sends_letter))]
fn sends_letter(letter: u8, marks: &AnyCodeMarks) -> bool
    ensures { result ≡ spec.sends_letter letter (λ c. is_marked_in marks.now.words (number_of c)) }
{
    ALL_ANY_CODES
        .iter()
        .any(|code| is_sent_code(letter, marks, *code))
}

fn is_marked_code(marks: &[bool; CODES], code: Code) -> bool
    ensures { result ≡ get_or marks.now (place_of code) false }
{
    marks[code.place()]
}

#[tactic(auto, unfolding(crate::specs::UncheckedClocks::sends_gps))]
fn sends_gps(marks: &[bool; CODES]) -> bool
    ensures { result ≡ spec.sends_gps (λ c. get_or marks.now (place_of c) false) }
{
    ALL_CODES.iter().any(|code| is_marked_code(marks, *code))
}

impl SystemsSent {
    /// Those of a station, by its codes of GPS and of other systems.
    #[tactic(auto, unfolding(crate::specs::UncheckedClocks::systems_sent))]
    pub(crate) fn of(codes: &[bool; CODES], others: &AnyCodeMarks) -> SystemsSent
        ensures { result ≡ spec.systems_sent (λ c. get_or codes.now (place_of c) false) (λ c. is_marked_in others.now.words (number_of c)) }
    {
        SystemsSent {
            gps: sends_gps(codes),
            glonass: sends_letter(b'R', others),
            galileo: sends_letter(b'E', others),
            beidou: sends_letter(b'C', others),
            qzss: sends_letter(b'J', others),
            sbas: sends_letter(b'S', others),
            navic: sends_letter(b'I', others),
        }
    }

    /// Is the system one of them?
    pub fn has(&self, system: System) -> bool
        ensures { result ≡ spec.is_sent self.now system }
    {
        match system {
            System::Gps => self.gps,
            System::Glonass => self.glonass,
            System::Galileo => self.galileo,
            System::Beidou => self.beidou,
            System::Qzss => self.qzss,
            System::Sbas => self.sbas,
            System::Navic => self.navic,
        }
    }

    /// Are clocks of the system to be compared with those of another one?
    pub(crate) fn time(&self, system: System) -> bool
        ensures { result ≡ spec.is_timed self.now system }
    {
        match system {
            System::Gps => false,
            System::Glonass | System::Beidou => true,
            System::Galileo => self.gps,
            System::Qzss => self.gps || self.galileo,
            System::Sbas => self.gps || self.galileo || self.qzss,
            System::Navic => self.gps || self.galileo || self.qzss || self.sbas,
        }
    }
}
