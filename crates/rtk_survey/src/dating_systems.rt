//! Which systems date a capture.

ghost use Rattle.std.specs.Prelude.{◌≡◌};
ghost use Rattle.std.specs.List.{list_any};
ghost use Rattle.rtk_survey.specs.Targets as spec;

use crate::station::StationSurvey;
use crate::system_signals::AnyCodeMarks;
use rtk_message::{AnyMessage, System};
use rtk_obs::{ALL_ANY_CODES, AnyCode};

/// The systems whose observations date a capture: those whose clock is the GPS time of week.
///
/// The clock of GLONASS needs the leap seconds, and that of BeiDou is wrong by 14 s in receivers before 2013, so neither
/// dates.
#[derive(Clone, Copy, Debug, PartialEq, Eq)]
pub struct DatingSystems {
    pub gps: bool,
    pub galileo: bool,
    pub qzss: bool,
    pub sbas: bool,
    pub navic: bool,
}

impl DatingSystems {
    /// All systems that can.
    pub fn all() -> DatingSystems
        ensures { result ≡ spec.all_dating }
    {
        DatingSystems {
            gps: true,
            galileo: true,
            qzss: true,
            sbas: true,
            navic: true,
        }
    }

    fn has(&self, system: System) -> bool
        ensures { result ≡ spec.has_dating self.now system }
    {
        match system {
            System::Gps => self.gps,
            System::Galileo => self.galileo,
            System::Qzss => self.qzss,
            System::Sbas => self.sbas,
            System::Navic => self.navic,
            System::Glonass | System::Beidou => false,
        }
    }

    /// Do observations of a message date that are beside GPS?
    pub(crate) fn have_part(&self, message: &AnyMessage) -> bool
        ensures { result ≡ spec.has_dating self.now (spec.system_beside message.now) }
    {
        self.has(system_beside(message))
    }

    // Is a code of such a system marked?
    fn marks(&self, marks: &AnyCodeMarks, code: AnyCode) -> bool
        ensures { result ≡ spec.marks_dating self.now marks.now.words code }
    {
        self.has(code.system()) && marks.is_marked(code.number())
    }

    #[tactic(auto, unfolding(crate::specs::Targets::has_code_dating))]
    fn have_code(&self, marks: &AnyCodeMarks) -> bool
        ensures { result ≡ spec.has_code_dating self.now marks.now.words }
    {
        ALL_ANY_CODES.iter().any(|code| self.marks(marks, *code))
    }

    /// Has a station an observation of such a system?
    pub fn have_observation(&self, station: &StationSurvey) -> bool
        ensures { result ≡ spec.has_dated_observation self.now station.now }
    {
        (self.gps && have_mark(&station.signals.codes.marks))
            || self.have_code(&station.system_signals.codes)
    }
}

fn is_set(mark: &bool) -> bool
    ensures { result ≡ spec.is_set mark.now }
{
    *mark
}

fn have_mark(marks: &[bool]) -> bool
    ensures { result ≡ list_any spec.is_set marks.now }
{
    marks.iter().any(is_set)
}

// The system of the cells of a message that are beside GPS.
fn system_beside(message: &AnyMessage) -> System
    ensures { result ≡ spec.system_beside message.now }
{
    match message {
        AnyMessage::Message(_) => System::Sbas,
        AnyMessage::Msm(message) => message.system,
        AnyMessage::Obs1012(_) => System::Glonass,
    }
}
