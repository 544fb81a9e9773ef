//! The marks of a code of a satellite.

ghost use Rattle.std.specs.Prelude.{◌≡◌};
ghost use Rattle.rtk_chart.specs.Grid.{no_marks};
ghost use Rattle.rtk_chart.specs.Steps.Shown.{called_for, both_marks};

use crate::observations::level_of;
use rtk_rinex::Observed;
use rtk_tracking::lesser;

/// What the epochs of a bin call for.
#[derive(Clone, Copy)]
pub(crate) struct CodeMarks {
    /// The phase stands.
    pub(crate) phase: bool,
    /// The phase is missing where another phase of the satellite stands.
    pub(crate) missing: bool,
    pub(crate) slip: bool,
    /// A return, which is bit 0 at the first phase after an outage.
    pub(crate) returned: bool,
    pub(crate) rise: bool,
    pub(crate) half: bool,
    /// The least strength digit.
    pub(crate) least: Option<u8>,
}

impl CodeMarks {
    /// No epoch came.
    pub(crate) fn new() -> CodeMarks
        ensures { result ≡ no_marks }
    {
        CodeMarks {
            phase: false,
            missing: false,
            slip: false,
            returned: false,
            rise: false,
            half: false,
            least: None,
        }
    }

    /// What an epoch calls for: the satellite has a phase or none, and the code had one earlier in the
    /// pass or had none, and since the last outage in it.
    pub(crate) fn of(observed: Observed, has_phase: bool, known: bool, kept: bool) -> CodeMarks
        ensures { result ≡ called_for observed has_phase known kept }
    {
        let phase = observed.phase_millicycles.is_some();
        CodeMarks {
            phase,
            missing: has_phase && !phase,
            slip: observed.slip && kept,
            returned: observed.slip && known && !kept,
            rise: observed.slip && !known,
            half: observed.half,
            least: level_of(observed.strength_millidbhz),
        }
    }

    /// Adds the marks of one more epoch.
    pub(crate) fn add(&mut self, more: CodeMarks)
        ensures { self.new ≡ both_marks more self.old }
    {
        self.phase = more.phase || self.phase;
        self.missing = more.missing || self.missing;
        self.slip = more.slip || self.slip;
        self.returned = more.returned || self.returned;
        self.rise = more.rise || self.rise;
        self.half = more.half || self.half;
        self.least = lesser(more.least, self.least);
    }
}
