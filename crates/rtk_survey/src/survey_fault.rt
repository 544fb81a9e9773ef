//! Why a summary is not written.

use std::alloc::AllocError;
use thiserror::Error;

/// Why a summary is not written.
#[derive(Clone, Copy, Debug, PartialEq, Eq, Error)]
pub enum SurveyFault {
    /// Memory was refused.
    #[error("out of memory")]
    OutOfMemory,
    /// A read failed.
    #[error("read failed")]
    Read,
    /// All reads that were allowed were made, and none of them was the end.
    #[error("input does not end")]
    Endless,
    /// A write failed.
    #[error("write failed")]
    Write,
}

impl From<AllocError> for SurveyFault {
    ghost use Rattle.std.specs.Prelude.{◌≡◌};
    ghost use Rattle.rtk_survey.specs.declared.survey_fault.SurveyFault.TheVariants.{OutOfMemory};

    ghost from_gives = { λ _ e. e ≡ OutOfMemory };

    fn from(_refused: AllocError) -> Self {
        SurveyFault::OutOfMemory
    }
}
