//! Why `auto` writes no file, though its words are good.

ghost use Rattle.std.specs.Prelude.{◌≡◌, Err};

use std::alloc::AllocError;
use thiserror::Error;

/// Why no file is written. Displayed, it is the fault line of the program; lines after it list what it
/// speaks of.
#[derive(Clone, Copy, Debug, PartialEq, Eq, Error)]
pub enum Refusal {
    /// No capture has a frame.
    #[error("the captures have no frame of RTCM 3")]
    NoFrame,
    /// No station has an observation that is read.
    #[error("the captures have no observations that are read")]
    NoObservation,
    /// The station that is named has none.
    #[error("station {station} has no observations that are read")]
    NoStation {
        /// The station.
        station: u16,
    },
    /// No station is named, and several have observations.
    #[error("several stations have observations; choose one by --station")]
    SeveralStations,
    /// Captures have nothing of the station.
    #[error("captures have nothing of station {station}; --skip-empty leaves them out")]
    Empty {
        /// The station.
        station: u16,
    },
    /// The messages of the captures tell dates that differ.
    #[error("the captures tell dates that differ; choose one by --near")]
    DatesDiffer,
    /// 1013 or 1029 of the station tell two dates of a capture.
    #[error("a capture tells two dates; part it, or choose one by --near")]
    TwoDates {
        /// The place of the capture.
        capture: usize,
        /// How many of its frames come before the second date begins.
        frame: u64,
    },
    /// The first epoch lies outside the dates near which a conversion dates.
    #[error("the first epoch is not dated from 1980-01-13 to 2099-12-31; choose a date by --near")]
    OutsideDates,
    /// No message tells a date.
    #[error("the captures tell no date; give one, as in --near GPS-TIME-WITHIN-HALF-A-WEEK")]
    NoDate,
    /// Epochs are more than half a week from the first one.
    #[error("the captures are longer than half a week; convert them in parts")]
    TooLong,
    /// The station has observations, but no code of the systems that are asked for has a value in the messages that are taken.
    #[error("no observation that is asked for can be converted; choose others by --msm or --systems")]
    NoCode,
    /// A listed system has an MSM without Doppler, and words ask for Doppler.
    #[error("--doppler needs MSM5 or MSM7 of {letter}")]
    NoRates {
        /// The letter of the system.
        letter: char,
    },
    /// More than 16 captures are of the same time.
    #[error("more than 16 captures are of the same time, and 16 links are taken")]
    TooManyLinks,
    /// The messages of the captures tell positions of the station that are far from one another.
    #[error("the station stands at positions that differ; --links-as-given takes them for one")]
    PositionsDiffer,
}

/// Why captures have no plan.
#[derive(Debug, Drop)]
pub enum PlanFault {
    /// The captures don't allow it.
    Refused {
        refusal: Refusal,
        /// The lines that list what the refusal speaks of.
        list: Vec<u8>,
    },
    /// Memory was refused.
    OutOfMemory,
}

impl From<AllocError> for PlanFault {
    ghost use Rattle.std.specs.Prelude.{◌≡◌};
    ghost use Rattle.rtk_captures.specs.declared.refusal.PlanFault.TheVariants.{OutOfMemory};

    ghost from_gives = { λ _ fault. fault ≡ OutOfMemory };

    fn from(_refused: AllocError) -> PlanFault {
        PlanFault::OutOfMemory
    }
}

/// The captures don't allow a plan.
pub fn refused<T: Drop>(refusal: Refusal, list: Vec<u8>) -> Result<T, PlanFault>
    ensures { result ≡ Err (PlanFault.Refused refusal list) }
{
    Err(PlanFault::Refused { refusal, list })
}
