//! The present.

use std::env;
use std::env::{Env, VarError};
use std::time::{Clock, SystemTime, UNIX_EPOCH};

/// The variable that has the present, if it is set: so that a run can be repeated.
const VARIABLE: &str = "SOURCE_DATE_EPOCH";

/// The present in seconds since 1970, and where it is from.
#[derive(Clone, Copy, Debug, PartialEq, Eq)]
pub enum PresentTime {
    /// It is that of `SOURCE_DATE_EPOCH`.
    Variable(u64),
    /// It is that of the clock.
    Clock(u64),
}

/// Why the present is not known.
#[derive(Clone, Copy, Debug, PartialEq, Eq)]
pub enum PresentFault {
    /// `SOURCE_DATE_EPOCH` is no number.
    BadVariable,
    /// The clock can't be read.
    NoClock,
    /// No memory for the variable.
    OutOfMemory,
}

// A variable that is not there or is no text is no number.
impl From<VarError> for PresentFault {
    fn from(fault: VarError) -> PresentFault {
        match fault {
            VarError::NotPresent | VarError::NotUnicode => PresentFault::BadVariable,
            VarError::OutOfMemory => PresentFault::OutOfMemory,
        }
    }
}

/// The present: that of `SOURCE_DATE_EPOCH` if it is set, else that of the clock.
pub fn present<R: Env + Clock + AllocGlobal>(rt: &R) -> Result<PresentTime, PresentFault> {
    let text = match env::var(rt, VARIABLE) {
        Err(VarError::NotPresent) => return clock_time(rt),
        text => text?,
    };
    match text.as_str().parse::<u64>() {
        Ok(seconds) => Ok(PresentTime::Variable(seconds)),
        Err(_) => Err(PresentFault::BadVariable),
    }
}

fn clock_time<R: Clock>(rt: &R) -> Result<PresentTime, PresentFault> {
    let Ok(time) = SystemTime::now(rt) else {
        return Err(PresentFault::NoClock);
    };
    match time.duration_since(UNIX_EPOCH) {
        Ok(duration) => Ok(PresentTime::Clock(duration.as_secs())),
        Err(_) => Err(PresentFault::NoClock),
    }
}
