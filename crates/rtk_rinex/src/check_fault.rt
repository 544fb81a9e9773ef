//! Why there is no table of a text.

use std::alloc::AllocError;
use thiserror::Error;

/// What is wrong with a line.
#[derive(Clone, Copy, Debug, PartialEq, Eq, Error)]
pub enum Cause {
    /// No header begins with these lines, from the first one to this one.
    #[error("{}", self.as_str())]
    HeaderLine,
    /// An epoch line or a satellite line is out of form.
    #[error("{}", self.as_str())]
    Columns,
    /// An observation or its digits are not as they are written, or the satellite has none.
    #[error("{}", self.as_str())]
    Value,
    /// An epoch or a satellite is not greater than the one before, or the first epoch is not at the
    /// first time.
    #[error("{}", self.as_str())]
    Order,
    /// The text ends although a line must follow, or the line has no LF.
    #[error("{}", self.as_str())]
    Truncated,
    /// Memory is refused while the line is read. Only `check` answers it, which keeps the text.
    #[error("{}", self.as_str())]
    OutOfMemory,
}

impl From<AllocError> for Cause {
    ghost use Rattle.std.specs.Prelude.{◌≡◌};
    ghost use Rattle.rtk_rinex.specs.declared.check_fault.Cause.TheVariants.{OutOfMemory};

    ghost from_gives = { λ _ cause. cause ≡ OutOfMemory };

    fn from(_refused: AllocError) -> Cause {
        Cause::OutOfMemory
    }
}

impl Cause {
    ghost use Rattle.std.specs.Prelude.{◌≡◌};
    ghost use Rattle.rtk_rinex.specs.CauseText.{cause_text};

    /// Returns the code and the name of the cause, as the program shows them: `C1 HeaderLine`.
    pub fn as_str(&self) -> &'static str
        ensures { result.now ≡ cause_text self.now }
    {
        match self {
            Cause::HeaderLine => "C1 HeaderLine",
            Cause::Columns => "C2 Columns",
            Cause::Value => "C3 Value",
            Cause::Order => "C4 Order",
            Cause::Truncated => "C5 Truncated",
            Cause::OutOfMemory => "C6 OutOfMemory",
        }
    }
}

/// The first line of a text that has a fault, and its cause; or the line that was being read when
/// memory was refused.
#[derive(Clone, Copy, Debug, PartialEq, Eq, Error)]
#[error("line {line}: {cause}")]
pub struct CheckFault {
    /// The number of the line, from 1.
    pub line: usize,
    pub cause: Cause,
}
