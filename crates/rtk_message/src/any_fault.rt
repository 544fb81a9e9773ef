//! Why a payload is not read by a set of messages.

use crate::fault::DecodeFault;
use thiserror::Error;

/// Why a payload is not read by a set of messages: the first cause that holds.
///
/// The causes, their order and the fixed part of a message are those of `DecodeFault`. Each MSM has the
/// fixed part of a 1074: 169 bits. That of a 1012 is its header: 61 bits. `TooManyCells` gives the number
/// of the message, since each MSM has a cell mask (DF396).
#[derive(Clone, Copy, Debug, PartialEq, Eq, Error)]
pub enum AnyFault {
    /// The payload has fewer than 12 bits, so there is no message number (DF002).
    #[error("{} no message number", self.code())]
    NoNumber,
    /// The set has no message of this number (DF002, 0 to 4095).
    #[error("{} message {number} is not read", self.code())]
    Other { number: u16 },
    /// The payload ends before the last field of the message's table.
    #[error("{} message {number} is cut short", self.code())]
    Short { number: u16 },
    /// The clock does not lie in a week. GPS: the time of week (DF004) is 604,800,000 ms or more; other
    /// systems: `System::is_in_week`. By a set with 1012 the day of a clock of GLONASS may be unknown. 1012:
    /// the time of day (DF034) is 86,401,000 ms or more.
    #[error("{} message {number} has a time outside the week", self.code())]
    EpochRange { number: u16 },
    /// The cell mask of an MSM (DF396) would have more than 64 bits.
    #[error("{} message {number} has more than 64 cell mask bits", self.code())]
    TooManyCells { number: u16 },
}

// A cause as one of the wider set. A 1074 is the one message for which `DecodeFault` has too many
// cells.
impl From<DecodeFault> for AnyFault {
    ghost use Rattle.std.specs.Prelude.{◌≡◌};
    ghost use Rattle.rtk_message.specs.AnyFaultCode.{any_fault_of};

    ghost from_gives = { λ fault result. result ≡ any_fault_of fault };

    fn from(fault: DecodeFault) -> AnyFault {
        match fault {
            DecodeFault::NoNumber => AnyFault::NoNumber,
            DecodeFault::Other { number } => AnyFault::Other { number },
            DecodeFault::Short { number } => AnyFault::Short { number },
            DecodeFault::EpochRange { number } => AnyFault::EpochRange { number },
            DecodeFault::TooManyCells => AnyFault::TooManyCells { number: 1074 },
        }
    }
}

impl AnyFault {
    ghost use Rattle.std.specs.Prelude.{◌≡◌};
    ghost use Rattle.rtk_message.specs.AnyFaultCode.{any_fault_code, any_fault_number};

    /// Returns the code of the cause, as texts show it: `M1` to `M5`, in the order of the variants.
    pub fn code(&self) -> &'static str
        ensures { result.now ≡ any_fault_code self.now }
    {
        match self {
            AnyFault::NoNumber => "M1",
            AnyFault::Other { .. } => "M2",
            AnyFault::Short { .. } => "M3",
            AnyFault::EpochRange { .. } => "M4",
            AnyFault::TooManyCells { .. } => "M5",
        }
    }

    /// Returns the number of the message (DF002), or `None` exactly if the payload has none.
    pub fn number(&self) -> Option<u16>
        ensures { result ≡ any_fault_number self.now }
    {
        match self {
            AnyFault::NoNumber => None,
            AnyFault::Other { number }
            | AnyFault::Short { number }
            | AnyFault::EpochRange { number }
            | AnyFault::TooManyCells { number } => Some(*number),
        }
    }
}
