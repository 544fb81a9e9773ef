//! Why a payload is not read as a message.

use thiserror::Error;

/// Why a payload is not read as a message: the first cause that holds. The causes are looked for in
/// the order of the variants; only the place of `Short` depends on where the payload ends.
///
/// For a message that is read, `Short` is the cause if the payload ends in the fixed part. If it
/// ends after that part, `EpochRange` and `TooManyCells` are looked for before `Short`: so a 1004
/// whose time of week is out of range is refused as `EpochRange`, even without its satellites.
///
/// The fixed part is the header of a 1004 (64 bits) or of a 1074 (169 bits), and the whole of a
/// 1005 (152 bits) or a 1006 (168 bits), each with its message number (RTCM 10403.3, data fields
/// DF002, DF004 and DF394 to DF396). The causes are this project's rule.
#[derive(Clone, Copy, Debug, PartialEq, Eq, Error)]
pub enum DecodeFault {
    /// The payload has fewer than 12 bits, so there is no message number (DF002).
    #[error("{} no message number", self.code())]
    NoNumber,
    /// This decoder reads no message of this number (DF002, 0 to 4095).
    #[error("{} message {number} is not read", self.code())]
    Other { number: u16 },
    /// The payload ends before the last field of the message's table.
    #[error("{} message {number} is cut short", self.code())]
    Short { number: u16 },
    /// The time of week (DF004) is 604,800,000 ms or more.
    #[error("{} message {number} has a time outside the week", self.code())]
    EpochRange { number: u16 },
    /// The cell mask of a 1074 (DF396) would have more than 64 bits.
    #[error("{} message 1074 has more than 64 cell mask bits", self.code())]
    TooManyCells,
}

impl DecodeFault {
    ghost use Rattle.std.specs.Prelude.{◌≡◌};
    ghost use Rattle.rtk_message.specs.FaultCode.{fault_code, fault_number};

    /// Returns the code of the cause, as texts show it: `M1` to `M5`, in the order of the variants.
    pub fn code(&self) -> &'static str
        ensures { result.now ≡ fault_code self.now }
    {
        match self {
            DecodeFault::NoNumber => "M1",
            DecodeFault::Other { .. } => "M2",
            DecodeFault::Short { .. } => "M3",
            DecodeFault::EpochRange { .. } => "M4",
            DecodeFault::TooManyCells => "M5",
        }
    }

    /// Returns the number of the message (DF002), or `None` exactly if the payload has none.
    pub fn number(&self) -> Option<u16>
        ensures { result ≡ fault_number self.now }
    {
        match self {
            DecodeFault::NoNumber => None,
            DecodeFault::Other { number }
            | DecodeFault::Short { number }
            | DecodeFault::EpochRange { number } => Some(*number),
            DecodeFault::TooManyCells => Some(1074),
        }
    }
}
