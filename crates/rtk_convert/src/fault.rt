//! Why a conversion does not go on.

use rtk_frame::FrameFault;
use std::alloc::AllocError;
use thiserror::Error;

/// One of the two streams that a conversion writes.
#[derive(Clone, Copy, Debug, PartialEq, Eq)]
pub enum Stream {
    /// The file.
    Out,
    /// The report.
    Log,
}

/// Why a call of a conversion is refused, or why it breaks off.
#[derive(Clone, Copy, Debug, PartialEq, Eq, Error)]
pub enum ConvertFault {
    /// The number of links is not 1 to 16.
    #[error("V1 not 1 to 16 links")]
    Setup,
    /// There is no link of this number.
    #[error("V2 no such link")]
    NoLink,
    /// The link is closed.
    #[error("V3 the link is closed")]
    LinkClosed,
    /// Memory was refused.
    #[error("V4 out of memory")]
    OutOfMemory,
    /// A write to this stream failed.
    #[error("V5 a write failed")]
    Write { stream: Stream },
    /// A read of this link, counted from 0, failed.
    #[error("V6 reading link {link} failed")]
    Read { link: u8 },
    /// All reads that were allowed were made, and a link is open.
    #[error("V7 the input does not end")]
    Endless,
    /// A call before this one broke off.
    #[error("V8 stopped")]
    Stopped,
}

impl From<AllocError> for ConvertFault {
    ghost use Rattle.std.specs.Prelude.{◌≡◌};
    ghost use Rattle.rtk_convert.specs.declared.fault.ConvertFault.TheVariants.{OutOfMemory};

    ghost from_gives = { λ _ e. e ≡ OutOfMemory };

    fn from(_refused: AllocError) -> Self {
        ConvertFault::OutOfMemory
    }
}

// A converter makes scanners and no frames, and a scanner is refused only if memory is.
impl From<FrameFault> for ConvertFault {
    ghost use Rattle.std.specs.Prelude.{◌≡◌};
    ghost use Rattle.rtk_convert.specs.declared.fault.ConvertFault.TheVariants.{OutOfMemory};

    ghost from_gives = { λ _ e. e ≡ OutOfMemory };

    fn from(_refused: FrameFault) -> Self {
        ConvertFault::OutOfMemory
    }
}
