//! Why a part of a file is not written.

use rtk_frame::StreamFault;
use std::alloc::AllocError;
use thiserror::Error;

/// Why a part of a file is not written, or not all of it.
#[derive(Clone, Copy, Debug, PartialEq, Eq, Error)]
pub enum CutFault {
    /// Memory was refused.
    #[error("out of memory")]
    OutOfMemory,
    /// A write failed.
    #[error("write failed")]
    Write,
}

impl From<AllocError> for CutFault {
    ghost use Rattle.std.specs.Prelude.{◌≡◌};
    ghost use Rattle.rtk_cut.specs.declared.fault.CutFault.TheVariants.{OutOfMemory};

    ghost from_gives = { λ _ e. e ≡ OutOfMemory };

    fn from(_refused: AllocError) -> Self {
        CutFault::OutOfMemory
    }
}

impl From<StreamFault> for CutFault {
    ghost use Rattle.std.specs.Prelude.{◌≡◌};
    ghost use Rattle.rtk_cut.specs.declared.fault.CutFault.TheVariants.{Write};

    ghost from_gives = { λ _ e. e ≡ Write };

    fn from(_failed: StreamFault) -> Self {
        CutFault::Write
    }
}
