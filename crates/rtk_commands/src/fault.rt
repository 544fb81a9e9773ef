//! Why the program, the tool, does not do a command.

use std::alloc::{AllocError, AllocFailed};
use std::io;
use std::io::ErrorKind;
use thiserror::Error;

/// Why the program, the tool, does not do a command, whatever its words ask for. All commands have
/// this one type; `NotHex` comes from `show` alone. Displayed, it is the fault line of the program.
#[derive(Clone, Copy, Debug, PartialEq, Eq, Error)]
pub enum ToolFault {
    /// P1: a read failed.
    #[error("read failed")]
    Input,
    /// P2: the input has more bytes than the command takes.
    #[error("input too long")]
    TooLong,
    /// P3: the input is not pairs of hex digits with blanks, tabs and line ends between.
    #[error("input is not hex")]
    NotHex,
    /// P4: no memory.
    #[error("out of memory")]
    OutOfMemory,
    /// P5: a write failed.
    #[error("write failed")]
    Output,
}

impl From<AllocError> for ToolFault {
    ghost use Rattle.std.specs.Prelude.{◌≡◌};
    ghost use Rattle.rtk_commands.specs.declared.fault.ToolFault.TheVariants.{OutOfMemory};

    ghost from_gives = { λ _ fault. fault ≡ OutOfMemory };

    fn from(_refused: AllocError) -> ToolFault {
        ToolFault::OutOfMemory
    }
}

impl<T: Drop> From<AllocFailed<T>> for ToolFault {
    ghost use Rattle.std.specs.Prelude.{◌≡◌};
    ghost use Rattle.rtk_commands.specs.declared.fault.ToolFault.TheVariants.{OutOfMemory};

    ghost from_gives = { λ _ fault. fault ≡ OutOfMemory };

    fn from(_refused: AllocFailed<T>) -> ToolFault {
        ToolFault::OutOfMemory
    }
}

// std answers an error if a buffer gets no memory or a read fails. A failed write is a `StreamFault`.
impl From<io::Error> for ToolFault {
    ghost use Rattle.rtk_commands.specs.Fault.{TellsError};

    ghost from_gives = { TellsError };

    fn from(error: io::Error) -> ToolFault {
        match error.kind() {
            ErrorKind::OutOfMemory => ToolFault::OutOfMemory,
            _ => ToolFault::Input,
        }
    }
}
