//! How many epochs are kept open.

ghost use Rattle.std.specs.Prelude.{◌≡◌, IfOk, IfErr};
ghost use Rattle.rtk_setup.specs.Setup.{IsWindow};

use crate::setup_fault::SetupFault;
use std::marker::Model;

/// The fewest epochs that are kept open.
pub const LEAST_WINDOW: usize = 2;

/// The most epochs that are kept open.
pub const MOST_WINDOW: usize = 4096;

/// A window: how many epochs are kept open, 2 to 4096.
#[derive(Clone, Copy, Debug, PartialEq, Eq)]
pub struct Window {
    epochs: usize,
}

impl Model for Window {
    ghost use Rattle.std.specs.Prelude.{ℕ};
    ghost use Rattle.rtk_setup.specs.Setup.{IsWindow};

    ghost Value = { ℕ };

    ghost view = { λ w. w.epochs };

    ghost invariant = { λ w. IsWindow w.epochs };

    ghost inverse = { λ n. record { epochs = n } };
}

impl Window {
    /// Makes the window of so many epochs if it is good, else answers `SetupFault::Window`.
    pub fn new(epochs: usize) -> Result<Window, SetupFault>
        ensures epochs { IfOk result (λ window. window ≡ epochs) }
        ensures good { IfOk result IsWindow }
        ensures fault { IfErr result (λ fault. (fault ≡ SetupFault.Window) × ¬ (IsWindow epochs)) }
    {
        if epochs < LEAST_WINDOW || epochs > MOST_WINDOW {
            return Err(SetupFault::Window);
        }
        Ok(Window { epochs })
    }

    /// Returns how many epochs are kept open.
    pub fn epochs(self) -> usize
        ensures value { result ≡ self }
        ensures good { IsWindow result }
    {
        self.epochs
    }
}
