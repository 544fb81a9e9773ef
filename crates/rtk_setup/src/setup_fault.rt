//! Why parts make no setup.

use thiserror::Error;

/// Why there is no setup of these parts: the first cause that holds, in this order.
#[derive(Clone, Copy, Debug, PartialEq, Eq, Error)]
pub enum SetupFault {
    /// The station is over 4095 (DF003 has 12 bits).
    #[error("S1 bad station")]
    Station,
    /// The reference lies outside 1980-01-13 00:00:00.000 to 2099-12-31 23:59:59.999.
    #[error("S2 bad reference")]
    Near,
    /// The window is not 2 to 4096 epochs.
    #[error("S3 bad window")]
    Window,
}
