//! Why parts make no head.

use thiserror::Error;

/// Why there is no head of these parts: the first cause that holds, in this order.
#[derive(Clone, Copy, Debug, PartialEq, Eq, Error)]
pub enum HeadFault {
    /// The marker does not have 1 to 60 bytes, or one lies outside 0x20 to 0x7E, or the first or
    /// the last one is a blank.
    #[error("H1 bad marker")]
    Marker,
    /// There are not 1 to 16 codes, or one stands twice.
    #[error("H2 bad codes")]
    Codes,
    /// The moment at which the file is made is no whole second.
    #[error("H3 bad time of making")]
    Made,
}
