//! Why parts make no head of a file of any systems.

use thiserror::Error;

/// Why there is no head of these parts: the first cause that holds, in this order.
#[derive(Clone, Copy, Debug, PartialEq, Eq, Error)]
pub enum MixedHeadFault {
    /// There are not 1 to 69 codes, or one stands twice, or the systems do not stand in the order G, R,
    /// E, C, J, S, I.
    #[error("H2 bad codes")]
    Codes,
    /// There are codes of GLONASS and no channels and leap seconds, or these without such codes.
    #[error("H4 bad GLONASS")]
    Glonass,
}
