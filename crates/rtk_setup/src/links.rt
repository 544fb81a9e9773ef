//! How many links a conversion may have.

/// The most links that a conversion has.
pub const MOST_LINKS: usize = 16;
