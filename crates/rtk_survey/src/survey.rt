//! The survey of a capture.

use crate::contents::Contents;
use crate::look::Look;

/// What a capture is, read once to its end.
#[derive(Drop)]
pub struct CaptureSurvey {
    /// How many bytes it has. Stays at the greatest `u64`.
    pub bytes: u64,
    /// What its first bytes look like, if it has no frame.
    pub look: Option<Look>,
    pub contents: Contents,
}
