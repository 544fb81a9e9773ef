//! The form of an answer.

/// The form of an answer.
#[derive(Clone, Copy, Debug, PartialEq, Eq)]
pub enum Form {
    /// Lines, the first of which has the counts.
    Lines,
    /// One JSON object.
    Json,
}
