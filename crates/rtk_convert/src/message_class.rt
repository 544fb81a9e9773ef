//! What became of a message.

/// What became of a message that was offered to the window.
#[derive(Clone, Copy, Debug, PartialEq, Eq)]
pub(crate) enum MessageClass {
    /// It came too late.
    Late,
    /// A cell is new, or it opened its epoch, or it is the first station message of its number.
    Taken,
    /// Nothing is new, and nothing conflicts.
    Repeat,
    /// Nothing is new, and something conflicts.
    Conflict,
}
