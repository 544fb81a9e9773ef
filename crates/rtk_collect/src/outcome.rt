//! The answer to a message that is offered.

use crate::entry::Entry;
use crate::gathered_set::GatheredSet;
use rtk_obs::CellEntry;

/// What became of an offered message.
#[derive(Drop)]
pub enum Outcome<E: Entry = CellEntry> {
    /// A cell is new, or the message opened its epoch; or it is the first 1005 or the first 1006.
    Taken {
        /// The epoch that this closes, with its kept cells.
        closed: Option<GatheredSet<E>>,
    },
    /// Nothing is new, and nothing conflicts.
    Repeat,
    /// No cell is new, and some conflict with the kept ones; or it is a 1005 or 1006 that differs
    /// from the first one.
    Conflict,
    /// It came too late: at least as many greater epochs came before it as the window has places.
    /// For a 1005 or 1006 all epochs count, and a repeat of the kept one is never late.
    Late,
}
