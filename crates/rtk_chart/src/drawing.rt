//! What is to be drawn of a file of any systems.

use crate::choice::Choice;
use crate::scale::Scale;
use rtk_rinex::MixedTextTable;

/// A table of any systems, the time bins in which it is drawn, and which of its satellites are drawn.
#[derive(Clone, Copy)]
pub(crate) struct Drawing<'a, 't> {
    pub(crate) table: &'a MixedTextTable<'t>,
    pub(crate) scale: Scale,
    pub(crate) choice: &'a Choice,
}
