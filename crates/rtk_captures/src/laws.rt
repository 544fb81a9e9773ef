//! Laws of the dates of captures.
//!
//! Each function here does nothing. Its contract is the law, and a caller that calls it may cite it.

ghost use Rattle.rtk_captures.specs.Laws.{DatesCountOrAreTold};

/// The first epochs that messages tell count, or are those that are told beside the ones that count.
pub fn dates_count_or_are_told()
    ensures { DatesCountOrAreTold }
{}
