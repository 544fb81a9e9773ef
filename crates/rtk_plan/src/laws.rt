//! Laws of the plan.
//!
//! Each function here does nothing. Its contract is the law, and a caller that calls it may cite it.

ghost use Rattle.rtk_plan.specs.Laws.{OnePlan, NearIsWholeSecond, EachIsTakenOnce, EachIsLeftOutOnce, LeftOutIsTold};

/// Each capture is taken once, on one link, or left out, because it has nothing of the station; and each that is
/// left out has its line.
pub fn captures_are_taken_or_told()
    ensures taken { EachIsTakenOnce }
    ensures left_out { EachIsLeftOutOnce }
    ensures told { LeftOutIsTold }
{}

/// The surveys of captures and the words decide the plan: its setup, its links, the captures that are left out and
/// those with a stray epoch. The moment near which it dates is a whole second.
pub fn surveys_decide_plan()
    ensures one { OnePlan }
    ensures whole { NearIsWholeSecond }
{}
