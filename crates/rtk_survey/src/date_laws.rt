//! Laws over the definitions: the moments that are told are the nearest with their time of week.
//!
//! Each function here does nothing. Its contract is the law.

ghost use Rattle.std.specs.Prelude.{ℕ, ◌<◌, ◌≤◌};
ghost use Rattle.rtk_message.specs.Fields.{week_ms};
ghost use Rattle.rtk_obs.specs.Dating.{IsDated};
ghost use Rattle.rtk_survey.specs.DateLaws.{IsNearest};
ghost use Rattle.rtk_survey.specs.Telling.{dated, nearest, half_week_ms};

/// Near a moment that is not in the first half week of 1980, `dated` is the date of a time of week, as
/// a conversion has it.
pub fn dates_are_nearest()
    ensures { (near tow : ℕ) → half_week_ms ≤ near → tow < week_ms → IsDated near tow (dated near tow) }
{}

/// Near such a moment a 1013 or a 1029 tells the nearest moment with a time of week.
pub fn told_moments_are_nearest()
    ensures { (at tow : ℕ) → half_week_ms ≤ at → tow < week_ms → IsNearest at tow (nearest at tow) }
{}
