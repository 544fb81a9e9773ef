//! Laws of the definitions: which step is the interval, what a bit 0 is, and which absences are outages.
//!
//! Each function here does nothing. Its contract is the law, and a caller that calls it may cite it.

ghost use Rattle.rtk_tracking.specs.Laws.{IntervalIsMostFrequent, IntervalCameMostOften, OneInterval, EachBitIsOneOfThree, RiseOrReturnIsEither, ThinningChangesLess, ThinningKeepsVerdicts, ClockChangesNone};

/// The interval of steps is the most frequent of them, and of two alike the lesser one; there is one
/// such interval. Counts stay at the greatest value of 64 bits, which fewer than 2^64 steps don't reach:
/// then no step came more often, and none that came as often is less.
pub fn interval_is_most_frequent()
    ensures frequent { IntervalIsMostFrequent }
    ensures often { IntervalCameMostOften }
    ensures one { OneInterval }
{}

/// Each bit 0 of a loss-of-lock digit is exactly one of three: a rise, a return or a slip.
pub fn bits_are_of_three_kinds()
    ensures one { EachBitIsOneOfThree }
    ensures either { RiseOrReturnIsEither }
{}

/// Thinning to steps changes an absence by less than a step, so an absence that is a step or more away
/// from 120 s and from 1,800 s keeps its verdict. A clock that is not steered changes no verdict, if these
/// times are whole numbers of intervals.
pub fn absences_stay()
    ensures less { ThinningChangesLess }
    ensures verdicts { ThinningKeepsVerdicts }
    ensures clocks { ClockChangesNone }
{}
