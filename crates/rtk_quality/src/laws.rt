//! Laws of the definitions: no loss-of-lock digit, record or missing epoch is hidden, and numbers may be of
//! any size.
//!
//! Each function here does nothing. Its contract is the law, and a caller that calls it may cite it.

ghost use Rattle.rtk_quality.specs.Laws.{CountsHideNothing, EachIsCounted, MeanIsOfAll, EachInPassIsCounted, PhasesAreInPasses, TotalsAreSums, RowsAreSum, EachHourHasOneLine, HoursHaveAllRecords, HoursHaveAllMissing, MeanOfHourIsOfAll, GapsHaveAllMissing, LongestGapsAreFirst, OutagesHaveAllTime, LongestOutagesAreFirst, MomentsAreAll, LargestMomentsAreFirst, HoursHaveAllMoments, LargestBurstsAreFirst, RunsHaveAllEpochs, LongestRunsAreFirst, LongestMissingAreFirst};

/// The rises, the returns and the slips of a code are together its digits with bit 0.
pub fn no_bit_is_hidden()
    ensures { CountsHideNothing }
{}

/// Counts and sums stay at the greatest value of 64 bits. Below it each epoch of a code is counted, each
/// strength is in the mean, also in that of an hour, each epoch of a pass is counted, each phase is in a
/// pass, each satellite is in the totals of a code, and each row is in the mean of satellites.
pub fn each_is_counted()
    ensures codes { EachIsCounted }
    ensures means { MeanIsOfAll }
    ensures epochs { EachInPassIsCounted }
    ensures phases { PhasesAreInPasses }
    ensures totals { TotalsAreSums }
    ensures rows { RowsAreSum }
    ensures hours { MeanOfHourIsOfAll }
{}

/// Each record and each missing epoch is in one hour, and an hour that has a record has one line.
pub fn hours_hide_nothing()
    ensures lines { EachHourHasOneLine }
    ensures records { HoursHaveAllRecords }
    ensures missing { HoursHaveAllMissing }
{}

/// Each missing epoch is in a gap, and the gaps come from the longest to the shortest.
pub fn gaps_hide_nothing()
    ensures missing { GapsHaveAllMissing }
    ensures order { LongestGapsAreFirst }
{}

/// Each outage is counted with its time, and each epoch at which at least two satellites slip. The outages come
/// from the longest to the shortest, and these epochs from the one with most such satellites to the one with
/// fewest.
pub fn events_hide_nothing()
    ensures outages { OutagesHaveAllTime }
    ensures longest { LongestOutagesAreFirst }
    ensures moments { MomentsAreAll }
    ensures largest { LargestMomentsAreFirst }
{}

/// Each epoch at which a satellite slips is in one of its hours, and each epoch with a half cycle or without a code in
/// one of the runs. The hours come from the one with most such epochs to the one with fewest, and the runs from the
/// longest to the shortest.
pub fn satellites_hide_nothing()
    ensures hours { HoursHaveAllMoments }
    ensures bursts { LargestBurstsAreFirst }
    ensures epochs { RunsHaveAllEpochs }
    ensures runs { LongestRunsAreFirst }
    ensures missing { LongestMissingAreFirst }
{}
