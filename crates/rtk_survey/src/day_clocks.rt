//! The 1012 of a station beside its MSM of GLONASS, which are of one clock.
//!
//! A 1012 tells no day, so it has its day by an epoch, an MSM or a 1012 before it, or by an epoch or an MSM right behind it.

ghost use Rattle.std.specs.Prelude.{◌≡◌};
ghost use Rattle.rtk_survey.specs.DayClocks as spec;

use crate::clock_marks::{ClockMarks, opened_moment};
use crate::clock_spans::{
    ClockSpan, FollowedClock, FollowedSpan, are_dates_if_any, clock_begun, clock_moment,
    clock_with, is_new_mark, last_mark_of, moment_or, opened_if_any, span_at, with_moment_near,
};
use rtk_obs::{GpsMs, WEEK_MS};

// ---- behind MSM of GLONASS

// The moment near which a message behind the last MSM of GLONASS is dated.
fn week_base(marks: &Option<ClockMarks>, week: &ClockSpan) -> GpsMs
    ensures { result ≡ spec.week_base marks.now week.now }
{
    let opened = week.opened();
    let anchored = opened.anchored_if_any(FollowedClock::GlonassWeek, marks);
    anchored.base(marks)
}

// The first 1012, near this moment, of which an MSM told the day.
fn day_begun_near(marks: &Option<ClockMarks>, near: GpsMs, time: u32) -> FollowedSpan
    ensures { result ≡ spec.day_begun_near marks.now near time }
{
    let ms = clock_moment(FollowedClock::GlonassDay, near, time);
    FollowedSpan {
        span: span_at(moment_or(ms, near)),
        mark: last_mark_of(marks),
        by_dates: are_dates_if_any(marks),
        beside: None,
        has_day: true,
    }
}

fn day_begun(marks: &Option<ClockMarks>, week: &Option<ClockSpan>, time: u32) -> FollowedSpan
    ensures { result ≡ spec.day_begun marks.now week.now time }
{
    match week {
        Some(week) => day_begun_near(marks, week_base(marks, week), time),
        None => clock_begun(FollowedClock::GlonassDay, marks, time),
    }
}

/// A 1012 more, behind these MSM.
pub(crate) fn day_followed(
    marks: &Option<ClockMarks>,
    week: &Option<ClockSpan>,
    known: &Option<ClockSpan>,
    time: u32,
) -> ClockSpan
    ensures { result ≡ spec.day_followed marks.now week.now known.now time }
{
    match known {
        Some(known) => clock_with(FollowedClock::GlonassDay, marks, known, time).kept(),
        None => day_begun(marks, week, time).kept(),
    }
}

// 1012 that neither an epoch, nor a date, nor an MSM dates: the last of them near the first MSM.
fn day_told_at(marks: &Option<ClockMarks>, msm: GpsMs, known: &FollowedSpan) -> FollowedSpan
    ensures { result ≡ spec.day_told_at marks.now msm known.now }
{
    match marks {
        None if !known.has_day => known.moved_near(FollowedClock::GlonassDay, msm, false),
        _ => *known,
    }
}

// 1012 before an MSM, which is the last message now, and tells their day.
fn day_beside(marks: &Option<ClockMarks>, msm: GpsMs, known: &FollowedSpan) -> FollowedSpan
    ensures { result ≡ spec.day_beside marks.now msm known.now }
{
    let told = day_told_at(marks, msm, known);
    FollowedSpan {
        span: told.span,
        mark: last_mark_of(marks),
        by_dates: are_dates_if_any(marks),
        beside: Some(msm),
        has_day: true,
    }
}

fn day_with_msm(marks: &Option<ClockMarks>, week: &ClockSpan, known: &ClockSpan) -> FollowedSpan
    ensures { result ≡ spec.day_with_msm marks.now week.now known.now }
{
    let opened = known.opened();
    let anchored = opened.anchored_if_any(FollowedClock::GlonassDay, marks);
    day_beside(marks, opened_moment(week.last), &anchored)
}

/// The 1012 after an MSM more, which are the last of these.
pub(crate) fn day_after_msm(
    marks: &Option<ClockMarks>,
    week: &ClockSpan,
    known: &Option<ClockSpan>,
) -> Option<ClockSpan>
    ensures { result ≡ spec.day_after_msm marks.now week.now known.now }
{
    match known {
        Some(known) => Some(day_with_msm(marks, week, known).kept()),
        None => None,
    }
}

// ---- before an epoch or an MSM

// How far two moments are apart.
fn apart_by(one: u64, other: u64) -> u64
    ensures { result ≡ spec.apart_by one other }
{
    if one < other {
        other - one
    } else {
        one - other
    }
}

fn mark_if_new(before: Option<GpsMs>, mark: Option<GpsMs>, other: GpsMs) -> GpsMs
    ensures { result ≡ spec.mark_if_new before mark other }
{
    match mark {
        Some(mark) if is_new_mark(before, mark) => mark,
        _ => other,
    }
}

// What dates the last 1012, behind those before it.
fn base_of_last(before: &FollowedSpan, known: &FollowedSpan) -> GpsMs
    ensures { result ≡ spec.base_of_last before.now known.now }
{
    mark_if_new(before.mark, known.mark, before.last_message())
}

// The last 1012 near another moment.
fn last_near(near: GpsMs, known: &FollowedSpan) -> u64
    ensures { result ≡ spec.last_near near known.now }
{
    let time = (known.span.last.ms() % WEEK_MS) as u32;
    clock_moment(FollowedClock::GlonassDay, near, time)
}

// 1012, of which the last one is at this moment, behind those before it.
fn with_last_at(ms: u64, before: &FollowedSpan, known: &FollowedSpan) -> FollowedSpan
    ensures { result ≡ spec.with_last_at ms before.now known.now }
{
    FollowedSpan {
        span: with_moment_near(&before.span, ms),
        mark: known.mark,
        by_dates: known.by_dates,
        beside: None,
        has_day: known.has_day,
    }
}

// Does the last 1012 seem to come before what dates it, by more than it is from a moment behind it in the time of day?
fn is_early(near: GpsMs, base: GpsMs, known: &FollowedSpan) -> bool
    ensures { result ≡ spec.is_early near base known.now }
{
    let last = known.span.last.ms();
    apart_by(near.ms(), last_near(near, known)) < base.ms().saturating_sub(last)
}

// The last 1012 near such a moment behind it.
fn last_redated(near: GpsMs, before: &FollowedSpan, known: &FollowedSpan) -> FollowedSpan
    ensures { result ≡ spec.last_redated near before.now known.now }
{
    if is_early(near, base_of_last(before, known), known) {
        with_last_at(last_near(near, known), before, known)
    } else {
        *known
    }
}

// Do moments stand beside these epochs or dates, or if none came beside MSM of GLONASS?
fn is_marked_so(marks: &Option<ClockMarks>, known: &FollowedSpan) -> bool
    ensures { result ≡ spec.is_marked_so marks.now known.now }
{
    match marks {
        Some(marks) => known.is_marked_by(marks),
        None => known.has_day,
    }
}

// Are all of them followed, and do they stand beside the same as what comes behind them?
fn can_redate(marks: &Option<ClockMarks>, known: &FollowedSpan) -> bool
    ensures { result ≡ spec.can_redate marks.now known.now }
{
    is_marked_so(marks, known) && !known.span.is_wide
}

fn redated_span(
    marks: &Option<ClockMarks>,
    near: GpsMs,
    before: &ClockSpan,
    known: &ClockSpan,
) -> ClockSpan
    ensures { result ≡ spec.redated_span marks.now near before.now known.now }
{
    let opened = known.opened();
    if can_redate(marks, &opened) {
        last_redated(near, &before.opened(), &opened).kept()
    } else {
        *known
    }
}

// 1012 with those before the last one, before a message at this moment.
fn redated_near(
    marks: &Option<ClockMarks>,
    near: GpsMs,
    before: &Option<ClockSpan>,
    known: &ClockSpan,
) -> ClockSpan
    ensures { result ≡ spec.redated_near marks.now near before.now known.now }
{
    match before {
        Some(before) => redated_span(marks, near, before, known),
        None => *known,
    }
}

/// 1012, if there are some, with those before the last one, before a message at this moment.
pub(crate) fn redated_near_if_any(
    marks: &Option<ClockMarks>,
    near: GpsMs,
    before: &Option<ClockSpan>,
    known: &Option<ClockSpan>,
) -> Option<ClockSpan>
    ensures { result ≡ spec.redated_near_if_any marks.now near before.now known.now }
{
    match known {
        Some(known) => Some(redated_near(marks, near, before, known)),
        None => None,
    }
}

// 1012 with those before the last one, before the last epoch or date if it came behind them.
fn redated_by_mark(
    marks: &Option<ClockMarks>,
    before: &Option<ClockSpan>,
    known: &ClockSpan,
) -> ClockSpan
    ensures { result ≡ spec.redated_by_mark marks.now before.now known.now }
{
    match marks {
        Some(last) if is_new_mark(opened_if_any(known.mark), last.last) => {
            redated_near(marks, last.last, before, known)
        }
        _ => *known,
    }
}

// The 1012 so far, beside these epochs or dates.
fn day_beside_marks(
    marks: &Option<ClockMarks>,
    before: &Option<ClockSpan>,
    known: &ClockSpan,
) -> ClockSpan
    ensures { result ≡ spec.day_beside_marks marks.now before.now known.now }
{
    let opened = redated_by_mark(marks, before, known).opened();
    opened
        .anchored_if_any(FollowedClock::GlonassDay, marks)
        .kept()
}

/// The 1012 so far, if there are some, beside these epochs or dates.
pub(crate) fn day_so_far(
    marks: &Option<ClockMarks>,
    before: &Option<ClockSpan>,
    known: &Option<ClockSpan>,
) -> Option<ClockSpan>
    ensures { result ≡ spec.day_so_far marks.now before.now known.now }
{
    match known {
        Some(known) => Some(day_beside_marks(marks, before, known)),
        None => None,
    }
}
