//! The moment near which a conversion dates that takes 1012.

ghost use Rattle.std.specs.Prelude.{◌≡◌, ◌<◌, ◌≤◌, ◌^◌, Some, None, IfSome, if◌then◌else◌};
ghost use Rattle.rtk_obs.specs.declared.time.TheConstants.{LAST_MS};
ghost use Rattle.rtk_plan.specs.Near1012 as spec;
ghost use Rattle.rtk_captures.specs.Dating.{ArePlaced, IsInReach, IsSpanOf, captures_of};
ghost use Rattle.rtk_plan.specs.Plan.{IsNear1012, near_in_reach, near_with_1012};

use crate::clock_dating::ClockDating;
use crate::clock_reach::clock_placed;
use crate::setup_seconds::seconds_chosen;
use rtk_captures::{DatedSpan, Dating, StationCapture, StationCaptures, are_out_of_reach};
use rtk_obs::{GpsMs, LAST_MS};
use rtk_setup::{LeapSeconds, Reference};
use rtk_survey::{CaptureSurvey, FollowedClock, Placed};

const HALF_DAY_MS: u64 = 43_200_000;

/// The moments near which times of week can be dated: 1980-01-13 00:00:00.000 to 2099-12-31 23:59:59.999.
const FIRST_REFERENCE_MS: u64 = 604_800_000;

const LAST_REFERENCE_MS: u64 = 3_786_479_999_999;

/// The first and the last moment of what is converted, in ms since 1980-01-06 of GPS time.
#[derive(Clone, Copy, Debug, PartialEq, Eq)]
struct Ends {
    from: u64,
    until: u64,
}

// ---- the first and the last moment of what is converted

fn ends_with_moment(ends: Ends, moment: u64) -> Ends
    ensures { result ≡ spec.ends_with_moment ends moment }
{
    Ends {
        from: ends.from.min(moment),
        until: ends.until.max(moment),
    }
}

fn ends_with_placed(ends: Ends, placed: Option<Placed>) -> Ends
    ensures { result ≡ spec.ends_with_placed ends placed }
{
    match placed {
        Some(placed) => ends_with_moment(ends_with_moment(ends, placed.from), placed.until),
        None => ends,
    }
}

// Those of the 1012 and the MSM of GLONASS of a capture too.
fn ends_with_capture(
    way: &ClockDating,
    ends: Ends,
    survey: &CaptureSurvey,
    placed: Option<Placed>,
) -> Ends
    ensures { result ≡ spec.ends_with_capture way.now ends survey.now placed }
{
    let week = clock_placed(way, FollowedClock::GlonassWeek, survey, &placed);
    let day = clock_placed(way, FollowedClock::GlonassDay, survey, &placed);
    ends_with_placed(ends_with_placed(ends, week), day)
}

// Those of captures that are placed so.
fn ends_after(
    way: &ClockDating,
    first: Ends,
    surveys: &[CaptureSurvey],
    placed: &[Option<Placed>],
) -> Ends
    ensures { result ≡ spec.ends_after way.now first surveys.now placed.now }
{
    let mut ends = first;
    let count = surveys.len().min(placed.len());
    for at in 0..count {
        ends = ends_with_capture(way, ends, &surveys[at], placed[at]);
    }
    ends
}

// ---- the moment near which they are dated

fn middle_up(ends: Ends) -> u64
    requires { (ends.from ≤ LAST_MS) × (ends.until ≤ LAST_MS) }
    ensures value { result ≡ spec.middle_up ends }
    ensures bound { result < 2 ^ 61 }
{
    (ends.from + ends.until + 1_999) / 2_000 * 1_000
}

fn middle_down(ends: Ends) -> u64
    requires { (ends.from ≤ LAST_MS) × (ends.until ≤ LAST_MS) }
    ensures value { result ≡ spec.middle_down ends }
    ensures bound { result < 2 ^ 61 }
{
    (ends.from + ends.until) / 2_000 * 1_000
}

fn middle_second(ends: Ends) -> u64
    requires { (ends.from ≤ LAST_MS) × (ends.until ≤ LAST_MS) }
    ensures value { result ≡ spec.middle_second ends }
    ensures bound { result < 2 ^ 61 }
{
    if ends.from + HALF_DAY_MS < middle_up(ends) {
        middle_down(ends)
    } else {
        middle_up(ends)
    }
}

// Do all moments lie within half a day of this one?
fn dates_ends(ends: Ends, near: u64) -> bool
    requires from { ends.from ≤ LAST_MS }
    requires near { near < 2 ^ 61 }
    ensures { result ≡ spec.dates_ends ends near }
{
    near <= ends.from + HALF_DAY_MS && ends.until < near + HALF_DAY_MS
}

// The reference of a moment, if times of week can be dated near it.
fn reference_at(ms: u64) -> Option<Reference>
    ensures { result ≡ (if spec.can_date ms then Some ms else None) }
{
    if !(FIRST_REFERENCE_MS <= ms && ms <= LAST_REFERENCE_MS) {
        return None;
    }
    let Some(moment) = GpsMs::new(ms) else {
        unreachable!();
    };
    let Ok(near) = Reference::new(moment) else {
        unreachable!();
    };
    Some(near)
}

fn near_of_ends(ends: Ends) -> Option<Reference>
    requires { (ends.from ≤ LAST_MS) × (ends.until ≤ LAST_MS) }
    ensures { result ≡ spec.near_of_ends ends }
{
    let middle = middle_second(ends);
    if dates_ends(ends, middle) {
        reference_at(middle)
    } else {
        None
    }
}

// The moment near which a time of day is dated right from the first to the last moment, if there is one.
fn near_between(ends: Ends) -> Option<Reference>
    ensures { result ≡ spec.near_between ends }
{
    if LAST_MS < ends.from || LAST_MS < ends.until {
        return None;
    }
    near_of_ends(ends)
}

// The moment, if a conversion near it dates all epochs of the captures as they are dated here.
fn near_in_reach(
    captures: &[StationCapture],
    placed: &[Option<Placed>],
    near: Option<Reference>,
) -> Option<Reference>
    ensures { result ≡ near_in_reach captures.now placed.now near }
{
    let Some(near) = near else {
        return None;
    };
    if are_out_of_reach(near.moment(), captures, placed) {
        None
    } else {
        Some(near)
    }
}

fn near_with(
    captured: &StationCaptures<'_, '_, '_>,
    way: &ClockDating,
    placed: &[Option<Placed>],
    span: &DatedSpan,
) -> Option<Reference>
    ensures { result ≡ near_with_1012 captured.now.all.surveys.now way.now captured.now.captures.now placed.now span.now.from span.now.until }
{
    let first = Ends {
        from: span.from.ms(),
        until: span.until.ms(),
    };
    let ends = ends_after(way, first, captured.all.surveys, placed);
    near_in_reach(captured.captures, placed, near_between(ends))
}

/// The moment near which the 1012 of captures are dated right with these leap seconds, if there is one.
pub(crate) fn near_of_1012(
    captured: &StationCaptures<'_, '_, '_>,
    given: Option<Reference>,
    dating: &Dating,
    seconds: &Option<LeapSeconds>,
) -> Option<Reference>
    requires captures { captured.now.captures.now ≡ captures_of captured.now.all.surveys.now captured.now.station }
    requires placed { ArePlaced given captured.now.captures.now dating.now.placed.items }
    requires span { IsSpanOf given captured.now.captures.now captured.now.station dating.now.span }
    ensures near { IsNear1012 captured.now.all.surveys.now given captured.now.station seconds.now dating.now.near result }
    ensures in_reach { IfSome result (IsInReach given captured.now.captures.now) }
{
    let chosen = seconds_chosen(seconds, dating.near);
    let way = ClockDating::of_station(captured.station, chosen, given, &dating.span);
    near_with(captured, &way, dating.placed.as_slice(), &dating.span)
}
