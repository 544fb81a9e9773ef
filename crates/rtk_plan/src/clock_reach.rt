//! When the clocks of GLONASS and BeiDou of captures go, which give no epoch.

ghost use Rattle.std.specs.Prelude.{◌≡◌, slice_get, IfOk, IfErr, OnOk, true, false};
ghost use Rattle.std.specs.List.{list_any};
ghost use Rattle.rtk_captures.specs.CaptureCauses.{IfRefused};
ghost use Rattle.rtk_captures.specs.Dating.{ArePlaced, IsNearOf, IsSpanOf, captures_of};
ghost use Rattle.rtk_captures.specs.Reach.{is_far_if_any};
ghost use Rattle.rtk_captures.specs.declared.refusal.Refusal.{Refusal};
ghost use Rattle.rtk_plan.specs.ClockReach as spec;
ghost use Rattle.rtk_plan.specs.Plan.{HaveFarClocks};

use crate::clock_dating::{ClockDating, placed_if_followed};
use crate::setup_seconds::seconds_chosen;
use rtk_captures::{Dating, PlanFault, Refusal, StationCaptures, capture_of, reach_with, refused};
use rtk_message::System;
use rtk_obs::GpsMs;
use rtk_setup::{LeapSeconds, Reference, Setup};
use rtk_survey::{
    CaptureSurvey, ClockMarks, ClockSpan, FollowedClock, Placed, StationClocks, TargetSurvey,
    clocks_by_station, is_dated_near, marks_if_known,
};
use std::alloc::{AllocError, Global};

/// Which clocks are converted.
#[derive(Clone, Copy, Debug, PartialEq, Eq)]
pub struct TakenClocks {
    pub glonass: bool,
    pub beidou: bool,
    /// That of 1012, which tell no day.
    pub glonass_day: bool,
}

// ---- the clocks of a station

fn clocks_for(station: u16, target: &Option<TargetSurvey>) -> StationClocks
    ensures { result ≡ spec.clocks_for station target.now }
{
    match target {
        Some(target) => {
            let marks = marks_if_known(target.present, &target.dates, station);
            clocks_by_station(&target.clocks, station).settled(&marks)
        }
        None => StationClocks::new(),
    }
}

/// How far the clocks of a station go in a capture.
pub(crate) fn clocks_in_survey(station: u16, survey: &CaptureSurvey) -> StationClocks
    ensures { result ≡ spec.clocks_in_survey station survey.now }
{
    clocks_for(station, &survey.contents.target)
}

fn marks_for(station: u16, target: &Option<TargetSurvey>) -> Option<ClockMarks>
    ensures { result ≡ spec.marks_for station target.now }
{
    match target {
        Some(target) => marks_if_known(target.present, &target.dates, station),
        None => None,
    }
}

// The epochs of a station in a capture, or if it has none the dates that the station names.
fn marks_in_survey(station: u16, survey: &CaptureSurvey) -> Option<ClockMarks>
    ensures { result ≡ spec.marks_in_survey station survey.now }
{
    marks_for(station, &survey.contents.target)
}

fn span_of_clock(clock: FollowedClock, clocks: &StationClocks) -> Option<ClockSpan>
    ensures { result ≡ spec.span_of_clock clock clocks.now }
{
    match clock {
        FollowedClock::GlonassWeek => clocks.glonass,
        FollowedClock::BeidouWeek => clocks.beidou,
        FollowedClock::GlonassDay => clocks.glonass_day,
    }
}

/// The first and the last moment of a clock in a capture whose epochs are dated so; `None` if it has no message of the
/// clock with a value.
#[tactic(auto, unfolding(crate::specs::ClockReach::clock_placed))]
pub(crate) fn clock_placed(
    way: &ClockDating,
    clock: FollowedClock,
    survey: &CaptureSurvey,
    placed: &Option<Placed>,
) -> Option<Placed>
    ensures { result ≡ spec.clock_placed way.now clock survey.now placed.now }
{
    let capture = capture_of(way.station, survey);
    let clocks = clocks_in_survey(way.station, survey);
    let known = span_of_clock(clock, &clocks);
    let marks = marks_in_survey(way.station, survey);
    placed_if_followed(way, clock, &capture, &marks, placed, &known)
}

// ---- all captures

fn placed_if_taken(is_taken: bool, placed: Option<Placed>) -> Option<Placed>
    ensures { result ≡ spec.placed_if_taken is_taken placed }
{
    if is_taken { placed } else { None }
}

// The epochs of a capture, and the clocks of it that are taken.
fn placed_with_clocks(
    way: &ClockDating,
    taken: TakenClocks,
    survey: &CaptureSurvey,
    placed: &Option<Placed>,
) -> Option<Placed>
    ensures { result ≡ spec.placed_with_clocks way.now taken survey.now placed.now }
{
    let glonass = clock_placed(way, FollowedClock::GlonassWeek, survey, placed);
    let beidou = clock_placed(way, FollowedClock::BeidouWeek, survey, placed);
    let with_glonass = reach_with(*placed, placed_if_taken(taken.glonass, glonass));
    reach_with(with_glonass, placed_if_taken(taken.beidou, beidou))
}

/// The epochs of the capture at a place.
pub(crate) fn placed_at(placed: &[Option<Placed>], at: usize) -> Option<Placed>
    ensures { result ≡ spec.placed_or_none (slice_get placed.now at) }
{
    match placed.get(at) {
        Some(placed) => *placed,
        None => None,
    }
}

fn all_with_clocks(
    alloc: Global,
    way: &ClockDating,
    taken: TakenClocks,
    placed: &[Option<Placed>],
    surveys: &[CaptureSurvey],
) -> Result<Vec<Option<Placed>>, AllocError>
    ensures { IfOk result (λ all. all.items ≡ spec.all_with_clocks way.now taken placed.now 0 surveys.now) }
{
    let mut all = Vec::new(alloc);
    for (at, survey) in surveys.iter().enumerate() {
        let own = placed_at(placed, at);
        all.push(placed_with_clocks(way, taken, survey, &own))?;
    }
    Ok(all)
}

fn is_far(near: GpsMs, placed: &Option<Placed>) -> bool
    ensures { result ≡ is_far_if_any near placed.now }
{
    match placed {
        Some(placed) => !is_dated_near(near, placed),
        None => false,
    }
}

fn is_one_far(near: GpsMs, placed: &[Option<Placed>]) -> bool
    ensures { result ≡ list_any (is_far_if_any near) placed.now }
{
    placed.iter().any(|placed| is_far(near, placed))
}

/// The clocks that a setup converts.
pub(crate) fn clocks_taken(setup: &Setup) -> TakenClocks
    ensures { result ≡ spec.clocks_taken setup.now }
{
    TakenClocks {
        glonass: setup.lists(System::Glonass),
        beidou: setup.lists(System::Beidou),
        glonass_day: setup.takes_1012(),
    }
}

// Does a conversion near this moment date all epochs and these clocks as they are dated here?
fn demand_near(
    alloc: Global,
    captured: &StationCaptures<'_, '_, '_>,
    way: &ClockDating,
    taken: TakenClocks,
    near: GpsMs,
    placed: &[Option<Placed>],
) -> Result<(), PlanFault>
    ensures near { OnOk result (spec.has_far_clock way.now taken near placed.now captured.now.all.surveys.now ≡ false) }
    ensures refused { IfErr result (IfRefused (λ refusal. (refusal ≡ Refusal.TooLong)
        × (spec.has_far_clock way.now taken near placed.now captured.now.all.surveys.now ≡ true))) }
{
    let all = all_with_clocks(alloc, way, taken, placed, captured.all.surveys)?;
    if is_one_far(near, all.as_slice()) {
        let reaches = captured.list_reaches(alloc, all.as_slice())?;
        return refused(Refusal::TooLong, reaches);
    }
    Ok(())
}

/// Does the conversion date the clocks of its systems as they are dated here: near the epochs, and in captures without an epoch
/// near what these name, or in the middle of the epochs?
pub(crate) fn demand_near_clocks(
    alloc: Global,
    captured: &StationCaptures<'_, '_, '_>,
    given: Option<Reference>,
    dating: &Dating,
    seconds: &Option<LeapSeconds>,
    setup: &Setup,
) -> Result<(), PlanFault>
    requires captures { captured.now.captures.now ≡ captures_of captured.now.all.surveys.now captured.now.station }
    requires near { IsNearOf given captured.now.captures.now dating.now.near }
    requires placed { ArePlaced given captured.now.captures.now dating.now.placed.items }
    requires span { IsSpanOf given captured.now.captures.now captured.now.station dating.now.span }
    requires seconds { setup.now.leap_seconds ≡ seconds.now }
    ensures near { OnOk result (HaveFarClocks captured.now.all.surveys.now given captured.now.station setup.now false) }
    ensures refused { IfErr result (IfRefused (λ refusal. (refusal ≡ Refusal.TooLong)
        × HaveFarClocks captured.now.all.surveys.now given captured.now.station setup.now true)) }
{
    let chosen = seconds_chosen(seconds, dating.near);
    let way = ClockDating::of_station(captured.station, chosen, given, &dating.span);
    let taken = clocks_taken(setup);
    demand_near(
        alloc,
        captured,
        &way,
        taken,
        setup.near(),
        dating.placed.as_slice(),
    )
}
