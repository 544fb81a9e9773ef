//! What a conversion of captures is told, from what they tell and what words say.

ghost use Rattle.std.specs.Prelude.{◌≡◌, ◌<◌, ◌≤◌, None, Some, [], true, false, length, IfOk, IfErr, IsOk};
ghost use Rattle.std.specs.List.{list_any};
ghost use Rattle.rtk_captures.specs.CaptureCauses.{IfRefused, IsStationCause, IsEmptyCause};
ghost use Rattle.rtk_plan.specs.Causes.{IsCaptureCause, IsCauseOf, has_frames};
ghost use Rattle.rtk_captures.specs.Kept.{empty_captures};
ghost use Rattle.rtk_survey.specs.Surveys.{places_of};
ghost use Rattle.rtk_plan.specs.LinkPlaces.{AreLinksOf};
ghost use Rattle.rtk_captures.specs.Positions.{some_are_far};
ghost use Rattle.rtk_plan.specs.Plan.{IsChosenStation, AreSecondsCompared, HasNear1012, HaveFarClocks, IsSetupFor, seconds_are_found, systems_asked, taken_messages};
ghost use Rattle.rtk_captures.specs.Dating.{captures_of, AreStrays, IsSpanOf, IsInReach};
ghost use Rattle.rtk_systems.specs.SlotChannels.{AreOwnChannels};

use crate::clock_reach::demand_near_clocks;
use crate::link_places::links_of_station;
use crate::near_1012::near_of_1012;
use crate::setup_seconds::{seconds_are_found, seconds_compared, seconds_of_setup};
use crate::station_setup::{own_channels_in, setup_near, systems_asked};
use crate::wanted::Wanted;
use rtk_captures::{
    Captures, DatedSpan, OnlyStation, PlanFault, Refusal, StationCapture, StationCaptures,
    agree_on_position, captures_of, date_captures, empty_captures, is_observed, limit_links,
    only_station, refused,
};
use rtk_obs::Channels;
use rtk_rinex::{CreationTime, SystemFlags};
use rtk_setup::{Setup, Station};
use rtk_survey::CaptureSurvey;
use rtk_systems::{ClockSeconds, list_held};
use std::alloc::{AllocError, Global};

/// What a conversion of captures is told.
#[derive(Drop)]
pub struct Plan {
    pub setup: Setup,
    /// The epochs of the station.
    pub span: DatedSpan,
    /// The captures of each link, in order, by their places as they were given.
    pub links: Vec<Vec<usize>>,
    /// The places of the captures that are left out.
    pub skipped: Vec<usize>,
    /// The places of the captures whose last epoch is more than a day after all others: it is the last one.
    pub strays: Vec<usize>,
    /// What each capture tells of the station.
    pub captures: Vec<StationCapture>,
    /// The systems that are asked for.
    pub asked: SystemFlags,
    /// The leap seconds by which clocks of GLONASS are compared with those of GPS.
    pub leap_seconds: ClockSeconds,
    /// The leap seconds of the setup were found by the clocks of GLONASS.
    pub are_seconds_found: bool,
    /// The channels of slots of GLONASS that messages of the station tell.
    pub own_channels: Channels,
    /// Is there a moment near which 1012 are dated right? They tell no day, so the epochs have to lie within a day.
    pub has_near_1012: bool,
}

// The plan of a station, but for what its captures tell.
#[derive(Drop)]
struct Planned {
    setup: Setup,
    span: DatedSpan,
    links: Vec<Vec<usize>>,
    skipped: Vec<usize>,
    strays: Vec<usize>,
    leap_seconds: ClockSeconds,
    has_near_1012: bool,
}

// The station that is named, if it has observations.
fn named_station(
    alloc: Global,
    captures: &Captures<'_, '_>,
    station: Station,
) -> Result<u16, PlanFault>
    ensures chosen { IfOk result (IsChosenStation captures.now.surveys.now (Some station)) }
    ensures bound { IfOk result (λ n. n < 4096) }
    ensures refused { IfErr result (IfRefused (IsStationCause captures.now.surveys.now (Some station))) }
{
    let station = station.number();
    if is_observed(captures.surveys, station) {
        return Ok(station);
    }
    match only_station(captures.surveys) {
        OnlyStation::None => {
            refused(Refusal::NoObservation, list_held(alloc, captures.surveys)?)
        }
        _ => refused(
            Refusal::NoStation { station },
            captures.list_stations(alloc)?,
        ),
    }
}

// The station that is converted.
fn station_to_convert(
    alloc: Global,
    captures: &Captures<'_, '_>,
    named: Option<Station>,
) -> Result<u16, PlanFault>
    ensures chosen { IfOk result (IsChosenStation captures.now.surveys.now named) }
    ensures bound { IfOk result (λ n. n < 4096) }
    ensures refused { IfErr result (IfRefused (IsStationCause captures.now.surveys.now named)) }
{
    if let Some(station) = named {
        return named_station(alloc, captures, station);
    }
    match only_station(captures.surveys) {
        OnlyStation::One(station) => Ok(station),
        OnlyStation::Several => {
            refused(Refusal::SeveralStations, captures.list_stations(alloc)?)
        }
        OnlyStation::None => {
            refused(Refusal::NoObservation, list_held(alloc, captures.surveys)?)
        }
    }
}

// The captures that have nothing of the station; there may be none, unless they are to be left out.
fn captures_to_skip(
    alloc: Global,
    captured: &StationCaptures<'_, '_, '_>,
    skip_empty: bool,
) -> Result<Vec<usize>, PlanFault>
    ensures skipped { IfOk result (λ places. places.items ≡ empty_captures captured.now.captures.now) }
    ensures none { IfOk result (λ places. skip_empty ≡ false → places.items ≡ []) }
    ensures refused { IfErr result (IfRefused (IsEmptyCause captured.now.station captured.now.captures.now skip_empty)) }
{
    let empty = empty_captures(alloc, captured.captures)?;
    if !skip_empty && !empty.is_empty() {
        let station = captured.station;
        return refused(Refusal::Empty { station }, captured.list_empty(alloc)?);
    }
    Ok(empty)
}

// The captures agree on the position of the station, unless they are taken as they are given.
fn agree_unless(
    alloc: Global,
    captured: &StationCaptures<'_, '_, '_>,
    as_given: bool,
) -> Result<(), PlanFault>
    ensures one_position { IsOk result → as_given ≡ false → some_are_far captured.now.captures.now ≡ false }
    ensures refused { IfErr result (IfRefused (λ refusal. (refusal ≡ Refusal.PositionsDiffer) × (as_given ≡ false)
        × (some_are_far captured.now.captures.now ≡ true))) }
{
    if as_given {
        return Ok(());
    }
    agree_on_position(alloc, captured)
}

fn have_frames(surveys: &[CaptureSurvey]) -> bool
    ensures { result ≡ list_any has_frames surveys.now }
{
    surveys.iter().any(|survey| survey.contents.frames != 0)
}

// What a conversion of a station is told, or why its captures have no plan.
fn plan_of_station(
    alloc: Global,
    captured: &StationCaptures<'_, '_, '_>,
    wanted: &Wanted,
    made: CreationTime,
    skip_empty: bool,
    as_given: bool,
) -> Result<Planned, PlanFault>
    requires bound { captured.now.station < 4096 }
    requires chosen { IsChosenStation captured.now.all.surveys.now wanted.now.station captured.now.station }
    requires captures { captured.now.captures.now ≡ captures_of captured.now.all.surveys.now captured.now.station }
    ensures setup { IfOk result (λ plan. IsSetupFor captured.now.all.surveys.now (places_of plan.links.items) wanted.now made plan.setup) }
    ensures station { IfOk result (λ plan. plan.setup.station ≡ captured.now.station) }
    ensures in_reach { IfOk result (λ plan. IsInReach wanted.now.near captured.now.captures.now plan.setup.near) }
    ensures links { IfOk result (λ plan. AreLinksOf as_given wanted.now.near captured.now.all.surveys.now captured.now.station (places_of plan.links.items)) }
    ensures few_links { IfOk result (λ plan. length plan.links.items ≤ 16) }
    ensures one_position { as_given ≡ false → IfOk result (λ plan. some_are_far captured.now.captures.now ≡ false) }
    ensures skipped { IfOk result (λ plan. plan.skipped.items ≡ empty_captures captured.now.captures.now) }
    ensures none_skipped { IfOk result (λ plan. skip_empty ≡ false → plan.skipped.items ≡ []) }
    ensures strays { IfOk result (λ plan. AreStrays wanted.now.near captured.now.captures.now plan.strays.items) }
    ensures span { IfOk result (λ plan. IsSpanOf wanted.now.near captured.now.captures.now captured.now.station plan.span) }
    ensures leap_seconds { IfOk result (λ plan. AreSecondsCompared wanted.now.near captured.now.captures.now plan.setup.leap_seconds plan.leap_seconds) }
    ensures has_near_1012 { IfOk result (λ plan. HasNear1012 captured.now.all.surveys.now wanted.now.near captured.now.station plan.setup.leap_seconds plan.has_near_1012) }
    ensures clocks { IfOk result (λ plan. HaveFarClocks captured.now.all.surveys.now wanted.now.near captured.now.station plan.setup false) }
    ensures refused { IfErr result (IfRefused (IsCaptureCause captured.now.all.surveys.now wanted.now skip_empty as_given
        captured.now.station captured.now.captures.now)) }
{
    let surveys = captured.all.surveys;
    let skipped = captures_to_skip(alloc, captured, skip_empty)?;
    let dating = date_captures(alloc, captured, wanted.near)?;
    let links = links_of_station(alloc, captured, wanted.near, &dating, as_given)?;
    let (station, near, span) = (captured.station, dating.near, &dating.span);
    let seconds = seconds_of_setup(alloc, surveys, station, wanted, near, span)?;
    let other = near_of_1012(captured, wanted.near, &dating, &seconds);
    let setup = setup_near(
        alloc,
        surveys,
        links.as_slice(),
        wanted,
        made,
        station,
        near,
        &seconds,
        &other,
    )?;
    demand_near_clocks(alloc, captured, wanted.near, &dating, &seconds, &setup)?;
    limit_links(alloc, captured, links.as_slice())?;
    agree_unless(alloc, captured, as_given)?;
    Ok(Planned {
        setup,
        span: dating.span,
        links,
        skipped,
        strays: dating.strays,
        leap_seconds: seconds_compared(&seconds, near),
        has_near_1012: other.is_some(),
    })
}

/// What a conversion of the captures that were read is told, or why they have no plan: the first cause
/// that holds. Its file is made at this moment.
pub fn plan_of(
    alloc: Global,
    captures: &Captures<'_, '_>,
    wanted: &Wanted,
    made: CreationTime,
    skip_empty: bool,
    as_given: bool,
) -> Result<Plan, PlanFault>
    // What a plan has.
    ensures setup { IfOk result (λ plan. IsSetupFor captures.now.surveys.now (places_of plan.links.items) wanted.now made plan.setup) }
    ensures captures { IfOk result (λ plan. plan.captures.items ≡ captures_of captures.now.surveys.now plan.setup.station) }
    ensures asked { IfOk result (λ plan. plan.asked ≡ systems_asked wanted.now.codes wanted.now.systems plan.setup.head.listed) }
    ensures own_channels { IfOk result (λ plan. AreOwnChannels captures.now.surveys.now plan.setup.station (taken_messages plan.setup) plan.own_channels) }
    ensures leap_seconds { IfOk result (λ plan. AreSecondsCompared wanted.now.near plan.captures.items plan.setup.leap_seconds plan.leap_seconds) }
    ensures seconds_found { IfOk result (λ plan. plan.are_seconds_found ≡ seconds_are_found wanted.now.leap_seconds plan.setup.leap_seconds) }
    ensures has_near_1012 { IfOk result (λ plan. HasNear1012 captures.now.surveys.now wanted.now.near plan.setup.station plan.setup.leap_seconds plan.has_near_1012) }
    ensures clocks { IfOk result (λ plan. HaveFarClocks captures.now.surveys.now wanted.now.near plan.setup.station plan.setup false) }
    ensures in_reach { IfOk result (λ plan. IsInReach wanted.now.near plan.captures.items plan.setup.near) }
    ensures links { IfOk result (λ plan. AreLinksOf as_given wanted.now.near captures.now.surveys.now plan.setup.station (places_of plan.links.items)) }
    ensures few_links { IfOk result (λ plan. length plan.links.items ≤ 16) }
    ensures one_position { as_given ≡ false → IfOk result (λ plan. some_are_far plan.captures.items ≡ false) }
    ensures skipped { IfOk result (λ plan. plan.skipped.items ≡ empty_captures plan.captures.items) }
    ensures none_skipped { IfOk result (λ plan. skip_empty ≡ false → plan.skipped.items ≡ []) }
    ensures strays { IfOk result (λ plan. AreStrays wanted.now.near plan.captures.items plan.strays.items) }
    ensures span { IfOk result (λ plan. IsSpanOf wanted.now.near plan.captures.items plan.setup.station plan.span) }

    // A refusal comes only with its cause.
    ensures refused { IfErr result (IfRefused (IsCauseOf captures.now.surveys.now wanted.now skip_empty as_given)) }
{
    if !have_frames(captures.surveys) {
        return refused(Refusal::NoFrame, captures.list_all(alloc)?);
    }
    let station = station_to_convert(alloc, captures, wanted.station)?;
    let of_station = captures_of(alloc, station, captures.surveys)?;
    let captured = StationCaptures {
        all: *captures,
        station,
        captures: of_station.as_slice(),
    };
    let plan = plan_of_station(alloc, &captured, wanted, made, skip_empty, as_given)?;
    let asked = systems_asked(wanted, &plan.setup);
    let are_seconds_found = seconds_are_found(wanted, &plan.setup);
    let own_channels = own_channels_in(captures.surveys, &plan.setup);
    Ok(Plan {
        setup: plan.setup,
        span: plan.span,
        links: plan.links,
        skipped: plan.skipped,
        strays: plan.strays,
        captures: of_station,
        asked,
        leap_seconds: plan.leap_seconds,
        are_seconds_found,
        own_channels,
        has_near_1012: plan.has_near_1012,
    })
}
