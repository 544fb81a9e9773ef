//! The links of captures of a station: each capture has its place by its epochs, or without one by its clocks.

ghost use Rattle.std.specs.Prelude.{◌≡◌, false, IfOk};
ghost use Rattle.rtk_captures.specs.Dating.{ArePlaced, IsNearOf, IsSpanOf, captures_of};
ghost use Rattle.rtk_plan.specs.LinkPlaces as spec;
ghost use Rattle.rtk_survey.specs.Surveys.{places_of};

use crate::clock_dating::ClockDating;
use crate::clock_reach::{clock_placed, placed_at};
use crate::setup_seconds::seconds_chosen;
use rtk_captures::{Dating, StationCaptures, links_as_given, links_found, reach_with};
use rtk_setup::Reference;
use rtk_survey::{CaptureSurvey, FollowedClock, Placed};
use std::alloc::{AllocError, Global};

// The first and the last message of a capture without an epoch.
fn place_of_clocks(way: &ClockDating, survey: &CaptureSurvey) -> Option<Placed>
    ensures { result ≡ spec.place_of_clocks way.now survey.now }
{
    let none = None;
    let glonass = clock_placed(way, FollowedClock::GlonassWeek, survey, &none);
    let beidou = clock_placed(way, FollowedClock::BeidouWeek, survey, &none);
    let glonass_day = clock_placed(way, FollowedClock::GlonassDay, survey, &none);
    reach_with(reach_with(glonass, beidou), glonass_day)
}

fn place_among_links(
    way: &ClockDating,
    survey: &CaptureSurvey,
    placed: Option<Placed>,
) -> Option<Placed>
    ensures { result ≡ spec.place_among_links way.now survey.now placed }
{
    match placed {
        Some(placed) => Some(placed),
        None => place_of_clocks(way, survey),
    }
}

fn places_among_links(
    alloc: Global,
    way: &ClockDating,
    placed: &[Option<Placed>],
    surveys: &[CaptureSurvey],
) -> Result<Vec<Option<Placed>>, AllocError>
    ensures { IfOk result (λ all. all.items ≡ spec.places_among_links way.now placed.now 0 surveys.now) }
{
    let mut all = Vec::new(alloc);
    for (at, survey) in surveys.iter().enumerate() {
        let own = placed_at(placed, at);
        all.push(place_among_links(way, survey, own))?;
    }
    Ok(all)
}

// The links that follow from the epochs and the clocks.
fn links_by_places(
    alloc: Global,
    captured: &StationCaptures<'_, '_, '_>,
    given: Option<Reference>,
    dating: &Dating,
) -> Result<Vec<Vec<usize>>, AllocError>
    requires captures { captured.now.captures.now ≡ captures_of captured.now.all.surveys.now captured.now.station }
    requires near { IsNearOf given captured.now.captures.now dating.now.near }
    requires placed { ArePlaced given captured.now.captures.now dating.now.placed.items }
    requires span { IsSpanOf given captured.now.captures.now captured.now.station dating.now.span }
    ensures { IfOk result (λ links. spec.AreLinksOf false given captured.now.all.surveys.now captured.now.station (places_of links.items)) }
{
    let seconds = seconds_chosen(&None, dating.near);
    let way = ClockDating::of_station(captured.station, seconds, given, &dating.span);
    let placed = dating.placed.as_slice();
    let places = places_among_links(alloc, &way, placed, captured.all.surveys)?;
    links_found(alloc, captured.captures, places.as_slice())
}

/// The links of the captures of a station, however many.
pub(crate) fn links_of_station(
    alloc: Global,
    captured: &StationCaptures<'_, '_, '_>,
    given: Option<Reference>,
    dating: &Dating,
    as_given: bool,
) -> Result<Vec<Vec<usize>>, AllocError>
    requires captures { captured.now.captures.now ≡ captures_of captured.now.all.surveys.now captured.now.station }
    requires near { IsNearOf given captured.now.captures.now dating.now.near }
    requires placed { ArePlaced given captured.now.captures.now dating.now.placed.items }
    requires span { IsSpanOf given captured.now.captures.now captured.now.station dating.now.span }
    ensures { IfOk result (λ links. spec.AreLinksOf as_given given captured.now.all.surveys.now captured.now.station (places_of links.items)) }
{
    if as_given {
        links_as_given(alloc, captured.captures)
    } else {
        links_by_places(alloc, captured, given, dating)
    }
}
