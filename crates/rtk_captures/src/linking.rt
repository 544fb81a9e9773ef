//! The links of the captures that are converted.

ghost use Rattle.std.specs.Prelude.{◌≡◌, ◌<◌, ◌≤◌, ◌++◌, length, map, IfOk, IfErr, IsOk, OnOk};
ghost use Rattle.rtk_captures.specs.CaptureCauses.{IfRefused, AreTooMany};
ghost use Rattle.rtk_captures.specs.Linking as spec;
ghost use Rattle.rtk_survey.specs.Surveys.{places_of};

use crate::captures::StationCaptures;
use crate::joining::{Ordered, in_order, links_of};
use crate::kept::{is_heard_at, kept_captures};
use crate::refusal::{PlanFault, Refusal, refused};
use crate::station_capture::StationCapture;
use rtk_setup::MOST_LINKS;
use rtk_survey::Placed;
use std::alloc::{AllocError, Global};

// The captures that have something of the station.
fn kept_in_order(
    alloc: Global,
    captures: &[StationCapture],
    ordered: &[Ordered],
) -> Result<Vec<Ordered>, AllocError>
    ensures { IfOk result (λ kept. kept.items ≡ spec.kept_in_order captures.now ordered.now) }
{
    let mut kept = Vec::new(alloc);
    for capture in ordered {
        if is_heard_at(captures, capture.given) {
            kept.push(*capture)?;
        }
    }
    Ok(kept)
}

// The captures of a link, in the order in which they are taken; `numbers` has the link of each.
fn captures_of_link(
    alloc: Global,
    link: usize,
    ordered: &[Ordered],
    numbers: &[usize],
) -> Result<Vec<usize>, AllocError>
    ensures { IfOk result (λ places. places.items ≡ spec.captures_of_link link ordered.now numbers.now) }
{
    let mut places = Vec::new(alloc);
    let count = ordered.len().min(numbers.len());
    for at in 0..count {
        if numbers[at] == link {
            places.push(ordered[at].given)?;
        }
    }
    Ok(places)
}

fn is_nonempty(places: &[usize]) -> bool
    ensures { result ≡ spec.is_nonempty places.now }
{
    !places.is_empty()
}

// The captures of each link. They come in the order in which they are taken.
fn joined_links(alloc: Global, ordered: &[Ordered]) -> Result<Vec<Vec<usize>>, AllocError>
    ensures { IfOk result (λ links. places_of links.items ≡ spec.joined_links ordered.now) }
{
    let numbers = links_of(alloc, ordered)?;
    let mut links = Vec::new(alloc);
    for link in 0..ordered.len() {
        let captures = captures_of_link(alloc, link, ordered, numbers.as_slice())?;
        if is_nonempty(captures.as_slice()) {
            links.push(captures)?;
        }
    }
    Ok(links)
}

// The last capture of a link.
fn last_of(link: &[usize]) -> Option<usize>
    ensures { result ≡ spec.last_of link.now }
{
    link.last().copied()
}

// One place more, if there is one.
fn put_place(places: &mut Vec<usize>, place: Option<usize>) -> Result<(), AllocError>
    ensures { OnOk result (places.new.items ≡ places.old.items ++ spec.place_if_any place) }
{
    if let Some(place) = place {
        places.push(place)?;
    }
    Ok(())
}

// The last capture of each link.
fn last_captures(alloc: Global, links: &[Vec<usize>]) -> Result<Vec<usize>, AllocError>
    ensures { IfOk result (λ places. places.items ≡ spec.last_captures (places_of links.now)) }
{
    let mut places = Vec::new(alloc);
    for link in links {
        put_place(&mut places, last_of(link.as_slice()))?;
    }
    Ok(places)
}

/// The links are refused if there are more than a conversion takes.
pub fn limit_links(
    alloc: Global,
    captured: &StationCaptures<'_, '_, '_>,
    links: &[Vec<usize>],
) -> Result<(), PlanFault>
    ensures few { IsOk result → length links.now ≤ 16 }
    ensures refused { IfErr result (IfRefused (AreTooMany (places_of links.now))) }
{
    if links.len() <= MOST_LINKS {
        return Ok(());
    }
    let places = last_captures(alloc, links)?;
    refused(
        Refusal::TooManyLinks,
        captured.all.list_names(alloc, places.as_slice())?,
    )
}

/// The links, however many: captures that follow one another are joined, and captures of the same time are
/// links.
pub fn links_found(
    alloc: Global,
    captures: &[StationCapture],
    placed: &[Option<Placed>],
) -> Result<Vec<Vec<usize>>, AllocError>
    ensures { IfOk result (λ links. places_of links.items ≡ spec.links_found captures.now placed.now) }
{
    let ordered = in_order(alloc, placed)?;
    let kept = kept_in_order(alloc, captures, ordered.as_slice())?;
    joined_links(alloc, kept.as_slice())
}

// A link for each of some captures.
fn links_of_one(alloc: Global, places: &[usize]) -> Result<Vec<Vec<usize>>, AllocError>
    ensures { IfOk result (λ links. places_of links.items ≡ map spec.one_place places.now) }
{
    let mut links = Vec::new(alloc);
    for place in places {
        links.push(Vec::from_slice(alloc, &[*place])?)?;
    }
    Ok(links)
}

/// Each capture that has something of the station is a link.
pub fn links_as_given(
    alloc: Global,
    captures: &[StationCapture],
) -> Result<Vec<Vec<usize>>, AllocError>
    ensures { IfOk result (λ links. places_of links.items ≡ spec.links_as_given captures.now) }
{
    let places = kept_captures(alloc, captures)?;
    links_of_one(alloc, places.as_slice())
}
