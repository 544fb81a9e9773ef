//! The captures that tell another position than the first one.
//!
//! If memory is refused, a first part of what is put may stand there.

ghost use Rattle.std.specs.Prelude.{◌≡◌, ◌++◌, OnOk};
ghost use Rattle.rtk_captures.specs.OtherPositions as spec;
ghost use Rattle.rtk_survey.specs.Surveys.{places_of};

use crate::captures::Captures;
use crate::lists::put_name_line;
use crate::station_capture::StationCapture;
use rtk_survey::{ReferencePoint, is_other_point};
use std::alloc::AllocError;

// The first position of the capture at a place.
fn position_at(captures: &[StationCapture], place: usize) -> Option<ReferencePoint>
    ensures { result ≡ spec.position_at captures.now place }
{
    match captures.get(place) {
        Some(capture) => capture.point,
        None => None,
    }
}

// The first position that the captures of a link tell.
fn position_of_link(captures: &[StationCapture], link: &[usize]) -> Option<ReferencePoint>
    ensures { result ≡ spec.position_of_link captures.now link.now }
{
    for place in link {
        if let Some(point) = position_at(captures, *place) {
            return Some(point);
        }
    }
    None
}

// The first position that the captures of links tell.
fn position_of_links(captures: &[StationCapture], links: &[Vec<usize>]) -> Option<ReferencePoint>
    ensures { result ≡ spec.position_of_links captures.now (places_of links.now) }
{
    for link in links {
        if let Some(point) = position_of_link(captures, link.as_slice()) {
            return Some(point);
        }
    }
    None
}

// Does a capture tell another position than the first one?
fn tells_other_position(first: Option<ReferencePoint>, capture: &StationCapture) -> bool
    ensures { result ≡ spec.tells_other_position first capture.now }
{
    capture.has_other_point || is_other_point(first, capture.point)
}

#[tactic(auto, unfolding(crate::specs::OtherPositions::other_position_line))]
fn put_other_position_at(
    lines: &mut Vec<u8>,
    first: Option<ReferencePoint>,
    capture: &StationCapture,
    name: &str,
) -> Result<(), AllocError>
    ensures { OnOk result (lines.new.items ≡ lines.old.items ++ spec.other_position_line first capture.now name.now) }
{
    if tells_other_position(first, capture) {
        put_name_line(lines, b" other-position ", name)
    } else {
        Ok(())
    }
}

fn put_all_other_positions(
    lines: &mut Vec<u8>,
    captures: &Captures<'_, '_>,
    told: &[StationCapture],
    first: Option<ReferencePoint>,
) -> Result<(), AllocError>
    ensures { OnOk result (lines.new.items ≡ lines.old.items ++ spec.all_other_positions captures.now.names.now told.now first) }
{
    for (at, capture) in told.iter().enumerate() {
        put_other_position_at(lines, first, capture, captures.name(at))?;
    }
    Ok(())
}

/// Appends the captures that tell another position than the first one that the captures of these links tell.
pub fn put_other_positions(
    lines: &mut Vec<u8>,
    captures: &Captures<'_, '_>,
    told: &[StationCapture],
    links: &[Vec<usize>],
) -> Result<(), AllocError>
    ensures { OnOk result (lines.new.items ≡ lines.old.items
        ++ spec.other_position_lines captures.now.names.now told.now (places_of links.now)) }
{
    let first = position_of_links(told, links);
    put_all_other_positions(lines, captures, told, first)?;
    Ok(())
}
