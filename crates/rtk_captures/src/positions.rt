//! Where the captures say that the station is.

ghost use Rattle.std.specs.Prelude.{◌≡◌, ◌++◌, map, true, false, is_some, IfErr, IfOk, IsOk, OnOk};
ghost use Rattle.std.specs.List.{list_any};
ghost use Rattle.rtk_captures.specs.CaptureCauses.{IfRefused};
ghost use Rattle.rtk_captures.specs.Positions as spec;

use crate::captures::StationCaptures;
use crate::position_lines::put_position_line;
use crate::refusal::{PlanFault, Refusal, refused};
use crate::station_capture::StationCapture;
use rtk_survey::{ReferencePoint, are_far};
use std::alloc::{AllocError, Global};

// The reference points of the station in captures: of each the first one, and the first one that is far from it.
fn points_in(
    alloc: Global,
    captures: &[StationCapture],
) -> Result<Vec<Option<ReferencePoint>>, AllocError>
    ensures { IfOk result (λ points. points.items ≡ spec.points_in captures.now) }
{
    let mut points = Vec::new(alloc);
    for capture in captures {
        points.extend_from_slice(&[capture.point, capture.far_point])?;
    }
    Ok(points)
}

// Are two positions, if both are known, more than 100 m apart?
fn are_points_apart(a: Option<ReferencePoint>, b: Option<ReferencePoint>) -> bool
    ensures { result ≡ spec.are_points_apart a b }
{
    match (a, b) {
        (Some(a), Some(b)) => are_far(&a, &b),
        _ => false,
    }
}

// The first position that is far from this one.
fn far_from(point: Option<ReferencePoint>, points: &[Option<ReferencePoint>]) -> Option<usize>
    ensures { is_some result ≡ list_any (spec.are_points_apart point) points.now }
{
    for (place, other) in points.iter().enumerate() {
        if are_points_apart(point, *other) {
            return Some(place);
        }
    }
    None
}

// Two positions that are far from one another.
fn far_points(points: &[Option<ReferencePoint>]) -> Option<(usize, usize)>
    ensures { is_some result ≡ spec.some_apart points.now points.now }
{
    for (place, point) in points.iter().enumerate() {
        if let Some(other) = far_from(*point, points) {
            return Some((place, other));
        }
    }
    None
}

// Appends the position at this place, with the name of its capture, which has two places.
fn put_position(
    lines: &mut Vec<u8>,
    captured: &StationCaptures<'_, '_, '_>,
    points: &[Option<ReferencePoint>],
    place: usize,
) -> Result<(), AllocError> {
    if let Some(Some(point)) = points.get(place) {
        put_position_line(lines, point, captured.all.name(place / 2))?;
    }
    Ok(())
}

// Two positions.
fn list_positions(
    alloc: Global,
    captured: &StationCaptures<'_, '_, '_>,
    points: &[Option<ReferencePoint>],
    apart: (usize, usize),
) -> Result<Vec<u8>, AllocError> {
    let mut lines = Vec::new(alloc);
    put_position(&mut lines, captured, points, apart.0)?;
    put_position(&mut lines, captured, points, apart.1)?;
    Ok(lines)
}

/// The captures are refused if they have reference points of the station that are far from one another.
pub fn agree_on_position(
    alloc: Global,
    captured: &StationCaptures<'_, '_, '_>,
) -> Result<(), PlanFault>
    ensures together { IsOk result → spec.some_are_far captured.now.captures.now ≡ false }
    ensures refused { IfErr result (IfRefused (λ refusal. (refusal ≡ Refusal.PositionsDiffer)
        × (spec.some_are_far captured.now.captures.now ≡ true))) }
{
    let points = points_in(alloc, captured.captures)?;
    match far_points(points.as_slice()) {
        Some(apart) => refused(
            Refusal::PositionsDiffer,
            list_positions(alloc, captured, points.as_slice(), apart)?,
        ),
        None => Ok(()),
    }
}

/// Appends a line if the header has no position.
#[tactic(auto, unfolding(crate::specs::Positions::no_position_line))]
pub fn put_no_position(lines: &mut Vec<u8>, has_position: bool) -> Result<(), AllocError>
    ensures { OnOk result (lines.new.items ≡ lines.old.items ++ spec.no_position_line has_position) }
{
    if has_position {
        return Ok(());
    }
    lines.extend_from_slice(
        b" no-position: the header has zeros, as no 1005 or 1006 came in time, or the first one has zeros\n",
    )
}
