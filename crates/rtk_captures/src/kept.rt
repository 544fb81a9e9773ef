//! Which captures are converted.

ghost use Rattle.std.specs.Prelude.{◌≡◌, IfOk};
ghost use Rattle.rtk_captures.specs.Kept as spec;

use crate::station_capture::StationCapture;
use std::alloc::{AllocError, Global};

/// Has the capture at this place something of the station?
pub(crate) fn is_heard_at(captures: &[StationCapture], place: usize) -> bool
    ensures { result ≡ spec.is_heard_at captures.now place }
{
    match captures.get(place) {
        Some(capture) => capture.is_heard,
        None => false,
    }
}

/// The places of the captures that have something of the station.
pub(crate) fn kept_captures(
    alloc: Global,
    captures: &[StationCapture],
) -> Result<Vec<usize>, AllocError>
    ensures { IfOk result (λ places. places.items ≡ spec.kept_captures captures.now) }
{
    let mut places = Vec::new(alloc);
    for (place, capture) in captures.iter().enumerate() {
        if capture.is_heard {
            places.push(place)?;
        }
    }
    Ok(places)
}

/// The places of the captures that have nothing of the station. Such a capture tells no date and no
/// epoch either.
pub fn empty_captures(alloc: Global, captures: &[StationCapture]) -> Result<Vec<usize>, AllocError>
    ensures { IfOk result (λ places. places.items ≡ spec.empty_captures captures.now) }
{
    let mut places = Vec::new(alloc);
    for (place, capture) in captures.iter().enumerate() {
        if !capture.is_heard {
            places.push(place)?;
        }
    }
    Ok(places)
}
