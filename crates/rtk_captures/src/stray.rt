//! One epoch that lies more than a day after all others.

ghost use Rattle.std.specs.Prelude.{◌≡◌, ◌<◌, ◌^◌, IfOk};
ghost use Rattle.rtk_captures.specs.Stray as spec;

use crate::station_capture::StationCapture;
use rtk_survey::{Placed, Span};
use std::alloc::{AllocError, Global};

const DAY_MS: u64 = 86_400_000;

// The greatest epoch but one of a capture, with its date.
fn placed_next_greatest(span: Span, placed: Placed) -> Option<u64>
    ensures { result ≡ spec.placed_next_greatest span placed }
{
    let next = span.next_greatest?;
    let apart = span.greatest.ms().saturating_sub(next.ms());
    Some(placed.until.saturating_sub(apart))
}

// The greatest epoch of a capture before this moment.
fn greatest_before(until: u64, span: Option<Span>, placed: Option<Placed>) -> Option<u64>
    ensures { result ≡ spec.greatest_before until span placed }
{
    let (Some(span), Some(placed)) = (span, placed) else {
        return None;
    };
    if placed.until < until {
        Some(placed.until)
    } else {
        placed_next_greatest(span, placed)
    }
}

fn greater_of(known: Option<u64>, more: Option<u64>) -> Option<u64>
    ensures { result ≡ spec.greater_of known more }
{
    match (known, more) {
        (Some(known), Some(more)) => Some(known.max(more)),
        (Some(known), None) => Some(known),
        (None, more) => more,
    }
}

// The greatest epoch of all captures before this moment.
fn greatest_of_others(
    captures: &[StationCapture],
    placed: &[Option<Placed>],
    until: u64,
) -> Option<u64>
    ensures { result ≡ spec.greatest_of_others None captures.now placed.now until }
{
    let mut greatest = None;
    let count = captures.len().min(placed.len());
    for at in 0..count {
        let more = greatest_before(until, captures[at].span, placed[at]);
        greatest = greater_of(greatest, more);
    }
    greatest
}

// Is the greatest epoch more than a day after all others?
fn is_stray(until: u64, others: Option<u64>) -> bool
    ensures { result ≡ spec.is_stray until others }
{
    match others {
        Some(others) => others.saturating_add(DAY_MS) < until,
        None => false,
    }
}

fn has_epoch(placed: Option<Placed>, epoch: u64) -> bool
    ensures { result ≡ spec.has_epoch epoch placed }
{
    match placed {
        Some(placed) => placed.until == epoch,
        None => false,
    }
}

// The places of the captures whose last epoch this is.
fn places_of(alloc: Global, placed: &[Option<Placed>], epoch: u64) -> Result<Vec<usize>, AllocError>
    ensures { IfOk result (λ places. places.items ≡ spec.epoch_places 0 epoch placed.now) }
{
    let mut places = Vec::new(alloc);
    for (place, capture) in placed.iter().enumerate() {
        if has_epoch(*capture, epoch) {
            places.push(place)?;
        }
    }
    Ok(places)
}

/// The places of the captures that have the greatest epoch, which is at this moment, if it is more than a day
/// after all others.
pub(crate) fn strays(
    alloc: Global,
    captures: &[StationCapture],
    placed: &[Option<Placed>],
    until: u64,
) -> Result<Vec<usize>, AllocError>
    ensures { IfOk result (λ places. places.items ≡ spec.strays captures.now placed.now until) }
{
    if !is_stray(until, greatest_of_others(captures, placed, until)) {
        return Ok(Vec::new(alloc));
    }
    places_of(alloc, placed, until)
}
