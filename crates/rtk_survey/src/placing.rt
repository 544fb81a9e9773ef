//! The dates of a capture of one station: if none of its messages tells one, it is dated near the others.

ghost use Rattle.std.specs.Prelude.{◌≡◌, ◌^◌, ◌<◌};
ghost use Rattle.rtk_survey.specs.Placing as spec;

use crate::span::Span;
use crate::telling::dated;
use rtk_obs::{GpsMs, HALF_WEEK_MS, WEEK_MS};

/// The epochs of a capture, with its first epoch if that is told.
#[derive(Clone, Copy, Debug, PartialEq, Eq)]
pub struct CaptureEpochs {
    pub told: Option<GpsMs>,
    pub span: Span,
}

/// The first, the least and the greatest epoch of a capture, in ms since 1980-01-06 of GPS time.
#[derive(Clone, Copy, Debug, PartialEq, Eq)]
pub struct Placed {
    pub first: u64,
    pub from: u64,
    pub until: u64,
}

/// The lesser of two moments, as far as there are two.
pub fn least_with_if_any(least: Option<GpsMs>, more: Option<GpsMs>) -> Option<GpsMs>
    ensures { result ≡ spec.least_with_if_any least more }
{
    let Some(more) = more else {
        return least;
    };
    match least {
        Some(least) if least.ms() <= more.ms() => Some(least),
        _ => Some(more),
    }
}

// The first epoch of a capture: as it is told, else dated near the base.
fn first_epoch(base: GpsMs, told: Option<GpsMs>, span: &Span) -> u64
    ensures value { result ≡ spec.first_epoch base told span.now }
    ensures bound { result < 2 ^ 61 }
{
    match told {
        Some(first) => first.ms(),
        None => dated(base, (span.first.ms() % WEEK_MS) as u32),
    }
}

/// The epochs of a capture with their dates.
pub fn place(base: GpsMs, capture: &CaptureEpochs) -> Placed
    ensures { result ≡ spec.placed base capture.now }
{
    let span = &capture.span;
    let first = first_epoch(base, capture.told, span);
    let undated = span.first.ms();
    Placed {
        first,
        from: (first + span.least.ms()).saturating_sub(undated),
        until: (first + span.greatest.ms()).saturating_sub(undated),
    }
}

/// Are all epochs of a capture dated by a conversion near this moment as they are here?
pub fn is_dated_near(near: GpsMs, capture: &Placed) -> bool
    ensures { result ≡ spec.is_dated_near near capture.now }
{
    near.ms() <= capture.from.saturating_add(HALF_WEEK_MS)
        && capture.until < near.ms() + HALF_WEEK_MS
}
