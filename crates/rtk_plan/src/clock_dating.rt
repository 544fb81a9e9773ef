//! When a clock of GLONASS or BeiDou goes in one capture: beside its epochs, or in one without epochs by the dates and moments
//! that it names, or in the middle of the others.

ghost use Rattle.std.specs.Prelude.{◌≡◌, ◌<◌, ◌≤◌, ◌^◌};
ghost use Rattle.rtk_obs.specs.declared.time.TheConstants.{LAST_MS};
ghost use Rattle.rtk_plan.specs.ClockDating as spec;

use rtk_captures::{DatedSpan, StationCapture};
use rtk_obs::{GpsMs, LAST_MS, WEEK_MS};
use rtk_setup::Reference;
use rtk_survey::{
    ClockMarks, ClockSpan, FollowedClock, Placed, Span, Told, clock_moment, dated, opened_moment,
    redating_clock,
};

/// How the clocks of a station are dated.
#[derive(Clone, Copy, Debug, PartialEq, Eq)]
pub struct ClockDating {
    pub station: u16,
    /// The leap seconds that date GLONASS.
    pub seconds: u8,
    /// The moment that words give. It decides the week of what captures name.
    pub given: Option<GpsMs>,
    /// The middle of the epochs, near which captures are dated that have no epoch and name no moment.
    pub middle: GpsMs,
}

fn midway(from: GpsMs, until: GpsMs) -> u64
    ensures value { result ≡ spec.midway from until }
    ensures bound { result ≤ LAST_MS }
{
    (from.ms() + until.ms()) / 2
}

// The middle of the epochs.
fn middle_of_epochs(epochs: &DatedSpan) -> GpsMs
    ensures { result ≡ spec.midway epochs.now.from epochs.now.until }
{
    let Some(middle) = GpsMs::new(midway(epochs.from, epochs.until)) else {
        unreachable!();
    };
    middle
}

fn moment_given(given: Option<Reference>) -> Option<GpsMs>
    ensures { result ≡ given }
{
    match given {
        Some(given) => Some(given.moment()),
        None => None,
    }
}

impl ClockDating {
    /// How the clocks of a station are dated beside these epochs.
    pub(crate) fn of_station(
        station: u16,
        seconds: u8,
        given: Option<Reference>,
        epochs: &DatedSpan,
    ) -> ClockDating
        ensures { result ≡ spec.clock_dating given station seconds (spec.midway epochs.now.from epochs.now.until) }
    {
        ClockDating {
            station,
            seconds,
            given: moment_given(given),
            middle: middle_of_epochs(epochs),
        }
    }
}

// A moment that a capture names; if one is given, its time of week near that one.
fn week_by(given: Option<GpsMs>, moment: GpsMs) -> u64
    ensures value { result ≡ spec.week_by given moment }
    ensures bound { result < 2 ^ 61 }
{
    match given {
        Some(near) => dated(near, (moment.ms() % WEEK_MS) as u32),
        None => moment.ms(),
    }
}

// The moment near which the clocks of a capture without epochs are dated that names this one.
fn named_near(way: &ClockDating, told: &Told) -> GpsMs
    ensures { result ≡ spec.named_near way.now told.now }
{
    opened_moment(week_by(way.given, opened_moment(told.first)))
}

// By how much GPS time is ahead of what a survey has of a clock.
fn clock_lead(clock: FollowedClock, seconds: u8) -> u64
    ensures value { result ≡ spec.clock_lead clock seconds }
    ensures bound { result < 2 ^ 20 }
{
    match clock {
        FollowedClock::GlonassWeek | FollowedClock::GlonassDay => 1000 * u64::from(seconds),
        FollowedClock::BeidouWeek => 0,
    }
}

// Moments with their dates, if the one that is undated has this date.
fn placed_clock_span(lead: u64, first: u64, undated: u64, span: &Span) -> Placed
    requires lead { lead < 2 ^ 20 }
    requires first { first < 2 ^ 61 }
    ensures { result ≡ spec.placed_clock_span lead first undated span.now }
{
    let until = if span.is_wide {
        LAST_MS + 1
    } else {
        (first + lead + span.greatest.ms()).saturating_sub(undated)
    };
    Placed {
        first,
        from: (first + lead + span.least.ms()).saturating_sub(undated),
        until,
    }
}

fn placed_by_epochs(
    way: &ClockDating,
    clock: FollowedClock,
    epochs: &Span,
    placed: &Placed,
    known: &ClockSpan,
) -> Placed
    ensures { result ≡ spec.placed_by_epochs way.now clock epochs.now placed.now known.now }
{
    let opened = known.opened();
    let anchored = opened.anchored(clock, &ClockMarks::of_epochs(epochs));
    let lead = clock_lead(clock, way.seconds);
    placed_clock_span(
        lead,
        placed.first.min(LAST_MS),
        epochs.first.ms(),
        &anchored.span,
    )
}

// Near the dates that the station names.
fn placed_by_dates(
    way: &ClockDating,
    clock: FollowedClock,
    dates: &ClockMarks,
    known: &ClockSpan,
) -> Placed
    ensures { result ≡ spec.placed_by_dates way.now clock dates.now known.now }
{
    let opened = known.opened();
    let anchored = opened.anchored(clock, dates);
    let lead = clock_lead(clock, way.seconds);
    let first = week_by(way.given, dates.first);
    placed_clock_span(lead, first, dates.first.ms(), &anchored.span)
}

fn first_ms(span: &Span) -> u64
    ensures { result ≡ span.now.first }
{
    span.first.ms()
}

// With the first message near a moment.
fn placed_near(way: &ClockDating, clock: FollowedClock, near: GpsMs, known: &ClockSpan) -> Placed
    ensures { result ≡ spec.placed_near way.now clock near known.now }
{
    let opened = known.opened();
    let undated = first_ms(&opened.span);
    let redating = redating_clock(clock, known.has_day);
    let first = clock_moment(redating, near, (undated % WEEK_MS) as u32);
    let lead = clock_lead(clock, way.seconds);
    placed_clock_span(lead, first, undated, &opened.span)
}

fn middle_of_span(span: &Span) -> u64
    ensures { result ≡ spec.middle_of_span span.now }
{
    midway(span.least, span.greatest)
}

// With the middle of its moments near the middle of the epochs of the others.
fn placed_in_middle(way: &ClockDating, clock: FollowedClock, known: &ClockSpan) -> Placed
    ensures { result ≡ spec.placed_in_middle way.now clock known.now }
{
    let opened = known.opened();
    let undated = middle_of_span(&opened.span);
    let redating = redating_clock(clock, known.has_day);
    let first = clock_moment(redating, way.middle, (undated % WEEK_MS) as u32);
    let lead = clock_lead(clock, way.seconds);
    placed_clock_span(lead, first, undated, &opened.span)
}

fn placed_by_moment(
    way: &ClockDating,
    clock: FollowedClock,
    told: &Option<Told>,
    known: &ClockSpan,
) -> Placed
    ensures { result ≡ spec.placed_by_moment way.now clock told.now known.now }
{
    match told {
        Some(told) => placed_near(way, clock, named_near(way, told), known),
        None => placed_in_middle(way, clock, known),
    }
}

fn placed_alone(
    way: &ClockDating,
    clock: FollowedClock,
    dates: &Option<ClockMarks>,
    told: &Option<Told>,
    known: &ClockSpan,
) -> Placed
    ensures { result ≡ spec.placed_alone way.now clock dates.now told.now known.now }
{
    match dates {
        Some(dates) => placed_by_dates(way, clock, dates, known),
        None => placed_by_moment(way, clock, told, known),
    }
}

fn placed_clock(
    way: &ClockDating,
    clock: FollowedClock,
    capture: &StationCapture,
    marks: &Option<ClockMarks>,
    epochs: &Option<Span>,
    placed: &Option<Placed>,
    known: &ClockSpan,
) -> Placed
    ensures { result ≡ spec.placed_clock way.now clock capture.now marks.now epochs.now placed.now known.now }
{
    match epochs {
        Some(epochs) => match placed {
            Some(placed) => placed_by_epochs(way, clock, epochs, placed, known),
            None => placed_alone(way, clock, marks, &capture.moment, known),
        },
        None => placed_alone(way, clock, marks, &capture.moment, known),
    }
}

/// The first and the last moment of a clock in a capture that tells this, if it has a message of the clock with a value.
pub(crate) fn placed_if_followed(
    way: &ClockDating,
    clock: FollowedClock,
    capture: &StationCapture,
    marks: &Option<ClockMarks>,
    placed: &Option<Placed>,
    known: &Option<ClockSpan>,
) -> Option<Placed>
    ensures { result ≡ spec.placed_if_followed way.now clock capture.now marks.now placed.now known.now }
{
    match known {
        Some(known) => Some(placed_clock(way, clock, capture, marks, &capture.span, placed, known)),
        None => None,
    }
}
