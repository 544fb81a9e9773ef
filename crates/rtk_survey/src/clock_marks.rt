//! What dates the clocks of a station that give no epoch: its epochs, or as long as none came the dates that it names.

ghost use Rattle.std.specs.Prelude.{◌≡◌};
ghost use Rattle.rtk_survey.specs.ClockMarks as spec;

use crate::capture_dates::CaptureDates;
use crate::date_message::{DateMessage, UtcDate};
use crate::span::Span;
use crate::tellings::reference_named;
use rtk_obs::{GpsMs, LAST_MS};

/// What dates the clocks of a station: its first and its last epoch, or as long as none came the first and the last date that
/// its 1013 and 1029 name.
#[derive(Clone, Copy, Debug, PartialEq, Eq)]
pub struct ClockMarks {
    pub first: GpsMs,
    pub last: GpsMs,
    /// The 1013 or 1029 that names the last one, if they are dates and not epochs.
    pub date: Option<UtcDate>,
}

/// A moment that is kept as a number.
pub fn opened_moment(ms: u64) -> GpsMs
    ensures { result ≡ spec.opened_moment ms }
{
    let Some(moment) = GpsMs::new(ms.min(LAST_MS)) else {
        unreachable!();
    };
    moment
}

impl ClockMarks {
    /// The epochs of a station.
    pub fn of_epochs(epochs: &Span) -> ClockMarks
        ensures { result ≡ spec.marks_of_epochs epochs.now }
    {
        ClockMarks {
            first: epochs.first,
            last: epochs.last,
            date: None,
        }
    }
}

// The date of a 1013 or a 1029.
fn utc_of(message: &DateMessage) -> Option<UtcDate>
    ensures { result ≡ spec.utc_of message.now }
{
    match message {
        DateMessage::Utc(date) => Some(*date),
        DateMessage::Ephemeris(_) | DateMessage::OtherEphemeris(_) => None,
    }
}

// A date more that the station names in a message.
fn marks_with_date(marks: Option<ClockMarks>, message: &DateMessage, ms: u64) -> ClockMarks
    ensures { result ≡ spec.marks_with_date marks message.now ms }
{
    let last = opened_moment(ms);
    let date = utc_of(message);
    match marks {
        Some(marks) => ClockMarks {
            first: marks.first,
            last,
            date,
        },
        None => ClockMarks {
            first: last,
            last,
            date,
        },
    }
}

fn marks_with_date_if_any(
    marks: Option<ClockMarks>,
    message: &DateMessage,
    ms: Option<u64>,
) -> Option<ClockMarks>
    ensures { result ≡ spec.marks_with_date_if_any marks message.now ms }
{
    match ms {
        Some(ms) => Some(marks_with_date(marks, message, ms)),
        None => marks,
    }
}

// The moment that a message names, if it is a 1013 or a 1029 of the station.
fn own_reference(now: GpsMs, station: u16, message: &DateMessage) -> Option<u64>
    ensures { result ≡ spec.own_reference now station message.now }
{
    match message {
        DateMessage::Utc(date) if date.station == station => reference_named(now, message),
        _ => None,
    }
}

// The first and the last date that the station names in these messages.
fn own_marks(now: GpsMs, station: u16, messages: &[DateMessage]) -> Option<ClockMarks>
    ensures { result ≡ spec.own_marks now station messages.now }
{
    let mut marks = None;
    for message in messages {
        marks = marks_with_date_if_any(marks, message, own_reference(now, station, message));
    }
    marks
}

/// The epochs of a station in a capture, or before the first of them the dates that wait for it.
pub(crate) fn marks_in(now: GpsMs, station: u16, capture: &CaptureDates) -> Option<ClockMarks>
    ensures { result ≡ spec.marks_in now station capture.now }
{
    match &capture.span {
        Some(epochs) => Some(ClockMarks::of_epochs(epochs)),
        None => own_marks(now, station, capture.waiting.as_slice()),
    }
}
