//! The dates of captures that were read.

ghost use Rattle.std.specs.Prelude.{◌≡◌, ◌-◌, ◌%◌, ◌∷◌, [], None, map, length, Some, IfOk};
ghost use Rattle.rtk_captures.specs.Reach as spec;

use crate::station_capture::StationCapture;
use rtk_obs::GpsMs;
use rtk_survey::{
    CaptureEpochs, DateMessage, Placed, Span, Told, is_dated_near, least_with_if_any, place,
};
use std::alloc::{AllocError, Global};

/// The moment near which captures are dated.
#[derive(Clone, Copy, Debug, PartialEq, Eq)]
pub enum Base {
    /// It is given: all captures are dated near it, whatever they tell.
    Given(GpsMs),
    /// The least first epoch that a capture tells, or else the least moment that one names and that counts: the
    /// captures that tell none are dated near it.
    Told(GpsMs),
}

/// By which messages captures without an epoch name the moments that are looked at.
#[derive(Clone, Copy, Debug, PartialEq, Eq)]
pub(crate) enum NamedBy {
    /// By 1013 and 1029 of the station.
    Own,
    /// By 1019.
    Week,
    /// By 1013 and 1029 of whatever station.
    Day,
    /// By whatever message.
    Any,
}

fn moment_told(told: Option<Told>) -> Option<GpsMs>
    ensures { result ≡ spec.moment_told told }
{
    GpsMs::new(told?.first)
}

// The least first epoch that captures tell; `None` if none tells one.
fn least_first(captures: &[StationCapture]) -> Option<GpsMs>
    ensures { result ≡ spec.least_of_captures None captures.now }
{
    let mut least = None;
    for capture in captures {
        least = least_with_if_any(least, moment_told(capture.told));
    }
    least
}

/// Does a message tell a week that means several?
pub(crate) fn has_week(message: DateMessage) -> bool
    ensures { result ≡ spec.has_week message }
{
    match message {
        DateMessage::Utc(_) | DateMessage::OtherEphemeris(_) => false,
        DateMessage::Ephemeris(_) => true,
    }
}

// Does a message tell a day?
fn has_day(message: DateMessage) -> bool
    ensures { result ≡ spec.has_day message }
{
    match message {
        DateMessage::Utc(_) => true,
        DateMessage::Ephemeris(_) | DateMessage::OtherEphemeris(_) => false,
    }
}

fn is_named_by_week(moment: Option<Told>) -> bool
    ensures { result ≡ spec.is_named_by_week moment }
{
    match moment {
        Some(told) => has_week(told.message),
        None => false,
    }
}

fn is_named_by_day(moment: Option<Told>) -> bool
    ensures { result ≡ spec.is_named_by_day moment }
{
    match moment {
        Some(told) => has_day(told.message),
        None => false,
    }
}

fn moment_if(counts: bool, moment: Option<Told>) -> Option<Told>
    ensures { result ≡ spec.moment_if counts moment }
{
    if counts { moment } else { None }
}

/// The moment that a capture without an epoch names, if such messages name it.
pub(crate) fn moment_named(named: NamedBy, capture: &StationCapture) -> Option<Told>
    ensures { result ≡ spec.moment_named named capture.now }
{
    match named {
        NamedBy::Own => moment_if(capture.is_moment_of_station, capture.moment),
        NamedBy::Week => moment_if(is_named_by_week(capture.moment), capture.moment),
        NamedBy::Day => moment_if(is_named_by_day(capture.moment), capture.moment),
        NamedBy::Any => capture.moment,
    }
}

// The least moment that captures without an epoch name by such messages; `None` if none names one.
fn least_of_moments(captures: &[StationCapture], named: NamedBy) -> Option<GpsMs>
    ensures { result ≡ spec.least_of_moments named None captures.now }
{
    let mut least = None;
    for capture in captures {
        least = least_with_if_any(least, moment_told(moment_named(named, capture)));
    }
    least
}

fn or_moment(first: Option<GpsMs>, other: Option<GpsMs>) -> Option<GpsMs>
    ensures { result ≡ spec.or_moment first other }
{
    match first {
        Some(moment) => Some(moment),
        None => other,
    }
}

// The least moment that captures without an epoch name: by messages of the station, if they name none by 1019, if
// none by messages of other stations, and else by 1042, 1045 and 1046.
fn least_moment(captures: &[StationCapture]) -> Option<GpsMs>
    ensures { result ≡ spec.least_moment captures.now }
{
    let own = least_of_moments(captures, NamedBy::Own);
    let week = least_of_moments(captures, NamedBy::Week);
    let day = least_of_moments(captures, NamedBy::Day);
    let any = least_of_moments(captures, NamedBy::Any);
    or_moment(own, or_moment(week, or_moment(day, any)))
}

/// The least first epoch that captures tell; if none tells one, the least moment that captures without an
/// epoch name, by the messages that count.
pub fn least_told(captures: &[StationCapture]) -> Option<GpsMs>
    ensures { result ≡ spec.least_told captures.now }
{
    match least_first(captures) {
        Some(first) => Some(first),
        None => least_moment(captures),
    }
}

impl Base {
    fn moment(&self) -> GpsMs
        ensures { result ≡ spec.base_moment self.now }
    {
        match self {
            Base::Given(near) => *near,
            Base::Told(least) => *least,
        }
    }

    // The first epoch of a capture that told this, if that counts.
    fn told(&self, told: Option<Told>) -> Option<GpsMs>
        ensures { result ≡ spec.told_by self.now told }
    {
        match self {
            Base::Given(_) => None,
            Base::Told(_) => moment_told(told),
        }
    }
}

fn placed_with(base: &Base, told: Option<Told>, span: Option<Span>) -> Option<Placed>
    ensures { result ≡ spec.placed_with base.now told span }
{
    let epochs = CaptureEpochs {
        told: base.told(told),
        span: span?,
    };
    Some(place(base.moment(), &epochs))
}

/// The epochs of captures with their dates; `None` of a capture without an epoch of the station.
pub fn place_captures(
    alloc: Global,
    base: &Base,
    captures: &[StationCapture],
) -> Result<Vec<Option<Placed>>, AllocError>
    ensures { IfOk result (λ all. all.items ≡ map (spec.placed_if_any base.now) captures.now) }
{
    let mut all = Vec::new(alloc);
    for capture in captures {
        all.push(placed_with(base, capture.told, capture.span))?;
    }
    Ok(all)
}

fn joined(reach: Placed, more: Placed) -> Placed
    ensures { result ≡ spec.joined_reach reach more }
{
    Placed {
        first: reach.first.min(more.first),
        from: reach.from.min(more.from),
        until: reach.until.max(more.until),
    }
}

/// The least first epoch, the least epoch and the greatest one of two reaches, as far as there are two.
pub fn reach_with(reach: Option<Placed>, more: Option<Placed>) -> Option<Placed>
    ensures { result ≡ spec.reach_with reach more }
{
    let Some(more) = more else {
        return reach;
    };
    match reach {
        Some(reach) => Some(joined(reach, more)),
        None => Some(more),
    }
}

/// The least first epoch, the least epoch and the greatest one of all captures; `None` if no capture has
/// one.
pub fn reach_of(placed: &[Option<Placed>]) -> Option<Placed>
    ensures { result ≡ spec.reach_after None placed.now }
{
    let mut reach = None;
    for capture in placed {
        reach = reach_with(reach, *capture);
    }
    reach
}

/// The moment near which a conversion dates captures of this reach, in ms: the whole second of the least
/// first epoch.
pub fn near_of(reach: &Placed) -> u64
    ensures { result ≡ spec.second_of reach.now.first }
{
    reach.first - reach.first % 1000
}

fn is_wide_if_any(span: Option<Span>) -> bool
    ensures { result ≡ spec.is_wide_if_any span }
{
    match span {
        Some(span) => span.is_wide,
        None => false,
    }
}

/// Would a conversion near this moment date an epoch of the capture otherwise? Its epochs are more than
/// half a week from the moment, or more than a week from its first one.
pub fn is_out_of_reach(near: GpsMs, capture: &StationCapture, placed: Option<Placed>) -> bool
    ensures { result ≡ spec.is_out_of_reach near capture.now placed }
{
    let is_far = match placed {
        Some(placed) => !is_dated_near(near, &placed),
        None => false,
    };
    is_wide_if_any(capture.span) || is_far
}
