//! The dates of the captures that are converted.

ghost use Rattle.std.specs.Prelude.{◌≡◌, ◌<◌, true, false, None, map, IfOk, IfErr, IfSome};
ghost use Rattle.std.specs.List.{list_any};
ghost use Rattle.rtk_captures.specs.CaptureCauses.{IfRefused, IsReachCause, IsDatingCause, IsPartedAt, has_several_dates, is_dated_by_week, is_dated_by_day, is_told_later, have_week_and_day};
ghost use Rattle.rtk_captures.specs.Dating.{IsBaseOf, IsReachOf, IsNearOf, ArePlaced, AreStrays, IsSpanOf, some_out_of_reach};
ghost use Rattle.rtk_captures.specs.Reach.{placed_if_any, second_of};
ghost use Rattle.rtk_captures.specs.Sources as sources;
ghost use Rattle.rtk_captures.specs.Stray.{strays};
ghost use Rattle.rtk_obs.specs.declared.time.TheConstants.{LAST_MS};
ghost use Rattle.rtk_survey.specs.declared.placing.Placed.{Placed};

use crate::captures::StationCaptures;
use crate::reach::{
    Base, NamedBy, has_week, is_out_of_reach, least_told, moment_named, near_of, place_captures,
    reach_of,
};
use crate::refusal::{PlanFault, Refusal, refused};
use crate::span_line::{DateSource, DatedSpan};
use crate::station_capture::StationCapture;
use crate::stray::strays;
use rtk_obs::{GpsMs, HALF_WEEK_MS};
use rtk_setup::Reference;
use rtk_survey::{DateMessage, Placed, Told};
use std::alloc::Global;

/// The epochs of captures with their dates.
#[derive(Drop)]
pub struct Dating {
    /// The first and the last epoch of each capture that has epochs.
    pub placed: Vec<Option<Placed>>,
    /// The moment near which a conversion dates them.
    pub near: GpsMs,
    /// The first and the last epoch of all, and by what they are dated.
    pub span: DatedSpan,
    /// The places of the captures with a stray epoch.
    pub strays: Vec<usize>,
}

fn have_differing_dates(captures: &[StationCapture]) -> bool
    ensures { result ≡ list_any has_several_dates captures.now }
{
    captures.iter().any(|capture| capture.dates > 1)
}

fn is_dated_by_week(capture: &StationCapture) -> bool
    ensures { result ≡ is_dated_by_week capture.now }
{
    match capture.told {
        Some(told) => has_week(told.message),
        None => false,
    }
}

fn is_dated_by_day(capture: &StationCapture) -> bool
    ensures { result ≡ is_dated_by_day capture.now }
{
    match capture.told {
        Some(told) => !has_week(told.message),
        None => false,
    }
}

// Does a capture tell that it begins more than half a week after this moment?
fn is_told_later(least: GpsMs, capture: &StationCapture) -> bool
    ensures { result ≡ is_told_later least capture.now }
{
    match capture.told {
        Some(told) => least.ms() + HALF_WEEK_MS < told.first,
        None => false,
    }
}

fn is_one_dated_by_week(captures: &[StationCapture]) -> bool
    ensures { result ≡ list_any is_dated_by_week captures.now }
{
    captures.iter().any(is_dated_by_week)
}

fn is_one_dated_by_day(captures: &[StationCapture]) -> bool
    ensures { result ≡ list_any is_dated_by_day captures.now }
{
    captures.iter().any(is_dated_by_day)
}

fn is_one_told_later(captures: &[StationCapture], least: GpsMs) -> bool
    ensures { result ≡ list_any (is_told_later least) captures.now }
{
    captures.iter().any(|capture| is_told_later(least, capture))
}

// Are some captures dated by weeks and others by days, and is one told to be far from the first one?
fn have_week_and_day(captures: &[StationCapture], least: GpsMs) -> bool
    ensures { result ≡ have_week_and_day captures.now least }
{
    is_one_dated_by_week(captures)
        && is_one_dated_by_day(captures)
        && is_one_told_later(captures, least)
}

// The first capture in which a second date of the station begins, with how many frames come before it.
fn first_parted(captures: &[StationCapture]) -> Option<(usize, u64)>
    ensures { IfSome result (λ found. IsPartedAt captures.now found.0 found.1) }
{
    for (place, capture) in captures.iter().enumerate() {
        if let Some(frame) = capture.parting {
            return Some((place, frame));
        }
    }
    None
}

// Why captures are refused that tell dates that differ: one is to be parted, or a date is to be chosen.
fn refusal_of_dates(captures: &[StationCapture]) -> Refusal
    requires { list_any has_several_dates captures.now ≡ true }
    ensures { IsDatingCause None captures.now result }
{
    match first_parted(captures) {
        Some((capture, frame)) => Refusal::TwoDates { capture, frame },
        None => Refusal::DatesDiffer,
    }
}

// The moment near which the captures are dated.
fn base(
    alloc: Global,
    captured: &StationCaptures<'_, '_, '_>,
    captures: &[StationCapture],
    near: Option<Reference>,
) -> Result<Base, PlanFault>
    ensures base { IfOk result (IsBaseOf near captures.now) }
    ensures refused { IfErr result (IfRefused (IsDatingCause near captures.now)) }
{
    if let Some(near) = near {
        return Ok(Base::Given(near.moment()));
    }
    if have_differing_dates(captures) {
        return refused(refusal_of_dates(captures), captured.list_dates(alloc)?);
    }
    match least_told(captures) {
        Some(least) if have_week_and_day(captures, least) => {
            refused(Refusal::DatesDiffer, captured.list_told(alloc)?)
        }
        Some(least) => Ok(Base::Told(least)),
        None => refused(Refusal::NoDate, captured.all.list_to_come(alloc)?),
    }
}

// By what a message dates this station.
fn source_of_message(message: DateMessage, station: u16) -> DateSource
    ensures { result ≡ sources.source_of_message message station }
{
    match message {
        DateMessage::Utc(date) if date.station == station => DateSource::Station(date.number),
        DateMessage::Utc(date) => DateSource::OtherStation(date.number, date.station),
        DateMessage::Ephemeris(_) => DateSource::Ephemerides,
        DateMessage::OtherEphemeris(date) => DateSource::OtherEphemerides(date.number),
    }
}

// The message that told this moment, if one did.
fn message_at(moment: GpsMs, told: Option<Told>) -> Option<DateMessage>
    ensures { result ≡ sources.message_at moment told }
{
    match told {
        Some(told) if told.first == moment.ms() => Some(told.message),
        _ => None,
    }
}

fn or_message(found: Option<DateMessage>, other: Option<DateMessage>) -> Option<DateMessage>
    ensures { result ≡ sources.or_message found other }
{
    match found {
        Some(message) => Some(message),
        None => other,
    }
}

// The message that told the least first epoch.
fn first_message(captures: &[StationCapture], least: GpsMs) -> Option<DateMessage>
    ensures { result ≡ sources.first_message None least captures.now }
{
    let mut found = None;
    for capture in captures {
        found = or_message(found, message_at(least, capture.told));
    }
    found
}

// The message that is known, or else the one of these that names the least moment.
fn first_of_moments(
    captures: &[StationCapture],
    least: GpsMs,
    named: NamedBy,
    first: Option<DateMessage>,
) -> Option<DateMessage>
    ensures { result ≡ sources.first_of_moments named first least captures.now }
{
    let mut found = first;
    for capture in captures {
        found = or_message(found, message_at(least, moment_named(named, capture)));
    }
    found
}

// The message that is known, or else the one that names the least moment and counts.
fn message_that_names(
    captures: &[StationCapture],
    least: GpsMs,
    first: Option<DateMessage>,
) -> Option<DateMessage>
    ensures { result ≡ sources.message_that_names first least captures.now }
{
    let own = first_of_moments(captures, least, NamedBy::Own, first);
    let week = first_of_moments(captures, least, NamedBy::Week, own);
    let day = first_of_moments(captures, least, NamedBy::Day, week);
    first_of_moments(captures, least, NamedBy::Any, day)
}

fn source_if_any(message: Option<DateMessage>, station: u16) -> DateSource
    ensures { result ≡ sources.source_if_any message station }
{
    match message {
        Some(message) => source_of_message(message, station),
        None => DateSource::Words,
    }
}

// By what the captures are dated: the message that told the least first epoch, or else the one that names the
// least moment.
fn source_of(captures: &[StationCapture], base: Base, station: u16) -> DateSource
    ensures { result ≡ sources.source_of captures.now base station }
{
    match base {
        Base::Given(_) => DateSource::Words,
        Base::Told(least) => {
            let first = first_message(captures, least);
            source_if_any(message_that_names(captures, least, first), station)
        }
    }
}

// The moment, if it can be written.
fn moment(alloc: Global, ms: u64) -> Result<GpsMs, PlanFault>
    ensures value { IfOk result (λ t. t ≡ ms) }
    ensures refused { IfErr result (IfRefused (λ refusal. (refusal ≡ Refusal.OutsideDates) × (LAST_MS < ms))) }
{
    match GpsMs::new(ms) {
        Some(moment) => Ok(moment),
        None => refused(Refusal::OutsideDates, Vec::new(alloc)),
    }
}

/// Is an epoch of a capture not dated by a conversion near this moment as it is here?
pub fn are_out_of_reach(near: GpsMs, captures: &[StationCapture], placed: &[Option<Placed>]) -> bool
    ensures { result ≡ some_out_of_reach near captures.now placed.now }
{
    let count = captures.len().min(placed.len());
    for at in 0..count {
        if is_out_of_reach(near, &captures[at], placed[at]) {
            return true;
        }
    }
    false
}

// The epochs of captures that are dated so.
fn dating_by(
    alloc: Global,
    captured: &StationCaptures<'_, '_, '_>,
    base: Base,
) -> Result<Dating, PlanFault>
    ensures near { IfOk result (λ d. (reach : Placed) × IsReachOf base captured.now.captures.now reach
        × (d.near ≡ second_of reach.first)) }
    ensures placed { IfOk result (λ d. d.placed.items ≡ map (placed_if_any base) captured.now.captures.now) }
    ensures in_reach { IfOk result (λ d. some_out_of_reach d.near captured.now.captures.now d.placed.items ≡ false) }
    ensures strays { IfOk result (λ d. (reach : Placed) × IsReachOf base captured.now.captures.now reach
        × (d.strays.items ≡ strays captured.now.captures.now (map (placed_if_any base) captured.now.captures.now) reach.until)) }
    ensures span { IfOk result (λ d. (reach : Placed) × IsReachOf base captured.now.captures.now reach
        × (d.span ≡ sources.dated_span_of captured.now.captures.now base captured.now.station reach)) }
    ensures refused { IfErr result (IfRefused (IsReachCause base captured.now.captures.now)) }
{
    let captures = captured.captures;
    let placed = place_captures(alloc, &base, captures)?;
    let Some(reach) = reach_of(placed.as_slice()) else {
        return refused(Refusal::NoObservation, Vec::new(alloc));
    };
    let near = moment(alloc, near_of(&reach))?;
    if are_out_of_reach(near, captures, placed.as_slice()) {
        let reaches = captured.list_reaches(alloc, placed.as_slice())?;
        return refused(Refusal::TooLong, reaches);
    }
    let strays = strays(alloc, captures, placed.as_slice(), reach.until)?;
    let span = DatedSpan {
        from: moment(alloc, reach.from)?,
        until: moment(alloc, reach.until)?,
        source: source_of(captures, base, captured.station),
    };
    Ok(Dating {
        placed,
        near,
        span,
        strays,
    })
}

/// The dates of the captures that are converted: as they tell them, or near a moment that is given.
pub fn date_captures(
    alloc: Global,
    captured: &StationCaptures<'_, '_, '_>,
    near: Option<Reference>,
) -> Result<Dating, PlanFault>
    ensures near { IfOk result (λ d. IsNearOf near captured.now.captures.now d.near) }
    ensures placed { IfOk result (λ d. ArePlaced near captured.now.captures.now d.placed.items) }
    ensures in_reach { IfOk result (λ d. some_out_of_reach d.near captured.now.captures.now d.placed.items ≡ false) }
    ensures strays { IfOk result (λ d. AreStrays near captured.now.captures.now d.strays.items) }
    ensures span { IfOk result (λ d. IsSpanOf near captured.now.captures.now captured.now.station d.span) }
    ensures refused { IfErr result (IfRefused (IsDatingCause near captured.now.captures.now)) }
{
    let captures = captured.captures;
    let base = base(alloc, captured, captures, near)?;
    dating_by(alloc, captured, base)
}
