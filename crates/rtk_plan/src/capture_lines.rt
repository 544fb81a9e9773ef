//! The lines of captures that a person should know of: whose dates do not count, that are dated near the others,
//! that have a stray epoch, that are left out, whose epochs are missing or fall, or that have bytes outside frames.
//!
//! If memory is refused, a first part of what is put may stand there.

ghost use Rattle.std.specs.Prelude.{◌≡◌, ◌++◌, OnOk};
ghost use Rattle.rtk_plan.specs.KnownLines as spec;
ghost use Rattle.rtk_survey.specs.Surveys.{places_of};
ghost use Rattle.rtk_captures.specs.StationCaptures.{dates_in};

use crate::planning::Plan;
use rtk_captures::{
    Captures, DateSource, StationCapture, dates_without_epoch, is_station, others_passed_over,
    put_capture_line, put_date_line, put_far_date, put_name_line, put_stray_line, put_to_come_line,
    put_undated_line, system_weeks_passed_over, to_come_told, weeks_passed_over,
};
use rtk_message::put_named;
use rtk_obs::GpsMs;
use rtk_setup::Setup;
use rtk_survey::{CaptureDates, CaptureEpochs, CaptureSurvey, Span, Tellings, Told, place};
use std::alloc::AllocError;

/// How many first epochs that differ a survey keeps of each kind of message.
const MOST_TOLD: usize = 16;

// Is this another first epoch than a conversion near this moment gives a capture with these epochs?
fn is_told_otherwise(near: GpsMs, told: &Told, span: &Span) -> bool
    ensures { result ≡ spec.is_told_otherwise near span.now told.now }
{
    let epochs = CaptureEpochs {
        told: None,
        span: *span,
    };
    told.first != place(near, &epochs).first
}

// Appends a date, if it is another first epoch than a conversion near this moment gives the capture.
fn put_other_date(
    lines: &mut Vec<u8>,
    near: GpsMs,
    span: &Span,
    name: &str,
    told: &Told,
) -> Result<(), AllocError>
    ensures { OnOk result (lines.new.items ≡ lines.old.items ++ spec.other_date_line near span.now name.now told.now) }
{
    if !is_told_otherwise(near, told, span) {
        return Ok(());
    }
    lines.extend_from_slice(b" other-date")?;
    put_date_line(lines, told, name)
}

fn put_those_of(
    lines: &mut Vec<u8>,
    near: GpsMs,
    span: &Span,
    name: &str,
    dates: &[Told],
) -> Result<(), AllocError>
    ensures { OnOk result (lines.new.items ≡ lines.old.items ++ spec.other_date_lines near span.now name.now dates.now) }
{
    for told in dates {
        put_other_date(lines, near, span, name, told)?;
    }
    Ok(())
}

fn is_full(told: &[Told]) -> bool
    ensures { result ≡ spec.is_full told.now }
{
    MOST_TOLD <= told.len()
}

fn may_have_more(told: &Tellings) -> bool
    ensures { result ≡ spec.may_have_more told.now }
{
    (is_full(told.counting()) || is_full(told.weeks.as_slice()))
        || (is_full(told.others.as_slice()) || is_full(told.system_weeks.as_slice()))
}

// Appends a line if so many dates are kept of a capture that others may have been told.
fn put_more_dates(lines: &mut Vec<u8>, name: &str, told: &Tellings) -> Result<(), AllocError>
    ensures { OnOk result (lines.new.items ≡ lines.old.items ++ spec.more_dates_line name.now told.now) }
{
    if may_have_more(told) {
        put_name_line(lines, b" more-dates in ", name)
    } else {
        Ok(())
    }
}

// Appends the dates that messages told of these epochs, if they tell another first one than the conversion gives: those
// by the messages that date, and those by ephemerides and by other stations beside them; and that there may be others.
fn put_tellings(
    lines: &mut Vec<u8>,
    near: GpsMs,
    span: &Span,
    name: &str,
    told: &Tellings,
) -> Result<(), AllocError>
    ensures { OnOk result (lines.new.items ≡ lines.old.items ++ spec.other_dates near span.now name.now told.now) }
{
    put_those_of(lines, near, span, name, told.counting())?;
    put_those_of(lines, near, span, name, weeks_passed_over(told))?;
    put_those_of(lines, near, span, name, others_passed_over(told))?;
    put_those_of(lines, near, span, name, system_weeks_passed_over(told))?;
    put_more_dates(lines, name, told)?;
    Ok(())
}

// Appends such dates of a capture, if it has epochs.
fn put_other_dates_of(
    lines: &mut Vec<u8>,
    near: GpsMs,
    name: &str,
    dates: &CaptureDates,
) -> Result<(), AllocError>
    ensures { OnOk result (lines.new.items ≡ lines.old.items ++ spec.other_dates_of near name.now dates.now) }
{
    match &dates.span {
        Some(span) => put_tellings(lines, near, span, name, &dates.told),
        None => Ok(()),
    }
}

// Appends such dates of the epochs of a capture, if it was surveyed for this station.
fn put_dates_of_epochs(
    lines: &mut Vec<u8>,
    survey: &CaptureSurvey,
    station: u16,
    near: GpsMs,
    name: &str,
) -> Result<(), AllocError>
    ensures { OnOk result (lines.new.items ≡ lines.old.items ++ spec.other_dates_of near name.now (dates_in station survey.now)) }
{
    match &survey.contents.target {
        Some(target) if is_station(station, target.dates.station) => {
            put_other_dates_of(lines, near, name, &target.dates.capture)
        }
        _ => Ok(()),
    }
}

// Appends a date that is passed over since it is to come.
fn put_date_to_come(lines: &mut Vec<u8>, told: &Told, name: &str) -> Result<(), AllocError>
    ensures { OnOk result (lines.new.items ≡ lines.old.items ++ spec.date_to_come told.now name.now) }
{
    lines.extend_from_slice(b" other-date")?;
    put_to_come_line(lines, told, name)?;
    Ok(())
}

fn put_other_to_come(lines: &mut Vec<u8>, told: Option<Told>, name: &str) -> Result<(), AllocError>
    ensures { OnOk result (lines.new.items ≡ lines.old.items ++ spec.other_to_come told name.now) }
{
    match told {
        Some(told) => put_date_to_come(lines, &told, name),
        None => Ok(()),
    }
}

// Appends such dates of a capture: of its epochs; or if it has none, of an epoch at this moment; one that is to come; and
// one far from the epoch beside it.
fn put_other_dates_near(
    lines: &mut Vec<u8>,
    survey: &CaptureSurvey,
    station: u16,
    near: GpsMs,
    name: &str,
) -> Result<(), AllocError>
    ensures { OnOk result (lines.new.items ≡ lines.old.items ++ spec.other_dates_at station near survey.now name.now) }
{
    put_dates_of_epochs(lines, survey, station, near, name)?;
    let dates = dates_without_epoch(station, near, survey);
    put_other_dates_of(lines, near, name, &dates)?;
    put_other_to_come(lines, to_come_told(station, survey), name)?;
    put_far_date(lines, survey, station, name)?;
    Ok(())
}

// Appends such dates of a capture.
fn put_other_dates_at(
    lines: &mut Vec<u8>,
    survey: &CaptureSurvey,
    setup: &Setup,
    name: &str,
) -> Result<(), AllocError>
    ensures { OnOk result (lines.new.items ≡ lines.old.items
        ++ spec.other_dates_at setup.now.station setup.now.near survey.now name.now) }
{
    let (station, near) = (setup.station(), setup.near());
    put_other_dates_near(lines, survey, station, near, name)
}

/// Appends the dates of all captures that tell another first epoch than the conversion gives them.
pub(crate) fn put_other_dates(
    lines: &mut Vec<u8>,
    captures: &Captures<'_, '_>,
    setup: &Setup,
) -> Result<(), AllocError>
    ensures { OnOk result (lines.new.items ≡ lines.old.items
        ++ spec.all_other_dates captures.now.names.now setup.now.station setup.now.near captures.now.surveys.now) }
{
    for (at, survey) in captures.surveys.iter().enumerate() {
        put_other_dates_at(lines, survey, setup, captures.name(at))?;
    }
    Ok(())
}

// Has a capture epochs, and does it tell no date?
fn is_undated(capture: &StationCapture) -> bool
    ensures { result ≡ spec.is_undated capture.now }
{
    capture.span.is_some() && capture.told.is_none()
}

// Appends the line of a capture that is dated near the others, if it is.
fn put_undated_at(
    lines: &mut Vec<u8>,
    capture: &StationCapture,
    name: &str,
) -> Result<(), AllocError>
    ensures { OnOk result (lines.new.items ≡ lines.old.items ++ spec.undated_line_if capture.now name.now) }
{
    if is_undated(capture) {
        put_undated_line(lines, name)
    } else {
        Ok(())
    }
}

// Appends the captures that are dated near the others.
fn put_all_undated(
    lines: &mut Vec<u8>,
    captures: &Captures<'_, '_>,
    told: &[StationCapture],
) -> Result<(), AllocError>
    ensures { OnOk result (lines.new.items ≡ lines.old.items ++ spec.all_undated captures.now.names.now told.now) }
{
    for (at, capture) in told.iter().enumerate() {
        put_undated_at(lines, capture, captures.name(at))?;
    }
    Ok(())
}

/// Appends them, unless words date all captures.
pub(crate) fn put_undated(
    lines: &mut Vec<u8>,
    captures: &Captures<'_, '_>,
    plan: &Plan,
) -> Result<(), AllocError>
    ensures { OnOk result (lines.new.items ≡ lines.old.items
        ++ spec.undated_lines plan.now.span.source captures.now.names.now plan.now.captures.items) }
{
    match plan.span.source {
        DateSource::Words => Ok(()),
        DateSource::Station(_)
        | DateSource::OtherStation(_, _)
        | DateSource::Ephemerides
        | DateSource::OtherEphemerides(_) => {
            put_all_undated(lines, captures, plan.captures.as_slice())
        }
    }
}

/// Appends the captures with a stray epoch.
pub(crate) fn put_strays(
    lines: &mut Vec<u8>,
    captures: &Captures<'_, '_>,
    epoch: GpsMs,
    places: &[usize],
) -> Result<(), AllocError>
    ensures { OnOk result (lines.new.items ≡ lines.old.items ++ spec.stray_lines captures.now.names.now epoch places.now) }
{
    for place in places {
        put_stray_line(lines, epoch, captures.name(*place))?;
    }
    Ok(())
}

// Appends the line of a capture that is left out.
fn put_skipped_at(
    lines: &mut Vec<u8>,
    captures: &Captures<'_, '_>,
    told: &[StationCapture],
    place: usize,
) -> Result<(), AllocError>
    ensures { OnOk result (lines.new.items ≡ lines.old.items ++ spec.skipped_line captures.now.names.now told.now place) }
{
    match told.get(place) {
        Some(capture) => {
            put_capture_line(lines, b" skipped ", captures.name(place), capture.look)
        }
        None => Ok(()),
    }
}

/// Appends the captures that are left out.
pub(crate) fn put_skipped(
    lines: &mut Vec<u8>,
    captures: &Captures<'_, '_>,
    told: &[StationCapture],
    places: &[usize],
) -> Result<(), AllocError>
    ensures { OnOk result (lines.new.items ≡ lines.old.items ++ spec.skipped_lines captures.now.names.now told.now places.now) }
{
    for place in places {
        put_skipped_at(lines, captures, told, *place)?;
    }
    Ok(())
}

// Appends the line of a capture with these epochs, if it has none, or if they fall.
fn put_epochs_of(lines: &mut Vec<u8>, span: Option<Span>, name: &str) -> Result<(), AllocError>
    ensures { OnOk result (lines.new.items ≡ lines.old.items ++ spec.epochs_line span name.now) }
{
    match span {
        None => put_name_line(lines, b" no-epoch ", name),
        Some(span) if span.falls => put_name_line(lines, b" time-falls ", name),
        Some(_) => Ok(()),
    }
}

// Appends how many bytes of a capture are in no frame, if there are some.
fn put_outside(lines: &mut Vec<u8>, outside: u64, name: &str) -> Result<(), AllocError>
    ensures { OnOk result (lines.new.items ≡ lines.old.items ++ spec.outside_line outside name.now) }
{
    if outside == 0 {
        return Ok(());
    }
    put_named(lines, b" outside-frames ", outside)?;
    put_name_line(lines, b" in ", name)?;
    Ok(())
}

// Appends both lines of a capture.
fn put_capture_notes(
    lines: &mut Vec<u8>,
    capture: &StationCapture,
    name: &str,
) -> Result<(), AllocError>
    ensures { OnOk result (lines.new.items ≡ lines.old.items ++ spec.capture_notes capture.now name.now) }
{
    put_epochs_of(lines, capture.span, name)?;
    put_outside(lines, capture.outside, name)?;
    Ok(())
}

fn put_epochs_at(
    lines: &mut Vec<u8>,
    captures: &Captures<'_, '_>,
    told: &[StationCapture],
    place: usize,
) -> Result<(), AllocError>
    ensures { OnOk result (lines.new.items ≡ lines.old.items ++ spec.epochs_line_at captures.now.names.now told.now place) }
{
    match told.get(place) {
        Some(capture) => put_capture_notes(lines, capture, captures.name(place)),
        None => Ok(()),
    }
}

// Appends such lines of the captures of a link.
fn put_epochs_in_link(
    lines: &mut Vec<u8>,
    captures: &Captures<'_, '_>,
    told: &[StationCapture],
    link: &[usize],
) -> Result<(), AllocError>
    ensures { OnOk result (lines.new.items ≡ lines.old.items ++ spec.epochs_lines_of captures.now.names.now told.now link.now) }
{
    for place in link {
        put_epochs_at(lines, captures, told, *place)?;
    }
    Ok(())
}

/// Appends such lines of the captures of all links.
pub(crate) fn put_epochs(
    lines: &mut Vec<u8>,
    captures: &Captures<'_, '_>,
    told: &[StationCapture],
    links: &[Vec<usize>],
) -> Result<(), AllocError>
    ensures { OnOk result (lines.new.items ≡ lines.old.items
        ++ spec.epochs_lines captures.now.names.now told.now (places_of links.now)) }
{
    for link in links {
        put_epochs_in_link(lines, captures, told, link.as_slice())?;
    }
    Ok(())
}
