//! The lines of captures whose clocks of GLONASS and BeiDou a person should know of: none of their dates counts, they fall,
//! or another message than those of the station tells the day of their 1012.
//!
//! If memory is refused, a first part of what is put may stand there.

ghost use Rattle.std.specs.Prelude.{◌≡◌, ◌++◌, OnOk};
ghost use Rattle.rtk_plan.specs.ClockNotes as spec;
ghost use Rattle.rtk_plan.specs.ClockReach.{clocks_taken};

use crate::clock_reach::{TakenClocks, clocks_in_survey, clocks_taken};
use crate::planning::Plan;
use rtk_captures::{
    Captures, DateSource, StationCapture, capture_of, put_date_line, put_name_line,
    put_undated_line,
};
use rtk_survey::{CaptureSurvey, ClockSpan, Span, StationClocks, Told};
use std::alloc::AllocError;

fn clock_falls(known: &Option<ClockSpan>) -> bool
    ensures { result ≡ spec.clock_falls known.now }
{
    match known {
        Some(known) => known.falls,
        None => false,
    }
}

// Has a clock that is converted and tells the time of week messages with values?
fn has_week_clock(taken: TakenClocks, clocks: &StationClocks) -> bool
    ensures { result ≡ spec.has_week_clock taken clocks.now }
{
    (taken.glonass && clocks.glonass.is_some()) || (taken.beidou && clocks.beidou.is_some())
}

// Have 1012 no MSM of GLONASS that tells their day?
fn lacks_day(known: &Option<ClockSpan>) -> bool
    ensures { result ≡ spec.lacks_day known.now }
{
    match known {
        Some(known) => !known.has_day,
        None => false,
    }
}

// Are there such 1012 with values, which are converted, or left out since they can't be dated?
fn has_day_clock(taken: TakenClocks, leaves_1012: bool, clocks: &StationClocks) -> bool
    ensures { result ≡ spec.has_day_clock taken leaves_1012 clocks.now }
{
    (taken.glonass_day || leaves_1012) && lacks_day(&clocks.glonass_day)
}

// Does such a clock tell an earlier time after a later one?
fn taken_clock_falls(taken: TakenClocks, clocks: &StationClocks) -> bool
    ensures { result ≡ spec.taken_clock_falls taken clocks.now }
{
    (taken.glonass && clock_falls(&clocks.glonass))
        || ((taken.glonass_day && clock_falls(&clocks.glonass_day))
            || (taken.beidou && clock_falls(&clocks.beidou)))
}

fn is_by_words(source: DateSource) -> bool
    ensures { result ≡ spec.is_by_words source }
{
    match source {
        DateSource::Words => true,
        DateSource::Station(_)
        | DateSource::OtherStation(_, _)
        | DateSource::Ephemerides
        | DateSource::OtherEphemerides(_) => false,
    }
}

// Tells a capture without an epoch no date?
fn tells_no_date(capture: &StationCapture) -> bool
    ensures { result ≡ spec.tells_no_date capture.now }
{
    capture.span.is_none() && capture.moment.is_none()
}

fn epochs_fall(epochs: &Option<Span>) -> bool
    ensures { result ≡ spec.epochs_fall epochs.now }
{
    match epochs {
        Some(epochs) => epochs.falls,
        None => false,
    }
}

// Are there clocks that no words date? Words tell the week, and so not the day of 1012.
fn has_undated_clock(
    source: DateSource,
    taken: TakenClocks,
    leaves_1012: bool,
    clocks: &StationClocks,
) -> bool
    ensures { result ≡ spec.has_undated_clock source taken leaves_1012 clocks.now }
{
    has_day_clock(taken, leaves_1012, clocks)
        || (!is_by_words(source) && has_week_clock(taken, clocks))
}

// Appends the line of such a capture, if it has such clocks.
fn put_undated_clock(
    lines: &mut Vec<u8>,
    source: DateSource,
    taken: TakenClocks,
    leaves_1012: bool,
    capture: &StationCapture,
    clocks: &StationClocks,
    name: &str,
) -> Result<(), AllocError>
    ensures { OnOk result (lines.new.items ≡ lines.old.items
        ++ spec.undated_clock_line source taken leaves_1012 capture.now clocks.now name.now) }
{
    if tells_no_date(capture) && has_undated_clock(source, taken, leaves_1012, clocks) {
        put_undated_line(lines, name)
    } else {
        Ok(())
    }
}

// Appends the line of a capture whose clocks fall, unless its epochs do too.
fn put_falling_clock(
    lines: &mut Vec<u8>,
    taken: TakenClocks,
    capture: &StationCapture,
    clocks: &StationClocks,
    name: &str,
) -> Result<(), AllocError>
    ensures { OnOk result (lines.new.items ≡ lines.old.items
        ++ spec.falling_clock_line taken capture.now clocks.now name.now) }
{
    if taken_clock_falls(taken, clocks) && !epochs_fall(&capture.span) {
        put_name_line(lines, b" time-falls ", name)
    } else {
        Ok(())
    }
}

// Appends the moment that a message names, near which the first 1012 of a capture is dated, or in the week of a moment that is
// given.
fn put_day(lines: &mut Vec<u8>, told: &Told, name: &str) -> Result<(), AllocError>
    ensures { OnOk result (lines.new.items ≡ lines.old.items ++ spec.day_line told.now name.now) }
{
    lines.extend_from_slice(b" day-of-1012")?;
    put_date_line(lines, told, name)?;
    Ok(())
}

fn put_day_if_any(lines: &mut Vec<u8>, told: &Option<Told>, name: &str) -> Result<(), AllocError>
    ensures { OnOk result (lines.new.items ≡ lines.old.items ++ spec.day_line_if_any told.now name.now) }
{
    match told {
        Some(told) => put_day(lines, told, name),
        None => Ok(()),
    }
}

// Appends this line, if a capture has such 1012 and another message than a 1013 or a 1029 of the station names it: an ephemeris
// names the time that it is of, which may be hours off.
fn put_day_by_others(
    lines: &mut Vec<u8>,
    taken: TakenClocks,
    leaves_1012: bool,
    capture: &StationCapture,
    clocks: &StationClocks,
    name: &str,
) -> Result<(), AllocError>
    ensures { OnOk result (lines.new.items ≡ lines.old.items
        ++ spec.day_line_by_others taken leaves_1012 capture.now clocks.now name.now) }
{
    if has_day_clock(taken, leaves_1012, clocks) && !capture.is_moment_of_station {
        put_day_if_any(lines, &capture.moment, name)
    } else {
        Ok(())
    }
}

// Appends all lines of a capture.
fn put_clock_notes(
    lines: &mut Vec<u8>,
    source: DateSource,
    taken: TakenClocks,
    leaves_1012: bool,
    capture: &StationCapture,
    clocks: &StationClocks,
    name: &str,
) -> Result<(), AllocError>
    ensures { OnOk result (lines.new.items ≡ lines.old.items ++ spec.clock_notes source taken leaves_1012 capture.now clocks.now name.now) }
{
    put_undated_clock(lines, source, taken, leaves_1012, capture, clocks, name)?;
    put_falling_clock(lines, taken, capture, clocks, name)?;
    put_day_by_others(lines, taken, leaves_1012, capture, clocks, name)?;
    Ok(())
}

fn put_clock_notes_in(
    lines: &mut Vec<u8>,
    plan: &Plan,
    leaves_1012: bool,
    survey: &CaptureSurvey,
    name: &str,
) -> Result<(), AllocError>
    ensures { OnOk result (lines.new.items ≡ lines.old.items
        ++ spec.clock_notes_in plan.now.setup.station plan.now.span.source (clocks_taken plan.now.setup) leaves_1012 survey.now name.now) }
{
    let setup = &plan.setup;
    let station = setup.station();
    let capture = capture_of(station, survey);
    let clocks = clocks_in_survey(station, survey);
    let taken = clocks_taken(setup);
    let source = plan.span.source;
    put_clock_notes(lines, source, taken, leaves_1012, &capture, &clocks, name)
}

/// Appends the lines of all captures; 1012 may be left out since they can't be dated.
pub(crate) fn put_all_clock_notes(
    lines: &mut Vec<u8>,
    captures: &Captures<'_, '_>,
    plan: &Plan,
    leaves_1012: bool,
) -> Result<(), AllocError>
    ensures { OnOk result (lines.new.items ≡ lines.old.items
        ++ spec.all_clock_notes captures.now.names.now plan.now.span.source leaves_1012 plan.now.setup captures.now.surveys.now) }
{
    for (at, survey) in captures.surveys.iter().enumerate() {
        put_clock_notes_in(lines, plan, leaves_1012, survey, captures.name(at))?;
    }
    Ok(())
}
