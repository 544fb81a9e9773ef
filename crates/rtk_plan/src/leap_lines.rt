//! The lines of captures whose 1013 tell other leap seconds than a conversion has, and of leap seconds that were found.
//!
//! If memory is refused, a first part of what is put may stand there.

ghost use Rattle.std.specs.Prelude.{◌≡◌, ◌++◌, OnOk};
ghost use Rattle.std.specs.Option.{option_copied};
ghost use Rattle.rtk_plan.specs.LeapLines as spec;

use crate::planning::Plan;
use rtk_captures::{Captures, DatedSpan, put_name_line};
use rtk_message::put_named;
use rtk_obs::GpsMs;
use rtk_rinex::Glonass;
use rtk_setup::Setup;
use rtk_survey::{CaptureSurvey, LeapRange, table_seconds_at};
use rtk_systems::leap_in_capture;
use std::alloc::AllocError;

// ---- leap seconds that 1013 tell

// The leap seconds that date GLONASS at a moment: those that a setup has, else those of the table.
fn seconds_dating(given: Option<u8>, moment: GpsMs) -> u8
    ensures { result ≡ spec.seconds_dating given moment }
{
    match given {
        Some(given) => given,
        None => table_seconds_at(moment),
    }
}

// Those of the first and the last epoch.
fn seconds_of_file(setup: &Setup, span: &DatedSpan) -> LeapRange
    ensures { result ≡ spec.seconds_of_file setup.now.leap_seconds span.now }
{
    let given = setup.leap_seconds();
    LeapRange {
        least: seconds_dating(given, span.from),
        greatest: seconds_dating(given, span.until),
    }
}

// Do the 1013 of a capture tell no other leap seconds than these?
fn is_within(dating: LeapRange, range: &LeapRange) -> bool
    ensures { result ≡ spec.is_range_within dating range.now }
{
    dating.least <= range.least && range.greatest <= dating.greatest
}

fn put_to(lines: &mut Vec<u8>, greatest: u8) -> Result<(), AllocError>
    ensures { OnOk result (lines.new.items ≡ lines.old.items ++ spec.to_text greatest) }
{
    put_named(lines, b" to ", u64::from(greatest))?;
    Ok(())
}

fn put_greatest(lines: &mut Vec<u8>, range: &LeapRange) -> Result<(), AllocError>
    ensures { OnOk result (lines.new.items ≡ lines.old.items ++ spec.greatest_text range.now) }
{
    if range.least == range.greatest {
        Ok(())
    } else {
        put_to(lines, range.greatest)
    }
}

#[tactic(auto, unfolding(crate::specs::LeapLines::leap_words_of))]
fn put_leap_words(lines: &mut Vec<u8>, name: &str, range: &LeapRange) -> Result<(), AllocError>
    ensures { OnOk result (lines.new.items ≡ lines.old.items ++ spec.leap_words_of name.now range.now) }
{
    put_named(lines, b" other-leap-seconds ", u64::from(range.least))?;
    put_greatest(lines, range)?;
    put_name_line(lines, b" by 1013 in ", name)?;
    Ok(())
}

// Appends the line of a capture, if its 1013 tell other leap seconds than these.
fn put_other_range(
    lines: &mut Vec<u8>,
    dating: LeapRange,
    name: &str,
    range: &LeapRange,
) -> Result<(), AllocError>
    ensures { OnOk result (lines.new.items ≡ lines.old.items ++ spec.other_leap_range dating name.now range.now) }
{
    if is_within(dating, range) {
        return Ok(());
    }
    put_leap_words(lines, name, range)
}

fn put_other_leap(
    lines: &mut Vec<u8>,
    dating: LeapRange,
    name: &str,
    told: Option<&LeapRange>,
) -> Result<(), AllocError>
    ensures { OnOk result (lines.new.items ≡ lines.old.items ++ spec.other_leap_line dating name.now (option_copied told.entry)) }
{
    match told {
        Some(range) => put_other_range(lines, dating, name, range),
        None => Ok(()),
    }
}

fn put_other_leap_at(
    lines: &mut Vec<u8>,
    captures: &Captures<'_, '_>,
    station: u16,
    dating: LeapRange,
    at: usize,
    survey: &CaptureSurvey,
) -> Result<(), AllocError>
    ensures { OnOk result (lines.new.items ≡ lines.old.items ++ spec.other_leap_at captures.now.names.now station dating at survey.now) }
{
    put_other_leap(
        lines,
        dating,
        captures.name(at),
        leap_in_capture(station, survey),
    )?;
    Ok(())
}

fn put_all_other_leap(
    lines: &mut Vec<u8>,
    captures: &Captures<'_, '_>,
    station: u16,
    dating: LeapRange,
) -> Result<(), AllocError>
    ensures { OnOk result (lines.new.items ≡ lines.old.items ++ spec.all_other_leap captures.now.names.now station captures.now.surveys.now dating) }
{
    for (at, survey) in captures.surveys.iter().enumerate() {
        put_other_leap_at(lines, captures, station, dating, at, survey)?;
    }
    Ok(())
}

fn put_other_leap_if(
    lines: &mut Vec<u8>,
    captures: &Captures<'_, '_>,
    station: u16,
    dating: LeapRange,
    glonass: Option<Glonass>,
) -> Result<(), AllocError>
    ensures { OnOk result (lines.new.items ≡ lines.old.items ++ spec.other_leap_lines captures.now.names.now station captures.now.surveys.now dating glonass) }
{
    match glonass {
        Some(_) => put_all_other_leap(lines, captures, station, dating),
        None => Ok(()),
    }
}

// Appends the captures whose 1013 tell other leap seconds than a conversion of GLONASS has from the first to the last epoch.
fn put_other_leap_in(
    lines: &mut Vec<u8>,
    captures: &Captures<'_, '_>,
    setup: &Setup,
    span: &DatedSpan,
) -> Result<(), AllocError>
    ensures { OnOk result (lines.new.items ≡ lines.old.items
        ++ spec.other_leap_lines captures.now.names.now setup.now.station captures.now.surveys.now
        (spec.seconds_of_file setup.now.leap_seconds span.now) setup.now.head.glonass) }
{
    let dating = seconds_of_file(setup, span);
    let glonass = setup.head().glonass();
    put_other_leap_if(lines, captures, setup.station(), dating, glonass)?;
    Ok(())
}

// ---- leap seconds that were found

fn put_found_words(lines: &mut Vec<u8>, seconds: u8) -> Result<(), AllocError>
    ensures { OnOk result (lines.new.items ≡ lines.old.items ++ spec.found_leap_words seconds) }
{
    put_named(lines, b" leap-seconds ", u64::from(seconds))?;
    lines.extend_from_slice(b": by the clocks of GLONASS\n")?;
    Ok(())
}

// Appends the leap seconds of a conversion of GLONASS, if they were found.
fn put_found_leap(
    lines: &mut Vec<u8>,
    are_found: bool,
    glonass: Option<Glonass>,
) -> Result<(), AllocError>
    ensures { OnOk result (lines.new.items ≡ lines.old.items ++ spec.found_leap_line are_found glonass) }
{
    match glonass {
        Some(glonass) if are_found => put_found_words(lines, glonass.leap_seconds()),
        _ => Ok(()),
    }
}

// ---- both

/// Appends what a conversion of GLONASS has of leap seconds: the captures whose 1013 tell others, and that they were found.
pub(crate) fn put_leap_in(
    lines: &mut Vec<u8>,
    captures: &Captures<'_, '_>,
    plan: &Plan,
) -> Result<(), AllocError>
    ensures { OnOk result (lines.new.items ≡ lines.old.items
        ++ spec.leap_lines captures.now.names.now captures.now.surveys.now plan.now) }
{
    let setup = &plan.setup;
    put_other_leap_in(lines, captures, setup, &plan.span)?;
    put_found_leap(lines, plan.are_seconds_found, setup.head().glonass())?;
    Ok(())
}
