//! The leap seconds by which clocks of GLONASS are dated, if those of the table are not right by them.

ghost use Rattle.std.specs.Prelude.{◌≡◌, IfOk};
ghost use Rattle.std.specs.List.{list_all};
ghost use Rattle.std.specs.Option.{option_copied};
ghost use Rattle.rtk_message.specs.declared.system.System.TheVariants.{Glonass};
ghost use Rattle.rtk_systems.specs.ClockOffsets.{gps_offsets_in_capture};
ghost use Rattle.rtk_systems.specs.FoundSeconds as spec;

use crate::clock_offsets::{
    ahead_in_list, gps_offsets_in_captures, is_wrong_among, put_in_capture, told_among,
};
use crate::clock_seconds::ClockSeconds;
use rtk_message::System;
use rtk_obs::{GpsMs, WEEK_MS, leap_seconds_at};
use rtk_setup::LeapSeconds;
use rtk_survey::{CaptureSurvey, ClockOffset, LeapRange};
use std::alloc::{AllocError, Global};

// ---- one capture

// The leap seconds of the table on the day of each clock.
fn table_seconds(near: GpsMs) -> ClockSeconds
    ensures { result ≡ spec.table_seconds near }
{
    ClockSeconds { given: None, near }
}

fn is_frequent(right: u64, ahead: u32, told: Option<ClockOffset>) -> bool
    ensures { result ≡ spec.is_frequent right ahead told }
{
    match told {
        Some(offset) => offset.ahead_ms == ahead && right < offset.count,
        None => false,
    }
}

// Are the clocks of a list most often ahead of GPS time by this?
fn are_ahead(alloc: Global, ahead: u32, offsets: &[ClockOffset]) -> Result<bool, AllocError>
    ensures { IfOk result (λ is. is ≡ spec.are_ahead ahead offsets.now) }
{
    let right = ahead_in_list(0, offsets);
    let told = told_among(alloc, offsets)?;
    Ok(is_frequent(right, ahead, told))
}

// Are they, or is none compared?
fn are_ahead_if_any(alloc: Global, ahead: u32, offsets: &[ClockOffset]) -> Result<bool, AllocError>
    ensures { IfOk result (λ is. is ≡ spec.are_ahead_if_any ahead offsets.now) }
{
    if offsets.is_empty() {
        return Ok(true);
    }
    let ahead = are_ahead(alloc, ahead, offsets)?;
    Ok(ahead)
}

// The offsets of clocks of GLONASS in a capture.
fn gps_offsets_of_capture(
    alloc: Global,
    days: &ClockSeconds,
    station: u16,
    survey: &CaptureSurvey,
) -> Result<Vec<ClockOffset>, AllocError>
    ensures { IfOk result (λ list. list.items ≡ gps_offsets_in_capture days.now station Glonass survey.now) }
{
    let mut list = Vec::new(alloc);
    put_in_capture(&mut list, days, station, System::Glonass, survey)?;
    Ok(list)
}

fn is_ahead_in_capture(
    alloc: Global,
    station: u16,
    days: &ClockSeconds,
    ahead: u32,
    survey: &CaptureSurvey,
) -> Result<bool, AllocError>
    ensures { IfOk result (λ is. is ≡ spec.is_ahead_in_capture station days.now ahead survey.now) }
{
    let offsets = gps_offsets_of_capture(alloc, days, station, survey)?;
    let is = are_ahead_if_any(alloc, ahead, offsets.as_slice())?;
    Ok(is)
}

// Are no other leap seconds told than these?
fn is_alone(seconds: u64, range: &LeapRange) -> bool
    ensures { result ≡ spec.is_range_alone seconds range.now }
{
    u64::from(range.least) == seconds && u64::from(range.greatest) == seconds
}

fn is_told_alone(seconds: u64, told: Option<&LeapRange>) -> bool
    ensures { result ≡ spec.is_told_alone seconds (option_copied told.entry) }
{
    match told {
        Some(range) => is_alone(seconds, range),
        None => true,
    }
}

/// The leap seconds that the 1013 of a station in a capture tell.
pub fn leap_in_capture(station: u16, survey: &CaptureSurvey) -> Option<&LeapRange>
    ensures { option_copied result ≡ spec.leap_in_capture station survey.now }
{
    survey.contents.system_tellings.leap_seconds.get(&station)
}

fn agrees_in_capture(station: u16, seconds: u64, survey: &CaptureSurvey) -> bool
    ensures { result ≡ spec.agrees_in_capture station seconds survey.now }
{
    is_told_alone(seconds, leap_in_capture(station, survey))
}

// ---- all captures

// Are clocks of GLONASS ahead by this in all captures?
fn are_all_ahead(
    alloc: Global,
    surveys: &[CaptureSurvey],
    station: u16,
    days: &ClockSeconds,
    ahead: u32,
) -> Result<bool, AllocError>
    ensures { IfOk result (λ are. are ≡ list_all (spec.is_ahead_in_capture station days.now ahead) surveys.now) }
{
    for survey in surveys {
        if !is_ahead_in_capture(alloc, station, days, ahead, survey)? {
            return Ok(false);
        }
    }
    Ok(true)
}

fn do_all_agree(surveys: &[CaptureSurvey], station: u16, seconds: u64) -> bool
    ensures { result ≡ list_all (spec.agrees_in_capture station seconds) surveys.now }
{
    surveys
        .iter()
        .all(|survey| agrees_in_capture(station, seconds, survey))
}

fn all_agree(
    alloc: Global,
    surveys: &[CaptureSurvey],
    station: u16,
    days: &ClockSeconds,
    ahead: u32,
    seconds: u64,
) -> Result<bool, AllocError>
    ensures { IfOk result (λ agree. agree ≡ spec.all_agree surveys.now station days.now ahead seconds) }
{
    let are_ahead = are_all_ahead(alloc, surveys, station, days, ahead)?;
    Ok(are_ahead && do_all_agree(surveys, station, seconds))
}

// By how much clocks are behind GPS time, if they are ahead by this of where they are with the leap seconds of the table.
fn truly_behind(table: u8, ahead: u32) -> u64
    ensures { result ≡ spec.truly_behind table ahead }
{
    (1000 * u64::from(table) + WEEK_MS).saturating_sub(u64::from(ahead)) % WEEK_MS
}

fn whole_seconds(ms: u64) -> Option<LeapSeconds>
    ensures { result ≡ spec.whole_seconds ms }
{
    if ms % 1000 == 0 && ms <= 99_000 {
        LeapSeconds::new((ms / 1000) as u8)
    } else {
        None
    }
}

fn agreed_seconds(
    alloc: Global,
    surveys: &[CaptureSurvey],
    station: u16,
    days: &ClockSeconds,
    ahead: u32,
    seconds: Option<LeapSeconds>,
) -> Result<Option<LeapSeconds>, AllocError>
    ensures { IfOk result (λ agreed. agreed ≡ spec.agreed_seconds surveys.now station days.now ahead seconds) }
{
    let Some(told) = seconds else {
        return Ok(None);
    };
    let number = u64::from(told.number());
    let agree = all_agree(alloc, surveys, station, days, ahead, number)?;
    Ok(if agree { Some(told) } else { None })
}

fn seconds_by(
    alloc: Global,
    surveys: &[CaptureSurvey],
    station: u16,
    days: &ClockSeconds,
    table: u8,
    told: Option<ClockOffset>,
) -> Result<Option<LeapSeconds>, AllocError>
    ensures { IfOk result (λ seconds. seconds ≡ spec.seconds_by surveys.now station days.now table told) }
{
    let Some(offset) = told else {
        return Ok(None);
    };
    let ahead = offset.ahead_ms;
    let seconds = whole_seconds(truly_behind(table, ahead));
    let agreed = agreed_seconds(alloc, surveys, station, days, ahead, seconds)?;
    Ok(agreed)
}

// The leap seconds of clocks with these offsets, if these are wrong.
fn seconds_if_wrong(
    alloc: Global,
    surveys: &[CaptureSurvey],
    station: u16,
    days: &ClockSeconds,
    table: u8,
    all: &[ClockOffset],
) -> Result<Option<LeapSeconds>, AllocError>
    ensures { IfOk result (λ seconds. seconds ≡ spec.seconds_if_wrong surveys.now station days.now table all.now) }
{
    let is_wrong = is_wrong_among(alloc, all)?;
    if !is_wrong {
        return Ok(None);
    }
    let told = told_among(alloc, all)?;
    let seconds = seconds_by(alloc, surveys, station, days, table, told)?;
    Ok(seconds)
}

// The leap seconds by which clocks of GLONASS are right that are wrong by those of the table, if they are wrong by the
// same whole seconds everywhere.
fn seconds_found(
    alloc: Global,
    surveys: &[CaptureSurvey],
    station: u16,
    days: &ClockSeconds,
    table: u8,
) -> Result<Option<LeapSeconds>, AllocError>
    ensures { IfOk result (λ seconds. seconds ≡ spec.seconds_found surveys.now station days.now table) }
{
    let all = gps_offsets_in_captures(alloc, days, surveys, station, System::Glonass)?;
    let seconds = seconds_if_wrong(alloc, surveys, station, days, table, all.as_slice())?;
    Ok(seconds)
}

// ---- the leap seconds of a setup

fn seconds_found_if(
    alloc: Global,
    asked: bool,
    surveys: &[CaptureSurvey],
    station: u16,
    days: &ClockSeconds,
    table: u8,
    first: u8,
    last: u8,
) -> Result<Option<LeapSeconds>, AllocError>
    ensures { IfOk result (λ seconds. seconds ≡ spec.seconds_found_if asked surveys.now station days.now table first last) }
{
    if !(asked && first == last) {
        return Ok(None);
    }
    let seconds = seconds_found(alloc, surveys, station, days, table)?;
    Ok(seconds)
}

/// The leap seconds that are found in captures that are dated near a moment, with epochs from one moment until another, if
/// GLONASS is asked for.
pub fn seconds_in_captures(
    alloc: Global,
    asked: bool,
    surveys: &[CaptureSurvey],
    station: u16,
    near: GpsMs,
    from: GpsMs,
    until: GpsMs,
) -> Result<Option<LeapSeconds>, AllocError>
    ensures { IfOk result (spec.AreSecondsFound asked surveys.now station near from until) }
{
    let table = leap_seconds_at(near);
    let first = leap_seconds_at(from);
    let last = leap_seconds_at(until);
    let days = table_seconds(near);
    let seconds = seconds_found_if(alloc, asked, surveys, station, &days, table, first, last)?;
    Ok(seconds)
}
