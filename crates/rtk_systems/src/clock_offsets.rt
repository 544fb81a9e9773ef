//! How far the clocks of a station's systems are apart in captures, and which systems are left out by them.

ghost use Rattle.std.specs.Prelude.{◌≡◌, ◌++◌, map, IfOk, OnOk};
ghost use Rattle.std.specs.Option.{option_copied};
ghost use Rattle.rtk_systems.specs.ClockOffsets as spec;

use crate::clock_seconds::ClockSeconds;
use crate::values::is_glonass_system;
use rtk_message::System;
use rtk_obs::WEEK_MS;
use rtk_rinex::SystemFlags;
use rtk_survey::{
    CaptureSurvey, ClockOffset, ClockOffsets, ClockSurvey, DayOffset, StationSurvey,
    compared_clocks, told_offset,
};
use std::alloc::{AllocError, Global};

/// An offset of so many ms or more is wrong.
const WRONG_MS: u64 = 500;

// ---- the offsets of captures

fn offsets_in_clocks(system: System, clocks: &[ClockSurvey]) -> &[ClockOffset]
    ensures { result.now ≡ spec.offsets_in_clocks system clocks.now }
{
    match clocks.first() {
        Some(clocks) => clocks.offsets.of(system),
        None => &[],
    }
}

fn offsets_of_station(system: System, station: Option<&StationSurvey>) -> &[ClockOffset]
    ensures { result.now ≡ spec.offsets_of_station system (option_copied station.entry) }
{
    match station {
        Some(station) => offsets_in_clocks(system, station.clocks.as_slice()),
        None => &[],
    }
}

// The offsets of a system within the chains of a capture.
fn offsets_in_capture(station: u16, system: System, survey: &CaptureSurvey) -> &[ClockOffset]
    ensures { result.now ≡ spec.offsets_in_capture station system survey.now }
{
    offsets_of_station(system, survey.contents.stations.get(&station))
}

/// How many clocks of a system are compared.
pub(crate) fn clocks_compared(surveys: &[CaptureSurvey], station: u16, system: System) -> u64
    ensures { result ≡ spec.clocks_compared surveys.now station system }
{
    let mut count = 0u64;
    for survey in surveys {
        let more = compared_clocks(offsets_in_capture(station, system, survey));
        count = count.saturating_add(more);
    }
    count
}

// ---- the offsets of GPS time

// The offset of GPS time, in ms, of clocks that are so many seconds behind it.
fn gps_ahead(seconds: u8, ahead: u32) -> u32
    ensures { result ≡ spec.gps_ahead seconds ahead }
{
    ((u64::from(ahead) + 1000 * u64::from(seconds)) % WEEK_MS) as u32
}

fn offset_on_day(seconds: &ClockSeconds, offset: DayOffset) -> ClockOffset
    ensures { result ≡ spec.offset_on_day seconds.now offset }
{
    ClockOffset {
        ahead_ms: gps_ahead(seconds.on(offset.day), offset.ahead_ms),
        count: offset.count,
    }
}

// Appends the offsets of clocks of GLONASS.
fn put_days(
    list: &mut Vec<ClockOffset>,
    seconds: &ClockSeconds,
    days: &[DayOffset],
) -> Result<(), AllocError>
    ensures { OnOk result (list.new.items ≡ list.old.items ++ map (spec.offset_on_day seconds.now) days.now) }
{
    for offset in days {
        list.push(offset_on_day(seconds, *offset))?;
    }
    Ok(())
}

// Appends the offsets of clocks of a system.
fn put_by(
    list: &mut Vec<ClockOffset>,
    seconds: &ClockSeconds,
    system: System,
    offsets: &ClockOffsets,
) -> Result<(), AllocError>
    ensures { OnOk result (list.new.items ≡ list.old.items ++ spec.gps_offsets_by seconds.now system offsets.now) }
{
    if is_glonass_system(system) {
        put_days(list, seconds, offsets.glonass_days.as_slice())
    } else {
        list.extend_from_slice(offsets.of(system))
    }
}

fn put_in_clocks(
    list: &mut Vec<ClockOffset>,
    seconds: &ClockSeconds,
    system: System,
    clocks: &[ClockSurvey],
) -> Result<(), AllocError>
    ensures { OnOk result (list.new.items ≡ list.old.items ++ spec.gps_offsets_in_clocks seconds.now system clocks.now) }
{
    match clocks.first() {
        Some(clocks) => put_by(list, seconds, system, &clocks.offsets),
        None => Ok(()),
    }
}

fn put_of_station(
    list: &mut Vec<ClockOffset>,
    seconds: &ClockSeconds,
    system: System,
    station: Option<&StationSurvey>,
) -> Result<(), AllocError>
    ensures { OnOk result (list.new.items ≡ list.old.items ++ spec.gps_offsets_of_station seconds.now system (option_copied station.entry)) }
{
    match station {
        Some(station) => put_in_clocks(list, seconds, system, station.clocks.as_slice()),
        None => Ok(()),
    }
}

/// Appends the offsets of a system within the chains of a capture.
pub(crate) fn put_in_capture(
    list: &mut Vec<ClockOffset>,
    seconds: &ClockSeconds,
    station: u16,
    system: System,
    survey: &CaptureSurvey,
) -> Result<(), AllocError>
    ensures { OnOk result (list.new.items ≡ list.old.items ++ spec.gps_offsets_in_capture seconds.now station system survey.now) }
{
    put_of_station(
        list,
        seconds,
        system,
        survey.contents.stations.get(&station),
    )
}

/// The offsets of a system within the chains of all captures.
pub(crate) fn gps_offsets_in_captures(
    alloc: Global,
    seconds: &ClockSeconds,
    surveys: &[CaptureSurvey],
    station: u16,
    system: System,
) -> Result<Vec<ClockOffset>, AllocError>
    ensures { IfOk result (λ list. list.items ≡ spec.gps_offsets_in_captures seconds.now surveys.now station system) }
{
    let mut list = Vec::new(alloc);
    for survey in surveys {
        put_in_capture(&mut list, seconds, station, system, survey)?;
    }
    Ok(list)
}

// ---- how many clocks have an offset

fn count_if_ahead(ahead: u32, offset: ClockOffset) -> u64
    ensures { result ≡ spec.count_if_ahead ahead offset }
{
    if offset.ahead_ms == ahead {
        offset.count
    } else {
        0
    }
}

/// How many clocks of a list are ahead by this.
pub(crate) fn ahead_in_list(ahead: u32, offsets: &[ClockOffset]) -> u64
    ensures { result ≡ spec.ahead_in_list ahead offsets.now }
{
    let mut count = 0u64;
    for offset in offsets {
        count = count.saturating_add(count_if_ahead(ahead, *offset));
    }
    count
}

fn total_among(all: &[ClockOffset], offset: ClockOffset) -> ClockOffset
    ensures { result ≡ spec.total_among all.now offset }
{
    ClockOffset {
        ahead_ms: offset.ahead_ms,
        count: ahead_in_list(offset.ahead_ms, all),
    }
}

// The offsets of a list, each with the count of all.
fn totals_among(alloc: Global, all: &[ClockOffset]) -> Result<Vec<ClockOffset>, AllocError>
    ensures { IfOk result (λ totals. totals.items ≡ map (spec.total_among all.now) all.now) }
{
    let mut totals = Vec::new(alloc);
    for offset in all {
        totals.push(total_among(all, *offset))?;
    }
    Ok(totals)
}

/// The offset that is told of a list.
pub(crate) fn told_among(
    alloc: Global,
    all: &[ClockOffset],
) -> Result<Option<ClockOffset>, AllocError>
    ensures { IfOk result (λ told. told ≡ spec.told_among all.now) }
{
    let totals = totals_among(alloc, all)?;
    Ok(told_offset(totals.as_slice()))
}

// ---- systems that are left out

fn is_wrong_offset(right: u64, told: Option<ClockOffset>) -> bool
    ensures { result ≡ spec.is_wrong_offset right told }
{
    match told {
        Some(offset) => {
            let ahead = u64::from(offset.ahead_ms);
            WRONG_MS <= ahead && (ahead <= WEEK_MS - WRONG_MS && right < offset.count)
        }
        None => false,
    }
}

/// Have more clocks of a list an offset of 500 ms or more than are right?
pub(crate) fn is_wrong_among(alloc: Global, all: &[ClockOffset]) -> Result<bool, AllocError>
    ensures { IfOk result (λ wrong. wrong ≡ spec.is_wrong_among all.now) }
{
    let right = ahead_in_list(0, all);
    let told = told_among(alloc, all)?;
    Ok(is_wrong_offset(right, told))
}

// Are the clocks of a system right, by these leap seconds?
fn is_clock_right(
    alloc: Global,
    surveys: &[CaptureSurvey],
    station: u16,
    seconds: &ClockSeconds,
    system: System,
) -> Result<bool, AllocError>
    ensures { IfOk result (λ right. right ≡ spec.is_clock_right surveys.now station seconds.now system) }
{
    let all = gps_offsets_in_captures(alloc, seconds, surveys, station, system)?;
    Ok(!is_wrong_among(alloc, all.as_slice())?)
}

/// The systems whose clocks are not wrong, by these leap seconds.
pub fn systems_with_clocks(
    alloc: Global,
    surveys: &[CaptureSurvey],
    station: u16,
    seconds: &ClockSeconds,
) -> Result<SystemFlags, AllocError>
    ensures { IfOk result (λ systems. systems ≡ spec.systems_with_clocks surveys.now station seconds.now) }
{
    Ok(SystemFlags {
        gps: true,
        glonass: is_clock_right(alloc, surveys, station, seconds, System::Glonass)?,
        galileo: is_clock_right(alloc, surveys, station, seconds, System::Galileo)?,
        beidou: is_clock_right(alloc, surveys, station, seconds, System::Beidou)?,
        qzss: is_clock_right(alloc, surveys, station, seconds, System::Qzss)?,
        sbas: is_clock_right(alloc, surveys, station, seconds, System::Sbas)?,
        navic: is_clock_right(alloc, surveys, station, seconds, System::Navic)?,
    })
}
