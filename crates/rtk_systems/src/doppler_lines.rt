//! The lines of Doppler that is not in the file.
//!
//! If memory is refused, a first part of what is put may stand there.

ghost use Rattle.std.specs.Prelude.{◌≡◌, ◌++◌, flat_map, OnOk};
ghost use Rattle.std.specs.Option.{option_copied};
ghost use Rattle.rtk_systems.specs.DopplerLines as spec;

use crate::message_lines::put_count_line;
use crate::system_msms::SYSTEMS;
use crate::values::is_gps_system;
use rtk_message::{Accepted, MsmKind, MsmType, System};
use rtk_survey::{CaptureSurvey, StationSurvey, messages_numbered};
use std::alloc::AllocError;

// How many messages of an MSM of any system came.
fn typed_in_station(msm: MsmType, station: &StationSurvey) -> u64
    ensures { result ≡ spec.typed_in_station msm station.now }
{
    if is_gps_system(msm.system) {
        station.msm.part(msm.kind).messages
    } else {
        messages_numbered(&station.system_msm, msm.number())
    }
}

fn typed_of_station(msm: MsmType, station: Option<&StationSurvey>) -> u64
    ensures { result ≡ spec.typed_of_station msm (option_copied station.entry) }
{
    match station {
        Some(station) => typed_in_station(msm, station),
        None => 0,
    }
}

// How many messages of an MSM of any system captures have of a station.
fn typed_in_captures(surveys: &[CaptureSurvey], station: u16, msm: MsmType) -> u64
    ensures { result ≡ spec.typed_in_captures surveys.now station msm }
{
    let mut count = 0u64;
    for survey in surveys {
        let more = typed_of_station(msm, survey.contents.stations.get(&station));
        count = count.saturating_add(more);
    }
    count
}

// Appends the line of the Doppler of messages of a number, if they are taken.
fn put_doppler_numbered(
    lines: &mut Vec<u8>,
    taken: Accepted,
    number: u16,
    count: u64,
) -> Result<(), AllocError>
    ensures { OnOk result (lines.new.items ≡ lines.old.items ++ spec.doppler_line_of taken number count) }
{
    if !taken.accepts(number) {
        return Ok(());
    }
    put_count_line(lines, b" not in the file: Doppler of ", number, count)
}

// Appends the line of the Doppler of an MSM, if it is taken.
fn put_doppler_of(
    lines: &mut Vec<u8>,
    surveys: &[CaptureSurvey],
    station: u16,
    taken: Accepted,
    msm: MsmType,
) -> Result<(), AllocError>
    ensures { OnOk result (lines.new.items ≡ lines.old.items ++ spec.doppler_of_type taken surveys.now station msm) }
{
    let count = typed_in_captures(surveys, station, msm);
    put_doppler_numbered(lines, taken, msm.number(), count)?;
    Ok(())
}

fn put_doppler_of_kind(
    lines: &mut Vec<u8>,
    surveys: &[CaptureSurvey],
    station: u16,
    taken: Accepted,
    system: System,
    kind: MsmKind,
) -> Result<(), AllocError>
    ensures { OnOk result (lines.new.items ≡ lines.old.items ++ spec.doppler_of_kind taken surveys.now station system kind) }
{
    put_doppler_of(lines, surveys, station, taken, MsmType { system, kind })
}

// Appends a line for each MSM of a system that is taken and has Doppler.
fn put_doppler_of_system(
    lines: &mut Vec<u8>,
    surveys: &[CaptureSurvey],
    station: u16,
    taken: Accepted,
    system: System,
) -> Result<(), AllocError>
    ensures { OnOk result (lines.new.items ≡ lines.old.items ++ spec.doppler_of_system taken surveys.now station system) }
{
    put_doppler_of_kind(lines, surveys, station, taken, system, MsmKind::Msm5)?;
    put_doppler_of_kind(lines, surveys, station, taken, system, MsmKind::Msm7)?;
    Ok(())
}

fn put_doppler_among(
    lines: &mut Vec<u8>,
    surveys: &[CaptureSurvey],
    station: u16,
    taken: Accepted,
    systems: &[System],
) -> Result<(), AllocError>
    ensures { OnOk result (lines.new.items ≡ lines.old.items ++ flat_map (spec.doppler_of_system taken surveys.now station) systems.now) }
{
    for system in systems {
        put_doppler_of_system(lines, surveys, station, taken, *system)?;
    }
    Ok(())
}

fn put_all_doppler(
    lines: &mut Vec<u8>,
    surveys: &[CaptureSurvey],
    station: u16,
    taken: Accepted,
) -> Result<(), AllocError>
    ensures { OnOk result (lines.new.items ≡ lines.old.items ++ spec.doppler_lines taken surveys.now station) }
{
    put_doppler_among(lines, surveys, station, taken, &SYSTEMS)
}

/// Appends a line for each MSM that is taken and has Doppler, unless the file shows Doppler shifts.
pub fn put_doppler(
    lines: &mut Vec<u8>,
    surveys: &[CaptureSurvey],
    station: u16,
    taken: Accepted,
    is_shown: bool,
) -> Result<(), AllocError>
    ensures { OnOk result (lines.new.items ≡ lines.old.items ++ spec.doppler_lines_unless is_shown taken surveys.now station) }
{
    if is_shown {
        return Ok(());
    }
    put_all_doppler(lines, surveys, station, taken)
}
