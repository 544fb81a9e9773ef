//! The lines of systems whose clocks differ from those of their chains.
//!
//! If memory is refused, a first part of what is put may stand there.

ghost use Rattle.std.specs.Prelude.{◌≡◌, ◌++◌, flat_map, IfOk, OnOk};
ghost use Rattle.rtk_systems.specs.ClockOffsets as spec;

use crate::clock_offsets::{gps_offsets_in_captures, told_among};
use crate::clock_seconds::ClockSeconds;
use crate::message_lines::put_held;
use rtk_message::System;
use rtk_obs::letter_of;
use rtk_rinex::SystemFlags;
use rtk_survey::{CaptureSurvey, ClockOffset, compared_clocks, put_clock_line};
use std::alloc::{AllocError, Global};

/// The systems whose clocks are compared with those of GPS, in the order of a file.
const COMPARED: [System; 6] = [
    System::Glonass,
    System::Galileo,
    System::Beidou,
    System::Qzss,
    System::Sbas,
    System::Navic,
];

// Appends the line of a system whose clocks have these offsets, if one is not 0.
fn put_told_line(
    alloc: Global,
    lines: &mut Vec<u8>,
    system: System,
    all: &[ClockOffset],
) -> Result<(), AllocError>
    ensures { OnOk result (lines.new.items ≡ lines.old.items ++ spec.told_line_of system all.now) }
{
    let told = told_among(alloc, all)?;
    put_clock_line(lines, letter_of(system), compared_clocks(all), told)?;
    Ok(())
}

// Appends the line of a system, if its clocks differ from those of their chains.
fn put_told_clock(
    alloc: Global,
    lines: &mut Vec<u8>,
    surveys: &[CaptureSurvey],
    station: u16,
    seconds: &ClockSeconds,
    system: System,
) -> Result<(), AllocError>
    ensures { OnOk result (lines.new.items ≡ lines.old.items ++ spec.told_clock_line surveys.now station seconds.now system) }
{
    let all = gps_offsets_in_captures(alloc, seconds, surveys, station, system)?;
    put_told_line(alloc, lines, system, all.as_slice())?;
    Ok(())
}

// The same of a system, if it is asked for.
fn put_asked_clock(
    alloc: Global,
    lines: &mut Vec<u8>,
    asked: SystemFlags,
    surveys: &[CaptureSurvey],
    station: u16,
    seconds: &ClockSeconds,
    system: System,
) -> Result<(), AllocError>
    ensures { OnOk result (lines.new.items ≡ lines.old.items ++ spec.asked_clock_line asked surveys.now station seconds.now system) }
{
    if !asked.has(system) {
        return Ok(());
    }
    put_told_clock(alloc, lines, surveys, station, seconds, system)?;
    Ok(())
}

fn put_clocks_among(
    alloc: Global,
    lines: &mut Vec<u8>,
    asked: SystemFlags,
    surveys: &[CaptureSurvey],
    station: u16,
    seconds: &ClockSeconds,
    systems: &[System],
) -> Result<(), AllocError>
    ensures { OnOk result (lines.new.items ≡ lines.old.items
        ++ flat_map (spec.asked_clock_line asked surveys.now station seconds.now) systems.now) }
{
    for system in systems {
        put_asked_clock(alloc, lines, asked, surveys, station, seconds, *system)?;
    }
    Ok(())
}

/// Appends the lines of the systems among those that are asked for whose clocks differ from those of their chains.
#[tactic(auto, unfolding(crate::specs::ClockOffsets::told_clock_lines))]
pub fn put_told_clocks(
    alloc: Global,
    lines: &mut Vec<u8>,
    asked: SystemFlags,
    surveys: &[CaptureSurvey],
    station: u16,
    seconds: &ClockSeconds,
) -> Result<(), AllocError>
    ensures { OnOk result (lines.new.items ≡ lines.old.items ++ spec.told_clock_lines asked surveys.now station seconds.now) }
{
    put_clocks_among(alloc, lines, asked, surveys, station, seconds, &COMPARED)
}

/// What captures hold in which no code of the systems that are asked for is found: the lines of those systems whose clocks
/// differ, and a line for each number of messages.
pub fn list_without_code(
    alloc: Global,
    asked: SystemFlags,
    surveys: &[CaptureSurvey],
    station: u16,
    seconds: &ClockSeconds,
) -> Result<Vec<u8>, AllocError>
    ensures { IfOk result (λ lines. lines.items ≡ spec.held_without_code asked surveys.now station seconds.now) }
{
    let mut lines = Vec::new(alloc);
    put_told_clocks(alloc, &mut lines, asked, surveys, station, seconds)?;
    put_held(&mut lines, surveys)?;
    Ok(lines)
}
