//! The systems whose clocks no chain compares with that of another system.
//!
//! If memory is refused, a first part of what is put may stand there.

ghost use Rattle.std.specs.Prelude.{◌≡◌, ◌++◌, flat_map, OnOk};
ghost use Rattle.std.specs.List.{list_any};
ghost use Rattle.std.specs.Option.{option_copied};
ghost use Rattle.rtk_systems.specs.UncheckedSystems as spec;

use crate::clock_offsets::clocks_compared;
use crate::system_msms::SYSTEMS;
use crate::values::{is_glonass_system, is_gps_system};
use rtk_message::{MsmKind, MsmType, System};
use rtk_obs::letter_of;
use rtk_setup::Setup;
use rtk_survey::{CaptureSurvey, StationSurvey};
use std::alloc::AllocError;

/// The kinds of MSM that are read.
const KINDS: [MsmKind; 4] = [MsmKind::Msm4, MsmKind::Msm5, MsmKind::Msm6, MsmKind::Msm7];

/// The systems that time chains before others do.
const BEFORE_GALILEO: [System; 1] = [System::Gps];

const BEFORE_QZSS: [System; 2] = [System::Gps, System::Galileo];

const BEFORE_SBAS: [System; 3] = [System::Gps, System::Galileo, System::Qzss];

const BEFORE_NAVIC: [System; 4] = [System::Gps, System::Galileo, System::Qzss, System::Sbas];

// ---- the systems that a station sends

fn has_msm(system: System, station: &StationSurvey, kind: MsmKind) -> bool
    ensures { result ≡ spec.has_msm system station.now kind }
{
    let msm = MsmType { system, kind };
    station.system_msm.get(&msm.number()).is_some()
}

fn has_some_msm(system: System, station: &StationSurvey) -> bool
    ensures { result ≡ list_any (spec.has_msm system station.now) spec.kinds_in_order }
{
    KINDS.iter().any(|kind| has_msm(system, station, *kind))
}

fn has_1012(station: &StationSurvey) -> bool
    ensures { result ≡ spec.has_1012 station.now }
{
    station.system_msm.get(&1012).is_some()
}

fn sends_beside(system: System, station: &StationSurvey) -> bool
    ensures { result ≡ spec.sends_beside system station.now }
{
    has_some_msm(system, station) || (is_glonass_system(system) && has_1012(station))
}

fn has_gps_messages(station: &StationSurvey) -> bool
    ensures { result ≡ spec.has_gps_messages station.now }
{
    0 < station.counts.obs_1004
        || (0 < station.msm.msm4.messages
            || (0 < station.msm.msm5.messages
                || (0 < station.msm.msm6.messages || 0 < station.msm.msm7.messages)))
}

fn sends_system(system: System, station: &StationSurvey) -> bool
    ensures { result ≡ spec.sends_system system station.now }
{
    if is_gps_system(system) {
        has_gps_messages(station)
    } else {
        sends_beside(system, station)
    }
}

fn station_sends(system: System, station: Option<&StationSurvey>) -> bool
    ensures { result ≡ spec.station_sends system (option_copied station.entry) }
{
    match station {
        Some(station) => sends_system(system, station),
        None => false,
    }
}

fn sends_in_capture(station: u16, system: System, survey: &CaptureSurvey) -> bool
    ensures { result ≡ spec.sends_in_capture station system survey.now }
{
    station_sends(system, survey.contents.stations.get(&station))
}

fn is_system_sent(surveys: &[CaptureSurvey], station: u16, system: System) -> bool
    ensures { result ≡ spec.is_system_sent surveys.now station system }
{
    surveys
        .iter()
        .any(|survey| sends_in_capture(station, system, survey))
}

// ---- the system that times the chains

fn times_chains(system: System) -> bool
    ensures { result ≡ spec.times_chains system }
{
    match system {
        System::Gps | System::Galileo | System::Qzss | System::Sbas | System::Navic => true,
        System::Glonass | System::Beidou => false,
    }
}

// Is one of these systems sent?
fn is_one_sent(surveys: &[CaptureSurvey], station: u16, systems: &[System]) -> bool
    ensures { result ≡ list_any (spec.is_system_sent surveys.now station) systems.now }
{
    systems
        .iter()
        .any(|system| is_system_sent(surveys, station, *system))
}

// Is a system sent that times chains before this one does?
fn is_one_sent_before(surveys: &[CaptureSurvey], station: u16, system: System) -> bool
    ensures { result ≡ list_any (spec.is_system_sent surveys.now station) (spec.timing_before system) }
{
    match system {
        System::Gps | System::Glonass | System::Beidou => false,
        System::Galileo => is_one_sent(surveys, station, &BEFORE_GALILEO),
        System::Qzss => is_one_sent(surveys, station, &BEFORE_QZSS),
        System::Sbas => is_one_sent(surveys, station, &BEFORE_SBAS),
        System::Navic => is_one_sent(surveys, station, &BEFORE_NAVIC),
    }
}

// Is this the first system of a station that times chains?
fn is_first_timing(surveys: &[CaptureSurvey], station: u16, system: System) -> bool
    ensures { result ≡ spec.is_first_timing surveys.now station system }
{
    times_chains(system) && !is_one_sent_before(surveys, station, system)
}

// ---- the lines

// Is no clock of a system that is sent and converted compared?
fn is_system_unchecked(
    setup: &Setup,
    surveys: &[CaptureSurvey],
    station: u16,
    system: System,
) -> bool
    ensures { result ≡ spec.is_system_unchecked setup.now.head.listed surveys.now station system }
{
    setup.lists(system)
        && is_system_sent(surveys, station, system)
        && clocks_compared(surveys, station, system) == 0
        && !is_first_timing(surveys, station, system)
}

fn put_unchecked_line(
    lines: &mut Vec<u8>,
    setup: &Setup,
    surveys: &[CaptureSurvey],
    station: u16,
    system: System,
) -> Result<(), AllocError>
    ensures { OnOk result (lines.new.items ≡ lines.old.items ++ spec.unchecked_system_line setup.now.head.listed surveys.now station system) }
{
    if !is_system_unchecked(setup, surveys, station, system) {
        return Ok(());
    }
    lines.extend_from_slice(b" unchecked ")?;
    lines.push(letter_of(system))?;
    lines.push(b'\n')?;
    Ok(())
}

fn put_unchecked_among(
    lines: &mut Vec<u8>,
    setup: &Setup,
    surveys: &[CaptureSurvey],
    station: u16,
    systems: &[System],
) -> Result<(), AllocError>
    ensures { OnOk result (lines.new.items ≡ lines.old.items ++ flat_map (spec.unchecked_system_line setup.now.head.listed surveys.now station) systems.now) }
{
    for system in systems {
        put_unchecked_line(lines, setup, surveys, station, *system)?;
    }
    Ok(())
}

/// Appends the systems of a conversion of which no clock is compared.
pub fn put_unchecked(
    lines: &mut Vec<u8>,
    setup: &Setup,
    surveys: &[CaptureSurvey],
    station: u16,
) -> Result<(), AllocError>
    ensures { OnOk result (lines.new.items ≡ lines.old.items ++ spec.unchecked_system_lines setup.now.head.listed surveys.now station) }
{
    put_unchecked_among(lines, setup, surveys, station, &SYSTEMS)
}
