//! The lines of values that no file can have, since their satellite or their signal has no name in RINEX.
//!
//! If memory is refused, a first part of what is put may stand there.

ghost use Rattle.std.specs.Prelude.{◌≡◌, ◌++◌, flat_map, OnOk};
ghost use Rattle.std.specs.Option.{option_copied};
ghost use Rattle.rtk_systems.specs.NamelessLines as spec;

use crate::message_lines::put_counted;
use crate::system_msms::SYSTEMS;
use crate::values::TakenMessages;
use rtk_message::{MsmType, System};
use rtk_setup::Setup;
use rtk_survey::{CaptureSurvey, StationSurvey, count_of_number};
use std::alloc::AllocError;

// How many 1012 have cells without a name, if 1012 are taken.
fn nameless_1012(taken: TakenMessages, station: &StationSurvey) -> u64
    ensures { result ≡ spec.nameless_1012 taken station.now }
{
    if taken.obs1012 {
        count_of_number(&station.nameless, 1012)
    } else {
        0
    }
}

// How many 1004 have cells without a name, if no code of GPS is listed.
fn nameless_1004_without(has_gps: bool, station: &StationSurvey) -> u64
    ensures { result ≡ spec.nameless_1004_without has_gps station.now }
{
    if has_gps {
        0
    } else {
        count_of_number(&station.nameless, 1004)
    }
}

// The same of the messages of a system that are no MSM. Unknown satellites of 1004 count to GPS, or if it is left out to SBAS.
fn nameless_beside_msm(
    system: System,
    has_gps: bool,
    taken: TakenMessages,
    station: &StationSurvey,
) -> u64
    ensures { result ≡ spec.nameless_beside_msm system has_gps taken station.now }
{
    match system {
        System::Gps => count_of_number(&station.nameless, 1004),
        System::Glonass => nameless_1012(taken, station),
        System::Sbas => nameless_1004_without(has_gps, station),
        System::Galileo | System::Beidou | System::Qzss | System::Navic => 0,
    }
}

// How many MSM of this type have cells without a name.
fn nameless_typed(msm: MsmType, station: &StationSurvey) -> u64
    ensures { result ≡ spec.nameless_typed msm station.now }
{
    count_of_number(&station.nameless, msm.number())
}

// The same of all messages of a system that are taken.
fn nameless_in_station(
    system: System,
    has_gps: bool,
    taken: TakenMessages,
    station: &StationSurvey,
) -> u64
    ensures { result ≡ spec.nameless_in_station system has_gps taken station.now }
{
    let msm = MsmType {
        system,
        kind: taken.kinds.kind(system),
    };
    let beside = nameless_beside_msm(system, has_gps, taken, station);
    nameless_typed(msm, station).saturating_add(beside)
}

fn nameless_of_station(
    system: System,
    has_gps: bool,
    taken: TakenMessages,
    station: Option<&StationSurvey>,
) -> u64
    ensures { result ≡ spec.nameless_of_station system has_gps taken (option_copied station.entry) }
{
    match station {
        Some(station) => nameless_in_station(system, has_gps, taken, station),
        None => 0,
    }
}

// How many such messages captures have of a station.
fn nameless_in_captures(
    surveys: &[CaptureSurvey],
    station: u16,
    has_gps: bool,
    taken: TakenMessages,
    system: System,
) -> u64
    ensures { result ≡ spec.nameless_in_captures surveys.now station has_gps taken system }
{
    let mut count = 0u64;
    for survey in surveys {
        let heard = survey.contents.stations.get(&station);
        count = count.saturating_add(nameless_of_station(system, has_gps, taken, heard));
    }
    count
}

fn nameless_words(system: System) -> &'static [u8]
    ensures { result.now ≡ spec.nameless_words system }
{
    match system {
        System::Gps => b" without-name G ",
        System::Glonass => b" without-name R ",
        System::Galileo => b" without-name E ",
        System::Beidou => b" without-name C ",
        System::Qzss => b" without-name J ",
        System::Sbas => b" without-name S ",
        System::Navic => b" without-name I ",
    }
}

// Appends the line of a system that is converted.
fn put_nameless_line(
    lines: &mut Vec<u8>,
    setup: &Setup,
    surveys: &[CaptureSurvey],
    station: u16,
    taken: TakenMessages,
    system: System,
) -> Result<(), AllocError>
    ensures { OnOk result (lines.new.items ≡ lines.old.items ++ spec.nameless_line setup.now.head.listed surveys.now station taken system) }
{
    if !setup.lists(system) {
        return Ok(());
    }
    let has_gps = setup.lists(System::Gps);
    let count = nameless_in_captures(surveys, station, has_gps, taken, system);
    put_counted(lines, nameless_words(system), count, b"\n")
}

fn put_nameless_among(
    lines: &mut Vec<u8>,
    setup: &Setup,
    surveys: &[CaptureSurvey],
    station: u16,
    taken: TakenMessages,
    systems: &[System],
) -> Result<(), AllocError>
    ensures { OnOk result (lines.new.items ≡ lines.old.items ++ flat_map (spec.nameless_line setup.now.head.listed surveys.now station taken) systems.now) }
{
    for system in systems {
        put_nameless_line(lines, setup, surveys, station, taken, *system)?;
    }
    Ok(())
}

/// Appends a line for each system that is converted and has messages with cells without a name.
pub fn put_nameless(
    lines: &mut Vec<u8>,
    setup: &Setup,
    surveys: &[CaptureSurvey],
    station: u16,
    taken: TakenMessages,
) -> Result<(), AllocError>
    ensures { OnOk result (lines.new.items ≡ lines.old.items ++ spec.nameless_lines setup.now.head.listed surveys.now station taken) }
{
    put_nameless_among(lines, setup, surveys, station, taken, &SYSTEMS)
}
