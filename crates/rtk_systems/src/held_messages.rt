//! How many messages of each number captures have.

ghost use Rattle.std.specs.Prelude.{◌≡◌};
ghost use Rattle.std.specs.Option.{option_copied};
ghost use Rattle.rtk_systems.specs.Values as spec;

use crate::values::is_gps_system;
use rtk_message::{MsmKind, MsmType};
use rtk_survey::{CaptureSurvey, StationSurvey, Unread, count_of_number, others_numbered};

fn messages_of_station(kind: MsmKind, station: Option<&StationSurvey>) -> u64
    ensures { result ≡ spec.messages_of_station kind (option_copied station.entry) }
{
    match station {
        Some(station) => station.msm.part(kind).messages,
        None => 0,
    }
}

/// How many messages of an MSM captures have of a station.
pub(crate) fn messages_in_captures(surveys: &[CaptureSurvey], station: u16, kind: MsmKind) -> u64
    ensures { result ≡ spec.messages_in_captures surveys.now station kind }
{
    let mut count = 0u64;
    for survey in surveys {
        let more = messages_of_station(kind, survey.contents.stations.get(&station));
        count = count.saturating_add(more);
    }
    count
}

fn obs_1004_of_station(station: Option<&StationSurvey>) -> u64
    ensures { result ≡ spec.obs_1004_of_station (option_copied station.entry) }
{
    match station {
        Some(station) => station.counts.obs_1004,
        None => 0,
    }
}

/// How many 1004 of a station captures have.
pub(crate) fn obs_1004_in_captures(surveys: &[CaptureSurvey], station: u16) -> u64
    ensures { result ≡ spec.obs_1004_in_captures surveys.now station }
{
    let mut count = 0u64;
    for survey in surveys {
        let more = obs_1004_of_station(survey.contents.stations.get(&station));
        count = count.saturating_add(more);
    }
    count
}

fn sbas_of_station(station: Option<&StationSurvey>) -> u64
    ensures { result ≡ spec.sbas_of_station (option_copied station.entry) }
{
    match station {
        Some(station) => station.counts.sbas_1004,
        None => 0,
    }
}

/// How many 1004 of a station captures have in which there is a satellite of SBAS.
pub(crate) fn sbas_in_captures(surveys: &[CaptureSurvey], station: u16) -> u64
    ensures { result ≡ spec.sbas_in_captures surveys.now station }
{
    let mut count = 0u64;
    for survey in surveys {
        let more = sbas_of_station(survey.contents.stations.get(&station));
        count = count.saturating_add(more);
    }
    count
}

// How many messages of a number were refused.
fn refused_of_number(unread: &Unread, number: u16) -> u64
    ensures { result ≡ spec.refused_of_number unread.now number }
{
    let short = count_of_number(&unread.short, number);
    let short_or_outside = short.saturating_add(count_of_number(&unread.outside_week, number));
    short_or_outside.saturating_add(count_of_number(&unread.too_many_cells, number))
}

// How many were refused, if they are MSM of another system than GPS.
fn refused_beside(msm: Option<MsmType>, unread: &Unread, number: u16) -> u64
    ensures { result ≡ spec.refused_beside msm unread.now number }
{
    match msm {
        Some(msm) if !is_gps_system(msm.system) => refused_of_number(unread, number),
        _ => 0,
    }
}

// How many messages of a number a capture has that a conversion of GPS does not read.
fn others_of_capture(number: u16, survey: &CaptureSurvey) -> u64
    ensures { result ≡ spec.others_of_capture number survey.now }
{
    let msm = MsmType::of_number(number);
    let refused = refused_beside(msm, &survey.contents.unread, number);
    others_numbered(&survey.contents, number).saturating_add(refused)
}

/// How many messages of a number captures have that a conversion of GPS does not read.
pub(crate) fn others_in_captures(surveys: &[CaptureSurvey], number: u16) -> u64
    ensures { result ≡ spec.others_in_captures surveys.now number }
{
    let mut count = 0u64;
    for survey in surveys {
        count = count.saturating_add(others_of_capture(number, survey));
    }
    count
}

// How many messages of a number were refused, unless they are MSM of another system than GPS.
fn refused_reading(msm: Option<MsmType>, unread: &Unread, number: u16) -> u64
    ensures { result ≡ spec.refused_reading msm unread.now number }
{
    match msm {
        Some(msm) if !is_gps_system(msm.system) => 0,
        _ => refused_of_number(unread, number),
    }
}

// How many messages of a number that a conversion of GPS reads can't be read in a capture.
fn refused_in_capture(number: u16, survey: &CaptureSurvey) -> u64
    ensures { result ≡ spec.refused_in_capture number survey.now }
{
    refused_reading(MsmType::of_number(number), &survey.contents.unread, number)
}

// The same of captures, of all stations.
fn refused_in_captures(surveys: &[CaptureSurvey], number: u16) -> u64
    ensures { result ≡ spec.refused_in_captures surveys.now number }
{
    let mut count = 0u64;
    for survey in surveys {
        count = count.saturating_add(refused_in_capture(number, survey));
    }
    count
}

/// So many messages of a number that a conversion of GPS reads, and those that can't be read, of all stations.
pub(crate) fn with_refused(surveys: &[CaptureSurvey], number: u16, count: u64) -> u64
    ensures { result ≡ spec.with_refused surveys.now number count }
{
    count.saturating_add(refused_in_captures(surveys, number))
}

/// How many 1012 captures have, whether they are read or not.
pub(crate) fn all_1012_in_captures(surveys: &[CaptureSurvey]) -> u64
    ensures { result ≡ spec.all_1012_in_captures surveys.now }
{
    with_refused(surveys, 1012, others_in_captures(surveys, 1012))
}

// How many messages of a number that is read captures have of a station.
fn read_of_station(number: u16, station: &StationSurvey) -> u64
    ensures { result ≡ spec.read_of_station number station.now }
{
    match number {
        1004 => station.counts.obs_1004,
        1005 => station.counts.arp_1005,
        1006 => station.counts.arp_1006,
        1074 => station.msm.msm4.messages,
        1075 => station.msm.msm5.messages,
        1076 => station.msm.msm6.messages,
        1077 => station.msm.msm7.messages,
        _ => 0,
    }
}

// How many messages of a number that is read a capture has, of all stations.
fn read_in_capture(survey: &CaptureSurvey, number: u16) -> u64
    ensures { result ≡ spec.read_in_capture number survey.now }
{
    let mut count = 0u64;
    for station in survey.contents.stations.values() {
        count = count.saturating_add(read_of_station(number, station));
    }
    count
}

// How many messages of a number that is read captures have, of all stations.
fn read_in_captures(surveys: &[CaptureSurvey], number: u16) -> u64
    ensures { result ≡ spec.read_in_captures surveys.now number }
{
    let mut count = 0u64;
    for survey in surveys {
        count = count.saturating_add(read_in_capture(survey, number));
    }
    count
}

/// How many messages of a number captures have, whether they are read or not.
pub(crate) fn held_in_captures(surveys: &[CaptureSurvey], number: u16) -> u64
    ensures { result ≡ spec.held_in_captures surveys.now number }
{
    let others = others_in_captures(surveys, number);
    let read = others.saturating_add(read_in_captures(surveys, number));
    with_refused(surveys, number, read)
}
