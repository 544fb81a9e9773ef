//! The values of the conversion of a station, by the surveys of its captures.

ghost use Rattle.std.specs.Prelude.{◌≡◌, slice_get, IfOk};
ghost use Rattle.std.specs.List.{list_any};
ghost use Rattle.std.specs.Option.{option_copied};
ghost use Rattle.rtk_survey.specs.Proposal as proposal;
ghost use Rattle.rtk_survey.specs.Surveys.{places_of};
ghost use Rattle.rtk_systems.specs.Values as spec;

use rtk_message::{MsmKind, MsmType, System};
use rtk_obs::{ALL_ANY_CODES, AnyCode};
use rtk_rinex::SystemFlags;
use rtk_setup::SystemKinds;
use rtk_survey::{CaptureSurvey, Epochs, StationSurvey, SystemMsm};
use std::alloc::{AllocError, Global};

/// The messages with observations of which a conversion takes values, beside 1004: the MSM of each system of these
/// kinds, and 1012 or not.
#[derive(Clone, Copy, Debug, PartialEq, Eq)]
pub struct TakenMessages {
    pub kinds: SystemKinds,
    pub obs1012: bool,
}

/// Is this GPS, whose messages are held beside those of all other systems?
pub fn is_gps_system(system: System) -> bool
    ensures { result ≡ spec.is_gps_system system }
{
    match system {
        System::Gps => true,
        System::Glonass
        | System::Galileo
        | System::Beidou
        | System::Qzss
        | System::Sbas
        | System::Navic => false,
    }
}

/// Is this GLONASS, whose clocks tell UTC?
pub(crate) fn is_glonass_system(system: System) -> bool
    ensures { result ≡ spec.is_glonass_system system }
{
    match system {
        System::Glonass => true,
        System::Gps
        | System::Galileo
        | System::Beidou
        | System::Qzss
        | System::Sbas
        | System::Navic => false,
    }
}

// ---- epochs

fn no_epochs() -> Epochs
    ensures { result ≡ spec.no_epochs }
{
    Epochs {
        first: None,
        last: None,
        count: 0,
    }
}

fn epochs_of_part(part: Option<&SystemMsm>) -> Epochs
    ensures { result ≡ spec.epochs_of_part (option_copied part.entry) }
{
    match part {
        Some(part) => part.epochs,
        None => no_epochs(),
    }
}

// The epochs of an MSM with a value that a station has.
fn epochs_in_station(msm: MsmType, station: &StationSurvey) -> Epochs
    ensures { result ≡ spec.epochs_in_station msm station.now }
{
    if is_gps_system(msm.system) {
        station.msm.part(msm.kind).epochs
    } else {
        epochs_of_part(station.system_msm.get(&msm.number()))
    }
}

fn epochs_of_station(msm: MsmType, station: Option<&StationSurvey>) -> Epochs
    ensures { result ≡ spec.epochs_of_station msm (option_copied station.entry) }
{
    match station {
        Some(station) => epochs_in_station(msm, station),
        None => no_epochs(),
    }
}

fn is_same_epoch(last: Option<u32>, first: Option<u32>) -> u64
    ensures { result ≡ spec.is_same_epoch last first }
{
    match (last, first) {
        (Some(last), Some(first)) => u64::from(last == first),
        _ => 0,
    }
}

fn joined_epochs(before: Epochs, more: Epochs) -> Epochs
    ensures { result ≡ spec.joined_epochs before more }
{
    let new = more
        .count
        .saturating_sub(is_same_epoch(before.last, more.first));
    Epochs {
        first: before.first.or(more.first),
        last: more.last.or(before.last),
        count: before.count.saturating_add(new),
    }
}

// The epochs of an MSM that a capture at a place has of a station.
fn epochs_of_capture(surveys: &[CaptureSurvey], station: u16, msm: MsmType, place: usize) -> Epochs
    ensures { result ≡ spec.epochs_of_capture station msm (slice_get surveys.now place) }
{
    match surveys.get(place) {
        Some(survey) => epochs_of_station(msm, survey.contents.stations.get(&station)),
        None => no_epochs(),
    }
}

// How many epochs of an MSM have a value in the captures of a link, one after another.
fn epochs_in_link(surveys: &[CaptureSurvey], station: u16, msm: MsmType, link: &[usize]) -> u64
    ensures { result ≡ spec.epochs_in_link surveys.now station msm link.now }
{
    let mut epochs = no_epochs();
    for place in link {
        let more = epochs_of_capture(surveys, station, msm, *place);
        epochs = joined_epochs(epochs, more);
    }
    epochs.count
}

// How many epochs of an MSM have a value in the link that has most of them.
fn most_epochs_of(
    surveys: &[CaptureSurvey],
    links: &[Vec<usize>],
    station: u16,
    msm: MsmType,
) -> u64
    ensures { result ≡ spec.most_epochs_of surveys.now (places_of links.now) station msm }
{
    let mut most = 0u64;
    for link in links {
        most = most.max(epochs_in_link(surveys, station, msm, link.as_slice()));
    }
    most
}

fn most_epochs(
    surveys: &[CaptureSurvey],
    links: &[Vec<usize>],
    station: u16,
    system: System,
    kind: MsmKind,
) -> u64
    ensures { result ≡ spec.most_epochs surveys.now (places_of links.now) station system kind }
{
    most_epochs_of(surveys, links, station, MsmType { system, kind })
}

fn better_of(
    surveys: &[CaptureSurvey],
    links: &[Vec<usize>],
    station: u16,
    system: System,
    lesser: MsmKind,
    greater: MsmKind,
) -> MsmKind
    ensures { result ≡ proposal.better_of (spec.most_epochs surveys.now (places_of links.now) station system) lesser greater }
{
    let count = most_epochs(surveys, links, station, system, greater);
    if count == 0 || count < most_epochs(surveys, links, station, system, lesser) {
        lesser
    } else {
        greater
    }
}

// The MSM of a system of which the station has most epochs with a value: of each MSM the link counts that has
// most of them, so that copies of a capture on several links do not add up.
fn msm_of_links(
    surveys: &[CaptureSurvey],
    links: &[Vec<usize>],
    station: u16,
    system: System,
) -> MsmKind
    ensures { result ≡ proposal.proposed (spec.most_epochs surveys.now (places_of links.now) station system) }
{
    let first = better_of(
        surveys,
        links,
        station,
        system,
        MsmKind::Msm4,
        MsmKind::Msm5,
    );
    let second = better_of(surveys, links, station, system, first, MsmKind::Msm6);
    better_of(surveys, links, station, system, second, MsmKind::Msm7)
}

/// The MSM of each system of which the station has most epochs with a value.
pub fn kinds_in_links(surveys: &[CaptureSurvey], links: &[Vec<usize>], station: u16) -> SystemKinds
    ensures { result ≡ spec.kinds_in_links surveys.now (places_of links.now) station }
{
    SystemKinds {
        gps: msm_of_links(surveys, links, station, System::Gps),
        glonass: msm_of_links(surveys, links, station, System::Glonass),
        galileo: msm_of_links(surveys, links, station, System::Galileo),
        beidou: msm_of_links(surveys, links, station, System::Beidou),
        qzss: msm_of_links(surveys, links, station, System::Qzss),
        sbas: msm_of_links(surveys, links, station, System::Sbas),
        navic: msm_of_links(surveys, links, station, System::Navic),
    }
}

// ---- codes

fn has_code_in(code: AnyCode, part: Option<&SystemMsm>) -> bool
    ensures { result ≡ spec.has_code_in code (option_copied part.entry) }
{
    match part {
        Some(part) => part.signals.codes.is_marked(code.number()),
        None => false,
    }
}

// Has a code a value in messages of a station of this number, which is none of GPS?
fn has_code_numbered(number: u16, code: AnyCode, station: &StationSurvey) -> bool
    ensures { result ≡ spec.has_code_numbered number code station.now }
{
    has_code_in(code, station.system_msm.get(&number))
}

// Has a code of another system than GPS a value in an MSM, a 1012 or a 1004 that a conversion takes?
fn has_code_beside(
    system: System,
    taken: TakenMessages,
    code: AnyCode,
    station: &StationSurvey,
) -> bool
    ensures { result ≡ spec.has_code_beside system taken code station.now }
{
    let kind = taken.kinds.kind(system);
    let msm = MsmType { system, kind };
    has_code_numbered(msm.number(), code, station)
        || (taken.obs1012 && has_code_numbered(1012, code, station))
        || has_code_numbered(1004, code, station)
}

// Has a code of a system a value in a message of a station that a conversion takes?
fn has_code_by(system: System, taken: TakenMessages, code: AnyCode, station: &StationSurvey) -> bool
    ensures { result ≡ spec.has_code_by system taken code station.now }
{
    if is_gps_system(system) {
        station.msm.part(taken.kinds.gps).codes.marks[code.place()]
    } else {
        has_code_beside(system, taken, code, station)
    }
}

fn has_code_with(taken: TakenMessages, code: AnyCode, station: Option<&StationSurvey>) -> bool
    ensures { result ≡ spec.has_code_with taken code (option_copied station.entry) }
{
    match station {
        Some(station) => has_code_by(code.system(), taken, code, station),
        None => false,
    }
}

fn gives_code(station: u16, taken: TakenMessages, code: AnyCode, survey: &CaptureSurvey) -> bool
    ensures { result ≡ spec.gives_code station taken code survey.now }
{
    has_code_with(taken, code, survey.contents.stations.get(&station))
}

fn is_given(surveys: &[CaptureSurvey], station: u16, taken: TakenMessages, code: AnyCode) -> bool
    ensures { result ≡ list_any (spec.gives_code station taken code) surveys.now }
{
    surveys
        .iter()
        .any(|survey| gives_code(station, taken, code, survey))
}

// Has a code of one of these systems a value in some capture?
fn is_found(
    surveys: &[CaptureSurvey],
    station: u16,
    systems: SystemFlags,
    taken: TakenMessages,
    code: AnyCode,
) -> bool
    ensures { result ≡ spec.is_found surveys.now station systems taken code }
{
    systems.has(code.system()) && is_given(surveys, station, taken, code)
}

/// The codes of these systems that have a value in messages of the station that a conversion takes.
pub fn codes_in_captures(
    alloc: Global,
    surveys: &[CaptureSurvey],
    station: u16,
    systems: SystemFlags,
    taken: TakenMessages,
) -> Result<Vec<AnyCode>, AllocError>
    ensures { IfOk result (λ codes. codes.items ≡ spec.codes_in_captures surveys.now station systems taken) }
{
    let mut codes = Vec::new(alloc);
    for code in &ALL_ANY_CODES {
        if is_found(surveys, station, systems, taken, *code) {
            codes.push(*code)?;
        }
    }
    Ok(codes)
}

// ---- 1012

fn epochs_1012_of(station: Option<&StationSurvey>) -> Epochs
    ensures { result ≡ spec.epochs_1012_of (option_copied station.entry) }
{
    match station {
        Some(station) => epochs_of_part(station.system_msm.get(&1012)),
        None => no_epochs(),
    }
}

/// The epochs of the 1012 of a station with a value that a capture has.
pub fn epochs_1012_in(station: u16, survey: &CaptureSurvey) -> Epochs
    ensures { result ≡ spec.epochs_1012_in station survey.now }
{
    epochs_1012_of(survey.contents.stations.get(&station))
}

fn gives_1012(station: u16, survey: &CaptureSurvey) -> bool
    ensures { result ≡ spec.gives_1012 station survey.now }
{
    epochs_1012_in(station, survey).first.is_some()
}

/// Has some 1012 of a station a value?
pub fn is_1012_given(surveys: &[CaptureSurvey], station: u16) -> bool
    ensures { result ≡ spec.is_1012_given surveys.now station }
{
    surveys.iter().any(|survey| gives_1012(station, survey))
}
