//! What a capture tells of one station.

ghost use Rattle.std.specs.Prelude.{◌≡◌, ◌==◌, map, IfOk};
ghost use Rattle.std.specs.Option.{option_copied};
ghost use Rattle.rtk_captures.specs.StationCaptures as spec;
ghost use Rattle.rtk_survey.specs.CaptureDates.{is_own};

use rtk_survey::{
    CaptureSurvey, DateMessage, DatingSystems, Look, ReferencePoint, Span, StationSurvey,
    TargetSurvey, Tellings, Told,
};
use std::alloc::{AllocError, Global};

/// What a capture tells of a station. It has at most 256 bytes.
#[derive(Clone, Copy, Debug, PartialEq, Eq)]
pub struct StationCapture {
    /// What the capture looks like, if it has no frame.
    pub look: Option<Look>,
    /// A message of the station came: with observations or a position, or one that tells a date, an antenna or a
    /// receiver.
    pub is_heard: bool,
    /// Its first reference point.
    pub point: Option<ReferencePoint>,
    /// The first one that is more than 100 m from it.
    pub far_point: Option<ReferencePoint>,
    /// Its epochs; `None` if there is none.
    pub span: Option<Span>,
    /// The first epoch, as the first message told it that counts.
    pub told: Option<Told>,
    /// How many first epochs that differ were told by messages that count.
    pub dates: usize,
    /// The moment that a message names, if the capture has a message of the station and no epoch.
    pub moment: Option<Told>,
    /// A 1013 or a 1029 of the station names this moment.
    pub is_moment_of_station: bool,
    /// How many frames come before the place at which a second date begins, if 1013 or 1029 of the
    /// station tell one.
    pub parting: Option<u64>,
    /// How many of its bytes are in no frame.
    pub outside: u64,
    /// Has one of its 1005 or 1006 another reference point than the first that has one?
    pub has_other_point: bool,
}

/// Does a capture have something of a station?
pub(crate) fn is_heard(station: Option<&StationSurvey>) -> bool
    ensures { result ≡ spec.is_heard (option_copied station.entry) }
{
    match station {
        Some(_) => true,
        None => false,
    }
}

fn point_of(station: Option<&StationSurvey>) -> Option<ReferencePoint>
    ensures { result ≡ spec.point_of (option_copied station.entry) }
{
    station?.reference_point
}

fn far_point_of(station: Option<&StationSurvey>) -> Option<ReferencePoint>
    ensures { result ≡ spec.far_point_of (option_copied station.entry) }
{
    station?.far_point
}

fn tells_other_point(station: Option<&StationSurvey>) -> bool
    ensures { result ≡ spec.tells_other_point (option_copied station.entry) }
{
    match station {
        Some(station) => station.has_other_point,
        None => false,
    }
}

// The systems that date a capture.
fn systems_for(target: &Option<TargetSurvey>) -> DatingSystems
    ensures { result ≡ spec.systems_for target.now }
{
    match target {
        Some(target) => target.dates.systems,
        None => DatingSystems::all(),
    }
}

// Has a station an observation of these systems?
fn has_observation(systems: DatingSystems, station: Option<&StationSurvey>) -> bool
    ensures { result ≡ spec.has_observation systems (option_copied station.entry) }
{
    match station {
        Some(station) => systems.have_observation(station),
        None => false,
    }
}

/// Has a station an observation of the systems that date the capture?
pub(crate) fn is_observed_in(station: u16, survey: &CaptureSurvey) -> bool
    ensures { result ≡ spec.is_observed_in station survey.now }
{
    let systems = systems_for(&survey.contents.target);
    has_observation(systems, survey.contents.stations.get(&station))
}

/// How many epochs the observation messages of a station have: one more than their time changes.
pub(crate) fn epochs_heard(station: Option<&StationSurvey>) -> u64
    ensures { result ≡ spec.epochs_heard (option_copied station.entry) }
{
    match station {
        Some(station) if station.times.first.is_some() => {
            station.times.changes.saturating_add(1)
        }
        _ => 0,
    }
}

/// Is this the station?
pub fn is_station(station: u16, other: Option<u16>) -> bool
    ensures { result ≡ spec.is_station station other }
{
    match other {
        Some(other) => other == station,
        None => false,
    }
}

/// The epochs of a station in a capture, if it was surveyed for the station.
pub fn span_in(station: u16, survey: &CaptureSurvey) -> Option<Span>
    ensures { result ≡ (spec.dates_in station survey.now).span }
{
    match &survey.contents.target {
        Some(target) if is_station(station, target.dates.station) => target.dates.capture.span,
        _ => None,
    }
}

/// The first epochs that messages of a capture told of the station and that count, each that differs.
pub(crate) fn told_in(station: u16, survey: &CaptureSurvey) -> &[Told]
    ensures { result.now ≡ spec.told_in station survey.now }
{
    match &survey.contents.target {
        Some(target) if is_station(station, target.dates.station) => {
            target.dates.capture.told.counting()
        }
        _ => &[],
    }
}

/// The first epochs that 1019 tell and that do not count, since 1013 or 1029 of the station tell some, or since 1042, 1045
/// or 1046 tell an earlier week.
pub fn weeks_passed_over(told: &Tellings) -> &[Told]
    ensures { result.now ≡ spec.weeks_passed_over told.now }
{
    if told.do_system_weeks_decide() {
        return told.weeks.as_slice();
    }
    if told.own.is_empty() {
        return &[];
    }
    told.weeks.as_slice()
}

/// The first epochs that 1013 and 1029 of other stations tell and that do not count, since 1013 or 1029 of the
/// station or 1019 tell some.
pub fn others_passed_over(told: &Tellings) -> &[Told]
    ensures { result.now ≡ spec.others_passed_over told.now }
{
    if !told.own.is_empty() {
        return told.others.as_slice();
    }
    if !told.weeks.is_empty() {
        return told.others.as_slice();
    }
    &[]
}

// Do the first epochs count that 1042, 1045 and 1046 tell?
fn do_system_weeks_count(told: &Tellings) -> bool
    ensures { result ≡ spec.do_system_weeks_count told.now }
{
    told.own.is_empty()
        && (told.do_system_weeks_decide() || (told.weeks.is_empty() && told.others.is_empty()))
}

/// The first epochs that 1042, 1045 and 1046 tell and that do not count, since other messages tell some.
pub fn system_weeks_passed_over(told: &Tellings) -> &[Told]
    ensures { result.now ≡ spec.system_weeks_passed_over told.now }
{
    if do_system_weeks_count(told) {
        &[]
    } else {
        told.system_weeks.as_slice()
    }
}

fn first_told(told: &[Told]) -> Option<Told>
    ensures { result ≡ spec.first_told told.now }
{
    told.first().copied()
}

// The moment that messages of a capture without an epoch name.
fn moment_in(station: u16, survey: &CaptureSurvey) -> Option<Told>
    ensures { result ≡ spec.moment_in station survey.now }
{
    let target = survey.contents.target.as_ref()?;
    if target.dates.station.unwrap_or(station) == station {
        target.dates.capture.own_moment(target.present, station)
    } else {
        None
    }
}

fn moment_if_heard(is_heard: bool, moment: Option<Told>) -> Option<Told>
    ensures { result ≡ spec.moment_if_heard is_heard moment }
{
    if is_heard { moment } else { None }
}

// Is it a 1013 or a 1029 of this station?
fn is_own(station: u16, message: DateMessage) -> bool
    ensures { result ≡ is_own station message }
{
    match message {
        DateMessage::Utc(date) => date.station == station,
        DateMessage::Ephemeris(_) | DateMessage::OtherEphemeris(_) => false,
    }
}

// Does a 1013 or a 1029 of the station name this moment?
fn is_named_by_own(station: u16, moment: Option<Told>) -> bool
    ensures { result ≡ spec.is_named_by_own station moment }
{
    match moment {
        Some(told) => is_own(station, told.message),
        None => false,
    }
}

// How many frames come before the place at which a second date of the station begins.
fn parting_in(station: u16, survey: &CaptureSurvey) -> Option<u64>
    ensures { result ≡ spec.parting_in station survey.now }
{
    match &survey.contents.target {
        Some(target) if is_station(station, target.dates.station) => target.parting.frame(),
        _ => None,
    }
}

/// The first date in a capture that is passed over since it is to come.
pub(crate) fn to_come_in(survey: &CaptureSurvey) -> Option<Told>
    ensures { result ≡ spec.to_come_in survey.now }
{
    survey.contents.target.as_ref()?.to_come
}

fn to_come_if(heard: bool, told: Option<Told>) -> Option<Told>
    ensures { result ≡ spec.to_come_if heard told }
{
    if heard { told } else { None }
}

/// The same of a capture that has something of the station.
pub fn to_come_told(station: u16, survey: &CaptureSurvey) -> Option<Told>
    ensures { result ≡ spec.to_come_told station survey.now }
{
    let heard = is_heard(survey.contents.stations.get(&station));
    to_come_if(heard, to_come_in(survey))
}

/// What a capture tells of a station.
pub fn capture_of(station: u16, survey: &CaptureSurvey) -> StationCapture
    ensures { result ≡ spec.capture_of station survey.now }
{
    let heard = survey.contents.stations.get(&station);
    let told = told_in(station, survey);
    let moment = moment_if_heard(is_heard(heard), moment_in(station, survey));
    StationCapture {
        look: survey.look,
        is_heard: is_heard(heard),
        point: point_of(heard),
        far_point: far_point_of(heard),
        span: span_in(station, survey),
        told: first_told(told),
        dates: told.len(),
        moment,
        is_moment_of_station: is_named_by_own(station, moment),
        parting: parting_in(station, survey),
        outside: survey.bytes.saturating_sub(survey.contents.framed),
        has_other_point: tells_other_point(heard),
    }
}

/// What captures tell of a station.
pub fn captures_of(
    alloc: Global,
    station: u16,
    surveys: &[CaptureSurvey],
) -> Result<Vec<StationCapture>, AllocError>
    ensures { IfOk result (λ all. all.items ≡ map (spec.capture_of station) surveys.now) }
{
    let mut all = Vec::new(alloc);
    for survey in surveys {
        all.push(capture_of(station, survey))?;
    }
    Ok(all)
}
