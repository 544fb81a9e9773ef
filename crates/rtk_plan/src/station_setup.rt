//! What the conversion of a station is told: the MSM and the codes of each system, and the head of the file.

ghost use Rattle.std.specs.Prelude.{◌≡◌, ◌<◌, ◌≤◌, None, [], false, OnOk, IfOk, IfErr, IfSome};
ghost use Rattle.std.specs.Option.{ForSome};
ghost use Rattle.rtk_obs.specs.CivilText.{last_digits};
ghost use Rattle.rtk_rinex.specs.MixedHead.{IsGlonassView, IsMixedList, TellsGlonass, has_glonass};
ghost use Rattle.rtk_setup.specs.Rates.{without_rates};
ghost use Rattle.rtk_captures.specs.CaptureCauses.{IfRefused};
ghost use Rattle.rtk_plan.specs.Causes.{FindsNoCode, IsRatesCause, IsSetupCause};
ghost use Rattle.rtk_survey.specs.Surveys.{places_of};
ghost use Rattle.rtk_plan.specs.Plan.{IsChosenStation, kinds_found, AreSystemsTaken, AreCodesChosen, AreLeapSecondsOf, systems_asked, marker_chosen, converts_1012, near_chosen, taken_messages, IsNear1012, IsSetupFor};
ghost use Rattle.rtk_captures.specs.Dating.{captures_of, IsInReach, IsNearOf};
ghost use Rattle.rtk_systems.specs.SlotChannels.{AreChannelsChosen, AreOwnChannels, IsGlonassOf, IsGlonassFound};
ghost use Rattle.rtk_systems.specs.SystemMsms as msms;
ghost use Rattle.rtk_plan.specs.Steps.SetupParts.{HasSetupParts};
ghost use Rattle.rtk_plan.specs.Plan.{codes_chosen};
ghost use Rattle.rtk_systems.specs.Values.{codes_in_captures};

use crate::setup_seconds::{has_glonass, seconds_chosen, seconds_compared};
use crate::wanted::Wanted;
use rtk_captures::{PlanFault, Refusal, refused};
use rtk_message::{MsmKind, System};
use rtk_obs::{AnyCode, Channels, GpsMs, letter_of};
use rtk_rinex::{CreationTime, Glonass, Marker, MixedHead, SystemFlags};
use rtk_setup::{LeapSeconds, Reference, Setup, Station, SystemKinds, Window, without_rates};
use rtk_survey::CaptureSurvey;
use rtk_systems::{
    ClockSeconds, TakenMessages, channels_found, channels_joined, codes_in_captures, flags_listed,
    is_1012_given, kinds_in_links, kinds_listed, list_without_code, own_channels,
    systems_with_clocks,
};
use std::alloc::{AllocError, Global};

// ---- the systems

// The systems that are wanted, but for those whose clocks are wrong.
fn systems_taken(
    alloc: Global,
    surveys: &[CaptureSurvey],
    station: u16,
    wanted: SystemFlags,
    seconds: &Option<LeapSeconds>,
    near: GpsMs,
) -> Result<SystemFlags, AllocError>
    ensures { IfOk result (AreSystemsTaken surveys.now station wanted seconds.now near) }
{
    let leap_seconds = seconds_compared(seconds, near);
    let right = systems_with_clocks(alloc, surveys, station, &leap_seconds)?;
    Ok(wanted.both(right))
}

/// The systems that are asked for, by words and by the setup that is made of them.
pub(crate) fn systems_asked(wanted: &Wanted, setup: &Setup) -> SystemFlags
    ensures { result ≡ systems_asked wanted.now.codes wanted.now.systems setup.now.head.listed }
{
    match &wanted.codes {
        Some(_) => flags_listed(setup),
        None => wanted.systems,
    }
}

// ---- the codes

// The codes that are named, else those of these systems that are found. If none is found, the clocks of the systems that are
// asked for may tell why.
fn codes_of_systems(
    alloc: Global,
    surveys: &[CaptureSurvey],
    station: u16,
    asked: SystemFlags,
    systems: SystemFlags,
    taken: TakenMessages,
    seconds: &ClockSeconds,
    wanted: &Option<Vec<AnyCode>>,
) -> Result<Vec<AnyCode>, PlanFault>
    requires { ForSome wanted.now (λ codes. IsMixedList codes.items) }
    ensures codes { IfOk result (λ codes. codes.items ≡ codes_chosen wanted.now surveys.now station systems taken) }
    ensures good { IfOk result (λ codes. IsMixedList codes.items) }
    ensures refused { IfErr result (IfRefused (λ refusal. (refusal ≡ Refusal.NoCode) × (wanted.now ≡ None)
        × (codes_in_captures surveys.now station systems taken ≡ []))) }
{
    if let Some(codes) = wanted {
        return Ok(Vec::from_slice(alloc, codes.as_slice())?);
    }
    let codes = codes_in_captures(alloc, surveys, station, systems, taken)?;
    if codes.is_empty() {
        let held = list_without_code(alloc, asked, surveys, station, seconds)?;
        return refused(Refusal::NoCode, held);
    }
    Ok(codes)
}

// The codes that are converted.
fn codes_to_convert(
    alloc: Global,
    surveys: &[CaptureSurvey],
    station: u16,
    taken: TakenMessages,
    wanted: &Wanted,
    seconds: &Option<LeapSeconds>,
    near: GpsMs,
) -> Result<Vec<AnyCode>, PlanFault>
    ensures codes { IfOk result (λ codes. AreCodesChosen wanted.now surveys.now station seconds.now near taken codes.items) }
    ensures good { IfOk result (λ codes. IsMixedList codes.items) }
    ensures refused { IfErr result (IfRefused (λ refusal. (refusal ≡ Refusal.NoCode) × (wanted.now.codes ≡ None)
        × FindsNoCode surveys.now taken wanted.now station seconds.now near)) }
{
    let systems = systems_taken(alloc, surveys, station, wanted.systems, seconds, near)?;
    let compared = seconds_compared(seconds, near);
    let codes = codes_of_systems(
        alloc,
        surveys,
        station,
        wanted.systems,
        systems,
        taken,
        &compared,
        &wanted.codes,
    )?;
    Ok(codes)
}

// ---- the head

// The four digits of a station's number.
fn digits_of(station: u16) -> [u8; 4]
    ensures { result ≡ last_digits 4 station }
{
    let digit = |number: u16| b'0' + (number % 10) as u8;
    [
        digit(station / 10 / 10 / 10),
        digit(station / 10 / 10),
        digit(station / 10),
        digit(station),
    ]
}

// The marker. If none is named, the station's number stands for it.
fn marker_of(station: u16, marker: &Option<Marker>) -> Marker
    ensures { result ≡ marker_chosen marker.now station }
{
    let digits = digits_of(station);
    let name = match marker {
        Some(marker) => marker.as_bytes(),
        None => digits.as_slice(),
    };
    let Ok(marker) = Marker::new(name) else {
        unreachable!();
    };
    marker
}

// The channels that are given, and of each other slot the one that messages tell.
fn channels_chosen(
    given: &Option<Channels>,
    surveys: &[CaptureSurvey],
    station: u16,
    taken: TakenMessages,
) -> Channels
    ensures { AreChannelsChosen given.now surveys.now station taken result }
{
    let found = channels_found(surveys, station, taken);
    match given {
        Some(given) => channels_joined(given, &found),
        None => found,
    }
}

/// The messages of which a setup takes values.
pub(crate) fn taken_by_setup(setup: &Setup) -> TakenMessages
    ensures { result ≡ taken_messages setup.now }
{
    TakenMessages {
        kinds: setup.kinds(),
        obs1012: setup.takes_1012(),
    }
}

/// The channels of slots that messages of the station tell, by the messages of GLONASS that a setup takes.
pub(crate) fn own_channels_in(surveys: &[CaptureSurvey], setup: &Setup) -> Channels
    ensures { AreOwnChannels surveys.now setup.now.station (taken_messages setup.now) result }
{
    let taken = taken_by_setup(setup);
    own_channels(surveys, setup.station(), taken)
}

// What the file tells of GLONASS.
fn glonass_of(
    surveys: &[CaptureSurvey],
    station: u16,
    taken: TakenMessages,
    channels: &Option<Channels>,
    seconds: &Option<LeapSeconds>,
    near: GpsMs,
) -> Glonass
    ensures found { IsGlonassOf surveys.now station taken channels.now seconds.now near result }
    ensures good { IsGlonassView result }
{
    let channels = channels_chosen(channels, surveys, station, taken);
    let seconds = seconds_chosen(seconds, near);
    let Some(glonass) = Glonass::new(channels, seconds) else {
        unreachable!();
    };
    glonass
}

// What the file tells of GLONASS, if it lists a code of it.
fn glonass_found(
    surveys: &[CaptureSurvey],
    station: u16,
    taken: TakenMessages,
    listed: &[AnyCode],
    channels: &Option<Channels>,
    seconds: &Option<LeapSeconds>,
    near: GpsMs,
) -> Option<Glonass>
    ensures found { IsGlonassFound surveys.now station taken listed.now channels.now seconds.now near result }
    ensures due { TellsGlonass listed.now result }
{
    if has_glonass(listed) {
        Some(glonass_of(surveys, station, taken, channels, seconds, near))
    } else {
        None
    }
}

// The head of the file.
fn head_of(
    marker: Marker,
    codes: &[AnyCode],
    glonass: Option<Glonass>,
    made: CreationTime,
    doppler: bool,
) -> MixedHead
    requires good { IsMixedList codes.now }
    requires due { TellsGlonass codes.now glonass }
    ensures { result ≡ record { marker = marker; listed = codes.now; glonass = glonass; made = made; doppler = doppler } }
{
    let Ok(head) = MixedHead::new(marker, codes, glonass, made) else {
        unreachable!();
    };
    head.with_doppler_if(doppler)
}

// ---- the MSM

// The MSM of each system, if a code of it is converted. One that is named is that of all.
fn kinds_to_convert(
    surveys: &[CaptureSurvey],
    links: &[Vec<usize>],
    wanted: Option<MsmKind>,
    station: u16,
) -> SystemKinds
    ensures { result ≡ kinds_found wanted surveys.now (places_of links.now) station }
{
    match wanted {
        Some(msm) => SystemKinds::all(msm),
        None => kinds_in_links(surveys, links, station),
    }
}

// The setup with these kinds.
fn with_kinds(setup: Setup, kinds: SystemKinds) -> Setup
    ensures { result ≡ record setup { kinds = kinds } }
{
    setup
        .with_kind(System::Gps, kinds.gps)
        .with_kind(System::Glonass, kinds.glonass)
        .with_kind(System::Galileo, kinds.galileo)
        .with_kind(System::Beidou, kinds.beidou)
        .with_kind(System::Qzss, kinds.qzss)
        .with_kind(System::Sbas, kinds.sbas)
        .with_kind(System::Navic, kinds.navic)
}

// The setup with these kinds, but for systems without a listed code.
fn with_kinds_listed(setup: Setup, kinds: SystemKinds) -> Setup
    ensures { result ≡ record setup { kinds = msms.kinds_listed kinds setup.head.listed } }
{
    let listed = kinds_listed(&setup, kinds);
    with_kinds(setup, listed)
}

// The setup with these leap seconds, if any are given.
fn with_seconds(setup: Setup, given: &Option<LeapSeconds>) -> Setup
    requires { setup.leap_seconds ≡ None }
    ensures { result ≡ record setup { leap_seconds = given.now } }
{
    match given {
        Some(given) => setup.with_leap_seconds(*given),
        None => setup,
    }
}

// The setup with 1012, if they are converted.
fn with_1012_if(setup: Setup, is_taken: bool) -> Setup
    requires { setup.takes_1012 ≡ false }
    ensures { result ≡ record setup { takes_1012 = is_taken } }
{
    if is_taken { setup.with_1012() } else { setup }
}

// The setup of these parts, in which systems without a listed code have the MSM of the first one that has.
fn setup_of(
    station: Station,
    near: Reference,
    head: MixedHead,
    window: Window,
    kinds: SystemKinds,
    seconds: &Option<LeapSeconds>,
    takes_1012: bool,
) -> Setup
    ensures { result ≡ record { station = station; near = near; head = head; window = window; kinds = msms.kinds_listed kinds head.listed; leap_seconds = seconds.now; takes_1012 = takes_1012 } }
{
    let setup = with_kinds_listed(Setup::mixed(station, near, head, window), kinds);
    with_1012_if(with_seconds(setup, seconds), takes_1012)
}

// The setup of a station with these codes near a moment, by these messages.
fn setup_with(
    surveys: &[CaptureSurvey],
    wanted: &Wanted,
    made: CreationTime,
    station: Station,
    near: Reference,
    taken: TakenMessages,
    listed: &[AnyCode],
    seconds: &Option<LeapSeconds>,
) -> Setup
    requires { IsMixedList listed.now }
    ensures { HasSetupParts surveys.now wanted.now made station near taken listed.now seconds.now result }
{
    let number = station.number();
    let channels = &wanted.channels;
    let moment = near.moment();
    let glonass = glonass_found(surveys, number, taken, listed, channels, seconds, moment);
    let marker = marker_of(number, &wanted.marker);
    let head = head_of(marker, listed, glonass, made, wanted.doppler);
    let (kinds, takes_1012) = (taken.kinds, taken.obs1012);
    setup_of(
        station,
        near,
        head,
        wanted.window,
        kinds,
        seconds,
        takes_1012,
    )
}

// ---- Doppler shifts

// Has the MSM of each listed system range rates, if Doppler shifts are asked for?
fn demand_rates(
    alloc: Global,
    is_asked: bool,
    kinds: SystemKinds,
    listed: &[AnyCode],
) -> Result<(), PlanFault>
    ensures rates { OnOk result (without_rates is_asked kinds listed.now ≡ None) }
    ensures refused { IfErr result (IfRefused (IsRatesCause is_asked kinds listed.now)) }
{
    match without_rates(is_asked, kinds, listed) {
        Some(system) => {
            let byte = letter_of(system);
            let letter = char::from(byte);
            refused(Refusal::NoRates { letter }, Vec::new(alloc))
        }
        None => Ok(()),
    }
}

// ---- 1012

// Are 1012 converted, if there is such a moment near which they are dated?
fn converts_1012(
    surveys: &[CaptureSurvey],
    station: u16,
    listed: &[AnyCode],
    near: &Option<Reference>,
) -> bool
    ensures { result ≡ converts_1012 surveys.now station listed.now near.now }
{
    near.is_some() && (has_glonass(listed) && is_1012_given(surveys, station))
}

// The moment near which a conversion dates: with 1012 the other one, else the first one.
fn near_chosen(is_taken: bool, first: Reference, other: &Option<Reference>) -> Reference
    ensures { result ≡ near_chosen is_taken first other.now }
{
    match other {
        Some(other) if is_taken => *other,
        _ => first,
    }
}

// ---- all of it

/// What the conversion of a station near this moment is told, or near another one, near which 1012 are dated.
pub(crate) fn setup_near(
    alloc: Global,
    surveys: &[CaptureSurvey],
    links: &[Vec<usize>],
    wanted: &Wanted,
    made: CreationTime,
    station: u16,
    near: GpsMs,
    seconds: &Option<LeapSeconds>,
    other: &Option<Reference>,
) -> Result<Setup, PlanFault>
    requires bound { station < 4096 }
    requires chosen { IsChosenStation surveys.now wanted.now.station station }
    requires near { IsNearOf wanted.now.near (captures_of surveys.now station) near }
    requires reach { IsInReach wanted.now.near (captures_of surveys.now station) near }
    requires seconds { AreLeapSecondsOf surveys.now wanted.now station near seconds.now }
    requires other { IsNear1012 surveys.now wanted.now.near station seconds.now near other.now }
    requires other_reach { IfSome other.now (IsInReach wanted.now.near (captures_of surveys.now station)) }
    ensures setup { IfOk result (IsSetupFor surveys.now (places_of links.now) wanted.now made) }
    ensures station { IfOk result (λ setup. setup.station ≡ station) }
    ensures seconds { IfOk result (λ setup. setup.leap_seconds ≡ seconds.now) }
    ensures in_reach { IfOk result (λ setup. IsInReach wanted.now.near (captures_of surveys.now station) setup.near) }
    ensures refused { IfErr result (IfRefused (IsSetupCause surveys.now (places_of links.now) wanted.now station near)) }
{
    let kinds = kinds_to_convert(surveys, links, wanted.msm, station);
    let with_1012 = other.is_some();
    let taken = TakenMessages {
        kinds,
        obs1012: with_1012,
    };
    let codes = codes_to_convert(alloc, surveys, station, taken, wanted, seconds, near)?;
    let listed = codes.as_slice();
    let obs1012 = converts_1012(surveys, station, listed, other);
    let Ok(of_station) = Station::new(station) else {
        unreachable!();
    };
    let Ok(first) = Reference::new(near) else {
        return refused(Refusal::OutsideDates, Vec::new(alloc));
    };
    let reference = near_chosen(obs1012, first, other);
    let converted = TakenMessages { kinds, obs1012 };
    demand_rates(alloc, wanted.doppler, kinds, listed)?;
    Ok(setup_with(
        surveys, wanted, made, of_station, reference, converted, listed, seconds,
    ))
}
