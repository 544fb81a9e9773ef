//! What captures told last of the antenna and the receiver of a station.
//!
//! A message counts at the epoch before it, or at the first epoch if it came before that one.

ghost use Rattle.std.specs.Prelude.{◌≡◌, map, IfOk};
ghost use Rattle.std.specs.Option.{option_copied};
ghost use Rattle.rtk_captures.specs.CaptureEquipment as spec;

use crate::joining::{Ordered, in_order};
use crate::station_capture::{is_station, span_in};
use rtk_obs::{GpsMs, WEEK_MS};
use rtk_survey::{CaptureSurvey, Equipment, EquipmentTimes, Placed, Span, StationSurvey, dated};
use std::alloc::{AllocError, Global};

/// What a message tells of.
#[derive(Clone, Copy, Debug, PartialEq, Eq)]
pub(crate) enum Part {
    Antenna,
    Receiver,
}

// When the messages of a station told its antenna and its receiver, if the capture was surveyed for it.
fn times_in(station: u16, survey: &CaptureSurvey) -> EquipmentTimes
    ensures { result ≡ spec.times_in station survey.now }
{
    match &survey.contents.target {
        Some(target) if is_station(station, target.dates.station) => target.equipment,
        _ => EquipmentTimes {
            antenna: None,
            receiver: None,
        },
    }
}

fn time_of_part(part: Part, times: EquipmentTimes) -> Option<u32>
    ensures { result ≡ spec.time_of_part part times }
{
    match part {
        Part::Antenna => times.antenna,
        Part::Receiver => times.receiver,
    }
}

// The time of week that counts, in ms.
fn time_or_first(time: Option<u32>, span: &Span) -> u32
    ensures { result ≡ spec.time_or_first time span.now }
{
    match time {
        Some(time) => time,
        None => (span.first.ms() % WEEK_MS) as u32,
    }
}

// The moment that counts, if the capture has an epoch.
fn moment_told(near: GpsMs, time: Option<u32>, span: Option<Span>) -> Option<Placed>
    ensures { result ≡ spec.moment_told near time span }
{
    let span = span?;
    let moment = dated(near, time_or_first(time, &span));
    Some(Placed {
        first: moment,
        from: moment,
        until: moment,
    })
}

// The moments at which captures told a part last.
fn moments_told(
    alloc: Global,
    part: Part,
    surveys: &[CaptureSurvey],
    station: u16,
    near: GpsMs,
) -> Result<Vec<Option<Placed>>, AllocError>
    ensures { IfOk result (λ all. all.items ≡ map (spec.part_told part station near) surveys.now) }
{
    let mut all = Vec::new(alloc);
    for survey in surveys {
        let time = time_of_part(part, times_in(station, survey));
        all.push(moment_told(near, time, span_in(station, survey)))?;
    }
    Ok(all)
}

// The captures in the order in which they told a part last.
fn order_told(
    alloc: Global,
    part: Part,
    surveys: &[CaptureSurvey],
    station: u16,
    near: GpsMs,
) -> Result<Vec<Ordered>, AllocError>
    ensures { IfOk result (λ all. all.items ≡ spec.order_told part station near surveys.now) }
{
    let moments = moments_told(alloc, part, surveys, station, near)?;
    in_order(alloc, moments.as_slice())
}

fn take_part(equipment: &mut Equipment, part: Part, later: &Equipment)
    ensures { equipment.new ≡ spec.with_part part later.now equipment.old }
{
    match part {
        Part::Antenna => equipment.take_later_antenna(later),
        Part::Receiver => equipment.take_later_receiver(later),
    }
}

fn take_station(equipment: &mut Equipment, part: Part, station: Option<&StationSurvey>)
    ensures { equipment.new ≡ spec.with_station part equipment.old (option_copied station.entry) }
{
    let Some(station) = station else {
        return;
    };
    if let Some(later) = station.equipment.first() {
        take_part(equipment, part, later);
    }
}

fn take_capture(
    equipment: &mut Equipment,
    part: Part,
    surveys: &[CaptureSurvey],
    station: u16,
    place: usize,
)
    ensures { equipment.new ≡ spec.with_capture part surveys.now station equipment.old place }
{
    if let Some(survey) = surveys.get(place) {
        take_station(equipment, part, survey.contents.stations.get(&station));
    }
}

// What captures in this order told.
fn take_captures(
    equipment: &mut Equipment,
    part: Part,
    surveys: &[CaptureSurvey],
    station: u16,
    ordered: &[Ordered],
)
    ensures { equipment.new ≡ spec.with_captures part surveys.now station equipment.old ordered.now }
{
    for capture in ordered {
        take_capture(equipment, part, surveys, station, capture.given);
    }
}

/// What captures told last of a station, by time; their epochs lie near this moment. Captures without an
/// epoch come before all others.
pub fn equipment_in_captures(
    alloc: Global,
    surveys: &[CaptureSurvey],
    station: u16,
    near: GpsMs,
) -> Result<Equipment, AllocError>
    ensures { IfOk result (λ told. told ≡ spec.equipment_in_captures surveys.now station near) }
{
    let antennas = order_told(alloc, Part::Antenna, surveys, station, near)?;
    let receivers = order_told(alloc, Part::Receiver, surveys, station, near)?;
    let mut told = Equipment::new();
    take_captures(
        &mut told,
        Part::Antenna,
        surveys,
        station,
        antennas.as_slice(),
    );
    take_captures(
        &mut told,
        Part::Receiver,
        surveys,
        station,
        receivers.as_slice(),
    );
    Ok(told)
}
