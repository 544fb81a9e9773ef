//! Codes of which the satellites have few phases.

ghost use Rattle.std.specs.Prelude.{◌≡◌, ◌<◌, ◌^◌, ℕ};
ghost use Rattle.rtk_plan.specs.FewPhases as spec;
ghost use Rattle.rtk_plan.specs.Steps.PhaseMarks.{MarksSatellites};

use rtk_captures::is_station;
use rtk_message::{MsmKind, MsmType, System};
use rtk_obs::AnyCode;
use rtk_survey::{CaptureSurvey, PhaseCount, TargetSurvey, count_in_table};
use rtk_systems::{TakenMessages, is_gps_system};

/// The mask bits (DF394) of satellites, from 1, are below it.
const BITS_END: u8 = 64;

/// The codes of a system have places below it.
const CODES: u8 = 16;

/// Where a survey has the phases of messages of one kind.
#[derive(Clone, Copy)]
pub(crate) enum PhaseSource {
    /// Those of GPS in 1004.
    Gps1004,
    /// Those of an MSM of GPS.
    GpsMsm(MsmKind),
    /// Those of other systems in the messages of this number (DF002).
    Number(u16),
}

/// The messages from which a conversion takes values of a system.
#[derive(Clone, Copy)]
pub(crate) struct CountedPhases {
    /// Those beside the MSM, if there are such ones.
    pub(crate) legacy: Option<PhaseSource>,
    pub(crate) msm: PhaseSource,
}

/// The phases of a station in captures, in the messages of one system.
#[derive(Clone, Copy)]
pub(crate) struct CapturePhases<'s> {
    pub(crate) surveys: &'s [CaptureSurvey],
    pub(crate) station: u16,
    pub(crate) from: CountedPhases,
}

// The station of which phases are held.
fn counted_station(source: PhaseSource, target: &TargetSurvey) -> Option<u16>
    ensures { result ≡ spec.counted_station source target.now }
{
    match source {
        PhaseSource::Gps1004 | PhaseSource::GpsMsm(_) => target.dates.station,
        PhaseSource::Number(_) => target.system_phases.station,
    }
}

fn table_for(source: PhaseSource, target: &TargetSurvey) -> &[PhaseCount]
    ensures { result.now ≡ spec.table_for source target.now }
{
    match source {
        PhaseSource::Gps1004 => target.phases.of_1004.as_slice(),
        PhaseSource::GpsMsm(kind) => target.phases.of_msm(kind),
        PhaseSource::Number(number) => target.system_phases.of_number(number),
    }
}

// The phases of a station in the messages of one kind of a capture.
fn table_in(station: u16, source: PhaseSource, survey: &CaptureSurvey) -> &[PhaseCount]
    ensures { result.now ≡ spec.table_in station source survey.now }
{
    match &survey.contents.target {
        Some(target) if is_station(station, counted_station(source, target)) => {
            table_for(source, target)
        }
        _ => &[],
    }
}

fn added_count(count: PhaseCount, more: PhaseCount) -> PhaseCount
    ensures { result ≡ spec.added_count count more }
{
    PhaseCount {
        has_value: count.has_value || more.has_value,
        phases: count.phases.saturating_add(more.phases),
    }
}

fn joined_count(count: PhaseCount, other: PhaseCount) -> PhaseCount
    ensures { result ≡ spec.joined_count count other }
{
    PhaseCount {
        has_value: count.has_value || other.has_value,
        phases: count.phases.max(other.phases),
    }
}

// The messages beside the MSM from which a conversion takes values of a system.
fn legacy_source(taken: TakenMessages, system: System) -> Option<PhaseSource>
    ensures { result ≡ spec.legacy_source taken system }
{
    match system {
        System::Gps => Some(PhaseSource::Gps1004),
        System::Glonass => {
            if taken.obs1012 {
                Some(PhaseSource::Number(1012))
            } else {
                None
            }
        }
        System::Sbas => Some(PhaseSource::Number(1004)),
        System::Galileo | System::Beidou | System::Qzss | System::Navic => None,
    }
}

fn msm_source(taken: TakenMessages, system: System) -> PhaseSource
    ensures { result ≡ spec.msm_source taken system }
{
    if is_gps_system(system) {
        PhaseSource::GpsMsm(taken.kinds.gps)
    } else {
        let kind = taken.kinds.kind(system);
        PhaseSource::Number(MsmType { system, kind }.number())
    }
}

impl CountedPhases {
    // The messages from which a conversion takes values of a system.
    fn of(taken: TakenMessages, system: System) -> CountedPhases
        ensures { result ≡ spec.counted_phases taken system }
    {
        CountedPhases {
            legacy: legacy_source(taken, system),
            msm: msm_source(taken, system),
        }
    }
}

impl CapturePhases<'_> {
    // What a satellite, by its mask bit, has of the code of a place in the messages of one kind.
    fn count(&self, source: PhaseSource, bit: u8, code: u8) -> PhaseCount
        ensures { result ≡ spec.count_in_captures self.now.surveys.now self.now.station source bit code }
    {
        let mut count = PhaseCount::nothing();
        for survey in self.surveys {
            let table = table_in(self.station, source, survey);
            count = added_count(count, count_in_table(table, bit, code));
        }
        count
    }

    fn count_if_any(&self, source: Option<PhaseSource>, bit: u8, code: u8) -> PhaseCount
        ensures { result ≡ spec.count_if_any self.now.surveys.now self.now.station source bit code }
    {
        match source {
            Some(source) => self.count(source, bit, code),
            None => PhaseCount::nothing(),
        }
    }

    // What a satellite has of a code in the messages of its system.
    fn code_count(&self, bit: u8, code: u8) -> PhaseCount
        ensures { result ≡ spec.code_count self.now.surveys.now self.now.station self.now.from bit code }
    {
        let legacy = self.count_if_any(self.from.legacy, bit, code);
        joined_count(legacy, self.count(self.from.msm, bit, code))
    }

    // Which satellites, by their mask bits, have a value in a code.
    fn satellites_with(&self, code: u8) -> [bool; 64]
        ensures { MarksSatellites self.now.surveys.now self.now.station self.now.from code result }
    {
        let mut marks = [false; 64];
        for bit in 0u8..BITS_END {
            marks[usize::from(bit)] = self.code_count(bit, code).has_value;
        }
        marks
    }

    // How many phases a satellite has in a code, if it is marked.
    fn marked_phases(&self, is_marked: bool, bit: u8, code: u8) -> u64
        ensures { result ≡ spec.phases_if is_marked (spec.code_count self.now.surveys.now self.now.station self.now.from bit code).phases }
    {
        if is_marked {
            self.code_count(bit, code).phases
        } else {
            0
        }
    }

    // How many phases the satellites that have a value in one code, which are marked, have in another.
    fn phases_shared(&self, marks: &[bool; 64], other: u8) -> u128
        ensures value { (code : ℕ) → MarksSatellites self.now.surveys.now self.now.station self.now.from code marks.now
            → result ≡ spec.phases_shared self.now.surveys.now self.now.station self.now.from code other }
        ensures bound { result < 2 ^ 70 }
    {
        let mut phases = 0u128;
        for bit in 1u8..BITS_END {
            let is_marked = marks[usize::from(bit)];
            phases += u128::from(self.marked_phases(is_marked, bit, other));
        }
        phases
    }

    // Have the satellites that have this code more than twice as many phases in another one?
    fn has_few(&self, code: u8) -> bool
        ensures { result ≡ spec.has_few_phases self.now.surveys.now self.now.station self.now.from code }
    {
        let marks = self.satellites_with(code);
        let own = self.phases_shared(&marks, code);
        for other in 0u8..CODES {
            if 2 * own < self.phases_shared(&marks, other) {
                return true;
            }
        }
        false
    }
}

/// Have the satellites that have this code more than twice as many phases in another one of their system?
pub(crate) fn has_few_phases(
    surveys: &[CaptureSurvey],
    station: u16,
    taken: TakenMessages,
    code: AnyCode,
) -> bool
    ensures { result ≡ spec.has_few_phases_of surveys.now station taken code }
{
    let phases = CapturePhases {
        surveys,
        station,
        from: CountedPhases::of(taken, code.system()),
    };
    phases.has_few(code.place() as u8)
}
