//! The hours of a file.

ghost use Rattle.std.specs.Prelude.{◌≡◌, ◌<◌, List, [], ◌++◌, reverse, Some, IfOk, OnOk};
ghost use Rattle.rtk_obs.specs.Reading.{reading_of};
ghost use Rattle.rtk_quality.specs.Hours.{hour_at, start_of};
ghost use Rattle.rtk_quality.specs.Steps.Noted.{since_hour, missing_since, missing_until, no_locks, locks_plus, without_records, with_record, ended_hour, hour_onto, ended_by, list_of_hour, hours_with, AreHours};

use crate::strengths::Strengths;
use rtk_obs::{AnyCode, Civil, GpsMs, civil};
use rtk_rinex::SatelliteRow;
use rtk_tracking::{missing_between, nearness_ms};
use std::alloc::{AllocError, Global};

/// An hour in ms.
const HOUR_MS: u64 = 3_600_000;

/// The end of 2100.
const AFTER_2100: Civil = Civil {
    year: 2101,
    month: 1,
    day: 1,
    hour: 0,
    minute: 0,
    second: 0,
    millisecond: 0,
};

/// The slips and returns of all codes.
#[derive(Clone, Copy)]
pub(crate) struct Locks {
    pub(crate) slips: u64,
    pub(crate) returns: u64,
}

/// What the records of an hour have.
#[derive(Clone, Copy)]
pub(crate) struct HourCounts {
    /// The hours of GPS time before it.
    pub(crate) hour: u64,
    pub(crate) records: u64,
    /// The epochs that are missing in it.
    pub(crate) missing: u64,
    /// The satellites of all records together.
    pub(crate) rows: u64,
    pub(crate) locks: Locks,
    pub(crate) strengths: Strengths,
}

/// The hours of a file so far.
#[derive(Drop)]
pub(crate) struct Hours {
    /// The hour of the last record.
    pub(crate) newest: Option<HourCounts>,
    /// Those before it.
    pub(crate) ended: Vec<HourCounts>,
}

/// The hours of GPS time before the one of a moment. A record may lie a little before its hour.
pub(crate) fn hour_at(interval: Option<u64>, time: GpsMs) -> u64
    ensures { result ≡ hour_at interval time }
{
    (time.ms() + nearness_ms(interval)) / HOUR_MS
}

// How long in ms the hour of a moment has been.
fn since_hour_ms(interval: Option<u64>, time: GpsMs) -> u64
    ensures value { result ≡ since_hour interval time }
    ensures bound { result < 3_600_000 }
{
    (time.ms() + nearness_ms(interval)) % HOUR_MS
}

/// The epochs that are missing between two records.
#[derive(Clone, Copy)]
pub(crate) struct MissingAround {
    /// In the hour of the first one, if the second one is of another hour.
    pub(crate) until: u64,
    /// In the hour of the second one.
    pub(crate) since: u64,
}

// Of the epochs that are missing between two records, the ones in the hour of the second record.
fn missing_since(interval: Option<u64>, unit_ms: u64, last: GpsMs, time: GpsMs) -> u64
    requires { 0 < unit_ms }
    ensures { result ≡ missing_since interval unit_ms (Some last) time }
{
    let missing = missing_between(unit_ms, last.ms(), time.ms());
    let hour_ms = time.ms().saturating_sub(since_hour_ms(interval, time));
    let before_ms = hour_ms.saturating_sub(1).saturating_sub(last.ms());
    missing.saturating_sub(before_ms / unit_ms)
}

// The ones in the hour of the first record, if the second one is of another hour.
fn missing_until(interval: Option<u64>, unit_ms: u64, last: GpsMs, time: GpsMs) -> u64
    requires { 0 < unit_ms }
    ensures { result ≡ missing_until interval unit_ms (Some last) time }
{
    let missing = missing_between(unit_ms, last.ms(), time.ms());
    let left_ms = HOUR_MS - 1 - since_hour_ms(interval, last);
    missing.min(left_ms / unit_ms)
}

// The epochs that are missing before a record, which comes after one at this moment or is the first one.
fn missing_before(
    interval: Option<u64>,
    unit_ms: u64,
    last: Option<GpsMs>,
    time: GpsMs,
) -> MissingAround
    requires { 0 < unit_ms }
    ensures until { result.until ≡ missing_until interval unit_ms last time }
    ensures since { result.since ≡ missing_since interval unit_ms last time }
{
    match last {
        Some(last) => MissingAround {
            until: missing_until(interval, unit_ms, last, time),
            since: missing_since(interval, unit_ms, last, time),
        },
        None => MissingAround { until: 0, since: 0 },
    }
}

/// The beginning of an hour. A record just before the end of 2100 counts for the hour that begins then.
pub(crate) fn start_of(hour: u64) -> Civil
    ensures { result ≡ reading_of (start_of hour) }
{
    match GpsMs::new(hour.saturating_mul(HOUR_MS)) {
        Some(start) => civil(start),
        None => AFTER_2100,
    }
}

impl Locks {
    /// Of no record.
    pub(crate) fn none() -> Locks
        ensures { result ≡ no_locks }
    {
        Locks {
            slips: 0,
            returns: 0,
        }
    }

    /// Of these records and others together.
    pub(crate) fn plus(&self, other: &Locks) -> Locks
        ensures { result ≡ locks_plus self.now other.now }
    {
        Locks {
            slips: self.slips.saturating_add(other.slips),
            returns: self.returns.saturating_add(other.returns),
        }
    }
}

impl HourCounts {
    // Of an hour that begins, in which so many epochs are missing before its first record.
    fn begun(hour: u64) -> HourCounts
        ensures { result ≡ without_records hour }
    {
        HourCounts {
            hour,
            records: 0,
            missing: 0,
            rows: 0,
            locks: Locks::none(),
            strengths: Strengths::none(),
        }
    }

    // Adds one more record, before which so many epochs are missing in the hour.
    fn add_record(&mut self, missing: u64, codes: &[AnyCode], rows: &[SatelliteRow], locks: &Locks)
        ensures { self.new ≡ with_record missing codes.now rows.now locks.now self.old }
    {
        self.records = self.records.saturating_add(1);
        self.missing = self.missing.saturating_add(missing);
        self.rows = self.rows.saturating_add(rows.len() as u64);
        self.locks = self.locks.plus(locks);
        self.strengths.add_rows(codes, rows);
    }

    // With the epochs that are missing after its last record.
    fn ended(self, missing: u64) -> HourCounts
        ensures { result ≡ ended_hour missing self }
    {
        HourCounts {
            missing: self.missing.saturating_add(missing),
            ..self
        }
    }
}

// The newest hour, if it is this one, or else this one, which begins.
fn hour_onto(newest: Option<HourCounts>, hour: u64) -> HourCounts
    ensures { result ≡ hour_onto hour newest }
{
    match newest {
        Some(newest) if newest.hour == hour => newest,
        _ => HourCounts::begun(hour),
    }
}

// Ends the newest hour, after which so many epochs are missing in it, if this one is another one.
fn end_newest(
    ended: &mut Vec<HourCounts>,
    newest: Option<HourCounts>,
    hour: u64,
    missing: u64,
) -> Result<(), AllocError>
    ensures { OnOk result (ended.new.items ≡ ended.old.items ++ ended_by hour missing newest) }
{
    match newest {
        Some(newest) if newest.hour != hour => {
            ended.push(newest.ended(missing))?;
            Ok(())
        }
        _ => Ok(()),
    }
}

// Appends the newest hour, if there is one.
fn push_newest(hours: &mut Vec<HourCounts>, newest: Option<HourCounts>) -> Result<(), AllocError>
    ensures { OnOk result (hours.new.items ≡ hours.old.items ++ list_of_hour newest) }
{
    match newest {
        Some(newest) => {
            hours.push(newest)?;
            Ok(())
        }
        None => Ok(()),
    }
}

impl Hours {
    /// Of a file without records.
    pub(crate) fn new(alloc: Global) -> Hours
        ensures { AreHours result [] }
    {
        Hours {
            newest: None,
            ended: Vec::new(alloc),
        }
    }

    /// Notes one more record, which comes after one at this moment or is the first one, and in which
    /// codes slip and return.
    pub(crate) fn note_record(
        &mut self,
        interval: Option<u64>,
        unit_ms: u64,
        last: Option<GpsMs>,
        codes: &[AnyCode],
        time: GpsMs,
        rows: &[SatelliteRow],
        locks: &Locks,
    ) -> Result<(), AllocError>
        requires { 0 < unit_ms }
        ensures { OnOk result ((hs : List HourCounts) → AreHours self.old hs
            → AreHours self.new (hours_with interval unit_ms last codes.now time rows.now locks.now hs)) }
    {
        let hour = hour_at(interval, time);
        let missing = missing_before(interval, unit_ms, last, time);
        end_newest(&mut self.ended, self.newest, hour, missing.until)?;
        let mut newest = hour_onto(self.newest, hour);
        newest.add_record(missing.since, codes, rows, locks);
        self.newest = Some(newest);
        Ok(())
    }

    /// All hours, from the first to the last.
    pub(crate) fn all(&self, alloc: Global) -> Result<Vec<HourCounts>, AllocError>
        ensures { IfOk result (λ hours. (hs : List HourCounts) → AreHours self.now hs → hours.items ≡ reverse hs) }
    {
        let mut hours = Vec::new(alloc);
        hours.extend_from_slice(self.ended.as_slice())?;
        push_newest(&mut hours, self.newest)?;
        Ok(hours)
    }
}
