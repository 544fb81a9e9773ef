//! The counts of a file, record by record.

ghost use Rattle.std.specs.Prelude.{◌≡◌, ◌<◌, ◌≤◌, ℕ, List, [], ◌∷◌, ◌++◌, length, Option, IfOk, OnOk};
ghost use Rattle.std.specs.List.{range_with_len};
ghost use Rattle.rtk_rinex.specs.Record.{EpochTableView};
ghost use Rattle.rtk_quality.specs.Steps.Noted.{no_locks, locks_onto};
ghost use Rattle.rtk_quality.specs.Records.{unit_of};
ghost use Rattle.rtk_quality.specs.Largest.{AreLargest};
ghost use Rattle.rtk_quality.specs.Outages.{outages_in, size_of_outage};
ghost use Rattle.rtk_quality.specs.Moments.{together_in};
ghost use Rattle.rtk_quality.specs.Runs.{runs_in, open_runs, size_of_run};
ghost use Rattle.rtk_quality.specs.Bursts.{bursts_in, last_bursts, size_of_burst};
ghost use Rattle.rtk_quality.specs.declared.outages.Outage.{Outage};
ghost use Rattle.rtk_quality.specs.declared.runs.HalfRun.{HalfRun};
ghost use Rattle.rtk_quality.specs.declared.bursts.Burst.{Burst};
ghost use Rattle.rtk_quality.specs.Quality.{totals_of, station_sums, possible_in, satellites_in};
ghost use Rattle.rtk_tracking.specs.Epochs.{HoldsOfEpochs, newest_first, newest_moment};
ghost use Rattle.rtk_quality.specs.Standing.{AreRowsUpTo, RowsRise, EpochsRise, without_rows, with_ended, StandForSatellites, StandForMissing, StandForEnded, IsCounting, HasCounted};

use crate::bursts::burst_of;
use crate::code_numbers::CodeNumbers;
use crate::events::Events;
use crate::gaps::{Gap, gap_between};
use crate::hours::{Hours, Locks};
use crate::largest::Largest;
use crate::missing::{MissingCode, MissingCodes, note_missing};
use crate::moments::{Moment, Together, moment_if_several};
use crate::pass_sums::PassSums;
use crate::record_counts::{RecordCounts, unit_ms};
use crate::runs::half_run;
use crate::satellite_counts::{PassCounts, SatelliteCounts};
use crate::satellites::{satellite_at, satellite_of};
use rtk_obs::{AnyCode, GpsMs, SatelliteIndex, civil};
use rtk_rinex::{EpochTable, SatelliteRow, TextTable};
use std::alloc::{AllocError, Global};

/// How many satellites GPS has.
const GPS_SATELLITES: usize = 32;

/// A pass that ended, and its satellite.
#[derive(Clone, Copy)]
pub(crate) struct EndedPass {
    pub(crate) satellite: SatelliteIndex,
    pub(crate) pass: PassCounts,
}

/// What came of a file.
#[derive(Drop)]
pub(crate) struct FileCounts {
    pub(crate) records: RecordCounts,
    /// The satellites from 1 on.
    pub(crate) satellites: Vec<SatelliteCounts>,
    /// Their codes.
    pub(crate) codes: Vec<MissingCodes>,
    /// The passes that ended, in the order in which others began.
    pub(crate) ended: Vec<EndedPass>,
    pub(crate) hours: Hours,
    pub(crate) gaps: Largest<Gap>,
    pub(crate) moments: Largest<Moment>,
    pub(crate) events: Events,
    /// The times at which codes are missing, once all records are counted.
    pub(crate) missing: Largest<MissingCode>,
}

/// What the rows of an epoch add up to.
#[derive(Clone, Copy)]
pub(crate) struct EpochNotes {
    pub(crate) locks: Locks,
    pub(crate) together: Together,
}

// Adds a pass of a satellite, if one ended.
fn add_ended(
    ended: &mut Vec<EndedPass>,
    satellite: SatelliteIndex,
    pass: Option<PassCounts>,
) -> Result<(), AllocError>
    ensures { OnOk result (ended.new.items ≡ with_ended ended.old.items satellite pass) }
{
    match pass {
        Some(pass) => {
            ended.push(EndedPass { satellite, pass })?;
            Ok(())
        }
        None => Ok(()),
    }
}

// A moment in ms, if it is there.
fn ms_of(moment: Option<GpsMs>) -> Option<u64>
    ensures { result ≡ moment }
{
    match moment {
        Some(moment) => Some(moment.ms()),
        None => None,
    }
}

// Counts one more epoch of each satellite, of which no row came so far.
fn note_satellites(satellites: &mut Vec<SatelliteCounts>)
    ensures size { length satellites.new.items ≡ length satellites.old.items }
    ensures satellites { (most : ℕ) (interval : Option ℕ) (time : ℕ) (es : List EpochTableView) → StandForSatellites satellites.old.items most interval es
        → StandForSatellites satellites.new.items most interval (without_rows time ∷ es) }
{
    let all = satellites.as_mut_slice();
    for place in 0..all.len() {
        all[place].note_epoch();
    }
}

// Counts the rows of that epoch, which comes after a record at this moment or is the first one.
fn note_rows(
    satellites: &mut Vec<SatelliteCounts>,
    codes: &mut Vec<MissingCodes>,
    ended: &mut Vec<EndedPass>,
    events: &mut Events,
    interval: Option<u64>,
    record_ms: Option<u64>,
    time: GpsMs,
    rows: &[SatelliteRow],
) -> Result<EpochNotes, AllocError>
    requires satellites { length satellites.old.items ≤ 221 }
    requires codes { length codes.old.items ≡ length satellites.old.items }
    requires rows { AreRowsUpTo (length satellites.old.items) rows.now }
    ensures size { OnOk result (length satellites.new.items ≡ length satellites.old.items) }
    ensures codes_size { OnOk result (length codes.new.items ≡ length codes.old.items) }
    ensures satellites { OnOk result ((most : ℕ) (es : List EpochTableView) → RowsRise rows.now → record_ms ≡ newest_moment es
        → StandForSatellites satellites.old.items most interval (without_rows time ∷ es)
        → StandForSatellites satellites.new.items most interval (record { time = time; rows = rows.now } ∷ es)) }
    ensures codes { OnOk result ((most : ℕ) (es : List EpochTableView) (count : ℕ) → RowsRise rows.now → record_ms ≡ newest_moment es
        → StandForSatellites satellites.old.items most interval (without_rows time ∷ es)
        → StandForMissing codes.old.items count most interval es → StandForMissing codes.new.items count most interval (record { time = time; rows = rows.now } ∷ es)) }
    ensures ended { OnOk result ((most : ℕ) (es : List EpochTableView) → RowsRise rows.now → record_ms ≡ newest_moment es
        → StandForSatellites satellites.old.items most interval (without_rows time ∷ es)
        → StandForEnded ended.old.items most interval es → StandForEnded ended.new.items most interval (record { time = time; rows = rows.now } ∷ es)) }
    ensures outages { OnOk result ((most : ℕ) (es : List EpochTableView) (all : List Outage) → RowsRise rows.now → record_ms ≡ newest_moment es
        → StandForSatellites satellites.old.items most interval (without_rows time ∷ es)
        → AreLargest size_of_outage events.old.outages all → AreLargest size_of_outage events.new.outages (all ++ outages_in interval es time rows.now)) }
    ensures runs { OnOk result ((most : ℕ) (es : List EpochTableView) (all : List HalfRun) → RowsRise rows.now → record_ms ≡ newest_moment es
        → StandForSatellites satellites.old.items most interval (without_rows time ∷ es)
        → AreLargest size_of_run events.old.runs all → AreLargest size_of_run events.new.runs (all ++ runs_in interval es time rows.now)) }
    ensures bursts { OnOk result ((most : ℕ) (es : List EpochTableView) (all : List Burst) → RowsRise rows.now → record_ms ≡ newest_moment es
        → StandForSatellites satellites.old.items most interval (without_rows time ∷ es)
        → AreLargest size_of_burst events.old.bursts all → AreLargest size_of_burst events.new.bursts (all ++ bursts_in interval es time rows.now)) }
    ensures locks { IfOk result (λ notes. (most : ℕ) (es : List EpochTableView) → RowsRise rows.now → record_ms ≡ newest_moment es
        → StandForSatellites satellites.old.items most interval (without_rows time ∷ es)
        → notes.locks ≡ locks_onto interval es time no_locks rows.now) }
    ensures together { IfOk result (λ notes. (most : ℕ) (es : List EpochTableView) → RowsRise rows.now → record_ms ≡ newest_moment es
        → StandForSatellites satellites.old.items most interval (without_rows time ∷ es)
        → notes.together ≡ together_in interval es time rows.now) }
{
    let reading = civil(time);
    let mut locks = Locks::none();
    let mut together = Together::none();
    for row in rows {
        let satellite = satellite_of(row);
        let place = usize::from(row.satellite) - 1;
        let observed = row.observed.as_slice();
        let notes = satellites[place].note_row(interval, record_ms, time, reading, observed);
        locks = locks.plus(&notes.locks);
        together = together.plus(notes.locks.slips, notes.is_tracked);
        codes[place].note_codes(interval, notes.is_tracked, notes.begins, reading, observed)?;
        add_ended(ended, satellite, notes.ended)?;
        events.note_row(satellite, &notes)?;
    }
    Ok(EpochNotes { locks, together })
}

// Notes the runs and the hours with slips that no later phase ends.
fn note_last(events: &mut Events, satellites: &[SatelliteCounts]) -> Result<(), AllocError>
    requires { length satellites.now ≤ 221 }
    ensures outages { OnOk result (events.new.outages ≡ events.old.outages) }
    ensures runs { OnOk result ((most : ℕ) (interval : Option ℕ) (es : List EpochTableView) (all : List HalfRun) → StandForSatellites satellites.now most interval es
        → AreLargest size_of_run events.old.runs all → AreLargest size_of_run events.new.runs (all ++ open_runs most interval es)) }
    ensures bursts { OnOk result ((most : ℕ) (interval : Option ℕ) (es : List EpochTableView) (all : List Burst) → StandForSatellites satellites.now most interval es
        → AreLargest size_of_burst events.old.bursts all → AreLargest size_of_burst events.new.bursts (all ++ last_bursts most interval es)) }
{
    for (place, counts) in satellites.iter().enumerate() {
        let satellite = satellite_at(place);
        events.runs.note_if_any(half_run(satellite, counts.run))?;
        events.bursts.note_if_any(burst_of(satellite, counts.hour))?;
    }
    Ok(())
}

/// The numbers of the code at this place over all satellites that have it.
pub(crate) fn totals_of(satellites: &[SatelliteCounts], place: usize) -> CodeNumbers
    requires { place < 16 }
    ensures { (most : ℕ) (interval : Option ℕ) (es : List EpochTableView) → StandForSatellites satellites.now most interval es → result ≡ totals_of most interval es place }
{
    let mut totals = CodeNumbers::none();
    for satellite in satellites {
        totals.add_satellite(&satellite.numbers(place));
    }
    totals
}

/// How many phases could be there of a code that each satellite sends.
pub(crate) fn possible_in(satellites: &[SatelliteCounts]) -> u64
    ensures { (most : ℕ) (interval : Option ℕ) (es : List EpochTableView) → StandForSatellites satellites.now most interval es → result ≡ possible_in most interval es }
{
    let mut possible = 0_u64;
    for satellite in satellites {
        possible = possible.saturating_add(satellite.possible());
    }
    possible
}

/// The sums of all satellites.
pub(crate) fn station_sums(satellites: &[SatelliteCounts]) -> PassSums
    ensures { (most : ℕ) (interval : Option ℕ) (es : List EpochTableView) → StandForSatellites satellites.now most interval es → result ≡ station_sums most interval es }
{
    let mut sums = PassSums::none();
    for satellite in satellites {
        sums = sums.plus(&satellite.sums());
    }
    sums
}

/// How many satellites the file has.
pub(crate) fn satellites_in(satellites: &[SatelliteCounts]) -> usize
    ensures { (most : ℕ) (interval : Option ℕ) (es : List EpochTableView) → StandForSatellites satellites.now most interval es → result ≡ satellites_in most interval es }
{
    let mut seen = 0;
    for satellite in satellites {
        if satellite.is_in_file() {
            seen += 1;
        }
    }
    seen
}

// So many codes of each of so many satellites, without an epoch.
fn missing_codes(alloc: Global, count: usize, most: usize) -> Result<Vec<MissingCodes>, AllocError>
    ensures { IfOk result (λ missing. (interval : Option ℕ) → StandForMissing missing.items count most interval []) }
{
    let mut missing = Vec::new(alloc);
    for _satellite in 0..most {
        missing.push(MissingCodes::new(alloc, count)?)?;
    }
    Ok(missing)
}

impl FileCounts {
    /// Of a file of these codes without records: so many satellites, each of them without an epoch.
    pub(crate) fn new(
        alloc: Global,
        codes: &[AnyCode],
        most: usize,
    ) -> Result<FileCounts, AllocError>
        ensures size { IfOk result (λ counts. length counts.satellites.items ≡ most) }
        ensures codes { IfOk result (λ counts. length counts.codes.items ≡ most) }
        ensures counts { IfOk result (λ counts. (interval : Option ℕ) (unit : ℕ) → IsCounting counts most interval unit codes.now []) }
    {
        Ok(FileCounts {
            records: RecordCounts::new(),
            satellites: vec![in alloc; SatelliteCounts::new(); most]?,
            codes: missing_codes(alloc, codes.len(), most)?,
            ended: Vec::new(alloc),
            hours: Hours::new(alloc),
            gaps: Largest::new(alloc),
            moments: Largest::new(alloc),
            events: Events::new(alloc),
            missing: Largest::new(alloc),
        })
    }

    /// Counts one more record.
    pub(crate) fn note_epoch(
        &mut self,
        interval: Option<u64>,
        unit_ms: u64,
        codes: &[AnyCode],
        time: GpsMs,
        rows: &[SatelliteRow],
    ) -> Result<(), AllocError>
        requires unit { 0 < unit_ms }
        requires size { length self.old.satellites.items ≤ 221 }
        requires codes { length self.old.codes.items ≡ length self.old.satellites.items }
        requires rows { AreRowsUpTo (length self.old.satellites.items) rows.now }
        requires few { length rows.now ≤ 221 }
        ensures size { OnOk result (length self.new.satellites.items ≡ length self.old.satellites.items) }
        ensures codes { OnOk result (length self.new.codes.items ≡ length self.old.codes.items) }
        ensures counts { OnOk result ((most : ℕ) (es : List EpochTableView) → RowsRise rows.now
            → IsCounting self.old most interval unit_ms codes.now es → IsCounting self.new most interval unit_ms codes.now (record { time = time; rows = rows.now } ∷ es)) }
    {
        let record_ms = ms_of(self.records.last);
        note_satellites(&mut self.satellites);
        let notes = note_rows(
            &mut self.satellites,
            &mut self.codes,
            &mut self.ended,
            &mut self.events,
            interval,
            record_ms,
            time,
            rows,
        )?;
        self.hours.note_record(
            interval,
            unit_ms,
            self.records.last,
            codes,
            time,
            rows,
            &notes.locks,
        )?;
        self.gaps
            .note_if_any(gap_between(unit_ms, self.records.last, time))?;
        self.moments
            .note_if_any(moment_if_several(time, notes.together))?;
        self.records.note_record(unit_ms, time, rows.len() as u32);
        Ok(())
    }

    /// Ends the counts: notes what no later record ends.
    pub(crate) fn finish(
        &mut self,
        interval: Option<u64>,
        codes: &[AnyCode],
    ) -> Result<(), AllocError>
        requires few { length codes.now ≤ 16 }
        requires size { length self.old.satellites.items ≤ 221 }
        requires codes { length self.old.codes.items ≡ length self.old.satellites.items }
        ensures size { OnOk result (length self.new.satellites.items ≡ length self.old.satellites.items) }
        ensures counts { OnOk result ((most : ℕ) (epochs : List EpochTableView) → EpochsRise epochs
            → IsCounting self.old most interval (unit_of interval) codes.now (newest_first epochs)
            → HasCounted self.new most interval (unit_of interval) codes.now (newest_first epochs)) }
    {
        note_last(&mut self.events, self.satellites.as_slice())?;
        note_missing(
            &mut self.missing,
            interval,
            codes,
            self.satellites.as_slice(),
            self.codes.as_slice(),
        )?;
        Ok(())
    }
}

/// Counts all records of a table of GPS with these codes and this interval.
pub(crate) fn count_file(
    alloc: Global,
    table: &TextTable<'_>,
    codes: &[AnyCode],
    interval: Option<u64>,
) -> Result<FileCounts, AllocError>
    requires { length codes.now ≤ 16 }
    ensures size { IfOk result (λ counts. length counts.satellites.items ≡ 32) }
    ensures counts { IfOk result (λ counts. HoldsOfEpochs table.now.text
        (λ es. HasCounted counts 32 interval (unit_of interval) codes.now es)) }
{
    let unit_ms = unit_ms(interval);
    let mut counts = FileCounts::new(alloc, codes, GPS_SATELLITES)?;
    let mut epoch = EpochTable::new(table.heading().first);
    let mut records = table.records();
    while let Some(_record) = records.next(&mut epoch) {
        let rows = epoch.rows();
        counts.note_epoch(interval, unit_ms, codes, epoch.time(), rows)?;
    }
    counts.finish(interval, codes)?;
    Ok(counts)
}
