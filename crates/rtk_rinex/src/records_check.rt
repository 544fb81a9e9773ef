//! The check of the lines that follow the header, line by line.
//!
//! Observations are most of a file, so they are told by their form and not written again.

ghost use Rattle.rtk_rinex.specs.CheckLine.{IsEpochLine, IsNextTime, IsEpochFault, IsSatelliteForm, IsNextSatellite, IsSatelliteFault};
ghost use Rattle.rtk_rinex.specs.CheckText.{IsFaultOfRows, IsFaultOfRecord, IsFaultOfRecords};
ghost use Rattle.rtk_rinex.specs.Steps.ReadRecords.{IsRowLine, ReadsRows, ReadsRecord, ReadsRecords};
ghost use Rattle.rtk_obs.specs.CivilText.{last_digits};
ghost use Rattle.rtk_rinex.specs.Lines.{HasNoEnd, IsLine};
ghost use Rattle.std.specs.Int.{IsInRange};
ghost use Rattle.std.specs.Prelude.{◌≡◌, ◌≢◌, ℕ, ◌+◌, ◌-◌, ◌*◌, ◌<◌, ◌≤◌, ◌++◌, [], ◌∷◌, length, take, slice_get, Option, Some, IsTrue, ◌↔◌, IfOk, IfErr, MatchOption, ◌^◌, List, flat_map, None};

use crate::check_fault::{Cause, CheckFault};
use crate::columns::{CODE_COLUMNS, GPS_SATELLITES};
use crate::digits::number_of_digits;
use crate::epoch_line_check::{EpochStamp, read_epoch_line};
use crate::header_check::line_end;
use crate::satellite_line_check::is_row_line;
use rtk_obs::GpsMs;

/// Returns whether a record at this time may follow the record `last`, or be the first one at the
/// time `first`.
pub(crate) fn is_next_time(first: GpsMs, last: Option<GpsMs>, time: GpsMs) -> bool
    ensures { IsTrue result ↔ IsNextTime first last time }
{
    match last {
        None => time.ms() == first.ms(),
        Some(last) => last.ms() < time.ms(),
    }
}

// Returns the moment and count of an epoch line that follows the epoch `last`, in a file of this
// first time, else the cause of its fault.
fn check_epoch_line(line: &[u8], first: GpsMs, last: Option<GpsMs>) -> Result<EpochStamp, Cause>
    ensures line { IfOk result (λ s. IsEpochLine line.now s.time s.count × IsNextTime first last s.time) }
    ensures fault { IfErr result (IsEpochFault first last line.now) }
{
    let Some(stamp) = read_epoch_line(line, GPS_SATELLITES) else {
        return Err(Cause::Columns);
    };
    if !is_next_time(first, last, stamp.time) {
        return Err(Cause::Order);
    }
    Ok(stamp)
}

// Returns the satellite that a line names in its first three columns.
fn satellite_named(line: &[u8]) -> Option<u8>
    ensures { MatchOption result
        ((s : ℕ) → IsInRange 1 32 s → take 3 line.now ≢ 71 ∷ last_digits 2 s)
        (λ s. IsInRange 1 32 s × (take 3 line.now ≡ 71 ∷ last_digits 2 s)) }
{
    let [mark, tens, units, ..] = line else {
        return None;
    };
    let satellite = number_of_digits(&[*tens, *units]) as u8;
    if satellite == 0 || satellite > 32 || *mark != b'G' {
        return None;
    }
    if *tens != b'0' + satellite / 10 || *units != b'0' + satellite % 10 {
        return None;
    }
    Some(satellite)
}

/// Returns the satellite of a line that has the form of a satellite line.
pub(crate) fn satellite_of_form(line: &[u8], code_count: usize) -> Option<u8>
    requires { code_count ≤ 16 }
    ensures { MatchOption result
        ((s : ℕ) → ¬ (IsSatelliteForm code_count line.now s))
        (λ s. IsSatelliteForm code_count line.now s) }
{
    let satellite = satellite_named(line)?;
    if line.len() > 4 + CODE_COLUMNS * code_count || line[line.len() - 2] == b' ' {
        return None;
    }
    Some(satellite)
}

/// Returns whether the line of this satellite may follow the line of the satellite `last`.
pub(crate) fn is_next_satellite(last: Option<u8>, satellite: u8) -> bool
    ensures { IsTrue result ↔ IsNextSatellite last satellite }
{
    match last {
        None => true,
        Some(last) => last < satellite,
    }
}

// Returns the satellite of a satellite line that follows the line of the satellite `last`, in a
// file of `code_count` codes, else the cause of its fault.
fn check_satellite_line(line: &[u8], code_count: usize, last: Option<u8>) -> Result<u8, Cause>
    requires code_count { code_count ≤ 16 }
    requires line { IsLine line.now }
    ensures row { IfOk result (λ s. IsRowLine code_count line.now s) }
    ensures next { IfOk result (IsNextSatellite last) }
    ensures fault { IfErr result (IsSatelliteFault code_count last line.now) }
{
    let Some(satellite) = satellite_of_form(line, code_count) else {
        return Err(Cause::Columns);
    };
    if !is_next_satellite(last, satellite) {
        return Err(Cause::Order);
    }
    if !is_row_line(line, code_count) {
        return Err(Cause::Value);
    }
    Ok(satellite)
}

/// How many epoch lines a text has, one for each record, and how many satellite lines.
#[derive(Clone, Copy)]
pub(crate) struct LineCounts {
    pub epochs: usize,
    pub satellites: usize,
}

/// Returns the first line of a text with its LF and the text after it, or `None` if no LF ends the
/// line.
pub(crate) fn next_line(text: &[u8]) -> Option<(&[u8], &[u8])>
    ensures { MatchOption result
        (HasNoEnd text.now)
        (λ l. IsLine l.0.now × (text.now ≡ l.0.now ++ l.1.now) × (length l.1.now < length text.now)) }
{
    let end = line_end(text)?;
    Some(text.split_at(end + 1))
}

// Reads `count` satellite lines after the first `lines` lines of the file, and returns the text
// after them.
fn check_satellites<'a>(
    text: &'a [u8],
    lines: usize,
    code_count: usize,
    count: usize,
) -> Result<&'a [u8], CheckFault>
    requires code_count { code_count ≤ 16 }
    requires count { count ≤ 32 }
    requires lines { lines + length text.now + 1 < 2 ^ 64 }
    ensures rows { IfOk result (λ rest. ReadsRows code_count count text.now rest.now) }
    ensures len { IfOk result (λ rest. length rest.now + count ≤ length text.now) }
    ensures fault { IfErr result (IsFaultOfRows code_count count lines text.now) }
{
    let mut rest = text;
    let mut last = None;
    for k in 0..count {
        let line = lines + k + 1;
        let Some((satellite_line, after)) = next_line(rest) else {
            return Err(CheckFault {
                line,
                cause: Cause::Truncated,
            });
        };
        match check_satellite_line(satellite_line, code_count, last) {
            Ok(satellite) => last = Some(satellite),
            Err(cause) => return Err(CheckFault { line, cause }),
        }
        rest = after;
    }
    Ok(rest)
}

// Reads a record after the first `lines` lines of the file and after the epoch `last`, and returns
// the text after the record.
fn check_record<'a>(
    text: &'a [u8],
    lines: usize,
    code_count: usize,
    first: GpsMs,
    last: Option<GpsMs>,
) -> Result<(EpochStamp, &'a [u8]), CheckFault>
    requires code_count { code_count ≤ 16 }
    requires some { 0 < length text.now }
    requires lines { lines + length text.now + 1 < 2 ^ 64 }
    ensures record { IfOk result (λ r. ReadsRecord code_count first last r.0.time r.0.count text.now r.1.now) }
    ensures count { IfOk result (λ r. r.0.count ≤ 32) }
    ensures len { IfOk result (λ r. length r.1.now + r.0.count < length text.now) }
    ensures fault { IfErr result (IsFaultOfRecord code_count first last lines text.now) }
{
    let line = lines + 1;
    let Some((epoch_line, after)) = next_line(text) else {
        return Err(CheckFault {
            line,
            cause: Cause::Truncated,
        });
    };
    let stamp = match check_epoch_line(epoch_line, first, last) {
        Ok(stamp) => stamp,
        Err(cause) => return Err(CheckFault { line, cause }),
    };
    let rest = check_satellites(after, line, code_count, stamp.count)?;
    Ok((stamp, rest))
}

/// Reads the records of a file of `code_count` codes and this first time, after its first `lines` lines.
pub(crate) fn check_records(
    text: &[u8],
    lines: usize,
    code_count: usize,
    first: GpsMs,
) -> Result<LineCounts, CheckFault>
    requires code_count { code_count ≤ 16 }
    requires lines { lines + length text.now + 1 < 2 ^ 64 }
    ensures records { IfOk result (λ c. ReadsRecords code_count first c.epochs c.satellites text.now) }
    ensures fault { IfErr result (IsFaultOfRecords code_count first lines text.now) }
{
    let mut rest = text;
    let mut line = lines;
    let mut last = None;
    let mut counts = LineCounts {
        epochs: 0,
        satellites: 0,
    };
    while rest.len() > 0 {
        // A `match`: the prover has no rule for `?` at a slice beside a moment.
        let (stamp, after) = match check_record(rest, line, code_count, first, last) {
            Ok(read) => read,
            Err(fault) => return Err(fault),
        };
        line += 1 + stamp.count;
        last = Some(stamp.time);
        counts.epochs += 1;
        counts.satellites += stamp.count;
        rest = after;
    }
    Ok(counts)
}
