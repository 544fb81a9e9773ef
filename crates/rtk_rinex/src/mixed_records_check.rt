//! The check of the lines that follow a header of any systems, line by line, as records_check.rt does it for
//! a file of GPS.

ghost use Rattle.rtk_rinex.specs.CheckLine.{IsNextTime, IsNextSatellite};
ghost use Rattle.rtk_rinex.specs.MixedCheckLine.{IsMixedEpochLine, IsMixedEpochFault, IsMixedSatelliteFault};
ghost use Rattle.rtk_rinex.specs.MixedCheckText.{IsFaultOfMixedRows, IsFaultOfMixedRecord, IsFaultOfMixedRecords};
ghost use Rattle.rtk_rinex.specs.Steps.MixedReadRecords.{IsMixedRowLine, ReadsMixedRows, ReadsMixedRecord, ReadsMixedRecords};
ghost use Rattle.rtk_rinex.specs.Lines.{IsLine};
ghost use Rattle.std.specs.Prelude.{◌≡◌, ℕ, ◌+◌, ◌<◌, ◌≤◌, length, IfOk, IfErr, ◌^◌};

use crate::check_fault::{Cause, CheckFault};
use crate::epoch_line_check::{EpochStamp, read_epoch_line};
use crate::mixed_form::RecordForm;
use crate::mixed_satellite_line_check::{is_mixed_row_line, satellite_of_mixed_form};
use crate::records_check::{LineCounts, is_next_satellite, is_next_time, next_line};
use rtk_obs::GpsMs;

// Returns the moment and count of an epoch line that follows the epoch `last`, in a file of this form and
// this first time, else the cause of its fault.
fn check_epoch_line(
    line: &[u8],
    form: &RecordForm,
    first: GpsMs,
    last: Option<GpsMs>,
) -> Result<EpochStamp, Cause>
    ensures line { IfOk result (λ s. IsMixedEpochLine form.now line.now s.time s.count × IsNextTime first last s.time) }
    ensures count { IfOk result (λ s. s.count ≤ 221) }
    ensures fault { IfErr result (IsMixedEpochFault form.now first last line.now) }
{
    let Some(stamp) = read_epoch_line(line, form.most_satellites()) else {
        return Err(Cause::Columns);
    };
    if !is_next_time(first, last, stamp.time) {
        return Err(Cause::Order);
    }
    Ok(stamp)
}

// Returns the satellite of a satellite line that follows the line of the satellite `last`, in a file of
// this form, else the cause of its fault.
fn check_satellite_line(line: &[u8], form: &RecordForm, last: Option<u8>) -> Result<u8, Cause>
    requires line { IsLine line.now }
    ensures row { IfOk result (λ s. IsMixedRowLine form.now line.now s) }
    ensures next { IfOk result (IsNextSatellite last) }
    ensures fault { IfErr result (IsMixedSatelliteFault form.now last line.now) }
{
    let Some(satellite) = satellite_of_mixed_form(line, form) else {
        return Err(Cause::Columns);
    };
    if !is_next_satellite(last, satellite.index()) {
        return Err(Cause::Order);
    }
    if !is_mixed_row_line(line, form, satellite) {
        return Err(Cause::Value);
    }
    Ok(satellite.index())
}

// Reads `count` satellite lines after the first `lines` lines of the file, and returns the text after them.
fn check_satellites<'a>(
    text: &'a [u8],
    lines: usize,
    form: &RecordForm,
    count: usize,
) -> Result<&'a [u8], CheckFault>
    requires count { count ≤ 221 }
    requires lines { lines + length text.now + 1 < 2 ^ 64 }
    ensures rows { IfOk result (λ rest. ReadsMixedRows form.now count text.now rest.now) }
    ensures len { IfOk result (λ rest. length rest.now + count ≤ length text.now) }
    ensures fault { IfErr result (IsFaultOfMixedRows form.now count lines text.now) }
{
    let mut rest = text;
    let mut last = None;
    for k in 0..count {
        let line = lines + k + 1;
        let Some((satellite_line, after)) = next_line(rest) else {
            return Err(CheckFault {
                line,
                cause: Cause::Truncated,
            });
        };
        match check_satellite_line(satellite_line, form, last) {
            Ok(satellite) => last = Some(satellite),
            Err(cause) => return Err(CheckFault { line, cause }),
        }
        rest = after;
    }
    Ok(rest)
}

// Reads a record after the first `lines` lines of the file and after the epoch `last`, and returns the text
// after the record.
fn check_record<'a>(
    text: &'a [u8],
    lines: usize,
    form: &RecordForm,
    first: GpsMs,
    last: Option<GpsMs>,
) -> Result<(EpochStamp, &'a [u8]), CheckFault>
    requires some { 0 < length text.now }
    requires lines { lines + length text.now + 1 < 2 ^ 64 }
    ensures record { IfOk result (λ r. ReadsMixedRecord form.now first last r.0.time r.0.count text.now r.1.now) }
    ensures count { IfOk result (λ r. r.0.count ≤ 221) }
    ensures len { IfOk result (λ r. length r.1.now + r.0.count < length text.now) }
    ensures fault { IfErr result (IsFaultOfMixedRecord form.now first last lines text.now) }
{
    let line = lines + 1;
    let Some((epoch_line, after)) = next_line(text) else {
        return Err(CheckFault {
            line,
            cause: Cause::Truncated,
        });
    };
    let stamp = match check_epoch_line(epoch_line, form, first, last) {
        Ok(stamp) => stamp,
        Err(cause) => return Err(CheckFault { line, cause }),
    };
    let rest = check_satellites(after, line, form, stamp.count)?;
    Ok((stamp, rest))
}

/// Reads the records of a file of this form and this first time, after its first `lines` lines.
pub(crate) fn check_mixed_records(
    text: &[u8],
    lines: usize,
    form: &RecordForm,
    first: GpsMs,
) -> Result<LineCounts, CheckFault>
    requires lines { lines + length text.now + 1 < 2 ^ 64 }
    ensures records { IfOk result (λ c. ReadsMixedRecords form.now first c.epochs c.satellites text.now) }
    ensures fault { IfErr result (IsFaultOfMixedRecords form.now first lines text.now) }
{
    let mut rest = text;
    let mut line = lines;
    let mut last = None;
    let mut counts = LineCounts {
        epochs: 0,
        satellites: 0,
    };
    while rest.len() > 0 {
        // A `match`: the prover has no rule for `?` at a slice beside a moment.
        let (stamp, after) = match check_record(rest, line, form, first, last) {
            Ok(read) => read,
            Err(fault) => return Err(fault),
        };
        line += 1 + stamp.count;
        last = Some(stamp.time);
        counts.epochs += 1;
        counts.satellites += stamp.count;
        rest = after;
    }
    Ok(counts)
}
