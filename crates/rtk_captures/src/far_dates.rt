//! The lines of captures in which a message of the station tells a date more than half a day from the epochs beside it, or if
//! the capture has none from the messages of GLONASS and BeiDou.
//!
//! If memory is refused, a first part of what is put may stand there.

ghost use Rattle.std.specs.Prelude.{◌≡◌, ◌≤◌, ◌++◌, OnOk};
ghost use Rattle.rtk_captures.specs.FarDateLines as spec;
ghost use Rattle.rtk_captures.specs.StationCaptures.{dates_in};
ghost use Rattle.rtk_obs.specs.declared.time.TheConstants.{LAST_MS};

use crate::lists::{end_line, put_words_and_name};
use crate::span_line::put_message;
use crate::station_capture::{is_station, span_in};
use crate::times::{put_time, put_time_at};
use rtk_obs::LAST_MS;
use rtk_survey::{
    CaptureSurvey, DateMessage, FarDate, Span, TargetSurvey, UtcDate, clocks_by_station,
    first_far_date, marks_if_known, moment_of,
};
use std::alloc::AllocError;

// The date that is far from the epochs of a capture, if it was surveyed for the station.
fn far_date_in(station: u16, survey: &CaptureSurvey) -> Option<FarDate>
    ensures { result ≡ spec.far_from_epochs (dates_in station survey.now).told }
{
    match &survey.contents.target {
        Some(target) if is_station(station, target.dates.station) => {
            let told = &target.dates.capture.told;
            first_far_date(told.far, told.waiting_far)
        }
        _ => None,
    }
}

fn far_clocks_for(station: u16, target: &Option<TargetSurvey>) -> Option<FarDate>
    ensures { result ≡ spec.far_clocks_for station target.now }
{
    match target {
        Some(target) => {
            let marks = marks_if_known(target.present, &target.dates, station);
            let clocks = clocks_by_station(&target.clocks, station);
            clocks.far_date(&marks)
        }
        None => None,
    }
}

// The date of the station that is far from the clocks of a capture.
fn far_clocks_in(station: u16, survey: &CaptureSurvey) -> Option<FarDate>
    ensures { result ≡ spec.far_clocks_in station survey.now }
{
    far_clocks_for(station, &survey.contents.target)
}

// Appends a date, with the message that tells it and its capture.
#[tactic(auto, unfolding(crate::specs::FarDateLines::far_head))]
fn put_far_head(lines: &mut Vec<u8>, date: UtcDate, name: &str) -> Result<(), AllocError>
    ensures { OnOk result (lines.new.items ≡ lines.old.items ++ spec.far_head date name.now) }
{
    lines.extend_from_slice(b" other-date ")?;
    put_time(lines, moment_of(date))?;
    put_message(lines, DateMessage::Utc(date))?;
    put_words_and_name(lines, b" in ", name)?;
    Ok(())
}

// Appends an epoch that a date tells.
#[tactic(auto, unfolding(crate::specs::FarDateLines::far_epoch))]
fn put_far_epoch(lines: &mut Vec<u8>, epoch: u64) -> Result<(), AllocError>
    requires { epoch ≤ LAST_MS }
    ensures { OnOk result (lines.new.items ≡ lines.old.items ++ spec.far_epoch epoch) }
{
    lines.extend_from_slice(b": it dates the epoch beside it as ")?;
    put_time_at(lines, epoch)?;
    end_line(lines)
}

fn put_far_line(lines: &mut Vec<u8>, far: FarDate, name: &str) -> Result<(), AllocError>
    ensures { OnOk result (lines.new.items ≡ lines.old.items ++ spec.far_date_line far name.now) }
{
    if LAST_MS < far.epoch {
        return Ok(());
    }
    put_far_head(lines, far.date, name)?;
    put_far_epoch(lines, far.epoch)?;
    Ok(())
}

fn put_far_line_if(lines: &mut Vec<u8>, far: Option<FarDate>, name: &str) -> Result<(), AllocError>
    ensures { OnOk result (lines.new.items ≡ lines.old.items ++ spec.far_date_line_if far name.now) }
{
    match far {
        Some(far) => put_far_line(lines, far, name),
        None => Ok(()),
    }
}

// Appends a message beside a date.
#[tactic(auto, unfolding(crate::specs::FarDateLines::far_neighbour))]
fn put_far_neighbour(lines: &mut Vec<u8>, moment: u64) -> Result<(), AllocError>
    requires { moment ≤ LAST_MS }
    ensures { OnOk result (lines.new.items ≡ lines.old.items ++ spec.far_neighbour moment) }
{
    lines.extend_from_slice(b": the message beside it is dated ")?;
    put_time_at(lines, moment)?;
    end_line(lines)
}

fn put_far_clock(lines: &mut Vec<u8>, far: FarDate, name: &str) -> Result<(), AllocError>
    ensures { OnOk result (lines.new.items ≡ lines.old.items ++ spec.far_clock_line far name.now) }
{
    if LAST_MS < far.epoch {
        return Ok(());
    }
    put_far_head(lines, far.date, name)?;
    put_far_neighbour(lines, far.epoch)?;
    Ok(())
}

fn put_far_clock_if(lines: &mut Vec<u8>, far: Option<FarDate>, name: &str) -> Result<(), AllocError>
    ensures { OnOk result (lines.new.items ≡ lines.old.items ++ spec.far_clock_line_if far name.now) }
{
    match far {
        Some(far) => put_far_clock(lines, far, name),
        None => Ok(()),
    }
}

// Appends the line of a date that is far from epochs, or if there are none from clocks.
fn put_far_beside(
    lines: &mut Vec<u8>,
    span: Option<Span>,
    epochs: Option<FarDate>,
    clocks: Option<FarDate>,
    name: &str,
) -> Result<(), AllocError>
    ensures { OnOk result (lines.new.items ≡ lines.old.items ++ spec.far_line_beside span epochs clocks name.now) }
{
    match span {
        Some(_) => put_far_line_if(lines, epochs, name),
        None => put_far_clock_if(lines, clocks, name),
    }
}

/// Appends the line of a capture in which a message of the station tells a date far from the epochs beside it, or if the
/// capture has none from the messages of GLONASS and BeiDou.
pub fn put_far_date(
    lines: &mut Vec<u8>,
    survey: &CaptureSurvey,
    station: u16,
    name: &str,
) -> Result<(), AllocError>
    ensures { OnOk result (lines.new.items ≡ lines.old.items ++ spec.far_date_line_in station survey.now name.now) }
{
    let span = span_in(station, survey);
    let epochs = far_date_in(station, survey);
    let clocks = far_clocks_in(station, survey);
    put_far_beside(lines, span, epochs, clocks, name)
}
