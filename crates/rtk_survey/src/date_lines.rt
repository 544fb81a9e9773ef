//! The lines of dates of a summary.
//!
//! If memory is refused, a first part of what is put may stand there.

ghost use Rattle.std.specs.Prelude.{◌≡◌, ◌++◌, List, OnOk};
ghost use Rattle.rtk_survey.specs.declared.date_message.DateMessage.{DateMessage};
ghost use Rattle.rtk_obs.specs.Reading.{reading_of};
ghost use Rattle.rtk_survey.specs.Contents.{CountsSystemWeeks, CountsWeeks, HasSystemTellings};
ghost use Rattle.rtk_survey.specs.Summary.{weeks_text, weeks_text_of, system_weeks_text};
ghost use Rattle.rtk_survey.specs.SummaryText.{date_time_text, near_text, first_date_line, date_line, date_lines, week_line, system_week_line};
ghost use Rattle.rtk_survey.specs.declared.system_message.SystemMessage.{SystemMessage};

use crate::date_message::UtcDate;
use crate::line::put_line;
use crate::station_dates::{DateCount, StationDates};
use crate::system_tellings::SystemTellings;
use crate::telling::moment_of;
use crate::unread::count_of_number;
use rtk_message::put_named;
use rtk_obs::{Civil, GpsMs, civil, put_clock, put_date};
use std::alloc::AllocError;
use std::collections::BTreeMap;

/// How many weeks there are: DF076 has 10 bits.
const WEEKS: u16 = 1024;

/// How many weeks of BeiDou there are: DF489 has 13 bits.
const BEIDOU_WEEKS: u16 = 8192;

/// How many weeks of Galileo there are: DF289 has 12 bits.
const GALILEO_WEEKS: u16 = 4096;

// The reading of a moment.
fn reading(moment: GpsMs) -> Civil
    ensures { result ≡ reading_of moment }
{
    civil(moment)
}

// A date and a time of day.
fn put_moment(lines: &mut Vec<u8>, date: UtcDate) -> Result<(), AllocError>
    ensures { OnOk result (lines.new.items ≡ lines.old.items ++ date_time_text date) }
{
    let reading = reading(moment_of(date));
    put_date(lines, reading)?;
    lines.push(b'T')?;
    put_clock(lines, reading)
}

/// Appends the moment near which a command converts.
pub(crate) fn put_near(lines: &mut Vec<u8>, near: Option<UtcDate>) -> Result<(), AllocError>
    ensures { OnOk result (lines.new.items ≡ lines.old.items ++ near_text near) }
{
    match near {
        Some(date) => put_moment(lines, date),
        None => lines.extend_from_slice(b"GPS-TIME-WITHIN-HALF-A-WEEK"),
    }
}

fn put_first_date(
    lines: &mut Vec<u8>,
    number: u64,
    count: u64,
    first: Option<UtcDate>,
) -> Result<(), AllocError>
    ensures { OnOk result (lines.new.items ≡ lines.old.items ++ first_date_line number count first) }
{
    let Some(date) = first else {
        return Ok(());
    };
    lines.extend_from_slice(b" date ")?;
    put_moment(lines, date)?;
    put_named(lines, b" ", number)?;
    put_line(lines, b" ", count)
}

fn put_date_line(lines: &mut Vec<u8>, number: u64, dates: &DateCount) -> Result<(), AllocError>
    ensures { OnOk result (lines.new.items ≡ lines.old.items ++ date_line number dates.now) }
{
    put_first_date(lines, number, dates.count, dates.first)
}

/// Appends the lines of the dates of a station.
pub(crate) fn put_dates(lines: &mut Vec<u8>, dates: &StationDates) -> Result<(), AllocError>
    ensures { OnOk result (lines.new.items ≡ lines.old.items ++ date_lines dates.now) }
{
    put_date_line(lines, 1013, &dates.of_1013)?;
    put_date_line(lines, 1029, &dates.of_1029)
}

fn put_week(lines: &mut Vec<u8>, week: u64, count: u64) -> Result<(), AllocError>
    ensures { OnOk result (lines.new.items ≡ lines.old.items ++ week_line week count) }
{
    if count == 0 {
        return Ok(());
    }
    put_named(lines, b"week ", week)?;
    put_line(lines, b" 1019 ", count)
}

/// Appends a line for each week that has a count.
pub(crate) fn put_weeks(lines: &mut Vec<u8>, weeks: &BTreeMap<u16, u64>) -> Result<(), AllocError>
    ensures { (ds : List DateMessage) → CountsWeeks weeks.now ds → OnOk result (lines.new.items ≡ lines.old.items ++ weeks_text ds) }
{
    for week in 0..WEEKS {
        put_week(lines, u64::from(week), count_of_number(weeks, week))?;
    }
    Ok(())
}

fn put_system_week(
    lines: &mut Vec<u8>,
    number: u16,
    week: u16,
    count: u64,
) -> Result<(), AllocError>
    ensures { OnOk result (lines.new.items ≡ lines.old.items ++ system_week_line number week count) }
{
    if count == 0 {
        return Ok(());
    }
    put_named(lines, b"week ", u64::from(week))?;
    put_named(lines, b" ", u64::from(number))?;
    put_line(lines, b" ", count)
}

// Appends a line for each week, below this one, that messages of a number name.
fn put_weeks_of(
    lines: &mut Vec<u8>,
    number: u16,
    below: u16,
    weeks: &BTreeMap<u16, u64>,
) -> Result<(), AllocError>
    ensures { (ts : List SystemMessage) → CountsSystemWeeks number weeks.now ts
        → OnOk result (lines.new.items ≡ lines.old.items ++ weeks_text_of number below ts) }
{
    for week in 0..below {
        put_system_week(lines, number, week, count_of_number(weeks, week))?;
    }
    Ok(())
}

/// Appends a line for each week of BeiDou and Galileo that has a count.
pub(crate) fn put_system_weeks(
    lines: &mut Vec<u8>,
    tellings: &SystemTellings,
) -> Result<(), AllocError>
    ensures { (ts : List SystemMessage) → HasSystemTellings tellings.now ts
        → OnOk result (lines.new.items ≡ lines.old.items ++ system_weeks_text ts) }
{
    put_weeks_of(lines, 1042, BEIDOU_WEEKS, &tellings.weeks_1042)?;
    put_weeks_of(lines, 1045, GALILEO_WEEKS, &tellings.weeks_1045)?;
    put_weeks_of(lines, 1046, GALILEO_WEEKS, &tellings.weeks_1046)
}
