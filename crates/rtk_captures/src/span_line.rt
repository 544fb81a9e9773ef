//! The line that tells the epochs of the station, and by what they are dated.

ghost use Rattle.std.specs.Prelude.{◌≡◌, ◌++◌, ◌≤◌, OnOk};
ghost use Rattle.rtk_obs.specs.declared.time.TheConstants.{LAST_MS};
ghost use Rattle.rtk_captures.specs.SpanLine as spec;

use crate::times::{put_time, reading};
use rtk_message::put_named;
use rtk_obs::{GpsMs, LAST_MS, WEEK_MS, put_date};
use rtk_survey::DateMessage;
use std::alloc::AllocError;

/// The weeks that a 1019 tells apart, in ms.
const WEEKS_MS: u64 = 1024 * WEEK_MS;

/// By what the epochs are dated.
#[derive(Clone, Copy, Debug, PartialEq, Eq)]
pub enum DateSource {
    /// By the words of the command.
    Words,
    /// By a message of the station with this number, 1013 or 1029.
    Station(u16),
    /// By a message with this number of another station.
    OtherStation(u16, u16),
    /// By messages 1019.
    Ephemerides,
    /// By messages with this number, 1042, 1045 or 1046.
    OtherEphemerides(u16),
}

/// The first and the last epoch of the station, and by what they are dated.
#[derive(Clone, Copy, Debug, PartialEq, Eq)]
pub struct DatedSpan {
    pub from: GpsMs,
    pub until: GpsMs,
    pub source: DateSource,
}

// Appends the day of a moment.
fn put_day(line: &mut Vec<u8>, ms: u64) -> Result<(), AllocError>
    requires { ms ≤ LAST_MS }
    ensures { OnOk result (line.new.items ≡ line.old.items ++ spec.day_text ms) }
{
    let Some(moment) = GpsMs::new(ms) else {
        unreachable!();
    };
    put_date(line, reading(moment))
}

// Appends the days 1,024 weeks before and after a moment.
#[tactic(auto, unfolding(crate::specs::SpanLine::neighbours_text))]
fn put_neighbours(line: &mut Vec<u8>, moment: GpsMs) -> Result<(), AllocError>
    ensures { OnOk result (line.new.items ≡ line.old.items ++ spec.neighbours_text moment) }
{
    let ms = moment.ms();
    if ms < WEEKS_MS {
        return put_day(line, ms + WEEKS_MS);
    }
    put_day(line, ms - WEEKS_MS)?;
    if LAST_MS < ms + WEEKS_MS {
        return Ok(());
    }
    line.extend_from_slice(b", ")?;
    put_day(line, ms + WEEKS_MS)
}

// Appends the number of a message and its station.
fn put_number_and_station(line: &mut Vec<u8>, number: u64, station: u64) -> Result<(), AllocError>
    ensures { OnOk result (line.new.items ≡ line.old.items ++ spec.number_and_station number station) }
{
    put_named(line, b" by ", number)?;
    put_named(line, b" of station ", station)?;
    Ok(())
}

// Appends that a week dates, and the neighbours of the day.
fn put_week(line: &mut Vec<u8>, first: GpsMs) -> Result<(), AllocError>
    ensures { OnOk result (line.new.items ≡ line.old.items ++ spec.week_text first) }
{
    line.extend_from_slice(b" by 1019 (or ")?;
    put_neighbours(line, first)?;
    line.extend_from_slice(b")")?;
    Ok(())
}

fn put_source(line: &mut Vec<u8>, source: DateSource, first: GpsMs) -> Result<(), AllocError>
    ensures { OnOk result (line.new.items ≡ line.old.items ++ spec.source_text source first) }
{
    match source {
        DateSource::Words => line.extend_from_slice(b" by --near"),
        DateSource::Station(number) => put_named(line, b" by ", u64::from(number)),
        DateSource::OtherStation(number, station) => {
            put_number_and_station(line, u64::from(number), u64::from(station))
        }
        DateSource::Ephemerides => put_week(line, first),
        DateSource::OtherEphemerides(number) => put_named(line, b" by ", u64::from(number)),
    }
}

/// Appends by what message a date is told.
pub(crate) fn put_message(line: &mut Vec<u8>, message: DateMessage) -> Result<(), AllocError>
    ensures { OnOk result (line.new.items ≡ line.old.items ++ spec.date_message_text message) }
{
    match message {
        DateMessage::Utc(date) => {
            put_number_and_station(line, u64::from(date.number), u64::from(date.station))
        }
        DateMessage::Ephemeris(_) => line.extend_from_slice(b" by 1019"),
        DateMessage::OtherEphemeris(date) => put_named(line, b" by ", u64::from(date.number)),
    }
}

/// Appends the line of the epochs.
#[tactic(auto, unfolding(crate::specs::SpanLine::span_line))]
pub fn put_span(line: &mut Vec<u8>, span: &DatedSpan) -> Result<(), AllocError>
    ensures { OnOk result (line.new.items ≡ line.old.items ++ spec.span_line span.now) }
{
    line.extend_from_slice(b" from ")?;
    put_time(line, span.from)?;
    line.extend_from_slice(b" until ")?;
    put_time(line, span.until)?;
    put_source(line, span.source, span.from)?;
    line.push(b'\n')?;
    Ok(())
}
