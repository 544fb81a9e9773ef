//! The lines of clocks of a station.
//!
//! If memory is refused, a first part of what is put may stand there.

ghost use Rattle.std.specs.Prelude.{◌≡◌, ◌++◌, OnOk};
ghost use Rattle.rtk_survey.specs.ClockLines as spec;
ghost use Rattle.rtk_survey.specs.Telling.{moment_of};

use crate::clock_chains::{ClockOffset, ClockOffsets};
use crate::date_message::UtcDate;
use crate::line::put_line;
use crate::telling::moment_of;
use rtk_message::{put_named, put_number};
use rtk_obs::{GpsMs, HALF_WEEK_MS, WEEK_MS, leap_seconds_at, three_digits};
use std::alloc::AllocError;

// ---- the offset that is told

#[tactic(auto, unfolding(crate::specs::ClockLines::from_zero))]
fn from_zero(ahead: u32) -> u64
    ensures { result ≡ spec.from_zero ahead }
{
    let ahead = u64::from(ahead);
    ahead.min(WEEK_MS.saturating_sub(ahead))
}

fn is_nearer_zero(a: ClockOffset, b: ClockOffset) -> bool
    ensures { result ≡ spec.is_nearer_zero a b }
{
    let of_a = from_zero(a.ahead_ms);
    let of_b = from_zero(b.ahead_ms);
    if of_a < of_b {
        return true;
    }
    if of_b < of_a {
        return false;
    }
    b.ahead_ms < a.ahead_ms
}

fn is_told_before(a: ClockOffset, b: ClockOffset) -> bool
    ensures { result ≡ spec.is_told_before a b }
{
    if b.count < a.count {
        return true;
    }
    if a.count < b.count {
        return false;
    }
    is_nearer_zero(a, b)
}

fn told_of_two(known: Option<ClockOffset>, offset: ClockOffset) -> Option<ClockOffset>
    ensures { result ≡ spec.told_of_two known offset }
{
    match known {
        None => Some(offset),
        Some(known) => {
            if is_told_before(offset, known) {
                Some(offset)
            } else {
                Some(known)
            }
        }
    }
}

fn told_with_offset(known: Option<ClockOffset>, offset: ClockOffset) -> Option<ClockOffset>
    ensures { result ≡ spec.told_with_offset known offset }
{
    if offset.ahead_ms == 0 {
        known
    } else {
        told_of_two(known, offset)
    }
}

/// The offset that most clocks have, of those that are not 0; of two alike the one that is nearer to 0, then
/// the lesser.
pub fn told_offset(offsets: &[ClockOffset]) -> Option<ClockOffset>
    ensures { result ≡ spec.told_offset offsets.now }
{
    let mut told = None;
    for offset in offsets {
        told = told_with_offset(told, *offset);
    }
    told
}

// ---- GLONASS, whose clocks tell UTC

/// The leap seconds of the table at a moment.
pub fn table_seconds_at(moment: GpsMs) -> u8
    ensures { result ≡ spec.leap_seconds_by moment }
{
    leap_seconds_at(moment)
}

pub(crate) fn leap_seconds_by(date: UtcDate) -> u8
    ensures { result ≡ spec.leap_seconds_by (moment_of date) }
{
    table_seconds_at(moment_of(date))
}

#[tactic(auto, unfolding(crate::specs::ClockLines::gps_ahead_with))]
pub(crate) fn gps_ahead_with(leap_seconds: u8, ahead: u32) -> u32
    ensures { result ≡ spec.gps_ahead_with leap_seconds ahead }
{
    ((u64::from(ahead) + 1000 * u64::from(leap_seconds)) % WEEK_MS) as u32
}

fn gps_offset(leap_seconds: u8, offset: ClockOffset) -> ClockOffset
    ensures { result ≡ spec.gps_offset leap_seconds offset }
{
    ClockOffset {
        ahead_ms: gps_ahead_with(leap_seconds, offset.ahead_ms),
        count: offset.count,
    }
}

/// The offset that is told of clocks of GLONASS, as of clocks of GPS time.
pub(crate) fn told_gps(leap_seconds: u8, offsets: &[ClockOffset]) -> Option<ClockOffset>
    ensures { result ≡ spec.told_gps leap_seconds offsets.now }
{
    let mut told = None;
    for offset in offsets {
        told = told_with_offset(told, gps_offset(leap_seconds, *offset));
    }
    told
}

/// How many clocks these offsets are of.
pub fn compared_clocks(offsets: &[ClockOffset]) -> u64
    ensures { result ≡ spec.compared_clocks offsets.now }
{
    let mut count = 0u64;
    for offset in offsets {
        count = count.saturating_add(offset.count);
    }
    count
}

// ---- the lines

#[tactic(auto, unfolding(crate::specs::ClockLines::offset_seconds_text))]
fn put_seconds(lines: &mut Vec<u8>, ms: u64) -> Result<(), AllocError>
    ensures { OnOk result (lines.new.items ≡ lines.old.items ++ spec.offset_seconds_text ms) }
{
    put_number(lines, ms / 1000)?;
    lines.push(b'.')?;
    lines.extend_from_slice(&three_digits((ms % 1000) as u16))
}

#[tactic(auto, unfolding(crate::specs::ClockLines::offset_sign))]
fn offset_sign(ahead: u32) -> u8
    ensures { result ≡ spec.offset_sign ahead }
{
    if u64::from(ahead) <= HALF_WEEK_MS {
        b'+'
    } else {
        b'-'
    }
}

#[tactic(auto, unfolding(crate::specs::ClockLines::offset_text))]
fn put_offset(lines: &mut Vec<u8>, ahead: u32) -> Result<(), AllocError>
    ensures { OnOk result (lines.new.items ≡ lines.old.items ++ spec.offset_text ahead) }
{
    lines.push(offset_sign(ahead))?;
    put_seconds(lines, from_zero(ahead))
}

#[tactic(auto, unfolding(crate::specs::ClockLines::clock_words))]
fn put_clock_words(lines: &mut Vec<u8>, letter: u8, ahead: u32) -> Result<(), AllocError>
    ensures { OnOk result (lines.new.items ≡ lines.old.items ++ spec.clock_words letter ahead) }
{
    lines.extend_from_slice(b" clock ")?;
    lines.push(letter)?;
    lines.push(b' ')?;
    put_offset(lines, ahead)
}

/// Appends the line of the clocks of a system, if an offset is told: how many of all that are compared have
/// it.
pub fn put_clock_line(
    lines: &mut Vec<u8>,
    letter: u8,
    all: u64,
    told: Option<ClockOffset>,
) -> Result<(), AllocError>
    ensures { OnOk result (lines.new.items ≡ lines.old.items ++ spec.clock_line_of letter all told) }
{
    let Some(offset) = told else {
        return Ok(());
    };
    put_clock_words(lines, letter, offset.ahead_ms)?;
    put_named(lines, b" ", offset.count)?;
    put_line(lines, b" of ", all)
}

fn put_clock(lines: &mut Vec<u8>, letter: u8, offsets: &[ClockOffset]) -> Result<(), AllocError>
    ensures { OnOk result (lines.new.items ≡ lines.old.items ++ spec.clock_line letter offsets.now) }
{
    put_clock_line(
        lines,
        letter,
        compared_clocks(offsets),
        told_offset(offsets),
    )
}

// The line of GLONASS, if the station has a date.
fn put_glonass(
    lines: &mut Vec<u8>,
    date: Option<UtcDate>,
    offsets: &[ClockOffset],
) -> Result<(), AllocError>
    ensures { OnOk result (lines.new.items ≡ lines.old.items ++ spec.glonass_line date offsets.now) }
{
    let Some(date) = date else {
        return Ok(());
    };
    put_clock_line(
        lines,
        b'R',
        compared_clocks(offsets),
        told_gps(leap_seconds_by(date), offsets),
    )
}

/// Appends a line for each system whose clocks differ from those of their chains.
pub(crate) fn put_offsets(
    lines: &mut Vec<u8>,
    date: Option<UtcDate>,
    offsets: &ClockOffsets,
) -> Result<(), AllocError>
    ensures { OnOk result (lines.new.items ≡ lines.old.items ++ spec.clock_lines date offsets.now) }
{
    put_glonass(lines, date, offsets.glonass.as_slice())?;
    put_clock(lines, b'E', offsets.galileo.as_slice())?;
    put_clock(lines, b'C', offsets.beidou.as_slice())?;
    put_clock(lines, b'J', offsets.qzss.as_slice())?;
    put_clock(lines, b'S', offsets.sbas.as_slice())?;
    put_clock(lines, b'I', offsets.navic.as_slice())?;
    Ok(())
}
