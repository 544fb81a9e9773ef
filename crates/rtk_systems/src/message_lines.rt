//! The lines of messages: those that are not taken, and those that captures have.
//!
//! If memory is refused, a first part of what is put may stand there.

ghost use Rattle.std.specs.Prelude.{◌≡◌, ◌≤◌, ◌+◌, ◌++◌, IfOk, OnOk};
ghost use Rattle.rtk_systems.specs.MessageLines as spec;

use crate::held_messages::{
    all_1012_in_captures, held_in_captures, messages_in_captures, obs_1004_in_captures,
    others_in_captures, sbas_in_captures, with_refused,
};
use rtk_message::{Accepted, MsmKind, put_named};
use rtk_survey::CaptureSurvey;
use std::alloc::{AllocError, Global};

/// How many message numbers there are: DF002 has 12 bits.
const NUMBERS: u16 = 4096;

/// Appends a line of words, a message number and its count; a count of 0 has no line.
pub(crate) fn put_count_line(
    lines: &mut Vec<u8>,
    words: &[u8],
    number: u16,
    count: u64,
) -> Result<(), AllocError>
    ensures { OnOk result (lines.new.items ≡ lines.old.items ++ spec.count_line_of words.now number count) }
{
    if count == 0 {
        return Ok(());
    }
    put_named(lines, words, u64::from(number))?;
    put_named(lines, b", ", count)?;
    lines.extend_from_slice(b" messages\n")
}

// Appends the line of a number, unless its messages are taken.
fn put_unread_line(
    lines: &mut Vec<u8>,
    surveys: &[CaptureSurvey],
    words: &[u8],
    taken: Accepted,
    number: u16,
) -> Result<(), AllocError>
    ensures { OnOk result (lines.new.items ≡ lines.old.items ++ spec.unread_line words.now taken surveys.now number) }
{
    if taken.accepts(number) {
        return Ok(());
    }
    put_count_line(lines, words, number, others_in_captures(surveys, number))
}

// Appends a line for each number of messages that are not taken, of so many numbers from a first one.
fn put_numbered(
    lines: &mut Vec<u8>,
    surveys: &[CaptureSurvey],
    words: &[u8],
    taken: Accepted,
    first: u16,
    count: u16,
) -> Result<(), AllocError>
    requires { first + count ≤ 4096 }
    ensures { OnOk result (lines.new.items ≡ lines.old.items ++ spec.unread_lines_from words.now taken surveys.now first count) }
{
    for at in 0..count {
        put_unread_line(lines, surveys, words, taken, first + at)?;
    }
    Ok(())
}

// Appends the lines of GPS observations that no conversion takes.
fn put_unread_gps(
    lines: &mut Vec<u8>,
    surveys: &[CaptureSurvey],
    taken: Accepted,
) -> Result<(), AllocError>
    ensures { OnOk result (lines.new.items ≡ lines.old.items ++ spec.unread_gps taken surveys.now) }
{
    put_numbered(lines, surveys, b" not in the file: GPS ", taken, 1001, 3)?;
    put_numbered(lines, surveys, b" not in the file: GPS ", taken, 1071, 3)?;
    Ok(())
}

/// Appends a line of words, a count and an end, if the count is not 0.
pub(crate) fn put_counted(
    lines: &mut Vec<u8>,
    words: &[u8],
    count: u64,
    end: &[u8],
) -> Result<(), AllocError>
    ensures { OnOk result (lines.new.items ≡ lines.old.items ++ spec.ended_count_line words.now count end.now) }
{
    if count == 0 {
        return Ok(());
    }
    put_named(lines, words, count)?;
    lines.extend_from_slice(end)
}

// Appends the line of so many 1012 that can't be dated.
fn put_long(lines: &mut Vec<u8>, count: u64) -> Result<(), AllocError>
    ensures { OnOk result (lines.new.items ≡ lines.old.items ++ spec.long_line count) }
{
    put_counted(
        lines,
        b" untaken GLONASS 1012 ",
        count,
        b": more than a day\n",
    )
}

// Appends the line of so many messages of GLONASS of a number, unless they are taken.
fn put_glonass_numbered(
    lines: &mut Vec<u8>,
    taken: Accepted,
    number: u16,
    count: u64,
) -> Result<(), AllocError>
    ensures { OnOk result (lines.new.items ≡ lines.old.items ++ spec.glonass_line_of taken number count) }
{
    if taken.accepts(number) {
        return Ok(());
    }
    put_count_line(lines, b" not in the file: GLONASS ", number, count)
}

// Appends the line of 1012, unless they are taken.
fn put_untaken_1012(
    lines: &mut Vec<u8>,
    surveys: &[CaptureSurvey],
    taken: Accepted,
) -> Result<(), AllocError>
    ensures { OnOk result (lines.new.items ≡ lines.old.items ++ spec.untaken_1012_line taken surveys.now) }
{
    let count = all_1012_in_captures(surveys);
    put_glonass_numbered(lines, taken, 1012, count)?;
    Ok(())
}

// Appends the line of 1012, which may be left out since they can't be dated.
fn put_1012(
    lines: &mut Vec<u8>,
    surveys: &[CaptureSurvey],
    is_long: bool,
    taken: Accepted,
) -> Result<(), AllocError>
    ensures { OnOk result (lines.new.items ≡ lines.old.items ++ spec.line_of_1012 is_long taken surveys.now) }
{
    if is_long {
        put_long(lines, all_1012_in_captures(surveys))
    } else {
        put_untaken_1012(lines, surveys, taken)
    }
}

// Appends the lines of 1009 to 1012.
#[tactic(auto, unfolding(crate::specs::MessageLines::unread_legacy_glonass))]
fn put_legacy_glonass(
    lines: &mut Vec<u8>,
    surveys: &[CaptureSurvey],
    is_long: bool,
    taken: Accepted,
) -> Result<(), AllocError>
    ensures { OnOk result (lines.new.items ≡ lines.old.items ++ spec.unread_legacy_glonass is_long taken surveys.now) }
{
    put_numbered(
        lines,
        surveys,
        b" not in the file: GLONASS ",
        taken,
        1009,
        3,
    )?;
    put_1012(lines, surveys, is_long, taken)?;
    Ok(())
}

// Appends the lines of observations of GLONASS, Galileo and SBAS.
fn put_unread_glonass_to_sbas(
    lines: &mut Vec<u8>,
    surveys: &[CaptureSurvey],
    is_long: bool,
    taken: Accepted,
) -> Result<(), AllocError>
    ensures { OnOk result (lines.new.items ≡ lines.old.items ++ spec.unread_glonass_to_sbas is_long taken surveys.now) }
{
    put_legacy_glonass(lines, surveys, is_long, taken)?;
    put_numbered(
        lines,
        surveys,
        b" not in the file: GLONASS ",
        taken,
        1081,
        7,
    )?;
    put_numbered(
        lines,
        surveys,
        b" not in the file: Galileo ",
        taken,
        1091,
        7,
    )?;
    put_numbered(lines, surveys, b" not in the file: SBAS ", taken, 1101, 7)?;
    Ok(())
}

// Appends the lines of observations of QZSS, BeiDou and NavIC.
fn put_unread_qzss_to_navic(
    lines: &mut Vec<u8>,
    surveys: &[CaptureSurvey],
    taken: Accepted,
) -> Result<(), AllocError>
    ensures { OnOk result (lines.new.items ≡ lines.old.items ++ spec.unread_qzss_to_navic taken surveys.now) }
{
    put_numbered(lines, surveys, b" not in the file: QZSS ", taken, 1111, 7)?;
    put_numbered(lines, surveys, b" not in the file: BeiDou ", taken, 1121, 7)?;
    put_numbered(lines, surveys, b" not in the file: NavIC ", taken, 1131, 7)?;
    Ok(())
}

/// Appends the lines of observations that are not taken: of GPS and of other systems. 1012 may be left out since they
/// can't be dated.
pub fn put_unread(
    lines: &mut Vec<u8>,
    surveys: &[CaptureSurvey],
    is_long: bool,
    taken: Accepted,
) -> Result<(), AllocError>
    ensures { OnOk result (lines.new.items ≡ lines.old.items ++ spec.all_unread is_long taken surveys.now) }
{
    put_unread_gps(lines, surveys, taken)?;
    put_unread_glonass_to_sbas(lines, surveys, is_long, taken)?;
    put_unread_qzss_to_navic(lines, surveys, taken)?;
    Ok(())
}

// Appends the line of a number of which a station has so many messages that are read, unless it is taken.
fn put_msm_numbered(
    lines: &mut Vec<u8>,
    surveys: &[CaptureSurvey],
    taken: Accepted,
    number: u16,
    read: u64,
) -> Result<(), AllocError>
    ensures { OnOk result (lines.new.items ≡ lines.old.items ++ spec.msm_line_of taken surveys.now number read) }
{
    if taken.accepts(number) {
        return Ok(());
    }
    let count = with_refused(surveys, number, read);
    put_count_line(lines, b" not in the file: GPS ", number, count)
}

// Appends the line of an MSM of GPS, if there is a message of it and it is not taken.
fn put_msm(
    lines: &mut Vec<u8>,
    surveys: &[CaptureSurvey],
    station: u16,
    taken: Accepted,
    msm: MsmKind,
) -> Result<(), AllocError>
    ensures { OnOk result (lines.new.items ≡ lines.old.items ++ spec.msm_line taken surveys.now station msm) }
{
    let count = messages_in_captures(surveys, station, msm);
    put_msm_numbered(lines, surveys, taken, msm.number(), count)?;
    Ok(())
}

/// Appends the lines of the MSM of GPS of a station that are not taken.
pub fn put_msms(
    lines: &mut Vec<u8>,
    surveys: &[CaptureSurvey],
    station: u16,
    taken: Accepted,
) -> Result<(), AllocError>
    ensures { OnOk result (lines.new.items ≡ lines.old.items ++ spec.msm_lines taken surveys.now station) }
{
    put_msm(lines, surveys, station, taken, MsmKind::Msm4)?;
    put_msm(lines, surveys, station, taken, MsmKind::Msm5)?;
    put_msm(lines, surveys, station, taken, MsmKind::Msm6)?;
    put_msm(lines, surveys, station, taken, MsmKind::Msm7)?;
    Ok(())
}

// Is the number among those from a first to a last one?
fn is_among(first: u16, last: u16, number: u16) -> bool
    ensures { result ≡ spec.is_among first last number }
{
    first <= number && number <= last
}

// What messages of this number hold, if they are MSM: observations of a system, or other things.
fn msm_words(number: u16) -> &'static [u8]
    ensures { result.now ≡ spec.msm_words number }
{
    if is_among(1071, 1077, number) {
        return b" holds GPS ";
    }
    if is_among(1081, 1087, number) {
        return b" holds GLONASS ";
    }
    if is_among(1091, 1097, number) {
        return b" holds Galileo ";
    }
    if is_among(1101, 1107, number) {
        return b" holds SBAS ";
    }
    if is_among(1111, 1117, number) {
        return b" holds QZSS ";
    }
    if is_among(1121, 1127, number) {
        return b" holds BeiDou ";
    }
    if is_among(1131, 1137, number) {
        return b" holds NavIC ";
    }
    b" holds "
}

// What messages of this number hold: observations of a system, or other things.
fn system_words(number: u16) -> &'static [u8]
    ensures { result.now ≡ spec.system_words number }
{
    if is_among(1001, 1004, number) {
        return b" holds GPS ";
    }
    if is_among(1009, 1012, number) {
        return b" holds GLONASS ";
    }
    msm_words(number)
}

// Appends the line of messages of this number.
fn put_held_line(
    lines: &mut Vec<u8>,
    surveys: &[CaptureSurvey],
    number: u16,
) -> Result<(), AllocError>
    ensures { OnOk result (lines.new.items ≡ lines.old.items ++ spec.held_line surveys.now number) }
{
    let count = held_in_captures(surveys, number);
    put_count_line(lines, system_words(number), number, count)
}

/// Appends a line for each number of messages that captures have.
pub(crate) fn put_held(lines: &mut Vec<u8>, surveys: &[CaptureSurvey]) -> Result<(), AllocError>
    ensures { OnOk result (lines.new.items ≡ lines.old.items ++ spec.held_lines surveys.now) }
{
    for number in 0..NUMBERS {
        put_held_line(lines, surveys, number)?;
    }
    Ok(())
}

// Are values of the 1004 of a station taken: those of GPS, or those of satellites of SBAS if it has some?
fn takes_of_1004(surveys: &[CaptureSurvey], station: u16, has_gps: bool, has_sbas: bool) -> bool
    ensures { result ≡ spec.takes_of_1004 has_gps has_sbas surveys.now station }
{
    has_gps || (has_sbas && sbas_in_captures(surveys, station) != 0)
}

/// Appends a line of the 1004 of a station, unless values of them are taken.
pub fn put_obs_1004(
    lines: &mut Vec<u8>,
    surveys: &[CaptureSurvey],
    station: u16,
    has_gps: bool,
    has_sbas: bool,
) -> Result<(), AllocError>
    ensures { OnOk result (lines.new.items ≡ lines.old.items ++ spec.obs_1004_line has_gps has_sbas surveys.now station) }
{
    if takes_of_1004(surveys, station, has_gps, has_sbas) {
        return Ok(());
    }
    let count = obs_1004_in_captures(surveys, station);
    put_count_line(lines, b" not in the file: GPS ", 1004, count)
}

/// Appends a line if 1004 of a station have satellites of SBAS, unless these are taken.
pub fn put_sbas(
    lines: &mut Vec<u8>,
    surveys: &[CaptureSurvey],
    station: u16,
    is_taken: bool,
) -> Result<(), AllocError>
    ensures { OnOk result (lines.new.items ≡ lines.old.items ++ spec.sbas_line is_taken surveys.now station) }
{
    if is_taken {
        return Ok(());
    }
    let count = sbas_in_captures(surveys, station);
    put_count_line(lines, b" not in the file: SBAS of ", 1004, count)
}

/// A line for each number of messages that captures have.
pub fn list_held(alloc: Global, surveys: &[CaptureSurvey]) -> Result<Vec<u8>, AllocError>
    ensures { IfOk result (λ lines. lines.items ≡ spec.held_lines surveys.now) }
{
    let mut lines = Vec::new(alloc);
    put_held(&mut lines, surveys)?;
    Ok(lines)
}
