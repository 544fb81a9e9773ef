//! The lines that list what a refusal or a warning speaks of, each after a blank.
//!
//! If memory is refused, a first part of what is put may stand there.

ghost use Rattle.std.specs.Prelude.{◌≡◌, ◌≤◌, ◌++◌, OnOk};
ghost use Rattle.rtk_obs.specs.declared.time.TheConstants.{LAST_MS};
ghost use Rattle.rtk_captures.specs.Lists as spec;

use crate::span_line::put_message;
use crate::station_capture::{epochs_heard, is_observed_in};
use crate::times::{put_time, put_time_at};
use rtk_message::{put_named, put_sh_quoted};
use rtk_obs::{GpsMs, LAST_MS};
use rtk_survey::{CaptureSurvey, Look, Placed, Told};
use std::alloc::AllocError;

/// Appends a line feed.
pub(crate) fn end_line(lines: &mut Vec<u8>) -> Result<(), AllocError>
    ensures { OnOk result (lines.new.items ≡ lines.old.items ++ spec.line_end) }
{
    lines.push(b'\n')?;
    Ok(())
}

/// Appends words and the name of a capture.
pub(crate) fn put_words_and_name(
    lines: &mut Vec<u8>,
    words: &[u8],
    name: &str,
) -> Result<(), AllocError>
    ensures { OnOk result (lines.new.items ≡ lines.old.items ++ spec.words_and_name words.now name.now) }
{
    lines.extend_from_slice(words)?;
    put_sh_quoted(lines, name.as_bytes())
}

/// Appends a line of words and the name of a capture.
pub fn put_name_line(lines: &mut Vec<u8>, words: &[u8], name: &str) -> Result<(), AllocError>
    ensures { OnOk result (lines.new.items ≡ lines.old.items ++ spec.name_line words.now name.now) }
{
    put_words_and_name(lines, words, name)?;
    end_line(lines)
}

/// Appends the line of a capture that is dated near the others.
pub fn put_undated_line(lines: &mut Vec<u8>, name: &str) -> Result<(), AllocError>
    ensures { OnOk result (lines.new.items ≡ lines.old.items ++ spec.undated_line name.now) }
{
    put_words_and_name(lines, b" undated ", name)?;
    lines.extend_from_slice(b": dated near the others\n")
}

// The command that unpacks a file that looks so, before its name; nothing if none does.
fn unpacker(look: Look) -> &'static [u8]
    ensures { result.now ≡ spec.unpacker look }
{
    match look {
        Look::Gzip => b"gzip -dc",
        Look::Bzip2 => b"bzip2 -dc",
        Look::Xz => b"xz -dc",
        Look::Zip => b"unzip -p",
        _ => b"",
    }
}

// Appends a command that unpacks a file of this name to another one.
fn put_unpacking_by(lines: &mut Vec<u8>, command: &[u8], name: &str) -> Result<(), AllocError>
    ensures { OnOk result (lines.new.items ≡ lines.old.items ++ spec.unpacking_by command.now name.now) }
{
    lines.extend_from_slice(b"; unpack it: ")?;
    lines.extend_from_slice(command)?;
    put_words_and_name(lines, b" ", name)?;
    put_words_and_name(lines, b" >", name)?;
    lines.extend_from_slice(b".rtcm")?;
    Ok(())
}

// Appends the command that unpacks a file, if there is one.
fn put_unpacking(lines: &mut Vec<u8>, command: &[u8], name: &str) -> Result<(), AllocError>
    ensures { OnOk result (lines.new.items ≡ lines.old.items ++ spec.unpacking command.now name.now) }
{
    if command.len() == 0 {
        return Ok(());
    }
    put_unpacking_by(lines, command, name)
}

// Appends what a capture looks like, and how it is unpacked.
fn put_looks_like(lines: &mut Vec<u8>, name: &str, look: Look) -> Result<(), AllocError>
    ensures { OnOk result (lines.new.items ≡ lines.old.items ++ spec.looks_like name.now look) }
{
    lines.extend_from_slice(b" looks like ")?;
    lines.extend_from_slice(look.name())?;
    put_unpacking(lines, unpacker(look), name)?;
    Ok(())
}

// Appends what a capture without a frame looks like, if that is known.
fn put_look(lines: &mut Vec<u8>, name: &str, look: Option<Look>) -> Result<(), AllocError>
    ensures { OnOk result (lines.new.items ≡ lines.old.items ++ spec.look_text name.now look) }
{
    match look {
        None | Some(Look::Unknown) => Ok(()),
        Some(Look::Empty) => lines.extend_from_slice(b" is empty"),
        Some(look) => put_looks_like(lines, name, look),
    }
}

/// Appends the line of a capture, after these words, with what it looks like if it has no frame.
pub fn put_capture_line(
    lines: &mut Vec<u8>,
    words: &[u8],
    name: &str,
    look: Option<Look>,
) -> Result<(), AllocError>
    ensures { OnOk result (lines.new.items ≡ lines.old.items ++ spec.capture_line words.now name.now look) }
{
    put_words_and_name(lines, words, name)?;
    put_look(lines, name, look)?;
    end_line(lines)
}

/// Appends the line of a station in a capture, if it has observations there.
pub(crate) fn put_station_line(
    lines: &mut Vec<u8>,
    survey: &CaptureSurvey,
    station: u16,
    name: &str,
) -> Result<(), AllocError>
    ensures { OnOk result (lines.new.items ≡ lines.old.items ++ spec.station_line survey.now station name.now) }
{
    if !is_observed_in(station, survey) {
        return Ok(());
    }
    put_named(lines, b" station ", u64::from(station))?;
    put_words_and_name(lines, b" in ", name)?;
    put_epochs(lines, epochs_heard(survey.contents.stations.get(&station)))
}

// Appends a number of epochs, and ends the line.
fn put_epochs(lines: &mut Vec<u8>, epochs: u64) -> Result<(), AllocError>
    ensures { OnOk result (lines.new.items ≡ lines.old.items ++ spec.epochs_text epochs) }
{
    put_named(lines, b": ", epochs)?;
    lines.extend_from_slice(b" epochs\n")
}

// Appends the last of epochs, or that it is later than it can be written.
fn put_until(lines: &mut Vec<u8>, until: u64) -> Result<(), AllocError>
    ensures { OnOk result (lines.new.items ≡ lines.old.items ++ spec.until_text until) }
{
    if LAST_MS < until {
        lines.extend_from_slice(b"later")
    } else {
        put_time_at(lines, until)
    }
}

// Appends the first and the last of epochs.
fn put_from_until(lines: &mut Vec<u8>, from: u64, until: u64) -> Result<(), AllocError>
    requires { from ≤ LAST_MS }
    ensures { OnOk result (lines.new.items ≡ lines.old.items ++ spec.from_until from until) }
{
    lines.push(b' ')?;
    put_time_at(lines, from)?;
    lines.extend_from_slice(b" until ")?;
    put_until(lines, until)
}

/// Appends the line of the epochs of a capture, if the first one can be written.
pub(crate) fn put_reach_line(
    lines: &mut Vec<u8>,
    reach: &Placed,
    epochs: u64,
    name: &str,
) -> Result<(), AllocError>
    ensures { OnOk result (lines.new.items ≡ lines.old.items ++ spec.reach_line reach.now epochs name.now) }
{
    if LAST_MS < reach.from {
        return Ok(());
    }
    put_from_until(lines, reach.from, reach.until)?;
    put_words_and_name(lines, b" in ", name)?;
    put_epochs(lines, epochs)
}

/// Appends the line of a date that is to come, if it can be written.
#[tactic(auto, unfolding(crate::specs::Lists::to_come_line))]
pub fn put_to_come_line(lines: &mut Vec<u8>, told: &Told, name: &str) -> Result<(), AllocError>
    ensures { OnOk result (lines.new.items ≡ lines.old.items ++ spec.to_come_line told.now name.now) }
{
    if LAST_MS < told.first {
        return Ok(());
    }
    lines.extend_from_slice(b" ")?;
    put_time_at(lines, told.first)?;
    put_message(lines, told.message)?;
    put_words_and_name(lines, b" in ", name)?;
    lines.extend_from_slice(b": it is after the time of making\n")
}

/// Appends the line of a capture with a stray epoch.
pub fn put_stray_line(lines: &mut Vec<u8>, epoch: GpsMs, name: &str) -> Result<(), AllocError>
    ensures { OnOk result (lines.new.items ≡ lines.old.items ++ spec.stray_line epoch name.now) }
{
    put_words_and_name(lines, b" stray ", name)?;
    lines.extend_from_slice(b" ")?;
    put_time(lines, epoch)?;
    end_line(lines)
}

// Appends a command that takes a part of a capture to a file, which is named after the capture.
fn put_part_command(
    lines: &mut Vec<u8>,
    command: &[u8],
    bytes: u64,
    name: &str,
    end: &[u8],
) -> Result<(), AllocError>
    ensures { OnOk result (lines.new.items ≡ lines.old.items ++ spec.part_command command.now bytes name.now end.now) }
{
    put_named(lines, command, bytes)?;
    put_words_and_name(lines, b" ", name)?;
    put_words_and_name(lines, b" >", name)?;
    lines.extend_from_slice(end)
}

/// Appends where the second date of a capture begins, by its byte, and the commands that part it there.
pub fn put_parting(lines: &mut Vec<u8>, name: &str, byte: u64) -> Result<(), AllocError>
    ensures { OnOk result (lines.new.items ≡ lines.old.items ++ spec.parting_text name.now byte) }
{
    put_words_and_name(lines, b" ", name)?;
    put_named(lines, b": the second date begins at byte ", byte)?;
    lines.extend_from_slice(b"; these commands part it there:\n")?;
    put_part_command(lines, b"head -c ", byte, name, b".1\n")?;
    put_part_command(lines, b"tail -c +", byte.saturating_add(1), name, b".2\n")?;
    Ok(())
}

/// Appends the line of a first epoch that a capture tells, if it can be written.
#[tactic(auto, unfolding(crate::specs::Lists::date_line))]
pub fn put_date_line(lines: &mut Vec<u8>, told: &Told, name: &str) -> Result<(), AllocError>
    ensures { OnOk result (lines.new.items ≡ lines.old.items ++ spec.date_line told.now name.now) }
{
    if LAST_MS < told.first {
        return Ok(());
    }
    lines.extend_from_slice(b" ")?;
    put_time_at(lines, told.first)?;
    put_message(lines, told.message)?;
    put_name_line(lines, b" in ", name)
}
