//! The lines of a summary.

ghost use Rattle.std.specs.Prelude.{◌≡◌, ◌++◌, ◌==◌, ◌&&◌, not, List, ℕ, Option, None, length, IfOk, OnOk};
ghost use Rattle.std.specs.BTreeMap.{get};
ghost use Rattle.std.specs.Option.{option_copied};
ghost use Rattle.rtk_message.specs.declared.any_message.AnyMessage.{AnyMessage};
ghost use Rattle.rtk_message.specs.declared.any_fault.AnyFault.{AnyFault};
ghost use Rattle.rtk_survey.specs.Contents.{equipment_at, times_of, CountsFaults, IsStationOf, IsHeard, AreStations, HoldsFrames};
ghost use Rattle.rtk_survey.specs.Counting.{shown_count};
ghost use Rattle.rtk_survey.specs.FrameEquipment.{is_mentioned, told_lines};
ghost use Rattle.rtk_survey.specs.ReadFrames.{ReadFrame};
ghost use Rattle.rtk_survey.specs.Steps.Tables.{counts_text, untaken_text, look_lines};
ghost use Rattle.rtk_survey.specs.Summary.{size_lines, lines_if_any, station_lines, stations_text, unread_lines, summary_text};
ghost use Rattle.rtk_survey.specs.SummaryText.{time_line, time_lines, nothing_line};
ghost use Rattle.rtk_survey.specs.Surveys.{IsSurveyOf};
ghost use Rattle.rtk_survey.specs.declared.date_message.DateMessage.{DateMessage};
ghost use Rattle.rtk_survey.specs.declared.equipment.Equipment.{Equipment};
ghost use Rattle.rtk_survey.specs.declared.equipment_message.EquipmentMessage.{EquipmentMessage};
ghost use Rattle.rtk_survey.specs.declared.station_dates.StationDates.{StationDates};
ghost use Rattle.rtk_survey.specs.declared.target.Target.{Target};

use crate::channel_lines::put_channels;
use crate::contents::Contents;
use crate::date_lines::{put_dates, put_system_weeks, put_weeks};
use crate::equipment_lines::{is_told, put_equipment};
use crate::line::{put_counted, put_line, put_numbered};
use crate::look::Look;
use crate::message_lines::{put_epochs, put_messages};
use crate::next_command::systems_clocked;
use crate::proposal_lines::put_proposal;
use crate::signal_lines::{all_codes_text, put_signals};
use crate::station::StationSurvey;
use crate::survey::CaptureSurvey;
use crate::times_of_week::Times;
use crate::unchecked_clocks::put_clocks;
use crate::unread::{Unread, count_of_number};
use rtk_message::put_named;
use std::alloc::{AllocError, Global};
use std::collections::BTreeMap;

/// How many stations there are: DF003 has 12 bits.
const STATIONS: u16 = 4096;

/// How many message numbers there are: DF002 has 12 bits.
const NUMBERS: u16 = 4096;

/// The messages of GPS observations that are not read.
const UNTAKEN: [u16; 6] = [1001, 1002, 1003, 1071, 1072, 1073];

// A line for each number that has a count.
fn put_table(
    lines: &mut Vec<u8>,
    words: &[u8],
    counts: &BTreeMap<u16, u64>,
) -> Result<(), AllocError>
    ensures { OnOk result (lines.new.items ≡ lines.old.items ++ counts_text words.now counts.now) }
{
    for number in 0..NUMBERS {
        put_numbered(
            lines,
            words,
            u64::from(number),
            count_of_number(counts, number),
        )?;
    }
    Ok(())
}

fn put_untaken(lines: &mut Vec<u8>, others: &BTreeMap<u16, u64>) -> Result<(), AllocError>
    ensures { OnOk result (lines.new.items ≡ lines.old.items ++ untaken_text others.now) }
{
    for number in &UNTAKEN {
        put_numbered(
            lines,
            b"untaken GPS ",
            u64::from(*number),
            count_of_number(others, *number),
        )?;
    }
    Ok(())
}

fn put_unread(lines: &mut Vec<u8>, unread: &Unread) -> Result<(), AllocError>
    ensures { (fs : List AnyFault) → CountsFaults unread.now fs
        → OnOk result (lines.new.items ≡ lines.old.items ++ unread_lines fs) }
{
    put_table(lines, b"other ", &unread.others)?;
    put_untaken(lines, &unread.others)?;
    put_counted(lines, b"refused M1 - ", unread.no_number)?;
    put_table(lines, b"refused M3 ", &unread.short)?;
    put_table(lines, b"refused M4 ", &unread.outside_week)?;
    put_table(lines, b"refused M5 ", &unread.too_many_cells)?;
    Ok(())
}

// The first and the last time of week, if there is one.
fn put_time(lines: &mut Vec<u8>, times: &Times) -> Result<(), AllocError>
    ensures { OnOk result (lines.new.items ≡ lines.old.items ++ time_line times.now.first times.now.last) }
{
    let Some(first) = times.first else {
        return lines.extend_from_slice(b" time-of-week -\n");
    };
    let Some(last) = times.last else {
        return lines.extend_from_slice(b" time-of-week -\n");
    };
    put_named(lines, b" time-of-week ", u64::from(first))?;
    put_line(lines, b" ", u64::from(last))
}

fn put_times(lines: &mut Vec<u8>, times: &Times) -> Result<(), AllocError>
    ensures { (ts : List ℕ) → times.now ≡ times_of ts
        → OnOk result (lines.new.items ≡ lines.old.items ++ time_lines ts) }
{
    put_time(lines, times)?;
    put_line(lines, b" changes-of-time ", times.changes)
}

// Some message told a date of the station, or its antenna.
fn is_mentioned(station: &StationSurvey) -> bool
    ensures { result ≡ is_mentioned station.now.dates (equipment_at station.now.equipment) }
{
    station.dates.has_date() || is_told(station.equipment.as_slice())
}

// No message came of the station, and no other one mentions it.
fn is_absent(station: &StationSurvey) -> bool
    ensures { (ms : List AnyMessage) (d : StationDates) (e : Equipment) → IsStationOf ms d e station.now
        → result ≡ ((length ms == 0) && not (is_mentioned d e)) }
{
    station.counts.messages == 0 && !is_mentioned(station)
}

// What messages told of a station.
fn put_told(lines: &mut Vec<u8>, station: &StationSurvey) -> Result<(), AllocError>
    ensures { OnOk result (lines.new.items ≡ lines.old.items ++ told_lines station.now.dates (equipment_at station.now.equipment)) }
{
    put_dates(lines, &station.dates)?;
    put_equipment(lines, station.equipment.as_slice())
}

// The lines of a station that was heard.
fn put_station(
    alloc: Global,
    lines: &mut Vec<u8>,
    name: &[u8],
    number: u16,
    station: &StationSurvey,
) -> Result<(), AllocError>
    ensures { (ms : List AnyMessage) (d : StationDates) (e : Equipment) → IsStationOf ms d e station.now
        → OnOk result (lines.new.items ≡ lines.old.items ++ station_lines name.now number ms d e) }
{
    put_line(lines, b"station ", u64::from(number))?;
    put_messages(lines, station)?;
    put_times(lines, &station.times)?;
    put_told(lines, station)?;
    put_signals(alloc, lines, &station.signals, &station.system_signals)?;
    put_epochs(lines, station)?;
    put_channels(alloc, lines, &station.channels)?;
    let sent = systems_clocked(station);
    put_clocks(
        lines,
        station.dates.proposed_date(),
        &sent,
        station.clocks.as_slice(),
    )?;
    put_proposal(alloc, lines, name, number, station)?;
    Ok(())
}

// The lines of a station, if it was heard and some message of it counts.
fn put_station_if_any(
    alloc: Global,
    lines: &mut Vec<u8>,
    name: &[u8],
    number: u16,
    station: Option<&StationSurvey>,
) -> Result<(), AllocError>
    ensures { (ms : List AnyMessage) (d : StationDates) (e : Equipment) → IsHeard ms d e (option_copied station.entry)
        → OnOk result (lines.new.items ≡ lines.old.items ++ lines_if_any name.now number ms d e) }
{
    let Some(station) = station else {
        return Ok(());
    };
    if is_absent(station) {
        return Ok(());
    }
    put_station(alloc, lines, name, number, station)
}

fn put_stations(
    alloc: Global,
    lines: &mut Vec<u8>,
    name: &[u8],
    stations: &BTreeMap<u16, StationSurvey>,
) -> Result<(), AllocError>
    ensures { (ms : List AnyMessage) (ds : List DateMessage) (es : List EquipmentMessage) → AreStations ms ds es stations.now
        → OnOk result (lines.new.items ≡ lines.old.items ++ stations_text name.now ms ds es) }
{
    for number in 0..STATIONS {
        put_station_if_any(alloc, lines, name, number, stations.get(&number))?;
    }
    Ok(())
}

// What a file without a frame looks like.
fn put_look(lines: &mut Vec<u8>, look: Option<Look>) -> Result<(), AllocError>
    ensures { OnOk result (lines.new.items ≡ lines.old.items ++ look_lines look) }
{
    let Some(look) = look else {
        return Ok(());
    };
    lines.extend_from_slice(b"looks-like ")?;
    lines.extend_from_slice(look.name())?;
    lines.push(b'\n')?;
    Ok(())
}

// No station has a code.
fn put_nothing(lines: &mut Vec<u8>, codes: &[u8]) -> Result<(), AllocError>
    ensures { OnOk result (lines.new.items ≡ lines.old.items ++ nothing_line codes.now) }
{
    if codes.is_empty() {
        lines.extend_from_slice(b"nothing taken\n")?;
    }
    Ok(())
}

// The sizes of a capture.
fn put_sizes(lines: &mut Vec<u8>, bytes: u64, contents: &Contents) -> Result<(), AllocError>
    ensures { (q : Option Target) (size : ℕ) (fs : List ReadFrame) → bytes ≡ shown_count size → HoldsFrames q fs contents.now
        → OnOk result (lines.new.items ≡ lines.old.items ++ size_lines size fs) }
{
    put_line(lines, b"bytes ", bytes)?;
    let outside = bytes.saturating_sub(contents.framed);
    put_line(lines, b"outside-frames ", outside)?;
    put_line(lines, b"frames ", contents.frames)?;
    Ok(())
}

/// The summary of the capture of this name.
pub(crate) fn summary_lines(
    alloc: Global,
    name: &[u8],
    survey: &CaptureSurvey,
) -> Result<Vec<u8>, AllocError>
    ensures { (bytes : List ℕ) (fs : List ReadFrame) → IsSurveyOf None bytes fs survey.now
        → IfOk result (λ lines. lines.items ≡ summary_text name.now bytes fs) }
{
    let contents = &survey.contents;
    let mut lines = Vec::new(alloc);
    put_sizes(&mut lines, survey.bytes, contents)?;
    put_look(&mut lines, survey.look)?;
    put_stations(alloc, &mut lines, name, &contents.stations)?;
    put_weeks(&mut lines, &contents.weeks)?;
    put_system_weeks(&mut lines, &contents.system_tellings)?;
    put_unread(&mut lines, &contents.unread)?;
    let others = &contents.system_signals.codes;
    let codes = all_codes_text(alloc, &contents.codes.marks, others)?;
    put_nothing(&mut lines, codes.as_slice())?;
    Ok(lines)
}
