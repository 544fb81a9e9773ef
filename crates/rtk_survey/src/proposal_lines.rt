//! The commands that convert a station.

ghost use Rattle.std.specs.Prelude.{◌≡◌, ◌<◌, ◌++◌, OnOk};
ghost use Rattle.rtk_obs.specs.CivilText.{last_digits};
ghost use Rattle.rtk_survey.specs.FrameDates.{proposed_date};
ghost use Rattle.rtk_survey.specs.NextCommand.{station_proposal};
ghost use Rattle.rtk_survey.specs.Steps.OtherSystems.{glonass_held, taken_held};
ghost use Rattle.rtk_survey.specs.Steps.Tables.{system_epochs_held};
ghost use Rattle.rtk_survey.specs.SummaryText.{other_msm_line, other_msm_lines, near_text, words_text, is_standard_input, auto_line, next_lines};
ghost use Rattle.rtk_survey.specs.Contents.{epochs_held, codes_held};

use crate::date_lines::put_near;
use crate::date_message::UtcDate;
use crate::line::put_numbered;
use crate::msm_parts::MsmParts;
use crate::next_command::{next_options, taken_codes};
use crate::signal_lines::{all_codes_text, put_second_frequency};
use crate::station::StationSurvey;
use crate::systems_sent::SystemsSent;
use rtk_message::{MsmKind, put_named, put_sh_quoted};
use std::alloc::{AllocError, Global};

// A line for an MSM with epochs, if it is not the one that is named.
fn put_other_msm(
    lines: &mut Vec<u8>,
    msm: &MsmParts,
    named: MsmKind,
    kind: MsmKind,
) -> Result<(), AllocError>
    ensures { OnOk result (lines.new.items ≡ lines.old.items ++ other_msm_line (epochs_held msm.now) named kind) }
{
    let number = kind.number();
    if number == named.number() {
        return Ok(());
    }
    put_numbered(
        lines,
        b" other-msm ",
        u64::from(number),
        msm.part(kind).epochs.count,
    )
}

fn put_other_msms(lines: &mut Vec<u8>, msm: &MsmParts, named: MsmKind) -> Result<(), AllocError>
    ensures { OnOk result (lines.new.items ≡ lines.old.items ++ other_msm_lines (epochs_held msm.now) named) }
{
    put_other_msm(lines, msm, named, MsmKind::Msm4)?;
    put_other_msm(lines, msm, named, MsmKind::Msm5)?;
    put_other_msm(lines, msm, named, MsmKind::Msm6)?;
    put_other_msm(lines, msm, named, MsmKind::Msm7)?;
    Ok(())
}

// The four digits of a station's number.
fn marker_of(station: u16) -> [u8; 4]
    ensures { result ≡ last_digits 4 station }
{
    let digit = |number: u16| b'0' + (number % 10) as u8;
    [
        digit(station / 10 / 10 / 10),
        digit(station / 10 / 10),
        digit(station / 10),
        digit(station),
    ]
}

// The words of the command behind its moment.
fn put_words(
    lines: &mut Vec<u8>,
    name: &[u8],
    station: u16,
    options: &[u8],
    codes: &[u8],
) -> Result<(), AllocError>
    ensures { OnOk result (lines.new.items ≡ lines.old.items ++ words_text name.now station options.now codes.now) }
{
    lines.extend_from_slice(b" --made \"$(date -u +%FT%T)\" --marker ")?;
    lines.extend_from_slice(&marker_of(station))?;
    lines.extend_from_slice(b" --codes")?;
    lines.extend_from_slice(codes)?;
    lines.extend_from_slice(options)?;
    lines.push(b' ')?;
    put_sh_quoted(lines, name)?;
    lines.push(b'\n')?;
    Ok(())
}

// Does this name mean standard input?
fn is_standard_input(name: &[u8]) -> bool
    ensures { result ≡ is_standard_input name.now }
{
    name == b"stdin".as_slice()
}

// The command that finds the other options by itself. It reads a capture twice, so that there is none
// for standard input.
fn put_auto(lines: &mut Vec<u8>, name: &[u8], station: u16) -> Result<(), AllocError>
    ensures { OnOk result (lines.new.items ≡ lines.old.items ++ auto_line name.now station) }
{
    if is_standard_input(name) {
        return Ok(());
    }
    put_named(
        lines,
        b" auto rtcm2rinex auto --station ",
        u64::from(station),
    )?;
    lines.extend_from_slice(b" -o ")?;
    lines.extend_from_slice(&marker_of(station))?;
    lines.extend_from_slice(b".rnx ")?;
    put_sh_quoted(lines, name)?;
    lines.push(b'\n')?;
    Ok(())
}

// The command with its options, and the one that finds them, if there is one.
fn put_next(
    lines: &mut Vec<u8>,
    name: &[u8],
    near: Option<UtcDate>,
    station: u16,
    options: &[u8],
    codes: &[u8],
) -> Result<(), AllocError>
    ensures { OnOk result (lines.new.items ≡ lines.old.items ++ next_lines name.now (near_text near) station options.now codes.now) }
{
    if codes.is_empty() {
        return Ok(());
    }
    put_named(
        lines,
        b" next rtcm2rinex convert --station ",
        u64::from(station),
    )?;
    lines.extend_from_slice(b" --near ")?;
    put_near(lines, near)?;
    put_words(lines, name, station, options, codes)?;
    put_auto(lines, name, station)?;
    Ok(())
}

/// Appends the commands that convert a station, and before them its second frequency and the MSM of GPS that
/// they leave out.
pub(crate) fn put_proposal(
    alloc: Global,
    lines: &mut Vec<u8>,
    name: &[u8],
    number: u16,
    station: &StationSurvey,
) -> Result<(), AllocError>
    ensures { OnOk result (lines.new.items ≡ lines.old.items
        ++ station_proposal name.now (near_text (proposed_date station.now.dates)) number (epochs_held station.now.msm) (codes_held station.now.msm)
        (system_epochs_held station.now) (taken_held (proposed_date station.now.dates) station.now)
        (glonass_held (proposed_date station.now.dates) station.now)) }
{
    let near = station.dates.proposed_date();
    let named = station.msm.proposed();
    let marks = &station.msm.part(named).codes.marks;
    let others = taken_codes(near, station);
    let codes = all_codes_text(alloc, marks, &others)?;
    let sent = SystemsSent::of(marks, &others);
    let options = next_options(alloc, near, station, named, &sent)?;
    put_second_frequency(lines, marks)?;
    put_other_msms(lines, &station.msm, named)?;
    put_next(
        lines,
        name,
        near,
        number,
        options.as_slice(),
        codes.as_slice(),
    )?;
    Ok(())
}
