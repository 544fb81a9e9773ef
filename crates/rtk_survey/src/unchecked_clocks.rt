//! The lines of clocks of a station, with the systems of which no clock is compared with that of another one.
//!
//! If memory is refused, a first part of what is put may stand there.

ghost use Rattle.std.specs.Prelude.{◌≡◌, ◌++◌, get_or, OnOk};
ghost use Rattle.rtk_survey.specs.Chains.{no_clocks};
ghost use Rattle.rtk_survey.specs.UncheckedClocks as spec;

use crate::clock_chains::{ClockOffsets, ClockSurvey};
use crate::clock_lines::{compared_clocks, put_offsets};
use crate::date_message::UtcDate;
use crate::systems_sent::SystemsSent;
use rtk_message::System;
use rtk_obs::letter_of;
use std::alloc::AllocError;

fn lacks_date(date: Option<UtcDate>, system: System) -> bool
    ensures { result ≡ spec.lacks_date date system }
{
    match (date, system) {
        (None, System::Glonass) => true,
        _ => false,
    }
}

// Is no clock of a system that is sent compared?
fn is_unchecked(
    date: Option<UtcDate>,
    sent: &SystemsSent,
    offsets: &ClockOffsets,
    system: System,
) -> bool
    ensures { result ≡ spec.is_unchecked date sent.now offsets.now system }
{
    sent.has(system)
        && sent.time(system)
        && (lacks_date(date, system) || compared_clocks(offsets.of(system)) == 0)
}

fn put_unchecked_line(
    lines: &mut Vec<u8>,
    date: Option<UtcDate>,
    sent: &SystemsSent,
    offsets: &ClockOffsets,
    system: System,
) -> Result<(), AllocError>
    ensures { OnOk result (lines.new.items ≡ lines.old.items ++ spec.unchecked_line date sent.now offsets.now system) }
{
    if !is_unchecked(date, sent, offsets, system) {
        return Ok(());
    }
    lines.extend_from_slice(b" unchecked ")?;
    lines.push(letter_of(system))?;
    lines.push(b'\n')?;
    Ok(())
}

// Appends a line for each such system.
fn put_unchecked(
    lines: &mut Vec<u8>,
    date: Option<UtcDate>,
    sent: &SystemsSent,
    offsets: &ClockOffsets,
) -> Result<(), AllocError>
    ensures { OnOk result (lines.new.items ≡ lines.old.items ++ spec.unchecked_lines date sent.now offsets.now) }
{
    put_unchecked_line(lines, date, sent, offsets, System::Glonass)?;
    put_unchecked_line(lines, date, sent, offsets, System::Galileo)?;
    put_unchecked_line(lines, date, sent, offsets, System::Beidou)?;
    put_unchecked_line(lines, date, sent, offsets, System::Qzss)?;
    put_unchecked_line(lines, date, sent, offsets, System::Sbas)?;
    put_unchecked_line(lines, date, sent, offsets, System::Navic)?;
    Ok(())
}

// Appends the lines of clocks and of systems of which none is compared.
fn put_all(
    lines: &mut Vec<u8>,
    date: Option<UtcDate>,
    sent: &SystemsSent,
    offsets: &ClockOffsets,
) -> Result<(), AllocError>
    ensures { OnOk result (lines.new.items ≡ lines.old.items ++ spec.all_clock_lines date sent.now offsets.now) }
{
    put_offsets(lines, date, offsets)?;
    put_unchecked(lines, date, sent, offsets)?;
    Ok(())
}

/// Appends the lines of clocks of a station, of which there is an entry or none.
pub(crate) fn put_clocks(
    lines: &mut Vec<u8>,
    date: Option<UtcDate>,
    sent: &SystemsSent,
    station: &[ClockSurvey],
) -> Result<(), AllocError>
    ensures { OnOk result (lines.new.items ≡ lines.old.items ++ spec.all_clock_lines date sent.now (get_or station.now 0 no_clocks).offsets) }
{
    match station.first() {
        Some(clocks) => put_all(lines, date, sent, &clocks.offsets),
        None => put_all(lines, date, sent, &ClockOffsets::new()),
    }
}
