//! The lines of a report, as text.

ghost use Rattle.std.specs.Prelude.{◌≡◌, ◌+◌, ◌<◌, ◌≤◌, ◌++◌, [], Some, None, Option, ℕ, map, flat_map, IfOk, OnOk, if◌then◌else◌};
ghost use Rattle.arrayvec.specs.ArrayVec.{array_vec_len};
ghost use Rattle.rtk_obs.specs.Carriers.{IsSlot};
ghost use Rattle.rtk_obs.specs.SatelliteIndex.{letter_of};
ghost use Rattle.rtk_collect.specs.declared.conflicts.AnySatelliteCode.{AnySatelliteCode};
ghost use Rattle.rtk_convert.specs.Report.{refused_line, cell_lines, conflict_lines, class_lines};
ghost use Rattle.rtk_convert.specs.Slots.{has_slot};
ghost use Rattle.rtk_convert.specs.Steps.LastLines.{last_lines, missing_letter_by, missing_letters_by, unphased_lines_by};
ghost use Rattle.rtk_convert.specs.Steps.OfferLines.{class_named};
ghost use Rattle.rtk_convert.specs.ReportText.{epoch_text, link_text, arrival_text, signal_text, late_line, conflict_line, cell_conflict_line, slot_name, slot_names, shown_names, slots_line, missing_line};
ghost use Rattle.rtk_setup.specs.Counts.{count_line, count_lines};

use crate::file_entry::FileEntry;
use crate::link_number::LinkNumber;
use crate::message_class::MessageClass;
use crate::remarks::Remarks;
use crate::slots::{SLOTS, Slots};
use crate::systems::Systems;
use arrayvec::ArrayVec;
use rtk_collect::AnySatelliteCode;
use rtk_message::{AnyFault, System, put_any_fault, put_named};
use rtk_obs::{GpsMs, civil, put_civil, satellite_name, two_digits};
use rtk_setup::{Counts, Setup};
use std::alloc::{AllocError, Global};

// Appends the epoch of a message, or a hyphen if it has none.
fn put_epoch(line: &mut Vec<u8>, epoch: Option<GpsMs>) -> Result<(), AllocError>
    ensures { OnOk result (line.new.items ≡ line.old.items ++ epoch_text epoch) }
{
    match epoch {
        Some(epoch) => put_civil(line, civil(epoch))?,
        None => line.extend_from_slice(b"-")?,
    }
    Ok(())
}

// Appends the link, what became of the message, its number and its epoch.
fn put_message(
    line: &mut Vec<u8>,
    link: LinkNumber,
    what: &[u8],
    number: u16,
    epoch: Option<GpsMs>,
) -> Result<(), AllocError>
    ensures { OnOk result (line.new.items ≡ line.old.items ++ arrival_text link what.now number epoch) }
{
    put_named(line, b"link ", link.shown())?;
    put_named(line, what, number.into())?;
    line.push(b' ')?;
    put_epoch(line, epoch)?;
    Ok(())
}

// Appends the satellite and the code of a cell.
fn put_signal(line: &mut Vec<u8>, cell: AnySatelliteCode) -> Result<(), AllocError>
    ensures { OnOk result (line.new.items ≡ line.old.items ++ signal_text cell.satellite cell.code) }
{
    line.push(b' ')?;
    line.extend_from_slice(&satellite_name(cell.satellite))?;
    line.push(b' ')?;
    line.extend_from_slice(&cell.code.name())?;
    Ok(())
}

// Appends the line of a cell that differs from the kept one.
fn put_conflict(
    lines: &mut Vec<u8>,
    link: LinkNumber,
    number: u16,
    epoch: GpsMs,
    cell: AnySatelliteCode,
) -> Result<(), AllocError>
    ensures { OnOk result (lines.new.items ≡ lines.old.items ++ cell_conflict_line link number epoch cell.satellite cell.code) }
{
    put_message(lines, link, b" conflict ", number, Some(epoch))?;
    put_signal(lines, cell)?;
    lines.push(b'\n')?;
    Ok(())
}

// Appends a line for each cell that differs from the kept one.
fn put_cell_conflicts<E: FileEntry>(
    lines: &mut Vec<u8>,
    link: LinkNumber,
    number: u16,
    epoch: Option<GpsMs>,
    cells: &[E::Signal],
) -> Result<(), AllocError>
    ensures { OnOk result (lines.new.items ≡ lines.old.items ++ cell_lines link number epoch (map E.name_of cells.now)) }
{
    let Some(epoch) = epoch else {
        return Ok(());
    };
    for cell in cells {
        put_conflict(lines, link, number, epoch, E::name(*cell))?;
    }
    Ok(())
}

// Appends the line that a station message differs from the kept one, or a line for each cell of an
// observation that does.
fn put_conflicts<E: FileEntry>(
    lines: &mut Vec<u8>,
    link: LinkNumber,
    number: u16,
    epoch: Option<GpsMs>,
    cells: &[E::Signal],
) -> Result<(), AllocError>
    ensures { OnOk result (lines.new.items ≡ lines.old.items ++ conflict_lines link number epoch (map E.name_of cells.now)) }
{
    if epoch.is_some() {
        return put_cell_conflicts::<E>(lines, link, number, epoch, cells);
    }
    put_message(lines, link, b" conflict ", number, None)?;
    lines.push(b'\n')?;
    Ok(())
}

// Returns the lines of a message, from its number, its epoch, its class and its cells that conflict.
fn told_lines<E: FileEntry>(
    alloc: Global,
    link: LinkNumber,
    number: u16,
    epoch: Option<GpsMs>,
    class: MessageClass,
    conflicts: &[E::Signal],
) -> Result<Vec<u8>, AllocError>
    ensures { IfOk result (λ lines. lines.items ≡ class_lines link number epoch (class_named class) (map E.name_of conflicts.now)) }
{
    let mut lines = Vec::new(alloc);
    match class {
        MessageClass::Late => {
            put_message(&mut lines, link, b" late ", number, epoch)?;
            lines.push(b'\n')?;
        }
        MessageClass::Taken => {
            put_cell_conflicts::<E>(&mut lines, link, number, epoch, conflicts)?
        }
        MessageClass::Conflict => {
            put_conflicts::<E>(&mut lines, link, number, epoch, conflicts)?
        }
        MessageClass::Repeat => {}
    }
    Ok(lines)
}

/// Returns the lines of a message, from its number, its epoch, its class and its cells that conflict. A
/// message without a line takes no memory.
///
/// It is inlined, since nearly every message has no line.
#[inline(always)]
pub(crate) fn message_lines<E: FileEntry>(
    alloc: Global,
    link: LinkNumber,
    number: u16,
    epoch: Option<GpsMs>,
    class: MessageClass,
    conflicts: &[E::Signal],
) -> Result<Vec<u8>, AllocError>
    ensures { IfOk result (λ lines. lines.items ≡ class_lines link number epoch (class_named class) (map E.name_of conflicts.now)) }
{
    match class {
        MessageClass::Taken => {
            if conflicts.is_empty() {
                return Ok(Vec::new(alloc));
            }
        }
        MessageClass::Repeat => return Ok(Vec::new(alloc)),
        MessageClass::Late | MessageClass::Conflict => {}
    }
    told_lines::<E>(alloc, link, number, epoch, class, conflicts)
}

/// Returns the line of a payload that is refused.
pub(crate) fn refused_line(
    alloc: Global,
    link: LinkNumber,
    fault: AnyFault,
) -> Result<Vec<u8>, AllocError>
    ensures { IfOk result (λ line. line.items ≡ refused_line link fault) }
{
    let mut line = Vec::new(alloc);
    put_named(&mut line, b"link ", link.shown())?;
    line.extend_from_slice(b" refused ")?;
    put_any_fault(&mut line, fault)?;
    line.push(b'\n')?;
    Ok(line)
}

// Appends the line of a count.
fn put_count(lines: &mut Vec<u8>, name: &[u8], count: u64) -> Result<(), AllocError>
    ensures { OnOk result (lines.new.items ≡ lines.old.items ++ count_line name.now count) }
{
    put_named(lines, name, count)?;
    lines.push(b'\n')?;
    Ok(())
}

// Appends the lines of the counts.
fn put_counts(lines: &mut Vec<u8>, counts: &Counts) -> Result<(), AllocError>
    ensures { OnOk result (lines.new.items ≡ lines.old.items ++ count_lines counts.now) }
{
    put_count(lines, b"frames ", counts.frames)?;
    put_count(lines, b"other ", counts.other)?;
    put_count(lines, b"refused ", counts.refused)?;
    put_count(lines, b"foreign ", counts.foreign)?;
    put_count(lines, b"taken ", counts.taken)?;
    put_count(lines, b"repeat ", counts.repeat)?;
    put_count(lines, b"conflict ", counts.conflict)?;
    put_count(lines, b"late ", counts.late)?;
    put_count(lines, b"epochs ", counts.epochs)?;
    Ok(())
}

// Appends the letter of a system after a blank, if a code of it is listed and no message of it was taken.
fn put_letter(
    letters: &mut ArrayVec<u8, 14>,
    setup: &Setup,
    systems: Systems,
    system: System,
    letter: u8,
)
    requires letter { letter ≡ letter_of system }
    requires room { array_vec_len letters.old ≤ 12 }
    ensures letters { letters.new.items ≡ letters.old.items ++ missing_letter_by setup.now systems system }
    ensures few { array_vec_len letters.new ≤ array_vec_len letters.old + 2 }
{
    if !setup.lists(system) {
        return;
    }
    if systems.has(system) {
        return;
    }
    letters.push(b' ');
    letters.push(letter);
}

// Appends the line of the listed systems of which no message was taken, if there are any.
fn put_missing(lines: &mut Vec<u8>, setup: &Setup, systems: Systems) -> Result<(), AllocError>
    ensures { OnOk result (lines.new.items ≡ lines.old.items ++ missing_line (missing_letters_by setup.now systems)) }
{
    let mut letters: ArrayVec<u8, 14> = ArrayVec::new();
    put_letter(&mut letters, setup, systems, System::Gps, b'G');
    put_letter(&mut letters, setup, systems, System::Glonass, b'R');
    put_letter(&mut letters, setup, systems, System::Galileo, b'E');
    put_letter(&mut letters, setup, systems, System::Beidou, b'C');
    put_letter(&mut letters, setup, systems, System::Qzss, b'J');
    put_letter(&mut letters, setup, systems, System::Sbas, b'S');
    put_letter(&mut letters, setup, systems, System::Navic, b'I');
    if letters.is_empty() {
        return Ok(());
    }
    lines.extend_from_slice(b"no-message")?;
    lines.extend_from_slice(letters.as_slice())?;
    lines.push(b'\n')?;
    Ok(())
}

// Returns the name of a satellite of GLONASS after a blank.
fn slot_name(slot: u8) -> [u8; 4]
    ensures { result ≡ slot_name slot }
{
    let [tens, ones] = two_digits(slot);
    [b' ', b'R', tens, ones]
}

// Appends the name of a slot, if the set has it.
fn put_slot(names: &mut Vec<u8>, slots: &Slots, slot: u8) -> Result<(), AllocError>
    requires { IsSlot slot }
    ensures { OnOk result (names.new.items ≡ names.old.items ++ (if has_slot slots.now slot then slot_name slot else [])) }
{
    if !slots.has(slot) {
        return Ok(());
    }
    names.extend_from_slice(&slot_name(slot))
}

// Returns the names of the slots of a set, rising.
fn slot_names(alloc: Global, slots: &Slots) -> Result<Vec<u8>, AllocError>
    ensures { IfOk result (λ names. names.items ≡ slot_names (has_slot slots.now) 27) }
{
    let mut names = Vec::new(alloc);
    for before in 0..SLOTS {
        put_slot(&mut names, slots, before as u8 + 1)?;
    }
    Ok(names)
}

// Returns some names, or a hyphen for none.
fn shown_names(names: &[u8]) -> &[u8]
    ensures { result.now ≡ shown_names names.now }
{
    if names.is_empty() { b" -" } else { names }
}

// Appends the line of the slots of a set.
fn put_slots(
    alloc: Global,
    lines: &mut Vec<u8>,
    name: &[u8],
    slots: &Slots,
) -> Result<(), AllocError>
    ensures { OnOk result (lines.new.items ≡ lines.old.items ++ slots_line name.now (slot_names (has_slot slots.now) 27)) }
{
    let names = slot_names(alloc, slots)?;
    lines.extend_from_slice(name)?;
    lines.extend_from_slice(shown_names(&names))?;
    lines.push(b'\n')?;
    Ok(())
}

// Appends the lines of the slots whose satellites have no phases, if a code of GLONASS is listed.
fn put_unphased(
    alloc: Global,
    lines: &mut Vec<u8>,
    setup: &Setup,
    remarks: &Remarks,
) -> Result<(), AllocError>
    ensures { OnOk result (lines.new.items ≡ lines.old.items ++ unphased_lines_by setup.now remarks.now) }
{
    if !setup.lists(System::Glonass) {
        return Ok(());
    }
    put_slots(alloc, lines, b"other-channel", &remarks.other_channels)?;
    put_slots(alloc, lines, b"no-channel", &remarks.no_channels)
}

/// Returns the last lines of the report: those of slots without phases, that of the systems without a message,
/// and the counts.
pub(crate) fn last_lines(
    alloc: Global,
    setup: &Setup,
    remarks: Remarks,
    counts: &Counts,
) -> Result<Vec<u8>, AllocError>
    ensures { IfOk result (λ lines. lines.items ≡ last_lines setup.now remarks counts.now) }
{
    let mut lines = Vec::new(alloc);
    put_unphased(alloc, &mut lines, setup, &remarks)?;
    if !setup.is_of_gps() {
        put_missing(&mut lines, setup, remarks.systems)?;
    }
    put_counts(&mut lines, counts)?;
    Ok(lines)
}
