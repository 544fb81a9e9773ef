//! The rows of a closed epoch, made from its cells.
//!
//! A `Cell` is what a message says of a satellite and code. An `Observed` is what the file shows of it:
//! the phase with its rolls, and the slip. A row has the `Observed` of each listed code of the satellite's
//! system; its line is written code by code, each straight from its cell.
//!
//! The satellites that have cells are gone over with a place in each list of cells, which rises by
//! satellite and code. The cells of the MSM come first, then the cells of the 1004 whose code no
//! cell of the MSM has. Each of them takes a step of the last phases, also if its code is not listed,
//! since a later phase is compared with it.

ghost use Rattle.std.specs.Prelude.{◌≡◌, ℕ, ◌+◌, ◌^◌, ◌<◌, ◌≤◌, List, [], ◌∷◌, ◌++◌, map, length, Some, slice_range, slice_index_or, None, IfSome, IfNone, OnOk, All, Decides};
ghost use Rattle.std.specs.Prelude.{IsTrue};
ghost use Rattle.rtk_obs.specs.declared.any_code.AnyCode.{AnyCode};
ghost use Rattle.rtk_obs.specs.declared.signal_cells.SignalEntry.{SignalEntry};
ghost use Rattle.rtk_obs.specs.AnyCode.{place_of};
ghost use Rattle.rtk_obs.specs.SatelliteIndex.{IsSatelliteIndex};
ghost use Rattle.rtk_obs.specs.SignalCells.{IsSignalInRange};
ghost use Rattle.rtk_obs.specs.Tracks.{IsLater};
ghost use Rattle.rtk_collect.specs.EpochSet.{EpochSetView};
ghost use Rattle.rtk_rinex.specs.MixedHead.{IsMixedList};
ghost use Rattle.rtk_rinex.specs.declared.epoch_table.Observed.{Observed};
ghost use Rattle.rtk_convert.specs.Epochs.{set_of};
ghost use Rattle.rtk_convert.specs.LastPhases.{HasLastPhases, track_at};
ghost use Rattle.rtk_convert.specs.Rows.{rolled_or_none, shift_or_none, observed_by, observed_with, or_nothing, table_of};
ghost use Rattle.rtk_convert.specs.Steps.RowLines.{Keeps};
ghost use Rattle.rtk_convert.specs.Steps.ShownCells.{AllBelow, MayStep, IsPlaceOf, IsLeastAt, HasCellsFrom, TellsSatellite, IsSetOfCodes, AreCellsTo, AreColumns, AreRowCodes, ShowsRow, ShowsSome, StepsOver, TakesCells, HasFreeOf, IsFreeOf, with_place};

use crate::file_entry::FileEntry;
use crate::row_form::{RowForm, form_from, renew_form};
use crate::row_lines::{RowLines, put_doppler_code, put_plain_code};
use arrayvec::ArrayVec;
use rtk_collect::GatheredSet;
use rtk_obs::{AnyCode, Cell, Digits, rolled};
use rtk_rinex::Observed;
use std::alloc::AllocError;

// Returns a phase with its rolls, or `None` if there is no phase or it is outside the limits of an
// observation then.
fn rolled_or_none(phase: Option<i64>, rolls: i64) -> Option<i64>
    ensures { result ≡ rolled_or_none phase rolls }
{
    match phase {
        Some(phase) => rolled(phase, rolls),
        None => None,
    }
}

// Returns a Doppler shift, or `None` for 0, which means none.
fn shift_or_none(shift: i32) -> Option<i64>
    ensures { result ≡ shift_or_none shift }
{
    if shift == 0 {
        None
    } else {
        Some(i64::from(shift))
    }
}

// Returns what the file shows of a cell with this Doppler shift and these digits.
fn observed(cell: &Cell, shift: i32, digits: Digits) -> Observed
    ensures { result ≡ observed_by cell.now shift digits }
{
    Observed {
        range_mm: cell.range_mm,
        phase_millicycles: rolled_or_none(cell.phase_millicycles, digits.rolls),
        doppler_millihertz: shift_or_none(shift),
        strength_millidbhz: cell.strength_millidbhz,
        slip: digits.slip,
        half: digits.half,
    }
}

// A place in each list of the cells of an epoch.
#[derive(Clone, Copy)]
struct CellPlaces {
    msm: usize,
    legacy: usize,
}

// Returns what the file shows of a cell with these digits.
#[inline(always)]
fn shown_of<E: FileEntry>(entry: &E, digits: Digits) -> Observed
    ensures { result ≡ observed_with (E.signal_of entry.now) digits }
{
    E::cells_are_signals();
    observed(entry.cell(), entry.doppler(), digits)
}

// Writes what a cell with a place and with these digits shows in the open line, if its code is listed. In a file without
// Doppler shifts, as nearly all files are, no cell is asked whether they are shown, and none makes its shift.
#[inline(always)]
fn put_listed<E: FileEntry>(
    form: &RowForm<'_>,
    entry: &E,
    place: usize,
    digits: Digits,
    lines: &mut E::Lines,
)
    requires place { place < 16 }
    requires columns { AreColumns form.now.doppler form.now.plain form.now.codes.now form.now.columns }
    requires free { HasFreeOf (E.Lines.HasLine form.now.doppler) lines.old place form.now.codes.now }
    ensures open { (row : List Observed) → E.Lines.HasLine form.now.doppler lines.old row → IsFreeOf place form.now.codes.now row
        → E.Lines.HasLine form.now.doppler lines.new (with_place place (observed_with (E.signal_of entry.now) digits) form.now.codes.now row) }
    ensures lines { Keeps E.Lines.HasRows lines.old lines.new }
{
    let plain = form.plain;
    let listed = form.codes.len();
    let column = usize::from(form.columns[place]);
    if column < plain {
        let shown = shown_of(entry, digits);
        put_plain_code(lines, column, &shown);
        return;
    }
    if column < listed {
        let shifted = shown_of(entry, digits);
        put_doppler_code(lines, column, &shifted);
    }
}

// Takes the first cell of a satellite and code, which has this place.
#[inline(always)]
fn show_entry<E: FileEntry>(
    phases: &mut E::Phases,
    form: &RowForm<'_>,
    entry: &E,
    place: usize,
    lines: &mut E::Lines,
)
    requires range { E.InRange entry.now }
    requires place { place ≡ place_of (E.signal_of entry.now).code }
    requires below { place < 16 }
    requires later { IsLater (track_at (E.places phases.old) (E.signal_of entry.now).satellite (E.signal_of entry.now).code) form.now.epoch }
    requires columns { AreColumns form.now.doppler form.now.plain form.now.codes.now form.now.columns }
    requires free { HasFreeOf (E.Lines.HasLine form.now.doppler) lines.old (place_of (E.signal_of entry.now).code) form.now.codes.now }
    ensures { StepsOver E.Lines.HasRows (E.Lines.HasLine form.now.doppler) form.now.epoch (E.signal_of entry.now) form.now.codes.now
        (E.places phases.old) (E.places phases.new) lines.old lines.new }
{
    let digits = entry.step(phases, form.epoch);
    put_listed(form, entry, place, digits, lines);
}

// Returns the set that has only the code with a place. The bit of a code in a set of codes is at its place.
fn bit_at(place: usize) -> u32
    requires { place < 16 }
    ensures { result ≡ 2 ^ place }
{
    1 << place
}

// Returns whether there is a cell of this satellite at this place.
fn has_satellite<E: FileEntry>(entries: &[E], at: usize, satellite: u8) -> bool
    ensures { TellsSatellite satellite (map E.signal_of entries.now) at result }
{
    at < entries.len() && entries[at].satellite() == satellite
}

// Returns the least satellite that has a cell at these places of two lists.
fn next_satellite<E: FileEntry>(msm: &[E], legacy: &[E], at: CellPlaces) -> Option<u8>
    ensures some { IfSome result (λ satellite. IsLeastAt satellite (map E.signal_of msm.now) at.msm (map E.signal_of legacy.now) at.legacy) }
    ensures none { IfNone result ((length msm.now ≤ at.msm) × (length legacy.now ≤ at.legacy)) }
{
    if at.msm >= msm.len() {
        if at.legacy >= legacy.len() {
            return None;
        }
        return Some(legacy[at.legacy].satellite());
    }
    if at.legacy >= legacy.len() {
        return Some(msm[at.msm].satellite());
    }
    Some(msm[at.msm].satellite().min(legacy[at.legacy].satellite()))
}

// Takes the cells of a satellite from its place on, except those whose code an earlier one of its
// cells has, and writes what they show into its line. The result is where its cells end. The earlier cells
// are there for the clauses alone, since the set has their codes. The function is inlined, because much of
// it falls away for the first list, to which no cell is earlier.
#[inline(always)]
fn show_cells<E: FileEntry>(
    phases: &mut E::Phases,
    form: &RowForm<'_>,
    satellite: u8,
    earlier: &[E],
    known: u32,
    entries: &[E],
    begin: usize,
    lines: &mut E::Lines,
) -> usize
    requires satellite { IsSatelliteIndex satellite }
    requires codes { AreRowCodes form.now.codes.now satellite }
    requires known { IsSetOfCodes known (map E.signal_of earlier.now) satellite }
    requires ranges { All E.InRange entries.now }
    requires cells { HasCellsFrom satellite (map E.signal_of entries.now) begin }
    requires later { MayStep (E.places phases.old) (map E.signal_of earlier.now) satellite form.now.epoch }
    requires columns { AreColumns form.now.doppler form.now.plain form.now.codes.now form.now.columns }
    requires shows { ShowsSome (E.Lines.HasLine form.now.doppler) form.now.epoch (map E.signal_of earlier.now) satellite form.now.codes.now (E.places phases.old) lines.old }
    ensures takes { TakesCells E.Lines.HasRows (E.Lines.HasLine form.now.doppler) form.now.epoch (map E.signal_of earlier.now) (map E.signal_of entries.now)
        begin result satellite form.now.codes.now (E.places phases.old) lines.old (E.places phases.new) lines.new }
    ensures next { IsPlaceOf (satellite + 1) (map E.signal_of entries.now) result }
{
    let mut end = begin;
    'cells: while has_satellite(entries, end, satellite) {
        let entry = &entries[end];
        let place = entry.code_place();
        let bit = bit_at(place);
        if known & bit != 0 {
            end += 1;
            continue;
        }
        show_entry(phases, form, entry, place, lines);
        end += 1;
    }
    end
}

// Returns the set of the codes that the cells between two places have, which are all of a satellite.
fn codes_between<E: FileEntry>(entries: &[E], begin: usize, end: usize, satellite: u8) -> u32
    requires from { begin ≤ end }
    requires within { end ≤ length entries.now }
    requires ranges { All IsSignalInRange (map E.signal_of entries.now) }
    requires own { (k : ℕ) (d : SignalEntry) → begin ≤ k → k < end → (slice_index_or (map E.signal_of entries.now) k d).satellite ≡ satellite }
    ensures { IsSetOfCodes result (slice_range (map E.signal_of entries.now) begin end) satellite }
{
    let mut codes = 0;
    for at in begin..end {
        let entry = &entries[at];
        let place = entry.code_place();
        let bit = bit_at(place);
        codes |= bit;
    }
    codes
}

// Takes the cells of a satellite, which has its place in two lists of cells. It takes first those
// of an MSM, then those of a 1004 whose code none of an MSM has. It writes the line of the
// satellite, which is open, and returns how far the cells reach. The codes of the MSM are only gathered
// where a 1004 has a cell, since that takes some instructions for each cell.
fn fill_line<E: FileEntry>(
    phases: &mut E::Phases,
    form: &RowForm<'_>,
    satellite: u8,
    msm: &[E],
    legacy: &[E],
    at: CellPlaces,
    lines: &mut E::Lines,
) -> CellPlaces
    requires satellite { IsSatelliteIndex satellite }
    requires codes { AreRowCodes form.now.codes.now satellite }
    requires ranges { All E.InRange msm.now × All E.InRange legacy.now }
    requires msm { HasCellsFrom satellite (map E.signal_of msm.now) at.msm }
    requires legacy { HasCellsFrom satellite (map E.signal_of legacy.now) at.legacy }
    requires later { MayStep (E.places phases.old) [] satellite form.now.epoch }
    requires columns { AreColumns form.now.doppler form.now.plain form.now.codes.now form.now.columns }
    requires open { E.Lines.HasLine form.now.doppler lines.old (map (λ code. or_nothing None) form.now.codes.now) }
    ensures shows { ShowsRow (E.Lines.HasLine form.now.doppler) (E.places phases.old) form.now.epoch
        (slice_range (map E.signal_of msm.now) at.msm result.msm ++ slice_range (map E.signal_of legacy.now) at.legacy result.legacy)
        satellite form.now.codes.now (E.places phases.new) lines.new }
    ensures lines { Keeps E.Lines.HasRows lines.old lines.new }
    ensures msm { AreCellsTo satellite (map E.signal_of msm.now) at.msm result.msm }
    ensures legacy { AreCellsTo satellite (map E.signal_of legacy.now) at.legacy result.legacy }
{
    let none = &msm[..0];
    let first = show_cells(phases, form, satellite, none, 0, msm, at.msm, lines);
    if has_satellite(legacy, at.legacy, satellite) {
        let own = &msm[at.msm..first];
        let known = codes_between(msm, at.msm, first, satellite);
        let begin = at.legacy;
        let second = show_cells(phases, form, satellite, own, known, legacy, begin, lines);
        CellPlaces {
            msm: first,
            legacy: second,
        }
    } else {
        CellPlaces {
            msm: first,
            legacy: at.legacy,
        }
    }
}

/// Writes the rows of a closed epoch as lines of its record, with Doppler shifts or without them, and keeps the phases of its cells as the
/// last phases of their satellites and codes.
///
/// A cell is compared with the last phase of its satellite and code, however old that is, also if
/// its code is not listed. Of a satellite and code the cell of an MSM stands, else that of a 1004. If
/// memory is refused nothing is said of the lines and the last phases.
pub(crate) fn push_rows<E: FileEntry>(
    phases: &mut E::Phases,
    set: &GatheredSet<E>,
    listed: &[AnyCode],
    doppler: bool,
    lines: &mut E::Lines,
    room: &mut ArrayVec<E, 64>,
) -> Result<(), AllocError>
    requires listed { IsMixedList listed.now }
    requires shows { E.Lines.CanShow doppler }
    requires later { AllBelow (E.places phases.old) set.now.epoch }
    ensures lines { OnOk result ((below : List (EpochSetView SignalEntry)) → HasLastPhases (E.places phases.old) below
        → E.Lines.HasRows lines.new doppler (table_of listed.now (set_of E.signal_of set.now) below).rows) }
    ensures phases { OnOk result ((below : List (EpochSetView SignalEntry)) → HasLastPhases (E.places phases.old) below
        → HasLastPhases (E.places phases.new) (set_of E.signal_of set.now ∷ below)) }
    ensures later { OnOk result ((later : ℕ) → set.now.epoch < later → AllBelow (E.places phases.new) later) }
{
    E::cells_are_signals();
    E::Lines::blank_rows_are_left_out();
    lines.restart(doppler);
    let epoch = set.epoch();
    let msm = set.msm_cells();
    let legacy = set.legacy_left(room);
    let mut form = form_from(epoch, doppler, listed, 1);
    let mut at = CellPlaces { msm: 0, legacy: 0 };
    'satellites: while let Some(satellite) = next_satellite(msm, legacy, at) {
        renew_form::<E>(&mut form, listed, satellite);
        lines.open_line(form.codes.len())?;
        at = fill_line(phases, &form, satellite, msm, legacy, at, lines);
        lines.close_line(satellite);
    }
    Ok(())
}
