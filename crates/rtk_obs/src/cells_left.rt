//! The cells of a 1004 whose satellite and code no other cell has.
//!
//! If the satellites of a 1004 rise, none comes twice, and each has its two cells.

ghost use Rattle.std.specs.Prelude.{◌≡◌, ◌≤◌, ◌<◌, ◌*◌, ◌+◌, List, [], ◌∷◌, ◌++◌, length, take, IsTrue, IfSome, unsigned_abs, if◌then◌else◌};
ghost use Rattle.std.specs.List.{All};
ghost use Rattle.rtk_message.specs.Obs1004.{IsValid};
ghost use Rattle.rtk_obs.specs.declared.cell.CellEntry.{CellEntry};
ghost use Rattle.rtk_obs.specs.Cell.{IsInRange, AreRising, IsSatellite, entry_of};
ghost use Rattle.rtk_obs.specs.declared.cell.CellSource.TheVariants.{Legacy};
ghost use Rattle.rtk_obs.specs.LegacyCells.{length_of, l1_code_of, l1_cell_of, l2_code_of, l2_cell_of, satellite_entries, cells_of_1004};
ghost use Rattle.rtk_obs.specs.CellsLeft.{HasLegacyWidths, AreRisingSatellites, RiseAbove, cells_left};
ghost use Rattle.rtk_obs.specs.Steps.Marks.{HasMarks};

use crate::cell::{CellEntry, is_satellite};
use crate::legacy_cells::{l1_code, l1_length, l2_code, set_l1_entry, set_l2_entry};
use crate::scaling::LONGEST_RANGE;
use crate::tracks::{SIGNALS, place_of_signal};
use arrayvec::ArrayVec;
use rtk_message::{Obs1004, Satellite};

// Returns whether there are satellites and they rise.
fn are_rising(satellites: &[Satellite]) -> bool
    ensures rise { IsTrue result → RiseAbove 0 satellites.now }
    ensures some { IsTrue result → 0 < length satellites.now }
{
    let mut last = 0;
    for satellite in satellites {
        if satellite.satellite <= last {
            return false;
        }
        last = satellite.satellite;
    }
    is_satellite(last)
}

/// Returns the satellites of a 1004 if they rise and are from 1 to 32, or `None` if they don't or
/// there are none.
pub fn rising_satellites(message: &Obs1004) -> Option<&[Satellite]>
    requires { IsValid message.now }
    ensures value { IfSome result (λ satellites. satellites.now ≡ message.now.satellites) }
    ensures rise { IfSome result (λ satellites. AreRisingSatellites satellites.now) }
    ensures cells_rise { IfSome result (λ satellites. AreRising (cells_of_1004 satellites.now)) }
    ensures range { IfSome result (λ satellites. All IsInRange (cells_of_1004 satellites.now)) }
    ensures kind { IfSome result (λ satellites. All (λ e. e.cell.source ≡ Legacy) (cells_of_1004 satellites.now)) }
    ensures some { IfSome result (λ satellites. 0 < length (cells_of_1004 satellites.now)) }
{
    let satellites = message.satellites.as_slice();
    if are_rising(satellites) {
        return Some(satellites);
    }
    None
}

// Marks the satellites and codes of cells.
fn marks_of(cells: &[CellEntry]) -> [bool; SIGNALS]
    requires { All IsInRange cells.now }
    ensures { HasMarks result cells.now }
{
    let mut marks = [false; SIGNALS];
    for entry in cells {
        marks[place_of_signal(entry.satellite, entry.code)] = true;
    }
    marks
}

// Makes a place of a list one that can be written. Most epochs have few cells that are left, so the list
// is lengthened for each cell, and not once for all.
fn make_place(list: &mut ArrayVec<CellEntry, 64>, place: usize)
    requires place { place ≤ length list.old.items }
    requires room { place < 64 }
    ensures front { take place list.new.items ≡ take place list.old.items }
    ensures length { place < length list.new.items }
{
    if place < list.len() {
        return;
    }
    list.push(CellEntry::default());
}

// Puts the cell of L1 of a satellite, unless it is known. The result is how many entries stand then.
#[inline(always)]
fn put_l1(
    found: &mut ArrayVec<CellEntry, 64>,
    count: usize,
    is_known: bool,
    satellite: &Satellite,
    pseudorange: i64,
) -> usize
    requires lock { satellite.now.l1_lock_indicator < 128 }
    requires pseudorange { pseudorange ≡ length_of satellite.now }
    requires bound { unsigned_abs pseudorange ≤ LONGEST_RANGE }
    requires count { count ≤ length found.old.items }
    requires room { count < 64 }
    ensures entries { take result found.new.items ≡ take count found.old.items
        ++ (if is_known then [] else entry_of satellite.now.satellite (l1_code_of satellite.now.l1_code) (l1_cell_of satellite.now) ∷ []) }
    ensures count { result ≤ length found.new.items }
    ensures few { result ≤ count + 1 }
{
    if is_known {
        return count;
    }
    make_place(found, count);
    set_l1_entry(&mut found.as_mut_slice()[count], satellite, pseudorange);
    count + 1
}

// Puts the cell of L2 of a satellite, unless it is known.
#[inline(always)]
fn put_l2(
    found: &mut ArrayVec<CellEntry, 64>,
    count: usize,
    is_known: bool,
    satellite: &Satellite,
    pseudorange: i64,
) -> usize
    requires code { satellite.now.l2_code < 4 }
    requires lock { satellite.now.l2_lock_indicator < 128 }
    requires pseudorange { pseudorange ≡ length_of satellite.now }
    requires bound { unsigned_abs pseudorange ≤ LONGEST_RANGE }
    requires count { count ≤ length found.old.items }
    requires room { count < 64 }
    ensures entries { take result found.new.items ≡ take count found.old.items
        ++ (if is_known then [] else entry_of satellite.now.satellite (l2_code_of satellite.now.l2_code) (l2_cell_of satellite.now) ∷ []) }
    ensures count { result ≤ length found.new.items }
    ensures few { result ≤ count + 1 }
{
    if is_known {
        return count;
    }
    make_place(found, count);
    set_l2_entry(&mut found.as_mut_slice()[count], satellite, pseudorange);
    count + 1
}

// Puts the cells of a satellite that are not marked. The result is how many entries stand then.
fn put_unmarked(
    found: &mut ArrayVec<CellEntry, 64>,
    count: usize,
    marks: &[bool; SIGNALS],
    satellite: &Satellite,
) -> usize
    requires fields { HasLegacyWidths satellite.now }
    requires number { IsSatellite satellite.now.satellite }
    requires count { count ≤ length found.old.items }
    requires room { count ≤ 60 }
    ensures entries { (known : List CellEntry) → HasMarks marks.now known
        → take result found.new.items ≡ take count found.old.items ++ cells_left known (satellite_entries satellite.now) }
    ensures count { result ≤ length found.new.items }
    ensures few { result ≤ count + 2 }
{
    let number = satellite.satellite;
    let pseudorange = l1_length(satellite);
    let l1_place = place_of_signal(number, l1_code(satellite.l1_code));
    let count = put_l1(found, count, marks[l1_place], satellite, pseudorange);
    let l2_place = place_of_signal(number, l2_code(satellite.l2_code));
    put_l2(found, count, marks[l2_place], satellite, pseudorange)
}

/// Puts the cells of satellites of a 1004 into a list, in place of what it has, but for those whose
/// satellite and code a known cell has.
pub fn put_cells_left(
    satellites: &[Satellite],
    known: &[CellEntry],
    found: &mut ArrayVec<CellEntry, 64>,
)
    requires rise { AreRisingSatellites satellites.now }
    requires known { All IsInRange known.now }
    ensures cells { found.new.items ≡ cells_left known.now (cells_of_1004 satellites.now) }
    ensures few { length found.new.items ≤ 2 * length satellites.now }
{
    let marks = marks_of(known);
    let mut count = 0;
    for satellite in satellites {
        count = put_unmarked(found, count, &marks, satellite);
    }
    found.truncate(count);
}
