//! The cells of a 1004.

ghost use Rattle.std.specs.Prelude.{◌≡◌, ◌+◌, ◌^◌, ◌≤◌, ◌<◌, not, ◌&&◌, List, [], ◌∷◌, ◌++◌, length, take, negsuc, unsigned_abs, IsTrue};
ghost use Rattle.std.specs.List.{All, list_any};
ghost use Rattle.rtk_message.specs.declared.obs1004.Satellite.{Satellite};
ghost use Rattle.rtk_message.specs.Obs1004.{IsValid};
ghost use Rattle.rtk_obs.specs.Cell.{is_satellite, entry_of, IsInRange, AreDistinct, AreRising};
ghost use Rattle.rtk_obs.specs.Scaling.{l2_length};
ghost use Rattle.rtk_obs.specs.LegacyCells.{l1_code_of, l2_code_of, l1_range_of, l2_range_of, legacy_phase_of, length_of, l1_cell_of, l2_cell_of, has_number, cells_of_1004};
ghost use Rattle.rtk_obs.specs.CellsLeft.{HasLegacyWidths};
ghost use Rattle.rtk_obs.specs.Steps.LegacyFields.{HasSeen};

use crate::cell::{CellEntry, CellSource, is_satellite, make_room};
use crate::code::{Band, Code};
use crate::lock_time::least_lock_legacy;
use crate::scaling::{
    LONGEST_RANGE, MODULUS, RANGE_STEP, phase_from_length, range_from_length, strength_from_steps,
    unless_mark,
};
use arrayvec::ArrayVec;
use rtk_message::{Obs1004, Satellite};

/// The invalid mark of DF012 and DF018, and in a 1012 of DF042 and DF048.
pub(crate) const NO_PHASE: i32 = -524_288;

/// The invalid mark of DF017, and in a 1012 of DF047.
pub(crate) const NO_RANGE: i32 = -8192;

/// Thousandths of a dB-Hz in a step of DF015 and DF020, and in a 1012 of DF045 and DF050.
pub(crate) const LEGACY_STRENGTH_STEP: u32 = 250;

/// Returns the code of L1 at an indicator (DF010).
pub(crate) fn l1_code(indicator: bool) -> Code
    ensures { result ≡ l1_code_of indicator }
{
    if indicator { Code::G1P } else { Code::G1C }
}

// The codes of L2 at the indicators of DF016 from 0 on.
static L2_CODES: [Code; 4] = [Code::G2X, Code::G2P, Code::G2D, Code::G2W];

/// Returns the code of L2 at an indicator (DF016).
pub(crate) fn l2_code(indicator: u8) -> Code
    requires { indicator < 4 }
    ensures { result ≡ l2_code_of indicator }
{
    L2_CODES[usize::from(indicator)]
}

// Returns the pseudorange of L1, in 0.0005 m.
pub(crate) fn l1_length(satellite: &Satellite) -> i64
    requires { satellite.now.l1_range < 2 ^ 24 }
    ensures value { result ≡ length_of satellite.now }
    ensures bound { unsigned_abs result ≤ LONGEST_RANGE }
{
    RANGE_STEP * i64::from(satellite.l1_range) + MODULUS * i64::from(satellite.modulus_ambiguity)
}

/// Returns the range of L1. An invalid mark of its phase (DF012, DF042) leaves out the range too.
pub(crate) fn l1_range(length: i64, offset: Option<i32>) -> Option<i64>
    ensures { result ≡ l1_range_of length offset }
{
    match offset {
        Some(_) => Some(range_from_length(length)),
        None => None,
    }
}

// Returns the pseudorange of L2, in 0.0005 m.
fn l2_length(length: i64, difference: i32) -> i64
    requires { unsigned_abs length ≤ LONGEST_RANGE }
    ensures { result ≡ l2_length length difference }
{
    length + RANGE_STEP * i64::from(difference)
}

/// Returns the range of L2 in mm, or `None` if its difference (DF017, DF047) has its invalid mark.
pub(crate) fn l2_range(length: i64, difference: Option<i32>) -> Option<i64>
    requires { unsigned_abs length ≤ LONGEST_RANGE }
    ensures { result ≡ l2_range_of length difference }
{
    match difference {
        Some(difference) => Some(range_from_length(l2_length(length, difference))),
        None => None,
    }
}

// Returns the phase of a band in millicycles, or `None` if its offset (DF012, DF018) has its
// invalid mark.
fn legacy_phase(band: Band, length: i64, offset: Option<i32>) -> Option<i64>
    requires { unsigned_abs length ≤ LONGEST_RANGE }
    ensures { result ≡ legacy_phase_of band length offset }
{
    match offset {
        Some(offset) => Some(phase_from_length(band, length + i64::from(offset))),
        None => None,
    }
}

// Sets an entry to the one of L1. Each field is written where it stays.
#[inline(always)]
pub(crate) fn set_l1_entry(entry: &mut CellEntry, satellite: &Satellite, length: i64)
    requires lock { satellite.now.l1_lock_indicator < 128 }
    requires length { length ≡ length_of satellite.now }
    requires bound { unsigned_abs length ≤ LONGEST_RANGE }
    ensures { entry.new ≡ entry_of satellite.now.satellite (l1_code_of satellite.now.l1_code) (l1_cell_of satellite.now) }
{
    let offset = unless_mark(satellite.l1_phase_difference, NO_PHASE);
    entry.satellite = satellite.satellite;
    entry.code = l1_code(satellite.l1_code);
    entry.cell.range_mm = l1_range(length, offset);
    entry.cell.phase_millicycles = legacy_phase(Band::L1, length, offset);
    entry.cell.strength_millidbhz = strength_from_steps(LEGACY_STRENGTH_STEP, satellite.l1_cnr);
    entry.cell.lock_time_ms = least_lock_legacy(satellite.l1_lock_indicator);
    entry.cell.half = false;
    entry.cell.source = CellSource::Legacy;
    entry.cell.offset = offset;
}

// Sets an entry to the one of L2.
#[inline(always)]
pub(crate) fn set_l2_entry(entry: &mut CellEntry, satellite: &Satellite, length: i64)
    requires code { satellite.now.l2_code < 4 }
    requires lock { satellite.now.l2_lock_indicator < 128 }
    requires length { length ≡ length_of satellite.now }
    requires bound { unsigned_abs length ≤ LONGEST_RANGE }
    ensures { entry.new ≡ entry_of satellite.now.satellite (l2_code_of satellite.now.l2_code) (l2_cell_of satellite.now) }
{
    let difference = unless_mark(i32::from(satellite.l2_range_difference), NO_RANGE);
    let offset = unless_mark(satellite.l2_phase_difference, NO_PHASE);
    entry.satellite = satellite.satellite;
    entry.code = l2_code(satellite.l2_code);
    entry.cell.range_mm = l2_range(length, difference);
    entry.cell.phase_millicycles = legacy_phase(Band::L2, length, offset);
    entry.cell.strength_millidbhz = strength_from_steps(LEGACY_STRENGTH_STEP, satellite.l2_cnr);
    entry.cell.lock_time_ms = least_lock_legacy(satellite.l2_lock_indicator);
    entry.cell.half = false;
    entry.cell.source = CellSource::Legacy;
    entry.cell.offset = offset;
}

// Marks a satellite as seen, and says whether this is its first entry and RINEX has it.
fn mark_first(seen: &mut [bool], number: u8) -> bool
    requires places { length seen.old ≡ 33 }
    ensures places { length seen.new ≡ 33 }
    ensures value { (before : List Satellite) → HasSeen seen.old before
        → result ≡ (is_satellite number && not (list_any (has_number number) before)) }
    ensures seen { (before : List Satellite) (s : Satellite) → HasSeen seen.old before → s.satellite ≡ number
        → HasSeen seen.new (before ++ s ∷ []) }
{
    if !is_satellite(number) {
        return false;
    }
    let place = usize::from(number);
    if seen[place] {
        return false;
    }
    seen[place] = true;
    true
}

// Puts the two cells of a satellite, if this is its first entry and RINEX has it. The result is how
// many entries stand then.
fn put_satellite(
    found: &mut ArrayVec<CellEntry, 64>,
    count: usize,
    seen: &mut [bool],
    satellite: &Satellite,
) -> usize
    requires fields { HasLegacyWidths satellite.now }
    requires places { length seen.old ≡ 33 }
    requires room { count + 2 ≤ length found.old.items }
    ensures entries { (before : List Satellite) → HasSeen seen.old before → take count found.old.items ≡ cells_of_1004 before
        → take result found.new.items ≡ cells_of_1004 (before ++ satellite.now ∷ []) }
    ensures seen { (before : List Satellite) → HasSeen seen.old before → HasSeen seen.new (before ++ satellite.now ∷ []) }
    ensures places { length seen.new ≡ 33 }
    ensures room { length found.new.items ≡ length found.old.items }
    ensures few { result ≤ count + 2 }
{
    if !mark_first(seen, satellite.satellite) {
        return count;
    }
    let length = l1_length(satellite);
    set_l1_entry(&mut found.as_mut_slice()[count], satellite, length);
    set_l2_entry(&mut found.as_mut_slice()[count + 1], satellite, length);
    count + 2
}

// Puts the cells of the satellites of a 1004. The results are how many entries stand then, and
// whether the satellites rise.
fn put_satellites(found: &mut ArrayVec<CellEntry, 64>, satellites: &[Satellite]) -> (usize, bool)
    requires few { length satellites.now ≤ 31 }
    requires fields { All HasLegacyWidths satellites.now }
    ensures cells { take result.0 found.new.items ≡ cells_of_1004 satellites.now }
    ensures few { result.0 ≤ 62 }
    ensures rises { IsTrue result.1 → AreRising (cells_of_1004 satellites.now) }
{
    make_room(found, 2 * satellites.len());
    let mut seen = [false; 33];
    let mut count = 0;
    let mut rises = true;
    let mut last = 0;
    for satellite in satellites {
        rises = rises && last < satellite.satellite;
        last = satellite.satellite;
        count = put_satellite(found, count, &mut seen, satellite);
    }
    (count, rises)
}

/// Puts the cells of a 1004 into a list in place of what it has, as `cells_1004` gives them. If the
/// satellites of the message rise, so do the cells, and the result is `true`.
pub fn put_cells_1004(message: &Obs1004, found: &mut ArrayVec<CellEntry, 64>) -> bool
    requires { IsValid message.now }
    ensures cells { found.new.items ≡ cells_of_1004 message.now.satellites }
    ensures ranges { All IsInRange found.new.items }
    ensures distinct { AreDistinct found.new.items }
    ensures few { length found.new.items ≤ 62 }
    ensures rises { IsTrue result → AreRising found.new.items }
{
    let (count, rises) = put_satellites(found, message.satellites.as_slice());
    found.truncate(count);
    rises
}

/// Returns the cells of a 1004 in the order of the message. Each satellite from 1 to 32 has a cell
/// of L1 and one of L2, by its first entry.
pub fn cells_1004(message: &Obs1004) -> ArrayVec<CellEntry, 64>
    requires { IsValid message.now }
    ensures cells { result.items ≡ cells_of_1004 message.now.satellites }
    ensures ranges { All IsInRange result.items }
    ensures distinct { AreDistinct result.items }
    ensures few { length result.items ≤ 62 }
{
    let mut found = ArrayVec::new();
    let _ = put_cells_1004(message, &mut found);
    found
}
