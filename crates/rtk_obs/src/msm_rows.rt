//! Which satellite and which signal each cell of an MSM has, row by row of its cell mask.

ghost use Rattle.std.specs.Prelude.{◌≡◌, ℕ, ℤ, ◌+◌, ◌^◌, ◌≤◌, ◌<◌, ◌++◌, List, Option, length, take, true, IfSome, IsTrue, count_ones, unsigned_abs};
ghost use Rattle.std.specs.List.{All, AllByRecursion};
ghost use Rattle.rtk_message.specs.declared.msm1074.MsmHeader.{MsmHeader};
ghost use Rattle.rtk_message.specs.Msm1074.{satellite_count};
ghost use Rattle.rtk_obs.specs.declared.code.Band.{Band};
ghost use Rattle.rtk_obs.specs.declared.cell.Cell.{Cell};
ghost use Rattle.rtk_obs.specs.Cell.{is_satellite};
ghost use Rattle.rtk_obs.specs.Code.{band_of};
ghost use Rattle.rtk_obs.specs.Mask.{set_bits, join_from};
ghost use Rattle.rtk_obs.specs.MsmCells.{code_of_signal, satellites_of, signals_of, row_slots, slot_entry, msm_entries};
ghost use Rattle.rtk_obs.specs.Steps.MsmRows.{IsCellMask, IsMaskRow, cells_in};

use crate::cell::{Cell, CellEntry, is_satellite, make_room};
use crate::code::Code;
use crate::mask::{places_of_bits, top_bit};
use arrayvec::ArrayVec;
use rtk_message::MsmHeader;

/// An MSM whose cells are set one by one.
pub(crate) trait CellsOfMsm {
    /// Which values can be written as bits: their fields fit, and their columns have the lengths
    /// that the masks give.
    ghost IsValid: { Self → Type 0 };

    /// The fields before the cell mask.
    ghost header: { Self → MsmHeader };

    /// The rows of the cell mask.
    ghost cell_mask: { Self → List ℕ };

    /// The rough range of the satellite of a row, in 2^-29 ms.
    ghost rough_at: { Self → ℕ → Option ℤ };

    /// The cell at a place in the message, of the satellite of a row, on a band.
    ghost cell_of: { Self → ℕ → ℕ → Band → Cell };

    /// Returns the fields before the cell mask.
    fn header(&self) -> MsmHeader
        ensures { result ≡ header self.now };

    /// Returns how many cells the message has.
    fn cells(&self) -> usize
        requires { IsValid self.now }
        ensures { result ≡ cells_in (cell_mask self.now) };

    /// Returns the rows of the cell mask (DF396).
    fn cell_mask(&self) -> &[u32]
        ensures { result.now ≡ cell_mask self.now };

    /// Returns the rough range of the satellite of a row, in 2^-29 ms.
    fn rough(&self, row: usize) -> Option<i64>
        requires valid { IsValid self.now }
        requires row { row < satellite_count (header self.now) }
        ensures value { result ≡ rough_at self.now row }
        ensures bound { IfSome result (λ r. unsigned_abs r ≤ 2 ^ 38) };

    /// Sets a cell to the one at this place in the message, of a satellite with this rough range, and
    /// of this code. Each field is written where it stays.
    fn set_cell(&self, cell: &mut Cell, place: usize, rough: Option<i64>, code: Code)
        requires valid { IsValid self.now }
        requires place { place < cells_in (cell_mask self.now) }
        requires rough { IfSome rough (λ r. unsigned_abs r ≤ 2 ^ 38) }
        ensures { (row : ℕ) → rough ≡ rough_at self.now row → cell.new ≡ cell_of self.now place row (band_of code) };
}

// The codes of the signal identifiers from 0 on (DF395); `None` for those that give no cell.
static SIGNAL_CODES: [Option<Code>; 33] = [
    None,
    None,
    Some(Code::G1C),
    Some(Code::G1P),
    Some(Code::G1W),
    None,
    None,
    None,
    Some(Code::G2C),
    Some(Code::G2P),
    Some(Code::G2W),
    None,
    None,
    None,
    None,
    Some(Code::G2S),
    Some(Code::G2L),
    Some(Code::G2X),
    None,
    None,
    None,
    None,
    Some(Code::G5I),
    Some(Code::G5Q),
    Some(Code::G5X),
    None,
    None,
    None,
    None,
    None,
    Some(Code::G1S),
    Some(Code::G1L),
    Some(Code::G1X),
];

// A satellite of the message.
#[derive(Clone, Copy)]
struct Row {
    // Its number (DF394).
    satellite: u8,
    // Its rough range, in 2^-29 ms.
    rough: Option<i64>,
}

/// How far the cells of a message are put.
#[derive(Clone, Copy)]
pub(crate) struct Progress {
    /// How many cells of the message came so far.
    pub(crate) cell: usize,
    /// How many entries of the list stand.
    pub(crate) count: usize,
}

/// Returns the code of a signal identifier.
pub(crate) fn signal_code(signal: u8) -> Option<Code>
    requires { signal ≤ 32 }
    ensures { result ≡ code_of_signal signal }
{
    SIGNAL_CODES[usize::from(signal)]
}

/// Returns the signal identifiers of the message (DF395). They rise.
pub(crate) fn signal_identifiers(header: MsmHeader) -> ArrayVec<u8, 64>
    ensures value { result.items ≡ signals_of header }
    ensures bounds { All (λ p. (1 ≤ p) × (p ≤ 32)) result.items }
{
    places_of_bits(u64::from(header.signal_mask), 32)
}

/// Returns whether each signal of the message is below 30 (DF395). The codes of such signals rise
/// with them. The signals from 30 to 32 have codes of L1, whose places are before those of L2.
pub(crate) fn has_rising_codes(signal_mask: u32) -> bool
    ensures { IsTrue result → AllByRecursion (λ p. p < 30) (set_bits 32 signal_mask) }
{
    signal_mask % 8 == 0
}

// Returns the satellite of a row with its rough range.
fn row_of<M: CellsOfMsm>(message: &M, numbers: &[u8], row: usize) -> Row
    requires valid { M.IsValid message.now }
    requires mask { IsCellMask (M.header message.now) (M.cell_mask message.now) }
    requires numbers { numbers.now ≡ satellites_of (M.header message.now) }
    requires row { row < satellite_count (M.header message.now) }
    ensures { IsMaskRow (M.header message.now) (M.rough_at message.now) row result }
{
    Row {
        satellite: numbers[row],
        rough: message.rough(row),
    }
}

// Puts the cell of a satellite and a signal, if the signal has a code. The result is how many entries
// stand then.
fn put_cell<M: CellsOfMsm>(
    found: &mut ArrayVec<CellEntry, 64>,
    count: usize,
    message: &M,
    cell: usize,
    row: Row,
    signal: u8,
) -> usize
    requires valid { M.IsValid message.now }
    requires cell { cell < cells_in (M.cell_mask message.now) }
    requires rough { IfSome row.rough (λ r. unsigned_abs r ≤ 2 ^ 38) }
    requires satellite { is_satellite row.satellite ≡ true }
    requires signal { signal ≤ 32 }
    requires room { count < length found.old.items }
    ensures entries { (place : ℕ) → IsMaskRow (M.header message.now) (M.rough_at message.now) place row
        → take result found.new.items ≡ take count found.old.items
        ++ slot_entry (M.header message.now) (M.cell_of message.now) cell (record { row = place; signal = signal }) }
    ensures room { length found.new.items ≡ length found.old.items }
    ensures one { result ≤ count + 1 }
{
    let Some(code) = signal_code(signal) else {
        return count;
    };
    let entry = &mut found.as_mut_slice()[count];
    entry.satellite = row.satellite;
    entry.code = code;
    message.set_cell(&mut entry.cell, cell, row.rough, code);
    count + 1
}

// Puts the cells of a row of the cell mask, if RINEX has its satellite.
fn put_row<M: CellsOfMsm>(
    found: &mut ArrayVec<CellEntry, 64>,
    start: Progress,
    message: &M,
    row: Row,
    signals: &[u8],
    bits: u32,
) -> Progress
    requires valid { M.IsValid message.now }
    requires mask { IsCellMask (M.header message.now) (M.cell_mask message.now) }
    requires rough { IfSome row.rough (λ r. unsigned_abs r ≤ 2 ^ 38) }
    requires signals { signals.now ≡ signals_of (M.header message.now) }
    requires bounds { All (λ p. (1 ≤ p) × (p ≤ 32)) signals.now }
    requires fits { bits < 2 ^ length signals.now }
    requires cells { start.cell + count_ones bits ≤ cells_in (M.cell_mask message.now) }
    requires room { cells_in (M.cell_mask message.now) ≤ length found.old.items }
    requires few { start.count ≤ start.cell }
    ensures entries { (place : ℕ) → IsMaskRow (M.header message.now) (M.rough_at message.now) place row
        → take result.count found.new.items ≡ take start.count found.old.items
        ++ join_from (slot_entry (M.header message.now) (M.cell_of message.now)) start.cell (row_slots signals.now place bits) }
    ensures cells { result.cell ≡ start.cell + count_ones bits }
    ensures room { length found.new.items ≡ length found.old.items }
    ensures few { result.count ≤ result.cell }
{
    if !is_satellite(row.satellite) {
        return Progress {
            cell: start.cell + bits.count_ones() as usize,
            count: start.count,
        };
    }
    let width = signals.len();
    let mut rest = u64::from(bits);
    let mut cell = start.cell;
    let mut count = start.count;
    while rest != 0 {
        let top = top_bit(rest);
        let signal = signals[width - 1 - top as usize];
        rest -= 1 << top;
        count = put_cell(found, count, message, cell, row, signal);
        cell += 1;
    }
    Progress { cell, count }
}

/// Puts the cells of a message whose satellite and signal RINEX has. The result is how many
/// entries stand then.
pub(crate) fn put_cells<M: CellsOfMsm>(found: &mut ArrayVec<CellEntry, 64>, message: &M) -> usize
    requires valid { M.IsValid message.now }
    requires mask { IsCellMask (M.header message.now) (M.cell_mask message.now) }
    ensures { take result found.new.items ≡ msm_entries (M.header message.now) (M.cell_mask message.now) (M.cell_of message.now) }
{
    let header = message.header();
    let number_list = places_of_bits(header.satellite_mask, 64);
    let numbers = number_list.as_slice();
    let signal_list = signal_identifiers(header);
    let signals = signal_list.as_slice();
    let masks = message.cell_mask();
    make_room(found, message.cells());
    let mut progress = Progress { cell: 0, count: 0 };
    for (place, bits) in masks.iter().enumerate() {
        let row = row_of(message, numbers, place);
        progress = put_row(found, progress, message, row, signals, *bits);
    }
    progress.count
}
