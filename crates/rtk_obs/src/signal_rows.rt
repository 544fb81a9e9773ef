//! Which satellite and which signal each cell of an MSM of any system has, row by row of its cell mask.

ghost use Rattle.std.specs.Prelude.{◌≡◌, ℕ, ◌+◌, ◌^◌, ◌≤◌, ◌<◌, [], ◌++◌, List, length, map, take, IfSome, IfNone, count_ones, slice_index, unsigned_abs};
ghost use Rattle.rtk_message.specs.declared.msm1074.MsmHeader.{MsmHeader};
ghost use Rattle.rtk_message.specs.declared.system.System.{System};
ghost use Rattle.rtk_message.specs.Msm1074.{satellite_count};
ghost use Rattle.rtk_obs.specs.declared.signal_cells.SignalEntry.{SignalEntry};
ghost use Rattle.rtk_obs.specs.declared.signal_rows.SignalRow.{SignalRow};
ghost use Rattle.rtk_obs.specs.Mask.{join_from};
ghost use Rattle.rtk_obs.specs.MsmCells.{Slot, satellites_of, signals_of, row_slots, slots_of};
ghost use Rattle.rtk_obs.specs.Signals.{code_in};
ghost use Rattle.rtk_obs.specs.Steps.MsmRows.{IsCellMask, cells_in};
ghost use Rattle.rtk_obs.specs.Steps.SignalRows.{SetsEntry};

use crate::any_code::AnyCode;
use crate::carrier::Channel;
use crate::mask::{places_of_bits, top_bit};
use crate::msm_rows::{Progress, signal_identifiers};
use crate::satellite_index::SatelliteIndex;
use crate::signal_cells::SignalEntry;
use crate::signals::code_of_signal;
use arrayvec::ArrayVec;
use rtk_message::{MsmHeader, System};

/// What the cells of a satellite have in common.
#[derive(Clone, Copy)]
pub(crate) struct SignalRow {
    pub(crate) satellite: SatelliteIndex,
    /// The rough range, in 2^-29 ms.
    pub(crate) rough: Option<i64>,
    /// The frequency channel by which phases are made, if it is known.
    pub(crate) channel: Option<Channel>,
    /// The rough range rate in m/s, if it is asked for and valid.
    pub(crate) rough_rate: Option<i16>,
}

/// An MSM whose cells are set one by one, each as one of any system.
pub(crate) trait SignalsOfMsm {
    /// Which values can be written as bits: their fields fit, and their columns have the lengths
    /// that the masks give.
    ghost IsValid: { Self → Type 0 };

    /// The system whose satellites the message tells.
    ghost system: { Self → System };

    /// The fields before the cell mask.
    ghost header: { Self → MsmHeader };

    /// The rows of the cell mask.
    ghost cell_mask: { Self → List ℕ };

    /// The entry of a cell at a place in the message, if its satellite and its signal give one.
    ghost entry_of: { Self → ℕ → Slot → List SignalEntry };

    /// This is what the cells of the satellite of a row have in common.
    ghost IsRow: { Self → ℕ → SignalRow → Type 0 };

    /// Returns the system whose satellites the message tells.
    fn own_system(&self) -> System
        ensures { result ≡ system self.now };

    /// Returns the fields before the cell mask.
    fn mask_header(&self) -> MsmHeader
        ensures { result ≡ header self.now };

    /// Returns how many cells the message has.
    fn cell_count(&self) -> usize
        requires { IsValid self.now }
        ensures { result ≡ cells_in (cell_mask self.now) };

    /// Returns the rows of the cell mask (DF396).
    fn mask_rows(&self) -> &[u32]
        ensures { result.now ≡ cell_mask self.now };

    /// Returns what the cells of the satellite of a row have in common, whose mask bit (DF394) is this one,
    /// or `None` if it gives no cells.
    fn row(&self, place: usize, bit: u8) -> Option<SignalRow>
        requires valid { IsValid self.now }
        requires place { place < satellite_count (header self.now) }
        requires bit { bit ≡ slice_index (satellites_of (header self.now)) place }
        requires low { 1 ≤ bit }
        ensures some { IfSome result (λ row. IsRow self.now place row) }
        ensures bound { IfSome result (λ row. IfSome row.rough (λ r. unsigned_abs r ≤ 2 ^ 38)) }
        ensures none { IfNone result ((cell signal : ℕ) → entry_of self.now cell (record { row = place; signal = signal }) ≡ []) };

    /// Sets an entry to that of a cell, and returns whether the cell gives one. Each field is written where
    /// it stays.
    fn set_entry(
        &self,
        entry: &mut SignalEntry,
        cell: usize,
        row: &SignalRow,
        signal: Option<AnyCode>,
    ) -> bool
        requires valid { IsValid self.now }
        requires cell { cell < cells_in (cell_mask self.now) }
        requires rough { IfSome row.now.rough (λ r. unsigned_abs r ≤ 2 ^ 38) }
        ensures { (place identifier : ℕ) → IsRow self.now place row.now → code_in (system self.now) identifier ≡ signal
            → SetsEntry result entry.new (entry_of self.now cell (record { row = place; signal = identifier })) };
}

// Returns the codes of signals by their identifiers (DF395), or `None` for each that gives no cells. They are found
// once for each message and not for each cell. The list is as small as can be, since it is cleared for each message.
#[inline(always)]
fn coded_signals(system: System, identifiers: &[u8]) -> ArrayVec<Option<AnyCode>, 32>
    requires { length identifiers.now ≤ 32 }
    ensures { result.items ≡ map (code_in system) identifiers.now }
{
    let mut found = ArrayVec::new();
    for identifier in identifiers {
        found.push(code_of_signal(system, *identifier));
    }
    found
}

// Lengthens a list, if it must be, to this number of places, which can then be written.
fn make_places(list: &mut ArrayVec<SignalEntry, 64>, places: usize)
    requires { places ≤ 64 }
    ensures { places ≤ length list.new.items }
{
    while list.len() < places {
        list.push(SignalEntry::default());
    }
}

// Puts the entry of a cell, if its signal has a code. The result is how many entries stand then.
#[inline(always)]
fn put_entry<M: SignalsOfMsm>(
    found: &mut ArrayVec<SignalEntry, 64>,
    count: usize,
    message: &M,
    cell: usize,
    row: &SignalRow,
    signal: Option<AnyCode>,
) -> usize
    requires valid { M.IsValid message.now }
    requires cell { cell < cells_in (M.cell_mask message.now) }
    requires rough { IfSome row.now.rough (λ r. unsigned_abs r ≤ 2 ^ 38) }
    requires room { count < length found.old.items }
    ensures entries { (place identifier : ℕ) → M.IsRow message.now place row.now → code_in (M.system message.now) identifier ≡ signal
        → take result found.new.items ≡ take count found.old.items ++ M.entry_of message.now cell (record { row = place; signal = identifier }) }
    ensures room { length found.new.items ≡ length found.old.items }
    ensures one { result ≤ count + 1 }
{
    let entry = &mut found.as_mut_slice()[count];
    if message.set_entry(entry, cell, row, signal) {
        count + 1
    } else {
        count
    }
}

// Puts the entries of a row of the cell mask.
fn put_row<M: SignalsOfMsm>(
    found: &mut ArrayVec<SignalEntry, 64>,
    start: Progress,
    message: &M,
    row: &SignalRow,
    signals: &[Option<AnyCode>],
    bits: u32,
) -> Progress
    requires valid { M.IsValid message.now }
    requires mask { IsCellMask (M.header message.now) (M.cell_mask message.now) }
    requires rough { IfSome row.now.rough (λ r. unsigned_abs r ≤ 2 ^ 38) }
    requires signals { signals.now ≡ map (code_in (M.system message.now)) (signals_of (M.header message.now)) }
    requires fits { bits < 2 ^ length (signals_of (M.header message.now)) }
    requires cells { start.cell + count_ones bits ≤ cells_in (M.cell_mask message.now) }
    requires room { cells_in (M.cell_mask message.now) ≤ length found.old.items }
    requires few { start.count ≤ start.cell }
    ensures entries { (place : ℕ) → M.IsRow message.now place row.now
        → take result.count found.new.items ≡ take start.count found.old.items
        ++ join_from (M.entry_of message.now) start.cell (row_slots (signals_of (M.header message.now)) place bits) }
    ensures cells { result.cell ≡ start.cell + count_ones bits }
    ensures room { length found.new.items ≡ length found.old.items }
    ensures few { result.count ≤ result.cell }
{
    let width = signals.len();
    let mut rest = u64::from(bits);
    let mut cell = start.cell;
    let mut count = start.count;
    while rest != 0 {
        let top = top_bit(rest);
        let signal = signals[width - 1 - top as usize];
        rest -= 1 << top;
        count = put_entry(found, count, message, cell, row, signal);
        cell += 1;
    }
    Progress { cell, count }
}

// Puts the entries of a row of the cell mask, if its satellite gives cells.
#[inline(always)]
fn put_satellite<M: SignalsOfMsm>(
    found: &mut ArrayVec<SignalEntry, 64>,
    start: Progress,
    message: &M,
    place: usize,
    bit: u8,
    signals: &[Option<AnyCode>],
    bits: u32,
) -> Progress
    requires valid { M.IsValid message.now }
    requires mask { IsCellMask (M.header message.now) (M.cell_mask message.now) }
    requires place { place < satellite_count (M.header message.now) }
    requires bit { bit ≡ slice_index (satellites_of (M.header message.now)) place }
    requires low { 1 ≤ bit }
    requires signals { signals.now ≡ map (code_in (M.system message.now)) (signals_of (M.header message.now)) }
    requires fits { bits < 2 ^ length (signals_of (M.header message.now)) }
    requires cells { start.cell + count_ones bits ≤ cells_in (M.cell_mask message.now) }
    requires room { cells_in (M.cell_mask message.now) ≤ length found.old.items }
    requires few { start.count ≤ start.cell }
    ensures entries { take result.count found.new.items ≡ take start.count found.old.items
        ++ join_from (M.entry_of message.now) start.cell (row_slots (signals_of (M.header message.now)) place bits) }
    ensures cells { result.cell ≡ start.cell + count_ones bits }
    ensures room { length found.new.items ≡ length found.old.items }
    ensures few { result.count ≤ result.cell }
{
    let Some(row) = message.row(place, bit) else {
        return Progress {
            cell: start.cell + bits.count_ones() as usize,
            count: start.count,
        };
    };
    put_row(found, start, message, &row, signals, bits)
}

/// Puts the entries of a message into a list, in place of what it has.
pub(crate) fn put_entries<M: SignalsOfMsm>(found: &mut ArrayVec<SignalEntry, 64>, message: &M)
    requires valid { M.IsValid message.now }
    requires mask { IsCellMask (M.header message.now) (M.cell_mask message.now) }
    ensures { found.new.items ≡ join_from (M.entry_of message.now) 0 (slots_of (M.header message.now) (M.cell_mask message.now)) }
{
    let header = message.mask_header();
    let bit_list = places_of_bits(header.satellite_mask, 64);
    let numbers = bit_list.as_slice();
    let identifier_list = signal_identifiers(header);
    let identifiers = identifier_list.as_slice();
    let system = message.own_system();
    let signal_list = coded_signals(system, identifiers);
    let signals = signal_list.as_slice();
    let masks = message.mask_rows();
    make_places(found, message.cell_count());
    let mut progress = Progress { cell: 0, count: 0 };
    for (place, bits) in masks.iter().enumerate() {
        let bit = numbers[place];
        progress = put_satellite(found, progress, message, place, bit, signals, *bits);
    }
    found.truncate(progress.count);
}
