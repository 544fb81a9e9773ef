//! The cells of the MSM of GPS other than 1074.

ghost use Rattle.std.specs.Prelude.{◌≡◌, ℕ, ◌%◌, ◌^◌, ◌<◌, ◌≤◌, true, false, length, IsTrue, IfSome, unsigned_abs};
ghost use Rattle.std.specs.List.{All};
ghost use Rattle.rtk_message.specs.MsmForm.{IsValid};
ghost use Rattle.rtk_message.specs.declared.msm_kind.MsmKind.TheVariants.{Msm4};
ghost use Rattle.rtk_obs.specs.Cell.{IsInRange, AreDistinct, AreRising};
ghost use Rattle.rtk_obs.specs.MsmCells.{rough_at, has_extended_resolution, phase_on, cell_on, msm_entries, cell_of_msm, cells_of_msm};
ghost use Rattle.rtk_obs.specs.Steps.MsmRows.{cells_in};

use crate::cell::{Cell, CellEntry, CellSource};
use crate::code::Code;
use crate::lock_time::{least_lock_extended, least_lock_msm};
use crate::msm_rows::{CellsOfMsm, has_rising_codes, put_cells};
use crate::msm_values::{
    MSM_STRENGTH_STEP, extended_phase, extended_range, msm_phase, msm_range, rough_range,
};
use crate::scaling::{strength_from_sixteenths, strength_from_steps};
use arrayvec::ArrayVec;
use rtk_message::{Msm, MsmHeader, MsmKind, System};

// Returns whether the fields have extended resolution: DF405 to DF408 in the place of DF400 to
// DF403.
fn has_extended_resolution(kind: MsmKind) -> bool
    ensures { result ≡ has_extended_resolution kind }
{
    match kind {
        MsmKind::Msm4 | MsmKind::Msm5 => false,
        MsmKind::Msm6 | MsmKind::Msm7 => true,
    }
}

impl CellsOfMsm for Msm {
    ghost IsValid = { IsValid };

    ghost header = { λ m. m.header };

    ghost cell_mask = { λ m. m.cell_mask };

    ghost rough_at = { λ m. rough_at m.rough_ms m.rough_fraction };

    ghost cell_of = { cell_of_msm };

    fn header(&self) -> MsmHeader {
        self.header
    }

    fn cells(&self) -> usize {
        self.fine_range.len()
    }

    fn cell_mask(&self) -> &[u32] {
        self.cell_mask.as_slice()
    }

    fn rough(&self, row: usize) -> Option<i64> {
        rough_range(
            self.rough_ms.as_slice()[row],
            self.rough_fraction.as_slice()[row],
        )
    }

    #[inline(always)]
    fn set_cell(&self, cell: &mut Cell, place: usize, rough: Option<i64>, code: Code) {
        set_values(self, cell, place, rough, Some(code.band().frequency()));
    }
}

/// Returns the phase in millicycles of a frequency in Hz, if it is known, from a fine one without
/// extended resolution.
pub(crate) fn msm_phase_on(frequency: Option<u32>, rough: Option<i64>, fine: i32) -> Option<i64>
    requires { IfSome rough (λ r. unsigned_abs r ≤ 2 ^ 38) }
    ensures value { result ≡ phase_on Msm4 frequency rough fine }
    ensures kinds { (kind : MsmKind) → has_extended_resolution kind ≡ false → result ≡ phase_on kind frequency rough fine }
{
    msm_phase(frequency?, rough, fine)
}

// The same from a fine one with extended resolution.
fn extended_phase_on(frequency: Option<u32>, rough: Option<i64>, fine: i32) -> Option<i64>
    requires frequency { IfSome frequency (λ f. f % 4 ≡ 0) }
    requires rough { IfSome rough (λ r. unsigned_abs r ≤ 2 ^ 38) }
    ensures { (kind : MsmKind) → has_extended_resolution kind ≡ true → result ≡ phase_on kind frequency rough fine }
{
    extended_phase(frequency?, rough, fine)
}

/// Sets a cell to the one at this place in a message, of a satellite with this rough range, on a
/// carrier whose frequency in Hz is known or not. Each field is written where it stays.
#[inline(always)]
pub(crate) fn set_values(
    message: &Msm,
    cell: &mut Cell,
    place: usize,
    rough: Option<i64>,
    frequency: Option<u32>,
)
    requires valid { IsValid message.now }
    requires place { place < cells_in message.now.cell_mask }
    requires rough { IfSome rough (λ r. unsigned_abs r ≤ 2 ^ 38) }
    requires frequency { IfSome frequency (λ f. f % 4 ≡ 0) }
    ensures { (row : ℕ) → rough ≡ rough_at message.now.rough_ms message.now.rough_fraction row
        → cell.new ≡ cell_on message.now place row frequency }
{
    let range = message.fine_range.as_slice();
    let phase = message.fine_phase.as_slice();
    let cnr = message.cnr.as_slice();
    let lock = message.lock_indicator.as_slice();
    if has_extended_resolution(message.kind) {
        cell.phase_millicycles = extended_phase_on(frequency, rough, phase[place]);
        cell.range_mm = extended_range(rough, range[place]);
        cell.strength_millidbhz = strength_from_sixteenths(cnr[place]);
        cell.lock_time_ms = least_lock_extended(lock[place]);
    } else {
        cell.phase_millicycles = msm_phase_on(frequency, rough, phase[place]);
        cell.range_mm = msm_range(rough, range[place]);
        cell.strength_millidbhz = strength_from_steps(MSM_STRENGTH_STEP, cnr[place] as u8);
        cell.lock_time_ms = least_lock_msm(lock[place] as u8);
    }
    cell.half = message.half_cycle.as_slice()[place];
    cell.source = CellSource::Msm;
    cell.offset = None;
}

/// Puts the cells of a message into a list in place of what it has, as `cells_msm` gives them. If
/// the message has no signal from 30 to 32, the cells rise, and the result is `true`.
pub fn put_cells_msm(message: &Msm, found: &mut ArrayVec<CellEntry, 64>) -> bool
    requires { IsValid message.now }
    ensures cells { found.new.items ≡ cells_of_msm message.now }
    ensures ranges { All IsInRange found.new.items }
    ensures distinct { AreDistinct found.new.items }
    ensures few { length found.new.items ≤ 64 }
    ensures rises { IsTrue result → AreRising found.new.items }
{
    match message.system {
        System::Gps => put_cells_of_gps(message, found),
        _ => {
            found.clear();
            true
        }
    }
}

// Puts the cells of a message of GPS.
fn put_cells_of_gps(message: &Msm, found: &mut ArrayVec<CellEntry, 64>) -> bool
    requires { IsValid message.now }
    ensures cells { found.new.items ≡ msm_entries message.now.header message.now.cell_mask (cell_of_msm message.now) }
    ensures ranges { All IsInRange found.new.items }
    ensures distinct { AreDistinct found.new.items }
    ensures few { length found.new.items ≤ 64 }
    ensures rises { IsTrue result → AreRising found.new.items }
{
    let count = put_cells(found, message);
    found.truncate(count);
    has_rising_codes(message.header.signal_mask)
}

/// Returns the cells of an MSM that is no 1074 in the order of the message, for the satellites from 1
/// to 32 and the fifteen signals that have a code. A message of another system than GPS has none.
pub fn cells_msm(message: &Msm) -> ArrayVec<CellEntry, 64>
    requires { IsValid message.now }
    ensures cells { result.items ≡ cells_of_msm message.now }
    ensures ranges { All IsInRange result.items }
    ensures distinct { AreDistinct result.items }
    ensures few { length result.items ≤ 64 }
{
    let mut found = ArrayVec::new();
    let _ = put_cells_msm(message, &mut found);
    found
}
