//! The cells of a 1074.

ghost use Rattle.std.specs.Prelude.{◌≡◌, ℕ, ◌^◌, ◌≤◌, ◌<◌, Some, length, slice_index, unsigned_abs, IfSome, IsTrue};
ghost use Rattle.std.specs.List.{All};
ghost use Rattle.rtk_message.specs.Msm1074.{IsValid, cell_count};
ghost use Rattle.rtk_obs.specs.declared.code.Band.{Band};
ghost use Rattle.rtk_obs.specs.Code.{frequency_of};
ghost use Rattle.rtk_obs.specs.Cell.{IsInRange, AreDistinct, AreRising};
ghost use Rattle.rtk_obs.specs.LockTime.{least_lock_of_msm};
ghost use Rattle.rtk_obs.specs.MsmCells.{rough_at, cell_of_1074, cells_of_1074};
ghost use Rattle.rtk_obs.specs.Steps.MsmRows.{cells_in};

use crate::cell::{Cell, CellEntry, CellSource};
use crate::code::Code;
use crate::lock_time::least_lock_msm;
use crate::msm_cells::msm_phase_on;
use crate::msm_rows::{CellsOfMsm, has_rising_codes, put_cells};
use crate::msm_values::{MSM_STRENGTH_STEP, msm_range, rough_range};
use crate::scaling::strength_from_steps;
use arrayvec::ArrayVec;
use rtk_message::{Msm1074, MsmHeader};

// Returns the least lock time of the cell at this place.
fn lock_time(message: &Msm1074, cell: usize) -> u32
    requires valid { IsValid message.now }
    requires cell { cell < cell_count message.now }
    ensures { result ≡ least_lock_of_msm (slice_index message.now.lock_indicator cell) }
{
    least_lock_msm(message.lock_indicator.as_slice()[cell])
}

impl CellsOfMsm for Msm1074 {
    ghost IsValid = { IsValid };

    ghost header = { λ m. m.header };

    ghost cell_mask = { λ m. m.cell_mask };

    ghost rough_at = { λ m. rough_at m.rough_ms m.rough_fraction };

    ghost cell_of = { cell_of_1074 };

    fn header(&self) -> MsmHeader {
        self.header
    }

    fn cells(&self) -> usize {
        self.fine_range.len()
    }

    fn cell_mask(&self) -> &[u32] {
        self.cell_mask.as_slice()
    }

    fn rough(&self, row: usize) -> Option<i64> {
        rough_range(
            self.rough_ms.as_slice()[row],
            self.rough_fraction.as_slice()[row],
        )
    }

    #[inline(always)]
    fn set_cell(&self, cell: &mut Cell, place: usize, rough: Option<i64>, code: Code) {
        set_values_1074(self, cell, place, rough, Some(code.band().frequency()));
    }
}

/// Sets a cell to the one at this place in a message, of a satellite with this rough range, on a band whose frequency
/// in Hz this is. Each field is written where it stays.
#[inline(always)]
pub(crate) fn set_values_1074(
    message: &Msm1074,
    cell: &mut Cell,
    place: usize,
    rough: Option<i64>,
    frequency: Option<u32>,
)
    requires valid { IsValid message.now }
    requires place { place < cells_in message.now.cell_mask }
    requires rough { IfSome rough (λ r. unsigned_abs r ≤ 2 ^ 38) }
    ensures { (row : ℕ) (band : Band) → rough ≡ rough_at message.now.rough_ms message.now.rough_fraction row → frequency ≡ Some (frequency_of band)
        → cell.new ≡ cell_of_1074 message.now place row band }
{
    cell.range_mm = msm_range(rough, i32::from(message.fine_range.as_slice()[place]));
    cell.phase_millicycles = msm_phase_on(frequency, rough, message.fine_phase.as_slice()[place]);
    cell.strength_millidbhz = strength_from_steps(MSM_STRENGTH_STEP, message.cnr.as_slice()[place]);
    cell.lock_time_ms = lock_time(message, place);
    cell.half = message.half_cycle.as_slice()[place];
    cell.source = CellSource::Msm;
    cell.offset = None;
}

/// Puts the cells of a 1074 into a list in place of what it has, as `cells_1074` gives them. If the
/// message has no signal from 30 to 32, the cells rise, and the result is `true`.
pub fn put_cells_1074(message: &Msm1074, found: &mut ArrayVec<CellEntry, 64>) -> bool
    requires { IsValid message.now }
    ensures cells { found.new.items ≡ cells_of_1074 message.now }
    ensures ranges { All IsInRange found.new.items }
    ensures distinct { AreDistinct found.new.items }
    ensures few { length found.new.items ≤ 64 }
    ensures rises { IsTrue result → AreRising found.new.items }
{
    let count = put_cells(found, message);
    found.truncate(count);
    has_rising_codes(message.header.signal_mask)
}

/// Returns the cells of a 1074 in the order of the message, for the satellites from 1 to 32 and the
/// fifteen signals that have a code.
pub fn cells_1074(message: &Msm1074) -> ArrayVec<CellEntry, 64>
    requires { IsValid message.now }
    ensures cells { result.items ≡ cells_of_1074 message.now }
    ensures ranges { All IsInRange result.items }
    ensures distinct { AreDistinct result.items }
    ensures few { length result.items ≤ 64 }
{
    let mut found = ArrayVec::new();
    let _ = put_cells_1074(message, &mut found);
    found
}
