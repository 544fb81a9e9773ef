//! The line of a satellite, told by its form.

ghost use Rattle.std.specs.Prelude.{◌≡◌, ◌≢◌, ℕ, ◌*◌, ◌≤◌, length, IsTrue, ◌↔◌, IsSome, MatchOption};
ghost use Rattle.rtk_rinex.specs.CheckLine.{IsSatelliteForm};
ghost use Rattle.rtk_rinex.specs.Columns.{left};
ghost use Rattle.rtk_rinex.specs.Lines.{IsLine};
ghost use Rattle.rtk_rinex.specs.Record.{observations, observations_with_doppler, code_text, code_width, satellite_line};
ghost use Rattle.rtk_rinex.specs.Table.{IsObserved, IsObservedWithDoppler, IsObservedIn, IsTableRow};
ghost use Rattle.rtk_rinex.specs.Steps.CheckValues.{IsCell, AreCells};
ghost use Rattle.rtk_rinex.specs.declared.epoch_table.Observed.{Observed};
ghost use Rattle.rtk_rinex.specs.declared.epoch_table.SatelliteRow.{SatelliteRow};

use crate::columns::{CODE_COLUMNS, DOPPLER_COLUMNS, append};
use crate::digits::columns_at;
use crate::epoch_table::Observed;
use crate::value_check::{shown_observed, shown_with_doppler};
use arrayvec::ArrayVec;

// What a code shows without columns: the value of `Observed::default()`. It is answered, so its
// fields are written out.
const NOTHING: Observed = Observed {
    range_mm: None,
    phase_millicycles: None,
    doppler_millihertz: None,
    strength_millidbhz: None,
    slip: false,
    half: false,
};

/// Returns the columns of a code, of which blanks at the end may be missing.
pub(crate) fn padded(columns: &[u8]) -> ArrayVec<u8, CODE_COLUMNS>
    requires { length columns.now ≤ 48 }
    ensures value { result.items ≡ left 48 columns.now }
    ensures len { length result.items ≡ 48 }
{
    let blanks = [b' '; CODE_COLUMNS];
    let mut whole = ArrayVec::new();
    append(&mut whole, columns);
    append(&mut whole, &blanks[..CODE_COLUMNS - columns.len()]);
    whole
}

/// Returns what the columns of a code show, of which blanks at the end may be missing, or `None`
/// exactly if nothing that a code can show is written so.
pub(crate) fn shown_cell(columns: &[u8]) -> Option<Observed>
    requires { length columns.now ≤ 48 }
    ensures { MatchOption result
        ((o : Observed) → IsObserved o → left 48 columns.now ≢ observations o)
        (λ o. IsObserved o × (left 48 columns.now ≡ observations o)) }
{
    if columns.len() == 0 {
        return Some(NOTHING);
    }
    if columns.len() == CODE_COLUMNS {
        return shown_observed(columns);
    }
    shown_observed(padded(columns).as_slice())
}

/// Returns the columns of a code in a file with Doppler shifts, of which blanks at the end may be missing.
pub(crate) fn padded_with_doppler(columns: &[u8]) -> ArrayVec<u8, DOPPLER_COLUMNS>
    requires { length columns.now ≤ 64 }
    ensures value { result.items ≡ left 64 columns.now }
    ensures len { length result.items ≡ 64 }
{
    let blanks = [b' '; DOPPLER_COLUMNS];
    let mut whole = ArrayVec::new();
    append(&mut whole, columns);
    append(&mut whole, &blanks[..DOPPLER_COLUMNS - columns.len()]);
    whole
}

// Returns what the columns of a code show in a file with Doppler shifts, of which blanks at the end may be missing, or
// `None` exactly if nothing that a code can show there is written so.
fn shown_doppler_cell(columns: &[u8]) -> Option<Observed>
    requires { length columns.now ≤ 64 }
    ensures { MatchOption result
        ((o : Observed) → IsObservedWithDoppler o → left 64 columns.now ≢ observations_with_doppler o)
        (λ o. IsObservedWithDoppler o × (left 64 columns.now ≡ observations_with_doppler o)) }
{
    shown_with_doppler(padded_with_doppler(columns).as_slice())
}

/// Returns what the columns of a code show in a file with Doppler shifts or without them, of which blanks at the end may
/// be missing, or `None` exactly if nothing that a code can show there is written so.
#[inline(always)]
pub(crate) fn shown_cell_in(doppler: bool, columns: &[u8]) -> Option<Observed>
    requires { length columns.now ≤ code_width doppler }
    ensures { MatchOption result
        ((o : Observed) → IsObservedIn doppler o → left (code_width doppler) columns.now ≢ code_text doppler o)
        (λ o. IsObservedIn doppler o × (left (code_width doppler) columns.now ≡ code_text doppler o)) }
{
    if doppler {
        shown_doppler_cell(columns)
    } else {
        shown_cell(columns)
    }
}

// Returns whether these columns show what a code can show. Blanks at the end may be missing.
fn is_cell(columns: &[u8]) -> bool
    requires { length columns.now ≤ 48 }
    ensures { IsTrue result ↔ IsCell columns.now }
{
    shown_cell(columns).is_some()
}

// Returns whether these columns show `code_count` codes, one after another. Blanks at the end may
// be missing.
fn are_cells(columns: &[u8], code_count: usize) -> bool
    requires code_count { code_count ≤ 16 }
    requires few { length columns.now ≤ 48 * code_count }
    ensures { IsTrue result ↔ AreCells code_count columns.now }
{
    for k in 0..code_count {
        if !is_cell(columns_at(columns, CODE_COLUMNS * k, CODE_COLUMNS)) {
            return false;
        }
    }
    true
}

/// Returns whether this line, which has the form of a satellite line, is the line of a row of a
/// file with `code_count` codes.
pub(crate) fn is_row_line(line: &[u8], code_count: usize) -> bool
    requires code_count { code_count ≤ 16 }
    requires line { IsLine line.now }
    requires form { (s : ℕ) × IsSatelliteForm code_count line.now s }
    ensures { IsTrue result ↔ ((r : SatelliteRow) × IsTableRow code_count r × (line.now ≡ satellite_line r)) }
{
    // A line without columns after the satellite shows nothing; any other ends in no blank.
    if line.len() <= 4 {
        return false;
    }
    are_cells(&line[3..line.len() - 1], code_count)
}
