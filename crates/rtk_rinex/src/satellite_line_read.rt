//! The row that the line of a satellite shows.

ghost use Rattle.std.specs.Prelude.{◌≡◌, ℕ, ◌*◌, ◌≤◌, length, All, flat_map};
ghost use Rattle.rtk_rinex.specs.Columns.{left};
ghost use Rattle.rtk_rinex.specs.Lines.{IsLine};
ghost use Rattle.rtk_rinex.specs.Record.{observations, observations_with_doppler, code_text, code_width, satellite_line};
ghost use Rattle.rtk_rinex.specs.Table.{IsObserved, IsObservedWithDoppler, IsObservedIn, IsTableRow};
ghost use Rattle.rtk_rinex.specs.Steps.CheckValues.{AreCells};
ghost use Rattle.rtk_rinex.specs.Steps.MixedReadRecords.{AreCodes};
ghost use Rattle.rtk_rinex.specs.declared.epoch_table.Observed.{Observed};
ghost use Rattle.rtk_rinex.specs.declared.epoch_table.SatelliteRow.{SatelliteRow};

use crate::columns::{CODE_COLUMNS, code_columns};
use crate::digits::columns_at;
use crate::epoch_table::{Observed, SatelliteRow};
use crate::records_check::satellite_of_form;
use crate::satellite_line_check::{padded, padded_with_doppler};
use crate::value_read::{read_observed, read_with_doppler};
use arrayvec::ArrayVec;

// The columns up to the end of a strength, after which a code has two blanks.
const STRENGTH_END: usize = 46;

const STRENGTH_END_WITH_DOPPLER: usize = 62;

// Reads what the columns of a code show, of which blanks at the end may be missing.
fn read_cell(columns: &[u8]) -> Observed
    requires { length columns.now ≤ 48 }
    ensures { (o : Observed) → IsObserved o → left 48 columns.now ≡ observations o → result ≡ o }
{
    if columns.len() >= STRENGTH_END {
        return read_observed(columns);
    }
    read_observed(padded(columns).as_slice())
}

// Reads what the columns of a code show in a file with Doppler shifts, of which blanks at the end may be missing.
fn read_doppler_cell(columns: &[u8]) -> Observed
    requires { length columns.now ≤ 64 }
    ensures { (o : Observed) → IsObservedWithDoppler o → left 64 columns.now ≡ observations_with_doppler o → result ≡ o }
{
    if columns.len() >= STRENGTH_END_WITH_DOPPLER {
        return read_with_doppler(columns);
    }
    read_with_doppler(padded_with_doppler(columns).as_slice())
}

// Reads what the columns of a code show in a file with Doppler shifts or without them, of which blanks at the end may be
// missing. They are known to show something, so nothing is tested.
#[inline(always)]
fn read_cell_in(doppler: bool, columns: &[u8]) -> Observed
    requires few { length columns.now ≤ code_width doppler }
    requires cell { ∥ ((o : Observed) × IsObservedIn doppler o × (left (code_width doppler) columns.now ≡ code_text doppler o)) ∥₁ }
    ensures observed { IsObservedIn doppler result }
    ensures text { left (code_width doppler) columns.now ≡ code_text doppler result }
{
    if doppler {
        read_doppler_cell(columns)
    } else {
        read_cell(columns)
    }
}

/// Reads what `code_count` codes show in their columns, one after another. Blanks at the end may be missing.
// It is inlined, since each row of a file calls it.
#[inline(always)]
pub(crate) fn read_cells(columns: &[u8], code_count: usize, observed: &mut ArrayVec<Observed, 16>)
    requires code_count { code_count ≤ 16 }
    requires few { length columns.now ≤ 48 * code_count }
    requires cells { ∥ AreCells code_count columns.now ∥₁ }
    ensures observed { All IsObserved observed.new.items }
    ensures code_count { length observed.new.items ≡ code_count }
    ensures text { left (48 * code_count) columns.now ≡ flat_map observations observed.new.items }
{
    observed.clear();
    for k in 0..code_count {
        let cell = columns_at(columns, CODE_COLUMNS * k, CODE_COLUMNS);
        observed.push(read_cell_in(false, cell));
    }
}

/// Reads what `code_count` codes show in their columns, one after another, in a file with Doppler shifts or without them.
/// Blanks at the end may be missing.
// It is inlined, since each row of a file calls it.
#[inline(always)]
pub(crate) fn read_cells_in(
    doppler: bool,
    columns: &[u8],
    code_count: usize,
    observed: &mut ArrayVec<Observed, 16>,
)
    requires code_count { code_count ≤ 16 }
    requires few { length columns.now ≤ code_width doppler * code_count }
    requires cells { ∥ AreCodes doppler code_count columns.now ∥₁ }
    ensures observed { All (IsObservedIn doppler) observed.new.items }
    ensures code_count { length observed.new.items ≡ code_count }
    ensures text { left (code_width doppler * code_count) columns.now ≡ flat_map (code_text doppler) observed.new.items }
{
    let width = code_columns(doppler);
    observed.clear();
    for k in 0..code_count {
        let at = width * k;
        observed.push(read_cell_in(doppler, columns_at(columns, at, width)));
    }
}

/// Reads the row whose line this is, in a file of `code_count` codes.
pub(crate) fn read_row(line: &[u8], code_count: usize, row: &mut SatelliteRow)
    requires code_count { code_count ≤ 16 }
    requires line { IsLine line.now }
    requires some { ∥ ((r : SatelliteRow) × IsTableRow code_count r × (line.now ≡ satellite_line r)) ∥₁ }
    ensures row { IsTableRow code_count row.new }
    ensures text { line.now ≡ satellite_line row.new }
{
    let Some(satellite) = satellite_of_form(line, code_count) else {
        unreachable!();
    };
    row.satellite = satellite;
    read_cells(&line[3..line.len() - 1], code_count, &mut row.observed);
}
