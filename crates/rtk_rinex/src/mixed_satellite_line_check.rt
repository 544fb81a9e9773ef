//! The line of a satellite of any system, told by its form.

ghost use Rattle.std.specs.Prelude.{◌≡◌, ◌≢◌, ℕ, ◌*◌, ◌≤◌, length, IsTrue, ◌↔◌, Decides, MatchOption};
ghost use Rattle.rtk_rinex.specs.Columns.{left};
ghost use Rattle.rtk_rinex.specs.Lines.{IsLine};
ghost use Rattle.rtk_rinex.specs.Record.{code_width};
ghost use Rattle.rtk_rinex.specs.MixedRecord.{mixed_satellite_line};
ghost use Rattle.rtk_rinex.specs.MixedTable.{IsMixedRow, HasNoPhase};
ghost use Rattle.rtk_rinex.specs.MixedCheckLine.{IsMixedForm};
ghost use Rattle.rtk_rinex.specs.Steps.MixedReadRecords.{IsMixedCell, AreMixedCells};
ghost use Rattle.rtk_rinex.specs.declared.epoch_table.SatelliteRow.{SatelliteRow};

use crate::columns::code_columns;
use crate::digits::{columns_at, front};
use crate::epoch_table::Observed;
use crate::mixed_form::RecordForm;
use crate::satellite_line_check::shown_cell_in;
use rtk_obs::{SatelliteIndex, satellite_named};

/// Returns the satellite of a line that has the form of a satellite line.
pub(crate) fn satellite_of_mixed_form(line: &[u8], form: &RecordForm) -> Option<SatelliteIndex>
    ensures { MatchOption result
        ((s : ℕ) → ¬ (IsMixedForm form.now line.now s))
        (λ s. IsMixedForm form.now line.now s) }
{
    let satellite = satellite_named(front(line, 3))?;
    let codes = form.width(satellite);
    let most = code_columns(form.has_doppler()) * codes;
    if codes == 0 || line.len() > 4 + most {
        return None;
    }
    if line[line.len() - 2] == b' ' {
        return None;
    }
    Some(satellite)
}

// Returns whether a code shows no phase, and no Doppler shift.
fn has_no_phase(observed: &Observed) -> bool
    ensures { Decides result (HasNoPhase observed.now) }
{
    observed.phase_millicycles.is_none() && observed.doppler_millihertz.is_none()
}

// Returns whether these columns show what a code can show, with Doppler shifts or without them, and without a phase if
// there are none. Blanks at the end may be missing.
fn is_mixed_cell(columns: &[u8], doppler: bool, phases: bool) -> bool
    requires { length columns.now ≤ code_width doppler }
    ensures { IsTrue result ↔ IsMixedCell doppler phases columns.now }
{
    match shown_cell_in(doppler, columns) {
        Some(shown) => phases || has_no_phase(&shown),
        None => false,
    }
}

// Returns whether these columns show `code_count` codes, one after another. Blanks at the end may be
// missing.
fn are_mixed_cells(columns: &[u8], code_count: usize, doppler: bool, phases: bool) -> bool
    requires code_count { code_count ≤ 16 }
    requires few { length columns.now ≤ code_width doppler * code_count }
    ensures { IsTrue result ↔ AreMixedCells doppler phases code_count columns.now }
{
    let width = code_columns(doppler);
    for k in 0..code_count {
        let at = width * k;
        if !is_mixed_cell(columns_at(columns, at, width), doppler, phases) {
            return false;
        }
    }
    true
}

/// Returns whether this line, which has the form of the line of this satellite, is the line of a row.
pub(crate) fn is_mixed_row_line(line: &[u8], form: &RecordForm, satellite: SatelliteIndex) -> bool
    requires line { IsLine line.now }
    requires form { IsMixedForm form.now line.now satellite }
    ensures { IsTrue result ↔ ((r : SatelliteRow) × IsMixedRow form.now r × (line.now ≡ mixed_satellite_line form.now.doppler r)) }
{
    // A line without columns after the satellite shows nothing; any other ends in no blank.
    if line.len() <= 4 {
        return false;
    }
    let codes = form.width(satellite);
    let phases = form.has_phases(satellite);
    are_mixed_cells(&line[3..line.len() - 1], codes, form.has_doppler(), phases)
}
