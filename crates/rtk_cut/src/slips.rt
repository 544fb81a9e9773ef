//! The marks of slips that are still to be shown: of each satellite 16, one for each place of a code,
//! whether its phase has slipped since it stood in a record on the step.
//!
//! A record off the step sets marks. A record on the step shows and clears the marks of its phases,
//! whether it is in the span or not.

ghost use Rattle.std.specs.Prelude.{◌≡◌, ℕ, ◌<◌, ◌≤◌, ◌||◌, ◌&&◌, ◌==◌, not, false, nat_lt, [], length, map, get_or, is_some, All, AllPairs};
ghost use Rattle.std.specs.List.{list_any};
ghost use Rattle.rtk_rinex.specs.Record.{IsSatelliteRow, HasWidth, no_observation};
ghost use Rattle.rtk_cut.specs.Cut.{code_at, with_slip};
ghost use Rattle.rtk_cut.specs.Steps.Pending.{mark_of, HasMarks, HaveMarks, MarksAt, MarksBecome, row_has_slip, row_has_phase, codes_with_marks, row_with_marks};

use rtk_rinex::{EpochTable, Observed, SatelliteRow};

// What a satellite shows of the code at this place.
fn code_at(row: &SatelliteRow, code: usize) -> Observed
    ensures { result ≡ code_at code row.now }
{
    row.observed
        .as_slice()
        .get(code)
        .copied()
        .unwrap_or_default()
}

fn mark(marks: &mut [bool], place: usize, has_slipped: bool)
    ensures size { length marks.new ≡ length marks.old }
    ensures marked { MarksAt marks.old marks.new (λ n. (has_slipped && (place == n)) || get_or marks.old n false) }
{
    if has_slipped && place < marks.len() {
        marks[place] = true;
    }
}

/// Marks the slips of a satellite.
pub(crate) fn note_row(marks: &mut [bool], row: &SatelliteRow)
    requires satellite { HasMarks marks.old row.now.satellite }
    ensures size { length marks.new ≡ length marks.old }
    ensures marks { MarksBecome marks.new (λ s c. row_has_slip s c row.now || mark_of marks.old s c) }
{
    let first = 16 * usize::from(row.satellite);
    for code in 0..row.observed.len() {
        mark(marks, first + code, code_at(row, code).slip);
    }
}

/// Marks the slips of satellites.
pub(crate) fn note_rows(marks: &mut [bool], rows: &[SatelliteRow])
    requires satellites { HaveMarks marks.old rows.now }
    ensures size { length marks.new ≡ length marks.old }
    ensures marks { MarksBecome marks.new (λ s c. list_any (row_has_slip s c) rows.now || mark_of marks.old s c) }
{
    for row in rows {
        note_row(marks, row);
    }
}

// Shows the slip that is marked at this place, if there is a phase, which clears the mark. Is it a
// slip that the observation itself does not have?
fn show_slip(marks: &mut [bool], place: usize, shown: &mut Observed) -> bool
    requires place { place < length marks.old }
    ensures shown { shown.new ≡ with_slip (shown.old.slip || get_or marks.old place false) shown.old }
    ensures size { length marks.new ≡ length marks.old }
    ensures marked { MarksAt marks.old marks.new
        (λ n. not (is_some shown.old.phase_millicycles && (place == n)) && get_or marks.old n false) }
    ensures same { result ≡ false → shown.new ≡ shown.old }
{
    if shown.phase_millicycles.is_none() {
        return false;
    }
    let had_slip = shown.slip;
    shown.slip = had_slip || marks[place];
    marks[place] = false;
    shown.slip != had_slip
}

/// Writes what the codes of a satellite show, with the slips that are marked. Is one a slip that the
/// satellite's own record does not have?
pub(crate) fn show_in_row(marks: &mut [bool], row: &SatelliteRow, shown: &mut [Observed]) -> bool
    requires satellite { HasMarks marks.old row.now.satellite }
    requires few { length shown.old ≤ 16 }
    ensures size { length marks.new ≡ length marks.old }
    ensures shown { shown.new ≡ codes_with_marks marks.old (length shown.old) row.now }
    ensures marks { MarksBecome marks.new (λ s c. not (row_has_phase s c row.now && nat_lt c (length shown.old)) && mark_of marks.old s c) }
    ensures same { result ≡ false → (c : ℕ) → c < length shown.old → get_or shown.new c no_observation ≡ code_at c row.now }
{
    let first = 16 * usize::from(row.satellite);
    let mut is_changed = false;
    for code in 0..shown.len() {
        shown[code] = code_at(row, code);
        let is_new = show_slip(marks, first + code, &mut shown[code]);
        is_changed = is_changed || is_new;
    }
    is_changed
}

/// Makes the rows of an epoch of GPS, with the slips that are marked. Is one a slip that the epoch itself
/// does not have?
pub(crate) fn show_in_rows(
    marks: &mut [bool],
    rows: &[SatelliteRow],
    code_count: usize,
    shown: &mut EpochTable,
) -> bool
    requires good { All IsSatelliteRow rows.now }
    requires rise { AllPairs (λ a b. a.satellite < b.satellite) rows.now }
    requires few { length rows.now ≤ 32 }
    requires satellites { HaveMarks marks.old rows.now }
    requires few_codes { code_count ≤ 16 }
    requires empty { shown.old.rows ≡ [] }
    ensures time { shown.new.time ≡ shown.old.time }
    ensures rows { shown.new.rows ≡ map (row_with_marks marks.old code_count) rows.now }
    ensures size { length marks.new ≡ length marks.old }
    ensures marks { MarksBecome marks.new (λ s c. not (list_any (row_has_phase s c) rows.now && nat_lt c code_count) && mark_of marks.old s c) }
    ensures same { result ≡ false → HasWidth code_count rows.now → shown.new.rows ≡ rows.now }
{
    // This is room alone: `show_in_row` writes each value before it is read.
    let mut codes = [Observed::default(); 16];
    let observed = &mut codes[..code_count];
    let mut is_changed = false;
    for row in rows {
        let is_row_changed = show_in_row(marks, row, observed);
        shown.push_row(row.satellite, observed);
        is_changed = is_changed || is_row_changed;
    }
    is_changed
}
