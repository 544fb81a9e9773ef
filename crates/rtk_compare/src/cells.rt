//! What two files show of a satellite and code at one epoch.

ghost use Rattle.std.specs.Prelude.{◌≡◌, ◌&&◌, ◌∷◌, not, pos, IsTrue, List};
ghost use Rattle.rtk_rinex.specs.declared.epoch_table.Observed.{Observed};
ghost use Rattle.rtk_compare.specs.Pairs.{Pair};
ghost use Rattle.rtk_compare.specs.Distances.{distances_of};
ghost use Rattle.rtk_compare.specs.Phases.{rolls_held};
ghost use Rattle.rtk_compare.specs.Cells.{is_gone, is_other_number, have_phases, gone_lines, value_lines, gone_slip_lines, slip_lines, half_lines, shift_lines, cell_lines};
ghost use Rattle.rtk_compare.specs.Differences.{Adds};
ghost use Rattle.rtk_compare.specs.Steps.Tracks.{IsTrackOf, pair, lines_if_told};

use crate::difference::{Class, Place, What};
use crate::distances::{Distances, widened};
use crate::findings::Findings;
use crate::track::{Track, rolls_of};
use rtk_rinex::Observed;

// Has the old file a value that the new one has not?
fn is_gone(old: Option<i64>, new: Option<i64>) -> bool
    ensures { result ≡ is_gone old new }
{
    old.is_some() && new.is_none()
}

// Adds the values that are gone.
fn put_gone(old: &Observed, new: &Observed, place: &Place, findings: &mut Findings)
    ensures { Adds findings.old findings.new (gone_lines (pair old.now new.now) place.now) }
{
    let range = is_gone(old.range_mm, new.range_mm);
    findings.push_if(range, Class::Lost, What::Range, place);
    let phase = is_gone(old.phase_millicycles, new.phase_millicycles);
    findings.push_if(phase, Class::Lost, What::Phase, place);
    let old_strength = widened(old.strength_millidbhz);
    let new_strength = widened(new.strength_millidbhz);
    let strength = is_gone(old_strength, new_strength);
    findings.push_if(strength, Class::Lost, What::Strength, place);
}

// Adds the values that have changed, or are finer.
fn put_values(distances: &Distances, place: &Place, findings: &mut Findings)
    ensures { Adds findings.old findings.new (value_lines distances.now place.now) }
{
    let range = distances.range_has_changed();
    findings.push_if(range, Class::Changed, What::Range, place);
    let phase = distances.phase_has_changed();
    findings.push_if(phase, Class::Changed, What::Phase, place);
    let strength = distances.strength_has_changed();
    findings.push_if(strength, Class::Changed, What::Strength, place);
    let is_finer = distances.is_finer();
    findings.push_if(is_finer, Class::Explained, What::Finer, place);
    let has_rolled = distances.has_rolled();
    findings.push_if(has_rolled, Class::Explained, What::Roll, place);
}

// Have both files the phase?
fn have_phases(old: &Observed, new: &Observed) -> bool
    ensures { result ≡ have_phases (pair old.now new.now) }
{
    old.phase_millicycles.is_some() && new.phase_millicycles.is_some()
}

// Is a mark gone of a phase that both files have?
fn mark_is_gone(have_phases: bool, old: bool, new: bool) -> bool
    ensures { result ≡ (have_phases && old && not new) }
{
    have_phases && old && !new
}

// Adds a slip that is gone.
fn put_gone_slip(track: &Track, is_gone: bool, place: &Place, findings: &mut Findings)
    ensures { (earlier : List (Pair Observed)) → IsTrackOf track.now earlier → Adds findings.old findings.new (gone_slip_lines earlier is_gone place.now) }
{
    let is_later = is_gone & track.had_phase;
    findings.push_if(is_later & !track.fills_gap, Class::Lost, What::Slip, place);
    findings.push_if(
        is_later & track.fills_gap,
        Class::Explained,
        What::FilledSlip,
        place,
    );
    findings.push_if(
        is_gone & !track.had_phase,
        Class::Explained,
        What::FirstSlip,
        place,
    );
}

// Adds a slip that is gone, or has come.
fn put_slips(track: &Track, old: &Observed, new: &Observed, place: &Place, findings: &mut Findings)
    ensures { (earlier : List (Pair Observed)) → IsTrackOf track.now earlier
        → Adds findings.old findings.new (slip_lines earlier (pair old.now new.now) place.now) }
{
    let have_phases = have_phases(old, new);
    let is_gone = mark_is_gone(have_phases, old.slip, new.slip);
    put_gone_slip(track, is_gone, place, findings);
    let is_new = mark_is_gone(have_phases, new.slip, old.slip);
    findings.push_if(is_new, Class::Explained, What::NewSlip, place);
}

// Adds a half cycle that is gone, or has come without a finer message.
fn put_halves(
    distances: &Distances,
    old: &Observed,
    new: &Observed,
    place: &Place,
    findings: &mut Findings,
)
    ensures { Adds findings.old findings.new (half_lines distances.now (pair old.now new.now) place.now) }
{
    let have_phases = have_phases(old, new);
    let is_gone = mark_is_gone(have_phases, old.half, new.half);
    findings.push_if(is_gone, Class::Lost, What::HalfCycle, place);
    let has_come = mark_is_gone(have_phases, new.half, old.half);
    let is_finer = distances.is_finer();
    findings.push_if(has_come & !is_finer, Class::Changed, What::HalfCycle, place);
}

// Have both files a Doppler shift, but not the same?
fn is_other_number(old: Option<i64>, new: Option<i64>) -> bool
    ensures { result ≡ is_other_number old new }
{
    match (old, new) {
        (Some(old), Some(new)) => old != new,
        _ => false,
    }
}

// Adds a Doppler shift that is gone, if both files show them, or has changed.
fn put_shifts(shifts: bool, old: &Observed, new: &Observed, place: &Place, findings: &mut Findings)
    ensures { Adds findings.old findings.new (shift_lines shifts (pair old.now new.now) place.now) }
{
    let is_gone = is_gone(old.doppler_millihertz, new.doppler_millihertz);
    findings.push_if(shifts & is_gone, Class::Lost, What::Doppler, place);
    let has_changed = is_other_number(old.doppler_millihertz, new.doppler_millihertz);
    findings.push_if(has_changed, Class::Changed, What::Doppler, place);
}

// Adds the differences of a cell.
fn put_cell(
    track: &Track,
    distances: &Distances,
    shifts: bool,
    old: &Observed,
    new: &Observed,
    place: &Place,
    findings: &mut Findings,
)
    ensures { (earlier : List (Pair Observed)) → IsTrackOf track.now earlier → distances.now ≡ distances_of earlier (pair old.now new.now)
        → Adds findings.old findings.new (cell_lines shifts earlier (pair old.now new.now) place.now) }
{
    put_gone(old, new, place, findings);
    put_values(distances, place, findings);
    put_slips(track, old, new, place, findings);
    put_halves(distances, old, new, place, findings);
    put_shifts(shifts, old, new, place, findings);
}

// Adds the differences of a cell, if there is a place to tell them at.
fn tell_cell(
    track: &Track,
    distances: &Distances,
    shifts: bool,
    old: &Observed,
    new: &Observed,
    place: &Option<Place>,
    findings: &mut Findings,
)
    ensures { (earlier : List (Pair Observed)) → IsTrackOf track.now earlier → distances.now ≡ distances_of earlier (pair old.now new.now)
        → Adds findings.old findings.new (lines_if_told shifts place.now earlier (pair old.now new.now)) }
{
    if let Some(place) = place {
        put_cell(track, distances, shifts, old, new, place, findings);
    }
}

/// Adds the differences of a cell, if there is a place to tell them at, and notes the cell. Both files show Doppler
/// shifts, or not.
pub(crate) fn compare_cell(
    track: &mut Track,
    shifts: bool,
    old: &Observed,
    new: &Observed,
    place: &Option<Place>,
    findings: &mut Findings,
)
    ensures lines { (earlier : List (Pair Observed)) → IsTrackOf track.old earlier
        → Adds findings.old findings.new (lines_if_told shifts place.now earlier (pair old.now new.now)) }
    ensures track { (earlier : List (Pair Observed)) → IsTrackOf track.old earlier → IsTrackOf track.new (pair old.now new.now ∷ earlier) }
{
    let rolls = rolls_of(old.phase_millicycles, new.phase_millicycles);
    let held = track.rolls_held(old, new, rolls);
    let distances = Distances::of(old, new, rolls, held);
    tell_cell(track, &distances, shifts, old, new, place, findings);
    track.note(old, new, held);
}

// Are all values and marks the same?
fn is_same(old: &Observed, new: &Observed) -> bool
    ensures { IsTrue result → old.now ≡ new.now }
{
    old == new
}

/// Do both files show the same, after phases that do not differ by rolls? Then nothing is told of the cell.
pub(crate) fn shows_same(track: &Track, old: &Observed, new: &Observed) -> bool
    ensures same { IsTrue result → old.now ≡ new.now }
    ensures rolls { (earlier : List (Pair Observed)) → IsTrackOf track.now earlier → IsTrue result → rolls_held earlier ≡ pos 0 }
{
    track.rolls == 0 && is_same(old, new)
}
