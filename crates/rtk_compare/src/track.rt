//! What is remembered of a satellite and code: what says why a slip is gone, and by which rolls the phases differ.

ghost use Rattle.std.specs.Prelude.{◌≡◌, ◌<◌, ◌^◌, pos, if◌then◌else◌, List, [], ◌∷◌};
ghost use Rattle.rtk_compare.specs.Pairs.{Pair};
ghost use Rattle.rtk_compare.specs.Phases.{nearest_rolls, beside_rolls, rolls_from, rolls_of_phases, rolls_or_none, rolls_kept, begins_anew, rolls_held};
ghost use Rattle.rtk_compare.specs.Steps.Tracks.{IsTrackOf, pair};
ghost use Rattle.rtk_rinex.specs.declared.epoch_table.Observed.{Observed};

use rtk_rinex::Observed;

// constant
/// A roll of the phase of a 1004, in thousandths of a cycle.
const ROLL: u64 = 1_500_000;

/// What is remembered of a satellite and code.
#[derive(Clone, Copy, Debug)]
pub(crate) struct Track {
    /// The old file has an earlier phase.
    pub(crate) had_phase: bool,
    /// The new file has a phase after the last one of the old file.
    pub(crate) fills_gap: bool,
    /// The rolls by which the phases differ; 0 until they do.
    pub(crate) rolls: i64,
}

// Returns the number of rolls that is nearest to a distance.
fn nearest_rolls(distance: u64) -> u64
    ensures value { result ≡ nearest_rolls distance }
    ensures bound { result < 2 ^ 63 }
{
    if distance <= ROLL / 2 {
        return 0;
    }
    let whole = distance / ROLL;
    if distance % ROLL > ROLL / 2 {
        whole + 1
    } else {
        whole
    }
}

/// Returns what is left of a distance beside the nearest number of rolls.
pub(crate) fn beside_rolls(distance: u64) -> u64
    ensures { result ≡ beside_rolls distance }
{
    if distance <= ROLL / 2 {
        return distance;
    }
    let part = distance % ROLL;
    part.min(ROLL - part)
}

// Returns the whole rolls that are nearest to the way from one phase to another.
fn rolls_from(old: i64, new: i64) -> i64
    ensures { result ≡ rolls_from old new }
{
    let rolls = nearest_rolls(old.abs_diff(new)) as i64;
    if new < old { -rolls } else { rolls }
}

/// Returns the rolls from the phase of the old file to that of the new one, if both have one.
pub(crate) fn rolls_of(old: Option<i64>, new: Option<i64>) -> Option<i64>
    ensures { result ≡ rolls_of_phases old new }
{
    match (old, new) {
        (Some(old), Some(new)) => Some(rolls_from(old, new)),
        _ => None,
    }
}

// Returns these rolls, or none.
fn rolls_or_none(rolls: Option<i64>) -> i64
    ensures { result ≡ rolls_or_none rolls }
{
    match rolls {
        Some(rolls) => rolls,
        None => 0,
    }
}

// Returns the rolls that were held, unless they begin anew.
fn rolls_before(begins_anew: bool, held: i64) -> i64
    ensures { result ≡ (if begins_anew then pos 0 else held) }
{
    if begins_anew { 0 } else { held }
}

// Returns the rolls that were held, or those that begin if none were.
fn rolls_kept(held: i64, rolls: i64) -> i64
    ensures { result ≡ rolls_kept held rolls }
{
    if held == 0 { rolls } else { held }
}

impl Track {
    /// Nothing came before.
    pub(crate) fn none() -> Track
        ensures { IsTrackOf result [] }
    {
        Track {
            had_phase: false,
            fills_gap: false,
            rolls: 0,
        }
    }

    // Can the rolls begin anew with these cells?
    fn begins_anew(&self, old: &Observed, new: &Observed) -> bool
        ensures { (earlier : List (Pair Observed)) → IsTrackOf self.now earlier → result ≡ begins_anew earlier (pair old.now new.now) }
    {
        let has_old = old.phase_millicycles.is_some();
        old.slip | new.slip | (has_old & self.fills_gap)
    }

    /// Returns the rolls that are held with these cells, of which these are the rolls.
    pub(crate) fn rolls_held(&self, old: &Observed, new: &Observed, rolls: Option<i64>) -> i64
        requires { rolls ≡ rolls_of_phases old.now.phase_millicycles new.now.phase_millicycles }
        ensures { (earlier : List (Pair Observed)) → IsTrackOf self.now earlier → result ≡ rolls_held (pair old.now new.now ∷ earlier) }
    {
        let begins_anew = self.begins_anew(old, new);
        let before = rolls_before(begins_anew, self.rolls);
        let here = rolls_or_none(rolls);
        rolls_kept(before, here)
    }

    /// Notes what both files show, with which these rolls are held.
    pub(crate) fn note(&mut self, old: &Observed, new: &Observed, held: i64)
        ensures { (earlier : List (Pair Observed)) → IsTrackOf self.old earlier → held ≡ rolls_held (pair old.now new.now ∷ earlier)
            → IsTrackOf self.new (pair old.now new.now ∷ earlier) }
    {
        let has_old = old.phase_millicycles.is_some();
        let has_new = new.phase_millicycles.is_some();
        self.fills_gap = !has_old & (has_new | self.fills_gap);
        self.had_phase = has_old | self.had_phase;
        self.rolls = held;
    }
}
