//! How far the values of a cell are apart in two files.

ghost use Rattle.std.specs.Prelude.{◌≡◌, ◌∷◌, List};
ghost use Rattle.rtk_rinex.specs.declared.epoch_table.Observed.{Observed};
ghost use Rattle.rtk_compare.specs.Pairs.{Pair};
ghost use Rattle.rtk_compare.specs.Phases.{rolls_of, rolls_held};
ghost use Rattle.rtk_compare.specs.Distances.{apart, strength_value, ranges_apart, strengths_apart, phases_apart, are_due, are_some, distances_of, is_near, differs, range_has_changed, phase_has_changed, strength_has_changed, is_finer, has_rolled};
ghost use Rattle.rtk_compare.specs.Steps.Tracks.{pair};

use crate::track::beside_rolls;
use rtk_rinex::Observed;

// constant
/// How near the values of a 1004 and of an MSM are: in mm, thousandths of a cycle, and thousandths of a dB-Hz.
const NEAR_MM: u64 = 20;

const NEAR_MILLICYCLES: u64 = 10;

const NEAR_MILLIDBHZ: u64 = 1_000;

/// How far the values of a cell are apart.
#[derive(Clone, Copy)]
pub(crate) struct Distances {
    pub(crate) range: u64,
    /// Beside whole rolls.
    pub(crate) phase: u64,
    pub(crate) strength: u64,
    /// The rolls of the phase.
    pub(crate) rolls: Option<i64>,
    pub(crate) are_due: bool,
}

// Returns how far two values are apart, if both are there.
fn apart(old: Option<i64>, new: Option<i64>) -> u64
    ensures { result ≡ apart old new }
{
    match (old, new) {
        (Some(old), Some(new)) => old.abs_diff(new),
        _ => 0,
    }
}

/// Returns the same value in 64 bits.
pub(crate) fn widened(value: Option<u32>) -> Option<i64>
    ensures { result ≡ strength_value value }
{
    match value {
        Some(value) => Some(i64::from(value)),
        None => None,
    }
}

fn ranges_apart(old: &Observed, new: &Observed) -> u64
    ensures { result ≡ ranges_apart (pair old.now new.now) }
{
    apart(old.range_mm, new.range_mm)
}

fn phases_apart(old: &Observed, new: &Observed) -> u64
    ensures { result ≡ phases_apart (pair old.now new.now) }
{
    beside_rolls(apart(old.phase_millicycles, new.phase_millicycles))
}

fn strengths_apart(old: &Observed, new: &Observed) -> u64
    ensures { result ≡ strengths_apart (pair old.now new.now) }
{
    apart(
        widened(old.strength_millidbhz),
        widened(new.strength_millidbhz),
    )
}

// Are the rolls those that are held, or is a phase missing?
fn are_due(rolls: Option<i64>, held: i64) -> bool
    ensures { result ≡ are_due rolls held }
{
    match rolls {
        Some(rolls) => rolls == held,
        None => true,
    }
}

// Are there some rolls?
fn are_some(rolls: Option<i64>) -> bool
    ensures { result ≡ are_some rolls }
{
    match rolls {
        Some(rolls) => rolls != 0,
        None => false,
    }
}

impl Distances {
    /// Compares the values of a cell.
    pub(crate) fn of(old: &Observed, new: &Observed, rolls: Option<i64>, held: i64) -> Distances
        requires { rolls ≡ rolls_of (pair old.now new.now) }
        ensures { (earlier : List (Pair Observed)) → held ≡ rolls_held (pair old.now new.now ∷ earlier)
            → result ≡ distances_of earlier (pair old.now new.now) }
    {
        let range = ranges_apart(old, new);
        let phase = phases_apart(old, new);
        let strength = strengths_apart(old, new);
        let are_due = are_due(rolls, held);
        Distances {
            range,
            phase,
            strength,
            rolls,
            are_due,
        }
    }

    // Are all values as near as those of a 1004 and of an MSM?
    fn is_near(&self) -> bool
        ensures { result ≡ is_near self.now }
    {
        self.range <= NEAR_MM
            && self.strength <= NEAR_MILLIDBHZ
            && self.are_due
            && self.phase <= NEAR_MILLICYCLES
    }

    // Does a value differ, but for rolls?
    fn differs(&self) -> bool
        ensures { result ≡ differs self.now }
    {
        0 < self.range || 0 < self.strength || 0 < self.phase
    }

    /// Has the range changed?
    pub(crate) fn range_has_changed(&self) -> bool
        ensures { result ≡ range_has_changed self.now }
    {
        !self.is_near() && 0 < self.range
    }

    /// Has the strength changed?
    pub(crate) fn strength_has_changed(&self) -> bool
        ensures { result ≡ strength_has_changed self.now }
    {
        !self.is_near() && 0 < self.strength
    }

    /// Has the phase changed?
    pub(crate) fn phase_has_changed(&self) -> bool
        ensures { result ≡ phase_has_changed self.now }
    {
        !self.is_near() && (!self.are_due || 0 < self.phase)
    }

    /// Does a finer message give the cell?
    pub(crate) fn is_finer(&self) -> bool
        ensures { result ≡ is_finer self.now }
    {
        self.is_near() && self.differs()
    }

    /// Has the phase rolled, and not changed?
    pub(crate) fn has_rolled(&self) -> bool
        ensures { result ≡ has_rolled self.now }
    {
        are_some(self.rolls) && !self.phase_has_changed()
    }
}
