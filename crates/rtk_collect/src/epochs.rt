//! The epochs of a collector, from the greatest to the least.

ghost use Rattle.rtk_collect.specs.Gps.{gps};
ghost use Rattle.rtk_obs.specs.declared.cell.CellEntry.{CellEntry};
ghost use Rattle.std.specs.Prelude.{◌≡◌, ◌≢◌, ◌<◌, ◌≤◌, [], not, IsTrue, length, IfOk, OnErr, OnOk, All, slice_index_or, slice_set};
ghost use Rattle.rtk_obs.specs.Cell.{IsInRange};
ghost use Rattle.rtk_collect.specs.Key.{KeysRise};
ghost use Rattle.rtk_collect.specs.EpochSet.{EpochSetView, joined, fresh, conflicts, EpochsFall};
ghost use Rattle.rtk_collect.specs.Offered.{outcome_of, listed_by};
ghost use Rattle.rtk_collect.specs.Steps.OrderedPlaces.{leading};
ghost use Rattle.rtk_collect.specs.Steps.Observed.{AddsCells, WouldTakeCells};

use crate::conflicts::Conflicts;
use crate::epoch_set::EpochSet;
use crate::offer::Offer;
use crate::window::{answer_of_joined, close_least, put_at};
use rtk_obs::{CellEntry, GpsMs};
use std::alloc::{AllocError, Global};
use std::collections::VecDeque;

// Returns the place of an epoch, which is how many epochs are greater.
fn place_among(sets: &VecDeque<EpochSet>, epoch: GpsMs) -> usize
    requires { EpochsFall sets.now.items }
    ensures { result ≡ leading epoch sets.now.items }
{
    sets.partition_point(|set| set.epoch > epoch)
}

// Returns whether this epoch is open at its place.
fn is_open(sets: &VecDeque<EpochSet>, at: usize, epoch: GpsMs) -> bool
    requires place { at ≡ leading epoch sets.now.items }
    ensures found { IsTrue result → (at < length sets.now.items)
        × ((d : EpochSetView CellEntry) → (slice_index_or sets.now.items at d).epoch ≡ epoch) }
    ensures absent { IsTrue (not result) → (at < length sets.now.items)
        → ((d : EpochSetView CellEntry) → (slice_index_or sets.now.items at d).epoch ≢ epoch) }
{
    match sets.get(at) {
        Some(set) => set.epoch == epoch,
        None => false,
    }
}

// Joins cells to the epoch at a place, as `EpochSet::join` does. If memory is refused, no epoch changes.
fn join_at(
    sets: &mut VecDeque<EpochSet>,
    at: usize,
    cells: &[CellEntry],
    rises: bool,
    found: &mut Conflicts,
) -> Result<usize, AllocError>
    requires within { at < length sets.old.items }
    requires few { length cells.now ≤ 64 }
    requires range { All IsInRange cells.now }
    requires rising { IsTrue rises → KeysRise gps cells.now }
    requires empty { found.old ≡ [] }
    ensures items { (d : EpochSetView CellEntry) → OnOk result (sets.new.items
        ≡ slice_set sets.old.items at (joined gps cells.now (slice_index_or sets.old.items at d))) }
    ensures fresh { (d : EpochSetView CellEntry) → IfOk result (λ n. n ≡ fresh gps cells.now (slice_index_or sets.old.items at d).cells) }
    ensures conflicts { (d : EpochSetView CellEntry) → OnOk result (found.new ≡ conflicts gps cells.now (slice_index_or sets.old.items at d).cells) }
    ensures err { OnErr result (sets.new.items ≡ sets.old.items) }
    ensures refused { (d : EpochSetView CellEntry) → OnErr result (0 < fresh gps cells.now (slice_index_or sets.old.items at d).cells) }
{
    let set = &mut sets[at];
    set.join(cells, rises, found)
}

/// Takes the new cells of an epoch, or opens it, in a window that has this number of places. If `rises`,
/// the keys of the cells rise. All memory is taken before an epoch changes.
pub(crate) fn join_epochs(
    sets: &mut VecDeque<EpochSet>,
    places: usize,
    alloc: Global,
    epoch: GpsMs,
    cells: &[CellEntry],
    rises: bool,
) -> Result<Offer, AllocError>
    requires fits { length sets.old.items ≤ places }
    requires falls { EpochsFall sets.old.items }
    requires few { length cells.now ≤ 64 }
    requires range { All IsInRange cells.now }
    requires rising { IsTrue rises → KeysRise gps cells.now }
    ensures added { IfOk result (λ offer. AddsCells gps places epoch cells.now sets.old.items sets.new.items (outcome_of offer) (listed_by offer)) }
    ensures err { OnErr result (sets.new.items ≡ sets.old.items) }
    ensures refused { OnErr result (WouldTakeCells gps places epoch cells.now sets.old.items) }
{
    let at = place_among(sets, epoch);
    let mut conflicts = Conflicts::new();
    if is_open(sets, at, epoch) {
        let fresh = join_at(sets, at, cells, rises, &mut conflicts)?;
        let outcome = answer_of_joined(fresh, &conflicts);
        return Ok(Offer::new(outcome, conflicts));
    }
    if at == places {
        return Ok(Offer::Late);
    }
    let set = EpochSet::open(alloc, epoch, cells, rises, &mut conflicts)?;
    put_at(sets, at, set)?;
    let closed = close_least(sets, places);
    Ok(Offer::Taken { closed, conflicts })
}
