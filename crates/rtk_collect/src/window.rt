//! The epochs of a window, from the greatest to the least.
//!
//! The greatest epoch is looked at first, and the others by halves. A new epoch goes in at or near
//! the front and the least one goes out at the back, so usually nothing is moved. If no epoch of a
//! full window is below a bound, then the epoch that closes is not below it; so the epochs that go
//! out rise, and callers need no history for that.

ghost use Rattle.std.specs.Prelude.{◌≡◌, ◌≢◌, ◌<◌, ◌≤◌, ◌+◌, ◌++◌, [], not, min, IsTrue, length, IfNone, IfOk, OnErr, OnOk, All, slice_index_or, slice_set, option_to_list};
ghost use Rattle.std.specs.List.{insert};
ghost use Rattle.rtk_collect.specs.Key.{KeysRise};
ghost use Rattle.rtk_collect.specs.EpochSet.{EpochSetView, joined, fresh, conflicts, EpochsFall, AreOfOneSource};
ghost use Rattle.rtk_collect.specs.Accepted.{no_cells};
ghost use Rattle.rtk_collect.specs.Steps.OrderedPlaces.{leading};
ghost use Rattle.rtk_collect.specs.Steps.Room.{room_for, AreSpare};
ghost use Rattle.rtk_collect.specs.Steps.Observed.{IsAnswerOf, AddsCells, WouldTakeCells};

use crate::conflicts::Conflicts;
use crate::entry::Entry;
use crate::gathered_set::{GatheredSet, Room, Spare};
use crate::legacy_list::LegacyRoom;
use crate::merging::source_of;
use crate::outcome::Outcome;
use rtk_obs::{CellSource, GpsMs};
use std::alloc::{AllocError, Global};
use std::collections::VecDeque;

/// Returns the place of an epoch in the window, which is how many of the window's epochs are
/// greater.
pub(crate) fn place_of_epoch<E: Entry>(sets: &VecDeque<GatheredSet<E>>, epoch: GpsMs) -> usize
    requires { EpochsFall sets.now.items }
    ensures { result ≡ leading epoch sets.now.items }
{
    // The common case: a message of the greatest epoch, or of one after it.
    if sets.len() > 0 && sets[0].epoch() <= epoch {
        return 0;
    }
    let mut low = 0;
    let mut high = sets.len();
    while low < high {
        let middle = low + (high - low) / 2;
        if sets[middle].epoch() > epoch {
            low = middle + 1;
        } else {
            high = middle;
        }
    }
    low
}

/// Returns whether the window has this epoch, whose place is `at`.
pub(crate) fn has_epoch<E: Entry>(sets: &VecDeque<GatheredSet<E>>, at: usize, epoch: GpsMs) -> bool
    requires place { at ≡ leading epoch sets.now.items }
    ensures found { IsTrue result → (at < length sets.now.items)
        × ((d : EpochSetView E) → (slice_index_or sets.now.items at d).epoch ≡ epoch) }
    ensures absent { IsTrue (not result) → (at < length sets.now.items)
        → ((d : EpochSetView E) → (slice_index_or sets.now.items at d).epoch ≢ epoch) }
{
    at < sets.len() && sets[at].epoch() == epoch
}

/// Joins cells to the epoch at a place, and says how many are new. Those that conflict are added to
/// an empty list. If `rises`, the keys of the cells rise. If memory is refused, no epoch changes.
pub(crate) fn join_at<E: Entry>(
    sets: &mut VecDeque<GatheredSet<E>>,
    at: usize,
    cells: &[E],
    rises: bool,
    found: &mut Conflicts<E::Signal>,
) -> Result<usize, AllocError>
    requires within { at < length sets.old.items }
    requires few { length cells.now ≤ 64 }
    requires range { All E.InRange cells.now }
    requires kind { AreOfOneSource E.entries cells.now }
    requires rising { IsTrue rises → KeysRise E.entries cells.now }
    requires empty { found.old ≡ [] }
    ensures items { (d : EpochSetView E) → IfOk result (λ n. sets.new.items
        ≡ slice_set sets.old.items at (joined E.entries cells.now (slice_index_or sets.old.items at d))) }
    ensures fresh { (d : EpochSetView E) → IfOk result (λ n. n ≡ fresh E.entries cells.now (slice_index_or sets.old.items at d).cells) }
    ensures conflicts { (d : EpochSetView E) → IfOk result (λ n. found.new ≡ conflicts E.entries cells.now (slice_index_or sets.old.items at d).cells) }
    ensures err { OnErr result (sets.new.items ≡ sets.old.items) }
    ensures refused { (d : EpochSetView E) → OnErr result (0 < fresh E.entries cells.now (slice_index_or sets.old.items at d).cells) }
{
    let set = &mut sets[at];
    set.join(cells, rises, found)
}

// Returns for how many cells of each kind an epoch that opens at a place has room: for those of its
// first message, and for as many as the epoch before it has, since messages of each epoch mostly
// have the same cells.
#[inline(always)]
pub(crate) fn first_room<E: Entry>(
    sets: &VecDeque<GatheredSet<E>>,
    at: usize,
    source: CellSource,
    cells: usize,
) -> Room
    ensures { cells ≤ room_for source result }
{
    let mut msm = 0;
    let mut legacy = LegacyRoom {
        satellites: 0,
        cells: 0,
    };
    if at < sets.len() {
        let before = &sets[at];
        msm = before.msm_cells().len();
        legacy = before.legacy_room();
    }
    match source {
        CellSource::Msm => Room {
            msm: msm.max(cells),
            legacy,
        },
        CellSource::Legacy => Room {
            msm,
            legacy: LegacyRoom {
                satellites: legacy.satellites,
                cells: legacy.cells.max(cells),
            },
        },
    }
}

/// Opens an epoch with cells at its place, in the spare lists if it can. Those that conflict with
/// one another are added to an empty list. If `rises`, the keys of the cells rise. All memory is
/// taken before an epoch changes.
pub(crate) fn open_at<E: Entry>(
    sets: &mut VecDeque<GatheredSet<E>>,
    at: usize,
    alloc: Global,
    epoch: GpsMs,
    cells: &[E],
    rises: bool,
    spare: &mut Spare<E>,
    found: &mut Conflicts<E::Signal>,
) -> Result<(), AllocError>
    requires within { at ≤ length sets.old.items }
    requires few { length cells.now ≤ 64 }
    requires range { All E.InRange cells.now }
    requires kind { AreOfOneSource E.entries cells.now }
    requires rising { IsTrue rises → KeysRise E.entries cells.now }
    requires empty { found.old ≡ [] }
    requires spare { AreSpare spare.old }
    ensures items { OnOk result (sets.new.items ≡ insert sets.old.items at (joined E.entries cells.now (no_cells epoch))) }
    ensures conflicts { OnOk result (found.new ≡ conflicts E.entries cells.now []) }
    ensures err { OnErr result (sets.new.items ≡ sets.old.items) }
    ensures spare { AreSpare spare.new }
{
    let room = first_room(sets, at, source_of(cells), cells.len());
    let mut set = GatheredSet::with_room(alloc, epoch, room, spare)?;
    set.join(cells, rises, found)?;
    put_at(sets, at, set)
}

/// Puts an epoch at a place.
#[inline(always)]
pub(crate) fn put_at<S: Drop>(sets: &mut VecDeque<S>, at: usize, set: S) -> Result<(), AllocError>
    requires { at ≤ length sets.old.items }
    ensures items { OnOk result (sets.new.items ≡ insert sets.old.items at set) }
    ensures err { OnErr result (sets.new.items ≡ sets.old.items) }
{
    // The common case: an epoch after all of the window.
    if at == 0 {
        sets.push_front(set)?;
        return Ok(());
    }
    sets.insert(at, set)?;
    Ok(())
}

/// Takes out the least epoch, if there are more epochs than places.
#[inline(always)]
pub(crate) fn close_least<S: Drop>(sets: &mut VecDeque<S>, places: usize) -> Option<S>
    requires { length sets.old.items ≤ places + 1 }
    ensures items { sets.old.items ≡ sets.new.items ++ option_to_list result }
    ensures few { length sets.new.items ≡ min places (length sets.old.items) }
{
    if sets.len() > places {
        sets.pop_back()
    } else {
        None
    }
}

/// Takes out the epoch that stands last, which is the least one, since a window's epochs fall.
pub(crate) fn take_last<S: Drop>(sets: &mut VecDeque<S>) -> Option<S>
    ensures order { sets.old.items ≡ sets.new.items ++ option_to_list result }
    ensures none { IfNone result (sets.old.items ≡ []) }
{
    sets.pop_back()
}

/// Takes the new cells of an epoch, whose place is `at`, or opens it, in a window that has this
/// number of places and spare lists. Those that conflict are added to an empty list, which stays
/// empty if memory is refused. If `rises`, the keys of the cells rise.
pub(crate) fn offer_cells<E: Entry>(
    sets: &mut VecDeque<GatheredSet<E>>,
    places: usize,
    alloc: Global,
    at: usize,
    epoch: GpsMs,
    cells: &[E],
    rises: bool,
    spare: &mut Spare<E>,
    found: &mut Conflicts<E::Signal>,
) -> Result<Outcome<E>, AllocError>
    requires fits { length sets.old.items ≤ places }
    requires falls { EpochsFall sets.old.items }
    requires place { at ≡ leading epoch sets.old.items }
    requires few { length cells.now ≤ 64 }
    requires range { All E.InRange cells.now }
    requires kind { AreOfOneSource E.entries cells.now }
    requires rising { IsTrue rises → KeysRise E.entries cells.now }
    requires spare { AreSpare spare.old }
    requires empty { found.old ≡ [] }
    ensures added { IfOk result (λ offer. AddsCells E.entries places epoch cells.now sets.old.items sets.new.items offer found.new) }
    ensures err { OnErr result (sets.new.items ≡ sets.old.items) }
    ensures refused { OnErr result (WouldTakeCells E.entries places epoch cells.now sets.old.items) }
    ensures none { OnErr result (found.new ≡ []) }
    ensures spare { AreSpare spare.new }
{
    if has_epoch(sets, at, epoch) {
        let joined = join_at(sets, at, cells, rises, found);
        let fresh = found.cleared_if_refused(joined)?;
        return Ok(answer_of_joined(fresh, found));
    }
    if at == places {
        return Ok(Outcome::Late);
    }
    let opened = open_at(sets, at, alloc, epoch, cells, rises, spare, found);
    found.cleared_if_refused(opened)?;
    let closed = close_least(sets, places);
    Ok(Outcome::Taken { closed })
}

/// Returns what became of cells that joined an epoch of the window, by how many were new and which
/// conflict.
pub(crate) fn answer_of_joined<E: Entry>(fresh: usize, found: &Conflicts<E::Signal>) -> Outcome<E>
    ensures { IsAnswerOf fresh found.now result }
{
    if fresh > 0 {
        return Outcome::Taken { closed: None };
    }
    if found.is_empty() {
        return Outcome::Repeat;
    }
    Outcome::Conflict
}
