//! The first 1004 of an epoch, whose satellites the epoch keeps.

ghost use Rattle.std.specs.Prelude.{◌≡◌, ◌<◌, ◌≤◌, [], length, filter, IsSome, IfSome, IfOk, OnOk, OnErr, slice_index_or, slice_set};
ghost use Rattle.std.specs.List.{insert};
ghost use Rattle.rtk_message.specs.AnyDecoded.{IsValid};
ghost use Rattle.rtk_obs.specs.Cell.{IsInRange};
ghost use Rattle.rtk_obs.specs.LegacyCells.{cells_of_1004};
ghost use Rattle.rtk_obs.specs.MessageCells.{cells_of};
ghost use Rattle.rtk_obs.specs.declared.cell.CellSource.TheVariants.{Legacy};
ghost use Rattle.rtk_collect.specs.Gps.{gps};
ghost use Rattle.rtk_collect.specs.EpochSet.{EpochSetView, joined, fresh, conflicts, is_from, EpochsFall};
ghost use Rattle.rtk_collect.specs.Accepted.{no_cells};
ghost use Rattle.rtk_collect.specs.Steps.Borrowed.{borrowed};
ghost use Rattle.rtk_collect.specs.Steps.First.{AreFirst, HasNoLegacy};
ghost use Rattle.rtk_collect.specs.Steps.OrderedPlaces.{leading};
ghost use Rattle.rtk_collect.specs.Steps.Room.{AreSpare};
ghost use Rattle.rtk_collect.specs.Steps.Observed.{AddsCells, WouldTakeCells};

use crate::dated_ref::Borrowed;
use crate::entry::Entry;
use crate::gathered_set::{GatheredSet, Spare};
use crate::outcome::Outcome;
use crate::window::{close_least, first_room, has_epoch, put_at};
use rtk_message::{Message, Satellite};
use rtk_obs::{CellEntry, CellSource, GpsMs, rising_satellites};
use std::alloc::{AllocError, Global};
use std::collections::VecDeque;

/// Returns the satellites of a 1004, if they rise and its epoch, whose place is `at`, has no cell
/// of a 1004 yet.
pub(crate) fn first_satellites<'a>(
    sets: &VecDeque<GatheredSet<CellEntry>>,
    at: usize,
    epoch: GpsMs,
    message: Borrowed<'a>,
) -> Option<&'a [Satellite]>
    requires valid { IsValid (borrowed message) }
    requires place { at ≡ leading epoch sets.now.items }
    ensures cells { IfSome result (λ satellites. cells_of (borrowed message.entry) ≡ cells_of_1004 satellites.now) }
    ensures first { IfSome result (λ satellites. AreFirst gps IsInRange cells_of_1004 satellites.now) }
    ensures none { IsSome result → HasNoLegacy gps epoch sets.now.items }
{
    let Borrowed::Message(Message::Obs1004(message)) = message else {
        return None;
    };
    if has_epoch(sets, at, epoch) && !sets[at].has_no_legacy() {
        return None;
    }
    rising_satellites(message)
}

// Takes the satellites of the first 1004 of the epoch at a place. If memory is refused, no epoch
// changes.
fn take_first_at<E: Entry>(
    sets: &mut VecDeque<GatheredSet<E>>,
    at: usize,
    satellites: &[Satellite],
) -> Result<(), AllocError>
    requires within { at < length sets.old.items }
    requires first { AreFirst E.entries E.InRange E.legacy satellites.now }
    requires none { (d : EpochSetView E) → filter (is_from E.entries Legacy) (slice_index_or sets.old.items at d).cells ≡ [] }
    ensures items { (d : EpochSetView E) → OnOk result (sets.new.items
        ≡ slice_set sets.old.items at (joined E.entries (E.legacy satellites.now) (slice_index_or sets.old.items at d))) }
    ensures fresh { (d : EpochSetView E) → 0 < fresh E.entries (E.legacy satellites.now) (slice_index_or sets.old.items at d).cells }
    ensures conflicts { (d : EpochSetView E) → conflicts E.entries (E.legacy satellites.now) (slice_index_or sets.old.items at d).cells ≡ [] }
    ensures err { OnErr result (sets.new.items ≡ sets.old.items) }
{
    let set = &mut sets[at];
    set.take_first(satellites)
}

// Opens an epoch with the satellites of its first 1004 at its place, as `open_at` does.
fn open_first_at<E: Entry>(
    sets: &mut VecDeque<GatheredSet<E>>,
    at: usize,
    alloc: Global,
    epoch: GpsMs,
    satellites: &[Satellite],
    spare: &mut Spare<E>,
) -> Result<(), AllocError>
    requires within { at ≤ length sets.old.items }
    requires first { AreFirst E.entries E.InRange E.legacy satellites.now }
    requires spare { AreSpare spare.old }
    ensures items { OnOk result (sets.new.items ≡ insert sets.old.items at (joined E.entries (E.legacy satellites.now) (no_cells epoch))) }
    ensures err { OnErr result (sets.new.items ≡ sets.old.items) }
    ensures spare { AreSpare spare.new }
{
    let mut room = first_room(sets, at, CellSource::Legacy, satellites.len() * 2);
    room.legacy.satellites = room.legacy.satellites.max(satellites.len());
    let mut set = GatheredSet::with_room(alloc, epoch, room, spare)?;
    set.take_first(satellites)?;
    put_at(sets, at, set)
}

/// Takes the satellites of the first 1004 of an epoch, or opens the epoch with them, as
/// `offer_cells` takes their cells. None of the cells conflicts.
pub(crate) fn offer_first<E: Entry>(
    sets: &mut VecDeque<GatheredSet<E>>,
    places: usize,
    alloc: Global,
    at: usize,
    epoch: GpsMs,
    satellites: &[Satellite],
    spare: &mut Spare<E>,
) -> Result<Outcome<E>, AllocError>
    requires fits { length sets.old.items ≤ places }
    requires falls { EpochsFall sets.old.items }
    requires place { at ≡ leading epoch sets.old.items }
    requires first { AreFirst E.entries E.InRange E.legacy satellites.now }
    requires none { HasNoLegacy E.entries epoch sets.old.items }
    requires spare { AreSpare spare.old }
    ensures added { IfOk result (λ offer. AddsCells E.entries places epoch (E.legacy satellites.now) sets.old.items sets.new.items offer []) }
    ensures err { OnErr result (sets.new.items ≡ sets.old.items) }
    ensures refused { OnErr result (WouldTakeCells E.entries places epoch (E.legacy satellites.now) sets.old.items) }
    ensures spare { AreSpare spare.new }
{
    if has_epoch(sets, at, epoch) {
        take_first_at(sets, at, satellites)?;
        return Ok(Outcome::Taken { closed: None });
    }
    if at == places {
        return Ok(Outcome::Late);
    }
    open_first_at(sets, at, alloc, epoch, satellites, spare)?;
    let closed = close_least(sets, places);
    Ok(Outcome::Taken { closed })
}
