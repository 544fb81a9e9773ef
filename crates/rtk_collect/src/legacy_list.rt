//! The cells of an epoch that came in a 1004.
//!
//! Of the first 1004 the satellites are kept, if they rise: a satellite is smaller than its two cells.
//! The cells are made if those of another 1004 join, in room that was taken before; or when the epoch
//! closes, and then only those whose satellite and code no cell of an MSM has.

ghost use Rattle.std.specs.Prelude.{◌≡◌, ◌<◌, ◌≤◌, ◌*◌, ◌++◌, [], length, IsTrue, IfOk, OnOk, OnErr, All, vec_capacity};
ghost use Rattle.rtk_obs.specs.CellsLeft.{AreRisingSatellites};
ghost use Rattle.rtk_collect.specs.Key.{KeysRise};
ghost use Rattle.rtk_collect.specs.EpochSet.{with_cells, fresh, conflicts, AreLeftBeside};
ghost use Rattle.rtk_collect.specs.Steps.First.{spelled};

use crate::conflicts::Conflicts;
use crate::entry::Entry;
use crate::merging::join_list;
use arrayvec::ArrayVec;
use rtk_message::Satellite;
use std::alloc::{AllocError, Global};
use std::marker::Model;

/// Cells that came in a 1004: those of the satellites of the first one, or a list.
#[derive(Drop)]
pub(crate) struct LegacyList<E: Entry> {
    // The satellites of the first 1004, as long as its cells are not in the list.
    first: Vec<Satellite>,
    cells: Vec<E>,
    // How many satellites the first 1004 had, also when its cells are in the list.
    satellites: usize,
}

/// For how many satellites of a first 1004, and for how many cells, there is room.
#[derive(Clone, Copy)]
pub(crate) struct LegacyRoom {
    pub(crate) satellites: usize,
    pub(crate) cells: usize,
}

// Clauses see the cells. While the satellites are kept, the list is empty and has room for their
// cells.
impl<E: Entry> Model for LegacyList<E> {
    ghost use Rattle.std.specs.Prelude.{◌≡◌, ◌<◌, ◌≤◌, ◌*◌, ◌++◌, [], length, List, vec_capacity};
    ghost use Rattle.rtk_obs.specs.CellsLeft.{AreRisingSatellites};
    ghost use Rattle.rtk_collect.specs.Steps.First.{spelled};

    ghost Value = { List E };

    ghost view = { λ l. spelled E.legacy l.first.items l.cells.items };

    ghost invariant = { λ l. (l ≡ record { first = l.first; cells = l.cells; satellites = l.satellites })
        × AreRisingSatellites l.first.items
        × (2 * length l.first.items ≤ vec_capacity l.cells)
        × (0 < length l.first.items → l.cells.items ≡ []) };
}

/// Returns the list without elements if it has just this room, else one that has taken no memory.
pub(crate) fn if_of_room<T: Drop>(alloc: Global, mut list: Vec<T>, room: usize) -> Vec<T>
    ensures { result.items ≡ [] }
{
    if list.capacity() == room {
        list.clear();
        return list;
    }
    Vec::new(alloc)
}

// Puts the cells of satellites into an empty list, which has room for them.
#[inline(never)]
fn put_cells<E: Entry>(first: &mut Vec<Satellite>, cells: &mut Vec<E>)
    requires rise { AreRisingSatellites first.old.items }
    requires room { 2 * length first.old.items ≤ vec_capacity cells.old }
    requires empty { cells.old.items ≡ [] }
    ensures first { first.new.items ≡ [] }
    ensures cells { cells.new.items ≡ E.legacy first.old.items }
{
    E::push_legacy(first, cells);
    first.clear();
}

// Puts the cells of satellites into the list, if there are any.
fn spell_out<E: Entry>(first: &mut Vec<Satellite>, cells: &mut Vec<E>)
    requires rise { AreRisingSatellites first.old.items }
    requires room { 2 * length first.old.items ≤ vec_capacity cells.old }
    requires alone { 0 < length first.old.items → cells.old.items ≡ [] }
    ensures first { first.new.items ≡ [] }
    ensures cells { cells.new.items ≡ spelled E.legacy first.old.items cells.old.items }
{
    if first.is_empty() {
        return;
    }
    put_cells(first, cells);
}

impl<E: Entry> LegacyList<E> {
    /// Makes a list without cells, which has taken no memory.
    pub(crate) fn new(alloc: Global) -> LegacyList<E>
        ensures { result ≡ [] }
    {
        LegacyList {
            first: Vec::new(alloc),
            cells: Vec::new(alloc),
            satellites: 0,
        }
    }

    /// Makes a list without cells that has this room, in the memory of another list. Each part of
    /// that list that has just the room that is wanted is used. Any other part is given up before
    /// memory is taken.
    #[inline(always)]
    pub(crate) fn with_room(
        self,
        alloc: Global,
        room: LegacyRoom,
    ) -> Result<LegacyList<E>, AllocError>
        ensures { IfOk result (λ list. list ≡ []) }
    {
        let mut first = if_of_room(alloc, self.first, room.satellites);
        let mut cells = if_of_room(alloc, self.cells, room.cells);
        first.reserve_exact(room.satellites)?;
        cells.reserve(room.cells)?;
        Ok(LegacyList {
            first,
            cells,
            satellites: 0,
        })
    }

    /// Empties the list and returns it, for an epoch that opens later.
    pub(crate) fn cleared(self) -> LegacyList<E>
        ensures { result ≡ [] }
    {
        let mut first = self.first;
        let mut cells = self.cells;
        first.clear();
        cells.clear();
        LegacyList {
            first,
            cells,
            satellites: 0,
        }
    }

    /// Returns how much room the list needs.
    pub(crate) fn room(&self) -> LegacyRoom {
        LegacyRoom {
            satellites: self.satellites,
            cells: self.cells.len().max(self.first.len() * 2),
        }
    }

    /// Returns whether there is no cell.
    pub(crate) fn is_empty(&self) -> bool
        ensures { IsTrue result → self.now ≡ [] }
    {
        self.first.is_empty() && self.cells.is_empty()
    }

    /// Takes the satellites of the first 1004. All memory is taken before.
    #[inline(always)]
    pub(crate) fn take_first(&mut self, satellites: &[Satellite]) -> Result<(), AllocError>
        requires rise { AreRisingSatellites satellites.now }
        requires some { 0 < length satellites.now }
        requires empty { self.old ≡ [] }
        ensures ok { OnOk result (self.new ≡ E.legacy satellites.now) }
        ensures err { OnErr result (self.new ≡ self.old) }
    {
        self.first.clear();
        self.cells.clear();
        self.cells.reserve(satellites.len() * 2)?;
        self.first.extend_from_slice(satellites)?;
        self.satellites = satellites.len();
        Ok(())
    }

    /// Takes the cells whose keys are new, and says how many these are. Those that conflict are
    /// added to an empty list. If `rises`, the keys of the cells rise. Memory is taken for new
    /// cells alone, before the first one is added.
    pub(crate) fn join_list(
        &mut self,
        cells: &[E],
        rises: bool,
        found: &mut Conflicts<E::Signal>,
    ) -> Result<usize, AllocError>
        requires few { length cells.now ≤ 64 }
        requires rises { KeysRise E.entries self.old }
        requires rising { IsTrue rises → KeysRise E.entries cells.now }
        requires empty { found.old ≡ [] }
        ensures items { IfOk result (λ n. self.new ≡ with_cells E.entries cells.now self.old) }
        ensures fresh { IfOk result (λ n. n ≡ fresh E.entries cells.now self.old) }
        ensures conflicts { IfOk result (λ n. found.new ≡ conflicts E.entries cells.now self.old) }
        ensures err { OnErr result (self.new ≡ self.old) }
        ensures refused { OnErr result (0 < fresh E.entries cells.now self.old) }
    {
        spell_out(&mut self.first, &mut self.cells);
        join_list(&mut self.cells, cells, rises, found)
    }

    /// Returns the cells, or those of them whose satellite and code no known cell has.
    pub(crate) fn left<'a>(&'a self, known: &[E], room: &'a mut ArrayVec<E, 64>) -> &'a [E]
        requires { All E.InRange known.now }
        ensures { AreLeftBeside E.entries known.now self.now result.now }
    {
        if self.first.is_empty() {
            return &self.cells;
        }
        E::put_legacy(&self.first, known, room);
        room.as_slice()
    }
}
