//! An epoch with its cells.

ghost use Rattle.std.specs.Prelude.{◌≡◌, ◌<◌, ◌≤◌, [], length, filter, IsTrue, IfOk, OnOk, OnErr, All};
ghost use Rattle.rtk_obs.specs.declared.cell.CellSource.TheVariants.{Legacy, Msm};
ghost use Rattle.rtk_collect.specs.Key.{KeysRise};
ghost use Rattle.rtk_collect.specs.EpochSet.{joined, fresh, conflicts, is_from, AreLeftBeside, AreOfOneSource};
ghost use Rattle.rtk_collect.specs.Steps.First.{AreFirst};
ghost use Rattle.rtk_collect.specs.Steps.Room.{AreSpare};

use crate::conflicts::Conflicts;
use crate::entry::Entry;
use crate::legacy_list::{LegacyList, LegacyRoom, if_of_room};
use crate::merging::{join_list, source_of};
use arrayvec::ArrayVec;
use rtk_message::Satellite;
use rtk_obs::{CellEntry, CellSource, GpsMs};
use std::alloc::{AllocError, Global};
use std::marker::Model;
use std::mem::replace;

/// An epoch with its cells: one for each satellite, code and kind of message. There are at most 1,024 of
/// GPS, or 7,072 of all systems.
///
/// Those that came in an MSM stand in one list, those that came in a 1004 in another; each rises by
/// satellite and code. As long as one 1004 of a window of GPS came, and its satellites rise, these are
/// kept in place of its cells. Satellites of GPS are 1 to 32; a strength is absent, or 250 to 63,750
/// thousandths of a dB-Hz in steps of 250.
#[derive(Drop)]
pub struct GatheredSet<E: Entry = CellEntry> {
    epoch: GpsMs,
    msm: Vec<E>,
    legacy: LegacyList<E>,
}

/// For how many cells of each kind of message there is room.
#[derive(Clone, Copy)]
pub(crate) struct Room {
    pub(crate) msm: usize,
    pub(crate) legacy: LegacyRoom,
}

/// Lists without cells, for an epoch that opens later.
#[derive(Drop)]
pub(crate) struct Spare<E: Entry> {
    pub(crate) msm: Vec<E>,
    pub(crate) legacy: LegacyList<E>,
}

// Clauses see the epoch in ms and one list of cells, in which each stands at its key.
impl<E: Entry> Model for GatheredSet<E> {
    ghost use Rattle.std.specs.Prelude.{◌≡◌};
    ghost use Rattle.rtk_obs.specs.declared.cell.CellSource.TheVariants.{Legacy, Msm};
    ghost use Rattle.rtk_collect.specs.EpochSet.{EpochSetView, AreKeptOf, with_cells};

    ghost Value = { EpochSetView E };

    ghost view = { λ s. record { epoch = s.epoch; cells = with_cells E.entries s.legacy s.msm.items } };

    ghost invariant = { λ s. (s ≡ record { epoch = s.epoch; msm = s.msm; legacy = s.legacy })
        × AreKeptOf E.entries E.InRange Msm s.msm.items × AreKeptOf E.entries E.InRange Legacy s.legacy };
}

impl<E: Entry> GatheredSet<E> {
    /// Makes an epoch without cells, which has room for so many of each kind. It has each spare
    /// list that has just the room that is wanted. Any other spare list is given up before memory
    /// is taken.
    #[inline(always)]
    pub(crate) fn with_room(
        alloc: Global,
        epoch: GpsMs,
        room: Room,
        spare: &mut Spare<E>,
    ) -> Result<GatheredSet<E>, AllocError>
        requires { AreSpare spare.old }
        ensures set { IfOk result (λ set. set ≡ record { epoch = epoch; cells = [] }) }
        ensures spare { AreSpare spare.new }
    {
        let mut msm = replace(&mut spare.msm, Vec::new(alloc));
        let legacy = replace(&mut spare.legacy, LegacyList::new(alloc));
        msm = if_of_room(alloc, msm, room.msm);
        msm.reserve(room.msm)?;
        let legacy = legacy.with_room(alloc, room.legacy)?;
        Ok(GatheredSet { epoch, msm, legacy })
    }

    /// Empties the lists of the cells and returns them, for an epoch that opens later.
    pub(crate) fn into_spare(self) -> Spare<E>
        ensures { AreSpare result }
    {
        let mut msm = self.msm;
        msm.clear();
        Spare {
            msm,
            legacy: self.legacy.cleared(),
        }
    }

    /// Returns the epoch.
    pub fn epoch(&self) -> GpsMs
        ensures { result ≡ self.now.epoch }
    {
        self.epoch
    }

    /// Returns the cells that came in an MSM.
    pub fn msm_cells(&self) -> &[E]
        ensures value { result.now ≡ filter (is_from E.entries Msm) self.now.cells }
        ensures rises { KeysRise E.entries result.now }
        ensures range { All E.InRange result.now }
        ensures kind { AreOfOneSource E.entries result.now }
        ensures all_rise { KeysRise E.entries self.now.cells }
        ensures all_in_range { All E.InRange self.now.cells }
        ensures few { length self.now.cells ≤ E.most }
    {
        E::entries_are_few();
        &self.msm
    }

    /// Returns the cells that came in a 1004. If they are kept as satellites, they are put into
    /// this room.
    pub fn legacy_cells<'a>(&'a self, room: &'a mut ArrayVec<E, 64>) -> &'a [E]
        ensures value { result.now ≡ filter (is_from E.entries Legacy) self.now.cells }
        ensures rises { KeysRise E.entries result.now }
        ensures range { All E.InRange result.now }
        ensures kind { AreOfOneSource E.entries result.now }
        ensures all_rise { KeysRise E.entries self.now.cells }
        ensures all_in_range { All E.InRange self.now.cells }
        ensures few { length self.now.cells ≤ E.most }
    {
        E::entries_are_few();
        self.legacy.left(&[], room)
    }

    /// Returns the cells that came in a 1004, or those of them whose satellite and code no cell of
    /// an MSM has. If they are kept as satellites, they are put into this room.
    pub fn legacy_left<'a>(&'a self, room: &'a mut ArrayVec<E, 64>) -> &'a [E]
        ensures left { AreLeftBeside E.entries (filter (is_from E.entries Msm) self.now.cells) (filter (is_from E.entries Legacy) self.now.cells) result.now }
        ensures rises { KeysRise E.entries result.now }
        ensures range { All E.InRange result.now }
        ensures kind { AreOfOneSource E.entries result.now }
    {
        self.legacy.left(&self.msm, room)
    }

    /// Returns how much room the epoch needs for the cells of 1004.
    pub(crate) fn legacy_room(&self) -> LegacyRoom {
        self.legacy.room()
    }

    /// Returns whether no cell came in a 1004.
    pub(crate) fn has_no_legacy(&self) -> bool
        ensures { IsTrue result → filter (is_from E.entries Legacy) self.now.cells ≡ [] }
    {
        self.legacy.is_empty()
    }

    /// Takes the satellites of the first 1004. All memory is taken before.
    #[inline(always)]
    pub(crate) fn take_first(&mut self, satellites: &[Satellite]) -> Result<(), AllocError>
        requires first { AreFirst E.entries E.InRange E.legacy satellites.now }
        requires none { filter (is_from E.entries Legacy) self.old.cells ≡ [] }
        ensures set { OnOk result (self.new ≡ joined E.entries (E.legacy satellites.now) self.old) }
        ensures fresh { 0 < fresh E.entries (E.legacy satellites.now) self.old.cells }
        ensures conflicts { conflicts E.entries (E.legacy satellites.now) self.old.cells ≡ [] }
        ensures err { OnErr result (self.new ≡ self.old) }
    {
        self.legacy.take_first(satellites)
    }

    /// Takes the cells of a message whose keys are new, and says how many these are. Those that
    /// conflict are added to an empty list. If `rises`, the keys of the cells rise. Memory is taken
    /// for new cells alone, before the first one is added.
    pub(crate) fn join(
        &mut self,
        cells: &[E],
        rises: bool,
        found: &mut Conflicts<E::Signal>,
    ) -> Result<usize, AllocError>
        requires few { length cells.now ≤ 64 }
        requires range { All E.InRange cells.now }
        requires kind { AreOfOneSource E.entries cells.now }
        requires rising { IsTrue rises → KeysRise E.entries cells.now }
        requires empty { found.old ≡ [] }
        ensures set { IfOk result (λ n. self.new ≡ joined E.entries cells.now self.old) }
        ensures fresh { IfOk result (λ n. n ≡ fresh E.entries cells.now self.old.cells) }
        ensures conflicts { IfOk result (λ n. found.new ≡ conflicts E.entries cells.now self.old.cells) }
        ensures err { OnErr result (self.new ≡ self.old) }
        ensures refused { OnErr result (0 < fresh E.entries cells.now self.old.cells) }
    {
        match source_of(cells) {
            CellSource::Msm => join_list(&mut self.msm, cells, rises, found),
            CellSource::Legacy => self.legacy.join_list(cells, rises, found),
        }
    }
}
