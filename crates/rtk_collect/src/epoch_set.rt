//! An epoch with its cells in one list.

ghost use Rattle.rtk_collect.specs.Gps.{gps};
ghost use Rattle.rtk_obs.specs.declared.cell.CellEntry.{CellEntry};
ghost use Rattle.std.specs.Prelude.{◌≡◌, ◌<◌, ◌≤◌, [], length, IsTrue, IfOk, OnOk, OnErr, All};
ghost use Rattle.rtk_obs.specs.Cell.{IsInRange};
ghost use Rattle.rtk_collect.specs.Key.{KeysRise};
ghost use Rattle.rtk_collect.specs.EpochSet.{joined, fresh, conflicts};
ghost use Rattle.rtk_collect.specs.Accepted.{no_cells};

use crate::conflicts::Conflicts;
use crate::merging::join_list;
use rtk_obs::{CellEntry, GpsMs};
use std::alloc::{AllocError, Global};
use std::marker::Model;

/// An epoch with its cells: one for each satellite, code and kind of message.
///
/// The satellites are 1 to 32; a strength is absent, or 250 to 63,750 thousandths of a dB-Hz in steps of
/// 250. Who reads a field may rely on that.
#[derive(Drop)]
pub struct EpochSet {
    pub epoch: GpsMs,
    /// They rise by satellite and code; of one satellite and code the cell that came in an MSM (1074)
    /// stands before that of a 1004. At most 1,024.
    pub cells: Vec<CellEntry>,
}

// Clauses see the epoch in ms and the list of cells.
impl Model for EpochSet {
    ghost use Rattle.rtk_obs.specs.declared.cell.CellEntry.{CellEntry};
    ghost use Rattle.rtk_collect.specs.EpochSet.{EpochSetView, AreCellsOfEpoch};

    ghost Value = { EpochSetView CellEntry };

    ghost view = { λ s. record { epoch = s.epoch; cells = s.cells.items } };

    ghost invariant = { λ s. AreCellsOfEpoch s.cells.items };
}

impl EpochSet {
    /// Opens an epoch with the cells of its first message. Those that conflict with one another are
    /// added to an empty list. If `rises`, the keys of the cells rise.
    pub(crate) fn open(
        alloc: Global,
        epoch: GpsMs,
        cells: &[CellEntry],
        rises: bool,
        found: &mut Conflicts,
    ) -> Result<EpochSet, AllocError>
        requires few { length cells.now ≤ 64 }
        requires range { All IsInRange cells.now }
        requires rising { IsTrue rises → KeysRise gps cells.now }
        requires empty { found.old ≡ [] }
        ensures set { IfOk result (λ set. set ≡ joined gps cells.now (no_cells epoch)) }
        ensures conflicts { OnOk result (found.new ≡ conflicts gps cells.now []) }
    {
        let mut set = EpochSet {
            epoch,
            cells: Vec::new(alloc),
        };
        set.join(cells, rises, found)?;
        Ok(set)
    }

    /// Takes the cells of a message whose keys are new, and says how many these are. Those that
    /// conflict are added to an empty list. If `rises`, the keys of the cells rise. Memory is taken
    /// for new cells alone, before the first one is added.
    pub(crate) fn join(
        &mut self,
        cells: &[CellEntry],
        rises: bool,
        found: &mut Conflicts,
    ) -> Result<usize, AllocError>
        requires few { length cells.now ≤ 64 }
        requires range { All IsInRange cells.now }
        requires rising { IsTrue rises → KeysRise gps cells.now }
        requires empty { found.old ≡ [] }
        ensures set { OnOk result (self.new ≡ joined gps cells.now self.old) }
        ensures fresh { IfOk result (λ n. n ≡ fresh gps cells.now self.old.cells) }
        ensures conflicts { OnOk result (found.new ≡ conflicts gps cells.now self.old.cells) }
        ensures err { OnErr result (self.new ≡ self.old) }
        ensures refused { OnErr result (0 < fresh gps cells.now self.old.cells) }
    {
        join_list(&mut self.cells, cells, rises, found)
    }
}
