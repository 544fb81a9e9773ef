//! The collector: a window over the epochs of one station's messages.
//!
//! It keeps each epoch in the form in which it gives it away: a list of its cells. So memory is taken
//! when cells come, and none when an epoch closes or is left.

ghost use Rattle.rtk_collect.specs.Gps.{gps};
ghost use Rattle.rtk_obs.specs.MessageCells.{cells_of};
ghost use Rattle.rtk_obs.specs.declared.cell.CellEntry.{CellEntry};
ghost use Rattle.std.specs.Prelude.{◌≡◌, ◌≤◌, List, [], length, take, IfOk, OnErr, None};
ghost use Rattle.rtk_collect.specs.Arrival.{Arrival};
ghost use Rattle.rtk_collect.specs.Accepted.{kept};
ghost use Rattle.rtk_collect.specs.Collector.{RepresentsArrivals, KeepsStations};
ghost use Rattle.rtk_collect.specs.StationPosition.{IsPosition, IsPositionOf};
ghost use Rattle.rtk_collect.specs.Offered.{AnswersArrival, ClosesBelow, ClosesLeast, LeastNeverFalls, WouldBeTaken, outcome_of, listed_by};

use crate::conflicts::Conflicts;
use crate::dated::Dated;
use crate::epoch_set::EpochSet;
use crate::epochs::join_epochs;
use crate::left::Left;
use crate::offer::Offer;
use crate::stations::{StationMessages, position};
use arrayvec::ArrayVec;
use rtk_obs::{Position, put_cells_of};
use std::alloc::{AllocError, Global};
use std::collections::VecDeque;
use std::marker::Model;

/// A window over the greatest epochs of one station's messages, with their kept cells, and the
/// first 1005 and 1006.
///
/// It holds at most as many epochs as its window has places, each with at most 1,024 cells.
///
/// A `Gatherer` makes the same promises. It borrows what it is offered and keeps epochs in less memory,
/// for a caller who offers many messages.
#[derive(Drop)]
pub struct Collector {
    alloc: Global,
    // How many epochs the window holds at most.
    places: usize,
    // The epochs, from the greatest to the least.
    sets: VecDeque<EpochSet>,
    stations: StationMessages,
}

// Clauses see the window: its places, its epochs from the greatest to the least, the 1005 and the
// 1006.
impl Model for Collector {
    ghost use Rattle.std.specs.Prelude.{◌≡◌};
    ghost use Rattle.rtk_obs.specs.declared.cell.CellEntry.{CellEntry};
    ghost use Rattle.rtk_collect.specs.Collector.{CollectorView, IsCollectorView};

    ghost Value = { CollectorView CellEntry };

    ghost view = { λ c. record { places = c.places; sets = c.sets.items; arp1005 = c.stations.arp1005; arp1006 = c.stations.arp1006 } };

    ghost invariant = { λ c. (c ≡ record {
      alloc = c.alloc;
      places = c.places;
      sets = c.sets;
      stations = c.stations;
    })
        × IsCollectorView (record { places = c.places; sets = c.sets.items; arp1005 = c.stations.arp1005; arp1006 = c.stations.arp1006 })
        × (c.stations ≡ record { arp1005 = c.stations.arp1005; arp1006 = c.stations.arp1006 }) };
}

impl Collector {
    /// Makes a window with this number of places, which holds nothing. It takes no memory.
    pub fn new(alloc: Global, window: usize) -> Collector
        requires low { 2 ≤ window }
        requires high { window ≤ 4096 }
        ensures empty { result ≡ record { places = window; sets = []; arp1005 = None; arp1006 = None } }
        ensures history { RepresentsArrivals gps cells_of result [] }
    {
        Collector {
            alloc,
            places: window,
            sets: VecDeque::new(alloc),
            stations: StationMessages::new(),
        }
    }

    /// Takes what is new in a message, and says what became of it.
    ///
    /// Only a message that would be taken takes memory, all of it before anything changes. If
    /// memory is refused, the collector is unchanged.
    pub fn offer(&mut self, dated: Dated) -> Result<Offer, AllocError>
        ensures places { self.new.places ≡ self.old.places }
        ensures bound { length self.new.sets ≤ self.new.places }
        // Fails only if memory is refused: tests/system/calls, rows offer.
        ensures answer { IfOk result (λ offer. AnswersArrival gps cells_of self.old dated (outcome_of offer) (listed_by offer) self.new) }
        ensures closed { IfOk result (λ offer. ClosesBelow (outcome_of offer) self.new.sets) }
        ensures least_closes { IfOk result (λ offer. ClosesLeast self.old.places self.old.sets (outcome_of offer)) }
        ensures least { LeastNeverFalls self.old self.new }
        ensures err { OnErr result (self.new ≡ self.old) }
        ensures refused { OnErr result (WouldBeTaken gps cells_of self.old dated) }
    {
        let Some(epoch) = dated.epoch else {
            let full = self.sets.len() == self.places;
            let outcome = self.stations.offer(&dated.message, full);
            return Ok(Offer::new(outcome, Conflicts::new()));
        };
        let mut cells = ArrayVec::new();
        let rises = put_cells_of(&dated.message, &mut cells);
        let cells = cells.as_slice();
        join_epochs(&mut self.sets, self.places, self.alloc, epoch, cells, rises)
    }

    /// Returns the position of the first 1006, else of the first 1005, else zeros. Its height is
    /// that of the 1006, else zero.
    pub fn station(&self) -> Position
        ensures position { IsPosition self.now.arp1005 self.now.arp1006 result }
        ensures kept { (before : List Arrival) → RepresentsArrivals gps cells_of self.now before → IsPositionOf self.now.places before result }
    {
        position(self.stations)
    }

    /// Ends the collection. The epochs of the window are left.
    pub fn close(self) -> Left
        ensures sets { result.sets ≡ self.sets }
        ensures arp1005 { result.arp1005 ≡ self.arp1005 }
        ensures arp1006 { result.arp1006 ≡ self.arp1006 }
        ensures epochs { (before : List Arrival) → RepresentsArrivals gps cells_of self before
            → result.sets ≡ take self.places (kept gps cells_of self.places before) }
        ensures stations { (before : List Arrival) → RepresentsArrivals gps cells_of self before → KeepsStations result self.places before }
    {
        Left::new(self.sets, self.stations)
    }
}
