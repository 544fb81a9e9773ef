//! The gatherer: a window over the epochs of one station's messages, for a caller who offers many.
//!
//! A new epoch reserves room for as many cells of each kind, and for as many satellites of a first
//! 1004, as the epoch before it has, or as the message has if these are more. `hand_back` keeps the
//! lists of one closed epoch, and the next epoch that wants just their room takes them.

ghost use Rattle.rtk_collect.specs.Gps.{gps};
ghost use Rattle.rtk_obs.specs.MessageCells.{cells_of};
ghost use Rattle.rtk_message.specs.declared.any_message.AnyMessage.{AnyMessage as Message};
ghost use Rattle.std.specs.Prelude.{◌≡◌, ◌≤◌, List, [], length, take, IfOk, OnErr, None};
ghost use Rattle.rtk_collect.specs.Arrival.{Arrival};
ghost use Rattle.rtk_collect.specs.Accepted.{kept};
ghost use Rattle.rtk_collect.specs.Collector.{RepresentsArrivals, KeepsStations};
ghost use Rattle.rtk_collect.specs.StationPosition.{IsPosition, IsPositionOf};
ghost use Rattle.rtk_collect.specs.Offered.{AnswersArrival, ClosesBelow, ClosesLeast, LeastNeverFalls, WouldBeTaken};

use crate::conflicts::Conflicts;
use crate::dated_ref::{Borrowed, DatedRef};
use crate::entry::Entry;
use crate::first::{first_satellites, offer_first};
use crate::gathered_set::{GatheredSet, Spare};
use crate::left::GatheredSets;
use crate::legacy_list::LegacyList;
use crate::outcome::Outcome;
use crate::stations::{StationMessages, position};
use crate::window::{offer_cells, place_of_epoch};
use arrayvec::ArrayVec;
use rtk_obs::{CellEntry, Position};
use std::alloc::{AllocError, Global};
use std::collections::VecDeque;
use std::marker::Model;

/// A window over the greatest epochs of one station's messages, with their kept cells, and the
/// first 1005 and 1006.
///
/// It holds at most as many epochs as it has places, each with at most 1,024 cells of GPS, or 7,072 of
/// all systems. It promises what a `Collector` promises.
///
/// Its caller offers one MSM number of a system alone, as one of 1074 to 1077, beside 1004, 1005 and 1006.
/// Cells of all four have the same keys. So if two of these numbers are offered, a cell of the second message
/// conflicts with the cell that is kept of the first, if their values differ, though both be right;
/// and the cells of one epoch may be of either number.
#[derive(Drop)]
pub struct Gatherer<E: Entry = CellEntry> {
    pub(crate) alloc: Global,
    // How many epochs the window holds at most.
    pub(crate) places: usize,
    // The epochs, from the greatest to the least.
    pub(crate) sets: VecDeque<GatheredSet<E>>,
    pub(crate) stations: StationMessages,
    // The cells of the message in hand.
    pub(crate) cells: ArrayVec<E, 64>,
    // The lists of the closed epoch that was handed back last, without cells.
    pub(crate) spare: Spare<E>,
}

// Clauses see the window: its places, its epochs from the greatest to the least, the 1005 and the
// 1006.
impl<E: Entry> Model for Gatherer<E> {
    ghost use Rattle.std.specs.Prelude.{◌≡◌};
    ghost use Rattle.rtk_collect.specs.Collector.{CollectorView, IsCollectorView};
    ghost use Rattle.rtk_collect.specs.Steps.Room.{AreSpare};

    ghost Value = { CollectorView E };

    ghost view = { λ c. record { places = c.places; sets = c.sets.items; arp1005 = c.stations.arp1005; arp1006 = c.stations.arp1006 } };

    ghost invariant = { λ c. (c ≡ record {
      alloc = c.alloc;
      places = c.places;
      sets = c.sets;
      stations = c.stations;
      cells = c.cells;
      spare = c.spare;
    })
        × IsCollectorView (record { places = c.places; sets = c.sets.items; arp1005 = c.stations.arp1005; arp1006 = c.stations.arp1006 })
        × (c.stations ≡ record { arp1005 = c.stations.arp1005; arp1006 = c.stations.arp1006 })
        × (c.spare ≡ record { msm = c.spare.msm; legacy = c.spare.legacy })
        × AreSpare c.spare };
}

impl<E: Entry> Gatherer<E> {
    /// Makes a window with this number of places, which holds nothing. It takes no memory.
    pub fn new(alloc: Global, places: usize) -> Gatherer<E>
        requires low { 2 ≤ places }
        requires high { places ≤ 4096 }
        ensures empty { result ≡ record { places = places; sets = []; arp1005 = None; arp1006 = None } }
        ensures history { (of : Message → List E) → RepresentsArrivals E.entries of result [] }
    {
        Gatherer {
            alloc,
            places,
            sets: VecDeque::new(alloc),
            stations: StationMessages::new(),
            cells: ArrayVec::new(),
            spare: Spare {
                msm: Vec::new(alloc),
                legacy: LegacyList::new(alloc),
            },
        }
    }

    /// Takes back a closed epoch whose cells nobody needs any more. The next epoch that opens has each
    /// of its lists, for the cells of a kind of message or for the satellites of a first 1004, that has
    /// just the room that is wanted: if all have, it takes no memory for them.
    ///
    /// The lists of one epoch are kept at most, until they are used, given up or replaced.
    pub fn hand_back(&mut self, set: GatheredSet<E>)
        ensures { self.new ≡ self.old }
    {
        self.spare = set.into_spare();
    }

    /// Returns the position of the first 1006, else of the first 1005, else zeros. Its height is
    /// that of the 1006, else zero.
    pub fn station(&self) -> Position
        ensures position { IsPosition self.now.arp1005 self.now.arp1006 result }
        ensures kept { (of : Message → List E) (before : List Arrival) → RepresentsArrivals E.entries of self.now before → IsPositionOf self.now.places before result }
    {
        position(self.stations)
    }

    /// Ends the collection. The epochs of the window are left.
    pub fn close(self) -> GatheredSets<E>
        ensures sets { result.sets ≡ self.sets }
        ensures arp1005 { result.arp1005 ≡ self.arp1005 }
        ensures arp1006 { result.arp1006 ≡ self.arp1006 }
        ensures epochs { (of : Message → List E) (before : List Arrival) → RepresentsArrivals E.entries of self before
            → result.sets ≡ take self.places (kept E.entries of self.places before) }
        ensures stations { (of : Message → List E) (before : List Arrival) → RepresentsArrivals E.entries of self before → KeepsStations result self.places before }
    {
        GatheredSets::new(self.sets, self.stations)
    }
}

impl Gatherer<CellEntry> {
    /// Takes what is new in a message, and says what became of it. `conflicts` then has the cells of
    /// this message that conflict, in place of what it has: none if the message is late, a 1005 or
    /// a 1006.
    ///
    /// Only a message that would be taken takes memory, all of it before anything changes. If
    /// memory is refused, the gatherer is unchanged and `conflicts` is empty.
    pub fn offer(
        &mut self,
        dated: DatedRef<'_>,
        conflicts: &mut Conflicts,
    ) -> Result<Outcome, AllocError>
        ensures places { self.new.places ≡ self.old.places }
        ensures bound { length self.new.sets ≤ self.new.places }
        // Fails only if memory is refused: tests/system/calls, rows offer.
        ensures answer { IfOk result (λ offer. AnswersArrival gps cells_of self.old dated.entry offer conflicts.new self.new) }
        ensures closed { IfOk result (λ offer. ClosesBelow offer self.new.sets) }
        ensures least_closes { IfOk result (λ offer. ClosesLeast self.old.places self.old.sets offer) }
        ensures least { LeastNeverFalls self.old self.new }
        ensures err { OnErr result (self.new ≡ self.old) }
        ensures refused { OnErr result (WouldBeTaken gps cells_of self.old dated.entry) }
        ensures none { OnErr result (conflicts.new ≡ []) }
    {
        conflicts.clear();
        let Some(epoch) = dated.epoch else {
            let Borrowed::Message(message) = dated.message else {
                unreachable!();
            };
            let full = self.sets.len() == self.places;
            return Ok(self.stations.offer(message, full));
        };
        let at = place_of_epoch(&self.sets, epoch);
        let first = first_satellites(&self.sets, at, epoch, dated.message);
        if let Some(satellites) = first {
            let (sets, spare) = (&mut self.sets, &mut self.spare);
            return offer_first(sets, self.places, self.alloc, at, epoch, satellites, spare);
        }
        let rises = dated.message.put_cells(&mut self.cells);
        let cells = self.cells.as_slice();
        let (sets, spare) = (&mut self.sets, &mut self.spare);
        offer_cells(
            sets,
            self.places,
            self.alloc,
            at,
            epoch,
            cells,
            rises,
            spare,
            conflicts,
        )
    }
}
