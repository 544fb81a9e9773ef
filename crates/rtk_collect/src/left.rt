//! What is left of a collector or a gatherer at its end.

ghost use Rattle.std.specs.Prelude.{◌≡◌, ℕ, ◌<◌, List, [], ◌∷◌, ◌++◌, map, IfSome, IfNone, All};
ghost use Rattle.rtk_collect.specs.Arrival.{Arrival};
ghost use Rattle.rtk_collect.specs.Collector.{IsLeftView, KeepsStations};
ghost use Rattle.rtk_collect.specs.EpochSet.{EpochSetView};
ghost use Rattle.rtk_collect.specs.Offered.{NotBelow};
ghost use Rattle.rtk_collect.specs.StationPosition.{IsPosition, IsPositionOf};

use crate::entry::Entry;
use crate::epoch_set::EpochSet;
use crate::gathered_set::GatheredSet;
use crate::stations::{StationMessages, position};
use crate::window::take_last;
use rtk_obs::{CellEntry, Position};
use std::collections::VecDeque;
use std::marker::Model;

/// An epoch with its cells, in whatever lists it keeps them.
pub trait KeptSet: Drop {
    /// A cell with its satellite and code.
    type Entry;

    /// The epoch in ms and its cells.
    ghost epoch_set: { Self → EpochSetView Self.Entry };
}

impl KeptSet for EpochSet {
    type Entry = CellEntry;

    ghost epoch_set = { λ set. set };
}

impl<E: Entry> KeptSet for GatheredSet<E> {
    type Entry = E;

    ghost epoch_set = { λ set. set };
}

/// The epochs that a window had at its end, with the first 1005 and 1006.
#[derive(Drop)]
pub struct LeftSets<S: KeptSet> {
    sets: VecDeque<S>,
    stations: StationMessages,
}

/// What is left of a collector.
pub type Left = LeftSets<EpochSet>;

/// What is left of a gatherer.
pub type GatheredSets<E = CellEntry> = LeftSets<GatheredSet<E>>;

// Clauses see the epochs that are left, from the greatest to the least, the 1005 and the 1006.
impl<S: KeptSet> Model for LeftSets<S> {
    ghost use Rattle.std.specs.Prelude.{◌≡◌, map};
    ghost use Rattle.rtk_collect.specs.Collector.{LeftView, IsLeftView};

    ghost Value = { LeftView S.Entry };

    ghost view = { λ l. record { sets = map S.epoch_set l.sets.items; arp1005 = l.stations.arp1005; arp1006 = l.stations.arp1006 } };

    ghost invariant = { λ l. (l ≡ record { sets = l.sets; stations = l.stations })
        × IsLeftView (record { sets = map S.epoch_set l.sets.items; arp1005 = l.stations.arp1005; arp1006 = l.stations.arp1006 })
        × (l.stations ≡ record { arp1005 = l.stations.arp1005; arp1006 = l.stations.arp1006 }) };
}

impl<S: KeptSet> LeftSets<S> {
    /// Makes what is left, with these epochs and station messages.
    pub(crate) fn new(sets: VecDeque<S>, stations: StationMessages) -> LeftSets<S>
        requires { IsLeftView (record { sets = map S.epoch_set sets.items; arp1005 = stations.arp1005; arp1006 = stations.arp1006 }) }
        ensures { result ≡ record { sets = map S.epoch_set sets.items; arp1005 = stations.arp1005; arp1006 = stations.arp1006 } }
    {
        LeftSets { sets, stations }
    }

    /// Takes out the least epoch that is left, with its kept cells. The answer is `None` exactly if
    /// no epoch is left.
    pub fn next_left(&mut self) -> Option<S>
        ensures next { IfSome result (λ set. self.old.sets ≡ self.new.sets ++ S.epoch_set set ∷ []) }
        ensures least { IfSome result (λ set. All (λ x. (S.epoch_set set).epoch < x.epoch) self.new.sets) }
        ensures not_below { IfSome result (λ set. NotBelow (S.epoch_set set) self.old.sets) }
        ensures none { IfNone result (self.old.sets ≡ []) }
        ensures stays { IfNone result (self.new ≡ self.old) }
        ensures arp1005 { self.new.arp1005 ≡ self.old.arp1005 }
        ensures arp1006 { self.new.arp1006 ≡ self.old.arp1006 }
        ensures stations { (n : ℕ) (arrivals : List Arrival) → KeepsStations self.old n arrivals → KeepsStations self.new n arrivals }
    {
        take_last(&mut self.sets)
    }

    /// Returns the position of the first 1006, else of the first 1005, else zeros. Its height is
    /// that of the 1006, else zero.
    pub fn station(&self) -> Position
        ensures position { IsPosition self.now.arp1005 self.now.arp1006 result }
        ensures kept { (n : ℕ) (arrivals : List Arrival) → KeepsStations self.now n arrivals → IsPositionOf n arrivals result }
    {
        position(self.stations)
    }
}
