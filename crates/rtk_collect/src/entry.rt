//! What a window asks of a cell with its satellite and code.

ghost use Rattle.std.specs.Prelude.{◌≡◌, ℕ, ◌<◌, ◌≤◌, ◌*◌, ◌^◌, List, [], length, All, vec_capacity};
ghost use Rattle.rtk_message.specs.declared.obs1004.Satellite.{Satellite};
ghost use Rattle.rtk_obs.specs.CellsLeft.{AreRisingSatellites};
ghost use Rattle.rtk_collect.specs.Entries.{Entries};
ghost use Rattle.rtk_collect.specs.Key.{KeysRise};
ghost use Rattle.rtk_collect.specs.EpochSet.{AreLeftBeside};
ghost use Rattle.rtk_collect.specs.Signals.{legacy_entries};

use crate::conflicts::{AnySatelliteCode, SatelliteCode};
use arrayvec::ArrayVec;
use rtk_message::Satellite;
use rtk_obs::{Cell, CellEntry, SignalEntry, put_cells_left, put_signals};

/// A cell with its satellite and code.
pub trait Entry: Copy + Default {
    /// A satellite with a code.
    type Signal: Copy + Default;

    /// What clauses see of an entry.
    ghost entries: { Entries Self Self.Signal };

    /// The ranges of the entries of messages.
    ghost InRange: { Self → Type 0 };

    /// The entries of the satellites of a 1004.
    ghost legacy: { List Satellite → List Self };

    /// How many entries an epoch has at most.
    ghost most: { ℕ };

    /// Returns a number of the satellite and code, by which entries rise.
    fn place(&self) -> usize
        ensures value { result ≡ entries.place self.now }
        ensures bound { result < 2 ^ 32 };

    /// Returns the values.
    fn cell(&self) -> &Cell
        ensures { result.now ≡ entries.cell self.now };

    /// Returns the Doppler shift in thousandths of a Hz, or 0 if there is none.
    fn doppler(&self) -> i32
        ensures { result ≡ entries.doppler self.now };

    /// Returns the satellite and code.
    fn signal(&self) -> Self::Signal
        ensures { result ≡ entries.signal self.now };

    /// Puts the entries of satellites that rise into a list, in place of what it has. Those whose satellite
    /// and code a known one has may be left out, but no others.
    fn put_legacy(satellites: &[Satellite], known: &[Self], found: &mut ArrayVec<Self, 64>)
        requires rise { AreRisingSatellites satellites.now }
        requires known { All InRange known.now }
        ensures { AreLeftBeside entries known.now (legacy satellites.now) found.new.items };

    /// Puts the entries of satellites that rise into an empty list, which has room for them.
    fn push_legacy(satellites: &[Satellite], list: &mut Vec<Self>)
        requires rise { AreRisingSatellites satellites.now }
        requires room { 2 * length satellites.now ≤ vec_capacity list.old }
        requires empty { list.old.items ≡ [] }
        ensures { list.new.items ≡ legacy satellites.now };

    /// Does nothing. An epoch has at most so many entries, whose keys rise.
    fn entries_are_few()
        ensures { (cells : List Self) → KeysRise entries cells → All InRange cells → length cells ≤ most };
}

impl Entry for CellEntry {
    ghost use Rattle.rtk_obs.specs.Cell.{IsInRange};
    ghost use Rattle.rtk_obs.specs.LegacyCells.{cells_of_1004};
    ghost use Rattle.rtk_collect.specs.Gps.{gps};

    type Signal = SatelliteCode;

    ghost entries = { gps };

    ghost InRange = { IsInRange };

    ghost legacy = { cells_of_1004 };

    ghost most = { 1024 };

    fn place(&self) -> usize {
        usize::from(self.satellite) * 16 + self.code.place()
    }

    fn cell(&self) -> &Cell {
        &self.cell
    }

    fn doppler(&self) -> i32 {
        0
    }

    fn signal(&self) -> SatelliteCode {
        SatelliteCode {
            satellite: self.satellite,
            code: self.code,
        }
    }

    fn put_legacy(
        satellites: &[Satellite],
        known: &[CellEntry],
        found: &mut ArrayVec<CellEntry, 64>,
    ) {
        put_cells_left(satellites, known, found);
    }

    fn push_legacy(satellites: &[Satellite], list: &mut Vec<CellEntry>) {
        let mut room = ArrayVec::new();
        put_cells_left(satellites, &[], &mut room);
        let Ok(()) = list.extend_from_slice(room.as_slice()) else {
            unreachable!()
        };
    }

    fn entries_are_few() {}
}

// Puts the entries of satellites that rise into a list, in place of what it has.
fn put_signals_of(satellites: &[Satellite], found: &mut ArrayVec<SignalEntry, 64>)
    requires { AreRisingSatellites satellites.now }
    ensures entries { found.new.items ≡ legacy_entries satellites.now }
    ensures few { length found.new.items ≤ 2 * length satellites.now }
{
    let mut cells = ArrayVec::new();
    put_cells_left(satellites, &[], &mut cells);
    put_signals(cells.as_slice(), found);
}

impl Entry for SignalEntry {
    ghost use Rattle.rtk_obs.specs.SignalCells.{IsSignalInRange};
    ghost use Rattle.rtk_collect.specs.Signals.{signals, legacy_entries};

    type Signal = AnySatelliteCode;

    ghost entries = { signals };

    ghost InRange = { IsSignalInRange };

    ghost legacy = { legacy_entries };

    ghost most = { 7072 };

    fn place(&self) -> usize {
        usize::from(self.satellite.index()) * 128 + self.code.number()
    }

    fn cell(&self) -> &Cell {
        &self.cell
    }

    fn doppler(&self) -> i32 {
        self.doppler_millihertz
    }

    fn signal(&self) -> AnySatelliteCode {
        AnySatelliteCode {
            satellite: self.satellite,
            code: self.code,
        }
    }

    fn put_legacy(
        satellites: &[Satellite],
        _known: &[SignalEntry],
        found: &mut ArrayVec<SignalEntry, 64>,
    ) {
        put_signals_of(satellites, found);
    }

    fn push_legacy(satellites: &[Satellite], list: &mut Vec<SignalEntry>) {
        let mut room = ArrayVec::new();
        put_signals_of(satellites, &mut room);
        let Ok(()) = list.extend_from_slice(room.as_slice()) else {
            unreachable!()
        };
    }

    fn entries_are_few() {}
}
