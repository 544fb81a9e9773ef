//! What a conversion asks of the cells of its window.

ghost use Rattle.std.specs.Prelude.{◌≡◌, ℕ, ◌<◌, ◌≤◌, List, map, Option, None, IfOk, unsigned_abs, ◌≢◌};
ghost use Rattle.rtk_obs.specs.declared.any_code.AnyCode.{AnyCode};
ghost use Rattle.rtk_obs.specs.declared.signal_cells.SignalEntry.{SignalEntry};
ghost use Rattle.rtk_obs.specs.declared.track.Track.{Track};
ghost use Rattle.rtk_obs.specs.AnyCode.{place_of, signal_place};
ghost use Rattle.rtk_obs.specs.Rollover.{digits_since, last_after};
ghost use Rattle.rtk_obs.specs.SignalCells.{IsSignalInRange};
ghost use Rattle.rtk_obs.specs.Slip.{epoch_cell};
ghost use Rattle.rtk_obs.specs.Tracks.{IsLater};
ghost use Rattle.rtk_collect.specs.declared.conflicts.AnySatelliteCode.{AnySatelliteCode};
ghost use Rattle.rtk_collect.specs.EpochSet.{AreLeftBeside};
ghost use Rattle.rtk_collect.specs.Key.{KeysRise};
ghost use Rattle.rtk_collect.specs.Signals.{signals};
ghost use Rattle.rtk_convert.specs.LastPhases.{track_at};
ghost use Rattle.rtk_convert.specs.Rows.{rolling_frequency};
ghost use Rattle.rtk_convert.specs.Steps.OfferedMessage.{index_or_first};

use crate::row_lines::RowLines;
use crate::signal_phases::SignalPhases;
use rtk_collect::{AnySatelliteCode, Entry, SatelliteCode};
use rtk_obs::{AnyCode, CellEntry, Digits, GpsMs, SatelliteIndex, SignalEntry, Tracks};
use rtk_rinex::{MixedRecordLines, RecordLines};
use std::alloc::{AllocError, Global};

/// A cell of a window, as a conversion shows it: one of GPS, or one of any system. Clauses see each as one of
/// any system.
pub(crate) trait FileEntry: Entry {
    /// The last phases of satellites and codes.
    type Phases: Drop;

    /// The text of a record.
    type Lines: RowLines;

    /// The cell as one of any system.
    ghost signal_of: { Self → SignalEntry };

    /// A satellite with a code as those of any system.
    ghost name_of: { Self.Signal → AnySatelliteCode };

    /// The last phases, at the places of their satellites and codes.
    ghost places: { Self.Phases → List (Option Track) };

    /// Makes the state in which no phase came, on the heap.
    fn new_phases(alloc: Global) -> Result<Box<Self::Phases>, AllocError>
        ensures { IfOk result (λ phases. (satellite : ℕ) (code : AnyCode) → track_at (places phases.value) satellite code ≡ None) };

    /// Returns the index of the satellite.
    fn satellite(&self) -> u8
        ensures { result ≡ (signal_of self.now).satellite };

    /// Returns the place of the code among those of its system.
    fn code_place(&self) -> usize
        ensures value { result ≡ place_of (signal_of self.now).code }
        ensures bound { result < 16 };

    /// Returns the digits of the cell. Its phase is the last one of its satellite and code from then on.
    fn step(&self, phases: &mut Self::Phases, epoch: GpsMs) -> Digits
        requires range { Self.InRange self.now }
        requires later { IsLater (track_at (places phases.old) (signal_of self.now).satellite (signal_of self.now).code) epoch }
        ensures digits { result ≡ digits_since (rolling_frequency (signal_of self.now).code)
            (track_at (places phases.old) (signal_of self.now).satellite (signal_of self.now).code) (epoch_cell epoch (signal_of self.now).cell) }
        ensures bound { unsigned_abs result.rolls ≤ epoch }
        ensures same { track_at (places phases.new) (signal_of self.now).satellite (signal_of self.now).code
            ≡ last_after (rolling_frequency (signal_of self.now).code)
            (track_at (places phases.old) (signal_of self.now).satellite (signal_of self.now).code) (epoch_cell epoch (signal_of self.now).cell) }
        ensures others { (s : ℕ) (c : AnyCode) → signal_place s c ≢ signal_place (signal_of self.now).satellite (signal_of self.now).code
            → track_at (places phases.new) s c ≡ track_at (places phases.old) s c };

    /// Returns a satellite with a code as those of any system.
    fn name(signal: Self::Signal) -> AnySatelliteCode
        ensures { result ≡ name_of signal };

    /// Does nothing. Cells are as cells of any system: their values and Doppler shifts are the same, they rise in the same order,
    /// each in range is in range, of a satellite that can have a line, and the same are left beside others.
    fn cells_are_signals()
        ensures values { (e : Self) → Self.entries.cell e ≡ (signal_of e).cell }
        ensures shifts { (e : Self) → Self.entries.doppler e ≡ (signal_of e).doppler_millihertz }
        ensures rise { (cells : List Self) → KeysRise Self.entries cells → KeysRise signals (map signal_of cells) }
        ensures range { (e : Self) → Self.InRange e → IsSignalInRange (signal_of e) }
        ensures lines { (e : Self) → Self.InRange e → (signal_of e).satellite ≤ Self.Lines.greatest }
        ensures left { (known cells more : List Self) → AreLeftBeside Self.entries known cells more
            → AreLeftBeside signals (map signal_of known) (map signal_of cells) (map signal_of more) };
}

// Returns the index of a satellite. A conflict has the satellite of a cell, so it is never that of the first one
// for a number that no satellite has.
fn index_or_first(satellite: u8) -> SatelliteIndex
    ensures { result ≡ index_or_first satellite }
{
    match SatelliteIndex::new(satellite) {
        Some(satellite) => satellite,
        None => SatelliteIndex::default(),
    }
}

impl FileEntry for CellEntry {
    type Phases = Tracks;

    type Lines = RecordLines;

    ghost use Rattle.rtk_obs.specs.SignalCells.{signal_of};
    ghost use Rattle.rtk_convert.specs.Steps.OfferedMessage.{name_of_gps};

    ghost signal_of = { signal_of };

    ghost name_of = { name_of_gps };

    ghost places = { λ phases. phases };

    // This function is alone in needing the stack for the phases, which is gone when it returns.
    #[inline(never)]
    fn new_phases(alloc: Global) -> Result<Box<Tracks>, AllocError> {
        let empty = Tracks::new();
        let phases = Box::new(alloc, empty)?;
        Ok(phases)
    }

    fn satellite(&self) -> u8 {
        self.satellite
    }

    fn code_place(&self) -> usize {
        self.code.place()
    }

    #[inline(always)]
    fn step(&self, phases: &mut Tracks, epoch: GpsMs) -> Digits {
        phases.step(self.satellite, self.code, epoch, &self.cell)
    }

    fn name(signal: SatelliteCode) -> AnySatelliteCode {
        AnySatelliteCode {
            satellite: index_or_first(signal.satellite),
            code: AnyCode::of_gps(signal.code),
        }
    }

    fn cells_are_signals() {}
}

impl FileEntry for SignalEntry {
    type Phases = SignalPhases;

    type Lines = MixedRecordLines;

    ghost signal_of = { λ e. e };

    ghost name_of = { λ signal. signal };

    ghost places = { λ phases. phases };

    fn new_phases(alloc: Global) -> Result<Box<SignalPhases>, AllocError> {
        let phases = SignalPhases::new(alloc)?;
        Ok(Box::new(alloc, phases)?)
    }

    fn satellite(&self) -> u8 {
        self.satellite.index()
    }

    fn code_place(&self) -> usize {
        self.code.place()
    }

    fn step(&self, phases: &mut SignalPhases, epoch: GpsMs) -> Digits {
        phases.step(self, epoch)
    }

    fn name(signal: AnySatelliteCode) -> AnySatelliteCode {
        signal
    }

    fn cells_are_signals() {}
}
