//! The last phase of each satellite and code, and one step over a cell.
//!
//! `Tracks` has some 20 kB. Build it where it stays and pass it by `&mut`.

ghost use Rattle.std.specs.Prelude.{◌≡◌, ◌≢◌, ℕ, ◌<◌, ◌≤◌, true, List, [], ◌∷◌, Option, Some, None, unsigned_abs};
ghost use Rattle.rtk_obs.specs.declared.any_code.AnyCode.{AnyCode};
ghost use Rattle.rtk_obs.specs.declared.code.Code.{Code};
ghost use Rattle.rtk_obs.specs.declared.track.Track.{Track};
ghost use Rattle.rtk_obs.specs.declared.time.TheConstants.{LAST_MS};
ghost use Rattle.rtk_obs.specs.declared.tracks.TheConstants.{SIGNALS};
ghost use Rattle.rtk_obs.specs.AnyCode.{carrier_of};
ghost use Rattle.rtk_obs.specs.Carriers.{roll_frequency};
ghost use Rattle.rtk_obs.specs.Code.{frequency_of_code};
ghost use Rattle.rtk_obs.specs.Cell.{IsSatellite};
ghost use Rattle.rtk_obs.specs.Slip.{has_phase, epoch_cell};
ghost use Rattle.rtk_obs.specs.Rollover.{last_after, last_phase, digits_since, rolls_since, track_of};
ghost use Rattle.rtk_obs.specs.CellSteps.{Step, step_of, epoch_cells_of};
ghost use Rattle.rtk_obs.specs.Tracks.{IsBounded, IsLater, track_at, place_of_signal, RepresentsSteps};

use crate::any_code::AnyCode;
use crate::cell::Cell;
use crate::code::Code;
use crate::rollover::{RollCode, rolls_after};
use crate::slip::has_slipped;
use crate::time::GpsMs;
use crate::track::{Digits, Track};
use std::marker::Model;

/// How many signals there are: 32 satellites times 16 codes.
pub const SIGNALS: usize = 512;

/// The last phase of each satellite from 1 to 32 and each code, some 20 KB.
///
/// Contracts see the list of places, read by `track_at`, or what it represents: a list of steps.
#[derive(Drop)]
pub struct Tracks {
    last: [Option<Track>; SIGNALS],
}

// Clauses see the list of places.
impl Model for Tracks {
    ghost use Rattle.std.specs.Prelude.{List, Option};
    ghost use Rattle.rtk_obs.specs.declared.track.Track.{Track};
    ghost use Rattle.rtk_obs.specs.Tracks.{HasPlaces};

    ghost Value = { List (Option Track) };

    ghost view = { λ t. t.last };

    ghost invariant = { λ t. HasPlaces t.last };
}

/// Returns the place of a satellite and code among all signals, from 0.
pub fn place_of_signal(satellite: u8, code: Code) -> usize
    requires { IsSatellite satellite }
    ensures value { result ≡ place_of_signal satellite code }
    ensures bound { result < SIGNALS }
{
    usize::from(satellite - 1) * 16 + code.place()
}

// Returns the digits of a cell whose phase is compared with the last one.
fn digits_after<C: RollCode>(code: C, last: &Option<Track>, epoch: u64, cell: &Cell) -> Digits
    requires phase { has_phase (epoch_cell epoch cell.now) ≡ true }
    requires later { IsLater last.now epoch }
    requires range { epoch ≤ LAST_MS }
    requires bounded { IsBounded last.now }
    ensures value { result ≡ digits_since (C.frequency code) last.now (epoch_cell epoch cell.now) }
    ensures bound { unsigned_abs result.rolls ≤ epoch }
{
    match last {
        Some(last) => {
            let slip = has_slipped(last, epoch, cell);
            Digits {
                slip,
                half: cell.half,
                rolls: rolls_after(code, last, slip, cell),
            }
        }
        None => Digits {
            slip: false,
            half: cell.half,
            rolls: 0,
        },
    }
}

// Returns what is remembered of a cell with a phase.
fn track_of(cell: &Cell, epoch: u64, rolls: i64) -> Track
    ensures value { (frequency : ℕ) (last : Option Track) → rolls ≡ rolls_since frequency last (epoch_cell epoch cell.now)
        → result ≡ track_of frequency last (epoch_cell epoch cell.now) }
    ensures bound { unsigned_abs rolls ≤ epoch → IsBounded (Some result) }
{
    Track {
        epoch,
        lock_time_ms: cell.lock_time_ms,
        source: cell.source,
        offset: cell.offset,
        rolls,
    }
}

impl Tracks {
    /// Makes tracks to which no phase came yet.
    pub fn new() -> Tracks
        ensures represents { RepresentsSteps result [] }
        ensures empty { (satellite : ℕ) (code : Code) → track_at result satellite code ≡ None }
    {
        Tracks {
            last: [None; SIGNALS],
        }
    }

    // Returns the digits of a cell at the place of a satellite and code, by the frequency of its own code.
    #[inline(always)]
    fn step_with<C: RollCode>(
        &mut self,
        satellite: u8,
        place_code: Code,
        code: C,
        epoch: GpsMs,
        cell: &Cell,
    ) -> Digits
        requires satellite { IsSatellite satellite }
        requires later { IsLater (track_at self.old satellite place_code) epoch }
        ensures digits { result ≡ digits_since (C.frequency code) (track_at self.old satellite place_code) (epoch_cell epoch cell.now) }
        ensures bound { unsigned_abs result.rolls ≤ epoch }
        ensures same { track_at self.new satellite place_code
            ≡ last_after (C.frequency code) (track_at self.old satellite place_code) (epoch_cell epoch cell.now) }
        ensures others { (s : ℕ) (c : Code) → place_of_signal s c ≢ place_of_signal satellite place_code
            → track_at self.new s c ≡ track_at self.old s c }
    {
        if cell.phase_millicycles.is_none() {
            return Digits {
                slip: false,
                half: false,
                rolls: 0,
            };
        }
        let epoch = epoch.ms();
        let place = place_of_signal(satellite, place_code);
        let digits = digits_after(code, &self.last[place], epoch, cell);
        self.last[place] = Some(track_of(cell, epoch, digits.rolls));
        digits
    }

    /// Returns the digits of a cell of a satellite and code. The phase of the cell is the last one
    /// from then on.
    ///
    /// A cell without a phase has neither slip nor half-cycle mark nor rolls, and changes nothing.
    #[inline(always)]
    pub fn step(&mut self, satellite: u8, code: Code, epoch: GpsMs, cell: &Cell) -> Digits
        requires satellite { IsSatellite satellite }
        requires later { IsLater (track_at self.old satellite code) epoch }
        ensures digits { result ≡ digits_since (frequency_of_code code) (track_at self.old satellite code) (epoch_cell epoch cell.now) }
        ensures bound { unsigned_abs result.rolls ≤ epoch }
        ensures same { track_at self.new satellite code
            ≡ last_after (frequency_of_code code) (track_at self.old satellite code) (epoch_cell epoch cell.now) }
        ensures others { (s : ℕ) (c : Code) → place_of_signal s c ≢ place_of_signal satellite code
            → track_at self.new s c ≡ track_at self.old s c }
        ensures history { (steps : List Step) → RepresentsSteps self.old steps → result ≡ digits_since (frequency_of_code code)
            (last_phase (frequency_of_code code) (epoch_cells_of satellite code steps)) (epoch_cell epoch cell.now) }
        ensures after { (steps : List Step) → RepresentsSteps self.old steps
            → RepresentsSteps self.new (step_of satellite code epoch cell.now ∷ steps) }
    {
        self.step_with(satellite, code, code, epoch, cell)
    }

    /// Returns the digits of a cell of a code of any system, as `step` does. The cell stands at the place of a
    /// satellite from 1 to 32 and of a code of GPS, and its rolls are counted by the frequency of its own
    /// carrier.
    pub fn step_any(
        &mut self,
        satellite: u8,
        place_code: Code,
        code: AnyCode,
        epoch: GpsMs,
        cell: &Cell,
    ) -> Digits
        requires satellite { IsSatellite satellite }
        requires later { IsLater (track_at self.old satellite place_code) epoch }
        ensures digits { result ≡ digits_since (roll_frequency (carrier_of code)) (track_at self.old satellite place_code) (epoch_cell epoch cell.now) }
        ensures bound { unsigned_abs result.rolls ≤ epoch }
        ensures same { track_at self.new satellite place_code
            ≡ last_after (roll_frequency (carrier_of code)) (track_at self.old satellite place_code) (epoch_cell epoch cell.now) }
        ensures others { (s : ℕ) (c : Code) → place_of_signal s c ≢ place_of_signal satellite place_code
            → track_at self.new s c ≡ track_at self.old s c }
    {
        self.step_with(satellite, place_code, code, epoch, cell)
    }
}
