//! What the satellites of an epoch show, and the rows in which it stands.

ghost use Rattle.std.specs.Prelude.{◌≡◌, ◌<◌, ◌≤◌, [], ◌∷◌, ◌++◌, length, All};
ghost use Rattle.rtk_rinex.specs.declared.epoch_table.SatelliteRow.{SatelliteRow};

use arrayvec::ArrayVec;
use rtk_obs::GpsMs;
use std::marker::Model;

/// What one code of a satellite shows. Source: RINEX 3.05, Table A3.
#[derive(Clone, Copy, Debug, Default, PartialEq, Eq)]
pub struct Observed {
    /// The pseudorange in mm.
    pub range_mm: Option<i64>,
    /// The carrier phase in thousandths of a cycle.
    pub phase_millicycles: Option<i64>,
    /// The Doppler shift in thousandths of a Hz. Only files of any systems show it, and only those whose head says so.
    pub doppler_millihertz: Option<i64>,
    /// The signal strength in thousandths of a dB-Hz.
    pub strength_millidbhz: Option<u32>,
    /// The phase has slipped since the last one.
    pub slip: bool,
    /// The phase has an open half-cycle ambiguity.
    pub half: bool,
}

/// A satellite, 1 to 32, with what each listed code shows, in the order of the codes. Source: RINEX
/// 3.05, Table A3.
#[derive(Default, Drop)]
pub struct SatelliteRow {
    pub satellite: u8,
    pub observed: ArrayVec<Observed, 16>,
}

/// An epoch with the rows of its satellites, rising; a contract sees its `EpochTableView`.
///
/// The strengths are values that a message can give: 250 to 63,750 thousandths of a dB-Hz in steps
/// of 250. The rows after the first `count` keep what an earlier epoch left there, since a table is
/// used for one epoch after another, and to blank its rows takes as long as to fill them.
#[derive(Drop)]
pub struct EpochTable {
    time: GpsMs,
    rows: [SatelliteRow; 32],
    count: usize,
}

impl Model for EpochTable {
    ghost use Rattle.std.specs.Prelude.{◌≡◌, ◌≤◌, length, take};
    ghost use Rattle.rtk_rinex.specs.Record.{EpochTableView, IsEpochTableView};

    ghost Value = { EpochTableView };

    ghost view = { λ t. record { time = t.time; rows = take t.count t.rows } };

    ghost invariant = { λ t. (t.count ≤ 32) × (length t.rows ≡ 32)
        × IsEpochTableView (record { time = t.time; rows = take t.count t.rows }) };
}

// Writes observations over more or fewer ones.
#[inline(never)]
fn put_anew(kept: &mut ArrayVec<Observed, 16>, observed: &[Observed])
    requires { length observed.now ≤ 16 }
    ensures { kept.new ≡ record { items = observed.now } }
{
    kept.clear();
    if kept.try_extend_from_slice(observed).is_err() {
        unreachable!();
    }
}

// Writes observations over others, of which there are mostly as many.
fn put_observed(kept: &mut ArrayVec<Observed, 16>, observed: &[Observed])
    requires { length observed.now ≤ 16 }
    ensures { kept.new ≡ record { items = observed.now } }
{
    if kept.len() == observed.len() {
        kept.as_mut_slice().copy_from_slice(observed);
    } else {
        put_anew(kept, observed);
    }
}

impl EpochTable {
    ghost use Rattle.rtk_rinex.specs.Record.{EpochTableView, IsEpochTableView, IsSatelliteRow};

    /// Makes the table of an epoch without satellites.
    pub fn new(time: GpsMs) -> EpochTable
        ensures { result ≡ record { time = time; rows = [] } }
    {
        EpochTable {
            time,
            rows: Default::default(),
            count: 0,
        }
    }

    /// Begins the table of another epoch, without satellites.
    pub fn restart(&mut self, time: GpsMs)
        ensures { self.new ≡ record { time = time; rows = [] } }
    {
        self.count = 0;
        self.time = time;
    }

    /// Adds the row of a satellite that is greater than those before, written where it stays.
    pub fn push_row(&mut self, satellite: u8, observed: &[Observed])
        requires few { length observed.now ≤ 16 }
        requires good { IsSatelliteRow (record { satellite = satellite; observed = record { items = observed.now } }) }
        requires later { All (λ r. r.satellite < satellite) self.old.rows }
        requires room { length self.old.rows < 32 }
        ensures { self.new ≡ record {
          time = self.old.time;
          rows = self.old.rows ++ record { satellite = satellite; observed = record { items = observed.now } } ∷ [];
        } }
    {
        let row = &mut self.rows[self.count];
        row.satellite = satellite;
        put_observed(&mut row.observed, observed);
        self.count += 1;
    }

    /// Returns the moment of the epoch.
    pub fn time(&self) -> GpsMs
        ensures { result ≡ self.now.time }
    {
        self.time
    }

    /// Returns the rows of the satellites, which rise.
    pub fn rows(&self) -> &[SatelliteRow]
        ensures value { result.now ≡ self.now.rows }
        ensures good { IsEpochTableView self.now }
        ensures few { length result.now ≤ 32 }
    {
        &self.rows[..self.count]
    }
}
