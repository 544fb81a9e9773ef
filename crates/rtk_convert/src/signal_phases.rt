//! The last phase of each satellite and code of all systems.

ghost use Rattle.std.specs.Prelude.{◌≡◌, ◌≢◌, ℕ, ◌<◌, ◌≤◌, List, [], ◌∷◌, ◌++◌, Option, None, IfOk, OnOk, unsigned_abs};
ghost use Rattle.rtk_obs.specs.declared.any_code.AnyCode.{AnyCode};
ghost use Rattle.rtk_obs.specs.declared.track.Track.{Track};
ghost use Rattle.rtk_obs.specs.AnyCode.{signal_place};
ghost use Rattle.rtk_obs.specs.Code.{place_of};
ghost use Rattle.rtk_obs.specs.SignalCells.{IsSignalInRange};
ghost use Rattle.rtk_obs.specs.Rollover.{digits_since, last_after};
ghost use Rattle.rtk_obs.specs.Slip.{epoch_cell};
ghost use Rattle.rtk_obs.specs.Tracks.{IsLater};
ghost use Rattle.rtk_convert.specs.LastPhases.{track_at};
ghost use Rattle.rtk_convert.specs.Rows.{rolling_frequency};
ghost use Rattle.rtk_convert.specs.Steps.PhaseBlocks.{HasNoPhases};

use rtk_obs::{Code, Digits, GpsMs, SignalEntry, Tracks};
use std::alloc::{AllocError, Global};
use std::marker::Model;

// The satellites of all systems stand in seven blocks of 32, as many as a `Tracks` has.
const BLOCKS: usize = 7;

const BLOCK: u8 = 32;

/// The last phase of each satellite and code of all systems, some 140 KB.
///
/// A `Tracks` has 16 places for each of 32 satellites. Seven of them have places for the satellites of all
/// systems, and a code stands there under the code of GPS with its place.
#[derive(Drop)]
pub(crate) struct SignalPhases {
    blocks: Vec<Tracks>,
}

impl Model for SignalPhases {
    ghost use Rattle.std.specs.Prelude.{◌≡◌, List, Option, length};
    ghost use Rattle.rtk_obs.specs.declared.track.Track.{Track};
    ghost use Rattle.rtk_convert.specs.Steps.PhaseBlocks.{phases_of};

    ghost Value = { List (Option Track) };

    ghost view = { λ p. phases_of p.blocks.items };

    ghost invariant = { λ p. length p.blocks.items ≡ 7 };
}

// Adds a block without a phase. This function is alone in needing the stack for it.
#[inline(never)]
fn add_block(blocks: &mut Vec<Tracks>) -> Result<(), AllocError>
    ensures { OnOk result ((block : List (Option Track)) × HasNoPhases block × (blocks.new.items ≡ blocks.old.items ++ block ∷ [])) }
{
    blocks.push(Tracks::new())?;
    Ok(())
}

// Returns the code of GPS with this place. Codes have the numbers of their places, so no table is read for a cell.
fn code_at(place: usize) -> Code
    requires { place < 16 }
    ensures { place_of result ≡ place }
{
    match place {
        0 => Code::G1C,
        1 => Code::G1P,
        2 => Code::G1W,
        3 => Code::G1S,
        4 => Code::G1L,
        5 => Code::G1X,
        6 => Code::G2C,
        7 => Code::G2D,
        8 => Code::G2P,
        9 => Code::G2W,
        10 => Code::G2S,
        11 => Code::G2L,
        12 => Code::G2X,
        13 => Code::G5I,
        14 => Code::G5Q,
        15 => Code::G5X,
        _ => unreachable!(),
    }
}

impl SignalPhases {
    /// Makes the state in which no phase came.
    pub(crate) fn new(alloc: Global) -> Result<SignalPhases, AllocError>
        ensures { IfOk result (λ p. (satellite : ℕ) (code : AnyCode) → track_at p satellite code ≡ None) }
    {
        let mut blocks = Vec::with_capacity(alloc, BLOCKS)?;
        'adding: while blocks.len() < BLOCKS {
            add_block(&mut blocks)?;
        }
        Ok(SignalPhases { blocks })
    }

    /// Returns the digits of a cell. Its phase is the last one of its satellite and code from then on. Rolls are
    /// counted by the carrier of the code.
    pub(crate) fn step(&mut self, entry: &SignalEntry, epoch: GpsMs) -> Digits
        requires range { IsSignalInRange entry.now }
        requires later { IsLater (track_at self.old entry.now.satellite entry.now.code) epoch }
        ensures digits { result ≡ digits_since (rolling_frequency entry.now.code) (track_at self.old entry.now.satellite entry.now.code) (epoch_cell epoch entry.now.cell) }
        ensures bound { unsigned_abs result.rolls ≤ epoch }
        ensures same { track_at self.new entry.now.satellite entry.now.code
            ≡ last_after (rolling_frequency entry.now.code) (track_at self.old entry.now.satellite entry.now.code) (epoch_cell epoch entry.now.cell) }
        ensures others { (s : ℕ) (c : AnyCode) → signal_place s c ≢ signal_place entry.now.satellite entry.now.code
            → track_at self.new s c ≡ track_at self.old s c }
    {
        let place = entry.satellite.index() - 1;
        let satellite = place % BLOCK + 1;
        let code = code_at(entry.code.place());
        self.blocks[usize::from(place / BLOCK)].step_any(
            satellite,
            code,
            entry.code,
            epoch,
            &entry.cell,
        )
    }
}
