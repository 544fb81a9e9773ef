//! What an epoch shows of a satellite.

ghost use Rattle.std.specs.Prelude.{◌≡◌, ◌+◌, ℕ};
ghost use Rattle.rtk_tracking.specs.Epochs.{observed_in, shows_phase};

use rtk_rinex::{Observed, SatelliteRow};

/// Returns what the codes of a satellite show by the rows of an epoch, or nothing if it has no row.
pub fn observed_in(rows: &[SatelliteRow], satellite: u8) -> &[Observed]
    ensures { result.now ≡ observed_in satellite rows.now }
{
    for row in rows {
        if row.satellite == satellite {
            return row.observed.as_slice();
        }
    }
    &[]
}

/// Returns whether the code at this place shows a phase.
pub fn shows_phase(observed: &[Observed], place: usize) -> bool
    ensures { result ≡ shows_phase place observed.now }
{
    place < observed.len() && observed[place].phase_millicycles.is_some()
}
