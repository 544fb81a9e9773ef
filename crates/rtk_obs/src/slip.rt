//! Loss of lock since the last phase.

ghost use Rattle.std.specs.Prelude.{◌≡◌, ◌≤◌};
ghost use Rattle.rtk_obs.specs.Slip.{has_slipped, epoch_cell};

use crate::cell::Cell;
use crate::track::Track;

/// Returns whether the phase has slipped. It has if the lock time is shorter than the time since
/// the last phase, or if the last phase came in the same kind of message with a longer lock time.
pub(crate) fn has_slipped(last: &Track, epoch: u64, cell: &Cell) -> bool
    requires { last.now.epoch ≤ epoch }
    ensures { result ≡ has_slipped last.now (epoch_cell epoch cell.now) }
{
    u64::from(cell.lock_time_ms) < epoch - last.epoch
        || (cell.source == last.source && cell.lock_time_ms < last.lock_time_ms)
}
