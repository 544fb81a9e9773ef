//! How a moment is written.
//!
//! If memory is refused, a first part of what is put may stand there.

ghost use Rattle.std.specs.Prelude.{◌≡◌, ◌≤◌, ◌++◌, OnOk};
ghost use Rattle.rtk_obs.specs.declared.time.TheConstants.{LAST_MS};
ghost use Rattle.rtk_obs.specs.Reading.{reading_of};
ghost use Rattle.rtk_captures.specs.TimeText as spec;

use rtk_obs::{Civil, GpsMs, civil, put_clock, put_date};
use std::alloc::AllocError;

/// The reading of a moment.
pub fn reading(moment: GpsMs) -> Civil
    ensures { result ≡ reading_of moment }
{
    civil(moment)
}

/// Appends a moment as an option writes it.
#[tactic(auto, unfolding(crate::specs::TimeText::time_text))]
pub fn put_time(line: &mut Vec<u8>, moment: GpsMs) -> Result<(), AllocError>
    ensures { OnOk result (line.new.items ≡ line.old.items ++ spec.time_text moment) }
{
    let reading = reading(moment);
    put_date(line, reading)?;
    line.push(b'T')?;
    put_clock(line, reading)
}

/// Appends a moment of so many ms as an option writes it.
pub fn put_time_at(line: &mut Vec<u8>, ms: u64) -> Result<(), AllocError>
    requires { ms ≤ LAST_MS }
    ensures { OnOk result (line.new.items ≡ line.old.items ++ spec.time_text ms) }
{
    let Some(moment) = GpsMs::new(ms) else {
        unreachable!();
    };
    put_time(line, moment)
}
