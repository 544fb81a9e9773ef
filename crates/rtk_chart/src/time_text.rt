//! Lengths of time as text.

ghost use Rattle.std.specs.Prelude.{◌≡◌, ◌++◌, OnOk};
ghost use Rattle.rtk_chart.specs.Heading.{seconds_text, interval_lines};

use rtk_message::put_number;
use rtk_obs::three_digits;
use std::alloc::AllocError;

/// Appends a number of ms in seconds, as in 30.000.
#[tactic(auto, unfolding(crate::specs::Heading::seconds_text))]
pub(crate) fn put_seconds(text: &mut Vec<u8>, ms: u64) -> Result<(), AllocError>
    ensures { OnOk result (text.new.items ≡ text.old.items ++ seconds_text ms) }
{
    put_number(text, ms / 1000)?;
    text.push(b'.')?;
    text.extend_from_slice(&three_digits((ms % 1000) as u16))
}

/// Appends the lines of an interval and the length of a bin.
#[tactic(auto, unfolding(crate::specs::Heading::interval_lines))]
pub(crate) fn put_interval(
    text: &mut Vec<u8>,
    interval: Option<u64>,
    bin_ms: u64,
) -> Result<(), AllocError>
    ensures { OnOk result (text.new.items ≡ text.old.items ++ interval_lines interval bin_ms) }
{
    let Some(ms) = interval else {
        return Ok(());
    };
    text.extend_from_slice(b"interval ")?;
    put_seconds(text, ms)?;
    text.extend_from_slice(b"\ncolumn ")?;
    put_seconds(text, bin_ms)?;
    text.push(b'\n')?;
    Ok(())
}
