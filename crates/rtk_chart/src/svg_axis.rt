//! What stands below the bands of an SVG picture: missing epochs, numbers of satellites, and ticks.

ghost use Rattle.std.specs.Prelude.{◌≡◌, ◌≤◌, ◌<◌, ◌+◌, ◌*◌, ◌/◌, ◌++◌, length, OnOk};
ghost use Rattle.rtk_chart.specs.Scale.{IsScale, longest_bin};
ghost use Rattle.rtk_chart.specs.SvgPicture.{gaps_band, satellites_band, label_start, tick_text, svg_tick_step, ticks_text};

use crate::scale::Scale;
use crate::svg_layers::put_runs_layer;
use crate::svg_path::edge;
use crate::svg_steps::{most_tracked, put_steps};
use crate::svg_text::put_between;
use crate::ticks::{put_tick_label, tick_at, tick_step};
use rtk_obs::GpsMs;
use std::alloc::AllocError;

// Where the bins begin, from the left, in units of SVG.
const LEFT: u64 = 110;

const GAPS_START: &[u8] = b")'>\n<title>missing epochs</title>\n\
<text class='code' x='-6' y='18'>missing</text>\n";

const SATELLITES_START: &[u8] = b")'>\n<title>satellites with a phase</title>\n\
<text class='code' x='-6' y='18'>satellites</text>\n";

/// Appends the row of the bins with missing epochs.
pub(crate) fn put_gaps(text: &mut Vec<u8>, top: u64, gaps: &[bool]) -> Result<(), AllocError>
    requires { length gaps.now ≤ 1440 }
    ensures { OnOk result (text.new.items ≡ text.old.items ++ gaps_band top gaps.now) }
{
    put_between(text, b"<g transform='translate(110 ", top, GAPS_START)?;
    put_runs_layer(text, b"g", b" 12", b"", gaps)?;
    text.extend_from_slice(b"</g>\n")?;
    Ok(())
}

/// Appends the row of the numbers of satellites in each bin.
pub(crate) fn put_satellites(text: &mut Vec<u8>, top: u64, counts: &[u8]) -> Result<(), AllocError>
    requires { length counts.now ≤ 1440 }
    ensures { OnOk result (text.new.items ≡ text.old.items ++ satellites_band top counts.now) }
{
    let most = most_tracked(counts);
    put_between(text, b"<g transform='translate(110 ", top, SATELLITES_START)?;
    put_between(
        text,
        b"<text class='code' x='-6' y='38'>at most ",
        most,
        b"</text>\n<path class='n' d='M0 40",
    )?;
    put_steps(text, most, counts)?;
    text.extend_from_slice(b"H1440V40z'/>\n</g>\n")?;
    Ok(())
}

// What stands before the place of a label. A narrow picture has room for each second one.
fn label_start(step: u64, moment: GpsMs) -> &'static [u8]
    requires { 0 < step }
    ensures { result.now ≡ label_start step moment }
{
    if moment.ms() / step % 2 == 0 {
        b"<text class='tick' x='"
    } else {
        b"<text class='tick odd' x='"
    }
}

// A line at a tick, from below the heading through all bands, and its label under the line.
fn put_tick(
    text: &mut Vec<u8>,
    top: u64,
    step: u64,
    x: u64,
    tick: Option<GpsMs>,
) -> Result<(), AllocError>
    requires top { top ≤ 2_000_000 }
    requires step { 0 < step }
    ensures { OnOk result (text.new.items ≡ text.old.items ++ tick_text top step x tick) }
{
    let Some(moment) = tick else {
        return Ok(());
    };
    put_between(text, b"<path class='t' d='M", x, b" 106V")?;
    put_between(text, b"", top, b"'/>\n")?;
    put_between(text, label_start(step, moment), x, b"' y='")?;
    put_between(text, b"", top + 22, b"'>")?;
    put_tick_label(text, step, moment)?;
    text.extend_from_slice(b"</text>\n")?;
    Ok(())
}

// How long the step between ticks is at least: more than 144 units of SVG.
fn least_step(bins: u64, bin_ms: u64) -> u64
    requires bins { bins ≤ 1440 }
    requires some { 0 < bin_ms }
    requires bound { bin_ms ≤ longest_bin }
    ensures value { result ≡ (bins / 10 + 1) * bin_ms }
    ensures positive { 0 < result }
    ensures few { result ≤ 145 * longest_bin }
{
    (bins / 10 + 1) * bin_ms
}

/// Appends the ticks of the bins.
pub(crate) fn put_ticks(text: &mut Vec<u8>, scale: &Scale, top: u64) -> Result<(), AllocError>
    requires good { IsScale scale.now }
    requires top { top ≤ 2_000_000 }
    ensures { OnOk result (text.new.items ≡ text.old.items ++ ticks_text scale.now (svg_tick_step scale.now) top) }
{
    let step = tick_step(least_step(scale.bins, scale.bin_ms));
    for bin in 0..scale.bins {
        let tick = tick_at(scale, step, bin);
        put_tick(text, top, step, LEFT + edge(scale.bins, bin), tick)?;
    }
    Ok(())
}
