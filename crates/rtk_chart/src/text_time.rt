//! The time along a picture in characters.

ghost use Rattle.std.specs.Prelude.{◌≡◌, ◌<◌, ◌++◌, OnOk};
ghost use Rattle.rtk_chart.specs.Scale.{IsScale};
ghost use Rattle.rtk_chart.specs.Ticks.{tick_at};
ghost use Rattle.rtk_chart.specs.TextPicture.{axis_mark, axis_row, has_label, is_covered, label_text, label_part, label_row, time_rows};

use crate::scale::Scale;
use crate::ticks::{label_length, put_tick_label, tick_at, tick_step};
use rtk_obs::GpsMs;
use std::alloc::AllocError;

// How many characters of a row stand before its bins, as in G05|.
const LABEL: u64 = 4;

fn axis_mark(tick: Option<GpsMs>) -> u8
    ensures { result ≡ axis_mark tick }
{
    if tick.is_some() { b'+' } else { b'-' }
}

fn put_axis(text: &mut Vec<u8>, scale: &Scale, step: u64) -> Result<(), AllocError>
    requires good { IsScale scale.now }
    requires step { 0 < step }
    ensures { OnOk result (text.new.items ≡ text.old.items ++ axis_row scale.now step) }
{
    text.extend_from_slice(b"    ")?;
    for bin in 0..scale.bins {
        text.push(axis_mark(tick_at(scale, step, bin)))?;
    }
    text.push(b'\n')?;
    Ok(())
}

// The tick in a bin has a label: there is room for it.
fn has_label(scale: &Scale, width: u16, step: u64, bin: u64) -> bool
    requires good { IsScale scale.now }
    requires step { 0 < step }
    requires within { bin < scale.now.bins }
    ensures { result ≡ has_label scale.now width step bin }
{
    bin + label_length(step) + LABEL <= u64::from(width) && tick_at(scale, step, bin).is_some()
}

// A label before this bin ends in it or after it.
fn is_covered(scale: &Scale, width: u16, step: u64, bin: u64) -> bool
    requires good { IsScale scale.now }
    requires step { 0 < step }
    requires within { bin < scale.now.bins }
    ensures { result ≡ is_covered scale.now width step bin }
{
    let longest = label_length(step) - 1;
    for before in bin.saturating_sub(longest)..bin {
        if has_label(scale, width, step, before) {
            return true;
        }
    }
    false
}

fn put_label_text(text: &mut Vec<u8>, step: u64, tick: Option<GpsMs>) -> Result<(), AllocError>
    ensures { OnOk result (text.new.items ≡ text.old.items ++ label_text step tick) }
{
    match tick {
        Some(moment) => put_tick_label(text, step, moment),
        None => Ok(()),
    }
}

// What a bin adds to the row of labels. A label is longer than its bin, so the bins under it add nothing.
fn put_label_part(
    text: &mut Vec<u8>,
    scale: &Scale,
    width: u16,
    step: u64,
    bin: u64,
) -> Result<(), AllocError>
    requires good { IsScale scale.now }
    requires step { 0 < step }
    requires within { bin < scale.now.bins }
    ensures { OnOk result (text.new.items ≡ text.old.items ++ label_part scale.now width step bin) }
{
    if has_label(scale, width, step, bin) {
        return put_label_text(text, step, tick_at(scale, step, bin));
    }
    if !is_covered(scale, width, step, bin) {
        text.extend_from_slice(b" ")?;
    }
    Ok(())
}

fn put_labels(text: &mut Vec<u8>, scale: &Scale, width: u16, step: u64) -> Result<(), AllocError>
    requires good { IsScale scale.now }
    requires step { 0 < step }
    ensures { OnOk result (text.new.items ≡ text.old.items ++ label_row scale.now width step) }
{
    text.extend_from_slice(b"    ")?;
    for bin in 0..scale.bins {
        put_label_part(text, scale, width, step, bin)?;
    }
    text.push(b'\n')?;
    Ok(())
}

/// Appends the ticks and their labels, in a picture so many characters wide.
pub(crate) fn put_time(text: &mut Vec<u8>, scale: &Scale, width: u16) -> Result<(), AllocError>
    requires { IsScale scale.now }
    ensures { OnOk result (text.new.items ≡ text.old.items ++ time_rows scale.now width) }
{
    let step = tick_step(12 * scale.bin_ms);
    put_axis(text, scale, step)?;
    put_labels(text, scale, width, step)?;
    Ok(())
}
