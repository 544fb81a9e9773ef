//! The number of satellites along the time of an SVG picture.

ghost use Rattle.std.specs.Prelude.{◌≡◌, ◌≤◌, ◌<◌, ◌++◌, length, IfOk, OnOk};
ghost use Rattle.rtk_chart.specs.SvgPath.{tracked_in, tracked_counts, most_tracked, step_part, steps_text};

use crate::signs::is_tracked;
use crate::svg_path::edge;
use crate::time_bin::TimeBin;
use rtk_message::put_named;
use std::alloc::{AllocError, Global};

// How many satellites have a phase in a bin.
fn tracked_in(bin: &TimeBin) -> u8
    ensures value { result ≡ tracked_in bin.now }
    ensures bound { result ≤ 32 }
{
    let mut count = 0;
    for tracking in &bin.satellites {
        if is_tracked(tracking) {
            count += 1;
        }
    }
    count
}

/// How many satellites have a phase in each bin.
pub(crate) fn tracked_counts(alloc: Global, bins: &[TimeBin]) -> Result<Vec<u8>, AllocError>
    ensures value { IfOk result (λ counts. counts.items ≡ tracked_counts bins.now) }
    ensures size { IfOk result (λ counts. length counts.items ≡ length bins.now) }
{
    let mut counts = Vec::new(alloc);
    for bin in bins {
        counts.push(tracked_in(bin))?;
    }
    Ok(counts)
}

/// The greatest of these numbers.
pub(crate) fn most_tracked(counts: &[u8]) -> u64
    ensures { result ≡ most_tracked counts.now }
{
    let mut most = 0;
    for count in counts {
        most = u64::from(*count).max(most);
    }
    most
}

// A step to another number.
fn put_step_part(
    text: &mut Vec<u8>,
    most: u64,
    x: u64,
    was: u64,
    now: u64,
) -> Result<(), AllocError>
    requires { now ≤ 255 }
    ensures { OnOk result (text.new.items ≡ text.old.items ++ step_part most x was now) }
{
    if now == was {
        return Ok(());
    }
    put_named(text, b"H", x)?;
    put_named(text, b"V", 40u64.saturating_sub(now * 40 / most.max(1)))
}

/// Appends the steps of the numbers of satellites with a phase in each bin, of which this is the greatest.
pub(crate) fn put_steps(text: &mut Vec<u8>, most: u64, counts: &[u8]) -> Result<(), AllocError>
    requires few { length counts.now ≤ 1440 }
    requires most { most ≡ most_tracked counts.now }
    ensures { OnOk result (text.new.items ≡ text.old.items ++ steps_text counts.now) }
{
    let bins = counts.len() as u64;
    let mut was = 0;
    for bin in 0..counts.len() {
        let now = u64::from(counts[bin]);
        put_step_part(text, most, edge(bins, bin as u64), was, now)?;
        was = now;
    }
    Ok(())
}
