//! Ticks along the time of a picture.

ghost use Rattle.std.specs.Prelude.{◌≡◌, ◌≤◌, ◌<◌, ◌*◌, ◌++◌, nat_le, OnOk};
ghost use Rattle.std.specs.List.{find};
ghost use Rattle.rtk_chart.specs.Scale.{IsScale, longest_bin};
ghost use Rattle.rtk_chart.specs.Ticks.{tick_steps, tick_step, tick_at, tick_label, label_length};

use crate::scale::Scale;
use rtk_obs::{GpsMs, civil, put_clock, put_date};
use std::alloc::AllocError;

const DAY_MS: u64 = 86_400_000;

/// The steps between ticks, in ms: from 1 s to a week.
const TICK_STEPS: [u64; 20] = [
    1000,
    2000,
    5000,
    10_000,
    15_000,
    30_000,
    60_000,
    120_000,
    300_000,
    600_000,
    900_000,
    1_800_000,
    3_600_000,
    7_200_000,
    10_800_000,
    21_600_000,
    43_200_000,
    DAY_MS,
    172_800_000,
    604_800_000,
];

// The least of the steps that is so long.
fn listed_step(least: u64) -> Option<u64>
    ensures { result ≡ find (λ step. nat_le least step) tick_steps }
{
    TICK_STEPS.iter().copied().find(|step| least <= *step)
}

/// The step between ticks that are so far apart at least.
pub(crate) fn tick_step(least: u64) -> u64
    requires some { 0 < least }
    requires few { least ≤ 145 * longest_bin }
    ensures value { result ≡ tick_step least }
    ensures positive { 0 < result }
{
    let days = (least + 86_399_999) / DAY_MS * DAY_MS;
    listed_step(least).unwrap_or(days)
}

/// The moment of the tick in a bin, if one is there.
pub(crate) fn tick_at(scale: &Scale, step: u64, bin: u64) -> Option<GpsMs>
    requires good { IsScale scale.now }
    requires step { 0 < step }
    requires within { bin < scale.now.bins }
    ensures { result ≡ tick_at scale.now step bin }
{
    let start = scale.bin_start(bin);
    let whole = (start + scale.bin_ms - 1).min(scale.last.ms()) / step * step;
    if start <= whole {
        GpsMs::new(whole)
    } else {
        None
    }
}

/// Appends what stands at a tick.
#[tactic(auto, using(rtk_obs::proofs::PublicLaws::reading_is), unfolding(crate::specs::Ticks::tick_label))]
pub(crate) fn put_tick_label(text: &mut Vec<u8>, step: u64, moment: GpsMs) -> Result<(), AllocError>
    ensures { OnOk result (text.new.items ≡ text.old.items ++ tick_label step moment) }
{
    if step < DAY_MS {
        put_clock(text, civil(moment))?;
    } else {
        put_date(text, civil(moment))?;
    }
    Ok(())
}

/// How many characters stand at a tick.
pub(crate) fn label_length(step: u64) -> u64
    ensures value { result ≡ label_length step }
    ensures some { 0 < result }
    ensures few { result ≤ 10 }
{
    if step < DAY_MS { 8 } else { 10 }
}
