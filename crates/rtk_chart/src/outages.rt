//! In which bins satellites have an outage. The 32 satellites of a bin stand side by side in one list.

ghost use Rattle.std.specs.Prelude.{◌≡◌, ◌≤◌, ◌<◌, ◌*◌, ◌/◌, ◌%◌, ◌==◌, ◌&&◌, nat_le, List, [], ◌∷◌, length, IfOk};
ghost use Rattle.rtk_obs.specs.Reading.{IsMoment};
ghost use Rattle.rtk_rinex.specs.Record.{EpochTableView};
ghost use Rattle.rtk_tracking.specs.Epochs.{newest_moment};
ghost use Rattle.rtk_chart.specs.Scale.{IsScale};
ghost use Rattle.rtk_chart.specs.Grid.{is_out_before, outages_of, is_out};
ghost use Rattle.rtk_chart.specs.SvgPicture.{outage_flags};
ghost use Rattle.rtk_chart.specs.Steps.Standing.{AddsMarks, StandForPasses};

use crate::scale::Scale;
use rtk_rinex::EpochTable;
use rtk_tracking::{Pass, observed_in};
use std::alloc::{AllocError, Global};

// Marks the satellite at a place in the bins from one to another, both with it.
fn mark(outages: &mut Vec<bool>, place: usize, from: u64, to: u64)
    requires place { place < 32 }
    requires whole { length outages.old.items % 32 ≡ 0 }
    ensures { AddsMarks (λ slot. (slot % 32 == place) && (nat_le from (slot / 32) && nat_le (slot / 32) to)) outages.old.items outages.new.items }
{
    for bin in 0..outages.len() / 32 {
        if from <= bin as u64 && bin as u64 <= to {
            outages[32 * bin + place] = true;
        }
    }
}

// Marks the bins of the outage of the satellite at a place, if one that was so long ends at a moment.
fn mark_outage(
    outages: &mut Vec<bool>,
    scale: &Scale,
    place: usize,
    moment: u64,
    outage_ms: Option<u64>,
)
    requires good { IsScale scale.now }
    requires moment { IsMoment moment }
    requires place { place < 32 }
    requires whole { length outages.old.items % 32 ≡ 0 }
    ensures { AddsMarks (λ slot. (slot % 32 == place) && is_out_before scale.now outage_ms moment (slot / 32)) outages.old.items outages.new.items }
{
    if let Some(outage_ms) = outage_ms {
        let from = scale.bin_at(moment.saturating_sub(outage_ms));
        let to = scale.bin_at(moment.saturating_sub(scale.unit));
        mark(outages, place, from, to);
    }
}

/// Marks the bins of the outages that end with an epoch, if the passes are those of the epochs before it, of
/// which the last one is at this moment.
pub(crate) fn note_outages(
    outages: &mut Vec<bool>,
    scale: &Scale,
    passes: &[Pass; 32],
    record_ms: Option<u64>,
    epoch: &EpochTable,
)
    requires good { IsScale scale.now }
    requires size { length outages.old.items ≡ 32 * scale.now.bins }
    ensures size { length outages.new.items ≡ length outages.old.items }
    ensures noted { (es : List EpochTableView) → StandForPasses passes.now scale.now.interval es → record_ms ≡ newest_moment es
        → outages.old.items ≡ outages_of scale.now es → outages.new.items ≡ outages_of scale.now (epoch.now ∷ es) }
{
    let rows = epoch.rows();
    let time_ms = epoch.time().ms();
    for place in 0u8..32 {
        let observed = observed_in(rows, place + 1);
        let pass = passes[usize::from(place)];
        let outage_ms = pass.outage_ms(scale.interval, record_ms, time_ms, observed);
        mark_outage(outages, scale, usize::from(place), time_ms, outage_ms);
    }
}

/// The satellite at this place has an outage in this bin.
pub(crate) fn is_out(outages: &[bool], place: usize, bin: usize) -> bool
    requires place { place < 32 }
    requires few { bin ≤ 1440 }
    ensures { result ≡ is_out outages.now place bin }
{
    outages.get(32 * bin + place).copied().unwrap_or(false)
}

/// In which of so many bins the satellite at this place has an outage.
pub(crate) fn outage_flags(
    alloc: Global,
    outages: &[bool],
    bins: usize,
    place: usize,
) -> Result<Vec<bool>, AllocError>
    requires place { place < 32 }
    requires few { bins ≤ 1440 }
    ensures value { IfOk result (λ flags. flags.items ≡ outage_flags outages.now bins place) }
    ensures size { IfOk result (λ flags. length flags.items ≡ bins) }
{
    let mut flags = Vec::new(alloc);
    for bin in 0..bins {
        flags.push(is_out(outages, place, bin))?;
    }
    Ok(flags)
}
