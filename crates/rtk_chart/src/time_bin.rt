//! A time bin: how each satellite was tracked in its epochs.

ghost use Rattle.std.specs.Prelude.{◌≡◌, ◌<◌, List, map};
ghost use Rattle.std.specs.List.{range_with_len, sum_by};
ghost use Rattle.rtk_rinex.specs.Record.{EpochTableView};
ghost use Rattle.rtk_tracking.specs.Epochs.{newest_moment};
ghost use Rattle.rtk_chart.specs.Grid.{no_bin, tracking_at};
ghost use Rattle.rtk_chart.specs.Steps.Standing.{StandForPasses};
ghost use Rattle.rtk_chart.specs.Steps.Shown.{both_satellites, both_bins, bin_of, codes_with};

use crate::tracking::{Counts, Tracking};
use rtk_rinex::EpochTable;
use rtk_tracking::{Pass, observed_in};

/// The tracking of the satellites 1 to 32.
#[derive(Clone, Copy)]
pub(crate) struct TimeBin {
    pub(crate) satellites: [Tracking; 32],
}

// Adds what one more epoch calls for.
fn add_satellites(satellites: &mut [Tracking; 32], more: &[Tracking; 32])
    ensures { satellites.new ≡ map (both_satellites more.now satellites.old) (range_with_len 0 32) }
{
    for place in 0..32 {
        satellites[place].add(&more[place]);
    }
}

impl TimeBin {
    /// No epoch came.
    pub(crate) fn new() -> TimeBin
        ensures { result ≡ no_bin }
    {
        TimeBin {
            satellites: [Tracking::new(); 32],
        }
    }

    /// The satellite at this place.
    pub(crate) fn satellite(&self, place: usize) -> &Tracking
        requires { place < 32 }
        ensures { result.now ≡ tracking_at place self.now }
    {
        &self.satellites[place]
    }

    /// Becomes what an epoch calls for, if the passes are those of the epochs before it, of which the last one
    /// is at this moment.
    pub(crate) fn call_for(
        &mut self,
        passes: &[Pass; 32],
        interval: Option<u64>,
        record_ms: Option<u64>,
        epoch: &EpochTable,
    )
        ensures { (before : List EpochTableView) → StandForPasses passes.now interval before → record_ms ≡ newest_moment before
            → self.new ≡ bin_of interval before epoch.now }
    {
        let rows = epoch.rows();
        let time_ms = epoch.time().ms();
        for place in 0u8..32 {
            let pass = passes[usize::from(place)];
            let observed = observed_in(rows, place + 1);
            self.satellites[usize::from(place)] = Tracking::of_epoch(
                &pass, interval, record_ms, time_ms, observed,
            );
        }
    }

    /// Adds what one more epoch calls for.
    #[tactic(auto, unfolding(crate::specs::Steps::Shown::both_bins))]
    pub(crate) fn add(&mut self, more: &TimeBin)
        ensures { self.new ≡ both_bins more.now self.old }
    {
        add_satellites(&mut self.satellites, &more.satellites);
    }

    /// How many codes of satellites that have a row have a slip, a return and a rise.
    pub(crate) fn counts(&self) -> Counts
        ensures slips { result.slips ≡ sum_by (codes_with (λ m. m.slip)) self.now.satellites }
        ensures returns { result.returns ≡ sum_by (codes_with (λ m. m.returned)) self.now.satellites }
        ensures rises { result.rises ≡ sum_by (codes_with (λ m. m.rise)) self.now.satellites }
    {
        let mut slips = 0;
        let mut returns = 0;
        let mut rises = 0;
        for tracking in &self.satellites {
            let more = tracking.counts();
            slips += more.slips;
            returns += more.returns;
            rises += more.rises;
        }
        Counts {
            slips,
            returns,
            rises,
        }
    }
}
