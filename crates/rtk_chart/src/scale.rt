//! The time bins of a picture. A bin is a whole number of intervals long.

ghost use Rattle.std.specs.Prelude.{◌≡◌, ◌≤◌, ◌<◌, ◌^◌, ℕ};
ghost use Rattle.std.specs.Int.{IsInRange};
ghost use Rattle.rtk_chart.specs.Scale.{scale_of, IsScale, bin_at, bin_start, unit_of};
ghost use Rattle.rtk_chart.specs.Means.{bins_per_column};

use rtk_obs::{GpsMs, LAST_MS};

/// The most bins of a picture. In SVG its bins have as many units of width, so each has one at least.
pub(crate) const MOST_BINS: u64 = 1440;

/// The time bins of a picture. Moments are in ms since 1980-01-06 00:00:00.000.
#[derive(Clone, Copy)]
pub(crate) struct Scale {
    /// The moments of the first and of the last record.
    pub(crate) first: GpsMs,
    pub(crate) last: GpsMs,
    /// The interval of the file.
    pub(crate) interval: Option<u64>,
    /// The interval by which bins are counted.
    pub(crate) unit: u64,
    pub(crate) bin_ms: u64,
    pub(crate) bins: u64,
}

fn unit_of(interval: Option<u64>) -> u64
    ensures value { result ≡ unit_of interval }
    ensures positive { 0 < result }
    ensures bound { result ≤ LAST_MS }
{
    match interval {
        Some(interval) => interval.max(1).min(LAST_MS),
        None => 1,
    }
}

impl Scale {
    /// The scale from a first to a last moment, with this interval and at most so many bins.
    pub(crate) fn new(first: GpsMs, last: GpsMs, interval: Option<u64>, allowed: u64) -> Scale
        requires { IsInRange 1 1440 allowed }
        ensures value { result ≡ scale_of first last interval allowed }
        ensures good { IsScale result }
    {
        let unit = unit_of(interval);
        let span = last.ms().saturating_sub(first.ms());
        let reach = span + (unit - 1) / 2;
        let bin_ms = (reach / (allowed * unit) + 1) * unit;
        Scale {
            first,
            last,
            interval,
            unit,
            bin_ms,
            bins: reach / bin_ms + 1,
        }
    }

    /// The bin of a moment: an epoch goes to the bin of the nearest interval.
    pub(crate) fn bin_at(&self, moment: u64) -> u64
        requires good { IsScale self.now }
        requires moment { moment < 2 ^ 62 }
        ensures { result ≡ bin_at self.now moment }
    {
        (moment.saturating_sub(self.first.ms()) + (self.unit - 1) / 2) / self.bin_ms
    }

    /// How many bins a column of strengths has.
    pub(crate) fn bins_per_column(&self) -> u64
        requires { IsScale self.now }
        ensures value { result ≡ bins_per_column self.now }
        ensures positive { 0 < result }
    {
        (self.bins + 143) / 144
    }

    /// The moment at which a bin begins.
    pub(crate) fn bin_start(&self, bin: u64) -> u64
        requires good { IsScale self.now }
        requires within { bin < self.now.bins }
        ensures value { result ≡ bin_start self.now bin }
        ensures bound { result ≤ 3_818_015_999_999 }
    {
        (self.first.ms() + bin * self.bin_ms).saturating_sub((self.unit - 1) / 2)
    }
}
