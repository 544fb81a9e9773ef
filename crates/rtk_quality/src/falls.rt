//! The largest fall of strength from one hour to the next.

ghost use Rattle.std.specs.Prelude.{◌≡◌};
ghost use Rattle.rtk_quality.specs.Falls.{mean_in, fall_to, greater_fall, largest_fall};

use crate::code_numbers::mean_hundredths;
use crate::hours::HourCounts;
use crate::strengths::CodeBand;

/// The mean strength of a band in an hour, in hundredths of a dB-Hz.
#[derive(Clone, Copy)]
pub(crate) struct HourMean {
    pub(crate) hour: u64,
    pub(crate) mean: u64,
}

/// A fall: the hours before and after it, and how much the mean is less.
#[derive(Clone, Copy)]
pub(crate) struct Fall {
    pub(crate) from: u64,
    pub(crate) until: u64,
    pub(crate) by: u64,
}

// The mean strength of a band in an hour, if it has strengths.
fn mean_in(band: CodeBand, hour: &HourCounts) -> Option<HourMean>
    ensures { result ≡ mean_in band hour.now }
{
    let strengths = hour.strengths.of(band);
    match mean_hundredths(strengths.sum, strengths.count) {
        Some(mean) => Some(HourMean {
            hour: hour.hour,
            mean,
        }),
        None => None,
    }
}

// The fall to a mean from the one before it, if there is one and it is greater.
fn fall_to(mean: HourMean, before: Option<HourMean>) -> Option<Fall>
    ensures { result ≡ fall_to mean before }
{
    match before {
        Some(before) if mean.mean < before.mean => Some(Fall {
            from: before.hour,
            until: mean.hour,
            by: before.mean - mean.mean,
        }),
        _ => None,
    }
}

// The greater of two falls, of two alike the first one.
fn greater_fall(one: Option<Fall>, other: Option<Fall>) -> Option<Fall>
    ensures { result ≡ greater_fall one other }
{
    match (one, other) {
        (Some(first), Some(second)) if first.by < second.by => other,
        (None, _) => other,
        _ => one,
    }
}

/// The largest fall of a band in hours that come one after another. Hours without a strength of the band
/// are passed over.
pub(crate) fn largest_fall(band: CodeBand, hours: &[HourCounts]) -> Option<Fall>
    ensures { result ≡ largest_fall band hours.now }
{
    let mut before = None;
    let mut largest = None;
    for hour in hours {
        let Some(mean) = mean_in(band, hour) else {
            continue;
        };
        largest = greater_fall(largest, fall_to(mean, before));
        before = Some(mean);
    }
    largest
}
