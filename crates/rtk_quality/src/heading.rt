//! The lines of the whole file.

ghost use Rattle.std.specs.Prelude.{◌≡◌, ◌++◌, OnOk};
ghost use Rattle.rtk_quality.specs.Standing.{listed_counts_of};
ghost use Rattle.rtk_quality.specs.QualityText.{marker_text, span_text, satellites_text, station_text, listed_text, heading_text};

use crate::code_numbers::mean_tenths;
use crate::file_counts::FileCounts;
use crate::form::{Decimals, Form, put_end, put_json_text, put_moment, put_narrow, put_value};
use crate::lines::put_count;
use crate::pass_sums::PassSums;
use crate::record_counts::RecordCounts;
use rtk_obs::Civil;
use std::alloc::AllocError;

/// How many there are of what has a list of the ten largest.
#[derive(Clone, Copy)]
pub(crate) struct ListedCounts {
    pub(crate) gaps: u64,
    /// Epochs at which several satellites slip.
    pub(crate) moments: u64,
    /// Hours in which a satellite slips at several epochs.
    pub(crate) bursts: u64,
    /// Runs of half cycles.
    pub(crate) runs: u64,
    /// Runs of epochs at which a code is missing.
    pub(crate) missing: u64,
}

impl ListedCounts {
    /// Of a file.
    pub(crate) fn of(counts: &FileCounts) -> ListedCounts
        ensures { result ≡ listed_counts_of counts.now }
    {
        ListedCounts {
            gaps: counts.gaps.count,
            moments: counts.moments.count,
            bursts: counts.events.bursts.count,
            runs: counts.events.runs.count,
            missing: counts.missing.count,
        }
    }
}

/// Appends the marker.
#[tactic(auto, unfolding(crate::specs::QualityText::marker_text))]
pub(crate) fn put_marker(text: &mut Vec<u8>, form: Form, marker: &[u8]) -> Result<(), AllocError>
    ensures { OnOk result (text.new.items ≡ text.old.items ++ marker_text form marker.now) }
{
    match form {
        Form::Table | Form::Lines => {
            text.extend_from_slice(b"marker ")?;
            text.extend_from_slice(marker)
        }
        Form::Json => {
            text.extend_from_slice(b"{\"file\":{\"marker\":\"")?;
            put_json_text(text, marker)?;
            text.extend_from_slice(b"\"")?;
            Ok(())
        }
    }
}

/// Appends the span, the interval, and the epochs that are there and missing.
#[tactic(auto, unfolding(crate::specs::QualityText::span_text))]
pub(crate) fn put_span(
    text: &mut Vec<u8>,
    form: Form,
    from: Civil,
    until: Civil,
    interval: Option<u64>,
    records: &RecordCounts,
) -> Result<(), AllocError>
    ensures { OnOk result (text.new.items ≡ text.old.items ++ span_text form from until interval records.now) }
{
    put_moment(text, form, b"\nfrom ", b",\"from\":", from)?;
    put_moment(text, form, b"\nuntil ", b",\"until\":", until)?;
    put_value(
        text,
        form,
        b"\ninterval ",
        b",\"interval_ms\":",
        Decimals::Thousandths,
        interval,
    )?;
    put_count(text, form, b"\nrecords ", b",\"records\":", records.records)?;
    put_count(text, form, b"\nmissing ", b",\"missing\":", records.missing)?;
    Ok(())
}

/// Appends the satellites of the file, and how many an epoch has.
#[tactic(auto, unfolding(crate::specs::QualityText::satellites_text))]
pub(crate) fn put_satellites(
    text: &mut Vec<u8>,
    form: Form,
    satellites: u64,
    records: &RecordCounts,
) -> Result<(), AllocError>
    ensures { OnOk result (text.new.items ≡ text.old.items ++ satellites_text form satellites records.now) }
{
    put_count(
        text,
        form,
        b"\nsatellites ",
        b",\"satellites\":",
        satellites,
    )?;
    put_narrow(
        text,
        form,
        b"\nleast-satellites ",
        b",\"least_satellites\":",
        Decimals::Whole,
        records.least_rows,
    )?;
    let mean = mean_tenths(records.rows, records.records);
    put_value(
        text,
        form,
        b"\nmean-satellites ",
        b",\"mean_satellites_tenths\":",
        Decimals::Tenths,
        mean,
    )?;
    put_narrow(
        text,
        form,
        b"\ngreatest-satellites ",
        b",\"greatest_satellites\":",
        Decimals::Whole,
        records.most_rows,
    )?;
    Ok(())
}

/// Appends the slips of all satellites, their moments, and their outages.
#[tactic(auto, unfolding(crate::specs::QualityText::station_text))]
pub(crate) fn put_station(text: &mut Vec<u8>, form: Form, sums: &PassSums) -> Result<(), AllocError>
    ensures { OnOk result (text.new.items ≡ text.old.items ++ station_text form sums.now) }
{
    put_count(text, form, b"\nslips ", b",\"slips\":", sums.slips)?;
    put_count(text, form, b"\nmoments ", b",\"moments\":", sums.moments)?;
    put_count(text, form, b"\noutages ", b",\"outages\":", sums.outages)?;
    put_value(
        text,
        form,
        b"\noutage-time ",
        b",\"outage_time_ms\":",
        Decimals::Thousandths,
        Some(sums.outage_ms),
    )?;
    Ok(())
}

/// Appends the counts that follow the outages.
#[tactic(auto, unfolding(crate::specs::QualityText::listed_text))]
pub(crate) fn put_listed(
    text: &mut Vec<u8>,
    form: Form,
    listed: &ListedCounts,
) -> Result<(), AllocError>
    ensures { OnOk result (text.new.items ≡ text.old.items ++ listed_text form listed.now) }
{
    put_count(
        text,
        form,
        b"\nslips-together ",
        b",\"slips_together\":",
        listed.moments,
    )?;
    put_count(text, form, b"\nbursts ", b",\"bursts\":", listed.bursts)?;
    put_count(text, form, b"\nhalf-runs ", b",\"half_runs\":", listed.runs)?;
    put_count(
        text,
        form,
        b"\nmissing-codes ",
        b",\"missing_codes\":",
        listed.missing,
    )?;
    Ok(())
}

/// Appends the lines of the whole file.
#[tactic(auto, unfolding(crate::specs::QualityText::heading_text))]
pub(crate) fn put_heading(
    text: &mut Vec<u8>,
    form: Form,
    marker: &[u8],
    from: Civil,
    until: Civil,
    interval: Option<u64>,
    satellites: u64,
    records: &RecordCounts,
    listed: &ListedCounts,
    sums: &PassSums,
) -> Result<(), AllocError>
    ensures { OnOk result (text.new.items ≡ text.old.items ++ heading_text form marker.now from until interval satellites records.now listed.now sums.now) }
{
    put_marker(text, form, marker)?;
    put_span(text, form, from, until, interval, records)?;
    put_count(text, form, b"\ngaps ", b",\"gaps\":", listed.gaps)?;
    put_satellites(text, form, satellites, records)?;
    put_station(text, form, sums)?;
    put_listed(text, form, listed)?;
    put_end(text, form)?;
    Ok(())
}
