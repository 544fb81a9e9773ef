//! The entries of lists, each of them a row of a table, a line, or an object in JSON.

ghost use Rattle.std.specs.Prelude.{◌≡◌, ◌++◌, OnOk};
ghost use Rattle.rtk_quality.specs.Entries.{code_entry, satellite_entry, tracked_entry, pass_entry, hour_entry, gap_entry, outage_entry, moment_entry, burst_entry, run_entry, missing_entry, fall_entry};

use crate::bursts::Burst;
use crate::code_numbers::CodeNumbers;
use crate::falls::Fall;
use crate::form::Form;
use crate::gaps::Gap;
use crate::hours::HourCounts;
use crate::largest::Measured;
use crate::lines::{put_code_line, put_pass_line, put_satellite_line, put_tracked_line};
use crate::missing::MissingCode;
use crate::moments::Moment;
use crate::outages::Outage;
use crate::pass_sums::PassSums;
use crate::rows::{
    put_burst_row, put_code_row, put_fall_row, put_gap_row, put_hour_row, put_missing_row,
    put_moment_row, put_outage_row, put_pass_row, put_run_row, put_signal_row, put_tracked_row,
};
use crate::runs::HalfRun;
use crate::satellite_counts::PassCounts;
use crate::station_lines::{
    put_burst_line, put_fall_line, put_gap_line, put_hour_line, put_missing_line, put_moment_line,
    put_outage_line, put_run_line,
};
use crate::strengths::{CodeBand, number_of, shown_bands};
use rtk_obs::{AnyCode, SatelliteIndex};
use std::alloc::AllocError;

/// Appends a code over all satellites that have it, of so many that are tracked.
#[tactic(auto, unfolding(crate::specs::Entries::code_entry))]
pub(crate) fn put_code_entry(
    text: &mut Vec<u8>,
    form: Form,
    code: AnyCode,
    tracked: u64,
    numbers: &CodeNumbers,
) -> Result<(), AllocError>
    ensures { OnOk result (text.new.items ≡ text.old.items ++ code_entry form code tracked numbers.now) }
{
    match form {
        Form::Table => put_code_row(text, code, tracked, numbers),
        Form::Lines | Form::Json => put_code_line(text, form, code, tracked, numbers),
    }
}

/// Appends a code that a satellite has.
#[tactic(auto, unfolding(crate::specs::Entries::satellite_entry))]
pub(crate) fn put_satellite_entry(
    text: &mut Vec<u8>,
    form: Form,
    satellite: SatelliteIndex,
    code: AnyCode,
    numbers: &CodeNumbers,
) -> Result<(), AllocError>
    ensures { OnOk result (text.new.items ≡ text.old.items ++ satellite_entry form satellite code numbers.now) }
{
    match form {
        Form::Table => put_signal_row(text, satellite, code, numbers),
        Form::Lines | Form::Json => put_satellite_line(text, form, satellite, code, numbers),
    }
}

/// Appends all codes of a satellite.
#[tactic(auto, unfolding(crate::specs::Entries::tracked_entry))]
pub(crate) fn put_tracked_entry(
    text: &mut Vec<u8>,
    form: Form,
    satellite: SatelliteIndex,
    sums: &PassSums,
) -> Result<(), AllocError>
    ensures { OnOk result (text.new.items ≡ text.old.items ++ tracked_entry form satellite sums.now) }
{
    match form {
        Form::Table => put_tracked_row(text, satellite, sums),
        Form::Lines | Form::Json => put_tracked_line(text, form, satellite, sums),
    }
}

/// Appends a pass.
#[tactic(auto, unfolding(crate::specs::Entries::pass_entry))]
pub(crate) fn put_pass_entry(
    text: &mut Vec<u8>,
    form: Form,
    satellite: SatelliteIndex,
    pass: &PassCounts,
) -> Result<(), AllocError>
    ensures { OnOk result (text.new.items ≡ text.old.items ++ pass_entry form satellite pass.now) }
{
    match form {
        Form::Table => put_pass_row(text, satellite, pass),
        Form::Lines | Form::Json => put_pass_line(text, form, satellite, pass),
    }
}

/// Appends an hour.
#[tactic(auto, unfolding(crate::specs::Entries::hour_entry))]
pub(crate) fn put_hour_entry(
    text: &mut Vec<u8>,
    form: Form,
    codes: &[AnyCode],
    hour: &HourCounts,
) -> Result<(), AllocError>
    ensures { OnOk result (text.new.items ≡ text.old.items ++ hour_entry form codes.now hour.now) }
{
    match form {
        Form::Table => put_hour_row(text, shown_bands(codes), hour),
        Form::Lines | Form::Json => put_hour_line(text, form, codes, hour),
    }
}

/// A thing that has an entry in a list of the largest ones.
pub(crate) trait Listed: Measured {
    ghost use Rattle.std.specs.Prelude.{ℕ, List};
    ghost use Rattle.rtk_quality.specs.declared.form.Form.{Form};

    ghost entry: { Form → Self → List ℕ };

    /// Appends the entry.
    fn put_entry(&self, text: &mut Vec<u8>, form: Form) -> Result<(), AllocError>
        ensures { OnOk result (text.new.items ≡ text.old.items ++ entry form self.now) };
}

impl Listed for Gap {
    ghost use Rattle.rtk_quality.specs.Entries.{gap_entry};

    ghost entry = { gap_entry };

    fn put_entry(&self, text: &mut Vec<u8>, form: Form) -> Result<(), AllocError> {
        put_gap_entry(text, form, self)
    }
}

impl Listed for Outage {
    ghost use Rattle.rtk_quality.specs.Entries.{outage_entry};

    ghost entry = { outage_entry };

    fn put_entry(&self, text: &mut Vec<u8>, form: Form) -> Result<(), AllocError> {
        put_outage_entry(text, form, self)
    }
}

impl Listed for Moment {
    ghost use Rattle.rtk_quality.specs.Entries.{moment_entry};

    ghost entry = { moment_entry };

    fn put_entry(&self, text: &mut Vec<u8>, form: Form) -> Result<(), AllocError> {
        put_moment_entry(text, form, self)
    }
}

impl Listed for Burst {
    ghost use Rattle.rtk_quality.specs.Entries.{burst_entry};

    ghost entry = { burst_entry };

    fn put_entry(&self, text: &mut Vec<u8>, form: Form) -> Result<(), AllocError> {
        put_burst_entry(text, form, self)
    }
}

impl Listed for HalfRun {
    ghost use Rattle.rtk_quality.specs.Entries.{run_entry};

    ghost entry = { run_entry };

    fn put_entry(&self, text: &mut Vec<u8>, form: Form) -> Result<(), AllocError> {
        put_run_entry(text, form, self)
    }
}

impl Listed for MissingCode {
    ghost use Rattle.rtk_quality.specs.Entries.{missing_entry};

    ghost entry = { missing_entry };

    fn put_entry(&self, text: &mut Vec<u8>, form: Form) -> Result<(), AllocError> {
        put_missing_entry(text, form, self)
    }
}

// Appends a run of epochs at which a code of a satellite is missing.
#[tactic(auto, unfolding(crate::specs::Entries::missing_entry))]
fn put_missing_entry(
    text: &mut Vec<u8>,
    form: Form,
    missing: &MissingCode,
) -> Result<(), AllocError>
    ensures { OnOk result (text.new.items ≡ text.old.items ++ missing_entry form missing.now) }
{
    match form {
        Form::Table => put_missing_row(text, missing),
        Form::Lines | Form::Json => put_missing_line(text, form, missing),
    }
}

// Appends an hour in which a satellite slips at several epochs.
#[tactic(auto, unfolding(crate::specs::Entries::burst_entry))]
fn put_burst_entry(text: &mut Vec<u8>, form: Form, burst: &Burst) -> Result<(), AllocError>
    ensures { OnOk result (text.new.items ≡ text.old.items ++ burst_entry form burst.now) }
{
    match form {
        Form::Table => put_burst_row(text, burst),
        Form::Lines | Form::Json => put_burst_line(text, form, burst),
    }
}

// Appends a run of half cycles.
#[tactic(auto, unfolding(crate::specs::Entries::run_entry))]
fn put_run_entry(text: &mut Vec<u8>, form: Form, half: &HalfRun) -> Result<(), AllocError>
    ensures { OnOk result (text.new.items ≡ text.old.items ++ run_entry form half.now) }
{
    match form {
        Form::Table => put_run_row(text, half),
        Form::Lines | Form::Json => put_run_line(text, form, half),
    }
}

// Appends an outage.
#[tactic(auto, unfolding(crate::specs::Entries::outage_entry))]
fn put_outage_entry(text: &mut Vec<u8>, form: Form, outage: &Outage) -> Result<(), AllocError>
    ensures { OnOk result (text.new.items ≡ text.old.items ++ outage_entry form outage.now) }
{
    match form {
        Form::Table => put_outage_row(text, outage),
        Form::Lines | Form::Json => put_outage_line(text, form, outage),
    }
}

// Appends an epoch at which several satellites slip.
#[tactic(auto, unfolding(crate::specs::Entries::moment_entry))]
fn put_moment_entry(text: &mut Vec<u8>, form: Form, moment: &Moment) -> Result<(), AllocError>
    ensures { OnOk result (text.new.items ≡ text.old.items ++ moment_entry form moment.now) }
{
    match form {
        Form::Table => put_moment_row(text, moment),
        Form::Lines | Form::Json => put_moment_line(text, form, moment),
    }
}

// Appends a gap.
#[tactic(auto, unfolding(crate::specs::Entries::gap_entry))]
fn put_gap_entry(text: &mut Vec<u8>, form: Form, gap: &Gap) -> Result<(), AllocError>
    ensures { OnOk result (text.new.items ≡ text.old.items ++ gap_entry form gap.now) }
{
    match form {
        Form::Table => put_gap_row(text, gap),
        Form::Lines | Form::Json => put_gap_line(text, form, gap),
    }
}

/// Appends the largest fall of a band.
#[tactic(auto, unfolding(crate::specs::Entries::fall_entry))]
pub(crate) fn put_fall_entry(
    text: &mut Vec<u8>,
    form: Form,
    band: CodeBand,
    fall: &Fall,
) -> Result<(), AllocError>
    ensures { OnOk result (text.new.items ≡ text.old.items ++ fall_entry form band fall.now) }
{
    match form {
        Form::Table => put_fall_row(text, number_of(band), fall),
        Form::Lines | Form::Json => put_fall_line(text, form, band, fall),
    }
}
