//! The rows of a table.

ghost use Rattle.std.specs.Prelude.{◌≡◌, ◌++◌, OnOk};
ghost use Rattle.rtk_quality.specs.Rows.{satellite_mark, numbers_text, span_part, strength_column, signal_row, code_row, tracked_row, pass_row, hour_row, gap_row, outage_row, moment_row, burst_row, run_row, missing_row, fall_row};

use crate::bursts::Burst;
use crate::code_numbers::{
    CodeNumbers, mean_hundredths, mean_tenths, percent_tenths, phases_per_slip,
};
use crate::columns::{Cell, put_cells, put_part};
use crate::falls::Fall;
use crate::form::{Decimals, Form, widened};
use crate::gaps::Gap;
use crate::hours::{HourCounts, start_of};
use crate::lines::{put_having, put_per_slip};
use crate::missing::MissingCode;
use crate::moments::Moment;
use crate::outages::Outage;
use crate::pass_sums::PassSums;
use crate::runs::HalfRun;
use crate::satellite_counts::PassCounts;
use crate::strengths::{BandStrengths, ShownBands};
use rtk_obs::{AnyCode, Civil, SatelliteIndex, put_civil, satellite_name};
use std::alloc::AllocError;

/// How much of a moment names its minute, and its second.
const MINUTE: usize = 16;

const SECOND: usize = 19;

/// Appends a satellite, as in G05.
pub(crate) fn put_satellite(text: &mut Vec<u8>, satellite: SatelliteIndex) -> Result<(), AllocError>
    ensures { OnOk result (text.new.items ≡ text.old.items ++ satellite_mark satellite) }
{
    text.extend_from_slice(&satellite_name(satellite))
}

// Appends the numbers of a code, up to the end of their row.
#[tactic(auto, unfolding(crate::specs::Rows::numbers_text))]
fn put_numbers(text: &mut Vec<u8>, numbers: &CodeNumbers) -> Result<(), AllocError>
    ensures { OnOk result (text.new.items ≡ text.old.items ++ numbers_text numbers.now) }
{
    let counts = &numbers.counts;
    let percent = percent_tenths(counts.phases, numbers.possible);
    let least = widened(counts.least);
    let mean = mean_hundredths(counts.strength_sum, counts.strengths);
    let greatest = widened(counts.greatest);
    put_cells(
        text,
        &[
            Cell::count(7, counts.phases),
            Cell::count(7, numbers.possible),
            Cell::new(7, Decimals::Tenths, Some(percent)),
            Cell::count(7, counts.ranges),
            Cell::count(6, counts.slips),
            Cell::count(8, counts.returns),
            Cell::count(6, counts.rises),
            Cell::count(5, counts.halves),
            Cell::new(8, Decimals::Thousandths, least),
            Cell::new(6, Decimals::Hundredths, mean),
            Cell::new(7, Decimals::Thousandths, greatest),
        ],
    )?;
    text.extend_from_slice(b"\n")
}

/// Appends the row of a code that a satellite has.
#[tactic(auto, unfolding(crate::specs::Rows::signal_row))]
pub(crate) fn put_signal_row(
    text: &mut Vec<u8>,
    satellite: SatelliteIndex,
    code: AnyCode,
    numbers: &CodeNumbers,
) -> Result<(), AllocError>
    ensures { OnOk result (text.new.items ≡ text.old.items ++ signal_row satellite code numbers.now) }
{
    put_satellite(text, satellite)?;
    text.extend_from_slice(b" ")?;
    text.extend_from_slice(&code.name())?;
    put_numbers(text, numbers)
}

/// Appends the rows of a code over all satellites that have it, of so many that are tracked.
#[tactic(auto, unfolding(crate::specs::Rows::code_row))]
pub(crate) fn put_code_row(
    text: &mut Vec<u8>,
    code: AnyCode,
    tracked: u64,
    numbers: &CodeNumbers,
) -> Result<(), AllocError>
    ensures { OnOk result (text.new.items ≡ text.old.items ++ code_row code tracked numbers.now) }
{
    let each = phases_per_slip(numbers.counts.phases, numbers.counts.slips);
    text.extend_from_slice(b"all ")?;
    text.extend_from_slice(&code.name())?;
    put_numbers(text, numbers)?;
    text.extend_from_slice(b"      ")?;
    put_having(text, Form::Lines, numbers.satellites, tracked)?;
    put_per_slip(text, Form::Lines, each)?;
    text.extend_from_slice(b"\n")
}

/// Appends the row of all codes of a satellite.
#[tactic(auto, unfolding(crate::specs::Rows::tracked_row))]
pub(crate) fn put_tracked_row(
    text: &mut Vec<u8>,
    satellite: SatelliteIndex,
    sums: &PassSums,
) -> Result<(), AllocError>
    ensures { OnOk result (text.new.items ≡ text.old.items ++ tracked_row satellite sums.now) }
{
    put_satellite(text, satellite)?;
    put_cells(
        text,
        &[
            Cell::count(10, sums.phases),
            Cell::count(7, sums.slips),
            Cell::count(9, sums.moments),
            Cell::count(9, sums.outages),
            Cell::new(12, Decimals::Thousandths, Some(sums.outage_ms)),
        ],
    )?;
    text.extend_from_slice(b"\n")
}

// Appends two moments, with blanks before them.
#[tactic(auto, unfolding(crate::specs::Rows::span_part))]
fn put_span(text: &mut Vec<u8>, from: Civil, until: Civil, width: usize) -> Result<(), AllocError>
    ensures { OnOk result (text.new.items ≡ text.old.items ++ span_part from until width) }
{
    text.extend_from_slice(b" ")?;
    put_part(text, from, width)?;
    text.extend_from_slice(b" ")?;
    put_part(text, until, width)
}

/// Appends the row of a pass.
#[tactic(auto, unfolding(crate::specs::Rows::pass_row))]
pub(crate) fn put_pass_row(
    text: &mut Vec<u8>,
    satellite: SatelliteIndex,
    pass: &PassCounts,
) -> Result<(), AllocError>
    ensures { OnOk result (text.new.items ≡ text.old.items ++ pass_row satellite pass.now) }
{
    put_satellite(text, satellite)?;
    put_span(text, pass.from, pass.until, SECOND)?;
    put_cells(
        text,
        &[
            Cell::count(7, pass.sums.phases),
            Cell::count(6, pass.sums.slips),
            Cell::count(8, pass.sums.moments),
            Cell::count(5, pass.sums.outages),
            Cell::new(10, Decimals::Thousandths, Some(pass.sums.outage_ms)),
        ],
    )?;
    text.extend_from_slice(b"\n")
}

// The mean strength of a band in its column.
fn strength_cell(strengths: &BandStrengths) -> Cell
    ensures { result ≡ strength_column strengths.now }
{
    let mean = mean_hundredths(strengths.sum, strengths.count);
    Cell::new(8, Decimals::Hundredths, mean)
}

/// Appends the row of an hour.
#[tactic(auto, unfolding(crate::specs::Rows::hour_row))]
pub(crate) fn put_hour_row(
    text: &mut Vec<u8>,
    bands: ShownBands,
    hour: &HourCounts,
) -> Result<(), AllocError>
    ensures { OnOk result (text.new.items ≡ text.old.items ++ hour_row bands hour.now) }
{
    let expected = hour.records.saturating_add(hour.missing);
    let mean = mean_tenths(hour.rows, hour.records);
    let start = start_of(hour.hour);
    put_part(text, start, MINUTE)?;
    put_cells(
        text,
        &[
            Cell::count(8, hour.records),
            Cell::count(6, expected),
            Cell::new(11, Decimals::Tenths, mean),
            Cell::count(7, hour.locks.slips),
            Cell::count(8, hour.locks.returns),
            strength_cell(&hour.strengths.of(bands.first)),
            strength_cell(&hour.strengths.of(bands.second)),
            strength_cell(&hour.strengths.of(bands.third)),
        ],
    )?;
    text.extend_from_slice(b"\n")
}

/// Appends the row of a gap.
#[tactic(auto, unfolding(crate::specs::Rows::gap_row))]
pub(crate) fn put_gap_row(text: &mut Vec<u8>, gap: &Gap) -> Result<(), AllocError>
    ensures { OnOk result (text.new.items ≡ text.old.items ++ gap_row gap.now) }
{
    put_civil(text, gap.from)?;
    text.extend_from_slice(b" ")?;
    put_civil(text, gap.until)?;
    put_cells(text, &[Cell::count(10, gap.missing)])?;
    text.extend_from_slice(b"\n")
}

/// Appends the row of an outage.
#[tactic(auto, unfolding(crate::specs::Rows::outage_row))]
pub(crate) fn put_outage_row(text: &mut Vec<u8>, outage: &Outage) -> Result<(), AllocError>
    ensures { OnOk result (text.new.items ≡ text.old.items ++ outage_row outage.now) }
{
    put_satellite(text, outage.satellite)?;
    put_span(text, outage.absence.from, outage.absence.until, SECOND)?;
    put_cells(
        text,
        &[Cell::new(12, Decimals::Thousandths, Some(outage.absence.ms))],
    )?;
    text.extend_from_slice(b"\n")
}

/// Appends the row of an epoch at which several satellites slip.
#[tactic(auto, unfolding(crate::specs::Rows::moment_row))]
pub(crate) fn put_moment_row(text: &mut Vec<u8>, moment: &Moment) -> Result<(), AllocError>
    ensures { OnOk result (text.new.items ≡ text.old.items ++ moment_row moment.now) }
{
    put_part(text, moment.time, SECOND)?;
    put_cells(
        text,
        &[
            Cell::count(11, moment.together.slipping),
            Cell::count(6, moment.together.tracked),
        ],
    )?;
    text.extend_from_slice(b"\n")
}

/// Appends the row of an hour in which a satellite slips at several epochs.
#[tactic(auto, unfolding(crate::specs::Rows::burst_row))]
pub(crate) fn put_burst_row(text: &mut Vec<u8>, burst: &Burst) -> Result<(), AllocError>
    ensures { OnOk result (text.new.items ≡ text.old.items ++ burst_row burst.now) }
{
    let start = start_of(burst.hour);
    put_satellite(text, burst.satellite)?;
    text.extend_from_slice(b" ")?;
    put_part(text, start, MINUTE)?;
    put_cells(text, &[Cell::count(8, burst.moments)])?;
    text.extend_from_slice(b"\n")
}

/// Appends the row of a run of half cycles.
#[tactic(auto, unfolding(crate::specs::Rows::run_row))]
pub(crate) fn put_run_row(text: &mut Vec<u8>, half: &HalfRun) -> Result<(), AllocError>
    ensures { OnOk result (text.new.items ≡ text.old.items ++ run_row half.now) }
{
    put_satellite(text, half.satellite)?;
    put_span(text, half.run.from, half.run.until, SECOND)?;
    put_cells(text, &[Cell::count(10, half.run.epochs)])?;
    text.extend_from_slice(b"\n")
}

/// Appends the row of a run of epochs at which a code of a satellite is missing.
#[tactic(auto, unfolding(crate::specs::Rows::missing_row))]
pub(crate) fn put_missing_row(text: &mut Vec<u8>, missing: &MissingCode) -> Result<(), AllocError>
    ensures { OnOk result (text.new.items ≡ text.old.items ++ missing_row missing.now) }
{
    put_satellite(text, missing.satellite)?;
    text.extend_from_slice(b" ")?;
    text.extend_from_slice(&missing.code.name())?;
    put_span(text, missing.run.from, missing.run.until, SECOND)?;
    put_cells(text, &[Cell::count(10, missing.run.epochs)])?;
    text.extend_from_slice(b"\n")
}

/// Appends the row of the largest fall of a band.
#[tactic(auto, unfolding(crate::specs::Rows::fall_row))]
pub(crate) fn put_fall_row(text: &mut Vec<u8>, band: u64, fall: &Fall) -> Result<(), AllocError>
    ensures { OnOk result (text.new.items ≡ text.old.items ++ fall_row band fall.now) }
{
    let from = start_of(fall.from);
    let until = start_of(fall.until);
    put_cells(text, &[Cell::count(4, band)])?;
    put_span(text, from, until, MINUTE)?;
    put_cells(text, &[Cell::new(8, Decimals::Hundredths, Some(fall.by))])?;
    text.extend_from_slice(b"\n")
}
