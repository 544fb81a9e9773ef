//! The lines of hours, of falls, and of the lists of the ten largest things.

ghost use Rattle.std.specs.Prelude.{◌≡◌, ◌++◌, OnOk};
ghost use Rattle.rtk_quality.specs.StationText.{has_band, strength_words, strength_key, strength_text, all_strengths_text, hour_counts_text, hour_line, gap_line, outage_line, together_line, burst_line, run_line, missing_line, fall_line};

use crate::bursts::Burst;
use crate::code_numbers::{mean_hundredths, mean_tenths};
use crate::falls::Fall;
use crate::form::{Decimals, Form, put_end, put_moment, put_start, put_value};
use crate::gaps::Gap;
use crate::hours::{HourCounts, start_of};
use crate::lines::{put_code_name, put_count, put_having, put_satellite_name};
use crate::missing::MissingCode;
use crate::moments::Moment;
use crate::outages::Outage;
use crate::runs::HalfRun;
use crate::strengths::{CodeBand, Strengths, band_of, number_of};
use rtk_obs::AnyCode;
use std::alloc::AllocError;

// Is a code of this band?
fn has_band(codes: &[AnyCode], band: CodeBand) -> bool
    ensures { result ≡ has_band codes.now band }
{
    let number = number_of(band);
    codes.iter().any(|code| number_of(band_of(*code)) == number)
}

// The words before the mean strength of a band in a line.
fn strength_words(band: CodeBand) -> &'static [u8]
    ensures { result.now ≡ strength_words band }
{
    match band {
        CodeBand::B1 => b" mean-strength-1 ",
        CodeBand::B2 => b" mean-strength-2 ",
        CodeBand::B5 => b" mean-strength-5 ",
        CodeBand::B6 => b" mean-strength-6 ",
        CodeBand::B7 => b" mean-strength-7 ",
        CodeBand::B8 => b" mean-strength-8 ",
    }
}

// The key of the mean strength of a band.
fn strength_key(band: CodeBand) -> &'static [u8]
    ensures { result.now ≡ strength_key band }
{
    match band {
        CodeBand::B1 => b",\"mean_strength_1_centidbhz\":",
        CodeBand::B2 => b",\"mean_strength_2_centidbhz\":",
        CodeBand::B5 => b",\"mean_strength_5_centidbhz\":",
        CodeBand::B6 => b",\"mean_strength_6_centidbhz\":",
        CodeBand::B7 => b",\"mean_strength_7_centidbhz\":",
        CodeBand::B8 => b",\"mean_strength_8_centidbhz\":",
    }
}

// Appends the mean strength of a band, if a code of the file is of this band.
fn put_strength(
    text: &mut Vec<u8>,
    form: Form,
    codes: &[AnyCode],
    strengths: &Strengths,
    band: CodeBand,
) -> Result<(), AllocError>
    ensures { OnOk result (text.new.items ≡ text.old.items ++ strength_text form codes.now strengths.now band) }
{
    if !has_band(codes, band) {
        return Ok(());
    }
    let own = strengths.of(band);
    let mean = mean_hundredths(own.sum, own.count);
    let words = strength_words(band);
    let key = strength_key(band);
    put_value(text, form, words, key, Decimals::Hundredths, mean)
}

// Appends the mean strengths of all bands.
#[tactic(auto, unfolding(crate::specs::StationText::all_strengths_text))]
fn put_strengths(
    text: &mut Vec<u8>,
    form: Form,
    codes: &[AnyCode],
    strengths: &Strengths,
) -> Result<(), AllocError>
    ensures { OnOk result (text.new.items ≡ text.old.items ++ all_strengths_text form codes.now strengths.now) }
{
    put_strength(text, form, codes, strengths, CodeBand::B1)?;
    put_strength(text, form, codes, strengths, CodeBand::B2)?;
    put_strength(text, form, codes, strengths, CodeBand::B5)?;
    put_strength(text, form, codes, strengths, CodeBand::B6)?;
    put_strength(text, form, codes, strengths, CodeBand::B7)?;
    put_strength(text, form, codes, strengths, CodeBand::B8)?;
    Ok(())
}

// Appends the numbers of an hour.
#[tactic(auto, unfolding(crate::specs::StationText::hour_counts_text))]
fn put_hour_counts(text: &mut Vec<u8>, form: Form, hour: &HourCounts) -> Result<(), AllocError>
    ensures { OnOk result (text.new.items ≡ text.old.items ++ hour_counts_text form hour.now) }
{
    let expected = hour.records.saturating_add(hour.missing);
    let mean = mean_tenths(hour.rows, hour.records);
    put_count(text, form, b" records ", b",\"records\":", hour.records)?;
    put_count(text, form, b" of ", b",\"expected\":", expected)?;
    put_value(
        text,
        form,
        b" mean-satellites ",
        b",\"mean_satellites_tenths\":",
        Decimals::Tenths,
        mean,
    )?;
    put_count(text, form, b" slips ", b",\"slips\":", hour.locks.slips)?;
    put_count(
        text,
        form,
        b" returns ",
        b",\"returns\":",
        hour.locks.returns,
    )?;
    Ok(())
}

/// Appends the line of an hour.
#[tactic(auto, unfolding(crate::specs::StationText::hour_line))]
pub(crate) fn put_hour_line(
    text: &mut Vec<u8>,
    form: Form,
    codes: &[AnyCode],
    hour: &HourCounts,
) -> Result<(), AllocError>
    ensures { OnOk result (text.new.items ≡ text.old.items ++ hour_line form codes.now hour.now) }
{
    put_start(text, form, b"hour")?;
    put_moment(text, form, b" ", b"\"hour\":", start_of(hour.hour))?;
    put_hour_counts(text, form, hour)?;
    put_strengths(text, form, codes, &hour.strengths)?;
    put_end(text, form)?;
    Ok(())
}

/// Appends the line of a gap.
#[tactic(auto, unfolding(crate::specs::StationText::gap_line))]
pub(crate) fn put_gap_line(text: &mut Vec<u8>, form: Form, gap: &Gap) -> Result<(), AllocError>
    ensures { OnOk result (text.new.items ≡ text.old.items ++ gap_line form gap.now) }
{
    put_start(text, form, b"gap")?;
    put_moment(text, form, b" from ", b"\"from\":", gap.from)?;
    put_moment(text, form, b" until ", b",\"until\":", gap.until)?;
    put_count(text, form, b" missing ", b",\"missing\":", gap.missing)?;
    put_end(text, form)?;
    Ok(())
}

/// Appends the line of an outage.
#[tactic(auto, unfolding(crate::specs::StationText::outage_line))]
pub(crate) fn put_outage_line(
    text: &mut Vec<u8>,
    form: Form,
    outage: &Outage,
) -> Result<(), AllocError>
    ensures { OnOk result (text.new.items ≡ text.old.items ++ outage_line form outage.now) }
{
    put_start(text, form, b"outage")?;
    put_satellite_name(text, form, outage.satellite)?;
    put_moment(text, form, b" from ", b",\"from\":", outage.absence.from)?;
    put_moment(text, form, b" until ", b",\"until\":", outage.absence.until)?;
    put_value(
        text,
        form,
        b" outage-time ",
        b",\"outage_time_ms\":",
        Decimals::Thousandths,
        Some(outage.absence.ms),
    )?;
    put_end(text, form)?;
    Ok(())
}

/// Appends the line of an epoch at which several satellites slip.
#[tactic(auto, unfolding(crate::specs::StationText::together_line))]
pub(crate) fn put_moment_line(
    text: &mut Vec<u8>,
    form: Form,
    moment: &Moment,
) -> Result<(), AllocError>
    ensures { OnOk result (text.new.items ≡ text.old.items ++ together_line form moment.now) }
{
    let together = &moment.together;
    put_start(text, form, b"slip-together")?;
    put_moment(text, form, b" ", b"\"time\":", moment.time)?;
    put_having(text, form, together.slipping, together.tracked)?;
    put_end(text, form)?;
    Ok(())
}

/// Appends the line of an hour in which a satellite slips at several epochs.
#[tactic(auto, unfolding(crate::specs::StationText::burst_line))]
pub(crate) fn put_burst_line(
    text: &mut Vec<u8>,
    form: Form,
    burst: &Burst,
) -> Result<(), AllocError>
    ensures { OnOk result (text.new.items ≡ text.old.items ++ burst_line form burst.now) }
{
    put_start(text, form, b"burst")?;
    put_satellite_name(text, form, burst.satellite)?;
    put_moment(text, form, b" hour ", b",\"hour\":", start_of(burst.hour))?;
    put_count(text, form, b" moments ", b",\"moments\":", burst.moments)?;
    put_end(text, form)?;
    Ok(())
}

/// Appends the line of a run of half cycles.
#[tactic(auto, unfolding(crate::specs::StationText::run_line))]
pub(crate) fn put_run_line(text: &mut Vec<u8>, form: Form, half: &HalfRun) -> Result<(), AllocError>
    ensures { OnOk result (text.new.items ≡ text.old.items ++ run_line form half.now) }
{
    put_start(text, form, b"half-run")?;
    put_satellite_name(text, form, half.satellite)?;
    put_moment(text, form, b" from ", b",\"from\":", half.run.from)?;
    put_moment(text, form, b" until ", b",\"until\":", half.run.until)?;
    put_count(text, form, b" epochs ", b",\"epochs\":", half.run.epochs)?;
    put_end(text, form)?;
    Ok(())
}

/// Appends the line of a run of epochs at which a code of a satellite is missing.
#[tactic(auto, unfolding(crate::specs::StationText::missing_line))]
pub(crate) fn put_missing_line(
    text: &mut Vec<u8>,
    form: Form,
    missing: &MissingCode,
) -> Result<(), AllocError>
    ensures { OnOk result (text.new.items ≡ text.old.items ++ missing_line form missing.now) }
{
    let run = &missing.run;
    put_start(text, form, b"missing-code")?;
    put_satellite_name(text, form, missing.satellite)?;
    put_code_name(text, form, missing.code)?;
    put_moment(text, form, b" from ", b",\"from\":", run.from)?;
    put_moment(text, form, b" until ", b",\"until\":", run.until)?;
    put_count(text, form, b" epochs ", b",\"epochs\":", run.epochs)?;
    put_end(text, form)?;
    Ok(())
}

/// Appends the line of the largest fall of a band.
#[tactic(auto, unfolding(crate::specs::StationText::fall_line))]
pub(crate) fn put_fall_line(
    text: &mut Vec<u8>,
    form: Form,
    band: CodeBand,
    fall: &Fall,
) -> Result<(), AllocError>
    ensures { OnOk result (text.new.items ≡ text.old.items ++ fall_line form band fall.now) }
{
    put_start(text, form, b"fall")?;
    put_count(text, form, b" band ", b"\"band\":", number_of(band))?;
    put_moment(text, form, b" from ", b",\"from\":", start_of(fall.from))?;
    put_moment(text, form, b" until ", b",\"until\":", start_of(fall.until))?;
    put_value(
        text,
        form,
        b" mean-strength ",
        b",\"mean_strength_centidbhz\":",
        Decimals::Hundredths,
        Some(fall.by),
    )?;
    put_end(text, form)?;
    Ok(())
}
