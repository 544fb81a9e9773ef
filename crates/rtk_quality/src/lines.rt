//! The lines of a code, of a satellite and of a pass.

ghost use Rattle.std.specs.Prelude.{◌≡◌, ◌++◌, Some, OnOk};
ghost use Rattle.rtk_quality.specs.Forms.{value_text};
ghost use Rattle.rtk_quality.specs.LineText.{phases_text, having_text, per_slip_text, locks_text, strengths_text, counts_text, code_name, title_text, satellite_name, code_line, satellite_line, sums_text, tracked_line, never_line, pass_line};
ghost use Rattle.rtk_quality.specs.declared.form.Decimals.TheVariants.{Whole};

use crate::code_counts::CodeCounts;
use crate::code_numbers::{CodeNumbers, PerSlip, mean_hundredths, percent_tenths, phases_per_slip};
use crate::form::{
    Decimals, Form, put_either, put_end, put_moment, put_name, put_narrow, put_start, put_value,
};
use crate::pass_sums::PassSums;
use crate::satellite_counts::PassCounts;
use rtk_message::System;
use rtk_obs::{AnyCode, SatelliteIndex, satellite_name};
use std::alloc::AllocError;

/// Appends a whole number that is always there.
pub(crate) fn put_count(
    text: &mut Vec<u8>,
    form: Form,
    words: &[u8],
    key: &[u8],
    number: u64,
) -> Result<(), AllocError>
    ensures { OnOk result (text.new.items ≡ text.old.items ++ value_text form words.now key.now Whole (Some number)) }
{
    put_value(text, form, words, key, Decimals::Whole, Some(number))
}

// Appends phases, and of how many that could be there.
#[tactic(auto, unfolding(crate::specs::LineText::phases_text))]
fn put_phases(text: &mut Vec<u8>, form: Form, numbers: &CodeNumbers) -> Result<(), AllocError>
    ensures { OnOk result (text.new.items ≡ text.old.items ++ phases_text form numbers.now) }
{
    let phases = numbers.counts.phases;
    put_count(text, form, b" phases ", b",\"phases\":", phases)?;
    put_count(text, form, b" of ", b",\"possible\":", numbers.possible)?;
    let percent = percent_tenths(phases, numbers.possible);
    put_value(
        text,
        form,
        b" percent ",
        b",\"percent_tenths\":",
        Decimals::Tenths,
        Some(percent),
    )
}

/// Appends on how many of the satellites a code is.
#[tactic(auto, unfolding(crate::specs::LineText::having_text))]
pub(crate) fn put_having(
    text: &mut Vec<u8>,
    form: Form,
    satellites: u64,
    tracked: u64,
) -> Result<(), AllocError>
    ensures { OnOk result (text.new.items ≡ text.old.items ++ having_text form satellites tracked) }
{
    put_count(text, form, b" satellites ", b",\"satellites\":", satellites)?;
    put_count(text, form, b" of ", b",\"tracked\":", tracked)
}

/// Appends how many phases there are for each slip.
#[tactic(auto, unfolding(crate::specs::LineText::per_slip_text))]
pub(crate) fn put_per_slip(
    text: &mut Vec<u8>,
    form: Form,
    per_slip: PerSlip,
) -> Result<(), AllocError>
    ensures { OnOk result (text.new.items ≡ text.old.items ++ per_slip_text form per_slip) }
{
    match per_slip {
        PerSlip::NoPhase => put_either(
            text,
            form,
            b" phases-per-slip no-phase",
            b",\"phases_per_slip\":null",
        ),
        PerSlip::NoneLost => put_either(
            text,
            form,
            b" phases-per-slip none-lost",
            b",\"phases_per_slip\":null",
        ),
        PerSlip::Each(number) => put_count(
            text,
            form,
            b" phases-per-slip ",
            b",\"phases_per_slip\":",
            number,
        ),
    }
}

// Appends ranges without a phase, bits 0, half cycles, and phases for each slip.
#[tactic(auto, unfolding(crate::specs::LineText::locks_text))]
fn put_locks(text: &mut Vec<u8>, form: Form, counts: &CodeCounts) -> Result<(), AllocError>
    ensures { OnOk result (text.new.items ≡ text.old.items ++ locks_text form counts.now) }
{
    put_count(
        text,
        form,
        b" ranges-only ",
        b",\"ranges_only\":",
        counts.ranges,
    )?;
    put_count(text, form, b" slips ", b",\"slips\":", counts.slips)?;
    put_count(text, form, b" returns ", b",\"returns\":", counts.returns)?;
    put_count(text, form, b" rises ", b",\"rises\":", counts.rises)?;
    put_count(
        text,
        form,
        b" half-cycles ",
        b",\"half_cycles\":",
        counts.halves,
    )?;
    let each = phases_per_slip(counts.phases, counts.slips);
    put_per_slip(text, form, each)?;
    Ok(())
}

// Appends strengths.
#[tactic(auto, unfolding(crate::specs::LineText::strengths_text))]
fn put_strengths(text: &mut Vec<u8>, form: Form, counts: &CodeCounts) -> Result<(), AllocError>
    ensures { OnOk result (text.new.items ≡ text.old.items ++ strengths_text form counts.now) }
{
    put_narrow(
        text,
        form,
        b" least-strength ",
        b",\"least_strength_millidbhz\":",
        Decimals::Thousandths,
        counts.least,
    )?;
    let mean = mean_hundredths(counts.strength_sum, counts.strengths);
    put_value(
        text,
        form,
        b" mean-strength ",
        b",\"mean_strength_centidbhz\":",
        Decimals::Hundredths,
        mean,
    )?;
    put_narrow(
        text,
        form,
        b" greatest-strength ",
        b",\"greatest_strength_millidbhz\":",
        Decimals::Thousandths,
        counts.greatest,
    )?;
    Ok(())
}

// Appends locks and strengths, up to the end of their line.
#[tactic(auto, unfolding(crate::specs::LineText::counts_text))]
fn put_counts(text: &mut Vec<u8>, form: Form, counts: &CodeCounts) -> Result<(), AllocError>
    ensures { OnOk result (text.new.items ≡ text.old.items ++ counts_text form counts.now) }
{
    put_locks(text, form, counts)?;
    put_strengths(text, form, counts)?;
    put_end(text, form)
}

/// Appends a code behind the satellite that has it.
#[tactic(auto, unfolding(crate::specs::LineText::code_name))]
pub(crate) fn put_code_name(text: &mut Vec<u8>, form: Form, code: AnyCode) -> Result<(), AllocError>
    ensures { OnOk result (text.new.items ≡ text.old.items ++ code_name form code) }
{
    put_name(text, form, b",\"code\":\"", &code.name())
}

/// Appends a satellite.
#[tactic(auto, unfolding(crate::specs::LineText::satellite_name))]
pub(crate) fn put_satellite_name(
    text: &mut Vec<u8>,
    form: Form,
    satellite: SatelliteIndex,
) -> Result<(), AllocError>
    ensures { OnOk result (text.new.items ≡ text.old.items ++ satellite_name form satellite) }
{
    put_name(text, form, b"\"satellite\":\"", &satellite_name(satellite))
}

/// Appends a code without a satellite: two characters are one of GPS, and three begin with the letter of the system.
#[tactic(auto, unfolding(crate::specs::LineText::title_text))]
pub(crate) fn put_title(text: &mut Vec<u8>, form: Form, code: AnyCode) -> Result<(), AllocError>
    ensures { OnOk result (text.new.items ≡ text.old.items ++ title_text form code) }
{
    match code.system() {
        System::Gps => put_name(text, form, b"\"code\":\"", &code.name()),
        _ => put_name(text, form, b"\"code\":\"", &code.text()),
    }
}

/// Appends the line of a code over all satellites that have it, of so many that are tracked.
#[tactic(auto, unfolding(crate::specs::LineText::code_line))]
pub(crate) fn put_code_line(
    text: &mut Vec<u8>,
    form: Form,
    code: AnyCode,
    tracked: u64,
    numbers: &CodeNumbers,
) -> Result<(), AllocError>
    ensures { OnOk result (text.new.items ≡ text.old.items ++ code_line form code tracked numbers.now) }
{
    put_start(text, form, b"code")?;
    put_title(text, form, code)?;
    put_phases(text, form, numbers)?;
    put_having(text, form, numbers.satellites, tracked)?;
    put_counts(text, form, &numbers.counts)
}

/// Appends the line of a code that a satellite has.
#[tactic(auto, unfolding(crate::specs::LineText::satellite_line))]
pub(crate) fn put_satellite_line(
    text: &mut Vec<u8>,
    form: Form,
    satellite: SatelliteIndex,
    code: AnyCode,
    numbers: &CodeNumbers,
) -> Result<(), AllocError>
    ensures { OnOk result (text.new.items ≡ text.old.items ++ satellite_line form satellite code numbers.now) }
{
    put_start(text, form, b"satellite")?;
    put_satellite_name(text, form, satellite)?;
    put_code_name(text, form, code)?;
    put_phases(text, form, numbers)?;
    put_counts(text, form, &numbers.counts)
}

/// Appends the line of a code of the file that a satellite has nowhere.
#[tactic(auto, unfolding(crate::specs::LineText::never_line))]
pub(crate) fn put_never_line(
    text: &mut Vec<u8>,
    form: Form,
    satellite: SatelliteIndex,
    code: AnyCode,
) -> Result<(), AllocError>
    ensures { OnOk result (text.new.items ≡ text.old.items ++ never_line form satellite code) }
{
    put_start(text, form, b"never")?;
    put_satellite_name(text, form, satellite)?;
    put_code_name(text, form, code)?;
    put_end(text, form)
}

// Appends the sums of a pass or of a satellite.
#[tactic(auto, unfolding(crate::specs::LineText::sums_text))]
fn put_sums(text: &mut Vec<u8>, form: Form, sums: &PassSums) -> Result<(), AllocError>
    ensures { OnOk result (text.new.items ≡ text.old.items ++ sums_text form sums.now) }
{
    put_count(text, form, b" phases ", b",\"phases\":", sums.phases)?;
    put_count(text, form, b" slips ", b",\"slips\":", sums.slips)?;
    put_count(text, form, b" moments ", b",\"moments\":", sums.moments)?;
    put_count(text, form, b" outages ", b",\"outages\":", sums.outages)?;
    put_value(
        text,
        form,
        b" outage-time ",
        b",\"outage_time_ms\":",
        Decimals::Thousandths,
        Some(sums.outage_ms),
    )?;
    Ok(())
}

/// Appends the line of all codes of a satellite.
#[tactic(auto, unfolding(crate::specs::LineText::tracked_line))]
pub(crate) fn put_tracked_line(
    text: &mut Vec<u8>,
    form: Form,
    satellite: SatelliteIndex,
    sums: &PassSums,
) -> Result<(), AllocError>
    ensures { OnOk result (text.new.items ≡ text.old.items ++ tracked_line form satellite sums.now) }
{
    put_start(text, form, b"tracked")?;
    put_satellite_name(text, form, satellite)?;
    put_sums(text, form, sums)?;
    put_end(text, form)
}

/// Appends the line of a pass.
#[tactic(auto, unfolding(crate::specs::LineText::pass_line))]
pub(crate) fn put_pass_line(
    text: &mut Vec<u8>,
    form: Form,
    satellite: SatelliteIndex,
    pass: &PassCounts,
) -> Result<(), AllocError>
    ensures { OnOk result (text.new.items ≡ text.old.items ++ pass_line form satellite pass.now) }
{
    put_start(text, form, b"pass")?;
    put_satellite_name(text, form, satellite)?;
    put_moment(text, form, b" from ", b",\"from\":", pass.from)?;
    put_moment(text, form, b" until ", b",\"until\":", pass.until)?;
    put_sums(text, form, &pass.sums)?;
    put_end(text, form)
}
