//! The hours, the largest falls, and lists of the ten largest of other things.

ghost use Rattle.std.specs.Prelude.{◌≡◌, ◌++◌, flat_map, OnOk};
ghost use Rattle.rtk_quality.specs.Entries.{hour_entry, fall_part};
ghost use Rattle.rtk_quality.specs.Lists.{more_text, largest_text};
ghost use Rattle.rtk_quality.specs.QualityText.{hours_heading, hours_text, gaps_text, outages_text, moments_text, bursts_text, runs_text, missing_text, falls_of, falls_text};

use crate::bursts::Burst;
use crate::entries::{Listed, put_fall_entry, put_hour_entry};
use crate::falls::largest_fall;
use crate::form::Form;
use crate::gaps::Gap;
use crate::hours::HourCounts;
use crate::largest::Largest;
use crate::lists::{begin_list, end_list};
use crate::missing::MissingCode;
use crate::moments::Moment;
use crate::outages::Outage;
use crate::runs::HalfRun;
use crate::strengths::{CodeBand, system_of_codes};
use rtk_message::{System, put_number};
use rtk_obs::AnyCode;
use std::alloc::AllocError;

// Appends each hour.
fn put_each_hour(
    text: &mut Vec<u8>,
    form: Form,
    codes: &[AnyCode],
    hours: &[HourCounts],
) -> Result<(), AllocError>
    ensures { OnOk result (text.new.items ≡ text.old.items ++ flat_map (hour_entry form codes.now) hours.now) }
{
    for hour in hours {
        put_hour_entry(text, form, codes, hour)?;
    }
    Ok(())
}

// The heading of the columns of hours, with the bands of a system.
fn hours_heading(system: System) -> &'static [u8]
    ensures { result.now ≡ hours_heading system }
{
    match system {
        System::Galileo => {
            b"\nhour             records    of satellites  slips returns  band 1  band 5  band 7\n"
        }
        System::Beidou => {
            b"\nhour             records    of satellites  slips returns  band 2  band 6  band 7\n"
        }
        _ =>
            b"\nhour             records    of satellites  slips returns  band 1  band 2  band 5\n",
    }
}

/// Appends the hours.
pub(crate) fn put_hours(
    text: &mut Vec<u8>,
    form: Form,
    codes: &[AnyCode],
    hours: &[HourCounts],
) -> Result<(), AllocError>
    ensures { OnOk result (text.new.items ≡ text.old.items ++ hours_text form codes.now hours.now) }
{
    let heading = hours_heading(system_of_codes(codes));
    let start = begin_list(text, form, heading, b",\n\"hours\":[")?;
    put_each_hour(text, form, codes, hours)?;
    end_list(text, form, start)?;
    Ok(())
}

// Appends each of the largest things.
fn put_each<T: Listed>(text: &mut Vec<u8>, form: Form, things: &[T]) -> Result<(), AllocError>
    ensures { OnOk result (text.new.items ≡ text.old.items ++ flat_map (T.entry form) things.now) }
{
    for thing in things {
        thing.put_entry(text, form)?;
    }
    Ok(())
}

// Appends how many more there are than are listed.
fn put_more(text: &mut Vec<u8>, form: Form, count: u64) -> Result<(), AllocError>
    ensures { OnOk result (text.new.items ≡ text.old.items ++ more_text form count) }
{
    match form {
        Form::Table => {
            if count <= 10 {
                return Ok(());
            }
            text.extend_from_slice(b"and ")?;
            put_number(text, count - 10)?;
            text.extend_from_slice(b" more\n")?;
            Ok(())
        }
        Form::Lines | Form::Json => Ok(()),
    }
}

// Appends a list of the largest of some things.
fn put_largest<T: Listed>(
    text: &mut Vec<u8>,
    form: Form,
    heading: &[u8],
    key: &[u8],
    largest: &Largest<T>,
) -> Result<(), AllocError>
    ensures { OnOk result (text.new.items ≡ text.old.items ++ largest_text T.entry form heading.now key.now largest.now.count largest.now.things.items) }
{
    let start = begin_list(text, form, heading, key)?;
    put_each(text, form, largest.things.as_slice())?;
    put_more(text, form, largest.count)?;
    end_list(text, form, start)?;
    Ok(())
}

/// Appends the gaps.
#[tactic(auto, unfolding(crate::specs::QualityText::gaps_text))]
pub(crate) fn put_gaps(
    text: &mut Vec<u8>,
    form: Form,
    gaps: &Largest<Gap>,
) -> Result<(), AllocError>
    ensures { OnOk result (text.new.items ≡ text.old.items ++ gaps_text form gaps.now.count gaps.now.things.items) }
{
    put_largest(
        text,
        form,
        b"\ngap from                until                     missing\n",
        b",\n\"gaps\":[",
        gaps,
    )
}

/// Appends the outages.
#[tactic(auto, unfolding(crate::specs::QualityText::outages_text))]
pub(crate) fn put_outages(
    text: &mut Vec<u8>,
    form: Form,
    outages: &Largest<Outage>,
) -> Result<(), AllocError>
    ensures { OnOk result (text.new.items ≡ text.old.items ++ outages_text form outages.now.count outages.now.things.items) }
{
    put_largest(
        text,
        form,
        b"\noutage from             until                      time\n",
        b",\n\"outages\":[",
        outages,
    )
}

/// Appends the epochs at which several satellites slip.
#[tactic(auto, unfolding(crate::specs::QualityText::moments_text))]
pub(crate) fn put_moments(
    text: &mut Vec<u8>,
    form: Form,
    moments: &Largest<Moment>,
) -> Result<(), AllocError>
    ensures { OnOk result (text.new.items ≡ text.old.items ++ moments_text form moments.now.count moments.now.things.items) }
{
    put_largest(
        text,
        form,
        b"\nslips together      satellites    of\n",
        b",\n\"slips_together\":[",
        moments,
    )
}

/// Appends the hours in which a satellite slips at several epochs.
#[tactic(auto, unfolding(crate::specs::QualityText::bursts_text))]
pub(crate) fn put_bursts(
    text: &mut Vec<u8>,
    form: Form,
    bursts: &Largest<Burst>,
) -> Result<(), AllocError>
    ensures { OnOk result (text.new.items ≡ text.old.items ++ bursts_text form bursts.now.count bursts.now.things.items) }
{
    put_largest(
        text,
        form,
        b"\nburst hour           moments\n",
        b",\n\"bursts\":[",
        bursts,
    )
}

/// Appends the runs of half cycles.
#[tactic(auto, unfolding(crate::specs::QualityText::runs_text))]
pub(crate) fn put_runs(
    text: &mut Vec<u8>,
    form: Form,
    runs: &Largest<HalfRun>,
) -> Result<(), AllocError>
    ensures { OnOk result (text.new.items ≡ text.old.items ++ runs_text form runs.now.count runs.now.things.items) }
{
    put_largest(
        text,
        form,
        b"\nhalf from               until                  epochs\n",
        b",\n\"half_runs\":[",
        runs,
    )
}

/// Appends the runs of epochs at which codes are missing.
#[tactic(auto, unfolding(crate::specs::QualityText::missing_text))]
pub(crate) fn put_missing(
    text: &mut Vec<u8>,
    form: Form,
    missing: &Largest<MissingCode>,
) -> Result<(), AllocError>
    ensures { OnOk result (text.new.items ≡ text.old.items ++ missing_text form missing.now.count missing.now.things.items) }
{
    put_largest(
        text,
        form,
        b"\nmissing from               until                  epochs\n",
        b",\n\"missing_codes\":[",
        missing,
    )
}

// Appends the largest fall of a band, if there is one.
fn put_fall(
    text: &mut Vec<u8>,
    form: Form,
    hours: &[HourCounts],
    band: CodeBand,
) -> Result<(), AllocError>
    ensures { OnOk result (text.new.items ≡ text.old.items ++ fall_part form hours.now band) }
{
    match largest_fall(band, hours) {
        Some(fall) => put_fall_entry(text, form, band, &fall),
        None => Ok(()),
    }
}

// Appends the largest fall of each band.
#[tactic(auto, unfolding(crate::specs::QualityText::falls_of))]
fn put_each_fall(text: &mut Vec<u8>, form: Form, hours: &[HourCounts]) -> Result<(), AllocError>
    ensures { OnOk result (text.new.items ≡ text.old.items ++ falls_of form hours.now) }
{
    put_fall(text, form, hours, CodeBand::B1)?;
    put_fall(text, form, hours, CodeBand::B2)?;
    put_fall(text, form, hours, CodeBand::B5)?;
    put_fall(text, form, hours, CodeBand::B6)?;
    put_fall(text, form, hours, CodeBand::B7)?;
    put_fall(text, form, hours, CodeBand::B8)?;
    Ok(())
}

/// Appends the largest falls.
pub(crate) fn put_falls(
    text: &mut Vec<u8>,
    form: Form,
    hours: &[HourCounts],
) -> Result<(), AllocError>
    ensures { OnOk result (text.new.items ≡ text.old.items ++ falls_text form hours.now) }
{
    let start = begin_list(
        text,
        form,
        b"\nband falls from       until                by\n",
        b",\n\"falls\":[",
    )?;
    put_each_fall(text, form, hours)?;
    end_list(text, form, start)?;
    Ok(())
}
