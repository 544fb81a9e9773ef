//! The lines of what captures have and no file can show: frames that can't be read, cells without a name, and
//! positions beside that of the header.
//!
//! If memory is refused, a first part of what is put may stand there.

ghost use Rattle.std.specs.Prelude.{◌≡◌, ◌++◌, OnOk};
ghost use Rattle.rtk_captures.specs.OtherPositions.{other_position_lines};
ghost use Rattle.rtk_plan.specs.LeftOut as spec;
ghost use Rattle.rtk_plan.specs.Plan.{taken_messages};
ghost use Rattle.rtk_setup.specs.Setup.{taken_by};
ghost use Rattle.rtk_survey.specs.Surveys.{places_of};
ghost use Rattle.rtk_systems.specs.NamelessLines.{nameless_lines};

use crate::planning::Plan;
use crate::station_setup::taken_by_setup;
use rtk_captures::{Captures, put_name_line, put_other_positions};
use rtk_message::{Accepted, put_named};
use rtk_setup::Setup;
use rtk_survey::{CaptureSurvey, Contents};
use rtk_systems::put_nameless;
use std::alloc::AllocError;
use std::collections::BTreeMap;

// Appends the line of so many messages of a number that can't be read, with words that name the fault.
#[tactic(auto, unfolding(crate::specs::LeftOut::refused_number_line))]
fn put_refused(
    lines: &mut Vec<u8>,
    words: &[u8],
    number: u16,
    count: u64,
    name: &str,
) -> Result<(), AllocError>
    ensures { OnOk result (lines.new.items ≡ lines.old.items ++ spec.refused_number_line words.now name.now number count) }
{
    put_named(lines, words, u64::from(number))?;
    put_named(lines, b" ", count)?;
    put_name_line(lines, b" in ", name)?;
    Ok(())
}

fn put_refused_among(
    lines: &mut Vec<u8>,
    words: &[u8],
    counts: &BTreeMap<u16, u64>,
    name: &str,
) -> Result<(), AllocError>
    ensures { OnOk result (lines.new.items ≡ lines.old.items ++ spec.refused_among words.now name.now counts.now) }
{
    for (number, count) in counts {
        put_refused(lines, words, *number, *count, name)?;
    }
    Ok(())
}

// Appends the line of so many frames without a number.
fn put_numberless(lines: &mut Vec<u8>, count: u64, name: &str) -> Result<(), AllocError>
    ensures { OnOk result (lines.new.items ≡ lines.old.items ++ spec.numberless_line count name.now) }
{
    if count == 0 {
        return Ok(());
    }
    put_named(lines, b" refused M1 - ", count)?;
    put_name_line(lines, b" in ", name)?;
    Ok(())
}

// Appends the line of so many MSM of a number that tell no day, if MSM of this number are taken.
#[tactic(auto, unfolding(crate::specs::LeftOut::dayless_line))]
fn put_dayless_numbered(
    lines: &mut Vec<u8>,
    taken: Accepted,
    number: u16,
    count: u64,
    name: &str,
) -> Result<(), AllocError>
    ensures { OnOk result (lines.new.items ≡ lines.old.items ++ spec.dayless_line taken name.now number count) }
{
    if !taken.accepts(number) {
        return Ok(());
    }
    put_refused(lines, b" refused M4 ", number, count, name)?;
    Ok(())
}

fn put_dayless_among(
    lines: &mut Vec<u8>,
    taken: Accepted,
    counts: &BTreeMap<u16, u64>,
    name: &str,
) -> Result<(), AllocError>
    ensures { OnOk result (lines.new.items ≡ lines.old.items ++ spec.dayless_among taken name.now counts.now) }
{
    for (number, count) in counts {
        put_dayless_numbered(lines, taken, *number, *count, name)?;
    }
    Ok(())
}

// Appends such lines, unless a conversion with 1012 reads these MSM.
fn put_dayless(
    lines: &mut Vec<u8>,
    taken: Accepted,
    counts: &BTreeMap<u16, u64>,
    name: &str,
) -> Result<(), AllocError>
    ensures { OnOk result (lines.new.items ≡ lines.old.items ++ spec.dayless_lines taken name.now counts.now) }
{
    if taken.obs1012 {
        return Ok(());
    }
    put_dayless_among(lines, taken, counts, name)
}

// Appends the lines of a capture, by its faults.
#[tactic(auto, unfolding(crate::specs::LeftOut::refused_lines))]
fn put_refused_of(
    lines: &mut Vec<u8>,
    taken: Accepted,
    contents: &Contents,
    name: &str,
) -> Result<(), AllocError>
    ensures { OnOk result (lines.new.items ≡ lines.old.items ++ spec.refused_lines taken name.now contents.now) }
{
    let unread = &contents.unread;
    put_numberless(lines, unread.no_number, name)?;
    put_refused_among(lines, b" refused M3 ", &unread.short, name)?;
    put_refused_among(lines, b" refused M4 ", &unread.outside_week, name)?;
    put_dayless(lines, taken, &contents.dayless, name)?;
    put_refused_among(lines, b" refused M5 ", &unread.too_many_cells, name)?;
    Ok(())
}

fn put_refused_at(
    lines: &mut Vec<u8>,
    captures: &Captures<'_, '_>,
    taken: Accepted,
    at: usize,
    survey: &CaptureSurvey,
) -> Result<(), AllocError>
    ensures { OnOk result (lines.new.items ≡ lines.old.items ++ spec.refused_at captures.now.names.now taken at survey.now) }
{
    put_refused_of(lines, taken, &survey.contents, captures.name(at))?;
    Ok(())
}

fn put_all_refused(
    lines: &mut Vec<u8>,
    captures: &Captures<'_, '_>,
    taken: Accepted,
) -> Result<(), AllocError>
    ensures { OnOk result (lines.new.items ≡ lines.old.items ++ spec.all_refused captures.now.names.now taken captures.now.surveys.now) }
{
    for (at, survey) in captures.surveys.iter().enumerate() {
        put_refused_at(lines, captures, taken, at, survey)?;
    }
    Ok(())
}

// Appends the frames of all captures that can't be read.
fn put_refused_in(
    lines: &mut Vec<u8>,
    captures: &Captures<'_, '_>,
    setup: &Setup,
) -> Result<(), AllocError>
    ensures { OnOk result (lines.new.items ≡ lines.old.items
        ++ spec.all_refused captures.now.names.now (taken_by setup.now) captures.now.surveys.now) }
{
    put_all_refused(lines, captures, setup.accepted())?;
    Ok(())
}

// Appends the systems that are converted and have cells without a name.
fn put_nameless_in(
    lines: &mut Vec<u8>,
    surveys: &[CaptureSurvey],
    setup: &Setup,
) -> Result<(), AllocError>
    ensures { OnOk result (lines.new.items ≡ lines.old.items
        ++ nameless_lines setup.now.head.listed surveys.now setup.now.station (taken_messages setup.now)) }
{
    let taken = taken_by_setup(setup);
    put_nameless(lines, setup, surveys, setup.station(), taken)?;
    Ok(())
}

// Appends the captures that tell another position than the first one.
fn put_positions_in(
    lines: &mut Vec<u8>,
    captures: &Captures<'_, '_>,
    plan: &Plan,
) -> Result<(), AllocError>
    ensures { OnOk result (lines.new.items ≡ lines.old.items
        ++ other_position_lines captures.now.names.now plan.now.captures.items (places_of plan.now.links.items)) }
{
    let told = plan.captures.as_slice();
    put_other_positions(lines, captures, told, plan.links.as_slice())?;
    Ok(())
}

/// Appends what captures have and the file of a plan can't show.
pub(crate) fn put_left_out(
    lines: &mut Vec<u8>,
    captures: &Captures<'_, '_>,
    plan: &Plan,
) -> Result<(), AllocError>
    ensures { OnOk result (lines.new.items ≡ lines.old.items
        ++ spec.left_out_lines captures.now.names.now captures.now.surveys.now plan.now) }
{
    put_refused_in(lines, captures, &plan.setup)?;
    put_nameless_in(lines, captures.surveys, &plan.setup)?;
    put_positions_in(lines, captures, plan)?;
    Ok(())
}
