//! What a person should know of a conversion that is done.
//!
//! If memory is refused, a first part of what is put may stand there.

ghost use Rattle.std.specs.Prelude.{◌≡◌, ◌++◌, IfOk, OnOk};
ghost use Rattle.rtk_plan.specs.KnownLines as spec;
ghost use Rattle.rtk_plan.specs.Plan.{taken_messages};
ghost use Rattle.rtk_survey.specs.Surveys.{places_of};
ghost use Rattle.rtk_systems.specs.ToldChannels.{told_channel_lines};

use crate::capture_lines::{put_epochs, put_other_dates, put_skipped, put_strays, put_undated};
use crate::clock_notes::put_all_clock_notes;
use crate::leap_lines::put_leap_in;
use crate::left_out::put_left_out;
use crate::other_equipment::put_equipment_notes;
use crate::phase_lines::put_few_phases_in;
use crate::planning::Plan;
use crate::reported::Reported;
use crate::station_setup::taken_by_setup;
use crate::written_file::{Step, WrittenFile};
use rtk_captures::{Captures, DateSource, DatedSpan, put_no_position, put_span};
use rtk_message::{Accepted, put_named};
use rtk_setup::{Counts, Setup};
use rtk_survey::{CaptureSurvey, Equipment};
use rtk_systems::{
    is_1012_given, put_channel_lines, put_doppler, put_msms, put_obs_1004, put_sbas,
    put_told_clocks, put_unchecked, put_unread,
};
use std::alloc::{AllocError, Global};

// Appends how many late messages came on a link with a stray epoch.
fn put_late_by_stray(lines: &mut Vec<u8>, count: u64) -> Result<(), AllocError>
    ensures { OnOk result (lines.new.items ≡ lines.old.items ++ spec.late_by_stray count) }
{
    if count == 0 {
        return Ok(());
    }
    put_named(lines, b", ", count)?;
    lines.extend_from_slice(b" of them on a link with the stray epoch")?;
    Ok(())
}

// Appends how many messages were late, and how many of them because of a stray epoch.
#[tactic(auto, unfolding(crate::specs::KnownLines::late_count_line))]
fn put_late(lines: &mut Vec<u8>, late: u64, by_stray: u64, window: usize) -> Result<(), AllocError>
    ensures { OnOk result (lines.new.items ≡ lines.old.items ++ spec.late_count_line late by_stray window) }
{
    if late == 0 {
        return Ok(());
    }
    put_named(lines, b" late ", late)?;
    put_named(lines, b": observations after ", window as u64)?;
    put_named(
        lines,
        b" newer epochs, and new positions after ",
        window as u64,
    )?;
    lines.extend_from_slice(b" epochs, are left out")?;
    put_late_by_stray(lines, by_stray)?;
    lines.extend_from_slice(b"\n")?;
    Ok(())
}

/// What a person should know of a conversion, but for late messages, which are known only once it is
/// done.
#[derive(Drop)]
pub struct Known {
    /// The lines before that of late messages.
    first: Vec<u8>,
    /// The lines after it.
    last: Vec<u8>,
    /// How many epochs are kept open.
    window: usize,
    /// By what the epochs are dated.
    source: DateSource,
    /// The places of the links that have a stray epoch.
    stray_links: Vec<usize>,
}

// Is a place among these?
fn is_one_of(places: &[usize], place: usize) -> bool
    ensures { result ≡ spec.is_one_of places.now place }
{
    places.iter().any(|other| *other == place)
}

// Has a link a capture at one of these places?
fn has_one_of(link: &[usize], places: &[usize]) -> bool
    ensures { result ≡ spec.has_one_of places.now link.now }
{
    link.iter().any(|place| is_one_of(places, *place))
}

// The places of the links with a stray epoch.
fn links_with_strays(
    alloc: Global,
    links: &[Vec<usize>],
    strays: &[usize],
) -> Result<Vec<usize>, AllocError>
    ensures { IfOk result (λ found. found.items ≡ spec.links_with_strays (places_of links.now) strays.now) }
{
    let mut found = Vec::new(alloc);
    for (place, link) in links.iter().enumerate() {
        if has_one_of(link.as_slice(), strays) {
            found.push(place)?;
        }
    }
    Ok(found)
}

// How many late messages a report lists on these links.
fn late_on_links(reported: &Reported, links: &[usize]) -> u64
    ensures { result ≡ spec.late_on_links reported.now links.now }
{
    let mut count = 0u64;
    for link in links {
        count = count.saturating_add(reported.late_of(*link));
    }
    count
}

// Appends the systems of a plan whose clocks differ from those of their chains, those of which no clock is compared, the
// captures that tell other leap seconds, and leap seconds that were found.
fn put_clocks_in(
    alloc: Global,
    lines: &mut Vec<u8>,
    captures: &Captures<'_, '_>,
    plan: &Plan,
) -> Result<(), AllocError>
    ensures { OnOk result (lines.new.items ≡ lines.old.items
        ++ spec.clock_lines_of captures.now.names.now captures.now.surveys.now plan.now) }
{
    let surveys = captures.surveys;
    let setup = &plan.setup;
    let station = setup.station();
    put_told_clocks(
        alloc,
        lines,
        plan.asked,
        surveys,
        station,
        &plan.leap_seconds,
    )?;
    put_unchecked(lines, setup, surveys, station)?;
    put_leap_in(lines, captures, plan)?;
    Ok(())
}

// Appends what messages tell of channels of GLONASS, and the slots that have a value and no channel.
fn put_channels_in(
    lines: &mut Vec<u8>,
    surveys: &[CaptureSurvey],
    plan: &Plan,
) -> Result<(), AllocError>
    ensures { OnOk result (lines.new.items ≡ lines.old.items
        ++ told_channel_lines surveys.now plan.now.setup.station (taken_messages plan.now.setup) plan.now.own_channels plan.now.setup.head.glonass) }
{
    let setup = &plan.setup;
    let taken = taken_by_setup(setup);
    let own = &plan.own_channels;
    put_channel_lines(
        lines,
        surveys,
        setup.station(),
        taken,
        own,
        setup.head().glonass(),
    )?;
    Ok(())
}

// Are 1012 of the station left out, since there is no moment near which they are dated right?
fn leaves_long(surveys: &[CaptureSurvey], plan: &Plan) -> bool
    ensures { result ≡ spec.leaves_long surveys.now plan.now }
{
    plan.asked.glonass && (!plan.has_near_1012 && is_1012_given(surveys, plan.setup.station()))
}

// Appends the captures that are dated near the others, or whose clocks fall.
fn put_undated_notes(
    lines: &mut Vec<u8>,
    captures: &Captures<'_, '_>,
    plan: &Plan,
) -> Result<(), AllocError>
    ensures { OnOk result (lines.new.items ≡ lines.old.items
        ++ spec.undated_notes captures.now.names.now captures.now.surveys.now plan.now) }
{
    put_undated(lines, captures, plan)?;
    let leaves_1012 = leaves_long(captures.surveys, plan);
    put_all_clock_notes(lines, captures, plan, leaves_1012)?;
    Ok(())
}

// Appends what a person should know before the line of late messages.
#[tactic(auto, unfolding(crate::specs::KnownLines::lines_before_late))]
fn put_first_lines(
    alloc: Global,
    lines: &mut Vec<u8>,
    captures: &Captures<'_, '_>,
    plan: &Plan,
    told: &Equipment,
) -> Result<(), AllocError>
    ensures { OnOk result (lines.new.items ≡ lines.old.items
        ++ spec.lines_before_late captures.now.names.now captures.now.surveys.now plan.now told.now) }
{
    put_undated_notes(lines, captures, plan)?;
    put_other_dates(lines, captures, &plan.setup)?;
    put_clocks_in(alloc, lines, captures, plan)?;
    put_few_phases_in(lines, captures.surveys, &plan.setup)?;
    put_channels_in(lines, captures.surveys, plan)?;
    put_equipment_notes(lines, captures, &plan.setup, told)?;
    put_strays(lines, captures, plan.span.until, plan.strays.as_slice())?;
    Ok(())
}

// Appends the observations that are not taken.
#[tactic(auto, unfolding(crate::specs::KnownLines::not_taken_by))]
fn put_not_taken(
    lines: &mut Vec<u8>,
    surveys: &[CaptureSurvey],
    station: u16,
    taken: Accepted,
    has_gps: bool,
    has_sbas: bool,
    has_doppler: bool,
    is_long: bool,
) -> Result<(), AllocError>
    ensures { OnOk result (lines.new.items ≡ lines.old.items ++ spec.not_taken_by taken has_gps has_sbas has_doppler is_long surveys.now station) }
{
    put_obs_1004(lines, surveys, station, has_gps, has_sbas)?;
    put_msms(lines, surveys, station, taken)?;
    put_doppler(lines, surveys, station, taken, has_doppler)?;
    put_sbas(lines, surveys, station, has_sbas)?;
    put_unread(lines, surveys, is_long, taken)?;
    Ok(())
}

// Appends the observations that a conversion does not take; 1012 may be left out since they can't be dated.
fn put_not_taken_in(
    lines: &mut Vec<u8>,
    surveys: &[CaptureSurvey],
    is_long: bool,
    setup: &Setup,
) -> Result<(), AllocError>
    ensures { OnOk result (lines.new.items ≡ lines.old.items ++ spec.not_taken surveys.now is_long setup.now) }
{
    let taken = setup.accepted();
    let has_gps = setup.takes_gps();
    let has_sbas = setup.takes_sbas();
    let has_doppler = setup.has_doppler();
    put_not_taken(
        lines,
        surveys,
        setup.station(),
        taken,
        has_gps,
        has_sbas,
        has_doppler,
        is_long,
    )?;
    Ok(())
}

// Appends the captures of a plan that are left out, and those that have no epoch or whose epochs fall.
fn put_captures_in(
    lines: &mut Vec<u8>,
    captures: &Captures<'_, '_>,
    plan: &Plan,
) -> Result<(), AllocError>
    ensures { OnOk result (lines.new.items ≡ lines.old.items
        ++ (spec.skipped_lines captures.now.names.now plan.now.captures.items plan.now.skipped.items
        ++ spec.epochs_lines captures.now.names.now plan.now.captures.items (places_of plan.now.links.items))) }
{
    let told = plan.captures.as_slice();
    put_skipped(lines, captures, told, plan.skipped.as_slice())?;
    put_epochs(lines, captures, told, plan.links.as_slice())?;
    Ok(())
}

// Appends what a person should know behind the line of late messages.
#[tactic(auto, unfolding(crate::specs::KnownLines::lines_behind_late))]
fn put_last_lines(
    lines: &mut Vec<u8>,
    captures: &Captures<'_, '_>,
    plan: &Plan,
) -> Result<(), AllocError>
    ensures { OnOk result (lines.new.items ≡ lines.old.items
        ++ spec.lines_behind_late captures.now.names.now captures.now.surveys.now plan.now) }
{
    put_captures_in(lines, captures, plan)?;
    let is_long = leaves_long(captures.surveys, plan);
    put_not_taken_in(lines, captures.surveys, is_long, &plan.setup)?;
    put_left_out(lines, captures, plan)?;
    Ok(())
}

/// What a person should know of a conversion, a line each, only where it is so: captures that are dated near
/// the others; a date that is told and does not count; systems whose clocks differ from those of their chains, or of which no clock is compared; captures that tell other leap seconds; codes with few phases; channels of GLONASS that many slots have, or one has several of, and satellites without one; texts
/// that messages told and that a label does not have; captures that told another antenna or receiver; captures with a stray epoch, that are left out, that have no epoch or whose time falls;
/// observations that are not taken; frames that can't be read; systems with cells without a name; and captures that tell another position.
pub fn what_is_known(
    alloc: Global,
    captures: &Captures<'_, '_>,
    plan: &Plan,
    told: &Equipment,
) -> Result<Known, AllocError>
    ensures first { IfOk result (λ known. known.first.items ≡ spec.lines_before_late captures.now.names.now captures.now.surveys.now plan.now told.now) }
    ensures last { IfOk result (λ known. known.last.items ≡ spec.lines_behind_late captures.now.names.now captures.now.surveys.now plan.now) }
    ensures window { IfOk result (λ known. known.window ≡ plan.now.setup.window) }
    ensures source { IfOk result (λ known. known.source ≡ plan.now.span.source) }
    ensures strays { IfOk result (λ known. known.stray_links.items ≡ spec.links_with_strays (places_of plan.now.links.items) plan.now.strays.items) }
{
    let mut first = Vec::new(alloc);
    put_first_lines(alloc, &mut first, captures, plan, told)?;
    let mut last = Vec::new(alloc);
    put_last_lines(&mut last, captures, plan)?;
    let strays = plan.strays.as_slice();
    Ok(Known {
        first,
        last,
        window: plan.setup.window(),
        source: plan.span.source,
        stray_links: links_with_strays(alloc, plan.links.as_slice(), strays)?,
    })
}

// Appends the epochs of a file, and by what they are dated.
fn put_span_of(
    lines: &mut Vec<u8>,
    span: Option<Step>,
    source: DateSource,
) -> Result<(), AllocError>
    ensures { OnOk result (lines.new.items ≡ lines.old.items ++ spec.span_line_if_any span source) }
{
    let Some(span) = span else {
        return Ok(());
    };
    put_span(
        lines,
        &DatedSpan {
            from: span.from,
            until: span.until,
            source,
        },
    )
}

// Appends how many conflicts there were.
#[tactic(auto, unfolding(crate::specs::KnownLines::conflicts_line))]
fn put_conflicts(lines: &mut Vec<u8>, conflicts: u64) -> Result<(), AllocError>
    ensures { OnOk result (lines.new.items ≡ lines.old.items ++ spec.conflicts_line conflicts) }
{
    if conflicts == 0 {
        return Ok(());
    }
    put_named(lines, b" conflict ", conflicts)?;
    lines.extend_from_slice(b": later copies differ from the first, which the file has\n")?;
    Ok(())
}

/// Appends what a file has that was written: its epochs, its gaps, that it has no position, and how many
/// conflicts the report has.
#[tactic(auto, unfolding(crate::specs::KnownLines::file_lines))]
pub fn put_file(
    lines: &mut Vec<u8>,
    known: &Known,
    file: &WrittenFile,
    reported: &Reported,
) -> Result<(), AllocError>
    ensures { OnOk result (lines.new.items ≡ lines.old.items ++ spec.file_lines known.now.source file.now reported.now.conflicts) }
{
    put_span_of(lines, file.span(), known.source)?;
    put_no_position(lines, file.has_position())?;
    file.put_gaps(lines)?;
    put_conflicts(lines, reported.conflicts())
}

/// Appends what a person should know of a conversion that is done, with its late messages.
#[tactic(auto, unfolding(crate::specs::KnownLines::known_lines))]
pub fn put_known(
    lines: &mut Vec<u8>,
    known: &Known,
    counts: &Counts,
    reported: &Reported,
) -> Result<(), AllocError>
    ensures { OnOk result (lines.new.items ≡ lines.old.items
        ++ spec.known_lines known.now counts.now.late (spec.late_on_links reported.now known.now.stray_links.items)) }
{
    lines.extend_from_slice(known.first.as_slice())?;
    let by_stray = late_on_links(reported, known.stray_links.as_slice());
    put_late(lines, counts.late, by_stray, known.window)?;
    lines.extend_from_slice(known.last.as_slice())
}
