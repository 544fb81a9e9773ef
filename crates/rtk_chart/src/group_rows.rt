//! The records of a file of any systems, read for one group of satellites.

ghost use Rattle.std.specs.Prelude.{◌≡◌, ◌<◌, ◌≤◌, ◌-◌, true, [], length, AllPairs, IfOk, IfSome, OnOk};
ghost use Rattle.std.specs.Int.{IsInRange};
ghost use Rattle.std.specs.List.{list_any};
ghost use Rattle.rtk_rinex.specs.MixedRecords.{IsRecordOf};
ghost use Rattle.rtk_rinex.specs.Record.{EpochTableView};
ghost use Rattle.rtk_chart.specs.Choice.{has_row, is_there};
ghost use Rattle.rtk_chart.specs.Groups.{is_in_group, is_chosen_by, group_place, group_epoch, group_epochs, HoldsOfMixed};
ghost use Rattle.rtk_chart.specs.Means.{columns_of};
ghost use Rattle.rtk_chart.specs.Scale.{IsScale};
ghost use Rattle.rtk_chart.specs.Steps.Standing.{StandsForSurvey, StandsForGrid, bare_epochs};

use crate::choice::{Choice, Chosen, is_chosen};
use crate::drawing::Drawing;
use crate::grid::Grid;
use crate::groups::Group;
use crate::scale::Scale;
use crate::strengths::{Strengths, note_strengths};
use crate::survey::Survey;
use arrayvec::ArrayVec;
use rtk_obs::Band;
use rtk_rinex::{EpochTable, MixedRows, MixedTextTable};
use std::alloc::{AllocError, Global};

// The satellite of this index is of a group.
fn is_in_group(group: Group, satellite: u8) -> bool
    ensures value { result ≡ is_in_group group satellite }
    ensures inside { result ≡ true → IsInRange 1 group.count (satellite - group.before) }
{
    group.before < satellite && satellite - group.before <= group.count
}

// The satellite of this index is chosen.
fn is_chosen_by(choice: &Choice, satellite: u8) -> bool
    ensures { result ≡ is_chosen_by choice.now satellite }
{
    match choice {
        Choice::All => true,
        Choice::These(chosen) => is_chosen(chosen, satellite),
    }
}

// The place of a satellite in a group, from 1, if it is of the group and chosen.
fn group_place(choice: &Choice, group: Group, satellite: u8) -> Option<u8>
    requires few { group.count ≤ 32 }
    ensures value { result ≡ group_place choice.now group satellite }
    ensures inside { IfSome result (IsInRange 1 32) }
{
    if is_in_group(group, satellite) && is_chosen_by(choice, satellite) {
        return Some(satellite.saturating_sub(group.before));
    }
    None
}

// Writes the rows of a group in a record over another epoch. The rows rise, so each is behind those before it.
fn read_group(read: &MixedRows<'_>, choice: &Choice, group: Group, own: &mut EpochTable)
    requires few { group.count ≤ 32 }
    ensures { (e : EpochTableView) → IsRecordOf e read.now → AllPairs (λ a b. a.satellite < b.satellite) e.rows
        → own.new ≡ group_epoch choice.now group e }
{
    own.restart(read.time());
    let mut rows = read.again();
    let mut observed = ArrayVec::new();
    let mut last = 0;
    while let Some(satellite) = rows.next_row(&mut observed) {
        let Some(place) = group_place(choice, group, satellite.index()) else {
            continue;
        };
        if place <= last {
            continue;
        }
        own.push_row(place, observed.as_slice());
        last = place;
    }
}

/// Surveys the moments of all records.
pub(crate) fn survey_moments(
    alloc: Global,
    table: &MixedTextTable<'_>,
) -> Result<Survey, AllocError>
    ensures { IfOk result (λ survey. HoldsOfMixed table.now.text (StandsForSurvey survey)) }
{
    let mut survey = Survey::new(alloc);
    let mut records = table.records();
    while let Some(record) = records.next() {
        survey.count_moment(record.time())?;
    }
    Ok(survey)
}

/// The grid of all records without their rows: its bins have the records, and the epochs that are missing.
pub(crate) fn fill_moments(
    alloc: Global,
    table: &MixedTextTable<'_>,
    scale: &Scale,
) -> Result<Grid, AllocError>
    requires { IsScale scale.now }
    ensures gaps { IfOk result (λ grid. length grid.gaps.items ≡ scale.now.bins) }
    ensures grid { IfOk result (λ grid. HoldsOfMixed table.now.text (λ es. StandsForGrid grid scale.now [] (bare_epochs es))) }
{
    let mut grid = Grid::new(alloc, scale)?;
    let mut bare = EpochTable::new(scale.first);
    let mut records = table.records();
    while let Some(record) = records.next() {
        bare.restart(record.time());
        grid.place_record(scale, &[], &bare);
    }
    Ok(grid)
}

/// The grid of all records with the chosen satellites of a group, whose codes have these bands. Their strengths of other bands
/// are added to columns of their own.
pub(crate) fn fill_group(
    alloc: Global,
    drawing: &Drawing<'_, '_>,
    group: Group,
    lower: &[Option<Band>],
    upper: &[Option<Band>],
    columns: &mut Vec<Strengths>,
) -> Result<Grid, AllocError>
    requires good { IsScale drawing.now.scale }
    requires few { group.count ≤ 32 }
    ensures bins { IfOk result (λ grid. length grid.bins.items ≡ drawing.now.scale.bins) }
    ensures grid { IfOk result (λ grid. HoldsOfMixed drawing.now.table.now.text (λ es. StandsForGrid grid drawing.now.scale lower.now
        (group_epochs drawing.now.choice.now group es))) }
    ensures columns { OnOk result (columns.old.items ≡ columns_of drawing.now.scale upper.now []
        → HoldsOfMixed drawing.now.table.now.text (λ es. columns.new.items ≡ columns_of drawing.now.scale upper.now (group_epochs drawing.now.choice.now group es))) }
{
    let mut grid = Grid::new(alloc, &drawing.scale)?;
    let mut own = EpochTable::new(drawing.scale.first);
    let mut records = drawing.table.records();
    while let Some(record) = records.next() {
        read_group(&record, drawing.choice, group, &mut own);
        grid.place_record(&drawing.scale, lower, &own);
        note_strengths(columns, &drawing.scale, upper, &own);
    }
    Ok(grid)
}

// Some row of a record is of a chosen satellite.
fn has_chosen_row(read: &MixedRows<'_>, chosen: &Chosen) -> bool
    ensures { (e : EpochTableView) → IsRecordOf e read.now → result ≡ has_row chosen.now e }
{
    let mut rows = read.again();
    let mut observed = ArrayVec::new();
    while let Some(satellite) = rows.next_row(&mut observed) {
        if is_chosen(chosen, satellite.index()) {
            return true;
        }
    }
    false
}

// Some record of a table has a row of a chosen satellite.
fn has_chosen_of_any(table: &MixedTextTable<'_>, chosen: &Chosen) -> bool
    ensures { HoldsOfMixed table.now.text (λ es. result ≡ list_any (has_row chosen.now) es) }
{
    let mut records = table.records();
    while let Some(record) = records.next() {
        if has_chosen_row(&record, chosen) {
            return true;
        }
    }
    false
}

/// Is there something to draw of a table of any systems, as `is_there` says of a table of GPS?
pub fn is_there_of_any(table: &MixedTextTable<'_>, choice: &Choice) -> bool
    ensures { HoldsOfMixed table.now.text (λ es. result ≡ is_there choice.now es) }
{
    match choice {
        Choice::All => true,
        Choice::These(chosen) => has_chosen_of_any(table, chosen),
    }
}
