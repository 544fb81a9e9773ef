//! Two passes over the records of a table, from the first to the last.
//!
//! The first pass finds their number and steps, which give the bins. The second one notes each record in
//! its bin.

ghost use Rattle.std.specs.Prelude.{◌≡◌, ◌*◌, List, ◌∷◌, map, length, IfOk};
ghost use Rattle.std.specs.List.{list_any};
ghost use Rattle.rtk_rinex.specs.Record.{EpochTableView};
ghost use Rattle.rtk_chart.specs.Scale.{IsScale};
ghost use Rattle.rtk_chart.specs.Choice.{narrowed, has_row, is_there};
ghost use Rattle.rtk_chart.specs.Steps.Standing.{StandsForSurvey, StandsForGrid};
ghost use Rattle.rtk_tracking.specs.Epochs.{HoldsOfEpochs};

use crate::choice::{Choice, Chosen, has_row, narrow_to};
use crate::grid::Grid;
use crate::scale::Scale;
use crate::survey::Survey;
use rtk_obs::{Band, GpsMs};
use rtk_rinex::{EpochTable, TextTable};
use std::alloc::{AllocError, Global};

/// Surveys all records; the first moment is any that an epoch can have.
pub(crate) fn survey_records(
    alloc: Global,
    table: &TextTable<'_>,
    first: GpsMs,
) -> Result<Survey, AllocError>
    ensures { IfOk result (λ survey. HoldsOfEpochs table.now.text (StandsForSurvey survey)) }
{
    let mut survey = Survey::new(alloc);
    let mut epoch = EpochTable::new(first);
    let mut records = table.records();
    while let Some(_record) = records.next(&mut epoch) {
        survey.count_record(&epoch)?;
    }
    Ok(survey)
}

// Some record of a table has a row of a chosen satellite. It is no part of its caller, so that its epoch has left the stack
// before the picture is drawn.
#[inline(never)]
fn has_chosen(table: &TextTable<'_>, chosen: &Chosen) -> bool
    ensures { HoldsOfEpochs table.now.text (λ es. result ≡ list_any (has_row chosen.now) es) }
{
    let mut epoch = EpochTable::new(table.heading().first);
    let mut records = table.records();
    while let Some(_record) = records.next(&mut epoch) {
        if has_row(chosen, &epoch) {
            return true;
        }
    }
    false
}

/// Is there something to draw of a table? Of chosen satellites some must have a row in a record. A picture of all
/// satellites is drawn even of a table without records.
pub fn is_there(table: &TextTable<'_>, choice: &Choice) -> bool
    ensures { HoldsOfEpochs table.now.text (λ es. result ≡ is_there choice.now es) }
{
    match choice {
        Choice::All => true,
        Choice::These(chosen) => has_chosen(table, chosen),
    }
}

// Notes one more record, narrowed to the choice; this takes the place of another narrowed one.
fn place_narrowed(
    grid: &mut Grid,
    scale: &Scale,
    bands: &[Option<Band>],
    choice: &Choice,
    epoch: &EpochTable,
    narrow: &mut EpochTable,
)
    requires good { IsScale scale.now }
    requires outages { length grid.old.outages.items ≡ 32 * scale.now.bins }
    ensures bins { length grid.new.bins.items ≡ length grid.old.bins.items }
    ensures outages { length grid.new.outages.items ≡ length grid.old.outages.items }
    ensures gaps { length grid.new.gaps.items ≡ length grid.old.gaps.items }
    ensures grid { (es : List EpochTableView) → StandsForGrid grid.old scale.now bands.now es
        → StandsForGrid grid.new scale.now bands.now (narrowed choice.now epoch.now ∷ es) }
{
    match choice {
        Choice::All => grid.place_record(scale, bands, epoch),
        Choice::These(chosen) => {
            narrow_to(narrow, chosen, epoch);
            grid.place_record(scale, bands, narrow);
        }
    }
}

/// The grid of all records, narrowed to the choice.
pub(crate) fn fill_grid(
    alloc: Global,
    table: &TextTable<'_>,
    scale: &Scale,
    bands: &[Option<Band>],
    first: GpsMs,
    choice: &Choice,
) -> Result<Grid, AllocError>
    requires { IsScale scale.now }
    ensures bins { IfOk result (λ grid. length grid.bins.items ≡ scale.now.bins) }
    ensures outages { IfOk result (λ grid. length grid.outages.items ≡ 32 * scale.now.bins) }
    ensures gaps { IfOk result (λ grid. length grid.gaps.items ≡ scale.now.bins) }
    ensures grid { IfOk result (λ grid. HoldsOfEpochs table.now.text (λ es. StandsForGrid grid scale.now bands.now (map (narrowed choice.now) es))) }
{
    let mut grid = Grid::new(alloc, scale)?;
    let mut epoch = EpochTable::new(first);
    let mut narrow = EpochTable::new(first);
    let mut records = table.records();
    while let Some(_record) = records.next(&mut epoch) {
        place_narrowed(&mut grid, scale, bands, choice, &epoch, &mut narrow);
    }
    Ok(grid)
}
