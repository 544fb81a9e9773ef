//! The interval of the records of a part of a file, and the moment of the last one.

ghost use Rattle.std.specs.Prelude.{◌≡◌, ◌≤◌, List, [], ◌∷◌, OnOk, IfOk};
ghost use Rattle.rtk_rinex.specs.Record.{EpochTableView};
ghost use Rattle.rtk_rinex.specs.Table.{WellFormedTable, IsWellFormedTable, table_text};
ghost use Rattle.rtk_rinex.specs.MixedTable.{MixedTable, IsMixedTable, mixed_table_text};
ghost use Rattle.rtk_cut.specs.Cut.{IsStepOrNone, kept_after, cut_of, mixed_cut_of};
ghost use Rattle.rtk_cut.specs.Extent.{extent_of};
ghost use Rattle.rtk_cut.specs.Steps.Noted.{HasNoted};

use crate::epoch_file::EpochFile;
use crate::gps_file::GpsFile;
use crate::mixed_file::MixedFile;
use crate::part::{Choice, Part};
use rtk_obs::GpsMs;
use rtk_rinex::{MixedTextTable, TextTable};
use rtk_tracking::{StepCounts, interval, mixed_interval, nearness_ms};
use std::alloc::{AllocError, Global};

/// How far the records of a file or of its part extend.
#[derive(Clone, Copy, Debug, PartialEq, Eq)]
pub struct Extent {
    /// The interval in ms; `None` with fewer than two records.
    pub interval_ms: Option<u64>,
    /// The moment of the last record; `None` without a record.
    pub last: Option<GpsMs>,
}

// Notes the moment of the next record, if the part has this record.
fn note_if_chosen(choice: &Choice, time: GpsMs, steps: &mut StepCounts) -> Result<(), AllocError>
    requires step { IsStepOrNone choice.now.every }
    requires near { choice.now.near_ms ≤ 25 }
    ensures { OnOk result ((earlier left all : List EpochTableView) (e : EpochTableView) → e.time ≡ time
        → HasNoted steps.old choice.now earlier (e ∷ left) all → HasNoted steps.new choice.now (e ∷ earlier) left all) }
{
    if !choice.has(time) {
        return Ok(());
    }
    if !choice.spans(time) {
        return Ok(());
    }
    steps.note_time(time)
}

// Returns the extent of the chosen part of a file of which no record was read.
fn extent_of_file<F: EpochFile + Drop>(
    alloc: Global,
    file: F,
    choice: Choice,
) -> Result<Extent, AllocError>
    requires step { IsStepOrNone choice.every }
    requires near { choice.near_ms ≤ 25 }
    ensures { IfOk result (λ extent. (epochs : List EpochTableView) → F.AreLeft file epochs
        → extent ≡ extent_of (kept_after choice [] epochs)) }
{
    let mut source = file;
    let mut steps = StepCounts::new(alloc);
    while let Some(read) = source.next() {
        let time = source.time(&read);
        note_if_chosen(&choice, time, &mut steps)?;
    }
    let interval_ms = steps.interval();
    let last = steps.last();
    Ok(Extent { interval_ms, last })
}

/// Returns the interval of the records that a part of a file of GPS has, and the moment of the last one. The part
/// `None`, `None`, `None` is the file itself.
pub fn extent_of_part(
    alloc: Global,
    table: &TextTable<'_>,
    part: Part,
) -> Result<Extent, AllocError>
    requires { IsStepOrNone part.every }
    // Fails only if memory is refused: tests/system/calls, row extent_of_part.
    ensures { IfOk result (λ extent. (t : WellFormedTable) → IsWellFormedTable t → table.now.text ≡ table_text t
        → extent ≡ extent_of (cut_of part t).epochs) }
{
    let interval_ms = interval(alloc, table)?;
    let choice = Choice::new(part, nearness_ms(interval_ms));
    let file = GpsFile::new(alloc, table)?;
    extent_of_file(alloc, file, choice)
}

/// Returns those of a part of a file of any systems, as `extent_of_part` does for GPS.
pub fn extent_of_mixed_part(
    alloc: Global,
    table: &MixedTextTable<'_>,
    part: Part,
) -> Result<Extent, AllocError>
    requires { IsStepOrNone part.every }
    // Fails only if memory is refused: tests/system/calls, row extent_of_mixed_part.
    ensures { IfOk result (λ extent. (t : MixedTable) → IsMixedTable t → table.now.text ≡ mixed_table_text t
        → extent ≡ extent_of (mixed_cut_of part t).epochs) }
{
    let interval_ms = mixed_interval(alloc, table)?;
    let choice = Choice::new(part, nearness_ms(interval_ms));
    extent_of_file(alloc, MixedFile::new(table), choice)
}
