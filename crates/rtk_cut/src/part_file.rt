//! Writing a part of a file.

ghost use Rattle.std.specs.Prelude.{◌≡◌, ◌≢◌, ◌≤◌, List, Err, IfOk, OnOk, OnErr, IsErrOf};
ghost use Rattle.rtk_frame.specs.Stream.{with_more, TakesPart, CountRises};
ghost use Rattle.rtk_rinex.specs.Record.{EpochTableView};
ghost use Rattle.rtk_cut.specs.Cut.{IsStepOrNone};
ghost use Rattle.rtk_cut.specs.CutWriting.{WritesPart, CountsPart, WritesFirstOfPart, WritesMixedPart, CountsMixedPart, WritesFirstOfMixedPart};
ghost use Rattle.rtk_cut.specs.Steps.FileTexts.{part_text};
ghost use Rattle.rtk_cut.specs.Steps.PartFile.{CountsEpochs};
ghost use Rattle.rtk_cut.specs.Steps.Pending.{StandsForNone};
ghost use Rattle.rtk_cut.specs.declared.fault.CutFault.TheVariants.{Write};

use crate::counts::CutCounts;
use crate::epoch_file::EpochFile;
use crate::fault::CutFault;
use crate::gps_file::GpsFile;
use crate::mixed_file::MixedFile;
use crate::part::{Choice, Part};
use crate::part_writer::PartWriter;
use rtk_frame::Sink;
use rtk_rinex::{MixedTextTable, TextTable};
use rtk_tracking::{interval, mixed_interval, nearness_ms};
use std::alloc::Global;

// Writes the chosen part of a file of which no record was read.
fn cut_file<F: EpochFile + Drop, W: Sink>(
    alloc: Global,
    file: F,
    choice: Choice,
    out: &mut W,
) -> Result<CutCounts, CutFault>
    requires step { IsStepOrNone choice.every }
    requires near { choice.near_ms ≤ 25 }
    requires marks { StandsForNone (F.marks file) }
    ensures all { OnOk result ((epochs : List EpochTableView) → F.AreLeft file epochs
        → W.taken out.new ≡ with_more (W.taken out.old) (part_text choice (F.texts file) epochs)) }
    ensures counts { IfOk result (λ counts. (epochs : List EpochTableView) → F.AreLeft file epochs → CountsEpochs choice epochs counts) }
    ensures part { OnErr result ((epochs : List EpochTableView) → F.AreLeft file epochs
        → TakesPart (W.taken out.old) (W.taken out.new) (part_text choice (F.texts file) epochs)) }
    ensures write_failed { IsErrOf result Write → CountRises (W.failures out.old) (W.failures out.new) }
    ensures no_failed_write { result ≢ Err Write → W.failures out.new ≡ W.failures out.old }
{
    let mut writer = PartWriter::new(file, choice);
    while let Some(read) = writer.file.next() {
        writer.write_next(alloc, &read, out)?;
    }
    writer.write_end(alloc, out)?;
    Ok(writer.counts)
}

/// Writes a part of a file of GPS, a record at a time, and the header with the first one. Answers how many
/// records were read and written.
///
/// Of a record whose slips stay as they are its own text is written. The memory that is held does
/// not grow with the file.
pub fn cut<W: Sink>(
    alloc: Global,
    table: &TextTable<'_>,
    part: Part,
    out: &mut W,
) -> Result<CutCounts, CutFault>
    requires step { IsStepOrNone part.every }
    ensures all { OnOk result (WritesPart table.now.text part (W.taken out.old) (W.taken out.new)) }
    ensures counts { IfOk result (CountsPart table.now.text part) }
    ensures part { OnErr result (WritesFirstOfPart table.now.text part (W.taken out.old) (W.taken out.new)) }

    // A failed write is told, and nothing else is told as one. Else it fails only if memory is refused:
    // tests/system/calls, rows `cut ..`.
    ensures write_failed { IsErrOf result Write → CountRises (W.failures out.old) (W.failures out.new) }
    ensures no_failed_write { result ≢ Err Write → W.failures out.new ≡ W.failures out.old }
{
    let interval_ms = interval(alloc, table)?;
    let choice = Choice::new(part, nearness_ms(interval_ms));
    let file = GpsFile::new(alloc, table)?;
    cut_file(alloc, file, choice, out)
}

/// Writes a part of a file of any systems, as `cut` does for GPS.
pub fn cut_mixed<W: Sink>(
    alloc: Global,
    table: &MixedTextTable<'_>,
    part: Part,
    out: &mut W,
) -> Result<CutCounts, CutFault>
    requires step { IsStepOrNone part.every }
    ensures all { OnOk result (WritesMixedPart table.now.text part (W.taken out.old) (W.taken out.new)) }
    ensures counts { IfOk result (CountsMixedPart table.now.text part) }
    ensures part { OnErr result (WritesFirstOfMixedPart table.now.text part (W.taken out.old) (W.taken out.new)) }

    // It fails as `cut` does: tests/system/calls, row `cut_mixed`.
    ensures write_failed { IsErrOf result Write → CountRises (W.failures out.old) (W.failures out.new) }
    ensures no_failed_write { result ≢ Err Write → W.failures out.new ≡ W.failures out.old }
{
    let interval_ms = mixed_interval(alloc, table)?;
    let choice = Choice::new(part, nearness_ms(interval_ms));
    cut_file(alloc, MixedFile::new(table), choice, out)
}
