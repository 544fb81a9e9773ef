//! One record of a file after another.
//!
//! A record that shows no slip but its own is written as the text that was read, and else anew.

ghost use Rattle.std.specs.Prelude.{◌≡◌, ◌+◌, ℕ, ◌≢◌, ◌≤◌, true, List, Err, OnOk, IsErrOf};
ghost use Rattle.rtk_frame.specs.Stream.{CountRises};
ghost use Rattle.rtk_rinex.specs.Record.{EpochTableView};
ghost use Rattle.rtk_tracking.specs.Epochs.{capped};
ghost use Rattle.rtk_cut.specs.Cut.{IsStepOrNone, is_on_step, step_of};
ghost use Rattle.rtk_cut.specs.Steps.PartFile.{IsFresh, CountsWritten, TakesEpoch, TakesEpochInPart, TakesEnd, TakesEndInPart, writing};
ghost use Rattle.rtk_cut.specs.declared.fault.CutFault.TheVariants.{Write};

use crate::counts::{CutCounts, one_more};
use crate::epoch_file::EpochFile;
use crate::fault::CutFault;
use crate::part::Choice;
use crate::part_records::{put_after_header, put_record};
use rtk_frame::Sink;
use std::alloc::Global;

/// What is known while a part of a file is written. Its memory does not grow.
#[derive(Drop)]
pub(crate) struct PartWriter<F> {
    pub(crate) file: F,
    pub(crate) choice: Choice,
    /// The header is out.
    pub(crate) is_header_out: bool,
    pub(crate) counts: CutCounts,
}

impl<F: EpochFile> PartWriter<F> {
    /// No record was taken.
    pub(crate) fn new(file: F, choice: Choice) -> PartWriter<F>
        ensures { IsFresh result file choice }
    {
        PartWriter {
            file,
            choice,
            is_header_out: false,
            counts: CutCounts {
                records: 0,
                written: 0,
            },
        }
    }

    // Takes a record that is on the step.
    fn write_next_on_step<W: Sink>(
        &mut self,
        alloc: Global,
        read: &F::Record,
        out: &mut W,
    ) -> Result<(), CutFault>
        requires near { self.old.choice.near_ms ≤ 25 }
        requires on { (e : EpochTableView) → F.IsRecordOf self.old.file read.now e → is_on_step (step_of self.old.choice) e ≡ true }
        ensures same_choice { self.new.choice ≡ self.old.choice }
        ensures left { (epochs : List EpochTableView) → F.AreLeft self.old.file epochs → F.AreLeft self.new.file epochs }
        ensures size { F.size self.new.file ≡ F.size self.old.file }
        ensures texts { F.texts self.new.file ≡ F.texts self.old.file }
        ensures records { self.new.counts.records ≡ self.old.counts.records }
        ensures written { OnOk result ((e : EpochTableView) → F.IsRecordOf self.old.file read.now e
            → CountsWritten self.old.choice self.old.counts self.new.counts e) }
        ensures all { OnOk result ((e : EpochTableView) → F.IsRecordOf self.old.file read.now e
            → TakesEpoch (writing F.texts F.marks self.old) (writing F.texts F.marks self.new) e (W.taken out.old) (W.taken out.new)) }
        ensures part { (e : EpochTableView) → F.IsRecordOf self.old.file read.now e
            → TakesEpochInPart (writing F.texts F.marks self.old) e (W.taken out.old) (W.taken out.new) }
        ensures write_failed { IsErrOf result Write → CountRises (W.failures out.old) (W.failures out.new) }
        ensures no_failed_write { result ≢ Err Write → W.failures out.new ≡ W.failures out.old }
    {
        let is_changed = self.file.show(read);
        if !self.choice.spans(self.file.time(read)) {
            return Ok(());
        }
        put_record(alloc, &self.file, self.is_header_out, read, is_changed, out)?;
        self.is_header_out = true;
        self.counts.written = one_more(self.counts.written);
        Ok(())
    }

    /// Takes the next record of the file.
    pub(crate) fn write_next<W: Sink>(
        &mut self,
        alloc: Global,
        read: &F::Record,
        out: &mut W,
    ) -> Result<(), CutFault>
        requires step { IsStepOrNone self.old.choice.every }
        requires near { self.old.choice.near_ms ≤ 25 }
        ensures same_choice { self.new.choice ≡ self.old.choice }
        ensures left { (epochs : List EpochTableView) → F.AreLeft self.old.file epochs → F.AreLeft self.new.file epochs }
        ensures size { F.size self.new.file ≡ F.size self.old.file }
        ensures texts { F.texts self.new.file ≡ F.texts self.old.file }
        ensures records { OnOk result ((n : ℕ) → self.old.counts.records ≡ capped n → self.new.counts.records ≡ capped (n + 1)) }
        ensures written { OnOk result ((e : EpochTableView) → F.IsRecordOf self.old.file read.now e
            → CountsWritten self.old.choice self.old.counts self.new.counts e) }
        ensures all { OnOk result ((e : EpochTableView) → F.IsRecordOf self.old.file read.now e
            → TakesEpoch (writing F.texts F.marks self.old) (writing F.texts F.marks self.new) e (W.taken out.old) (W.taken out.new)) }
        ensures part { (e : EpochTableView) → F.IsRecordOf self.old.file read.now e
            → TakesEpochInPart (writing F.texts F.marks self.old) e (W.taken out.old) (W.taken out.new) }
        ensures write_failed { IsErrOf result Write → CountRises (W.failures out.old) (W.failures out.new) }
        ensures no_failed_write { result ≢ Err Write → W.failures out.new ≡ W.failures out.old }
    {
        self.counts.records = one_more(self.counts.records);
        if self.choice.has(self.file.time(read)) {
            return self.write_next_on_step(alloc, read, out);
        }
        self.file.note(read);
        Ok(())
    }

    /// Takes the end of the file: writes the header, if there was no record.
    pub(crate) fn write_end<W: Sink>(&self, alloc: Global, out: &mut W) -> Result<(), CutFault>
        ensures all { OnOk result (TakesEnd (writing F.texts F.marks self.now) (W.taken out.old) (W.taken out.new)) }
        ensures part { TakesEndInPart (writing F.texts F.marks self.now) (W.taken out.old) (W.taken out.new) }
        ensures write_failed { IsErrOf result Write → CountRises (W.failures out.old) (W.failures out.new) }
        ensures no_failed_write { result ≢ Err Write → W.failures out.new ≡ W.failures out.old }
    {
        let first = self.choice.from.unwrap_or(self.file.first());
        put_after_header(alloc, &self.file, self.is_header_out, first, &[], out)
    }
}
