//! The records of a file, of which the next one is known.

ghost use Rattle.std.specs.Prelude.{◌≡◌, ◌+◌, ◌≤◌, true, false, if◌then◌else◌, List, None};
ghost use Rattle.rtk_rinex.specs.Record.{EpochTableView};
ghost use Rattle.rtk_rinex.specs.MixedRecords.{AreMixedLeft};
ghost use Rattle.rtk_compare.specs.Steps.Readers.{IsAtEpochs, some_count, time_of, records_left};

use rtk_obs::GpsMs;
use rtk_rinex::{MixedRecords, MixedRows};
use std::mem;

/// The records of a file, of which the next one is known.
#[derive(Drop)]
pub(crate) struct RecordReader<'a> {
    records: MixedRecords<'a>,
    next: Option<MixedRows<'a>>,
}

impl<'a> RecordReader<'a> {
    /// Begins with the first of these records.
    pub(crate) fn of(records: MixedRecords<'a>) -> RecordReader<'a>
        ensures { (epochs : List EpochTableView) → AreMixedLeft records.entry epochs → IsAtEpochs result epochs }
    {
        let mut records = records;
        let next = records.next();
        RecordReader { records, next }
    }

    /// Returns the moment of the next record, in ms.
    pub(crate) fn time(&self) -> Option<u64>
        ensures { result ≡ time_of self.now.next }
    {
        match &self.next {
            Some(rows) => Some(rows.time().ms()),
            None => None,
        }
    }

    // Returns the next record, and goes on to the one after it.
    fn take(&mut self) -> Option<MixedRows<'a>>
        ensures value { result ≡ self.old.next }
        ensures next { (epochs : List EpochTableView) → AreMixedLeft self.old.records epochs → IsAtEpochs self.new epochs }
        ensures less { records_left self.new + some_count self.old.next ≤ records_left self.old }
    {
        let next = self.records.next();
        mem::replace(&mut self.next, next)
    }

    /// Returns the next record, if it is asked for, and goes on to the one after it.
    pub(crate) fn take_if(&mut self, is_asked_for: bool) -> Option<MixedRows<'a>>
        ensures value { is_asked_for ≡ true → result ≡ self.old.next }
        ensures none { is_asked_for ≡ false → result ≡ None }
        ensures next { (epochs : List EpochTableView) → is_asked_for ≡ true → AreMixedLeft self.old.records epochs → IsAtEpochs self.new epochs }
        ensures same { is_asked_for ≡ false → self.new ≡ self.old }
        ensures less { records_left self.new + (if is_asked_for then some_count self.old.next else 0) ≤ records_left self.old }
    {
        if !is_asked_for {
            return None;
        }
        self.take()
    }
}
