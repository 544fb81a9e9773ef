//! The text of a record, whose lines are written code by code.

ghost use Rattle.std.specs.Prelude.{◌≡◌, ℕ, ◌≤◌, Bool, true, false, IsTrue, List, [], ◌∷◌, ◌++◌, replicate, slice_set, OnOk};
ghost use Rattle.rtk_obs.specs.SatelliteIndex.{IsSatelliteIndex};
ghost use Rattle.rtk_rinex.specs.declared.epoch_table.Observed.{Observed};
ghost use Rattle.rtk_rinex.specs.declared.epoch_table.SatelliteRow.{SatelliteRow};
ghost use Rattle.rtk_rinex.specs.MixedRecord.{mixed_record_text};
ghost use Rattle.rtk_rinex.specs.Record.{has_line_in, no_observation};
ghost use Rattle.rtk_rinex.specs.RecordLines.{IsFreeIn};
ghost use Rattle.rtk_convert.specs.Steps.RowLines.{Keeps, HasRoom, HasFree};

use rtk_obs::{GpsMs, SatelliteIndex};
use rtk_rinex::{MixedRecordLines, Observed, RecordLines};
use std::alloc::{AllocError, Global};

/// The text of a record, whose lines are written code by code, in any order.
pub(crate) trait RowLines: Drop + Sized {
    /// The text has the lines of these rows, with Doppler shifts or without them.
    ghost HasRows: { Self → Bool → List SatelliteRow → Type 0 };

    /// A line is open whose codes show this, with Doppler shifts or without them.
    ghost HasLine: { Bool → Self → List Observed → Type 0 };

    /// The lines can show Doppler shifts, or they can show none.
    ghost CanShow: { Bool → Type 0 };

    /// The greatest satellite that can have a line.
    ghost greatest: { ℕ };

    /// The text.
    ghost text_of: { Self → List ℕ };

    /// Makes a text without rows and without Doppler shifts. It takes no memory.
    fn new(alloc: Global) -> Self
        ensures { HasRows result false [] };

    /// Begins another record, without rows, with Doppler shifts or without them.
    fn restart(&mut self, doppler: bool)
        requires { CanShow doppler }
        ensures { HasRows self.new doppler [] };

    /// Opens the line of a satellite with this number of codes, which show nothing yet.
    fn open_line(&mut self, codes: usize) -> Result<(), AllocError>
        requires few { codes ≤ 16 }
        requires room { HasRoom HasRows greatest self.old }
        ensures open { OnOk result ((doppler : Bool) (rows : List SatelliteRow) → HasRows self.old doppler rows
            → HasLine doppler self.new (replicate codes no_observation)) }
        ensures rows { Keeps HasRows self.old self.new };

    /// Writes what a code shows at its place in the open line, in which it shows nothing yet, in a record with Doppler
    /// shifts or without them. It is inlined where this is known, so that no cell is asked.
    fn put_code(&mut self, doppler: bool, place: usize, observed: &Observed)
        requires { HasFree (HasLine doppler) self.old place }
        ensures open { (row : List Observed) → HasLine doppler self.old row → IsFreeIn true row place
            → HasLine doppler self.new (slice_set row place observed.now) }
        ensures rows { Keeps HasRows self.old self.new };

    /// Ends the open line as that of this satellite. A line without a written observation is left out.
    fn close_line(&mut self, satellite: u8)
        requires satellite { IsSatelliteIndex satellite }
        requires within { satellite ≤ greatest }
        requires room { HasRoom HasRows greatest self.old }
        requires open { (doppler : Bool) × (row : List Observed) × HasLine doppler self.old row }
        ensures { (doppler : Bool) (rows : List SatelliteRow) (observed : List Observed) → HasRows self.old doppler rows → HasLine doppler self.old observed
            → HasRows self.new doppler (rows ++ record { satellite = satellite; observed = record { items = observed } } ∷ []) };

    /// Writes the epoch line before the lines if there are any. The text is the record then.
    fn finish(&mut self, time: GpsMs)
        ensures text { (doppler : Bool) (rows : List SatelliteRow) → HasRows self.old doppler rows
            → text_of self.new ≡ mixed_record_text doppler (record { time = time; rows = rows }) };

    /// Returns the text: after `finish` that of the record, or no bytes if no observation is written.
    fn text(&self) -> &[u8]
        ensures { result.now ≡ text_of self.now };

    /// Returns whether satellites of GPS alone can have a line.
    fn has_gps_alone() -> bool
        ensures { IsTrue result → greatest ≤ 32 };

    /// Does nothing. A row without a written observation, be it a Doppler shift, has no line.
    fn blank_rows_are_left_out()
        ensures { (lines : Self) (doppler : Bool) (rows : List SatelliteRow) (row : SatelliteRow) → has_line_in true row ≡ false
            → HasRows lines doppler (rows ++ row ∷ []) → HasRows lines doppler rows };
}

impl RowLines for RecordLines {
    ghost use Rattle.std.specs.Prelude.{◌≡◌, false};
    ghost use Rattle.rtk_convert.specs.Steps.RowLines.{HasGpsLine, HasGpsRows};

    ghost HasRows = { HasGpsRows };

    ghost HasLine = { HasGpsLine };

    ghost CanShow = { λ doppler. doppler ≡ false };

    ghost greatest = { 32 };

    ghost text_of = { λ l. l.text };

    fn new(alloc: Global) -> RecordLines {
        RecordLines::new(alloc)
    }

    #[inline(always)]
    fn restart(&mut self, _doppler: bool) {
        RecordLines::restart(self);
    }

    #[inline(always)]
    fn open_line(&mut self, codes: usize) -> Result<(), AllocError> {
        RecordLines::open_line(self, codes)
    }

    // No record of GPS has Doppler shifts.
    #[inline(always)]
    fn put_code(&mut self, _doppler: bool, place: usize, observed: &Observed) {
        RecordLines::put_code(self, place, observed);
    }

    #[inline(always)]
    fn close_line(&mut self, satellite: u8) {
        RecordLines::close_line(self, satellite);
    }

    #[inline(always)]
    fn finish(&mut self, time: GpsMs) {
        RecordLines::finish(self, time);
    }

    #[inline(always)]
    fn text(&self) -> &[u8] {
        RecordLines::text(self)
    }

    fn has_gps_alone() -> bool {
        true
    }

    fn blank_rows_are_left_out() {}
}

impl RowLines for MixedRecordLines {
    ghost use Rattle.rtk_convert.specs.Steps.RowLines.{HasMixedLine, HasMixedRows};

    ghost HasRows = { HasMixedRows };

    ghost HasLine = { HasMixedLine };

    ghost CanShow = { λ doppler. Unit {0} };

    ghost greatest = { 221 };

    ghost text_of = { λ l. l.lines.text };

    fn new(alloc: Global) -> MixedRecordLines {
        MixedRecordLines::new(alloc)
    }

    fn restart(&mut self, doppler: bool) {
        MixedRecordLines::restart_with(self, doppler);
    }

    fn open_line(&mut self, codes: usize) -> Result<(), AllocError> {
        MixedRecordLines::open_line(self, codes)
    }

    #[inline(always)]
    fn put_code(&mut self, doppler: bool, place: usize, observed: &Observed) {
        if doppler {
            MixedRecordLines::put_doppler_code(self, place, observed);
            return;
        }
        MixedRecordLines::put_plain_code(self, place, observed);
    }

    fn close_line(&mut self, satellite: u8) {
        let Some(satellite) = SatelliteIndex::new(satellite) else {
            unreachable!()
        };
        MixedRecordLines::close_line(self, satellite);
    }

    fn finish(&mut self, time: GpsMs) {
        MixedRecordLines::finish(self, time);
    }

    fn text(&self) -> &[u8] {
        MixedRecordLines::text(self)
    }

    fn has_gps_alone() -> bool {
        false
    }

    fn blank_rows_are_left_out() {}
}

/// Writes what a code shows in a record without Doppler shifts.
#[inline(always)]
pub(crate) fn put_plain_code<L: RowLines>(lines: &mut L, place: usize, observed: &Observed)
    requires { HasFree (L.HasLine false) lines.old place }
    ensures open { (row : List Observed) → L.HasLine false lines.old row → IsFreeIn true row place
        → L.HasLine false lines.new (slice_set row place observed.now) }
    ensures rows { Keeps L.HasRows lines.old lines.new }
{
    lines.put_code(false, place, observed);
}

/// Writes what a code shows in a record with Doppler shifts.
#[inline(always)]
pub(crate) fn put_doppler_code<L: RowLines>(lines: &mut L, place: usize, observed: &Observed)
    requires { HasFree (L.HasLine true) lines.old place }
    ensures open { (row : List Observed) → L.HasLine true lines.old row → IsFreeIn true row place
        → L.HasLine true lines.new (slice_set row place observed.now) }
    ensures rows { Keeps L.HasRows lines.old lines.new }
{
    lines.put_code(true, place, observed);
}
