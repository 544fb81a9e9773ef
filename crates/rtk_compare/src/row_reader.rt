//! The rows of a record, of which the next one is known.

ghost use Rattle.std.specs.Prelude.{◌≡◌, ◌+◌, ◌≤◌, true, false, if◌then◌else◌, List};
ghost use Rattle.rtk_rinex.specs.declared.epoch_table.SatelliteRow.{SatelliteRow};
ghost use Rattle.rtk_compare.specs.Steps.Readers.{AreRowsOf, GivesNextRow, IsAtRows, some_count, count_of, rows_left};

use arrayvec::ArrayVec;
use rtk_obs::SatelliteIndex;
use rtk_rinex::{MixedRows, Observed};

/// The rows of a record, of which the next one is known. Without a record there is none.
#[derive(Drop)]
pub(crate) struct RowReader<'a> {
    rows: Option<MixedRows<'a>>,
    /// The satellite of the next row.
    satellite: Option<SatelliteIndex>,
    /// What its codes show.
    observed: ArrayVec<Observed, 16>,
}

// Reads the next row of a record, if there is one.
fn next_row(
    rows: &mut Option<MixedRows<'_>>,
    observed: &mut ArrayVec<Observed, 16>,
) -> Option<SatelliteIndex>
    ensures next { (all : List SatelliteRow) → AreRowsOf rows.old all → GivesNextRow result all rows.new observed.new.items }
    ensures less { some_count result + count_of rows.new ≤ count_of rows.old }
{
    match rows {
        Some(rows) => rows.next_row(observed),
        None => None,
    }
}

impl<'a> RowReader<'a> {
    /// Begins with the first row.
    pub(crate) fn of(rows: Option<MixedRows<'a>>) -> RowReader<'a>
        ensures { (all : List SatelliteRow) → AreRowsOf rows.entry all → IsAtRows result all }
    {
        let mut reader = RowReader {
            rows,
            satellite: None,
            observed: ArrayVec::new(),
        };
        reader.advance();
        reader
    }

    /// Goes on to the next row.
    fn advance(&mut self)
        ensures next { (all : List SatelliteRow) → AreRowsOf self.old.rows all → IsAtRows self.new all }
        ensures less { rows_left self.new + some_count self.old.satellite ≤ rows_left self.old }
    {
        self.satellite = next_row(&mut self.rows, &mut self.observed);
    }

    /// Goes on to the next row, if this one was read.
    pub(crate) fn advance_if(&mut self, is_read: bool)
        ensures next { (all : List SatelliteRow) → is_read ≡ true → AreRowsOf self.old.rows all → IsAtRows self.new all }
        ensures same { is_read ≡ false → self.new ≡ self.old }
        ensures less { rows_left self.new + (if is_read then some_count self.old.satellite else 0) ≤ rows_left self.old }
    {
        if is_read {
            self.advance();
        }
    }

    /// Returns the satellite of the next row.
    pub(crate) fn satellite(&self) -> Option<SatelliteIndex>
        ensures { result ≡ self.now.satellite }
    {
        self.satellite
    }

    /// Returns the number of this satellite.
    pub(crate) fn number(&self) -> Option<u64>
        ensures { result ≡ self.now.satellite }
    {
        match self.satellite {
            Some(satellite) => Some(u64::from(satellite.index())),
            None => None,
        }
    }

    /// Returns what the codes of the satellite show.
    pub(crate) fn observed(&self) -> &[Observed]
        ensures { result.now ≡ self.now.observed.items }
    {
        self.observed.as_slice()
    }
}
