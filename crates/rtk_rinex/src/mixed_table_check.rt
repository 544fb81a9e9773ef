//! The check of a whole text of any systems, and the table that it is, in its place: without memory.

ghost use Rattle.rtk_rinex.specs.MixedCheckTable.{IsMixedTableView, HoldsMixedTable, IsMixedFault, IsWithoutMixedTable};
ghost use Rattle.std.specs.Prelude.{◌≡◌, ◌≢◌, IfOk, IfErr, OnErr};

use crate::check_fault::{Cause, CheckFault};
use crate::mixed_form::RecordForm;
use crate::mixed_header_check::{MixedHeading, check_mixed_header};
use crate::mixed_records::MixedRecords;
use crate::mixed_records_check::check_mixed_records;
use crate::records_check::LineCounts;
use std::marker::Model;

/// A well-formed table of any systems in its text, which it borrows. It takes no memory.
#[derive(Drop)]
pub struct MixedTextTable<'a> {
    text: &'a [u8],
    counts: LineCounts,
}

impl<'a> Model for MixedTextTable<'a> {
    ghost use Rattle.rtk_rinex.specs.CheckTable.{TableView};
    ghost use Rattle.rtk_rinex.specs.MixedCheckTable.{IsMixedTableView};

    ghost Value = { TableView };

    ghost view = { λ t. record { text = t.text.now; epochs = t.counts.epochs; satellites = t.counts.satellites } };

    ghost invariant = { λ t. IsMixedTableView (record { text = t.text.now; epochs = t.counts.epochs; satellites = t.counts.satellites }) };
}

impl<'a> MixedTextTable<'a> {
    ghost use Rattle.rtk_rinex.specs.Header.{IsPositionView, position_view};
    ghost use Rattle.rtk_rinex.specs.MixedHead.{IsMixedHead};
    ghost use Rattle.rtk_rinex.specs.MixedForm.{form_of_head};
    ghost use Rattle.rtk_rinex.specs.MixedRecords.{AreMixedLeft, IsMixedRecordsView};
    ghost use Rattle.rtk_rinex.specs.MixedTable.{MixedTable, IsMixedTable, mixed_table_text};
    ghost use Rattle.rtk_obs.specs.Reading.{IsMoment};

    // Returns the table whose text this is.
    fn of_text(text: &'a [u8], counts: LineCounts) -> MixedTextTable<'a>
        requires { IsMixedTableView (record { text = text.now; epochs = counts.epochs; satellites = counts.satellites }) }
        ensures { result ≡ record { text = text.now; epochs = counts.epochs; satellites = counts.satellites } }
    {
        MixedTextTable { text, counts }
    }

    /// Returns how many records the table has.
    pub fn epochs(&self) -> usize
        ensures { result ≡ self.now.epochs }
    {
        self.counts.epochs
    }

    /// Returns how many satellite lines the records of the table have.
    pub fn satellites(&self) -> usize
        ensures { result ≡ self.now.satellites }
    {
        self.counts.satellites
    }

    /// Returns the text of the table.
    pub fn as_bytes(&self) -> &'a [u8]
        ensures value { result.now ≡ self.now.text }
        ensures table { IsMixedTableView self.now }
    {
        self.text
    }

    /// Returns the parts of the table's header, and the text of its records.
    pub fn heading(&self) -> MixedHeading<'a>
        ensures parts { (t : MixedTable) → IsMixedTable t → self.now.text ≡ mixed_table_text t
            → (result.head ≡ t.head) × (position_view result.position ≡ t.site) × (result.first ≡ t.first) }
        ensures good { IsMixedHead result.head × IsPositionView (position_view result.position) × IsMoment result.first }
    {
        let Ok(heading) = check_mixed_header(self.text) else {
            unreachable!();
        };
        heading
    }

    /// Returns the records of the table, from the first one.
    pub fn records(&self) -> MixedRecords<'a>
        ensures records { (t : MixedTable) → IsMixedTable t → self.now.text ≡ mixed_table_text t
            → (result.form ≡ form_of_head t.head) × AreMixedLeft result t.epochs }
        ensures good { IsMixedRecordsView result }
    {
        let Ok(heading) = check_mixed_header(self.text) else {
            unreachable!();
        };
        MixedRecords::of_text(heading.records, RecordForm::of_head(&heading.head))
    }
}

/// Returns the well-formed table of any systems whose text this is, in its place, if there is one, else the
/// first line that is wrong. It takes no memory.
pub fn check_mixed_text(bytes: &[u8]) -> Result<MixedTextTable<'_>, CheckFault>
    ensures text { IfOk result (λ t. t.text ≡ bytes.now) }
    ensures table { IfOk result (λ t. HoldsMixedTable bytes.now t.epochs t.satellites) }
    ensures fault { IfErr result (IsMixedFault bytes.now) }
    ensures none { OnErr result (IsWithoutMixedTable bytes.now) }
    ensures in_place { IfErr result (λ fault. fault.cause ≢ Cause.OutOfMemory) }
{
    let heading = check_mixed_header(bytes)?;
    let form = RecordForm::of_head(&heading.head);
    let counts = check_mixed_records(heading.records, heading.lines, &form, heading.first)?;
    Ok(MixedTextTable::of_text(bytes, counts))
}
