//! The check of a whole text, and the table that it is, in its place: without memory.

ghost use Rattle.rtk_rinex.specs.CheckTable.{IsTableView, HoldsTable, IsFault, IsWithoutTable};
ghost use Rattle.std.specs.Prelude.{◌≡◌, ◌≢◌, length, IfOk, IfErr, OnErr};

use crate::check_fault::{Cause, CheckFault};
use crate::head::Head;
use crate::header_check::check_header;
use crate::records::Records;
use crate::records_check::{LineCounts, check_records};
use rtk_obs::{GpsMs, Position};
use std::marker::Model;

/// The parts of a file's header.
#[derive(Drop)]
pub struct Heading {
    /// The marker's name, the codes and the moment at which the file was made.
    pub head: Head,
    /// The antenna reference point and the antenna's height.
    pub position: Position,
    /// The moment of the first observation.
    pub first: GpsMs,
}

/// A well-formed table of observations in its text, which it borrows. It takes no memory.
#[derive(Drop)]
pub struct TextTable<'a> {
    text: &'a [u8],
    counts: LineCounts,
}

impl<'a> Model for TextTable<'a> {
    ghost use Rattle.rtk_rinex.specs.CheckTable.{TableView, IsTableView};

    ghost Value = { TableView };

    ghost view = { λ t. record { text = t.text.now; epochs = t.counts.epochs; satellites = t.counts.satellites } };

    ghost invariant = { λ t. IsTableView (record { text = t.text.now; epochs = t.counts.epochs; satellites = t.counts.satellites }) };
}

impl<'a> TextTable<'a> {
    ghost use Rattle.rtk_rinex.specs.CheckTable.{TableView, HoldsTable};
    ghost use Rattle.rtk_rinex.specs.Header.{IsHeadView, IsPositionView, position_view};
    ghost use Rattle.rtk_obs.specs.Reading.{IsMoment};
    ghost use Rattle.rtk_rinex.specs.Records.{AreLeft, IsRecordsView};
    ghost use Rattle.rtk_rinex.specs.Table.{WellFormedTable, IsWellFormedTable, table_text};

    /// Returns the table whose text this is.
    pub(crate) fn of_text(text: &'a [u8], counts: LineCounts) -> TextTable<'a>
        requires { IsTableView (record { text = text.now; epochs = counts.epochs; satellites = counts.satellites }) }
        ensures { result ≡ record { text = text.now; epochs = counts.epochs; satellites = counts.satellites } }
    {
        TextTable { text, counts }
    }

    /// Returns how many records and satellite lines the table has.
    pub(crate) fn counts(&self) -> LineCounts
        ensures { result ≡ record { epochs = self.now.epochs; satellites = self.now.satellites } }
    {
        self.counts
    }

    /// Returns how many records the table has.
    pub fn epochs(&self) -> usize
        ensures { result ≡ self.now.epochs }
    {
        self.counts.epochs
    }

    /// Returns how many satellite lines the records of the table have.
    pub fn satellites(&self) -> usize
        ensures { result ≡ self.now.satellites }
    {
        self.counts.satellites
    }

    /// Returns the text of the table.
    pub fn as_bytes(&self) -> &'a [u8]
        ensures value { result.now ≡ self.now.text }
        ensures table { IsTableView self.now }
    {
        self.text
    }

    /// Returns the parts of the table's header.
    pub fn heading(&self) -> Heading
        ensures parts { (t : WellFormedTable) → IsWellFormedTable t → self.now.text ≡ table_text t
            → (result.head ≡ t.head) × (position_view result.position ≡ t.site) × (result.first ≡ t.first) }
        ensures good { IsHeadView result.head × IsPositionView (position_view result.position) × IsMoment result.first }
    {
        let Ok(header) = check_header(self.text) else {
            unreachable!();
        };
        Heading {
            head: header.head,
            position: header.position,
            first: header.first,
        }
    }

    /// Returns the records of the table, from the first one.
    pub fn records(&self) -> Records<'a>
        ensures records { (t : WellFormedTable) → IsWellFormedTable t → self.now.text ≡ table_text t
            → (result.code_count ≡ length t.head.listed) × AreLeft result t.epochs }
        ensures good { IsRecordsView result }
    {
        let Ok(header) = check_header(self.text) else {
            unreachable!();
        };
        let (_, records) = self.text.split_at(header.used);
        Records::of_text(records, header.head.codes().len())
    }
}

/// Returns the well-formed table whose text this is, in its place, if there is one, else the first
/// line that is wrong. It takes no memory.
pub fn check_text<'a>(bytes: &'a [u8]) -> Result<TextTable<'a>, CheckFault>
    ensures text { IfOk result (λ t. t.text ≡ bytes.now) }
    ensures table { IfOk result (λ t. HoldsTable bytes.now t.epochs t.satellites) }
    ensures fault { IfErr result (IsFault bytes.now) }
    ensures none { OnErr result (IsWithoutTable bytes.now) }
    ensures in_place { IfErr result (λ fault. fault.cause ≢ Cause.OutOfMemory) }
{
    let header = check_header(bytes)?;
    let (_, records) = bytes.split_at(header.used);
    let code_count = header.head.codes().len();
    let counts = check_records(records, header.lines, code_count, header.first)?;
    Ok(TextTable::of_text(bytes, counts))
}
