//! Laws over the definitions of tables and faults; and the law of `==` on faults.
//!
//! Each function here does nothing. Its contract is the law, and a caller that calls it may cite
//! it; proofs of other crates cite the same facts from `proofs/PublicLaws.antt`.

ghost use Rattle.std.specs.Prelude.{◌≡◌, ◌↔◌, ℕ, IsTrue};
ghost use Rattle.rtk_rinex.specs.CheckTable.{OneFault, FaultMeansNoTable, OneTable, TextIsAccepted};
ghost use Rattle.rtk_rinex.specs.KeptTable.{TextIsKept};
ghost use Rattle.rtk_rinex.specs.MixedCheckTable.{MixedOneFault, MixedFaultMeansNoTable, MixedOneTable, MixedTextIsAccepted};
ghost use Rattle.rtk_rinex.specs.MixedHeader.{GpsFilesStay};
ghost use Rattle.rtk_rinex.specs.MixedRecord.{GpsRecordsStay};
ghost use Rattle.rtk_rinex.specs.MixedTable.{MixedFilesAreTables, TypesTellShifts, GpsShowsNoShifts};
ghost use Rattle.rtk_rinex.specs.Table.{RecordsAreOfTables, FilesAreTables};
ghost use Rattle.rtk_rinex.specs.declared.check_fault.Cause.{Cause};
ghost use Rattle.rtk_rinex.specs.declared.check_fault.CheckFault.{CheckFault};
ghost use Rattle.rtk_rinex.specs.declared.head_fault.HeadFault.{HeadFault};
ghost use Rattle.rtk_rinex.specs.declared.mixed_head_fault.MixedHeadFault.{MixedHeadFault};

use crate::check_fault::{Cause, CheckFault};
use crate::head_fault::HeadFault;
use crate::mixed_head_fault::MixedHeadFault;
use rtk_obs::{any_code_laws, code_laws};

/// The record of an epoch has no bytes, or it is the record of an epoch of a well-formed table.
pub fn records_are_of_tables()
    ensures { RecordsAreOfTables }
{}

/// A header and the records after it are the text of a well-formed table, if the first epoch with a
/// record is at the header's first time. The table's epochs are the epochs that have a record.
pub fn files_are_tables()
    ensures { FilesAreTables }
{}

/// A header of any systems and the records after it, which `mixed_header` and `MixedRecordLines` write, are
/// the text of a well-formed table of any systems, if the first epoch with a record is at the header's first
/// time. The table has the head and the position of the header, and the epochs that have a record.
pub fn mixed_files_are_tables()
    ensures { MixedFilesAreTables }
{}

/// Two faults of one text are the same line and the same cause, and a text with a fault is the text
/// of no well-formed table.
pub fn one_fault()
    ensures one { OneFault }
    ensures table { FaultMeansNoTable }
{}

/// What `check_text` answers to the text of a well-formed table is this table with its numbers, and so
/// is what `check` answers, unless memory is refused; and two well-formed tables of one text are equal.
pub fn text_of_a_table()
    ensures accepted { TextIsAccepted }
    ensures kept { TextIsKept }
    ensures one { OneTable }
{
    code_laws();
}

/// Two faults of one text of any systems are the same line and the same cause, and a text with a fault is
/// the text of no well-formed table of any systems.
pub fn one_mixed_fault()
    ensures one { MixedOneFault }
    ensures table { MixedFaultMeansNoTable }
{
    any_code_laws();
}

/// What `check_mixed_text` answers to the text of a well-formed table of any systems is this table with its
/// numbers; and two well-formed tables of one text are equal.
pub fn text_of_a_mixed_table()
    ensures accepted { MixedTextIsAccepted }
    ensures one { MixedOneTable }
{
    any_code_laws();
}

/// In a file of any systems the header of codes of GPS alone, and the record of satellites of GPS alone,
/// are those of a file of GPS.
pub fn gps_files_stay()
    ensures header { GpsFilesStay }
    ensures records { GpsRecordsStay }
{}

/// The third observation type of the first code of a file of any systems, in its tenth line, tells whether the file has
/// Doppler shifts. A file of GPS has no type of a Doppler shift there.
pub fn types_tell_shifts()
    ensures mixed { TypesTellShifts }
    ensures gps { GpsShowsNoShifts }
{
    any_code_laws();
}

/// `==` says whether two causes are the same, whether two faults of a text are the same in line and
/// cause, and whether two faults of a head are the same.
pub fn fault_laws()
    ensures causes { (a b : Cause) → IsTrue (⟦<Cause as PartialEq>⟧.eq a b) ↔ (a ≡ b) }
    ensures faults { (a b : CheckFault) → IsTrue (⟦<CheckFault as PartialEq>⟧.eq a b) ↔ (a ≡ b) }
    ensures heads { (a b : HeadFault) → IsTrue (⟦<HeadFault as PartialEq>⟧.eq a b) ↔ (a ≡ b) }
    ensures mixed_heads { (a b : MixedHeadFault) → IsTrue (⟦<MixedHeadFault as PartialEq>⟧.eq a b) ↔ (a ≡ b) }
{}
