//! Laws on files of which some systems alone are kept.
//!
//! Each function here does nothing. Its contract is the law, and a caller that calls it may cite it.

ghost use Rattle.rtk_cut.specs.KeptLaws.{KeptFilesAreTables, KeptRowsStay};

/// If a code is kept, a well-formed file stays well-formed.
pub fn kept_files_are_tables()
    ensures { KeptFilesAreTables }
{}

/// Each row of a satellite that is kept stays as it is, with its slips, and no other row is there.
pub fn kept_rows_stay()
    ensures { KeptRowsStay }
{}
