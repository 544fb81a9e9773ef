//! Laws over the definition of a part. They hold of files of GPS and of any systems.
//!
//! Each function here does nothing. Its contract is the law, and a caller that calls it may cite
//! it.

ghost use Rattle.rtk_cut.specs.CutLaws.{EpochsAreOfFiles, PartsAreTables, RecordsAreOwn, SpansJoin, OwnStepGivesFile};
ghost use Rattle.rtk_cut.specs.CutLaws.{RecordsAreAskedFor, SlipsAreKept, SlipsAreFound, OthersStay, PartsAreWritten};

/// In the epochs of a well-formed file each satellite stands once, each code shows what a code of a file can
/// show, and the moments rise. Other laws ask for this.
pub fn epochs_are_of_files()
    ensures { EpochsAreOfFiles }
{}

/// A part of a well-formed file is a well-formed file.
pub fn parts_are_tables()
    ensures { PartsAreTables }
{}

/// Without a step the records are the file's own, unchanged.
pub fn records_are_own()
    ensures { RecordsAreOwn }
{}

/// The records of two spans that meet are those of the span of both, at any step: the hours of a
/// day are the day.
pub fn spans_join()
    ensures { SpansJoin }
{}

/// A step on which all records are, with no span, gives the file itself.
pub fn own_step_gives_file()
    ensures { OwnStepGivesFile }
{}

/// A part has the records of the file in its span whose moment is a whole number of steps, and no
/// others: all steps and all moments alike.
pub fn records_are_asked_for()
    ensures { RecordsAreAskedFor }
{}

/// No slip is lost: the next phase on the step shows it, however many records and however much
/// time are between.
pub fn slips_are_kept()
    ensures { SlipsAreKept }
{}

/// No slip is invented: each is a slip of the file since the phase stood in a record on the step.
pub fn slips_are_found()
    ensures { SlipsAreFound }
{}

/// Without its slips each record of a part is one of the file's.
pub fn others_stay()
    ensures { OthersStay }
{}

/// What `cut` and `cut_mixed` write is the text of a part of which all of this holds, and its header is the
/// file's, but for the first time.
pub fn parts_are_written()
    ensures { PartsAreWritten }
{}
