//! Laws over the definition of a header with fields.
//!
//! Each function here does nothing but call laws. Its contract is the law, and a caller that calls it
//! may cite it.

ghost use Rattle.rtk_label.specs.LabelLaws.{BlankIsFile, FilesAreLong, FrontIsChanged, LabelsAreTold, RecordsStay, MixedLabelLaws};

use rtk_rinex::text_of_a_table;

/// With a blank label the text is that of the file itself.
pub fn blank_is_file()
    ensures { BlankIsFile }
{}

/// A labelled text has one label and one table: a blank label in place of the label gives the file
/// back.
pub fn labels_are_told()
    ensures { LabelsAreTold }
{
    text_of_a_table();
}

/// A label changes the first nine lines alone, and these are alike in all files of one head and one
/// position.
pub fn front_is_changed()
    ensures { FrontIsChanged }
{}

/// Every byte after the header stays.
pub fn records_stay()
    ensures { RecordsStay }
{}

/// These laws hold of files of any systems too.
pub fn mixed_label_laws()
    ensures { MixedLabelLaws }
{}

/// The text of a file has ten lines at least.
pub fn files_are_long()
    ensures { FilesAreLong }
{}
