//! What is asked of a file of which a part is written, of GPS or of any systems.

ghost use Rattle.std.specs.Prelude.{◌≡◌, ◌<◌, ℕ, Bool, true, false, List, [], IfOk, IfSome, MatchOption};
ghost use Rattle.rtk_rinex.specs.Record.{EpochTableView};
ghost use Rattle.rtk_cut.specs.Cut.{Step, cut_epoch};
ghost use Rattle.rtk_cut.specs.Steps.FileTexts.{FileTexts, IsNextIn};
ghost use Rattle.rtk_cut.specs.Steps.Pending.{StandsForSlips, NotesSlips, ClearsSlips, ShowsSlipsIn};

use rtk_obs::GpsMs;
use std::alloc::{AllocError, Global};

/// A file that is read record by record, with the slips that are still to be shown: of each satellite and
/// code, whether its phase has slipped since it stood in a record on the step.
pub(crate) trait EpochFile {
    /// A record that was read.
    type Record: Drop;

    /// The texts of the file.
    ghost texts: { Self → FileTexts };

    /// The marks of the slips that are still to be shown.
    ghost marks: { Self → List Bool };

    /// These are the epochs whose records are left.
    ghost AreLeft: { Self → List EpochTableView → Type 0 };

    /// How much is left.
    ghost size: { Self → ℕ };

    /// The record is that of this epoch.
    ghost IsRecordOf: { Self → Self.Record → EpochTableView → Type 0 };

    /// A record was shown.
    ghost HasShown: { Self → Type 0 };

    /// The record, which was shown last, is shown as this epoch.
    ghost IsShownAs: { Self → Self.Record → EpochTableView → Type 0 };

    /// Returns the next record.
    fn next(&mut self) -> Option<Self::Record>
        ensures next { (epochs : List EpochTableView) → AreLeft self.old epochs
            → MatchOption result (epochs ≡ []) (λ record_read. IsNextIn (AreLeft self.new) (IsRecordOf self.new record_read) epochs) }
        ensures less { IfSome result (λ record_read. size self.new < size self.old) }
        ensures texts { texts self.new ≡ texts self.old }
        ensures marks { marks self.new ≡ marks self.old };

    /// Returns the moment of a record.
    fn time(&self, read: &Self::Record) -> GpsMs
        ensures { (e : EpochTableView) → IsRecordOf self.now read.now e → result ≡ e.time };

    /// Returns the text of a record.
    fn text<'r>(&self, read: &'r Self::Record) -> &'r [u8]
        ensures { (e : EpochTableView) → IsRecordOf self.now read.now e → result.now ≡ (texts self.now).record_of e };

    /// Marks the slips of a record that is not on the step.
    fn note(&mut self, read: &Self::Record)
        ensures slips { (e : EpochTableView) → IsRecordOf self.old read.now e → NotesSlips (marks self.old) (marks self.new) e }
        ensures left { (epochs : List EpochTableView) → AreLeft self.old epochs → AreLeft self.new epochs }
        ensures size { size self.new ≡ size self.old }
        ensures texts { texts self.new ≡ texts self.old };

    /// Shows a record that is on the step with each slip that is still to be shown. Does it show a slip
    /// that the record itself does not have?
    fn show(&mut self, read: &Self::Record) -> bool
        ensures slips { (e : EpochTableView) → IsRecordOf self.old read.now e → ClearsSlips (marks self.old) (marks self.new) e }
        ensures shown { (e : EpochTableView) → IsRecordOf self.old read.now e → (step : Step) (earlier : List EpochTableView)
            → StandsForSlips (marks self.old) step earlier → IsShownAs self.new read.now (cut_epoch step earlier e) }
        ensures same { result ≡ false → (e : EpochTableView) → IsRecordOf self.old read.now e → ShowsSlipsIn (marks self.old) e e }
        ensures has_shown { HasShown self.new }
        ensures own { (e : EpochTableView) → IsRecordOf self.old read.now e → IsRecordOf self.new read.now e }
        ensures left { (epochs : List EpochTableView) → AreLeft self.old epochs → AreLeft self.new epochs }
        ensures size { size self.new ≡ size self.old }
        ensures texts { texts self.new ≡ texts self.old };

    /// Makes the text of the record that was shown last.
    fn shown_text(&self, alloc: Global, read: &Self::Record) -> Result<Vec<u8>, AllocError>
        requires { HasShown self.now }
        ensures { IfOk result (λ text. (e : EpochTableView) → IsShownAs self.now read.now e → text.items ≡ (texts self.now).record_of e) };

    /// Makes the header with this first time.
    fn header(&self, alloc: Global, first: GpsMs) -> Result<Vec<u8>, AllocError>
        ensures { IfOk result (λ text. text.items ≡ (texts self.now).header first) };

    /// Returns the moment of the first observation of the file.
    fn first(&self) -> GpsMs
        ensures { result ≡ (texts self.now).first };
}
