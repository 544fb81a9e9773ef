//! Laws of what readers give and writers hold; of lines, since a payload has one line, and equal lines of `check` tell
//! equal numbers and causes; and of what is written.
//!
//! Each function here does nothing. Its contract is the law. Proofs of other crates cite the facts of readers and
//! writers from `proofs/PublicLaws.antt`.

ghost use Rattle.std.specs.Prelude.{◌≡◌, ◌↔◌, ℕ, List, Option, true, IfSome};
ghost use Rattle.std.specs.Io.KnownBytes.{Keeps};
ghost use Rattle.rtk_frame.specs.Frames.{Frame};
ghost use Rattle.rtk_frame.specs.Stream.{with_more};
ghost use Rattle.rtk_message.specs.declared.accepted.Accepted.{Accepted};
ghost use Rattle.rtk_message.specs.declared.msm_kind.MsmKind.TheVariants.{Msm4};
ghost use Rattle.rtk_message.specs.Accepted.{only};
ghost use Rattle.rtk_commands.specs.CheckLaws.{ValidTellsNumbers, FaultTextTellsFault, YesTellsNumbers, NoTellsFault, NoLineSaysBoth};
ghost use Rattle.rtk_commands.specs.FileTable.{GpsTablesAreFiles};
ghost use Rattle.rtk_commands.specs.Passed.{given_of, IsLeft, taken_of};
ghost use Rattle.rtk_commands.specs.Shown.{IsLineOf, AreLinesBy, AreLinesOf};
ghost use Rattle.rtk_commands.specs.ShownBySet.{IsLineBy};
ghost use Rattle.rtk_commands.specs.WrittenLaws.{LineFollows, PictureFollows, NumbersFollow, PartFollows, LabelFollows, NothingGivesFile};
ghost use Rattle.rtk_commands.specs.declared.files.Capture.TheVariants.{File, Stdin};

use crate::files::Capture;
use crate::resuming::Resumed;
use rtk_label::{blank_is_file, front_is_changed, mixed_label_laws};
use rtk_rinex::{
    one_fault, one_mixed_fault, text_of_a_mixed_table, text_of_a_table, types_tell_shifts,
};
use std::io::Read;

/// A reader whose bytes were known gave all of them, in order, once it met its end. `had` tells by
/// their numbers what readers had.
pub fn known_bytes_are_given()
    ensures { (had : ℕ → Option (List ℕ)) (number at : ℕ) (first last : Option (List ℕ)) (text : List ℕ)
        → Keeps (had number) first → IsLeft (had at) last true
        → given_of at (had at) last ≡ with_more (given_of number (had number) first) text
        → IfSome (had number) (λ all. all ≡ text) }
{}

/// A writer whose bytes were known holds them, and after them what it took. `held` tells by their
/// numbers what writers held.
pub fn known_bytes_are_held()
    ensures first { (held first : Option (List ℕ)) → Keeps held first → taken_of held first ≡ held }
    ensures last { (held : ℕ → Option (List ℕ)) (number at : ℕ) (first last : Option (List ℕ)) (more : List ℕ)
        → Keeps (held number) first
        → taken_of (held at) last ≡ with_more (taken_of (held number) first) more
        → taken_of (held number) last ≡ with_more (held number) more }
{}

/// A capture of the program has the bytes of its file or of standard input, also where interrupted
/// reads are made again. So what is proved of known bytes holds of those of the program, if they are
/// known.
pub fn captures_have_their_bytes<F: Read + Drop, I: Read + Drop>()
    ensures file { (file : F)
        → ⟦<Resumed<Capture<F, I>> as Read>⟧.remaining (record { inner = File file }) ≡ F.remaining file }
    ensures stdin { (stdin : I)
        → ⟦<Resumed<Capture<F, I>> as Read>⟧.remaining (record { inner = Stdin stdin }) ≡ I.remaining stdin }
{}

/// A payload has one line, in `show` and by each set of messages.
pub fn one_line_of_a_payload()
    ensures of_show { (payload line other : List ℕ)
        → IsLineOf payload line → IsLineOf payload other → line ≡ other }
    ensures by_set { (a : Accepted) (payload line other : List ℕ)
        → IsLineBy a payload line → IsLineBy a payload other → line ≡ other }
{}

/// The lines of `show` are those by the set of which 1074 is the only MSM: the line of a payload, and so the
/// lines of frames.
pub fn lines_of_show_are_of_1074()
    ensures line { (payload line : List ℕ) → IsLineOf payload line ↔ IsLineBy (only Msm4) payload line }
    ensures lines { (frames : List Frame) (text : List ℕ) → AreLinesOf frames text ↔ AreLinesBy (IsLineBy (only Msm4)) frames text }
{}

/// The lines of frames are one text.
pub fn one_text_of_frames()
    ensures of_show { (frames : List Frame) (text other : List ℕ)
        → AreLinesOf frames text → AreLinesOf frames other → text ≡ other }
    ensures by_set { (a : Accepted) (frames : List Frame) (text other : List ℕ)
        → AreLinesBy (IsLineBy a) frames text → AreLinesBy (IsLineBy a) frames other → text ≡ other }
{}

/// Equal lines of `check` tell as many records and satellite lines, or one line of a text and one
/// cause: no number is cut off and no two causes have one name.
pub fn lines_of_check_tell_numbers()
    ensures valid { ValidTellsNumbers }
    ensures fault { FaultTextTellsFault }
{}

/// Two texts with the same line of `check` have as many records and satellite lines, or one fault;
/// and no line says yes to one text and no to another.
pub fn one_line_tells_one_answer()
    ensures yes { YesTellsNumbers }
    ensures no { NoTellsFault }
    ensures apart { NoLineSaysBoth }
{
    one_fault();
    one_mixed_fault();
    text_of_a_table();
    text_of_a_mixed_table();
}

/// Each well-formed table of GPS is a file of the commands: its text has the letter of GPS, and no type of a Doppler
/// shift.
pub fn gps_tables_are_files()
    ensures { GpsTablesAreFiles }
{
    types_tell_shifts();
}

/// What `check`, `chart`, `quality`, `cut` and `label` are said to have written stands right after what the
/// writer held, with nothing before, between or after it, however long it is; and it is of the whole
/// text. With a blank label and no time line it is the file itself.
pub fn written_follows()
    ensures line { LineFollows }
    ensures picture { PictureFollows }
    ensures numbers { NumbersFollow }
    ensures part { PartFollows }
    ensures label { LabelFollows }
    ensures nothing { NothingGivesFile }
{
    blank_is_file();
    front_is_changed();
    mixed_label_laws();
}
