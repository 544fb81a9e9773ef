//! Laws over the definitions: which MSM the command of a station names, and that equal lines tell
//! equal numbers.
//!
//! Each function here does nothing. Its contract is the law.

ghost use Rattle.std.specs.Prelude.{◌≡◌, ◌≤◌, ◌<◌, ℕ, Bool, false, List, [], ◌++◌, IsTrue};
ghost use Rattle.std.specs.List.{list_all};
ghost use Rattle.rtk_message.specs.declared.any_message.AnyMessage.{AnyMessage};
ghost use Rattle.rtk_message.specs.Systems.{number_of_kind};
ghost use Rattle.rtk_message.specs.declared.msm_kind.MsmKind.{MsmKind};
ghost use Rattle.rtk_message.specs.declared.msm_kind.MsmKind.TheVariants.{Msm4};
ghost use Rattle.rtk_obs.specs.declared.any_code.AnyCode.{AnyCode};
ghost use Rattle.rtk_survey.specs.CountingLaws.{EachFrameIsCounted, EachMessageIsCounted, FramesAreTakenAlike, MessagesAreTakenAlike, ChangesAddUp, OtherTimeIsChange, EpochsAreChanges, PartsStand, StationsStand, ProposalsStand, UntakenStand};
ghost use Rattle.rtk_survey.specs.NextCommand.{station_proposal};
ghost use Rattle.rtk_survey.specs.NumberLaws.{NumberLineTells, CountedLineTells, NumberedLineTells, TimeLinesTell, ProposalLinesTell, EpochsAreCounted, SummaryTellsFrames, StationLinesTell, UnreadLinesTell};
ghost use Rattle.rtk_survey.specs.Proposal.{is_of_four, epochs_with_value, entries_with, proposed};
ghost use Rattle.rtk_survey.specs.SummaryText.{codes_text, second_frequency_line, next_lines};
ghost use Rattle.rtk_survey.specs.Tracing.{entries_in, has_code};

/// No MSM has more epochs with a value than the one that is named, and none greater has as many. If
/// no MSM has such an epoch, none is named: 1074 needs no option.
pub fn most_epochs_are_named()
    ensures most { (epochs : MsmKind → ℕ) (kind : MsmKind) → epochs kind ≤ epochs (proposed epochs) }
    ensures greater { (epochs : MsmKind → ℕ) (kind : MsmKind) → epochs kind ≡ epochs (proposed epochs) → 0 < epochs kind
        → number_of_kind kind ≤ number_of_kind (proposed epochs) }
    ensures none { (epochs : MsmKind → ℕ) → epochs (proposed epochs) ≡ 0 → proposed epochs ≡ Msm4 }
{}

/// For a station whose messages are all of 1004 to 1006 and 1074, and of which no code of another system is
/// taken, the command names no MSM and lists the codes of all cells. The line of its second frequency goes by these codes, and no line tells of
/// another MSM.
pub fn four_need_no_option()
    ensures { (name near : List ℕ) (station : ℕ) (ms : List AnyMessage) (beside : ℕ → ℕ) (other : AnyCode → Bool) (items : List ℕ)
        → IsTrue (list_all is_of_four ms) → ((c : AnyCode) → other c ≡ false)
        → station_proposal name near station (λ kind. epochs_with_value kind ms) (λ kind. has_code (entries_with kind ms)) beside other items
        ≡ second_frequency_line (has_code (entries_in ms)) ++ next_lines name near station [] (codes_text (has_code (entries_in ms))) }
{}

/// Equal lines of a summary tell equal numbers: no number stops short of what a u64 holds. The lines of
/// times, and those of a command and of the MSM that it leaves out, tell each of theirs.
pub fn lines_tell_numbers()
    ensures number { NumberLineTells }
    ensures counted { CountedLineTells }
    ensures numbered { NumberedLineTells }
    ensures times { TimeLinesTell }
    ensures proposal { ProposalLinesTell }
    ensures epochs { EpochsAreCounted }
{}

/// Equal summaries are of captures with as many bytes and frames. Equal lines of stations tell one
/// station, with as many messages of each number. Equal lines of what is not read tell as many
/// payloads of each fault and number.
pub fn summaries_tell_counts()
    ensures frames { SummaryTellsFrames }
    ensures station { StationLinesTell }
    ensures unread { UnreadLinesTell }
{}

/// All frames of a capture are counted, with their bytes, and each is a message that a summary reads or
/// a fault. Each message that it reads has one of the numbers that have a line.
pub fn each_frame_is_counted()
    ensures frames { EachFrameIsCounted }
    ensures messages { EachMessageIsCounted }
{}

/// All frames and messages are taken alike, whatever came before them; the changes of their times add
/// up, and with each an epoch begins.
pub fn all_are_taken_alike()
    ensures frames { FramesAreTakenAlike }
    ensures messages { MessagesAreTakenAlike }
    ensures changes { ChangesAddUp }
    ensures change { OtherTimeIsChange }
    ensures epochs { EpochsAreChanges }
{}

/// A summary has its parts, whatever the numbers are: the lines of each station of which a message
/// came, in these its command, and a line for each message of GPS observations that is not read.
pub fn parts_stand_in_a_summary()
    ensures parts { PartsStand }
    ensures stations { StationsStand }
    ensures proposals { ProposalsStand }
    ensures untaken { UntakenStand }
{}
