//! What a station has of each MSM of GPS, and which of them its command names.

ghost use Rattle.std.specs.Prelude.{◌≡◌, List, [], ◌∷◌};
ghost use Rattle.rtk_message.specs.declared.any_message.AnyMessage.{AnyMessage};
ghost use Rattle.rtk_message.specs.declared.msm_kind.MsmKind.TheVariants.{Msm4, Msm5, Msm6, Msm7};
ghost use Rattle.rtk_survey.specs.Proposal.{gives_value, times_with_value, entries_with, better_of, proposed};
ghost use Rattle.rtk_survey.specs.Contents.{epochs_so_far, HasCodes, HasMsm, HasMsms, msm_part, epochs_held};
ghost use Rattle.rtk_survey.specs.Tracing.{times_of_week, entries_of_message};

use crate::counting::count_if;
use crate::epochs::Epochs;
use crate::signals::{Codes, have_value};
use crate::times_of_week::gps_time_of;
use rtk_message::{Accepted, AnyMessage, MsmKind};
use rtk_obs::CellEntry;

/// What a station has of one MSM.
#[derive(Clone, Copy)]
pub struct MsmPart {
    pub messages: u64,
    /// The epochs of the messages with a value.
    pub epochs: Epochs,
    /// The codes with a value in the messages that `convert` takes with this MSM, 1004 among them.
    pub codes: Codes,
}

/// What a station has of each MSM.
#[derive(Clone, Copy)]
pub struct MsmParts {
    pub msm4: MsmPart,
    pub msm5: MsmPart,
    pub msm6: MsmPart,
    pub msm7: MsmPart,
}

// The message is of this MSM, and one of its cells has a value.
fn gives_value(kind: MsmKind, message: &AnyMessage, entries: &[CellEntry]) -> bool
    requires { entries.now ≡ entries_of_message message.now }
    ensures { result ≡ gives_value kind message.now }
{
    message.number() == kind.number() && have_value(entries)
}

// Notes the time of week of a message of GPS, if it has one.
fn note_time_of(epochs: &mut Epochs, message: &AnyMessage)
    ensures { (ms : List AnyMessage) → epochs.old ≡ epochs_so_far (times_of_week ms)
        → epochs.new ≡ epochs_so_far (times_of_week (message.now ∷ ms)) }
{
    if let Some(time) = gps_time_of(message) {
        epochs.note_time(time);
    }
}

// Notes the time of a message of this MSM, if it has a value.
fn note_epoch(epochs: &mut Epochs, kind: MsmKind, message: &AnyMessage, entries: &[CellEntry])
    requires { entries.now ≡ entries_of_message message.now }
    ensures { (ms : List AnyMessage) → epochs.old ≡ epochs_so_far (times_with_value kind ms)
        → epochs.new ≡ epochs_so_far (times_with_value kind (message.now ∷ ms)) }
{
    if gives_value(kind, message, entries) {
        note_time_of(epochs, message);
    }
}

// Joins the codes of a message that `convert` takes with this MSM.
fn join_codes(codes: &mut Codes, kind: MsmKind, message: &AnyMessage, more: &Codes)
    requires { HasCodes more.now (entries_of_message message.now) }
    ensures { (ms : List AnyMessage) → HasCodes codes.old (entries_with kind ms)
        → HasCodes codes.new (entries_with kind (message.now ∷ ms)) }
{
    if Accepted::only(kind).accepts(message.number()) {
        codes.join(more);
    }
}

impl MsmPart {
    /// Nothing came.
    pub(crate) fn new() -> MsmPart
        ensures { (kind : _) → HasMsm kind result [] }
    {
        MsmPart {
            messages: 0,
            epochs: Epochs::new(),
            codes: Codes::new(),
        }
    }

    // Adds a message of the station, with its cells and their codes, to the part of this MSM.
    fn add_message(
        &mut self,
        kind: MsmKind,
        message: &AnyMessage,
        entries: &[CellEntry],
        codes: &Codes,
    )
        requires entries { entries.now ≡ entries_of_message message.now }
        requires codes { HasCodes codes.now (entries_of_message message.now) }
        ensures { (ms : List AnyMessage) → HasMsm kind self.old ms → HasMsm kind self.new (message.now ∷ ms) }
    {
        self.messages = count_if(self.messages, message.number() == kind.number());
        note_epoch(&mut self.epochs, kind, message, entries);
        join_codes(&mut self.codes, kind, message, codes);
    }
}

impl MsmParts {
    /// Nothing came.
    pub fn new() -> MsmParts
        ensures { HasMsms result [] }
    {
        MsmParts {
            msm4: MsmPart::new(),
            msm5: MsmPart::new(),
            msm6: MsmPart::new(),
            msm7: MsmPart::new(),
        }
    }

    /// Adds a message of the station, with its cells and their codes.
    pub fn add_message(&mut self, message: &AnyMessage, entries: &[CellEntry], codes: &Codes)
        requires entries { entries.now ≡ entries_of_message message.now }
        requires codes { HasCodes codes.now (entries_of_message message.now) }
        ensures { (ms : List AnyMessage) → HasMsms self.old ms → HasMsms self.new (message.now ∷ ms) }
    {
        self.msm4
            .add_message(MsmKind::Msm4, message, entries, codes);
        self.msm5
            .add_message(MsmKind::Msm5, message, entries, codes);
        self.msm6
            .add_message(MsmKind::Msm6, message, entries, codes);
        self.msm7
            .add_message(MsmKind::Msm7, message, entries, codes);
    }

    /// What there is of an MSM.
    pub fn part(&self, kind: MsmKind) -> &MsmPart
        ensures { result.now ≡ msm_part self.now kind }
    {
        match kind {
            MsmKind::Msm4 => &self.msm4,
            MsmKind::Msm5 => &self.msm5,
            MsmKind::Msm6 => &self.msm6,
            MsmKind::Msm7 => &self.msm7,
        }
    }

    fn better_of(&self, lesser: MsmKind, greater: MsmKind) -> MsmKind
        ensures { result ≡ better_of (epochs_held self.now) lesser greater }
    {
        let count = self.part(greater).epochs.count;
        if count == 0 || count < self.part(lesser).epochs.count {
            lesser
        } else {
            greater
        }
    }

    /// The MSM that the command of the station names.
    pub fn proposed(&self) -> MsmKind
        ensures { result ≡ proposed (epochs_held self.now) }
    {
        let first = self.better_of(MsmKind::Msm4, MsmKind::Msm5);
        let second = self.better_of(first, MsmKind::Msm6);
        self.better_of(second, MsmKind::Msm7)
    }
}
