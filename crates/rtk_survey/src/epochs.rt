//! The epochs of the messages that have a value.

ghost use Rattle.std.specs.Prelude.{◌≡◌, List, ℕ, [], ◌∷◌};
ghost use Rattle.rtk_survey.specs.Proposal.{begins_epoch};
ghost use Rattle.rtk_survey.specs.Contents.{epochs_so_far};

/// How many epochs there are, and the times of week of the first and the last one, in ms.
#[derive(Clone, Copy, Debug, PartialEq, Eq)]
pub struct Epochs {
    pub first: Option<u32>,
    pub last: Option<u32>,
    pub count: u64,
}

// 1 if an epoch begins with this time.
fn begins_epoch(before: Option<u32>, time: u32) -> u64
    ensures { result ≡ begins_epoch before time }
{
    match before {
        Some(before) => u64::from(before != time),
        None => 1,
    }
}

impl Epochs {
    /// No message came.
    pub(crate) fn new() -> Epochs
        ensures { result ≡ epochs_so_far [] }
    {
        Epochs {
            first: None,
            last: None,
            count: 0,
        }
    }

    /// The next message has this time; an epoch begins if it differs from the last one.
    pub(crate) fn note_time(&mut self, time: u32)
        ensures { (ts : List ℕ) → self.old ≡ epochs_so_far ts → self.new ≡ epochs_so_far (time ∷ ts) }
    {
        let begun = begins_epoch(self.last, time);
        self.count = self.count.saturating_add(begun);
        self.first = Some(self.first.unwrap_or(time));
        self.last = Some(time);
    }
}
