//! A text that gets the fields of a label as it passes: its first nine lines, part by part.

ghost use Rattle.std.specs.Prelude.{◌≡◌, ◌-◌, ◌<◌, [], ◌++◌, length, min, take, MatchOption};
ghost use Rattle.rtk_label.specs.Filling.{filling_label, filling_front};
ghost use Rattle.rtk_label.specs.LabelWriting.{IsFilledFront};

use crate::columns::{FRONT, PLAIN_FRONT};
use crate::front::filled;
use crate::label::Label;
use arrayvec::ArrayVec;

/// The first nine lines of a text, as far as they came, and the label that they get.
#[derive(Drop)]
pub struct Filling {
    label: Label,
    front: ArrayVec<u8, PLAIN_FRONT>,
}

impl Filling {
    /// No line came.
    pub fn new(label: Label) -> Filling
        ensures label { filling_label result ≡ label }
        ensures front { filling_front result ≡ [] }
    {
        Filling {
            label,
            front: ArrayVec::new(),
        }
    }

    /// Takes of the next part what the nine lines lack: so many bytes.
    pub fn take(&mut self, part: &[u8]) -> usize
        ensures count { result ≡ min (length part.now) (729 - length (filling_front self.old)) }
        ensures front { filling_front self.new ≡ filling_front self.old ++ take result part.now }
        ensures label { filling_label self.new ≡ filling_label self.old }
    {
        let count = part.len().min(self.front.remaining_capacity());
        if self.front.try_extend_from_slice(&part[..count]).is_err() {
            unreachable!();
        }
        count
    }

    /// The nine lines with the fields of the label, once they are whole: nine lines, or ten with the marker's
    /// number.
    pub fn lines(&self) -> Option<ArrayVec<u8, FRONT>>
        ensures { MatchOption result (length (filling_front self.now) < 729) (λ lines. (length (filling_front self.now) ≡ 729)
            × IsFilledFront (filling_label self.now) (filling_front self.now) lines.items) }
    {
        if self.front.len() < PLAIN_FRONT {
            return None;
        }
        Some(filled(&self.label, self.front.as_slice()))
    }
}
