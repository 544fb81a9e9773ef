//! A set of slots of GLONASS.

ghost use Rattle.std.specs.Prelude.{◌≡◌, ◌≢◌, ℕ, true, false, ◌==◌, ◌&&◌, ◌||◌};
ghost use Rattle.rtk_obs.specs.Carriers.{IsSlot};
ghost use Rattle.rtk_convert.specs.Slots.{has_slot};

use std::marker::Model;

/// The slots, from 1 to this one.
pub(crate) const SLOTS: usize = 27;

/// A set of slots of GLONASS: those whose mark is set.
///
/// Contracts see the list of marks, read by `has_slot`.
#[derive(Clone, Copy)]
pub(crate) struct Slots {
    marks: [bool; SLOTS],
}

impl Model for Slots {
    ghost use Rattle.std.specs.Prelude.{◌≡◌, Bool, List, length};

    ghost Value = { List Bool };

    ghost view = { λ s. s.marks };

    ghost invariant = { λ s. length s.marks ≡ 27 };

    ghost inverse = { λ marks. record { marks = marks } };
}

impl Slots {
    /// The set without slots.
    pub(crate) fn new() -> Slots
        ensures { (slot : ℕ) → has_slot result slot ≡ false }
    {
        Slots {
            marks: [false; SLOTS],
        }
    }

    /// Puts a slot into the set.
    pub(crate) fn put(&mut self, slot: u8)
        requires { IsSlot slot }
        ensures set { has_slot self.new slot ≡ true }
        ensures others { (s : ℕ) → IsSlot s → s ≢ slot → has_slot self.new s ≡ has_slot self.old s }
    {
        self.marks[usize::from(slot) - 1] = true;
    }

    /// Puts a slot into the set, if it belongs there.
    pub(crate) fn put_if(&mut self, slot: u8, belongs: bool)
        requires { IsSlot slot }
        ensures { (s : ℕ) → IsSlot s → has_slot self.new s ≡ (((slot == s) && belongs) || has_slot self.old s) }
    {
        if !belongs {
            return;
        }
        self.put(slot);
    }

    /// Returns whether the set has a slot.
    pub(crate) fn has(&self, slot: u8) -> bool
        requires { IsSlot slot }
        ensures { result ≡ has_slot self.now slot }
    {
        self.marks[usize::from(slot) - 1]
    }
}
