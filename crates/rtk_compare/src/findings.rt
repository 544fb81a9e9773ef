//! The differences that were found: how many of each class, and the first ones.

ghost use Rattle.std.specs.Prelude.{◌≡◌, ◌||◌, ◌++◌, ◌∷◌, [], List, take, nat_lt, true};
ghost use Rattle.rtk_compare.specs.declared.difference.Class.{Class};
ghost use Rattle.rtk_compare.specs.declared.difference.Difference.{Difference};
ghost use Rattle.rtk_compare.specs.Cells.{told_if};
ghost use Rattle.rtk_compare.specs.Differences.{HasFound, HasFindings, Adds, is_worse};

use crate::difference::{Class, Difference, Place, What};
use arrayvec::ArrayVec;

// constant
/// How many differences of a class are kept at most.
pub(crate) const MOST_OF_CLASS: usize = 100;

/// The differences of a class.
#[derive(Drop)]
pub struct Found {
    /// How many there are.
    pub count: u64,
    /// The first hundred of them.
    pub first: ArrayVec<Difference, MOST_OF_CLASS>,
}

/// The differences of each class.
#[derive(Drop)]
pub struct Findings {
    pub lost: Found,
    pub changed: Found,
    pub explained: Found,
}

// Keeps a difference, if there is room for it.
fn keep<T: Copy + Default>(first: &mut ArrayVec<T, MOST_OF_CLASS>, difference: T)
    ensures { first.new.items ≡ take 100 (first.old.items ++ difference ∷ []) }
{
    if first.len() < MOST_OF_CLASS {
        first.push(difference);
    }
}

impl Found {
    fn none() -> Found
        ensures { (c : Class) → HasFound c result [] }
    {
        Found {
            count: 0,
            first: ArrayVec::new(),
        }
    }

    fn push(&mut self, difference: Difference)
        ensures { (c : Class) (ds : List Difference) → c ≡ difference.class → HasFound c self.old ds → HasFound c self.new (ds ++ difference ∷ []) }
    {
        self.count = self.count.saturating_add(1);
        keep(&mut self.first, difference);
    }
}

impl Findings {
    /// Nothing was found.
    pub fn none() -> Findings
        ensures { HasFindings result [] }
    {
        let lost = Found::none();
        let changed = Found::none();
        let explained = Found::none();
        Findings {
            lost,
            changed,
            explained,
        }
    }

    /// Adds a difference.
    pub(crate) fn push(&mut self, class: Class, what: What, place: &Place)
        ensures { Adds self.old self.new (told_if true class what place.now) }
    {
        let difference = Difference {
            class,
            what,
            place: *place,
        };
        match class {
            Class::Lost => self.lost.push(difference),
            Class::Changed => self.changed.push(difference),
            Class::Explained => self.explained.push(difference),
        }
    }

    /// Adds a difference, if there is one.
    pub(crate) fn push_if(&mut self, differs: bool, class: Class, what: What, place: &Place)
        ensures { Adds self.old self.new (told_if differs class what place.now) }
    {
        if differs {
            self.push(class, what, place);
        }
    }

    // Are some counted that are lost or changed?
    fn counts_worse(&self) -> bool
        ensures { result ≡ (nat_lt 0 self.now.lost.count || nat_lt 0 self.now.changed.count) }
    {
        0 < self.lost.count || 0 < self.changed.count
    }

    /// Is something lost or changed?
    pub fn is_worse(&self) -> bool
        ensures { (ds : List Difference) → HasFindings self.now ds → result ≡ is_worse ds }
    {
        self.counts_worse()
    }
}
