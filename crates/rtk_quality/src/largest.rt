//! The ten largest of things, and how many there are.

ghost use Rattle.std.specs.Prelude.{◌≡◌, ◌<◌, ◌≤◌, ◌++◌, ◌∷◌, ℕ, List, [], Option, length, slice_index_or, OnOk};
ghost use Rattle.rtk_quality.specs.Largest.{list_of, AreLargest};

use std::alloc::{AllocError, Global};

/// How many things are kept at most.
const MOST_KEPT: usize = 10;

/// A thing that has a size.
pub(crate) trait Measured: Copy {
    ghost size: { Self → ℕ };

    /// How large it is.
    fn size(&self) -> u64
        ensures { result ≡ size self.now };
}

/// The things so far.
#[derive(Drop)]
pub(crate) struct Largest<T> {
    pub(crate) count: u64,
    /// The ten largest ones, the largest first, and of two alike the earlier one.
    pub(crate) things: Vec<T>,
}

// The place of a thing of this size among others, the largest first: behind all that are as large.
fn place_of<T: Measured>(things: &[T], size: u64) -> usize
    ensures within { result ≤ length things.now }
    ensures larger { (k : ℕ) (d : T) → k < result → size ≤ T.size (slice_index_or things.now k d) }
    ensures next { (d : T) → result < length things.now → T.size (slice_index_or things.now result d) < size }
{
    match things.iter().position(|thing| thing.size() < size) {
        Some(place) => place,
        None => things.len(),
    }
}

impl<T: Measured> Largest<T> {
    /// Of no thing.
    pub(crate) fn new(alloc: Global) -> Largest<T>
        ensures { AreLargest T.size result [] }
    {
        Largest {
            count: 0,
            things: Vec::new(alloc),
        }
    }

    /// Notes one more thing.
    pub(crate) fn note(&mut self, thing: T) -> Result<(), AllocError>
        ensures { OnOk result ((all : List T) → AreLargest T.size self.old all → AreLargest T.size self.new (all ++ thing ∷ [])) }
    {
        let place = place_of(self.things.as_slice(), thing.size());
        self.things.insert(place, thing)?;
        self.things.truncate(MOST_KEPT);
        self.count = self.count.saturating_add(1);
        Ok(())
    }

    /// Notes a thing, if it is there.
    pub(crate) fn note_if_any(&mut self, thing: Option<T>) -> Result<(), AllocError>
        ensures { OnOk result ((all : List T) → AreLargest T.size self.old all → AreLargest T.size self.new (all ++ list_of thing)) }
    {
        match thing {
            Some(thing) => self.note(thing),
            None => Ok(()),
        }
    }
}
