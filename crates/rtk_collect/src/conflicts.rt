//! The cells of a message that conflict with the kept ones.

ghost use Rattle.std.specs.Prelude.{◌≡◌, ◌<◌, ◌≤◌, ◌↔◌, [], ◌∷◌, ◌++◌, length, IsTrue, OnOk, OnErr};

use arrayvec::ArrayVec;
use rtk_obs::{AnyCode, Code, SatelliteIndex};
use std::alloc::AllocError;
use std::marker::Model;

/// The satellite and the code of a cell.
#[derive(Clone, Copy, Debug, Default, PartialEq, Eq)]
pub struct SatelliteCode {
    /// The satellite, 1 to 32.
    pub satellite: u8,
    pub code: Code,
}

/// The satellite and the code of a cell of any system.
#[derive(Clone, Copy, Debug, Default, PartialEq, Eq)]
pub struct AnySatelliteCode {
    pub satellite: SatelliteIndex,
    pub code: AnyCode,
}

/// Satellites and codes of the cells of one message, in its order, at most 64. `S` is a satellite with a
/// code: a `SatelliteCode` for GPS, or an `AnySatelliteCode`.
#[derive(Drop)]
pub struct Conflicts<S = SatelliteCode> {
    list: ArrayVec<S, 64>,
}

// Clauses see the list.
impl<S> Model for Conflicts<S> {
    ghost use Rattle.std.specs.Prelude.{List, length, ◌≤◌};

    ghost Value = { List S };

    ghost view = { λ c. c.list.items };

    ghost invariant = { λ c. length c.list.items ≤ 64 };
}

impl<S: Copy + Default> Conflicts<S> {
    /// Makes an empty list.
    pub fn new() -> Conflicts<S>
        ensures { result ≡ [] }
    {
        Conflicts {
            list: ArrayVec::new(),
        }
    }

    /// Returns how many satellites and codes conflict.
    pub fn len(&self) -> usize
        ensures value { result ≡ length self.now }
        ensures few { result ≤ 64 }
    {
        self.list.len()
    }

    /// Returns whether no satellite and code conflicts.
    pub fn is_empty(&self) -> bool
        ensures { IsTrue result ↔ (self.now ≡ []) }
    {
        self.list.len() == 0
    }

    /// Returns the satellites and codes, in the order of the message.
    pub fn as_slice(&self) -> &[S]
        ensures value { result.now ≡ self.now }
        ensures few { length result.now ≤ 64 }
    {
        self.list.as_slice()
    }

    /// Makes the list empty.
    pub(crate) fn clear(&mut self)
        ensures { self.new ≡ [] }
    {
        self.list.clear();
    }

    /// Hands the answer on, and makes the list empty if memory is refused, since a message that is
    /// not taken has no conflicts.
    pub(crate) fn cleared_if_refused<T>(
        &mut self,
        joined: Result<T, AllocError>,
    ) -> Result<T, AllocError>
        ensures same { result ≡ joined }
        ensures ok { OnOk result (self.new ≡ self.old) }
        ensures err { OnErr result (self.new ≡ []) }
    {
        if joined.is_err() {
            self.clear();
        }
        joined
    }

    /// Adds a satellite and code after the others.
    pub(crate) fn push(&mut self, cell: S)
        requires { length self.old < 64 }
        ensures { self.new ≡ self.old ++ cell ∷ [] }
    {
        self.list.push(cell);
    }
}
