//! The satellites of a legacy message.

ghost use Rattle.std.specs.Prelude.{◌≡◌, ◌≤◌, ◌<◌, ◌++◌, length};

use arrayvec::ArrayVec;
use std::marker::Model;

/// The satellites of a legacy message in their order, at most 31 of them. A contract sees the list.
#[derive(Drop)]
pub struct SatelliteList<T> {
    list: ArrayVec<T, 31>,
}

// Clauses see the list of satellites, at most 31. Source: RTCM 10403.3, DF006 and DF035.
impl<T> Model for SatelliteList<T> {
    ghost use Rattle.std.specs.Prelude.{List, length, ◌≤◌};

    ghost Value = { List T };

    ghost view = { λ s. s.list.items };

    ghost invariant = { λ s. length s.list.items ≤ 31 };
}

impl<T: Copy + Default> SatelliteList<T> {
    ghost use Rattle.std.specs.Prelude.{[], ◌∷◌, slice_set};

    /// Makes a list without satellites.
    pub fn new() -> SatelliteList<T>
        ensures { result ≡ [] }
    {
        SatelliteList {
            list: ArrayVec::new(),
        }
    }

    /// Returns how many satellites there are.
    pub fn len(&self) -> usize
        ensures value { result ≡ length self.now }
        ensures few { result ≤ 31 }
    {
        self.list.len()
    }

    /// Returns the satellites in their order.
    pub fn as_slice(&self) -> &[T]
        ensures value { result.now ≡ self.now }
        ensures few { length result.now ≤ 31 }
    {
        self.list.as_slice()
    }

    /// Makes the list this long. It leaves out the last satellites, or adds some that are to be set.
    pub(crate) fn resize(&mut self, count: usize)
        requires { count ≤ 31 }
        ensures { length self.new ≡ count }
    {
        self.list.truncate(count);
        for _ in self.list.len()..count {
            self.list.push(T::default());
        }
    }

    /// Sets the satellite at this place.
    pub(crate) fn set(&mut self, place: usize, satellite: T)
        requires { place < length self.old }
        ensures { self.new ≡ slice_set self.old place satellite }
    {
        self.list.as_mut_slice()[place] = satellite;
    }

    /// Adds a satellite after the others.
    pub fn push(&mut self, satellite: T)
        requires { length self.old < 31 }
        ensures { self.new ≡ self.old ++ satellite ∷ [] }
    {
        self.list.push(satellite);
    }
}

impl<T: PartialEq> PartialEq for SatelliteList<T> {
    ghost use Rattle.std.specs.Cmp.Lexicographic.{pointwise, lists_per};

    ghost eq = { λ s t. pointwise T.eq s t };

    ghost laws = { lists_per T.laws };

    fn eq(&self, other: &Self) -> bool {
        self.list.as_slice() == other.list.as_slice()
    }
}

impl<T: Eq> Eq for SatelliteList<T> {
    ghost use Rattle.std.specs.Cmp.Lexicographic.{lists_equiv};

    ghost laws = { lists_equiv T.Eq.laws };
}
