//! The number of a link.

ghost use Rattle.std.specs.Prelude.{◌≡◌, ℕ, ◌+◌, ◌<◌};

use std::marker::Model;

/// The number of a link, counted from 0.
#[derive(Clone, Copy)]
pub(crate) struct LinkNumber {
    from_zero: u8,
}

impl Model for LinkNumber {
    ghost Value = { ℕ };

    ghost view = { λ n. n.from_zero };

    ghost invariant = { λ n. n.from_zero < 16 };

    ghost inverse = { λ n. record { from_zero = n } };
}

impl LinkNumber {
    /// Returns the number of one of at most 16 links.
    pub(crate) fn new(link: usize) -> Self
        requires { link < 16 }
        ensures { result ≡ link }
    {
        LinkNumber {
            from_zero: link as u8,
        }
    }

    /// Returns the number as a fault tells it, counted from 0.
    pub(crate) fn from_zero(self) -> u8
        ensures { result ≡ self }
    {
        self.from_zero
    }

    /// Returns the number as a report shows it, counted from 1.
    pub(crate) fn shown(self) -> u64
        ensures { result ≡ self + 1 }
    {
        u64::from(self.from_zero) + 1
    }
}
