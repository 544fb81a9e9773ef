//! What was known of the bytes of readers and writers before their first calls.

ghost use Rattle.std.specs.Prelude.{ℕ, List, Option, None};

use std::marker::Brand;

/// The bytes that readers had to give, and those that writers held, before their first calls, each by
/// the number of the reader or the writer; `None` if nothing is known of them. Clauses alone read it.
/// A caller that knows the bytes picks them.
pub trait Before {
    /// The bytes that a reader had, in order.
    ghost had: { ℕ → Option (List ℕ) };

    /// The bytes that a writer held, in order.
    ghost held: { ℕ → Option (List ℕ) };
}

// Nothing is known, unless a caller picks.
impl Before for Brand {
    ghost had = { λ _. None };

    ghost held = { λ _. None };
}
