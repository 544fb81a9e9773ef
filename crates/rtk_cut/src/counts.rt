//! How many records a file has, and how many its part has.

ghost use Rattle.std.specs.Prelude.{◌≡◌, ◌+◌, ℕ};
ghost use Rattle.rtk_tracking.specs.Epochs.{capped};

/// How many records a file has, and how many of them its part has.
#[derive(Clone, Copy, Debug, PartialEq, Eq)]
pub struct CutCounts {
    pub records: u64,
    pub written: u64,
}

/// One more record.
pub(crate) fn one_more(count: u64) -> u64
    ensures { (before : ℕ) → count ≡ capped before → result ≡ capped (before + 1) }
{
    count.saturating_add(1)
}
