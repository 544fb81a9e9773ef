//! Counts as a summary shows them.

ghost use Rattle.std.specs.Prelude.{◌≡◌, ◌+◌};
ghost use Rattle.rtk_survey.specs.Counting.{shown_count};
ghost use Rattle.rtk_survey.specs.Contents.{one_if};

/// One more, if this is counted.
pub(crate) fn count_if(count: u64, is_counted: bool) -> u64
    ensures { result ≡ shown_count (count + one_if is_counted) }
{
    count.saturating_add(u64::from(is_counted))
}
