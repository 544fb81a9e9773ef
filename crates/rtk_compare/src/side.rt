//! Which of two files comes next, if both are walked in one order.

ghost use Rattle.std.specs.Prelude.{◌≡◌, Decides};
ghost use Rattle.rtk_compare.specs.declared.side.Side.TheVariants.{Old, New};
ghost use Rattle.rtk_compare.specs.Steps.Sides.{IsNextSide, has_old, has_new};

/// The file that comes next, or both.
#[derive(Clone, Copy, Debug, PartialEq, Eq)]
pub(crate) enum Side {
    Old,
    New,
    Both,
}

impl Side {
    pub(crate) fn has_old(self) -> bool
        ensures { result ≡ has_old self }
    {
        !matches!(self, Side::New)
    }

    pub(crate) fn has_new(self) -> bool
        ensures { result ≡ has_new self }
    {
        !matches!(self, Side::Old)
    }
}

/// Returns which file comes next by the numbers of what is next in each, or `None` at the end of both.
pub(crate) fn next_side(old: Option<u64>, new: Option<u64>) -> Option<Side>
    ensures { IsNextSide old new result }
{
    match (old, new) {
        (Some(old), Some(new)) => {
            if old < new {
                Some(Side::Old)
            } else if new < old {
                Some(Side::New)
            } else {
                Some(Side::Both)
            }
        }
        (Some(_), None) => Some(Side::Old),
        (None, Some(_)) => Some(Side::New),
        (None, None) => None,
    }
}
