//! Which satellites of a legacy message came, by their numbers.

ghost use Rattle.std.specs.Prelude.{◌≡◌, ℕ, ◌<◌, ◌==◌, not, List, [], ◌∷◌, ◌++◌, length};
ghost use Rattle.std.specs.List.{list_any};
ghost use Rattle.rtk_obs.specs.Steps.GlonassFields.{HasSeenNumbers};

/// How many numbers of satellites a legacy message can have (DF009, DF038).
pub(crate) const NUMBERS: usize = 64;

/// Marks a number as one that came, and says whether it came for the first time.
pub(crate) fn mark_number(seen: &mut [bool], number: u8) -> bool
    requires number { number < 64 }
    requires places { length seen.old ≡ 64 }
    ensures places { length seen.new ≡ 64 }
    ensures value { (before : List ℕ) → HasSeenNumbers seen.old before → result ≡ not (list_any (λ m. m == number) before) }
    ensures seen { (before : List ℕ) → HasSeenNumbers seen.old before → HasSeenNumbers seen.new (before ++ number ∷ []) }
{
    let place = usize::from(number);
    if seen[place] {
        return false;
    }
    seen[place] = true;
    true
}
