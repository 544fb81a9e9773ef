//! The lesser and the greater of two values, of which one may be absent.

ghost use Rattle.std.specs.Prelude.{◌≡◌};
ghost use Rattle.rtk_tracking.specs.Extremes.{lesser_by, greater_by};

/// Returns the lesser of two values, or the other value if one of them is absent.
pub fn lesser<T: Ord + Copy>(one: Option<T>, other: Option<T>) -> Option<T>
    ensures { result ≡ lesser_by T.cmp one other }
{
    match (one, other) {
        (Some(one), Some(other)) => Some(one.min(other)),
        (Some(one), None) => Some(one),
        (None, other) => other,
    }
}

/// Returns the greater of two values, or the other value if one of them is absent.
pub fn greater<T: Ord + Copy>(one: Option<T>, other: Option<T>) -> Option<T>
    ensures { result ≡ greater_by T.cmp one other }
{
    match (one, other) {
        (Some(one), Some(other)) => Some(one.max(other)),
        (Some(one), None) => Some(one),
        (None, other) => other,
    }
}
