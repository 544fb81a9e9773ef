//! How far reference points are apart.

ghost use Rattle.std.specs.Prelude.{◌≡◌, ◌<◌, ◌^◌};
ghost use Rattle.rtk_survey.specs.Points as spec;

use crate::reference_point::ReferencePoint;

/// More than 100 m, squared; coordinates are in 0.0001 m.
const FAR_SQUARED: u128 = 1_000_000_000_000;

fn squared_apart(a: &i64, b: &i64) -> u128
    ensures value { result ≡ spec.squared_apart a.now b.now }
    ensures bound { result < 2 ^ 128 }
{
    let apart = u128::from(a.abs_diff(*b));
    apart * apart
}

/// Are two reference points more than 100 m apart?
pub fn are_far(a: &ReferencePoint, b: &ReferencePoint) -> bool
    ensures { result ≡ spec.are_far a.now b.now }
{
    let x = squared_apart(&a.x, &b.x);
    let y = squared_apart(&a.y, &b.y);
    let z = squared_apart(&a.z, &b.z);
    FAR_SQUARED < x.saturating_add(y).saturating_add(z)
}
