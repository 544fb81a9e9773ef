//! Rounding to the nearest whole number, ties away from zero.
//!
//! `round_div` is for other programs. The values of this crate are rounded in scaling.rt, by the
//! same definition.

ghost use Rattle.std.specs.Prelude.{◌≡◌, ℕ, ℤ, ◌^◌, ◌<◌, ◌≤◌, ◌↔◌, ◌<ℤ◌, pos, unsigned_abs};
ghost use Rattle.rtk_obs.specs.Rounding.{IsRounded, rounded_magnitude, rounded};

// Returns the whole number nearest to n / d, and the greater one if two are equally near.
fn round_magnitude(n: u128, d: u128) -> u128
    requires positive { 0 < d }
    requires small { n ≤ 2 ^ 127 }
    ensures value { result ≡ rounded_magnitude n d }
    ensures bound { result ≤ n }
{
    let whole = n / d;
    let rest = n % d;
    if rest >= d - rest { whole + 1 } else { whole }
}

/// Returns the whole number nearest to `n / d`, and the one further from 0 if two are equally near.
pub fn round_div(n: i128, d: i128) -> i128
    requires { pos 0 <ℤ d }
    ensures { result ≡ rounded n (unsigned_abs d) }
{
    let magnitude = round_magnitude(n.unsigned_abs(), d.unsigned_abs());
    if n >= 0 {
        magnitude as i128
    } else if magnitude == 0 {
        0
    } else {
        -1 - (magnitude - 1) as i128
    }
}
