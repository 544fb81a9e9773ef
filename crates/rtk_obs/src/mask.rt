//! The set bits of a mask.

ghost use Rattle.std.specs.Prelude.{◌≡◌, ◌≢◌, ◌+◌, ◌^◌, ◌<◌, ◌≤◌, length};
ghost use Rattle.std.specs.List.{All};
ghost use Rattle.rtk_obs.specs.Mask.{set_bits};

use arrayvec::ArrayVec;

/// Returns the place of the greatest set bit, from 0 for the least significant one.
pub(crate) fn top_bit(mask: u64) -> u32
    requires { mask ≢ 0 }
    ensures from { 2 ^ result ≤ mask }
    ensures below { mask < 2 ^ (result + 1) }
    ensures inside { result < 64 }
{
    63 - mask.leading_zeros()
}

/// Returns the places of the set bits of a mask that is `width` bits wide. They rise. The first bit
/// is the most significant one and has place 1.
pub(crate) fn places_of_bits(mask: u64, width: u32) -> ArrayVec<u8, 64>
    requires width { width ≤ 64 }
    requires fits { mask < 2 ^ width }
    ensures places { result.items ≡ set_bits width mask }
    ensures bounds { All (λ p. (1 ≤ p) × (p ≤ width)) result.items }
{
    let mut places = ArrayVec::new();
    let mut rest = mask;
    while rest != 0 {
        let top = 63 - rest.leading_zeros();
        places.push((width - top) as u8);
        rest -= 1 << top;
    }
    places
}
