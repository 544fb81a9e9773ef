//! Laws over the definitions of bits and of numbers.
//!
//! Each function here does nothing. Its contract is the law, and a caller that calls it may cite
//! it; proofs of other crates cite the same facts from `proofs/PublicLaws.antt`.

ghost use Rattle.std.specs.Prelude.{◌≡◌, ℕ, ◌+◌, ◌*◌, ◌/◌, ◌%◌, ◌^◌, ◌<◌, ◌≤◌, Bool, List, ◌++◌, length};
ghost use Rattle.rtk_bits.specs.Bits.{bits_of, unsigned};

/// The bits of a number are as many as asked for. A multiple of 2^k, added to the number, changes
/// none of its k low bits. The high bits stand before the low bits.
pub fn bits_of_a_number()
    ensures length { (w n : ℕ) → length (bits_of w n) ≡ w }
    ensures above { (w k a b : ℕ) → w ≤ k → bits_of w (a * 2 ^ k + b) ≡ bits_of w b }
    ensures rest { (w n : ℕ) → bits_of w (n % 2 ^ w) ≡ bits_of w n }
    ensures split { (a b n : ℕ) → bits_of (a + b) n ≡ bits_of a (n / 2 ^ b) ++ bits_of b n }
{}

/// The number of a list of bits is less than 2 to the power of their count. The w low bits of n
/// spell n modulo 2^w. Bits that stand before k others count 2^k times as much.
pub fn number_of_bits()
    ensures bound { (xs : List Bool) → unsigned xs < 2 ^ length xs }
    ensures of_number { (w n : ℕ) → unsigned (bits_of w n) ≡ n % 2 ^ w }
    ensures joined { (xs ys : List Bool) → unsigned (xs ++ ys) ≡ unsigned xs * 2 ^ length ys + unsigned ys }
{}
