//! The values of a cell of an MSM, from its fields.

ghost use Rattle.std.specs.Prelude.{◌≡◌, ◌+◌, ◌%◌, ◌^◌, ◌≤◌, IfSome, negsuc, unsigned_abs};
ghost use Rattle.rtk_obs.specs.Scaling.{range_time, extended_phase_time};
ghost use Rattle.rtk_obs.specs.MsmCells.{rough_of, fine_range_of, fine_phase_of, msm_range_of, msm_phase_of, extended_fine_range_of, extended_fine_phase_of, extended_range_of, extended_phase_of};

use crate::scaling::{phase_from_extended_time, phase_from_time, range_from_time, unless_mark};

// The invalid mark of DF397.
const NO_ROUGH_RANGE: u8 = 255;

// The invalid mark of DF400.
const NO_FINE_RANGE: i32 = -16_384;

// The invalid mark of DF401.
const NO_FINE_PHASE: i32 = -2_097_152;

// The invalid mark of DF405.
const NO_EXTENDED_RANGE: i32 = -524_288;

// The invalid mark of DF406.
const NO_EXTENDED_PHASE: i32 = -8_388_608;

/// Thousandths of a dB-Hz in a step of DF403.
pub(crate) const MSM_STRENGTH_STEP: u32 = 1000;

/// Returns the rough range, in 2^-29 ms, from DF397 and DF398.
pub(crate) fn rough_range(ms: u8, fraction: u16) -> Option<i64>
    ensures value { result ≡ rough_of ms fraction }
    ensures bound { IfSome result (λ r. unsigned_abs r ≤ 2 ^ 38) }
{
    if ms == NO_ROUGH_RANGE {
        return None;
    }
    Some(536_870_912 * i64::from(ms) + 524_288 * i64::from(fraction))
}

// Returns the travel time of the signal, from the rough range and a fine one, in 2^-29 ms.
fn fine_time(rough: i64, fine: i32) -> i64
    requires { unsigned_abs rough ≤ 2 ^ 38 }
    ensures value { result ≡ range_time rough fine }
    ensures bound { unsigned_abs result ≤ 2 ^ 40 }
{
    rough + 32 * i64::from(fine)
}

// Returns the pseudorange in mm, from the rough range in 2^-29 ms and a fine one (DF400), or `None`
// without a fine one.
fn fine_range(rough: i64, fine: Option<i32>) -> Option<i64>
    requires { unsigned_abs rough ≤ 2 ^ 38 }
    ensures { result ≡ fine_range_of rough fine }
{
    match fine {
        Some(fine) => Some(range_from_time(fine_time(rough, fine))),
        None => None,
    }
}

/// Returns the pseudorange in mm, from the rough range in 2^-29 ms and DF400.
pub(crate) fn msm_range(rough: Option<i64>, fine: i32) -> Option<i64>
    requires { IfSome rough (λ r. unsigned_abs r ≤ 2 ^ 38) }
    ensures { result ≡ msm_range_of rough fine }
{
    match rough {
        Some(rough) => fine_range(rough, unless_mark(fine, NO_FINE_RANGE)),
        None => None,
    }
}

// Returns the phase in millicycles of a frequency in Hz, from the rough range in 2^-29 ms and a fine
// one (DF401), or `None` without a fine one.
fn fine_phase(frequency: u32, rough: i64, fine: Option<i32>) -> Option<i64>
    requires { unsigned_abs rough ≤ 2 ^ 38 }
    ensures { result ≡ fine_phase_of frequency rough fine }
{
    match fine {
        Some(fine) => Some(phase_from_time(frequency, rough + i64::from(fine))),
        None => None,
    }
}

/// Returns the phase in millicycles of a frequency in Hz, from the rough range in 2^-29 ms and DF401.
pub(crate) fn msm_phase(frequency: u32, rough: Option<i64>, fine: i32) -> Option<i64>
    requires { IfSome rough (λ r. unsigned_abs r ≤ 2 ^ 38) }
    ensures { result ≡ msm_phase_of frequency rough fine }
{
    match rough {
        Some(rough) => fine_phase(frequency, rough, unless_mark(fine, NO_FINE_PHASE)),
        None => None,
    }
}

// Returns the pseudorange in mm, from the rough range in 2^-29 ms and a fine one (DF405), or `None`
// without a fine one.
fn extended_fine_range(rough: i64, fine: Option<i32>) -> Option<i64>
    requires { unsigned_abs rough ≤ 2 ^ 38 }
    ensures { result ≡ extended_fine_range_of rough fine }
{
    match fine {
        Some(fine) => Some(range_from_time(rough + i64::from(fine))),
        None => None,
    }
}

/// Returns the pseudorange in mm, from the rough range in 2^-29 ms and DF405.
pub(crate) fn extended_range(rough: Option<i64>, fine: i32) -> Option<i64>
    requires { IfSome rough (λ r. unsigned_abs r ≤ 2 ^ 38) }
    ensures { result ≡ extended_range_of rough fine }
{
    match rough {
        Some(rough) => extended_fine_range(rough, unless_mark(fine, NO_EXTENDED_RANGE)),
        None => None,
    }
}

// Returns the travel time of the carrier, from the rough range in 2^-29 ms and DF406, in 2^-31 ms.
fn extended_time(rough: i64, fine: i32) -> i64
    requires { unsigned_abs rough ≤ 2 ^ 38 }
    ensures value { result ≡ extended_phase_time rough fine }
    ensures bound { unsigned_abs result ≤ 2 ^ 41 }
{
    4 * rough + i64::from(fine)
}

// Returns the phase in millicycles of a frequency in Hz, from the rough range in 2^-29 ms and a fine
// one (DF406), or `None` without a fine one.
fn extended_fine_phase(frequency: u32, rough: i64, fine: Option<i32>) -> Option<i64>
    requires frequency { frequency % 4 ≡ 0 }
    requires rough { unsigned_abs rough ≤ 2 ^ 38 }
    ensures { result ≡ extended_fine_phase_of frequency rough fine }
{
    match fine {
        Some(fine) => Some(phase_from_extended_time(frequency, extended_time(rough, fine))),
        None => None,
    }
}

/// Returns the phase in millicycles of a frequency in Hz, from the rough range in 2^-29 ms and DF406.
pub(crate) fn extended_phase(frequency: u32, rough: Option<i64>, fine: i32) -> Option<i64>
    requires frequency { frequency % 4 ≡ 0 }
    requires rough { IfSome rough (λ r. unsigned_abs r ≤ 2 ^ 38) }
    ensures { result ≡ extended_phase_of frequency rough fine }
{
    match rough {
        Some(rough) => extended_fine_phase(frequency, rough, unless_mark(fine, NO_EXTENDED_PHASE)),
        None => None,
    }
}
