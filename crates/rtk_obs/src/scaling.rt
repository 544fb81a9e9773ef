//! Values of fields from exact fractions, each rounded once.
//!
//! The fractions have up to 70 bits. Values of an MSM, and phases of a 1012, are computed in 128 bits. Values
//! of a 1004 are computed in 64 bits: the whole quotient times the factor, and the rounded rest, apart.

ghost use Rattle.std.specs.Prelude.{◌≡◌, ◌+◌, ◌*◌, ◌%◌, ◌^◌, ◌<◌, ◌≤◌, pos, ◌*ℤ◌, ◌≤ℤ◌, negsuc, unsigned_abs};
ghost use Rattle.rtk_obs.specs.Code.{frequency_of};
ghost use Rattle.rtk_obs.specs.Rounding.{rounded, rounded_magnitude};
ghost use Rattle.rtk_obs.specs.Scaling.{range_of_length, phase_of_length, phase_of_length_on, range_of_time, phase_of_time, strength_of, strength_of_sixteenths, phase_of_extended_time, unless_invalid};

use crate::code::Band;

// The speed of light, in m/s.
const LIGHT: u32 = 299_792_458;

// Twice the speed of light, c: a length in 0.0005 m times f / (2 * c) is a phase in millicycles.
const TWICE_LIGHT: u32 = 599_584_916;

// Half of the speed of light.
const HALF_LIGHT: u64 = 149_896_229;

/// A step of DF011 and DF017, and in a 1012 of DF041 and DF047, which is 0.02 m, in 0.0005 m.
pub(crate) const RANGE_STEP: i64 = 40;

/// A step of DF014, which is the way of light in a ms, in 0.0005 m.
pub(crate) const MODULUS: i64 = 599_584_916;

/// A step of DF044, which is the way of light in 2 ms, in 0.0005 m.
pub(crate) const GLONASS_MODULUS: i64 = 1_199_169_832;

/// The longest pseudorange of L1 that a 1012 gives, in 0.0005 m: DF041 (25 bits) and DF044 (7 bits) are all
/// ones. The longest one of a 1004 is shorter, where DF011 has 24 bits and DF014 has 8.
pub(crate) const LONGEST_RANGE: u64 = RANGE_STEP as u64 * 33_554_431 + GLONASS_MODULUS as u64 * 127;

// The longest length of a phase, in 0.0005 m: such a pseudorange and any difference of 32 bits.
const LONGEST_PHASE: u64 = LONGEST_RANGE + 2_147_483_648;

// 2^29: so many units of a travel time are a ms.
const MS: u32 = 536_870_912;

// 2^31: so many units of a travel time of extended resolution are a ms.
const EXTENDED_MS: u32 = 2_147_483_648;

// Returns the whole number nearest to n * factor / divisor in 64 bits. A tie goes up.
fn scaled_magnitude(n: u64, factor: u32, divisor: u32) -> u64
    requires positive { 0 < divisor }
    requires fits { rounded_magnitude (n * factor) divisor < 2 ^ 63 }
    ensures { result ≡ rounded_magnitude (n * factor) divisor }
{
    let factor = u64::from(factor);
    let divisor = u64::from(divisor);
    let whole = n / divisor * factor;
    let rest = n % divisor * factor;
    whole + (rest + divisor / 2) / divisor
}

// Returns the whole number nearest to value * factor / divisor. A tie goes away from 0.
fn scaled(value: i64, factor: u32, divisor: u32) -> i64
    requires factor { 0 < factor }
    requires divisor { 0 < divisor }
    requires fits { rounded_magnitude (unsigned_abs value * factor) divisor < 2 ^ 63 }
    ensures { result ≡ rounded (value *ℤ pos factor) divisor }
{
    if value < 0 {
        return -(scaled_magnitude(value.unsigned_abs(), factor, divisor) as i64);
    }
    scaled_magnitude(value as u64, factor, divisor) as i64
}

// Returns the whole number nearest to n * factor / 2^29. A tie goes up.
fn time_magnitude(n: u64, factor: u32) -> u64
    requires { n ≤ 2 ^ 41 }
    ensures value { result ≡ rounded_magnitude (n * factor) MS }
    ensures bound { result < 2 ^ 63 }
{
    let product = u128::from(n) * u128::from(factor);
    ((product + u128::from(MS / 2)) / u128::from(MS)) as u64
}

// Returns the whole number nearest to n * factor / 2^31. A tie goes up.
fn extended_magnitude(n: u64, factor: u32) -> u64
    requires range { n ≤ 2 ^ 41 }
    requires whole { factor % 4 ≡ 0 }
    ensures value { result ≡ rounded_magnitude (n * factor) EXTENDED_MS }
    ensures bound { result < 2 ^ 63 }
{
    // The factor is a whole multiple of 4, so factor / 2^31 is exactly (factor / 4) / 2^29.
    time_magnitude(n, factor / 4)
}

// Returns the whole number nearest to time * factor / 2^29. A tie goes away from 0.
fn scaled_time(time: i64, factor: u32) -> i64
    requires { unsigned_abs time ≤ 2 ^ 41 }
    ensures { result ≡ rounded (time *ℤ pos factor) MS }
{
    if time < 0 {
        return -(time_magnitude(time.unsigned_abs(), factor) as i64);
    }
    time_magnitude(time as u64, factor) as i64
}

/// Returns a length in 0.0005 m as a range in mm.
pub(crate) fn range_from_length(length: i64) -> i64
    ensures { result ≡ range_of_length length }
{
    scaled(length, 1, 2)
}

// Returns the whole number nearest to n * f / (2 * c), where f is the frequency of the band. For
// the bands of a 1004 both are halved twice, and the whole times that c / 2 goes into f / 4 are
// taken out. So one division by a constant is left, whose dividend fits 64 bits.
fn length_magnitude(band: Band, n: u64) -> u64
    requires { n ≤ LONGEST_PHASE }
    ensures value { result ≡ rounded_magnitude (n * frequency_of band) TWICE_LIGHT }
    ensures bound { result < 2 ^ 63 }
{
    match band {
        Band::L1 => 2 * n + (94_062_542 * n + HALF_LIGHT / 2) / HALF_LIGHT,
        Band::L2 => 2 * n + (7_107_542 * n + HALF_LIGHT / 2) / HALF_LIGHT,
        Band::L5 => scaled_magnitude(n, 1_176_450_000, TWICE_LIGHT),
    }
}

/// Returns a length in 0.0005 m as a phase in millicycles.
pub(crate) fn phase_from_length(band: Band, length: i64) -> i64
    requires { unsigned_abs length ≤ LONGEST_PHASE }
    ensures { result ≡ phase_of_length band length }
{
    if length < 0 {
        return -(length_magnitude(band, length.unsigned_abs()) as i64);
    }
    length_magnitude(band, length as u64) as i64
}

// Returns the whole number nearest to n * f / (2 * c), where f is a frequency in Hz. A tie goes up.
fn length_magnitude_on(frequency: u32, n: u64) -> u64
    requires { n ≤ 2 ^ 38 }
    ensures value { result ≡ rounded_magnitude (n * frequency) TWICE_LIGHT }
    ensures bound { result < 2 ^ 63 }
{
    let product = u128::from(n) * u128::from(frequency);
    ((product + u128::from(TWICE_LIGHT / 2)) / u128::from(TWICE_LIGHT)) as u64
}

/// Returns a length in 0.0005 m as a phase in millicycles of a frequency in Hz.
pub(crate) fn phase_from_length_on(frequency: u32, length: i64) -> i64
    requires { unsigned_abs length ≤ LONGEST_PHASE }
    ensures { result ≡ phase_of_length_on frequency length }
{
    if length < 0 {
        return -(length_magnitude_on(frequency, length.unsigned_abs()) as i64);
    }
    length_magnitude_on(frequency, length as u64) as i64
}

/// Returns a travel time of the signal, in 2^-29 ms, as a range in mm.
pub(crate) fn range_from_time(time: i64) -> i64
    requires { unsigned_abs time ≤ 2 ^ 40 }
    ensures { result ≡ range_of_time time }
{
    scaled_time(time, LIGHT)
}

/// Returns a travel time of the signal, in 2^-29 ms, as a phase in millicycles of a frequency in Hz.
pub(crate) fn phase_from_time(frequency: u32, time: i64) -> i64
    requires { unsigned_abs time ≤ 2 ^ 40 }
    ensures { result ≡ phase_of_time frequency time }
{
    scaled_time(time, frequency)
}

/// Returns a travel time of the signal, in 2^-31 ms, as a phase in millicycles of a frequency in Hz.
pub(crate) fn phase_from_extended_time(frequency: u32, time: i64) -> i64
    requires frequency { frequency % 4 ≡ 0 }
    requires time { unsigned_abs time ≤ 2 ^ 41 }
    ensures { result ≡ phase_of_extended_time frequency time }
{
    if time < 0 {
        return -(extended_magnitude(time.unsigned_abs(), frequency) as i64);
    }
    extended_magnitude(time as u64, frequency) as i64
}

/// Returns a signal strength in thousandths of a dB-Hz, from its number of steps. If there are 0
/// steps, the strength is not given.
pub(crate) fn strength_from_steps(step: u32, steps: u8) -> Option<u32>
    requires { step ≤ 1000 }
    ensures { result ≡ strength_of step steps }
{
    match steps {
        0 => None,
        _ => Some(step * u32::from(steps)),
    }
}

/// Returns a signal strength in thousandths of a dB-Hz, from sixteenths of a dB-Hz (DF408). If
/// there are 0, the strength is not given. It is the nearest quarter of a dB-Hz, from 0.25 to
/// 63.75.
pub(crate) fn strength_from_sixteenths(sixteenths: u16) -> Option<u32>
    ensures { result ≡ strength_of_sixteenths sixteenths }
{
    match sixteenths {
        0 => None,
        _ => Some(250 * ((u32::from(sixteenths) + 2) / 4).clamp(1, 255)),
    }
}

/// Returns a field, or `None` if it has its invalid mark.
pub(crate) fn unless_mark(field: i32, mark: i32) -> Option<i32>
    ensures { result ≡ unless_invalid mark field }
{
    if field == mark { None } else { Some(field) }
}
