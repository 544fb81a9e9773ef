//! The Doppler shift of a cell of an MSM5 or MSM7, from the range rates of its fields.

ghost use Rattle.std.specs.Prelude.{◌≡◌, ◌*◌, ◌^◌, ◌<◌, ◌≤◌, pos, negsuc, ◌*ℤ◌, IfSome, unsigned_abs};
ghost use Rattle.rtk_obs.specs.Doppler.{fine_rate_of, rate_of, doppler_of, doppler_or_none, doppler_on, rough_rate_at, fine_rate_at};
ghost use Rattle.rtk_obs.specs.Rounding.{rounded, rounded_magnitude};
ghost use Rattle.rtk_obs.specs.Scaling.{unless_invalid};

use rtk_message::Msm;

// The invalid mark of DF399.
const NO_ROUGH_RATE: i16 = -8192;

// The invalid mark of DF404.
const NO_FINE_RATE: i16 = -16_384;

// Steps of DF404, of 0.0001 m/s, in a m/s.
const RATE_STEPS: i64 = 10_000;

// Ten times the speed of light, c: a rate in 0.0001 m/s times f / (10 * c) is a shift in thousandths of a Hz.
const TEN_LIGHTS: u32 = 2_997_924_580;

// Returns a field of a rate, or `None` if it has its invalid mark.
fn unless_no_rate(field: i16, mark: i16) -> Option<i16>
    ensures { result ≡ unless_invalid mark field }
{
    if field == mark { None } else { Some(field) }
}

/// Returns the rough range rate of the satellite of a row, in m/s (DF399), or `None` in a kind without rates.
pub(crate) fn rough_rate_at(message: &Msm, row: usize) -> Option<i16>
    ensures { result ≡ rough_rate_at message.now row }
{
    let field = match message.rough_rate.as_slice().get(row) {
        Some(field) => *field,
        None => NO_ROUGH_RATE,
    };
    unless_no_rate(field, NO_ROUGH_RATE)
}

/// Returns the fine range rate of a cell, in 0.0001 m/s (DF404), or `None` in a kind without rates.
pub(crate) fn fine_rate_at(message: &Msm, cell: usize) -> Option<i16>
    ensures { result ≡ fine_rate_at message.now cell }
{
    let field = match message.fine_rate.as_slice().get(cell) {
        Some(field) => *field,
        None => NO_FINE_RATE,
    };
    unless_no_rate(field, NO_FINE_RATE)
}

// Returns the range rate in 0.0001 m/s, from the rough one in m/s and a fine one, or `None` without a
// fine one.
fn fine_rate(rough: i16, fine: Option<i16>) -> Option<i64>
    ensures value { result ≡ fine_rate_of rough fine }
    ensures bound { IfSome result (λ r. unsigned_abs r ≤ 2 ^ 29) }
{
    match fine {
        Some(fine) => Some(RATE_STEPS * i64::from(rough) + i64::from(fine)),
        None => None,
    }
}

// Returns the range rate in 0.0001 m/s, from the rough one in m/s and a fine one.
fn rate(rough: Option<i16>, fine: Option<i16>) -> Option<i64>
    ensures value { result ≡ rate_of rough fine }
    ensures bound { IfSome result (λ r. unsigned_abs r ≤ 2 ^ 29) }
{
    match rough {
        Some(rough) => fine_rate(rough, fine),
        None => None,
    }
}

// Returns the whole number nearest to n * f / (10 * c), where f is a frequency in Hz. A tie goes up.
fn shift_magnitude(frequency: u32, n: u64) -> u64
    requires { n ≤ 2 ^ 29 }
    ensures value { result ≡ rounded_magnitude (n * frequency) TEN_LIGHTS }
    ensures bound { result < 2 ^ 30 }
{
    let product = n * u64::from(frequency);
    (product + u64::from(TEN_LIGHTS / 2)) / u64::from(TEN_LIGHTS)
}

// Returns the whole number nearest to speed * f / (10 * c), where f is a frequency in Hz. A tie goes away from 0.
fn scaled_speed(frequency: u32, speed: i64) -> i32
    requires { unsigned_abs speed ≤ 2 ^ 29 }
    ensures value { result ≡ rounded (speed *ℤ pos frequency) TEN_LIGHTS }
    ensures bound { unsigned_abs result < 2 ^ 30 }
{
    if speed < 0 {
        return -(shift_magnitude(frequency, speed.unsigned_abs()) as i32);
    }
    shift_magnitude(frequency, speed as u64) as i32
}

// Returns the Doppler shift of a range rate in 0.0001 m/s on a carrier of a frequency in Hz, in thousandths
// of a Hz.
fn shift(frequency: u32, rate: i64) -> i32
    requires { unsigned_abs rate ≤ 2 ^ 29 }
    ensures value { result ≡ doppler_of frequency rate }
    ensures bound { unsigned_abs result < 2 ^ 30 }
{
    scaled_speed(frequency, -rate)
}

// Returns the Doppler shift of a range rate, or 0 without one.
fn shift_or_none(frequency: u32, rate: Option<i64>) -> i32
    requires { IfSome rate (λ r. unsigned_abs r ≤ 2 ^ 29) }
    ensures value { result ≡ doppler_or_none frequency rate }
    ensures bound { unsigned_abs result < 2 ^ 30 }
{
    match rate {
        Some(rate) => shift(frequency, rate),
        None => 0,
    }
}

/// Returns the Doppler shift of a cell in thousandths of a Hz, from the rough range rate in m/s and a fine one in
/// 0.0001 m/s, on a carrier whose frequency in Hz is known or not. It is 0, which means no value, if one of them is missing.
pub(crate) fn doppler(frequency: Option<u32>, rough: Option<i16>, fine: Option<i16>) -> i32
    ensures value { result ≡ doppler_on frequency (rate_of rough fine) }
    ensures bound { unsigned_abs result < 2 ^ 30 }
{
    match frequency {
        Some(frequency) => shift_or_none(frequency, rate(rough, fine)),
        None => 0,
    }
}
