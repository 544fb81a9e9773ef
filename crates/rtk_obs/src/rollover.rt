//! Rolls of 1500 cycles of the phases of 1004 and 1012.

ghost use Rattle.std.specs.Prelude.{◌≡◌, ℕ, ◌&&◌, ◌+◌, ◌≤◌, ◌<◌, pos, negsuc, ◌≤ℤ◌, ◌*ℤ◌, unsigned_abs};
ghost use Rattle.rtk_obs.specs.Slip.{epoch_cell, is_legacy, has_slipped};
ghost use Rattle.rtk_obs.specs.Carriers.{roll_frequency};
ghost use Rattle.rtk_obs.specs.Steps.RollLimits.{IsRollLimit};
ghost use Rattle.rtk_obs.specs.Code.{frequency_of};
ghost use Rattle.rtk_obs.specs.Rollover.{roll_of, rolls_between, rolls_after, within_limits, rolled_phase};
ghost use Rattle.rtk_obs.specs.declared.time.TheConstants.{LAST_MS};

use crate::any_code::AnyCode;
use crate::carrier::Carrier;
use crate::cell::{Cell, CellSource};
use crate::code::{Band, Code};
use crate::track::Track;

// 750 cycles as an offset, in 0.0005 m, times a frequency, in Hz: 1,500,000 * 299,792,458.
const HALF_ROLL: i64 = 449_688_687_000_000;

// Returns the roll that this change of the offset shows, which is -1, 0 or 1.
fn roll(band: Band, change: i64) -> i64
    requires low { negsuc 4_294_967_295 ≤ℤ change }
    requires high { change ≤ℤ pos 4_294_967_295 }
    ensures value { result ≡ roll_of (frequency_of band) change }
    ensures bound { unsigned_abs result ≤ 1 }
{
    let turned = change * i64::from(band.frequency());
    if turned > HALF_ROLL {
        -1
    } else if turned < -HALF_ROLL {
        1
    } else {
        0
    }
}

// Returns the roll count from one offset to the next.
fn rolls_from(band: Band, rolls: i64, last: Option<i32>, offset: Option<i32>) -> i64
    requires { unsigned_abs rolls ≤ LAST_MS }
    ensures value { result ≡ rolls_between (frequency_of band) rolls last offset }
    ensures bound { unsigned_abs result ≤ unsigned_abs rolls + 1 }
{
    match (last, offset) {
        (Some(last), Some(offset)) => rolls + roll(band, i64::from(offset) - i64::from(last)),
        _ => 0,
    }
}

// Returns the roll that this change of the offset shows, if a change beyond this one is a roll.
fn roll_beyond(limit: i64, change: i64) -> i64
    requires limit { (pos 0 ≤ℤ limit) × (limit ≤ℤ pos 4_294_967_295) }
    ensures value { (frequency : ℕ) → IsRollLimit frequency limit → result ≡ roll_of frequency change }
    ensures bound { unsigned_abs result ≤ 1 }
{
    if change > limit {
        -1
    } else if change < -limit {
        1
    } else {
        0
    }
}

// Returns the greatest change of the offset that is no roll on a carrier: 750 cycles, of GLONASS on channel 0.
fn roll_limit(carrier: Carrier) -> i64
    ensures value { IsRollLimit (roll_frequency carrier) result }
    ensures range { (pos 0 ≤ℤ result) × (result ≤ℤ pos 4_294_967_295) }
{
    match carrier {
        Carrier::L1 => 285_440,
        Carrier::L2 => 366_315,
        Carrier::L5 => 382_242,
        Carrier::G1 => 280_704,
        Carrier::G2 => 360_905,
        Carrier::B1 => 288_059,
        Carrier::B3 => 354_498,
        Carrier::E6 => 351_662,
        Carrier::E5b => 372_524,
        Carrier::E5 => 377_320,
    }
}

// Returns the roll count from one offset to the next on a carrier.
fn rolls_on(carrier: Carrier, rolls: i64, last: Option<i32>, offset: Option<i32>) -> i64
    requires { unsigned_abs rolls ≤ LAST_MS }
    ensures value { result ≡ rolls_between (roll_frequency carrier) rolls last offset }
    ensures bound { unsigned_abs result ≤ unsigned_abs rolls + 1 }
{
    match (last, offset) {
        (Some(last), Some(offset)) => {
            let change = i64::from(offset) - i64::from(last);
            rolls + roll_beyond(roll_limit(carrier), change)
        }
        _ => 0,
    }
}

/// A code, by the frequency of whose carrier rolls are counted.
pub(crate) trait RollCode: Copy {
    /// The frequency, in Hz.
    ghost frequency: { Self → ℕ };

    /// Returns the roll count from one offset to the next.
    fn rolls_from(self, rolls: i64, last: Option<i32>, offset: Option<i32>) -> i64
        requires { unsigned_abs rolls ≤ LAST_MS }
        ensures value { result ≡ rolls_between (frequency self) rolls last offset }
        ensures bound { unsigned_abs result ≤ unsigned_abs rolls + 1 };
}

impl RollCode for Code {
    ghost use Rattle.rtk_obs.specs.Code.{frequency_of_code};

    ghost frequency = { frequency_of_code };

    #[inline(always)]
    fn rolls_from(self, rolls: i64, last: Option<i32>, offset: Option<i32>) -> i64 {
        rolls_from(self.band(), rolls, last, offset)
    }
}

impl RollCode for AnyCode {
    ghost use Rattle.rtk_obs.specs.AnyCode.{carrier_of};
    ghost use Rattle.rtk_obs.specs.Carriers.{roll_frequency};

    ghost frequency = { λ c. roll_frequency (carrier_of c) };

    fn rolls_from(self, rolls: i64, last: Option<i32>, offset: Option<i32>) -> i64 {
        rolls_on(self.carrier(), rolls, last, offset)
    }
}

// Returns whether both phases come in a legacy message.
fn are_legacy(last: CellSource, source: CellSource) -> bool
    ensures { result ≡ (is_legacy last && is_legacy source) }
{
    matches!((last, source), (CellSource::Legacy, CellSource::Legacy))
}

/// Returns the roll count of a phase that comes after the last one, with or without a slip between
/// them.
pub(crate) fn rolls_after<C: RollCode>(code: C, last: &Track, slip: bool, cell: &Cell) -> i64
    requires bounded { unsigned_abs last.now.rolls ≤ LAST_MS }
    ensures value { (epoch : ℕ) → slip ≡ has_slipped last.now (epoch_cell epoch cell.now)
        → result ≡ rolls_after (C.frequency code) last.now (epoch_cell epoch cell.now) }
    ensures bound { unsigned_abs result ≤ unsigned_abs last.now.rolls + 1 }
{
    if slip || !are_legacy(last.source, cell.source) {
        return 0;
    }
    code.rolls_from(last.rolls, last.offset, cell.offset)
}

// Returns the value if it is within the limits of an observation, else `None`.
fn within_limits(value: i128) -> Option<i64>
    ensures { result ≡ within_limits value }
{
    if value < -999_999_999_999 {
        return None;
    }
    if value > 9_999_999_999_999 {
        return None;
    }
    Some(value as i64)
}

// Returns the phase with 1500 cycles added for each roll if that is within the limits, else `None`.
fn with_rolls(phase: i64, rolls: i64) -> Option<i64>
    ensures { result ≡ rolled_phase phase rolls }
{
    within_limits(i128::from(phase) + 1_500_000 * i128::from(rolls))
}

// Returns the phase without rolls if that is within the limits, else `None`.
fn without_rolls(phase: i64) -> Option<i64>
    ensures { result ≡ within_limits phase }
{
    if phase < -999_999_999_999 || phase > 9_999_999_999_999 {
        return None;
    }
    Some(phase)
}

/// Returns a phase in millicycles with 1500 cycles added for each roll, or `None` exactly if that
/// is outside the limits of an observation, -999,999,999,999 to 9,999,999,999,999.
///
/// The test is here since the sum may not fit an `i64`. rtk_rinex tests each value that it writes
/// again (`is_written_value`), since other programs may give it any.
pub fn rolled(phase: i64, rolls: i64) -> Option<i64>
    ensures { result ≡ rolled_phase phase rolls }
{
    if rolls == 0 {
        return without_rolls(phase);
    }
    with_rolls(phase, rolls)
}
