//! Civil readings as text.
//!
//! If memory is refused, a first part of what is put may stand there.

ghost use Rattle.std.specs.Prelude.{◌≡◌, ◌++◌, OnOk};
ghost use Rattle.rtk_obs.specs.CivilText.{last_digits, date_text, clock_text, civil_text};

use crate::time::Civil;
use std::alloc::AllocError;

/// Returns the digits of tens and ones.
pub fn two_digits(number: u8) -> [u8; 2]
    ensures { result ≡ last_digits 2 number }
{
    [b'0' + number / 10 % 10, b'0' + number % 10]
}

/// Returns the digits of hundreds, tens and ones.
pub fn three_digits(number: u16) -> [u8; 3]
    ensures { result ≡ last_digits 3 number }
{
    let digit = |number: u16| b'0' + (number % 10) as u8;
    [digit(number / 10 / 10), digit(number / 10), digit(number)]
}

// Returns the digits of thousands, hundreds, tens and ones.
fn four_digits(number: u16) -> [u8; 4]
    ensures { result ≡ last_digits 4 number }
{
    let digit = |number: u16| b'0' + (number % 10) as u8;
    [
        digit(number / 10 / 10 / 10),
        digit(number / 10 / 10),
        digit(number / 10),
        digit(number),
    ]
}

/// Appends a date, as in 2024-05-17.
#[tactic(auto, unfolding(crate::specs::CivilText::date_text))]
pub fn put_date(text: &mut Vec<u8>, reading: Civil) -> Result<(), AllocError>
    // Fails only if memory is refused: tests/system/calls, rows put_date, put_clock and put_civil.
    ensures { OnOk result (text.new.items ≡ text.old.items ++ date_text reading) }
{
    text.extend_from_slice(&four_digits(reading.year))?;
    text.push(b'-')?;
    text.extend_from_slice(&two_digits(reading.month))?;
    text.push(b'-')?;
    text.extend_from_slice(&two_digits(reading.day))
}

/// Appends a time of day, as in 13:00:00.
#[tactic(auto, unfolding(crate::specs::CivilText::clock_text))]
pub fn put_clock(text: &mut Vec<u8>, reading: Civil) -> Result<(), AllocError>
    ensures { OnOk result (text.new.items ≡ text.old.items ++ clock_text reading) }
{
    text.extend_from_slice(&two_digits(reading.hour))?;
    text.push(b':')?;
    text.extend_from_slice(&two_digits(reading.minute))?;
    text.push(b':')?;
    text.extend_from_slice(&two_digits(reading.second))
}

/// Appends a date and a time of day, as in 2024-05-17 13:00:00.000.
#[tactic(auto, unfolding(crate::specs::CivilText::civil_text))]
pub fn put_civil(text: &mut Vec<u8>, reading: Civil) -> Result<(), AllocError>
    ensures { OnOk result (text.new.items ≡ text.old.items ++ civil_text reading) }
{
    put_date(text, reading)?;
    text.push(b' ')?;
    put_clock(text, reading)?;
    text.push(b'.')?;
    text.extend_from_slice(&three_digits(reading.millisecond))
}
