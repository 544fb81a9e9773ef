//! One index over the satellites of all systems, and their names in RINEX.

ghost use Rattle.std.specs.Prelude.{◌≡◌, ◌≢◌, ℕ, ◌+◌, ◌≤◌, [], ◌∷◌, MatchOption};
ghost use Rattle.std.specs.Option.{SomeIff};
ghost use Rattle.rtk_obs.specs.SatelliteIndex.{satellites_of_system, satellites_before, IsSatelliteIndex, index_in, system_at, bit_at, letter_of, name_offset, index_name};
ghost use Rattle.rtk_obs.specs.CivilText.{last_digits};
ghost use Rattle.rtk_message.specs.declared.system.System.{System};

use crate::civil_text::two_digits;
use rtk_message::System;
use std::marker::Model;

/// A satellite of any system, as a number from 1 to 221.
///
/// The systems stand in the order G (1 to 32), R (33 to 59), E (60 to 95), C (96 to 158), J (159 to
/// 168), S (169 to 207) and I (208 to 221). Indices are ordered by their numbers. Contracts see that
/// number.
#[derive(Clone, Copy, Debug, PartialEq, Eq, Hash, PartialOrd, Ord)]
pub struct SatelliteIndex {
    index: u8,
}

impl Model for SatelliteIndex {
    ghost use Rattle.std.specs.Prelude.{ℕ};
    ghost use Rattle.rtk_obs.specs.SatelliteIndex.{IsSatelliteIndex};

    ghost Value = { ℕ };

    ghost view = { λ s. s.index };

    ghost invariant = { λ s. IsSatelliteIndex s.index };

    ghost inverse = { λ n. record { index = n } };
}

impl Default for SatelliteIndex {
    /// Returns the first satellite, G01.
    fn default() -> SatelliteIndex
        ensures { result ≡ 1 }
    {
        SatelliteIndex { index: 1 }
    }
}

// Returns how many satellites of a system give cells.
fn satellites_of_system(system: System) -> u8
    ensures { result ≡ satellites_of_system system }
{
    match system {
        System::Gps => 32,
        System::Glonass => 27,
        System::Galileo => 36,
        System::Beidou => 63,
        System::Qzss => 10,
        System::Sbas => 39,
        System::Navic => 14,
    }
}

// Returns how many satellites stand before those of a system.
fn satellites_before(system: System) -> u8
    ensures value { result ≡ satellites_before system }
    ensures bound { result + satellites_of_system system ≤ 221 }
{
    match system {
        System::Gps => 0,
        System::Glonass => 32,
        System::Galileo => 59,
        System::Beidou => 95,
        System::Qzss => 158,
        System::Sbas => 168,
        System::Navic => 207,
    }
}

impl SatelliteIndex {
    /// Returns the satellite with this number, or `None` if there is none.
    pub fn new(index: u8) -> Option<SatelliteIndex>
        ensures { SomeIff result (IsSatelliteIndex index) index }
    {
        if 1 <= index && index <= 221 {
            Some(SatelliteIndex { index })
        } else {
            None
        }
    }

    /// Returns the number, from 1 to 221.
    pub fn index(self) -> u8
        ensures value { result ≡ self }
        ensures bound { IsSatelliteIndex result }
    {
        self.index
    }

    /// Returns the system of the satellite.
    pub fn system(self) -> System
        ensures { result ≡ system_at self }
    {
        match self.index {
            0..=32 => System::Gps,
            33..=59 => System::Glonass,
            60..=95 => System::Galileo,
            96..=158 => System::Beidou,
            159..=168 => System::Qzss,
            169..=207 => System::Sbas,
            _ => System::Navic,
        }
    }

    /// Returns the bit of the satellite in the masks (DF394) of its system, from 1.
    pub fn bit(self) -> u8
        ensures { result ≡ bit_at self }
    {
        self.index - satellites_before(self.system())
    }
}

/// Returns the satellite of a bit in the masks (DF394) of a system, from 1. A bit that gives no cells
/// has none.
pub fn satellite_in(system: System, bit: u8) -> Option<SatelliteIndex>
    ensures { result ≡ index_in system bit }
{
    if 1 <= bit && bit <= satellites_of_system(system) {
        Some(SatelliteIndex {
            index: satellites_before(system) + bit,
        })
    } else {
        None
    }
}

/// Returns the letter of a system in names of RINEX.
pub fn letter_of(system: System) -> u8
    ensures { result ≡ letter_of system }
{
    match system {
        System::Gps => b'G',
        System::Glonass => b'R',
        System::Galileo => b'E',
        System::Beidou => b'C',
        System::Qzss => b'J',
        System::Sbas => b'S',
        System::Navic => b'I',
    }
}

// Returns how much greater than the mask bit the number in a name is.
fn name_offset(system: System) -> u8
    ensures value { result ≡ name_offset system }
    ensures bound { result ≤ 19 }
{
    match system {
        System::Sbas => 19,
        _ => 0,
    }
}

/// Returns the name of a satellite in RINEX: the letter of its system and two digits.
pub fn satellite_name(satellite: SatelliteIndex) -> [u8; 3]
    ensures { result ≡ index_name satellite }
{
    let system = satellite.system();
    let [tens, ones] = two_digits(satellite.bit() + name_offset(system));
    [letter_of(system), tens, ones]
}

/// Returns the system of a letter in names of RINEX, or `None` if it is that of none.
pub fn system_of_letter(letter: u8) -> Option<System>
    ensures { MatchOption result ((s : System) → letter ≢ letter_of s) (λ s. letter ≡ letter_of s) }
{
    match letter {
        b'G' => Some(System::Gps),
        b'R' => Some(System::Glonass),
        b'E' => Some(System::Galileo),
        b'C' => Some(System::Beidou),
        b'J' => Some(System::Qzss),
        b'S' => Some(System::Sbas),
        b'I' => Some(System::Navic),
        _ => None,
    }
}

// Returns the number that two digits write.
fn number_of_digits(tens: u8, ones: u8) -> Option<u8>
    ensures { MatchOption result ((n : ℕ) → n ≤ 99 → tens ∷ ones ∷ [] ≢ last_digits 2 n)
        (λ n. (n ≤ 99) × (tens ∷ ones ∷ [] ≡ last_digits 2 n)) }
{
    if tens.is_ascii_digit() && ones.is_ascii_digit() {
        Some(10 * (tens - b'0') + (ones - b'0'))
    } else {
        None
    }
}

// Returns the satellite whose name is a letter and two digits.
fn satellite_of(letter: u8, tens: u8, ones: u8) -> Option<SatelliteIndex>
    ensures { MatchOption result ((i : ℕ) → IsSatelliteIndex i → letter ∷ tens ∷ ones ∷ [] ≢ index_name i)
        (λ i. IsSatelliteIndex i × (letter ∷ tens ∷ ones ∷ [] ≡ index_name i)) }
{
    let system = system_of_letter(letter)?;
    let number = number_of_digits(tens, ones)?;
    let offset = name_offset(system);
    if number < offset {
        return None;
    }
    satellite_in(system, number - offset)
}

/// Returns the satellite of this name, or `None` exactly if no satellite has it.
pub fn satellite_named(name: &[u8]) -> Option<SatelliteIndex>
    ensures { MatchOption result ((i : ℕ) → IsSatelliteIndex i → name.now ≢ index_name i)
        (λ i. IsSatelliteIndex i × (name.now ≡ index_name i)) }
{
    let &[letter, tens, ones] = name else {
        return None;
    };
    satellite_of(letter, tens, ones)
}
