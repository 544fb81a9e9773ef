//! The strengths of bands.

ghost use Rattle.std.specs.Prelude.{◌≡◌, Option};
ghost use Rattle.rtk_quality.specs.Strengths.{band_in_name, bands_of_system, system_of_codes, shown_bands, number_of, of_band};
ghost use Rattle.rtk_quality.specs.Steps.Noted.{no_strengths, all_without, with_one, with_strength, with_row, with_rows};

use rtk_message::System;
use rtk_obs::AnyCode::{self, *};
use rtk_rinex::{Observed, SatelliteRow};

/// The band of a code, by the first character of its name.
#[derive(Clone, Copy)]
pub(crate) enum CodeBand {
    B1,
    B2,
    B5,
    B6,
    B7,
    B8,
}

/// How many strengths there are, and their sum in thousandths of a dB-Hz.
#[derive(Clone, Copy)]
pub(crate) struct BandStrengths {
    pub(crate) count: u64,
    pub(crate) sum: u64,
}

/// The strengths of each band.
#[derive(Clone, Copy)]
pub(crate) struct Strengths {
    pub(crate) b1: BandStrengths,
    pub(crate) b2: BandStrengths,
    pub(crate) b5: BandStrengths,
    pub(crate) b6: BandStrengths,
    pub(crate) b7: BandStrengths,
    pub(crate) b8: BandStrengths,
}

/// The band of a code, which is found without its name: each strength asks for it.
pub(crate) fn band_of(code: AnyCode) -> CodeBand
    ensures { result ≡ band_in_name code }
{
    match code {
        G1C | G1P | G1W | G1S | G1L | G1X => CodeBand::B1,
        R1C | R1P => CodeBand::B1,
        E1C | E1B | E1X => CodeBand::B1,
        C1D | C1P | C1X => CodeBand::B1,
        J1C | J1S | J1L | J1X => CodeBand::B1,
        S1C => CodeBand::B1,
        G2C | G2D | G2P | G2W | G2S | G2L | G2X => CodeBand::B2,
        R2C | R2P => CodeBand::B2,
        C2I | C2Q | C2X => CodeBand::B2,
        J2S | J2L | J2X => CodeBand::B2,
        G5I | G5Q | G5X => CodeBand::B5,
        E5I | E5Q | E5X => CodeBand::B5,
        C5D | C5P | C5X => CodeBand::B5,
        J5I | J5Q | J5X => CodeBand::B5,
        S5I | S5Q | S5X => CodeBand::B5,
        I5A => CodeBand::B5,
        E6C | E6B | E6X => CodeBand::B6,
        C6I | C6Q | C6X => CodeBand::B6,
        J6S | J6L | J6X => CodeBand::B6,
        E7I | E7Q | E7X => CodeBand::B7,
        C7I | C7Q | C7X | C7D => CodeBand::B7,
        E8I | E8Q | E8X => CodeBand::B8,
    }
}

/// The bands that have columns in the hours of a table.
#[derive(Clone, Copy)]
pub(crate) struct ShownBands {
    pub(crate) first: CodeBand,
    pub(crate) second: CodeBand,
    pub(crate) third: CodeBand,
}

// The bands of a system that have columns.
fn bands_of_system(system: System) -> ShownBands
    ensures { result ≡ bands_of_system system }
{
    match system {
        System::Galileo => ShownBands {
            first: CodeBand::B1,
            second: CodeBand::B5,
            third: CodeBand::B7,
        },
        System::Beidou => ShownBands {
            first: CodeBand::B2,
            second: CodeBand::B6,
            third: CodeBand::B7,
        },
        _ => ShownBands {
            first: CodeBand::B1,
            second: CodeBand::B2,
            third: CodeBand::B5,
        },
    }
}

/// The system of these codes.
pub(crate) fn system_of_codes(codes: &[AnyCode]) -> System
    ensures { result ≡ system_of_codes codes.now }
{
    codes.get(0).copied().unwrap_or_default().system()
}

/// The bands that have columns, by the system of these codes.
pub(crate) fn shown_bands(codes: &[AnyCode]) -> ShownBands
    ensures { result ≡ shown_bands codes.now }
{
    bands_of_system(system_of_codes(codes))
}

/// The number of a band in the names of codes.
pub(crate) fn number_of(band: CodeBand) -> u64
    ensures { result ≡ number_of band }
{
    match band {
        CodeBand::B1 => 1,
        CodeBand::B2 => 2,
        CodeBand::B5 => 5,
        CodeBand::B6 => 6,
        CodeBand::B7 => 7,
        CodeBand::B8 => 8,
    }
}

impl BandStrengths {
    // Of no strength.
    fn none() -> BandStrengths
        ensures { result ≡ no_strengths }
    {
        BandStrengths { count: 0, sum: 0 }
    }

    // With one more, if it is there.
    fn with(self, strength: Option<u32>) -> BandStrengths
        ensures { result ≡ with_one self strength }
    {
        match strength {
            Some(strength) => BandStrengths {
                count: self.count.saturating_add(1),
                sum: self.sum.saturating_add(u64::from(strength)),
            },
            None => self,
        }
    }
}

impl Strengths {
    /// Of no record.
    pub(crate) fn none() -> Strengths
        ensures { result ≡ all_without }
    {
        let none = BandStrengths::none();
        Strengths {
            b1: none,
            b2: none,
            b5: none,
            b6: none,
            b7: none,
            b8: none,
        }
    }

    /// Those of a band.
    pub(crate) fn of(&self, band: CodeBand) -> BandStrengths
        ensures { result ≡ of_band band self.now }
    {
        match band {
            CodeBand::B1 => self.b1,
            CodeBand::B2 => self.b2,
            CodeBand::B5 => self.b5,
            CodeBand::B6 => self.b6,
            CodeBand::B7 => self.b7,
            CodeBand::B8 => self.b8,
        }
    }

    // Adds the strength of a band, if it is there.
    fn add(&mut self, band: CodeBand, strength: Option<u32>)
        ensures { self.new ≡ with_strength band strength self.old }
    {
        match band {
            CodeBand::B1 => self.b1 = self.b1.with(strength),
            CodeBand::B2 => self.b2 = self.b2.with(strength),
            CodeBand::B5 => self.b5 = self.b5.with(strength),
            CodeBand::B6 => self.b6 = self.b6.with(strength),
            CodeBand::B7 => self.b7 = self.b7.with(strength),
            CodeBand::B8 => self.b8 = self.b8.with(strength),
        }
    }

    // Adds the strengths of a satellite, whose codes these are.
    fn add_row(&mut self, codes: &[AnyCode], observed: &[Observed])
        ensures { self.new ≡ with_row codes.now observed.now self.old }
    {
        for place in 0..codes.len().min(observed.len()) {
            let band = band_of(codes[place]);
            self.add(band, observed[place].strength_millidbhz);
        }
    }

    /// Adds the strengths of the rows of a record.
    pub(crate) fn add_rows(&mut self, codes: &[AnyCode], rows: &[SatelliteRow])
        ensures { self.new ≡ with_rows codes.now rows.now self.old }
    {
        for row in rows {
            self.add_row(codes, row.observed.as_slice());
        }
    }
}
