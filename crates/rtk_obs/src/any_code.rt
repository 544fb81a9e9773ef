//! The observation codes of all systems.

ghost use Rattle.std.specs.Prelude.{◌≡◌, ◌≢◌, ◌<◌, MatchOption};
ghost use Rattle.rtk_obs.specs.declared.any_code.AnyCode.{AnyCode};
ghost use Rattle.rtk_message.specs.declared.system.System.TheVariants.{Gps};
ghost use Rattle.rtk_obs.specs.Code as gps;
ghost use Rattle.rtk_obs.specs.AnyCode.{system_of, place_of, name_of, carrier_of, text_of, number_of, signal_place, code_of_gps};

use crate::carrier::Carrier;
use crate::code::Code;
use crate::satellite_index::{SatelliteIndex, letter_of};
use rtk_message::System;

/// An observation code of any system: the letter of the system, band and attribute. Source: RINEX
/// 3.05, Tables 4 to 10.
#[derive(Clone, Copy, Debug, Default, PartialEq, Eq, Hash)]
pub enum AnyCode {
    /// GPS: C/A, on L1.
    #[default]
    G1C,
    /// GPS: P, on L1.
    G1P,
    /// GPS: P, by Z-tracking, on L1.
    G1W,
    /// GPS: L1C (D), on L1.
    G1S,
    /// GPS: L1C (P), on L1.
    G1L,
    /// GPS: L1C (D+P), on L1.
    G1X,
    /// GPS: C/A, on L2.
    G2C,
    /// GPS: L1 C/A and the difference of P2 and P1, semi-codeless, on L2.
    G2D,
    /// GPS: P, on L2.
    G2P,
    /// GPS: P, by Z-tracking, on L2.
    G2W,
    /// GPS: L2C (M), on L2.
    G2S,
    /// GPS: L2C (L), on L2.
    G2L,
    /// GPS: L2C (M+L), on L2.
    G2X,
    /// GPS: I, on L5.
    G5I,
    /// GPS: Q, on L5.
    G5Q,
    /// GPS: I+Q, on L5.
    G5X,
    /// GLONASS: C/A, on G1.
    R1C,
    /// GLONASS: P, on G1.
    R1P,
    /// GLONASS: C/A, on G2.
    R2C,
    /// GLONASS: P, on G2.
    R2P,
    /// Galileo: C, no data, on E1.
    E1C,
    /// Galileo: B, I/NAV, on E1.
    E1B,
    /// Galileo: B+C, on E1.
    E1X,
    /// Galileo: C, no data, on E6.
    E6C,
    /// Galileo: B, C/NAV, on E6.
    E6B,
    /// Galileo: B+C, on E6.
    E6X,
    /// Galileo: I, I/NAV, on E5b.
    E7I,
    /// Galileo: Q, no data, on E5b.
    E7Q,
    /// Galileo: I+Q, on E5b.
    E7X,
    /// Galileo: I, on E5.
    E8I,
    /// Galileo: Q, on E5.
    E8Q,
    /// Galileo: I+Q, on E5.
    E8X,
    /// Galileo: I, F/NAV, on E5a.
    E5I,
    /// Galileo: Q, no data, on E5a.
    E5Q,
    /// Galileo: I+Q, on E5a.
    E5X,
    /// BeiDou: I, on B1.
    C2I,
    /// BeiDou: Q, on B1.
    C2Q,
    /// BeiDou: I+Q, on B1.
    C2X,
    /// BeiDou: I, on B3.
    C6I,
    /// BeiDou: Q, on B3.
    C6Q,
    /// BeiDou: I+Q, on B3.
    C6X,
    /// BeiDou: I, on B2.
    C7I,
    /// BeiDou: Q, on B2.
    C7Q,
    /// BeiDou: I+Q, on B2.
    C7X,
    /// BeiDou: Data, on B2a.
    C5D,
    /// BeiDou: Pilot, on B2a.
    C5P,
    /// BeiDou: Data and pilot, on B2a.
    C5X,
    /// BeiDou: Data, on B2b.
    C7D,
    /// BeiDou: Data, on B1C.
    C1D,
    /// BeiDou: Pilot, on B1C.
    C1P,
    /// BeiDou: Data and pilot, on B1C.
    C1X,
    /// QZSS: C/A, on L1.
    J1C,
    /// QZSS: L6D, on L6.
    J6S,
    /// QZSS: L6P, on L6.
    J6L,
    /// QZSS: L6(D+P), on L6.
    J6X,
    /// QZSS: L2C (M), on L2.
    J2S,
    /// QZSS: L2C (L), on L2.
    J2L,
    /// QZSS: L2C (M+L), on L2.
    J2X,
    /// QZSS: I, on L5.
    J5I,
    /// QZSS: Q, on L5.
    J5Q,
    /// QZSS: I+Q, on L5.
    J5X,
    /// QZSS: L1C (D), on L1.
    J1S,
    /// QZSS: L1C (P), on L1.
    J1L,
    /// QZSS: L1C (D+P), on L1.
    J1X,
    /// SBAS: C/A, on L1.
    S1C,
    /// SBAS: I, on L5.
    S5I,
    /// SBAS: Q, on L5.
    S5Q,
    /// SBAS: I+Q, on L5.
    S5X,
    /// NavIC: A, SPS, on L5.
    I5A,
}

// The system of a code, its place, its band and attribute, and its carrier.
type CodeRow = (System, u8, [u8; 2], Carrier);

// The codes of all systems, in the order of the variants.
static ROWS: [CodeRow; 69] = [
    (System::Gps, 0, *b"1C", Carrier::L1),
    (System::Gps, 1, *b"1P", Carrier::L1),
    (System::Gps, 2, *b"1W", Carrier::L1),
    (System::Gps, 3, *b"1S", Carrier::L1),
    (System::Gps, 4, *b"1L", Carrier::L1),
    (System::Gps, 5, *b"1X", Carrier::L1),
    (System::Gps, 6, *b"2C", Carrier::L2),
    (System::Gps, 7, *b"2D", Carrier::L2),
    (System::Gps, 8, *b"2P", Carrier::L2),
    (System::Gps, 9, *b"2W", Carrier::L2),
    (System::Gps, 10, *b"2S", Carrier::L2),
    (System::Gps, 11, *b"2L", Carrier::L2),
    (System::Gps, 12, *b"2X", Carrier::L2),
    (System::Gps, 13, *b"5I", Carrier::L5),
    (System::Gps, 14, *b"5Q", Carrier::L5),
    (System::Gps, 15, *b"5X", Carrier::L5),
    (System::Glonass, 0, *b"1C", Carrier::G1),
    (System::Glonass, 1, *b"1P", Carrier::G1),
    (System::Glonass, 2, *b"2C", Carrier::G2),
    (System::Glonass, 3, *b"2P", Carrier::G2),
    (System::Galileo, 0, *b"1C", Carrier::L1),
    (System::Galileo, 1, *b"1B", Carrier::L1),
    (System::Galileo, 2, *b"1X", Carrier::L1),
    (System::Galileo, 3, *b"6C", Carrier::E6),
    (System::Galileo, 4, *b"6B", Carrier::E6),
    (System::Galileo, 5, *b"6X", Carrier::E6),
    (System::Galileo, 6, *b"7I", Carrier::E5b),
    (System::Galileo, 7, *b"7Q", Carrier::E5b),
    (System::Galileo, 8, *b"7X", Carrier::E5b),
    (System::Galileo, 9, *b"8I", Carrier::E5),
    (System::Galileo, 10, *b"8Q", Carrier::E5),
    (System::Galileo, 11, *b"8X", Carrier::E5),
    (System::Galileo, 12, *b"5I", Carrier::L5),
    (System::Galileo, 13, *b"5Q", Carrier::L5),
    (System::Galileo, 14, *b"5X", Carrier::L5),
    (System::Beidou, 0, *b"2I", Carrier::B1),
    (System::Beidou, 1, *b"2Q", Carrier::B1),
    (System::Beidou, 2, *b"2X", Carrier::B1),
    (System::Beidou, 3, *b"6I", Carrier::B3),
    (System::Beidou, 4, *b"6Q", Carrier::B3),
    (System::Beidou, 5, *b"6X", Carrier::B3),
    (System::Beidou, 6, *b"7I", Carrier::E5b),
    (System::Beidou, 7, *b"7Q", Carrier::E5b),
    (System::Beidou, 8, *b"7X", Carrier::E5b),
    (System::Beidou, 9, *b"5D", Carrier::L5),
    (System::Beidou, 10, *b"5P", Carrier::L5),
    (System::Beidou, 11, *b"5X", Carrier::L5),
    (System::Beidou, 12, *b"7D", Carrier::E5b),
    (System::Beidou, 13, *b"1D", Carrier::L1),
    (System::Beidou, 14, *b"1P", Carrier::L1),
    (System::Beidou, 15, *b"1X", Carrier::L1),
    (System::Qzss, 0, *b"1C", Carrier::L1),
    (System::Qzss, 1, *b"6S", Carrier::E6),
    (System::Qzss, 2, *b"6L", Carrier::E6),
    (System::Qzss, 3, *b"6X", Carrier::E6),
    (System::Qzss, 4, *b"2S", Carrier::L2),
    (System::Qzss, 5, *b"2L", Carrier::L2),
    (System::Qzss, 6, *b"2X", Carrier::L2),
    (System::Qzss, 7, *b"5I", Carrier::L5),
    (System::Qzss, 8, *b"5Q", Carrier::L5),
    (System::Qzss, 9, *b"5X", Carrier::L5),
    (System::Qzss, 10, *b"1S", Carrier::L1),
    (System::Qzss, 11, *b"1L", Carrier::L1),
    (System::Qzss, 12, *b"1X", Carrier::L1),
    (System::Sbas, 0, *b"1C", Carrier::L1),
    (System::Sbas, 1, *b"5I", Carrier::L5),
    (System::Sbas, 2, *b"5Q", Carrier::L5),
    (System::Sbas, 3, *b"5X", Carrier::L5),
    (System::Navic, 0, *b"5A", Carrier::L5),
];

/// The codes of all systems: system by system, in the order of their places.
pub const ALL_ANY_CODES: [AnyCode; 69] = [
    AnyCode::G1C,
    AnyCode::G1P,
    AnyCode::G1W,
    AnyCode::G1S,
    AnyCode::G1L,
    AnyCode::G1X,
    AnyCode::G2C,
    AnyCode::G2D,
    AnyCode::G2P,
    AnyCode::G2W,
    AnyCode::G2S,
    AnyCode::G2L,
    AnyCode::G2X,
    AnyCode::G5I,
    AnyCode::G5Q,
    AnyCode::G5X,
    AnyCode::R1C,
    AnyCode::R1P,
    AnyCode::R2C,
    AnyCode::R2P,
    AnyCode::E1C,
    AnyCode::E1B,
    AnyCode::E1X,
    AnyCode::E6C,
    AnyCode::E6B,
    AnyCode::E6X,
    AnyCode::E7I,
    AnyCode::E7Q,
    AnyCode::E7X,
    AnyCode::E8I,
    AnyCode::E8Q,
    AnyCode::E8X,
    AnyCode::E5I,
    AnyCode::E5Q,
    AnyCode::E5X,
    AnyCode::C2I,
    AnyCode::C2Q,
    AnyCode::C2X,
    AnyCode::C6I,
    AnyCode::C6Q,
    AnyCode::C6X,
    AnyCode::C7I,
    AnyCode::C7Q,
    AnyCode::C7X,
    AnyCode::C5D,
    AnyCode::C5P,
    AnyCode::C5X,
    AnyCode::C7D,
    AnyCode::C1D,
    AnyCode::C1P,
    AnyCode::C1X,
    AnyCode::J1C,
    AnyCode::J6S,
    AnyCode::J6L,
    AnyCode::J6X,
    AnyCode::J2S,
    AnyCode::J2L,
    AnyCode::J2X,
    AnyCode::J5I,
    AnyCode::J5Q,
    AnyCode::J5X,
    AnyCode::J1S,
    AnyCode::J1L,
    AnyCode::J1X,
    AnyCode::S1C,
    AnyCode::S5I,
    AnyCode::S5Q,
    AnyCode::S5X,
    AnyCode::I5A,
];

impl AnyCode {
    /// Returns the code of any system that a code of GPS is.
    pub fn of_gps(code: Code) -> AnyCode
        ensures code { result ≡ code_of_gps code }
        ensures system { system_of result ≡ Gps }
        ensures place { place_of result ≡ gps.place_of code }
        ensures name { name_of result ≡ gps.name_of code }
    {
        ALL_ANY_CODES[code.place()]
    }

    /// Returns the system.
    pub fn system(self) -> System
        ensures { result ≡ system_of self }
    {
        ROWS[self as usize].0
    }

    /// Returns the place of the code among those of its system, from 0.
    pub fn place(self) -> usize
        ensures value { result ≡ place_of self }
        ensures bound { result < 16 }
    {
        usize::from(ROWS[self as usize].1)
    }

    /// Returns the number of the code among those of all systems, from 0.
    pub fn number(self) -> usize
        ensures value { result ≡ number_of self }
        ensures bound { result < 69 }
    {
        self as usize
    }

    /// Returns the band and the attribute, as `Code::name` does for GPS.
    pub fn name(self) -> [u8; 2]
        ensures { result ≡ name_of self }
    {
        ROWS[self as usize].2
    }

    /// Returns the carrier.
    pub fn carrier(self) -> Carrier
        ensures { result ≡ carrier_of self }
    {
        ROWS[self as usize].3
    }

    /// Returns the letter of the system, the band and the attribute, as `E1X`.
    pub fn text(self) -> [u8; 3]
        ensures { result ≡ text_of self }
    {
        let [band, attribute] = self.name();
        [letter_of(self.system()), band, attribute]
    }

    /// Returns the code of this text, or `None` exactly if none of the 69 codes has it.
    pub fn from_text(text: &[u8]) -> Option<AnyCode>
        ensures { MatchOption result ((c : AnyCode) → text.now ≢ text_of c) (λ c. text.now ≡ text_of c) }
    {
        for code in &ALL_ANY_CODES {
            if code.text().as_slice() == text {
                return Some(*code);
            }
        }
        None
    }
}

/// Returns the place of a satellite and a code among those of all systems, from 0. If the codes are of
/// the systems of their satellites, no two of them have one place.
pub fn signal_place(satellite: SatelliteIndex, code: AnyCode) -> usize
    ensures value { result ≡ signal_place satellite code }
    ensures bound { result < 3536 }
{
    usize::from(satellite.index() - 1) * 16 + code.place()
}
