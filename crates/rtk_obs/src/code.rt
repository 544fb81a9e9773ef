//! Observation codes and the bands of their carriers.

ghost use Rattle.std.specs.Prelude.{◌≡◌, ◌≢◌, ◌%◌, ◌<◌, ◌≤◌, Option, Some, MatchOption};
ghost use Rattle.rtk_obs.specs.Code.{name_of};
ghost use Rattle.rtk_obs.specs.declared.code.Code.{Code};

/// The carrier of a signal of GPS. Source: RINEX 3.05, Table 4.
#[derive(Clone, Copy, Debug, Default, PartialEq, Eq, Hash)]
pub enum Band {
    /// 1,575.42 MHz.
    #[default]
    L1,
    /// 1,227.60 MHz.
    L2,
    /// 1,176.45 MHz.
    L5,
}

impl Band {
    ghost use Rattle.rtk_obs.specs.Code.{frequency_of};

    /// Returns the frequency of the carrier, in Hz.
    pub fn frequency(self) -> u32
        ensures value { result ≡ frequency_of self }
        ensures whole { result % 4 ≡ 0 }
    {
        match self {
            Band::L1 => 1_575_420_000,
            Band::L2 => 1_227_600_000,
            Band::L5 => 1_176_450_000,
        }
    }
}

/// An observation code of GPS: band and attribute. Source: RINEX 3.05, Table 4.
#[derive(Clone, Copy, Debug, Default, PartialEq, Eq, Hash)]
pub enum Code {
    /// C/A, on L1.
    #[default]
    G1C,
    /// P, on L1.
    G1P,
    /// P, by Z-tracking, on L1.
    G1W,
    /// L1C (D), on L1.
    G1S,
    /// L1C (P), on L1.
    G1L,
    /// L1C (D+P), on L1.
    G1X,
    /// C/A, on L2.
    G2C,
    /// L1 C/A and the difference of P2 and P1, semi-codeless, on L2.
    G2D,
    /// P, on L2.
    G2P,
    /// P, by Z-tracking, on L2.
    G2W,
    /// L2C (M), on L2.
    G2S,
    /// L2C (L), on L2.
    G2L,
    /// L2C (M+L), on L2.
    G2X,
    /// I, on L5.
    G5I,
    /// Q, on L5.
    G5Q,
    /// I+Q, on L5.
    G5X,
}

/// All codes, in the order of their places.
pub const ALL_CODES: [Code; 16] = [
    Code::G1C,
    Code::G1P,
    Code::G1W,
    Code::G1S,
    Code::G1L,
    Code::G1X,
    Code::G2C,
    Code::G2D,
    Code::G2P,
    Code::G2W,
    Code::G2S,
    Code::G2L,
    Code::G2X,
    Code::G5I,
    Code::G5Q,
    Code::G5X,
];

impl Code {
    ghost use Rattle.rtk_obs.specs.Code.{band_of, place_of};

    /// Returns the two characters of the code in RINEX: the band, then the attribute.
    pub fn name(self) -> [u8; 2]
        ensures { result ≡ name_of self }
    {
        match self {
            Code::G1C => *b"1C",
            Code::G1P => *b"1P",
            Code::G1W => *b"1W",
            Code::G1S => *b"1S",
            Code::G1L => *b"1L",
            Code::G1X => *b"1X",
            Code::G2C => *b"2C",
            Code::G2D => *b"2D",
            Code::G2P => *b"2P",
            Code::G2W => *b"2W",
            Code::G2S => *b"2S",
            Code::G2L => *b"2L",
            Code::G2X => *b"2X",
            Code::G5I => *b"5I",
            Code::G5Q => *b"5Q",
            Code::G5X => *b"5X",
        }
    }

    /// Returns the code of this name, or `None` exactly if none of the sixteen codes has it.
    pub fn from_name(name: &[u8]) -> Option<Code>
        ensures { MatchOption result ((c : Code) → name.now ≢ name_of c) (λ c. name.now ≡ name_of c) }
    {
        match name {
            b"1C" => Some(Code::G1C),
            b"1P" => Some(Code::G1P),
            b"1W" => Some(Code::G1W),
            b"1S" => Some(Code::G1S),
            b"1L" => Some(Code::G1L),
            b"1X" => Some(Code::G1X),
            b"2C" => Some(Code::G2C),
            b"2D" => Some(Code::G2D),
            b"2P" => Some(Code::G2P),
            b"2W" => Some(Code::G2W),
            b"2S" => Some(Code::G2S),
            b"2L" => Some(Code::G2L),
            b"2X" => Some(Code::G2X),
            b"5I" => Some(Code::G5I),
            b"5Q" => Some(Code::G5Q),
            b"5X" => Some(Code::G5X),
            _ => None,
        }
    }

    /// Returns the band, which is the first character of the name.
    pub fn band(self) -> Band
        ensures { result ≡ band_of self }
    {
        match self {
            Code::G1C | Code::G1P | Code::G1W | Code::G1S | Code::G1L | Code::G1X => Band::L1,
            Code::G5I | Code::G5Q | Code::G5X => Band::L5,
            _ => Band::L2,
        }
    }

    /// Returns the place of the code in `ALL_CODES`, from 0.
    pub fn place(self) -> usize
        ensures value { result ≡ place_of self }
        ensures bound { result < 16 }
    {
        self as usize
    }
}
