//! The lines that follow a fault line and say how codes are written.

ghost use Rattle.std.specs.Prelude.{◌≡◌};
ghost use Rattle.rtk_cli.specs.CodeLines.{codes_line, short_code_line};

use rtk_message::System;
use rtk_obs::Code;

/// The line with the codes of a system.
pub(crate) fn codes_line(system: System) -> &'static str
    ensures { result.now ≡ codes_line system }
{
    match system {
        System::Gps => "codes of G: 1C 1P 1W 1S 1L 1X 2C 2D 2P 2W 2S 2L 2X 5I 5Q 5X",
        System::Glonass => "codes of R: 1C 1P 2C 2P",
        System::Galileo => "codes of E: 1C 1B 1X 6C 6B 6X 7I 7Q 7X 8I 8Q 8X 5I 5Q 5X",
        System::Beidou => "codes of C: 2I 2Q 2X 6I 6Q 6X 7I 7Q 7X 5D 5P 5X 7D 1D 1P 1X",
        System::Qzss => "codes of J: 1C 6S 6L 6X 2S 2L 2X 5I 5Q 5X 1S 1L 1X",
        System::Sbas => "codes of S: 1C 5I 5Q 5X",
        System::Navic => "codes of I: 5A",
    }
}

/// The line that a code of GPS has two characters.
pub(crate) fn short_code_line(code: Code) -> &'static str
    ensures { result.now ≡ short_code_line code }
{
    match code {
        Code::G1C => "GPS codes have two characters: 1C",
        Code::G1P => "GPS codes have two characters: 1P",
        Code::G1W => "GPS codes have two characters: 1W",
        Code::G1S => "GPS codes have two characters: 1S",
        Code::G1L => "GPS codes have two characters: 1L",
        Code::G1X => "GPS codes have two characters: 1X",
        Code::G2C => "GPS codes have two characters: 2C",
        Code::G2D => "GPS codes have two characters: 2D",
        Code::G2P => "GPS codes have two characters: 2P",
        Code::G2W => "GPS codes have two characters: 2W",
        Code::G2S => "GPS codes have two characters: 2S",
        Code::G2L => "GPS codes have two characters: 2L",
        Code::G2X => "GPS codes have two characters: 2X",
        Code::G5I => "GPS codes have two characters: 5I",
        Code::G5Q => "GPS codes have two characters: 5Q",
        Code::G5X => "GPS codes have two characters: 5X",
    }
}
