//! The signals of all systems and their codes.

ghost use Rattle.std.specs.Prelude.{◌≡◌};
ghost use Rattle.rtk_obs.specs.Signals.{gps_code, glonass_code, galileo_code, beidou_code, qzss_code, sbas_code, navic_code, code_in};

use crate::any_code::AnyCode;
use rtk_message::System;

// Returns the code of a signal of GPS.
fn gps_code(signal: u8) -> Option<AnyCode>
    ensures { result ≡ gps_code signal }
{
    match signal {
        2 => Some(AnyCode::G1C),
        3 => Some(AnyCode::G1P),
        4 => Some(AnyCode::G1W),
        8 => Some(AnyCode::G2C),
        9 => Some(AnyCode::G2P),
        10 => Some(AnyCode::G2W),
        15 => Some(AnyCode::G2S),
        16 => Some(AnyCode::G2L),
        17 => Some(AnyCode::G2X),
        22 => Some(AnyCode::G5I),
        23 => Some(AnyCode::G5Q),
        24 => Some(AnyCode::G5X),
        30 => Some(AnyCode::G1S),
        31 => Some(AnyCode::G1L),
        32 => Some(AnyCode::G1X),
        _ => None,
    }
}

// Returns the code of a signal of GLONASS.
fn glonass_code(signal: u8) -> Option<AnyCode>
    ensures { result ≡ glonass_code signal }
{
    match signal {
        2 => Some(AnyCode::R1C),
        3 => Some(AnyCode::R1P),
        8 => Some(AnyCode::R2C),
        9 => Some(AnyCode::R2P),
        _ => None,
    }
}

// Returns the code of a signal of Galileo.
fn galileo_code(signal: u8) -> Option<AnyCode>
    ensures { result ≡ galileo_code signal }
{
    match signal {
        2 => Some(AnyCode::E1C),
        4 => Some(AnyCode::E1B),
        5 => Some(AnyCode::E1X),
        8 => Some(AnyCode::E6C),
        10 => Some(AnyCode::E6B),
        11 => Some(AnyCode::E6X),
        14 => Some(AnyCode::E7I),
        15 => Some(AnyCode::E7Q),
        16 => Some(AnyCode::E7X),
        18 => Some(AnyCode::E8I),
        19 => Some(AnyCode::E8Q),
        20 => Some(AnyCode::E8X),
        22 => Some(AnyCode::E5I),
        23 => Some(AnyCode::E5Q),
        24 => Some(AnyCode::E5X),
        _ => None,
    }
}

// Returns the code of a signal of BeiDou.
fn beidou_code(signal: u8) -> Option<AnyCode>
    ensures { result ≡ beidou_code signal }
{
    match signal {
        2 => Some(AnyCode::C2I),
        3 => Some(AnyCode::C2Q),
        4 => Some(AnyCode::C2X),
        8 => Some(AnyCode::C6I),
        9 => Some(AnyCode::C6Q),
        10 => Some(AnyCode::C6X),
        14 => Some(AnyCode::C7I),
        15 => Some(AnyCode::C7Q),
        16 => Some(AnyCode::C7X),
        22 => Some(AnyCode::C5D),
        23 => Some(AnyCode::C5P),
        24 => Some(AnyCode::C5X),
        25 => Some(AnyCode::C7D),
        30 => Some(AnyCode::C1D),
        31 => Some(AnyCode::C1P),
        32 => Some(AnyCode::C1X),
        _ => None,
    }
}

// Returns the code of a signal of QZSS.
fn qzss_code(signal: u8) -> Option<AnyCode>
    ensures { result ≡ qzss_code signal }
{
    match signal {
        2 => Some(AnyCode::J1C),
        9 => Some(AnyCode::J6S),
        10 => Some(AnyCode::J6L),
        11 => Some(AnyCode::J6X),
        15 => Some(AnyCode::J2S),
        16 => Some(AnyCode::J2L),
        17 => Some(AnyCode::J2X),
        22 => Some(AnyCode::J5I),
        23 => Some(AnyCode::J5Q),
        24 => Some(AnyCode::J5X),
        30 => Some(AnyCode::J1S),
        31 => Some(AnyCode::J1L),
        32 => Some(AnyCode::J1X),
        _ => None,
    }
}

// Returns the code of a signal of SBAS.
fn sbas_code(signal: u8) -> Option<AnyCode>
    ensures { result ≡ sbas_code signal }
{
    match signal {
        2 => Some(AnyCode::S1C),
        22 => Some(AnyCode::S5I),
        23 => Some(AnyCode::S5Q),
        24 => Some(AnyCode::S5X),
        _ => None,
    }
}

// Returns the code of a signal of NavIC.
fn navic_code(signal: u8) -> Option<AnyCode>
    ensures { result ≡ navic_code signal }
{
    match signal {
        22 => Some(AnyCode::I5A),
        _ => None,
    }
}

/// Returns the code of a signal identifier (DF395), or `None` if the signal gives no cell.
pub fn code_of_signal(system: System, signal: u8) -> Option<AnyCode>
    ensures { result ≡ code_in system signal }
{
    match system {
        System::Gps => gps_code(signal),
        System::Glonass => glonass_code(signal),
        System::Galileo => galileo_code(signal),
        System::Beidou => beidou_code(signal),
        System::Qzss => qzss_code(signal),
        System::Sbas => sbas_code(signal),
        System::Navic => navic_code(signal),
    }
}
