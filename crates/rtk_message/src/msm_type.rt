//! The types of multiple signal messages (MSM): a system and a kind, and the message number of both.

ghost use Rattle.std.specs.Prelude.{◌≡◌, ◌≢◌, IfSome, IfNone};
ghost use Rattle.rtk_message.specs.declared.msm_type.MsmType.{MsmType};
ghost use Rattle.rtk_message.specs.Systems.{number_of_type, type_of_number};
ghost use Rattle.rtk_message.specs.MsmForm.{IsWide};

use crate::msm_kind::MsmKind;
use crate::system::System;

/// A type of multiple signal message: MSM4 to MSM7 of a system. Source: RTCM 10403.3, messages 1074
/// to 1137.
#[derive(Clone, Copy, Debug, PartialEq, Eq)]
pub struct MsmType {
    /// The system of the satellites.
    pub system: System,
    /// Which fields the message has.
    pub kind: MsmKind,
}

impl MsmType {
    /// Returns the message number (DF002).
    pub fn number(self) -> u16
        ensures { result ≡ number_of_type self }
    {
        10 * self.system.tens() + self.kind.digit()
    }

    /// Returns the type of the messages of this number (DF002). It is `None` if no MSM4 to MSM7 has the
    /// number.
    pub fn of_number(number: u16) -> Option<MsmType>
        ensures { result ≡ type_of_number number }
    {
        let system = System::of_tens(number / 10)?;
        let kind = MsmKind::of_digit(number % 10)?;
        Some(MsmType { system, kind })
    }

    /// Returns the type of the messages of this number (DF002) that are read as an `Msm`. A 1074 is not,
    /// because it has a Rust type of its own.
    pub(crate) fn wide_of_number(number: u16) -> Option<MsmType>
        ensures some { IfSome result (λ t. IsWide t × (number ≡ number_of_type t)) }
        ensures none { IfNone result ((t : MsmType) → IsWide t → number ≢ number_of_type t) }
    {
        let kind = match number {
            1074 => return None,
            1075 => MsmKind::Msm5,
            1076 => MsmKind::Msm6,
            1077 => MsmKind::Msm7,
            _ => return MsmType::of_number(number),
        };
        let system = System::Gps;
        Some(MsmType { system, kind })
    }
}
