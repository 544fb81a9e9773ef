//! The kinds of multiple signal messages (MSM) that are read, and the form of each.

ghost use Rattle.std.specs.Prelude.{◌≡◌, ◌≤◌};
ghost use Rattle.rtk_message.specs.Systems.{digit_of, number_of_kind, kind_of_digit};
ghost use Rattle.rtk_message.specs.MsmForm.{form_of, has_rates, if_rates, satellite_bits, cell_bits};

use crate::msm_type::MsmType;
use crate::system::System;

/// Which fields a multiple signal message has. Source: RTCM 10403.3, messages 1071 to 1137.
#[derive(Clone, Copy, Debug, Default, PartialEq, Eq)]
pub enum MsmKind {
    /// MSM4: ranges, phases and carrier-to-noise ratios.
    #[default]
    Msm4,
    /// MSM5: as MSM4, with range rates.
    Msm5,
    /// MSM6: as MSM4, with a higher resolution.
    Msm6,
    /// MSM7: as MSM6, with range rates.
    Msm7,
}

/// How many bits a field has, for the columns whose width depends on the kind.
///
/// All kinds have DF397 (8 bits), DF398 (10 bits) and DF420 (1 bit). The kinds with range rates have
/// extended satellite information (4 bits; GLONASS: DF419), DF399 (14 bits) and DF404 (15 bits).
/// Source: RTCM 10403.3, messages 1071 to 1137.
#[derive(Clone, Copy, Debug, PartialEq, Eq)]
pub(crate) struct MsmForm {
    /// Bits of the fine pseudorange (DF400 or DF405).
    pub fine_range: usize,
    /// Bits of the fine phase range (DF401 or DF406).
    pub fine_phase: usize,
    /// Bits of the lock time indicator (DF402 or DF407).
    pub lock_indicator: usize,
    /// Bits of the carrier-to-noise ratio (DF403 or DF408).
    pub cnr: usize,
}

impl MsmKind {
    /// Returns the message number (DF002) of this kind of GPS.
    pub fn number(self) -> u16
        ensures { result ≡ number_of_kind self }
    {
        let system = System::Gps;
        MsmType { system, kind: self }.number()
    }

    /// Returns the last digit of the message numbers (DF002) of this kind.
    pub(crate) fn digit(self) -> u16
        ensures value { result ≡ digit_of self }
        ensures few { result ≤ 7 }
    {
        match self {
            MsmKind::Msm4 => 4,
            MsmKind::Msm5 => 5,
            MsmKind::Msm6 => 6,
            MsmKind::Msm7 => 7,
        }
    }

    /// Returns the kind whose message numbers have this last digit.
    pub(crate) fn of_digit(digit: u16) -> Option<MsmKind>
        ensures { result ≡ kind_of_digit digit }
    {
        match digit {
            4 => Some(MsmKind::Msm4),
            5 => Some(MsmKind::Msm5),
            6 => Some(MsmKind::Msm6),
            7 => Some(MsmKind::Msm7),
            _ => None,
        }
    }

    /// Returns the widths of the fields.
    #[inline(always)]
    pub(crate) fn form(self) -> MsmForm
        ensures { result ≡ form_of self }
    {
        match self {
            MsmKind::Msm4 | MsmKind::Msm5 => MsmForm {
                fine_range: 15,
                fine_phase: 22,
                lock_indicator: 4,
                cnr: 6,
            },
            MsmKind::Msm6 | MsmKind::Msm7 => MsmForm {
                fine_range: 20,
                fine_phase: 24,
                lock_indicator: 10,
                cnr: 10,
            },
        }
    }

    /// Returns whether the messages of this kind have range rates (DF399, DF404).
    #[inline(always)]
    pub fn has_rates(self) -> bool
        ensures { result ≡ has_rates self }
    {
        match self {
            MsmKind::Msm4 | MsmKind::Msm6 => false,
            MsmKind::Msm5 | MsmKind::Msm7 => true,
        }
    }

    /// Returns this number for a kind with range rates, and 0 for another kind.
    #[inline(always)]
    pub(crate) fn if_rates(self, count: usize) -> usize
        ensures { result ≡ if_rates self count }
    {
        if self.has_rates() { count } else { 0 }
    }

    /// Returns how many bits a satellite has after the cell mask.
    #[inline(always)]
    pub(crate) fn satellite_bits(self) -> usize
        ensures value { result ≡ satellite_bits self }
        ensures few { result ≤ 36 }
    {
        match self {
            MsmKind::Msm4 | MsmKind::Msm6 => 18,
            MsmKind::Msm5 | MsmKind::Msm7 => 36,
        }
    }

    /// Returns how many bits a cell has after the cell mask.
    #[inline(always)]
    pub(crate) fn cell_bits(self) -> usize
        ensures value { result ≡ cell_bits self }
        ensures few { result ≤ 80 }
    {
        match self {
            MsmKind::Msm4 => 48,
            MsmKind::Msm5 => 63,
            MsmKind::Msm6 => 65,
            MsmKind::Msm7 => 80,
        }
    }
}
