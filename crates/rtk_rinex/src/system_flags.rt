//! Sets of systems.

ghost use Rattle.std.specs.Prelude.{◌≡◌};
ghost use Rattle.rtk_rinex.specs.SystemFlags.{flag_of, in_both};

use rtk_message::System;

/// A set of systems: those whose flag is set.
#[derive(Clone, Copy, Debug, PartialEq, Eq)]
pub struct SystemFlags {
    /// GPS.
    pub gps: bool,
    /// GLONASS.
    pub glonass: bool,
    /// Galileo.
    pub galileo: bool,
    /// BeiDou.
    pub beidou: bool,
    /// QZSS.
    pub qzss: bool,
    /// SBAS.
    pub sbas: bool,
    /// NavIC.
    pub navic: bool,
}

impl SystemFlags {
    /// All systems.
    pub const ALL: SystemFlags = SystemFlags {
        gps: true,
        glonass: true,
        galileo: true,
        beidou: true,
        qzss: true,
        sbas: true,
        navic: true,
    };

    /// Is the system in the set?
    pub fn has(self, system: System) -> bool
        ensures { result ≡ flag_of self system }
    {
        match system {
            System::Gps => self.gps,
            System::Glonass => self.glonass,
            System::Galileo => self.galileo,
            System::Beidou => self.beidou,
            System::Qzss => self.qzss,
            System::Sbas => self.sbas,
            System::Navic => self.navic,
        }
    }

    /// The systems that are in both sets.
    pub fn both(self, other: SystemFlags) -> SystemFlags
        ensures { result ≡ in_both self other }
    {
        SystemFlags {
            gps: self.gps && other.gps,
            glonass: self.glonass && other.glonass,
            galileo: self.galileo && other.galileo,
            beidou: self.beidou && other.beidou,
            qzss: self.qzss && other.qzss,
            sbas: self.sbas && other.sbas,
            navic: self.navic && other.navic,
        }
    }
}
