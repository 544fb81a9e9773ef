//! A set of satellite systems.

ghost use Rattle.std.specs.Prelude.{◌≡◌};
ghost use Rattle.rtk_convert.specs.Systems.{no_systems, has_system, with_system};

use rtk_message::System;

/// A set of systems: those whose flag is set.
#[derive(Clone, Copy, Debug, PartialEq, Eq)]
pub(crate) struct Systems {
    pub(crate) gps: bool,
    pub(crate) glonass: bool,
    pub(crate) galileo: bool,
    pub(crate) beidou: bool,
    pub(crate) qzss: bool,
    pub(crate) sbas: bool,
    pub(crate) navic: bool,
}

impl Systems {
    /// The set without systems.
    pub(crate) const NONE: Systems = Systems {
        gps: false,
        glonass: false,
        galileo: false,
        beidou: false,
        qzss: false,
        sbas: false,
        navic: false,
    };

    /// Returns whether the set has this system.
    pub(crate) fn has(self, system: System) -> bool
        ensures { result ≡ has_system self system }
    {
        match system {
            System::Gps => self.gps,
            System::Glonass => self.glonass,
            System::Galileo => self.galileo,
            System::Beidou => self.beidou,
            System::Qzss => self.qzss,
            System::Sbas => self.sbas,
            System::Navic => self.navic,
        }
    }

    /// Puts a system into the set.
    pub(crate) fn put(&mut self, system: System)
        ensures { self.new ≡ with_system self.old system }
    {
        match system {
            System::Gps => self.gps = true,
            System::Glonass => self.glonass = true,
            System::Galileo => self.galileo = true,
            System::Beidou => self.beidou = true,
            System::Qzss => self.qzss = true,
            System::Sbas => self.sbas = true,
            System::Navic => self.navic = true,
        }
    }
}
