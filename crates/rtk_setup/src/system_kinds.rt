//! The kind of MSM that is converted of each system.

ghost use Rattle.std.specs.Prelude.{◌≡◌};
ghost use Rattle.rtk_setup.specs.Setup.{all_of, kind_of, with_kind};

use rtk_message::{MsmKind, System};

/// The kind of multiple signal messages (MSM) that is converted of each system, if a code of it is listed.
#[derive(Clone, Copy, Debug, PartialEq, Eq)]
pub struct SystemKinds {
    /// One of 1074 to 1077.
    pub gps: MsmKind,
    /// One of 1084 to 1087.
    pub glonass: MsmKind,
    /// One of 1094 to 1097.
    pub galileo: MsmKind,
    /// One of 1124 to 1127.
    pub beidou: MsmKind,
    /// One of 1114 to 1117.
    pub qzss: MsmKind,
    /// One of 1104 to 1107.
    pub sbas: MsmKind,
    /// One of 1134 to 1137.
    pub navic: MsmKind,
}

impl SystemKinds {
    /// Returns the kinds if each system has this one.
    pub fn all(kind: MsmKind) -> SystemKinds
        ensures { result ≡ all_of kind }
    {
        SystemKinds {
            gps: kind,
            glonass: kind,
            galileo: kind,
            beidou: kind,
            qzss: kind,
            sbas: kind,
            navic: kind,
        }
    }

    /// Returns the kind of a system.
    pub fn kind(self, system: System) -> MsmKind
        ensures { result ≡ kind_of self system }
    {
        match system {
            System::Gps => self.gps,
            System::Glonass => self.glonass,
            System::Galileo => self.galileo,
            System::Beidou => self.beidou,
            System::Qzss => self.qzss,
            System::Sbas => self.sbas,
            System::Navic => self.navic,
        }
    }

    /// Returns these kinds, but for a system this one.
    pub fn with(self, system: System, kind: MsmKind) -> SystemKinds
        ensures { result ≡ with_kind self system kind }
    {
        match system {
            System::Gps => SystemKinds { gps: kind, ..self },
            System::Glonass => SystemKinds {
                glonass: kind,
                ..self
            },
            System::Galileo => SystemKinds {
                galileo: kind,
                ..self
            },
            System::Beidou => SystemKinds {
                beidou: kind,
                ..self
            },
            System::Qzss => SystemKinds { qzss: kind, ..self },
            System::Sbas => SystemKinds { sbas: kind, ..self },
            System::Navic => SystemKinds {
                navic: kind,
                ..self
            },
        }
    }
}
