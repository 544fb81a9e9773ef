//! Which messages are read.

ghost use Rattle.std.specs.Prelude.{◌≡◌};
ghost use Rattle.rtk_message.specs.Accepted.{only_kind, takes_kind, with_kind, only, kinds_of, takes, takes_some, with_type, with_1012, accepts};
ghost use Rattle.rtk_message.specs.Systems.{type_of_number};

use crate::msm_kind::MsmKind;
use crate::msm_type::MsmType;
use crate::system::System;

/// The kinds of multiple signal messages (MSM) of one system that are read: those whose flag is set.
#[derive(Clone, Copy, Debug, PartialEq, Eq)]
pub struct MsmKinds {
    /// Whether MSM4 is read.
    pub msm4: bool,
    /// Whether MSM5 is read.
    pub msm5: bool,
    /// Whether MSM6 is read.
    pub msm6: bool,
    /// Whether MSM7 is read.
    pub msm7: bool,
}

impl MsmKinds {
    /// No kind.
    pub const NONE: MsmKinds = MsmKinds {
        msm4: false,
        msm5: false,
        msm6: false,
        msm7: false,
    };

    /// All kinds.
    pub const ALL: MsmKinds = MsmKinds {
        msm4: true,
        msm5: true,
        msm6: true,
        msm7: true,
    };

    /// Makes the set of this kind alone.
    pub fn only(kind: MsmKind) -> MsmKinds
        ensures { result ≡ only_kind kind }
    {
        MsmKinds {
            msm4: matches!(kind, MsmKind::Msm4),
            msm5: matches!(kind, MsmKind::Msm5),
            msm6: matches!(kind, MsmKind::Msm6),
            msm7: matches!(kind, MsmKind::Msm7),
        }
    }

    /// Returns whether this kind is read.
    pub fn takes(self, kind: MsmKind) -> bool
        ensures { result ≡ takes_kind self kind }
    {
        match kind {
            MsmKind::Msm4 => self.msm4,
            MsmKind::Msm5 => self.msm5,
            MsmKind::Msm6 => self.msm6,
            MsmKind::Msm7 => self.msm7,
        }
    }

    /// Makes the set of these kinds and this one.
    pub fn with(self, kind: MsmKind) -> MsmKinds
        ensures { result ≡ with_kind self kind }
    {
        match kind {
            MsmKind::Msm4 => MsmKinds { msm4: true, ..self },
            MsmKind::Msm5 => MsmKinds { msm5: true, ..self },
            MsmKind::Msm6 => MsmKinds { msm6: true, ..self },
            MsmKind::Msm7 => MsmKinds { msm7: true, ..self },
        }
    }
}

/// The set of messages that are read. These are 1004, 1005 and 1006, of each system the MSM of these
/// kinds, and 1012 if its flag is set.
#[derive(Clone, Copy, Debug, PartialEq, Eq)]
pub struct Accepted {
    /// 1074 to 1077.
    pub gps: MsmKinds,
    /// 1084 to 1087.
    pub glonass: MsmKinds,
    /// 1094 to 1097.
    pub galileo: MsmKinds,
    /// 1124 to 1127.
    pub beidou: MsmKinds,
    /// 1114 to 1117.
    pub qzss: MsmKinds,
    /// 1104 to 1107.
    pub sbas: MsmKinds,
    /// 1134 to 1137.
    pub navic: MsmKinds,
    /// Whether 1012 is read, which tells no day, and so an MSM of GLONASS whose day is unknown (DF416 7).
    pub obs1012: bool,
}

impl Accepted {
    /// The set of 1004, 1005 and 1006. It has no MSM and no 1012.
    pub const NO_MSM: Accepted = Accepted {
        gps: MsmKinds::NONE,
        glonass: MsmKinds::NONE,
        galileo: MsmKinds::NONE,
        beidou: MsmKinds::NONE,
        qzss: MsmKinds::NONE,
        sbas: MsmKinds::NONE,
        navic: MsmKinds::NONE,
        obs1012: false,
    };

    /// The set of 1004, 1005, 1006 and 1074, which `decode` reads.
    pub const FOUR: Accepted = Accepted {
        gps: MsmKinds {
            msm4: true,
            ..MsmKinds::NONE
        },
        ..Accepted::NO_MSM
    };

    /// The set of 1004, 1005, 1006 and 1074 to 1077, which are the messages of GPS.
    pub const GPS: Accepted = Accepted {
        gps: MsmKinds::ALL,
        ..Accepted::NO_MSM
    };

    /// The set of 1004, 1005, 1006, and MSM4 to MSM7 of all systems. It has no 1012.
    pub const ALL: Accepted = Accepted {
        gps: MsmKinds::ALL,
        glonass: MsmKinds::ALL,
        galileo: MsmKinds::ALL,
        beidou: MsmKinds::ALL,
        qzss: MsmKinds::ALL,
        sbas: MsmKinds::ALL,
        navic: MsmKinds::ALL,
        obs1012: false,
    };

    /// Returns the set of 1004, 1005, 1006 and the MSM of GPS of this kind.
    pub fn only(kind: MsmKind) -> Accepted
        ensures { result ≡ only kind }
    {
        Accepted {
            gps: MsmKinds::only(kind),
            ..Accepted::NO_MSM
        }
    }

    /// Returns the set of these messages and the MSM of this type.
    pub fn with(self, msm_type: MsmType) -> Accepted
        ensures { result ≡ with_type self msm_type }
    {
        let kinds = self.kinds(msm_type.system).with(msm_type.kind);
        match msm_type.system {
            System::Gps => Accepted { gps: kinds, ..self },
            System::Glonass => Accepted {
                glonass: kinds,
                ..self
            },
            System::Galileo => Accepted {
                galileo: kinds,
                ..self
            },
            System::Beidou => Accepted {
                beidou: kinds,
                ..self
            },
            System::Qzss => Accepted {
                qzss: kinds,
                ..self
            },
            System::Sbas => Accepted {
                sbas: kinds,
                ..self
            },
            System::Navic => Accepted {
                navic: kinds,
                ..self
            },
        }
    }

    /// Returns the set of these messages and 1012.
    pub fn with_1012(self) -> Accepted
        ensures { result ≡ with_1012 self }
    {
        Accepted {
            obs1012: true,
            ..self
        }
    }

    /// Returns the kinds of MSM of a system that are read.
    pub fn kinds(self, system: System) -> MsmKinds
        ensures { result ≡ kinds_of self system }
    {
        match system {
            System::Gps => self.gps,
            System::Glonass => self.glonass,
            System::Galileo => self.galileo,
            System::Beidou => self.beidou,
            System::Qzss => self.qzss,
            System::Sbas => self.sbas,
            System::Navic => self.navic,
        }
    }

    /// Returns whether the MSM of this type are read.
    pub fn takes(self, msm_type: MsmType) -> bool
        ensures { result ≡ takes self msm_type }
    {
        self.kinds(msm_type.system).takes(msm_type.kind)
    }

    /// Returns whether a message of this number (DF002) is read.
    pub fn accepts(self, number: u16) -> bool
        ensures { result ≡ accepts self number }
    {
        // The numbers of GPS are told first: most messages have one.
        match number {
            1004 | 1005 | 1006 => true,
            1074 => self.gps.msm4,
            1075 => self.gps.msm5,
            1076 => self.gps.msm6,
            1077 => self.gps.msm7,
            1012 => self.obs1012,
            _ => self.takes_number(number),
        }
    }

    // Returns whether a message of this number is an MSM that is read. It is not inlined, so that the
    // numbers of GPS are told by little code.
    #[inline(never)]
    fn takes_number(self, number: u16) -> bool
        ensures { result ≡ takes_some self (type_of_number number) }
    {
        match MsmType::of_number(number) {
            Some(msm_type) => self.takes(msm_type),
            None => false,
        }
    }
}
