//! The systems of which codes are listed.

ghost use Rattle.std.specs.Prelude.{◌≡◌};
ghost use Rattle.rtk_systems.specs.SystemFlags as spec;

use rtk_message::System;
use rtk_rinex::SystemFlags;
use rtk_setup::Setup;

/// The systems of which a code is listed in a setup.
pub fn flags_listed(setup: &Setup) -> SystemFlags
    ensures { result ≡ spec.flags_listed setup.now.head.listed }
{
    SystemFlags {
        gps: setup.lists(System::Gps),
        glonass: setup.lists(System::Glonass),
        galileo: setup.lists(System::Galileo),
        beidou: setup.lists(System::Beidou),
        qzss: setup.lists(System::Qzss),
        sbas: setup.lists(System::Sbas),
        navic: setup.lists(System::Navic),
    }
}
