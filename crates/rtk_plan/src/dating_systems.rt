//! The systems that date captures, by what words say.

ghost use Rattle.std.specs.Prelude.{◌≡◌};
ghost use Rattle.rtk_setup.specs.Setup.{lists_system};
ghost use Rattle.rtk_systems.specs.SystemFlags as spec;

use crate::wanted::Wanted;
use rtk_message::System;
use rtk_obs::AnyCode;
use rtk_rinex::SystemFlags;
use rtk_survey::DatingSystems;

fn lists_code(listed: &[AnyCode], system: System) -> bool
    ensures { result ≡ lists_system listed.now system }
{
    for code in listed {
        if code.system() == system {
            return true;
        }
    }
    false
}

// The systems of which a code is listed.
fn flags_listed(listed: &[AnyCode]) -> SystemFlags
    ensures { result ≡ spec.flags_listed listed.now }
{
    SystemFlags {
        gps: lists_code(listed, System::Gps),
        glonass: lists_code(listed, System::Glonass),
        galileo: lists_code(listed, System::Galileo),
        beidou: lists_code(listed, System::Beidou),
        qzss: lists_code(listed, System::Qzss),
        sbas: lists_code(listed, System::Sbas),
        navic: lists_code(listed, System::Navic),
    }
}

fn has_some_dating(systems: SystemFlags) -> bool
    ensures { result ≡ spec.has_some_dating systems }
{
    systems.gps || systems.galileo || systems.qzss || systems.sbas || systems.navic
}

fn dating_of(systems: SystemFlags) -> DatingSystems
    ensures { result ≡ spec.dating_of systems }
{
    if has_some_dating(systems) {
        DatingSystems {
            gps: systems.gps,
            galileo: systems.galileo,
            qzss: systems.qzss,
            sbas: systems.sbas,
            navic: systems.navic,
        }
    } else {
        DatingSystems::all()
    }
}

/// The systems that date captures: those that words ask for, as far as they can date. If none of them can, all that can
/// do.
pub fn dating_wanted(wanted: &Wanted) -> DatingSystems
    ensures { result ≡ spec.dating_wanted wanted.now.codes wanted.now.systems }
{
    match &wanted.codes {
        Some(codes) => dating_of(flags_listed(codes.as_slice())),
        None => dating_of(wanted.systems),
    }
}
