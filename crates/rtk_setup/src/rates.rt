//! The listed systems whose MSM tell no range rates. A file has Doppler shifts of range rates alone.

ghost use Rattle.std.specs.Prelude.{◌≡◌};
ghost use Rattle.rtk_setup.specs.Rates.{lacks_rates, lacking_or, first_without_rates, without_rates};

use crate::setup::lists_system;
use crate::system_kinds::SystemKinds;
use rtk_message::System;
use rtk_obs::AnyCode;

// Returns whether some code of a system is listed, and its MSM has no range rates.
fn lacks_rates(kinds: SystemKinds, listed: &[AnyCode], system: System) -> bool
    ensures { result ≡ lacks_rates kinds listed.now system }
{
    lists_system(listed, system) && !kinds.kind(system).has_rates()
}

// Returns this system, if it lacks range rates, or else this answer.
fn lacking_or(
    kinds: SystemKinds,
    listed: &[AnyCode],
    system: System,
    other: Option<System>,
) -> Option<System>
    ensures { result ≡ lacking_or kinds listed.now system other }
{
    if lacks_rates(kinds, listed, system) {
        Some(system)
    } else {
        other
    }
}

// Returns the first system, in the order of a file, of which some code is listed and whose MSM of these kinds has no
// range rates.
fn first_without_rates(kinds: SystemKinds, listed: &[AnyCode]) -> Option<System>
    ensures { result ≡ first_without_rates kinds listed.now }
{
    let navic = lacking_or(kinds, listed, System::Navic, None);
    let sbas = lacking_or(kinds, listed, System::Sbas, navic);
    let qzss = lacking_or(kinds, listed, System::Qzss, sbas);
    let beidou = lacking_or(kinds, listed, System::Beidou, qzss);
    let galileo = lacking_or(kinds, listed, System::Galileo, beidou);
    let glonass = lacking_or(kinds, listed, System::Glonass, galileo);
    lacking_or(kinds, listed, System::Gps, glonass)
}

/// Returns the first system, in the order of a file, of which a file has no Doppler shifts though they are asked for: some
/// code of it is listed, and its MSM of these kinds has no range rates. `None` if Doppler shifts are not asked for.
pub fn without_rates(is_asked: bool, kinds: SystemKinds, listed: &[AnyCode]) -> Option<System>
    ensures { result ≡ without_rates is_asked kinds listed.now }
{
    if is_asked {
        first_without_rates(kinds, listed)
    } else {
        None
    }
}
