//! The kinds of MSM of systems, of which some have a listed code.

ghost use Rattle.std.specs.Prelude.{◌≡◌, ◌++◌, flat_map, OnOk};
ghost use Rattle.rtk_survey.specs.SummaryText.{msm_option};
ghost use Rattle.rtk_systems.specs.SystemMsms as spec;

use rtk_message::{MsmKind, System};
use rtk_obs::{AnyCode, letter_of};
use rtk_setup::{Setup, SystemKinds};
use std::alloc::AllocError;

/// The systems, in the order of a file.
pub(crate) const SYSTEMS: [System; 7] = [
    System::Gps,
    System::Glonass,
    System::Galileo,
    System::Beidou,
    System::Qzss,
    System::Sbas,
    System::Navic,
];

// ---- systems without a listed code

fn first_listed(listed: &[AnyCode]) -> Option<AnyCode>
    ensures { result ≡ spec.first_listed listed.now }
{
    listed.first().copied()
}

fn kind_of_first(kinds: SystemKinds, first: Option<AnyCode>) -> MsmKind
    ensures { result ≡ spec.kind_of_first kinds first }
{
    match first {
        Some(code) => kinds.kind(code.system()),
        None => kinds.gps,
    }
}

/// The kind of the system of the first listed code.
pub(crate) fn first_kind(kinds: SystemKinds, listed: &[AnyCode]) -> MsmKind
    ensures { result ≡ spec.first_kind kinds listed.now }
{
    kind_of_first(kinds, first_listed(listed))
}

// The kind of a system, or this one if no code of it is listed.
fn kind_or(setup: &Setup, kinds: SystemKinds, first: MsmKind, system: System) -> MsmKind
    ensures { result ≡ spec.kind_or kinds setup.now.head.listed first system }
{
    if setup.lists(system) {
        kinds.kind(system)
    } else {
        first
    }
}

// These kinds, but this one for systems without a listed code.
fn kinds_or(setup: &Setup, kinds: SystemKinds, first: MsmKind) -> SystemKinds
    ensures { result ≡ spec.kinds_or kinds setup.now.head.listed first }
{
    SystemKinds {
        gps: kind_or(setup, kinds, first, System::Gps),
        glonass: kind_or(setup, kinds, first, System::Glonass),
        galileo: kind_or(setup, kinds, first, System::Galileo),
        beidou: kind_or(setup, kinds, first, System::Beidou),
        qzss: kind_or(setup, kinds, first, System::Qzss),
        sbas: kind_or(setup, kinds, first, System::Sbas),
        navic: kind_or(setup, kinds, first, System::Navic),
    }
}

/// These kinds, but for systems without a listed code that of the first one that has.
pub fn kinds_listed(setup: &Setup, kinds: SystemKinds) -> SystemKinds
    ensures { result ≡ spec.kinds_listed kinds setup.now.head.listed }
{
    kinds_or(setup, kinds, first_kind(kinds, setup.head().codes()))
}

// ---- the option that names them

fn kind_digit(kind: MsmKind) -> u8
    ensures { result ≡ spec.kind_digit kind }
{
    match kind {
        MsmKind::Msm4 => b'4',
        MsmKind::Msm5 => b'5',
        MsmKind::Msm6 => b'6',
        MsmKind::Msm7 => b'7',
    }
}

// The option that names an MSM of all systems.
fn msm_option(msm: MsmKind) -> &'static [u8]
    ensures { result.now ≡ msm_option msm }
{
    match msm {
        MsmKind::Msm4 => b"",
        MsmKind::Msm5 => b" --msm 5",
        MsmKind::Msm6 => b" --msm 6",
        MsmKind::Msm7 => b" --msm 7",
    }
}

// Is the kind another one than the first?
fn is_exception(first: MsmKind, kind: MsmKind) -> bool
    ensures { result ≡ spec.is_exception first kind }
{
    kind_digit(kind) != kind_digit(first)
}

// Has a system another kind than the first?
fn is_exception_of(first: MsmKind, kinds: SystemKinds, system: System) -> bool
    ensures { result ≡ spec.is_exception_of first kinds system }
{
    is_exception(first, kinds.kind(system))
}

// Has some system another kind than the first?
fn has_exception(first: MsmKind, kinds: SystemKinds) -> bool
    ensures { result ≡ spec.has_exception first kinds }
{
    SYSTEMS
        .iter()
        .any(|system| is_exception_of(first, kinds, *system))
}

// Appends the kind of a system, if it is an exception.
fn put_exception(
    line: &mut Vec<u8>,
    first: MsmKind,
    system: System,
    kind: MsmKind,
) -> Result<(), AllocError>
    ensures { OnOk result (line.new.items ≡ line.old.items ++ spec.exception_text first system kind) }
{
    if !is_exception(first, kind) {
        return Ok(());
    }
    line.push(b',')?;
    line.push(letter_of(system))?;
    line.push(kind_digit(kind))?;
    Ok(())
}

// Appends the kind of a system among these, if it is an exception.
fn put_exception_of(
    line: &mut Vec<u8>,
    first: MsmKind,
    kinds: SystemKinds,
    system: System,
) -> Result<(), AllocError>
    ensures { OnOk result (line.new.items ≡ line.old.items ++ spec.exception_text_of first kinds system) }
{
    put_exception(line, first, system, kinds.kind(system))?;
    Ok(())
}

// Appends the exceptions among some systems.
fn put_exceptions_among(
    line: &mut Vec<u8>,
    first: MsmKind,
    kinds: SystemKinds,
    systems: &[System],
) -> Result<(), AllocError>
    ensures { OnOk result (line.new.items ≡ line.old.items ++ flat_map (spec.exception_text_of first kinds) systems.now) }
{
    for system in systems {
        put_exception_of(line, first, kinds, *system)?;
    }
    Ok(())
}

// Appends the exceptions.
fn put_exceptions(line: &mut Vec<u8>, first: MsmKind, kinds: SystemKinds) -> Result<(), AllocError>
    ensures { OnOk result (line.new.items ≡ line.old.items ++ spec.exceptions_text first kinds) }
{
    put_exceptions_among(line, first, kinds, &SYSTEMS)
}

// Appends the option of the first kind and the exceptions.
fn put_first_and_exceptions(
    line: &mut Vec<u8>,
    first: MsmKind,
    kinds: SystemKinds,
) -> Result<(), AllocError>
    ensures { OnOk result (line.new.items ≡ line.old.items ++ spec.first_and_exceptions first kinds) }
{
    line.extend_from_slice(b" --msm ")?;
    line.push(kind_digit(first))?;
    put_exceptions(line, first, kinds)
}

// Appends the option of kinds, of which this is the first.
fn put_msm_option(line: &mut Vec<u8>, first: MsmKind, kinds: SystemKinds) -> Result<(), AllocError>
    ensures { OnOk result (line.new.items ≡ line.old.items ++ spec.msm_option_text first kinds) }
{
    if has_exception(first, kinds) {
        put_first_and_exceptions(line, first, kinds)
    } else {
        line.extend_from_slice(msm_option(first))
    }
}

/// Appends the option that names the kinds of a conversion with these codes.
#[tactic(auto, unfolding(crate::specs::SystemMsms::kinds_words))]
pub fn put_kinds_words(
    line: &mut Vec<u8>,
    kinds: SystemKinds,
    listed: &[AnyCode],
) -> Result<(), AllocError>
    ensures { OnOk result (line.new.items ≡ line.old.items ++ spec.kinds_words kinds listed.now) }
{
    put_msm_option(line, first_kind(kinds, listed), kinds)?;
    Ok(())
}
