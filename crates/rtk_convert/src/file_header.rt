//! The header of a file, whose leap seconds come with its first time.

ghost use Rattle.std.specs.Prelude.{◌≡◌, ◌≤◌, true, Some, IfOk};
ghost use Rattle.rtk_rinex.specs.Header.{position_view};
ghost use Rattle.rtk_rinex.specs.MixedHead.{has_glonass};
ghost use Rattle.rtk_convert.specs.File.{file_leap_seconds, head_at, header_at};

use rtk_obs::{GpsMs, Position, leap_seconds_at};
use rtk_rinex::{CreationTime, Glonass, Marker, MixedHead, mixed_header};
use rtk_setup::Setup;
use std::alloc::{AllocError, Global};

// Returns the leap seconds of a file with this first time.
fn file_leap_seconds(setup: &Setup, first: GpsMs) -> u8
    ensures value { result ≡ file_leap_seconds setup.now first }
    ensures bound { result ≤ 99 }
{
    match setup.leap_seconds() {
        Some(leap_seconds) => leap_seconds,
        None => leap_seconds_at(first),
    }
}

// Returns what a file with this first time tells of GLONASS.
fn told_at(setup: &Setup, first: GpsMs) -> Option<Glonass>
    ensures { result ≡ (head_at setup.now first).glonass }
{
    let told = setup.head().glonass()?;
    let leap_seconds = file_leap_seconds(setup, first);
    Glonass::new(told.channels(), leap_seconds)
}

// Returns a head that tells this of GLONASS, and is the same else.
fn head_with(head: &MixedHead, told: Glonass) -> MixedHead
    requires { has_glonass head.now.listed ≡ true }
    ensures { result ≡ record head.now { glonass = Some told } }
{
    let (Ok(marker), Ok(made)) = (Marker::new(head.marker()), CreationTime::new(head.made())) else {
        unreachable!()
    };
    let Ok(other) = MixedHead::new(marker, head.codes(), Some(told), made) else {
        unreachable!()
    };
    other.with_doppler_if(head.has_doppler())
}

/// Returns the header of the file of a setup, whose first record is at `first`.
///
/// A file of GLONASS tells the leap seconds of its first record, which are known only when it comes.
pub(crate) fn file_header(
    alloc: Global,
    setup: &Setup,
    position: &Position,
    first: GpsMs,
) -> Result<Vec<u8>, AllocError>
    ensures { IfOk result (λ text. text.items ≡ header_at setup.now (position_view position.now) first) }
{
    match told_at(setup, first) {
        Some(told) => {
            let head = head_with(setup.head(), told);
            mixed_header(alloc, &head, position, first)
        }
        None => mixed_header(alloc, setup.head(), position, first),
    }
}
