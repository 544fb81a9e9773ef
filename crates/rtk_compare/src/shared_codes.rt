//! The codes that two files have both.

ghost use Rattle.std.specs.Prelude.{◌≡◌, ◌≤◌, ◌<◌, ◌+◌, ◌&&◌, ◌++◌, length, get_or};
ghost use Rattle.rtk_obs.specs.declared.any_code.AnyCode.{AnyCode};
ghost use Rattle.rtk_rinex.specs.MixedHeader.{codes_of};
ghost use Rattle.rtk_compare.specs.Codes.{place_in, with_places, shared_of, shared_codes};
ghost use Rattle.rtk_compare.specs.Steps.SharedCodes.{HasShared, codes_at};

use arrayvec::ArrayVec;
use rtk_message::System;
use rtk_obs::{AnyCode, SatelliteIndex, any_code_laws};
use rtk_rinex::MixedHead;

/// A code that both files list, and its place among the codes of its system in each.
#[derive(Clone, Copy, Debug, Default, PartialEq, Eq)]
pub(crate) struct SharedCode {
    pub(crate) code: AnyCode,
    pub(crate) old: usize,
    pub(crate) new: usize,
    /// Both files show Doppler shifts.
    pub(crate) shifts: bool,
}

/// The codes of a system that both files list.
type Shared = ArrayVec<SharedCode, 16>;

/// The codes that both files list, by system.
#[derive(Drop)]
pub(crate) struct SharedCodes {
    pub(crate) gps: Shared,
    pub(crate) glonass: Shared,
    pub(crate) galileo: Shared,
    pub(crate) beidou: Shared,
    pub(crate) qzss: Shared,
    pub(crate) sbas: Shared,
    pub(crate) navic: Shared,
}

// Returns the codes of the system of this letter.
fn codes_of(letter: u8, listed: &[AnyCode]) -> ArrayVec<AnyCode, 69>
    requires { length listed.now ≤ 69 }
    ensures value { result.items ≡ codes_of letter listed.now }
    ensures few { length result.items ≤ length listed.now }
{
    let mut codes = ArrayVec::new();
    for code in listed {
        if code.text()[0] == letter && codes.try_push(*code).is_err() {
            unreachable!();
        }
    }
    codes
}

// Returns the first place of a code in a list.
fn place_in(code: AnyCode, listed: &[AnyCode]) -> Option<usize>
    ensures { result ≡ place_in code listed.now }
{
    for place in 0..listed.len() {
        if listed[place].number() == code.number() {
            return Some(place);
        }
    }
    None
}

// Adds a code, if it has a place in the new list.
fn put_shared(shared: &mut Shared, shifts: bool, code: AnyCode, old: usize, new: Option<usize>)
    requires { length shared.old.items < 16 }
    ensures items { shared.new.items ≡ shared.old.items ++ with_places shifts code old new }
    ensures len { length shared.new.items ≤ length shared.old.items + 1 }
{
    if let Some(new) = new {
        shared.push(SharedCode {
            code,
            old,
            new,
            shifts,
        });
    }
}

// Returns the code at this place.
fn code_at(listed: &[AnyCode], place: usize) -> AnyCode
    requires { place < length listed.now }
    ensures { (d : AnyCode) → result ≡ get_or listed.now place d }
{
    listed[place]
}

// Returns the codes that both lists have. The files show both Doppler shifts, or not.
fn shared_of(shifts: bool, olds: &[AnyCode], news: &[AnyCode]) -> Shared
    requires { length olds.now ≤ 16 }
    ensures items { result.items ≡ shared_of shifts olds.now news.now }
    ensures few { length result.items ≤ 16 }
{
    let mut shared = ArrayVec::new();
    for old in 0..olds.len() {
        let code = code_at(olds, old);
        let new = place_in(code, news);
        put_shared(&mut shared, shifts, code, old, new);
    }
    shared
}

// Returns whether both files show Doppler shifts.
fn both_show_shifts(old: &MixedHead, new: &MixedHead) -> bool
    ensures { result ≡ (old.now.doppler && new.now.doppler) }
{
    old.has_doppler() && new.has_doppler()
}

// Returns the codes of the system of this letter that both heads list.
fn shared_in(letter: u8, old: &MixedHead, new: &MixedHead) -> Shared
    ensures items { result.items ≡ shared_of (old.now.doppler && new.now.doppler) (codes_of letter old.now.listed) (codes_of letter new.now.listed) }
    ensures few { length result.items ≤ 16 }
{
    // A law: a place belongs to one code of a system, and is below 16.
    any_code_laws();
    let olds = codes_of(letter, old.codes());
    let news = codes_of(letter, new.codes());
    let shifts = both_show_shifts(old, new);
    shared_of(shifts, olds.as_slice(), news.as_slice())
}

impl SharedCodes {
    /// Finds the codes that both heads list.
    pub(crate) fn of(old: &MixedHead, new: &MixedHead) -> SharedCodes
        ensures { HasShared result (shared_codes (old.now.doppler && new.now.doppler) old.now.listed new.now.listed) }
    {
        SharedCodes {
            gps: shared_in(b'G', old, new),
            glonass: shared_in(b'R', old, new),
            galileo: shared_in(b'E', old, new),
            beidou: shared_in(b'C', old, new),
            qzss: shared_in(b'J', old, new),
            sbas: shared_in(b'S', old, new),
            navic: shared_in(b'I', old, new),
        }
    }

    /// Returns the codes of the system of a satellite that both files list.
    pub(crate) fn of_satellite(&self, satellite: SatelliteIndex) -> &[SharedCode]
        ensures value { result.now ≡ codes_at self.now satellite }
        ensures few { length result.now ≤ 16 }
    {
        match satellite.system() {
            System::Gps => self.gps.as_slice(),
            System::Glonass => self.glonass.as_slice(),
            System::Galileo => self.galileo.as_slice(),
            System::Beidou => self.beidou.as_slice(),
            System::Qzss => self.qzss.as_slice(),
            System::Sbas => self.sbas.as_slice(),
            System::Navic => self.navic.as_slice(),
        }
    }
}
