//! What the rows of the satellites of a system have in common: the listed codes, and where each stands among them.

ghost use Rattle.std.specs.Prelude.{◌≡◌, ◌≢◌, ◌≤◌, ◌+◌, length, AllPairs, if◌then◌else◌};
ghost use Rattle.rtk_obs.specs.AnyCode.{place_of};
ghost use Rattle.rtk_obs.specs.SatelliteIndex.{IsSatelliteIndex, letter_of, satellites_before, satellites_of_system};
ghost use Rattle.rtk_rinex.specs.MixedHead.{IsMixedList};
ghost use Rattle.rtk_rinex.specs.MixedHeader.{codes_of};
ghost use Rattle.rtk_convert.specs.Steps.ShownCells.{AreCodesBefore, AreCodesFrom, AreCodesTo, AreColumns, ArePlaces};

use crate::file_entry::FileEntry;
use crate::row_lines::RowLines;
use rtk_message::System;
use rtk_obs::{AnyCode, GpsMs, SatelliteIndex};

// The greatest number of codes of a system.
const CODES: usize = 16;

// Returns where each code stands among the codes of a row, by its place among those of its system, or 16.
// A row has at most 16 codes, whose places are 0 to 15, so 16 is where none stands.
#[inline(always)]
fn columns_of(codes: &[AnyCode]) -> [u8; CODES]
    requires few { length codes.now ≤ 16 }
    requires distinct { AllPairs (λ a b. place_of a ≢ place_of b) codes.now }
    ensures { ArePlaces codes.now result }
{
    let mut columns = [16; CODES];
    for k in 0..codes.len() {
        columns[codes[k].place()] = k as u8;
    }
    columns
}

/// What the rows of the satellites of a system have in common.
#[derive(Clone, Copy)]
pub(crate) struct RowForm<'a> {
    pub(crate) epoch: GpsMs,
    /// The listed codes of the system.
    pub(crate) codes: &'a [AnyCode],
    /// How many of them are written without Doppler shifts: all, or none in a file that has shifts.
    pub(crate) plain: usize,
    /// Whether the file has Doppler shifts.
    pub(crate) doppler: bool,
    /// Where each code stands among them, or 16.
    pub(crate) columns: [u8; CODES],
    /// The last satellite of the system.
    pub(crate) last: u8,
}

// Returns the last satellite of a system.
fn last_satellite(system: System) -> u8
    ensures { result ≡ satellites_before system + satellites_of_system system }
{
    match system {
        System::Gps => 32,
        System::Glonass => 59,
        System::Galileo => 95,
        System::Beidou => 158,
        System::Qzss => 168,
        System::Sbas => 207,
        System::Navic => 221,
    }
}

// Returns how many of the first codes are not of a system, and are before its codes.
fn codes_before(listed: &[AnyCode], system: System) -> usize
    requires { IsMixedList listed.now }
    ensures { AreCodesBefore listed.now system result }
{
    for at in 0..listed.len() {
        if listed[at].system() == system {
            return at;
        }
    }
    listed.len()
}

// Returns where the codes of a system end that begin at a place.
fn codes_end(listed: &[AnyCode], system: System, begin: usize) -> usize
    requires { begin ≤ length listed.now }
    ensures { AreCodesFrom listed.now system begin result }
{
    for end in begin..listed.len() {
        if listed[end].system() == system {
            continue;
        }
        return end;
    }
    listed.len()
}

// Returns the codes of a system, which stand one after another. All codes are of the system if the first and the
// last one are, as in each file of one system.
#[inline(always)]
fn codes_of(listed: &[AnyCode], system: System) -> &[AnyCode]
    requires { IsMixedList listed.now }
    ensures { result.now ≡ codes_of (letter_of system) listed.now }
{
    let first = listed[0].system();
    let last = listed[listed.len() - 1].system();
    if first == system && last == system {
        return listed;
    }
    let begin = codes_before(listed, system);
    let end = codes_end(listed, system, begin);
    &listed[begin..end]
}

// Returns how many of these codes are written without Doppler shifts: all, or none in a file that has shifts.
fn plain_codes(doppler: bool, codes: &[AnyCode]) -> usize
    ensures { result ≡ (if doppler then 0 else length codes.now) }
{
    if doppler { 0 } else { codes.len() }
}

/// Returns what the rows from this satellite on have in common, up to the last one of its system, in a file with
/// Doppler shifts or without them. It is inlined, since an epoch begins with the first satellite, of which much is
/// known beforehand.
#[inline(always)]
pub(crate) fn form_from(
    epoch: GpsMs,
    doppler: bool,
    listed: &[AnyCode],
    satellite: u8,
) -> RowForm<'_>
    requires listed { IsMixedList listed.now }
    requires satellite { IsSatelliteIndex satellite }
    ensures epoch { result.epoch ≡ epoch }
    ensures doppler { result.doppler ≡ doppler }
    ensures codes { AreCodesTo listed.now satellite result.last result.codes.now }
    ensures columns { AreColumns result.doppler result.plain result.codes.now result.columns }
    ensures last { (satellite ≤ result.last) × (result.last ≤ 221) }
    ensures least { 32 ≤ result.last }
{
    let Some(index) = SatelliteIndex::new(satellite) else {
        unreachable!()
    };
    let system = index.system();
    let codes = codes_of(listed, system);
    RowForm {
        epoch,
        codes,
        plain: plain_codes(doppler, codes),
        doppler,
        columns: columns_of(codes),
        last: last_satellite(system),
    }
}

/// Makes the form anew for the row of a satellite that is behind the last one of the form's system. There is a
/// row for each satellite of each epoch, so no copy is made of a form that stays, and where all rows are of GPS
/// nothing is asked.
#[inline(always)]
pub(crate) fn renew_form<'a, E: FileEntry>(
    form: &mut RowForm<'a>,
    listed: &'a [AnyCode],
    satellite: u8,
)
    requires listed { IsMixedList listed.now }
    requires satellite { IsSatelliteIndex satellite }
    requires within { satellite ≤ E.Lines.greatest }
    requires codes { satellite ≤ form.old.last → AreCodesTo listed.now satellite form.old.last form.old.codes.now }
    requires columns { AreColumns form.old.doppler form.old.plain form.old.codes.now form.old.columns }
    requires last { form.old.last ≤ 221 }
    requires least { 32 ≤ form.old.last }
    ensures epoch { form.new.epoch ≡ form.old.epoch }
    ensures doppler { form.new.doppler ≡ form.old.doppler }
    ensures codes { AreCodesTo listed.now satellite form.new.last form.new.codes.now }
    ensures columns { AreColumns form.new.doppler form.new.plain form.new.codes.now form.new.columns }
    ensures last { (satellite ≤ form.new.last) × (form.new.last ≤ 221) }
    ensures least { 32 ≤ form.new.last }
{
    if E::Lines::has_gps_alone() {
        return;
    }
    if satellite > form.last {
        *form = form_from(form.epoch, form.doppler, listed, satellite);
    }
}
