//! The header of a file with some of its systems alone.

ghost use Rattle.std.specs.Prelude.{◌≡◌, ◌≢◌, ◌≤◌, [], length, IfSome, MatchOption};
ghost use Rattle.rtk_rinex.specs.MixedHead.{TellsGlonass};
ghost use Rattle.rtk_rinex.specs.MixedTable.{MixedTable, IsMixedTable, mixed_table_text};
ghost use Rattle.rtk_cut.specs.KeptSystems.{kept_codes, kept_glonass, kept_head, has_code_of, is_absent, first_absent};

use arrayvec::ArrayVec;
use rtk_message::System;
use rtk_obs::AnyCode;
use rtk_rinex::{CreationTime, Glonass, Marker, MixedHead, MixedTextTable, SystemFlags};

// The codes of these systems, in their order.
fn kept_codes(kept: SystemFlags, listed: &[AnyCode]) -> ArrayVec<AnyCode, 69>
    requires { length listed.now ≤ 69 }
    ensures value { result.items ≡ kept_codes kept listed.now }
    ensures few { length result.items ≤ length listed.now }
{
    let mut codes = ArrayVec::new();
    for code in listed {
        if kept.has(code.system()) && codes.try_push(*code).is_err() {
            unreachable!();
        }
    }
    codes
}

// What a head tells of GLONASS, if GLONASS is kept.
fn kept_glonass(kept: SystemFlags, head: &MixedHead) -> Option<Glonass>
    ensures value { result ≡ kept_glonass kept head.now.glonass }
    ensures due { TellsGlonass head.now.listed head.now.glonass }
{
    let told = head.glonass();
    if kept.glonass { told } else { None }
}

/// A head with the codes of these systems alone; `None` if there is no such code.
pub(crate) fn kept_head(kept: SystemFlags, head: &MixedHead) -> Option<MixedHead>
    ensures head { MatchOption result (kept_codes kept head.now.listed ≡ []) (λ h. h ≡ kept_head kept head.now) }
    ensures some { IfSome result (λ h. kept_codes kept head.now.listed ≢ []) }
{
    let codes = kept_codes(kept, head.codes());
    if codes.len() == 0 {
        return None;
    }
    let glonass = kept_glonass(kept, head);
    let (Ok(marker), Ok(made)) = (Marker::new(head.marker()), CreationTime::new(head.made())) else {
        unreachable!()
    };
    let Ok(narrow) = MixedHead::new(marker, codes.as_slice(), glonass, made) else {
        unreachable!()
    };
    Some(narrow.with_doppler_if(head.has_doppler()))
}

// Is some of the codes of a system?
fn has_code_of(listed: &[AnyCode], system: System) -> bool
    ensures { result ≡ has_code_of listed.now system }
{
    for code in listed {
        if code.system() == system {
            return true;
        }
    }
    false
}

// Is a system kept of which there is no code?
fn is_absent(kept: SystemFlags, listed: &[AnyCode], system: System) -> bool
    ensures { result ≡ is_absent kept listed.now system }
{
    kept.has(system) && !has_code_of(listed, system)
}

// The first system that is kept and of which there is no code.
fn first_absent_of(kept: SystemFlags, listed: &[AnyCode]) -> Option<System>
    ensures { result ≡ first_absent kept listed.now }
{
    if is_absent(kept, listed, System::Gps) {
        return Some(System::Gps);
    }
    if is_absent(kept, listed, System::Glonass) {
        return Some(System::Glonass);
    }
    if is_absent(kept, listed, System::Galileo) {
        return Some(System::Galileo);
    }
    if is_absent(kept, listed, System::Beidou) {
        return Some(System::Beidou);
    }
    if is_absent(kept, listed, System::Qzss) {
        return Some(System::Qzss);
    }
    if is_absent(kept, listed, System::Sbas) {
        return Some(System::Sbas);
    }
    if is_absent(kept, listed, System::Navic) {
        return Some(System::Navic);
    }
    None
}

/// The first system, in the order of a file, that is to be kept and of which the file has no code.
pub fn first_absent(table: &MixedTextTable<'_>, kept: SystemFlags) -> Option<System>
    ensures { (t : MixedTable) → IsMixedTable t → table.now.text ≡ mixed_table_text t → result ≡ first_absent kept t.head.listed }
{
    first_absent_of(kept, table.heading().head.codes())
}
