//! What is known of a file of any systems before its observations.

ghost use Rattle.std.specs.Prelude.{◌≡◌, ◌≢◌, ◌%◌, ℕ, ◌<◌, true, false, length, slice_index_or, Decides, IfOk, IfErr};
ghost use Rattle.rtk_obs.specs.declared.any_code.AnyCode.{AnyCode};
ghost use Rattle.rtk_obs.specs.AnyCode.{system_of, codes_before};
ghost use Rattle.rtk_rinex.specs.Header.{IsMarker};
ghost use Rattle.rtk_rinex.specs.MixedHead.{AreInOrder, IsMixedList, has_glonass, TellsGlonass, IsMixedHead, IsMixedHeadFault};

use crate::creation_time::CreationTime;
use crate::glonass_head::Glonass;
use crate::marker_name::Marker;
use crate::mixed_head_fault::MixedHeadFault;
use arrayvec::ArrayVec;
use rtk_obs::{AnyCode, GpsMs, any_code_laws};
use std::marker::Model;

/// The number of codes of all systems.
const MOST_CODES: usize = 69;

/// What is known of a file of any systems before its observations: the marker's name, the listed codes
/// in their order, what the file tells of GLONASS, the moment at which it is made, which the file
/// shows as UTC, and whether it shows Doppler shifts.
#[derive(Drop)]
pub struct MixedHead {
    marker: Marker,
    listed: ArrayVec<AnyCode, MOST_CODES>,
    glonass: Option<Glonass>,
    made: CreationTime,
    doppler: bool,
}

impl Model for MixedHead {
    ghost use Rattle.rtk_rinex.specs.MixedHead.{MixedHeadView, IsMixedHead};

    ghost Value = { MixedHeadView };

    ghost view = { λ h. record { marker = h.marker; listed = h.listed.items; glonass = h.glonass; made = h.made; doppler = h.doppler } };

    ghost invariant = { λ h. IsMixedHead (record { marker = h.marker; listed = h.listed.items; glonass = h.glonass; made = h.made; doppler = h.doppler }) };
}

// Returns how many codes stand before those of the system of a code.
fn codes_before(code: AnyCode) -> usize
    ensures { result ≡ codes_before (system_of code) }
{
    code.number() - code.place()
}

// Returns whether one code can stand before another.
fn are_in_order(code: AnyCode, later: AnyCode) -> bool
    ensures { Decides result (AreInOrder code later) }
{
    // A law: a number belongs to one code.
    any_code_laws();
    if code.number() == later.number() {
        return false;
    }
    codes_before(code) <= codes_before(later)
}

// Returns whether the code at this place can follow all before it.
fn follows(listed: &[AnyCode], at: usize) -> bool
    requires { at < length listed.now }
    ensures { Decides result ((k : ℕ) (d : AnyCode) → k < at → AreInOrder (slice_index_or listed.now k d) (slice_index_or listed.now at d)) }
{
    for i in 0..at {
        if !are_in_order(listed[i], listed[at]) {
            return false;
        }
    }
    true
}

/// Returns whether a head can list these codes: there are 1 to 69, none stands twice, and the systems
/// stand in the order G, R, E, C, J, S, I.
pub fn is_mixed_list(listed: &[AnyCode]) -> bool
    ensures { Decides result (IsMixedList listed.now) }
{
    if listed.len() == 0 || listed.len() > MOST_CODES {
        return false;
    }
    for i in 0..listed.len() {
        if !follows(listed, i) {
            return false;
        }
    }
    true
}

/// Returns whether a code is of GLONASS.
pub(crate) fn has_glonass(listed: &[AnyCode]) -> bool
    ensures { result ≡ has_glonass listed.now }
{
    for code in listed {
        if code.text()[0] == b'R' {
            return true;
        }
    }
    false
}

// Returns what is told of GLONASS if a file of these codes tells it, else `MixedHeadFault::Glonass`.
fn due_glonass(
    listed: &[AnyCode],
    glonass: Option<Glonass>,
) -> Result<Option<Glonass>, MixedHeadFault>
    ensures told { IfOk result (λ told. told ≡ glonass) }
    ensures due { IfOk result (TellsGlonass listed.now) }
    ensures fault { IfErr result (λ fault. (fault ≡ MixedHeadFault.Glonass) × ¬ (TellsGlonass listed.now glonass)) }
{
    match glonass {
        Some(told) => {
            if !has_glonass(listed) {
                return Err(MixedHeadFault::Glonass);
            }
            Ok(Some(told))
        }
        None => {
            if has_glonass(listed) {
                return Err(MixedHeadFault::Glonass);
            }
            Ok(None)
        }
    }
}

// Returns the list of these codes.
fn kept_list(codes: &[AnyCode]) -> ArrayVec<AnyCode, MOST_CODES>
    requires { IsMixedList codes.now }
    ensures { result.items ≡ codes.now }
{
    let mut listed = ArrayVec::new();
    if listed.try_extend_from_slice(codes).is_err() {
        unreachable!();
    }
    listed
}

impl MixedHead {
    /// Makes the head of these parts, of a file without Doppler shifts, if they are good, else answers the first cause
    /// why they make no head.
    pub fn new(
        marker: Marker,
        codes: &[AnyCode],
        glonass: Option<Glonass>,
        made: CreationTime,
    ) -> Result<MixedHead, MixedHeadFault>
        ensures head { IfOk result (λ h. h ≡ record { marker = marker; listed = codes.now; glonass = glonass; made = made; doppler = false }) }
        ensures good { IfOk result IsMixedHead }
        ensures fault { IfErr result (IsMixedHeadFault codes.now glonass) }
    {
        if !is_mixed_list(codes) {
            return Err(MixedHeadFault::Codes);
        }
        let glonass = due_glonass(codes, glonass)?;
        let listed = kept_list(codes);
        Ok(MixedHead {
            marker,
            listed,
            glonass,
            made,
            doppler: false,
        })
    }

    /// Returns the head of a file that shows Doppler shifts, and is as this one else.
    pub fn with_doppler(self) -> MixedHead
        ensures { result ≡ record { marker = self.marker; listed = self.listed; glonass = self.glonass; made = self.made; doppler = true } }
    {
        MixedHead {
            marker: self.marker,
            listed: self.listed,
            glonass: self.glonass,
            made: self.made,
            doppler: true,
        }
    }

    /// Returns the head of a file that shows Doppler shifts or not, and is as this one else.
    pub fn with_doppler_if(self, is_shown: bool) -> MixedHead
        ensures { result ≡ record { marker = self.marker; listed = self.listed; glonass = self.glonass; made = self.made; doppler = is_shown } }
    {
        MixedHead {
            marker: self.marker,
            listed: self.listed,
            glonass: self.glonass,
            made: self.made,
            doppler: is_shown,
        }
    }

    /// Returns whether the file shows Doppler shifts.
    pub fn has_doppler(&self) -> bool
        ensures { result ≡ self.now.doppler }
    {
        self.doppler
    }

    /// Returns the marker's name.
    pub fn marker(&self) -> &[u8]
        ensures value { result.now ≡ self.now.marker }
        ensures good { IsMarker result.now }
    {
        self.marker.as_bytes()
    }

    /// Returns the codes, in the order in which they were handed in.
    pub fn codes(&self) -> &[AnyCode]
        ensures value { result.now ≡ self.now.listed }
        ensures good { IsMixedList result.now }
    {
        self.listed.as_slice()
    }

    /// Returns what the file tells of GLONASS.
    pub fn glonass(&self) -> Option<Glonass>
        ensures value { result ≡ self.now.glonass }
        ensures due { TellsGlonass self.now.listed result }
    {
        self.glonass
    }

    /// Returns the moment at which the file is made.
    pub fn made(&self) -> GpsMs
        ensures value { result ≡ self.now.made }
        ensures whole_second { result % 1000 ≡ 0 }
    {
        self.made.moment()
    }
}
