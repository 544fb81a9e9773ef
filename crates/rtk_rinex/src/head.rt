//! What is known of a file before its observations.

ghost use Rattle.std.specs.Prelude.{◌≡◌, ◌≢◌, ◌%◌, ℕ, ◌<◌, length, slice_index_or, Decides, IfOk, IfErr};
ghost use Rattle.rtk_obs.specs.declared.code.Code.{Code};
ghost use Rattle.rtk_rinex.specs.Header.{IsMarker, IsCodeList, IsHeadView};

use crate::creation_time::CreationTime;
use crate::head_fault::HeadFault;
use crate::marker_name::Marker;
use arrayvec::ArrayVec;
use rtk_obs::{Code, GpsMs};
use std::marker::Model;

/// What is known of a file before its observations: the marker's name, the listed codes in their
/// order, and the moment at which it is made, which the file shows as UTC.
#[derive(Drop)]
pub struct Head {
    marker: Marker,
    listed: ArrayVec<Code, 16>,
    made: CreationTime,
}

impl Model for Head {
    ghost use Rattle.rtk_rinex.specs.Header.{HeadView, IsHeadView};

    ghost Value = { HeadView };

    ghost view = { λ h. record { marker = h.marker; listed = h.listed.items; made = h.made } };

    ghost invariant = { λ h. IsHeadView (record { marker = h.marker; listed = h.listed.items; made = h.made }) };
}

// Returns whether the code at this place is unlike all before it.
fn is_new(listed: &[Code], at: usize) -> bool
    requires { at < length listed.now }
    ensures { Decides result ((k : ℕ) (d : Code) → k < at → slice_index_or listed.now k d ≢ slice_index_or listed.now at d) }
{
    for i in 0..at {
        if listed[i] == listed[at] {
            return false;
        }
    }
    true
}

/// Returns whether a head can list these codes: there are 1 to 16, and none stands twice.
pub fn is_code_list(listed: &[Code]) -> bool
    ensures { Decides result (IsCodeList listed.now) }
{
    if listed.len() == 0 || listed.len() > 16 {
        return false;
    }
    for i in 0..listed.len() {
        if !is_new(listed, i) {
            return false;
        }
    }
    true
}

// Returns the list of these codes if it is good, else `HeadFault::Codes`.
fn code_list(codes: &[Code]) -> Result<ArrayVec<Code, 16>, HeadFault>
    ensures listed { IfOk result (λ listed. listed.items ≡ codes.now) }
    ensures good { IfOk result (λ listed. IsCodeList listed.items) }
    ensures fault { IfErr result (λ fault. (fault ≡ HeadFault.Codes) × ¬ (IsCodeList codes.now)) }
{
    if !is_code_list(codes) {
        return Err(HeadFault::Codes);
    }
    let mut listed = ArrayVec::new();
    if listed.try_extend_from_slice(codes).is_err() {
        unreachable!();
    }
    Ok(listed)
}

impl Head {
    ghost use Rattle.rtk_rinex.specs.HeadFault.{IsHeadFault};

    /// Makes the head of these parts if they are good, else answers the first cause why they make
    /// no head.
    pub fn new(marker: &[u8], codes: &[Code], made: GpsMs) -> Result<Head, HeadFault>
        ensures head { IfOk result (λ h. h ≡ record { marker = marker.now; listed = codes.now; made = made }) }
        ensures good { IfOk result IsHeadView }
        ensures fault { IfErr result (IsHeadFault (record { marker = marker.now; listed = codes.now; made = made })) }
    {
        let marker = Marker::new(marker)?;
        let listed = code_list(codes)?;
        let made = CreationTime::new(made)?;
        Ok(Head {
            marker,
            listed,
            made,
        })
    }

    /// Makes the head of parts of which only the codes can be bad. Then the answer is
    /// `HeadFault::Codes`.
    pub fn from_parts(marker: Marker, codes: &[Code], made: CreationTime) -> Result<Head, HeadFault>
        ensures head { IfOk result (λ h. h ≡ record { marker = marker; listed = codes.now; made = made }) }
        ensures good { IfOk result IsHeadView }
        ensures fault { IfErr result (λ fault. (fault ≡ HeadFault.Codes) × ¬ (IsCodeList codes.now)) }
    {
        Ok(Head {
            marker,
            listed: code_list(codes)?,
            made,
        })
    }

    /// Returns the marker's name.
    pub fn marker(&self) -> &[u8]
        ensures value { result.now ≡ self.now.marker }
        ensures good { IsMarker result.now }
    {
        self.marker.as_bytes()
    }

    /// Returns the codes, in the order in which they were handed in.
    pub fn codes(&self) -> &[Code]
        ensures value { result.now ≡ self.now.listed }
        ensures good { IsCodeList result.now }
    {
        self.listed.as_slice()
    }

    /// Returns the moment at which the file is made.
    pub fn made(&self) -> GpsMs
        ensures value { result ≡ self.now.made }
        ensures whole_second { result % 1000 ≡ 0 }
    {
        self.made.moment()
    }
}
