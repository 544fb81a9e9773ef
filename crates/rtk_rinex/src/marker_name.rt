//! The name of a marker.

ghost use Rattle.std.specs.Prelude.{◌≡◌, IfOk, IfErr};
ghost use Rattle.rtk_rinex.specs.Header.{IsMarker};

use crate::field::is_field;
use crate::head_fault::HeadFault;
use arrayvec::ArrayVec;
use std::marker::Model;

/// The columns of a marker's name. Source: RINEX 3.05, Table A2.
const MARKER_COLUMNS: usize = 60;

/// The name of the marker on which the antenna stands: 1 to 60 bytes from 0x20 to 0x7E, of which
/// neither the first nor the last is a blank.
#[derive(Drop)]
pub struct Marker {
    name: ArrayVec<u8, MARKER_COLUMNS>,
}

impl Model for Marker {
    ghost use Rattle.std.specs.Prelude.{List, ℕ};
    ghost use Rattle.rtk_rinex.specs.Header.{IsMarker};

    ghost Value = { List ℕ };

    ghost view = { λ m. m.name.items };

    ghost invariant = { λ m. IsMarker m.name.items };
}

impl Marker {
    /// Makes the marker of this name if it is good, else answers `HeadFault::Marker`.
    pub fn new(name: &[u8]) -> Result<Marker, HeadFault>
        ensures name { IfOk result (λ marker. marker ≡ name.now) }
        ensures good { IfOk result IsMarker }
        ensures fault { IfErr result (λ fault. (fault ≡ HeadFault.Marker) × ¬ (IsMarker name.now)) }
    {
        if name.len() == 0 || !is_field(name, MARKER_COLUMNS) {
            return Err(HeadFault::Marker);
        }
        let mut kept = ArrayVec::new();
        if kept.try_extend_from_slice(name).is_err() {
            unreachable!();
        }
        Ok(Marker { name: kept })
    }

    /// Returns the bytes of the name.
    pub fn as_bytes(&self) -> &[u8]
        ensures value { result.now ≡ self.now }
        ensures good { IsMarker self.now }
    {
        self.name.as_slice()
    }
}
