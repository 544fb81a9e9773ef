//! The fields of a header that no message of the stream tells.

ghost use Rattle.std.specs.Prelude.{◌≡◌, IfOk, IfErr, MatchOption};
ghost use Rattle.rtk_label.specs.Labelled.{IsLabel, blank_label};

use crate::fields::{Field, field_of, is_offset};
use crate::label_fault::LabelFault;
use arrayvec::ArrayVec;
use rtk_rinex::is_field;
use std::marker::Model;

/// The texts of a label; an empty one is a blank field.
#[derive(Drop)]
pub struct LabelParts<'a> {
    /// `PGM / RUN BY / DATE`, columns 21 to 40.
    pub run_by: &'a [u8],
    /// `MARKER NUMBER`, columns 1 to 20; the line is absent if it is empty.
    pub marker_number: &'a [u8],
    /// `OBSERVER / AGENCY`, columns 1 to 20.
    pub observer: &'a [u8],
    /// `OBSERVER / AGENCY`, columns 21 to 60.
    pub agency: &'a [u8],
    /// `REC # / TYPE / VERS`, columns 1 to 20.
    pub receiver_number: &'a [u8],
    /// `REC # / TYPE / VERS`, columns 21 to 40.
    pub receiver_type: &'a [u8],
    /// `REC # / TYPE / VERS`, columns 41 to 60.
    pub receiver_version: &'a [u8],
    /// `ANT # / TYPE`, columns 1 to 20.
    pub antenna_number: &'a [u8],
    /// `ANT # / TYPE`, columns 21 to 40: the type in 16 columns, then the radome in 4.
    pub antenna_type: &'a [u8],
    /// `ANTENNA: DELTA H/E/N`, columns 1 to 14, in m: the height above the marker.
    pub height: &'a [u8],
    /// `ANTENNA: DELTA H/E/N`, columns 15 to 28, in m: to the east of the marker.
    pub east: &'a [u8],
    /// `ANTENNA: DELTA H/E/N`, columns 29 to 42, in m: to the north of the marker.
    pub north: &'a [u8],
}

impl<'a> Model for LabelParts<'a> {
    ghost use Rattle.rtk_label.specs.Labelled.{LabelView};

    ghost Value = { LabelView };

    ghost view = { λ p. record {
      run_by = p.run_by.now;
      marker_number = p.marker_number.now;
      observer = p.observer.now;
      agency = p.agency.now;
      receiver_number = p.receiver_number.now;
      receiver_type = p.receiver_type.now;
      receiver_version = p.receiver_version.now;
      antenna_number = p.antenna_number.now;
      antenna_type = p.antenna_type.now;
      height = p.height.now;
      east = p.east.now;
      north = p.north.now;
    } };
}

impl<'a> LabelParts<'a> {
    ghost use Rattle.rtk_label.specs.LabelFault.{IsLabelFault};

    /// The parts of a label whose fields are all blank.
    pub fn blank() -> LabelParts<'a>
        ensures { result ≡ blank_label }
    {
        LabelParts {
            run_by: b"",
            marker_number: b"",
            observer: b"",
            agency: b"",
            receiver_number: b"",
            receiver_type: b"",
            receiver_version: b"",
            antenna_number: b"",
            antenna_type: b"",
            height: b"",
            east: b"",
            north: b"",
        }
    }

    // The first field that does not fit its columns.
    fn fault(&self) -> Option<LabelFault>
        ensures { MatchOption result (IsLabel self.now) (IsLabelFault self.now) }
    {
        if !is_field(self.run_by, 20) {
            return Some(LabelFault::RunBy);
        }
        if !is_field(self.marker_number, 20) {
            return Some(LabelFault::MarkerNumber);
        }
        if !is_field(self.observer, 20) {
            return Some(LabelFault::Observer);
        }
        if !is_field(self.agency, 40) {
            return Some(LabelFault::Agency);
        }
        if !is_field(self.receiver_number, 20) {
            return Some(LabelFault::ReceiverNumber);
        }
        if !is_field(self.receiver_type, 20) {
            return Some(LabelFault::ReceiverType);
        }
        if !is_field(self.receiver_version, 20) {
            return Some(LabelFault::ReceiverVersion);
        }
        if !is_field(self.antenna_number, 20) {
            return Some(LabelFault::AntennaNumber);
        }
        if !is_field(self.antenna_type, 20) {
            return Some(LabelFault::AntennaType);
        }
        if !is_offset(self.height) {
            return Some(LabelFault::DeltaHeight);
        }
        if !is_offset(self.east) {
            return Some(LabelFault::DeltaEast);
        }
        if !is_offset(self.north) {
            return Some(LabelFault::DeltaNorth);
        }
        None
    }
}

/// The fields of a header that no message of the stream tells; each fits its columns.
#[derive(Drop)]
pub struct Label {
    pub(crate) run_by: Field,
    pub(crate) marker_number: Field,
    pub(crate) observer: Field,
    pub(crate) agency: Field,
    pub(crate) receiver_number: Field,
    pub(crate) receiver_type: Field,
    pub(crate) receiver_version: Field,
    pub(crate) antenna_number: Field,
    pub(crate) antenna_type: Field,
    pub(crate) height: Field,
    pub(crate) east: Field,
    pub(crate) north: Field,
}

impl Model for Label {
    ghost use Rattle.rtk_label.specs.Labelled.{LabelView, IsLabel};

    ghost Value = { LabelView };

    ghost view = { λ l. record {
      run_by = l.run_by.items;
      marker_number = l.marker_number.items;
      observer = l.observer.items;
      agency = l.agency.items;
      receiver_number = l.receiver_number.items;
      receiver_type = l.receiver_type.items;
      receiver_version = l.receiver_version.items;
      antenna_number = l.antenna_number.items;
      antenna_type = l.antenna_type.items;
      height = l.height.items;
      east = l.east.items;
      north = l.north.items;
    } };

    ghost invariant = { λ l. IsLabel (record {
      run_by = l.run_by.items;
      marker_number = l.marker_number.items;
      observer = l.observer.items;
      agency = l.agency.items;
      receiver_number = l.receiver_number.items;
      receiver_type = l.receiver_type.items;
      receiver_version = l.receiver_version.items;
      antenna_number = l.antenna_number.items;
      antenna_type = l.antenna_type.items;
      height = l.height.items;
      east = l.east.items;
      north = l.north.items;
    }) };
}

impl Label {
    ghost use Rattle.rtk_label.specs.LabelFault.{IsLabelFault};

    /// The label of these parts if they are good, else the first cause why they make no label.
    pub fn new(parts: &LabelParts<'_>) -> Result<Label, LabelFault>
        ensures label { IfOk result (λ l. l ≡ parts.now) }
        ensures good { IfOk result IsLabel }
        ensures fault { IfErr result (IsLabelFault parts.now) }
    {
        if let Some(fault) = parts.fault() {
            return Err(fault);
        }
        Ok(Label {
            run_by: field_of(parts.run_by),
            marker_number: field_of(parts.marker_number),
            observer: field_of(parts.observer),
            agency: field_of(parts.agency),
            receiver_number: field_of(parts.receiver_number),
            receiver_type: field_of(parts.receiver_type),
            receiver_version: field_of(parts.receiver_version),
            antenna_number: field_of(parts.antenna_number),
            antenna_type: field_of(parts.antenna_type),
            height: field_of(parts.height),
            east: field_of(parts.east),
            north: field_of(parts.north),
        })
    }

    /// The texts of the label.
    pub fn parts(&self) -> LabelParts<'_>
        ensures value { result ≡ self.now }
        ensures good { IsLabel self.now }
    {
        LabelParts {
            run_by: self.run_by.as_slice(),
            marker_number: self.marker_number.as_slice(),
            observer: self.observer.as_slice(),
            agency: self.agency.as_slice(),
            receiver_number: self.receiver_number.as_slice(),
            receiver_type: self.receiver_type.as_slice(),
            receiver_version: self.receiver_version.as_slice(),
            antenna_number: self.antenna_number.as_slice(),
            antenna_type: self.antenna_type.as_slice(),
            height: self.height.as_slice(),
            east: self.east.as_slice(),
            north: self.north.as_slice(),
        }
    }

    /// The label whose fields are all blank.
    pub fn blank() -> Label
        ensures { result ≡ blank_label }
    {
        Label {
            run_by: ArrayVec::new(),
            marker_number: ArrayVec::new(),
            observer: ArrayVec::new(),
            agency: ArrayVec::new(),
            receiver_number: ArrayVec::new(),
            receiver_type: ArrayVec::new(),
            receiver_version: ArrayVec::new(),
            antenna_number: ArrayVec::new(),
            antenna_type: ArrayVec::new(),
            height: ArrayVec::new(),
            east: ArrayVec::new(),
            north: ArrayVec::new(),
        }
    }
}
