//! What the header of a file of any systems says of the lines of its satellites.

ghost use Rattle.std.specs.Prelude.{◌≡◌, ◌≤◌, ◌==◌, if◌then◌else◌, length, IsTrue};
ghost use Rattle.rtk_obs.specs.Carriers.{IsSlot};
ghost use Rattle.rtk_rinex.specs.MixedHeader.{codes_of};
ghost use Rattle.rtk_rinex.specs.MixedForm.{width_at, has_channel, has_phases, most_satellites, form_of_head};

use crate::glonass_head::Glonass;
use crate::mixed_head::MixedHead;
use crate::mixed_header_text::codes_of;
use rtk_message::System;
use rtk_obs::{SatelliteIndex, any_code_laws, satellite_laws};
use std::marker::Model;

/// How many codes a header lists of each system, what it tells of GLONASS, and whether the lines show Doppler shifts.
#[derive(Clone, Copy)]
pub(crate) struct RecordForm {
    gps: usize,
    glonass: usize,
    galileo: usize,
    beidou: usize,
    qzss: usize,
    sbas: usize,
    navic: usize,
    told: Option<Glonass>,
    doppler: bool,
}

impl Model for RecordForm {
    ghost use Rattle.rtk_rinex.specs.MixedForm.{FormView, IsFormView};

    ghost Value = { FormView };

    ghost view = { λ f. record {
      gps = f.gps;
      glonass = f.glonass;
      galileo = f.galileo;
      beidou = f.beidou;
      qzss = f.qzss;
      sbas = f.sbas;
      navic = f.navic;
      told = f.told;
      doppler = f.doppler;
    } };

    ghost invariant = { λ f. IsFormView (record {
      gps = f.gps;
      glonass = f.glonass;
      galileo = f.galileo;
      beidou = f.beidou;
      qzss = f.qzss;
      sbas = f.sbas;
      navic = f.navic;
      told = f.told;
      doppler = f.doppler;
    }) };

    ghost inverse = { λ v. record {
      gps = v.gps;
      glonass = v.glonass;
      galileo = v.galileo;
      beidou = v.beidou;
      qzss = v.qzss;
      sbas = v.sbas;
      navic = v.navic;
      told = v.told;
      doppler = v.doppler;
    } };
}

// Returns how many codes of the system of this letter a head lists.
fn count_of(system: u8, head: &MixedHead) -> usize
    ensures value { result ≡ length (codes_of system head.now.listed) }
    ensures few { result ≤ 16 }
{
    // A law: a place belongs to one code of a system, and is below 16.
    any_code_laws();
    codes_of(system, head.codes()).len()
}

// Returns whether two headers tell the same of GLONASS, or both nothing.
fn is_same_told(told: Option<Glonass>, other: Option<Glonass>) -> bool
    ensures { IsTrue result → told ≡ other }
{
    match (told, other) {
        (Some(told), Some(other)) => told == other,
        (None, None) => true,
        _ => false,
    }
}

// Returns how many satellites of a system can have a line.
fn satellites_with(codes: usize, satellites: usize) -> usize
    ensures { result ≡ (if codes == 0 then 0 else satellites) }
{
    if codes == 0 { 0 } else { satellites }
}

// Returns whether a header tells the channel of a slot of GLONASS.
fn has_channel(told: Option<Glonass>, slot: u8) -> bool
    requires { IsSlot slot }
    ensures { result ≡ has_channel told slot }
{
    match told {
        Some(told) => told.channels().channel(slot).is_some(),
        None => false,
    }
}

impl RecordForm {
    /// Makes what a head says of the lines.
    pub fn of_head(head: &MixedHead) -> RecordForm
        ensures { result ≡ form_of_head head.now }
    {
        RecordForm {
            gps: count_of(b'G', head),
            glonass: count_of(b'R', head),
            galileo: count_of(b'E', head),
            beidou: count_of(b'C', head),
            qzss: count_of(b'J', head),
            sbas: count_of(b'S', head),
            navic: count_of(b'I', head),
            told: head.glonass(),
            doppler: head.has_doppler(),
        }
    }

    /// Returns how many codes the line of a satellite shows.
    pub fn width(&self, satellite: SatelliteIndex) -> usize
        ensures value { result ≡ width_at self.now satellite }
        ensures few { result ≤ 16 }
    {
        match satellite.system() {
            System::Gps => self.gps,
            System::Glonass => self.glonass,
            System::Galileo => self.galileo,
            System::Beidou => self.beidou,
            System::Qzss => self.qzss,
            System::Sbas => self.sbas,
            System::Navic => self.navic,
        }
    }

    /// Returns whether another header says the same.
    pub fn is_same(&self, other: &RecordForm) -> bool
        ensures { IsTrue result → self.now ≡ other.now }
    {
        self.gps == other.gps
            && self.glonass == other.glonass
            && self.galileo == other.galileo
            && self.beidou == other.beidou
            && self.qzss == other.qzss
            && self.sbas == other.sbas
            && self.navic == other.navic
            && self.doppler == other.doppler
            && is_same_told(self.told, other.told)
    }

    /// Returns whether the lines show Doppler shifts.
    pub fn has_doppler(&self) -> bool
        ensures { result ≡ self.now.doppler }
    {
        self.doppler
    }

    /// Returns whether the line of a satellite may show phases.
    pub fn has_phases(&self, satellite: SatelliteIndex) -> bool
        ensures { result ≡ has_phases self.now satellite }
    {
        // A law: the satellites of GLONASS have the slots from 1 to 27.
        satellite_laws();
        match satellite.system() {
            System::Glonass => has_channel(self.told, satellite.bit()),
            _ => true,
        }
    }

    /// Returns the most satellites of an epoch: all of the systems with codes.
    pub fn most_satellites(&self) -> usize
        ensures value { result ≡ most_satellites self.now }
        ensures few { result ≤ 221 }
    {
        satellites_with(self.gps, 32)
            + satellites_with(self.glonass, 27)
            + satellites_with(self.galileo, 36)
            + satellites_with(self.beidou, 63)
            + satellites_with(self.qzss, 10)
            + satellites_with(self.sbas, 39)
            + satellites_with(self.navic, 14)
    }
}
