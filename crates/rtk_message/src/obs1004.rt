//! Message 1004: GPS observations on L1 and L2.

ghost use Rattle.rtk_message.specs.Fields.{TakesAll, FieldsFit};
ghost use Rattle.rtk_message.specs.Steps.FieldSteps.{PutsAll};
ghost use Rattle.rtk_message.specs.Obs1004.{satellite_table, table, first_fault, IsValid};
ghost use Rattle.std.specs.List.{flat_map};
ghost use Rattle.std.specs.Prelude.{◌≡◌, ◌≤◌, ◌+◌, ◌*◌, length, Some, OnOk, IfErr, IsTrue, ◌↔◌};

use crate::fault::DecodeFault;
use crate::field::{FieldValue, WEEK_MS, next_word, put_flag, put_i16, put_i32, put_u};
use crate::layout::Layout;
use crate::satellite_list::SatelliteList;
use rtk_bits::{BitReader, BitWriter};
use std::alloc::AllocError;

/// Extended L1 and L2 GPS observations of one epoch: 64 bits, and 125 bits for each satellite.
///
/// The count of satellites (DF006) is the length of the list. Source: RTCM 10403.3, message 1004.
#[derive(Drop, PartialEq, Eq)]
pub struct Obs1004 {
    /// Reference station ID (DF003), 0 to 4095.
    pub station: u16,
    /// GPS time of week (DF004), in ms, less than 604,800,000.
    pub tow: u32,
    /// Synchronous GNSS flag (DF005): more messages of this epoch follow.
    pub synchronous: bool,
    /// Divergence-free smoothing (DF007).
    pub smoothing: bool,
    /// Smoothing interval indicator (DF008), 0 to 7.
    pub smoothing_interval: u8,
    /// The satellites in the order of the message.
    pub satellites: SatelliteList<Satellite>,
}

impl Layout for Obs1004 {
    ghost use Rattle.std.specs.Prelude.{◌≡◌, []};
    ghost use Rattle.rtk_message.specs.Obs1004.{table, first_fault, IsValid};
    ghost use Rattle.rtk_message.specs.Obs1004Laws.{is_accepted, is_unique};

    ghost NUMBER = { 1004 };

    const NUMBER: u16 = 1004;

    ghost table = { table };

    ghost IsValid = { IsValid };

    ghost first_fault = { first_fault };

    ghost IsEmpty = { λ m. m.satellites ≡ [] };

    fn empty() -> Obs1004 {
        Obs1004 {
            station: 0,
            tow: 0,
            synchronous: false,
            smoothing: false,
            smoothing_interval: 0,
            satellites: SatelliteList::new(),
        }
    }

    fn read(&mut self, reader: &mut BitReader<'_>) -> Result<(), DecodeFault> {
        self.replace_fields(reader)
    }

    fn write(&self, writer: &mut BitWriter) -> Result<(), AllocError> {
        put_u(writer, 12, self.station as u64)?;
        put_u(writer, 30, self.tow as u64)?;
        put_flag(writer, self.synchronous)?;
        put_u(writer, 5, self.satellites.len() as u64)?;
        put_flag(writer, self.smoothing)?;
        put_u(writer, 3, self.smoothing_interval as u64)?;
        put_satellites(writer, self.satellites.as_slice())?;
        Ok(())
    }

    fn fits(&self) -> bool {
        if self.station >= 1 << 12 || self.tow >= WEEK_MS || self.smoothing_interval >= 1 << 3 {
            return false;
        }
        satellites_fit(self.satellites.as_slice())
    }

    ghost accepted = { is_accepted };

    ghost unique = { is_unique };
}

impl Obs1004 {
    /// Reads the fields after the number in place of those that the message has. After a fault the
    /// message has fields of both, and is to be dropped.
    ///
    /// It is inlined, so that the reader of its caller stays in registers.
    #[inline(always)]
    pub(crate) fn replace_fields(&mut self, reader: &mut BitReader<'_>) -> Result<(), DecodeFault>
        ensures fields { OnOk result (IsValid self.new × TakesAll (table self.new) reader.old reader.new) }
        ensures fault { IfErr result (λ f. first_fault reader.old ≡ Some f) }
    {
        if reader.remaining() < 52 {
            return Err(DecodeFault::Short { number: 1004 });
        }
        let mut header = next_word(reader, 52);
        self.station = header.next_u16(12);
        self.tow = header.next_u32(30);
        self.synchronous = header.next_flag();
        let count = header.next_u8(5);
        self.smoothing = header.next_flag();
        self.smoothing_interval = header.next_u8(3);
        if self.tow >= WEEK_MS {
            return Err(DecodeFault::EpochRange { number: 1004 });
        }
        if reader.remaining() < 125 * count as u128 {
            return Err(DecodeFault::Short { number: 1004 });
        }
        read_satellites(&mut self.satellites, reader, count);
        Ok(())
    }
}

// Reads the satellites of a list, in place of those that it has.
#[inline(always)]
fn read_satellites(satellites: &mut SatelliteList<Satellite>, reader: &mut BitReader<'_>, count: u8)
    requires few { count ≤ 31 }
    requires enough { 125 * count ≤ length reader.old }
    ensures fields { TakesAll (flat_map satellite_table satellites.new) reader.old reader.new }
    ensures count { length satellites.new ≡ count }
{
    let count = count as usize;
    satellites.resize(count);
    for place in 0..count {
        satellites.set(place, next_satellite(reader));
    }
}

// Reads the next satellite. Its fields come from three words, so that each is one shift and one
// mask.
#[inline(always)]
fn next_satellite(reader: &mut BitReader<'_>) -> Satellite
    requires { 125 ≤ length reader.old }
    ensures fields { TakesAll (satellite_table result) reader.old reader.new }
    ensures left { length reader.old ≡ 125 + length reader.new }
{
    let mut first = next_word(reader, 51);
    let mut second = next_word(reader, 39);
    let mut third = next_word(reader, 35);
    Satellite {
        satellite: first.next_u8(6),
        l1_code: first.next_flag(),
        l1_range: first.next_u32(24),
        l1_phase_difference: first.next_i32(20),
        l1_lock_indicator: second.next_u8(7),
        modulus_ambiguity: second.next_u8(8),
        l1_cnr: second.next_u8(8),
        l2_code: second.next_u8(2),
        l2_range_difference: second.next_i16(14),
        l2_phase_difference: third.next_i32(20),
        l2_lock_indicator: third.next_u8(7),
        l2_cnr: third.next_u8(8),
    }
}

// Puts the fields of the satellites, one satellite after another.
fn put_satellites(writer: &mut BitWriter, satellites: &[Satellite]) -> Result<(), AllocError>
    requires { FieldsFit (flat_map satellite_table satellites.now) }
    ensures { OnOk result (PutsAll (flat_map satellite_table satellites.now) writer.old writer.new) }
{
    for satellite in satellites {
        satellite.put(writer)?;
    }
    Ok(())
}

// Returns whether each field of the satellites fits its width.
fn satellites_fit(satellites: &[Satellite]) -> bool
    ensures { IsTrue result ↔ FieldsFit (flat_map satellite_table satellites.now) }
{
    for satellite in satellites {
        if !satellite.fits() {
            return false;
        }
    }
    true
}

impl Satellite {
    // Puts the fields of a satellite. An `Err` means that memory was refused.
    fn put(&self, writer: &mut BitWriter) -> Result<(), AllocError>
        requires { FieldsFit (satellite_table self.now) }
        ensures { OnOk result (PutsAll (satellite_table self.now) writer.old writer.new) }
    {
        put_u(writer, 6, self.satellite as u64)?;
        put_flag(writer, self.l1_code)?;
        put_u(writer, 24, self.l1_range as u64)?;
        put_i32(writer, 20, &self.l1_phase_difference)?;
        put_u(writer, 7, self.l1_lock_indicator as u64)?;
        put_u(writer, 8, self.modulus_ambiguity as u64)?;
        put_u(writer, 8, self.l1_cnr as u64)?;
        put_u(writer, 2, self.l2_code as u64)?;
        put_i16(writer, 14, &self.l2_range_difference)?;
        put_i32(writer, 20, &self.l2_phase_difference)?;
        put_u(writer, 7, self.l2_lock_indicator as u64)?;
        put_u(writer, 8, self.l2_cnr as u64)?;
        Ok(())
    }

    // Returns whether each field of a satellite fits its width.
    fn fits(self) -> bool
        ensures { IsTrue result ↔ FieldsFit (satellite_table self) }
    {
        if self.satellite >= 1 << 6
            || self.l1_range >= 1 << 24
            || self.l1_lock_indicator >= 1 << 7
        {
            return false;
        }
        if self.l2_code >= 1 << 2 || self.l2_lock_indicator >= 1 << 7 {
            return false;
        }
        if !self.l1_phase_difference.fits(20) {
            return false;
        }
        if !self.l2_range_difference.fits(14) {
            return false;
        }
        self.l2_phase_difference.fits(20)
    }
}

/// One satellite of a 1004, 125 bits. Source: RTCM 10403.3, message 1004.
#[derive(Clone, Copy, Debug, Default, PartialEq, Eq)]
pub struct Satellite {
    /// Satellite ID (DF009), 0 to 63.
    pub satellite: u8,
    /// L1 code indicator (DF010).
    pub l1_code: bool,
    /// L1 pseudorange less the modulus ambiguity (DF011), in 0.02 m, 24 bits.
    pub l1_range: u32,
    /// L1 phase range less L1 pseudorange (DF012), in 0.0005 m, 20 bits signed; -524288 is invalid.
    pub l1_phase_difference: i32,
    /// L1 lock time indicator (DF013), 0 to 127.
    pub l1_lock_indicator: u8,
    /// Whole units of 299,792.458 m in the L1 pseudorange (DF014).
    pub modulus_ambiguity: u8,
    /// L1 carrier-to-noise ratio (DF015), in 0.25 dB-Hz; 0 if it is not given.
    pub l1_cnr: u8,
    /// L2 code indicator (DF016), 0 to 3.
    pub l2_code: u8,
    /// L2 pseudorange less L1 pseudorange (DF017), in 0.02 m, 14 bits signed; -8192 is invalid.
    pub l2_range_difference: i16,
    /// L2 phase range less L1 pseudorange (DF018), in 0.0005 m, 20 bits signed; -524288 is invalid.
    pub l2_phase_difference: i32,
    /// L2 lock time indicator (DF019), 0 to 127.
    pub l2_lock_indicator: u8,
    /// L2 carrier-to-noise ratio (DF020), in 0.25 dB-Hz; 0 if it is not given.
    pub l2_cnr: u8,
}

/// The satellites of a 1004 in their order, at most 31 of them. A contract sees the list.
pub type Satellites = SatelliteList<Satellite>;
