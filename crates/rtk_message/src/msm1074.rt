//! Message 1074: GPS observations of any signals (MSM4), column by column.

ghost use Rattle.std.specs.Prelude.{◌≡◌, ◌≤◌, ◌<◌, ◌+◌, ◌*◌, length, Some, OnOk, IfErr, IsTrue, ◌↔◌, count_ones};
ghost use Rattle.rtk_message.specs.Fields.{TakesAll, FieldsFit};
ghost use Rattle.rtk_message.specs.Steps.FieldSteps.{PutsAll};
ghost use Rattle.rtk_message.specs.Msm1074.{header_table, table, first_fault, HasLengths, IsValid};
ghost use Rattle.rtk_message.specs.Steps.EachFits.{EachFits};

use crate::column::{
    Column, column_fits, count_cells, put_column, put_mask, read_column, read_mask,
};
use crate::fault::DecodeFault;
use crate::field::{WEEK_MS, next_word, put_flag, put_u};
use crate::layout::Layout;
use rtk_bits::{BitReader, BitWriter};
use std::alloc::AllocError;

/// The fields of an MSM4 to MSM7 before its cell mask: 169 bits, the message number included.
///
/// The first bit of a mask is its most significant one and stands for identifier 1. Source: RTCM
/// 10403.3, messages 1071 to 1137.
#[derive(Clone, Copy, Debug, Default, PartialEq, Eq)]
pub struct MsmHeader {
    /// Reference station ID (DF003), 0 to 4095.
    pub station: u16,
    /// The clock of the system, 30 bits: the time of week in ms, less than 604,800,000 (GPS and SBAS
    /// DF004, Galileo DF248, BeiDou DF427, QZSS DF428, NavIC DF546). GLONASS: the day of the week
    /// (DF416, 3 bits) and the time of day in ms (DF034, 27 bits).
    pub tow: u32,
    /// Multiple message bit (DF393): more messages of this epoch follow.
    pub multiple_message: bool,
    /// Issue of data station (DF409), 0 to 7.
    pub issue_of_data_station: u8,
    /// Reserved (DF001), 7 bits.
    pub reserved: u8,
    /// Clock steering indicator (DF411), 0 to 3.
    pub clock_steering: u8,
    /// External clock indicator (DF412), 0 to 3.
    pub external_clock: u8,
    /// Divergence-free smoothing (DF417).
    pub smoothing: bool,
    /// Smoothing interval (DF418), 0 to 7.
    pub smoothing_interval: u8,
    /// Satellite mask (DF394).
    pub satellite_mask: u64,
    /// Signal mask (DF395).
    pub signal_mask: u32,
}

/// Multiple signal message 4 of GPS. Each field is given for all satellites, or for all cells,
/// before the next field.
///
/// The satellites are in rising order, as in their mask, and so are the signals. The cells go
/// satellite by satellite, and for each satellite the signals rise. Source: RTCM 10403.3, message
/// 1074.
#[derive(Drop, PartialEq, Eq)]
pub struct Msm1074 {
    /// The fields before the cell mask.
    pub header: MsmHeader,
    /// Cell mask (DF396): for each satellite of the mask a row of one bit for each signal of the
    /// mask, the first signal in the most significant of these bits.
    pub cell_mask: Column<u32>,
    /// For each satellite the whole milliseconds of the rough range (DF397); 255 is invalid.
    pub rough_ms: Column<u8>,
    /// For each satellite the rest of the rough range (DF398), in 2^-10 ms, 10 bits.
    pub rough_fraction: Column<u16>,
    /// For each cell the fine pseudorange (DF400), in 2^-24 ms, 15 bits signed; -16384 is invalid.
    pub fine_range: Column<i16>,
    /// For each cell the fine phase range (DF401), in 2^-29 ms, 22 bits signed; -2097152 is
    /// invalid.
    pub fine_phase: Column<i32>,
    /// For each cell the lock time indicator (DF402), 0 to 15.
    pub lock_indicator: Column<u8>,
    /// For each cell whether there is a half-cycle ambiguity (DF420).
    pub half_cycle: Column<bool>,
    /// For each cell the carrier-to-noise ratio (DF403), in dB-Hz, 0 to 63; 0 if it is not given.
    pub cnr: Column<u8>,
}

impl MsmHeader {
    /// Returns how many satellites the satellite mask has.
    pub fn satellite_count(self) -> usize
        ensures value { result ≡ count_ones self.satellite_mask }
        ensures few { result ≤ 64 }
    {
        self.satellite_mask.count_ones() as usize
    }

    /// Returns how many signals the signal mask has.
    pub fn signal_count(self) -> usize
        ensures value { result ≡ count_ones self.signal_mask }
        ensures few { result ≤ 32 }
    {
        self.signal_mask.count_ones() as usize
    }

    /// Puts the fields after the number and before the cell mask. An `Err` means that memory was
    /// refused; some of the fields may have been put before.
    pub(crate) fn put(self, writer: &mut BitWriter) -> Result<(), AllocError>
        requires { FieldsFit (header_table self) }
        ensures { OnOk result (PutsAll (header_table self) writer.old writer.new) }
    {
        put_u(writer, 12, self.station as u64)?;
        put_u(writer, 30, self.tow as u64)?;
        put_flag(writer, self.multiple_message)?;
        put_u(writer, 3, self.issue_of_data_station as u64)?;
        put_u(writer, 7, self.reserved as u64)?;
        put_u(writer, 2, self.clock_steering as u64)?;
        put_u(writer, 2, self.external_clock as u64)?;
        put_flag(writer, self.smoothing)?;
        put_u(writer, 3, self.smoothing_interval as u64)?;
        put_u(writer, 64, self.satellite_mask)?;
        put_u(writer, 32, self.signal_mask as u64)?;
        Ok(())
    }

    // Returns whether each field fits its width.
    pub(crate) fn fits(self) -> bool
        ensures { IsTrue result ↔ FieldsFit (header_table self) }
    {
        if self.station >= 1 << 12 || self.tow >= 1 << 30 || self.issue_of_data_station >= 1 << 3 {
            return false;
        }
        if self.reserved >= 1 << 7 || self.clock_steering >= 1 << 2 {
            return false;
        }
        self.external_clock < 1 << 2 && self.smoothing_interval < 1 << 3
    }
}

/// Reads the fields of an MSM4 to MSM7 after its number and before its cell mask.
#[inline(always)]
pub(crate) fn next_header(reader: &mut BitReader<'_>) -> MsmHeader
    requires { 157 ≤ length reader.old }
    ensures fields { TakesAll (header_table result) reader.old reader.new }
    ensures left { length reader.old ≡ 157 + length reader.new }
{
    let mut first = next_word(reader, 46);
    let mut second = next_word(reader, 15);
    let mut satellites = next_word(reader, 64);
    let mut signals = next_word(reader, 32);
    MsmHeader {
        station: first.next_u16(12),
        tow: first.next_u32(30),
        multiple_message: first.next_flag(),
        issue_of_data_station: first.next_u8(3),
        reserved: second.next_u8(7),
        clock_steering: second.next_u8(2),
        external_clock: second.next_u8(2),
        smoothing: second.next_flag(),
        smoothing_interval: second.next_u8(3),
        satellite_mask: satellites.next_u64(64),
        signal_mask: signals.next_u32(32),
    }
}

// Returns whether the cell mask of these satellites and signals would have more than 64 bits.
pub(crate) fn has_too_many_cells(satellites: usize, signals: usize) -> bool
    requires few { (satellites ≤ 64) × (signals ≤ 32) }
    ensures { IsTrue result ↔ (64 < satellites * signals) }
{
    satellites * signals > 64
}

impl Layout for Msm1074 {
    ghost use Rattle.rtk_message.specs.Msm1074.{table, first_fault, HasNoCells, IsValid};
    ghost use Rattle.rtk_message.specs.Msm1074Laws.{is_accepted, is_unique};

    ghost NUMBER = { 1074 };

    const NUMBER: u16 = 1074;

    ghost table = { table };

    ghost IsValid = { IsValid };

    ghost first_fault = { first_fault };

    ghost IsEmpty = { HasNoCells };

    fn empty() -> Msm1074 {
        Msm1074 {
            header: MsmHeader::default(),
            cell_mask: Column::new(),
            rough_ms: Column::new(),
            rough_fraction: Column::new(),
            fine_range: Column::new(),
            fine_phase: Column::new(),
            lock_indicator: Column::new(),
            half_cycle: Column::new(),
            cnr: Column::new(),
        }
    }

    fn read(&mut self, reader: &mut BitReader<'_>) -> Result<(), DecodeFault> {
        self.replace_fields(reader)
    }

    fn write(&self, writer: &mut BitWriter) -> Result<(), AllocError> {
        self.header.put(writer)?;
        put_mask(writer, &self.cell_mask, self.header.signal_count())?;
        put_column(writer, &self.rough_ms, 8)?;
        put_column(writer, &self.rough_fraction, 10)?;
        put_column(writer, &self.fine_range, 15)?;
        put_column(writer, &self.fine_phase, 22)?;
        put_column(writer, &self.lock_indicator, 4)?;
        put_column(writer, &self.half_cycle, 1)?;
        put_column(writer, &self.cnr, 6)?;
        Ok(())
    }

    fn fits(&self) -> bool {
        if !self.header.fits() || self.header.tow >= WEEK_MS {
            return false;
        }
        if has_too_many_cells(self.header.satellite_count(), self.header.signal_count()) {
            return false;
        }
        self.has_lengths() && self.columns_fit()
    }

    ghost accepted = { is_accepted };

    ghost unique = { is_unique };
}

impl Msm1074 {
    /// Reads the fields after the number in place of those that the message has. After a fault the
    /// message has fields of both, and is to be dropped.
    ///
    /// It is inlined, so that the reader of its caller stays in registers.
    #[inline(always)]
    pub(crate) fn replace_fields(&mut self, reader: &mut BitReader<'_>) -> Result<(), DecodeFault>
        ensures fields { OnOk result (IsValid self.new × TakesAll (table self.new) reader.old reader.new) }
        ensures fault { IfErr result (λ f. first_fault reader.old ≡ Some f) }
    {
        if reader.remaining() < 157 {
            return Err(DecodeFault::Short { number: 1074 });
        }
        self.header = next_header(reader);
        if self.header.tow >= WEEK_MS {
            return Err(DecodeFault::EpochRange { number: 1074 });
        }
        let satellites = self.header.satellite_count();
        let signals = self.header.signal_count();
        if has_too_many_cells(satellites, signals) {
            return Err(DecodeFault::TooManyCells);
        }
        if reader.remaining() < (satellites * signals) as u128 {
            return Err(DecodeFault::Short { number: 1074 });
        }
        let cells = read_mask(&mut self.cell_mask, reader, satellites, signals) as usize;
        prove!(cells <= 64);
        if reader.remaining() < (18 * satellites + 48 * cells) as u128 {
            return Err(DecodeFault::Short { number: 1074 });
        }
        read_column(&mut self.rough_ms, reader, satellites, 8);
        read_column(&mut self.rough_fraction, reader, satellites, 10);
        read_column(&mut self.fine_range, reader, cells, 15);
        read_column(&mut self.fine_phase, reader, cells, 22);
        read_column(&mut self.lock_indicator, reader, cells, 4);
        read_column(&mut self.half_cycle, reader, cells, 1);
        read_column(&mut self.cnr, reader, cells, 6);
        Ok(())
    }

    // Returns whether each column has as many entries as the masks have satellites or cells.
    fn has_lengths(&self) -> bool
        ensures { IsTrue result ↔ HasLengths self.now }
    {
        let satellites = self.header.satellite_count();
        if self.cell_mask.len() != satellites
            || self.rough_ms.len() != satellites
            || self.rough_fraction.len() != satellites
        {
            return false;
        }
        let cells = count_cells(&self.cell_mask) as usize;
        if self.fine_range.len() != cells
            || self.fine_phase.len() != cells
            || self.lock_indicator.len() != cells
        {
            return false;
        }
        self.half_cycle.len() == cells && self.cnr.len() == cells
    }

    // Returns whether each entry of the columns fits its width.
    fn columns_fit(&self) -> bool
        ensures { IsTrue result ↔ EachFits self.now }
    {
        if !column_fits(&self.cell_mask, self.header.signal_count()) {
            return false;
        }
        if !column_fits(&self.rough_ms, 8) || !column_fits(&self.rough_fraction, 10) {
            return false;
        }
        if !column_fits(&self.fine_range, 15) || !column_fits(&self.fine_phase, 22) {
            return false;
        }
        column_fits(&self.lock_indicator, 4) && column_fits(&self.cnr, 6)
    }
}
