//! Multiple signal messages (MSM4 to MSM7) other than 1074: observations of any signals of a system,
//! column by column.

ghost use Rattle.std.specs.Prelude.{◌≡◌, ◌+◌, ◌*◌, ◌≤◌, ◌++◌, length, OnOk, IfErr, Some, IsTrue, ◌↔◌};
ghost use Rattle.rtk_message.specs.Fields.{TakesAll, FieldsAreZero, bits_of_fields};
ghost use Rattle.rtk_message.specs.Msm1074.{satellite_count};
ghost use Rattle.rtk_message.specs.MsmForm.{form_of, if_rates, satellite_bits, cell_bits, satellite_table, cell_table, table, type_of, cell_count, first_fault, HasForm, HasNoCells, IsValid, IsWide};
ghost use Rattle.rtk_message.specs.Systems.{tells_time};
ghost use Rattle.rtk_message.specs.Steps.MsmColumns.{HasWidths, bits_of_cells, HaveSatelliteLengths, HasSatellites, HasCells, ChangesSatellites, ChangesCells, SatellitesFit, CellsFit};
ghost use Rattle.rtk_message.specs.Steps.FieldSteps.{PutsAll};

use crate::any_fault::AnyFault;
use crate::column::{
    Column, column_fits, count_cells, put_column, put_mask, read_column, read_mask,
};
use crate::msm_kind::{MsmForm, MsmKind};
use crate::msm_type::MsmType;
use crate::msm1074::{MsmHeader, has_too_many_cells, next_header};
use crate::system::System;
use rtk_bits::{BitReader, BitWriter};
use std::alloc::AllocError;

/// Multiple signal message 4, 5, 6 or 7 of a system, but for 1074. Each field is given for all
/// satellites, or for all cells, before the next field.
///
/// The satellites are in rising order, as in their mask, and so are the signals. The cells go
/// satellite by satellite, and for each satellite the signals rise. The columns `extended`,
/// `rough_rate` and `fine_rate` are empty in an MSM4 and an MSM6. Source: RTCM 10403.3, messages 1071
/// to 1137.
#[derive(Drop, PartialEq, Eq)]
pub struct Msm {
    /// The system of the satellites.
    pub system: System,
    /// The kind. With MSM4 of GPS the message can't be written: a 1074 is a `Msm1074`.
    pub kind: MsmKind,
    /// The fields before the cell mask. The clock of the system, 30 bits, is its `tow`.
    pub header: MsmHeader,
    /// Cell mask (DF396): for each satellite of the mask a row of one bit for each signal of the
    /// mask, the first signal in the most significant of these bits.
    pub cell_mask: Column<u32>,
    /// For each satellite the whole milliseconds of the rough range (DF397); 255 is invalid.
    pub rough_ms: Column<u8>,
    /// For each satellite the extended satellite information, 4 bits. GLONASS: the frequency channel
    /// and 7 (DF419), 0 to 13; 14 is reserved, and 15 tells none. Other systems: reserved. MSM5 and
    /// MSM7.
    pub extended: Column<u8>,
    /// For each satellite the rest of the rough range (DF398), in 2^-10 ms, 10 bits.
    pub rough_fraction: Column<u16>,
    /// For each satellite the rough range rate (DF399), in m/s, 14 bits signed; -8192 is invalid.
    /// MSM5 and MSM7.
    pub rough_rate: Column<i16>,
    /// For each cell the fine pseudorange. MSM4 and MSM5: DF400, in 2^-24 ms, 15 bits signed; -16384 is
    /// invalid. MSM6 and MSM7: DF405, in 2^-29 ms, 20 bits signed; -524288 is invalid.
    pub fine_range: Column<i32>,
    /// For each cell the fine phase range. MSM4 and MSM5: DF401, in 2^-29 ms, 22 bits signed; -2097152 is
    /// invalid. MSM6 and MSM7: DF406, in 2^-31 ms, 24 bits signed; -8388608 is invalid.
    pub fine_phase: Column<i32>,
    /// For each cell the lock time indicator. MSM4 and MSM5: DF402, 0 to 15. MSM6 and MSM7: DF407, 0 to
    /// 1023; 705 and more are reserved.
    pub lock_indicator: Column<u16>,
    /// For each cell whether there is a half-cycle ambiguity (DF420).
    pub half_cycle: Column<bool>,
    /// For each cell the carrier-to-noise ratio; 0 if it is not given. MSM4 and MSM5: DF403, in dB-Hz, 0 to
    /// 63. MSM6 and MSM7: DF408, in 2^-4 dB-Hz, 0 to 1023.
    pub cnr: Column<u16>,
    /// For each cell the fine range rate (DF404), in 0.0001 m/s, 15 bits signed; -16384 is invalid.
    /// MSM5 and MSM7.
    pub fine_rate: Column<i16>,
}

impl Msm {
    /// Makes an empty message of this type: its fields are 0, it has no satellites and no cells.
    pub fn empty(msm_type: MsmType) -> Msm
        ensures is_of_type { type_of result ≡ msm_type }
        ensures empty { HasNoCells result }
        ensures zero { FieldsAreZero (table result) }
    {
        Msm {
            system: msm_type.system,
            kind: msm_type.kind,
            header: MsmHeader::default(),
            cell_mask: Column::new(),
            rough_ms: Column::new(),
            extended: Column::new(),
            rough_fraction: Column::new(),
            rough_rate: Column::new(),
            fine_range: Column::new(),
            fine_phase: Column::new(),
            lock_indicator: Column::new(),
            half_cycle: Column::new(),
            cnr: Column::new(),
            fine_rate: Column::new(),
        }
    }

    /// Returns the type, which is the system and the kind.
    pub fn msm_type(&self) -> MsmType
        ensures { result ≡ type_of self.now }
    {
        MsmType {
            system: self.system,
            kind: self.kind,
        }
    }

    /// Reads the fields after the number in place of those that the message has. After a fault the
    /// message has fields of both, and is to be dropped. If any day is taken, the day of a clock of
    /// GLONASS may be unknown.
    #[inline(always)]
    pub(crate) fn replace_fields(
        &mut self,
        msm_type: MsmType,
        any_day: bool,
        reader: &mut BitReader<'_>,
    ) -> Result<(), AnyFault>
        requires { IsWide msm_type }
        ensures fields { OnOk result (IsValid self.new × (type_of self.new ≡ msm_type) × TakesAll (table self.new) reader.old reader.new) }
        ensures clock { OnOk result (IsTrue (tells_time any_day self.new.system self.new.header.tow)) }
        ensures fault { IfErr result (λ f. first_fault any_day msm_type reader.old ≡ Some f) }
    {
        let number = msm_type.number();
        if reader.remaining() < 157 {
            return Err(AnyFault::Short { number });
        }
        let kind = msm_type.kind;
        self.system = msm_type.system;
        self.kind = kind;
        self.header = next_header(reader);
        if !msm_type.system.tells_time(any_day, self.header.tow) {
            return Err(AnyFault::EpochRange { number });
        }
        let satellites = self.header.satellite_count();
        let signals = self.header.signal_count();
        if has_too_many_cells(satellites, signals) {
            return Err(AnyFault::TooManyCells { number });
        }
        if reader.remaining() < (satellites * signals) as u128 {
            return Err(AnyFault::Short { number });
        }
        let cells = read_mask(&mut self.cell_mask, reader, satellites, signals) as usize;
        prove!(cells <= 64);
        let bits = kind.satellite_bits() * satellites + kind.cell_bits() * cells;
        if reader.remaining() < bits as u128 {
            return Err(AnyFault::Short { number });
        }
        self.read_satellites(kind, reader, satellites);
        self.read_cells(kind, reader, cells);
        Ok(())
    }

    // Reads the columns of the satellites, and no other field.
    #[inline(always)]
    fn read_satellites(&mut self, kind: MsmKind, reader: &mut BitReader<'_>, satellites: usize)
        requires few { satellites ≤ 64 }
        requires enough { satellite_bits kind * satellites ≤ length reader.old }
        ensures fields { TakesAll (satellite_table self.new) reader.old reader.new }
        ensures lengths { HasSatellites satellites (if_rates kind satellites) self.new }
        ensures rest { ChangesSatellites self.old self.new }
        ensures left { length reader.old ≡ satellite_bits kind * satellites + length reader.new }
    {
        let rates = kind.if_rates(satellites);
        read_column(&mut self.rough_ms, reader, satellites, 8);
        read_column(&mut self.extended, reader, rates, 4);
        read_column(&mut self.rough_fraction, reader, satellites, 10);
        read_column(&mut self.rough_rate, reader, rates, 14);
    }

    // Reads the columns of the cells, and no other field.
    fn read_cells(&mut self, kind: MsmKind, reader: &mut BitReader<'_>, cells: usize)
        requires few { cells ≤ 64 }
        requires enough { cell_bits kind * cells ≤ length reader.old }
        ensures fields { TakesAll (cell_table (form_of kind) self.new) reader.old reader.new }
        ensures lengths { HasCells cells (if_rates kind cells) self.new }
        ensures rest { ChangesCells self.old self.new }
    {
        let rates = kind.if_rates(cells);
        // Each of the two forms is read by code for its own widths.
        match kind {
            MsmKind::Msm4 | MsmKind::Msm5 => {
                self.read_cells_as(MsmKind::Msm5.form(), reader, cells, rates)
            }
            MsmKind::Msm6 | MsmKind::Msm7 => {
                self.read_cells_as(MsmKind::Msm7.form(), reader, cells, rates)
            }
        }
    }

    // Reads the columns of the cells by a form, with this many range rates. It is inlined where the
    // form is a constant.
    #[inline(always)]
    fn read_cells_as(
        &mut self,
        form: MsmForm,
        reader: &mut BitReader<'_>,
        cells: usize,
        rates: usize,
    )
        requires few { (cells ≤ 64) × (rates ≤ 64) }
        requires widths { HasWidths form }
        requires enough { bits_of_cells form cells rates ≤ length reader.old }
        ensures fields { TakesAll (cell_table form self.new) reader.old reader.new }
        ensures lengths { HasCells cells rates self.new }
        ensures rest { ChangesCells self.old self.new }
    {
        read_column(&mut self.fine_range, reader, cells, form.fine_range);
        read_column(&mut self.fine_phase, reader, cells, form.fine_phase);
        read_column(&mut self.lock_indicator, reader, cells, form.lock_indicator);
        read_column(&mut self.half_cycle, reader, cells, 1);
        read_column(&mut self.cnr, reader, cells, form.cnr);
        read_column(&mut self.fine_rate, reader, rates, 15);
    }

    /// Puts the fields after the number. An `Err` means that memory was refused; some of the fields
    /// may have been put before.
    pub(crate) fn write(&self, writer: &mut BitWriter) -> Result<(), AllocError>
        requires { HasForm self.now }
        ensures { OnOk result (writer.new ≡ writer.old ++ bits_of_fields (table self.now)) }
    {
        self.header.put(writer)?;
        put_mask(writer, &self.cell_mask, self.header.signal_count())?;
        put_column(writer, &self.rough_ms, 8)?;
        put_column(writer, &self.extended, 4)?;
        put_column(writer, &self.rough_fraction, 10)?;
        put_column(writer, &self.rough_rate, 14)?;
        self.write_cells(writer, self.kind.form())?;
        Ok(())
    }

    // Puts the columns of the cells.
    fn write_cells(&self, writer: &mut BitWriter, form: MsmForm) -> Result<(), AllocError>
        requires form { form ≡ form_of self.now.kind }
        requires fit { CellsFit form self.now }
        ensures { OnOk result (PutsAll (cell_table form self.now) writer.old writer.new) }
    {
        put_column(writer, &self.fine_range, form.fine_range)?;
        put_column(writer, &self.fine_phase, form.fine_phase)?;
        put_column(writer, &self.lock_indicator, form.lock_indicator)?;
        put_column(writer, &self.half_cycle, 1)?;
        put_column(writer, &self.cnr, form.cnr)?;
        put_column(writer, &self.fine_rate, 15)?;
        Ok(())
    }

    /// Returns whether the message can be written as bits: it is no MSM4 of GPS, each field fits its
    /// width, the columns have their lengths, the clock tells a time, and the cell mask has at most 64
    /// bits. The day of a clock of GLONASS may be unknown.
    pub fn fits(&self) -> bool
        ensures { IsTrue result ↔ IsValid self.now }
    {
        if self.msm_type().number() == 1074 || !self.header.fits() {
            return false;
        }
        if !self.system.tells_time(true, self.header.tow) {
            return false;
        }
        if has_too_many_cells(self.header.satellite_count(), self.header.signal_count()) {
            return false;
        }
        if !self.satellites_have_lengths() || !self.cells_have_lengths() {
            return false;
        }
        self.satellites_fit() && self.cells_fit(self.kind.form())
    }

    // Returns whether each column of the satellites has its length.
    fn satellites_have_lengths(&self) -> bool
        ensures { IsTrue result ↔ HaveSatelliteLengths self.now }
    {
        let satellites = self.header.satellite_count();
        let rates = self.kind.if_rates(satellites);
        self.cell_mask.len() == satellites
            && self.rough_ms.len() == satellites
            && self.extended.len() == rates
            && self.rough_fraction.len() == satellites
            && self.rough_rate.len() == rates
    }

    // Returns whether each column of the cells has its length.
    fn cells_have_lengths(&self) -> bool
        ensures { IsTrue result ↔ HasCells (cell_count self.now) (if_rates self.now.kind (cell_count self.now)) self.now }
    {
        let cells = count_cells(&self.cell_mask) as usize;
        if self.fine_range.len() != cells
            || self.fine_phase.len() != cells
            || self.lock_indicator.len() != cells
        {
            return false;
        }
        self.half_cycle.len() == cells
            && self.cnr.len() == cells
            && self.fine_rate.len() == self.kind.if_rates(cells)
    }

    // Returns whether the rows of the cell mask and the columns of the satellites fit their widths.
    fn satellites_fit(&self) -> bool
        ensures { IsTrue result ↔ SatellitesFit self.now }
    {
        if !column_fits(&self.cell_mask, self.header.signal_count()) {
            return false;
        }
        if !column_fits(&self.rough_ms, 8) || !column_fits(&self.extended, 4) {
            return false;
        }
        column_fits(&self.rough_fraction, 10) && column_fits(&self.rough_rate, 14)
    }

    // Returns whether the columns of the cells fit their widths.
    fn cells_fit(&self, form: MsmForm) -> bool
        requires { form ≡ form_of self.now.kind }
        ensures { IsTrue result ↔ CellsFit form self.now }
    {
        if !column_fits(&self.fine_range, form.fine_range)
            || !column_fits(&self.fine_phase, form.fine_phase)
        {
            return false;
        }
        if !column_fits(&self.lock_indicator, form.lock_indicator) {
            return false;
        }
        column_fits(&self.cnr, form.cnr) && column_fits(&self.fine_rate, 15)
    }
}
