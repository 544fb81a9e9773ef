//! The text of a record of any systems, written satellite by satellite.
//!
//! `push_row` writes the line of a satellite where it stays. So do `open_line`, `put_code` and
//! `close_line`, code by code in any order. `finish` writes the epoch line before the lines, and `text`
//! gives the record. Rows of an epoch may be many, so none is kept.

ghost use Rattle.std.specs.Prelude.{◌≡◌, ◌<◌, ◌≤◌, List, [], ◌∷◌, ◌++◌, false, true, length, replicate, slice_set, OnOk, OnErr};
ghost use Rattle.rtk_obs.specs.SatelliteIndex.{index_name};
ghost use Rattle.rtk_rinex.specs.declared.epoch_table.Observed.{Observed};
ghost use Rattle.rtk_rinex.specs.declared.epoch_table.SatelliteRow.{SatelliteRow};
ghost use Rattle.rtk_rinex.specs.Record.{no_observation};
ghost use Rattle.rtk_rinex.specs.RecordLines.{HasFreeCode, HasOpenLine, IsFreeIn};
ghost use Rattle.rtk_rinex.specs.MixedRecord.{HoldsMixedLines, HasOpenMixedLine, KeepsMixedLines, mixed_record_text};

use crate::epoch_table::Observed;
use crate::record_lines::RecordLines;
use rtk_obs::{GpsMs, SatelliteIndex};
use std::alloc::{AllocError, Global};
use std::marker::Model;

// The name of each satellite and a blank, by its index. No satellite has the first one.
static SATELLITE_NAMES: [u8; 888] = *b"\
    G00 G01 G02 G03 G04 G05 G06 G07 G08 G09 G10 G11 G12 G13 G14 G15 G16 G17 G18 G19 \
    G20 G21 G22 G23 G24 G25 G26 G27 G28 G29 G30 G31 G32 R01 R02 R03 R04 R05 R06 R07 \
    R08 R09 R10 R11 R12 R13 R14 R15 R16 R17 R18 R19 R20 R21 R22 R23 R24 R25 R26 R27 \
    E01 E02 E03 E04 E05 E06 E07 E08 E09 E10 E11 E12 E13 E14 E15 E16 E17 E18 E19 E20 \
    E21 E22 E23 E24 E25 E26 E27 E28 E29 E30 E31 E32 E33 E34 E35 E36 C01 C02 C03 C04 \
    C05 C06 C07 C08 C09 C10 C11 C12 C13 C14 C15 C16 C17 C18 C19 C20 C21 C22 C23 C24 \
    C25 C26 C27 C28 C29 C30 C31 C32 C33 C34 C35 C36 C37 C38 C39 C40 C41 C42 C43 C44 \
    C45 C46 C47 C48 C49 C50 C51 C52 C53 C54 C55 C56 C57 C58 C59 C60 C61 C62 C63 J01 \
    J02 J03 J04 J05 J06 J07 J08 J09 J10 S20 S21 S22 S23 S24 S25 S26 S27 S28 S29 S30 \
    S31 S32 S33 S34 S35 S36 S37 S38 S39 S40 S41 S42 S43 S44 S45 S46 S47 S48 S49 S50 \
    S51 S52 S53 S54 S55 S56 S57 S58 I01 I02 I03 I04 I05 I06 I07 I08 I09 I10 I11 I12 \
    I13 I14 ";

// Returns the name of a satellite, which `satellite_name` of rtk_obs works out: here it is read, since each line of a
// file needs one.
fn name_of(satellite: SatelliteIndex) -> [u8; 3]
    ensures { result ≡ index_name satellite }
{
    let entry = 4 * usize::from(satellite.index());
    [
        SATELLITE_NAMES[entry],
        SATELLITE_NAMES[entry + 1],
        SATELLITE_NAMES[entry + 2],
    ]
}

/// The text of a record of any systems that is written satellite by satellite, and kept from record to
/// record, with Doppler shifts or without them; a contract sees its `MixedLinesView`.
///
/// The first line takes the memory for 32 satellites of its number of codes: 36 bytes, and at most 772 for
/// each, or 1,028 with Doppler shifts. A line that has no room takes it for 32 satellites more.
#[derive(Drop)]
pub struct MixedRecordLines {
    lines: RecordLines,
    doppler: bool,
}

// Clauses see the lines, and whether they show Doppler shifts. The invariant names every field.
impl Model for MixedRecordLines {
    ghost use Rattle.std.specs.Prelude.{◌≡◌};
    ghost use Rattle.rtk_rinex.specs.MixedRecord.{MixedLinesView};

    ghost Value = { MixedLinesView };

    ghost view = { λ r. record { lines = r.lines; doppler = r.doppler } };

    ghost invariant = { λ r. r ≡ record { lines = r.lines; doppler = r.doppler } };
}

impl MixedRecordLines {
    /// Makes a text without satellites, whose lines show no Doppler shifts. It takes no memory.
    pub fn new(alloc: Global) -> MixedRecordLines
        ensures lines { HoldsMixedLines result [] }
        ensures doppler { result.doppler ≡ false }
    {
        MixedRecordLines {
            lines: RecordLines::new(alloc),
            doppler: false,
        }
    }

    /// Begins another record, without satellites.
    pub fn restart(&mut self)
        ensures lines { HoldsMixedLines self.new [] }
        ensures doppler { self.new.doppler ≡ self.old.doppler }
    {
        self.lines.restart();
    }

    /// Begins another record, without satellites, whose lines show Doppler shifts or not.
    pub fn restart_with(&mut self, doppler: bool)
        ensures lines { HoldsMixedLines self.new [] }
        ensures doppler { self.new.doppler ≡ doppler }
    {
        self.lines.restart();
        self.doppler = doppler;
    }

    /// Begins the line of a satellite with this number of codes, which show nothing yet. What was
    /// written of a line that was begun and not ended is blanked.
    ///
    /// Memory is taken only if the text has no room for a line with each value.
    pub fn open_line(&mut self, codes: usize) -> Result<(), AllocError>
        requires few { codes ≤ 16 }
        requires room { self.old.lines.count < 221 }
        ensures open { OnOk result (HasOpenMixedLine self.new (replicate codes no_observation)) }
        ensures lines { KeepsMixedLines self.old self.new }
        ensures err { OnErr result (self.new ≡ self.old) }
    {
        self.lines.open_line_of(self.doppler, codes)
    }

    /// Writes what a code shows at its place in the open line, in which it shows nothing yet. A line without Doppler
    /// shifts leaves the shift out.
    #[inline(always)]
    pub fn put_code(&mut self, place: usize, observed: &Observed)
        requires { HasFreeCode self.old.doppler self.old.lines place }
        ensures open { (row : List Observed) → HasOpenMixedLine self.old row → IsFreeIn self.old.doppler row place
            → HasOpenMixedLine self.new (slice_set row place observed.now) }
        ensures lines { KeepsMixedLines self.old self.new }
    {
        if self.doppler {
            self.lines.put_doppler_code(place, observed);
        } else {
            self.lines.put_code(place, observed);
        }
    }

    /// Writes what a code shows without its Doppler shift at its place in the open line, in which it shows nothing
    /// yet. A caller who writes many codes asks once, and not for each of them, whether lines show shifts.
    #[inline(always)]
    pub fn put_plain_code(&mut self, place: usize, observed: &Observed)
        requires { HasFreeCode false self.old.lines place }
        ensures open { (row : List Observed) → HasOpenLine false self.old.lines row → IsFreeIn false row place
            → HasOpenLine false self.new.lines (slice_set row place observed.now) }
        ensures lines { KeepsMixedLines self.old self.new }
    {
        self.lines.put_code(place, observed);
    }

    /// Writes what a code shows with its Doppler shift, as `put_plain_code` does without it.
    #[inline(always)]
    pub fn put_doppler_code(&mut self, place: usize, observed: &Observed)
        requires { HasFreeCode true self.old.lines place }
        ensures open { (row : List Observed) → HasOpenLine true self.old.lines row → IsFreeIn true row place
            → HasOpenLine true self.new.lines (slice_set row place observed.now) }
        ensures lines { KeepsMixedLines self.old self.new }
    {
        self.lines.put_doppler_code(place, observed);
    }

    /// Ends the open line as that of this satellite. A line without a written observation is left
    /// out. In a record of RINEX the satellites rise, and each line has the codes that the header lists of
    /// its system. The caller has to see to that.
    #[inline(always)]
    pub fn close_line(&mut self, satellite: SatelliteIndex)
        requires { self.old.lines.count < 221 }
        ensures lines { (rows : List SatelliteRow) (observed : List Observed) → HoldsMixedLines self.old rows → HasOpenMixedLine self.old observed
            → HoldsMixedLines self.new (rows ++ record { satellite = satellite; observed = record { items = observed } } ∷ []) }
        ensures doppler { self.new.doppler ≡ self.old.doppler }
    {
        self.lines.close_named(name_of(satellite));
    }

    // Writes what the codes show in the open line, in which they show nothing yet.
    fn put_codes(&mut self, observed: &[Observed])
        requires { HasOpenMixedLine self.old (replicate (length observed.now) no_observation) }
        ensures open { HasOpenMixedLine self.new observed.now }
        ensures lines { KeepsMixedLines self.old self.new }
    {
        for (place, shown) in observed.iter().enumerate() {
            self.put_code(place, shown);
        }
    }

    /// Adds the line of a satellite if an observation of it is written. In a record of RINEX the
    /// satellites rise, and each line has the codes that the header lists of its system. The caller has to
    /// see to that.
    ///
    /// Memory is taken only if the text has no room for a line with each value.
    pub fn push_row(
        &mut self,
        satellite: SatelliteIndex,
        observed: &[Observed],
    ) -> Result<(), AllocError>
        requires few { length observed.now ≤ 16 }
        requires room { self.old.lines.count < 221 }
        ensures ok { OnOk result ((rows : List SatelliteRow) → HoldsMixedLines self.old rows
            → HoldsMixedLines self.new (rows ++ record { satellite = satellite; observed = record { items = observed.now } } ∷ [])) }
        ensures doppler { self.new.doppler ≡ self.old.doppler }
        ensures err { OnErr result (self.new ≡ self.old) }
    {
        self.open_line(observed.len())?;
        self.put_codes(observed);
        self.close_line(satellite);
        Ok(())
    }

    /// Writes the epoch line before the lines if there are any. The text is the record then.
    pub fn finish(&mut self, time: GpsMs)
        ensures text { (rows : List SatelliteRow) → HoldsMixedLines self.old rows
            → self.new.lines.text ≡ mixed_record_text self.old.doppler (record { time = time; rows = rows }) }
        ensures lines { (rows : List SatelliteRow) → HoldsMixedLines self.old rows → HoldsMixedLines self.new rows }
        ensures doppler { self.new.doppler ≡ self.old.doppler }
    {
        self.lines.put_time(time);
    }

    /// Returns the text. After `finish` it is the text of the record, or no bytes if no observation is
    /// written.
    pub fn text(&self) -> &[u8]
        ensures { result.now ≡ self.now.lines.text }
    {
        self.lines.text()
    }

    /// Returns the text, with its memory.
    pub fn into_text(self) -> Vec<u8>
        ensures { result.items ≡ self.lines.text }
    {
        self.lines.into_text()
    }
}
