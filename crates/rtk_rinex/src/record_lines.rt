//! The text of a record that is written satellite by satellite, and the record of a table.
//!
//! `push_row` writes the line of a satellite where it stays. So do `open_line`, `put_code` and
//! `close_line`, code by code in any order. `finish` writes the epoch line before the lines, and `text`
//! gives the record. The text is kept from record to record; memory is taken at the first line, for 32
//! satellites. mixed_record_lines.rt writes the records of any systems by the same steps.

ghost use Rattle.std.specs.Prelude.{◌≡◌, ◌+◌, ◌*◌, ◌-◌, ◌<◌, ◌≤◌, Bool, true, false, List, [], ◌∷◌, ◌++◌, length, take, drop, replicate, slice_set, OnOk, OnErr, IfOk};
ghost use Rattle.rtk_rinex.specs.declared.epoch_table.Observed.{Observed};
ghost use Rattle.rtk_rinex.specs.declared.epoch_table.SatelliteRow.{SatelliteRow};
ghost use Rattle.rtk_rinex.specs.Record.{HasWidth, observations, observations_with_doppler, code_width, record_text, no_observation};
ghost use Rattle.rtk_rinex.specs.RecordLines.{HasOpenLine, HasFreeCode, HoldsLines, IsFreeIn, KeepsLines, ended};
ghost use Rattle.rtk_rinex.specs.Steps.WrittenLines.{AddsLine, PutsEpochLine};

use crate::columns::{BLANK_COLUMNS, CODE_COLUMNS, DOPPLER_COLUMNS, EPOCH_LINE, GPS_SATELLITES};
use crate::epoch_table::{EpochTable, Observed};
use crate::head::Head;
use crate::record_text::{
    end_line, gps_name, has_line, has_observation, has_observation_or_doppler, put_columns,
    put_doppler_columns, put_epoch_line,
};
use rtk_obs::{GpsMs, civil};
use std::alloc::{AllocError, Global};
use std::marker::Model;

/// The text of a record that is written satellite by satellite, and kept from record to record; a
/// contract sees its `RecordLinesView`.
///
/// Blanks follow the text, over which the next line is written. The first line takes the memory for
/// 32 satellites of its number of codes: 36 bytes, and at most 772 for each, or 1,028 with Doppler shifts. A line that
/// has no room takes it for 32 satellites more.
#[derive(Drop)]
pub struct RecordLines {
    text: Vec<u8>,
    len: usize,
    // Where the next line begins: behind the text, or where the epoch line of an empty one ends.
    at: usize,
    // Where the columns end that are written of the next line, but for the blank ones of its last code, or `len`.
    end: usize,
    count: usize,
}

// Clauses see the text, the count and what is written of the next line. The first part of the invariant
// bounds what is kept. The last part names every field, so nobody can add a field in which records are
// kept unseen: the equation would then fail to check.
impl Model for RecordLines {
    ghost use Rattle.std.specs.Prelude.{◌≡◌, drop, max, nat_lt, take};
    ghost use Rattle.rtk_rinex.specs.RecordLines.{IsKeptText, RecordLinesView};

    ghost Value = { RecordLinesView };

    ghost view = { λ r. record {
      text = take r.len r.text.items;
      count = r.count;
      rest = drop (max r.len 36) r.text.items;
      is_written = nat_lt r.len r.end;
    } };

    ghost invariant = { λ r. IsKeptText r.text.items r.len r.at r.end r.count
        × (r ≡ record { text = r.text; len = r.len; at = r.at; end = r.end; count = r.count }) };
}

// Lengthens a text by blanks.
#[inline(never)]
fn lengthen(text: &mut Vec<u8>, len: usize) -> Result<(), AllocError>
    requires { length text.old.items ≤ len }
    ensures ok { OnOk result (text.new.items ≡ text.old.items ++ replicate (len - length text.old.items) 32) }
    ensures err { OnErr result (text.new.items ≡ text.old.items) }
{
    text.reserve_exact(len - text.len())?;
    text.resize(len, b' ')?;
    Ok(())
}

// Lengthens a text by blanks if it has no room for a line at this place, and then for 32 lines of this
// length.
fn make_room(text: &mut Vec<u8>, at: usize, room: usize) -> Result<(), AllocError>
    requires place { at ≤ 36 + 1028 * 220 }
    requires short { room ≤ 1028 }
    requires bound { length text.old.items ≤ 259_092 }
    ensures bound { length text.new.items ≤ 259_092 }
    ensures ok { OnOk result (text.new.items ≡ text.old.items ++ replicate (length text.new.items - length text.old.items) 32) }
    ensures room { OnOk result (at + room ≤ length text.new.items) }
    ensures err { OnErr result (text.new.items ≡ text.old.items) }
{
    if text.len() >= at + room {
        return Ok(());
    }
    lengthen(text, at + GPS_SATELLITES * room)
}

// How many bytes are blanked at once. The C library stores so few by vectors, and from 2 KB on one byte after
// another.
const PIECE: usize = 2000;

// Blanks a part of a text.
fn clear(part: &mut [u8])
    ensures { part.new ≡ replicate (length part.old) 32 }
{
    let mut at = 0;
    while at + PIECE < part.len() {
        part[at..at + PIECE].fill(b' ');
        at += PIECE;
    }
    part[at..].fill(b' ');
}

// Blanks a text from a place on. From `end` on it is blank already.
fn blank(text: &mut [u8], begin: usize, end: usize)
    requires from { begin ≤ end }
    requires within { end ≤ length text.old }
    requires after { drop end text.old ≡ replicate (length text.old - end) 32 }
    ensures { text.new ≡ take begin text.old ++ replicate (length text.old - begin) 32 }
{
    clear(&mut text[begin..end]);
}

// Writes the columns of a code over blanks at this place of a text. It only hands on, and is here for
// its clauses.
#[inline(always)]
fn put_code_at(text: &mut [u8], at: usize, observed: &Observed)
    requires room { at + 48 ≤ length text.old }
    requires blank { take 48 (drop at text.old) ≡ replicate 48 32 }
    ensures { text.new ≡ take at text.old ++ (observations observed.now ++ drop 48 (drop at text.old)) }
{
    put_columns(&mut text[at..at + CODE_COLUMNS], observed);
}

// Writes the columns of a code with its Doppler shift over blanks at this place of a text, as `put_code_at` does without
// one.
#[inline(always)]
fn put_doppler_code_at(text: &mut [u8], at: usize, observed: &Observed)
    requires room { at + 64 ≤ length text.old }
    requires blank { take 64 (drop at text.old) ≡ replicate 64 32 }
    ensures { text.new ≡ take at text.old ++ (observations_with_doppler observed.now ++ drop 64 (drop at text.old)) }
{
    put_doppler_columns(&mut text[at..at + DOPPLER_COLUMNS], observed);
}

// Returns the most bytes of the line of a satellite with this number of codes, with Doppler shifts or without them.
fn line_room(doppler: bool, codes: usize) -> usize
    requires { codes ≤ 16 }
    ensures value { result ≡ 4 + code_width doppler * codes }
    ensures few { result ≤ 1028 }
{
    if doppler {
        4 + DOPPLER_COLUMNS * codes
    } else {
        4 + CODE_COLUMNS * codes
    }
}

// Ends the line of a satellite of this name that begins at this place of a text, and returns where the
// text ends. It only hands on, and is here for its clauses.
#[inline(always)]
fn end_line_at(text: &mut [u8], at: usize, name: [u8; 3], end: usize) -> usize
    requires name { length name ≡ 3 }
    requires columns { at + 3 ≤ end }
    requires room { end < length text.old }
    requires blank { drop end text.old ≡ replicate (length text.old - end) 32 }
    ensures text { text.new ≡ (take at text.old ++ ended name (drop at text.old)) ++ replicate (length text.old - result) 32 }
    ensures len { result ≡ at + length (ended name (drop at text.old)) }
    ensures within { result ≤ end + 1 }
{
    at + end_line(&mut text[at..], name, end - at)
}

impl RecordLines {
    /// Makes a text without satellites. It takes no memory.
    pub fn new(alloc: Global) -> RecordLines
        ensures { HoldsLines result [] }
    {
        RecordLines {
            text: Vec::new(alloc),
            len: 0,
            at: EPOCH_LINE,
            end: 0,
            count: 0,
        }
    }

    /// Begins another record, without satellites.
    pub fn restart(&mut self)
        ensures { HoldsLines self.new [] }
    {
        blank(&mut self.text, 0, self.end);
        self.len = 0;
        self.at = EPOCH_LINE;
        self.end = 0;
        self.count = 0;
    }

    /// Begins the line of a satellite with this number of codes, which show nothing yet. What was
    /// written of a line that was begun and not ended is blanked.
    ///
    /// Memory is taken only if the text has no room for a line with each value.
    pub fn open_line(&mut self, codes: usize) -> Result<(), AllocError>
        requires few { codes ≤ 16 }
        requires room { self.old.count < 221 }
        ensures open { OnOk result (HasOpenLine false self.new (replicate codes no_observation)) }
        ensures lines { KeepsLines self.old self.new }
        ensures err { OnErr result (self.new ≡ self.old) }
    {
        self.open_line_of(false, codes)
    }

    /// Begins the line of a satellite, as `open_line` does, in a file with Doppler shifts or without them.
    #[inline(always)]
    pub(crate) fn open_line_of(&mut self, doppler: bool, codes: usize) -> Result<(), AllocError>
        requires few { codes ≤ 16 }
        requires room { self.old.count < 221 }
        ensures open { OnOk result (HasOpenLine doppler self.new (replicate codes no_observation)) }
        ensures lines { KeepsLines self.old self.new }
        ensures err { OnErr result (self.new ≡ self.old) }
    {
        make_room(&mut self.text, self.at, line_room(doppler, codes))?;
        if self.end > self.len {
            blank(&mut self.text, self.len, self.end);
            self.end = self.len;
        }
        Ok(())
    }

    /// Writes what a code shows at its place in the open line, in which it shows nothing yet.
    #[inline(always)]
    pub fn put_code(&mut self, place: usize, observed: &Observed)
        requires { HasFreeCode false self.old place }
        ensures open { (row : List Observed) → HasOpenLine false self.old row → IsFreeIn false row place
            → HasOpenLine false self.new (slice_set row place observed.now) }
        ensures lines { KeepsLines self.old self.new }
    {
        if has_observation(observed) {
            let at = self.at + 3 + CODE_COLUMNS * place;
            put_code_at(&mut self.text, at, observed);
            self.end = self.end.max(at + CODE_COLUMNS - BLANK_COLUMNS);
        }
    }

    /// Writes what a code shows in a file with Doppler shifts at its place in the open line, in which it shows
    /// nothing yet. It is inlined, since a call would need the `Observed` in memory, and then each cell of a file
    /// without shifts would be written there too.
    #[inline(always)]
    pub(crate) fn put_doppler_code(&mut self, place: usize, observed: &Observed)
        requires { HasFreeCode true self.old place }
        ensures open { (row : List Observed) → HasOpenLine true self.old row → IsFreeIn true row place
            → HasOpenLine true self.new (slice_set row place observed.now) }
        ensures lines { KeepsLines self.old self.new }
    {
        if has_observation_or_doppler(observed) {
            let at = self.at + 3 + DOPPLER_COLUMNS * place;
            put_doppler_code_at(&mut self.text, at, observed);
            self.end = self.end.max(at + DOPPLER_COLUMNS - BLANK_COLUMNS);
        }
    }

    /// Ends the open line as that of this satellite. A line without a written observation is left
    /// out. In a record of RINEX the satellites rise, and each line has the same codes. The caller
    /// has to see to that.
    pub fn close_line(&mut self, satellite: u8)
        requires { self.old.count < 221 }
        ensures { (rows : List SatelliteRow) (observed : List Observed) → HoldsLines self.old rows → HasOpenLine false self.old observed
            → HoldsLines self.new (rows ++ record { satellite = satellite; observed = record { items = observed } } ∷ []) }
    {
        self.close_named(gps_name(satellite));
    }

    /// Ends the open line as that of a satellite of this name. A line without a written observation is
    /// left out.
    #[inline(always)]
    pub(crate) fn close_named(&mut self, name: [u8; 3])
        requires name { length name ≡ 3 }
        requires room { self.old.count < 221 }
        ensures { (doppler : Bool) (observed : List Observed) → HasOpenLine doppler self.old observed → AddsLine doppler name observed self.old self.new }
    {
        if self.end > self.len {
            self.len = end_line_at(&mut self.text, self.at, name, self.end);
            self.at = self.len;
            self.end = self.len;
            self.count += 1;
        }
    }

    /// Writes what the codes show in the open line, in which they show nothing yet.
    pub(crate) fn put_codes(&mut self, observed: &[Observed])
        requires { HasOpenLine false self.old (replicate (length observed.now) no_observation) }
        ensures open { HasOpenLine false self.new observed.now }
        ensures lines { KeepsLines self.old self.new }
    {
        for (place, shown) in observed.iter().enumerate() {
            self.put_code(place, shown);
        }
    }

    /// Adds the line of a satellite if an observation of it is written. In a record of RINEX the
    /// satellites rise, and each line has the same codes. The caller has to see to that.
    ///
    /// Memory is taken only if the text has no room for a line with each value.
    pub fn push_row(&mut self, satellite: u8, observed: &[Observed]) -> Result<(), AllocError>
        requires few { length observed.now ≤ 16 }
        requires room { self.old.count < 221 }
        ensures ok { OnOk result ((rows : List SatelliteRow) → HoldsLines self.old rows
            → HoldsLines self.new (rows ++ record { satellite = satellite; observed = record { items = observed.now } } ∷ [])) }
        ensures err { OnErr result (self.new ≡ self.old) }
    {
        self.open_line(observed.len())?;
        self.put_codes(observed);
        self.close_line(satellite);
        Ok(())
    }

    /// Writes the epoch line before the lines if there are any. The text is the record then.
    pub fn finish(&mut self, time: GpsMs)
        ensures text { (rows : List SatelliteRow) → HoldsLines self.old rows
            → self.new.text ≡ record_text (record { time = time; rows = rows }) }
        ensures lines { (rows : List SatelliteRow) → HoldsLines self.old rows → HoldsLines self.new rows }
    {
        self.put_time(time);
    }

    /// Writes the epoch line before the lines if there are any.
    pub(crate) fn put_time(&mut self, time: GpsMs)
        ensures { PutsEpochLine time self.old self.new }
    {
        if self.count > 0 {
            put_epoch_line(&mut self.text, civil(time), self.count);
        }
    }

    /// Returns the text. After `finish` it is the text of the record, or no bytes if no observation
    /// is written.
    pub fn text(&self) -> &[u8]
        ensures { result.now ≡ self.now.text }
    {
        &self.text[..self.len]
    }

    // Makes room for the lines of this many satellites with this many codes.
    fn make_room_for(&mut self, rows: usize, codes: usize) -> Result<(), AllocError>
        requires few { (rows ≤ 32) × (codes ≤ 16) }
        ensures { KeepsLines self.old self.new }
    {
        let room = EPOCH_LINE + rows * (4 + CODE_COLUMNS * codes);
        if self.text.len() < room {
            lengthen(&mut self.text, room)?;
        }
        Ok(())
    }

    /// Returns the text, with its memory.
    pub(crate) fn into_text(self) -> Vec<u8>
        ensures { result.items ≡ self.text }
    {
        let mut text = self.text;
        text.truncate(self.len);
        text
    }
}

/// Returns the record of an epoch in a file of this head, or no bytes if no observation is written.
///
/// Satellites without a written observation are left out, and not counted on the epoch line. Memory
/// is taken at most once. Source: RINEX 3.05, Table A3.
pub fn record(alloc: Global, head: &Head, table: &EpochTable) -> Result<Vec<u8>, AllocError>
    requires { HasWidth (length head.now.listed) table.now.rows }
    // Fails only if memory is refused: tests/system/calls, rows `record ..`.
    ensures { IfOk result (λ text. text.items ≡ record_text table.now) }
{
    let mut lines = RecordLines::new(alloc);
    let most = table.rows().len().min(GPS_SATELLITES);
    for row in table.rows() {
        if has_line(row) {
            lines.make_room_for(most, row.observed.len())?;
            lines.push_row(row.satellite, row.observed.as_slice())?;
        }
    }
    lines.finish(table.time());
    Ok(lines.into_text())
}
