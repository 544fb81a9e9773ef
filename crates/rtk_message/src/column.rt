//! Columns of fields: a value for each satellite or cell, and the cell mask.

ghost use Rattle.rtk_message.specs.FieldColumns.{numbers};
ghost use Rattle.rtk_message.specs.Fields.{TakesAll, FieldsFit};
ghost use Rattle.rtk_message.specs.Steps.FieldSteps.{PutsAll, TakesMore};
ghost use Rattle.std.specs.Prelude.{◌≡◌, ◌≤◌, ◌<◌, ◌*◌, ◌+◌, length, take, OnOk, sum_by, count_ones, ◌++◌, map, List, Bool, IsTrue, ◌↔◌};

use crate::field::{FieldValue, Word, next_word};
use arrayvec::ArrayVec;
use rtk_bits::{BitReader, BitWriter};
use std::alloc::AllocError;
use std::marker::Model;

/// Reads a row of `signals` bits for each satellite, satellite by satellite, as the rows of a mask.
/// The result is how many of their bits are set.
///
/// If there is no signal, the rows have no bits, and each of them is 0.
#[inline(always)]
pub(crate) fn read_mask(
    mask: &mut Column<u32>,
    reader: &mut BitReader<'_>,
    satellites: usize,
    signals: usize,
) -> u32
    requires few { (satellites ≤ 64) × (signals ≤ 32) }
    requires bits { signals * satellites ≤ 64 }
    requires enough { signals * satellites ≤ length reader.old }
    ensures fields { TakesAll (numbers signals mask.new) reader.old reader.new }
    ensures count { length mask.new ≡ satellites }
    ensures cells { result ≡ sum_by count_ones mask.new }
    ensures left { length reader.old ≡ signals * satellites + length reader.new }
{
    mask.resize(satellites);
    if signals == 0 || satellites == 0 {
        for place in 0..satellites {
            mask.set(place, 0);
        }
        return 0;
    }
    let mut word = next_word(reader, signals * satellites);
    let cells = word.count_ones();
    set_fields(mask, 0, &mut word, satellites, signals);
    cells
}

/// Puts the rows of a cell mask.
pub(crate) fn put_mask(
    writer: &mut BitWriter,
    mask: &Column<u32>,
    signals: usize,
) -> Result<(), AllocError>
    requires few { signals ≤ 32 }
    requires fit { FieldsFit (numbers signals mask.now) }
    ensures { OnOk result (PutsAll (numbers signals mask.now) writer.old writer.new) }
{
    if signals > 0 {
        put_column(writer, mask, signals)?;
    }
    Ok(())
}

/// Returns how many cells the mask has, which is how many bits are set in its rows.
pub(crate) fn count_cells(mask: &Column<u32>) -> u32
    ensures { result ≡ sum_by count_ones mask.now }
{
    let mut sum = 0;
    for row in mask.as_slice() {
        sum += row.count_ones();
    }
    sum
}

/// The values of one field, for each satellite or for each cell: at most 64. A contract sees the
/// list.
#[derive(Drop)]
pub struct Column<T> {
    list: ArrayVec<T, 64>,
}

// Clauses see the list of values, at most 64. Source: RTCM 10403.3, DF394 and DF396.
impl<T> Model for Column<T> {
    ghost use Rattle.std.specs.Prelude.{List, length, ◌≤◌};

    ghost Value = { List T };

    ghost view = { λ c. c.list.items };

    ghost invariant = { λ c. length c.list.items ≤ 64 };
}

impl<T: Copy + Default> Column<T> {
    ghost use Rattle.std.specs.Prelude.{[], ◌∷◌, slice_set};

    /// Makes a column without values.
    pub fn new() -> Column<T>
        ensures { result ≡ [] }
    {
        Column {
            list: ArrayVec::new(),
        }
    }

    /// Returns how many values there are.
    pub fn len(&self) -> usize
        ensures value { result ≡ length self.now }
        ensures few { result ≤ 64 }
    {
        self.list.len()
    }

    /// Returns the values in their order.
    pub fn as_slice(&self) -> &[T]
        ensures value { result.now ≡ self.now }
        ensures few { length result.now ≤ 64 }
    {
        self.list.as_slice()
    }

    /// Makes the list this long. It leaves out the last values, or adds some that are to be set.
    pub(crate) fn resize(&mut self, count: usize)
        requires { count ≤ 64 }
        ensures { length self.new ≡ count }
    {
        self.list.truncate(count);
        for _ in self.list.len()..count {
            self.list.push(T::default());
        }
    }

    /// Sets the value at this place.
    pub(crate) fn set(&mut self, place: usize, value: T)
        requires { place < length self.old }
        ensures { self.new ≡ slice_set self.old place value }
    {
        self.list.as_mut_slice()[place] = value;
    }

    /// Adds a value after the others.
    pub fn push(&mut self, value: T)
        requires { length self.old < 64 }
        ensures { self.new ≡ self.old ++ value ∷ [] }
    {
        self.list.push(value);
    }
}

impl<T: PartialEq> PartialEq for Column<T> {
    ghost use Rattle.std.specs.Cmp.Lexicographic.{pointwise, lists_per};

    ghost eq = { λ v w. pointwise T.eq v w };

    ghost laws = { lists_per T.laws };

    fn eq(&self, other: &Self) -> bool {
        self.list.as_slice() == other.list.as_slice()
    }
}

impl<T: Eq> Eq for Column<T> {
    ghost use Rattle.std.specs.Cmp.Lexicographic.{lists_equiv};

    ghost laws = { lists_equiv T.Eq.laws };
}

// The most bits that are taken at once. At most 7 bits of their first byte were taken before, so
// they lie in eight bytes, which a reader loads in one step.
const AT_ONCE: usize = 57;

/// Reads `count` fields of one width as the values of a column, in place of those that it has. As
/// many fields are read at once as 57 bits hold.
///
/// It is inlined, so that each column is read by code for its own width.
#[inline(always)]
pub(crate) fn read_column<T: FieldValue>(
    column: &mut Column<T>,
    reader: &mut BitReader<'_>,
    count: usize,
    width: usize,
)
    requires few { count ≤ 64 }
    requires width { T.IsWidth width }
    requires some { (1 ≤ width) × (width ≤ 57) }
    requires enough { width * count ≤ length reader.old }
    ensures fields { TakesAll (map (T.field width) column.new) reader.old reader.new }
    ensures count { length column.new ≡ count }
    ensures left { length reader.old ≡ width * count + length reader.new }
{
    column.resize(count);
    let most = AT_ONCE / width;
    let mut at = 0;
    while count - at >= most {
        read_fields(column, at, reader, most, width);
        at += most;
    }
    let rest = count - at;
    if rest > 0 {
        read_fields(column, at, reader, rest, width);
    }
}

// Reads some fields at once as the values of a column from this place on. The clause `fields` says:
// if the bits `from` were the fields of the values before this place and then the bits of the
// reader, they are those of the values read too and then the bits that are left.
#[inline(always)]
fn read_fields<T: FieldValue>(
    column: &mut Column<T>,
    at: usize,
    reader: &mut BitReader<'_>,
    fields: usize,
    width: usize,
)
    requires room { (at + fields ≤ 64) × (at + fields ≤ length column.old) }
    requires width { T.IsWidth width }
    requires some { (1 ≤ width) × (1 ≤ fields) × (width * fields ≤ 64) }
    requires enough { width * fields ≤ length reader.old }
    ensures fields { TakesMore (T.field width) (take at column.old) (take (at + fields) column.new) reader.old reader.new }
    ensures count { length column.new ≡ length column.old }
    ensures left { length reader.old ≡ width * fields + length reader.new }
{
    let mut word = next_word(reader, width * fields);
    set_fields(column, at, &mut word, fields, width);
}

// Takes some fields from a word as the values of a column from this place on. The clause `fields`
// says of the bits of the word, and of the bits `rest` after it, what the clause of `read_fields`
// says of the bits of a reader.
#[inline(always)]
fn set_fields<T: FieldValue>(
    column: &mut Column<T>,
    at: usize,
    word: &mut Word,
    fields: usize,
    width: usize,
)
    requires room { (at + fields ≤ 64) × (at + fields ≤ length column.old) }
    requires width { T.IsWidth width }
    requires some { 1 ≤ width }
    requires enough { width * fields ≤ length word.old }
    ensures fields { (rest : List Bool) → TakesMore (T.field width) (take at column.old) (take (at + fields) column.new)
        (word.old ++ rest) (word.new ++ rest) }
    ensures count { length column.new ≡ length column.old }
    ensures left { length word.old ≡ width * fields + length word.new }
{
    for place in 0..fields {
        column.set(at + place, T::next(word, width));
    }
}

/// Puts each value of the column as a field of this width.
pub(crate) fn put_column<T: FieldValue>(
    writer: &mut BitWriter,
    column: &Column<T>,
    width: usize,
) -> Result<(), AllocError>
    requires width { T.IsWidth width }
    requires some { 1 ≤ width }
    requires fit { FieldsFit (map (T.field width) column.now) }
    ensures { OnOk result (PutsAll (map (T.field width) column.now) writer.old writer.new) }
{
    for value in column.as_slice() {
        value.put(writer, width)?;
    }
    Ok(())
}

/// Returns whether each value fits the width.
pub(crate) fn column_fits<T: FieldValue>(column: &Column<T>, width: usize) -> bool
    requires width { T.IsWidth width }
    ensures { IsTrue result ↔ FieldsFit (map (T.field width) column.now) }
{
    for value in column.as_slice() {
        if !value.fits(width) {
            return false;
        }
    }
    true
}
