//! What several groups of satellites have together in an SVG picture: numbers of satellites, and strengths.

ghost use Rattle.std.specs.Prelude.{◌≡◌, ◌≤◌, length, map, IfOk};
ghost use Rattle.rtk_obs.specs.AnyCode.{name_of};
ghost use Rattle.rtk_chart.specs.SvgSystems.{lower_band, upper_band, lower_of, upper_of, both_counts, counts_with, both_strengths, both_columns, columns_with};

use crate::strengths::{BandStrengths, MOST_COLUMNS, Strengths};
use rtk_obs::{AnyCode, Band};
use std::alloc::{AllocError, Global};

// The band of a code in the strip of the bands 1, 2 and 5, by the first character of its name.
fn lower_band(name: &[u8; 2]) -> Option<Band>
    ensures { result ≡ lower_band name.now }
{
    if name[0] == b'1' {
        return Some(Band::L1);
    }
    if name[0] == b'2' {
        return Some(Band::L2);
    }
    if name[0] == b'5' {
        return Some(Band::L5);
    }
    None
}

// The band of a code in the strip of the bands 6, 7 and 8.
fn upper_band(name: &[u8; 2]) -> Option<Band>
    ensures { result ≡ upper_band name.now }
{
    if name[0] == b'6' {
        return Some(Band::L1);
    }
    if name[0] == b'7' {
        return Some(Band::L2);
    }
    if name[0] == b'8' {
        return Some(Band::L5);
    }
    None
}

/// The bands of codes in the lower strip.
pub(crate) fn lower_bands(alloc: Global, codes: &[AnyCode]) -> Result<Vec<Option<Band>>, AllocError>
    ensures { IfOk result (λ bands. bands.items ≡ map lower_of codes.now) }
{
    let mut bands = Vec::new(alloc);
    for code in codes {
        bands.push(lower_band(&code.name()))?;
    }
    Ok(bands)
}

/// The bands of codes in the upper strip.
pub(crate) fn upper_bands(alloc: Global, codes: &[AnyCode]) -> Result<Vec<Option<Band>>, AllocError>
    ensures { IfOk result (λ bands. bands.items ≡ map upper_of codes.now) }
{
    let mut bands = Vec::new(alloc);
    for code in codes {
        bands.push(upper_band(&code.name()))?;
    }
    Ok(bands)
}

/// The names of codes behind the letter of their system.
pub(crate) fn names_of(alloc: Global, codes: &[AnyCode]) -> Result<Vec<[u8; 2]>, AllocError>
    ensures value { IfOk result (λ names. names.items ≡ map name_of codes.now) }
    ensures size { IfOk result (λ names. length names.items ≡ length codes.now) }
{
    let mut names = Vec::new(alloc);
    for code in codes {
        names.push(code.name())?;
    }
    Ok(names)
}

// The number of satellites in a bin.
fn both_counts(these: &[u8], more: &[u8], bin: usize) -> u8
    ensures { result ≡ both_counts these.now more.now bin }
{
    let here = these.get(bin).copied().unwrap_or(0);
    here.saturating_add(more.get(bin).copied().unwrap_or(0))
}

/// The numbers of satellites in bins, of these and of others.
pub(crate) fn counts_with(alloc: Global, these: &[u8], more: &[u8]) -> Result<Vec<u8>, AllocError>
    ensures value { IfOk result (λ counts. counts.items ≡ counts_with these.now more.now) }
    ensures size { IfOk result (λ counts. length counts.items ≡ length these.now) }
{
    let mut counts = Vec::new(alloc);
    for bin in 0..these.len() {
        counts.push(both_counts(these, more, bin))?;
    }
    Ok(counts)
}

// The strengths of a band. Numbers that no file reaches stay at the greatest one of their type.
fn both_strengths(these: BandStrengths, more: BandStrengths) -> BandStrengths
    ensures { result ≡ both_strengths these more }
{
    BandStrengths {
        count: these.count.saturating_add(more.count),
        sum: these.sum.saturating_add(more.sum),
    }
}

// The strengths of a column.
fn both_columns(these: &[Strengths], more: &[Strengths], column: usize) -> Strengths
    ensures { result ≡ both_columns these.now more.now column }
{
    let none = Strengths::none();
    let here = these.get(column).copied().unwrap_or(none);
    let there = more.get(column).copied().unwrap_or(none);
    Strengths {
        l1: both_strengths(here.l1, there.l1),
        l2: both_strengths(here.l2, there.l2),
        l5: both_strengths(here.l5, there.l5),
    }
}

/// The strengths of columns, of these satellites and of others.
pub(crate) fn columns_with(
    alloc: Global,
    these: &[Strengths],
    more: &[Strengths],
) -> Result<Vec<Strengths>, AllocError>
    ensures { IfOk result (λ columns. columns.items ≡ columns_with these.now more.now) }
{
    let mut columns = Vec::new(alloc);
    for column in 0..MOST_COLUMNS {
        columns.push(both_columns(these, more, column))?;
    }
    Ok(columns)
}
