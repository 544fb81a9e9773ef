//! A picture in characters.

ghost use Rattle.std.specs.Prelude.{◌≡◌, ◌≤◌, ◌<◌, ◌++◌, ℕ, Bool, false, length, get_or, OnOk, IfOk};
ghost use Rattle.rtk_tracking.specs.Standing.{AreMarked};
ghost use Rattle.rtk_chart.specs.Scale.{IsScale};
ghost use Rattle.rtk_chart.specs.TextPicture.{strength_mark, phase_mark, character_of, satellite_row, row_if_drawn, satellite_rows, drawn_before, gap_mark, gap_row, named_count_line, moment_line, text_heading, number_lines, text_of_none};
ghost use Rattle.rtk_chart.specs.Steps.Pictures.{body_of_grid, text_of_grid};

use crate::grid::Grid;
use crate::groups::{Names, gps_names};
use crate::never::{never_in_line, put_never};
use crate::outages::is_out;
use crate::scale::Scale;
use crate::signs::{
    codes_had, has_half, has_return, has_rise, has_slip, is_drawn, is_missing, is_tracked,
    least_level,
};
use crate::survey::Survey;
use crate::text_time::put_time;
use crate::time_bin::TimeBin;
use crate::time_text::put_interval;
use crate::tracking::Tracking;
use rtk_message::put_named;
use rtk_obs::{Code, GpsMs, civil, put_civil};
use std::alloc::{AllocError, Global};

// constant
/// What the signs mean.
pub(crate) const SIGNS: &[u8] = b"S slip  H half cycle  B S and H\n\
R rise  r return  o outage\n\
- code missing  x epochs missing  / some\n\
1-9 strength, 5 is 30-35 dB-Hz  . none\n";

fn strength_mark(least: Option<u8>, tracked: bool) -> u8
    ensures { result ≡ strength_mark least tracked }
{
    match least {
        Some(level) => b'0' + level.min(9),
        None if tracked => b'.',
        None => b' ',
    }
}

// The character of a satellite without a slip, an outage, a half cycle, a rise or a return; it has these codes somewhere.
fn phase_mark(had: &[bool; 16], tracking: &Tracking) -> u8
    ensures { (has : ℕ → Bool) → AreMarked had.now has → result ≡ phase_mark has tracking.now }
{
    if is_missing(had, tracking) {
        return b'-';
    }
    strength_mark(least_level(tracking), is_tracked(tracking))
}

// The character of a satellite in a bin, which has an outage there or none, and these codes somewhere.
fn character_of(had: &[bool; 16], out: bool, tracking: &Tracking) -> u8
    ensures { (has : ℕ → Bool) → AreMarked had.now has → result ≡ character_of has out tracking.now }
{
    match (has_slip(tracking), has_half(tracking)) {
        (true, true) => b'B',
        (true, false) => b'S',
        (false, _) if out => b'o',
        (false, true) => b'H',
        (false, false) if has_rise(tracking) => b'R',
        (false, false) if has_return(tracking) => b'r',
        (false, false) => phase_mark(had, tracking),
    }
}

/// How many satellites before this place have a row in the file.
pub(crate) fn drawn_before(bins: &[TimeBin], place: usize) -> u64
    requires { place ≤ 32 }
    ensures value { result ≡ drawn_before bins.now place }
    ensures bound { result ≤ 32 }
{
    let mut count = 0;
    for before in 0..place {
        if is_drawn(bins, before) {
            count += 1;
        }
    }
    count
}

// The row of a satellite. Which codes it had anywhere in the file is found first: only of these can one
// be missing in a bin.
fn put_row(
    text: &mut Vec<u8>,
    names: Names,
    bins: &[TimeBin],
    outages: &[bool],
    place: usize,
) -> Result<(), AllocError>
    requires names { names.before ≤ 67 }
    requires place { place < 32 }
    requires few { length bins.now ≤ 1440 }
    ensures { OnOk result (text.new.items ≡ text.old.items ++ satellite_row names bins.now outages.now place) }
{
    let number = names.before + place as u8 + 1;
    let had = codes_had(bins, place);
    text.extend_from_slice(&[names.letter, b'0' + number / 10, b'0' + number % 10, b'|'])?;
    for bin in 0..bins.len() {
        let out = is_out(outages, place, bin);
        text.push(character_of(&had, out, bins[bin].satellite(place)))?;
    }
    text.extend_from_slice(b"|\n")?;
    Ok(())
}

fn put_row_if_drawn(
    text: &mut Vec<u8>,
    names: Names,
    bins: &[TimeBin],
    outages: &[bool],
    place: usize,
) -> Result<(), AllocError>
    requires names { names.before ≤ 67 }
    requires place { place < 32 }
    requires few { length bins.now ≤ 1440 }
    ensures { OnOk result (text.new.items ≡ text.old.items ++ row_if_drawn names bins.now outages.now place) }
{
    if is_drawn(bins, place) {
        put_row(text, names, bins, outages, place)?;
    }
    Ok(())
}

/// Appends the rows of the satellites that are in the file.
pub(crate) fn put_rows(
    text: &mut Vec<u8>,
    names: Names,
    bins: &[TimeBin],
    outages: &[bool],
) -> Result<(), AllocError>
    requires names { names.before ≤ 67 }
    requires few { length bins.now ≤ 1440 }
    ensures { OnOk result (text.new.items ≡ text.old.items ++ satellite_rows names bins.now outages.now) }
{
    for place in 0..32 {
        put_row_if_drawn(text, names, bins, outages, place)?;
    }
    Ok(())
}

fn has_record(recorded: &[bool], bin: usize) -> bool
    ensures { result ≡ get_or recorded.now bin false }
{
    recorded.get(bin).copied().unwrap_or(false)
}

// Epochs are missing in a bin that has a record or none.
fn gap_mark(recorded: bool, missing: bool) -> u8
    ensures { result ≡ gap_mark recorded missing }
{
    match (missing, recorded) {
        (true, true) => b'/',
        (true, false) => b'x',
        (false, _) => b' ',
    }
}

/// Appends the row of the bins with missing epochs.
pub(crate) fn put_gap_row(
    text: &mut Vec<u8>,
    recorded: &[bool],
    gaps: &[bool],
) -> Result<(), AllocError>
    ensures { OnOk result (text.new.items ≡ text.old.items ++ gap_row recorded.now gaps.now) }
{
    text.extend_from_slice(b"gap|")?;
    for bin in 0..gaps.len() {
        let has_record = has_record(recorded, bin);
        text.push(gap_mark(has_record, gaps[bin]))?;
    }
    text.extend_from_slice(b"|\n")?;
    Ok(())
}

fn put_line(text: &mut Vec<u8>, words: &[u8], number: u64) -> Result<(), AllocError>
    ensures { OnOk result (text.new.items ≡ text.old.items ++ named_count_line words.now number) }
{
    put_named(text, words, number)?;
    text.push(b'\n')?;
    Ok(())
}

fn put_moment_line(text: &mut Vec<u8>, words: &[u8], moment: GpsMs) -> Result<(), AllocError>
    ensures { OnOk result (text.new.items ≡ text.old.items ++ moment_line words.now moment) }
{
    text.extend_from_slice(words)?;
    put_civil(text, civil(moment))?;
    text.extend_from_slice(b" GPS time\n")?;
    Ok(())
}

/// Appends the marker and the span of a file with records.
pub(crate) fn put_heading(
    text: &mut Vec<u8>,
    marker: &[u8],
    scale: &Scale,
) -> Result<(), AllocError>
    requires { IsScale scale.now }
    ensures { OnOk result (text.new.items ≡ text.old.items ++ text_heading marker.now scale.now) }
{
    text.extend_from_slice(b"marker ")?;
    text.extend_from_slice(marker)?;
    text.push(b'\n')?;
    put_moment_line(text, b"from ", scale.first)?;
    put_moment_line(text, b"until ", scale.last)?;
    Ok(())
}

/// Appends the lines of the interval and of the numbers in a heading.
pub(crate) fn put_numbers(
    text: &mut Vec<u8>,
    scale: &Scale,
    records: u64,
    satellites: u64,
    slips: u64,
    returns: u64,
    rises: u64,
    missing: u64,
) -> Result<(), AllocError>
    ensures { OnOk result (text.new.items ≡ text.old.items ++ number_lines scale.now records satellites slips returns rises missing) }
{
    put_interval(text, scale.interval, scale.bin_ms)?;
    put_line(text, b"records ", records)?;
    put_line(text, b"satellites ", satellites)?;
    put_line(text, b"slips ", slips)?;
    put_line(text, b"returns ", returns)?;
    put_line(text, b"rises ", rises)?;
    put_line(text, b"missing ", missing)?;
    Ok(())
}

// What stands below the heading.
fn put_body(
    text: &mut Vec<u8>,
    codes: &[Code],
    scale: &Scale,
    width: u16,
    grid: &Grid,
) -> Result<(), AllocError>
    requires good { IsScale scale.now }
    requires bins { length grid.now.bins.items ≡ scale.now.bins }
    requires width { 40 ≤ width }
    ensures { OnOk result (text.new.items ≡ text.old.items ++ body_of_grid codes.now scale.now width grid.now) }
{
    let names = gps_names();
    let bins = grid.bins.as_slice();
    text.extend_from_slice(b"GPS\n")?;
    put_rows(text, names, bins, grid.outages.as_slice())?;
    put_gap_row(text, grid.recorded.as_slice(), grid.gaps.as_slice())?;
    put_time(text, scale, width)?;
    put_never(text, names, bins, never_in_line(width), codes)?;
    text.extend_from_slice(SIGNS)?;
    Ok(())
}

/// The picture of a file with records, so many characters wide.
pub(crate) fn text_picture(
    alloc: Global,
    marker: &[u8],
    codes: &[Code],
    scale: &Scale,
    width: u16,
    survey: &Survey,
    grid: &Grid,
) -> Result<Vec<u8>, AllocError>
    requires good { IsScale scale.now }
    requires bins { length grid.now.bins.items ≡ scale.now.bins }
    requires width { 40 ≤ width }
    ensures { IfOk result (λ text. text.items ≡ text_of_grid marker.now codes.now scale.now width survey.now grid.now) }
{
    let satellites = drawn_before(grid.bins.as_slice(), 32);
    let mut text = Vec::new(alloc);
    put_heading(&mut text, marker, scale)?;
    put_numbers(
        &mut text,
        scale,
        survey.records,
        satellites,
        grid.slips,
        grid.returns,
        grid.rises,
        grid.missing,
    )?;
    put_body(&mut text, codes, scale, width, grid)?;
    Ok(text)
}

/// The picture of a file without records.
pub(crate) fn text_of_none(alloc: Global, marker: &[u8]) -> Result<Vec<u8>, AllocError>
    ensures { IfOk result (λ text. text.items ≡ text_of_none marker.now) }
{
    let mut text = Vec::new(alloc);
    text.extend_from_slice(b"marker ")?;
    text.extend_from_slice(marker)?;
    text.extend_from_slice(b"\nno records\n")?;
    Ok(text)
}
