//! The bands of the satellites in an SVG picture.

ghost use Rattle.std.specs.Prelude.{◌≡◌, ◌≤◌, ◌<◌, ◌+◌, ◌/◌, ◌++◌, length, OnOk};
ghost use Rattle.rtk_chart.specs.SvgPicture.{height_of, height_if_drawn, band_top, band_start, outage_boxes, band_text, band_if_drawn, bands_text};

use crate::groups::Names;
use crate::never::put_label;
use crate::outages::outage_flags;
use crate::signs::is_drawn;
use crate::spacing::Spacing;
use crate::svg_codes::{codes_before, put_code_lines};
use crate::svg_layers::put_runs_layer;
use crate::svg_text::put_between;
use crate::text_picture::drawn_before;
use crate::time_bin::TimeBin;
use std::alloc::{AllocError, Global};

/// Where the first band begins, from the top, in units of SVG.
pub(crate) const TOP: u64 = 140;

const STRIPE_START: &[u8] = b"</title>\n<rect class='b";

// The height of the band of a satellite in a file of so many codes, in units of SVG.
fn height_of(spacing: Spacing, bins: &[TimeBin], listed: usize, place: usize) -> u64
    requires listed { listed ≤ 16 }
    requires place { place < 32 }
    ensures value { result ≡ height_of spacing bins.now listed place }
    ensures least { 24 ≤ result }
    ensures bound { result ≤ 366 }
{
    spacing.band_height(codes_before(bins, place, listed))
}

fn height_if_drawn(spacing: Spacing, bins: &[TimeBin], listed: usize, place: usize) -> u64
    requires listed { listed ≤ 16 }
    requires place { place < 32 }
    ensures value { result ≡ height_if_drawn spacing bins.now listed place }
    ensures bound { result ≤ 366 }
{
    if is_drawn(bins, place) {
        return height_of(spacing, bins, listed, place);
    }
    0
}

/// How far from the top the band of a satellite begins, or behind the last satellite the bands end.
pub(crate) fn band_top(spacing: Spacing, bins: &[TimeBin], listed: usize, place: usize) -> u64
    requires listed { listed ≤ 16 }
    requires place { place ≤ 32 }
    ensures value { result ≡ band_top spacing bins.now listed place }
    ensures bound { result ≤ 11_852 }
{
    let mut top = TOP;
    for before in 0..place {
        top += height_if_drawn(spacing, bins, listed, before);
    }
    top
}

// The stripe and the label of a band.
fn put_band_start(
    text: &mut Vec<u8>,
    spacing: Spacing,
    top: u64,
    letter: u8,
    number: u8,
    stripe: u64,
    height: u64,
) -> Result<(), AllocError>
    requires number { number ≤ 99 }
    requires height { height ≤ 366 }
    ensures { OnOk result (text.new.items ≡ text.old.items ++ band_start spacing top letter number stripe height) }
{
    put_between(text, b"<g transform='translate(110 ", top, b")'>\n<title>")?;
    put_label(text, letter, number)?;
    put_between(text, STRIPE_START, stripe, b"' x='-110' width='1620'")?;
    put_between(text, b" height='", height, b"'/>\n")?;
    let name_y = height / 2 + spacing.name_drop();
    put_between(text, spacing.name_start(), name_y, b"'>")?;
    put_label(text, letter, number)?;
    text.extend_from_slice(b"</text>\n")?;
    Ok(())
}

// Appends the outages of a satellite, as boxes over all its codes.
fn put_outages(
    alloc: Global,
    text: &mut Vec<u8>,
    outages: &[bool],
    bins: usize,
    place: usize,
    high: u64,
) -> Result<(), AllocError>
    requires place { place < 32 }
    requires few { bins ≤ 1440 }
    ensures { OnOk result (text.new.items ≡ text.old.items ++ outage_boxes outages.now bins place high) }
{
    let flags = outage_flags(alloc, outages, bins, place)?;
    let mut begin = Vec::new(alloc);
    put_between(&mut begin, b" 4v", high, b"")?;
    let mut end = Vec::new(alloc);
    put_between(&mut end, b"v-", high, b"z")?;
    put_runs_layer(
        text,
        b"o",
        begin.as_slice(),
        end.as_slice(),
        flags.as_slice(),
    )?;
    Ok(())
}

// The band after so many others.
fn put_band(
    alloc: Global,
    text: &mut Vec<u8>,
    names: Names,
    spacing: Spacing,
    codes: &[[u8; 2]],
    bins: &[TimeBin],
    outages: &[bool],
    place: usize,
    before: u64,
) -> Result<(), AllocError>
    requires names { names.before ≤ 67 }
    requires place { place < 32 }
    requires few { length bins.now ≤ 1440 }
    requires listed { length codes.now ≤ 16 }
    ensures { OnOk result (text.new.items ≡ text.old.items ++ band_text names spacing codes.now bins.now outages.now place before) }
{
    let height = height_of(spacing, bins, codes.len(), place);
    let top = band_top(spacing, bins, codes.len(), place);
    let number = names.before + place as u8 + 1;
    put_band_start(text, spacing, top, names.letter, number, before % 2, height)?;
    put_outages(alloc, text, outages, bins.len(), place, height - 8)?;
    put_code_lines(alloc, text, names, spacing, bins, place, codes)?;
    text.extend_from_slice(b"</g>\n")?;
    Ok(())
}

fn put_band_if_drawn(
    alloc: Global,
    text: &mut Vec<u8>,
    names: Names,
    spacing: Spacing,
    codes: &[[u8; 2]],
    bins: &[TimeBin],
    outages: &[bool],
    place: usize,
) -> Result<(), AllocError>
    requires names { names.before ≤ 67 }
    requires place { place < 32 }
    requires few { length bins.now ≤ 1440 }
    requires listed { length codes.now ≤ 16 }
    ensures { OnOk result (text.new.items ≡ text.old.items ++ band_if_drawn names spacing codes.now bins.now outages.now place) }
{
    if is_drawn(bins, place) {
        let before = drawn_before(bins, place);
        put_band(
            alloc, text, names, spacing, codes, bins, outages, place, before,
        )?;
    }
    Ok(())
}

/// Appends the bands of the satellites that have a row in the file, whose codes have these names.
pub(crate) fn put_bands(
    alloc: Global,
    text: &mut Vec<u8>,
    names: Names,
    spacing: Spacing,
    codes: &[[u8; 2]],
    bins: &[TimeBin],
    outages: &[bool],
) -> Result<(), AllocError>
    requires names { names.before ≤ 67 }
    requires few { length bins.now ≤ 1440 }
    requires listed { length codes.now ≤ 16 }
    ensures { OnOk result (text.new.items ≡ text.old.items ++ bands_text names spacing codes.now bins.now outages.now) }
{
    for place in 0..32 {
        put_band_if_drawn(alloc, text, names, spacing, codes, bins, outages, place)?;
    }
    Ok(())
}
