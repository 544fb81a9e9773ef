//! The strip of strengths in an SVG picture: a lane for each band.

ghost use Rattle.std.specs.Prelude.{◌≡◌, ◌≤◌, ◌<◌, ◌++◌, length, IfOk, OnOk};
ghost use Rattle.rtk_chart.specs.Means.{least_mean, greatest_mean};
ghost use Rattle.rtk_chart.specs.SvgStrip.{reach_between, reach_of, depth_of, depth_at, depths_of, depth_part, depths_text, lane_start, strip_number, lane_text, lane_height, lane_if_measured, strip_height, strip_text};

use crate::strengths::{Strengths, number_of};
use crate::svg_path::edge;
use crate::svg_text::put_between;
use rtk_message::put_named;
use rtk_obs::Band;
use rtk_tracking::{greater, lesser};
use std::alloc::{AllocError, Global};

// How high a lane is, in units of SVG.
const LANE: u64 = 46;

/// From which strength to which a lane reaches, in whole dB-Hz.
#[derive(Clone, Copy)]
pub(crate) struct Reach {
    pub(crate) from: u16,
    pub(crate) until: u16,
}

// The least mean of a band in a column.
fn least_mean(columns: &[Strengths], band: Band) -> Option<u16>
    ensures { result ≡ least_mean band columns.now }
{
    let mut least = None;
    for column in columns {
        least = lesser(least, column.mean_at(band));
    }
    least
}

fn greatest_mean(columns: &[Strengths], band: Band) -> Option<u16>
    ensures { result ≡ greatest_mean band columns.now }
{
    let mut greatest = None;
    for column in columns {
        greatest = greater(greatest, column.mean_at(band));
    }
    greatest
}

// A scale of a few dB would show noise as steps, so it has 12 at least.
fn reach_between(least: u16, greatest: u16) -> Reach
    ensures value { result ≡ reach_between least greatest }
    ensures wide { result.from < result.until }
{
    let from = least / 1000;
    Reach {
        from,
        until: (from + 12).max(greatest / 1000 + 1),
    }
}

fn reach_of(columns: &[Strengths], band: Band) -> Reach
    ensures value { result ≡ reach_of band columns.now }
    ensures wide { result.from < result.until }
{
    let least = least_mean(columns, band).unwrap_or(0);
    let greatest = greatest_mean(columns, band).unwrap_or(0);
    reach_between(least, greatest)
}

// How far below the top of its lane a mean lies.
fn depth_of(reach: Reach, mean: Option<u16>) -> Option<u64>
    requires { reach.from < reach.until }
    ensures { result ≡ depth_of reach mean }
{
    let Some(mean) = mean else {
        return None;
    };
    let from = 1000 * u64::from(reach.from);
    let above = u64::from(mean).saturating_sub(from) * 36;
    let whole = 1000 * u64::from(reach.until - reach.from);
    Some(40u64.saturating_sub(above / whole))
}

// The same of the column of a bin.
fn depth_at(columns: &[Strengths], band: Band, reach: Reach, each: u64, bin: usize) -> Option<u64>
    requires wide { reach.from < reach.until }
    requires some { 0 < each }
    ensures { result ≡ depth_at band columns.now reach each bin }
{
    let column = (bin as u64 / each) as usize;
    let none = Strengths::none();
    let strengths = columns.get(column).copied().unwrap_or(none);
    depth_of(reach, strengths.mean_at(band))
}

// The same of so many bins.
fn depths_of(
    alloc: Global,
    columns: &[Strengths],
    band: Band,
    reach: Reach,
    each: u64,
    bins: usize,
) -> Result<Vec<Option<u64>>, AllocError>
    requires wide { reach.from < reach.until }
    requires some { 0 < each }
    ensures value { IfOk result (λ depths. depths.items ≡ depths_of band columns.now reach each bins) }
    ensures size { IfOk result (λ depths. length depths.items ≡ bins) }
{
    let mut depths = Vec::new(alloc);
    for bin in 0..bins {
        depths.push(depth_at(columns, band, reach, each, bin))?;
    }
    Ok(depths)
}

// The form between two bins.
fn put_depth_part(
    text: &mut Vec<u8>,
    x: u64,
    was: Option<u64>,
    now: Option<u64>,
) -> Result<(), AllocError>
    ensures { OnOk result (text.new.items ≡ text.old.items ++ depth_part x was now) }
{
    match (was, now) {
        (None, None) => Ok(()),
        (None, Some(now)) => {
            put_between(text, b"M", x, b" 44V")?;
            put_named(text, b"", now)
        }
        (Some(_), None) => put_between(text, b"H", x, b"V44z"),
        (Some(was), Some(now)) if now == was => Ok(()),
        (Some(_), Some(now)) => {
            put_between(text, b"H", x, b"V")?;
            put_named(text, b"", now)
        }
    }
}

// The forms over bins whose means lie so far below the top.
fn put_depths(text: &mut Vec<u8>, depths: &[Option<u64>]) -> Result<(), AllocError>
    requires { length depths.now ≤ 1440 }
    ensures { OnOk result (text.new.items ≡ text.old.items ++ depths_text depths.now) }
{
    let bins = depths.len() as u64;
    let mut was = None;
    for bin in 0..depths.len() {
        let x = edge(bins, bin as u64);
        put_depth_part(text, x, was, depths[bin])?;
        was = depths[bin];
    }
    put_depth_part(text, 1440, was, None)?;
    Ok(())
}

fn put_lane_start(text: &mut Vec<u8>, top: u64, number: u64, reach: Reach) -> Result<(), AllocError>
    ensures { OnOk result (text.new.items ≡ text.old.items ++ lane_start top number reach) }
{
    put_between(
        text,
        b"<g transform='translate(110 ",
        top,
        b")'>\n<title>mean strength of band ",
    )?;
    put_between(text, b"", number, BAND_START)?;
    put_between(text, b"", number, UNTIL_START)?;
    put_between(text, b"", u64::from(reach.until), FROM_START)?;
    put_between(
        text,
        b"",
        u64::from(reach.from),
        b"</text>\n<path class='k' d='",
    )?;
    Ok(())
}

const BAND_START: &[u8] = b" in dB-Hz</title>\n\
<text class='code' x='-6' y='18'>strength</text>\n<text class='code' x='-6' y='38'>of band ";

const UNTIL_START: &[u8] = b"</text>\n<text class='side' x='1446' y='16'>";

const FROM_START: &[u8] = b"</text>\n<text class='side' x='1446' y='40'>";

// The number of a band of a strip, which may be one of the upper bands.
fn strip_number(upper: bool, band: Band) -> u64
    ensures { result ≡ strip_number upper band }
{
    if !upper {
        return number_of(band);
    }
    match band {
        Band::L1 => 6,
        Band::L2 => 7,
        Band::L5 => 8,
    }
}

// The lane of a band over so many bins.
fn put_lane(
    alloc: Global,
    text: &mut Vec<u8>,
    upper: bool,
    top: u64,
    band: Band,
    columns: &[Strengths],
    each: u64,
    bins: usize,
) -> Result<(), AllocError>
    requires some { 0 < each }
    requires few { bins ≤ 1440 }
    ensures { OnOk result (text.new.items ≡ text.old.items ++ lane_text upper top band columns.now each bins) }
{
    let reach = reach_of(columns, band);
    let depths = depths_of(alloc, columns, band, reach, each, bins)?;
    put_lane_start(text, top, strip_number(upper, band), reach)?;
    put_depths(text, depths.as_slice())?;
    text.extend_from_slice(b"'/>\n</g>\n")?;
    Ok(())
}

fn lane_height(columns: &[Strengths], band: Band) -> u64
    ensures value { result ≡ lane_height band columns.now }
    ensures bound { result ≤ 46 }
{
    if least_mean(columns, band).is_some() {
        return LANE;
    }
    0
}

fn put_lane_if_measured(
    alloc: Global,
    text: &mut Vec<u8>,
    upper: bool,
    top: u64,
    band: Band,
    columns: &[Strengths],
    each: u64,
    bins: usize,
) -> Result<(), AllocError>
    requires some { 0 < each }
    requires few { bins ≤ 1440 }
    ensures { OnOk result (text.new.items ≡ text.old.items ++ lane_if_measured upper top band columns.now each bins) }
{
    if least_mean(columns, band).is_some() {
        put_lane(alloc, text, upper, top, band, columns, each, bins)?;
    }
    Ok(())
}

/// How high the strip is, in units of SVG.
#[tactic(auto, unfolding(crate::specs::SvgStrip::strip_height))]
pub(crate) fn strip_height(columns: &[Strengths]) -> u64
    ensures value { result ≡ strip_height columns.now }
    ensures bound { result ≤ 138 }
{
    lane_height(columns, Band::L1) + lane_height(columns, Band::L2) + lane_height(columns, Band::L5)
}

/// Appends the lanes of the bands, or of the upper ones, if columns have so many bins.
pub(crate) fn put_strip(
    alloc: Global,
    text: &mut Vec<u8>,
    upper: bool,
    top: u64,
    columns: &[Strengths],
    each: u64,
    bins: usize,
) -> Result<(), AllocError>
    requires top { top ≤ 1_000_000 }
    requires some { 0 < each }
    requires few { bins ≤ 1440 }
    ensures { OnOk result (text.new.items ≡ text.old.items ++ strip_text upper top columns.now each bins) }
{
    let second = top + lane_height(columns, Band::L1);
    let third = second + lane_height(columns, Band::L2);
    put_lane_if_measured(alloc, text, upper, top, Band::L1, columns, each, bins)?;
    put_lane_if_measured(alloc, text, upper, second, Band::L2, columns, each, bins)?;
    put_lane_if_measured(alloc, text, upper, third, Band::L5, columns, each, bins)?;
    Ok(())
}
