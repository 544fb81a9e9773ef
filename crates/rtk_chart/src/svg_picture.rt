//! A picture in SVG.

ghost use Rattle.std.specs.Prelude.{◌≡◌, ◌≤◌, ◌<◌, ◌++◌, length, map, IfOk, OnOk};
ghost use Rattle.rtk_obs.specs.Code.{name_of};
ghost use Rattle.rtk_chart.specs.Scale.{IsScale};
ghost use Rattle.rtk_chart.specs.SvgPicture.{interval_text, svg_span, svg_numbers, svg_start, svg_legend, never_end, svg_body, svg_of_none};
ghost use Rattle.rtk_chart.specs.Steps.Pictures.{svg_of_grid};

use crate::grid::Grid;
use crate::groups::gps_names;
use crate::scale::Scale;
use crate::spacing::Spacing;
use crate::survey::Survey;
use crate::svg_axis::{put_gaps, put_satellites, put_ticks};
use crate::svg_bands::{band_top, put_bands};
use crate::svg_never::{NEVER_DROP, NEVER_STEP, lacked_before, put_never_texts};
use crate::svg_steps::tracked_counts;
use crate::svg_strip::{put_strip, strip_height};
use crate::svg_text::{put_between, put_xml};
use crate::text_picture::drawn_before;
use crate::time_bin::TimeBin;
use crate::time_text::put_seconds;
use rtk_obs::{Code, civil, put_civil};
use std::alloc::{AllocError, Global};

// constant
/// Strengths go from yellow to blue, and in grey too a stronger one differs more from the page. Slips differ still
/// more from it, and have another hue, which the colour-blind tell from blue. A phase without a strength is a thin line.
/// Each mark has a form of its own. A picture up to 700 pixels wide has larger letters, and a time at each second tick.
///
/// All outlines of a path are painted before its first form is filled, or slips side by side hide one another.
/// LibreOffice cannot do that. It takes all rules of an `@media` but its first, whatever the condition; so those on
/// black and of a narrow picture stand before the others, which replace them, and the last `@media` is for it alone.
pub(crate) const STYLE: &[u8] = b"<style>\
@media (prefers-color-scheme:dark){\
.page{fill:#111!important}.b1{fill:#242424!important}text{fill:#ddd!important}\
.l0{stroke:#999!important}.l1{stroke:#4f4822!important}.l2{stroke:#55582a!important}.l3{stroke:#4f6438!important}\
.l4{stroke:#4a754e!important}.l5{stroke:#438568!important}.l6{stroke:#3f9585!important}.l7{stroke:#45a4a6!important}\
.l8{stroke:#55b3c8!important}.l9{stroke:#7cc8f0!important}\
.n,.k{fill:#8ab!important}.k{stroke:#8ab!important}.p,.m,.h,.a{fill:#111!important}.p,.m{stroke:#ccc!important}\
.o{fill:#ffb070!important;stroke:#ffb070!important}.a{stroke:#fff!important}\
.s{fill:#ffb070!important}.g{stroke:#fff!important}\
.r{fill:#fff!important}.r,.s{stroke:#111!important}}\
@media (max-width:700px){\
text{font-size:30px!important}.tick{font-size:32px!important}.odd{display:none!important}\
.marker{font-size:38px!important}.name{font-size:34px!important}\
.code{font-size:19px!important}g>g>.code{font-size:22px!important}.never,.side{font-size:20px!important}\
.low{font-size:24px!important}.tiny{display:none!important}}\
.page{fill:#fff}.b0{fill:none}.b1{fill:#f0f0f0}\
text{font-family:sans-serif;font-size:24px;fill:#222}\
.marker{font-size:32px;font-weight:bold}.name{font-size:30px}\
.system{font-weight:bold}.name,.code{text-anchor:end}.code,.never,.side{font-size:19px}.low{font-size:19px}.tiny{font-size:10px;display:inline}.tick{font-size:24px;text-anchor:middle}\
path{fill:none}\
.l0,.l1,.l2,.l3,.l4,.l5,.l6,.l7,.l8,.l9{stroke-width:14}\
.l0{stroke:#888;stroke-width:5}.l1{stroke:#e9d57e}.l2{stroke:#cfcf7a}.l3{stroke:#a9c07c}.l4{stroke:#83b083}\
.l5{stroke:#5fa08f}.l6{stroke:#468c9a}.l7{stroke:#3577a0}.l8{stroke:#2a619f}.l9{stroke:#274a94}\
.p,.m{fill:#fff;stroke:#555;stroke-width:2}\
.s,.r{stroke:#fff;stroke-width:3;paint-order:stroke}.s{fill:#8a1c00}.r{fill:#222}\
.h{fill:#fff;stroke:#b04c85;stroke-width:2}.a{fill:#fff;stroke:#222;stroke-width:2}\
.o{fill:#8a1c00;fill-opacity:.2;stroke:#8a1c00;stroke-width:1.5}\
.g{stroke:#222;stroke-width:14}\
.n,.k{fill:#468;fill-opacity:.5}.k{fill-opacity:.3;stroke:#468;stroke-width:2}\
.t{stroke:#888;stroke-opacity:.5}\
@media not all{.page{}.s{stroke:#8a1c00}.r{stroke:none}}\
</style>\n";

// constant
/// The name of the system above its satellites.
pub(crate) const SYSTEM: &[u8] = b"<text class='system' x='110' y='134'>GPS</text>\n";

// constant
/// The name of the time, what the forms mean, and the strengths of the colours.
pub(crate) const LEGEND: &[u8] = b"<text y='16'>GPS time</text>\
<g transform='translate(250 -2)'><path class='s' d='M8 20l-7-21h14z'/><text x='22' y='18'>slip</text></g>\
<g transform='translate(370 -2)'><path class='a' d='M4 5l9 5l-9 5z'/><text x='22' y='18'>return</text></g>\
<g transform='translate(530 -2)'><path class='r' d='M4 5l9 5l-9 5z'/><text x='22' y='18'>rise</text></g>\
<g transform='translate(650 -2)'><path class='h' d='M8 5l6 6l-6 6l-6-6z'/><text x='22' y='18'>half cycle</text></g>\
<g transform='translate(860 -2)'><path class='o' d='M0 -1v22H30v-22z'/><text x='40' y='18'>outage</text></g>\
<g transform='translate(1040 -2)'><path class='g' d='M0 10H30'/><text x='40' y='18'>epochs missing</text></g>\
<g transform='translate(0 38)'><path class='l8' d='M0 10H30'/><text x='40' y='18'>phase</text></g>\
<g transform='translate(250 38)'><path class='l8' d='M0 10H30'/><path class='p' d='M0 10v-6H30v6z'/><text x='40' y='18'>code missing in some epochs</text></g>\
<g transform='translate(800 38)'><path class='m' d='M0 16v-12H30v12z'/><text x='40' y='18'>in all</text></g>\
<text y='94'>least strength, dB-Hz</text>\
<path class='l0' d='M370 87h36'/><text x='412' y='94'>none</text>\
<path class='l1' d='M490 87h36'/><text x='532' y='94'>&lt;12</text>\
<path class='l2' d='M610 87h36'/><text x='652' y='94'>12</text>\
<path class='l3' d='M720 87h36'/><text x='762' y='94'>18</text>\
<path class='l4' d='M830 87h36'/><text x='872' y='94'>24</text>\
<path class='l5' d='M940 87h36'/><text x='982' y='94'>30</text>\
<path class='l6' d='M1050 87h36'/><text x='1092' y='94'>36</text>\
<path class='l7' d='M1160 87h36'/><text x='1202' y='94'>42</text>\
<path class='l8' d='M1270 87h36'/><text x='1312' y='94'>48</text>\
<path class='l9' d='M1380 87h36'/><text x='1422' y='94'>54</text>\n";

// A file of one record has no interval, and so no column with a length.
fn put_interval_words(
    text: &mut Vec<u8>,
    interval: Option<u64>,
    bin_ms: u64,
) -> Result<(), AllocError>
    ensures { OnOk result (text.new.items ≡ text.old.items ++ interval_text interval bin_ms) }
{
    let Some(ms) = interval else {
        return Ok(());
    };
    text.extend_from_slice(b", interval ")?;
    put_seconds(text, ms)?;
    text.extend_from_slice(b" s, column ")?;
    put_seconds(text, bin_ms)?;
    text.extend_from_slice(b" s")
}

/// Appends the span of a file with records.
pub(crate) fn put_span(text: &mut Vec<u8>, scale: &Scale) -> Result<(), AllocError>
    requires { IsScale scale.now }
    ensures { OnOk result (text.new.items ≡ text.old.items ++ svg_span scale.now) }
{
    text.extend_from_slice(b"<text x='110' y='72'>")?;
    put_civil(text, civil(scale.first))?;
    text.extend_from_slice(b" to ")?;
    put_civil(text, civil(scale.last))?;
    put_interval_words(text, scale.interval, scale.bin_ms)?;
    text.extend_from_slice(b"</text>\n")?;
    Ok(())
}

/// Appends the numbers in the heading.
pub(crate) fn put_counts(
    text: &mut Vec<u8>,
    records: u64,
    satellites: u64,
    slips: u64,
    returns: u64,
    rises: u64,
    missing: u64,
) -> Result<(), AllocError>
    ensures { OnOk result (text.new.items ≡ text.old.items ++ svg_numbers records satellites slips returns rises missing) }
{
    put_between(
        text,
        b"<text x='110' y='98'>records ",
        records,
        b", satellites ",
    )?;
    put_between(text, b"", satellites, b", slips ")?;
    put_between(text, b"", slips, b", returns ")?;
    put_between(text, b"", returns, b", rises ")?;
    put_between(text, b"", rises, b", missing epochs ")?;
    put_between(text, b"", missing, b"</text>\n")?;
    Ok(())
}

/// Appends the beginning of a picture so high.
pub(crate) fn put_start(text: &mut Vec<u8>, marker: &[u8], height: u64) -> Result<(), AllocError>
    ensures { OnOk result (text.new.items ≡ text.old.items ++ svg_start marker.now height) }
{
    put_between(
        text,
        b"<svg xmlns='http://www.w3.org/2000/svg' viewBox='0 0 1620 ",
        height,
        b"'>\n<title>",
    )?;
    put_xml(text, marker)?;
    text.extend_from_slice(b"</title>\n")?;
    text.extend_from_slice(STYLE)?;
    put_between(
        text,
        b"<rect class='page' width='1620' height='",
        height,
        b"'/>\n<text class='marker' x='110' y='42'>",
    )?;
    put_xml(text, marker)?;
    text.extend_from_slice(b"</text>\n")?;
    Ok(())
}

/// Appends the legend, so far from the top.
pub(crate) fn put_legend(text: &mut Vec<u8>, top: u64) -> Result<(), AllocError>
    ensures { OnOk result (text.new.items ≡ text.old.items ++ svg_legend top) }
{
    put_between(text, b"<g transform='translate(110 ", top, b")'>\n")?;
    text.extend_from_slice(LEGEND)?;
    text.extend_from_slice(b"</g>\n")?;
    Ok(())
}

// What stands below the heading. The system ends so far from the top.
fn put_body(
    alloc: Global,
    text: &mut Vec<u8>,
    spacing: Spacing,
    codes: &[[u8; 2]],
    scale: &Scale,
    grid: &Grid,
    end: u64,
) -> Result<(), AllocError>
    requires good { IsScale scale.now }
    requires few { length codes.now ≤ 16 }
    requires bins { length grid.now.bins.items ≡ scale.now.bins }
    requires gaps { length grid.now.gaps.items ≡ scale.now.bins }
    requires end { end ≤ 12_236 }
    ensures { OnOk result (text.new.items
        ≡ text.old.items ++ svg_body spacing codes.now scale.now grid.now.bins.items grid.now.outages.items grid.now.gaps.items grid.now.strengths.items end) }
{
    let names = gps_names();
    let (bins, outages) = (grid.bins.as_slice(), grid.outages.as_slice());
    text.extend_from_slice(SYSTEM)?;
    put_bands(alloc, text, names, spacing, codes, bins, outages)?;
    let bands_end = band_top(spacing, bins, codes.len(), 32);
    put_never_texts(text, names, bins, bands_end + NEVER_DROP, codes)?;
    put_gaps(text, end, grid.gaps.as_slice())?;
    let counts = tracked_counts(alloc, bins)?;
    put_satellites(text, end + 26, counts.as_slice())?;
    let strengths = grid.strengths.as_slice();
    let each = scale.bins_per_column();
    put_strip(alloc, text, false, end + 72, strengths, each, bins.len())?;
    let strip_end = end + strip_height(strengths);
    put_ticks(text, scale, strip_end + 72)?;
    put_legend(text, strip_end + 104)?;
    text.extend_from_slice(b"</svg>\n")?;
    Ok(())
}

// How far from the top the lines end that name the codes that satellites have nowhere, below the bands.
fn never_end(spacing: Spacing, bins: &[TimeBin], listed: usize) -> u64
    requires { listed ≤ 16 }
    ensures value { result ≡ never_end spacing bins.now listed }
    ensures bound { result ≤ 12_236 }
{
    band_top(spacing, bins, listed, 32) + NEVER_STEP * lacked_before(bins, listed)
}

// The names of codes of GPS.
fn code_names(alloc: Global, codes: &[Code]) -> Result<Vec<[u8; 2]>, AllocError>
    ensures value { IfOk result (λ names. names.items ≡ map name_of codes.now) }
    ensures size { IfOk result (λ names. length names.items ≡ length codes.now) }
{
    let mut names = Vec::new(alloc);
    for code in codes {
        names.push(code.name())?;
    }
    Ok(names)
}

/// The picture of a file with records.
pub(crate) fn svg_picture(
    alloc: Global,
    marker: &[u8],
    codes: &[Code],
    scale: &Scale,
    survey: &Survey,
    grid: &Grid,
) -> Result<Vec<u8>, AllocError>
    requires good { IsScale scale.now }
    requires few { length codes.now ≤ 16 }
    requires bins { length grid.now.bins.items ≡ scale.now.bins }
    requires gaps { length grid.now.gaps.items ≡ scale.now.bins }
    ensures { IfOk result (λ text. text.items ≡ svg_of_grid marker.now codes.now scale.now survey.now grid.now) }
{
    let listed = code_names(alloc, codes)?;
    let names = listed.as_slice();
    let satellites = drawn_before(grid.bins.as_slice(), 32);
    let spacing = Spacing::of(grid.bins.as_slice(), names.len());
    let end = never_end(spacing, grid.bins.as_slice(), names.len());
    let mut text = Vec::new(alloc);
    let height = end + strip_height(grid.strengths.as_slice()) + 230;
    put_start(&mut text, marker, height)?;
    put_span(&mut text, scale)?;
    put_counts(
        &mut text,
        survey.records,
        satellites,
        grid.slips,
        grid.returns,
        grid.rises,
        grid.missing,
    )?;
    put_body(alloc, &mut text, spacing, names, scale, grid, end)?;
    Ok(text)
}

/// The picture of a file without records.
pub(crate) fn svg_of_none(alloc: Global, marker: &[u8]) -> Result<Vec<u8>, AllocError>
    ensures { IfOk result (λ text. text.items ≡ svg_of_none marker.now) }
{
    let mut text = Vec::new(alloc);
    put_start(&mut text, marker, 110)?;
    text.extend_from_slice(b"<text x='110' y='72'>no records</text>\n</svg>\n")?;
    Ok(text)
}
