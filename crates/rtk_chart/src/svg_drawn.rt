//! What is drawn in an SVG picture of the satellites of a file of any systems, system by system.

ghost use Rattle.std.specs.Prelude.{◌≡◌, ◌≤◌, ◌<◌, ◌+◌, ◌++◌, ◌==◌, true, not, length, map, IfOk, OnOk};
ghost use Rattle.rtk_rinex.specs.MixedHead.{IsMixedList};
ghost use Rattle.rtk_chart.specs.Groups.{first_group, second_group, group_epochs, HoldsOfMixed};
ghost use Rattle.rtk_chart.specs.Means.{columns_of};
ghost use Rattle.rtk_chart.specs.Scale.{IsScale};
ghost use Rattle.rtk_chart.specs.Steps.Standing.{StandsForGrid};
ghost use Rattle.rtk_chart.specs.Steps.SvgParts.{svg_view_of, with_svg_sums, with_svg_grid};
ghost use Rattle.rtk_chart.specs.SvgPicture.{bands_text};
ghost use Rattle.rtk_chart.specs.SvgSystems.{nothing_in_svg, svg_title, svg_heading, heading_if_first, heading_height, moved_bands, lower_of, upper_of, is_group_drawn, with_svg_group, with_second_group, with_svg_system, svg_of_systems};
ghost use Rattle.rtk_chart.specs.TextPicture.{satellites_in};
ghost use Rattle.rtk_chart.specs.declared.spacing.Spacing.TheVariants.{Close};

use crate::drawing::Drawing;
use crate::drawn::DrawnNumbers;
use crate::grid::Grid;
use crate::group_rows::fill_group;
use crate::groups::{Group, Names, SYSTEMS, first_group, second_group};
use crate::spacing::Spacing;
use crate::strengths::{MOST_COLUMNS, Strengths};
use crate::svg_bands::{TOP, band_top, put_bands};
use crate::svg_never::{NEVER_DROP, NEVER_STEP, lacked_before, put_never_texts};
use crate::svg_steps::tracked_counts;
use crate::svg_sums::{columns_with, counts_with, lower_bands, names_of, upper_bands};
use crate::svg_text::put_between;
use crate::text_picture::drawn_before;
use rtk_message::System;
use rtk_obs::AnyCode;
use rtk_tracking::codes_of_system;
use std::alloc::{AllocError, Global};

/// How far below the bands before it the name of a system stands, in units of SVG.
const HEADING_DROP: u64 = 28;

/// How high such a name is.
const HEADING_HEIGHT: u64 = 34;

/// Where the first name begins. The first band is then where it is in a picture of GPS.
const FIRST_HEADING: u64 = TOP - HEADING_HEIGHT;

/// What is drawn of some satellites.
#[derive(Drop)]
pub(crate) struct SvgDrawn {
    /// Their bands.
    pub(crate) bands: Vec<u8>,
    /// How far from the top the bands end.
    pub(crate) top: u64,
    /// The lines of the codes that they have nowhere.
    pub(crate) never: Vec<u8>,
    /// How many these lines are.
    pub(crate) lines: u64,
    pub(crate) numbers: DrawnNumbers,
    /// How many of them have a phase in each bin.
    pub(crate) tracked: Vec<u8>,
    /// Their strengths in the bands 1, 2 and 5.
    pub(crate) lower: Vec<Strengths>,
    /// Their strengths in the bands 6, 7 and 8.
    pub(crate) upper: Vec<Strengths>,
}

// The name of a system above its bands.
fn svg_title(system: System) -> &'static [u8]
    ensures { result.now ≡ svg_title system }
{
    match system {
        System::Gps => b"GPS",
        System::Glonass => b"GLONASS",
        System::Galileo => b"Galileo",
        System::Beidou => b"BeiDou",
        System::Qzss => b"QZSS",
        System::Sbas => b"SBAS",
        System::Navic => b"NavIC",
    }
}

// Appends the name of a system, below bands that end so far from the top.
fn put_svg_heading(text: &mut Vec<u8>, system: System, top: u64) -> Result<(), AllocError>
    requires { top ≤ 1_000_000 }
    ensures { OnOk result (text.new.items ≡ text.old.items ++ svg_heading system top) }
{
    put_between(
        text,
        b"<text class='system' x='110' y='",
        top + HEADING_DROP,
        b"'>",
    )?;
    text.extend_from_slice(svg_title(system))?;
    text.extend_from_slice(b"</text>\n")?;
    Ok(())
}

// The same above the first group of a system.
fn put_heading_if_first(
    text: &mut Vec<u8>,
    first: bool,
    system: System,
    top: u64,
) -> Result<(), AllocError>
    requires { top ≤ 1_000_000 }
    ensures { OnOk result (text.new.items ≡ text.old.items ++ heading_if_first first system top) }
{
    if first {
        put_svg_heading(text, system, top)?;
    }
    Ok(())
}

// How high it is.
fn heading_height(first: bool) -> u64
    ensures value { result ≡ heading_height first }
    ensures bound { result ≤ 34 }
{
    if first { HEADING_HEIGHT } else { 0 }
}

// Appends the bands of a grid, of which the first begins so far from the top.
fn put_moved_bands(
    alloc: Global,
    text: &mut Vec<u8>,
    top: u64,
    names: Names,
    listed: &[[u8; 2]],
    grid: &Grid,
) -> Result<(), AllocError>
    requires names { names.before ≤ 67 }
    requires listed { length listed.now ≤ 16 }
    requires few { length grid.now.bins.items ≤ 1440 }
    ensures { OnOk result (text.new.items ≡ text.old.items ++ moved_bands top (bands_text names Close listed.now grid.now.bins.items grid.now.outages.items)) }
{
    let bins = grid.bins.as_slice();
    let outages = grid.outages.as_slice();
    put_between(
        text,
        b"<g transform='translate(0 ",
        top.saturating_sub(TOP),
        b")'>\n",
    )?;
    put_bands(alloc, text, names, Spacing::Close, listed, bins, outages)?;
    text.extend_from_slice(b"</g>\n")?;
    Ok(())
}

impl SvgDrawn {
    // Nothing is drawn in so many bins.
    fn new(alloc: Global, bins: u64) -> Result<SvgDrawn, AllocError>
        requires { bins ≤ 1440 }
        ensures { IfOk result (λ drawn. svg_view_of drawn ≡ nothing_in_svg bins) }
    {
        let tracked = vec![in alloc; 0u8; bins as usize]?;
        let lower = vec![in alloc; Strengths::none(); MOST_COLUMNS]?;
        let upper = vec![in alloc; Strengths::none(); MOST_COLUMNS]?;
        Ok(SvgDrawn {
            bands: Vec::new(alloc),
            top: FIRST_HEADING,
            never: Vec::new(alloc),
            lines: 0,
            numbers: DrawnNumbers::none(),
            tracked,
            lower,
            upper,
        })
    }

    // Adds what satellites that have these codes and this grid, of which one has a row, have beside their bands.
    fn add_sums(
        &mut self,
        alloc: Global,
        listed: &[[u8; 2]],
        names: Names,
        grid: &Grid,
        upper: &[Strengths],
    ) -> Result<(), AllocError>
        requires names { names.before ≤ 67 }
        requires listed { length listed.now ≤ 16 }
        requires lines { self.old.lines ≤ 1000 }
        ensures value { OnOk result (svg_view_of self.new ≡ with_svg_sums listed.now names grid.now upper.now (svg_view_of self.old)) }
        ensures lines { self.new.lines ≤ self.old.lines + 16 }
        ensures top { self.new.top ≡ self.old.top }
        ensures bins { OnOk result (length self.new.tracked.items ≡ length self.old.tracked.items) }
    {
        let bins = grid.bins.as_slice();
        let counts = tracked_counts(alloc, bins)?;
        let never_top = NEVER_DROP + NEVER_STEP * self.lines;
        put_never_texts(&mut self.never, names, bins, never_top, listed)?;
        self.lines += lacked_before(bins, listed.len());
        self.numbers = self.numbers.and(DrawnNumbers::of_grid(grid));
        let tracked = counts_with(alloc, self.tracked.as_slice(), counts.as_slice())?;
        let lower = columns_with(alloc, self.lower.as_slice(), grid.strengths.as_slice())?;
        let higher = columns_with(alloc, self.upper.as_slice(), upper)?;
        self.tracked = tracked;
        self.lower = lower;
        self.upper = higher;
        Ok(())
    }

    // Adds satellites of a system that have these codes and this grid, if one has a row, and says whether one has. They
    // are the first ones of their system, or stand below others.
    fn add_grid(
        &mut self,
        alloc: Global,
        system: System,
        first: bool,
        listed: &[[u8; 2]],
        names: Names,
        grid: &Grid,
        upper: &[Strengths],
    ) -> Result<bool, AllocError>
        requires names { names.before ≤ 67 }
        requires listed { length listed.now ≤ 16 }
        requires few { length grid.now.bins.items ≤ 1440 }
        requires top { self.old.top ≤ 500_000 }
        requires lines { self.old.lines ≤ 500 }
        ensures value { OnOk result (svg_view_of self.new ≡ with_svg_grid system first listed.now names grid.now upper.now (svg_view_of self.old)) }
        ensures drawn { IfOk result (λ drawn. drawn ≡ not (satellites_in grid.now.bins.items == 0)) }
        ensures top { self.new.top ≤ self.old.top + 11_886 }
        ensures lines { self.new.lines ≤ self.old.lines + 16 }
        ensures bins { OnOk result (length self.new.tracked.items ≡ length self.old.tracked.items) }
    {
        let bins = grid.bins.as_slice();
        let satellites = drawn_before(bins, 32);
        if satellites == 0 {
            return Ok(false);
        }
        put_heading_if_first(&mut self.bands, first, system, self.top)?;
        let start = self.top + heading_height(first);
        put_moved_bands(alloc, &mut self.bands, start, names, listed, grid)?;
        let end = band_top(Spacing::Close, bins, listed.len(), 32);
        let height = end.saturating_sub(TOP);
        self.top = start + height;
        self.add_sums(alloc, listed, names, grid, upper)?;
        Ok(true)
    }
}

// What is read of a group.
#[derive(Drop)]
struct GroupGrid {
    grid: Grid,
    /// Its strengths in the bands 6, 7 and 8.
    upper: Vec<Strengths>,
}

// Reads the chosen satellites of a group, which has these codes.
fn grid_of_group(
    alloc: Global,
    drawing: &Drawing<'_, '_>,
    codes: &[AnyCode],
    group: Group,
) -> Result<GroupGrid, AllocError>
    requires good { IsScale drawing.now.scale }
    requires few { group.count ≤ 32 }
    ensures bins { IfOk result (λ read. length read.grid.bins.items ≡ drawing.now.scale.bins) }
    ensures grid { IfOk result (λ read. HoldsOfMixed drawing.now.table.now.text (λ es. StandsForGrid read.grid drawing.now.scale
        (map lower_of codes.now) (group_epochs drawing.now.choice.now group es))) }
    ensures upper { IfOk result (λ read. HoldsOfMixed drawing.now.table.now.text (λ es. read.upper.items
        ≡ columns_of drawing.now.scale (map upper_of codes.now) (group_epochs drawing.now.choice.now group es))) }
{
    let lower = lower_bands(alloc, codes)?;
    let higher = upper_bands(alloc, codes)?;
    let mut upper = vec![in alloc; Strengths::none(); MOST_COLUMNS]?;
    let grid = fill_group(
        alloc,
        drawing,
        group,
        lower.as_slice(),
        higher.as_slice(),
        &mut upper,
    )?;
    Ok(GroupGrid { grid, upper })
}

// Adds the chosen satellites of a group, which has these codes, and says whether one has a row.
fn put_group(
    alloc: Global,
    drawn: &mut SvgDrawn,
    drawing: &Drawing<'_, '_>,
    system: System,
    first: bool,
    codes: &[AnyCode],
    group: Group,
) -> Result<bool, AllocError>
    requires good { IsScale drawing.now.scale }
    requires few { group.count ≤ 32 }
    requires names { group.names.before ≤ 67 }
    requires codes { length codes.now ≤ 16 }
    requires top { drawn.old.top ≤ 500_000 }
    requires lines { drawn.old.lines ≤ 500 }
    ensures value { OnOk result (HoldsOfMixed drawing.now.table.now.text (λ es. svg_view_of drawn.new
        ≡ with_svg_group drawing.now.scale drawing.now.choice.now es system first codes.now group (svg_view_of drawn.old))) }
    ensures drawn { IfOk result (λ is_drawn. HoldsOfMixed drawing.now.table.now.text (λ es. is_drawn
        ≡ is_group_drawn drawing.now.scale drawing.now.choice.now es group)) }
    ensures top { drawn.new.top ≤ drawn.old.top + 11_886 }
    ensures lines { drawn.new.lines ≤ drawn.old.lines + 16 }
    ensures bins { OnOk result (length drawn.new.tracked.items ≡ length drawn.old.tracked.items) }
{
    let listed = names_of(alloc, codes)?;
    let read = grid_of_group(alloc, drawing, codes, group)?;
    let is_drawn = drawn.add_grid(
        alloc,
        system,
        first,
        listed.as_slice(),
        group.names,
        &read.grid,
        read.upper.as_slice(),
    )?;
    Ok(is_drawn)
}

// Adds the groups of a system with these codes.
fn put_groups(
    alloc: Global,
    drawn: &mut SvgDrawn,
    drawing: &Drawing<'_, '_>,
    system: System,
    codes: &[AnyCode],
) -> Result<(), AllocError>
    requires good { IsScale drawing.now.scale }
    requires codes { length codes.now ≤ 16 }
    requires top { drawn.old.top ≤ 400_000 }
    requires lines { drawn.old.lines ≤ 400 }
    ensures value { OnOk result (HoldsOfMixed drawing.now.table.now.text (λ es. svg_view_of drawn.new
        ≡ with_second_group drawing.now.scale drawing.now.choice.now es system codes.now (second_group system)
        (with_svg_group drawing.now.scale drawing.now.choice.now es system true codes.now (first_group system) (svg_view_of drawn.old)))) }
    ensures top { drawn.new.top ≤ drawn.old.top + 23_772 }
    ensures lines { drawn.new.lines ≤ drawn.old.lines + 32 }
    ensures bins { OnOk result (length drawn.new.tracked.items ≡ length drawn.old.tracked.items) }
{
    let first = first_group(system);
    let second = second_group(system);
    let is_drawn = put_group(alloc, drawn, drawing, system, true, codes, first)?;
    if second.count == 0 {
        return Ok(());
    }
    let _drawn = put_group(alloc, drawn, drawing, system, !is_drawn, codes, second)?;
    Ok(())
}

// Adds a system, if the file has a code of it.
fn put_system(
    alloc: Global,
    drawn: &mut SvgDrawn,
    drawing: &Drawing<'_, '_>,
    listed: &[AnyCode],
    system: System,
) -> Result<(), AllocError>
    requires good { IsScale drawing.now.scale }
    requires listed { IsMixedList listed.now }
    requires top { drawn.old.top ≤ 400_000 }
    requires lines { drawn.old.lines ≤ 400 }
    ensures value { OnOk result (HoldsOfMixed drawing.now.table.now.text (λ es. svg_view_of drawn.new
        ≡ with_svg_system drawing.now.scale drawing.now.choice.now es listed.now (svg_view_of drawn.old) system)) }
    ensures top { drawn.new.top ≤ drawn.old.top + 23_772 }
    ensures lines { drawn.new.lines ≤ drawn.old.lines + 32 }
    ensures bins { OnOk result (length drawn.new.tracked.items ≡ length drawn.old.tracked.items) }
{
    let own = codes_of_system(alloc, system, listed)?;
    let codes = own.as_slice();
    if codes.len() == 0 {
        return Ok(());
    }
    put_groups(alloc, drawn, drawing, system, codes)?;
    Ok(())
}

/// What is drawn of a file of these codes, system by system.
pub(crate) fn svg_of_systems(
    alloc: Global,
    drawing: &Drawing<'_, '_>,
    listed: &[AnyCode],
) -> Result<SvgDrawn, AllocError>
    requires good { IsScale drawing.now.scale }
    requires listed { IsMixedList listed.now }
    ensures value { IfOk result (λ drawn. HoldsOfMixed drawing.now.table.now.text (λ es. svg_view_of drawn
        ≡ svg_of_systems drawing.now.scale drawing.now.choice.now es listed.now)) }
    ensures top { IfOk result (λ drawn. drawn.top ≤ 200_000) }
    ensures lines { IfOk result (λ drawn. drawn.lines ≤ 224) }
    ensures bins { IfOk result (λ drawn. length drawn.tracked.items ≡ drawing.now.scale.bins) }
{
    let mut all = SvgDrawn::new(alloc, drawing.scale.bins)?;
    for system in &SYSTEMS {
        put_system(alloc, &mut all, drawing, listed, *system)?;
    }
    Ok(all)
}
