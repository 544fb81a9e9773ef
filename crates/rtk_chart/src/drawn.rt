//! What is drawn in characters of the satellites of a file of any systems, system by system.

ghost use Rattle.std.specs.Prelude.{◌≡◌, ◌≤◌, ◌++◌, length, IfOk, OnOk};
ghost use Rattle.rtk_rinex.specs.MixedHead.{IsMixedList};
ghost use Rattle.rtk_chart.specs.Groups.{HoldsOfMixed};
ghost use Rattle.rtk_chart.specs.MixedChart.{no_drawn_numbers, both_numbers, nothing_drawn, with_group, with_group_if_any, system_title, titled_rows, drawn_of_system, then_system, with_drawn_system, drawn_systems};
ghost use Rattle.rtk_chart.specs.Scale.{IsScale};
ghost use Rattle.rtk_chart.specs.Steps.Pictures.{numbers_of_grid, view_of, with_grid};

use crate::drawing::Drawing;
use crate::grid::Grid;
use crate::group_rows::fill_group;
use crate::groups::{Group, Names, SYSTEMS, first_group, second_group};
use crate::never::{never_in_line, put_never_of_system};
use crate::text_picture::{drawn_before, put_rows};
use rtk_message::System;
use rtk_obs::AnyCode;
use rtk_tracking::codes_of_system;
use std::alloc::{AllocError, Global};

/// How many satellites are drawn, and how many slips, returns and rises their codes have.
#[derive(Clone, Copy)]
pub(crate) struct DrawnNumbers {
    pub(crate) satellites: u64,
    pub(crate) slips: u64,
    pub(crate) returns: u64,
    pub(crate) rises: u64,
}

/// What is drawn of some satellites.
#[derive(Drop)]
pub(crate) struct Drawn {
    /// Their rows.
    pub(crate) rows: Vec<u8>,
    /// The lines of the codes that they have nowhere.
    pub(crate) never: Vec<u8>,
    pub(crate) numbers: DrawnNumbers,
}

impl DrawnNumbers {
    /// Of no satellite.
    pub(crate) fn none() -> DrawnNumbers
        ensures { result ≡ no_drawn_numbers }
    {
        DrawnNumbers {
            satellites: 0,
            slips: 0,
            returns: 0,
            rises: 0,
        }
    }

    /// Those of a grid.
    pub(crate) fn of_grid(grid: &Grid) -> DrawnNumbers
        ensures { result ≡ numbers_of_grid grid.now }
    {
        DrawnNumbers {
            satellites: drawn_before(grid.bins.as_slice(), 32),
            slips: grid.slips,
            returns: grid.returns,
            rises: grid.rises,
        }
    }

    /// These and those of other satellites. Numbers that no file reaches stay at the greatest one of their type.
    pub(crate) fn and(self, more: DrawnNumbers) -> DrawnNumbers
        ensures { result ≡ both_numbers self more }
    {
        DrawnNumbers {
            satellites: self.satellites.saturating_add(more.satellites),
            slips: self.slips.saturating_add(more.slips),
            returns: self.returns.saturating_add(more.returns),
            rises: self.rises.saturating_add(more.rises),
        }
    }
}

// The name of a system in a line.
fn system_title(system: System) -> &'static [u8]
    ensures { result.now ≡ system_title system }
{
    match system {
        System::Gps => b"GPS\n",
        System::Glonass => b"GLONASS\n",
        System::Galileo => b"Galileo\n",
        System::Beidou => b"BeiDou\n",
        System::Qzss => b"QZSS\n",
        System::Sbas => b"SBAS\n",
        System::Navic => b"NavIC\n",
    }
}

// Appends the rows of a system below its name, if it has a row.
fn put_titled_rows(text: &mut Vec<u8>, system: System, rows: &[u8]) -> Result<(), AllocError>
    ensures { OnOk result (text.new.items ≡ text.old.items ++ titled_rows system rows.now) }
{
    if rows.len() == 0 {
        return Ok(());
    }
    text.extend_from_slice(system_title(system))?;
    text.extend_from_slice(rows)?;
    Ok(())
}

impl Drawn {
    // Nothing is drawn.
    fn new(alloc: Global) -> Drawn
        ensures { view_of result ≡ nothing_drawn }
    {
        Drawn {
            rows: Vec::new(alloc),
            never: Vec::new(alloc),
            numbers: DrawnNumbers::none(),
        }
    }

    // Adds satellites that have these codes and this grid.
    fn add_grid(
        &mut self,
        width: u16,
        codes: &[AnyCode],
        names: Names,
        grid: &Grid,
    ) -> Result<(), AllocError>
        requires width { 40 ≤ width }
        requires names { names.before ≤ 67 }
        requires few { length grid.now.bins.items ≤ 1440 }
        ensures { OnOk result (view_of self.new ≡ with_grid width codes.now names grid.now (view_of self.old)) }
    {
        let bins = grid.bins.as_slice();
        put_rows(&mut self.rows, names, bins, grid.outages.as_slice())?;
        put_never_of_system(
            &mut self.never,
            names,
            bins,
            never_in_line(width - 1),
            codes,
        )?;
        self.numbers = self.numbers.and(DrawnNumbers::of_grid(grid));
        Ok(())
    }

    // Adds what is drawn of a system.
    fn add_system(&mut self, system: System, more: &Drawn) -> Result<(), AllocError>
        ensures { OnOk result (view_of self.new ≡ then_system system (view_of more.now) (view_of self.old)) }
    {
        put_titled_rows(&mut self.rows, system, more.rows.as_slice())?;
        self.never.extend_from_slice(more.never.as_slice())?;
        self.numbers = self.numbers.and(more.numbers);
        Ok(())
    }
}

// Adds the chosen satellites of a group, which has these codes.
fn put_group(
    alloc: Global,
    drawn: &mut Drawn,
    drawing: &Drawing<'_, '_>,
    width: u16,
    codes: &[AnyCode],
    group: Group,
) -> Result<(), AllocError>
    requires good { IsScale drawing.now.scale }
    requires width { 40 ≤ width }
    requires few { group.count ≤ 32 }
    requires names { group.names.before ≤ 67 }
    ensures { OnOk result (HoldsOfMixed drawing.now.table.now.text (λ es. view_of drawn.new
        ≡ with_group drawing.now.scale width drawing.now.choice.now es codes.now group (view_of drawn.old))) }
{
    let mut none = Vec::new(alloc);
    let grid = fill_group(alloc, drawing, group, &[], &[], &mut none)?;
    drawn.add_grid(width, codes, group.names, &grid)?;
    Ok(())
}

// The same, if the group has a satellite.
fn put_group_if_any(
    alloc: Global,
    drawn: &mut Drawn,
    drawing: &Drawing<'_, '_>,
    width: u16,
    codes: &[AnyCode],
    group: Group,
) -> Result<(), AllocError>
    requires good { IsScale drawing.now.scale }
    requires width { 40 ≤ width }
    requires few { group.count ≤ 32 }
    requires names { group.names.before ≤ 67 }
    ensures { OnOk result (HoldsOfMixed drawing.now.table.now.text (λ es. view_of drawn.new
        ≡ with_group_if_any drawing.now.scale width drawing.now.choice.now es codes.now group (view_of drawn.old))) }
{
    if group.count == 0 {
        return Ok(());
    }
    put_group(alloc, drawn, drawing, width, codes, group)?;
    Ok(())
}

// What is drawn of a system with these codes.
fn drawn_of_system(
    alloc: Global,
    drawing: &Drawing<'_, '_>,
    width: u16,
    system: System,
    codes: &[AnyCode],
) -> Result<Drawn, AllocError>
    requires good { IsScale drawing.now.scale }
    requires width { 40 ≤ width }
    ensures { IfOk result (λ drawn. HoldsOfMixed drawing.now.table.now.text (λ es. view_of drawn
        ≡ drawn_of_system drawing.now.scale width drawing.now.choice.now es system codes.now)) }
{
    let first = first_group(system);
    let second = second_group(system);
    let mut drawn = Drawn::new(alloc);
    put_group(alloc, &mut drawn, drawing, width, codes, first)?;
    put_group_if_any(alloc, &mut drawn, drawing, width, codes, second)?;
    Ok(drawn)
}

// Adds a system, if the file has a code of it.
fn put_system(
    alloc: Global,
    drawn: &mut Drawn,
    drawing: &Drawing<'_, '_>,
    width: u16,
    listed: &[AnyCode],
    system: System,
) -> Result<(), AllocError>
    requires good { IsScale drawing.now.scale }
    requires listed { IsMixedList listed.now }
    requires width { 40 ≤ width }
    ensures { OnOk result (HoldsOfMixed drawing.now.table.now.text (λ es. view_of drawn.new
        ≡ with_drawn_system drawing.now.scale width drawing.now.choice.now es listed.now (view_of drawn.old) system)) }
{
    let own = codes_of_system(alloc, system, listed)?;
    let codes = own.as_slice();
    if codes.len() == 0 {
        return Ok(());
    }
    let more = drawn_of_system(alloc, drawing, width, system, codes)?;
    drawn.add_system(system, &more)?;
    Ok(())
}

/// What is drawn of a file of these codes, system by system, so that one frame of the stack serves all of them.
pub(crate) fn drawn_systems(
    alloc: Global,
    drawing: &Drawing<'_, '_>,
    width: u16,
    listed: &[AnyCode],
) -> Result<Drawn, AllocError>
    requires good { IsScale drawing.now.scale }
    requires listed { IsMixedList listed.now }
    requires width { 40 ≤ width }
    ensures { IfOk result (λ drawn. HoldsOfMixed drawing.now.table.now.text (λ es. view_of drawn
        ≡ drawn_systems drawing.now.scale width drawing.now.choice.now es listed.now)) }
{
    let mut all = Drawn::new(alloc);
    for system in &SYSTEMS {
        put_system(alloc, &mut all, drawing, width, listed, *system)?;
    }
    Ok(all)
}
