//! How many phases the satellites of other systems than GPS have in each code.

ghost use Rattle.std.specs.Prelude.{◌≡◌, ℕ, List, Option, [], ◌∷◌, ◌++◌, OnOk};
ghost use Rattle.std.specs.BTreeMap.{get};
ghost use Rattle.std.specs.Option.{option_copied};
ghost use Rattle.std.specs.Ordering.{nat_cmp};
ghost use Rattle.rtk_message.specs.declared.any_message.AnyMessage.{AnyMessage};
ghost use Rattle.rtk_obs.specs.declared.signal_cells.SignalEntry.{SignalEntry};
ghost use Rattle.rtk_survey.specs.BesideGps.{cells_beside_gps};
ghost use Rattle.rtk_survey.specs.SystemPhases as spec;

use crate::phases::PhaseCount;
use rtk_message::AnyMessage;
use rtk_obs::{AnyCode, SatelliteIndex, SignalEntry};
use std::alloc::{AllocError, Global};
use std::collections::BTreeMap;

/// How many codes a system has at most: `AnyCode::place` is below it.
const CODES: usize = 16;

/// The places of a table: those of the mask bits (DF394) below 64.
const PLACES: usize = 1024;

/// The phases of a station in the messages of one number. The table is made with the first cell.
#[derive(Drop)]
pub struct PhaseTable {
    /// By the mask bit of the satellite and the place of the code.
    pub counts: Vec<PhaseCount>,
}

/// The phases of one station in its messages of other systems than GPS, and of SBAS in its 1004.
#[derive(Drop)]
pub struct SystemPhases {
    /// The station that was named, or else the first one that had a cell of such a system.
    pub station: Option<u16>,
    /// By the number of the message (DF002).
    pub tables: BTreeMap<u16, PhaseTable>,
}

// The place of a satellite and a code in the table of their system.
fn place_of_phase(satellite: SatelliteIndex, code: AnyCode) -> usize
    ensures { result ≡ spec.place_of_phase satellite code }
{
    CODES * usize::from(satellite.bit()) + code.place()
}

fn take_entry(table: &mut Vec<PhaseCount>, entry: &SignalEntry)
    ensures { (es : List SignalEntry) → spec.CountsSignalPlaces table.old.items es
        → spec.CountsSignalPlaces table.new.items (entry.now ∷ es) }
{
    let place = place_of_phase(entry.satellite, entry.code);
    if place < table.len() {
        table[place].take(&entry.cell);
    }
}

fn take_entries(table: &mut Vec<PhaseCount>, entries: &[SignalEntry])
    ensures { (es : List SignalEntry) → spec.CountsSignalPlaces table.old.items es
        → spec.CountsSignalPlaces table.new.items (entries.now ++ es) }
{
    for entry in entries {
        take_entry(table, entry);
    }
}

// Makes a table, unless it is there.
fn make_table(alloc: Global, table: &mut Vec<PhaseCount>) -> Result<(), AllocError>
    ensures { OnOk result ((es : List SignalEntry) → spec.CountsSignalPhases table.old.items es
        → spec.CountsSignalPlaces table.new.items es) }
{
    if table.len() == 0 {
        *table = vec![in alloc; PhaseCount::nothing(); PLACES]?;
    }
    Ok(())
}

impl PhaseTable {
    // No cell came.
    fn new(alloc: Global) -> PhaseTable
        ensures { result.counts.items ≡ [] }
    {
        PhaseTable {
            counts: Vec::new(alloc),
        }
    }

    // Takes the cells of a message.
    fn take(&mut self, alloc: Global, entries: &[SignalEntry]) -> Result<(), AllocError>
        ensures { OnOk result ((es : List SignalEntry) → spec.CountsSignalPhases self.old.counts.items es
            → spec.CountsSignalPhases self.new.counts.items (entries.now ++ es)) }
    {
        make_table(alloc, &mut self.counts)?;
        take_entries(&mut self.counts, entries);
        Ok(())
    }
}

// Takes the cells of a message into the table of its number.
fn take_numbered(
    alloc: Global,
    tables: &mut BTreeMap<u16, PhaseTable>,
    message: &AnyMessage,
    cells: &[SignalEntry],
) -> Result<(), AllocError>
    requires { cells.now ≡ cells_beside_gps message.now }
    ensures { OnOk result ((ms : List AnyMessage) → spec.HasPhaseTables tables.old ms
        → spec.HasPhaseTables tables.new (message.now ∷ ms)) }
{
    let table = tables
        .entry(message.number())?
        .or_insert(PhaseTable::new(alloc));
    table.take(alloc, cells)
}

impl SystemPhases {
    /// No message came; this station is named, or none.
    pub(crate) fn new(alloc: Global, station: Option<u16>) -> SystemPhases
        ensures { spec.HasSystemPhases station [] result }
    {
        SystemPhases {
            station,
            tables: BTreeMap::new(alloc),
        }
    }

    /// A message more, with its cells of other systems than GPS.
    pub(crate) fn count_phases(
        &mut self,
        alloc: Global,
        message: &AnyMessage,
        cells: &[SignalEntry],
    ) -> Result<(), AllocError>
        requires { cells.now ≡ cells_beside_gps message.now }
        ensures { OnOk result ((named : Option ℕ) (ms : List AnyMessage) → spec.HasSystemPhases named ms self.old
            → spec.HasSystemPhases named (message.now ∷ ms) self.new) }
    {
        if cells.is_empty() {
            return Ok(());
        }
        let station = message.station();
        let known = self.station.unwrap_or(station);
        self.station = Some(known);
        if known == station {
            return take_numbered(alloc, &mut self.tables, message, cells);
        }
        Ok(())
    }
}

fn table_of_phases(table: Option<&PhaseTable>) -> &[PhaseCount]
    ensures { result.now ≡ spec.table_of_phases (option_copied table.entry) }
{
    match table {
        Some(table) => table.counts.as_slice(),
        None => &[],
    }
}

impl SystemPhases {
    /// The table of a number of messages, if there is one.
    pub fn of_number(&self, number: u16) -> &[PhaseCount]
        ensures { result.now ≡ spec.table_of_phases (get nat_cmp self.now.tables number) }
    {
        table_of_phases(self.tables.get(&number))
    }
}
