//! How many phases the satellites of a station have in each code.

ghost use Rattle.std.specs.Prelude.{◌≡◌, ◌+◌, ◌||◌, ℕ, List, [], ◌∷◌, ◌++◌, is_some, OnOk};
ghost use Rattle.rtk_message.specs.declared.any_message.AnyMessage.{AnyMessage};
ghost use Rattle.rtk_obs.specs.declared.cell.CellEntry.{CellEntry};
ghost use Rattle.rtk_survey.specs.Contents.{one_if};
ghost use Rattle.rtk_survey.specs.Counting.{shown_count};
ghost use Rattle.rtk_survey.specs.Phases as spec;
ghost use Rattle.rtk_survey.specs.Tracing.{entries_of_message, has_value};

use crate::signals::{CODES, SATELLITES, has_value};
use rtk_message::{AnyMessage, MsmKind};
use rtk_obs::{Cell, CellEntry, Code};
use std::alloc::{AllocError, Global};

/// The places of a table.
const PLACES: usize = SATELLITES * CODES;

/// What a satellite has of a code.
#[derive(Clone, Copy, Debug, PartialEq, Eq)]
pub struct PhaseCount {
    /// It has a range, a phase or a strength.
    pub has_value: bool,
    /// How many phases it has.
    pub phases: u64,
}

/// The phases of a station, by number of the message, satellite and code. A table is made with the first
/// message of its number.
#[derive(Drop)]
pub struct Phases {
    pub of_1004: Vec<PhaseCount>,
    pub of_1074: Vec<PhaseCount>,
    pub of_1075: Vec<PhaseCount>,
    pub of_1076: Vec<PhaseCount>,
    pub of_1077: Vec<PhaseCount>,
}

// The place of a satellite and a code in a table.
fn place_in_table(satellite: u8, code: Code) -> usize
    ensures { result ≡ spec.place_in_table satellite code }
{
    CODES * usize::from(satellite) + code.place()
}

impl PhaseCount {
    /// Nothing came.
    pub fn nothing() -> PhaseCount
        ensures counts { (n : ℕ) → result ≡ spec.phase_count n [] }
        ensures none { result ≡ spec.no_phases }
    {
        PhaseCount {
            has_value: false,
            phases: 0,
        }
    }

    /// A cell more.
    pub(crate) fn take(&mut self, cell: &Cell)
        ensures has_value { self.new.has_value ≡ (has_value cell.now || self.old.has_value) }
        ensures phases { self.new.phases ≡ shown_count (self.old.phases + one_if (is_some cell.now.phase_millicycles)) }
    {
        self.has_value = has_value(cell) || self.has_value;
        self.phases = self
            .phases
            .saturating_add(u64::from(cell.phase_millicycles.is_some()));
    }
}

fn take_entry(table: &mut Vec<PhaseCount>, entry: &CellEntry)
    ensures { (es : List CellEntry) → spec.CountsPlaces table.old.items es
        → spec.CountsPlaces table.new.items (entry.now ∷ es) }
{
    let place = place_in_table(entry.satellite, entry.code);
    if place < table.len() {
        table[place].take(&entry.cell);
    }
}

fn take_entries(table: &mut Vec<PhaseCount>, entries: &[CellEntry])
    ensures { (es : List CellEntry) → spec.CountsPlaces table.old.items es
        → spec.CountsPlaces table.new.items (entries.now ++ es) }
{
    for entry in entries {
        take_entry(table, entry);
    }
}

// Makes a table, unless it is there.
fn make_table(alloc: Global, table: &mut Vec<PhaseCount>) -> Result<(), AllocError>
    ensures { OnOk result ((es : List CellEntry) → spec.CountsPhases table.old.items es → spec.CountsPlaces table.new.items es) }
{
    if table.len() == 0 {
        *table = vec![in alloc; PhaseCount::nothing(); PLACES]?;
    }
    Ok(())
}

// Takes the cells of a message, if it has this number.
fn take_numbered(
    alloc: Global,
    table: &mut Vec<PhaseCount>,
    number: u16,
    message: &AnyMessage,
    entries: &[CellEntry],
) -> Result<(), AllocError>
    requires { entries.now ≡ entries_of_message message.now }
    ensures { OnOk result ((ms : List AnyMessage) → spec.CountsPhases table.old.items (spec.entries_numbered number ms)
        → spec.CountsPhases table.new.items (spec.entries_numbered number (message.now ∷ ms))) }
{
    if message.number() == number {
        make_table(alloc, table)?;
        take_entries(table, entries);
    }
    Ok(())
}

impl Phases {
    /// Nothing came.
    pub(crate) fn new(alloc: Global) -> Phases
        ensures { spec.HasPhases result [] }
    {
        Phases {
            of_1004: Vec::new(alloc),
            of_1074: Vec::new(alloc),
            of_1075: Vec::new(alloc),
            of_1076: Vec::new(alloc),
            of_1077: Vec::new(alloc),
        }
    }

    /// Takes a message of the station, with its cells.
    pub(crate) fn take_message(
        &mut self,
        alloc: Global,
        message: &AnyMessage,
        entries: &[CellEntry],
    ) -> Result<(), AllocError>
        requires { entries.now ≡ entries_of_message message.now }
        ensures { OnOk result ((ms : List AnyMessage) → spec.HasPhases self.old ms
            → spec.HasPhases self.new (message.now ∷ ms)) }
    {
        take_numbered(alloc, &mut self.of_1004, 1004, message, entries)?;
        take_numbered(alloc, &mut self.of_1074, 1074, message, entries)?;
        take_numbered(alloc, &mut self.of_1075, 1075, message, entries)?;
        take_numbered(alloc, &mut self.of_1076, 1076, message, entries)?;
        take_numbered(alloc, &mut self.of_1077, 1077, message, entries)
    }

    /// The table of an MSM.
    pub fn of_msm(&self, kind: MsmKind) -> &[PhaseCount]
        ensures { result.now ≡ spec.table_of_msm self.now kind }
    {
        match kind {
            MsmKind::Msm4 => self.of_1074.as_slice(),
            MsmKind::Msm5 => self.of_1075.as_slice(),
            MsmKind::Msm6 => self.of_1076.as_slice(),
            MsmKind::Msm7 => self.of_1077.as_slice(),
        }
    }
}

/// What a satellite, by its mask bit (DF394), has of the code of a place among those of its system, by a table.
pub fn count_in_table(table: &[PhaseCount], bit: u8, code: u8) -> PhaseCount
    ensures { result ≡ spec.count_in table.now bit code }
{
    let place = CODES * usize::from(bit) + usize::from(code);
    table.get(place).copied().unwrap_or(PhaseCount::nothing())
}
