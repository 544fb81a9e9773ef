//! The satellites and codes of other systems than GPS that have a value.

ghost use Rattle.std.specs.Prelude.{◌≡◌, List, [], ◌∷◌, ◌++◌};
ghost use Rattle.std.specs.List.{list_any};
ghost use Rattle.rtk_obs.specs.declared.signal_cells.SignalEntry.{SignalEntry};
ghost use Rattle.rtk_survey.specs.BesideGps.{signal_has_value};
ghost use Rattle.rtk_survey.specs.Contents.{HasSystemSignals};

use crate::bit_marks::BitMarks;
use crate::signals::has_value;
use rtk_obs::SignalEntry;

/// The index of a satellite is below it.
pub(crate) const INDICES: u8 = 222;

/// Marks by the index of a satellite.
pub type IndexMarks = BitMarks<4>;

/// Marks by `AnyCode::number`, which is below 69.
pub type AnyCodeMarks = BitMarks<2>;

/// Which satellites and codes of other systems than GPS have a value in some cell.
#[derive(Clone, Copy)]
pub struct SystemSignals {
    pub satellites: IndexMarks,
    pub codes: AnyCodeMarks,
}

/// Some cell has a value.
pub(crate) fn signals_have_value(entries: &[SignalEntry]) -> bool
    ensures { result ≡ list_any signal_has_value entries.now }
{
    entries.iter().any(|entry| has_value(&entry.cell))
}

impl SystemSignals {
    /// Nothing has a value.
    pub fn new() -> SystemSignals
        ensures { HasSystemSignals result [] }
    {
        SystemSignals {
            satellites: IndexMarks::new(),
            codes: AnyCodeMarks::new(),
        }
    }

    fn mark_entry(&mut self, entry: &SignalEntry)
        ensures { (es : List SignalEntry) → HasSystemSignals self.old es → HasSystemSignals self.new (entry.now ∷ es) }
    {
        if has_value(&entry.cell) {
            self.satellites.mark(usize::from(entry.satellite.index()));
            self.codes.mark(entry.code.number());
        }
    }

    /// Marks the satellites and codes of more cells.
    pub fn mark_entries(&mut self, entries: &[SignalEntry])
        ensures { (es : List SignalEntry) → HasSystemSignals self.old es → HasSystemSignals self.new (entries.now ++ es) }
    {
        for entry in entries {
            self.mark_entry(entry);
        }
    }
}
