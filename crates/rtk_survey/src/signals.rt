//! The satellites and the codes that have a value.

ghost use Rattle.std.specs.Prelude.{◌≡◌, ◌<◌, ◌==◌, ◌&&◌, ◌||◌, List, ℕ, false, [], ◌∷◌, ◌++◌, length, get_or};
ghost use Rattle.std.specs.List.{list_any};
ghost use Rattle.rtk_obs.specs.declared.cell.CellEntry.{CellEntry};
ghost use Rattle.rtk_survey.specs.Proposal.{entry_has_value};
ghost use Rattle.rtk_survey.specs.Contents.{HasCodes, HasSignals};
ghost use Rattle.rtk_survey.specs.Tracing.{has_value};

use rtk_obs::{Cell, CellEntry};

/// How many places the codes have: `Code::place` is below it.
pub(crate) const CODES: usize = 16;

/// How many places the satellites have: none has the number 0.
pub(crate) const SATELLITES: usize = 33;

/// Which codes have a value in some cell.
#[derive(Clone, Copy)]
pub struct Codes {
    /// By the place of the code.
    pub marks: [bool; CODES],
}

/// Which satellites and codes have a value in some cell.
#[derive(Clone, Copy)]
pub struct Signals {
    /// By satellite.
    pub satellites: [bool; SATELLITES],
    pub codes: Codes,
}

/// A cell has a range, a phase or a strength.
pub fn has_value(cell: &Cell) -> bool
    ensures { result ≡ has_value cell.now }
{
    cell.range_mm.is_some() || cell.phase_millicycles.is_some() || cell.strength_millidbhz.is_some()
}

/// Marks a place, if its cell has a value.
pub(crate) fn mark(marks: &mut [bool], place: usize, has_value: bool)
    ensures size { length marks.new ≡ length marks.old }
    ensures marked { (n : ℕ) → n < length marks.old
        → get_or marks.new n false ≡ ((has_value && (place == n)) || get_or marks.old n false) }
{
    if has_value && place < marks.len() {
        marks[place] = true;
    }
}

/// Some cell has a value.
pub fn have_value(entries: &[CellEntry]) -> bool
    ensures { result ≡ list_any entry_has_value entries.now }
{
    entries.iter().any(|entry| has_value(&entry.cell))
}

impl Codes {
    /// Nothing has a value.
    pub fn new() -> Codes
        ensures { HasCodes result [] }
    {
        Codes {
            marks: [false; CODES],
        }
    }

    fn mark_code(&mut self, entry: &CellEntry)
        ensures { (es : List CellEntry) → HasCodes self.old es → HasCodes self.new (entry.now ∷ es) }
    {
        mark(&mut self.marks, entry.code.place(), has_value(&entry.cell));
    }

    /// The codes with a value in these cells.
    pub fn of(entries: &[CellEntry]) -> Codes
        ensures { HasCodes result entries.now }
    {
        let mut codes = Codes::new();
        for entry in entries {
            codes.mark_code(entry);
        }
        codes
    }

    /// The codes of more cells.
    pub fn join(&mut self, more: &Codes)
        ensures { (xs es : List CellEntry) → HasCodes more.now xs → HasCodes self.old es
            → HasCodes self.new (xs ++ es) }
    {
        for place in 0..CODES {
            self.marks[place] |= more.marks[place];
        }
    }
}

impl Signals {
    /// Nothing has a value.
    pub fn new() -> Signals
        ensures { HasSignals result [] }
    {
        Signals {
            satellites: [false; SATELLITES],
            codes: Codes::new(),
        }
    }

    fn mark_entry(&mut self, entry: &CellEntry)
        ensures { (es : List CellEntry) → HasSignals self.old es → HasSignals self.new (entry.now ∷ es) }
    {
        mark(
            &mut self.satellites,
            usize::from(entry.satellite),
            has_value(&entry.cell),
        );
        self.codes.mark_code(entry);
    }

    /// Marks the satellites and codes of more cells.
    pub fn mark_entries(&mut self, entries: &[CellEntry])
        ensures { (es : List CellEntry) → HasSignals self.old es → HasSignals self.new (entries.now ++ es) }
    {
        for entry in entries {
            self.mark_entry(entry);
        }
    }
}
