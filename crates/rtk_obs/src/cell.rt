//! What a message gives for a satellite and a code at its epoch.
//!
//! The cells of a message are written over the entries of a list. Clearing the list first would
//! write each entry twice, and moving an entry that was built elsewhere takes a tenth longer.

ghost use Rattle.std.specs.Prelude.{◌≡◌, ◌+◌, ◌<◌, ◌≤◌, [], ◌∷◌, ◌++◌, length, take};
ghost use Rattle.rtk_obs.specs.Cell.{is_satellite};

use crate::code::Code;
use arrayvec::ArrayVec;

/// The kind of message that a cell came in.
#[derive(Clone, Copy, Debug, Default, PartialEq, Eq, Hash)]
pub enum CellSource {
    /// A legacy message, 1004.
    #[default]
    Legacy,
    /// A multiple signal message (MSM), such as 1074.
    ///
    /// Lock times of one source are compared, but only those of DF402 (MSM4, MSM5), or those of
    /// DF407 (MSM6, MSM7), are of one table. So the cells of one `Tracks` come from one message
    /// number. Cells of several can show a slip too many, and never one too few.
    Msm,
}

/// The values of a satellite and code at an epoch. Two cells are equal if all fields are.
#[derive(Clone, Copy, Debug, Default, PartialEq, Eq, Hash)]
pub struct Cell {
    /// The pseudorange in mm.
    pub range_mm: Option<i64>,
    /// The carrier phase in thousandths of a cycle, rolls of 1500 cycles not undone.
    pub phase_millicycles: Option<i64>,
    /// The signal strength in thousandths of a dB-Hz.
    pub strength_millidbhz: Option<u32>,
    /// The least time of continuous lock in ms.
    pub lock_time_ms: u32,
    /// The half-cycle ambiguity is open (DF420); always false in a cell of a 1004.
    pub half: bool,
    /// The kind of message.
    pub source: CellSource,
    /// The phase difference of the message: the phase less the pseudorange of L1, in 0.0005 m
    /// (DF012, DF018); only a phase of a 1004 has it.
    pub offset: Option<i32>,
}

/// A cell with its satellite and code.
#[derive(Clone, Copy, Debug, Default, PartialEq, Eq, Hash)]
pub struct CellEntry {
    /// The satellite, 1 to 32.
    pub satellite: u8,
    pub code: Code,
    pub cell: Cell,
}

/// Returns whether this is a satellite of GPS that RINEX has.
pub(crate) fn is_satellite(satellite: u8) -> bool
    ensures { result ≡ is_satellite satellite }
{
    1 <= satellite && satellite <= 32
}

/// Lengthens a list, if it must be, to this number of places, which can then be written.
pub(crate) fn make_room(list: &mut ArrayVec<CellEntry, 64>, places: usize)
    requires { places ≤ 64 }
    ensures { places ≤ length list.new.items }
{
    while list.len() < places {
        list.push(CellEntry::default());
    }
}
