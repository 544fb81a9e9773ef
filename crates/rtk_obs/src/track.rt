//! What is remembered of the last phase of a satellite and code, and the digits of a cell.

use crate::cell::CellSource;

/// The last phase of a satellite and code: what a later phase is compared with.
#[derive(Clone, Copy, Debug, PartialEq, Eq)]
pub struct Track {
    /// The epoch, in ms since 1980-01-06 00:00:00.000.
    pub epoch: u64,
    /// The least time of continuous lock, in ms.
    pub lock_time_ms: u32,
    /// The kind of message that the phase came in.
    pub source: CellSource,
    /// The phase difference of a 1004: `offset` of the phase's `Cell`.
    pub offset: Option<i32>,
    /// The rolls of 1500 cycles so far.
    pub rolls: i64,
}

/// What `Tracks::step` answers for a cell: what RINEX shows beside its phase, and the rolls of 1500
/// cycles to add to it.
#[derive(Clone, Copy, Debug, Default, PartialEq, Eq)]
pub struct Digits {
    /// Lock was lost since the last phase: bit 0 of the loss-of-lock indicator.
    pub slip: bool,
    /// The half-cycle ambiguity is open: bit 1 of the loss-of-lock indicator.
    pub half: bool,
    /// How many times 1500 cycles are to be added to the phase.
    pub rolls: i64,
}
