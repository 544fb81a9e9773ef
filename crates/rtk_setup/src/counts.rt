//! How many frames there were of each kind, and how many records the file has.

/// The nine counts at the end of a report. Each stays at its greatest value once there.
///
/// Each frame is in `frames` and in exactly one of the seven counts after it.
#[derive(Clone, Copy, Debug, Default, PartialEq, Eq)]
pub struct Counts {
    /// All frames found.
    pub frames: u64,
    /// Frames with another message than 1004, 1005, 1006 and the MSM of the setup.
    pub other: u64,
    /// Frames that are cut short or hold what the standard rules out.
    pub refused: u64,
    /// Messages of another station.
    pub foreign: u64,
    /// Messages with something new.
    pub taken: u64,
    /// Messages with nothing new that differ in nothing from what is kept.
    pub repeat: u64,
    /// Messages with nothing new that differ from what is kept.
    pub conflict: u64,
    /// Messages that came too late: after as many greater epochs as the window holds.
    pub late: u64,
    /// Records of the file.
    pub epochs: u64,
}
