//! Why parts make no label.

use thiserror::Error;

/// The first field that does not fit its columns.
///
/// A text has at most as many bytes as its columns, each 0x20 to 0x7E, the first and the last no
/// blank. An offset in m has a sign, one to four digits, a point and four digits.
#[derive(Clone, Copy, Debug, PartialEq, Eq, Error)]
pub enum LabelFault {
    /// The text of `PGM / RUN BY / DATE` has at most 20 bytes.
    #[error("L1 bad run by")]
    RunBy,
    /// The text of `MARKER NUMBER` has at most 20 bytes.
    #[error("L2 bad marker number")]
    MarkerNumber,
    /// The first text of `OBSERVER / AGENCY` has at most 20 bytes.
    #[error("L3 bad observer")]
    Observer,
    /// The second text of `OBSERVER / AGENCY` has at most 40 bytes.
    #[error("L4 bad agency")]
    Agency,
    /// The first text of `REC # / TYPE / VERS` has at most 20 bytes.
    #[error("L5 bad receiver number")]
    ReceiverNumber,
    /// The second text of `REC # / TYPE / VERS` has at most 20 bytes.
    #[error("L6 bad receiver type")]
    ReceiverType,
    /// The third text of `REC # / TYPE / VERS` has at most 20 bytes.
    #[error("L7 bad receiver version")]
    ReceiverVersion,
    /// The first text of `ANT # / TYPE` has at most 20 bytes.
    #[error("L8 bad antenna number")]
    AntennaNumber,
    /// The second text of `ANT # / TYPE` has at most 20 bytes.
    #[error("L9 bad antenna type")]
    AntennaType,
    /// The first number of `ANTENNA: DELTA H/E/N` is an offset.
    #[error("L10 bad antenna height")]
    DeltaHeight,
    /// The second number of `ANTENNA: DELTA H/E/N` is an offset.
    #[error("L11 bad offset to the east")]
    DeltaEast,
    /// The third number of `ANTENNA: DELTA H/E/N` is an offset.
    #[error("L12 bad offset to the north")]
    DeltaNorth,
}
