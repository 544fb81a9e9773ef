//! A difference of two files: what it is, where it is, and whether something is lost by it.

ghost use Rattle.std.specs.Prelude.{◌≡◌};
ghost use Rattle.rtk_compare.specs.Places.{in_header, at_code, at_slot, at_epoch, at_satellite, at_signal};

use rtk_obs::{AnyCode, GpsMs, SatelliteIndex};

/// What a difference means for the old file.
#[derive(Clone, Copy, Debug, Default, PartialEq, Eq)]
pub enum Class {
    /// The old file has it, and the new one does not.
    #[default]
    Lost,
    /// Both have it, and it differs.
    Changed,
    /// More messages alone make this difference.
    Explained,
}

/// What differs.
#[derive(Clone, Copy, Debug, Default, PartialEq, Eq)]
pub enum What {
    /// The name of the marker.
    #[default]
    Marker,
    /// The antenna reference point.
    Position,
    /// The height of the antenna that the station told.
    Height,
    /// A code that the header lists.
    Code,
    /// The frequency channel of a slot of GLONASS.
    Channel,
    /// The leap seconds.
    LeapSeconds,
    /// A field of the label: `PGM / RUN BY / DATE`.
    RunBy,
    /// A field of the label: `MARKER NUMBER`.
    MarkerNumber,
    /// A field of the label: the first of `OBSERVER / AGENCY`.
    Observer,
    /// A field of the label: the second of `OBSERVER / AGENCY`.
    Agency,
    /// A field of the label: the first of `REC # / TYPE / VERS`.
    ReceiverNumber,
    /// A field of the label: the second of `REC # / TYPE / VERS`.
    ReceiverType,
    /// A field of the label: the third of `REC # / TYPE / VERS`.
    ReceiverVersion,
    /// A field of the label: the first of `ANT # / TYPE`.
    AntennaNumber,
    /// A field of the label: the second of `ANT # / TYPE`.
    AntennaType,
    /// A field of the label: the first of `ANTENNA: DELTA H/E/N`.
    DeltaHeight,
    /// A field of the label: the second of `ANTENNA: DELTA H/E/N`.
    DeltaEast,
    /// A field of the label: the third of `ANTENNA: DELTA H/E/N`.
    DeltaNorth,
    /// An epoch.
    Epoch,
    /// A satellite at an epoch.
    Satellite,
    /// A pseudorange.
    Range,
    /// A carrier phase.
    Phase,
    /// A signal strength.
    Strength,
    /// A Doppler shift, or in the header all of them.
    Doppler,
    /// A cell that another message gives more finely.
    Finer,
    /// A phase that is whole rolls of 1,500 cycles away.
    Roll,
    /// A slip.
    Slip,
    /// A slip at the first phase of a satellite and code in the old file.
    FirstSlip,
    /// A slip behind a gap of the old file that the new one fills.
    FilledSlip,
    /// A slip that only the new file has.
    NewSlip,
    /// A half cycle.
    HalfCycle,
}

/// Where a difference is: what is not there is not told.
#[derive(Clone, Copy, Debug, Default, PartialEq, Eq)]
pub struct Place {
    /// The epoch; without one the place is in the header.
    pub time: Option<GpsMs>,
    pub satellite: Option<SatelliteIndex>,
    pub code: Option<AnyCode>,
    /// The slot of GLONASS.
    pub slot: Option<u8>,
}

impl Place {
    /// In the header.
    pub(crate) fn header() -> Place
        ensures { result ≡ in_header }
    {
        Place {
            time: None,
            satellite: None,
            code: None,
            slot: None,
        }
    }

    /// In the header, at a code.
    pub(crate) fn of_code(code: AnyCode) -> Place
        ensures { result ≡ at_code code }
    {
        Place {
            time: None,
            satellite: None,
            code: Some(code),
            slot: None,
        }
    }

    /// In the header, at a slot of GLONASS.
    pub(crate) fn of_slot(slot: u8) -> Place
        ensures { result ≡ at_slot slot }
    {
        Place {
            time: None,
            satellite: None,
            code: None,
            slot: Some(slot),
        }
    }

    /// At an epoch.
    pub(crate) fn of_epoch(time: GpsMs) -> Place
        ensures { result ≡ at_epoch time }
    {
        Place {
            time: Some(time),
            satellite: None,
            code: None,
            slot: None,
        }
    }

    /// At an epoch and a satellite.
    pub(crate) fn of_satellite(time: GpsMs, satellite: SatelliteIndex) -> Place
        ensures { result ≡ at_satellite time satellite }
    {
        Place {
            time: Some(time),
            satellite: Some(satellite),
            code: None,
            slot: None,
        }
    }

    /// At an epoch, a satellite and a code.
    pub(crate) fn of_signal(time: GpsMs, satellite: SatelliteIndex, code: AnyCode) -> Place
        ensures { result ≡ at_signal time satellite code }
    {
        Place {
            time: Some(time),
            satellite: Some(satellite),
            code: Some(code),
            slot: None,
        }
    }
}

/// A difference of two files.
#[derive(Clone, Copy, Debug, Default, PartialEq, Eq)]
pub struct Difference {
    pub class: Class,
    pub what: What,
    pub place: Place,
}
