//! What the words of `auto` say.

ghost use Rattle.std.specs.Option.{ForSome};
ghost use Rattle.rtk_rinex.specs.MixedHead.{IsMixedList};

use rtk_message::MsmKind;
use rtk_obs::{AnyCode, Channels};
use rtk_rinex::{Marker, SystemFlags};
use rtk_setup::{LeapSeconds, Reference, Station, Window};

/// What the words say of the values of a conversion. `None` is to be found in the captures.
#[derive(Drop)]
pub struct Wanted {
    pub station: Option<Station>,
    pub msm: Option<MsmKind>,
    pub codes: Option<Vec<AnyCode>>,
    /// The systems that are converted, if no codes are named.
    pub systems: SystemFlags,
    /// The channels of the slots of GLONASS.
    pub channels: Option<Channels>,
    /// The leap seconds by which clocks of GLONASS are dated. `None` are those of the table.
    pub leap_seconds: Option<LeapSeconds>,
    /// The reference near which times of week are dated.
    pub near: Option<Reference>,
    /// The marker; if there is none, the station's number stands for it.
    pub marker: Option<Marker>,
    /// How many epochs are kept open.
    pub window: Window,
    /// The file shows Doppler shifts.
    pub doppler: bool,

    ghost codes_fit: { ForSome codes (λ codes. IsMixedList codes.items) },
}

/// What the words say of the captures, of the file and of the report.
#[derive(Clone, Copy, Debug, PartialEq, Eq)]
pub struct Ways<'a> {
    /// The name of the file that is written; `None` is standard output.
    pub output: Option<&'a str>,
    /// A file of that name is replaced.
    pub force: bool,
    /// The file has the label that messages told.
    pub label: bool,
    /// Captures in which nothing of the station was found are left out.
    pub skip_empty: bool,
    /// Each capture is a link, and positions are not compared.
    pub links_as_given: bool,
    /// The report is shown.
    pub report: bool,
}
