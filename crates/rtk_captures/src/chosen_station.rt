//! Which station is converted if none is named.

ghost use Rattle.std.specs.Prelude.{◌≡◌, ℕ};
ghost use Rattle.std.specs.List.{list_any};
ghost use Rattle.rtk_captures.specs.ChosenStation.{IsObservedStation, IsOnlyObserved, AreSeveralObserved};
ghost use Rattle.rtk_captures.specs.StationCaptures.{is_observed_in};

use crate::station_capture::is_observed_in;
use rtk_survey::CaptureSurvey;

/// How many stations there are: DF003 has 12 bits.
pub(crate) const STATIONS: u16 = 4096;

/// The station of captures.
#[derive(Clone, Copy, Debug, PartialEq, Eq)]
pub enum OnlyStation {
    /// No station has an observation.
    None,
    /// This one alone has.
    One(u16),
    /// Several have.
    Several,
}

/// Has some capture an observation of the station?
pub fn is_observed(surveys: &[CaptureSurvey], station: u16) -> bool
    ensures { result ≡ list_any (is_observed_in station) surveys.now }
{
    surveys.iter().any(|survey| is_observed_in(station, survey))
}

/// The station that alone has observations in captures.
pub fn only_station(surveys: &[CaptureSurvey]) -> OnlyStation
    ensures none { result ≡ OnlyStation.None → (n : ℕ) → ¬ (IsObservedStation surveys.now n) }
    ensures one { (n : ℕ) → result ≡ OnlyStation.One n → IsOnlyObserved surveys.now n }
    ensures several { result ≡ OnlyStation.Several → AreSeveralObserved surveys.now }
{
    let mut found = None;
    for station in 0..STATIONS {
        if !is_observed(surveys, station) {
            continue;
        }
        if found.is_some() {
            return OnlyStation::Several;
        }
        found = Some(station);
    }
    match found {
        Some(station) => OnlyStation::One(station),
        None => OnlyStation::None,
    }
}
