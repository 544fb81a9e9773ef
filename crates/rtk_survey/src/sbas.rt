//! Satellites of SBAS in a 1004.

ghost use Rattle.std.specs.Prelude.{◌≡◌};
ghost use Rattle.std.specs.List.{list_any};
ghost use Rattle.rtk_survey.specs.BesideGps.{cells_beside_gps, sbas_cells_of_four};
ghost use Rattle.rtk_survey.specs.Sbas as spec;

use rtk_message::{AnyMessage, Message, Satellite};
use rtk_obs::SignalEntry;

/// The satellite IDs of SBAS (DF009), for PRN 120 to 138.
const FIRST_SBAS: u8 = 40;

const LAST_SBAS: u8 = 58;

fn is_sbas(satellite: &Satellite) -> bool
    ensures { result ≡ spec.is_sbas satellite.now }
{
    FIRST_SBAS <= satellite.satellite && satellite.satellite <= LAST_SBAS
}

/// Has one of the satellites an ID of SBAS?
pub(crate) fn have_sbas(satellites: &[Satellite]) -> bool
    ensures { result ≡ list_any spec.is_sbas satellites.now }
{
    satellites.iter().any(is_sbas)
}

fn has_sbas_of_four(message: &Message, signals: &[SignalEntry]) -> bool
    requires { signals.now ≡ sbas_cells_of_four message.now }
    ensures { result ≡ spec.has_sbas_of_four message.now }
{
    match message {
        Message::Obs1004(_) => !signals.is_empty(),
        Message::Arp1005(_) | Message::Arp1006(_) | Message::Msm1074(_) => false,
    }
}

/// Is it a 1004 that has a satellite of SBAS? Its cells of other systems than GPS say so, and its satellites are not looked
/// through again.
pub(crate) fn has_sbas(message: &AnyMessage, signals: &[SignalEntry]) -> bool
    requires { signals.now ≡ cells_beside_gps message.now }
    ensures { result ≡ spec.has_sbas message.now }
{
    match message {
        AnyMessage::Message(message) => has_sbas_of_four(message, signals),
        AnyMessage::Msm(_) | AnyMessage::Obs1012(_) => false,
    }
}
