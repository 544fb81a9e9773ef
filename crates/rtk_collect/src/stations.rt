//! The first 1005 and 1006 of a station, and the position from them.

ghost use Rattle.rtk_message.specs.Arp1005 as arp1005_spec;
ghost use Rattle.rtk_message.specs.Arp1006 as arp1006_spec;
ghost use Rattle.rtk_message.specs.declared.any_message.AnyMessage.{AnyMessage as TheMessage};
ghost use Rattle.rtk_message.specs.declared.any_message.AnyMessage.TheVariants as AnyMessage;
ghost use Rattle.rtk_message.specs.Decoded.{IsValid, tow_of};
ghost use Rattle.std.specs.Prelude.{◌≡◌, ◌==◌, ℕ, List, [], length, None};
ghost use Rattle.std.specs.Option.{ForSome};
ghost use Rattle.rtk_obs.specs.PositionFields.{HasFields};
ghost use Rattle.rtk_collect.specs.Arrival.{At};
ghost use Rattle.rtk_collect.specs.EpochSet.{EpochSetView};
ghost use Rattle.rtk_collect.specs.Offered.{AnswersArrival};
ghost use Rattle.rtk_collect.specs.StationPosition.{IsPosition};
ghost use Rattle.rtk_collect.specs.Steps.Observed.{ListsConflicts};
ghost use Rattle.rtk_collect.specs.Steps.Slot.{AnswersStationMessage, window_of};

use crate::entry::Entry;
use crate::outcome::Outcome;
use rtk_message::{Arp1005, Arp1006, Message};
use rtk_obs::Position;

/// The first 1005 and the first 1006 of the one station whose messages come.
#[derive(Clone, Copy)]
pub(crate) struct StationMessages {
    pub(crate) arp1005: Option<Arp1005>,
    pub(crate) arp1006: Option<Arp1006>,
}

impl StationMessages {
    /// Makes the state without a station message.
    pub(crate) fn new() -> StationMessages
        ensures { result ≡ record { arp1005 = None; arp1006 = None } }
    {
        StationMessages {
            arp1005: None,
            arp1006: None,
        }
    }

    /// Takes a 1005 or 1006, if it is the first of its number and the window isn't full. No cell of it
    /// conflicts.
    pub(crate) fn offer<E: Entry>(&mut self, message: &Message, full: bool) -> Outcome<E>
        requires valid { IsValid message.now }
        requires station { tow_of message.now ≡ None }
        requires fits_1005 { ForSome self.old.arp1005 arp1005_spec.IsValid }
        requires fits_1006 { ForSome self.old.arp1006 arp1006_spec.IsValid }
        ensures answer { (of : TheMessage → List E) (n : ℕ) (sets : List (EpochSetView E)) → full ≡ (length sets == n)
            → AnswersArrival E.entries of (window_of n sets self.old) (At None (AnyMessage.Message message.now)) result [] (window_of n sets self.new) }
        ensures fits_1005 { ForSome self.new.arp1005 arp1005_spec.IsValid }
        ensures fits_1006 { ForSome self.new.arp1006 arp1006_spec.IsValid }
        ensures none { ListsConflicts result [] }
    {
        match message {
            Message::Arp1005(message) => { keep_station_message(&mut self.arp1005, *message, full) }
            Message::Arp1006(message) => { keep_station_message(&mut self.arp1006, *message, full) }
            _ => unreachable!(),
        }
    }
}

// Keeps a station message if it is the first of its number and the window isn't full, and says
// what became of it.
fn keep_station_message<T: PartialEq + Copy, E: Entry>(
    slot: &mut Option<T>,
    message: T,
    full: bool,
) -> Outcome<E>
    ensures { AnswersStationMessage T.eq slot.old message full result slot.new }
{
    if let Some(first) = *slot {
        if first == message {
            return Outcome::Repeat;
        }
        if full {
            return Outcome::Late;
        }
        return Outcome::Conflict;
    }
    if full {
        return Outcome::Late;
    }
    *slot = Some(message);
    Outcome::Taken { closed: None }
}

/// Returns the position of the 1006, else of the 1005, else zeros. Its height is that of the 1006,
/// else zero.
pub(crate) fn position(stations: StationMessages) -> Position
    requires fits_1005 { ForSome stations.arp1005 arp1005_spec.IsValid }
    requires fits_1006 { ForSome stations.arp1006 arp1006_spec.IsValid }
    ensures { IsPosition stations.arp1005 stations.arp1006 result }
{
    if let Some(message) = stations.arp1006 {
        return position_of(message.arp, message.height);
    }
    if let Some(arp) = stations.arp1005 {
        return position_of(arp, 0);
    }
    Position {
        x: 0,
        y: 0,
        z: 0,
        height: 0,
    }
}

// Returns the antenna reference point with this height. It is passed by value, so that the prover
// knows the range of each field's type.
fn position_of(arp: Arp1005, height: u16) -> Position
    requires { arp1005_spec.IsValid arp }
    ensures { HasFields arp.x arp.y arp.z height result }
{
    Position {
        x: arp.x,
        y: arp.y,
        z: arp.z,
        height,
    }
}
