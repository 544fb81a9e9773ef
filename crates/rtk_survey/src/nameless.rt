//! Messages with cells of satellites or signals that have no name in RINEX.
//!
//! The cells with a name are in lists already. Nearly all messages have as many cells as these lists, so the
//! lengths are compared first, and the satellites of the others alone are looked at.

ghost use Rattle.std.specs.Prelude.{◌≡◌, [], ◌∷◌, List, OnOk};
ghost use Rattle.std.specs.List.{list_any};
ghost use Rattle.rtk_message.specs.declared.any_message.AnyMessage.{AnyMessage};
ghost use Rattle.rtk_survey.specs.BesideGps.{cells_beside_gps};
ghost use Rattle.rtk_survey.specs.Contents.{CountsNameless};
ghost use Rattle.rtk_survey.specs.Nameless as spec;
ghost use Rattle.rtk_survey.specs.Tracing.{entries_of_message};

use crate::unread::count_number;
use rtk_message::{AnyMessage, GlonassSatellite, Message, Satellite};
use rtk_obs::{CellEntry, SignalEntry};
use std::alloc::{AllocError, Global};
use std::collections::BTreeMap;

/// A difference of ranges (DF047) that is not given.
const NO_RANGE: i16 = -8_192;

/// A difference of a phase and a range (DF048) that is not given.
const NO_PHASE: i32 = -524_288;

// Is a satellite of a 1004 none of GPS and none of SBAS?
fn is_nameless_id(satellite: &Satellite) -> bool
    ensures { result ≡ spec.is_nameless_id satellite.now }
{
    let id = satellite.satellite;
    id == 0 || (32 < id && id < 40 || 58 < id)
}

fn has_value_on_l2(satellite: &GlonassSatellite) -> bool
    ensures { result ≡ spec.has_value_on_l2 satellite.now }
{
    satellite.l2_range_difference != NO_RANGE
        || satellite.l2_phase_difference != NO_PHASE
        || satellite.l2_cnr != 0
}

// Is a satellite of a 1012 in no slot, or has it a value of L2 with a reserved code?
fn is_nameless_slot(satellite: &GlonassSatellite) -> bool
    ensures { result ≡ spec.is_nameless_slot satellite.now }
{
    satellite.slot == 0
        || 27 < satellite.slot
        || 1 < satellite.l2_code && has_value_on_l2(satellite)
}

fn cells_sent_by_four(message: &Message) -> usize
    ensures { result ≡ spec.cells_sent_by_four message.now }
{
    match message {
        Message::Obs1004(message) => 2 * message.satellites.len(),
        Message::Arp1005(_) | Message::Arp1006(_) => 0,
        Message::Msm1074(message) => message.fine_range.len(),
    }
}

// How many cells the message has.
fn cells_sent(message: &AnyMessage) -> usize
    ensures { result ≡ spec.cells_sent message.now }
{
    match message {
        AnyMessage::Message(message) => cells_sent_by_four(message),
        AnyMessage::Msm(message) => message.fine_range.len(),
        AnyMessage::Obs1012(message) => 2 * message.satellites.len(),
    }
}

// Has the message more cells than those with a name?
fn has_cells_left(message: &AnyMessage, entries: &[CellEntry], signals: &[SignalEntry]) -> bool
    requires entries { entries.now ≡ entries_of_message message.now }
    requires signals { signals.now ≡ cells_beside_gps message.now }
    ensures { result ≡ spec.has_cells_left message.now }
{
    entries.len() + signals.len() < cells_sent(message)
}

fn have_nameless_id(satellites: &[Satellite]) -> bool
    ensures { result ≡ list_any spec.is_nameless_id satellites.now }
{
    satellites.iter().any(is_nameless_id)
}

fn have_nameless_slot(satellites: &[GlonassSatellite]) -> bool
    ensures { result ≡ list_any spec.is_nameless_slot satellites.now }
{
    satellites.iter().any(is_nameless_slot)
}

fn lacks_name_of_four(message: &Message) -> bool
    ensures { result ≡ spec.lacks_name_of_four message.now }
{
    match message {
        Message::Obs1004(message) => have_nameless_id(message.satellites.as_slice()),
        Message::Arp1005(_) | Message::Arp1006(_) => false,
        Message::Msm1074(_) => true,
    }
}

// Is a cell that is left one without a name?
fn lacks_name(message: &AnyMessage) -> bool
    ensures { result ≡ spec.lacks_name message.now }
{
    match message {
        AnyMessage::Message(message) => lacks_name_of_four(message),
        AnyMessage::Msm(_) => true,
        AnyMessage::Obs1012(message) => have_nameless_slot(message.satellites.as_slice()),
    }
}

fn has_nameless(message: &AnyMessage, entries: &[CellEntry], signals: &[SignalEntry]) -> bool
    requires entries { entries.now ≡ entries_of_message message.now }
    requires signals { signals.now ≡ cells_beside_gps message.now }
    ensures { result ≡ spec.has_nameless message.now }
{
    has_cells_left(message, entries, signals) && lacks_name(message)
}

/// No message came.
pub(crate) fn no_nameless(alloc: Global) -> BTreeMap<u16, u64>
    ensures { CountsNameless result [] }
{
    BTreeMap::new(alloc)
}

/// Counts a message by its number, with its cells of GPS and of other systems, if it has cells without a name.
pub(crate) fn count_nameless(
    counts: &mut BTreeMap<u16, u64>,
    message: &AnyMessage,
    entries: &[CellEntry],
    signals: &[SignalEntry],
) -> Result<(), AllocError>
    requires entries { entries.now ≡ entries_of_message message.now }
    requires signals { signals.now ≡ cells_beside_gps message.now }
    ensures { OnOk result ((ms : List AnyMessage) → CountsNameless counts.old ms → CountsNameless counts.new (message.now ∷ ms)) }
{
    if has_nameless(message, entries, signals) {
        count_number(counts, message.number())
    } else {
        Ok(())
    }
}
