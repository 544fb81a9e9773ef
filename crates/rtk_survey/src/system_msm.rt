//! What a station has of the messages of other systems than GPS, and of SBAS of 1004, by their number.

ghost use Rattle.std.specs.Prelude.{◌≡◌, List, ℕ, true, [], ◌∷◌, OnOk};
ghost use Rattle.std.specs.BTreeMap.{get};
ghost use Rattle.std.specs.List.{filter_map};
ghost use Rattle.std.specs.Option.{option_copied};
ghost use Rattle.std.specs.Ordering.{nat_cmp};
ghost use Rattle.rtk_message.specs.declared.any_message.AnyMessage.{AnyMessage};
ghost use Rattle.rtk_survey.specs.BesideGps as spec;
ghost use Rattle.rtk_survey.specs.BesideGps.{cells_beside_gps, told_time_of, times_beside};
ghost use Rattle.rtk_survey.specs.Contents.{epochs_so_far, HasSystemMsm, HasSystems, messages_of_msm, epochs_of_msm};

use crate::beside_gps::{is_beside_gps, told_time_of};
use crate::counting::count_if;
use crate::epochs::Epochs;
use crate::system_signals::{SystemSignals, signals_have_value};
use rtk_message::AnyMessage;
use rtk_obs::SignalEntry;
use std::alloc::{AllocError, Global};
use std::collections::BTreeMap;

/// What a station has of the messages of one number.
#[derive(Clone, Copy)]
pub struct SystemMsm {
    pub messages: u64,
    /// The epochs of the messages with a value, by their times of week (`told_time`).
    pub epochs: Epochs,
    /// The satellites and codes that have a value in them.
    pub signals: SystemSignals,
}

// Notes the time of a message, if it is a 1012 or an MSM.
fn note_told_time(epochs: &mut Epochs, message: &AnyMessage)
    ensures { (ms : List AnyMessage) → epochs.old ≡ epochs_so_far (filter_map told_time_of ms)
        → epochs.new ≡ epochs_so_far (filter_map told_time_of (message.now ∷ ms)) }
{
    if let Some(time) = told_time_of(message) {
        epochs.note_time(time);
    }
}

/// Has a message with these cells of other systems than GPS a value?
pub(crate) fn gives_value(_message: &AnyMessage, entries: &[SignalEntry]) -> bool
    requires { entries.now ≡ cells_beside_gps _message.now }
    ensures { result ≡ spec.gives_value_beside _message.now }
{
    signals_have_value(entries)
}

// Notes the time of a message, if it has a value.
fn note_epoch(epochs: &mut Epochs, message: &AnyMessage, entries: &[SignalEntry])
    requires { entries.now ≡ cells_beside_gps message.now }
    ensures { (ms : List AnyMessage) → epochs.old ≡ epochs_so_far (times_beside ms)
        → epochs.new ≡ epochs_so_far (times_beside (message.now ∷ ms)) }
{
    if gives_value(message, entries) {
        note_told_time(epochs, message);
    }
}

impl SystemMsm {
    /// Nothing came.
    pub(crate) fn new() -> SystemMsm
        ensures { HasSystemMsm result [] }
    {
        SystemMsm {
            messages: 0,
            epochs: Epochs::new(),
            signals: SystemSignals::new(),
        }
    }

    // A message more of the number, with its cells of other systems than GPS.
    fn take(&mut self, message: &AnyMessage, entries: &[SignalEntry])
        requires { entries.now ≡ cells_beside_gps message.now }
        ensures { (own : List AnyMessage) → HasSystemMsm self.old own → HasSystemMsm self.new (message.now ∷ own) }
    {
        self.messages = count_if(self.messages, true);
        note_epoch(&mut self.epochs, message, entries);
        self.signals.mark_entries(entries);
    }
}

/// Nothing came.
pub(crate) fn no_systems(alloc: Global) -> BTreeMap<u16, SystemMsm>
    ensures { HasSystems result [] }
{
    BTreeMap::new(alloc)
}

// Is a message of another system than GPS, or does it give a value of one?
fn has_part_beside(message: &AnyMessage, entries: &[SignalEntry]) -> bool
    requires { entries.now ≡ cells_beside_gps message.now }
    ensures { result ≡ spec.has_part_beside message.now }
{
    is_beside_gps(message) || gives_value(message, entries)
}

// Such a message more.
fn take_beside(
    parts: &mut BTreeMap<u16, SystemMsm>,
    message: &AnyMessage,
    entries: &[SignalEntry],
) -> Result<(), AllocError>
    requires beside { spec.has_part_beside message.now ≡ true }
    requires entries { entries.now ≡ cells_beside_gps message.now }
    ensures { OnOk result ((ms : List AnyMessage) → HasSystems parts.old ms → HasSystems parts.new (message.now ∷ ms)) }
{
    let part = parts.entry(message.number())?.or_insert(SystemMsm::new());
    part.take(message, entries);
    Ok(())
}

/// A message more of the station, with its cells of other systems than GPS, if it is of such a system or gives a
/// value of one.
pub(crate) fn take_system_message(
    parts: &mut BTreeMap<u16, SystemMsm>,
    message: &AnyMessage,
    entries: &[SignalEntry],
) -> Result<(), AllocError>
    requires { entries.now ≡ cells_beside_gps message.now }
    ensures { OnOk result ((ms : List AnyMessage) → HasSystems parts.old ms → HasSystems parts.new (message.now ∷ ms)) }
{
    if has_part_beside(message, entries) {
        take_beside(parts, message, entries)
    } else {
        Ok(())
    }
}

fn messages_of_msm(part: Option<&SystemMsm>) -> u64
    ensures { result ≡ messages_of_msm (option_copied part.entry) }
{
    match part {
        Some(part) => part.messages,
        None => 0,
    }
}

/// How many messages of a number came.
pub fn messages_numbered(parts: &BTreeMap<u16, SystemMsm>, number: u16) -> u64
    ensures { result ≡ messages_of_msm (get nat_cmp parts.now number) }
{
    messages_of_msm(parts.get(&number))
}

fn epochs_of_msm(part: Option<&SystemMsm>) -> u64
    ensures { result ≡ epochs_of_msm (option_copied part.entry) }
{
    match part {
        Some(part) => part.epochs.count,
        None => 0,
    }
}

/// How many epochs the messages of a number with a value have.
pub fn epochs_numbered(parts: &BTreeMap<u16, SystemMsm>, number: u16) -> u64
    ensures { result ≡ epochs_of_msm (get nat_cmp parts.now number) }
{
    epochs_of_msm(parts.get(&number))
}
