//! How often messages tell each frequency channel of each slot of GLONASS.

ghost use Rattle.std.specs.Prelude.{◌≡◌, ◌≢◌, ◌<◌, ◌≤◌, ◌+◌, ℕ, true, false, List, [], ◌∷◌, OnOk};
ghost use Rattle.rtk_message.specs.declared.any_message.AnyMessage.{AnyMessage};
ghost use Rattle.rtk_obs.specs.Carriers.{IsSlot};
ghost use Rattle.rtk_survey.specs.Channels as spec;
ghost use Rattle.rtk_survey.specs.Counting.{shown_count};
ghost use Rattle.rtk_survey.specs.Steps.Fields.{TakesFields};
ghost use Rattle.rtk_survey.specs.declared.system_message.SystemMessage.{SystemMessage};

use crate::system_message::{SlotChannel, SystemMessage};
use crate::unread::{count_number, count_of_number};
use rtk_message::{AnyMessage, GlonassSatellite, Msm, System};
use std::alloc::{AllocError, Global};
use std::collections::BTreeMap;

/// The slots of GLONASS: 1 to 27.
pub(crate) const SLOTS: u8 = 28;

/// The fields that tell a channel (DF040): 0 to 20, 7 more than the channel.
pub(crate) const FIELDS: u16 = 21;

/// Those that tell a channel that RINEX has, -7 to +6: 0 to 13.
pub(crate) const CHANNELS: u8 = 14;

/// The field of an MSM (DF419) that tells no channel.
const UNKNOWN: u8 = 15;

/// The places of all slots and fields are below it.
pub(crate) const PLACES: u16 = 588;

// The mask has the bit of this slot.
fn has_slot_bit(mask: u64, slot: u8) -> bool
    requires { IsSlot slot }
    ensures { result ≡ spec.has_slot_bit mask slot }
{
    (mask >> (64 - slot)) % 2 == 1
}

// How many bits of the mask stand before that of this slot.
fn slots_before(mask: u64, slot: u8) -> usize
    requires { IsSlot slot }
    ensures { result ≡ spec.slots_before mask slot }
{
    ((mask >> (64 - slot)) / 2).count_ones() as usize
}

// The field of a slot, if the message has its satellite and such fields.
fn slot_field(message: &Msm, slot: u8) -> Option<u8>
    requires { IsSlot slot }
    ensures { result ≡ spec.slot_field message.now slot }
{
    let mask = message.header.satellite_mask;
    if has_slot_bit(mask, slot) {
        let row = slots_before(mask, slot);
        message.extended.as_slice().get(row).copied()
    } else {
        None
    }
}

fn is_glonass(system: System) -> bool
    ensures { result ≡ spec.is_glonass system }
{
    match system {
        System::Glonass => true,
        System::Gps
        | System::Galileo
        | System::Beidou
        | System::Qzss
        | System::Sbas
        | System::Navic => false,
    }
}

// The place under which a field of a slot is counted.
fn place_of_field(slot: u8, field: u8) -> u16
    ensures { result ≡ spec.place_of_field slot field }
{
    FIELDS * u16::from(slot) + u16::from(field)
}

// Does a field tell a channel?
fn is_channel_field(field: u8) -> bool
    ensures yes { result ≡ true → field < 21 }
    ensures no { result ≡ false → 21 ≤ field }
{
    u16::from(field) < FIELDS
}

// Counts a field of a slot, if it tells a channel.
fn count_field(counts: &mut BTreeMap<u16, u64>, slot: u8, field: u8) -> Result<(), AllocError>
    ensures own { OnOk result (field < 21 → spec.count_of_field counts.new slot field
        ≡ shown_count (spec.count_of_field counts.old slot field + 1)) }
    ensures others { OnOk result ((s f : ℕ) → f < 21 → (s ≡ slot → f ≢ field)
        → spec.count_of_field counts.new s f ≡ spec.count_of_field counts.old s f) }
{
    if is_channel_field(field) {
        count_number(counts, place_of_field(slot, field))
    } else {
        Ok(())
    }
}

// The field of the first satellite of a slot.
fn field_in_1012(satellites: &[GlonassSatellite], slot: u8) -> Option<u8>
    ensures { result ≡ spec.field_in_1012 slot satellites.now }
{
    for satellite in satellites {
        if satellite.slot == slot {
            return Some(satellite.channel);
        }
    }
    None
}

// The field, if it tells a channel in an MSM.
fn if_channel(field: Option<u8>) -> Option<u8>
    ensures { result ≡ spec.if_channel field }
{
    match field {
        Some(field) if field != UNKNOWN => Some(field),
        _ => None,
    }
}

fn field_in_msm(message: &Msm, slot: u8) -> Option<u8>
    requires { IsSlot slot }
    ensures { result ≡ spec.field_in_msm message.now slot }
{
    if is_glonass(message.system) {
        if_channel(slot_field(message, slot))
    } else {
        None
    }
}

/// The field of a slot, if the message is of GLONASS and has it.
pub(crate) fn field_told(message: &AnyMessage, slot: u8) -> Option<u8>
    requires { IsSlot slot }
    ensures { result ≡ spec.field_told message.now slot }
{
    match message {
        AnyMessage::Message(_) => None,
        AnyMessage::Msm(message) => field_in_msm(message, slot),
        AnyMessage::Obs1012(message) => field_in_1012(message.satellites.as_slice(), slot),
    }
}

// Counts the field of a slot, if the message has it.
fn take_slot(
    counts: &mut BTreeMap<u16, u64>,
    message: &AnyMessage,
    slot: u8,
) -> Result<(), AllocError>
    requires { IsSlot slot }
    ensures own { OnOk result ((f : ℕ) → f < 21 → spec.tells_field slot f message.now ≡ true
        → spec.count_of_field counts.new slot f ≡ shown_count (spec.count_of_field counts.old slot f + 1)) }
    ensures others { OnOk result ((s f : ℕ) → f < 21 → (s ≡ slot → spec.tells_field s f message.now ≡ false)
        → spec.count_of_field counts.new s f ≡ spec.count_of_field counts.old s f) }
{
    match field_told(message, slot) {
        Some(field) => count_field(counts, slot, field),
        None => Ok(()),
    }
}

// Counts the fields of all slots.
fn take_slots(counts: &mut BTreeMap<u16, u64>, message: &AnyMessage) -> Result<(), AllocError>
    ensures { OnOk result (TakesFields (λ slot field. spec.tells_field slot field message.now) counts.old counts.new) }
{
    for slot in 1u8..SLOTS {
        take_slot(counts, message, slot)?;
    }
    Ok(())
}

/// No message came.
pub(crate) fn no_channels_told(alloc: Global) -> BTreeMap<u16, u64>
    ensures { spec.CountsChannels result [] }
{
    BTreeMap::new(alloc)
}

/// Has a message of GLONASS fields that tell channels? An MSM4 or MSM6 has none.
pub(crate) fn tells_channels(message: &AnyMessage) -> bool
    ensures { result ≡ spec.tells_channels message.now }
{
    match message {
        AnyMessage::Message(_) => false,
        AnyMessage::Msm(message) => is_glonass(message.system) && message.extended.len() != 0,
        AnyMessage::Obs1012(_) => true,
    }
}

/// Counts the channels that a message tells.
pub(crate) fn take_channels(
    counts: &mut BTreeMap<u16, u64>,
    message: &AnyMessage,
) -> Result<(), AllocError>
    ensures { OnOk result ((ms : List AnyMessage) → spec.CountsChannels counts.old ms → spec.CountsChannels counts.new (message.now ∷ ms)) }
{
    if tells_channels(message) {
        take_slots(counts, message)
    } else {
        Ok(())
    }
}

// Counts the channel that a 1020 tells.
fn take_told(counts: &mut BTreeMap<u16, u64>, told: SlotChannel) -> Result<(), AllocError>
    ensures { OnOk result (TakesFields (spec.tells_slot_channel told) counts.old counts.new) }
{
    if told.slot < SLOTS {
        count_field(counts, told.slot, told.field)
    } else {
        Ok(())
    }
}

// The channel that a message tells, if it is a 1020.
fn slot_channel_in(message: &SystemMessage) -> Option<SlotChannel>
    ensures { result ≡ spec.slot_channel_in message.now }
{
    match message {
        SystemMessage::Slot(told) => Some(*told),
        SystemMessage::Week(_) | SystemMessage::Leap(_) => None,
    }
}

/// No 1020 came.
pub(crate) fn no_slots_told(alloc: Global) -> BTreeMap<u16, u64>
    ensures { spec.CountsSlots result [] }
{
    BTreeMap::new(alloc)
}

/// Counts the channel that a message tells, if it is a 1020.
pub(crate) fn take_slot_channel(
    counts: &mut BTreeMap<u16, u64>,
    message: &SystemMessage,
) -> Result<(), AllocError>
    ensures { OnOk result ((ts : List SystemMessage) → spec.CountsSlots counts.old ts → spec.CountsSlots counts.new (message.now ∷ ts)) }
{
    match slot_channel_in(message) {
        Some(told) => take_told(counts, told),
        None => Ok(()),
    }
}

/// How many messages tell a field (0 to 20, 7 more than the channel) of a slot (1 to 27), by their counts.
pub fn count_of_field(counts: &BTreeMap<u16, u64>, slot: u8, field: u8) -> u64
    ensures { result ≡ spec.count_of_field counts.now slot field }
{
    count_of_number(counts, place_of_field(slot, field))
}
