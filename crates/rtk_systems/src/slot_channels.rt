//! The frequency channels of the slots of GLONASS that messages tell.

ghost use Rattle.std.specs.Prelude.{◌≡◌, ◌<◌, None, IfSome};
ghost use Rattle.std.specs.BTreeMap.{get};
ghost use Rattle.std.specs.Option.{option_copied};
ghost use Rattle.std.specs.Ordering.{nat_cmp};
ghost use Rattle.rtk_obs.specs.Carriers.{IsSlot, channel_at};
ghost use Rattle.rtk_systems.specs.SlotChannels as spec;
ghost use Rattle.rtk_systems.specs.Steps.ToldFields.{most_told_with};

use crate::alike_channels::is_alike;
use crate::values::TakenMessages;
use rtk_message::{MsmType, System};
use rtk_obs::{Channel, Channels};
use rtk_survey::{CaptureSurvey, StationSurvey, SystemMsm, count_of_field};

/// The slots of GLONASS are 1 to 27.
const SLOTS_END: u8 = 28;

/// The fields that tell a channel (DF419) are 0 to 13.
const FIELDS: u8 = 14;

// The index of the satellite of slot 1 is 33: those of GPS are 1 to 32.
const BEFORE_SLOTS: usize = 32;

// ---- slots that have a value

fn is_slot_in(slot: u8, part: Option<&SystemMsm>) -> bool
    requires { slot < 28 }
    ensures { result ≡ spec.is_slot_in slot (option_copied part.entry) }
{
    match part {
        Some(part) => part
            .signals
            .satellites
            .is_marked(BEFORE_SLOTS + usize::from(slot)),
        None => false,
    }
}

// Has the satellite of a slot a value in messages of this number?
fn is_slot_numbered(slot: u8, number: u16, station: &StationSurvey) -> bool
    requires { slot < 28 }
    ensures { result ≡ spec.is_slot_in slot (get nat_cmp station.now.system_msm number) }
{
    is_slot_in(slot, station.system_msm.get(&number))
}

// Has the satellite of a slot a value in the messages of a station that a conversion takes?
fn holds_slot(slot: u8, taken: TakenMessages, station: Option<&StationSurvey>) -> bool
    requires { slot < 28 }
    ensures { result ≡ spec.holds_slot slot taken (option_copied station.entry) }
{
    let system = System::Glonass;
    let kind = taken.kinds.glonass;
    let msm = MsmType { system, kind };
    match station {
        Some(station) => {
            is_slot_numbered(slot, msm.number(), station)
                || (taken.obs1012 && is_slot_numbered(slot, 1012, station))
        }
        None => false,
    }
}

fn gives_slot(station: u16, taken: TakenMessages, slot: u8, survey: &CaptureSurvey) -> bool
    requires { slot < 28 }
    ensures { result ≡ spec.gives_slot station taken slot survey.now }
{
    holds_slot(slot, taken, survey.contents.stations.get(&station))
}

/// Has it one in some capture?
pub(crate) fn is_slot_given(
    surveys: &[CaptureSurvey],
    station: u16,
    taken: TakenMessages,
    slot: u8,
) -> bool
    requires { slot < 28 }
    ensures { result ≡ spec.is_slot_given surveys.now station taken slot }
{
    surveys
        .iter()
        .any(|survey| gives_slot(station, taken, slot, survey))
}

// ---- channels that messages tell

fn fields_of_station(slot: u8, field: u8, station: Option<&StationSurvey>) -> u64
    ensures { result ≡ spec.fields_of_station slot field (option_copied station.entry) }
{
    match station {
        Some(station) => count_of_field(&station.channels, slot, field),
        None => 0,
    }
}

/// How many messages of a station tell a field of a slot.
pub(crate) fn own_count(surveys: &[CaptureSurvey], station: u16, slot: u8, field: u8) -> u64
    ensures { result ≡ spec.own_count surveys.now station slot field }
{
    let mut count = 0u64;
    for survey in surveys {
        let more = fields_of_station(slot, field, survey.contents.stations.get(&station));
        count = count.saturating_add(more);
    }
    count
}

fn fields_of_1020(slot: u8, field: u8, survey: &CaptureSurvey) -> u64
    ensures { result ≡ spec.fields_of_1020 slot field survey.now }
{
    count_of_field(&survey.contents.system_tellings.channels, slot, field)
}

/// How many 1020, which name no station, tell it.
pub(crate) fn count_of_1020(surveys: &[CaptureSurvey], slot: u8, field: u8) -> u64
    ensures { result ≡ spec.count_of_1020 surveys.now slot field }
{
    let mut count = 0u64;
    for survey in surveys {
        count = count.saturating_add(fields_of_1020(slot, field, survey));
    }
    count
}

// How many messages of a station tell a field of a slot; without a station how many 1020 do.
fn count_told(surveys: &[CaptureSurvey], source: Option<u16>, slot: u8, field: u8) -> u64
    ensures { result ≡ spec.count_told surveys.now source slot field }
{
    match source {
        Some(station) => own_count(surveys, station, slot, field),
        None => count_of_1020(surveys, slot, field),
    }
}

// The field that is told most often of some fields, and how often.
#[derive(Clone, Copy)]
struct MostTold {
    field: Option<u8>,
    count: u64,
}

// A field more, which is told so often.
fn most_told_with(told: MostTold, field: u8, count: u64) -> MostTold
    ensures { result ≡ most_told_with told field count }
{
    if told.count < count {
        MostTold {
            field: Some(field),
            count,
        }
    } else {
        told
    }
}

// The field that is told most often.
fn told_field(surveys: &[CaptureSurvey], source: Option<u16>, slot: u8) -> Option<u8>
    ensures { spec.IsToldField (spec.count_told surveys.now source slot) 14 result }
{
    let mut told = MostTold {
        field: None,
        count: 0,
    };
    for field in 0u8..FIELDS {
        told = most_told_with(told, field, count_told(surveys, source, slot, field));
    }
    told.field
}

/// The channel that a field tells.
pub(crate) fn channel_of_field(field: u8) -> Channel
    requires { field < 14 }
    ensures { result ≡ spec.channel_of_field field }
{
    let Some(channel) = Channel::new(field as i8 - 7) else {
        unreachable!();
    };
    channel
}

fn channel_if(is_given: bool, field: Option<u8>) -> Option<Channel>
    requires { IfSome field (λ field. field < 14) }
    ensures { result ≡ spec.channel_if is_given field }
{
    match field {
        Some(field) if is_given => Some(channel_of_field(field)),
        _ => None,
    }
}

// The channel that messages of the station tell most often of a slot, if it has a value; without a station what 1020 tell.
fn channel_told(
    surveys: &[CaptureSurvey],
    station: u16,
    taken: TakenMessages,
    source: Option<u16>,
    slot: u8,
) -> Option<Channel>
    requires { IsSlot slot }
    ensures { spec.IsToldChannel surveys.now station taken source slot result }
{
    let field = told_field(surveys, source, slot);
    channel_if(is_slot_given(surveys, station, taken, slot), field)
}

// Sets the channel of a slot, if it has one.
fn set_if(channels: &mut Channels, slot: u8, channel: Option<Channel>)
    requires slot { IsSlot slot }
    requires none { channel_at channels.old slot ≡ None }
    ensures own { channel_at channels.new slot ≡ channel }
    ensures others { spec.KeepsOtherSlots slot channels.old channels.new }
{
    if let Some(channel) = channel {
        channels.set(slot, channel);
    }
}

// The channels of the slots of which the station has a value, as its messages tell them.
fn channels_told(surveys: &[CaptureSurvey], station: u16, taken: TakenMessages) -> Channels
    ensures { spec.HasOwnChannels surveys.now station taken result }
{
    let mut channels = Channels::new();
    for slot in 1u8..SLOTS_END {
        let channel = channel_told(surveys, station, taken, Some(station), slot);
        set_if(&mut channels, slot, channel);
    }
    channels
}

/// The channels of the slots of which the station has a value, as its messages tell them.
pub fn own_channels(surveys: &[CaptureSurvey], station: u16, taken: TakenMessages) -> Channels
    ensures { spec.AreOwnChannels surveys.now station taken result }
{
    channels_told(surveys, station, taken)
}

fn chosen_channel(is_alike: bool, own: Option<Channel>, other: Option<Channel>) -> Option<Channel>
    ensures { result ≡ spec.chosen_channel is_alike own other }
{
    if is_alike {
        other.or(own)
    } else {
        own.or(other)
    }
}

// The channel of a slot, by those that messages of the station tell and by that of 1020.
fn channel_found(
    surveys: &[CaptureSurvey],
    station: u16,
    taken: TakenMessages,
    own: &Channels,
    slot: u8,
) -> Option<Channel>
    requires { IsSlot slot }
    ensures { spec.IsChannelFound surveys.now station taken own.now slot result }
{
    let other = channel_told(surveys, station, taken, None, slot);
    chosen_channel(is_alike(own, slot), own.channel(slot), other)
}

// The channels of the slots of which the station has a value, by what its messages tell.
fn channels_by(
    surveys: &[CaptureSurvey],
    station: u16,
    taken: TakenMessages,
    own: &Channels,
) -> Channels
    ensures { spec.HasChannelsFound surveys.now station taken own.now result }
{
    let mut channels = Channels::new();
    for slot in 1u8..SLOTS_END {
        let channel = channel_found(surveys, station, taken, own, slot);
        set_if(&mut channels, slot, channel);
    }
    channels
}

/// The channels of the slots of which the station has a value, as messages tell them.
pub fn channels_found(surveys: &[CaptureSurvey], station: u16, taken: TakenMessages) -> Channels
    ensures { spec.AreChannelsFound surveys.now station taken result }
{
    let own = own_channels(surveys, station, taken);
    channels_by(surveys, station, taken, &own)
}

// The channel of a slot that is given, else the one that is found.
fn joined_channel(given: &Channels, found: &Channels, slot: u8) -> Option<Channel>
    requires { IsSlot slot }
    ensures { spec.IsJoinedChannel given.now found.now slot result }
{
    given.channel(slot).or(found.channel(slot))
}

fn channels_of_both(given: &Channels, found: &Channels) -> Channels
    ensures { spec.HasJoinedChannels given.now found.now result }
{
    let mut channels = Channels::new();
    for slot in 1u8..SLOTS_END {
        let channel = joined_channel(given, found, slot);
        set_if(&mut channels, slot, channel);
    }
    channels
}

/// The channels that are given, and of each other slot the one that is found.
pub fn channels_joined(given: &Channels, found: &Channels) -> Channels
    ensures { spec.AreJoinedChannels given.now found.now result }
{
    channels_of_both(given, found)
}
