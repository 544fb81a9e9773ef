//! What the messages of a conversion tell for the last lines of its report.

ghost use Rattle.std.specs.Prelude.{◌≡◌, ◌≢◌, ◌<◌, ◌≤◌, ◌-◌, ◌^◌, ℤ, Option, IfOk};
ghost use Rattle.rtk_message.specs.declared.any_message.AnyMessage.TheVariants as AnyMessage;
ghost use Rattle.rtk_message.specs.declared.system.System.TheVariants.{Glonass};
ghost use Rattle.rtk_obs.specs.Carriers.{IsSlot, channel_at};
ghost use Rattle.rtk_obs.specs.GlonassCells.{agrees_in_1012};
ghost use Rattle.rtk_obs.specs.SatelliteIndex.{is_taken};
ghost use Rattle.rtk_obs.specs.SignalCells.{agrees_with, field_of_row};
ghost use Rattle.rtk_convert.specs.Slots.{is_without_channel, is_of_other_channel, holds_in_1012};
ghost use Rattle.rtk_convert.specs.Steps.Remarks.{HasNoRemarks, PutsSlot, PutsSatellite, PutsSatellites, PutsSatellite1012, PutsSatellites1012, PutsSlots};

use crate::slots::{SLOTS, Slots};
use crate::systems::Systems;
use rtk_message::{AnyFault, AnyMessage, GlonassSatellite, Msm, Obs1012, System};
use rtk_obs::{Channel, Channels};

/// What the messages of a conversion tell for the last lines of its report.
#[derive(Clone, Copy)]
pub(crate) struct Remarks {
    /// The systems of which a message was taken.
    pub(crate) systems: Systems,
    /// The slots of GLONASS of which a message tells another channel than the setup.
    pub(crate) other_channels: Slots,
    /// The slots of GLONASS that have satellites and no channel.
    pub(crate) no_channels: Slots,
}

// The field of a satellite of GLONASS (DF419) that tells no channel.
const NO_CHANNEL: u8 = 15;

// The bit of the last slot, 27, in the mask of satellites (DF394), whose most significant bit is that of slot 1.
const LAST_SLOT: u64 = 0x20_0000_0000;

// Returns whether the field of a satellite tells this channel, or none. The field is 7 greater than the number
// of its channel.
fn agrees_with(channel: Channel, field: u8) -> bool
    ensures { result ≡ agrees_with channel field }
{
    field == NO_CHANNEL || i16::from(field) == i16::from(channel.number()) + 7
}

// Returns whether a slot has no channel.
fn is_without_channel(channels: &Channels, slot: u8) -> bool
    requires { IsSlot slot }
    ensures { (own : Option ℤ) → result ≡ is_without_channel (channel_at channels.now slot) own }
{
    match channels.channel(slot) {
        Some(_) => false,
        None => true,
    }
}

// Returns the field of the satellite of a row (DF419), or `NO_CHANNEL` in a kind without it.
fn field_of_row(message: &Msm, row: usize) -> u8
    ensures { result ≡ field_of_row message.now row }
{
    match message.extended.as_slice().get(row) {
        Some(field) => *field,
        None => NO_CHANNEL,
    }
}

// Puts a slot into the sets that it belongs to. Nearly all slots belong to none, so this is asked first.
fn put_slot(remarks: &mut Remarks, slot: u8, is_other: bool, is_without: bool)
    requires { IsSlot slot }
    ensures { PutsSlot slot is_other is_without remarks.old remarks.new }
{
    if is_other || is_without {
        remarks.other_channels.put_if(slot, is_other);
        remarks.no_channels.put_if(slot, is_without);
    }
}

// Puts the satellite of a slot of an MSM, with its field, into the set that it belongs to: mostly none. The channel of
// the slot is looked at once.
fn put_satellite(remarks: &mut Remarks, channels: &Channels, slot: u8, field: u8)
    requires { IsSlot slot }
    ensures { PutsSatellite channels.now slot field remarks.old remarks.new }
{
    match channels.channel(slot) {
        Some(channel) => remarks
            .other_channels
            .put_if(slot, !agrees_with(channel, field)),
        None => remarks.no_channels.put(slot),
    }
}

// Returns how many bits of a mask stand before the first one that is set, which is the most significant one.
fn bits_before(mask: u64) -> usize
    requires { mask ≢ 0 }
    ensures from { 2 ^ (63 - result) ≤ mask }
    ensures below { mask < 2 ^ (64 - result) }
    ensures inside { result < 64 }
{
    mask.leading_zeros() as usize
}

// Puts the satellites of an MSM into the sets that they belong to.
fn put_satellites(remarks: &mut Remarks, channels: &Channels, message: &Msm)
    ensures { PutsSatellites channels.now message.now remarks.old remarks.new }
{
    let mut rest = message.header.satellite_mask;
    let mut row = 0;
    'satellites: while rest >= LAST_SLOT {
        let before = bits_before(rest);
        let field = field_of_row(message, row);
        put_satellite(remarks, channels, before as u8 + 1, field);
        let bit = 1u64 << (63 - before);
        rest -= bit;
        row += 1;
    }
}

// Puts the satellites of an MSM into the sets that they belong to, if it is of GLONASS.
fn put_msm(remarks: &mut Remarks, channels: &Channels, message: &Msm)
    ensures { PutsSlots channels.now (AnyMessage.Msm message.now) remarks.old remarks.new }
{
    match message.system {
        System::Glonass => put_satellites(remarks, channels, message),
        _ => {}
    }
}

// Returns whether a satellite of a 1012 has a slot (DF038).
fn has_slot_number(slot: u8) -> bool
    ensures { result ≡ is_taken Glonass slot }
{
    1 <= slot && usize::from(slot) <= SLOTS
}

// Returns whether the field of a satellite in a 1012 (DF040) tells this channel, or none.
fn agrees_in_1012(channel: Channel, field: u8) -> bool
    ensures { result ≡ agrees_in_1012 channel field }
{
    21 <= field && field <= 29 || field == 31 || i16::from(field) == i16::from(channel.number()) + 7
}

// Returns whether the slot of a satellite in a 1012 has a channel, and its field tells another one.
fn is_of_other_in_1012(channels: &Channels, satellite: &GlonassSatellite) -> bool
    requires { IsSlot satellite.now.slot }
    ensures { result ≡ holds_in_1012 is_of_other_channel channels.now satellite.now }
{
    match channels.channel(satellite.slot) {
        Some(channel) => !agrees_in_1012(channel, satellite.channel),
        None => false,
    }
}

// Puts a satellite of a 1012 into the sets that it belongs to.
fn put_satellite_1012(remarks: &mut Remarks, channels: &Channels, satellite: &GlonassSatellite)
    ensures { PutsSatellite1012 channels.now satellite.now remarks.old remarks.new }
{
    if !has_slot_number(satellite.slot) {
        return;
    }
    let is_other = is_of_other_in_1012(channels, satellite);
    let is_without = is_without_channel(channels, satellite.slot);
    put_slot(remarks, satellite.slot, is_other, is_without);
}

// Puts satellites of a 1012 into the sets that they belong to.
fn put_satellites_1012(remarks: &mut Remarks, channels: &Channels, satellites: &[GlonassSatellite])
    ensures { PutsSatellites1012 channels.now satellites.now remarks.old remarks.new }
{
    for satellite in satellites {
        put_satellite_1012(remarks, channels, satellite);
    }
}

// Puts the satellites of a 1012 into the sets that they belong to.
fn put_1012(remarks: &mut Remarks, channels: &Channels, message: &Obs1012)
    ensures { PutsSlots channels.now (AnyMessage.Obs1012 message.now) remarks.old remarks.new }
{
    put_satellites_1012(remarks, channels, message.satellites.as_slice());
}

impl Remarks {
    /// Nothing was told yet.
    pub(crate) fn new() -> Remarks
        ensures { HasNoRemarks result }
    {
        let other_channels = Slots::new();
        let no_channels = Slots::new();
        Remarks {
            systems: Systems::NONE,
            other_channels,
            no_channels,
        }
    }

    // Puts the satellites of a message of GLONASS into the sets that they belong to.
    fn put_message(&mut self, channels: &Channels, message: &AnyMessage)
        ensures { PutsSlots channels.now message.now self.old self.new }
    {
        match message {
            AnyMessage::Message(_) => {}
            AnyMessage::Msm(message) => put_msm(self, channels, message),
            AnyMessage::Obs1012(message) => put_1012(self, channels, message),
        }
    }

    /// Puts the satellites of GLONASS of what was read into the sets that they belong to.
    pub(crate) fn put_slots(&mut self, channels: &Channels, reading: &Result<AnyMessage, AnyFault>)
        ensures { IfOk reading.now (λ m. PutsSlots channels.now m self.old self.new) }
    {
        if let Ok(message) = reading {
            self.put_message(channels, message);
        }
    }
}
