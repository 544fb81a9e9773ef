//! The cells of a 1012.

ghost use Rattle.std.specs.Prelude.{◌≡◌, ◌+◌, ◌^◌, ◌≤◌, ◌<◌, List, [], ◌∷◌, ◌++◌, length, map, Some, IfSome, unsigned_abs};
ghost use Rattle.std.specs.List.{All};
ghost use Rattle.rtk_message.specs.declared.obs1012.GlonassSatellite.{GlonassSatellite};
ghost use Rattle.rtk_message.specs.Obs1012.{IsValid};
ghost use Rattle.rtk_obs.specs.Carriers.{IsSlot};
ghost use Rattle.rtk_obs.specs.GlonassCells.{glonass_l1_code, glonass_l2_code, tells_no_channel, unless_other_in_1012, glonass_channel, glonass_length_of, glonass_phase_on, glonass_phase, glonass_offset, glonass_l1_cell, glonass_l2_cell, glonass_l1_entry, glonass_l2_entry, glonass_entries, entries_of_1012};
ghost use Rattle.rtk_obs.specs.Steps.GlonassFields.{HasGlonassWidths, HasSeenNumbers};

use crate::any_code::AnyCode;
use crate::carrier::{Channel, Channels};
use crate::cell::{Cell, CellSource};
use crate::legacy_cells::{LEGACY_STRENGTH_STEP, NO_PHASE, NO_RANGE, l1_range, l2_range};
use crate::lock_time::least_lock_legacy;
use crate::satellite_index::{SatelliteIndex, satellite_in};
use crate::scaling::{
    GLONASS_MODULUS, LONGEST_RANGE, RANGE_STEP, phase_from_length_on, strength_from_steps,
    unless_mark,
};
use crate::seen::{NUMBERS, mark_number};
use crate::signal_cells::SignalEntry;
use arrayvec::ArrayVec;
use rtk_message::{GlonassSatellite, Obs1012, System};

// Returns the code of L1 at an indicator (DF039).
fn l1_code(indicator: bool) -> AnyCode
    ensures { result ≡ glonass_l1_code indicator }
{
    if indicator {
        AnyCode::R1P
    } else {
        AnyCode::R1C
    }
}

// Returns the code of L2 at an indicator (DF046), or `None` if it gives no cell.
fn l2_code(indicator: u8) -> Option<AnyCode>
    ensures { result ≡ glonass_l2_code indicator }
{
    match indicator {
        0 => Some(AnyCode::R2C),
        1 => Some(AnyCode::R2P),
        _ => None,
    }
}

// Returns whether the field of a satellite (DF040) tells no channel.
fn tells_no_channel(field: u8) -> bool
    ensures { result ≡ tells_no_channel field }
{
    21 <= field && field <= 29 || field == 31
}

// Returns the channel of a slot, unless the field of its satellite tells another one. The field is 7 greater
// than the number of its channel.
fn unless_other(field: u8, channel: Option<Channel>) -> Option<Channel>
    ensures { result ≡ unless_other_in_1012 field channel }
{
    let channel = channel?;
    if tells_no_channel(field) || i16::from(field) == i16::from(channel.number()) + 7 {
        Some(channel)
    } else {
        None
    }
}

// Returns the channel of a satellite.
fn channel_of(channels: &Channels, satellite: &GlonassSatellite) -> Option<Channel>
    requires { IsSlot satellite.now.slot }
    ensures { result ≡ glonass_channel channels.now satellite.now }
{
    unless_other(satellite.channel, channels.channel(satellite.slot))
}

// Returns the pseudorange of L1, in 0.0005 m.
fn l1_length(satellite: &GlonassSatellite) -> i64
    requires range { satellite.now.l1_range < 2 ^ 25 }
    requires modulus { satellite.now.modulus_ambiguity < 128 }
    ensures value { result ≡ glonass_length_of satellite.now }
    ensures bound { unsigned_abs result ≤ LONGEST_RANGE }
{
    RANGE_STEP * i64::from(satellite.l1_range)
        + GLONASS_MODULUS * i64::from(satellite.modulus_ambiguity)
}

// Returns the phase in millicycles of a frequency in Hz, or `None` if its offset (DF042, DF048) has its
// invalid mark.
fn phase_on(frequency: u32, length: i64, offset: Option<i32>) -> Option<i64>
    requires { unsigned_abs length ≤ LONGEST_RANGE }
    ensures { result ≡ glonass_phase_on frequency length offset }
{
    match offset {
        Some(offset) => Some(phase_from_length_on(frequency, length + i64::from(offset))),
        None => None,
    }
}

// Returns the phase in millicycles, or `None` if its frequency in Hz is not known either.
fn phase(frequency: Option<u32>, length: i64, offset: Option<i32>) -> Option<i64>
    requires { unsigned_abs length ≤ LONGEST_RANGE }
    ensures { result ≡ glonass_phase frequency length offset }
{
    phase_on(frequency?, length, offset)
}

// Returns the offset of a phase, if its frequency in Hz is known.
fn offset_on(frequency: Option<u32>, offset: Option<i32>) -> Option<i32>
    ensures { result ≡ glonass_offset frequency offset }
{
    match frequency {
        Some(_) => offset,
        None => None,
    }
}

// Returns the cell of L1, on a carrier whose frequency is known or not.
fn l1_cell(satellite: &GlonassSatellite, length: i64, frequency: Option<u32>) -> Cell
    requires lock { satellite.now.l1_lock_indicator < 128 }
    requires length { length ≡ glonass_length_of satellite.now }
    requires bound { unsigned_abs length ≤ LONGEST_RANGE }
    ensures { result ≡ glonass_l1_cell satellite.now frequency }
{
    let offset = unless_mark(satellite.l1_phase_difference, NO_PHASE);
    Cell {
        range_mm: l1_range(length, offset),
        phase_millicycles: phase(frequency, length, offset),
        strength_millidbhz: strength_from_steps(LEGACY_STRENGTH_STEP, satellite.l1_cnr),
        lock_time_ms: least_lock_legacy(satellite.l1_lock_indicator),
        half: false,
        source: CellSource::Legacy,
        offset: offset_on(frequency, offset),
    }
}

// Returns the cell of L2.
fn l2_cell(satellite: &GlonassSatellite, length: i64, frequency: Option<u32>) -> Cell
    requires lock { satellite.now.l2_lock_indicator < 128 }
    requires length { length ≡ glonass_length_of satellite.now }
    requires bound { unsigned_abs length ≤ LONGEST_RANGE }
    ensures { result ≡ glonass_l2_cell satellite.now frequency }
{
    let difference = unless_mark(i32::from(satellite.l2_range_difference), NO_RANGE);
    let offset = unless_mark(satellite.l2_phase_difference, NO_PHASE);
    Cell {
        range_mm: l2_range(length, difference),
        phase_millicycles: phase(frequency, length, offset),
        strength_millidbhz: strength_from_steps(LEGACY_STRENGTH_STEP, satellite.l2_cnr),
        lock_time_ms: least_lock_legacy(satellite.l2_lock_indicator),
        half: false,
        source: CellSource::Legacy,
        offset: offset_on(frequency, offset),
    }
}

// Returns the entry of L1 of a satellite with this index.
fn l1_entry(satellite: &GlonassSatellite, channels: &Channels, index: SatelliteIndex) -> SignalEntry
    requires fields { HasGlonassWidths satellite.now }
    requires slot { IsSlot satellite.now.slot }
    ensures { result ≡ glonass_l1_entry satellite.now (glonass_channel channels.now satellite.now) index (glonass_l1_code satellite.now.l1_code) }
{
    let code = l1_code(satellite.l1_code);
    let frequency = code.carrier().frequency(channel_of(channels, satellite));
    SignalEntry {
        satellite: index,
        code,
        doppler_millihertz: 0,
        cell: l1_cell(satellite, l1_length(satellite), frequency),
    }
}

// Returns the entry of L2 of a satellite with this index.
fn l2_entry(
    satellite: &GlonassSatellite,
    channels: &Channels,
    index: SatelliteIndex,
    code: AnyCode,
) -> SignalEntry
    requires fields { HasGlonassWidths satellite.now }
    requires slot { IsSlot satellite.now.slot }
    ensures { result ≡ glonass_l2_entry satellite.now (glonass_channel channels.now satellite.now) index code }
{
    let frequency = code.carrier().frequency(channel_of(channels, satellite));
    SignalEntry {
        satellite: index,
        code,
        doppler_millihertz: 0,
        cell: l2_cell(satellite, l1_length(satellite), frequency),
    }
}

// Puts the entries of a satellite with this index.
fn put_entries(
    found: &mut ArrayVec<SignalEntry, 64>,
    channels: &Channels,
    satellite: &GlonassSatellite,
    index: SatelliteIndex,
)
    requires fields { HasGlonassWidths satellite.now }
    requires slot { IsSlot satellite.now.slot }
    requires room { length found.old.items ≤ 62 }
    ensures entries { found.new.items ≡ found.old.items ++ glonass_entries satellite.now (glonass_channel channels.now satellite.now) (Some index) }
    ensures few { length found.new.items ≤ length found.old.items + 2 }
{
    found.push(l1_entry(satellite, channels, index));
    if let Some(code) = l2_code(satellite.l2_code) {
        found.push(l2_entry(satellite, channels, index, code));
    }
}

// Puts the entries of a satellite, if this is the first entry of its slot and the slot gives some.
fn put_satellite(
    found: &mut ArrayVec<SignalEntry, 64>,
    channels: &Channels,
    seen: &mut [bool],
    satellite: &GlonassSatellite,
)
    requires fields { HasGlonassWidths satellite.now }
    requires places { length seen.old ≡ 64 }
    requires room { length found.old.items ≤ 62 }
    ensures entries { (before : List GlonassSatellite) → HasSeenNumbers seen.old (map (λ s. s.slot) before)
        → found.old.items ≡ entries_of_1012 channels.now before
        → found.new.items ≡ entries_of_1012 channels.now (before ++ satellite.now ∷ []) }
    ensures seen { (before : List GlonassSatellite) → HasSeenNumbers seen.old (map (λ s. s.slot) before)
        → HasSeenNumbers seen.new (map (λ s. s.slot) (before ++ satellite.now ∷ [])) }
    ensures places { length seen.new ≡ 64 }
    ensures few { length found.new.items ≤ length found.old.items + 2 }
{
    if !mark_number(seen, satellite.slot) {
        return;
    }
    let Some(index) = satellite_in(System::Glonass, satellite.slot) else {
        return;
    };
    put_entries(found, channels, satellite, index);
}

// Puts the entries of the satellites of a 1012 into an empty list.
fn put_satellites(
    found: &mut ArrayVec<SignalEntry, 64>,
    channels: &Channels,
    satellites: &[GlonassSatellite],
)
    requires few { length satellites.now ≤ 31 }
    requires fields { All HasGlonassWidths satellites.now }
    requires empty { found.old.items ≡ [] }
    ensures { found.new.items ≡ entries_of_1012 channels.now satellites.now }
{
    let mut seen = [false; NUMBERS];
    for satellite in satellites {
        put_satellite(found, channels, &mut seen, satellite);
    }
}

/// Puts the cells of a 1012 into a list, in place of what it has, as `entries_1012` gives them.
pub fn put_entries_1012(
    message: &Obs1012,
    channels: &Channels,
    found: &mut ArrayVec<SignalEntry, 64>,
)
    requires { IsValid message.now }
    ensures { found.new.items ≡ entries_of_1012 channels.now message.now.satellites }
{
    found.clear();
    put_satellites(found, channels, message.satellites.as_slice());
}

/// Returns the cells of a 1012 in the order of the message. Each slot from 1 to 27 has a cell of L1, and one
/// of L2 if its code is C/A or P, by its first entry. A satellite has phases if its slot has a channel, and the
/// message tells no other one.
pub fn entries_1012(message: &Obs1012, channels: &Channels) -> ArrayVec<SignalEntry, 64>
    requires { IsValid message.now }
    ensures { result.items ≡ entries_of_1012 channels.now message.now.satellites }
{
    let mut found = ArrayVec::new();
    put_entries_1012(message, channels, &mut found);
    found
}
