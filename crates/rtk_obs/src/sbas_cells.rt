//! The cells of a 1004 with those of its satellites of SBAS.

ghost use Rattle.std.specs.Prelude.{◌≡◌, ◌+◌, ◌-◌, ◌≤◌, ◌<◌, ℤ, List, [], ◌∷◌, ◌++◌, length, map, Option};
ghost use Rattle.std.specs.List.{All};
ghost use Rattle.rtk_message.specs.declared.any_message.AnyMessage.TheVariants as AnyMessage;
ghost use Rattle.rtk_message.specs.declared.obs1004.Satellite.{Satellite};
ghost use Rattle.rtk_message.specs.declared.system.System.TheVariants.{Sbas};
ghost use Rattle.rtk_message.specs.Decoded.{IsValid};
ghost use Rattle.rtk_message.specs.Obs1004.{IsValid as IsValid1004};
ghost use Rattle.rtk_obs.specs.Cell.{IsSatellite};
ghost use Rattle.rtk_obs.specs.LegacyCells.{l1_cell_of, satellite_entries};
ghost use Rattle.rtk_obs.specs.CellsLeft.{HasLegacyWidths};
ghost use Rattle.rtk_obs.specs.SatelliteIndex.{index_in};
ghost use Rattle.rtk_obs.specs.SbasCells.{is_sbas_number, sbas_entry_if, satellite_signals, signals_of_1004, entries_with_sbas};
ghost use Rattle.rtk_obs.specs.SignalCells.{signal_of};
ghost use Rattle.rtk_obs.specs.Steps.GlonassFields.{HasSeenNumbers};

use crate::any_code::AnyCode;
use crate::cell::{Cell, CellEntry, is_satellite};
use crate::legacy_cells::{l1_length, set_l1_entry, set_l2_entry};
use crate::satellite_index::satellite_in;
use crate::seen::{NUMBERS, mark_number};
use crate::signal_cells::{SignalEntry, put_entries_of};
use arrayvec::ArrayVec;
use rtk_message::{Message, Obs1004, Satellite, System};

// The satellite IDs of SBAS (DF009), for PRN 120 to 138.
const FIRST_SBAS: u8 = 40;

const LAST_SBAS: u8 = 58;

// Returns whether a satellite ID is of SBAS.
fn is_sbas(number: u8) -> bool
    ensures { result ≡ is_sbas_number number }
{
    FIRST_SBAS <= number && number <= LAST_SBAS
}

// Returns the cell of L1 of a satellite.
fn l1_cell(satellite: &Satellite) -> Cell
    requires { HasLegacyWidths satellite.now }
    ensures { result ≡ l1_cell_of satellite.now }
{
    let mut entry = CellEntry::default();
    set_l1_entry(&mut entry, satellite, l1_length(satellite));
    entry.cell
}

// Puts the two entries of a satellite of GPS.
fn put_gps(found: &mut ArrayVec<SignalEntry, 64>, satellite: &Satellite)
    requires fields { HasLegacyWidths satellite.now }
    requires number { IsSatellite satellite.now.satellite }
    requires room { length found.old.items ≤ 62 }
    ensures entries { found.new.items ≡ found.old.items ++ map signal_of (satellite_entries satellite.now) }
    ensures few { length found.new.items ≤ length found.old.items + 2 }
{
    let length = l1_length(satellite);
    let mut entry = CellEntry::default();
    set_l1_entry(&mut entry, satellite, length);
    found.push(SignalEntry::of_gps(&entry));
    set_l2_entry(&mut entry, satellite, length);
    found.push(SignalEntry::of_gps(&entry));
}

// Puts the entry of a satellite of SBAS.
fn put_sbas(found: &mut ArrayVec<SignalEntry, 64>, satellite: &Satellite)
    requires fields { HasLegacyWidths satellite.now }
    requires number { 39 ≤ satellite.now.satellite }
    requires room { length found.old.items ≤ 62 }
    ensures entries { found.new.items ≡ found.old.items ++ sbas_entry_if satellite.now (index_in Sbas (satellite.now.satellite - 39)) }
    ensures few { length found.new.items ≤ length found.old.items + 2 }
{
    let Some(index) = satellite_in(System::Sbas, satellite.satellite - (FIRST_SBAS - 1)) else {
        return;
    };
    found.push(SignalEntry {
        satellite: index,
        code: AnyCode::S1C,
        doppler_millihertz: 0,
        cell: l1_cell(satellite),
    });
}

// Puts the entries of a satellite of a 1004.
fn put_signals_of(found: &mut ArrayVec<SignalEntry, 64>, satellite: &Satellite)
    requires fields { HasLegacyWidths satellite.now }
    requires room { length found.old.items ≤ 62 }
    ensures entries { found.new.items ≡ found.old.items ++ satellite_signals satellite.now }
    ensures few { length found.new.items ≤ length found.old.items + 2 }
{
    if is_satellite(satellite.satellite) {
        put_gps(found, satellite);
    } else if is_sbas(satellite.satellite) {
        put_sbas(found, satellite);
    }
}

// Puts the entries of a satellite, if it comes for the first time.
fn put_first(found: &mut ArrayVec<SignalEntry, 64>, seen: &mut [bool], satellite: &Satellite)
    requires fields { HasLegacyWidths satellite.now }
    requires number { satellite.now.satellite < 64 }
    requires places { length seen.old ≡ 64 }
    requires room { length found.old.items ≤ 62 }
    ensures entries { (before : List Satellite) → HasSeenNumbers seen.old (map (λ s. s.satellite) before)
        → found.old.items ≡ signals_of_1004 before → found.new.items ≡ signals_of_1004 (before ++ satellite.now ∷ []) }
    ensures seen { (before : List Satellite) → HasSeenNumbers seen.old (map (λ s. s.satellite) before)
        → HasSeenNumbers seen.new (map (λ s. s.satellite) (before ++ satellite.now ∷ [])) }
    ensures places { length seen.new ≡ 64 }
    ensures few { length found.new.items ≤ length found.old.items + 2 }
{
    if mark_number(seen, satellite.satellite) {
        put_signals_of(found, satellite);
    }
}

// Puts the entries of the satellites of a 1004 into an empty list.
fn put_all(found: &mut ArrayVec<SignalEntry, 64>, satellites: &[Satellite])
    requires few { length satellites.now ≤ 31 }
    requires fields { All HasLegacyWidths satellites.now }
    requires numbers { All (λ s. s.satellite < 64) satellites.now }
    requires empty { found.old.items ≡ [] }
    ensures { found.new.items ≡ signals_of_1004 satellites.now }
{
    let mut seen = [false; NUMBERS];
    for satellite in satellites {
        put_first(found, &mut seen, satellite);
    }
}

/// Puts the cells of a 1004 into a list, in place of what it has, as `put_entries_of` gives them, and that of
/// L1 of each satellite of SBAS: S20 to S38, which are the satellite IDs 40 to 58 (DF009).
pub fn put_signals_1004(message: &Obs1004, found: &mut ArrayVec<SignalEntry, 64>)
    requires { IsValid1004 message.now }
    ensures { found.new.items ≡ signals_of_1004 message.now.satellites }
{
    found.clear();
    put_all(found, message.satellites.as_slice());
}

/// Puts the cells of a message into a list, in place of what it has, as `put_entries_of` gives them: those of a
/// 1004 with its satellites of SBAS.
pub fn put_entries_with_sbas(message: &Message, found: &mut ArrayVec<SignalEntry, 64>)
    requires { IsValid message.now }
    ensures { (channels : List (Option ℤ)) → found.new.items ≡ entries_with_sbas channels (AnyMessage.Message message.now) }
{
    match message {
        Message::Obs1004(message) => put_signals_1004(message, found),
        Message::Arp1005(_) | Message::Arp1006(_) | Message::Msm1074(_) => {
            put_entries_of(message, found)
        }
    }
}
