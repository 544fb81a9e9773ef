//! The cells of messages of any system.

ghost use Rattle.std.specs.Prelude.{◌≡◌, ◌≤◌, length, map};
ghost use Rattle.std.specs.List.{All};
ghost use Rattle.rtk_message.specs.declared.any_message.AnyMessage.TheVariants as AnyMessage;
ghost use Rattle.rtk_message.specs.Decoded.{IsValid as IsValidMessage};
ghost use Rattle.rtk_message.specs.MsmForm.{IsValid};
ghost use Rattle.rtk_message.specs.Msm1074.{IsValid as IsValid1074};
ghost use Rattle.rtk_obs.specs.Cell.{IsSatellite};
ghost use Rattle.rtk_obs.specs.MessageCells.{cells_of};
ghost use Rattle.rtk_obs.specs.MsmCells.{cells_of_1074};
ghost use Rattle.rtk_obs.specs.SignalCells.{unless_other, channel_in, field_of_row, signal_entries, signal_of};

use crate::any_code::AnyCode;
use crate::carrier::{Channel, Channels};
use crate::cell::{Cell, CellEntry};
use crate::message_cells::put_cells_of;
use crate::msm_cells::set_values;
use crate::msm_values::rough_range;
use crate::msm1074_cells::set_values_1074;
use crate::satellite_index::{SatelliteIndex, satellite_in};
use crate::signal_rows::{SignalRow, SignalsOfMsm, put_entries};
use arrayvec::ArrayVec;
use rtk_message::{Message, Msm, Msm1074, MsmHeader, System};

/// A cell with its satellite and code, of any system.
#[derive(Clone, Copy, Debug, Default, PartialEq, Eq, Hash)]
pub struct SignalEntry {
    pub satellite: SatelliteIndex,
    pub code: AnyCode,
    /// The Doppler shift in thousandths of a Hz, positive while the satellite comes nearer. It is 0, which RINEX
    /// shows as no value, if the message tells none or it is not asked for.
    // It lies in the padding before the cell, so an entry has 64 bytes.
    pub doppler_millihertz: i32,
    /// The values. A phase of GLONASS is missing if its slot has no channel, or if the message tells another
    /// one.
    pub cell: Cell,
}

impl SignalEntry {
    /// Returns a cell of GPS as one of any system.
    pub fn of_gps(entry: &CellEntry) -> SignalEntry
        requires { IsSatellite entry.now.satellite }
        ensures { result ≡ signal_of entry.now }
    {
        let Some(satellite) = SatelliteIndex::new(entry.satellite) else {
            unreachable!()
        };
        SignalEntry {
            satellite,
            code: AnyCode::of_gps(entry.code),
            doppler_millihertz: 0,
            cell: entry.cell,
        }
    }
}

// The field of a satellite of GLONASS (DF419) that tells no channel.
const NO_CHANNEL: u8 = 15;

// Returns the channel of a slot, unless the field of its satellite tells another one. The field is 7 greater
// than the number of its channel.
fn unless_other(field: u8, channel: Option<Channel>) -> Option<Channel>
    ensures { result ≡ unless_other field channel }
{
    let channel = channel?;
    if field == NO_CHANNEL || i16::from(field) == i16::from(channel.number()) + 7 {
        Some(channel)
    } else {
        None
    }
}

/// Returns the channel of a satellite, of which the message tells the mask bit and this field (DF419).
pub(crate) fn channel_in(system: System, channels: &Channels, bit: u8, field: u8) -> Option<Channel>
    requires { 1 ≤ bit }
    ensures { result ≡ channel_in system channels.now bit field }
{
    match system {
        System::Glonass if bit <= 27 => unless_other(field, channels.channel(bit)),
        _ => None,
    }
}

/// Returns the field of the satellite of a row (DF419), or the one that tells no channel in a kind without it.
pub(crate) fn field_of_row(message: &Msm, row: usize) -> u8
    ensures { result ≡ field_of_row message.now row }
{
    match message.extended.as_slice().get(row) {
        Some(field) => *field,
        None => NO_CHANNEL,
    }
}

/// A message with the channels by which its phases are made.
#[derive(Clone, Copy)]
struct OnChannels<'a> {
    message: &'a Msm,
    channels: &'a Channels,
}

impl<'a> SignalsOfMsm for OnChannels<'a> {
    ghost use Rattle.rtk_message.specs.MsmForm.{IsValid};
    ghost use Rattle.rtk_obs.specs.SignalCells.{signal_entry};
    ghost use Rattle.rtk_obs.specs.Steps.SignalRows.{IsRowOfMsm};

    ghost IsValid = { λ s. IsValid s.message.now };

    ghost system = { λ s. s.message.now.system };

    ghost header = { λ s. s.message.now.header };

    ghost cell_mask = { λ s. s.message.now.cell_mask };

    ghost entry_of = { λ s. signal_entry s.channels.now s.message.now };

    ghost IsRow = { λ s. IsRowOfMsm s.channels.now s.message.now };

    fn own_system(&self) -> System {
        self.message.system
    }

    fn mask_header(&self) -> MsmHeader {
        self.message.header
    }

    fn cell_count(&self) -> usize {
        self.message.fine_range.len()
    }

    fn mask_rows(&self) -> &[u32] {
        self.message.cell_mask.as_slice()
    }

    fn row(&self, place: usize, bit: u8) -> Option<SignalRow> {
        let Some(satellite) = satellite_in(self.message.system, bit) else {
            return None;
        };
        let field = field_of_row(self.message, place);
        Some(SignalRow {
            satellite,
            rough: rough_range(
                self.message.rough_ms.as_slice()[place],
                self.message.rough_fraction.as_slice()[place],
            ),
            channel: channel_in(self.message.system, self.channels, bit, field),
            rough_rate: None,
        })
    }

    #[inline(always)]
    fn set_entry(
        &self,
        entry: &mut SignalEntry,
        cell: usize,
        row: &SignalRow,
        signal: Option<AnyCode>,
    ) -> bool {
        let Some(code) = signal else {
            return false;
        };
        entry.satellite = row.satellite;
        entry.code = code;
        entry.doppler_millihertz = 0;
        let frequency = code.carrier().frequency(row.channel);
        set_values(self.message, &mut entry.cell, cell, row.rough, frequency);
        true
    }
}

impl SignalsOfMsm for Msm1074 {
    ghost use Rattle.rtk_message.specs.declared.system.System.TheVariants.{Gps};
    ghost use Rattle.rtk_obs.specs.Steps.SignalRows.{IsRowOf1074, entry_of_1074};

    ghost IsValid = { IsValid1074 };

    ghost system = { λ m. Gps };

    ghost header = { λ m. m.header };

    ghost cell_mask = { λ m. m.cell_mask };

    ghost entry_of = { entry_of_1074 };

    ghost IsRow = { IsRowOf1074 };

    fn own_system(&self) -> System {
        System::Gps
    }

    fn mask_header(&self) -> MsmHeader {
        self.header
    }

    fn cell_count(&self) -> usize {
        self.fine_range.len()
    }

    fn mask_rows(&self) -> &[u32] {
        self.cell_mask.as_slice()
    }

    fn row(&self, place: usize, bit: u8) -> Option<SignalRow> {
        if bit > 32 {
            return None;
        }
        let Some(satellite) = SatelliteIndex::new(bit) else {
            unreachable!()
        };
        Some(SignalRow {
            satellite,
            rough: rough_range(
                self.rough_ms.as_slice()[place],
                self.rough_fraction.as_slice()[place],
            ),
            channel: None,
            rough_rate: None,
        })
    }

    #[inline(always)]
    fn set_entry(
        &self,
        entry: &mut SignalEntry,
        cell: usize,
        row: &SignalRow,
        signal: Option<AnyCode>,
    ) -> bool {
        let Some(code) = signal else {
            return false;
        };
        entry.satellite = row.satellite;
        entry.code = code;
        entry.doppler_millihertz = 0;
        let frequency = code.carrier().frequency(None);
        set_values_1074(self, &mut entry.cell, cell, row.rough, frequency);
        true
    }
}

/// Puts the cells of a message into a list, in place of what it has, as `signal_entries` gives them.
pub fn put_signal_entries(message: &Msm, channels: &Channels, found: &mut ArrayVec<SignalEntry, 64>)
    requires { IsValid message.now }
    ensures { found.new.items ≡ signal_entries channels.now message.now }
{
    put_entries(found, &OnChannels { message, channels });
}

/// Returns the cells of a message in its order, for the satellites that have an index and the signals
/// that have a code. A satellite of GLONASS has phases if its slot has a channel, and the message tells no
/// other one.
pub fn signal_entries(message: &Msm, channels: &Channels) -> ArrayVec<SignalEntry, 64>
    requires { IsValid message.now }
    ensures { result.items ≡ signal_entries channels.now message.now }
{
    let mut found = ArrayVec::new();
    put_signal_entries(message, channels, &mut found);
    found
}

/// Puts cells of GPS into a list, in place of what it has, each as one of any system.
pub fn put_signals(cells: &[CellEntry], found: &mut ArrayVec<SignalEntry, 64>)
    requires few { length cells.now ≤ 64 }
    requires satellites { All (λ e. IsSatellite e.satellite) cells.now }
    ensures { found.new.items ≡ map signal_of cells.now }
{
    found.clear();
    for entry in cells {
        found.push(SignalEntry::of_gps(entry));
    }
}

// Puts the cells of a message into a list, in place of what it has: first into another one, which takes 4 KB of the
// stack.
#[inline(never)]
fn put_entries_by_cells(message: &Message, found: &mut ArrayVec<SignalEntry, 64>)
    requires { IsValidMessage message.now }
    ensures { found.new.items ≡ map signal_of (cells_of (AnyMessage.Message message.now)) }
{
    let mut cells = ArrayVec::new();
    let _ = put_cells_of(message, &mut cells);
    put_signals(cells.as_slice(), found);
}

// Puts the cells of a 1074 into a list, in place of what it has, each as one of any system.
fn put_entries_1074(message: &Msm1074, found: &mut ArrayVec<SignalEntry, 64>)
    requires { IsValid1074 message.now }
    ensures { found.new.items ≡ map signal_of (cells_of_1074 message.now) }
{
    put_entries(found, message);
}

/// Puts the cells of a message into a list, in place of what it has, as `put_cells_of` gives them: each
/// as one of any system.
pub fn put_entries_of(message: &Message, found: &mut ArrayVec<SignalEntry, 64>)
    requires { IsValidMessage message.now }
    ensures { found.new.items ≡ map signal_of (cells_of (AnyMessage.Message message.now)) }
{
    match message {
        Message::Msm1074(message) => put_entries_1074(message, found),
        _ => put_entries_by_cells(message, found),
    }
}
