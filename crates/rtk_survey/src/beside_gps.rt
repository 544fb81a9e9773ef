//! Messages of other systems than GPS, and SBAS of 1004: which they are, their times and their cells.

ghost use Rattle.std.specs.Prelude.{◌≡◌, ◌/◌, ◌%◌, ◌^◌, ◌<◌, filter};
ghost use Rattle.rtk_message.specs.AnyDecoded.{IsValid};
ghost use Rattle.rtk_message.specs.Decoded.{IsValid as IsValidFour};
ghost use Rattle.rtk_message.specs.Obs1004.{IsValid as IsValid1004};
ghost use Rattle.rtk_obs.specs.Clocks.{beidou_tow};
ghost use Rattle.rtk_obs.specs.GlonassTime.{glonass_tow};
ghost use Rattle.rtk_obs.specs.SbasCells.{signals_of_1004};
ghost use Rattle.rtk_survey.specs.BesideGps as spec;
ghost use Rattle.rtk_survey.specs.Tracing.{is_beside_gps};

use crate::phase_channels::phase_channels;
use crate::sbas::have_sbas;
use crate::telling::DAY_MS;
use arrayvec::ArrayVec;
use rtk_message::{AnyMessage, Message, Obs1004, System};
use rtk_obs::{SignalEntry, WEEK_MS, put_entries_1012, put_signal_entries, put_signals_1004};

/// By how much GPS time is ahead of BeiDou time.
const BEIDOU_MS: u64 = 14_000;

/// By how much the time in Moscow is ahead of UTC.
const MOSCOW_MS: u64 = 10_800_000;

/// The clock of GLONASS has 3 bits of the day (DF416) before 27 bits of the time of day (DF034).
const TIME_OF_DAY: u32 = 1 << 27;

/// Is it a message of another system than GPS?
pub fn is_beside_gps(message: &AnyMessage) -> bool
    ensures { result ≡ is_beside_gps message.now }
{
    match message {
        AnyMessage::Message(_) => false,
        AnyMessage::Msm(message) => is_other_system(message.system),
        AnyMessage::Obs1012(_) => true,
    }
}

// ---- times

// The GPS time of week of a BeiDou time of week.
fn beidou_time(clock: u32) -> u32
    ensures { result ≡ beidou_tow clock }
{
    ((u64::from(clock) + BEIDOU_MS) % WEEK_MS) as u32
}

// The time of week, of UTC, of a day and a time of day in Moscow.
fn glonass_time(clock: u32) -> u32
    ensures { result ≡ glonass_tow (clock / 2 ^ 27) (clock % 2 ^ 27) 0 }
{
    let moscow = DAY_MS * u64::from(clock / TIME_OF_DAY) + u64::from(clock % TIME_OF_DAY);
    ((moscow + (WEEK_MS - MOSCOW_MS)) % WEEK_MS) as u32
}

/// The time of week that a clock of a system tells, in ms: that of GPS, but for GLONASS that of UTC.
pub fn told_time(system: System, clock: u32) -> u32
    ensures { result ≡ spec.told_time system clock }
{
    match system {
        System::Glonass => glonass_time(clock),
        System::Beidou => beidou_time(clock),
        System::Gps | System::Galileo | System::Qzss | System::Sbas | System::Navic => clock,
    }
}

/// The time of week that a 1012 or an MSM tells (`told_time`). A 1074, or a message of another number, has none
/// here.
pub(crate) fn told_time_of(message: &AnyMessage) -> Option<u32>
    ensures { result ≡ spec.told_time_of message.now }
{
    match message {
        AnyMessage::Message(_) => None,
        AnyMessage::Msm(message) => Some(told_time(message.system, message.header.tow)),
        AnyMessage::Obs1012(message) => Some(told_time(System::Glonass, message.clock())),
    }
}

// ---- cells

fn is_other_system(system: System) -> bool
    ensures { result ≡ spec.is_other_system system }
{
    match system {
        System::Gps => false,
        System::Glonass
        | System::Galileo
        | System::Beidou
        | System::Qzss
        | System::Sbas
        | System::Navic => true,
    }
}

// Is it a cell of another system than GPS?
fn is_beside_entry(entry: &SignalEntry) -> bool
    ensures { result ≡ spec.is_beside_entry entry.now }
{
    is_other_system(entry.code.system())
}

// Leaves the cells of other systems than GPS.
fn keep_beside(found: &mut ArrayVec<SignalEntry, 64>)
    ensures { found.new.items ≡ filter spec.is_beside_entry found.old.items }
{
    found.retain(|entry| is_beside_entry(entry));
}

// Puts the cells of satellites of SBAS in a 1004 over a list. Few 1004 have one, so this is asked first.
fn put_sbas_of_1004(message: &Obs1004, found: &mut ArrayVec<SignalEntry, 64>)
    requires { IsValid1004 message.now }
    ensures { found.new.items ≡ filter spec.is_beside_entry (signals_of_1004 message.now.satellites) }
{
    if have_sbas(message.satellites.as_slice()) {
        put_signals_1004(message, found);
        keep_beside(found);
    } else {
        found.clear();
    }
}

// The same of a message that may be a 1004.
fn put_sbas_of_four(message: &Message, found: &mut ArrayVec<SignalEntry, 64>)
    requires { IsValidFour message.now }
    ensures { found.new.items ≡ spec.sbas_cells_of_four message.now }
{
    match message {
        Message::Obs1004(message) => put_sbas_of_1004(message, found),
        Message::Arp1005(_) | Message::Arp1006(_) | Message::Msm1074(_) => found.clear(),
    }
}

/// Puts the cells of other systems than GPS of a message over a list.
pub(crate) fn put_cells_beside_gps(message: &AnyMessage, found: &mut ArrayVec<SignalEntry, 64>)
    requires { IsValid message.now }
    ensures { found.new.items ≡ spec.cells_beside_gps message.now }
{
    match message {
        AnyMessage::Message(message) => put_sbas_of_four(message, found),
        AnyMessage::Msm(msm) => {
            if is_other_system(msm.system) {
                put_signal_entries(msm, &phase_channels(message), found);
            } else {
                found.clear();
            }
        }
        AnyMessage::Obs1012(legacy) => {
            put_entries_1012(legacy, &phase_channels(message), found);
        }
    }
}
