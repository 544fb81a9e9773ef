//! From payloads to cells: what has to be known before a message, and what each message gives.

ghost use Rattle.rtk_obs.specs.Dating.{IsReference};
ghost use Rattle.std.specs.Prelude.{IfSome};

use crate::cell_line::print_cell;
use rtk_message::{Accepted, AnyDecoder, AnyMessage, Message, Msm, System};
use rtk_obs::{
    CellEntry, Channel, Channels, GpsMs, SignalEntry, cells_1004, cells_1074, date, date_clock,
    satellite_in, satellite_name, signal_entries,
};
use std::io;

// The references that `date` takes: from 13 January 1980 to the end of 2099.
const FIRST_REFERENCE_MS: u64 = 604_800_000;

const LAST_REFERENCE_MS: u64 = 3_786_479_999_999;

// Returns the moment if clocks can be dated near it.
fn reference(ms: u64) -> Option<GpsMs>
    ensures { IfSome result IsReference }
{
    if ms < FIRST_REFERENCE_MS || ms > LAST_REFERENCE_MS {
        return None;
    }
    GpsMs::new(ms)
}

// Returns the channel that the field of a satellite of GLONASS tells (DF419): it is 7 greater, and 14 and
// 15 tell none.
fn channel_of(field: u8) -> Option<Channel> {
    let field = i8::try_from(field).ok()?;
    Channel::new(field - 7)
}

// Sets the channels that an MSM5 or an MSM7 tells for slots that had none. A slot keeps the channel that
// was told first; a message that tells another one then has no phases for it.
fn learn_channels(channels: &mut Channels, message: &Msm) {
    for slot in 1..=27u8 {
        // The last of these bits is that of the slot, and those before it are of lesser slots.
        let bits = message.header.satellite_mask >> (64 - u32::from(slot));
        let place = (bits >> 1).count_ones() as usize;
        let Some(field) = message.extended.as_slice().get(place) else {
            continue;
        };
        if bits & 1 == 0 || channels.channel(slot).is_some() {
            continue;
        }
        if let Some(channel) = channel_of(*field) {
            channels.set(slot, channel);
        }
    }
}

fn print_signals(rt: &HostRuntime, time: GpsMs, entries: &[SignalEntry]) -> io::Result<()> {
    for entry in entries {
        let satellite = satellite_name(entry.satellite);
        print_cell(rt, time, satellite, entry.code.name(), &entry.cell)?;
    }
    Ok(())
}

// The cells of a 1004 or a 1074 have satellites and codes of GPS.
fn print_gps(rt: &HostRuntime, time: GpsMs, entries: &[CellEntry]) -> io::Result<()> {
    for entry in entries {
        if let Some(satellite) = satellite_in(System::Gps, entry.satellite) {
            print_cell(
                rt,
                time,
                satellite_name(satellite),
                entry.code.name(),
                &entry.cell,
            )?;
        }
    }
    Ok(())
}

/// A receiver of messages of all systems.
#[derive(Drop)]
pub(crate) struct Listener {
    // A GPS time near the messages, in ms.
    near_ms: u64,
    // The channels of GLONASS that messages told.
    channels: Channels,
    decoder: AnyDecoder,
}

impl Listener {
    /// Makes a listener that knows nothing yet.
    pub(crate) fn new() -> Listener {
        Listener {
            near_ms: 0,
            channels: Channels::new(),
            decoder: AnyDecoder::new(),
        }
    }

    /// Begins a capture whose messages are dated near this time, in ms. Channels are forgotten, because
    /// satellites and their channels change.
    pub(crate) fn begin(&mut self, time: &str) {
        self.near_ms = time.parse::<u64>().unwrap_or(0);
        self.channels = Channels::new();
    }

    /// Prints the cells of the message of a payload.
    pub(crate) fn print_payload(&mut self, rt: &HostRuntime, payload: &[u8]) -> io::Result<()> {
        let Some(near) = reference(self.near_ms) else {
            return println!(rt; "no time near the messages");
        };
        match self.decoder.read(Accepted::ALL, payload) {
            Ok(AnyMessage::Msm(message)) => {
                if matches!(message.system, System::Glonass) {
                    learn_channels(&mut self.channels, message);
                }
                let time = date_clock(message.system, near, message.header.tow, None);
                print_signals(rt, time, &signal_entries(message, &self.channels))
            }
            Ok(AnyMessage::Message(Message::Msm1074(message))) => {
                let time = date(near, message.header.tow);
                print_gps(rt, time, &cells_1074(message))
            }
            Ok(AnyMessage::Message(Message::Obs1004(message))) => {
                print_gps(rt, date(near, message.tow), &cells_1004(message))
            }
            Ok(_) => println!(rt; "a message without observations"),
            Err(fault) => println!(rt; "refused: {fault}"),
        }
    }
}
