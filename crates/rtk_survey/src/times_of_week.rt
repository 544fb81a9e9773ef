//! The times of week of a station's observation messages of the systems whose clocks tell GPS time: GPS, Galileo, QZSS,
//! SBAS and NavIC.

ghost use Rattle.std.specs.Prelude.{◌≡◌, List, ℕ, [], ◌∷◌};
ghost use Rattle.rtk_message.specs.declared.any_message.AnyMessage.{AnyMessage};
ghost use Rattle.rtk_survey.specs.Contents.{times_of};
ghost use Rattle.rtk_survey.specs.Tracing.{change_from, gps_time_by, gps_time_of, times_of_week};

use rtk_message::{AnyMessage, System};

/// The first time and the last one, in ms, and how many differ from the one before.
#[derive(Clone, Copy, Debug, PartialEq, Eq)]
pub struct Times {
    pub first: Option<u32>,
    pub last: Option<u32>,
    pub changes: u64,
}

// The time of week that a clock of a system tells, if it is GPS time.
fn gps_time_by(system: System, clock: u32) -> Option<u32>
    ensures { result ≡ gps_time_by system clock }
{
    match system {
        System::Gps | System::Galileo | System::Qzss | System::Sbas | System::Navic => Some(clock),
        System::Glonass | System::Beidou => None,
    }
}

/// The time of week of a message, if it has one and its clock tells GPS time.
pub(crate) fn gps_time_of(message: &AnyMessage) -> Option<u32>
    ensures { result ≡ gps_time_of message.now }
{
    match message {
        AnyMessage::Message(message) => message.tow(),
        AnyMessage::Msm(message) => gps_time_by(message.system, message.header.tow),
        AnyMessage::Obs1012(_) => None,
    }
}

fn change_from(before: Option<u32>, time: u32) -> u64
    ensures { result ≡ change_from before time }
{
    match before {
        Some(before) => u64::from(before != time),
        None => 0,
    }
}

impl Times {
    /// No time came.
    pub fn new() -> Times
        ensures { result ≡ times_of [] }
    {
        Times {
            first: None,
            last: None,
            changes: 0,
        }
    }

    /// The next message has this time.
    fn note_time(&mut self, time: u32)
        ensures { (ts : List ℕ) → self.old ≡ times_of ts → self.new ≡ times_of (time ∷ ts) }
    {
        let change = change_from(self.last, time);
        self.changes = self.changes.saturating_add(change);
        self.first = Some(self.first.unwrap_or(time));
        self.last = Some(time);
    }

    /// Notes the time of week of a message, if it has one and its clock tells GPS time.
    pub fn note_message(&mut self, message: &AnyMessage)
        ensures { (ms : List AnyMessage) → self.old ≡ times_of (times_of_week ms)
            → self.new ≡ times_of (times_of_week (message.now ∷ ms)) }
    {
        if let Some(time) = gps_time_of(message) {
            self.note_time(time);
        }
    }
}
