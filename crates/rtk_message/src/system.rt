//! The satellite systems whose multiple signal messages (MSM) are read, and their clocks.

ghost use Rattle.std.specs.Prelude.{◌≡◌, ◌≤◌};
ghost use Rattle.rtk_message.specs.Systems.{tens_of, system_of_tens, tells_time, is_in_week};

use crate::field::{LONGEST_DAY_MS, WEEK_MS};

/// A satellite system. Source: RTCM 10403.3, messages 1071 to 1137.
#[derive(Clone, Copy, Debug, PartialEq, Eq)]
pub enum System {
    /// GPS: messages 1074 to 1077.
    Gps,
    /// GLONASS: messages 1084 to 1087.
    Glonass,
    /// Galileo: messages 1094 to 1097.
    Galileo,
    /// BeiDou: messages 1124 to 1127.
    Beidou,
    /// QZSS: messages 1114 to 1117.
    Qzss,
    /// The satellite-based augmentation systems: messages 1104 to 1107.
    Sbas,
    /// NavIC: messages 1134 to 1137.
    Navic,
}

// The clock of GLONASS has 3 bits of the day (DF416) before 27 bits of the time of day (DF034).
pub(crate) const TIME_OF_DAY: u32 = 1 << 27;

// The day of the week is 0 to 6; 7 is an unknown day.
const DAYS: u32 = 7;

impl System {
    /// Returns whether a clock of this system, the 30 bits after the station ID of its MSM, lies in a
    /// week.
    ///
    /// The clock of GLONASS is a day of the week (DF416, 3 bits; 7 is unknown) and a time of day
    /// (DF034, 27 bits, in ms), which is less than 86,401,000, since a day can end with a leap second. The
    /// clock of any other system is its time of week in ms, which is less than 604,800,000.
    pub fn is_in_week(self, clock: u32) -> bool
        ensures { result ≡ is_in_week self clock }
    {
        self.tells_time(false, clock)
    }

    /// Returns whether a clock of this system tells a time. It lies in a week, but if any day is taken, that of
    /// a clock of GLONASS may be unknown (DF416 7).
    pub fn tells_time(self, any_day: bool, clock: u32) -> bool
        ensures { result ≡ tells_time any_day self clock }
    {
        match self {
            System::Glonass => {
                (any_day || clock / TIME_OF_DAY < DAYS) && clock % TIME_OF_DAY < LONGEST_DAY_MS
            }
            _ => clock < WEEK_MS,
        }
    }

    /// Returns the message numbers (DF002) of its MSM without their last digit.
    pub(crate) fn tens(self) -> u16
        ensures value { result ≡ tens_of self }
        ensures few { result ≤ 113 }
    {
        match self {
            System::Gps => 107,
            System::Glonass => 108,
            System::Galileo => 109,
            System::Sbas => 110,
            System::Qzss => 111,
            System::Beidou => 112,
            System::Navic => 113,
        }
    }

    /// Returns the system whose MSM have these numbers without their last digit.
    pub(crate) fn of_tens(tens: u16) -> Option<System>
        ensures { result ≡ system_of_tens tens }
    {
        match tens {
            107 => Some(System::Gps),
            108 => Some(System::Glonass),
            109 => Some(System::Galileo),
            110 => Some(System::Sbas),
            111 => Some(System::Qzss),
            112 => Some(System::Beidou),
            113 => Some(System::Navic),
            _ => None,
        }
    }
}
