//! The lines of the messages of a station, by their numbers.
//!
//! If memory is refused, a first part of what is put may stand there.

ghost use Rattle.std.specs.Prelude.{◌≡◌, ◌++◌, OnOk};
ghost use Rattle.rtk_survey.specs.Steps.Tables as spec;
ghost use Rattle.rtk_survey.specs.SummaryText.{message_lines, system_epoch_lines};

use crate::line::put_numbered;
use crate::station::StationSurvey;
use crate::system_msm::{epochs_numbered, messages_numbered};
use std::alloc::AllocError;

/// The messages that are read: 1004 to 1006, 1012, and MSM4 to MSM7 of all systems.
const MESSAGES: [u16; 32] = [
    1004, 1005, 1006, 1012, 1074, 1075, 1076, 1077, 1084, 1085, 1086, 1087, 1094, 1095, 1096, 1097,
    1104, 1105, 1106, 1107, 1114, 1115, 1116, 1117, 1124, 1125, 1126, 1127, 1134, 1135, 1136, 1137,
];

/// Those of other systems than GPS.
const BESIDE_GPS: [u16; 25] = [
    1012, 1084, 1085, 1086, 1087, 1094, 1095, 1096, 1097, 1104, 1105, 1106, 1107, 1114, 1115, 1116,
    1117, 1124, 1125, 1126, 1127, 1134, 1135, 1136, 1137,
];

// How many messages of a number a station has.
fn messages_held(station: &StationSurvey, number: u16) -> u64
    ensures { result ≡ spec.messages_held station.now number }
{
    match number {
        1004 => station.counts.obs_1004,
        1005 => station.counts.arp_1005,
        1006 => station.counts.arp_1006,
        1074 => station.msm.msm4.messages,
        1075 => station.msm.msm5.messages,
        1076 => station.msm.msm6.messages,
        1077 => station.msm.msm7.messages,
        _ => messages_numbered(&station.system_msm, number),
    }
}

/// Appends a line for each number of which a message came.
pub(crate) fn put_messages(lines: &mut Vec<u8>, station: &StationSurvey) -> Result<(), AllocError>
    ensures { OnOk result (lines.new.items ≡ lines.old.items ++ message_lines (spec.messages_held station.now)) }
{
    for number in &MESSAGES {
        let count = messages_held(station, *number);
        put_numbered(lines, b" message ", u64::from(*number), count)?;
    }
    Ok(())
}

/// Appends a line for each number of another system than GPS that has epochs.
pub(crate) fn put_epochs(lines: &mut Vec<u8>, station: &StationSurvey) -> Result<(), AllocError>
    ensures { OnOk result (lines.new.items ≡ lines.old.items ++ system_epoch_lines (spec.system_epochs_held station.now)) }
{
    for number in &BESIDE_GPS {
        let count = epochs_numbered(&station.system_msm, *number);
        put_numbered(lines, b" epochs ", u64::from(*number), count)?;
    }
    Ok(())
}
