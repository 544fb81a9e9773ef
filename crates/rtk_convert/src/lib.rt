//! One RINEX file and a report from 1 to 16 links: a run reads the links and writes both.
//!
//! In each call `out` is the sink of the file, and `log` the sink of the report.
//!
//! ```rust
//! use rtk_convert::{Converter, Setup};
//! use rtk_frame::MemSink;
//! use rtk_obs::{Code, GpsMs};
//! use rtk_rinex::Head;
//! use std::alloc::{AllocError, Global};
//!
//! // Frames with a 1004 of station 2003: of 2024-05-17 12:00:00, of one second and of two seconds later.
//! const FIRST: &[u8] = b"\xD3\x00\x18\x3E\xC7\xD3\x71\x4B\xE8\x00\x10\x14\x98\x96\x80\
//!     \x00\x00\x01\x51\xAD\x30\x19\x00\x00\x00\x2C\x60\xD0\xFE\x53";
//! const SECOND: &[u8] = b"\xD3\x00\x18\x3E\xC7\xD3\x71\x4B\xF7\xA0\x10\x14\x98\x96\x80\
//!     \x00\x00\x01\x51\xAD\x30\x19\x00\x00\x00\x2C\x60\x5D\xC5\x11";
//! const THIRD: &[u8] = b"\xD3\x00\x18\x3E\xC7\xD3\x71\x4C\x07\x40\x10\x14\x98\x96\x80\
//!     \x00\x00\x01\x51\xAD\x30\x19\x00\x00\x00\x2C\x60\x07\xE1\xA3";
//!
//! // Link 0 lost the second frame, and link 1 lost the third one: the file has all three epochs.
//! fn example(alloc: Global) -> Result<bool, AllocError> {
//!     let Some(noon) = GpsMs::new(1_399_982_400_000) else {
//!         return Ok(false);
//!     };
//!     let Ok(head) = Head::new(b"BASE", &[Code::G1C, Code::G2W], noon) else {
//!         return Ok(false);
//!     };
//!     let Ok(setup) = Setup::new(2003, noon, head, 64) else {
//!         return Ok(false);
//!     };
//!     let Ok(mut converter) = Converter::new(alloc, setup, 2) else {
//!         return Ok(false);
//!     };
//!     let mut file = MemSink::new(alloc, 65_536, 4_096)?;
//!     let mut report = MemSink::new(alloc, 65_536, 4_096)?;
//!     for (link, piece) in [(0, FIRST), (1, FIRST), (1, SECOND), (0, THIRD)] {
//!         if converter.feed(link, piece, &mut file, &mut report).is_err() {
//!             return Ok(false);
//!         }
//!     }
//!     let Ok(counts) = converter.finish(&mut file, &mut report) else {
//!         return Ok(false);
//!     };
//!     let lines = file.bytes().split(|byte| *byte == b'\n');
//!     let records = lines.filter(|line| line.starts_with(b"> 2024 05 17 12 00")).count();
//!     Ok(records == 3 && counts.taken == 3 && counts.repeat == 1)
//! }
//! ```
//!
//! Its tests: tests/values/src/convert.rt.in and convert/
#![tactic(auto)]

mod closed_epochs;
mod conversion;
mod converter;
mod epoch_rows;
mod epochs;
mod fault;
mod file_entry;
mod file_header;
mod frame_class;
mod laws;
mod link_count;
mod link_number;
mod link_state;
mod message_class;
mod remarks;
mod report;
mod row_form;
mod row_lines;
mod runs;
mod signal_phases;
mod slots;
mod systems;
mod writing;

pub use converter::Converter;
pub use fault::{ConvertFault, Stream};
pub use laws::{
    calls_come_to_table, calls_keep_promise, converter_laws, default_takes_four,
    each_frame_in_one_class, epochs_are_records, file_laws, file_only_grows, frames_add_to_one,
    gps_messages_stay, one_history_of_calls, report_tells_channels, report_tells_counts,
    set_decides_file, set_has_one_file,
};
pub use link_count::LinkCount;
pub use rtk_setup::{
    Counts, GREATEST_STATION, LEAST_WINDOW, LeapSeconds, MOST_LINKS, MOST_WINDOW, Reference, Setup,
    SetupFault, Station, SystemKinds, Window,
};
pub use runs::run;
