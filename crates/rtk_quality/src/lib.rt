//! The numbers of a file: what its codes and its satellites have, of how much that could be there, and
//! the passes of its satellites.
//!
//! Its tests: tests/values/src/quality.rt.in.
//!
//! ```rust
//! use rtk_obs::{Code, GpsMs, Position};
//! use rtk_quality::{Form, quality};
//! use rtk_rinex::{EpochTable, Head, Observed, check_text, header, record};
//! use std::alloc::{AllocError, Global};
//! use std::str;
//!
//! // Satellite 5 in three seconds, with a slip in the second one.
//! fn example(alloc: Global) -> Result<bool, AllocError> {
//!     let (Some(noon), Some(position)) = (GpsMs::new(1_399_982_400_000), Position::new(0, 0, 0, 0))
//!     else {
//!         return Ok(false);
//!     };
//!     let Ok(head) = Head::new(b"BASE", &[Code::G1C], noon) else {
//!         return Ok(false);
//!     };
//!     let mut file = header(alloc, &head, &position, noon)?;
//!     for second in 0..3 {
//!         let Some(time) = GpsMs::new(noon.ms() + 1000 * second) else {
//!             return Ok(false);
//!         };
//!         let phase = Observed {
//!             phase_millicycles: Some(110_804_903_547),
//!             strength_millidbhz: Some(45_000),
//!             slip: second == 1,
//!             ..Observed::default()
//!         };
//!         let mut epoch = EpochTable::new(time);
//!         epoch.push_row(5, &[phase]);
//!         file.extend_from_slice(record(alloc, &head, &epoch)?.as_slice())?;
//!     }
//!     let Ok(table) = check_text(file.as_slice()) else {
//!         return Ok(false);
//!     };
//!     let numbers = quality(alloc, Form::Lines, &table)?;
//!     let Ok(text) = str::from_utf8(numbers.as_slice()) else {
//!         return Ok(false);
//!     };
//!     let code = "code 1C phases 3 of 3 percent 100.0 satellites 1 of 1 ranges-only 0 slips 1 ";
//!     Ok(text.lines().any(|line| line.starts_with(code)))
//! }
//! ```

#![tactic(auto)]

mod bursts;
mod code_counts;
mod code_numbers;
mod columns;
mod document;
mod entries;
mod events;
mod falls;
mod file_counts;
mod file_times;
mod form;
mod gaps;
mod heading;
mod hours;
mod largest;
mod laws;
mod lines;
mod lists;
mod missing;
mod mixed_document;
mod moments;
mod never;
mod outages;
mod pass_sums;
mod record_counts;
mod rows;
mod runs;
mod satellite_counts;
mod satellites;
mod sections;
mod shifts;
mod station;
mod station_lines;
mod strengths;
mod system_counts;

pub use document::quality;
pub use form::Form;
pub use laws::{
    each_is_counted, events_hide_nothing, gaps_hide_nothing, hours_hide_nothing, no_bit_is_hidden,
    satellites_hide_nothing,
};
pub use mixed_document::mixed_quality;
