//! A part of an observation file: the records on a step and in a span, with each slip of the
//! records that are left out.
//!
//! Its tests: tests/values/src/cut.rt.in.
//!
//! ```rust
//! use rtk_cut::{Part, cut};
//! use rtk_frame::MemSink;
//! use rtk_obs::{Code, GpsMs, Position};
//! use rtk_rinex::{EpochTable, Head, Observed, check_text, header, record};
//! use std::alloc::{AllocError, Global};
//!
//! const NOON: u64 = 1_399_982_400_000;
//!
//! // The record of satellite 5 at a moment.
//! fn record_at(alloc: Global, head: &Head, time: GpsMs, slip: bool) -> Result<Vec<u8>, AllocError> {
//!     let phase = Observed {
//!         phase_millicycles: Some(110_804_903_547),
//!         slip,
//!         ..Observed::default()
//!     };
//!     let mut epoch = EpochTable::new(time);
//!     epoch.push_row(5, &[phase]);
//!     record(alloc, head, &epoch)
//! }
//!
//! // Of records at 0, 15 and 30 s the part at each 30 s: the record at 15 s is left out, and its slip is
//! // shown at 30 s.
//! fn example(alloc: Global) -> Result<bool, AllocError> {
//!     let (Some(first), Some(second), Some(third)) = (
//!         GpsMs::new(NOON),
//!         GpsMs::new(NOON + 15_000),
//!         GpsMs::new(NOON + 30_000),
//!     ) else {
//!         return Ok(false);
//!     };
//!     let Ok(head) = Head::new(b"BASE", &[Code::G1C], first) else {
//!         return Ok(false);
//!     };
//!     let Some(position) = Position::new(0, 0, 0, 0) else {
//!         return Ok(false);
//!     };
//!     let mut want = header(alloc, &head, &position, first)?;
//!     want.extend_from_slice(record_at(alloc, &head, first, false)?.as_slice())?;
//!     let mut file = Vec::from_slice(alloc, want.as_slice())?;
//!     file.extend_from_slice(record_at(alloc, &head, second, true)?.as_slice())?;
//!     file.extend_from_slice(record_at(alloc, &head, third, false)?.as_slice())?;
//!     want.extend_from_slice(record_at(alloc, &head, third, true)?.as_slice())?;
//!     let Ok(table) = check_text(file.as_slice()) else {
//!         return Ok(false);
//!     };
//!     let part = Part {
//!         from: None,
//!         until: None,
//!         every: Some(30),
//!     };
//!     let mut out = MemSink::new(alloc, 65_536, 4_096)?;
//!     let is_cut = cut(alloc, &table, part, &mut out).is_ok();
//!     Ok(is_cut && out.bytes() == want.as_slice())
//! }
//! ```

#![tactic(auto)]

mod counts;
mod epoch_file;
mod extent;
mod fault;
mod gps_file;
mod kept_file;
mod kept_head;
mod kept_laws;
mod laws;
mod mixed_file;
mod part;
mod part_file;
mod part_records;
mod part_writer;
mod slips;

pub use counts::CutCounts;
pub use extent::{Extent, extent_of_mixed_part, extent_of_part};
pub use fault::CutFault;
pub use kept_file::keep_systems;
pub use kept_head::first_absent;
pub use kept_laws::{kept_files_are_tables, kept_rows_stay};
pub use laws::{
    epochs_are_of_files, others_stay, own_step_gives_file, parts_are_tables, parts_are_written,
    records_are_asked_for, records_are_own, slips_are_found, slips_are_kept, spans_join,
};
pub use part::{GREATEST_STEP_S, Part};
pub use part_file::{cut, cut_mixed};
