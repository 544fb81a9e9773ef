//! The fields of a header that no message of the stream tells, and the lines that follow from its records: an
//! observation file with them, and without them again.
//!
//! ```rust
//! use rtk_frame::MemSink;
//! use rtk_label::{Label, LabelParts, is_for, unlabel, write_labelled};
//! use rtk_obs::{Code, GpsMs, Position};
//! use rtk_rinex::{EpochTable, Head, Observed, check_text, header, record};
//! use std::alloc::{AllocError, Global};
//!
//! // A file of one record with an agency is no file of `check`, until the label is taken from it.
//! fn example(alloc: Global) -> Result<bool, AllocError> {
//!     let Some(noon) = GpsMs::new(1_399_982_400_000) else {
//!         return Ok(false);
//!     };
//!     let Ok(head) = Head::new(b"BASE", &[Code::G1C], noon) else {
//!         return Ok(false);
//!     };
//!     let Some(position) = Position::new(0, 0, 0, 0) else {
//!         return Ok(false);
//!     };
//!     let range = Observed {
//!         range_mm: Some(21_085_472_060),
//!         ..Observed::default()
//!     };
//!     let mut epoch = EpochTable::new(noon);
//!     epoch.push_row(5, &[range]);
//!     let mut file = header(alloc, &head, &position, noon)?;
//!     file.extend_from_slice(record(alloc, &head, &epoch)?.as_slice())?;
//!     let Ok(table) = check_text(file.as_slice()) else {
//!         return Ok(false);
//!     };
//!     let parts = LabelParts {
//!         agency: b"NONE",
//!         ..LabelParts::blank()
//!     };
//!     let Ok(label) = Label::new(&parts) else {
//!         return Ok(false);
//!     };
//!     let mut out = MemSink::new(alloc, 65_536, 4_096)?;
//!     if !is_for(&label, &table) || write_labelled(&label, &table, &mut out).is_err() {
//!         return Ok(false);
//!     }
//!     let is_refused = check_text(out.bytes()).is_err();
//!     let mut text = Vec::new(alloc);
//!     text.extend_from_slice(out.bytes())?;
//!     let unlabelled = unlabel(text.as_mut_slice());
//!     Ok(is_refused && text.as_slice().split_at(unlabelled.from).1 == file.as_slice())
//! }
//! ```
#![tactic(auto)]

mod columns;
mod fields;
mod filling;
mod front;
mod label;
mod label_fault;
mod labelled_file;
mod laws;
mod time_lines;
mod unlabelled;

pub use columns::{FRONT, PLAIN_FRONT};
pub use filling::Filling;
pub use label::{Label, LabelParts};
pub use label_fault::LabelFault;
pub use labelled_file::{
    is_for, is_for_mixed, write_front, write_front_mixed, write_labelled, write_labelled_mixed,
};
pub use laws::{
    blank_is_file, files_are_long, front_is_changed, labels_are_told, mixed_label_laws,
    records_stay,
};
pub use time_lines::TimeLines;
pub use unlabelled::{Unlabelled, unlabel};
