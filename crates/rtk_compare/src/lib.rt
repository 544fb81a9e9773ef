//! What a new file of a station lacks of an old one, or has otherwise, and what of this more messages alone
//! explain.
//!
//! ```rust
//! use rtk_compare::{Findings, Form, answer_text, compare};
//! use rtk_obs::{Code, GpsMs, Position};
//! use rtk_rinex::{EpochTable, Head, Observed, check_mixed_text, header, record};
//! use std::alloc::{AllocError, Global};
//!
//! const NOON: u64 = 1_399_982_400_000;
//!
//! // The record of satellite 5 at a moment.
//! fn record_at(alloc: Global, head: &Head, time: GpsMs) -> Result<Vec<u8>, AllocError> {
//!     let range = Observed {
//!         range_mm: Some(21_085_472_060),
//!         ..Observed::default()
//!     };
//!     let mut epoch = EpochTable::new(time);
//!     epoch.push_row(5, &[range]);
//!     record(alloc, head, &epoch)
//! }
//!
//! // The new file lacks the second record of the old one.
//! fn example(alloc: Global) -> Result<bool, AllocError> {
//!     let (Some(first), Some(second)) = (GpsMs::new(NOON), GpsMs::new(NOON + 1_000)) else {
//!         return Ok(false);
//!     };
//!     let Ok(head) = Head::new(b"BASE", &[Code::G1C], first) else {
//!         return Ok(false);
//!     };
//!     let Some(position) = Position::new(0, 0, 0, 0) else {
//!         return Ok(false);
//!     };
//!     let mut new = header(alloc, &head, &position, first)?;
//!     new.extend_from_slice(record_at(alloc, &head, first)?.as_slice())?;
//!     let mut old = Vec::from_slice(alloc, new.as_slice())?;
//!     old.extend_from_slice(record_at(alloc, &head, second)?.as_slice())?;
//!     let Ok(old_table) = check_mixed_text(old.as_slice()) else {
//!         return Ok(false);
//!     };
//!     let Ok(new_table) = check_mixed_text(new.as_slice()) else {
//!         return Ok(false);
//!     };
//!     let mut findings = Findings::none();
//!     compare(alloc, &old_table, &new_table, &mut findings)?;
//!     let text = answer_text(alloc, Form::Lines, &findings)?;
//!     let want = b"lost 1 changed 0 explained 0\nlost epoch 2024-05-17 12:00:01.000\n";
//!     Ok(findings.is_worse() && text.as_slice() == want.as_slice())
//! }
//! ```
//!
//! Its tests: tests/model/comparing.py, and tests/program/compare.sh
#![tactic(auto)]

mod answer;
mod cells;
mod comparing;
mod difference;
mod distances;
mod findings;
mod form;
mod headers;
mod labels;
mod record_reader;
mod records;
mod row_reader;
mod rows;
mod shared_codes;
mod side;
mod track;

pub use answer::answer_text;
pub use comparing::compare;
pub use difference::{Class, Difference, Place, What};
pub use findings::{Findings, Found};
pub use form::Form;
pub use labels::compare_labels;
