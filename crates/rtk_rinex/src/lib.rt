//! RINEX 3.05 observation files, of GPS and of any systems: the header and the records, as text, and read
//! from it.
//!
//! ```rust
//! use rtk_obs::{Code, GpsMs, Position};
//! use rtk_rinex::{EpochTable, Head, Observed, check, check_text, header, record, text};
//! use std::alloc::{AllocError, Global};
//!
//! // A header and a record are the text of a table. `check_text` finds the table in its text, and its
//! // records are read one by one. `check` keeps the text, which `text` gives back.
//! fn example(alloc: Global) -> Result<bool, AllocError> {
//!     let Some(noon) = GpsMs::new(1_399_982_400_000) else {
//!         return Ok(false);
//!     };
//!     let Ok(head) = Head::new(b"BASE", &[Code::G1C], noon) else {
//!         return Ok(false);
//!     };
//!     let Some(position) = Position::new(0, 0, 0, 0) else {
//!         return Ok(false);
//!     };
//!     let range = Observed {
//!         range_mm: Some(21_085_472_060),
//!         ..Observed::default()
//!     };
//!     let mut epoch = EpochTable::new(noon);
//!     epoch.push_row(5, &[range]);
//!     let mut file = header(alloc, &head, &position, noon)?;
//!     file.extend_from_slice(record(alloc, &head, &epoch)?.as_slice())?;
//!     let Ok(found) = check_text(file.as_slice()) else {
//!         return Ok(false);
//!     };
//!     let mut records = found.records();
//!     let is_one = records.next(&mut epoch).is_some() && records.next(&mut epoch).is_none();
//!     let Ok(kept) = check(alloc, file.as_slice()) else {
//!         return Ok(false);
//!     };
//!     let again = text(alloc, &kept)?;
//!     Ok(is_one && kept.epochs() == 1 && again.as_slice() == file.as_slice())
//! }
//! ```
//!
//! Its tests: tests/values/src/rinex.rt.in and rinex/
#![tactic(auto)]

mod check_fault;
mod columns;
mod creation_time;
mod digits;
mod epoch_line_check;
mod epoch_table;
mod field;
mod glonass_head;
mod head;
mod head_fault;
mod header_check;
mod header_text;
mod laws;
mod marker_name;
mod mixed_form;
mod mixed_head;
mod mixed_head_fault;
mod mixed_header_check;
mod mixed_header_text;
mod mixed_record_lines;
mod mixed_records;
mod mixed_records_check;
mod mixed_satellite_line_check;
mod mixed_slots_read;
mod mixed_table_check;
mod mixed_types_read;
mod owned_table;
mod record_lines;
mod record_text;
mod records;
mod records_check;
mod satellite_line_check;
mod satellite_line_read;
mod system_flags;
mod table_check;
mod value_check;
mod value_read;

pub use check_fault::{Cause, CheckFault};
pub use creation_time::CreationTime;
pub use epoch_table::{EpochTable, Observed, SatelliteRow};
pub use field::is_field;
pub use glonass_head::Glonass;
pub use head::{Head, is_code_list};
pub use head_fault::HeadFault;
pub use header_text::header;
pub use laws::{
    fault_laws, files_are_tables, gps_files_stay, mixed_files_are_tables, one_fault,
    one_mixed_fault, records_are_of_tables, text_of_a_mixed_table, text_of_a_table,
    types_tell_shifts,
};
pub use marker_name::Marker;
pub use mixed_head::{MixedHead, is_mixed_list};
pub use mixed_head_fault::MixedHeadFault;
pub use mixed_header_check::{MixedHeading, check_mixed_header};
pub use mixed_header_text::mixed_header;
pub use mixed_record_lines::MixedRecordLines;
pub use mixed_records::{MixedRecords, MixedRows};
pub use mixed_table_check::{MixedTextTable, check_mixed_text};
pub use owned_table::{Table, check, text};
pub use record_lines::{RecordLines, record};
pub use records::Records;
pub use system_flags::SystemFlags;
pub use table_check::{Heading, TextTable, check_text};
