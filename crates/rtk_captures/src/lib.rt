//! What captures tell of a station and when they are, by their surveys: which station has observations, by what message
//! and near which moment its epochs are dated, the links that captures make which follow one another, and why captures
//! can't be dated or joined.
//!
//! Nothing here asks what systems a station sends: rtk_systems does, and rtk_plan makes a conversion of both.
//!
//! ```rust
//! use rtk_captures::{in_order, links_of};
//! use rtk_survey::Placed;
//! use std::alloc::{AllocError, Global};
//!
//! // Captures of half an hour, of the whole hour, and of its second half. The last one begins where the first one has ended,
//! // so both are of one link.
//! fn example(alloc: Global) -> Result<bool, AllocError> {
//!     let captures = [
//!         Some(Placed {
//!             first: 0,
//!             from: 0,
//!             until: 1_799_000,
//!         }),
//!         Some(Placed {
//!             first: 0,
//!             from: 0,
//!             until: 3_599_000,
//!         }),
//!         Some(Placed {
//!             first: 1_800_000,
//!             from: 1_800_000,
//!             until: 3_599_000,
//!         }),
//!     ];
//!     let ordered = in_order(alloc, &captures)?;
//!     let links = links_of(alloc, ordered.as_slice())?;
//!     Ok(links.as_slice() == [0, 1, 0].as_slice())
//! }
//! ```
//!
//! Its tests: tests/values/src/plan.rt.in, tests/program/auto.sh and tests/model
#![tactic(auto)]

mod capture_equipment;
mod captures;
mod chosen_station;
mod dating;
mod far_dates;
mod joining;
mod kept;
mod laws;
mod linking;
mod lists;
mod other_positions;
mod position_lines;
mod positions;
mod reach;
mod refusal;
mod span_line;
mod station_capture;
mod stray;
mod times;
mod waiting_dates;

pub use capture_equipment::equipment_in_captures;
pub use captures::{Captures, StationCaptures};
pub use chosen_station::{OnlyStation, is_observed, only_station};
pub use dating::{Dating, are_out_of_reach, date_captures};
pub use far_dates::put_far_date;
pub use joining::{Ordered, in_order, links_of};
pub use kept::empty_captures;
pub use laws::dates_count_or_are_told;
pub use linking::{limit_links, links_as_given, links_found};
pub use lists::{
    put_capture_line, put_date_line, put_name_line, put_parting, put_stray_line, put_to_come_line,
    put_undated_line,
};
pub use other_positions::put_other_positions;
pub use positions::{agree_on_position, put_no_position};
pub use reach::{Base, is_out_of_reach, least_told, near_of, place_captures, reach_of, reach_with};
pub use refusal::{PlanFault, Refusal, refused};
pub use span_line::{DateSource, DatedSpan, put_span};
pub use station_capture::{
    StationCapture, capture_of, captures_of, is_station, others_passed_over, span_in,
    system_weeks_passed_over, to_come_told, weeks_passed_over,
};
pub use times::put_time;
pub use waiting_dates::dates_without_epoch;
