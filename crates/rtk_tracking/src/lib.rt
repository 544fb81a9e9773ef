//! How the satellites of a file were tracked: the interval of its epochs, those that are missing, and the
//! passes and outages of its satellites.
//!
//! Its tests: tests/values/src/tracking.rt.in.
//!
//! ```rust
//! use rtk_tracking::{missing_between, nearness_ms};
//! use std::alloc::{AllocError, Global};
//!
//! // A step of a minute and 1 ms misses one epoch, at an interval of 30 s. A record counts as being at a
//! // moment that is 25 ms away.
//! fn example(_alloc: Global) -> Result<bool, AllocError> {
//!     Ok(missing_between(30_000, 0, 60_001) == 1 && nearness_ms(Some(30_000)) == 25)
//! }
//! ```

#![tactic(auto)]

mod extremes;
mod intervals;
mod laws;
mod observations;
mod passes;
mod steps;
mod system_codes;

pub use extremes::{greater, lesser};
pub use intervals::{interval, missing_between, mixed_interval, nearness_ms};
pub use laws::{absences_stay, bits_are_of_three_kinds, interval_is_most_frequent};
pub use observations::{observed_in, shows_phase};
pub use passes::{Known, Pass};
pub use steps::StepCounts;
pub use system_codes::codes_of_system;
