//! What a conversion is set up with, and what it counts.
//!
//! ```rust
//! use rtk_obs::{Code, GpsMs};
//! use rtk_rinex::Head;
//! use rtk_setup::{Setup, SetupFault};
//! use std::alloc::Global;
//!
//! // A window of one epoch is no window.
//! fn example(_alloc: Global) -> Result<bool, SetupFault> {
//!     let Some(noon) = GpsMs::new(1_399_982_400_000) else {
//!         return Ok(false);
//!     };
//!     let Ok(head) = Head::new(b"BASE", &[Code::G1C, Code::G2W], noon) else {
//!         return Ok(false);
//!     };
//!     Ok(Setup::new(2003, noon, head, 1).is_err())
//! }
//! ```
//!
//! Its tests: tests/values/src/convert.rt.in and convert/
#![tactic(auto)]

mod counts;
mod leap_seconds;
mod links;
mod rates;
mod reference;
mod setup;
mod setup_fault;
mod station;
mod system_kinds;
mod window;

pub use counts::Counts;
pub use leap_seconds::{GREATEST_LEAP_SECONDS, LeapSeconds};
pub use links::MOST_LINKS;
pub use rates::without_rates;
pub use reference::Reference;
pub use setup::Setup;
pub use setup_fault::SetupFault;
pub use station::{GREATEST_STATION, Station};
pub use system_kinds::SystemKinds;
pub use window::{LEAST_WINDOW, MOST_WINDOW, Window};
