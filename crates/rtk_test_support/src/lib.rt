//! What tests are written with: comparisons whose failure ends a test, moments, an example file.
#![tactic(auto)]

mod comparing;
mod example;
mod moments;

pub use comparing::{consists_of, holds, holds_of, same, same_of};
pub use example::{EPOCH_LINE, HEADER, SATELLITE_LINE};
pub use moments::{MADE, NOON, moment};
