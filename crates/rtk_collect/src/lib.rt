//! A window over the epochs of a station's messages, which come repeated, out of order and over
//! several links.
//!
//! A `Collector` takes messages, and gives each epoch with its cells in one list. A `Gatherer` makes
//! the same promises, proved by the same definitions, to a caller who offers many: it borrows messages,
//! and keeps the cells of 1004 and of MSMs apart. A `Gatherer<SignalEntry>` does so for the cells of all
//! systems, by `offer_signals`.
//!
//! ```rust
//! use rtk_collect::{Collector, Dated, Offer};
//! use rtk_message::{Layout, Message, Obs1004, Satellite};
//! use rtk_obs::GpsMs;
//! use std::alloc::{AllocError, Global};
//!
//! // A 1004 of 12:00:00 with these satellites, each of this strength on L1 (DF015).
//! fn observed(satellites: &[u8], l1_cnr: u8) -> Message {
//!     let mut message = Obs1004::empty();
//!     message.tow = 475_200_000;
//!     for satellite in satellites {
//!         message.satellites.push(Satellite {
//!             satellite: *satellite,
//!             l1_cnr,
//!             ..Satellite::default()
//!         });
//!     }
//!     Message::Obs1004(message)
//! }
//!
//! // Two links carry one epoch in two messages. The second link repeats the first message. The second
//! // message has another strength of satellite 5, which conflicts, and satellite 7, which is new.
//! fn example(alloc: Global) -> Result<bool, AllocError> {
//!     let noon = GpsMs::new(1_399_982_400_000);
//!     let mut collector = Collector::new(alloc, 64);
//!     let first = collector.offer(Dated::new(observed(&[5], 180), noon))?;
//!     let again = collector.offer(Dated::new(observed(&[5], 180), noon))?;
//!     let other = collector.offer(Dated::new(observed(&[5, 7], 181), noon))?;
//!     let (Offer::Taken { .. }, Offer::Repeat) = (first, again) else {
//!         return Ok(false);
//!     };
//!     let Offer::Taken { conflicts, .. } = other else {
//!         return Ok(false);
//!     };
//!     // The first strength of satellite 5 stays. Each satellite has a cell on L1 and one on L2.
//!     let Some(set) = collector.close().next_left() else {
//!         return Ok(false);
//!     };
//!     let strengths = [set.cells[0], set.cells[2]].map(|entry| entry.cell.strength_millidbhz);
//!     let conflicting = conflicts.as_slice()[0].satellite;
//!     Ok(conflicting == 5 && strengths == [Some(45_000), Some(45_250)])
//! }
//! ```
//!
//! Its tests: tests/values/src/collect.rt.in and collect/
#![tactic(auto)]

mod collector;
mod conflicts;
mod dated;
mod dated_ref;
mod entry;
mod epoch_set;
mod epochs;
mod first;
mod gathered_set;
mod gatherer;
mod laws;
mod left;
mod legacy_list;
mod merging;
mod offer;
mod outcome;
mod signal_laws;
mod signals;
mod stations;
mod window;

pub use collector::Collector;
pub use conflicts::{AnySatelliteCode, Conflicts, SatelliteCode};
pub use dated::Dated;
pub use dated_ref::DatedRef;
pub use entry::Entry;
pub use epoch_set::EpochSet;
pub use gathered_set::GatheredSet;
pub use gatherer::Gatherer;
pub use laws::{
    cells_join_epochs, closed_epochs_are_the_rest, closed_epochs_only_grow, collector_laws,
    epochs_are_bounded, equality_decides, first_is_kept, first_is_preferred,
    kept_epochs_are_ordered, kept_epochs_of_arrivals, late_arrivals_change_nothing,
    openings_do_not_conflict, satellite_code_laws, set_decides, stations_are_final,
};
pub use left::{GatheredSets, KeptSet, Left, LeftSets};
pub use offer::Offer;
pub use outcome::Outcome;
pub use signal_laws::signal_window_laws;
