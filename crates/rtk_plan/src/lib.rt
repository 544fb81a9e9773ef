//! What a conversion of captures is told, by their surveys and by what words say; and what a person is
//! told of it.
//!
//! [`plan_of`] is a function of surveys and words: it answers a plan, or a refusal with its cause.
//! specs/Plan.antt defines what a plan has, and specs/Causes.antt when each refusal comes.
//!
//! ```rust
//! use rtk_setup::{Reference, Window};
//! use rtk_frame::{After, MemSource};
//! use rtk_obs::GpsMs;
//! use rtk_captures::Captures;
//! use rtk_plan::{Wanted, plan_of};
//! use rtk_rinex::{CreationTime, SystemFlags};
//! use rtk_survey::{CaptureSurvey, DatingSystems, Target, survey_capture};
//! use std::alloc::{AllocError, Global};
//!
//! // Frames with a 1004 of station 2003: of 2024-05-17 12:00:00, and of two seconds later.
//! const FIRST: &[u8] = b"\xD3\x00\x18\x3E\xC7\xD3\x71\x4B\xE8\x00\x10\x14\x98\x96\x80\
//!     \x00\x00\x01\x51\xAD\x30\x19\x00\x00\x00\x2C\x60\xD0\xFE\x53";
//! const LATER: &[u8] = b"\xD3\x00\x18\x3E\xC7\xD3\x71\x4C\x07\x40\x10\x14\x98\x96\x80\
//!     \x00\x00\x01\x51\xAD\x30\x19\x00\x00\x00\x2C\x60\x07\xE1\xA3";
//!
//! fn survey_of(alloc: Global, bytes: &[u8], present: GpsMs) -> Option<CaptureSurvey> {
//!     let target = Target {
//!         station: None,
//!         systems: DatingSystems::all(),
//!         present,
//!     };
//!     let mut capture = MemSource::new(alloc, bytes, 512, After::End).ok()?;
//!     survey_capture(alloc, &mut capture, Some(target), 100).ok()
//! }
//!
//! // The later capture is given first. It follows the other one, so one link has both, in their order.
//! fn example(alloc: Global) -> Result<bool, AllocError> {
//!     let Some(noon) = GpsMs::new(1_399_982_400_000) else {
//!         return Ok(false);
//!     };
//!     let (Ok(near), Ok(made)) = (Reference::new(noon), CreationTime::new(noon)) else {
//!         return Ok(false);
//!     };
//!     let Ok(window) = Window::new(64) else {
//!         return Ok(false);
//!     };
//!     let (Some(later), Some(first)) = (survey_of(alloc, LATER, noon), survey_of(alloc, FIRST, noon))
//!     else {
//!         return Ok(false);
//!     };
//!     let captures = Captures {
//!         surveys: &[later, first],
//!         names: &["later.rtcm", "first.rtcm"],
//!     };
//!     let wanted = Wanted {
//!         station: None,
//!         msm: None,
//!         codes: None,
//!         systems: SystemFlags::ALL,
//!         channels: None,
//!         leap_seconds: None,
//!         near: Some(near),
//!         doppler: false,
//!         marker: None,
//!         window,
//!     };
//!     let Ok(plan) = plan_of(alloc, &captures, &wanted, made, false, false) else {
//!         return Ok(false);
//!     };
//!     let links = plan.links.as_slice();
//!     Ok(plan.setup.station() == 2003 && links.len() == 1 && links[0].as_slice() == [1, 0].as_slice())
//! }
//! ```
//!
//! Its tests: tests/values/src/plan.rt.in, tests/program/auto.sh and tests/model
#![tactic(auto)]

mod capture_lines;
mod clock_dating;
mod clock_notes;
mod clock_reach;
mod count_lines;
mod dating_systems;
mod few_phases;
mod known_lines;
mod label_command;
mod laws;
mod leap_lines;
mod left_out;
mod link_places;
mod near_1012;
mod other_equipment;
mod phase_lines;
mod planning;
mod reported;
mod said_command;
mod satellite_marks;
mod setup_seconds;
mod station_setup;
mod texts_left_out;
mod told_label;
mod wanted;
mod written_file;

pub use count_lines::put_counts;
pub use dating_systems::dating_wanted;
pub use known_lines::{Known, put_file, put_known, what_is_known};
pub use label_command::put_label_command;
pub use laws::{captures_are_taken_or_told, surveys_decide_plan};
pub use planning::{Plan, plan_of};
pub use reported::Reported;
pub use said_command::put_command;
pub use told_label::label_wanted;
pub use wanted::{Wanted, Ways};
pub use written_file::{Step, TakesText, WrittenFile};
