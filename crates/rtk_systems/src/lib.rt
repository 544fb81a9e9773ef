//! What a station sends, by the surveys of its captures: of each system the MSM that has most epochs, the codes that
//! have a value, how far its clock is from that of GPS, and the frequency channels of GLONASS; and the lines that tell of
//! them.
//!
//! Nothing here asks when captures are: rtk_captures does, and rtk_plan makes a conversion of both.
//!
//! ```rust
//! use rtk_frame::{After, MemSource};
//! use rtk_message::MsmKind;
//! use rtk_obs::AnyCode;
//! use rtk_rinex::SystemFlags;
//! use rtk_setup::SystemKinds;
//! use rtk_survey::survey_capture;
//! use rtk_systems::{TakenMessages, codes_in_captures};
//! use std::alloc::{AllocError, Global};
//!
//! // A frame with a 1004 of station 2003, with values of one satellite in the codes 1C and 2W.
//! const CAPTURE: &[u8] = b"\xD3\x00\x18\x3E\xC7\xD3\x71\x4B\xE8\x00\x10\x14\x98\x96\x80\
//!     \x00\x00\x01\x51\xAD\x30\x19\x00\x00\x00\x2C\x60\xD0\xFE\x53";
//!
//! fn example(alloc: Global) -> Result<bool, AllocError> {
//!     let mut capture = MemSource::new(alloc, CAPTURE, 512, After::End)?;
//!     let Ok(survey) = survey_capture(alloc, &mut capture, None, 100) else {
//!         return Ok(false);
//!     };
//!     let taken = TakenMessages {
//!         kinds: SystemKinds::all(MsmKind::Msm4),
//!         obs1012: false,
//!     };
//!     let codes = codes_in_captures(alloc, &[survey], 2003, SystemFlags::ALL, taken)?;
//!     Ok(codes.as_slice() == [AnyCode::G1C, AnyCode::G2W].as_slice())
//! }
//! ```
//!
//! Its tests: tests/values/src/plan/systems.rt.in, tests/program/systems.sh and tests/model
#![tactic(auto)]

mod alike_channels;
mod channel_words;
mod clock_lines;
mod clock_offsets;
mod clock_seconds;
mod doppler_lines;
mod found_seconds;
mod held_messages;
mod message_lines;
mod nameless_lines;
mod other_channels;
mod several_channels;
mod slot_channels;
mod system_flags;
mod system_msms;
mod told_channels;
mod unchecked_systems;
mod values;

pub use channel_words::put_glonass_words;
pub use clock_lines::{list_without_code, put_told_clocks};
pub use clock_offsets::systems_with_clocks;
pub use clock_seconds::ClockSeconds;
pub use doppler_lines::put_doppler;
pub use found_seconds::{leap_in_capture, seconds_in_captures};
pub use message_lines::{list_held, put_msms, put_obs_1004, put_sbas, put_unread};
pub use nameless_lines::put_nameless;
pub use slot_channels::{channels_found, channels_joined, own_channels};
pub use system_flags::flags_listed;
pub use system_msms::{kinds_listed, put_kinds_words};
pub use told_channels::put_channel_lines;
pub use unchecked_systems::put_unchecked;
pub use values::{
    TakenMessages, codes_in_captures, epochs_1012_in, is_1012_given, is_gps_system, kinds_in_links,
};
