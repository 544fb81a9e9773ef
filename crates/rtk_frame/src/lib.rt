//! Bytes of a link: sources and sinks, frames of RTCM 3 and their checksum, and a scanner.
//!
//! Its tests: tests/values/src/frame.rt.in and frame/
//!
//! ```rust
//! use rtk_frame::{Answer, FrameFault, Scanner, encode_frame};
//! use std::alloc::Global;
//!
//! // A frame that comes in two pieces, and is found in the second one.
//! fn example(alloc: Global) -> Result<bool, FrameFault> {
//!     let frame = encode_frame(alloc, &[0x3E, 0xD0])?;
//!     let (first, second) = frame.as_slice().split_at(4);
//!     let mut scanner = Scanner::new(alloc)?;
//!     scanner.feed(first);
//!     match scanner.feed(second).answer {
//!         Answer::Found(payload) => Ok(payload == [0x3E, 0xD0].as_slice()),
//!         Answer::Hungry => Ok(false),
//!     }
//! }
//! ```

#![tactic(auto)]

mod checksum;
mod checksum_far_tables;
mod checksum_powers;
mod checksum_tables;
mod frame;
pub mod laws;
mod lending;
mod memory;
mod prefixes;
mod scanner;
mod search;
mod stream;

pub use checksum::crc24q;
pub use frame::{FrameFault, LONGEST_FRAME, encode_frame};
pub use memory::{After, MemSink, MemSource};
pub use scanner::{Answer, Fed, Scanner};
pub use search::{Frames, Placed, next_frame};
pub use stream::{Sink, Source, StreamFault, read_one, write_all};
