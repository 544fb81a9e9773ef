//! Messages of a base station, by their tables of fields: 1004, 1005, 1006, 1012, and the multiple signal
//! messages MSM4 to MSM7 of GPS, GLONASS, Galileo, BeiDou, QZSS, SBAS and NavIC. Source: RTCM 10403.3.
//!
//! `Message`, `decode` and `encode` are for 1004, 1005, 1006 and 1074. `AnyMessage`, `decode_any` and
//! `encode_any` are for these, for 1012 and for the other MSM: a set, `Accepted`, says which are read.
//!
//! Its tests: tests/values/src/message.rt.in and message/
//!
//! ```rust
//! use rtk_message::{Accepted, AnyMessage, MsmKind, MsmType, System, decode_any, encode_any};
//! use std::alloc::{AllocError, Global};
//!
//! // The payload of a 1097 of station 1: satellite 11 with signal 20.
//! const PAYLOAD: [u8; 36] = [
//!     0x44, 0x90, 0x01, 0x71, 0x4B, 0xE8, 0x00, 0x00, 0x00, 0x00, 0x10, 0x00, 0x00, 0x00, 0x00, 0x00,
//!     0x00, 0x00, 0x00, 0x08, 0x00, 0x54, 0xC3, 0x09, 0xFB, 0x50, 0x2B, 0xF2, 0x7F, 0x1A, 0xEE, 0x52,
//!     0xC5, 0xA4, 0x01, 0x90,
//! ];
//!
//! // Galileo's MSM7 is read, and written again. The clock is the time of week in ms.
//! fn example(alloc: Global) -> Result<bool, AllocError> {
//!     let galileo = MsmType {
//!         system: System::Galileo,
//!         kind: MsmKind::Msm7,
//!     };
//!     let accepted = Accepted::NO_MSM.with(galileo);
//!     let Ok(AnyMessage::Msm(message)) = decode_any(accepted, &PAYLOAD) else {
//!         return Ok(false);
//!     };
//!     let is_read = message.msm_type().number() == 1097 && message.header.tow == 475_200_000;
//!     let payload = encode_any(alloc, &AnyMessage::Msm(message))?;
//!     Ok(is_read && payload.as_slice() == PAYLOAD.as_slice())
//! }
//! ```

#![tactic(auto)]

mod accepted;
mod any_decoder;
mod any_fault;
mod any_message;
mod arp1005;
mod arp1006;
mod column;
mod decoding;
mod encoding;
mod fault;
mod field;
mod laws;
mod layout;
mod message;
mod msm;
mod msm1074;
mod msm_kind;
mod msm_type;
mod obs1004;
mod obs1012;
mod satellite_list;
mod system;
mod text;

pub use accepted::{Accepted, MsmKinds};
pub use any_decoder::{AnyDecoder, decode_any};
pub use any_fault::AnyFault;
pub use any_message::AnyMessage;
pub use arp1005::Arp1005;
pub use arp1006::Arp1006;
pub use column::Column;
pub use decoding::decode;
pub use encoding::{decode_any_of_encode_any, decode_of_encode, encode, encode_any};
pub use fault::DecodeFault;
pub use field::WEEK_MS;
pub use laws::{
    clocks_of_gps_lie_in_a_week, decodes_by_four, equal_1004, equal_1012, equal_1074,
    equal_any_faults, equal_any_messages, equal_faults, equal_messages, equal_msm, form_of_1074,
    named_sets, numbers_end, numbers_of_types, parts_of_fields_fit, sets_of_types,
};
pub use layout::Layout;
pub use message::Message;
pub use msm::Msm;
pub use msm_kind::MsmKind;
pub use msm_type::MsmType;
pub use msm1074::{Msm1074, MsmHeader};
pub use obs1004::{Obs1004, Satellite, Satellites};
pub use obs1012::{GlonassSatellite, Obs1012};
pub use satellite_list::SatelliteList;
pub use system::System;
pub use text::{put_any_fault, put_fault, put_named, put_number, put_sh_quoted};
