//! Observations: GPS time, exact values of the cells of a message, loss of lock and rolls.
//!
//! ```rust
//! use rtk_message::{Message, decode};
//! use rtk_obs::{Code, GpsMs, cells_1004, civil, date};
//! use std::alloc::{AllocError, Global};
//!
//! // The payload of a 1004 with one satellite, 5.
//! const PAYLOAD: [u8; 24] = [
//!     0x3E, 0xC7, 0xD3, 0x71, 0x4B, 0xE8, 0x00, 0x10, 0x14, 0x98, 0x96, 0x80, 0x00, 0x00, 0x01,
//!     0x51, 0xAD, 0x30, 0x19, 0x00, 0x00, 0x00, 0x2C, 0x60,
//! ];
//!
//! // Near 2024-05-17 00:00:00 its time of week is noon of that Friday. Its pseudorange of L1 is
//! // 21,085,472.060 m.
//! fn example(_alloc: Global) -> Result<bool, AllocError> {
//!     let Some(near) = GpsMs::new(1_399_939_200_000) else {
//!         return Ok(false);
//!     };
//!     let Ok(Message::Obs1004(message)) = decode(&PAYLOAD) else {
//!         return Ok(false);
//!     };
//!     let noon = civil(date(near, message.tow));
//!     let cells = cells_1004(&message);
//!     let has_range = cells.as_slice().iter().any(|entry| {
//!         entry.satellite == 5
//!             && entry.code == Code::G1C
//!             && entry.cell.range_mm == Some(21_085_472_060)
//!     });
//!     Ok(noon.day == 17 && noon.hour == 12 && has_range)
//! }
//! ```
//!
//! Its tests: tests/values/src/obs.rt.in and obs/
#![tactic(auto)]

mod any_code;
mod calendar;
mod carrier;
mod cell;
mod cells_left;
mod civil_text;
mod clocks;
mod code;
mod dating;
mod doppler;
mod doppler_cells;
mod glonass_cells;
mod glonass_time;
mod laws;
mod leap_seconds;
mod legacy_cells;
mod lock_time;
mod mask;
mod message_cells;
mod msm1074_cells;
mod msm_cells;
mod msm_rows;
mod msm_values;
mod position;
mod rollover;
mod rounding;
mod satellite_index;
mod sbas_cells;
mod scaling;
mod seen;
mod signal_cells;
mod signal_rows;
mod signals;
mod slip;
mod time;
mod track;
mod tracks;

pub use any_code::{ALL_ANY_CODES, AnyCode, signal_place};
pub use calendar::{civil, of_civil};
pub use carrier::{Carrier, Channel, Channels};
pub use cell::{Cell, CellEntry, CellSource};
pub use cells_left::{put_cells_left, rising_satellites};
pub use civil_text::{put_civil, put_clock, put_date, three_digits, two_digits};
pub use clocks::date_clock;
pub use code::{ALL_CODES, Band, Code};
pub use dating::{HALF_WEEK_MS, WEEK_MS, date};
pub use doppler_cells::put_doppler_entries;
pub use glonass_cells::{entries_1012, put_entries_1012};
pub use glonass_time::GlonassTime;
pub use laws::{
    any_code_laws, cell_laws, cells_are_distinct, cells_are_in_range, civil_laws, clock_laws,
    code_laws, date_in_day_is_unique, date_is_unique, doppler_laws, entry_laws, leap_laws,
    moment_laws, normal_field_laws, one_reading, places_are_distinct, position_laws,
    rounded_is_unique, satellite_laws, sbas_laws, signal_laws, track_laws, tracks_laws,
};
pub use leap_seconds::leap_seconds_at;
pub use legacy_cells::{cells_1004, put_cells_1004};
pub use lock_time::{least_lock_extended, least_lock_legacy, least_lock_msm};
pub use message_cells::put_cells_of;
pub use msm_cells::{cells_msm, put_cells_msm};
pub use msm1074_cells::{cells_1074, put_cells_1074};
pub use position::Position;
pub use rollover::rolled;
pub use rounding::round_div;
pub use satellite_index::{
    SatelliteIndex, letter_of, satellite_in, satellite_name, satellite_named, system_of_letter,
};
pub use sbas_cells::{put_entries_with_sbas, put_signals_1004};
pub use signal_cells::{
    SignalEntry, put_entries_of, put_signal_entries, put_signals, signal_entries,
};
pub use signals::code_of_signal;
pub use time::{Civil, GpsMs, LAST_MS};
pub use track::{Digits, Track};
pub use tracks::{SIGNALS, Tracks, place_of_signal};
