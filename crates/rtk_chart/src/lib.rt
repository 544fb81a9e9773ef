//! A picture of an observation file: its satellites in bands along its time, with each slip, return,
//! rise, half cycle, outage, missing code and missing epoch. Its time is divided into bins, and each bin is drawn as a
//! column.
//!
//! Its tests: tests/values/src/chart.rt.in and chart/.
//!
//! ```rust
//! use rtk_chart::chart_text;
//! use rtk_obs::{Code, GpsMs, Position};
//! use rtk_rinex::{EpochTable, Head, Observed, check_text, header, record};
//! use std::alloc::{AllocError, Global};
//! use std::str;
//!
//! // Satellite 5 in three seconds, with a slip in the second one. A column is a second long, and shows a
//! // slip or else the strength: 7 is 42 to 47 dB-Hz.
//! fn example(alloc: Global) -> Result<bool, AllocError> {
//!     let (Some(noon), Some(position)) = (GpsMs::new(1_399_982_400_000), Position::new(0, 0, 0, 0))
//!     else {
//!         return Ok(false);
//!     };
//!     let Ok(head) = Head::new(b"BASE", &[Code::G1C], noon) else {
//!         return Ok(false);
//!     };
//!     let mut file = header(alloc, &head, &position, noon)?;
//!     for second in 0..3 {
//!         let Some(time) = GpsMs::new(noon.ms() + 1000 * second) else {
//!             return Ok(false);
//!         };
//!         let phase = Observed {
//!             phase_millicycles: Some(110_804_903_547),
//!             strength_millidbhz: Some(45_000),
//!             slip: second == 1,
//!             ..Observed::default()
//!         };
//!         let mut epoch = EpochTable::new(time);
//!         epoch.push_row(5, &[phase]);
//!         file.extend_from_slice(record(alloc, &head, &epoch)?.as_slice())?;
//!     }
//!     let Ok(table) = check_text(file.as_slice()) else {
//!         return Ok(false);
//!     };
//!     let picture = chart_text(alloc, &table, 40)?;
//!     let Ok(text) = str::from_utf8(picture.as_slice()) else {
//!         return Ok(false);
//!     };
//!     Ok(text.lines().any(|line| line == "G05|7S7|"))
//! }
//! ```

#![tactic(auto)]

mod chart;
mod choice;
mod code_marks;
mod drawing;
mod drawn;
mod grid;
mod group_rows;
mod groups;
mod laws;
mod layer;
mod mixed_chart;
mod never;
mod observations;
mod outages;
mod passes;
mod scale;
mod signs;
mod spacing;
mod strengths;
mod survey;
mod svg_axis;
mod svg_bands;
mod svg_codes;
mod svg_drawn;
mod svg_layers;
mod svg_never;
mod svg_path;
mod svg_picture;
mod svg_steps;
mod svg_strip;
mod svg_sums;
mod svg_text;
mod text_picture;
mod text_time;
mod ticks;
mod time_bin;
mod time_text;
mod tracking;

pub use chart::{LEAST_WIDTH, MOST_WIDTH, chart_svg, chart_text, chosen_svg, chosen_text};
pub use choice::{Choice, Chosen};
pub use group_rows::is_there_of_any;
pub use laws::{
    bins_are_least, bins_fill_room, counts_are_of_epochs, files_have_numbers, marks_are_of_epochs,
    means_are_of_strengths, missing_marks_are_epochs, satellites_are_labelled, svg_bars_are_small,
    svg_headings_tell_numbers, svg_heights_are_of_what_is_drawn, svg_pictures_are_small,
    text_headings_tell_numbers,
};
pub use mixed_chart::{mixed_chart_svg, mixed_chart_text};
pub use passes::is_there;
