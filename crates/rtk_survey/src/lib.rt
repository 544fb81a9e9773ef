//! What a capture holds: its frames, and for each station that was heard its messages, times,
//! satellites and codes, its reference point, the dates that it tells, its antenna and its receiver.
//!
//! A [`CaptureSurvey`] is plain data. A station gets a [`StationSurvey`] with the first frame that
//! names it, so memory grows with the stations that were heard; if it is refused, the survey is not
//! made ([`SurveyFault::OutOfMemory`]). A frame costs a look-up among the stations and the work on its
//! own cells, whatever other stations there are. Sizes that depend on the satellites and codes of systems
//! stand in `signals.rt` and `system_signals.rt` alone.
//!
//! Of GPS a survey has what its command needs, and of the other systems their messages by number, with
//! epochs, satellites and codes, the channels of GLONASS, and how far the clocks of systems are apart.
//!
//! The definitions go from the frames of a capture (specs/ReadFrames.antt) to what is held of them
//! (specs/Contents.antt, specs/Surveys.antt) and to the text of a summary (specs/Summary.antt).
//!
//! Its tests: tests/values/src/survey.rt.in and survey/.
//!
//! ```rust
//! use rtk_frame::{After, MemSource};
//! use rtk_survey::survey_capture;
//! use std::alloc::{AllocError, Global};
//!
//! // A capture with one frame, a 1013 of station 278 that names 2020-01-25 02:15:41.
//! fn example(alloc: Global) -> Result<bool, AllocError> {
//!     let bytes = b"\xD3\x00\x09\x3F\x51\x16\xE5\xF9\x0F\xE6\x80\x48\x47\x6B\x7C";
//!     let mut capture = MemSource::new(alloc, bytes, 512, After::End)?;
//!     let Ok(survey) = survey_capture(alloc, &mut capture, None, 100) else {
//!         return Ok(false);
//!     };
//!     match survey.contents.stations.get(&278) {
//!         Some(station) => Ok(station.dates.of_1013.count == 1),
//!         None => Ok(false),
//!     }
//! }
//! ```

#![tactic(auto)]

mod beside_gps;
mod bit_marks;
mod capture_dates;
mod channel_lines;
mod channels;
mod clock_chains;
mod clock_lines;
mod clock_marks;
mod clock_spans;
mod contents;
mod counting;
mod date_laws;
mod date_lines;
mod date_message;
mod dating_systems;
mod day_clocks;
mod dayless;
mod epochs;
mod equipment;
mod equipment_lines;
mod equipment_message;
mod far_date;
mod frame_place;
mod laws;
mod line;
mod lines;
mod look;
mod message_lines;
mod msm_parts;
mod nameless;
mod next_command;
mod parting;
mod phase_channels;
mod phases;
mod placing;
mod points;
mod proposal_lines;
mod reading;
mod reference_point;
mod sbas;
mod signal_lines;
mod signals;
mod span;
mod station;
mod station_clocks;
mod station_dates;
mod stations;
mod summary;
mod survey;
mod survey_fault;
mod system_message;
mod system_msm;
mod system_phases;
mod system_signals;
mod system_tellings;
mod systems_sent;
mod target;
mod telling;
mod tellings;
mod times_of_week;
mod to_come;
mod unchecked_clocks;
mod unread;
mod wrong_clocks;

pub use beside_gps::is_beside_gps;
pub use beside_gps::told_time;
pub use bit_marks::BitMarks;
pub use capture_dates::CaptureDates;
pub use channel_lines::put_field_channel;
pub use channels::count_of_field;
pub use clock_chains::ChainClock;
pub use clock_chains::ClockOffset;
pub use clock_chains::ClockOffsets;
pub use clock_chains::ClockSurvey;
pub use clock_chains::ClockTold;
pub use clock_chains::DayOffset;
pub use clock_lines::compared_clocks;
pub use clock_lines::put_clock_line;
pub use clock_lines::table_seconds_at;
pub use clock_lines::told_offset;
pub use clock_marks::ClockMarks;
pub use clock_marks::opened_moment;
pub use clock_spans::ClockSpan;
pub use clock_spans::FollowedClock;
pub use clock_spans::FollowedSpan;
pub use clock_spans::FollowedTime;
pub use clock_spans::clock_moment;
pub use clock_spans::redating_clock;
pub use contents::Contents;
pub use contents::others_numbered;
pub use date_laws::dates_are_nearest;
pub use date_laws::told_moments_are_nearest;
pub use date_message::DateMessage;
pub use date_message::EphemerisDate;
pub use date_message::UtcDate;
pub use date_message::date_in;
pub use dating_systems::DatingSystems;
pub use epochs::Epochs;
pub use equipment::Equipment;
pub use equipment::SetupHistory;
pub use equipment::TextHistory;
pub use equipment_lines::put_shown;
pub use equipment_message::Antenna;
pub use equipment_message::EquipmentMessage;
pub use equipment_message::Receiver;
pub use equipment_message::Text;
pub use equipment_message::equipment_in;
pub use far_date::FarDate;
pub use far_date::first_far_date;
pub use frame_place::place_of_frame;
pub use laws::all_are_taken_alike;
pub use laws::each_frame_is_counted;
pub use laws::four_need_no_option;
pub use laws::lines_tell_numbers;
pub use laws::most_epochs_are_named;
pub use laws::parts_stand_in_a_summary;
pub use laws::summaries_tell_counts;
pub use look::Look;
pub use look::look_of;
pub use msm_parts::MsmPart;
pub use msm_parts::MsmParts;
pub use parting::ChainStart;
pub use parting::EpochStep;
pub use parting::Parting;
pub use phases::PhaseCount;
pub use phases::Phases;
pub use phases::count_in_table;
pub use placing::CaptureEpochs;
pub use placing::Placed;
pub use placing::is_dated_near;
pub use placing::least_with_if_any;
pub use placing::place;
pub use points::are_far;
pub use reading::survey_capture;
pub use reference_point::ReferencePoint;
pub use reference_point::far_point_with;
pub use reference_point::first_point_with;
pub use reference_point::has_other_point_with;
pub use reference_point::is_other_point;
pub use signals::Codes;
pub use signals::Signals;
pub use signals::has_value;
pub use signals::have_value;
pub use span::Span;
pub use station::MessageCounts;
pub use station::StationSurvey;
pub use station_clocks::StationClocks;
pub use station_clocks::clocks_by_station;
pub use station_dates::DateCount;
pub use station_dates::StationDates;
pub use summary::summarize;
pub use survey::CaptureSurvey;
pub use survey_fault::SurveyFault;
pub use system_message::LeapSeconds;
pub use system_message::SlotChannel;
pub use system_message::SystemMessage;
pub use system_message::SystemWeek;
pub use system_message::system_message_in;
pub use system_msm::SystemMsm;
pub use system_msm::epochs_numbered;
pub use system_msm::messages_numbered;
pub use system_phases::PhaseTable;
pub use system_phases::SystemPhases;
pub use system_signals::SystemSignals;
pub use system_tellings::LeapRange;
pub use system_tellings::SystemTellings;
pub use systems_sent::SystemsSent;
pub use target::EquipmentTimes;
pub use target::Target;
pub use target::TargetDates;
pub use target::TargetSurvey;
pub use target::marks_if_known;
pub use telling::dated;
pub use telling::is_date;
pub use telling::moment_of;
pub use telling::told;
pub use tellings::Tellings;
pub use tellings::Told;
pub use times_of_week::Times;
pub use unread::Unread;
pub use unread::count_of_number;
