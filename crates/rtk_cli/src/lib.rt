//! The commands of the program: the words of a command line, and the work that each asks for.
//!
//! ```rust
//! use rtk_cli::{WordsFault, job};
//! use std::alloc::{AllocError, Global};
//!
//! // A part of a file can't begin at a moment that is written in another form.
//! fn example(alloc: Global) -> Result<bool, AllocError> {
//!     match job(alloc, &["cut", "--from", "noon", "day.rnx"]) {
//!         Err(WordsFault::Bad { line, .. }) => Ok(line == "bad --from"),
//!         _ => Ok(false),
//!     }
//! }
//! ```
//!
//! Its tests: tests/values/src/cli.rt.in and cli/, and tests/program
#![tactic(auto)]

mod arguments;
mod auto_command;
mod auto_converting;
mod auto_labelling;
mod auto_looking;
mod auto_parting;
mod auto_reading;
mod auto_refusing;
mod auto_rereading;
mod auto_running;
mod auto_saying;
mod auto_words;
mod capture_order;
mod channel_list;
mod chart_words;
mod clap_words;
mod code_lines;
mod code_words;
mod command_line;
mod compare_words;
mod convert_words;
mod converting;
mod cut_words;
mod help_texts;
mod jobs;
mod kind_list;
mod label_command;
mod label_words;
mod laws;
mod moment_text;
mod option_numbers;
mod option_texts;
mod parts;
mod quality_words;
mod rates_line;
mod refusing;
mod running;
mod show_words;
mod system_letters;
mod watching;
mod words;

pub use auto_converting::convert_joined;
pub use auto_reading::survey_through;
pub use converting::{Converted, conversion_status, convert_through};
pub use jobs::job;
pub use laws::{files_pass_labelled, order_makes_no_difference};
pub use rtk_commands::{CHECK_LIMIT, SHOW_LIMIT, ToolFault, check_file, show, show_line};
pub use running::run_program;
pub use words::{AutoWords, Job, WordsFault};
