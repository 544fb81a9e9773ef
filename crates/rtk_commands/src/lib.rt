//! The commands that convert nothing: `show`, `summary`, `check`, `chart`, `quality`, `cut`, `label` and `compare`;
//! and the files and standard streams of all commands.
//!
//! `check`, `chart`, `quality`, `cut` and `label` implement `FileCommand`: each makes bytes of a text. One driver
//! (`run_file`) opens and reads the file, has the command write, and answers the exit status.
//!
//! `show` and `summary`, which read captures, are one file of four layers each, each of which calls the one before it.
//! In that of `show`:
//!
//! - `show_accepted` reads a source and writes to a sink, by a set of messages, and `show` is the same with 1074 as
//!   the only MSM;
//! - `show_by` reads a reader and writes to a writer of std, by what a type says of their bytes;
//! - `show_through` does so without that type, for any reader and writer;
//! - `show_named` opens the file of a name, writes to standard output and answers the exit status.
//!
//! The layers of the driver are `answer_input`, `file_by`, `file_through` and `run_file`.
//!
//! The streams are readers and writers whose bytes clauses see (`Reads`, `Writes`), inputs that are read whole
//! (`read_through`), the links of a conversion (`open_links`), the file that gets its name at the end (`Beside`), and
//! how the program ends (`fail`).
//!
//! ```rust
//! use rtk_commands::check_file;
//! use rtk_frame::{After, MemSink, MemSource};
//! use std::alloc::{AllocError, Global};
//!
//! // A text that ends before its first line is no file of `convert`.
//! fn example(alloc: Global) -> Result<bool, AllocError> {
//!     let mut reader = MemSource::new(alloc, b"", 1, After::End)?;
//!     let mut out = MemSink::new(alloc, 32, 32)?;
//!     let verdict = check_file(alloc, &mut reader, &mut out);
//!     Ok(matches!(verdict, Ok(false)) && out.bytes() == b"line 1: C5 Truncated\n".as_slice())
//! }
//! ```
//!
//! Its tests: tests/values/src/commands.rt.in and commands/, tests/program and tests/system/streams
#![tactic(auto)]

mod after_front;
mod any_table;
mod assessing;
mod before;
mod beside;
mod charting;
mod checking;
mod comparing;
mod cutting;
mod due_lines;
mod exit_status;
mod fault;
mod file_answer;
mod file_command;
mod files;
mod hex_input;
mod identity;
mod input;
mod joined;
mod kept_part;
mod labelling;
mod later;
pub mod laws;
mod links;
mod payload_line;
mod present_time;
mod quiet;
mod rendered;
mod rereading;
mod resuming;
mod showing;
mod summarizing;
mod unbroken;
mod with_label;

pub use before::Before;
pub use beside::{Beside, OutputFault, can_get_name, is_there, let_go, make_beside, name_whole};
pub use charting::Chart;
pub use checking::{Check, check_file};
pub use comparing::{Compare, Compared, compare_named};
pub use exit_status::{DONE, FAILED, NOT_VALID, REFUSED, fail, fail_to_end, fail_to_open};
pub use fault::ToolFault;
pub use file_answer::FileAnswer;
pub use file_command::{CHECK_LIMIT, FileCommand, file_through, gathered_through, run_file};
pub use files::{
    Capture, GATHERED, MOST_READS, Reads, STDIN, Writes, open_input, sink, standard_output,
};
pub use identity::{FileIdentity, Named, is_longer, standard_output_file, what_is_named};
pub use input::read_through;
pub use joined::Joined;
pub use kept_part::KeptPart;
pub use labelling::Labelling;
pub use later::{Later, LaterFile};
pub use links::{Link, OpenFault, fail_to_open_links, has_standard_input, open_links, read_ahead};
pub use payload_line::show_line;
pub use present_time::{PresentFault, PresentTime, present};
pub use quiet::Quiet;
pub use rereading::{Again, Digest, Digested};
pub use resuming::Resumed;
pub use showing::{SHOW_LIMIT, show, show_accepted, show_bytes, show_named, show_through};
pub use summarizing::{summarize_named, summarize_through, summary_status};
pub use unbroken::Unbroken;
