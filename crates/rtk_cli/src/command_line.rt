//! The command line that clap reads: its commands and their arguments.
//!
//! clap is the costly part of the proof, so its command is built here alone, in small functions.

use crate::arguments::{
    channels_arg, file_arg, kinds_arg, leap_seconds_arg, marker_arg, number_arg, option_arg,
    station_arg, switch_arg, window_arg,
};
use crate::auto_command::auto_command;
use crate::help_texts;
use crate::label_command::label_command;
use clap::{Arg, ArgAction, ArgGroup, Command};
use rtk_chart::{LEAST_WIDTH, MOST_WIDTH};
use rtk_cut::GREATEST_STEP_S;
use std::alloc::{AllocError, Global};

/// The name of the program in its texts; no word gives it.
const NAME: &str = "rtcm2rinex";

/// The version that `--version` shows.
const VERSION: &str = "0.9.0";

/// The window if none is given.
const WINDOW: &str = "64";

/// The MSM if none is given: 1074.
const MSM: &str = "4";

fn show_command<'a>(alloc: Global, takes_lists: bool) -> Result<Command<'a>, AllocError> {
    let msm = "Which MSM of all systems is shown, as 7 or 7,E4; 1074 alone if not given";
    Command::new(alloc, "show")
        .about("Shows the messages of a capture, a line for each frame")
        .after_long_help(help_texts::SHOW)
        .arg(switch_arg(alloc, "hex", "The capture is hex text"))?
        .arg(kinds_arg(alloc, takes_lists, msm))?
        .arg(file_arg(alloc, "The capture, or stdin for standard input"))
}

fn check_command<'a>(alloc: Global) -> Result<Command<'a>, AllocError> {
    Command::new(alloc, "check")
        .about("Checks whether a file is one that convert could have written")
        .after_long_help(help_texts::CHECK)
        .arg(file_arg(alloc, "The file, or stdin for standard input"))
}

fn summary_command<'a>(alloc: Global) -> Result<Command<'a>, AllocError> {
    Command::new(alloc, "summary")
        .about("Tells what a capture holds: stations, satellites and codes")
        .after_long_help(help_texts::SUMMARY)
        .arg(file_arg(alloc, "The capture, or stdin for standard input"))
}

fn columns_arg<'a>(alloc: Global) -> Result<Arg<'a>, AllocError> {
    let help = "How many characters wide it is with --text, 40 to 400; 80 if not given";
    let (least, most) = (i64::from(LEAST_WIDTH), i64::from(MOST_WIDTH));
    number_arg(alloc, "columns", least, most, help).requires_arg("text")
}

fn systems_arg<'a>(alloc: Global) -> Arg<'a> {
    let help = "Only satellites of these systems are drawn, as GRE";
    option_arg(alloc, "systems", "LETTERS", help)
}

fn satellites_arg<'a>(alloc: Global) -> Arg<'a> {
    let help = "Only these satellites are drawn, as G05,R09";
    option_arg(alloc, "satellites", "LIST", help)
}

fn chart_command<'a>(alloc: Global) -> Result<Command<'a>, AllocError> {
    Command::new(alloc, "chart")
        .about("Draws a file: its satellites along its time, with slips and gaps")
        .after_long_help(help_texts::CHART)
        .arg(switch_arg(alloc, "text", "A picture in characters"))?
        .arg(columns_arg(alloc)?)?
        .arg(systems_arg(alloc))?
        .arg(satellites_arg(alloc))?
        .arg(file_arg(alloc, "The file, or stdin for standard input"))
}

fn quality_command<'a>(alloc: Global) -> Result<Command<'a>, AllocError> {
    let lines = "Lines for programs in place of the table";
    let json = "One JSON object in place of the table";
    Command::new(alloc, "quality")
        .about("Tells the numbers of a file: phases, slips, strengths and passes")
        .after_long_help(help_texts::QUALITY)
        .arg(switch_arg(alloc, "lines", lines).conflicts_with("json")?)?
        .arg(switch_arg(alloc, "json", json))?
        .arg(file_arg(alloc, "The file, or stdin for standard input"))
}

// An argument that names one of the files of `compare`.
fn compared_arg<'a>(alloc: Global, name: &'a str, help: &'a str) -> Arg<'a> {
    Arg::new(alloc, name).help(help).required(true)
}

fn compare_command<'a>(alloc: Global) -> Result<Command<'a>, AllocError> {
    let labels = "The fields of the labels are compared too";
    let json = "One JSON object in place of the lines";
    Command::new(alloc, "compare")
        .about("Tells what a new file lacks of an old one, or has otherwise")
        .after_long_help(help_texts::COMPARE)
        .arg(switch_arg(alloc, "labels", labels))?
        .arg(switch_arg(alloc, "json", json))?
        .arg(compared_arg(alloc, "OLD", "The old file, or stdin for standard input"))?
        .arg(compared_arg(alloc, "NEW", "The new file, or stdin for standard input"))
}

fn required_arg<'a>(alloc: Global, name: &'a str, value: &'a str, help: &'a str) -> Arg<'a> {
    option_arg(alloc, name, value, help).required(true)
}

fn links_arg<'a>(alloc: Global) -> Arg<'a> {
    Arg::new(alloc, "LINK")
        .help("The captures, 1 to 16; stdin is standard input")
        .required(true)
        .action(ArgAction::Append)
        .num_args(1..)
}

fn every_arg<'a>(alloc: Global) -> Arg<'a> {
    let help = "Records at whole multiples of this step are kept, 1 to 86400";
    number_arg(alloc, "every", 1, i64::from(GREATEST_STEP_S), help).value_name("SECONDS")
}

// One of the options of `cut` must be given.
fn cut_options_group<'a>(alloc: Global) -> Result<ArgGroup<'a>, AllocError> {
    let group = ArgGroup::new(alloc, "PART").required(true).multiple(true);
    group
        .arg("from")?
        .arg("until")?
        .arg("every")?
        .arg("systems")
}

fn cut_command<'a>(alloc: Global) -> Result<Command<'a>, AllocError> {
    let from = "The GPS time of the first records that are kept";
    let until = "The GPS time before which records are kept";
    let systems = "Only these systems are kept, as GE";
    Command::new(alloc, "cut")
        .about("Writes the file of a part of a file; no slip is lost")
        .after_long_help(help_texts::CUT)
        .arg(file_arg(alloc, "The file, or stdin for standard input"))?
        .arg(option_arg(alloc, "from", "T", from))?
        .arg(option_arg(alloc, "until", "T", until))?
        .arg(every_arg(alloc))?
        .arg(option_arg(alloc, "systems", "LETTERS", systems))?
        .group(cut_options_group(alloc)?)
}

// `convert` with its first options. Its arguments stand in several functions, since the check of one that
// adds them all takes long.
fn convert_with_times<'a>(alloc: Global) -> Result<Command<'a>, AllocError> {
    let station = "The reference station, 0 to 4095, as 2003";
    let near = "A GPS time within half a week of all messages, as 2024-05-17T12:00:00";
    let made = "The UTC time of making that the file shows, as 2024-05-17T13:00:00";
    Command::new(alloc, "convert")
        .about("Converts captures of one station to a RINEX 3.05 observation file")
        .after_long_help(help_texts::CONVERT)
        .arg(station_arg(alloc, station).required(true))?
        .arg(required_arg(alloc, "near", "T", near))?
        .arg(required_arg(alloc, "made", "T", made))
}

// The same with the options of the file.
fn convert_with_codes<'a>(alloc: Global) -> Result<Command<'a>, AllocError> {
    let marker = "The marker's name, as BASE";
    let codes = "The observation codes, as 1C,2W or 1C,R1C,E1X,C2I";
    let window = "How many epochs are kept open, 2 to 4096, as 600";
    convert_with_times(alloc)?
        .arg(marker_arg(alloc, marker).required(true))?
        .arg(required_arg(alloc, "codes", "LIST", codes))?
        .arg(window_arg(alloc, window).default_value(WINDOW))
}

// The same with the kinds of MSM and the channels.
fn convert_with_kinds<'a>(alloc: Global, takes_lists: bool) -> Result<Command<'a>, AllocError> {
    let msm = "Which MSM is converted: 4 is MSM4, as 1074, to 7; 7,E4 has an exception";
    convert_with_codes(alloc)?
        .arg(kinds_arg(alloc, takes_lists, msm).default_value(MSM))?
        .arg(channels_arg(alloc))
}

fn convert_command<'a>(alloc: Global, takes_lists: bool) -> Result<Command<'a>, AllocError> {
    let with_1012 = "Converts 1012 too, and dates it within half a day of --near";
    let doppler = "Writes the Doppler of MSM5 and MSM7, which each system must have";
    convert_with_kinds(alloc, takes_lists)?
        .arg(leap_seconds_arg(alloc))?
        .arg(switch_arg(alloc, "with-1012", with_1012))?
        .arg(switch_arg(alloc, "doppler", doppler))?
        .arg(links_arg(alloc))
}

fn program_alone<'a>(alloc: Global) -> Result<Command<'a>, AllocError> {
    Command::new(alloc, NAME)
        .about("RTCM 3 observation streams to RINEX 3.05")
        .after_long_help(help_texts::PROGRAM)
        .version(VERSION)
        .bin_name(NAME)
}

// The program with one command more, if that was built. `?` on a command where a program is at hand
// is costly to check, since the program is then let go; so it stands here alone.
fn with_command<'a>(
    program: Command<'a>,
    command: Result<Command<'a>, AllocError>,
) -> Result<Command<'a>, AllocError> {
    program.subcommand(command?)
}

/// The whole command line. If `takes_lists`, `--msm` of `convert` and `show` takes texts.
pub(crate) fn program_command<'a>(
    alloc: Global,
    takes_lists: bool,
) -> Result<Command<'a>, AllocError> {
    let program = program_alone(alloc)?
        .no_binary_name(true)
        .subcommand_required(true);
    let program = with_command(program, auto_command(alloc))?;
    let program = with_command(program, convert_command(alloc, takes_lists))?;
    let program = with_command(program, show_command(alloc, takes_lists))?;
    let program = with_command(program, check_command(alloc))?;
    let program = with_command(program, summary_command(alloc))?;
    let program = with_command(program, chart_command(alloc))?;
    let program = with_command(program, quality_command(alloc))?;
    let program = with_command(program, cut_command(alloc))?;
    let program = with_command(program, label_command(alloc))?;
    with_command(program, compare_command(alloc))
}
