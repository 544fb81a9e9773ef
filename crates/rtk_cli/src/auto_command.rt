//! The command line of `auto`.
//!
//! Its arguments stand in several functions, since the check of one that adds them all takes long.

use crate::arguments::{
    channels_arg, leap_seconds_arg, marker_arg, msm_arg, option_arg, station_arg, switch_arg,
    window_arg,
};
use crate::help_texts;
use clap::builder::ValueParser;
use clap::{Arg, ArgAction, Command};
use std::alloc::{AllocError, Global};

fn captures_arg<'a>(alloc: Global) -> Arg<'a> {
    Arg::new(alloc, "CAPTURE")
        .help("The captures of one station, in any order")
        .required(true)
        .action(ArgAction::Append)
        .num_args(1..)
}

fn output_arg<'a>(alloc: Global) -> Arg<'a> {
    option_arg(
        alloc,
        "output",
        "FILE",
        "Where the file goes; standard output if not given",
    )
    .short('o')
    .value_parser(ValueParser::NonEmptyString)
}

fn force_arg<'a>(alloc: Global) -> Arg<'a> {
    switch_arg(alloc, "force", "Replace a FILE that is there").short('f')
}

fn label_arg<'a>(alloc: Global) -> Result<Arg<'a>, AllocError> {
    let help = "Label the FILE with the antenna and the receiver that are told";
    switch_arg(alloc, "label", help).requires_arg("output")
}

fn auto_alone<'a>(alloc: Global) -> Result<Command<'a>, AllocError> {
    let marker = "The marker's name; the station's number if not given";
    Command::new(alloc, "auto")
        .about("Converts captures of one station; finds the options of convert in them")
        .after_long_help(help_texts::AUTO)
        .arg(output_arg(alloc))?
        .arg(force_arg(alloc))?
        .arg(label_arg(alloc)?)?
        .arg(marker_arg(alloc, marker))
}

fn auto_with_times<'a>(alloc: Global) -> Result<Command<'a>, AllocError> {
    let near = "A GPS time within half a week of the captures, if they don't tell one";
    let made = "The UTC time of making that the file shows; now if not given";
    let station = "The reference station, if there are several";
    auto_alone(alloc)?
        .arg(option_arg(alloc, "near", "T", near))?
        .arg(option_arg(alloc, "made", "T", made))?
        .arg(station_arg(alloc, station))
}

fn auto_with_values<'a>(alloc: Global) -> Result<Command<'a>, AllocError> {
    let codes = "The observation codes; all that have a value if not given";
    let msm = "Which MSM of all systems is converted beside 1004, 4 to 7";
    let window = "How many epochs are kept open, 2 to 4096; 4096 if not given";
    auto_with_times(alloc)?
        .arg(option_arg(alloc, "codes", "LIST", codes))?
        .arg(msm_arg(alloc, msm))?
        .arg(window_arg(alloc, window))
}

fn systems_arg<'a>(alloc: Global) -> Result<Arg<'a>, AllocError> {
    let help = "The systems that are converted, as GRE; all that are found if not given";
    option_arg(alloc, "systems", "LETTERS", help).conflicts_with("codes")
}

fn auto_with_systems<'a>(alloc: Global) -> Result<Command<'a>, AllocError> {
    auto_with_values(alloc)?
        .arg(systems_arg(alloc)?)?
        .arg(channels_arg(alloc))?
        .arg(leap_seconds_arg(alloc))
}

/// The command `auto`.
pub(crate) fn auto_command<'a>(alloc: Global) -> Result<Command<'a>, AllocError> {
    let skip_empty = "Leave out captures in which nothing of the station was found";
    let links_as_given = "Take each capture for a link, as convert does";
    let report = "Show the report of convert";
    let doppler = "Write the Doppler of MSM5 and MSM7, which each system must have";
    auto_with_systems(alloc)?
        .arg(switch_arg(alloc, "skip-empty", skip_empty))?
        .arg(switch_arg(alloc, "links-as-given", links_as_given))?
        .arg(switch_arg(alloc, "report", report))?
        .arg(switch_arg(alloc, "doppler", doppler))?
        .arg(captures_arg(alloc))
}
