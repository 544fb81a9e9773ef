//! The arguments that several commands have.

use clap::{Arg, ArgAction, value_parser};
use rtk_setup::{GREATEST_LEAP_SECONDS, GREATEST_STATION, LEAST_WINDOW, MOST_WINDOW};
use std::alloc::Global;

/// The name of the one input of a command.
pub(crate) fn file_arg<'a>(alloc: Global, help: &'a str) -> Arg<'a> {
    Arg::new(alloc, "FILE").help(help).required(true)
}

// An argument by its name with two hyphens.
fn flag_arg<'a>(alloc: Global, name: &'a str, help: &'a str) -> Arg<'a> {
    Arg::new(alloc, name).long(name).help(help)
}

/// An option that has no value.
pub(crate) fn switch_arg<'a>(alloc: Global, name: &'a str, help: &'a str) -> Arg<'a> {
    flag_arg(alloc, name, help).action(ArgAction::SetTrue)
}

/// An option that has a value.
pub(crate) fn option_arg<'a>(
    alloc: Global,
    name: &'a str,
    value: &'a str,
    help: &'a str,
) -> Arg<'a> {
    flag_arg(alloc, name, help).value_name(value)
}

/// An option whose value is a number between these two. All numbers of the command line have one type,
/// since each further one is costly to check.
pub(crate) fn number_arg<'a>(
    alloc: Global,
    name: &'a str,
    least: i64,
    most: i64,
    help: &'a str,
) -> Arg<'a> {
    option_arg(alloc, name, "N", help).value_parser(value_parser!(u32).range(least..=most))
}

/// The reference station.
pub(crate) fn station_arg<'a>(alloc: Global, help: &'a str) -> Arg<'a> {
    number_arg(alloc, "station", 0, i64::from(GREATEST_STATION), help)
}

/// How many epochs are kept open.
pub(crate) fn window_arg<'a>(alloc: Global, help: &'a str) -> Arg<'a> {
    number_arg(
        alloc,
        "window",
        LEAST_WINDOW as i64,
        MOST_WINDOW as i64,
        help,
    )
}

/// Which MSM is converted beside 1004.
pub(crate) fn msm_arg<'a>(alloc: Global, help: &'a str) -> Arg<'a> {
    number_arg(alloc, "msm", 4, 7, help)
}

/// The kinds of MSM that are converted or shown. clap's numbers are no lists, and its texts are anything. So texts are taken only
/// if some word is a good list, and else each word is refused as a number is.
pub(crate) fn kinds_arg<'a>(alloc: Global, takes_lists: bool, help: &'a str) -> Arg<'a> {
    if takes_lists {
        return option_arg(alloc, "msm", "N", help);
    }
    msm_arg(alloc, help)
}

/// The channels of GLONASS.
pub(crate) fn channels_arg<'a>(alloc: Global) -> Arg<'a> {
    let help = "The channels of GLONASS slots, as 1:1,9:-6, or none";
    option_arg(alloc, "channels", "LIST", help)
}

/// The leap seconds that date GLONASS.
pub(crate) fn leap_seconds_arg<'a>(alloc: Global) -> Arg<'a> {
    let help = "The leap seconds that date GLONASS, 0 to 99; those of the table if not given";
    number_arg(
        alloc,
        "leap-seconds",
        0,
        i64::from(GREATEST_LEAP_SECONDS),
        help,
    )
}

/// The marker's name.
pub(crate) fn marker_arg<'a>(alloc: Global, help: &'a str) -> Arg<'a> {
    option_arg(alloc, "marker", "NAME", help).allow_hyphen_values(true)
}
