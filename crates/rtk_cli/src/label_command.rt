//! The command line of `label`.

use crate::arguments::{file_arg, option_arg, switch_arg};
use crate::help_texts;
use clap::{Arg, ArgGroup, Command};
use std::alloc::{AllocError, Global};

/// The options that fill a field: the name, what follows it, and what the field is.
const FIELDS: [(&str, &str, &str); 12] = [
    (
        "run-by",
        "TEXT",
        "Who runs the program, up to 20 characters",
    ),
    (
        "marker-number",
        "TEXT",
        "The marker's number, up to 20 characters",
    ),
    ("observer", "TEXT", "The observer, up to 20 characters"),
    ("agency", "TEXT", "The agency, up to 40 characters"),
    (
        "receiver-number",
        "TEXT",
        "The receiver's serial number, up to 20 characters",
    ),
    (
        "receiver-type",
        "TEXT",
        "The receiver's type, up to 20 characters",
    ),
    (
        "receiver-version",
        "TEXT",
        "The receiver's firmware, up to 20 characters",
    ),
    (
        "antenna-number",
        "TEXT",
        "The antenna's serial number, up to 20 characters",
    ),
    (
        "antenna-type",
        "TEXT",
        "The antenna's type, and from the 17th character on its radome",
    ),
    (
        "delta-height",
        "METRES",
        "The antenna's height above the marker, as +1.5000, if the file tells none",
    ),
    (
        "delta-east",
        "METRES",
        "How far east of the marker the antenna stands, as -0.0120",
    ),
    (
        "delta-north",
        "METRES",
        "How far north of the marker the antenna stands, as +0.0000",
    ),
];

/// The options for lines that follow from the records: the name, and what the line is.
const LINES: [(&str, &str); 2] = [
    (
        "interval",
        "A line with the interval of the records, if the file has two",
    ),
    (
        "last",
        "A line with the time of the last observation, if the file has a record",
    ),
];

// All fields are blank: no other option may stand beside it.
fn blank_arg<'a>(alloc: Global) -> Result<Arg<'a>, AllocError> {
    let help = "No field: the file is again as convert wrote it";
    let mut blank = switch_arg(alloc, "blank", help);
    for (name, _, _) in FIELDS {
        blank = blank.conflicts_with(name)?;
    }
    for (name, _) in LINES {
        blank = blank.conflicts_with(name)?;
    }
    Ok(blank)
}

// One of the options must be given.
fn label_group<'a>(alloc: Global) -> Result<ArgGroup<'a>, AllocError> {
    let mut group = ArgGroup::new(alloc, "FIELDS").required(true).multiple(true);
    for (name, _, _) in FIELDS {
        group = group.arg(name)?;
    }
    for (name, _) in LINES {
        group = group.arg(name)?;
    }
    group.arg("blank")
}

fn with_fields<'a>(alloc: Global, command: Command<'a>) -> Result<Command<'a>, AllocError> {
    let mut command = command;
    for (name, value, help) in FIELDS {
        let field = option_arg(alloc, name, value, help).allow_hyphen_values(true);
        command = command.arg(field)?;
    }
    Ok(command)
}

fn with_lines<'a>(alloc: Global, command: Command<'a>) -> Result<Command<'a>, AllocError> {
    let mut command = command;
    for (name, help) in LINES {
        command = command.arg(switch_arg(alloc, name, help))?;
    }
    Ok(command)
}

/// The command `label`.
pub(crate) fn label_command<'a>(alloc: Global) -> Result<Command<'a>, AllocError> {
    let command = Command::new(alloc, "label")
        .about("Writes a file with more fields in its header")
        .after_long_help(help_texts::LABEL)
        .arg(file_arg(alloc, "The file, or stdin for standard input"))?;
    let command = with_fields(alloc, command)?;
    with_lines(alloc, command)?
        .arg(blank_arg(alloc)?)?
        .group(label_group(alloc)?)
}
