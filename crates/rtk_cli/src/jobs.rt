//! The job that the words of a command line ask for.
//!
//! A private function answers `None` if a word is missing that clap should have asked for.

ghost use Rattle.std.specs.Prelude.{IfOk, IfErr, IfSome};
ghost use Rattle.rtk_cli.specs.Words.{IsWithinLimits, IsWordsFault};

use crate::auto_words::{auto_options, auto_words};
use crate::chart_words::{chart_options, choice_of};
use crate::clap_words::{matches_of, missing_word};
use crate::command_line::program_command;
use crate::compare_words::{compared_files, comparison};
use crate::convert_words::{convert_job, convert_options};
use crate::cut_words::{cut_options, part_of};
use crate::kind_list::has_kind_list;
use crate::label_words::{label_of, label_options, time_lines};
use crate::quality_words::quality_form;
use crate::show_words::shown_kinds;
use crate::system_letters::systems_named;
use crate::words::{Job, WordsFault};
use clap::{ArgMatches, Command};
use rtk_commands::{Chart, KeptPart, Labelling};
use std::alloc::{AllocError, Global};

// The names that stand for one argument.
fn names_of<'a>(
    alloc: Global,
    words: &ArgMatches<'a>,
    argument: &str,
) -> Result<Vec<&'a str>, AllocError> {
    Vec::from_slice(alloc, words.get_strs(argument).unwrap_or(&[]))
}

fn auto_job<'a>(alloc: Global, words: &ArgMatches<'a>) -> Result<Option<Job<'a>>, WordsFault>
    ensures limits { IfOk result (λ job. IfSome job IsWithinLimits) }
    ensures fault { IfErr result IsWordsFault }
{
    let Some(options) = auto_options(words) else {
        return Ok(None);
    };
    let captures = names_of(alloc, words, "CAPTURE")?;
    let options = auto_words(alloc, &options)?;
    Ok(Some(Job::Auto { options, captures }))
}

// clap takes any number of links.
fn conversion<'a>(alloc: Global, words: &ArgMatches<'a>) -> Result<Option<Job<'a>>, WordsFault>
    ensures limits { IfOk result (λ job. IfSome job IsWithinLimits) }
    ensures fault { IfErr result IsWordsFault }
{
    let Some(options) = convert_options(words) else {
        return Ok(None);
    };
    let links = names_of(alloc, words, "LINK")?;
    Ok(Some(convert_job(alloc, &options, links)?))
}

fn show_job<'a>(words: &ArgMatches<'a>, file: &'a str) -> Option<Job<'a>>
    ensures { IfSome result IsWithinLimits }
{
    let hex = words.get_flag("hex");
    match shown_kinds(words)? {
        Some(kinds) => Some(Job::ShowMsm { hex, kinds, file }),
        None => Some(Job::Show { hex, file }),
    }
}

fn chart_job<'a>(
    alloc: Global,
    words: &ArgMatches<'a>,
    file: &'a str,
) -> Result<Option<Job<'a>>, WordsFault>
    ensures limits { IfOk result (λ job. IfSome job IsWithinLimits) }
    ensures fault { IfErr result IsWordsFault }
{
    let Some(options) = chart_options(words) else {
        return Ok(None);
    };
    let choice = choice_of(alloc, &options)?;
    let width = options.width;
    let chart = Chart { width, choice };
    Ok(Some(Job::Chart { chart, file }))
}

fn cut_job<'a>(words: &ArgMatches<'a>, file: &'a str) -> Result<Option<Job<'a>>, WordsFault>
    ensures limits { IfOk result (λ job. IfSome job IsWithinLimits) }
    ensures fault { IfErr result IsWordsFault }
{
    let Some(options) = cut_options(words) else {
        return Ok(None);
    };
    let part = part_of(&options)?;
    let Some(text) = options.systems else {
        return Ok(Some(Job::Cut { part, file }));
    };
    let kept = systems_named(text)?;
    let command = KeptPart { kept, part };
    Ok(Some(Job::CutSystems { command, file }))
}

fn label_job<'a>(words: &ArgMatches<'a>, file: &'a str) -> Result<Option<Job<'a>>, WordsFault>
    ensures limits { IfOk result (λ job. IfSome job IsWithinLimits) }
    ensures fault { IfErr result IsWordsFault }
{
    let label = label_of(&label_options(words))?;
    let times = time_lines(words);
    let labelling = Labelling { label, times };
    Ok(Some(Job::Label { labelling, file }))
}

fn compare_job<'a>(words: &ArgMatches<'a>) -> Result<Option<Job<'a>>, WordsFault>
    ensures limits { IfOk result (λ job. IfSome job IsWithinLimits) }
    ensures fault { IfErr result IsWordsFault }
{
    let Some(old) = words.get_str("OLD") else {
        return Ok(None);
    };
    let Some(new) = words.get_str("NEW") else {
        return Ok(None);
    };
    let files = compared_files(old, new)?;
    Ok(Some(Job::Compare {
        command: comparison(words.get_flag("labels"), words.get_flag("json")),
        old: files.old,
        new: files.new,
    }))
}

// What the words of a command ask for that has one file.
fn file_job<'a>(
    alloc: Global,
    command: &str,
    words: &ArgMatches<'a>,
) -> Result<Option<Job<'a>>, WordsFault>
    ensures limits { IfOk result (λ job. IfSome job IsWithinLimits) }
    ensures fault { IfErr result IsWordsFault }
{
    let Some(file) = words.get_str("FILE") else {
        return Ok(None);
    };
    match command {
        "show" => Ok(show_job(words, file)),
        "check" => Ok(Some(Job::Check { file })),
        "summary" => Ok(Some(Job::Summary { file })),
        "chart" => chart_job(alloc, words, file),
        "quality" => {
            let form = quality_form(words);
            Ok(Some(Job::Quality { form, file }))
        }
        "cut" => cut_job(words, file),
        "label" => label_job(words, file),
        _ => Ok(None),
    }
}

// What the words that clap took ask for.
fn job_of_matches<'a>(
    alloc: Global,
    matches: &ArgMatches<'a>,
) -> Result<Option<Job<'a>>, WordsFault>
    ensures limits { IfOk result (λ job. IfSome job IsWithinLimits) }
    ensures fault { IfErr result IsWordsFault }
{
    match matches.subcommand() {
        Some(("auto", words)) => auto_job(alloc, words),
        Some(("convert", words)) => conversion(alloc, words),
        Some(("compare", words)) => compare_job(words),
        Some((command, words)) => file_job(alloc, command, words),
        None => Ok(None),
    }
}

// What the words ask this program for.
fn job_of_words<'a>(
    alloc: Global,
    program: &mut Command<'a>,
    words: &'a [&'a str],
) -> Result<Job<'a>, WordsFault>
    ensures limits { IfOk result IsWithinLimits }
    ensures fault { IfErr result IsWordsFault }
{
    let matches = matches_of(alloc, program, words)?;
    match job_of_matches(alloc, &matches)? {
        Some(job) => Ok(job),
        None => Err(missing_word(alloc, program)),
    }
}

/// What the words of a command line ask for. They begin after the name of the program.
// It is not inlined, so that what reads the words leaves the stack before the work begins.
#[inline(never)]
pub fn job<'a>(alloc: Global, words: &'a [&'a str]) -> Result<Job<'a>, WordsFault>
    // `OutOfMemory` comes only if memory is refused: tests/system/calls, rows `job ..`.
    ensures limits { IfOk result IsWithinLimits }
    ensures fault { IfErr result IsWordsFault }
{
    let mut program = program_command(alloc, has_kind_list(words))?;
    job_of_words(alloc, &mut program, words)
}
