//! What clap makes of the words of a command line, and what it answers if they are no command.

ghost use Rattle.std.specs.Prelude.{◌≡◌, ℕ, IfErr};
ghost use Rattle.clap.specs.Values.{kind_of};
ghost use Rattle.rtk_cli.specs.Words.{IsWordsFault};
ghost use Rattle.rtk_cli.specs.Steps.ClapStatus.{IsStatusOf};
ghost use Rattle.rtk_cli.specs.declared.words.WordsFault.TheVariants.{Clap};

use crate::words::WordsFault;
use clap::error::ErrorKind;
use clap::{ArgMatches, Command, Error};
use std::alloc::Global;

// The text that clap has for an error. What was asked for, as help, goes to standard output.
fn clap_fault(alloc: Global, error: &Error) -> WordsFault
    ensures zero_or_two { IsWordsFault result }
    ensures status { (text : _) (status : ℕ)
        → result ≡ Clap text status → IsStatusOf (kind_of error.now) status }
{
    if error.kind() == ErrorKind::OutOfMemory {
        return WordsFault::OutOfMemory;
    }
    let status = if error.use_stderr() { 2 } else { 0 };
    match error.to_string(alloc) {
        Ok(text) => WordsFault::Clap { text, status },
        Err(_) => WordsFault::OutOfMemory,
    }
}

/// The answer to words that clap should have refused: a command is missing, or a value that the
/// command needs.
pub(crate) fn missing_word(alloc: Global, program: &mut Command<'_>) -> WordsFault
    ensures { IsWordsFault result }
{
    match program.error(
        ErrorKind::MissingRequiredArgument,
        "a command or a value is missing",
    ) {
        Ok(error) => clap_fault(alloc, &error),
        Err(_) => WordsFault::OutOfMemory,
    }
}

// The answer to no word at all: the help, as a refusal.
fn help_fault(program: &mut Command<'_>) -> WordsFault
    ensures { IsWordsFault result }
{
    match program.render_long_help() {
        Ok(text) => WordsFault::Clap { text, status: 2 },
        Err(_) => WordsFault::OutOfMemory,
    }
}

/// The words as clap reads them.
pub(crate) fn matches_of<'a>(
    alloc: Global,
    program: &mut Command<'a>,
    words: &'a [&'a str],
) -> Result<ArgMatches<'a>, WordsFault>
    ensures { IfErr result IsWordsFault }
{
    if words.is_empty() {
        return Err(help_fault(program));
    }
    match program.try_get_matches_from_mut(words) {
        Ok(matches) => Ok(matches),
        Err(error) => Err(clap_fault(alloc, &error)),
    }
}
