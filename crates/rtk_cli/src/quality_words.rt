//! The words of `quality`: the form in which it tells its numbers.

use clap::ArgMatches;
use rtk_quality::Form;

/// The form in which `quality` tells its numbers. clap refuses both words together.
pub(crate) fn quality_form(words: &ArgMatches<'_>) -> Form {
    if words.get_flag("json") {
        return Form::Json;
    }
    if words.get_flag("lines") {
        return Form::Lines;
    }
    Form::Table
}
