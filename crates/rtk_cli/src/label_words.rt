//! The words of `label`: its options, as clap's answer fills them, and what they say.

ghost use Rattle.std.specs.Prelude.{◌≡◌, IfOk, IfErr};
ghost use Rattle.rtk_cli.specs.Steps.LabelWords.{RefusesLabel};

use crate::words::BadWords;
use clap::ArgMatches;
use rtk_label::{Label, LabelParts, TimeLines};

// The text of an option; without the option there is none.
fn text_of<'a>(words: &ArgMatches<'a>, name: &str) -> &'a [u8] {
    words.get_str(name).unwrap_or("").as_bytes()
}

/// The options of `label`.
pub(crate) fn label_options<'a>(words: &ArgMatches<'a>) -> LabelParts<'a> {
    LabelParts {
        run_by: text_of(words, "run-by"),
        marker_number: text_of(words, "marker-number"),
        observer: text_of(words, "observer"),
        agency: text_of(words, "agency"),
        receiver_number: text_of(words, "receiver-number"),
        receiver_type: text_of(words, "receiver-type"),
        receiver_version: text_of(words, "receiver-version"),
        antenna_number: text_of(words, "antenna-number"),
        antenna_type: text_of(words, "antenna-type"),
        height: text_of(words, "delta-height"),
        east: text_of(words, "delta-east"),
        north: text_of(words, "delta-north"),
    }
}

/// The time lines that `label` is asked for.
pub(crate) fn time_lines(words: &ArgMatches<'_>) -> TimeLines {
    TimeLines {
        interval: words.get_flag("interval"),
        last: words.get_flag("last"),
    }
}

/// The label of these fields, or the first one that does not fit its columns.
pub(crate) fn label_of(fields: &LabelParts<'_>) -> Result<Label, BadWords>
    ensures said { IfOk result (λ label. label ≡ fields.now) }
    ensures refused { IfErr result (RefusesLabel fields.now) }
{
    match Label::new(fields) {
        Ok(label) => Ok(label),
        Err(fault) => Err(BadWords::Field(fault)),
    }
}
