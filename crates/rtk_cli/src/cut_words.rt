//! The words of `cut`: its options, as clap's answer fills them, and what they say.

ghost use Rattle.std.specs.Prelude.{◌↔◌, IfOk, IfErr, IfSome, IsTrue};
ghost use Rattle.rtk_cut.specs.Cut.{IsStepOrNone};
ghost use Rattle.rtk_cli.specs.Steps.CutWords.{IsAfter, SaysPart, RefusesPart};

use crate::option_texts::moment_if_any;
use crate::words::BadWords;
use clap::ArgMatches;
use rtk_cut::{GREATEST_STEP_S, Part};

/// The options of `cut`.
#[derive(Drop)]
pub(crate) struct CutOptions<'a> {
    /// The text of the moment at which the part begins.
    pub(crate) from: Option<&'a str>,
    /// The text of the moment before which it ends.
    pub(crate) until: Option<&'a str>,
    /// The step in s.
    pub(crate) every: Option<u32>,
    /// The letters of the systems that are kept.
    pub(crate) systems: Option<&'a str>,
}

/// The options of `cut`.
pub(crate) fn cut_options<'a>(words: &ArgMatches<'a>) -> Option<CutOptions<'a>>
    ensures { IfSome result (λ options. IsStepOrNone options.every) }
{
    let every = words.get_one::<u32>("every");
    if let Some(step) = every {
        if step < 1 || step > GREATEST_STEP_S {
            return None;
        }
    }
    Some(CutOptions {
        from: words.get_str("from"),
        until: words.get_str("until"),
        every,
        systems: words.get_str("systems"),
    })
}

// Does the span end before it begins?
fn ends_before_it_begins(part: &Part) -> bool
    ensures { IsTrue result ↔ IsAfter part.now.from part.now.until }
{
    let Some(from) = part.from else {
        return false;
    };
    let Some(until) = part.until else {
        return false;
    };
    from.ms() > until.ms()
}

/// The part of a file that the options say. The first cause why they say none is told: the form of
/// `--from`, the form of `--until`, and last an `--until` before `--from`.
pub(crate) fn part_of(options: &CutOptions) -> Result<Part, BadWords>
    ensures said { IfOk result (SaysPart options.now) }
    ensures refused { IfErr result (RefusesPart options.now) }
{
    let from = moment_if_any(options.from, BadWords::From)?;
    let until = moment_if_any(options.until, BadWords::Until)?;
    let part = Part {
        from,
        until,
        every: options.every,
    };
    if ends_before_it_begins(&part) {
        return Err(BadWords::Until);
    }
    Ok(part)
}
