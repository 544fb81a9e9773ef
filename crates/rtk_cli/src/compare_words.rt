//! The words of `compare`.

ghost use Rattle.std.specs.Prelude.{IfOk, IfErr, ◌≡◌, ◌&&◌};
ghost use Rattle.rtk_cli.specs.Words.{is_stdin, AreComparedNames};
ghost use Rattle.rtk_cli.specs.declared.words.BadWords.TheVariants.{Files};

use crate::words::BadWords;
use rtk_commands::{Compare, STDIN};
use rtk_compare::Form;

/// The files of a comparison.
#[derive(Clone, Copy)]
pub(crate) struct ComparedFiles<'a> {
    pub(crate) old: &'a str,
    pub(crate) new: &'a str,
}

// Are both files standard input?
fn are_both_stdin(old: &str, new: &str) -> bool
    ensures { result ≡ (is_stdin old.now && is_stdin new.now) }
{
    old == STDIN && new == STDIN
}

/// Returns the files of these names, unless both are standard input.
pub(crate) fn compared_files<'a>(old: &'a str, new: &'a str) -> Result<ComparedFiles<'a>, BadWords>
    ensures names { IfOk result (λ files. AreComparedNames files.old.now files.new.now) }
    ensures same { IfOk result (λ files. (files.old.now ≡ old.now) × (files.new.now ≡ new.now)) }
    ensures refused { IfErr result (λ cause. (cause ≡ Files) × ¬ (AreComparedNames old.now new.now)) }
{
    if are_both_stdin(old, new) {
        return Err(BadWords::Files);
    }
    Ok(ComparedFiles { old, new })
}

/// Returns what is compared and how it is told.
pub(crate) fn comparison(labels: bool, json: bool) -> Compare {
    let form = if json { Form::Json } else { Form::Lines };
    Compare { labels, form }
}
