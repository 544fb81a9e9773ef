//! The command of `label` that fits what messages told of the station, as text that can be pasted.
//!
//! If memory is refused, a first part of what is put may stand there.

ghost use Rattle.std.specs.Prelude.{◌≡◌, ◌++◌, IfOk, OnOk};
ghost use Rattle.rtk_plan.specs.LabelCommand as spec;

use crate::said_command::put_word;
use crate::told_label::parts_told;
use rtk_label::LabelParts;
use rtk_message::put_sh_quoted;
use rtk_survey::Equipment;
use std::alloc::{AllocError, Global};

// Appends the option of a field, if it is filled.
fn put_option(words: &mut Vec<u8>, option: &[u8], text: &[u8]) -> Result<(), AllocError>
    ensures { OnOk result (words.new.items ≡ words.old.items ++ spec.option_words option.now text.now) }
{
    if text.len() == 0 {
        return Ok(());
    }
    words.extend_from_slice(option)?;
    put_word(words, text)
}

fn put_file(line: &mut Vec<u8>, file: Option<&str>) -> Result<(), AllocError>
    ensures { OnOk result (line.new.items ≡ line.old.items ++ spec.file_word file.entry) }
{
    match file {
        Some(name) => put_sh_quoted(line, name.as_bytes()),
        None => line.extend_from_slice(b"FILE"),
    }
}

// Appends the command with these options, if there is one.
fn put_command(lines: &mut Vec<u8>, words: &[u8], file: Option<&str>) -> Result<(), AllocError>
    ensures { OnOk result (lines.new.items ≡ lines.old.items ++ spec.command_with words.now file.entry) }
{
    if words.len() == 0 {
        return Ok(());
    }
    lines.extend_from_slice(b"rtcm2rinex label")?;
    lines.extend_from_slice(words)?;
    lines.push(b' ')?;
    put_file(lines, file)?;
    lines.push(b'\n')?;
    Ok(())
}

// The options of the fields that messages tell.
fn label_words(alloc: Global, parts: &LabelParts<'_>) -> Result<Vec<u8>, AllocError>
    ensures { IfOk result (λ words. words.items ≡ spec.label_words parts.now) }
{
    let mut words = Vec::new(alloc);
    put_option(&mut words, b" --antenna-type ", parts.antenna_type)?;
    put_option(&mut words, b" --antenna-number ", parts.antenna_number)?;
    put_option(&mut words, b" --receiver-type ", parts.receiver_type)?;
    put_option(&mut words, b" --receiver-version ", parts.receiver_version)?;
    put_option(&mut words, b" --receiver-number ", parts.receiver_number)?;
    Ok(words)
}

/// Appends the command of `label` that fits what messages told of a station, for the file of this name.
/// If nothing was told that fits, nothing is put.
pub fn put_label_command(
    alloc: Global,
    lines: &mut Vec<u8>,
    told: &Equipment,
    file: Option<&str>,
) -> Result<(), AllocError>
    ensures { OnOk result (lines.new.items ≡ lines.old.items ++ spec.label_text told.now file.entry) }
{
    let words = label_words(alloc, &parts_told(told))?;
    put_command(lines, words.as_slice(), file)
}
