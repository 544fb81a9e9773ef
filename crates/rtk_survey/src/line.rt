//! A line of a summary with a number or a count.
//!
//! If memory is refused, a first part of what is put may stand there.

ghost use Rattle.std.specs.Prelude.{◌≡◌, ◌++◌, OnOk};
ghost use Rattle.rtk_survey.specs.SummaryText.{number_line, counted_line, numbered_line};

use rtk_message::put_named;
use std::alloc::AllocError;

/// Appends words and a number as a line.
pub(crate) fn put_line(lines: &mut Vec<u8>, words: &[u8], number: u64) -> Result<(), AllocError>
    ensures { OnOk result (lines.new.items ≡ lines.old.items ++ number_line words.now number) }
{
    put_named(lines, words, number)?;
    lines.push(b'\n')?;
    Ok(())
}

/// Appends words and a count as a line; a count of 0 has none.
pub(crate) fn put_counted(lines: &mut Vec<u8>, words: &[u8], count: u64) -> Result<(), AllocError>
    ensures { OnOk result (lines.new.items ≡ lines.old.items ++ counted_line words.now count) }
{
    if count == 0 {
        return Ok(());
    }
    put_line(lines, words, count)
}

/// Appends words, a number and its count as a line; a count of 0 has none.
pub(crate) fn put_numbered(
    lines: &mut Vec<u8>,
    words: &[u8],
    number: u64,
    count: u64,
) -> Result<(), AllocError>
    ensures { OnOk result (lines.new.items ≡ lines.old.items ++ numbered_line words.now number count) }
{
    if count == 0 {
        return Ok(());
    }
    put_named(lines, words, number)?;
    put_line(lines, b" ", count)
}
