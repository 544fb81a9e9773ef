//! Writes to the file and to the report: the header, the record of an epoch, and lines.

ghost use Rattle.std.specs.Prelude.{◌≡◌, ◌++◌, IfOk, IfErr, false};
ghost use Rattle.rtk_convert.specs.Failure.{NamesFailedWrites};
ghost use Rattle.rtk_convert.specs.Steps.Faults.{NamesFailedFile};
ghost use Rattle.rtk_rinex.specs.Header.{position_view};
ghost use Rattle.rtk_convert.specs.Steps.WritingInPart.{PutsText};
ghost use Rattle.rtk_convert.specs.Steps.ClosedText.{closing_text, header_before, is_any};

use crate::fault::{ConvertFault, Stream};
use crate::file_header::file_header;
use rtk_frame::{Sink, write_all};
use rtk_obs::{GpsMs, Position};
use rtk_setup::Setup;
use std::alloc::{AllocError, Global};

// Writes a text to the file.
fn write_text<O: Sink>(out: &mut O, text: &[u8]) -> Result<(), ConvertFault>
    ensures puts { PutsText result (O.taken out.old) (O.taken out.new) text.now }
    ensures file_failed { NamesFailedWrites Stream.Out result (O.failures out.old) (O.failures out.new) }
    ensures fault { IfErr result (λ f. f ≡ ConvertFault.Write Stream.Out) }
{
    match write_all(out, text) {
        Ok(()) => Ok(()),
        Err(_) => Err(ConvertFault::Write {
            stream: Stream::Out,
        }),
    }
}

// Returns the header and then the text of a record. The first time of the header is the time of the
// record.
fn with_header(
    alloc: Global,
    setup: &Setup,
    position: &Position,
    first: GpsMs,
    text: &[u8],
) -> Result<Vec<u8>, AllocError>
    ensures { IfOk result (λ whole. whole.items ≡ header_before setup.now (position_view position.now) first false ++ text.now) }
{
    let mut whole = file_header(alloc, setup, position, first)?;
    whole.extend_from_slice(text)?;
    Ok(whole)
}

/// Writes the text of the record of a closed epoch, if it has one, and answers whether it has one.
///
/// The header and the first record go out as one text. So a header without a record is only
/// written when the conversion ends. It is inlined, since most records are one write.
#[inline(always)]
pub(crate) fn write_record<O: Sink>(
    alloc: Global,
    setup: &Setup,
    position: &Position,
    is_header_out: bool,
    epoch: GpsMs,
    text: &[u8],
    out: &mut O,
) -> Result<bool, ConvertFault>
    ensures any { IfOk result (λ any. any ≡ is_any text.now) }
    ensures puts { PutsText result (O.taken out.old) (O.taken out.new)
        (closing_text setup.now (position_view position.now) epoch is_header_out text.now) }
    ensures failed { NamesFailedFile result (O.failures out.old) (O.failures out.new) }
{
    if text.is_empty() {
        return Ok(false);
    }
    if is_header_out {
        write_text(out, text)?;
        return Ok(true);
    }
    let whole = with_header(alloc, setup, position, epoch, text)?;
    write_text(out, &whole)?;
    Ok(true)
}

/// Writes the header, if the file has none yet, since it has no records. The reference stands for the
/// time of the first observation then.
pub(crate) fn write_header_if_none<O: Sink>(
    alloc: Global,
    setup: &Setup,
    position: &Position,
    is_header_out: bool,
    out: &mut O,
) -> Result<(), ConvertFault>
    ensures puts { PutsText result (O.taken out.old) (O.taken out.new)
        (header_before setup.now (position_view position.now) setup.now.near is_header_out) }
    ensures failed { NamesFailedFile result (O.failures out.old) (O.failures out.new) }
{
    if is_header_out {
        return Ok(());
    }
    let text = file_header(alloc, setup, position, setup.near())?;
    write_text(out, &text)
}

/// Writes lines to the report, if there are any.
pub(crate) fn write_lines<L: Sink>(log: &mut L, lines: &[u8]) -> Result<(), ConvertFault>
    ensures puts { PutsText result (L.taken log.old) (L.taken log.new) lines.now }
    ensures report_failed { NamesFailedWrites Stream.Log result (L.failures log.old) (L.failures log.new) }
    ensures fault { IfErr result (λ f. f ≡ ConvertFault.Write Stream.Log) }
{
    if lines.is_empty() {
        return Ok(());
    }
    match write_all(log, lines) {
        Ok(()) => Ok(()),
        Err(_) => Err(ConvertFault::Write {
            stream: Stream::Log,
        }),
    }
}
