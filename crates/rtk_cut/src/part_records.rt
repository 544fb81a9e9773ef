//! Writes of a part of a file: its header, and records.

ghost use Rattle.std.specs.Prelude.{◌≡◌, ◌≢◌, false, Err, OnOk, IsErrOf};
ghost use Rattle.rtk_frame.specs.Stream.{with_more, TakesPart, CountRises};
ghost use Rattle.rtk_rinex.specs.Record.{EpochTableView};
ghost use Rattle.rtk_cut.specs.Steps.PartRecords.{after_header};
ghost use Rattle.rtk_cut.specs.declared.fault.CutFault.TheVariants.{Write};

use crate::epoch_file::EpochFile;
use crate::fault::CutFault;
use rtk_frame::{Sink, write_all};
use rtk_obs::GpsMs;
use std::alloc::Global;

/// Writes a text, and before it the header of the file with this first time, unless that is out.
pub(crate) fn put_after_header<F: EpochFile, W: Sink>(
    alloc: Global,
    file: &F,
    is_header_out: bool,
    first: GpsMs,
    text: &[u8],
    out: &mut W,
) -> Result<(), CutFault>
    ensures all { OnOk result (W.taken out.new ≡ with_more (W.taken out.old) (after_header is_header_out (F.texts file.now) first text.now)) }
    ensures part { TakesPart (W.taken out.old) (W.taken out.new) (after_header is_header_out (F.texts file.now) first text.now) }
    ensures write_failed { IsErrOf result Write → CountRises (W.failures out.old) (W.failures out.new) }
    ensures no_failed_write { result ≢ Err Write → W.failures out.new ≡ W.failures out.old }
{
    if is_header_out {
        write_all(out, text)?;
        return Ok(());
    }
    let mut whole = file.header(alloc, first)?;
    whole.extend_from_slice(text)?;
    write_all(out, whole.as_slice())?;
    Ok(())
}

/// Writes a record as it was shown last: its text if it has not changed since it was read, else a new one.
pub(crate) fn put_record<F: EpochFile, W: Sink>(
    alloc: Global,
    file: &F,
    is_header_out: bool,
    read: &F::Record,
    is_changed: bool,
    out: &mut W,
) -> Result<(), CutFault>
    requires shown { F.HasShown file.now }
    ensures all { OnOk result ((e shown : EpochTableView) → F.IsRecordOf file.now read.now e → F.IsShownAs file.now read.now shown → (is_changed ≡ false → shown ≡ e)
        → W.taken out.new ≡ with_more (W.taken out.old) (after_header is_header_out (F.texts file.now) e.time ((F.texts file.now).record_of shown))) }
    ensures part { (e shown : EpochTableView) → F.IsRecordOf file.now read.now e → F.IsShownAs file.now read.now shown → (is_changed ≡ false → shown ≡ e)
        → TakesPart (W.taken out.old) (W.taken out.new) (after_header is_header_out (F.texts file.now) e.time ((F.texts file.now).record_of shown)) }
    ensures write_failed { IsErrOf result Write → CountRises (W.failures out.old) (W.failures out.new) }
    ensures no_failed_write { result ≢ Err Write → W.failures out.new ≡ W.failures out.old }
{
    let time = file.time(read);
    if !is_changed {
        return put_after_header(alloc, file, is_header_out, time, file.text(read), out);
    }
    let changed = file.shown_text(alloc, read)?;
    put_after_header(alloc, file, is_header_out, time, changed.as_slice(), out)
}
