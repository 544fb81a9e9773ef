//! Paths of bins in an SVG picture.

ghost use Rattle.std.specs.Prelude.{◌≡◌, ◌≤◌, ◌<◌, ◌+◌, ◌*◌, ◌++◌, length, OnOk};
ghost use Rattle.rtk_chart.specs.SvgPath.{edge_of, middle_of, run_part, runs_text, mark_part, marks_text};

use crate::scale::MOST_BINS;
use rtk_message::put_named;
use std::alloc::AllocError;

/// How wide the bins are together, in units of SVG.
const WIDTH: u64 = MOST_BINS;

/// Where a bin of so many begins.
pub(crate) fn edge(bins: u64, bin: u64) -> u64
    requires some { 0 < bins }
    requires within { bin ≤ bins }
    requires few { bins ≤ 1440 }
    ensures value { result ≡ edge_of bins bin }
    ensures bound { result ≤ 1440 }
{
    bin * WIDTH / bins
}

// The middle of a bin of so many.
fn middle(bins: u64, bin: u64) -> u64
    requires within { bin < bins }
    requires few { bins ≤ 1440 }
    ensures { result ≡ middle_of bins bin }
{
    (edge(bins, bin) + edge(bins, bin + 1)) / 2
}

// The part of a path between two bins: a run begins, or it ends. Within a run and outside of one the
// path needs no part.
fn put_run_part(
    text: &mut Vec<u8>,
    begin: &[u8],
    end: &[u8],
    x: u64,
    was: bool,
    now: bool,
) -> Result<(), AllocError>
    ensures { OnOk result (text.new.items ≡ text.old.items ++ run_part begin.now end.now x was now) }
{
    if was == now {
        return Ok(());
    }
    if now {
        put_named(text, b"M", x)?;
        return text.extend_from_slice(begin);
    }
    put_named(text, b"H", x)?;
    text.extend_from_slice(end)
}

/// Appends forms over the bins that are flagged, which begin and end in this way.
pub(crate) fn put_runs(
    text: &mut Vec<u8>,
    begin: &[u8],
    end: &[u8],
    flags: &[bool],
) -> Result<(), AllocError>
    requires { length flags.now ≤ 1440 }
    ensures { OnOk result (text.new.items ≡ text.old.items ++ runs_text begin.now end.now flags.now) }
{
    let bins = flags.len() as u64;
    let mut was = false;
    for bin in 0..flags.len() {
        let x = edge(bins, bin as u64);
        put_run_part(text, begin, end, x, was, flags[bin])?;
        was = flags[bin];
    }
    put_run_part(text, begin, end, WIDTH, was, false)?;
    Ok(())
}

fn put_mark_part(text: &mut Vec<u8>, form: &[u8], x: u64, flag: bool) -> Result<(), AllocError>
    ensures { OnOk result (text.new.items ≡ text.old.items ++ mark_part form.now x flag) }
{
    if !flag {
        return Ok(());
    }
    put_named(text, b"M", x)?;
    text.extend_from_slice(form)
}

/// Appends a form in each bin that is flagged.
pub(crate) fn put_marks(text: &mut Vec<u8>, form: &[u8], flags: &[bool]) -> Result<(), AllocError>
    requires { length flags.now ≤ 1440 }
    ensures { OnOk result (text.new.items ≡ text.old.items ++ marks_text form.now flags.now) }
{
    let bins = flags.len() as u64;
    for bin in 0..flags.len() {
        put_mark_part(text, form, middle(bins, bin as u64), flags[bin])?;
    }
    Ok(())
}
