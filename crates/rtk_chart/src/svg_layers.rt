//! The bar of a code of a satellite in an SVG picture: its strength, where it is missing, and its marks.

ghost use Rattle.std.specs.Prelude.{◌≡◌, ◌≤◌, ◌<◌, ◌++◌, length, count_by, IfOk, OnOk};
ghost use Rattle.std.specs.List.{list_any};
ghost use Rattle.rtk_chart.specs.SvgPicture.{columns_of, path_start, runs_path, runs_layer, marks_path, marks_layer, level_paths, missing_paths, lock_paths};

use crate::layer::{Layer, flags};
use crate::svg_path::{put_marks, put_runs};
use crate::time_bin::TimeBin;
use std::alloc::{AllocError, Global};

// Is a bin flagged?
fn is_any_flagged(flags: &[bool]) -> bool
    ensures { result ≡ list_any (λ b. b) flags.now }
{
    flags.iter().any(|flag| *flag)
}

// How many bins are flagged.
fn count_of(flags: &[bool]) -> u64
    ensures { result ≡ count_by (λ b. b) flags.now }
{
    flags.iter().filter(|flag| **flag).count() as u64
}

/// In how many bins a layer of a code of a satellite is drawn.
pub(crate) fn columns_of(
    alloc: Global,
    bins: &[TimeBin],
    place: usize,
    code: usize,
    layer: Layer,
) -> Result<u64, AllocError>
    requires { place < 32 }
    ensures { IfOk result (λ count. count ≡ columns_of bins.now place code layer) }
{
    let flags = flags(alloc, bins, place, code, layer)?;
    Ok(count_of(flags.as_slice()))
}

fn put_path_start(text: &mut Vec<u8>, class: &[u8]) -> Result<(), AllocError>
    ensures { OnOk result (text.new.items ≡ text.old.items ++ path_start class.now) }
{
    text.extend_from_slice(b"<path class='")?;
    text.extend_from_slice(class)?;
    text.extend_from_slice(b"' d='")?;
    Ok(())
}

// Appends a path of forms over the bins that are flagged.
fn put_runs_path(
    text: &mut Vec<u8>,
    class: &[u8],
    begin: &[u8],
    end: &[u8],
    flags: &[bool],
) -> Result<(), AllocError>
    requires { length flags.now ≤ 1440 }
    ensures { OnOk result (text.new.items ≡ text.old.items ++ runs_path class.now begin.now end.now flags.now) }
{
    put_path_start(text, class)?;
    put_runs(text, begin, end, flags)?;
    text.extend_from_slice(b"'/>\n")?;
    Ok(())
}

/// Appends a path of forms over the bins that are flagged, if there are any.
pub(crate) fn put_runs_layer(
    text: &mut Vec<u8>,
    class: &[u8],
    begin: &[u8],
    end: &[u8],
    flags: &[bool],
) -> Result<(), AllocError>
    requires { length flags.now ≤ 1440 }
    ensures { OnOk result (text.new.items ≡ text.old.items ++ runs_layer class.now begin.now end.now flags.now) }
{
    if is_any_flagged(flags) {
        put_runs_path(text, class, begin, end, flags)?;
    }
    Ok(())
}

// Appends a path of a form in the bins that are flagged.
fn put_marks_path(
    text: &mut Vec<u8>,
    class: &[u8],
    form: &[u8],
    flags: &[bool],
) -> Result<(), AllocError>
    requires { length flags.now ≤ 1440 }
    ensures { OnOk result (text.new.items ≡ text.old.items ++ marks_path class.now form.now flags.now) }
{
    put_path_start(text, class)?;
    put_marks(text, form, flags)?;
    text.extend_from_slice(b"'/>\n")?;
    Ok(())
}

// Appends a path of a form in the bins that are flagged, if there are any.
fn put_marks_layer(
    text: &mut Vec<u8>,
    class: &[u8],
    form: &[u8],
    flags: &[bool],
) -> Result<(), AllocError>
    requires { length flags.now ≤ 1440 }
    ensures { OnOk result (text.new.items ≡ text.old.items ++ marks_layer class.now form.now flags.now) }
{
    if is_any_flagged(flags) {
        put_marks_path(text, class, form, flags)?;
    }
    Ok(())
}

/// Appends the bar of a code, with its strength.
pub(crate) fn put_levels(
    alloc: Global,
    text: &mut Vec<u8>,
    bins: &[TimeBin],
    place: usize,
    code: usize,
) -> Result<(), AllocError>
    requires place { place < 32 }
    requires few { length bins.now ≤ 1440 }
    ensures { OnOk result (text.new.items ≡ text.old.items ++ level_paths bins.now place code) }
{
    for level in 0u8..10 {
        let class = [b'l', b'0' + level];
        let flags = flags(alloc, bins, place, code, Layer::Level { level })?;
        put_runs_layer(text, &class, b" 10", b"", flags.as_slice())?;
    }
    Ok(())
}

/// Appends the boxes of a bar where the code is missing.
pub(crate) fn put_missing(
    alloc: Global,
    text: &mut Vec<u8>,
    bins: &[TimeBin],
    place: usize,
    code: usize,
) -> Result<(), AllocError>
    requires place { place < 32 }
    requires few { length bins.now ≤ 1440 }
    ensures { OnOk result (text.new.items ≡ text.old.items ++ missing_paths bins.now place code) }
{
    let part = flags(alloc, bins, place, code, Layer::Part)?;
    let absent = flags(alloc, bins, place, code, Layer::Absent)?;
    put_runs_layer(text, b"p", b" 10v-6", b"v6z", part.as_slice())?;
    put_runs_layer(text, b"m", b" 16v-12", b"v12z", absent.as_slice())?;
    Ok(())
}

/// Appends the slips, half cycles, returns and rises of a bar, the largest marks first, because later ones lie over them.
pub(crate) fn put_locks(
    alloc: Global,
    text: &mut Vec<u8>,
    bins: &[TimeBin],
    place: usize,
    code: usize,
) -> Result<(), AllocError>
    requires place { place < 32 }
    requires few { length bins.now ≤ 1440 }
    ensures { OnOk result (text.new.items ≡ text.old.items ++ lock_paths bins.now place code) }
{
    let slips = flags(alloc, bins, place, code, Layer::Slip)?;
    let halves = flags(alloc, bins, place, code, Layer::Half)?;
    let returns = flags(alloc, bins, place, code, Layer::Return)?;
    let rises = flags(alloc, bins, place, code, Layer::Rise)?;
    put_marks_layer(text, b"s", b" 20l-7-21h14z", slips.as_slice())?;
    put_marks_layer(text, b"h", b" 8l6 6l-6 6l-6-6z", halves.as_slice())?;
    put_marks_layer(text, b"a", b" 10l-9-5v10z", returns.as_slice())?;
    put_marks_layer(text, b"r", b" 5l9 5l-9 5z", rises.as_slice())?;
    Ok(())
}
