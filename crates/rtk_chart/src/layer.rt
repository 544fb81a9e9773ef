//! The layers of a code's bar.

ghost use Rattle.std.specs.Prelude.{◌≡◌, ◌<◌, ◌++◌, map, IfOk};
ghost use Rattle.rtk_chart.specs.Grid.{tracking_at, marks_at};
ghost use Rattle.rtk_chart.specs.Layers.{shows};

use crate::code_marks::CodeMarks;
use crate::signs::marks_at;
use crate::time_bin::TimeBin;
use std::alloc::{AllocError, Global};

/// What of a code's marks is drawn.
#[derive(Clone, Copy)]
pub(crate) enum Layer {
    /// The phase.
    Phase,
    /// The phase, with this least strength digit, 0 for none.
    Level { level: u8 },
    /// The phase is missing in some epochs of the bin, which may be all.
    Missing,
    /// The phase is missing in some epochs, and not in all.
    Part,
    /// The phase is missing in all epochs.
    Absent,
    Slip,
    Return,
    Rise,
    Half,
}

fn shows(layer: Layer, marks: CodeMarks) -> bool
    ensures { result ≡ shows layer marks }
{
    match layer {
        Layer::Phase => marks.phase,
        Layer::Level { level } => marks.phase && marks.least.unwrap_or(0) == level,
        Layer::Missing => marks.missing,
        Layer::Part => marks.phase && marks.missing,
        Layer::Absent => marks.missing && !marks.phase,
        Layer::Slip => marks.slip,
        Layer::Return => marks.returned,
        Layer::Rise => marks.rise,
        Layer::Half => marks.half,
    }
}

/// In which bins a layer of the code at one place of the satellite at another is drawn.
pub(crate) fn flags(
    alloc: Global,
    bins: &[TimeBin],
    place: usize,
    code: usize,
    layer: Layer,
) -> Result<Vec<bool>, AllocError>
    requires { place < 32 }
    ensures { IfOk result (λ flags. flags.items ≡ map (λ bin. shows layer (marks_at code (tracking_at place bin))) bins.now) }
{
    let mut flags = Vec::new(alloc);
    for bin in bins {
        flags.push(shows(layer, marks_at(&bin.satellites[place], code)))?;
    }
    Ok(flags)
}
