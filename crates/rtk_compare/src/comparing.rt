//! The comparison of two files.

ghost use Rattle.std.specs.Prelude.{◌≡◌, OnOk, OnErr};
ghost use Rattle.rtk_compare.specs.Differences.{AddsDifferences};

use crate::findings::Findings;
use crate::headers::compare_headers;
use crate::records::compare_records;
use crate::shared_codes::SharedCodes;
use crate::track::Track;
use rtk_rinex::MixedTextTable;
use std::alloc::{AllocError, Global};

// The tracks of 221 satellites, 16 of each; none has the number 0.
const TRACKS: usize = 3552;

/// Adds the differences of two files: what the new one has not as the old one has it, and why.
///
/// It takes memory for what it remembers of each satellite and code. If that is refused, nothing is added.
pub fn compare(
    alloc: Global,
    old: &MixedTextTable<'_>,
    new: &MixedTextTable<'_>,
    findings: &mut Findings,
) -> Result<(), AllocError>
    ensures added { OnOk result (AddsDifferences findings.old findings.new old.now.text new.now.text) }
    ensures refused { OnErr result (findings.new ≡ findings.old) }
{
    let mut tracks = vec![in alloc; Track::none(); TRACKS]?;
    let old_heading = old.heading();
    let new_heading = new.heading();
    compare_headers(&old_heading, &new_heading, findings);
    let shared = SharedCodes::of(&old_heading.head, &new_heading.head);
    compare_records(
        &shared,
        tracks.as_mut_slice(),
        old.records(),
        new.records(),
        findings,
    );
    Ok(())
}
