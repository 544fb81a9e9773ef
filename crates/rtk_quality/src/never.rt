//! The codes of which satellites have no phase, code by code in a table.

ghost use Rattle.std.specs.Prelude.{◌≡◌, ◌<◌, ◌≤◌, ◌++◌, ℕ, List, length, Option, OnOk};
ghost use Rattle.rtk_rinex.specs.Record.{EpochTableView};
ghost use Rattle.rtk_tracking.specs.Passes.{Sighting};
ghost use Rattle.rtk_quality.specs.Never.{is_without, is_without_at, without_before, row_end, row_start, row_part, never_row, never_rows};
ghost use Rattle.rtk_quality.specs.Standing.{StandsForSatellite, StandForSatellites};

use crate::rows::put_satellite;
use crate::satellite_counts::SatelliteCounts;
use crate::satellites::satellite_at;
use rtk_obs::AnyCode;
use std::alloc::AllocError;

/// How many satellites stand in a row behind a code.
const IN_ROW: u64 = 19;

// Is the satellite in the file, and has no phase of the code at this place?
fn is_without(counts: &SatelliteCounts, at: usize) -> bool
    requires { at < 16 }
    ensures { (interval : Option ℕ) (before : List Sighting) → StandsForSatellite counts.now interval before → result ≡ is_without interval before at }
{
    counts.is_in_file() && counts.numbers(at).counts.phases == 0
}

// How many satellites before a place have no phase of the code at a place.
fn without_before(satellites: &[SatelliteCounts], at: usize, place: usize) -> u64
    requires at { at < 16 }
    requires place { place ≤ length satellites.now }
    ensures { (most : ℕ) (interval : Option ℕ) (es : List EpochTableView) → StandForSatellites satellites.now most interval es → result ≡ without_before interval es at place }
{
    let mut count = 0;
    for before in 0..place {
        if is_without(&satellites[before], at) {
            count += 1;
        }
    }
    count
}

// Appends the end of a row, unless none has begun.
fn put_row_end(text: &mut Vec<u8>, count: u64) -> Result<(), AllocError>
    ensures { OnOk result (text.new.items ≡ text.old.items ++ row_end count) }
{
    if count == 0 {
        return Ok(());
    }
    text.extend_from_slice(b"\n")
}

// Appends what stands before a satellite that follows so many others.
fn put_start(text: &mut Vec<u8>, code: AnyCode, count: u64) -> Result<(), AllocError>
    ensures { OnOk result (text.new.items ≡ text.old.items ++ row_start code count) }
{
    if count % IN_ROW != 0 {
        return Ok(());
    }
    put_row_end(text, count)?;
    text.extend_from_slice(&code.name())
}

// Appends the satellite at a place, if it has no phase of the code.
fn put_part(
    text: &mut Vec<u8>,
    satellites: &[SatelliteCounts],
    code: AnyCode,
    at: usize,
    place: usize,
) -> Result<(), AllocError>
    requires at { at < 16 }
    requires place { place < length satellites.now }
    requires size { length satellites.now ≤ 221 }
    ensures { OnOk result ((most : ℕ) (interval : Option ℕ) (es : List EpochTableView) → StandForSatellites satellites.now most interval es
        → text.new.items ≡ text.old.items ++ row_part interval es code at place) }
{
    if !is_without(&satellites[place], at) {
        return Ok(());
    }
    put_start(text, code, without_before(satellites, at, place))?;
    text.extend_from_slice(b" ")?;
    put_satellite(text, satellite_at(place))?;
    Ok(())
}

// Appends the satellites that have no phase of a code.
fn put_never_row(
    text: &mut Vec<u8>,
    satellites: &[SatelliteCounts],
    at: usize,
    code: AnyCode,
) -> Result<(), AllocError>
    requires at { at < 16 }
    requires size { length satellites.now ≤ 221 }
    ensures { OnOk result ((most : ℕ) (interval : Option ℕ) (es : List EpochTableView) → StandForSatellites satellites.now most interval es
        → text.new.items ≡ text.old.items ++ never_row most interval es at code) }
{
    for place in 0..satellites.len() {
        put_part(text, satellites, code, at, place)?;
    }
    put_row_end(text, without_before(satellites, at, satellites.len()))?;
    Ok(())
}

/// Appends the satellites that have no phase of a code, code by code.
pub(crate) fn put_never_rows(
    text: &mut Vec<u8>,
    codes: &[AnyCode],
    satellites: &[SatelliteCounts],
) -> Result<(), AllocError>
    requires few { length codes.now ≤ 16 }
    requires size { length satellites.now ≤ 221 }
    ensures { OnOk result ((most : ℕ) (interval : Option ℕ) (es : List EpochTableView) → StandForSatellites satellites.now most interval es
        → text.new.items ≡ text.old.items ++ never_rows most interval es codes.now) }
{
    for (at, code) in codes.iter().enumerate() {
        put_never_row(text, satellites, at, *code)?;
    }
    Ok(())
}
