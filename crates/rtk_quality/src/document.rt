//! The numbers of a file.

ghost use Rattle.std.specs.Prelude.{◌≡◌, ◌≤◌, ℕ, List, length, map, ◌++◌, Option, IfOk, OnOk};
ghost use Rattle.rtk_obs.specs.AnyCode.{code_of_gps};
ghost use Rattle.rtk_rinex.specs.Record.{EpochTableView};
ghost use Rattle.rtk_quality.specs.Records.{unit_of};
ghost use Rattle.rtk_quality.specs.QualityText.{no_lists, close_text, gaps_part, signals_part, station_part, body_text, quality_text, text_of_none, TellsQuality};
ghost use Rattle.rtk_quality.specs.Standing.{StandForSatellites, StandForEnded, HasCounted};

use crate::file_counts::{EndedPass, FileCounts, count_file, satellites_in, station_sums};
use crate::form::{Form, put_either, put_end};
use crate::gaps::Gap;
use crate::heading::{ListedCounts, put_heading, put_marker};
use crate::largest::Largest;
use crate::lines::put_count;
use crate::satellite_counts::SatelliteCounts;
use crate::sections::{Section, put_codes, put_section};
use crate::station::{
    put_bursts, put_falls, put_gaps, put_hours, put_missing, put_moments, put_outages, put_runs,
};
use rtk_obs::{AnyCode, Code, GpsMs, civil};
use rtk_rinex::TextTable;
use rtk_tracking::interval;
use std::alloc::{AllocError, Global};

/// Appends the end of the document.
pub(crate) fn put_close(text: &mut Vec<u8>, form: Form) -> Result<(), AllocError>
    ensures { OnOk result (text.new.items ≡ text.old.items ++ close_text form) }
{
    match form {
        Form::Table | Form::Lines => Ok(()),
        Form::Json => text.extend_from_slice(b"}\n"),
    }
}

// Appends the lists of a file without records, which are empty.
fn put_no_lists(text: &mut Vec<u8>, form: Form) -> Result<(), AllocError>
    ensures { OnOk result (text.new.items ≡ text.old.items ++ no_lists form) }
{
    put_either(
        text,
        form,
        b"",
        b",\n\"codes\":[],\n\"satellites\":[],\n\"tracked\":[],\n\"never\":[],\n\"passes\":[],\n\"hours\":[],\n\"gaps\":[],\n\"falls\":[],\n\"outages\":[],\n\"slips_together\":[],\n\"bursts\":[],\n\"half_runs\":[],\n\"missing_codes\":[]",
    )
}

// The numbers of a file without records.
#[tactic(auto, unfolding(crate::specs::QualityText::text_of_none))]
fn text_of_none(alloc: Global, form: Form, marker: &[u8]) -> Result<Vec<u8>, AllocError>
    ensures { IfOk result (λ text. text.items ≡ text_of_none form marker.now) }
{
    let mut text = Vec::new(alloc);
    put_marker(&mut text, form, marker)?;
    put_count(&mut text, form, b"\nrecords ", b",\"records\":", 0)?;
    put_end(&mut text, form)?;
    put_no_lists(&mut text, form)?;
    put_close(&mut text, form)?;
    Ok(text)
}

// Appends the gaps, if this is the part of a whole file.
fn put_gaps_of_file(
    text: &mut Vec<u8>,
    whole: bool,
    form: Form,
    gaps: &Largest<Gap>,
) -> Result<(), AllocError>
    ensures { OnOk result (text.new.items ≡ text.old.items ++ gaps_part whole form gaps.now.count gaps.now.things.items) }
{
    if whole {
        return put_gaps(text, form, gaps);
    }
    Ok(())
}

// Appends the hours, gaps and falls, and what else happened.
fn put_station_lines(
    alloc: Global,
    text: &mut Vec<u8>,
    whole: bool,
    form: Form,
    codes: &[AnyCode],
    counts: &FileCounts,
) -> Result<(), AllocError>
    ensures { OnOk result ((most : ℕ) (interval : Option ℕ) (unit : ℕ) (es : List EpochTableView) → HasCounted counts.now most interval unit codes.now es
        → text.new.items ≡ text.old.items ++ station_part whole form codes.now most interval unit es) }
{
    let hours = counts.hours.all(alloc)?;
    put_hours(text, form, codes, hours.as_slice())?;
    put_gaps_of_file(text, whole, form, &counts.gaps)?;
    put_falls(text, form, hours.as_slice())?;
    put_outages(text, form, &counts.events.outages)?;
    put_moments(text, form, &counts.moments)?;
    put_bursts(text, form, &counts.events.bursts)?;
    put_runs(text, form, &counts.events.runs)?;
    put_missing(text, form, &counts.missing)?;
    Ok(())
}

// Appends the codes of the station, and what each section has of the satellites.
#[tactic(auto, unfolding(crate::specs::QualityText::signals_part))]
fn put_signals(
    text: &mut Vec<u8>,
    form: Form,
    codes: &[AnyCode],
    satellites: &[SatelliteCounts],
    ended: &[EndedPass],
) -> Result<(), AllocError>
    requires few { length codes.now ≤ 16 }
    requires size { length satellites.now ≤ 221 }
    ensures { OnOk result ((most : ℕ) (interval : Option ℕ) (es : List EpochTableView) → StandForSatellites satellites.now most interval es → StandForEnded ended.now most interval es
        → text.new.items ≡ text.old.items ++ signals_part form codes.now most interval es) }
{
    put_codes(text, form, codes, satellites)?;
    put_section(text, form, Section::Codes, codes, satellites, ended)?;
    put_section(text, form, Section::Tracked, codes, satellites, ended)?;
    put_section(text, form, Section::Never, codes, satellites, ended)?;
    put_section(text, form, Section::Passes, codes, satellites, ended)?;
    Ok(())
}

/// Appends what follows the heading, of a whole file or of one of its systems.
#[tactic(auto, unfolding(crate::specs::QualityText::body_text))]
pub(crate) fn put_body(
    alloc: Global,
    text: &mut Vec<u8>,
    whole: bool,
    form: Form,
    codes: &[AnyCode],
    counts: &FileCounts,
) -> Result<(), AllocError>
    requires few { length codes.now ≤ 16 }
    requires size { length counts.now.satellites.items ≤ 221 }
    ensures { OnOk result ((most : ℕ) (interval : Option ℕ) (unit : ℕ) (es : List EpochTableView) → HasCounted counts.now most interval unit codes.now es
        → text.new.items ≡ text.old.items ++ body_text whole form codes.now most interval unit es) }
{
    let satellites = counts.satellites.as_slice();
    let ended = counts.ended.as_slice();
    match form {
        Form::Table => {
            put_station_lines(alloc, text, whole, form, codes, counts)?;
            put_signals(text, form, codes, satellites, ended)?;
            Ok(())
        }
        Form::Lines | Form::Json => {
            put_signals(text, form, codes, satellites, ended)?;
            put_station_lines(alloc, text, whole, form, codes, counts)?;
            Ok(())
        }
    }
}

// The numbers of a file with records.
fn text_of(
    alloc: Global,
    form: Form,
    marker: &[u8],
    codes: &[AnyCode],
    first: GpsMs,
    last: GpsMs,
    interval: Option<u64>,
    counts: &FileCounts,
) -> Result<Vec<u8>, AllocError>
    requires few { length codes.now ≤ 16 }
    requires size { length counts.now.satellites.items ≤ 221 }
    ensures { IfOk result (λ text. (most : ℕ) (es : List EpochTableView) → HasCounted counts.now most interval (unit_of interval) codes.now es
        → text.items ≡ quality_text form marker.now codes.now first last most interval es) }
{
    let satellites = counts.satellites.as_slice();
    let seen = satellites_in(satellites) as u64;
    let sums = station_sums(satellites);
    let listed = ListedCounts::of(counts);
    let from = civil(first);
    let until = civil(last);
    let mut text = Vec::new(alloc);
    put_heading(
        &mut text,
        form,
        marker,
        from,
        until,
        interval,
        seen,
        &counts.records,
        &listed,
        &sums,
    )?;
    put_body(alloc, &mut text, true, form, codes, counts)?;
    put_close(&mut text, form)?;
    Ok(text)
}

// The codes of any system that these codes of GPS are.
fn codes_of_gps(alloc: Global, listed: &[Code]) -> Result<Vec<AnyCode>, AllocError>
    ensures { IfOk result (λ codes. codes.items ≡ map code_of_gps listed.now) }
{
    let mut codes = Vec::new(alloc);
    for code in listed {
        codes.push(AnyCode::of_gps(*code))?;
    }
    Ok(codes)
}

/// The numbers of a file as text: as a table for a person, as lines, each of which begins with a keyword, or
/// as one JSON object with whole numbers in the units that its keys name. All forms tell the same counts.
///
/// It tells nothing of multipath.
pub fn quality(alloc: Global, form: Form, table: &TextTable<'_>) -> Result<Vec<u8>, AllocError>
    // Fails only if memory is refused: tests/system/calls, row quality.
    ensures { IfOk result (λ text. TellsQuality form table.now.text text.items) }
{
    let heading = table.heading();
    let marker = heading.head.marker();
    let listed = codes_of_gps(alloc, heading.head.codes())?;
    let codes = listed.as_slice();
    let interval = interval(alloc, table)?;
    let counts = count_file(alloc, table, codes, interval)?;
    match counts.records.last {
        Some(last) => {
            let first = heading.first;
            let text = text_of(alloc, form, marker, codes, first, last, interval, &counts)?;
            Ok(text)
        }
        None => {
            let text = text_of_none(alloc, form, marker)?;
            Ok(text)
        }
    }
}
