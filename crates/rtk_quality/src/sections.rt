//! The codes and the satellites.

ghost use Rattle.std.specs.Prelude.{◌≡◌, ◌==◌, ◌<◌, ◌≤◌, ℕ, ◌+◌, List, ◌++◌, length, reverse, flat_map, OnOk, Option};
ghost use Rattle.rtk_rinex.specs.Record.{EpochTableView};
ghost use Rattle.rtk_tracking.specs.Passes.{Sighting};
ghost use Rattle.rtk_quality.specs.Entries.{code_entry, pass_entry};
ghost use Rattle.rtk_quality.specs.Quality.{numbers_of, code_of_station, satellites_in};
ghost use Rattle.rtk_quality.specs.SatellitePasses.{passes_of};
ghost use Rattle.rtk_quality.specs.QualityText.{each_code, code_in, part_of, parts_of, section_entries, section_heading, section_key, section_text, codes_text};
ghost use Rattle.rtk_quality.specs.declared.sections.Section.TheVariants.{Never};
ghost use Rattle.rtk_quality.specs.Standing.{ended_of, StandsForSatellite, HasEnded, StandForSatellites, StandForEnded};

use crate::code_numbers::CodeNumbers;
use crate::entries::{put_code_entry, put_pass_entry, put_satellite_entry, put_tracked_entry};
use crate::file_counts::{EndedPass, possible_in, satellites_in, totals_of};
use crate::form::Form;
use crate::lines::put_never_line;
use crate::lists::{begin_list, end_list};
use crate::never::put_never_rows;
use crate::satellite_counts::SatelliteCounts;
use crate::satellites::satellite_at;
use rtk_obs::{AnyCode, SatelliteIndex};
use std::alloc::AllocError;

/// What a section has of each satellite.
#[derive(Clone, Copy)]
pub(crate) enum Section {
    /// The codes that it has.
    Codes,
    /// The sums of all its codes.
    Tracked,
    /// The codes of the file of which it has no phase.
    Never,
    /// Its passes.
    Passes,
}

// The heading of a section in a table. The codes of satellites follow those of the station.
fn section_heading(section: Section) -> &'static [u8]
    ensures { result.now ≡ section_heading section }
{
    match section {
        Section::Codes => b"",
        Section::Tracked => b"\nsat    phases  slips  moments  outages        time\n",
        Section::Never => b"\nnever a phase\n",
        Section::Passes => {
            b"\nsat from                until               phases slips moments  out      time\n"
        }
    }
}

// The key of a section in JSON.
fn section_key(section: Section) -> &'static [u8]
    ensures { result.now ≡ section_key section }
{
    match section {
        Section::Codes => b",\n\"satellites\":[",
        Section::Tracked => b",\n\"tracked\":[",
        Section::Never => b",\n\"never\":[",
        Section::Passes => b",\n\"passes\":[",
    }
}

// Appends each code over all satellites that have it.
fn put_each_code(
    text: &mut Vec<u8>,
    form: Form,
    codes: &[AnyCode],
    satellites: &[SatelliteCounts],
) -> Result<(), AllocError>
    requires { length codes.now ≤ 16 }
    ensures { OnOk result ((most : ℕ) (interval : Option ℕ) (es : List EpochTableView) → StandForSatellites satellites.now most interval es
        → text.new.items ≡ text.old.items ++ each_code (λ place code. code_entry form code (satellites_in most interval es) (code_of_station most interval es place)) 0 codes.now) }
{
    let tracked = satellites_in(satellites) as u64;
    let possible = possible_in(satellites);
    for (at, code) in codes.iter().enumerate() {
        let numbers = totals_of(satellites, at).of_station(possible);
        put_code_entry(text, form, *code, tracked, &numbers)?;
    }
    Ok(())
}

/// Appends the codes of the station.
pub(crate) fn put_codes(
    text: &mut Vec<u8>,
    form: Form,
    codes: &[AnyCode],
    satellites: &[SatelliteCounts],
) -> Result<(), AllocError>
    requires { length codes.now ≤ 16 }
    ensures { OnOk result ((most : ℕ) (interval : Option ℕ) (es : List EpochTableView) → StandForSatellites satellites.now most interval es
        → text.new.items ≡ text.old.items ++ codes_text form codes.now most interval es) }
{
    let start = begin_list(
        text,
        form,
        b"\n                            ranges                             strength in dB-Hz\nsignal phases     of      %   only slips returns rises half     min  mean    max\n",
        b",\n\"codes\":[",
    )?;
    put_each_code(text, form, codes, satellites)?;
    end_list(text, form, start)?;
    Ok(())
}

// Appends what a section has of a code of a satellite.
fn put_code_in(
    text: &mut Vec<u8>,
    form: Form,
    section: Section,
    satellite: SatelliteIndex,
    code: AnyCode,
    numbers: &CodeNumbers,
) -> Result<(), AllocError>
    ensures { OnOk result (text.new.items ≡ text.old.items ++ code_in form section satellite code numbers.now) }
{
    match section {
        Section::Codes if numbers.counts.seen => {
            put_satellite_entry(text, form, satellite, code, numbers)
        }
        Section::Never if numbers.counts.phases == 0 => {
            put_never_line(text, form, satellite, code)
        }
        _ => Ok(()),
    }
}

// Appends what a section has of the codes of a satellite.
fn put_codes_in(
    text: &mut Vec<u8>,
    form: Form,
    section: Section,
    codes: &[AnyCode],
    satellite: SatelliteIndex,
    counts: &SatelliteCounts,
) -> Result<(), AllocError>
    requires { length codes.now ≤ 16 }
    ensures { OnOk result ((interval : Option ℕ) (before : List Sighting) → StandsForSatellite counts.now interval before
        → text.new.items ≡ text.old.items ++ each_code (λ place code. code_in form section satellite code (numbers_of interval before place)) 0 codes.now) }
{
    for (at, code) in codes.iter().enumerate() {
        put_code_in(text, form, section, satellite, *code, &counts.numbers(at))?;
    }
    Ok(())
}

// Is a pass of this satellite?
fn is_of(one: &EndedPass, satellite: SatelliteIndex) -> bool
    ensures { result ≡ (one.now.satellite == satellite) }
{
    one.satellite.index() == satellite.index()
}

// Appends the passes of a satellite that ended.
fn put_ended(
    text: &mut Vec<u8>,
    form: Form,
    satellite: SatelliteIndex,
    ended: &[EndedPass],
) -> Result<(), AllocError>
    ensures { OnOk result (text.new.items ≡ text.old.items ++ flat_map (pass_entry form satellite) (ended_of satellite ended.now)) }
{
    for one in ended {
        if is_of(one, satellite) {
            put_pass_entry(text, form, satellite, &one.pass)?;
        }
    }
    Ok(())
}

// Appends the passes of a satellite, from the first to the last.
fn put_passes(
    text: &mut Vec<u8>,
    form: Form,
    satellite: SatelliteIndex,
    counts: &SatelliteCounts,
    ended: &[EndedPass],
) -> Result<(), AllocError>
    ensures { OnOk result ((interval : Option ℕ) (before : List Sighting) → StandsForSatellite counts.now interval before → HasEnded ended.now interval before satellite
        → text.new.items ≡ text.old.items ++ flat_map (pass_entry form satellite) (reverse (passes_of interval before))) }
{
    put_ended(text, form, satellite, ended)?;
    match counts.last {
        Some(pass) => {
            put_pass_entry(text, form, satellite, &pass)?;
            Ok(())
        }
        None => Ok(()),
    }
}

// Appends what a section has of a satellite.
fn put_part(
    text: &mut Vec<u8>,
    form: Form,
    section: Section,
    codes: &[AnyCode],
    satellite: SatelliteIndex,
    counts: &SatelliteCounts,
    ended: &[EndedPass],
) -> Result<(), AllocError>
    requires { length codes.now ≤ 16 }
    ensures { OnOk result ((interval : Option ℕ) (before : List Sighting) → StandsForSatellite counts.now interval before → HasEnded ended.now interval before satellite
        → text.new.items ≡ text.old.items ++ part_of form section codes.now interval before satellite) }
{
    match section {
        Section::Codes => put_codes_in(text, form, section, codes, satellite, counts),
        Section::Tracked | Section::Never if !counts.is_in_file() => Ok(()),
        Section::Tracked => put_tracked_entry(text, form, satellite, &counts.sums()),
        Section::Never => put_codes_in(text, form, section, codes, satellite, counts),
        Section::Passes => put_passes(text, form, satellite, counts, ended),
    }
}

// Appends what a section has of each satellite.
fn put_parts(
    text: &mut Vec<u8>,
    form: Form,
    section: Section,
    codes: &[AnyCode],
    satellites: &[SatelliteCounts],
    ended: &[EndedPass],
) -> Result<(), AllocError>
    requires few { length codes.now ≤ 16 }
    requires size { length satellites.now ≤ 221 }
    ensures { OnOk result ((most : ℕ) (interval : Option ℕ) (es : List EpochTableView) → StandForSatellites satellites.now most interval es → StandForEnded ended.now most interval es
        → text.new.items ≡ text.old.items ++ parts_of form section codes.now most interval es) }
{
    for (place, counts) in satellites.iter().enumerate() {
        let satellite = satellite_at(place);
        put_part(text, form, section, codes, satellite, counts, ended)?;
    }
    Ok(())
}

// Appends the codes of which satellites have no phase: in a table by code, and else by satellite.
fn put_never(
    text: &mut Vec<u8>,
    form: Form,
    codes: &[AnyCode],
    satellites: &[SatelliteCounts],
    ended: &[EndedPass],
) -> Result<(), AllocError>
    requires few { length codes.now ≤ 16 }
    requires size { length satellites.now ≤ 221 }
    ensures { OnOk result ((most : ℕ) (interval : Option ℕ) (es : List EpochTableView) → StandForSatellites satellites.now most interval es → StandForEnded ended.now most interval es
        → text.new.items ≡ text.old.items ++ section_entries form Never codes.now most interval es) }
{
    match form {
        Form::Table => put_never_rows(text, codes, satellites),
        Form::Lines | Form::Json => {
            put_parts(text, form, Section::Never, codes, satellites, ended)
        }
    }
}

// Appends the entries of a section.
fn put_entries(
    text: &mut Vec<u8>,
    form: Form,
    section: Section,
    codes: &[AnyCode],
    satellites: &[SatelliteCounts],
    ended: &[EndedPass],
) -> Result<(), AllocError>
    requires few { length codes.now ≤ 16 }
    requires size { length satellites.now ≤ 221 }
    ensures { OnOk result ((most : ℕ) (interval : Option ℕ) (es : List EpochTableView) → StandForSatellites satellites.now most interval es → StandForEnded ended.now most interval es
        → text.new.items ≡ text.old.items ++ section_entries form section codes.now most interval es) }
{
    match section {
        Section::Never => put_never(text, form, codes, satellites, ended),
        Section::Codes | Section::Tracked | Section::Passes => {
            put_parts(text, form, section, codes, satellites, ended)
        }
    }
}

/// Appends a section.
pub(crate) fn put_section(
    text: &mut Vec<u8>,
    form: Form,
    section: Section,
    codes: &[AnyCode],
    satellites: &[SatelliteCounts],
    ended: &[EndedPass],
) -> Result<(), AllocError>
    requires few { length codes.now ≤ 16 }
    requires size { length satellites.now ≤ 221 }
    ensures { OnOk result ((most : ℕ) (interval : Option ℕ) (es : List EpochTableView) → StandForSatellites satellites.now most interval es → StandForEnded ended.now most interval es
        → text.new.items ≡ text.old.items ++ section_text form section codes.now most interval es) }
{
    let heading = section_heading(section);
    let key = section_key(section);
    let start = begin_list(text, form, heading, key)?;
    put_entries(text, form, section, codes, satellites, ended)?;
    end_list(text, form, start)?;
    Ok(())
}
