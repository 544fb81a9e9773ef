//! The words of `chart`: its options, as clap's answer fills them, and which satellites they choose.

ghost use Rattle.std.specs.Prelude.{◌≡◌, ℕ, List, IfOk, IfErr, IfSome, MatchOption};
ghost use Rattle.std.specs.Option.{ForSome};
ghost use Rattle.rtk_obs.specs.SatelliteIndex.{IsSatelliteIndex};
ghost use Rattle.rtk_chart.specs.Choice.{is_chosen};
ghost use Rattle.rtk_chart.specs.Chart.{IsWidth};
ghost use Rattle.rtk_cli.specs.FaultLines.{IsRefusal};
ghost use Rattle.rtk_cli.specs.Steps.ChartWords.{ListsSatellites, is_of_system, is_named, SaysSystems, SaysSatellites, HasNoSatellites, SaysChoice, RefusesChoice};
ghost use Rattle.rtk_cli.specs.Steps.SystemLetters.{HasNoSystems};

use crate::system_letters::are_systems;
use crate::words::{BadWords, WordsFault};
use clap::ArgMatches;
use rtk_chart::{Choice, Chosen, LEAST_WIDTH, MOST_WIDTH};
use rtk_obs::{SatelliteIndex, satellite_name, satellite_named};
use std::alloc::{AllocError, Global};

/// How many characters wide a picture is if no number is given. It is not a default value of clap's,
/// as the window has one: without `--text` a picture has no such width.
const COLUMNS: u32 = 80;

/// The options of `chart`.
#[derive(Drop)]
pub(crate) struct ChartOptions<'a> {
    /// How many characters wide the picture is; `None` is a picture in SVG.
    pub(crate) width: Option<u16>,
    /// The letters of the systems that are drawn.
    pub(crate) systems: Option<&'a str>,
    /// The names of the satellites that are drawn, with commas between.
    pub(crate) satellites: Option<&'a str>,
}

// The width of the picture of `chart` in characters; `Some(None)` is a picture in SVG.
fn chart_width(words: &ArgMatches<'_>) -> Option<Option<u16>>
    ensures { IfSome result (λ width. ForSome width IsWidth) }
{
    if !words.get_flag("text") {
        return Some(None);
    }
    let width = words.get_one::<u32>("columns").unwrap_or(COLUMNS);
    if width < u32::from(LEAST_WIDTH) || width > u32::from(MOST_WIDTH) {
        return None;
    }
    Some(Some(width as u16))
}

/// The options of `chart`.
pub(crate) fn chart_options<'a>(words: &ArgMatches<'a>) -> Option<ChartOptions<'a>>
    ensures { IfSome result (λ options. ForSome options.width IsWidth) }
{
    Some(ChartOptions {
        width: chart_width(words)?,
        systems: words.get_str("systems"),
        satellites: words.get_str("satellites"),
    })
}

// The satellites whose names a text lists, with commas between; a satellite may stand twice. `None` if it is no such
// list.
fn satellites_of(alloc: Global, text: &[u8]) -> Result<Option<Vec<SatelliteIndex>>, AllocError>
    // An error comes only if memory is refused: tests/system/calls, rows `job of chart ..`.
    ensures { IfOk result (λ listed. MatchOption listed ((satellites : List ℕ) → ¬ (ListsSatellites text.now satellites)) (λ satellites. ListsSatellites text.now satellites.items)) }
{
    let mut satellites = Vec::new(alloc);
    let mut rest = text;
    loop {
        let Some((name, tail)) = rest.split_first_chunk::<3>() else {
            return Ok(None);
        };
        let Some(satellite) = satellite_named(name) else {
            return Ok(None);
        };
        satellites.push(satellite)?;
        let Some((comma, next)) = tail.split_first() else {
            return Ok(Some(satellites));
        };
        if *comma != b',' {
            return Ok(None);
        }
        rest = next;
    }
}

// A satellite is of a system of these letters.
fn is_of_system(letters: &[u8], satellite: SatelliteIndex) -> bool
    ensures { result ≡ is_of_system letters.now satellite }
{
    let [letter, _, _] = satellite_name(satellite);
    letters.contains(&letter)
}

// A satellite is of a system of these letters, or is listed.
fn is_named(letters: &[u8], listed: &[SatelliteIndex], satellite: SatelliteIndex) -> bool
    ensures { result ≡ is_named letters.now listed.now satellite }
{
    is_of_system(letters, satellite) || listed.contains(&satellite)
}

// The satellites that are of a system of these letters, or listed.
fn chosen_by(letters: &[u8], listed: &[SatelliteIndex]) -> Chosen
    ensures { (i : ℕ) → IsSatelliteIndex i → is_chosen result i ≡ is_named letters.now listed.now i }
{
    let mut places = [false; 221];
    for place in 0u8..221 {
        let Some(satellite) = SatelliteIndex::new(place + 1) else {
            unreachable!();
        };
        places[usize::from(place)] = is_named(letters, listed, satellite);
    }
    Chosen { places }
}

// The letters of systems that an option names; without it there are none.
fn systems_said<'a>(text: Option<&'a str>) -> Result<&'a [u8], BadWords>
    ensures said { IfOk result (λ letters. SaysSystems text.entry letters.now) }
    ensures cause { IfErr result (λ told. (told ≡ BadWords.Systems) × HasNoSystems text.entry) }
{
    let Some(text) = text else {
        return Ok(b"");
    };
    if are_systems(text.as_bytes()) {
        return Ok(text.as_bytes());
    }
    Err(BadWords::Systems)
}

// The satellites that an option lists; without it there are none.
fn satellites_said(alloc: Global, text: Option<&str>) -> Result<Vec<SatelliteIndex>, WordsFault>
    ensures said { IfOk result (λ listed. SaysSatellites text.entry listed.items) }
    // `OutOfMemory` comes only if memory is refused: tests/system/calls, rows `job of chart ..`.
    ensures refused { IfErr result (IsRefusal (λ cause. (cause ≡ BadWords.Satellites) × HasNoSatellites text.entry)) }
{
    let Some(text) = text else {
        return Ok(Vec::new(alloc));
    };
    match satellites_of(alloc, text.as_bytes())? {
        Some(satellites) => Ok(satellites),
        None => Err(BadWords::Satellites.into()),
    }
}

/// The satellites that the options choose: all without an option, else those of a system that is named, and those
/// that are listed. The first cause why they choose none is told: the form of `--systems`, and last the form of
/// `--satellites`.
pub(crate) fn choice_of(alloc: Global, options: &ChartOptions<'_>) -> Result<Choice, WordsFault>
    ensures said { IfOk result (SaysChoice options.now) }
    // `OutOfMemory` comes only if memory is refused: tests/system/calls, rows `job of chart ..`.
    ensures refused { IfErr result (IsRefusal (RefusesChoice options.now)) }
{
    if options.systems.is_none() && options.satellites.is_none() {
        return Ok(Choice::All);
    }
    let letters = systems_said(options.systems)?;
    let listed = satellites_said(alloc, options.satellites)?;
    Ok(Choice::These(chosen_by(letters, listed.as_slice())))
}
