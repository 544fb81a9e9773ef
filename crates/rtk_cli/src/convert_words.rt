//! The words of `convert`: its options, as clap's answer fills them, and what they and the links say.

ghost use Rattle.std.specs.Prelude.{map, ◌≡◌, ◌≤◌, None, IfOk, IfErr, Decides};
ghost use Rattle.rtk_rinex.specs.MixedHead.{has_glonass, IsGlonassView, TellsGlonass};
ghost use Rattle.rtk_setup.specs.Rates.{without_rates};
ghost use Rattle.rtk_cli.specs.FaultLines.{IsRefusal};
ghost use Rattle.rtk_cli.specs.Steps.ConvertWords.{SaysConversion, RefusesConversion, IsLeapSecondsOf, SaysGlonass, IsHeadOf, IsGlonassCause, IsShiftsCause, IsHeadCause, with_given, with_1012_if};
ghost use Rattle.rtk_cli.specs.Words.{AreLinkNames, IsWithinLimits};

use crate::channel_list::channels_said;
use crate::code_words::{any_codes_said, in_file_order};
use crate::option_numbers::{kinds_said, leap_seconds_of, station_of, value_if_any, window_of};
use crate::option_texts::{made_said, marker_said, moment_said, reference_said};
use crate::words::{BadWords, Job, WordsFault};
use clap::ArgMatches;
use rtk_commands::STDIN;
use rtk_convert::LinkCount;
use rtk_message::System;
use rtk_obs::{AnyCode, Channels, GpsMs, leap_seconds_at};
use rtk_rinex::{CreationTime, Glonass, Marker, MixedHead, is_mixed_list};
use rtk_setup::{LeapSeconds, Setup, Station, SystemKinds, Window, without_rates};
use std::alloc::Global;

/// The options of `convert`.
#[derive(Drop)]
pub(crate) struct ConvertOptions<'a> {
    pub(crate) station: Station,
    /// The text of the reference near which times of week are dated.
    pub(crate) near: &'a str,
    /// The text of the moment at which the file is made.
    pub(crate) made: &'a str,
    /// The marker's name.
    pub(crate) marker: &'a str,
    /// The names of the observation codes, with commas between.
    pub(crate) codes: &'a str,
    /// How many epochs are kept open.
    pub(crate) window: Window,
    /// The kind of MSM that is converted of each system.
    pub(crate) kinds: SystemKinds,
    /// The text of the channels of GLONASS.
    pub(crate) channels: Option<&'a str>,
    /// The leap seconds by which clocks of GLONASS are dated, in place of the table's.
    pub(crate) leap_seconds: Option<LeapSeconds>,
    /// The 1012 are converted too.
    pub(crate) with_1012: bool,
    /// The file shows Doppler shifts.
    pub(crate) doppler: bool,
}

/// The options of `convert`.
pub(crate) fn convert_options<'a>(words: &ArgMatches<'a>) -> Option<ConvertOptions<'a>> {
    Some(ConvertOptions {
        station: station_of(words.get_one::<u32>("station")?)?,
        near: words.get_str("near")?,
        made: words.get_str("made")?,
        marker: words.get_str("marker")?,
        codes: words.get_str("codes")?,
        window: window_of(words.get_one::<u32>("window")?)?,
        kinds: kinds_said(words)?,
        channels: words.get_str("channels"),
        leap_seconds: value_if_any(words.get_one::<u32>("leap-seconds").map(leap_seconds_of))?,
        with_1012: words.get_flag("with-1012"),
        doppler: words.get_flag("doppler"),
    })
}

// A listed code is of GLONASS.
fn has_glonass(listed: &[AnyCode]) -> bool
    ensures { result ≡ has_glonass listed.now }
{
    for code in listed {
        if code.text()[0] == b'R' {
            return true;
        }
    }
    false
}

// The leap seconds that are given, or those of the table at the reference.
fn seconds_of(leap_seconds: Option<LeapSeconds>, near: GpsMs) -> u8
    ensures said { IsLeapSecondsOf leap_seconds near result }
    ensures bound { result ≤ 99 }
{
    match leap_seconds {
        Some(given) => given.number(),
        None => leap_seconds_at(near),
    }
}

// What a header tells of GLONASS: these channels, and the leap seconds.
fn glonass_of(channels: Channels, leap_seconds: Option<LeapSeconds>, near: GpsMs) -> Glonass
    ensures channels { result.channels ≡ channels }
    ensures leap_seconds { IsLeapSecondsOf leap_seconds near result.leap_seconds }
    ensures good { IsGlonassView result }
{
    let Some(glonass) = Glonass::new(channels, seconds_of(leap_seconds, near)) else {
        unreachable!();
    };
    glonass
}

// What the options tell of GLONASS, for a file with these codes. Channels without a code of GLONASS are refused as bad
// ones, and 1012 need such a code.
fn glonass_said(
    alloc: Global,
    options: &ConvertOptions,
    listed: &[AnyCode],
    near: GpsMs,
) -> Result<Option<Glonass>, WordsFault>
    ensures said { IfOk result (SaysGlonass options.now listed.now near) }
    ensures due { IfOk result (TellsGlonass listed.now) }
    // `OutOfMemory` comes only if memory is refused: tests/system/calls, rows `job of convert ..`.
    ensures refused { IfErr result (IsRefusal (IsGlonassCause options.now listed.now)) }
{
    let is_due = has_glonass(listed);
    let text = match options.channels {
        Some(text) => text,
        None => {
            if is_due {
                return Err(BadWords::NoChannels.into());
            }
            if options.with_1012 {
                return Err(BadWords::NoGlonass.into());
            }
            return Ok(None);
        }
    };
    let channels = channels_said(alloc, text)?;
    if !is_due {
        return Err(BadWords::Channels.into());
    }
    Ok(Some(glonass_of(channels, options.leap_seconds, near)))
}

// The head of a file with Doppler shifts, if they are asked for. The MSM of each listed system has range rates then.
fn head_with_shifts(
    head: MixedHead,
    is_asked: bool,
    kinds: SystemKinds,
) -> Result<MixedHead, BadWords>
    ensures head { IfOk result (λ h. h ≡ record head { doppler = is_asked }) }
    ensures rates { IfOk result (λ h. without_rates is_asked kinds head.listed ≡ None) }
    ensures cause { IfErr result (IsShiftsCause is_asked kinds head.listed) }
{
    match without_rates(is_asked, kinds, head.codes()) {
        Some(system) => Err(BadWords::NoRates(system)),
        None => Ok(head.with_doppler_if(is_asked)),
    }
}

// The head of a file with these codes, and what the options tell of GLONASS and of Doppler shifts.
fn head_said(
    alloc: Global,
    options: &ConvertOptions,
    marker: Marker,
    codes: &[AnyCode],
    made: CreationTime,
    near: GpsMs,
) -> Result<MixedHead, WordsFault>
    ensures said { IfOk result (IsHeadOf options.now marker codes.now made near) }
    // `OutOfMemory` comes only if memory is refused: tests/system/calls, rows `job of convert ..`.
    ensures refused { IfErr result (IsRefusal (IsHeadCause options.now codes.now)) }
{
    let listed = in_file_order(alloc, codes)?;
    if !is_mixed_list(listed.as_slice()) {
        return Err(BadWords::Codes.into());
    }
    let glonass = glonass_said(alloc, options, listed.as_slice(), near)?;
    let Ok(head) = MixedHead::new(marker, listed.as_slice(), glonass, made) else {
        unreachable!();
    };
    let shown = head_with_shifts(head, options.doppler, options.kinds)?;
    Ok(shown)
}

// The setup with these kinds.
fn with_kinds(setup: Setup, kinds: SystemKinds) -> Setup
    ensures { result ≡ record setup { kinds = kinds } }
{
    setup
        .with_kind(System::Gps, kinds.gps)
        .with_kind(System::Glonass, kinds.glonass)
        .with_kind(System::Galileo, kinds.galileo)
        .with_kind(System::Beidou, kinds.beidou)
        .with_kind(System::Qzss, kinds.qzss)
        .with_kind(System::Sbas, kinds.sbas)
        .with_kind(System::Navic, kinds.navic)
}

// The setup with these leap seconds, if any are given.
fn with_leap_seconds(setup: Setup, leap_seconds: Option<LeapSeconds>) -> Setup
    ensures given { result ≡ with_given setup leap_seconds }
    ensures station { result.station ≡ setup.station }
    ensures window { result.window ≡ setup.window }
{
    match leap_seconds {
        Some(given) => setup.with_leap_seconds(given),
        None => setup,
    }
}

// The setup that takes 1012 too, if they are to be converted.
fn with_1012_if(setup: Setup, is_asked: bool) -> Setup
    ensures given { result ≡ with_1012_if setup is_asked }
    ensures station { result.station ≡ setup.station }
    ensures window { result.window ≡ setup.window }
{
    if is_asked { setup.with_1012() } else { setup }
}

/// The conversion that the options and the links say. The causes are looked for in the order that
/// `BadWords` says.
pub(crate) fn convert_job<'a>(
    alloc: Global,
    options: &ConvertOptions,
    links: Vec<&'a str>,
) -> Result<Job<'a>, WordsFault>
    ensures said { IfOk result (SaysConversion options.now (map (λ link. link.now) links.entry.items)) }
    ensures limits { IfOk result IsWithinLimits }
    // `OutOfMemory` comes only if memory is refused: tests/system/calls, rows `job of convert ..`.
    ensures refused { IfErr result (RefusesConversion options.now (map (λ link. link.now) links.entry.items)) }
{
    let moment = moment_said(options.near, BadWords::Near)?;
    let made = made_said(options.made, BadWords::Made)?;
    let codes = any_codes_said(alloc, options.codes)?;
    let marker = marker_said(options.marker)?;
    let head = head_said(alloc, options, marker, codes.as_slice(), made, moment)?;
    if !are_links(links.as_slice()) {
        return Err(BadWords::Links.into());
    }
    let near = reference_said(moment, BadWords::Near)?;
    let setup = Setup::mixed(options.station, near, head, options.window);
    let setup = with_leap_seconds(with_kinds(setup, options.kinds), options.leap_seconds);
    let setup = with_1012_if(setup, options.with_1012);
    Ok(Job::Convert { setup, links })
}

// Can these be the links of a conversion: 1 to 16, and standard input at most once?
fn are_links(names: &[&str]) -> bool
    ensures { Decides result (AreLinkNames (map (λ n. n.now) names.now)) }
{
    let standard = names.iter().filter(|name| **name == STDIN).count();
    LinkCount::new(names.len()).is_ok() && standard <= 1
}
