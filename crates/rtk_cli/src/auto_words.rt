//! The words of `auto`: its options, as clap's answer fills them, and what they say.

ghost use Rattle.std.specs.Prelude.{◌≡◌, IfOk, IfErr, Decides};
ghost use Rattle.std.specs.Option.{ForSome};
ghost use Rattle.rtk_rinex.specs.MixedHead.{IsMixedList};
ghost use Rattle.rtk_cli.specs.FaultLines.{IsRefusal};
ghost use Rattle.rtk_cli.specs.Steps.AutoWords.{SaysFlags, SaysCodes, SaysMarker, IsCauseOfCodes, RefusesAuto};
ghost use Rattle.rtk_cli.specs.Steps.ChannelList.{WritesChannels};
ghost use Rattle.rtk_cli.specs.Steps.ConvertWords.{HasBadChannels};
ghost use Rattle.rtk_cli.specs.Steps.MomentText.{WritesMoment};
ghost use Rattle.rtk_cli.specs.Steps.OptionTexts.{SaysIfAny};
ghost use Rattle.rtk_cli.specs.Steps.SystemLetters.{HasNoSystems};

use crate::channel_list::channels_said;
use crate::code_words::{any_codes_said, in_file_order};
use crate::option_numbers::{leap_seconds_of, msm_of, station_of, value_if_any, window_of};
use crate::option_texts::{made_if_any, marker_if_any, moment_if_any, reference_if_any};
use crate::system_letters::systems_named;
use crate::words::{AutoWords, BadWords, WordsFault};
use clap::ArgMatches;
use rtk_convert::{MOST_WINDOW, Window};
use rtk_message::MsmKind;
use rtk_obs::{AnyCode, Channels};
use rtk_plan::{Wanted, Ways};
use rtk_rinex::{SystemFlags, is_mixed_list};
use rtk_setup::{LeapSeconds, Station};
use std::alloc::Global;

/// The options of `auto`. `None` is to be found in the captures, or chosen.
#[derive(Drop)]
pub(crate) struct AutoOptions<'a> {
    pub(crate) station: Option<Station>,
    /// The text of the reference near which times of week are dated.
    pub(crate) near: Option<&'a str>,
    /// The text of the moment at which the file is made.
    pub(crate) made: Option<&'a str>,
    /// The marker's name.
    pub(crate) marker: Option<&'a str>,
    /// The names of the observation codes, with commas between.
    pub(crate) codes: Option<&'a str>,
    /// The letters of the systems that are converted, if there are no names of codes.
    pub(crate) systems: Option<&'a str>,
    /// The text of the channels of GLONASS.
    pub(crate) channels: Option<&'a str>,
    /// The leap seconds by which clocks of GLONASS are dated, in place of the table's.
    pub(crate) leap_seconds: Option<LeapSeconds>,
    /// How many epochs are kept open.
    pub(crate) window: Option<Window>,
    /// Which MSM is converted beside 1004.
    pub(crate) msm: Option<MsmKind>,
    /// The file shows Doppler shifts.
    pub(crate) doppler: bool,
    pub(crate) ways: Ways<'a>,
}

fn ways_of<'a>(words: &ArgMatches<'a>) -> Ways<'a> {
    Ways {
        output: words.get_str("output"),
        force: words.get_flag("force"),
        label: words.get_flag("label"),
        skip_empty: words.get_flag("skip-empty"),
        links_as_given: words.get_flag("links-as-given"),
        report: words.get_flag("report"),
    }
}

/// The options of `auto`.
pub(crate) fn auto_options<'a>(words: &ArgMatches<'a>) -> Option<AutoOptions<'a>> {
    Some(AutoOptions {
        station: value_if_any(words.get_one::<u32>("station").map(station_of))?,
        near: words.get_str("near"),
        made: words.get_str("made"),
        marker: words.get_str("marker"),
        codes: words.get_str("codes"),
        systems: words.get_str("systems"),
        channels: words.get_str("channels"),
        leap_seconds: value_if_any(words.get_one::<u32>("leap-seconds").map(leap_seconds_of))?,
        window: value_if_any(words.get_one::<u32>("window").map(window_of))?,
        msm: value_if_any(words.get_one::<u32>("msm").map(msm_of))?,
        doppler: words.get_flag("doppler"),
        ways: ways_of(words),
    })
}

// The codes, if any are given, in the order of a file. Whether they are good together is not looked at.
fn codes_if_any(alloc: Global, text: Option<&str>) -> Result<Option<Vec<AnyCode>>, WordsFault>
    ensures said { IfOk result (SaysIfAny SaysCodes text.entry) }
    // `OutOfMemory` comes only if memory is refused: tests/system/calls, rows `job of auto ..`.
    ensures refused { IfErr result (IsRefusal (IsCauseOfCodes text.entry)) }
{
    let Some(text) = text else {
        return Ok(None);
    };
    let codes = any_codes_said(alloc, text)?;
    Ok(Some(in_file_order(alloc, codes.as_slice())?))
}

// Are the codes good together, if any are given?
fn are_good_codes(codes: &Option<Vec<AnyCode>>) -> bool
    ensures { Decides result (ForSome codes.now (λ codes. IsMixedList codes.items)) }
{
    match codes {
        Some(codes) => is_mixed_list(codes.as_slice()),
        None => true,
    }
}

// The systems that are converted: all, if none are named.
fn systems_said(text: Option<&str>) -> Result<SystemFlags, BadWords>
    ensures said { IfOk result (SaysFlags text.entry) }
    ensures cause { IfErr result (λ told. (told ≡ BadWords.Systems) × HasNoSystems text.entry) }
{
    let Some(text) = text else {
        return Ok(SystemFlags::ALL);
    };
    let systems = systems_named(text)?;
    Ok(systems)
}

// The channels, if any are given.
fn channels_if_any(alloc: Global, text: Option<&str>) -> Result<Option<Channels>, WordsFault>
    ensures said { IfOk result (SaysIfAny WritesChannels text.entry) }
    // `OutOfMemory` comes only if memory is refused: tests/system/calls, rows `job of auto ..`.
    ensures refused { IfErr result (IsRefusal (λ cause. (cause ≡ BadWords.Channels) × HasBadChannels text.entry)) }
{
    let Some(text) = text else {
        return Ok(None);
    };
    let channels = channels_said(alloc, text)?;
    Ok(Some(channels))
}

// The window if none is given: the greatest one, since of files nothing has to go out early.
fn greatest_window() -> Window {
    let Ok(window) = Window::new(MOST_WINDOW) else {
        unreachable!();
    };
    window
}

/// What the options say. The causes are looked for in the order of `BadWords`.
pub(crate) fn auto_words<'a>(
    alloc: Global,
    options: &AutoOptions<'a>,
) -> Result<AutoWords<'a>, WordsFault>
    ensures codes { IfOk result (λ words. SaysIfAny SaysCodes options.now.codes words.wanted.codes) }
    ensures systems { IfOk result (λ words. SaysFlags options.now.systems words.wanted.systems) }
    ensures channels { IfOk result (λ words. SaysIfAny WritesChannels options.now.channels words.wanted.channels) }
    ensures leap_seconds { IfOk result (λ words. words.wanted.leap_seconds ≡ options.now.leap_seconds) }
    ensures values { IfOk result (λ words. (words.wanted.station ≡ options.now.station) × (words.wanted.msm ≡ options.now.msm)
        × (words.wanted.doppler ≡ options.now.doppler)) }
    ensures near { IfOk result (λ words. SaysIfAny WritesMoment options.now.near words.wanted.near) }
    ensures marker { IfOk result (λ words. SaysIfAny SaysMarker options.now.marker words.wanted.marker) }
    ensures made { IfOk result (λ words. SaysIfAny WritesMoment options.now.made words.made) }
    // `OutOfMemory` comes only if memory is refused: tests/system/calls, rows `job of auto ..`.
    ensures refused { IfErr result (RefusesAuto options.now) }
{
    let near = moment_if_any(options.near, BadWords::NearOfAuto)?;
    let made = made_if_any(options.made, BadWords::MadeOfAuto)?;
    let codes = codes_if_any(alloc, options.codes)?;
    let marker = marker_if_any(options.marker)?;
    if !are_good_codes(&codes) {
        return Err(BadWords::Codes.into());
    }
    let channels = channels_if_any(alloc, options.channels)?;
    let systems = systems_said(options.systems)?;
    let reference = reference_if_any(near, BadWords::NearOfAuto)?;
    let wanted = Wanted {
        station: options.station,
        msm: options.msm,
        codes,
        systems,
        channels,
        leap_seconds: options.leap_seconds,
        near: reference,
        marker,
        window: options.window.unwrap_or(greatest_window()),
        doppler: options.doppler,
    };
    Ok(AutoWords {
        wanted,
        made,
        ways: options.ways,
    })
}
