//! The command of `convert` that does what `auto` does, as text that can be pasted.
//!
//! If memory is refused, a first part of what is put may stand there.

ghost use Rattle.std.specs.Prelude.{◌≡◌, ◌≤◌, ◌++◌, OnOk};
ghost use Rattle.rtk_plan.specs.SaidCommand as spec;

use rtk_captures::put_time;
use rtk_message::{put_named, put_sh_quoted};
use rtk_obs::AnyCode;
use rtk_rinex::MixedHead;
use rtk_setup::Setup;
use rtk_systems::{is_gps_system, put_glonass_words, put_kinds_words};
use std::alloc::AllocError;

/// Appends a word that is no name of a file.
pub(crate) fn put_word(line: &mut Vec<u8>, word: &[u8]) -> Result<(), AllocError>
    ensures { OnOk result (line.new.items ≡ line.old.items ++ spec.word_text word.now) }
{
    let mut at = 0;
    while at < word.len() && word[at] == b'-' {
        line.push(b'-')?;
        at += 1;
    }
    put_sh_quoted(line, &word[at..])
}

/// Appends a code as an option lists it.
pub(crate) fn put_code(line: &mut Vec<u8>, code: AnyCode) -> Result<(), AllocError>
    ensures { OnOk result (line.new.items ≡ line.old.items ++ spec.said_code code) }
{
    if is_gps_system(code.system()) {
        line.extend_from_slice(&code.name())
    } else {
        line.extend_from_slice(&code.text())
    }
}

// Appends codes, the first after this separator.
fn put_codes(line: &mut Vec<u8>, codes: &[AnyCode]) -> Result<(), AllocError>
    ensures { OnOk result (line.new.items ≡ line.old.items ++ spec.code_names 32 codes.now) }
{
    let mut separator = b' ';
    for code in codes {
        line.push(separator)?;
        put_code(line, *code)?;
        separator = b',';
    }
    Ok(())
}

// Appends the command with the station and the reference.
#[tactic(auto, unfolding(crate::specs::SaidCommand::station_words))]
fn put_station_words(line: &mut Vec<u8>, setup: &Setup) -> Result<(), AllocError>
    ensures { OnOk result (line.new.items ≡ line.old.items ++ spec.station_words setup.now) }
{
    put_named(
        line,
        b"rtcm2rinex convert --station ",
        u64::from(setup.station()),
    )?;
    line.extend_from_slice(b" --near ")?;
    put_time(line, setup.near())?;
    Ok(())
}

// Appends the time of making and the marker.
#[tactic(auto, unfolding(crate::specs::SaidCommand::marker_words))]
fn put_marker_words(line: &mut Vec<u8>, head: &MixedHead) -> Result<(), AllocError>
    ensures { OnOk result (line.new.items ≡ line.old.items ++ spec.marker_words head.now) }
{
    line.extend_from_slice(b" --made ")?;
    put_time(line, head.made())?;
    line.extend_from_slice(b" --marker ")?;
    put_word(line, head.marker())?;
    Ok(())
}

// Appends the codes, the MSM and the window.
#[tactic(auto, unfolding(crate::specs::SaidCommand::value_words))]
fn put_value_words(line: &mut Vec<u8>, setup: &Setup) -> Result<(), AllocError>
    ensures { OnOk result (line.new.items ≡ line.old.items ++ spec.value_words setup.now) }
{
    line.extend_from_slice(b" --codes")?;
    put_codes(line, setup.head().codes())?;
    put_kinds_words(line, setup.kinds(), setup.head().codes())?;
    put_named(line, b" --window ", setup.window() as u64)?;
    Ok(())
}

fn put_leap_option(line: &mut Vec<u8>, seconds: u8) -> Result<(), AllocError>
    ensures { OnOk result (line.new.items ≡ line.old.items ++ spec.leap_option seconds) }
{
    put_named(line, b" --leap-seconds ", u64::from(seconds))?;
    Ok(())
}

fn put_leap_words(line: &mut Vec<u8>, leap_seconds: Option<u8>) -> Result<(), AllocError>
    ensures { OnOk result (line.new.items ≡ line.old.items ++ spec.leap_words leap_seconds) }
{
    match leap_seconds {
        Some(seconds) => put_leap_option(line, seconds),
        None => Ok(()),
    }
}

fn put_words_of_1012(line: &mut Vec<u8>, is_asked: bool) -> Result<(), AllocError>
    ensures { OnOk result (line.new.items ≡ line.old.items ++ spec.words_of_1012 is_asked) }
{
    if is_asked {
        line.extend_from_slice(b" --with-1012")?;
    }
    Ok(())
}

fn put_words_of_doppler(line: &mut Vec<u8>, is_asked: bool) -> Result<(), AllocError>
    ensures { OnOk result (line.new.items ≡ line.old.items ++ spec.words_of_doppler is_asked) }
{
    if is_asked {
        line.extend_from_slice(b" --doppler")?;
    }
    Ok(())
}

// Appends the command with its options.
#[tactic(auto, unfolding(crate::specs::SaidCommand::convert_words))]
fn put_convert_words(line: &mut Vec<u8>, setup: &Setup) -> Result<(), AllocError>
    ensures { OnOk result (line.new.items ≡ line.old.items ++ spec.convert_words setup.now) }
{
    put_station_words(line, setup)?;
    put_marker_words(line, setup.head())?;
    put_value_words(line, setup)?;
    put_glonass_words(line, setup.head().glonass())?;
    put_leap_words(line, setup.leap_seconds())?;
    put_words_of_1012(line, setup.takes_1012())?;
    put_words_of_doppler(line, setup.has_doppler())?;
    Ok(())
}

// Appends names of files, each after a blank.
fn put_names(line: &mut Vec<u8>, names: &[&str]) -> Result<(), AllocError>
    ensures { OnOk result (line.new.items ≡ line.old.items ++ spec.names_text names.now) }
{
    for name in names {
        line.push(b' ')?;
        put_sh_quoted(line, name.as_bytes())?;
    }
    Ok(())
}

// Appends files one after another.
fn put_cat(line: &mut Vec<u8>, names: &[&str]) -> Result<(), AllocError>
    ensures { OnOk result (line.new.items ≡ line.old.items ++ spec.cat_words names.now) }
{
    line.extend_from_slice(b"cat")?;
    put_names(line, names)
}

fn put_joined_name(line: &mut Vec<u8>, number: u64) -> Result<(), AllocError>
    ensures { OnOk result (line.new.items ≡ line.old.items ++ spec.joined_name number) }
{
    put_named(line, b"joined/", number)?;
    line.extend_from_slice(b".rtcm")
}

// Appends the line that joins the captures of a link, if it has several.
fn put_join_line(line: &mut Vec<u8>, number: u64, names: &[&str]) -> Result<(), AllocError>
    ensures { OnOk result (line.new.items ≡ line.old.items ++ spec.join_line number names.now) }
{
    if names.len() < 2 {
        return Ok(());
    }
    put_cat(line, names)?;
    line.extend_from_slice(b" >")?;
    put_joined_name(line, number)?;
    line.extend_from_slice(b" &&\n")
}

// Appends the file of a link.
fn put_link_word(line: &mut Vec<u8>, number: u64, names: &[&str]) -> Result<(), AllocError>
    ensures { OnOk result (line.new.items ≡ line.old.items ++ spec.link_word number names.now) }
{
    if names.len() < 2 {
        return put_names(line, names);
    }
    line.push(b' ')?;
    put_joined_name(line, number)
}

// Appends the lines that join captures.
fn put_join_lines(line: &mut Vec<u8>, links: &[Vec<&str>]) -> Result<(), AllocError>
    ensures { OnOk result (line.new.items ≡ line.old.items ++ spec.join_lines 1 links.now) }
{
    let mut number = 1;
    for link in links {
        put_join_line(line, number, link.as_slice())?;
        number += 1;
    }
    Ok(())
}

// Appends the files of links.
fn put_link_words(line: &mut Vec<u8>, links: &[Vec<&str>]) -> Result<(), AllocError>
    ensures { OnOk result (line.new.items ≡ line.old.items ++ spec.link_words 1 links.now) }
{
    let mut number = 1;
    for link in links {
        put_link_word(line, number, link.as_slice())?;
        number += 1;
    }
    Ok(())
}

// Appends the command of captures that are all of one link.
fn put_one_link(lines: &mut Vec<u8>, setup: &Setup, names: &[&str]) -> Result<(), AllocError>
    ensures { OnOk result (lines.new.items ≡ lines.old.items ++ spec.one_link_text (spec.convert_words setup.now) names.now) }
{
    put_cat(lines, names)?;
    lines.extend_from_slice(b" | ")?;
    put_convert_words(lines, setup)?;
    lines.extend_from_slice(b" stdin\n")?;
    Ok(())
}

// Are captures of a link joined?
fn has_joined(links: &[Vec<&str>]) -> bool
    ensures { result ≡ spec.has_joined links.now }
{
    links.iter().any(|link| 1 < link.len())
}

// Appends the line that makes a folder for the files of links, if captures are joined.
fn put_folder_line(line: &mut Vec<u8>, links: &[Vec<&str>]) -> Result<(), AllocError>
    ensures { OnOk result (line.new.items ≡ line.old.items ++ spec.folder_line links.now) }
{
    if has_joined(links) {
        line.extend_from_slice(b"mkdir joined &&\n")?;
    }
    Ok(())
}

// Appends the lines of several links.
fn put_several_links(
    lines: &mut Vec<u8>,
    setup: &Setup,
    links: &[Vec<&str>],
) -> Result<(), AllocError>
    ensures { OnOk result (lines.new.items ≡ lines.old.items ++ spec.several_links_text (spec.convert_words setup.now) links.now) }
{
    put_folder_line(lines, links)?;
    put_join_lines(lines, links)?;
    put_convert_words(lines, setup)?;
    put_link_words(lines, links)?;
    lines.push(b'\n')?;
    Ok(())
}

/// Appends the command of this setup and these links, each of them the names of its captures.
pub fn put_command(
    lines: &mut Vec<u8>,
    setup: &Setup,
    links: &[Vec<&str>],
) -> Result<(), AllocError>
    ensures { OnOk result (lines.new.items ≡ lines.old.items ++ spec.command_text (spec.convert_words setup.now) links.now) }
{
    if links.len() == 1 && links[0].len() > 1 {
        put_one_link(lines, setup, links[0].as_slice())
    } else {
        put_several_links(lines, setup, links)
    }
}
