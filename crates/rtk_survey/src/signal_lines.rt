//! The lines of satellites and codes of a summary.

ghost use Rattle.std.specs.Prelude.{◌≡◌, ◌<◌, ◌≤◌, ◌++◌, false, get_or, IfOk, OnOk};
ghost use Rattle.rtk_obs.specs.AnyCode.{number_of};
ghost use Rattle.rtk_obs.specs.Code.{place_of};
ghost use Rattle.rtk_survey.specs.BitMarks.{is_marked_in};
ghost use Rattle.rtk_survey.specs.SummaryText as spec;
ghost use Rattle.rtk_survey.specs.SummaryText.{list_line, listed_satellite, satellites_text, codes_text, second_frequency_line, signal_lines};

use crate::signals::{CODES, SATELLITES, Signals};
use crate::system_signals::{AnyCodeMarks, INDICES, IndexMarks, SystemSignals};
use rtk_obs::{ALL_ANY_CODES, ALL_CODES, Code, SatelliteIndex, satellite_name};
use std::alloc::{AllocError, Global};

// A satellite after a blank, if it has a value.
fn put_satellite(
    text: &mut Vec<u8>,
    marks: &[bool; SATELLITES],
    satellite: u8,
) -> Result<(), AllocError>
    requires { satellite < 33 }
    ensures { OnOk result (text.new.items
        ≡ text.old.items ++ listed_satellite (λ n. get_or marks.now n false) satellite) }
{
    if marks[usize::from(satellite)] {
        text.extend_from_slice(&[b' ', b'G', b'0' + satellite / 10, b'0' + satellite % 10])?;
    }
    Ok(())
}

// The satellites that have a value.
fn satellites_text(alloc: Global, marks: &[bool; SATELLITES]) -> Result<Vec<u8>, AllocError>
    ensures { IfOk result (λ text. text.items ≡ satellites_text (λ n. get_or marks.now n false)) }
{
    let mut text = Vec::new(alloc);
    for satellite in 1u8..SATELLITES as u8 {
        put_satellite(&mut text, marks, satellite)?;
    }
    Ok(text)
}

/// The codes that have a value, as an option lists them.
pub(crate) fn codes_text(alloc: Global, marks: &[bool; CODES]) -> Result<Vec<u8>, AllocError>
    ensures { IfOk result (λ text. text.items ≡ codes_text (λ c. get_or marks.now (place_of c) false)) }
{
    let mut text = Vec::new(alloc);
    let mut separator = b' ';
    for code in &ALL_CODES {
        if marks[code.place()] {
            text.push(separator)?;
            text.extend_from_slice(&code.name())?;
            separator = b',';
        }
    }
    Ok(text)
}

// A satellite of another system than GPS after a blank, if it has a value.
fn put_index(text: &mut Vec<u8>, marks: &IndexMarks, index: u8) -> Result<(), AllocError>
    requires { (1 ≤ index) × (index < 222) }
    ensures { OnOk result (text.new.items ≡ text.old.items ++ spec.listed_index (λ n. is_marked_in marks.now.words n) index) }
{
    let Some(satellite) = SatelliteIndex::new(index) else {
        unreachable!();
    };
    if marks.is_marked(usize::from(index)) {
        text.push(b' ')?;
        text.extend_from_slice(&satellite_name(satellite))?;
    }
    Ok(())
}

// Appends the satellites of other systems than GPS that have a value.
fn put_indices(text: &mut Vec<u8>, marks: &IndexMarks) -> Result<(), AllocError>
    ensures { OnOk result (text.new.items ≡ text.old.items ++ spec.indices_text (λ n. is_marked_in marks.now.words n)) }
{
    for index in 33u8..INDICES {
        put_index(text, marks, index)?;
    }
    Ok(())
}

// What separates a name from those before it.
fn separator_behind(text: &[u8]) -> u8
    ensures { result ≡ spec.separator_behind text.now }
{
    if text.is_empty() { b' ' } else { b',' }
}

// Appends the codes of other systems than GPS that have a value, as an option lists them.
fn put_any_codes(names: &mut Vec<u8>, marks: &AnyCodeMarks) -> Result<(), AllocError>
    ensures { OnOk result (names.new.items
        ≡ names.old.items ++ spec.any_codes_text names.old.items (λ c. is_marked_in marks.now.words (number_of c))) }
{
    let mut separator = separator_behind(names.as_slice());
    for code in &ALL_ANY_CODES {
        if marks.is_marked(code.number()) {
            names.push(separator)?;
            names.extend_from_slice(&code.text())?;
            separator = b',';
        }
    }
    Ok(())
}

/// The codes of all systems that have a value, as an option lists them.
pub(crate) fn all_codes_text(
    alloc: Global,
    marks: &[bool; CODES],
    others: &AnyCodeMarks,
) -> Result<Vec<u8>, AllocError>
    ensures { IfOk result (λ text. text.items
        ≡ spec.all_codes_text (λ c. get_or marks.now (place_of c) false) (λ c. is_marked_in others.now.words (number_of c))) }
{
    let mut text = codes_text(alloc, marks)?;
    put_any_codes(&mut text, others)?;
    Ok(text)
}

// The satellites of all systems that have a value.
fn all_satellites_text(
    alloc: Global,
    marks: &[bool; SATELLITES],
    others: &IndexMarks,
) -> Result<Vec<u8>, AllocError>
    ensures { IfOk result (λ text. text.items
        ≡ satellites_text (λ n. get_or marks.now n false) ++ spec.indices_text (λ n. is_marked_in others.now.words n)) }
{
    let mut text = satellites_text(alloc, marks)?;
    put_indices(&mut text, others)?;
    Ok(text)
}

// A list, or a hyphen if it is empty.
fn put_list(lines: &mut Vec<u8>, words: &[u8], list: &[u8]) -> Result<(), AllocError>
    ensures { OnOk result (lines.new.items ≡ lines.old.items ++ list_line words.now list.now) }
{
    lines.extend_from_slice(words)?;
    if list.is_empty() {
        lines.extend_from_slice(b" -")?;
    } else {
        lines.extend_from_slice(list)?;
    }
    lines.push(b'\n')?;
    Ok(())
}

/// Appends the line of a second frequency 2P.
pub(crate) fn put_second_frequency(
    lines: &mut Vec<u8>,
    marks: &[bool; CODES],
) -> Result<(), AllocError>
    ensures { OnOk result (lines.new.items
        ≡ lines.old.items ++ second_frequency_line (λ c. get_or marks.now (place_of c) false)) }
{
    if marks[Code::G2P.place()] && !marks[Code::G2W.place()] {
        lines.extend_from_slice(b" second-frequency 2P\n")?;
    }
    Ok(())
}

/// Appends the satellites and the codes that have a value.
pub(crate) fn put_signals(
    alloc: Global,
    lines: &mut Vec<u8>,
    signals: &Signals,
    others: &SystemSignals,
) -> Result<(), AllocError>
    ensures { OnOk result (lines.new.items ≡ lines.old.items ++ signal_lines
        (λ n. get_or signals.now.satellites n false) (λ c. get_or signals.now.codes.marks (place_of c) false)
        (λ n. is_marked_in others.now.satellites.words n) (λ c. is_marked_in others.now.codes.words (number_of c))) }
{
    let satellites = all_satellites_text(alloc, &signals.satellites, &others.satellites)?;
    let codes = all_codes_text(alloc, &signals.codes.marks, &others.codes)?;
    put_list(lines, b" satellites", satellites.as_slice())?;
    put_list(lines, b" codes", codes.as_slice())?;
    Ok(())
}
