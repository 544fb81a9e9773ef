//! The text of what was found, as lines or as JSON.

ghost use Rattle.std.specs.Prelude.{◌≡◌, ◌++◌, ◌||◌, nat_lt, length, OnOk, IfOk, flat_map};
ghost use Rattle.rtk_obs.specs.Reading.{reading_of};
ghost use Rattle.rtk_compare.specs.Answer.{in_form, class_word, what_word, keyed_word, epoch_word, satellite_text, time_of_place, satellite_of_place, code_of_place, slot_of_place, place_text, class_text, difference_text, count_text, class_counts, more_line, class_lines, lines_text, object_text, objects_text, json_of, answer_text};
ghost use Rattle.rtk_compare.specs.declared.form.Form.TheVariants.{Lines, Json};

use crate::difference::{Class, Difference, Place, What};
use crate::findings::{Findings, Found, MOST_OF_CLASS};
use crate::form::Form;
use rtk_message::put_number;
use rtk_obs::{Civil, GpsMs, SatelliteIndex, civil, put_civil, satellite_name};
use std::alloc::{AllocError, Global};

impl Class {
    // Returns the word of a class.
    fn word(self) -> &'static [u8]
        ensures { result.now ≡ class_word self }
    {
        match self {
            Class::Lost => b"lost",
            Class::Changed => b"changed",
            Class::Explained => b"explained",
        }
    }
}

impl What {
    // Returns the word of what differs.
    fn word(self) -> &'static [u8]
        ensures { result.now ≡ what_word self }
    {
        match self {
            What::Marker => b"marker",
            What::Position => b"position",
            What::Height => b"height",
            What::Code => b"code",
            What::Channel => b"channel",
            What::LeapSeconds => b"leap-seconds",
            What::RunBy => b"run-by",
            What::MarkerNumber => b"marker-number",
            What::Observer => b"observer",
            What::Agency => b"agency",
            What::ReceiverNumber => b"receiver-number",
            What::ReceiverType => b"receiver-type",
            What::ReceiverVersion => b"receiver-version",
            What::AntennaNumber => b"antenna-number",
            What::AntennaType => b"antenna-type",
            What::DeltaHeight => b"delta-height",
            What::DeltaEast => b"delta-east",
            What::DeltaNorth => b"delta-north",
            What::Epoch => b"epoch",
            What::Satellite => b"satellite",
            What::Range => b"range",
            What::Phase => b"phase",
            What::Strength => b"strength",
            What::Doppler => b"doppler",
            What::Finer => b"finer",
            What::Roll => b"roll",
            What::Slip => b"slip",
            What::FirstSlip => b"first-slip",
            What::FilledSlip => b"filled-slip",
            What::NewSlip => b"new-slip",
            What::HalfCycle => b"half-cycle",
        }
    }
}

// Appends a text in a line, or another one in JSON.
fn put_either(text: &mut Vec<u8>, form: Form, line: &[u8], json: &[u8]) -> Result<(), AllocError>
    ensures { OnOk result (text.new.items ≡ text.old.items ++ in_form form line.now json.now) }
{
    match form {
        Form::Lines => text.extend_from_slice(line),
        Form::Json => text.extend_from_slice(json),
    }
}

// Appends a word after a blank, or in quotes after its key.
fn put_word(text: &mut Vec<u8>, form: Form, key: &[u8], word: &[u8]) -> Result<(), AllocError>
    ensures { OnOk result (text.new.items ≡ text.old.items ++ keyed_word form key.now word.now) }
{
    match form {
        Form::Lines => {
            text.push(b' ')?;
            text.extend_from_slice(word)
        }
        Form::Json => {
            text.extend_from_slice(key)?;
            text.push(b'"')?;
            text.extend_from_slice(word)?;
            text.push(b'"')?;
            Ok(())
        }
    }
}

// The reading of a moment.
fn reading(moment: GpsMs) -> Civil
    ensures { result ≡ reading_of moment }
{
    civil(moment)
}

// Appends a time.
fn put_time(text: &mut Vec<u8>, form: Form, time: GpsMs) -> Result<(), AllocError>
    ensures { OnOk result (text.new.items ≡ text.old.items ++ epoch_word form time) }
{
    match form {
        Form::Lines => {
            text.push(b' ')?;
            put_civil(text, reading(time))
        }
        Form::Json => {
            text.extend_from_slice(b",\"time\":\"")?;
            put_civil(text, reading(time))?;
            text.push(b'"')?;
            Ok(())
        }
    }
}

// Appends a satellite.
fn put_satellite(
    text: &mut Vec<u8>,
    form: Form,
    satellite: SatelliteIndex,
) -> Result<(), AllocError>
    ensures { OnOk result (text.new.items ≡ text.old.items ++ satellite_text form satellite) }
{
    put_word(text, form, b",\"satellite\":", &satellite_name(satellite))
}

// Appends the epoch of a place.
fn put_time_of(text: &mut Vec<u8>, form: Form, time: Option<GpsMs>) -> Result<(), AllocError>
    ensures { OnOk result (text.new.items ≡ text.old.items ++ time_of_place form time) }
{
    match time {
        Some(time) => put_time(text, form, time),
        None => Ok(()),
    }
}

// Appends the satellite of a place.
fn put_satellite_of(
    text: &mut Vec<u8>,
    form: Form,
    satellite: Option<SatelliteIndex>,
) -> Result<(), AllocError>
    ensures { OnOk result (text.new.items ≡ text.old.items ++ satellite_of_place form satellite) }
{
    match satellite {
        Some(satellite) => put_satellite(text, form, satellite),
        None => Ok(()),
    }
}

// Appends the code of a place: behind a satellite without the letter of a system.
fn put_code_of(text: &mut Vec<u8>, form: Form, place: &Place) -> Result<(), AllocError>
    ensures { OnOk result (text.new.items ≡ text.old.items ++ code_of_place form place.now.code place.now.satellite) }
{
    match (place.code, place.satellite) {
        (Some(code), Some(_)) => put_word(text, form, b",\"code\":", &code.name()),
        (Some(code), None) => put_word(text, form, b",\"code\":", &code.text()),
        (None, _) => Ok(()),
    }
}

// Appends the slot of a place.
fn put_slot_of(text: &mut Vec<u8>, form: Form, slot: Option<u8>) -> Result<(), AllocError>
    ensures { OnOk result (text.new.items ≡ text.old.items ++ slot_of_place form slot) }
{
    match slot {
        Some(slot) => put_count(text, form, b" ", b",\"slot\":", u64::from(slot)),
        None => Ok(()),
    }
}

// Appends where a difference is.
fn put_place(text: &mut Vec<u8>, form: Form, place: &Place) -> Result<(), AllocError>
    ensures { OnOk result (text.new.items ≡ text.old.items ++ place_text form place.now) }
{
    put_time_of(text, form, place.time)?;
    put_satellite_of(text, form, place.satellite)?;
    put_code_of(text, form, place)?;
    put_slot_of(text, form, place.slot)?;
    Ok(())
}

// Appends the class of a difference.
fn put_class(text: &mut Vec<u8>, form: Form, class: Class) -> Result<(), AllocError>
    ensures { OnOk result (text.new.items ≡ text.old.items ++ class_text form class) }
{
    match form {
        Form::Lines => text.extend_from_slice(class.word()),
        Form::Json => {
            text.extend_from_slice(b"{\"class\":\"")?;
            text.extend_from_slice(class.word())?;
            text.push(b'"')?;
            Ok(())
        }
    }
}

// Appends a difference.
fn put_difference(text: &mut Vec<u8>, form: Form, difference: &Difference) -> Result<(), AllocError>
    ensures { OnOk result (text.new.items ≡ text.old.items ++ difference_text form difference.now) }
{
    put_class(text, form, difference.class)?;
    put_word(text, form, b",\"what\":", difference.what.word())?;
    put_place(text, form, &difference.place)?;
    put_either(text, form, b"\n", b"}")?;
    Ok(())
}

// Appends a count.
fn put_count(
    text: &mut Vec<u8>,
    form: Form,
    line: &[u8],
    json: &[u8],
    count: u64,
) -> Result<(), AllocError>
    ensures { OnOk result (text.new.items ≡ text.old.items ++ count_text form line.now json.now count) }
{
    put_either(text, form, line, json)?;
    put_number(text, count)
}

// Appends the counts of all classes.
fn put_counts(text: &mut Vec<u8>, form: Form, findings: &Findings) -> Result<(), AllocError>
    ensures { OnOk result (text.new.items ≡ text.old.items ++ class_counts form findings.now) }
{
    put_count(text, form, b"lost ", b"{\"lost\":", findings.lost.count)?;
    put_count(
        text,
        form,
        b" changed ",
        b",\"changed\":",
        findings.changed.count,
    )?;
    put_count(
        text,
        form,
        b" explained ",
        b",\"explained\":",
        findings.explained.count,
    )?;
    Ok(())
}

// ---- lines

// Appends how many more differences of a class there are than those that have lines.
fn put_more(text: &mut Vec<u8>, class: Class, count: u64) -> Result<(), AllocError>
    ensures { OnOk result (text.new.items ≡ text.old.items ++ more_line class count) }
{
    if count == 0 {
        return Ok(());
    }
    text.extend_from_slice(b"more-")?;
    text.extend_from_slice(class.word())?;
    text.push(b' ')?;
    put_number(text, count)?;
    text.push(b'\n')?;
    Ok(())
}

// Appends the lines of differences.
fn put_lines(text: &mut Vec<u8>, differences: &[Difference]) -> Result<(), AllocError>
    ensures { OnOk result (text.new.items ≡ text.old.items ++ flat_map (difference_text Lines) differences.now) }
{
    for difference in differences {
        put_difference(text, Form::Lines, difference)?;
    }
    Ok(())
}

// Appends the lines of the first differences of a class, and how many more there are.
fn put_class_lines(text: &mut Vec<u8>, class: Class, found: &Found) -> Result<(), AllocError>
    ensures { OnOk result (text.new.items ≡ text.old.items ++ class_lines class found.now) }
{
    put_lines(text, found.first.as_slice())?;
    put_more(
        text,
        class,
        found.count.saturating_sub(MOST_OF_CLASS as u64),
    )?;
    Ok(())
}

// Makes the lines of what was found.
fn lines_text(alloc: Global, findings: &Findings) -> Result<Vec<u8>, AllocError>
    ensures { IfOk result (λ text. text.items ≡ lines_text findings.now) }
{
    let mut text = Vec::new(alloc);
    put_counts(&mut text, Form::Lines, findings)?;
    text.push(b'\n')?;
    put_class_lines(&mut text, Class::Lost, &findings.lost)?;
    put_class_lines(&mut text, Class::Changed, &findings.changed)?;
    put_class_lines(&mut text, Class::Explained, &findings.explained)?;
    Ok(text)
}

// ---- JSON

// Appends an object, with a comma before it if others stand there.
fn put_object(
    text: &mut Vec<u8>,
    are_others: bool,
    difference: &Difference,
) -> Result<(), AllocError>
    ensures { OnOk result (text.new.items ≡ text.old.items ++ object_text are_others difference.now) }
{
    if are_others {
        text.extend_from_slice(b",\n")?;
    }
    put_difference(text, Form::Json, difference)
}

// Appends objects, behind others if there are some. Do some stand there then?
fn put_objects(
    text: &mut Vec<u8>,
    are_others: bool,
    differences: &[Difference],
) -> Result<bool, AllocError>
    ensures text { OnOk result (text.new.items ≡ text.old.items ++ objects_text are_others differences.now) }
    ensures others { IfOk result (λ are. are ≡ (are_others || nat_lt 0 (length differences.now))) }
{
    let mut are = are_others;
    for difference in differences {
        put_object(text, are, difference)?;
        are = true;
    }
    Ok(are)
}

// Makes the object of what was found.
fn json_of(alloc: Global, findings: &Findings) -> Result<Vec<u8>, AllocError>
    ensures { IfOk result (λ text. text.items ≡ json_of findings.now) }
{
    let mut text = Vec::new(alloc);
    put_counts(&mut text, Form::Json, findings)?;
    text.extend_from_slice(b",\"differences\":[\n")?;
    let are_lost = put_objects(&mut text, false, findings.lost.first.as_slice())?;
    let are_worse = put_objects(&mut text, are_lost, findings.changed.first.as_slice())?;
    put_objects(&mut text, are_worse, findings.explained.first.as_slice())?;
    text.extend_from_slice(b"]}\n")?;
    Ok(text)
}

/// Makes the text of what was found.
pub fn answer_text(alloc: Global, form: Form, findings: &Findings) -> Result<Vec<u8>, AllocError>
    ensures { IfOk result (λ text. text.items ≡ answer_text form findings.now) }
{
    match form {
        Form::Lines => lines_text(alloc, findings),
        Form::Json => json_of(alloc, findings),
    }
}
