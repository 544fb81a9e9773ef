//! The line of the channels of GLONASS that messages tell.
//!
//! If memory is refused, a first part of what is put may stand there.

ghost use Rattle.std.specs.Prelude.{◌≡◌, ◌<◌, ◌++◌, IfOk, OnOk};
ghost use Rattle.rtk_survey.specs.Steps.Tables.{place_is_counted};
ghost use Rattle.rtk_survey.specs.SummaryText as spec;

use crate::channels::{CHANNELS, FIELDS, PLACES};
use crate::unread::count_of_number;
use rtk_message::put_number;
use std::alloc::{AllocError, Global};
use std::collections::BTreeMap;

/// Appends the channel that a field tells: 7 less.
pub fn put_field_channel(text: &mut Vec<u8>, field: u8) -> Result<(), AllocError>
    ensures { OnOk result (text.new.items ≡ text.old.items ++ spec.field_channel_text field) }
{
    if field < 7 {
        text.extend_from_slice(&[b'-', b'0' + (7 - field)])
    } else {
        put_number(text, u64::from(field - 7))
    }
}

/// The slot and the channel of a place.
pub(crate) fn put_told_channel(text: &mut Vec<u8>, place: u16) -> Result<(), AllocError>
    requires { place < 588 }
    ensures { OnOk result (text.new.items ≡ text.old.items ++ spec.told_channel_text place) }
{
    put_number(text, (place / FIELDS) as u64)?;
    text.push(b':')?;
    put_field_channel(text, (place % FIELDS) as u8)
}

fn is_counted(counts: &BTreeMap<u16, u64>, place: u16) -> bool
    ensures { result ≡ place_is_counted counts.now place }
{
    place % FIELDS < u16::from(CHANNELS) && 0 < count_of_number(counts, place)
}

// The channels that are told, as an option lists them.
fn channels_text(alloc: Global, counts: &BTreeMap<u16, u64>) -> Result<Vec<u8>, AllocError>
    ensures { IfOk result (λ text. text.items ≡ spec.told_channels_text (place_is_counted counts.now)) }
{
    let mut text = Vec::new(alloc);
    let mut separator = b' ';
    for place in FIELDS..PLACES {
        if is_counted(counts, place) {
            text.push(separator)?;
            put_told_channel(&mut text, place)?;
            separator = b',';
        }
    }
    Ok(text)
}

// A text as a line, if it is not empty.
fn put_line_if_some(lines: &mut Vec<u8>, words: &[u8], text: &[u8]) -> Result<(), AllocError>
    ensures { OnOk result (lines.new.items ≡ lines.old.items ++ spec.line_if_some words.now text.now) }
{
    if text.is_empty() {
        return Ok(());
    }
    lines.extend_from_slice(words)?;
    lines.extend_from_slice(text)?;
    lines.push(b'\n')?;
    Ok(())
}

/// Appends the channels that messages of a station tell, by their counts.
pub(crate) fn put_channels(
    alloc: Global,
    lines: &mut Vec<u8>,
    counts: &BTreeMap<u16, u64>,
) -> Result<(), AllocError>
    ensures { OnOk result (lines.new.items ≡ lines.old.items ++ spec.channel_line (place_is_counted counts.now)) }
{
    let text = channels_text(alloc, counts)?;
    put_line_if_some(lines, b" channels", text.as_slice())
}
