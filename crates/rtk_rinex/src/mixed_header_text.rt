//! The text of a header of any systems, a function for each part that differs from a header of GPS.

ghost use Rattle.std.specs.Prelude.{◌≡◌, ◌+◌, ◌*◌, ◌≤◌, ◌<◌, [], ◌∷◌, ◌++◌, take, length, IfOk, codes, decimal, count_by, Some, is_some, if◌then◌else◌};
ghost use Rattle.rtk_rinex.specs.Columns.{right};
ghost use Rattle.rtk_rinex.specs.Header.{header_line, position_view};
ghost use Rattle.rtk_rinex.specs.MixedHead.{IsMixedList};
ghost use Rattle.rtk_rinex.specs.MixedHeader.{version_letter, mixed_version_line, codes_of, three_types, four_types, code_types, types_count, types_text, system_types_lines, phase_shift_line, by_system, channel_text, slot_text, slots_text, further_slots_line, slots_lines, biases_line, leap_line, glonass_lines, mixed_header_text};
ghost use Rattle.rtk_rinex.specs.Steps.MixedRoom.{types_line_count, all_types_room};

use crate::columns::{append, integer_3, integer_6, put_last_digits};
use crate::digits::{after, front};
use crate::glonass_head::Glonass;
use crate::header_text::{
    TYPES, put_continuation_line, put_first_line, put_header_line, put_height_line, put_made_line,
    put_marker_line, put_place_line, put_unit_line, put_unknown_lines,
};
use crate::mixed_head::MixedHead;
use arrayvec::ArrayVec;
use rtk_obs::{AnyCode, Channel, Channels, GpsMs, Position, any_code_laws, civil};
use std::alloc::{AllocError, Global};

const SLOTS: &[u8] = b"GLONASS SLOT / FRQ #";

/// The bytes of the longest header of all systems: 49 lines of 81 bytes, 24 of them with observation
/// types and four with slots. Without Doppler shifts 18 lines have observation types.
pub(crate) const LONGEST_MIXED_HEADER: usize = 3969;

/// Returns the letter of the system of all codes, or M for several systems.
pub(crate) fn version_letter(listed: &[AnyCode]) -> u8
    ensures { result ≡ version_letter listed.now }
{
    if listed.len() == 0 {
        return b'M';
    }
    let letter = listed[0].text()[0];
    for code in listed {
        if code.text()[0] != letter {
            return b'M';
        }
    }
    letter
}

/// Puts the line with the version, the kind of the file and the letter of its system, or M.
pub(crate) fn put_mixed_version_line(out: &mut ArrayVec<u8, LONGEST_MIXED_HEADER>, file: u8)
    requires room { length out.old.items + 81 ≤ 3969 }
    ensures items { out.new.items ≡ out.old.items ++ mixed_version_line file }
    ensures len { length out.new.items ≡ length out.old.items + 81 }
{
    let mut content = *b"     3.05           OBSERVATION DATA     ";
    content[40] = file;
    put_header_line(out, &content, b"RINEX VERSION / TYPE");
}

/// Returns the codes of the system of this letter.
pub(crate) fn codes_of(system: u8, listed: &[AnyCode]) -> ArrayVec<AnyCode, 69>
    requires { length listed.now ≤ 69 }
    ensures value { result.items ≡ codes_of system listed.now }
    ensures few { length result.items ≤ length listed.now }
{
    let mut codes = ArrayVec::new();
    for code in listed {
        if code.text()[0] == system && codes.try_push(*code).is_err() {
            unreachable!();
        }
    }
    codes
}

// Returns the observation types of a code: its pseudorange, its phase and its strength, four columns
// each.
fn three_types(code: AnyCode) -> [u8; 12]
    ensures { result ≡ three_types code }
{
    let [band, attribute] = code.name();
    [
        b' ', b'C', band, attribute, b' ', b'L', band, attribute, b' ', b'S', band, attribute,
    ]
}

// Returns the observation types of a code in a file with Doppler shifts: the shift stands before the strength.
fn four_types(code: AnyCode) -> [u8; 16]
    ensures { result ≡ four_types code }
{
    let [band, attribute] = code.name();
    [
        b' ', b'C', band, attribute, b' ', b'L', band, attribute, b' ', b'D', band, attribute,
        b' ', b'S', band, attribute,
    ]
}

// Returns how many observation types these codes have in a file with Doppler shifts, or without them.
fn count_of_types(doppler: bool, codes: usize) -> usize
    requires { codes ≤ 16 }
    ensures value { result ≡ types_count doppler * codes }
    ensures few { result ≤ 64 }
{
    if doppler { 4 * codes } else { 3 * codes }
}

// Appends the observation types of a code.
fn put_code_types(text: &mut ArrayVec<u8, 256>, doppler: bool, code: AnyCode)
    requires { length text.old.items + 16 ≤ 256 }
    ensures items { text.new.items ≡ text.old.items ++ code_types doppler code }
    ensures len { length text.new.items ≡ length text.old.items + 4 * types_count doppler }
{
    if doppler {
        append(text, &four_types(code));
    } else {
        append(text, &three_types(code));
    }
}

// Returns the observation types of the codes, four columns each.
fn types_text(doppler: bool, codes: &[AnyCode]) -> ArrayVec<u8, 256>
    requires { length codes.now ≤ 16 }
    ensures value { result.items ≡ types_text doppler codes.now }
    ensures len { length result.items ≡ 4 * types_count doppler * length codes.now }
{
    let mut text = ArrayVec::new();
    for code in codes {
        put_code_types(&mut text, doppler, *code);
    }
    text
}

// Returns the columns of the first line of the observation types of a system: its letter, how many types
// there are, and those that the line shows.
fn types_content(system: u8, count: usize, shown: &[u8]) -> ArrayVec<u8, 60>
    requires count { count ≤ 64 }
    requires shown { length shown.now ≤ 52 }
    ensures value { result.items ≡ system ∷ codes "  " ++ right 3 (decimal count) ++ shown.now }
    ensures len { length result.items ≤ 60 }
{
    let mut content = ArrayVec::new();
    append(&mut content, &[system, b' ', b' ']);
    append(&mut content, &integer_3(count as u64));
    append(&mut content, shown);
    content
}

/// Puts the lines of the observation types of codes of one system.
pub(crate) fn put_types_of(
    out: &mut ArrayVec<u8, LONGEST_MIXED_HEADER>,
    doppler: bool,
    system: u8,
    codes: &[AnyCode],
)
    requires few { length codes.now ≤ 16 }
    requires room { length out.old.items + 405 ≤ 3969 }
    ensures items { out.new.items ≡ out.old.items ++ system_types_lines doppler system codes.now }
{
    if codes.len() == 0 {
        return;
    }
    let count = count_of_types(doppler, codes.len());
    let types = types_text(doppler, codes);
    let text = types.as_slice();
    put_header_line(
        out,
        types_content(system, count, front(text, 52)).as_slice(),
        TYPES,
    );
    put_continuation_line(out, after(text, 52));
    put_continuation_line(out, after(text, 104));
    put_continuation_line(out, after(text, 156));
    put_continuation_line(out, after(text, 208));
}

/// Puts the lines of the observation types of the system of this letter.
pub(crate) fn put_system_types_lines(
    out: &mut ArrayVec<u8, LONGEST_MIXED_HEADER>,
    doppler: bool,
    system: u8,
    listed: &[AnyCode],
)
    requires listed { IsMixedList listed.now }
    requires room { length out.old.items + 405 ≤ 3969 }
    ensures items { out.new.items ≡ out.old.items ++ system_types_lines doppler system (codes_of system listed.now) }
    ensures lines { length out.new.items ≤ length out.old.items + 81 * types_line_count doppler (length (codes_of system listed.now)) }
    ensures room { length out.new.items ≤ length out.old.items + 405 }
    ensures few { length (codes_of system listed.now) ≤ 16 }
{
    // A law: a place belongs to one code of a system, and is below 16.
    any_code_laws();
    put_types_of(out, doppler, system, codes_of(system, listed).as_slice());
}

/// Puts the lines of the observation types of all systems.
pub(crate) fn put_all_types_lines(
    out: &mut ArrayVec<u8, LONGEST_MIXED_HEADER>,
    doppler: bool,
    listed: &[AnyCode],
)
    requires listed { IsMixedList listed.now }
    requires room { length out.old.items + 2835 ≤ 3969 }
    ensures items { out.new.items ≡ out.old.items ++ by_system (system_types_lines doppler) listed.now }
    ensures len { length out.new.items ≤ length out.old.items + all_types_room doppler }
    ensures room { length out.new.items ≤ length out.old.items + 2835 }
{
    // A law: a place belongs to one code of a system.
    any_code_laws();
    put_system_types_lines(out, doppler, b'G', listed);
    put_system_types_lines(out, doppler, b'R', listed);
    put_system_types_lines(out, doppler, b'E', listed);
    put_system_types_lines(out, doppler, b'C', listed);
    put_system_types_lines(out, doppler, b'J', listed);
    put_system_types_lines(out, doppler, b'S', listed);
    put_system_types_lines(out, doppler, b'I', listed);
}

// Puts the line with the phase shifts of the system of this letter, which are unknown.
fn put_phase_shift_line(
    out: &mut ArrayVec<u8, LONGEST_MIXED_HEADER>,
    system: u8,
    listed: &[AnyCode],
)
    requires listed { length listed.now ≤ 69 }
    requires room { length out.old.items + 81 ≤ 3969 }
    ensures items { out.new.items ≡ out.old.items ++ phase_shift_line system (codes_of system listed.now) }
    ensures len { length out.new.items ≤ length out.old.items + 81 }
{
    if codes_of(system, listed).len() > 0 {
        put_header_line(out, &[system], b"SYS / PHASE SHIFT");
    }
}

/// Puts the lines with the phase shifts of all systems.
pub(crate) fn put_phase_shift_lines(
    out: &mut ArrayVec<u8, LONGEST_MIXED_HEADER>,
    listed: &[AnyCode],
)
    requires listed { length listed.now ≤ 69 }
    requires room { length out.old.items + 567 ≤ 3969 }
    ensures items { out.new.items ≡ out.old.items ++ by_system phase_shift_line listed.now }
    ensures len { length out.new.items ≤ length out.old.items + 567 }
{
    put_phase_shift_line(out, b'G', listed);
    put_phase_shift_line(out, b'R', listed);
    put_phase_shift_line(out, b'E', listed);
    put_phase_shift_line(out, b'C', listed);
    put_phase_shift_line(out, b'J', listed);
    put_phase_shift_line(out, b'S', listed);
    put_phase_shift_line(out, b'I', listed);
}

// Returns the two columns of a channel.
fn channel_field(channel: Channel) -> [u8; 2]
    ensures { result ≡ channel_text channel }
{
    let number = channel.number();
    let digit = b'0' + number.unsigned_abs();
    if number < 0 {
        return [b'-', digit];
    }
    [b' ', digit]
}

// Returns the columns of a slot with a channel.
fn slot_field(slot: u8, channel: Channel) -> [u8; 7]
    ensures { result ≡ slot_text slot (Some channel) }
{
    let [sign, digit] = channel_field(channel);
    let mut field = [b'R', b'0', b'0', b' ', sign, digit, b' '];
    put_last_digits(&mut field[1..3], u64::from(slot));
    field
}

// Appends the columns of a slot, which are none without a channel.
fn put_slot(text: &mut ArrayVec<u8, 189>, slot: u8, channel: Option<Channel>)
    requires { length text.old.items + 7 ≤ 189 }
    ensures items { text.new.items ≡ text.old.items ++ slot_text slot channel }
    ensures len { length text.new.items ≡ length text.old.items + (if is_some channel then 7 else 0) }
{
    if let Some(channel) = channel {
        append(text, &slot_field(slot, channel));
    }
}

// Returns the columns of the slots that have a channel, seven each.
fn slots_text(channels: Channels) -> ArrayVec<u8, 189>
    ensures value { result.items ≡ slots_text channels 27 }
    ensures len { length result.items ≡ 7 * count_by is_some channels }
    ensures few { count_by is_some channels ≤ 27 }
{
    let mut text = ArrayVec::new();
    for before in 0..27u8 {
        put_slot(&mut text, before + 1, channels.channel(before + 1));
    }
    text
}

// Returns the columns of the first line of slots: how many there are, and those that it shows.
fn slots_content(count: usize, shown: &[u8]) -> ArrayVec<u8, 60>
    requires count { count ≤ 27 }
    requires shown { length shown.now ≤ 56 }
    ensures value { result.items ≡ right 3 (decimal count) ++ codes " " ++ shown.now }
    ensures len { length result.items ≤ 60 }
{
    let mut content = ArrayVec::new();
    append(&mut content, &integer_3(count as u64));
    append(&mut content, b" ");
    append(&mut content, shown);
    content
}

// Returns the columns of a further line of slots.
fn further_slots_content(text: &[u8]) -> ArrayVec<u8, 60>
    ensures value { result.items ≡ codes "    " ++ take 56 text.now }
    ensures len { length result.items ≤ 60 }
{
    let mut content = ArrayVec::new();
    append(&mut content, b"    ");
    append(&mut content, front(text, 56));
    content
}

// Puts a further line of slots if any slots are left.
fn put_further_slots_line(out: &mut ArrayVec<u8, LONGEST_MIXED_HEADER>, text: &[u8])
    requires room { length out.old.items + 81 ≤ 3969 }
    ensures items { out.new.items ≡ out.old.items ++ further_slots_line text.now }
    ensures len { length out.new.items ≤ length out.old.items + 81 }
{
    if text.len() > 0 {
        put_header_line(out, further_slots_content(text).as_slice(), SLOTS);
    }
}

/// Puts the lines of the slots of GLONASS that have a channel. Eight slots of seven columns stand on a
/// line, which are 56 columns. 27 slots have 189 columns.
pub(crate) fn put_slots_lines(out: &mut ArrayVec<u8, LONGEST_MIXED_HEADER>, channels: Channels)
    requires room { length out.old.items + 324 ≤ 3969 }
    ensures items { out.new.items ≡ out.old.items ++ slots_lines channels }
    ensures len { length out.new.items ≤ length out.old.items + 324 }
{
    let slots = slots_text(channels);
    let text = slots.as_slice();
    put_header_line(
        out,
        slots_content(text.len() / 7, front(text, 56)).as_slice(),
        SLOTS,
    );
    put_further_slots_line(out, after(text, 56));
    put_further_slots_line(out, after(text, 112));
    put_further_slots_line(out, after(text, 168));
}

/// Puts the line with the biases of GLONASS, which are unknown.
pub(crate) fn put_biases_line(out: &mut ArrayVec<u8, LONGEST_MIXED_HEADER>)
    requires room { length out.old.items + 81 ≤ 3969 }
    ensures items { out.new.items ≡ out.old.items ++ biases_line }
    ensures len { length out.new.items ≡ length out.old.items + 81 }
{
    put_header_line(out, b"", b"GLONASS COD/PHS/BIS");
}

/// Puts the line with the leap seconds.
pub(crate) fn put_leap_line(out: &mut ArrayVec<u8, LONGEST_MIXED_HEADER>, leap_seconds: u8)
    requires room { length out.old.items + 81 ≤ 3969 }
    ensures items { out.new.items ≡ out.old.items ++ leap_line leap_seconds }
    ensures len { length out.new.items ≡ length out.old.items + 81 }
{
    put_header_line(out, &integer_6(u64::from(leap_seconds)), b"LEAP SECONDS");
}

// Puts the lines of GLONASS if the file tells of it.
fn put_glonass_lines(out: &mut ArrayVec<u8, LONGEST_MIXED_HEADER>, glonass: Option<Glonass>)
    requires room { length out.old.items + 486 ≤ 3969 }
    ensures items { out.new.items ≡ out.old.items ++ glonass_lines glonass }
    ensures len { length out.new.items ≤ length out.old.items + 486 }
{
    if let Some(glonass) = glonass {
        put_slots_lines(out, glonass.channels());
        put_biases_line(out);
        put_leap_line(out, glonass.leap_seconds());
    }
}

/// Puts the line that ends a header.
pub(crate) fn put_end_line(out: &mut ArrayVec<u8, LONGEST_MIXED_HEADER>)
    requires room { length out.old.items + 81 ≤ 3969 }
    ensures items { out.new.items ≡ out.old.items ++ header_line [] (codes "END OF HEADER") }
    ensures len { length out.new.items ≡ length out.old.items + 81 }
{
    put_header_line(out, b"", b"END OF HEADER");
}

// Returns the header of a file of this head, whose first observation is at `first`.
fn mixed_header_lines(
    head: &MixedHead,
    position: &Position,
    first: GpsMs,
) -> ArrayVec<u8, LONGEST_MIXED_HEADER>
    ensures value { result.items ≡ mixed_header_text head.now (position_view position.now) first }
    ensures few { length result.items ≤ (if head.now.doppler then 3969 else 3483) }
{
    let mut out = ArrayVec::new();
    put_mixed_version_line(&mut out, version_letter(head.codes()));
    put_made_line(&mut out, civil(head.made()));
    put_marker_line(&mut out, head.marker());
    put_unknown_lines(&mut out);
    put_place_line(&mut out, position);
    put_height_line(&mut out, position.height);
    put_all_types_lines(&mut out, head.has_doppler(), head.codes());
    put_unit_line(&mut out);
    put_first_line(&mut out, civil(first));
    put_phase_shift_lines(&mut out, head.codes());
    put_glonass_lines(&mut out, head.glonass());
    put_end_line(&mut out);
    out
}

// Returns the bytes of the longest header of a file with Doppler shifts, or without them.
fn longest_header(doppler: bool) -> usize
    ensures { result ≡ (if doppler then 3969 else 3483) }
{
    if doppler { LONGEST_MIXED_HEADER } else { 3483 }
}

/// Returns the header of a file of this head, whose first observation is at `first`, as `header` does
/// for GPS.
///
/// Memory is taken once. Source: RINEX 3.05, Table A2.
pub fn mixed_header(
    alloc: Global,
    head: &MixedHead,
    position: &Position,
    first: GpsMs,
) -> Result<Vec<u8>, AllocError>
    // Fails only if memory is refused: tests/system/calls, rows `mixed_header ..`.
    ensures value { IfOk result (λ text. text.items ≡ mixed_header_text head.now (position_view position.now) first) }
    ensures few { IfOk result (λ text. length text.items ≤ (if head.now.doppler then 3969 else 3483)) }
{
    let lines = mixed_header_lines(head, position, first);
    let mut out = Vec::with_capacity(alloc, longest_header(head.has_doppler()))?;
    out.extend_from_slice(lines.as_slice())?;
    Ok(out)
}
