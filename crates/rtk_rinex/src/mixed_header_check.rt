//! The check of a header of any systems: what its parts show is written again, and the two texts are
//! compared, as header_check.rt does it for a header of GPS.

ghost use Rattle.std.specs.Prelude.{◌≡◌, ℕ, false, ◌+◌, ◌≤◌, List, [], ◌++◌, length, drop, Option, IfOk, IfErr, OnErr, IfSome};
ghost use Rattle.rtk_rinex.specs.Header.{IsPositionView, position_view};
ghost use Rattle.rtk_rinex.specs.HeaderFault.{AreLines};
ghost use Rattle.rtk_rinex.specs.MixedHead.{GlonassView, IsMixedHead, TellsGlonass};
ghost use Rattle.rtk_rinex.specs.MixedHeader.{mixed_version_line, leap_line, glonass_lines, mixed_header_text};
ghost use Rattle.rtk_rinex.specs.MixedHeaderFault.{IsFaultOfMixedHeader, BeginsWithMixedHeader, IsOnlyMixedHeader};
ghost use Rattle.rtk_obs.specs.Reading.{IsMoment};
ghost use Rattle.rtk_rinex.specs.Steps.HeaderShown.{StartsWith};
ghost use Rattle.rtk_rinex.specs.Steps.MixedHeaderRead.{Reads, ShowsMixedHeader};
ghost use Rattle.rtk_rinex.specs.Steps.MixedRoom.{IsFileLetter};

use crate::check_fault::CheckFault;
use crate::digits::{after, number_at};
use crate::glonass_head::Glonass;
use crate::header_check::{
    any_creation_time, any_marker, any_moment, any_place, compare_lines, read_first, read_height,
    read_made, read_marker, read_place, with_height,
};
use crate::header_text::{
    put_first_line, put_height_line, put_made_line, put_marker_line, put_place_line,
    put_unknown_lines,
};
use crate::mixed_head::{MixedHead, has_glonass};
use crate::mixed_header_text::{
    LONGEST_MIXED_HEADER, put_biases_line, put_end_line, put_leap_line, put_mixed_version_line,
    put_phase_shift_lines, put_slots_lines,
};
use crate::mixed_slots_read::read_slots;
use crate::mixed_types_read::{read_types, shows_doppler};
use arrayvec::ArrayVec;
use rtk_obs::{AnyCode, GpsMs, Position, any_code_laws, civil};

// Returns a byte if it is the letter of a file, else M.
fn file_letter(byte: u8) -> u8
    ensures good { IsFileLetter result }
    ensures same { IsFileLetter byte → result ≡ byte }
{
    if b"GRECJSIM".contains(&byte) {
        byte
    } else {
        b'M'
    }
}

// Returns the letter of the file in the line at which a text begins, or M if it shows no letter of a file.
fn read_file_letter(text: &[u8]) -> u8
    ensures good { IsFileLetter result }
    ensures shown { (file : ℕ) → IsFileLetter file → StartsWith (mixed_version_line file) text.now → result ≡ file }
{
    if text.len() > 40 {
        file_letter(text[40])
    } else {
        b'M'
    }
}

// Returns the leap seconds in the line at which a text begins, or 0 if it shows no such number.
fn read_leap_seconds(text: &[u8]) -> u8
    ensures bound { result ≤ 99 }
    ensures shown { (n : ℕ) → n ≤ 99 → StartsWith (leap_line n) text.now → result ≡ n }
{
    let seconds = number_at(text, 0, 6);
    if seconds > 99 {
        return 0;
    }
    seconds as u8
}

// Reads the lines of GLONASS of a file of these codes, writes them, and returns what they tell.
fn read_glonass(
    text: &[u8],
    listed: &[AnyCode],
    out: &mut ArrayVec<u8, LONGEST_MIXED_HEADER>,
) -> Option<Glonass>
    requires room { length out.old.items ≤ 3402 }
    ensures due { TellsGlonass listed.now result }
    ensures written { out.new.items ≡ out.old.items ++ glonass_lines result }
    ensures shown { Reads {V = Option GlonassView} (TellsGlonass listed.now) (λ g. g ≡ result) glonass_lines (drop (length out.old.items) text.now) result }
    ensures len { length out.new.items ≤ length out.old.items + 486 }
{
    if !has_glonass(listed) {
        return None;
    }
    let channels = read_slots(after(text, out.len()));
    put_slots_lines(out, channels);
    put_biases_line(out);
    let leap_seconds = read_leap_seconds(after(text, out.len()));
    put_leap_line(out, leap_seconds);
    Glonass::new(channels, leap_seconds)
}

/// The parts of a header of any systems.
#[derive(Drop)]
struct MixedHeaderParts {
    head: MixedHead,
    position: Position,
    first: GpsMs,
}

// Returns the head of a file that shows Doppler shifts or not, and is as this one else, which shows none.
fn head_of(head: MixedHead, doppler: bool) -> MixedHead
    requires { head.doppler ≡ false }
    ensures { result ≡ record { marker = head.marker; listed = head.listed; glonass = head.glonass; made = head.made; doppler = doppler } }
{
    if doppler { head.with_doppler() } else { head }
}

// Writes a header of the parts that a text shows, and returns them. If the text begins with a header, it
// is this one, as `read_header` of header_check.rt has it.
fn read_mixed_header(text: &[u8], out: &mut ArrayVec<u8, LONGEST_MIXED_HEADER>) -> MixedHeaderParts
    requires empty { out.old.items ≡ [] }
    ensures good { IsMixedHead result.head × IsPositionView (position_view result.position) × IsMoment result.first }
    ensures written { out.new.items ≡ mixed_header_text result.head (position_view result.position) result.first }
    ensures shown { ShowsMixedHeader text.now out.new.items }
    ensures only { IsOnlyMixedHeader text.now result.head (position_view result.position) result.first }
{
    // A law: a place belongs to one code of a system, so the lines of the types show their codes.
    any_code_laws();
    let file = read_file_letter(text);
    put_mixed_version_line(out, file);
    let made = read_made(after(text, out.len())).unwrap_or(any_creation_time());
    put_made_line(out, civil(made.moment()));
    let marker = read_marker(after(text, out.len())).unwrap_or(any_marker());
    put_marker_line(out, marker.as_bytes());
    put_unknown_lines(out);
    let place = read_place(after(text, out.len())).unwrap_or(any_place());
    put_place_line(out, &place);
    let height = read_height(after(text, out.len())).unwrap_or(0);
    put_height_line(out, height);
    let doppler = shows_doppler(after(text, out.len()));
    let listed = read_types(text, doppler, file, out);
    let first = read_first(after(text, out.len())).unwrap_or(any_moment());
    put_first_line(out, civil(first));
    put_phase_shift_lines(out, listed.as_slice());
    let glonass = read_glonass(text, listed.as_slice(), out);
    put_end_line(out);
    let Ok(head) = MixedHead::new(marker, listed.as_slice(), glonass, made) else {
        unreachable!();
    };
    MixedHeaderParts {
        head: head_of(head, doppler),
        position: with_height(&place, height),
        first,
    }
}

/// The header with which a text begins, and the text after it.
#[derive(Drop)]
pub struct MixedHeading<'a> {
    /// The marker's name, the codes, what is told of GLONASS and the moment at which the file was made.
    pub head: MixedHead,
    /// The antenna reference point and the antenna's height.
    pub position: Position,
    /// The moment of the first observation.
    pub first: GpsMs,
    /// The number of lines of the header.
    pub lines: usize,
    /// The text after the header.
    pub records: &'a [u8],
}

/// Returns the header of a file of any systems with which a text begins, else its first wrong line.
pub fn check_mixed_header(text: &[u8]) -> Result<MixedHeading<'_>, CheckFault>
    ensures good { IfOk result (λ h. IsMixedHead h.head × IsPositionView (position_view h.position) × IsMoment h.first) }
    ensures text { IfOk result (λ h. text.now ≡ mixed_header_text h.head (position_view h.position) h.first ++ h.records.now) }
    ensures lines { IfOk result (λ h. AreLines h.lines (mixed_header_text h.head (position_view h.position) h.first)) }
    ensures only { IfOk result (λ h. IsOnlyMixedHeader text.now h.head (position_view h.position) h.first) }
    ensures fault { IfErr result (IsFaultOfMixedHeader text.now) }
    ensures none { OnErr result (¬ (BeginsWithMixedHeader text.now)) }
{
    let mut written = ArrayVec::new();
    let parts = read_mixed_header(text, &mut written);
    let lines = compare_lines(text, written.as_slice())?;
    // A law: a place belongs to one code of a system, so the header is of whole lines.
    any_code_laws();
    Ok(MixedHeading {
        head: parts.head,
        position: parts.position,
        first: parts.first,
        lines,
        records: after(text, written.len()),
    })
}
