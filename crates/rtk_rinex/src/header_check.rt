//! The check of a header: what its parts show is written again, and the two texts are compared.

ghost use Rattle.rtk_obs.specs.Code.{name_of};
ghost use Rattle.rtk_obs.specs.declared.code.Code.{Code};
ghost use Rattle.rtk_rinex.specs.Header.{PositionView, IsPositionView, IsHeadView, IsMarker, position_view, made_line, marker_line, place_line, height_line, first_types_line, first_line, header_text};
ghost use Rattle.rtk_rinex.specs.HeaderFault.{AreLines, IsFaultOfHeader};
ghost use Rattle.rtk_rinex.specs.Steps.HeaderRead.{HasHeader, IsOnlyHeader, ShowsHeader, BeginAlike, IsLineCause, IsUnlike};
ghost use Rattle.rtk_rinex.specs.Steps.HeaderShown.{StartsWith, line_at, name_at, number_at, made_civil, first_civil, AreAllCodes};
ghost use Rattle.rtk_rinex.specs.Lines.{HasNoEnd, IsLine};
ghost use Rattle.rtk_obs.specs.Reading.{IsMoment, reading_of};
ghost use Rattle.std.specs.Int.{IsInRange};
ghost use Rattle.std.specs.Prelude.{◌≡◌, ◌≢◌, ℕ, ◌+◌, ◌*◌, ◌%◌, ◌/◌, ◌<◌, ◌≤◌, List, [], ◌++◌, length, take, drop, AllPairs, slice_index_or, Some, IfSome, IsSomeAnd, MatchOption, ◌^◌, ◌∷◌, Decides, IfOk, IfErr, OnErr};

use crate::check_fault::{Cause, CheckFault};
use crate::creation_time::CreationTime;
use crate::digits::{after, columns_at, front, is_same, number_at, signed_number_at};
use crate::head::Head;
use crate::header_text::{
    LONGEST_HEADER, put_end_lines, put_first_line, put_height_line, put_made_line, put_marker_line,
    put_place_line, put_types_lines, put_unit_line, put_unknown_lines, put_version_line,
};
use crate::marker_name::Marker;
use crate::record_text::trimmed_len;
use arrayvec::ArrayVec;
use memchr::memchr;
use rtk_obs::{ALL_CODES, Civil, Code, GpsMs, Position, civil, code_laws, of_civil};

// Returns the date and time at which the file is made, whatever stands in their columns. If they
// are no date, the header that is written again differs in this line.
fn made_reading(text: &[u8]) -> Civil
    ensures { result ≡ made_civil text.now }
{
    Civil {
        year: number_at(text, 40, 4) as u16,
        month: number_at(text, 44, 2) as u8,
        day: number_at(text, 46, 2) as u8,
        hour: number_at(text, 49, 2) as u8,
        minute: number_at(text, 51, 2) as u8,
        second: number_at(text, 53, 2) as u8,
        millisecond: 0,
    }
}

/// Returns the moment in the line at which a text begins, or `None` only if it is the line of no
/// moment at which a file is made.
pub(crate) fn read_made(text: &[u8]) -> Option<CreationTime>
    ensures { (t : ℕ) → IsMoment t → t % 1000 ≡ 0 → StartsWith (made_line (reading_of t)) text.now → result ≡ Some t }
{
    let moment = of_civil(made_reading(text))?;
    CreationTime::new(moment).ok()
}

/// Returns the marker in the line at which a text begins, or `None` only if it is the line of no
/// marker.
pub(crate) fn read_marker(text: &[u8]) -> Option<Marker>
    ensures { (m : List ℕ) → IsMarker m → StartsWith (marker_line m) text.now → result ≡ Some m }
{
    let content = columns_at(text, 0, 60);
    Marker::new(content.split_at(trimmed_len(content)).0).ok()
}

/// Returns the position in the line at which a text begins, without its height, or `None` only if it
/// is the line of no position.
pub(crate) fn read_place(text: &[u8]) -> Option<Position>
    ensures { (s : PositionView) → IsPositionView s → StartsWith (place_line s) text.now
        → IsSomeAnd result (λ place. (place.x ≡ s.x) × (place.y ≡ s.y) × (place.z ≡ s.z)) }
{
    Position::new(
        signed_number_at(text, 0),
        signed_number_at(text, 14),
        signed_number_at(text, 28),
        0,
    )
}

/// Returns the antenna's height in the line at which a text begins, in 0.0001 m, or `None` only if
/// it is the line of no height.
pub(crate) fn read_height(text: &[u8]) -> Option<u16>
    ensures { (h : ℕ) → h < 65_536 → StartsWith (height_line h) text.now → result ≡ Some h }
{
    let height = number_at(text, 0, 14);
    if height > 65_535 {
        return None;
    }
    Some(height as u16)
}

// Returns how many codes the first line of the observation types shows, at which a text begins, or
// `None` only if it is the line of no such number.
fn read_code_count(text: &[u8]) -> Option<usize>
    ensures good { IfSome result (IsInRange 1 16) }
    ensures shown { (n : ℕ) (types : List ℕ) → IsInRange 1 16 n → StartsWith (first_types_line n types) text.now → result ≡ Some n }
{
    let count = number_at(text, 3, 3) as usize / 3;
    if count == 0 || count > 16 {
        return None;
    }
    Some(count)
}

// The bytes of a line of observation types, its LF included.
const TYPES_LINE: usize = 81;

/// Returns the name of the code that follows `before` codes in the lines of the observation types,
/// at which a text begins.
pub(crate) fn read_name(text: &[u8], before: usize) -> &[u8]
    requires { before < 16 }
    ensures { result.now ≡ name_at before text.now }
{
    // A code has three types, and a line 13, of 4 columns each.
    let line = columns_at(text, TYPES_LINE * (3 * before / 13), TYPES_LINE);
    columns_at(line, 8 + 4 * (3 * before % 13), 2)
}

// Returns the place of a code in a list of all codes.
fn place_in(all: &[Code; 16], code: Code) -> Option<usize>
    ensures { MatchOption result ((k : ℕ) → k < 16 → slice_index_or all.now k code ≢ code)
        (λ k. (k < 16) × (slice_index_or all.now k code ≡ code)) }
{
    for k in 0..16 {
        if all[k] == code {
            return Some(k);
        }
    }
    None
}

// Moves a code to this place by an exchange, unless it stands there or earlier already.
fn move_code(all: &mut [Code; 16], code: Code, place: usize)
    requires place { place < 16 }
    requires all { AreAllCodes all.old }
    ensures all { AreAllCodes all.new }
    ensures before { (k : ℕ) (d : Code) → k < place → slice_index_or all.new k d ≡ slice_index_or all.old k d }
    ensures there { ((k : ℕ) (d : Code) → k < place → slice_index_or all.old k d ≢ code)
        → (d : Code) → slice_index_or all.new place d ≡ code }
{
    if let Some(k) = place_in(all, code) {
        if k > place {
            all.swap(place, k);
        }
    }
}

// Moves the code with this name to this place, as `move_code` does. If no code has the name,
// nothing moves.
fn move_named_code(all: &mut [Code; 16], name: &[u8], place: usize)
    requires place { place < 16 }
    requires all { AreAllCodes all.old }
    ensures all { AreAllCodes all.new }
    ensures before { (k : ℕ) (d : Code) → k < place → slice_index_or all.new k d ≡ slice_index_or all.old k d }
    ensures there { (code : Code) → name.now ≡ name_of code → ((k : ℕ) (d : Code) → k < place → slice_index_or all.old k d ≢ code)
        → (d : Code) → slice_index_or all.new place d ≡ code }
{
    if let Some(code) = Code::from_name(name) {
        move_code(all, code, place);
    }
}

// Returns all codes in an order that begins with the codes that the text names, as long as they are
// good. A header that shows the same names lists these codes. Codes change places in `ALL_CODES`,
// so all stay distinct, and `Head::from_parts` can't refuse the first ones.
fn read_codes(text: &[u8]) -> [Code; 16]
    ensures all { AreAllCodes result }
    ensures shown { (listed : List Code) (i : ℕ) (d : Code) → AllPairs (λ a b. a ≢ b) listed → i < length listed → i < 16
        → ((j : ℕ) → j ≤ i → name_at j text.now ≡ name_of (slice_index_or listed j d))
        → slice_index_or result i d ≡ slice_index_or listed i d }
{
    let mut all = ALL_CODES;
    for i in 0..16 {
        move_named_code(&mut all, read_name(text, i), i);
    }
    all
}

// Returns the date and time in the line of the first observation. Its seconds have been read
// before.
fn first_reading(text: &[u8], seconds: u64) -> Civil
    requires seconds { seconds ≡ number_at 30 13 text.now }
    requires minute { seconds < 600_000_000 }
    ensures { result ≡ first_civil text.now }
{
    Civil {
        year: number_at(text, 2, 4) as u16,
        month: number_at(text, 10, 2) as u8,
        day: number_at(text, 16, 2) as u8,
        hour: number_at(text, 22, 2) as u8,
        minute: number_at(text, 28, 2) as u8,
        second: (seconds / 10_000_000) as u8,
        millisecond: (seconds / 10_000 % 1000) as u16,
    }
}

/// Returns the moment in the line of the first observation, at which a text begins, or `None` only
/// if it is the line of no moment.
pub(crate) fn read_first(text: &[u8]) -> Option<GpsMs>
    ensures { (t : ℕ) → IsMoment t → StartsWith (first_line (reading_of t)) text.now → result ≡ Some t }
{
    let seconds = number_at(text, 30, 13);
    if seconds >= 600_000_000 {
        return None;
    }
    of_civil(first_reading(text, seconds))
}

/// The parts of a header.
#[derive(Drop)]
struct HeaderParts {
    head: Head,
    position: Position,
    first: GpsMs,
}

/// The parts of a header, and its length.
#[derive(Drop)]
pub(crate) struct HeaderRead {
    /// The marker's name, the codes and the moment at which the file was made.
    pub head: Head,
    /// The antenna reference point and the antenna's height.
    pub position: Position,
    /// The moment of the first observation.
    pub first: GpsMs,
    /// The number of lines of the header.
    pub lines: usize,
    /// The number of its bytes.
    pub used: usize,
}

/// Returns the moment 0.
pub(crate) fn any_moment() -> GpsMs
    ensures { result ≡ 0 }
{
    let Some(moment) = GpsMs::new(0) else {
        unreachable!();
    };
    moment
}

/// Returns the moment 0, which is a whole second.
pub(crate) fn any_creation_time() -> CreationTime {
    let Ok(made) = CreationTime::new(any_moment()) else {
        unreachable!();
    };
    made
}

/// Returns a marker whose name is a hyphen.
pub(crate) fn any_marker() -> Marker {
    let Ok(marker) = Marker::new(b"-") else {
        unreachable!();
    };
    marker
}

/// Returns the earth's center.
pub(crate) fn any_place() -> Position {
    let Some(center) = Position::new(0, 0, 0, 0) else {
        unreachable!();
    };
    center
}

/// Returns a position with another height of the antenna.
pub(crate) fn with_height(place: &Position, height: u16) -> Position
    ensures { (result.x ≡ place.now.x) × (result.y ≡ place.now.y) × (result.z ≡ place.now.z) × (result.height ≡ height) }
{
    let Some(position) = Position::new(place.x, place.y, place.z, height) else {
        unreachable!();
    };
    position
}

// Writes a header of the parts that a text shows, and returns them. If the text begins with a
// header, it is this one.
//
// Each part is read where the parts before it end, as they are written. A line that shows no part
// is the line of no part. So a header with any part in its place is unlike the text in this line, as
// each header is.
fn read_header(text: &[u8], out: &mut ArrayVec<u8, LONGEST_HEADER>) -> HeaderParts
    requires empty { out.old.items ≡ [] }
    ensures good { IsHeadView result.head × IsPositionView (position_view result.position) × IsMoment result.first }
    ensures written { out.new.items ≡ header_text result.head (position_view result.position) result.first }
    ensures shown { ShowsHeader text.now out.new.items }
{
    put_version_line(out);
    let made = read_made(after(text, out.len())).unwrap_or(any_creation_time());
    put_made_line(out, civil(made.moment()));
    let marker = read_marker(after(text, out.len())).unwrap_or(any_marker());
    put_marker_line(out, marker.as_bytes());
    put_unknown_lines(out);
    let place = read_place(after(text, out.len())).unwrap_or(any_place());
    put_place_line(out, &place);
    let height = read_height(after(text, out.len())).unwrap_or(0);
    put_height_line(out, height);
    let types = after(text, out.len());
    let count = read_code_count(types).unwrap_or(1);
    let codes = read_codes(types);
    let Ok(head) = Head::from_parts(marker, codes.as_slice().split_at(count).0, made) else {
        unreachable!();
    };
    put_types_lines(out, head.codes());
    put_unit_line(out);
    let first = read_first(after(text, out.len())).unwrap_or(any_moment());
    put_first_line(out, civil(first));
    put_end_lines(out);
    HeaderParts {
        head,
        position: with_height(&place, height),
        first,
    }
}

/// Returns the place of the LF that ends the first line of a text, or `None` if no LF does.
pub(crate) fn line_end(text: &[u8]) -> Option<usize>
    ensures parts { MatchOption result (HasNoEnd text.now)
        (λ n. HasNoEnd (take n text.now) × (text.now ≡ take n text.now ++ 10 ∷ drop (n + 1) text.now)) }
    ensures line { MatchOption result (HasNoEnd text.now) (λ n. (n < length text.now) × IsLine (take (n + 1) text.now)) }
{
    memchr(b'\n', text)
}

// Returns why a line of a header does not begin a text.
fn line_cause(text: &[u8]) -> Cause
    ensures { IsLineCause text.now result }
{
    match line_end(text) {
        Some(_) => Cause::HeaderLine,
        None => Cause::Truncated,
    }
}

/// Returns the number of lines of what is written if a text begins with it, else the first of these
/// lines that the text doesn't have.
pub(crate) fn compare_lines(text: &[u8], written: &[u8]) -> Result<usize, CheckFault>
    ensures alike { IfOk result (λ n. (rest : List ℕ) × (end : List ℕ) × HasNoEnd end × BeginAlike n text.now written.now rest end) }
    ensures unlike { IfErr result (IsUnlike text.now written.now) }
{
    let mut rest = text;
    let mut wanted = written;
    let mut lines = 0;
    while let Some(end) = line_end(wanted) {
        let (line, more) = wanted.split_at(end + 1);
        if !is_same(front(rest, line.len()), line) {
            return Err(CheckFault {
                line: lines + 1,
                cause: line_cause(rest),
            });
        }
        rest = after(rest, line.len());
        wanted = more;
        lines += 1;
    }
    Ok(lines)
}

/// Returns the parts of the header with which a text begins, else its first wrong line.
pub(crate) fn check_header(text: &[u8]) -> Result<HeaderRead, CheckFault>
    ensures good { IfOk result (λ r. IsHeadView r.head × IsPositionView (position_view r.position) × IsMoment r.first) }
    ensures text { IfOk result (λ r. text.now ≡ header_text r.head (position_view r.position) r.first ++ drop r.used text.now) }
    ensures size { IfOk result (λ r. (r.used ≡ length (header_text r.head (position_view r.position) r.first))
        × AreLines r.lines (header_text r.head (position_view r.position) r.first)) }
    ensures only { IfOk result (λ r. IsOnlyHeader text.now r.head (position_view r.position) r.first) }
    ensures fault { IfErr result (IsFaultOfHeader text.now) }
    ensures none { OnErr result (¬ (HasHeader text.now)) }
{
    let mut written = ArrayVec::new();
    let parts = read_header(text, &mut written);
    let lines = compare_lines(text, written.as_slice())?;
    // A law: no two codes have one name, so the header shows its codes.
    code_laws();
    Ok(HeaderRead {
        head: parts.head,
        position: parts.position,
        first: parts.first,
        lines,
        used: written.len(),
    })
}
