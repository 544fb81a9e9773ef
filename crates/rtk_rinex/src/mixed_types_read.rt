//! The observation types of a header of any systems, read without a test of their form.

ghost use Rattle.std.specs.Int.{IsInRange};
ghost use Rattle.std.specs.Prelude.{◌≡◌, ◌≢◌, ℕ, ◌+◌, ◌*◌, ◌<◌, ◌≤◌, List, [], ◌∷◌, ◌++◌, length, take, drop, slice_index_or, MatchOption, IfSome, Some, Decides};
ghost use Rattle.rtk_obs.specs.declared.any_code.AnyCode.{AnyCode};
ghost use Rattle.rtk_obs.specs.AnyCode.{name_of};
ghost use Rattle.rtk_rinex.specs.MixedHead.{letter};
ghost use Rattle.rtk_rinex.specs.MixedHeader.{types_count};
ghost use Rattle.rtk_rinex.specs.Steps.HeaderShown.{number_at};
ghost use Rattle.rtk_rinex.specs.Steps.MixedRoom.{IsSystemLetter, IsFileLetter, codes_of_letter, codes_before_letter, types_line_count};
ghost use Rattle.rtk_rinex.specs.Steps.MixedHeaderRead.{AreAllOf, IsGroup, code_name_at, shows_doppler, ShowsGroup, ReadsSystem, is_due, IsListOf, Reads, types_and_unit};

use crate::digits::{after, columns_at, front, is_same, number_at};
use crate::header_check::read_name;
use crate::header_text::put_unit_line;
use crate::mixed_header_text::{LONGEST_MIXED_HEADER, codes_of, put_types_of, version_letter};
use arrayvec::ArrayVec;
use rtk_obs::{ALL_ANY_CODES, AnyCode, any_code_laws};

// The bytes of a line of a header.
const LINE: usize = 81;

// Returns of how many codes a number of observation types is.
fn codes_of_types(types: u64, doppler: bool) -> u64
    ensures { (n : ℕ) → types ≡ types_count doppler * n → result ≡ n }
{
    if doppler { types / 4 } else { types / 3 }
}

// Returns how many codes the first line of a system's types shows, at which a text begins, or 1 if it
// shows no number that is good.
fn read_count(text: &[u8], doppler: bool, most: usize) -> usize
    requires { IsInRange 1 16 most }
    ensures good { IsInRange 1 most result }
    ensures shown { (n : ℕ) → IsInRange 1 most n → number_at 3 3 text.now ≡ types_count doppler * n → result ≡ n }
{
    let count = codes_of_types(number_at(text, 3, 3), doppler);
    if count == 0 || count > most as u64 {
        return 1;
    }
    count as usize
}

// Returns the place of a code in a list of codes.
fn place_in(all: &[AnyCode], code: AnyCode) -> Option<usize>
    ensures { MatchOption result ((k : ℕ) → k < length all.now → slice_index_or all.now k code ≢ code)
        (λ k. (k < length all.now) × (slice_index_or all.now k code ≡ code)) }
{
    // A law: a number belongs to one code.
    any_code_laws();
    for k in 0..all.len() {
        if all[k].number() == code.number() {
            return Some(k);
        }
    }
    None
}

// Moves a code of a system to this place by an exchange, unless it stands there or earlier already.
fn move_code(all: &mut [AnyCode], system: u8, code: AnyCode, place: usize)
    requires place { place < length all.old }
    requires all { AreAllOf system all.old }
    requires letter { letter code ≡ system }
    ensures all { AreAllOf system all.new }
    ensures before { (k : ℕ) (d : AnyCode) → k < place → slice_index_or all.new k d ≡ slice_index_or all.old k d }
    ensures there { ((k : ℕ) (d : AnyCode) → k < place → slice_index_or all.old k d ≢ code)
        → (d : AnyCode) → slice_index_or all.new place d ≡ code }
{
    if let Some(k) = place_in(all, code) {
        if k > place {
            all.swap(place, k);
        }
    }
}

// Returns the code of the system of a letter with this name.
fn named_code(system: u8, name: &[u8]) -> Option<AnyCode>
    ensures system { IfSome result (λ c. letter c ≡ system) }
    ensures shown { (c : AnyCode) → letter c ≡ system → name.now ≡ name_of c → result ≡ Some c }
{
    // A law: a text belongs to one code.
    any_code_laws();
    let &[band, attribute] = name else {
        return None;
    };
    AnyCode::from_text(&[system, band, attribute])
}

// Moves the code of this system with this name to a place, as `move_code` does. If no code has the name,
// nothing moves.
fn move_named_code(all: &mut [AnyCode], system: u8, name: &[u8], place: usize)
    requires place { place < length all.old }
    requires all { AreAllOf system all.old }
    ensures all { AreAllOf system all.new }
    ensures before { (k : ℕ) (d : AnyCode) → k < place → slice_index_or all.new k d ≡ slice_index_or all.old k d }
    ensures there { (c : AnyCode) → letter c ≡ system → name.now ≡ name_of c
        → ((k : ℕ) (d : AnyCode) → k < place → slice_index_or all.old k d ≢ c) → (d : AnyCode) → slice_index_or all.new place d ≡ c }
{
    if let Some(code) = named_code(system, name) {
        move_code(all, system, code, place);
    }
}

// Returns two characters of the lines of types at which a text begins, or fewer if it ends: the name of the code after i
// codes.
fn read_code_name(text: &[u8], doppler: bool, i: usize) -> &[u8]
    requires { i < 16 }
    ensures { result.now ≡ code_name_at doppler i text.now }
{
    if doppler {
        // A code has four types, and a line 13, of 4 columns each.
        let line = columns_at(text, LINE * (4 * i / 13), LINE);
        columns_at(line, 8 + 4 * (4 * i % 13), 2)
    } else {
        read_name(text, i)
    }
}

// Moves the codes that the lines of a system's types name to the front of all its codes, in the order of
// the lines, as long as the named codes are good.
fn move_shown_codes(text: &[u8], doppler: bool, system: u8, all: &mut [AnyCode])
    requires few { length all.old ≤ 16 }
    requires all { AreAllOf system all.old }
    ensures all { AreAllOf system all.new }
    ensures shown { (ds : List AnyCode) (i : ℕ) (d : AnyCode) → IsGroup system ds → i < length ds → i < length all.new
        → ((j : ℕ) → j ≤ i → code_name_at doppler j text.now ≡ name_of (slice_index_or ds j d)) → slice_index_or all.new i d ≡ slice_index_or ds i d }
{
    for i in 0..all.len() {
        move_named_code(all, system, read_code_name(text, doppler, i), i);
    }
}

// Returns all codes of the system of a letter.
fn all_of(system: u8) -> ArrayVec<AnyCode, 69>
    requires { IsSystemLetter system }
    ensures all { AreAllOf system result.items }
    ensures few { IsInRange 1 16 (length result.items) }
{
    codes_of(system, &ALL_ANY_CODES)
}

// Returns the codes of a system that the lines of its types show, at which a text begins. If they show no
// good codes, other codes of the system stand in their place.
fn read_group(text: &[u8], doppler: bool, system: u8) -> ArrayVec<AnyCode, 69>
    requires { IsSystemLetter system }
    ensures shown { ShowsGroup doppler system text.now result.items }
    ensures few { length result.items ≤ codes_of_letter system }
{
    let mut all = all_of(system);
    move_shown_codes(text, doppler, system, all.as_mut_slice());
    let count = read_count(text, doppler, all.len());
    all.truncate(count);
    all
}

// Returns whether a text begins with this byte.
fn begins_with(text: &[u8], byte: u8) -> bool
    ensures { Decides result (take 1 text.now ≡ byte ∷ []) }
{
    is_same(front(text, 1), &[byte])
}

// Returns whether the lines of a system are due, after those of the listed codes.
fn is_due(file: u8, system: u8, listed: &[AnyCode], begins: bool) -> bool
    ensures { result ≡ is_due file system listed.now begins }
{
    if file != b'M' {
        return file == system;
    }
    if begins {
        return true;
    }
    if system == b'S' {
        return listed.len() == 0;
    }
    if system == b'I' {
        return version_letter(listed) != b'M';
    }
    false
}

// Reads the lines of the types of one system if they are due, lists its codes, and writes their lines.
fn read_system(
    text: &[u8],
    doppler: bool,
    file: u8,
    system: u8,
    listed: &mut ArrayVec<AnyCode, 69>,
    out: &mut ArrayVec<u8, LONGEST_MIXED_HEADER>,
)
    requires letter { IsSystemLetter system }
    requires few { length listed.old.items ≤ codes_before_letter system }
    requires room { length out.old.items + 405 ≤ 3969 }
    ensures reads { ReadsSystem doppler text.now file system listed.old.items listed.new.items out.old.items out.new.items }
    ensures few { length listed.new.items ≤ codes_before_letter system + codes_of_letter system }
    ensures lines { length out.new.items ≤ length out.old.items + 81 * types_line_count doppler (codes_of_letter system) }
    ensures room { length out.new.items ≤ length out.old.items + 405 }
{
    let rest = after(text, out.len());
    let begins = begins_with(rest, system);
    if is_due(file, system, listed.as_slice(), begins) {
        let codes = read_group(rest, doppler, system);
        put_types_of(out, doppler, system, codes.as_slice());
        if listed.try_extend_from_slice(codes.as_slice()).is_err() {
            unreachable!();
        }
    }
}

/// Returns whether the first line of types, at which a text begins, shows Doppler shifts.
pub(crate) fn shows_doppler(text: &[u8]) -> bool
    ensures { result ≡ shows_doppler text.now }
{
    text.len() > 15 && text[15] == b'D'
}

// Reads the lines of the types of all systems of a file of this letter, writes them with the line of the
// unit, and returns the codes. They are good codes of a file of this letter, whatever the text shows.
pub(crate) fn read_types(
    text: &[u8],
    doppler: bool,
    file: u8,
    out: &mut ArrayVec<u8, LONGEST_MIXED_HEADER>,
) -> ArrayVec<AnyCode, 69>
    requires file { IsFileLetter file }
    requires room { length out.old.items ≤ 729 }
    ensures good { IsListOf file result.items }
    ensures written { out.new.items ≡ out.old.items ++ types_and_unit doppler result.items }
    ensures shown { Reads {V = List AnyCode} (IsListOf file) (λ ds. ds ≡ result.items) (types_and_unit doppler) (drop (length out.old.items) text.now) result.items }
    ensures len { length out.new.items ≤ length out.old.items + 2025 }
{
    // A law: a place belongs to one code of a system, and a text to one code.
    any_code_laws();
    let mut listed = ArrayVec::new();
    read_system(text, doppler, file, b'G', &mut listed, out);
    read_system(text, doppler, file, b'R', &mut listed, out);
    read_system(text, doppler, file, b'E', &mut listed, out);
    read_system(text, doppler, file, b'C', &mut listed, out);
    read_system(text, doppler, file, b'J', &mut listed, out);
    read_system(text, doppler, file, b'S', &mut listed, out);
    read_system(text, doppler, file, b'I', &mut listed, out);
    put_unit_line(out);
    listed
}
