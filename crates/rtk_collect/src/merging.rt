//! The cells of a message join the cells of their epoch.
//!
//! The cells of a message that come after those of the messages before are copied as they stand. Any
//! others are compared in one pass. If a cell is new and the cells rise, the list grows once and both are
//! merged in it from the greatest key down. Other cells are put in one by one. Whether the cells rise,
//! the caller says.

ghost use Rattle.std.specs.Prelude.{◌≡◌, ◌≢◌, ◌≤◌, ◌<◌, ◌+◌, ◌-◌, ◌*◌, [], ◌∷◌, ◌++◌, not, length, take, drop, slice_index_or, vec_len, vec_capacity, IsTrue, IfOk, OnErr, All, if◌then◌else◌};
ghost use Rattle.rtk_collect.specs.Equal.{equal_cells};
ghost use Rattle.rtk_collect.specs.Key.{key, KeysRise};
ghost use Rattle.rtk_collect.specs.EpochSet.{with_cell, with_cells, cell_under, fresh, equal_values, conflict, conflicts, AreOfOneSource};
ghost use Rattle.rtk_collect.specs.Steps.OrderedPlaces.{lower};

use crate::conflicts::Conflicts;
use crate::entry::Entry;
use rtk_obs::CellSource;
use std::alloc::AllocError;

/// Returns the key of a cell, by which the cells of an epoch rise: satellite, code and kind of
/// message. It has the kind since clauses see one list of both kinds. In the list of a kind all
/// cells have the same.
pub(crate) fn key_of<E: Entry>(entry: &E) -> usize
    ensures { result ≡ key E.entries entry.now }
{
    // An MSM is the kind with the number 1, and stands before a 1004.
    entry.place() * 2 + 1 - entry.cell().source as usize
}

/// Returns the kind of message that cells of one kind came in, which is a 1004 if there is no cell.
pub(crate) fn source_of<E: Entry>(cells: &[E]) -> CellSource
    requires { AreOfOneSource E.entries cells.now }
    ensures { All (λ c. ((E.entries).cell c).source ≡ result) cells.now }
{
    if cells.is_empty() {
        return CellSource::Legacy;
    }
    cells[0].cell().source
}

/// Takes the cells whose keys are new into a list, and says how many these are. Those that conflict
/// are added to an empty list. If `rises`, the keys of the cells rise. Memory is taken for new
/// cells alone, before the first one is added.
pub(crate) fn join_list<E: Entry>(
    list: &mut Vec<E>,
    cells: &[E],
    rises: bool,
    found: &mut Conflicts<E::Signal>,
) -> Result<usize, AllocError>
    requires few { length cells.now ≤ 64 }
    requires rises { KeysRise E.entries list.old.items }
    requires rising { IsTrue rises → KeysRise E.entries cells.now }
    requires empty { found.old ≡ [] }
    ensures items { IfOk result (λ n. list.new.items ≡ with_cells E.entries cells.now list.old.items) }
    ensures fresh { IfOk result (λ n. n ≡ fresh E.entries cells.now list.old.items) }
    ensures conflicts { IfOk result (λ n. found.new ≡ conflicts E.entries cells.now list.old.items) }
    ensures err { OnErr result (list.new.items ≡ list.old.items) }
    ensures refused { OnErr result (0 < fresh E.entries cells.now list.old.items) }
{
    if rises && are_after(list.as_slice(), cells) {
        // The common cases: the first message of its kind, or one of a system that is after those of the
        // messages before.
        list.extend_from_slice(cells)?;
        return Ok(cells.len());
    }
    let count = count_new(cells, list, found);
    if count == 0 {
        return Ok(0);
    }
    if rises {
        return join_rising(list, cells, count);
    }
    join_other(list, cells, count, found)
}

// Returns whether cells come after the kept ones: where both rise, they rise together.
#[inline(always)]
fn are_after<E: Entry>(kept: &[E], cells: &[E]) -> bool
    ensures { IsTrue result → KeysRise E.entries kept.now → KeysRise E.entries cells.now → KeysRise E.entries (kept.now ++ cells.now) }
{
    if kept.is_empty() {
        return true;
    }
    if cells.is_empty() {
        return true;
    }
    key_of(&kept[kept.len() - 1]) < key_of(&cells[0])
}

// Takes cells whose keys rise; `count` of them are new.
fn join_rising<E: Entry>(list: &mut Vec<E>, cells: &[E], count: usize) -> Result<usize, AllocError>
    requires rises { KeysRise E.entries list.old.items }
    requires rising { KeysRise E.entries cells.now }
    requires count { count ≡ fresh E.entries cells.now list.old.items }
    ensures items { IfOk result (λ n. list.new.items ≡ with_cells E.entries cells.now list.old.items) }
    ensures fresh { IfOk result (λ n. n ≡ count) }
    ensures err { OnErr result (list.new.items ≡ list.old.items) }
{
    let kept = list.len();
    list.reserve_exact(count)?;
    // What stands in the new places is overwritten.
    let Ok(()) = list.extend_from_slice(&cells[..count]) else {
        unreachable!()
    };
    merge_rising(list, kept, cells);
    Ok(count)
}

// Takes cells whose keys don't rise; `count` of them are new.
fn join_other<E: Entry>(
    list: &mut Vec<E>,
    cells: &[E],
    count: usize,
    found: &mut Conflicts<E::Signal>,
) -> Result<usize, AllocError>
    requires few { length cells.now ≤ 64 }
    requires rises { KeysRise E.entries list.old.items }
    requires count { count ≡ fresh E.entries cells.now list.old.items }
    ensures items { IfOk result (λ n. list.new.items ≡ with_cells E.entries cells.now list.old.items) }
    ensures fresh { IfOk result (λ n. n ≡ count) }
    ensures conflicts { IfOk result (λ n. found.new ≡ conflicts E.entries cells.now list.old.items) }
    ensures err { OnErr result (list.new.items ≡ list.old.items) }
{
    list.reserve(count)?;
    merge(list, cells, found);
    Ok(count)
}

// Returns how many of the cells are new, which means that no kept cell has their key. If none is
// new or the keys of the cells rise, those that conflict are added to an empty list.
fn count_new<E: Entry>(cells: &[E], kept: &[E], found: &mut Conflicts<E::Signal>) -> usize
    requires rises { KeysRise E.entries kept.now }
    requires few { length cells.now ≤ 64 }
    requires empty { found.old ≡ [] }
    ensures fresh { result ≡ fresh E.entries cells.now kept.now }
    ensures conflicts { result ≡ 0 → found.new ≡ conflicts E.entries cells.now kept.now }
    ensures rising { KeysRise E.entries cells.now → found.new ≡ conflicts E.entries cells.now kept.now }
{
    let mut count = 0;
    let mut at = 0;
    for entry in cells {
        let key = key_of(entry);
        at = place_of_key(kept, at, key);
        match kept_cell(kept, at, key) {
            None => count += 1,
            Some(first) => {
                if differ(&first, entry) {
                    found.push(entry.signal());
                }
            }
        }
    }
    count
}

// Adds the cells whose keys are new, for which there is room, and says which cells conflict.
fn merge<E: Entry>(kept: &mut Vec<E>, cells: &[E], found: &mut Conflicts<E::Signal>)
    requires rises { KeysRise E.entries kept.old.items }
    requires few { length cells.now ≤ 64 }
    requires room { vec_len kept.old + fresh E.entries cells.now kept.old.items ≤ vec_capacity kept.old }
    ensures items { kept.new.items ≡ with_cells E.entries cells.now kept.old.items }
    ensures conflicts { found.new ≡ conflicts E.entries cells.now kept.old.items }
{
    *found = Conflicts::new();
    let mut at = 0;
    for entry in cells {
        at = place_of_key(kept, at, key_of(entry));
        if add_new(kept, at, *entry) {
            found.push(entry.signal());
        }
    }
}

// Puts cells whose keys rise among the first `kept` ones of a list, which has a place for each new
// cell after them. Of two cells with one key the kept one stays.
fn merge_rising<E: Entry>(list: &mut [E], kept: usize, cells: &[E])
    requires kept { kept ≤ length list.old }
    requires rises { KeysRise E.entries (take kept list.old) }
    requires rising { KeysRise E.entries cells.now }
    requires room { length list.old ≡ kept + fresh E.entries cells.now (take kept list.old) }
    ensures { list.new ≡ with_cells E.entries cells.now (take kept list.old) }
{
    // The kept cells and the cells that are still to be put, the greatest first, so that none is
    // overwritten before it is moved; and how many of these are new.
    let mut left = kept;
    let mut next = cells.len();
    let mut gap = list.len() - kept;
    let mut last = key_before(list, left);
    let mut wanted = key_before(cells, next);
    while left > 0 && next > 0 {
        if last > wanted {
            left -= 1;
            list[left + gap] = list[left];
            last = key_before(list, left);
            continue;
        }
        next -= 1;
        if last < wanted {
            gap -= 1;
            list[left + gap] = cells[next];
        }
        wanted = key_before(cells, next);
    }
    put_first(list, &cells[..next]);
}

// Returns the key of the cell before a place. At the first place it is asked for and not looked at.
fn key_before<E: Entry>(cells: &[E], at: usize) -> usize
    requires { at ≤ length cells.now }
    ensures { 0 < at → ((d : E) → result ≡ key E.entries (slice_index_or cells.now (at - 1) d)) }
{
    if at == 0 {
        return 0;
    }
    key_of(&cells[at - 1])
}

// Puts cells at the first places of a list.
fn put_first<E: Entry>(list: &mut [E], cells: &[E])
    requires { length cells.now ≤ length list.old }
    ensures { list.new ≡ cells.now ++ drop (length cells.now) list.old }
{
    let mut at = 0;
    while at < cells.len() {
        list[at] = cells[at];
        at += 1;
    }
}

// Returns whether two cells have the same values, whatever their Doppler shifts.
fn are_alike<E: Entry>(first: &E, entry: &E) -> bool
    ensures { result ≡ equal_cells ((E.entries).cell first.now) ((E.entries).cell entry.now) }
{
    first.cell() == entry.cell()
}

// Returns whether two cells have other values, or other Doppler shifts.
fn differ<E: Entry>(first: &E, entry: &E) -> bool
    ensures { result ≡ not (equal_values E.entries first.now entry.now) }
{
    if are_alike(first, entry) {
        return first.doppler() != entry.doppler();
    }
    true
}

// Adds a cell at its place if its key is new, and says whether it conflicts.
fn add_new<E: Entry>(kept: &mut Vec<E>, at: usize, entry: E) -> bool
    requires rises { KeysRise E.entries kept.old.items }
    requires place { at ≡ lower E.entries (key E.entries entry) kept.old.items }
    requires room { vec_len kept.old + fresh E.entries (entry ∷ []) kept.old.items ≤ vec_capacity kept.old }
    ensures items { kept.new.items ≡ with_cell E.entries entry kept.old.items }
    ensures capacity { vec_capacity kept.old ≤ vec_capacity kept.new }
    ensures conflict { conflict E.entries entry (cell_under E.entries (key E.entries entry) kept.old.items)
        ≡ (if result then (E.entries).signal entry ∷ [] else []) }
{
    if let Some(first) = kept_cell(kept, at, key_of(&entry)) {
        return differ(&first, &entry);
    }
    if let Err(_) = kept.insert(at, entry) {
        unreachable!()
    }
    false
}

// Returns the place of a key, which is how many cells have a lesser one. The search begins at a
// guess.
fn place_of_key<E: Entry>(kept: &[E], guess: usize, key: usize) -> usize
    requires guess { guess ≤ length kept.now }
    requires rises { KeysRise E.entries kept.now }
    ensures { result ≡ lower E.entries key kept.now }
{
    let mut at = guess;
    while at > 0 && key_of(&kept[at - 1]) >= key {
        at -= 1;
    }
    while at < kept.len() && key_of(&kept[at]) < key {
        at += 1;
    }
    at
}

// Returns the kept cell with this key, whose place is `at`.
fn kept_cell<E: Entry>(kept: &[E], at: usize, key: usize) -> Option<E>
    requires rises { KeysRise E.entries kept.now }
    requires place { at ≡ lower E.entries key kept.now }
    ensures { result ≡ cell_under E.entries key kept.now }
{
    if at >= kept.len() {
        return None;
    }
    let found = kept[at];
    if key_of(&found) == key {
        Some(found)
    } else {
        None
    }
}
