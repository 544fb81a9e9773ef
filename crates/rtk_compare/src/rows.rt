//! The rows of two records side by side.

ghost use Rattle.std.specs.Prelude.{◌≡◌, ◌<◌, ◌≤◌, ◌*◌, ◌∷◌, ℕ, List, length, get_or, set, IfSome, IfNone, Some, IsTrue};
ghost use Rattle.rtk_rinex.specs.declared.epoch_table.Observed.{Observed};
ghost use Rattle.rtk_rinex.specs.declared.epoch_table.SatelliteRow.{SatelliteRow};
ghost use Rattle.rtk_tracking.specs.Epochs.{shown_at};
ghost use Rattle.rtk_compare.specs.declared.shared_codes.SharedCode.{SharedCode};
ghost use Rattle.rtk_compare.specs.Pairs.{Pair, by_satellite, side_by_side};
ghost use Rattle.rtk_compare.specs.Differences.{Adds};
ghost use Rattle.rtk_compare.specs.declared.track.Track.{Track};
ghost use Rattle.rtk_compare.specs.Records.{cells_of};
ghost use Rattle.rtk_compare.specs.Steps.Tracks.{IsTrackOf, AreTracks, AreTracksAt, AreTracksOf, lines_if_told};
ghost use Rattle.rtk_compare.specs.Steps.SharedCodes.{HasShared};
ghost use Rattle.rtk_compare.specs.Steps.Readers.{AreRowsOf};
ghost use Rattle.rtk_compare.specs.Steps.Sides.{IsNextSide};
ghost use Rattle.rtk_compare.specs.Steps.Rows.{row_view, is_alone, is_gone_row, place_at, gone_line, lines_told, NotesRow, next_view, observed_of, next_rows, Rise, ComparesRows};

use crate::cells::{compare_cell, shows_same};
use crate::difference::{Class, Place, What};
use crate::findings::Findings;
use crate::row_reader::RowReader;
use crate::shared_codes::{SharedCode, SharedCodes};
use crate::side::{Side, next_side};
use crate::track::Track;
use rtk_obs::{GpsMs, SatelliteIndex};
use rtk_rinex::{MixedRows, Observed};

// What two files show of a satellite at one epoch; no values if a file has no row of it.
#[derive(Drop)]
struct RowPair<'r> {
    satellite: SatelliteIndex,
    old: &'r [Observed],
    new: &'r [Observed],
}

// Returns what a satellite shows of the code at this place.
fn shown_at(observed: &[Observed], place: usize) -> Observed
    ensures { result ≡ shown_at place observed.now }
{
    observed.get(place).copied().unwrap_or_default()
}

// Returns the place of the first track of a satellite.
fn first_track(satellite: SatelliteIndex) -> usize
    ensures value { result ≡ 16 * satellite }
    ensures bound { result ≤ 3536 }
{
    16 * usize::from(satellite.index())
}

impl<'r> RowPair<'r> {
    // Does one of the rows show nothing?
    fn is_alone(&self) -> bool
        ensures { result ≡ is_alone (row_view self.now) }
    {
        self.old.len() == 0 || self.new.len() == 0
    }

    // Has the new file no row of the satellite, and the old one has?
    fn is_gone(&self) -> bool
        ensures { result ≡ is_gone_row (row_view self.now) }
    {
        self.old.len() != 0 && self.new.len() == 0
    }

    // Returns the place of the differences of a code, unless a greater difference is told in their place.
    fn place_of(&self, code: &SharedCode, time: &Option<GpsMs>) -> Option<Place>
        ensures { result ≡ place_at time.now (row_view self.now) code.now }
    {
        let Some(time) = time else {
            return None;
        };
        if self.is_alone() {
            return None;
        }
        Some(Place::of_signal(*time, self.satellite, code.code))
    }

    // Adds the satellite, if it is gone.
    fn put_gone(&self, time: &Option<GpsMs>, findings: &mut Findings)
        ensures { Adds findings.old findings.new (gone_line time.now (row_view self.now)) }
    {
        if let Some(time) = time {
            let place = Place::of_satellite(*time, self.satellite);
            findings.push_if(self.is_gone(), Class::Lost, What::Satellite, &place);
        }
    }
}

// Returns the code at this place.
fn code_at(codes: &[SharedCode], place: usize) -> SharedCode
    requires { place < length codes.now }
    ensures { (d : SharedCode) → result ≡ get_or codes.now place d }
{
    codes[place]
}

// Returns the track at this place.
fn track_in(tracks: &[Track], place: usize) -> Track
    requires { place < length tracks.now }
    ensures { (d : Track) → result ≡ get_or tracks.now place d }
{
    tracks[place]
}

// Puts a track at this place.
fn put_track(tracks: &mut [Track], place: usize, track: Track)
    requires { place < length tracks.old }
    ensures { tracks.new ≡ set tracks.old place track }
{
    tracks[place] = track;
}

// Compares a code of a satellite. Its differences are added if there is a time, that of its epoch.
fn compare_code(
    code: &SharedCode,
    track: &mut Track,
    row: &RowPair<'_>,
    time: &Option<GpsMs>,
    findings: &mut Findings,
)
    ensures lines { (es : List (Pair Observed)) → IsTrackOf track.old es
        → Adds findings.old findings.new (lines_if_told code.now.shifts (place_at time.now (row_view row.now) code.now) es (cells_of code.now (row_view row.now))) }
    ensures track { (es : List (Pair Observed)) → IsTrackOf track.old es → IsTrackOf track.new (cells_of code.now (row_view row.now) ∷ es) }
{
    let old = shown_at(row.old, code.old);
    let new = shown_at(row.new, code.new);
    // Most cells are of this kind, and nothing is told of them.
    if shows_same(track, &old, &new) {
        track.note(&old, &new, 0);
    } else {
        let place = row.place_of(code, time);
        compare_cell(track, code.shifts, &old, &new, &place, findings);
    }
}

// Compares a satellite. Its differences are added if there is a time, that of its epoch.
fn compare_row(
    codes: &[SharedCode],
    tracks: &mut [Track],
    row: &RowPair<'_>,
    time: &Option<GpsMs>,
    findings: &mut Findings,
)
    requires codes { length codes.now ≤ 16 }
    requires tracks { AreTracks tracks.old }
    ensures size { AreTracks tracks.new }
    ensures lines { (shared : ℕ → List SharedCode) (earlier : List (List (Pair SatelliteRow))) → codes.now ≡ shared row.now.satellite
        → AreTracksAt tracks.old shared earlier row.now.satellite → Adds findings.old findings.new (lines_told time.now shared earlier (row_view row.now)) }
    ensures tracks { NotesRow tracks.old tracks.new codes.now (row_view row.now) }
{
    row.put_gone(time, findings);
    let first = first_track(row.satellite);
    for k in 0..codes.len() {
        let code = code_at(codes, k);
        let mut track = track_in(tracks, first + k);
        compare_code(&code, &mut track, row, time, findings);
        put_track(tracks, first + k, track);
    }
}

// Returns the satellite that comes next, if it is that of this side.
fn next_satellite(side: Side, old: &RowReader<'_>, new: &RowReader<'_>) -> Option<SatelliteIndex>
    ensures { result ≡ next_view side old.now.satellite new.now.satellite }
{
    match side {
        Side::New => new.satellite(),
        _ => old.satellite(),
    }
}

// Returns what a reader shows of this satellite, if it has a row of it.
fn observed_if<'r>(has_row: bool, reader: &'r RowReader<'_>) -> &'r [Observed]
    ensures { result.now ≡ observed_of has_row reader.now }
{
    if has_row { reader.observed() } else { &[] }
}

// Compares the rows that come next, which the files of this side have.
fn compare_side(
    side: Side,
    shared: &SharedCodes,
    tracks: &mut [Track],
    old: &RowReader<'_>,
    new: &RowReader<'_>,
    time: &Option<GpsMs>,
    findings: &mut Findings,
)
    requires tracks { AreTracks tracks.old }
    requires side { IsNextSide old.now.satellite new.now.satellite (Some side) }
    ensures size { AreTracks tracks.new }
    ensures lines { (codes : ℕ → List SharedCode) (earlier : List (List (Pair SatelliteRow))) → HasShared shared.now codes
        → AreTracksAt tracks.old codes earlier (next_rows side old.now new.now).old.satellite
        → Adds findings.old findings.new (lines_told time.now codes earlier (next_rows side old.now new.now)) }
    ensures tracks { (codes : ℕ → List SharedCode) → HasShared shared.now codes
        → NotesRow tracks.old tracks.new (codes (next_rows side old.now new.now).old.satellite) (next_rows side old.now new.now) }
{
    let Some(satellite) = next_satellite(side, old, new) else {
        unreachable!();
    };
    let old_observed = observed_if(side.has_old(), old);
    let new_observed = observed_if(side.has_new(), new);
    let row = RowPair {
        satellite,
        old: old_observed,
        new: new_observed,
    };
    let codes = shared.of_satellite(satellite);
    compare_row(codes, tracks, &row, time, findings);
}

// Compares the rows that come next, and answers which files have one.
fn compare_next(
    shared: &SharedCodes,
    tracks: &mut [Track],
    old: &RowReader<'_>,
    new: &RowReader<'_>,
    time: &Option<GpsMs>,
    findings: &mut Findings,
) -> Option<Side>
    requires tracks { AreTracks tracks.old }
    ensures size { AreTracks tracks.new }
    ensures side { IsNextSide old.now.satellite new.now.satellite result }
    ensures lines { (codes : ℕ → List SharedCode) (earlier : List (List (Pair SatelliteRow))) → HasShared shared.now codes
        → IfSome result (λ side. AreTracksAt tracks.old codes earlier (next_rows side old.now new.now).old.satellite
        → Adds findings.old findings.new (lines_told time.now codes earlier (next_rows side old.now new.now))) }
    ensures tracks { (codes : ℕ → List SharedCode) → HasShared shared.now codes
        → IfSome result (λ side. NotesRow tracks.old tracks.new (codes (next_rows side old.now new.now).old.satellite) (next_rows side old.now new.now)) }
    ensures end { IfNone result ((findings.new ≡ findings.old) × (tracks.new ≡ tracks.old)) }
{
    match next_side(old.number(), new.number()) {
        Some(side) => {
            compare_side(side, shared, tracks, old, new, time, findings);
            Some(side)
        }
        None => None,
    }
}

// Compares the rows of two records one after another. Their differences are added if there is a time.
fn compare_each_row(
    shared: &SharedCodes,
    tracks: &mut [Track],
    old: Option<MixedRows<'_>>,
    new: Option<MixedRows<'_>>,
    time: &Option<GpsMs>,
    findings: &mut Findings,
)
    requires tracks { AreTracks tracks.old }
    ensures size { AreTracks tracks.new }
    ensures compared { (codes : ℕ → List SharedCode) (earlier : List (List (Pair SatelliteRow))) (olds news : List SatelliteRow)
        → HasShared shared.now codes → AreTracksOf tracks.old codes earlier → AreRowsOf old.entry olds → AreRowsOf new.entry news → Rise olds → Rise news
        → ComparesRows time.now codes earlier (side_by_side by_satellite olds news) findings.old findings.new tracks.new }
{
    let mut olds = RowReader::of(old);
    let mut news = RowReader::of(new);
    while let Some(side) = compare_next(shared, tracks, &olds, &news, time, findings) {
        olds.advance_if(side.has_old());
        news.advance_if(side.has_new());
    }
}

// Compares the rows of one record with themselves, since both files have its lines. What comes of it is added if there is
// a time.
fn compare_same_rows(
    shared: &SharedCodes,
    tracks: &mut [Track],
    rows: Option<MixedRows<'_>>,
    time: &Option<GpsMs>,
    findings: &mut Findings,
)
    requires tracks { AreTracks tracks.old }
    ensures size { AreTracks tracks.new }
    ensures compared { (codes : ℕ → List SharedCode) (earlier : List (List (Pair SatelliteRow))) (olds news : List SatelliteRow)
        → HasShared shared.now codes → AreTracksOf tracks.old codes earlier → AreRowsOf rows.entry olds → AreRowsOf rows.entry news → Rise olds → Rise news
        → ComparesRows time.now codes earlier (side_by_side by_satellite olds news) findings.old findings.new tracks.new }
{
    let mut both = RowReader::of(rows);
    while let Some(side) = compare_next(shared, tracks, &both, &both, time, findings) {
        both.advance_if(side.has_old());
    }
}

// Have two records the same lines, in files of the same form?
fn have_same_rows(old: &Option<MixedRows<'_>>, new: &Option<MixedRows<'_>>) -> bool
    ensures { IsTrue result → (rows : List SatelliteRow) → AreRowsOf new.now rows → AreRowsOf old.now rows }
{
    match (old, new) {
        (Some(old), Some(new)) => old.has_rows_of(new),
        _ => false,
    }
}

/// Compares the rows of two records. Their differences are added if there is a time.
pub(crate) fn compare_rows(
    shared: &SharedCodes,
    tracks: &mut [Track],
    old: Option<MixedRows<'_>>,
    new: Option<MixedRows<'_>>,
    time: &Option<GpsMs>,
    findings: &mut Findings,
)
    requires tracks { AreTracks tracks.old }
    ensures size { AreTracks tracks.new }
    ensures compared { (codes : ℕ → List SharedCode) (earlier : List (List (Pair SatelliteRow))) (olds news : List SatelliteRow)
        → HasShared shared.now codes → AreTracksOf tracks.old codes earlier → AreRowsOf old.entry olds → AreRowsOf new.entry news → Rise olds → Rise news
        → ComparesRows time.now codes earlier (side_by_side by_satellite olds news) findings.old findings.new tracks.new }
{
    if have_same_rows(&old, &new) {
        compare_same_rows(shared, tracks, old, time, findings);
    } else {
        compare_each_row(shared, tracks, old, new, time, findings);
    }
}
