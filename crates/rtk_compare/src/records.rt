//! The records of two files side by side.

ghost use Rattle.std.specs.Prelude.{◌≡◌, ℕ, List, []};
ghost use Rattle.rtk_rinex.specs.Record.{EpochTableView};
ghost use Rattle.rtk_rinex.specs.MixedRecords.{AreMixedLeft};
ghost use Rattle.rtk_rinex.specs.declared.epoch_table.SatelliteRow.{SatelliteRow};
ghost use Rattle.rtk_compare.specs.declared.shared_codes.SharedCode.{SharedCode};
ghost use Rattle.rtk_compare.specs.Pairs.{Pair};
ghost use Rattle.rtk_compare.specs.Records.{record_lines};
ghost use Rattle.rtk_compare.specs.Differences.{Adds};
ghost use Rattle.rtk_compare.specs.Steps.Records.{IsSideOf, moment_of_both, gone_epoch, ComparesEpoch};
ghost use Rattle.rtk_compare.specs.Steps.SharedCodes.{HasShared};
ghost use Rattle.rtk_compare.specs.Steps.Tracks.{AreTracks, AreTracksOf};

use crate::difference::{Class, Place, What};
use crate::findings::Findings;
use crate::record_reader::RecordReader;
use crate::rows::compare_rows;
use crate::shared_codes::SharedCodes;
use crate::side::next_side;
use crate::track::Track;
use rtk_obs::GpsMs;
use rtk_rinex::{MixedRecords, MixedRows};

// Returns the moment of an epoch that both files have.
fn moment_of_both(old: &Option<MixedRows<'_>>, new: &Option<MixedRows<'_>>) -> Option<GpsMs>
    ensures { result ≡ moment_of_both old.now new.now }
{
    match (old, new) {
        (Some(old), Some(_)) => Some(old.time()),
        _ => None,
    }
}

// Adds an epoch that the new file has not.
fn put_gone_epoch(old: &Option<MixedRows<'_>>, new: &Option<MixedRows<'_>>, findings: &mut Findings)
    ensures { Adds findings.old findings.new (gone_epoch old.now new.now) }
{
    if let (Some(old), None) = (old, new) {
        let place = Place::of_epoch(old.time());
        findings.push(Class::Lost, What::Epoch, &place);
    }
}

// Compares the epochs of a moment. Their rows are told if both files have it.
fn compare_epoch(
    shared: &SharedCodes,
    tracks: &mut [Track],
    old: Option<MixedRows<'_>>,
    new: Option<MixedRows<'_>>,
    findings: &mut Findings,
)
    requires tracks { AreTracks tracks.old }
    ensures size { AreTracks tracks.new }
    ensures compared { (codes : ℕ → List SharedCode) (earlier : List (List (Pair SatelliteRow))) (p : Pair EpochTableView)
        → HasShared shared.now codes → AreTracksOf tracks.old codes earlier → IsSideOf old.entry p.old → IsSideOf new.entry p.new
        → ComparesEpoch codes earlier p findings.old findings.new tracks.new }
{
    put_gone_epoch(&old, &new, findings);
    let time = moment_of_both(&old, &new);
    compare_rows(shared, tracks, old, new, &time, findings);
}

/// Compares the records of two files.
pub(crate) fn compare_records(
    shared: &SharedCodes,
    tracks: &mut [Track],
    old: MixedRecords<'_>,
    new: MixedRecords<'_>,
    findings: &mut Findings,
)
    requires tracks { AreTracks tracks.old }
    ensures { (codes : ℕ → List SharedCode) (olds news : List EpochTableView) → HasShared shared.now codes → AreTracksOf tracks.old codes []
        → AreMixedLeft old.entry olds → AreMixedLeft new.entry news → Adds findings.old findings.new (record_lines codes olds news) }
{
    let mut olds = RecordReader::of(old);
    let mut news = RecordReader::of(new);
    while let Some(side) = next_side(olds.time(), news.time()) {
        let old_rows = olds.take_if(side.has_old());
        let new_rows = news.take_if(side.has_new());
        compare_epoch(shared, tracks, old_rows, new_rows, findings);
    }
}
