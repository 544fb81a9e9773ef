//! Which satellites are drawn.

ghost use Rattle.std.specs.Prelude.{◌≡◌, ◌<◌, ◌≤◌, [], length, All, AllPairs};
ghost use Rattle.std.specs.List.{filter};
ghost use Rattle.rtk_rinex.specs.Record.{IsSatelliteRow};
ghost use Rattle.rtk_chart.specs.Choice.{is_chosen, chosen_rows, has_row};

use rtk_rinex::{EpochTable, SatelliteRow};

/// Some satellites of any system.
#[derive(Clone, Copy, Debug, PartialEq, Eq)]
pub struct Chosen {
    /// Whether each satellite is chosen, at the place of its index less one: those of GPS stand first.
    pub places: [bool; 221],
}

/// Which satellites are drawn.
#[derive(Clone, Copy, Debug, PartialEq, Eq)]
pub enum Choice {
    /// All.
    All,
    /// Only these.
    These(Chosen),
}

/// The satellite of this index is chosen.
pub(crate) fn is_chosen(chosen: &Chosen, satellite: u8) -> bool
    ensures { result ≡ is_chosen chosen.now satellite }
{
    let place = usize::from(satellite.saturating_sub(1));
    chosen.places.get(place).copied().unwrap_or(false)
}

// Adds the chosen ones of rows.
fn push_chosen(narrow: &mut EpochTable, chosen: &Chosen, rows: &[SatelliteRow])
    requires good { All IsSatelliteRow rows.now }
    requires rise { AllPairs (λ a b. a.satellite < b.satellite) rows.now }
    requires few { length rows.now ≤ 32 }
    requires empty { narrow.old.rows ≡ [] }
    ensures time { narrow.new.time ≡ narrow.old.time }
    ensures rows { narrow.new.rows ≡ filter (λ r. is_chosen chosen.now r.satellite) rows.now }
{
    for row in rows {
        if is_chosen(chosen, row.satellite) {
            narrow.push_row(row.satellite, row.observed.as_slice());
        }
    }
}

/// Writes an epoch with the rows of chosen satellites alone over another one.
pub(crate) fn narrow_to(narrow: &mut EpochTable, chosen: &Chosen, epoch: &EpochTable)
    ensures { narrow.new ≡ chosen_rows chosen.now epoch.now }
{
    narrow.restart(epoch.time());
    push_chosen(narrow, chosen, epoch.rows());
}

/// Some row of an epoch is of a chosen satellite.
pub(crate) fn has_row(chosen: &Chosen, epoch: &EpochTable) -> bool
    ensures { result ≡ has_row chosen.now epoch.now }
{
    epoch
        .rows()
        .iter()
        .any(|row| is_chosen(chosen, row.satellite))
}
