//! What an epoch shows of a satellite.

ghost use Rattle.std.specs.Prelude.{◌≡◌};
ghost use Rattle.rtk_tracking.specs.Passes.{has_phase};
ghost use Rattle.rtk_tracking.specs.Epochs.{shown_at};
ghost use Rattle.rtk_chart.specs.Epochs.{is_seen, level_of};

use rtk_rinex::Observed;

/// The satellite has a row.
pub(crate) fn is_seen(observed: &[Observed]) -> bool
    ensures { result ≡ is_seen observed.now }
{
    !observed.is_empty()
}

/// The satellite has a phase.
pub(crate) fn has_phase(observed: &[Observed]) -> bool
    ensures { result ≡ has_phase observed.now }
{
    observed.iter().any(|o| o.phase_millicycles.is_some())
}

/// What the code at this place shows.
pub(crate) fn shown_at(observed: &[Observed], code: usize) -> Observed
    ensures { result ≡ shown_at code observed.now }
{
    observed.get(code).copied().unwrap_or_default()
}

/// The signal strength digit of a strength, which `digit_of_strength` in record_text.rt of rtk_rinex
/// writes.
pub(crate) fn level_of(strength_millidbhz: Option<u32>) -> Option<u8>
    ensures { result ≡ level_of strength_millidbhz }
{
    match strength_millidbhz {
        Some(strength) => Some((strength / 6000).max(1).min(9) as u8),
        None => None,
    }
}
