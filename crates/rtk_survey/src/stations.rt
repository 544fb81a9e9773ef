//! The stations that were heard, each by its number.
//!
//! A station gets its entry with the first frame that names it.

ghost use Rattle.std.specs.Prelude.{◌≡◌, List, ◌∷◌, OnOk};
ghost use Rattle.rtk_message.specs.declared.any_message.AnyMessage.{AnyMessage};
ghost use Rattle.rtk_survey.specs.BesideGps.{cells_beside_gps};
ghost use Rattle.rtk_survey.specs.Contents.{AreStations, HasCodes};
ghost use Rattle.rtk_survey.specs.Tracing.{entries_of_message};
ghost use Rattle.rtk_survey.specs.declared.date_message.DateMessage.{DateMessage};
ghost use Rattle.rtk_survey.specs.declared.date_message.DateMessage.TheVariants.{Utc};
ghost use Rattle.rtk_survey.specs.declared.equipment_message.EquipmentMessage.{EquipmentMessage};

use crate::date_message::UtcDate;
use crate::equipment_message::EquipmentMessage;
use crate::signals::Codes;
use crate::station::StationSurvey;
use rtk_message::AnyMessage;
use rtk_obs::{CellEntry, SignalEntry};
use std::alloc::{AllocError, Global};
use std::collections::BTreeMap;

/// A message more, with its cells and their codes: those of GPS, and those of other systems.
pub(crate) fn take_message(
    alloc: Global,
    stations: &mut BTreeMap<u16, StationSurvey>,
    message: &AnyMessage,
    entries: &[CellEntry],
    codes: &Codes,
    signals: &[SignalEntry],
) -> Result<(), AllocError>
    requires entries { entries.now ≡ entries_of_message message.now }
    requires codes { HasCodes codes.now (entries_of_message message.now) }
    requires signals { signals.now ≡ cells_beside_gps message.now }
    ensures { OnOk result ((ms : List AnyMessage) (ds : List DateMessage) (es : List EquipmentMessage)
        → AreStations ms ds es stations.old → AreStations (message.now ∷ ms) ds es stations.new) }
{
    let station = stations
        .entry(message.station())?
        .or_insert_with(|| StationSurvey::new(alloc));
    station.take_message(message, entries, codes, signals)
}

/// A 1013 or a 1029 more.
pub(crate) fn take_date(
    alloc: Global,
    stations: &mut BTreeMap<u16, StationSurvey>,
    date: UtcDate,
) -> Result<(), AllocError>
    ensures { OnOk result ((ms : List AnyMessage) (ds : List DateMessage) (es : List EquipmentMessage)
        → AreStations ms ds es stations.old → AreStations ms (Utc date ∷ ds) es stations.new) }
{
    let station = stations
        .entry(date.station)?
        .or_insert_with(|| StationSurvey::new(alloc));
    station.take_date(date);
    Ok(())
}

/// A 1007, 1008 or 1033 more.
pub(crate) fn take_equipment(
    alloc: Global,
    stations: &mut BTreeMap<u16, StationSurvey>,
    message: EquipmentMessage,
) -> Result<(), AllocError>
    ensures { OnOk result ((ms : List AnyMessage) (ds : List DateMessage) (es : List EquipmentMessage)
        → AreStations ms ds es stations.old → AreStations ms ds (message ∷ es) stations.new) }
{
    let station = stations
        .entry(message.station)?
        .or_insert_with(|| StationSurvey::new(alloc));
    station.take_equipment(message)
}
