//! The laws of a window, for the signals of all systems.

ghost use Rattle.std.specs.Prelude.{◌≡◌, ◌↔◌, ℤ, Bool, List, Option, IsTrue};
ghost use Rattle.rtk_collect.specs.declared.conflicts.AnySatelliteCode.{AnySatelliteCode};
ghost use Rattle.rtk_collect.specs.Signals.{signals, entries_by, SignalKeysAreDistinct, GpsKeepsItsOrder, EpochsAreOfSatellites, GpsIsKept};
ghost use Rattle.rtk_collect.specs.Laws.{LateArrivalsChangeNothing, ClosedOnlyGrow, ClosedFall, ClosedAfter, ClosedAreRest, ClosedAreCounted, FirstIsPreferred, KeptAreTaken, SetDecides, LateLeavesKept, InTimeJoinsKept, KeptOpensNone, GreaterOpens, LesserJoinsOthers, SameJoins, KeptFall, KeptRise, OrderedAreSame, KeptAreFew, KeptAreGreatest, OpeningConflictsNot, ClosingConflictsNot, FirstIsKept, NewWindowIsEmpty, WindowsAnswer, AnswersAreUnique, WindowsAreUnique};

use crate::conflicts::AnySatelliteCode;

/// What is a law of a window with the cells of GPS is one of a window with the signals of all systems,
/// whatever the channels are, with satellites of SBAS in 1004 and without them, with the Doppler shifts of MSM and without them. Keys are equal exactly if satellite, code and kind of message are equal. Cells
/// of GPS have the same order in both windows, and of messages of GPS both keep the same. An epoch has at
/// most 32 cells for each satellite up to the greatest one of all arrivals: 7,072 for all satellites, and
/// 1,024 for those of GPS. `==` on satellites with codes is equality of both.
pub fn signal_window_laws()
    ensures keys { SignalKeysAreDistinct }
    ensures order { GpsKeepsItsOrder }
    ensures gps { GpsIsKept }
    ensures satellites { EpochsAreOfSatellites }
    ensures equality { (a b : AnySatelliteCode) → IsTrue (⟦<AnySatelliteCode as PartialEq>⟧.eq a b) ↔ (a ≡ b) }
    ensures cells { (sbas doppler : Bool) (channels : List (Option ℤ)) → KeptAreFew 7072 signals (entries_by sbas doppler channels) }
    ensures opens { (sbas doppler : Bool) (channels : List (Option ℤ)) → OpeningConflictsNot signals (entries_by sbas doppler channels) }
    ensures closes { (sbas doppler : Bool) (channels : List (Option ℤ)) → ClosingConflictsNot signals (entries_by sbas doppler channels) }
    ensures new { (sbas doppler : Bool) (channels : List (Option ℤ)) → NewWindowIsEmpty signals (entries_by sbas doppler channels) }
    ensures answers { (sbas doppler : Bool) (channels : List (Option ℤ)) → WindowsAnswer signals (entries_by sbas doppler channels) }
    ensures one_answer { (sbas doppler : Bool) (channels : List (Option ℤ)) → AnswersAreUnique signals (entries_by sbas doppler channels) }
    ensures one_window { (sbas doppler : Bool) (channels : List (Option ℤ)) → WindowsAreUnique signals (entries_by sbas doppler channels) }
    ensures late_change_nothing { (sbas doppler : Bool) (channels : List (Option ℤ)) → LateArrivalsChangeNothing signals (entries_by sbas doppler channels) }
    ensures closed_grow { (sbas doppler : Bool) (channels : List (Option ℤ)) → ClosedOnlyGrow signals (entries_by sbas doppler channels) }
    ensures closed_fall { (sbas doppler : Bool) (channels : List (Option ℤ)) → ClosedFall signals (entries_by sbas doppler channels) }
    ensures closed_after { (sbas doppler : Bool) (channels : List (Option ℤ)) → ClosedAfter signals (entries_by sbas doppler channels) }
    ensures closed_rest { (sbas doppler : Bool) (channels : List (Option ℤ)) → ClosedAreRest signals (entries_by sbas doppler channels) }
    ensures closed_count { (sbas doppler : Bool) (channels : List (Option ℤ)) → ClosedAreCounted signals (entries_by sbas doppler channels) }
    ensures taken { (sbas doppler : Bool) (channels : List (Option ℤ)) → KeptAreTaken signals (entries_by sbas doppler channels) }
    ensures same { (sbas doppler : Bool) (channels : List (Option ℤ)) → SetDecides signals (entries_by sbas doppler channels) }
    ensures late { (sbas doppler : Bool) (channels : List (Option ℤ)) → LateLeavesKept signals (entries_by sbas doppler channels) }
    ensures in_time { (sbas doppler : Bool) (channels : List (Option ℤ)) → InTimeJoinsKept signals (entries_by sbas doppler channels) }
    ensures held { (sbas doppler : Bool) (channels : List (Option ℤ)) → KeptOpensNone signals (entries_by sbas doppler channels) }
    ensures fall { (sbas doppler : Bool) (channels : List (Option ℤ)) → KeptFall signals (entries_by sbas doppler channels) }
    ensures rise { (sbas doppler : Bool) (channels : List (Option ℤ)) → KeptRise signals (entries_by sbas doppler channels) }
    ensures greatest { (sbas doppler : Bool) (channels : List (Option ℤ)) → KeptAreGreatest signals (entries_by sbas doppler channels) }
    ensures first { (sbas doppler : Bool) (channels : List (Option ℤ)) → FirstIsKept signals (entries_by sbas doppler channels) }
    ensures joins_greater { GreaterOpens signals }
    ensures joins_same { SameJoins signals }
    ensures joins_lesser { LesserJoinsOthers signals }
    ensures ordered { OrderedAreSame signals }
    ensures preferred { FirstIsPreferred signals }
{}
