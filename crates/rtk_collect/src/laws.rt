//! Laws over the definitions: what a window answers and becomes; what late arrivals, repeats and the
//! order of arrivals change; and a law of `==`.
//!
//! Each function here does nothing. Its contract is the law, and a caller that calls it may cite
//! it; proofs of other crates cite the same facts from `proofs/PublicLaws.antt`.

ghost use Rattle.rtk_collect.specs.Gps.{gps};
ghost use Rattle.rtk_obs.specs.MessageCells.{cells_of};
ghost use Rattle.std.specs.Prelude.{◌≡◌, ◌↔◌, IsTrue};
ghost use Rattle.rtk_collect.specs.declared.conflicts.SatelliteCode.{SatelliteCode};
ghost use Rattle.rtk_collect.specs.Laws.{LateArrivalsChangeNothing, ClosedOnlyGrow, ClosedFall, ClosedAfter, ClosedAreRest, ClosedAreCounted, FirstIsPreferred, ExcusedIsKept, StationsAreFinal, KeptAreTaken, SetDecides, LateLeavesKept, InTimeJoinsKept, KeptOpensNone, GreaterOpens, LesserJoinsOthers, SameJoins, KeptFall, KeptRise, OrderedAreSame, KeptAreFew, KeptAreGreatest, OpeningConflictsNot, ClosingConflictsNot, KeysAreDistinct, EqualityDecides, FirstIsKept, NewWindowIsEmpty, WindowsAnswer, AnswersAreUnique, WindowsAreUnique};

use crate::conflicts::SatelliteCode;

/// An offer makes the next window of what a window represents, and answers by it. A `Collector` and
/// a `Gatherer` that hold nothing represent no arrivals. One that represents some answers a further
/// one by what it holds (`outcome_in`, with the conflicts `conflicts_in`), and it represents all of
/// them afterwards, when it is `next_window`. No other answer is right, and no other window
/// represents them.
pub fn collector_laws()
    ensures new { NewWindowIsEmpty gps cells_of }
    ensures answers { WindowsAnswer gps cells_of }
    ensures one_answer { AnswersAreUnique gps cells_of }
    ensures one_window { WindowsAreUnique gps cells_of }
{}

/// If all late arrivals are deleted, a further arrival is late exactly if it was late before the
/// deletion, and what is kept is the same.
pub fn late_arrivals_change_nothing()
    ensures { LateArrivalsChangeNothing gps cells_of }
{}

/// Closed epochs only grow in number, each is greater than the ones before it, and no epoch closes
/// before the window was full.
pub fn closed_epochs_only_grow()
    ensures grow { ClosedOnlyGrow gps cells_of }
    ensures fall { ClosedFall gps cells_of }
    ensures after { ClosedAfter gps cells_of }
{}

/// The closed epochs are the kept epochs except the n greatest.
pub fn closed_epochs_are_the_rest()
    ensures rest { ClosedAreRest gps cells_of }
    ensures count { ClosedAreCounted gps cells_of }
{}

/// A station message that comes after the window was full is late, unless it equals the kept one
/// with its number; the kept ones stay.
pub fn stations_are_final()
    ensures excused { ExcusedIsKept }
    ensures late { StationsAreFinal }
{}

/// What is kept of consistent arrivals is what came in time, and depends on that set alone.
pub fn set_decides()
    ensures taken { KeptAreTaken gps cells_of }
    ensures same { SetDecides gps cells_of }
{}

/// A late observation leaves the kept epochs as they are. The cells of any other observation join
/// them; if its epoch is one of them, it opens none.
pub fn kept_epochs_of_arrivals()
    ensures late { LateLeavesKept gps cells_of }
    ensures in_time { InTimeJoinsKept gps cells_of }
    ensures held { KeptOpensNone gps cells_of }
{}

/// Where cells go among epochs that fall, by the greatest of these: cells of a greater epoch open
/// their own, cells of the same epoch join it, and cells of a lesser epoch go among the others.
pub fn cells_join_epochs()
    ensures greater { GreaterOpens gps }
    ensures same { SameJoins gps }
    ensures lesser { LesserJoinsOthers gps }
{}

/// The kept epochs fall, and the cells of each rise by key. Epochs in this order are the same if
/// they are the same epochs with the same cells.
pub fn kept_epochs_are_ordered()
    ensures fall { KeptFall gps cells_of }
    ensures rise { KeptRise gps cells_of }
    ensures same { OrderedAreSame gps }
{}

/// The n greatest kept epochs are the n greatest distinct epochs that came, and each has at most
/// 1,024 cells.
pub fn epochs_are_bounded()
    ensures greatest { KeptAreGreatest gps cells_of }
    ensures cells { KeptAreFew 1024 gps cells_of }
{}

/// What is kept under a key of an epoch is the cell of the first arrival that has one and was not
/// late, also if later arrivals have another.
pub fn first_is_kept()
    ensures { FirstIsKept gps cells_of }
{}

/// If a message opens its epoch, none of its cells conflicts; so none conflicts if it closes one.
pub fn openings_do_not_conflict()
    ensures opens { OpeningConflictsNot gps cells_of }
    ensures closes { ClosingConflictsNot gps cells_of }
{}

/// In the order of an epoch's cells the first of a satellite and code came in an MSM, if there is
/// such a cell, else in a 1004.
pub fn first_is_preferred()
    ensures { FirstIsPreferred gps }
{}

/// Keys are equal exactly if satellite, code and kind of message are equal, and bodies exactly if
/// all fields are.
pub fn equality_decides()
    ensures keys { KeysAreDistinct }
    ensures bodies { EqualityDecides }
{}

/// `==` on satellites with codes is equality of both.
pub fn satellite_code_laws()
    ensures { (a b : SatelliteCode) → IsTrue (⟦<SatelliteCode as PartialEq>⟧.eq a b) ↔ (a ≡ b) }
{}
