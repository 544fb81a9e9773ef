//! The answer of a collector to a message that is offered.

ghost use Rattle.std.specs.Prelude.{◌≡◌};
ghost use Rattle.rtk_collect.specs.Offered.{outcome_of, listed_by};
ghost use Rattle.rtk_collect.specs.Steps.Observed.{ListsConflicts};

use crate::conflicts::Conflicts;
use crate::epoch_set::EpochSet;
use crate::outcome::Outcome;

/// What became of an offered message.
#[derive(Drop)]
pub enum Offer {
    /// A cell is new, or the message opened its epoch; or it is the first 1005 or the first 1006.
    Taken {
        /// The epoch that this closes, with its kept cells.
        closed: Option<EpochSet>,
        /// The other cells that conflict with the kept ones.
        conflicts: Conflicts,
    },
    /// Nothing is new, and nothing conflicts.
    Repeat,
    /// No cell is new, and some conflict with the kept ones; or it is a 1005 or 1006 that differs
    /// from the first one.
    Conflict {
        /// The cells that conflict: none of a 1005 or 1006.
        conflicts: Conflicts,
    },
    /// It came too late: at least as many greater epochs came before it as the window has places.
    /// For a 1005 or 1006 all epochs count, and a repeat of the kept one is never late.
    Late,
}

impl Offer {
    /// Makes the answer with this outcome, which closes no epoch, and with these conflicts.
    pub(crate) fn new(outcome: Outcome, conflicts: Conflicts) -> Offer
        requires { ListsConflicts outcome conflicts }
        ensures outcome { outcome_of result ≡ outcome }
        ensures conflicts { listed_by result ≡ conflicts }
    {
        match outcome {
            Outcome::Taken { .. } => Offer::Taken {
                closed: None,
                conflicts,
            },
            Outcome::Repeat => Offer::Repeat,
            Outcome::Conflict => Offer::Conflict { conflicts },
            Outcome::Late => Offer::Late,
        }
    }
}
