//! MSM of GLONASS that tell no day, which a conversion without 1012 can't read.

ghost use Rattle.std.specs.Prelude.{◌≡◌, ◌∷◌, List, OnOk};
ghost use Rattle.rtk_message.specs.declared.any_message.AnyMessage.{AnyMessage};
ghost use Rattle.rtk_survey.specs.Contents.{CountsDayless};
ghost use Rattle.rtk_survey.specs.Dayless as spec;

use crate::clock_chains::tells_day;
use crate::unread::count_number;
use rtk_message::AnyMessage;
use std::alloc::AllocError;
use std::collections::BTreeMap;

fn is_dayless(message: &AnyMessage) -> bool
    ensures { result ≡ spec.is_dayless message.now }
{
    match message {
        AnyMessage::Message(_) | AnyMessage::Obs1012(_) => false,
        AnyMessage::Msm(message) => !tells_day(message.system, message.header.tow),
    }
}

/// Counts a message by its number, if it is such an MSM.
pub(crate) fn count_dayless(
    counts: &mut BTreeMap<u16, u64>,
    message: &AnyMessage,
) -> Result<(), AllocError>
    ensures { OnOk result ((ms : List AnyMessage) → CountsDayless counts.old ms → CountsDayless counts.new (message.now ∷ ms)) }
{
    if is_dayless(message) {
        count_number(counts, message.number())
    } else {
        Ok(())
    }
}
