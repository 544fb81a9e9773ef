//! The words of `show`: which kinds of MSM its options name, and which messages are read.

ghost use Rattle.std.specs.Prelude.{◌≡◌};
ghost use Rattle.rtk_cli.specs.Steps.ShowWords.{messages_of};

use crate::option_numbers::kinds_said;
use clap::ArgMatches;
use rtk_message::{Accepted, MsmKinds};
use rtk_setup::SystemKinds;

/// The kinds of MSM that `show` reads; `Some(None)` are none that are chosen.
pub(crate) fn shown_kinds(words: &ArgMatches<'_>) -> Option<Option<SystemKinds>> {
    if words.get_one::<u32>("msm").is_none() && words.get_str("msm").is_none() {
        return Some(None);
    }
    Some(Some(kinds_said(words)?))
}

/// The messages that are read if these kinds are chosen.
pub(crate) fn messages_of(kinds: SystemKinds) -> Accepted
    ensures { result ≡ messages_of kinds }
{
    Accepted {
        gps: MsmKinds::only(kinds.gps),
        glonass: MsmKinds::only(kinds.glonass),
        galileo: MsmKinds::only(kinds.galileo),
        beidou: MsmKinds::only(kinds.beidou),
        qzss: MsmKinds::only(kinds.qzss),
        sbas: MsmKinds::only(kinds.sbas),
        navic: MsmKinds::only(kinds.navic),
        obs1012: false,
    }
}
