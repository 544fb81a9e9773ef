//! The numbers of options, as clap's answer has them.
//!
//! clap refuses a number that is out of range, and words that lack what a command needs. Its contracts do
//! not say this of a value, so all of it is looked at again: `None` is what clap should have refused.

ghost use Rattle.std.specs.Prelude.{◌≡◌, ◌+◌, MatchOption};
ghost use Rattle.std.specs.Int.{IsInRange};
ghost use Rattle.rtk_message.specs.Systems.{number_of_kind};
ghost use Rattle.rtk_setup.specs.Setup.{IsStation, IsWindow, IsLeapSeconds};

use crate::kind_list::kinds_of;
use clap::ArgMatches;
use rtk_message::MsmKind;
use rtk_setup::{LeapSeconds, Station, SystemKinds, Window};

/// The station of this number; `None` exactly if there is none.
pub(crate) fn station_of(number: u32) -> Option<Station>
    ensures { MatchOption result (¬ (IsStation number)) (λ station. station ≡ number) }
{
    let Ok(number) = u16::try_from(number) else {
        return None;
    };
    Station::new(number).ok()
}

/// The window of so many epochs; `None` exactly if there is none.
pub(crate) fn window_of(epochs: u32) -> Option<Window>
    ensures { MatchOption result (¬ (IsWindow epochs)) (λ window. window ≡ epochs) }
{
    Window::new(epochs as usize).ok()
}

/// So many leap seconds; `None` exactly if they are too many.
pub(crate) fn leap_seconds_of(number: u32) -> Option<LeapSeconds>
    ensures { MatchOption result (¬ (IsLeapSeconds number)) (λ given. given ≡ number) }
{
    let Ok(number) = u8::try_from(number) else {
        return None;
    };
    LeapSeconds::new(number)
}

/// The MSM whose message numbers end with this digit; `None` exactly if there is none.
pub(crate) fn msm_of(digit: u32) -> Option<MsmKind>
    ensures { MatchOption result (¬ (IsInRange 4 7 digit)) (λ msm. number_of_kind msm ≡ 1070 + digit) }
{
    match digit {
        4 => Some(MsmKind::Msm4),
        5 => Some(MsmKind::Msm5),
        6 => Some(MsmKind::Msm6),
        7 => Some(MsmKind::Msm7),
        _ => None,
    }
}

/// The value of an option that need not be given; `None` if what is given has no value.
pub(crate) fn value_if_any<T: Copy>(value: Option<Option<T>>) -> Option<Option<T>> {
    match value {
        Some(value) => Some(Some(value?)),
        None => Some(None),
    }
}

/// The kinds that `--msm` of `convert` and `show` writes: a number is the kind of all systems.
pub(crate) fn kinds_said(words: &ArgMatches<'_>) -> Option<SystemKinds> {
    match words.get_one::<u32>("msm") {
        Some(digit) => Some(SystemKinds::all(msm_of(digit)?)),
        None => kinds_of(words.get_str("msm")?.as_bytes()),
    }
}
