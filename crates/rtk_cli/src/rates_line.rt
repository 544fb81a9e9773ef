//! The fault line of a system whose MSM has no range rates.

ghost use Rattle.std.specs.Prelude.{◌≡◌};
ghost use Rattle.rtk_cli.specs.RatesLine.{rates_line};

use rtk_message::System;

/// The fault line of a system whose MSM has no range rates, from which Doppler shifts are made.
pub(crate) fn rates_line(system: System) -> &'static str
    ensures { result.now ≡ rates_line system }
{
    match system {
        System::Gps => "--doppler needs MSM5 or MSM7 of G",
        System::Glonass => "--doppler needs MSM5 or MSM7 of R",
        System::Galileo => "--doppler needs MSM5 or MSM7 of E",
        System::Beidou => "--doppler needs MSM5 or MSM7 of C",
        System::Qzss => "--doppler needs MSM5 or MSM7 of J",
        System::Sbas => "--doppler needs MSM5 or MSM7 of S",
        System::Navic => "--doppler needs MSM5 or MSM7 of I",
    }
}
