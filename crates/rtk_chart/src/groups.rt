//! The satellites of any systems in groups that a grid has places for.

ghost use Rattle.std.specs.Prelude.{◌≡◌, ◌≤◌};
ghost use Rattle.rtk_chart.specs.Groups.{whole_group, first_group, second_group};
ghost use Rattle.rtk_chart.specs.TextPicture.{gps_names};

use rtk_message::System;

/// The systems, in the order of a file.
pub(crate) const SYSTEMS: [System; 7] = [
    System::Gps,
    System::Glonass,
    System::Galileo,
    System::Beidou,
    System::Qzss,
    System::Sbas,
    System::Navic,
];

/// How the satellites at the places of a grid are named: by the letter of their system, and a number that is so much
/// greater than the number of the place, from 1.
#[derive(Clone, Copy)]
pub(crate) struct Names {
    pub(crate) letter: u8,
    pub(crate) before: u8,
}

/// Some satellites of a system, side by side: so many, behind so many of all systems.
#[derive(Clone, Copy)]
pub(crate) struct Group {
    pub(crate) before: u8,
    pub(crate) count: u8,
    pub(crate) names: Names,
}

/// The satellites of GPS, whose places are their numbers.
pub(crate) fn gps_names() -> Names
    ensures value { result ≡ gps_names }
    ensures few { result.before ≤ 67 }
{
    Names {
        letter: b'G',
        before: 0,
    }
}

// A group, whose numbers in names begin behind this one.
fn make_group(before: u8, count: u8, letter: u8, number: u8) -> Group
    ensures { result ≡ record { before = before; count = count; names = record { letter = letter; before = number } } }
{
    Group {
        before,
        count,
        names: Names {
            letter,
            before: number,
        },
    }
}

// The satellites of a system, which may be more than a grid has places for.
fn whole_group(system: System) -> Group
    ensures value { result ≡ whole_group system }
    ensures behind { result.before ≤ 207 }
    ensures count { result.count ≤ 63 }
    ensures names { result.names.before ≤ 19 }
{
    match system {
        System::Gps => make_group(0, 32, b'G', 0),
        System::Glonass => make_group(32, 27, b'R', 0),
        System::Galileo => make_group(59, 36, b'E', 0),
        System::Beidou => make_group(95, 63, b'C', 0),
        System::Qzss => make_group(158, 10, b'J', 0),
        System::Sbas => make_group(168, 39, b'S', 19),
        System::Navic => make_group(207, 14, b'I', 0),
    }
}

/// The satellites of a system, or the first 32 of them.
pub(crate) fn first_group(system: System) -> Group
    ensures value { result ≡ first_group system }
    ensures few { result.count ≤ 32 }
    ensures names { result.names.before ≤ 67 }
{
    let all = whole_group(system);
    Group {
        before: all.before,
        count: 32u8.min(all.count),
        names: all.names,
    }
}

/// Those behind the first 32; most systems have none.
pub(crate) fn second_group(system: System) -> Group
    ensures value { result ≡ second_group system }
    ensures few { result.count ≤ 32 }
    ensures names { result.names.before ≤ 67 }
{
    let all = whole_group(system);
    Group {
        before: all.before + 32,
        count: all.count.saturating_sub(32),
        names: Names {
            letter: all.names.letter,
            before: all.names.before + 32,
        },
    }
}
