//! Systems as the words of a command line name them: by their letters.

ghost use Rattle.std.specs.Prelude.{◌≡◌, false, IfOk, IfErr};
ghost use Rattle.std.specs.List.{list_all};
ghost use Rattle.rtk_cli.specs.Steps.SystemLetters.{is_system, are_systems, names_system, named_systems, NamesSystems};

use crate::words::BadWords;
use rtk_message::System;
use rtk_obs::letter_of;
use rtk_rinex::SystemFlags;

// A letter stands for a system in names of RINEX.
fn is_system(letter: u8) -> bool
    ensures { result ≡ is_system letter }
{
    b"GRECJSI".contains(&letter)
}

fn all_systems(letters: &[u8]) -> bool
    ensures { result ≡ list_all is_system letters.now }
{
    letters.iter().all(|letter| is_system(*letter))
}

/// A text is of letters of systems, and has one.
pub(crate) fn are_systems(text: &[u8]) -> bool
    ensures { result ≡ are_systems text.now }
{
    !text.is_empty() && all_systems(text)
}

// Has a text the letter of a system?
fn names_system(letters: &[u8], system: System) -> bool
    ensures { result ≡ names_system letters.now system }
{
    letters.contains(&letter_of(system))
}

// The systems of which a text has the letters.
fn named_systems(letters: &[u8]) -> SystemFlags
    ensures { result ≡ named_systems letters.now }
{
    SystemFlags {
        gps: names_system(letters, System::Gps),
        glonass: names_system(letters, System::Glonass),
        galileo: names_system(letters, System::Galileo),
        beidou: names_system(letters, System::Beidou),
        qzss: names_system(letters, System::Qzss),
        sbas: names_system(letters, System::Sbas),
        navic: names_system(letters, System::Navic),
    }
}

/// The systems that a text names.
pub(crate) fn systems_named(text: &str) -> Result<SystemFlags, BadWords>
    ensures said { IfOk result (NamesSystems text.now) }
    ensures cause { IfErr result (λ told. (told ≡ BadWords.Systems) × (are_systems text.now ≡ false)) }
{
    let letters = text.as_bytes();
    if !are_systems(letters) {
        return Err(BadWords::Systems);
    }
    Ok(named_systems(letters))
}
