//! The kinds of MSM as the words of a command line write them: one for all systems, and exceptions, as `7,E4,C4`.

ghost use Rattle.std.specs.Prelude.{◌≡◌, ◌≢◌, ◌+◌, List, [], ◌∷◌, map, MatchOption};
ghost use Rattle.rtk_message.specs.declared.msm_kind.MsmKind.{MsmKind};
ghost use Rattle.rtk_message.specs.declared.msm_type.MsmType.{MsmType};
ghost use Rattle.rtk_message.specs.Systems.{digit_of};
ghost use Rattle.rtk_obs.specs.SatelliteIndex.{letter_of};
ghost use Rattle.rtk_setup.specs.declared.system_kinds.SystemKinds.{SystemKinds};
ghost use Rattle.rtk_cli.specs.Steps.Parts.{marked_parts};
ghost use Rattle.rtk_cli.specs.Steps.KindList.{exception_word, with_exceptions, stands_once, has_letters_once, WritesKinds};

use crate::parts::first_part;
use rtk_message::{MsmKind, MsmType};
use rtk_obs::system_of_letter;
use rtk_setup::SystemKinds;

// The kind whose message numbers end with this digit.
fn kind_of_digit(digit: u8) -> Option<MsmKind>
    ensures { MatchOption result ((k : MsmKind) → digit ≢ 48 + digit_of k) (λ k. digit ≡ 48 + digit_of k) }
{
    match digit {
        b'4' => Some(MsmKind::Msm4),
        b'5' => Some(MsmKind::Msm5),
        b'6' => Some(MsmKind::Msm6),
        b'7' => Some(MsmKind::Msm7),
        _ => None,
    }
}

// The exception of a letter and a digit.
fn exception_of(letter: u8, digit: u8) -> Option<MsmType>
    ensures { MatchOption result
        ((t : MsmType) → letter ∷ digit ∷ [] ≢ exception_word t)
        (λ t. letter ∷ digit ∷ [] ≡ exception_word t) }
{
    let Some(system) = system_of_letter(letter) else {
        return None;
    };
    let Some(kind) = kind_of_digit(digit) else {
        return None;
    };
    Some(MsmType { system, kind })
}

// The exception whose word is this.
fn exception_of_word(word: &[u8]) -> Option<MsmType>
    ensures { MatchOption result ((t : MsmType) → word.now ≢ exception_word t) (λ t. word.now ≡ exception_word t) }
{
    let &[letter, digit] = word else {
        return None;
    };
    exception_of(letter, digit)
}

// The kinds with the exceptions that a text lists.
fn with_exceptions(kinds: SystemKinds, text: &[u8]) -> Option<SystemKinds>
    ensures { MatchOption result
        ((exceptions : List MsmType) → marked_parts 44 text.now ≢ map exception_word exceptions)
        (λ changed. (exceptions : List MsmType) × (marked_parts 44 text.now ≡ map exception_word exceptions)
        × (changed ≡ with_exceptions kinds exceptions)) }
{
    let mut changed = kinds;
    let mut rest = text;
    loop {
        let (word, behind) = first_part(rest, b',');
        let Some(exception) = exception_of_word(word) else {
            return None;
        };
        changed = changed.with(exception.system, exception.kind);
        let Some(next) = behind else {
            return Some(changed);
        };
        rest = next;
    }
}

fn stands_once(letter: u8, text: &[u8]) -> bool
    ensures { result ≡ stands_once letter text.now }
{
    text.iter().filter(|x| **x == letter).count() <= 1
}

// The letter of each system stands once at most.
fn has_letters_once(text: &[u8]) -> bool
    ensures { result ≡ has_letters_once text.now }
{
    b"GRECJSI".iter().all(|letter| stands_once(*letter, text))
}

// The kind of all systems that a word writes.
fn general_kind(word: &[u8]) -> Option<MsmKind>
    ensures { MatchOption result
        ((k : MsmKind) → word.now ≢ (48 + digit_of k) ∷ [])
        (λ k. word.now ≡ (48 + digit_of k) ∷ []) }
{
    let &[digit] = word else {
        return None;
    };
    kind_of_digit(digit)
}

/// The kinds that a text writes; `None` exactly if it writes none.
pub(crate) fn kinds_of(text: &[u8]) -> Option<SystemKinds>
    ensures { MatchOption result ((kinds : SystemKinds) → ¬ (WritesKinds text.now kinds)) (λ kinds. WritesKinds text.now kinds) }
{
    if !has_letters_once(text) {
        return None;
    }
    let (word, behind) = first_part(text, b',');
    let Some(general) = general_kind(word) else {
        return None;
    };
    let Some(exceptions) = behind else {
        return Some(SystemKinds::all(general));
    };
    with_exceptions(SystemKinds::all(general), exceptions)
}

// A word writes kinds with exceptions, alone or as the value of `--msm`.
fn is_kind_list(word: &str) -> bool {
    let text = word.strip_prefix("--msm=").unwrap_or(word);
    text.len() > 1 && kinds_of(text.as_bytes()).is_some()
}

/// Some word writes kinds with exceptions.
pub(crate) fn has_kind_list(words: &[&str]) -> bool {
    for word in words {
        if is_kind_list(*word) {
            return true;
        }
    }
    false
}
