//! The observation codes of all systems as the words of a command line write them.

ghost use Rattle.std.specs.Prelude.{◌≡◌, ◌≢◌, List, [], ◌∷◌, ◌++◌, length, IfOk, IfErr, OnOk, MatchOption};
ghost use Rattle.rtk_obs.specs.declared.any_code.AnyCode.{AnyCode};
ghost use Rattle.rtk_obs.specs.declared.code.Code.{Code};
ghost use Rattle.rtk_obs.specs.Code as gps;
ghost use Rattle.rtk_rinex.specs.MixedHeader.{codes_of};
ghost use Rattle.rtk_cli.specs.FaultLines.{IsRefusal};
ghost use Rattle.rtk_cli.specs.Steps.AnyCodeList.{code_word, ListsCodes, in_file_order, IsCauseOfName, IsNameCause};

use crate::parts::first_part;
use crate::words::{BadWords, WordsFault};
use rtk_obs::{AnyCode, Code, system_of_letter};
use std::alloc::{AllocError, Global};

// The code whose word is a band and an attribute.
fn short_code(band: u8, attribute: u8) -> Option<AnyCode>
    ensures { MatchOption result
        ((c : AnyCode) → band ∷ attribute ∷ [] ≢ code_word c)
        (λ c. band ∷ attribute ∷ [] ≡ code_word c) }
{
    AnyCode::from_text(&[b'G', band, attribute])
}

// The code whose word is this, unless it has two characters.
fn long_code(name: &[u8]) -> Option<AnyCode>
    requires { length name.now ≢ 2 }
    ensures { MatchOption result ((c : AnyCode) → name.now ≢ code_word c) (λ c. name.now ≡ code_word c) }
{
    let Some(code) = AnyCode::from_text(name) else {
        return None;
    };
    if code.text()[0] == b'G' {
        return None;
    }
    Some(code)
}

// The code whose word is this.
fn code_of_word(name: &[u8]) -> Option<AnyCode>
    ensures { MatchOption result ((c : AnyCode) → name.now ≢ code_word c) (λ c. name.now ≡ code_word c) }
{
    let &[band, attribute] = name else {
        return long_code(name);
    };
    short_code(band, attribute)
}

// The code of GPS whose word stands behind the letter of GPS.
fn gps_code(letter: u8, band: u8, attribute: u8) -> Option<Code>
    ensures { MatchOption result
        ((c : Code) → letter ∷ band ∷ attribute ∷ [] ≢ 71 ∷ gps.name_of c)
        (λ c. letter ∷ band ∷ attribute ∷ [] ≡ 71 ∷ gps.name_of c) }
{
    if letter != b'G' {
        return None;
    }
    Code::from_name(&[band, attribute])
}

// What is said of three characters that are no code's word.
fn cause_of_three(letter: u8, band: u8, attribute: u8) -> BadWords
    ensures { IsCauseOfName (letter ∷ band ∷ attribute ∷ []) result }
{
    let Some(system) = system_of_letter(letter) else {
        return BadWords::Codes;
    };
    match gps_code(letter, band, attribute) {
        Some(code) => BadWords::CodeOfGps(code),
        None => BadWords::CodeOfSystem(system),
    }
}

// What is said of a name that is no code's word.
fn cause_of_name(name: &[u8]) -> BadWords
    ensures { IsCauseOfName name.now result }
{
    let &[letter, band, attribute] = name else {
        return BadWords::Codes;
    };
    cause_of_three(letter, band, attribute)
}

fn put_code(codes: &mut Vec<AnyCode>, code: AnyCode) -> Result<(), AllocError>
    ensures { OnOk result (codes.new.items ≡ codes.old.items ++ code ∷ []) }
{
    codes.push(code)?;
    Ok(())
}

/// The codes that a text lists; a code may stand twice.
pub(crate) fn any_codes_said(alloc: Global, text: &str) -> Result<Vec<AnyCode>, WordsFault>
    ensures listed { IfOk result (λ codes. ListsCodes text.now codes.items) }
    // `OutOfMemory` comes only if memory is refused: tests/system/calls, rows `job of convert ..`.
    ensures refused { IfErr result (IsRefusal (IsNameCause text.now)) }
{
    let mut codes = Vec::new(alloc);
    let mut rest = text.as_bytes();
    loop {
        let (name, behind) = first_part(rest, b',');
        let Some(code) = code_of_word(name) else {
            return Err(cause_of_name(name).into());
        };
        put_code(&mut codes, code)?;
        let Some(next) = behind else {
            return Ok(codes);
        };
        rest = next;
    }
}

// Puts the codes of the system of a letter behind those that are listed.
fn put_codes_of(listed: &mut Vec<AnyCode>, letter: u8, codes: &[AnyCode]) -> Result<(), AllocError>
    ensures { OnOk result (listed.new.items ≡ listed.old.items ++ codes_of letter codes.now) }
{
    for code in codes {
        if code.text()[0] == letter {
            listed.push(*code)?;
        }
    }
    Ok(())
}

/// The codes in the order of a file: system by system, and those of a system as they stand.
pub(crate) fn in_file_order(alloc: Global, codes: &[AnyCode]) -> Result<Vec<AnyCode>, AllocError>
    // An error comes only if memory is refused: tests/system/calls, rows `job of convert`.
    ensures { IfOk result (λ listed. listed.items ≡ in_file_order codes.now) }
{
    let mut listed = Vec::new(alloc);
    put_codes_of(&mut listed, b'G', codes)?;
    put_codes_of(&mut listed, b'R', codes)?;
    put_codes_of(&mut listed, b'E', codes)?;
    put_codes_of(&mut listed, b'C', codes)?;
    put_codes_of(&mut listed, b'J', codes)?;
    put_codes_of(&mut listed, b'S', codes)?;
    put_codes_of(&mut listed, b'I', codes)?;
    Ok(listed)
}
