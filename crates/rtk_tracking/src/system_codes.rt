//! The codes of one system of a file.

ghost use Rattle.std.specs.Prelude.{◌≡◌, ◌≤◌, length, IfOk};
ghost use Rattle.rtk_rinex.specs.MixedHead.{IsMixedList};
ghost use Rattle.rtk_tracking.specs.SystemCodes.{codes_of_system};

use rtk_message::System;
use rtk_obs::{AnyCode, any_code_laws, letter_of};
use std::alloc::{AllocError, Global};

/// The codes of a system, in their order: at most 16.
pub fn codes_of_system(
    alloc: Global,
    system: System,
    listed: &[AnyCode],
) -> Result<Vec<AnyCode>, AllocError>
    requires { IsMixedList listed.now }
    // Fails only if memory is refused: tests/system/calls, rows mixed_chart_text and mixed_quality.
    ensures value { IfOk result (λ codes. codes.items ≡ codes_of_system system listed.now) }
    ensures few { IfOk result (λ codes. length codes.items ≤ 16) }
{
    // A law: a place belongs to one code of a system, and is below 16.
    any_code_laws();
    let mut codes = Vec::new(alloc);
    for code in listed {
        if letter_of(code.system()) == letter_of(system) {
            codes.push(*code)?;
        }
    }
    Ok(codes)
}
