//! The lines of codes with few phases.
//!
//! If memory is refused, a first part of what is put may stand there.

ghost use Rattle.std.specs.Prelude.{◌≡◌, ◌++◌, OnOk};
ghost use Rattle.rtk_plan.specs.KnownLines as spec;
ghost use Rattle.rtk_plan.specs.Plan.{taken_messages};

use crate::few_phases::has_few_phases;
use crate::said_command::put_code;
use crate::station_setup::taken_by_setup;
use rtk_obs::AnyCode;
use rtk_setup::Setup;
use rtk_survey::CaptureSurvey;
use rtk_systems::TakenMessages;
use std::alloc::AllocError;

// Appends the line of a code with few phases.
fn put_few_phases_line(lines: &mut Vec<u8>, has_few: bool, code: AnyCode) -> Result<(), AllocError>
    ensures { OnOk result (lines.new.items ≡ lines.old.items ++ spec.few_phases_line_if has_few code) }
{
    if !has_few {
        return Ok(());
    }
    lines.extend_from_slice(b" few-phases ")?;
    put_code(lines, code)?;
    lines.extend_from_slice(b": its satellites have more than twice as many in another code\n")?;
    Ok(())
}

// Appends the line of a code, if it has few phases.
fn put_few_phases_of(
    lines: &mut Vec<u8>,
    surveys: &[CaptureSurvey],
    station: u16,
    taken: TakenMessages,
    code: AnyCode,
) -> Result<(), AllocError>
    ensures { OnOk result (lines.new.items ≡ lines.old.items ++ spec.few_phases_line surveys.now station taken code) }
{
    put_few_phases_line(lines, has_few_phases(surveys, station, taken, code), code)?;
    Ok(())
}

// Appends the codes that have few phases.
fn put_few_phases(
    lines: &mut Vec<u8>,
    surveys: &[CaptureSurvey],
    station: u16,
    taken: TakenMessages,
    codes: &[AnyCode],
) -> Result<(), AllocError>
    ensures { OnOk result (lines.new.items ≡ lines.old.items ++ spec.few_phases_lines surveys.now station taken codes.now) }
{
    for code in codes {
        put_few_phases_of(lines, surveys, station, taken, *code)?;
    }
    Ok(())
}

/// Appends the codes of a conversion that have few phases.
pub(crate) fn put_few_phases_in(
    lines: &mut Vec<u8>,
    surveys: &[CaptureSurvey],
    setup: &Setup,
) -> Result<(), AllocError>
    ensures { OnOk result (lines.new.items ≡ lines.old.items
        ++ spec.few_phases_lines surveys.now setup.now.station (taken_messages setup.now) setup.now.head.listed) }
{
    let taken = taken_by_setup(setup);
    put_few_phases(lines, surveys, setup.station(), taken, setup.head().codes())?;
    Ok(())
}
