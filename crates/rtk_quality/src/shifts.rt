//! The Doppler shifts of the codes of a system.

ghost use Rattle.std.specs.Prelude.{◌≡◌, ◌≤◌, ◌++◌, ℕ, List, length, OnOk, Option};
ghost use Rattle.rtk_rinex.specs.Record.{EpochTableView};
ghost use Rattle.rtk_quality.specs.Quality.{totals_of};
ghost use Rattle.rtk_quality.specs.QualityText.{each_code};
ghost use Rattle.rtk_quality.specs.Shifts.{shift_row, shift_line, shift_entry, shifts_text, shifts_part};
ghost use Rattle.rtk_quality.specs.Standing.{StandForSatellites};

use crate::columns::{Cell, put_cells};
use crate::file_counts::totals_of;
use crate::form::{Form, put_end, put_start};
use crate::lines::{put_count, put_title};
use crate::lists::{begin_list, end_list};
use crate::satellite_counts::SatelliteCounts;
use rtk_obs::AnyCode;
use std::alloc::AllocError;

// Appends the row of a code that has so many Doppler shifts.
#[tactic(auto, unfolding(crate::specs::Shifts::shift_row))]
fn put_shift_row(text: &mut Vec<u8>, code: AnyCode, shifts: u64) -> Result<(), AllocError>
    ensures { OnOk result (text.new.items ≡ text.old.items ++ shift_row code shifts) }
{
    text.extend_from_slice(b"all ")?;
    text.extend_from_slice(&code.name())?;
    put_cells(text, &[Cell::count(8, shifts)])?;
    text.extend_from_slice(b"\n")
}

// Appends the line of a code that has so many Doppler shifts.
#[tactic(auto, unfolding(crate::specs::Shifts::shift_line))]
fn put_shift_line(
    text: &mut Vec<u8>,
    form: Form,
    code: AnyCode,
    shifts: u64,
) -> Result<(), AllocError>
    ensures { OnOk result (text.new.items ≡ text.old.items ++ shift_line form code shifts) }
{
    put_start(text, form, b"doppler")?;
    put_title(text, form, code)?;
    put_count(text, form, b" values ", b",\"values\":", shifts)?;
    put_end(text, form)
}

// Appends a code that has so many Doppler shifts.
#[tactic(auto, unfolding(crate::specs::Shifts::shift_entry))]
fn put_shift_entry(
    text: &mut Vec<u8>,
    form: Form,
    code: AnyCode,
    shifts: u64,
) -> Result<(), AllocError>
    ensures { OnOk result (text.new.items ≡ text.old.items ++ shift_entry form code shifts) }
{
    match form {
        Form::Table => put_shift_row(text, code, shifts),
        Form::Lines | Form::Json => put_shift_line(text, form, code, shifts),
    }
}

// Appends each code with its Doppler shifts, over all satellites.
fn put_each_shift(
    text: &mut Vec<u8>,
    form: Form,
    codes: &[AnyCode],
    satellites: &[SatelliteCounts],
) -> Result<(), AllocError>
    requires { length codes.now ≤ 16 }
    ensures { OnOk result ((most : ℕ) (interval : Option ℕ) (es : List EpochTableView) → StandForSatellites satellites.now most interval es
        → text.new.items ≡ text.old.items ++ each_code (λ place code. shift_entry form code (totals_of most interval es place).counts.shifts) 0 codes.now) }
{
    for (at, code) in codes.iter().enumerate() {
        let numbers = totals_of(satellites, at);
        put_shift_entry(text, form, *code, numbers.counts.shifts)?;
    }
    Ok(())
}

// Appends the list of codes with their Doppler shifts.
fn put_shifts(
    text: &mut Vec<u8>,
    form: Form,
    codes: &[AnyCode],
    satellites: &[SatelliteCounts],
) -> Result<(), AllocError>
    requires { length codes.now ≤ 16 }
    ensures { OnOk result ((most : ℕ) (interval : Option ℕ) (es : List EpochTableView) → StandForSatellites satellites.now most interval es
        → text.new.items ≡ text.old.items ++ shifts_text form codes.now most interval es) }
{
    let start = begin_list(text, form, b"\nsignal doppler\n", b",\n\"doppler\":[")?;
    put_each_shift(text, form, codes, satellites)?;
    end_list(text, form, start)?;
    Ok(())
}

/// Appends the list of codes with their Doppler shifts, if the file has them.
pub(crate) fn put_shifts_if(
    text: &mut Vec<u8>,
    has_shifts: bool,
    form: Form,
    codes: &[AnyCode],
    satellites: &[SatelliteCounts],
) -> Result<(), AllocError>
    requires { length codes.now ≤ 16 }
    ensures { OnOk result ((most : ℕ) (interval : Option ℕ) (es : List EpochTableView) → StandForSatellites satellites.now most interval es
        → text.new.items ≡ text.old.items ++ shifts_part has_shifts form codes.now most interval es) }
{
    if !has_shifts {
        return Ok(());
    }
    put_shifts(text, form, codes, satellites)?;
    Ok(())
}
