//! The columns of a table.

ghost use Rattle.std.specs.Prelude.{◌≡◌, ◌≤◌, ◌++◌, ℕ, List, length, take, Some, OnOk};
ghost use Rattle.rtk_obs.specs.CivilText.{civil_text};
ghost use Rattle.rtk_quality.specs.Forms.{padded};
ghost use Rattle.rtk_quality.specs.Columns.{column, cell_text, cells_text};
ghost use Rattle.rtk_quality.specs.declared.form.Decimals.TheVariants.{Whole};

use crate::form::{Decimals, put_line_number};
use rtk_obs::{Civil, put_civil};
use std::alloc::AllocError;

/// A number in its column, which has this width, the blanks before it included. One blank stands before a number that is wider, too,
/// since two numbers without a blank between them can't be told apart.
#[derive(Clone, Copy)]
pub(crate) struct Cell {
    pub(crate) width: usize,
    pub(crate) decimals: Decimals,
    pub(crate) number: Option<u64>,
}

impl Cell {
    /// A number of such units.
    pub(crate) fn new(width: usize, decimals: Decimals, number: Option<u64>) -> Cell
        ensures { result ≡ column width decimals number }
    {
        Cell {
            width,
            decimals,
            number,
        }
    }

    /// A whole number.
    pub(crate) fn count(width: usize, number: u64) -> Cell
        ensures { result ≡ column width Whole (Some number) }
    {
        Cell::new(width, Decimals::Whole, Some(number))
    }
}

/// Moves the text from a place on to the right end of a column of this width.
pub(crate) fn pad_from(text: &mut Vec<u8>, at: usize, width: usize) -> Result<(), AllocError>
    requires { at ≤ length text.old.items }
    ensures { OnOk result ((before value : List ℕ) → length before ≡ at → text.old.items ≡ before ++ value
        → text.new.items ≡ before ++ padded width value) }
{
    let blanks = width.saturating_sub(text.len() - at);
    for _blank in 0..blanks {
        text.insert(at, b' ')?;
    }
    Ok(())
}

// Appends a number in its column.
fn put_cell(text: &mut Vec<u8>, cell: Cell) -> Result<(), AllocError>
    ensures { OnOk result (text.new.items ≡ text.old.items ++ cell_text cell) }
{
    text.push(b' ')?;
    let at = text.len();
    put_line_number(text, cell.decimals, cell.number)?;
    pad_from(text, at, cell.width.saturating_sub(1))?;
    Ok(())
}

/// Appends numbers in their columns.
pub(crate) fn put_cells(text: &mut Vec<u8>, cells: &[Cell]) -> Result<(), AllocError>
    ensures { OnOk result (text.new.items ≡ text.old.items ++ cells_text cells.now) }
{
    for cell in cells {
        put_cell(text, *cell)?;
    }
    Ok(())
}

/// Appends so many characters of a moment, from its year on.
pub(crate) fn put_part(text: &mut Vec<u8>, reading: Civil, width: usize) -> Result<(), AllocError>
    ensures { OnOk result (text.new.items ≡ text.old.items ++ take width (civil_text reading)) }
{
    let at = text.len();
    put_civil(text, reading)?;
    text.truncate(at.saturating_add(width));
    Ok(())
}
