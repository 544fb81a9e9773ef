//! The line of the position that a capture tells.
//!
//! If memory is refused, a first part of what is put may stand there.

ghost use Rattle.std.specs.Prelude.{◌≡◌, ◌++◌, OnOk};
ghost use Rattle.rtk_captures.specs.Lists as spec;

use crate::lists::put_name_line;
use rtk_message::put_number;
use rtk_survey::ReferencePoint;
use std::alloc::AllocError;

// A point and four digits: the part of a whole metre.
fn decimals_of(magnitude: u64) -> [u8; 5]
    ensures { result ≡ spec.point_and_decimals magnitude }
{
    let digit = |place: u64| b'0' + (magnitude / place % 10) as u8;
    [b'.', digit(1000), digit(100), digit(10), digit(1)]
}

// Appends a length, whose unit is 0.0001 m, in metres.
#[tactic(auto, unfolding(crate::specs::Lists::metres_text))]
fn put_metres(lines: &mut Vec<u8>, length: u64) -> Result<(), AllocError>
    ensures { OnOk result (lines.new.items ≡ lines.old.items ++ spec.metres_text length) }
{
    put_number(lines, length / 10_000)?;
    lines.extend_from_slice(&decimals_of(length))
}

// Appends a coordinate in metres.
// By reference: a signed field that is read and passed by value has no range for the prover.
#[tactic(auto, unfolding(crate::specs::Lists::coordinate_text))]
fn put_coordinate(lines: &mut Vec<u8>, value: &i64) -> Result<(), AllocError>
    ensures { OnOk result (lines.new.items ≡ lines.old.items ++ spec.coordinate_text value.now) }
{
    if *value < 0 {
        lines.push(b'-')?;
    }
    put_metres(lines, value.unsigned_abs())
}

fn put_coordinate_after_blank(lines: &mut Vec<u8>, value: &i64) -> Result<(), AllocError>
    ensures { OnOk result (lines.new.items ≡ lines.old.items ++ spec.coordinate_after_blank value.now) }
{
    lines.extend_from_slice(b" ")?;
    put_coordinate(lines, value)
}

// Appends the coordinates of a position.
fn put_coordinates(lines: &mut Vec<u8>, point: &ReferencePoint) -> Result<(), AllocError>
    ensures { OnOk result (lines.new.items ≡ lines.old.items ++ spec.coordinates point.now) }
{
    put_coordinate_after_blank(lines, &point.x)?;
    put_coordinate_after_blank(lines, &point.y)?;
    put_coordinate_after_blank(lines, &point.z)
}

/// Appends the line of the position that a capture tells, in metres.
pub(crate) fn put_position_line(
    lines: &mut Vec<u8>,
    point: &ReferencePoint,
    name: &str,
) -> Result<(), AllocError>
    ensures { OnOk result (lines.new.items ≡ lines.old.items ++ spec.position_line point.now name.now) }
{
    lines.extend_from_slice(b" position")?;
    put_coordinates(lines, point)?;
    put_name_line(lines, b" in ", name)
}
