//! Columns that are appended to the lines of a header.

ghost use Rattle.std.specs.Prelude.{◌≡◌, ◌+◌, ◌≤◌, ◌++◌, length, take, drop};
ghost use Rattle.rtk_rinex.specs.Columns.{left, right};
ghost use Rattle.rtk_label.specs.Fields.{offset_columns, marker_number_line};
ghost use Rattle.rtk_label.specs.Steps.Fronts.{filled_height, plain_columns, plain_offset};

use crate::fields::columns_at;
use arrayvec::ArrayVec;

/// The bytes of the lines that a label changes: ten lines of 81 bytes.
pub const FRONT: usize = 810;

/// The bytes of the same lines without a label: nine lines.
pub const PLAIN_FRONT: usize = 729;

/// An offset of 0.
const ZERO: &[u8] = b"        0.0000";

/// Appends a text.
pub(crate) fn add(out: &mut ArrayVec<u8, FRONT>, text: &[u8])
    requires { length out.old.items + length text.now ≤ 810 }
    ensures items { out.new.items ≡ out.old.items ++ text.now }
    ensures len { length out.new.items ≡ length out.old.items + length text.now }
{
    if out.try_extend_from_slice(text).is_err() {
        unreachable!();
    }
}

/// Appends a text and blanks after it, `width` columns in all.
pub(crate) fn put_left(out: &mut ArrayVec<u8, FRONT>, text: &[u8], width: usize)
    requires fits { length text.now ≤ width }
    requires small { width ≤ 80 }
    requires room { length out.old.items + width ≤ 810 }
    ensures items { out.new.items ≡ out.old.items ++ left width text.now }
    ensures len { length out.new.items ≡ length out.old.items + width }
{
    let blanks = [b' '; 80];
    add(out, text);
    add(out, &blanks[..width - text.len()]);
}

/// Appends a text after blanks, `width` columns in all.
pub(crate) fn put_right(out: &mut ArrayVec<u8, FRONT>, text: &[u8], width: usize)
    requires fits { length text.now ≤ width }
    requires small { width ≤ 80 }
    requires room { length out.old.items + width ≤ 810 }
    ensures items { out.new.items ≡ out.old.items ++ right width text.now }
    ensures len { length out.new.items ≡ length out.old.items + width }
{
    let blanks = [b' '; 80];
    add(out, &blanks[..width - text.len()]);
    add(out, text);
}

/// Appends the columns of an offset.
pub(crate) fn put_offset(out: &mut ArrayVec<u8, FRONT>, offset: &[u8])
    requires fits { length offset.now ≤ 14 }
    requires room { length out.old.items + 14 ≤ 810 }
    ensures items { out.new.items ≡ out.old.items ++ offset_columns offset.now }
    ensures len { length out.new.items ≡ length out.old.items + 14 }
{
    if offset.len() == 0 {
        add(out, ZERO);
    } else {
        put_right(out, offset, 14);
    }
}

/// Appends the columns of the antenna's height: those of the stream, or the label's.
pub(crate) fn put_height(out: &mut ArrayVec<u8, FRONT>, height: &[u8], columns: &[u8])
    requires fits { length height.now ≤ 14 }
    requires columns { length columns.now ≤ 14 }
    requires room { length out.old.items + 14 ≤ 810 }
    ensures items { out.new.items ≡ out.old.items ++ filled_height height.now columns.now }
    ensures len { length out.new.items ≤ length out.old.items + 14 }
{
    if height.len() == 0 {
        add(out, columns);
    } else {
        put_right(out, height, 14);
    }
}

/// Appends the line of the marker's number, if there is one.
pub(crate) fn put_number_line(out: &mut ArrayVec<u8, FRONT>, number: &[u8])
    requires fits { length number.now ≤ 20 }
    requires room { length out.old.items + 81 ≤ 810 }
    ensures items { out.new.items ≡ out.old.items ++ marker_number_line number.now }
    ensures len { length out.new.items ≤ length out.old.items + 81 }
{
    if number.len() > 0 {
        let blanks = [b' '; 80];
        put_left(out, number, 20);
        add(out, &blanks[..40]);
        add(out, b"MARKER NUMBER       \n");
    }
}

/// Appends `width` columns of a line after the first `from`, blank if they show this field.
pub(crate) fn put_plain(
    out: &mut ArrayVec<u8, FRONT>,
    field: &[u8],
    line: &[u8],
    from: usize,
    width: usize,
)
    requires small { width ≤ 80 }
    requires room { length out.old.items + width ≤ 810 }
    ensures items { out.new.items ≡ out.old.items ++ plain_columns width field.now (take width (drop from line.now)) }
    ensures len { length out.new.items ≤ length out.old.items + width }
{
    let blanks = [b' '; 80];
    if field.len() == 0 {
        add(out, columns_at(line, from, width));
    } else {
        add(out, &blanks[..width]);
    }
}

/// Appends 14 columns of a line after the first `from`, 0 if they show this offset.
pub(crate) fn put_plain_offset(
    out: &mut ArrayVec<u8, FRONT>,
    offset: &[u8],
    line: &[u8],
    from: usize,
)
    requires room { length out.old.items + 14 ≤ 810 }
    ensures items { out.new.items ≡ out.old.items ++ plain_offset offset.now (take 14 (drop from line.now)) }
    ensures len { length out.new.items ≤ length out.old.items + 14 }
{
    if offset.len() == 0 {
        add(out, columns_at(line, from, 14));
    } else {
        add(out, ZERO);
    }
}
