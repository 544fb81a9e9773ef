//! The lines of a header that a label changes, with its fields and without.

ghost use Rattle.std.specs.Prelude.{◌≡◌, ◌≤◌, ◌++◌, length};
ghost use Rattle.rtk_label.specs.Labelled.{IsLabel};
ghost use Rattle.rtk_label.specs.Steps.Fronts.{filled_top, filled_middle, filled_front, plain_top, plain_middle};

use crate::columns::{
    FRONT, add, put_height, put_left, put_number_line, put_offset, put_plain, put_plain_offset,
};
use crate::fields::columns_at;
use crate::label::Label;
use arrayvec::ArrayVec;

// Appends three lines with the fields of a label.
fn put_top(out: &mut ArrayVec<u8, FRONT>, label: &Label, top: &[u8])
    requires { length out.old.items ≡ 0 }
    ensures items { out.new.items ≡ out.old.items ++ filled_top label.now top.now }
    ensures len { length out.new.items ≤ 243 }
{
    add(out, columns_at(top, 0, 101));
    put_left(out, label.run_by.as_slice(), 20);
    add(out, columns_at(top, 121, 122));
}

// Appends six lines with the fields of a label.
fn put_middle(out: &mut ArrayVec<u8, FRONT>, label: &Label, middle: &[u8])
    requires { length out.old.items ≤ 324 }
    ensures items { out.new.items ≡ out.old.items ++ filled_middle label.now middle.now }
{
    add(out, columns_at(middle, 0, 81));
    put_left(out, label.observer.as_slice(), 20);
    put_left(out, label.agency.as_slice(), 40);
    add(out, columns_at(middle, 141, 21));
    put_left(out, label.receiver_number.as_slice(), 20);
    put_left(out, label.receiver_type.as_slice(), 20);
    put_left(out, label.receiver_version.as_slice(), 20);
    add(out, columns_at(middle, 222, 21));
    put_left(out, label.antenna_number.as_slice(), 20);
    put_left(out, label.antenna_type.as_slice(), 20);
    add(out, columns_at(middle, 283, 122));
    put_height(out, label.height.as_slice(), columns_at(middle, 405, 14));
    put_offset(out, label.east.as_slice());
    put_offset(out, label.north.as_slice());
    add(out, columns_at(middle, 447, 39));
}

/// The first nine lines of a plain text with the fields of a label: nine lines, or ten.
pub(crate) fn filled(label: &Label, text: &[u8]) -> ArrayVec<u8, FRONT>
    ensures value { result.items ≡ filled_front label.now text.now }
    ensures good { IsLabel label.now }
{
    let mut out = ArrayVec::new();
    put_top(&mut out, label, columns_at(text, 0, 243));
    put_number_line(&mut out, label.marker_number.as_slice());
    put_middle(&mut out, label, columns_at(text, 243, 486));
    out
}

// Appends three lines without the fields of a label.
fn put_plain_top(out: &mut ArrayVec<u8, FRONT>, label: &Label, top: &[u8])
    requires { length out.old.items ≡ 0 }
    ensures items { out.new.items ≡ out.old.items ++ plain_top label.now top.now }
    ensures len { length out.new.items ≤ 243 }
{
    add(out, columns_at(top, 0, 101));
    put_plain(out, label.run_by.as_slice(), top, 101, 20);
    add(out, columns_at(top, 121, 122));
}

// Appends six lines without the fields of a label.
fn put_plain_middle(out: &mut ArrayVec<u8, FRONT>, label: &Label, m: &[u8])
    requires { length out.old.items ≤ 324 }
    ensures items { out.new.items ≡ out.old.items ++ plain_middle label.now m.now }
{
    add(out, columns_at(m, 0, 81));
    put_plain(out, label.observer.as_slice(), m, 81, 20);
    put_plain(out, label.agency.as_slice(), m, 101, 40);
    add(out, columns_at(m, 141, 21));
    put_plain(out, label.receiver_number.as_slice(), m, 162, 20);
    put_plain(out, label.receiver_type.as_slice(), m, 182, 20);
    put_plain(out, label.receiver_version.as_slice(), m, 202, 20);
    add(out, columns_at(m, 222, 21));
    put_plain(out, label.antenna_number.as_slice(), m, 243, 20);
    put_plain(out, label.antenna_type.as_slice(), m, 263, 20);
    add(out, columns_at(m, 283, 122));
    put_plain_offset(out, label.height.as_slice(), m, 405);
    put_plain_offset(out, label.east.as_slice(), m, 419);
    put_plain_offset(out, label.north.as_slice(), m, 433);
    add(out, columns_at(m, 447, 39));
}

/// Nine lines without the fields of a label: three of a text, then six.
pub(crate) fn plain(label: &Label, top: &[u8], middle: &[u8]) -> ArrayVec<u8, FRONT>
    ensures { result.items ≡ plain_top label.now top.now ++ plain_middle label.now middle.now }
{
    let mut out = ArrayVec::new();
    put_plain_top(&mut out, label, top);
    put_plain_middle(&mut out, label, middle);
    out
}
