//! Comparisons of a test. They are calls and no `assert_eq!`, since each of those costs the proof
//! of a test some seconds and a call nearly nothing.

ghost use Rattle.std.specs.Prelude.{◌≡◌, true, false, IfOk, IfErr, IsTrue, flat_map};

use std::fmt::{Debug, Display};
use std::test::Fail;

/// Ok if the test got what it wants; else a failure that shows both values.
pub fn same<T: PartialEq + Debug>(got: &T, want: &T) -> Result<(), Fail>
    ensures equal { IfOk result (λ _. T.eq got.now want.now ≡ true) }
    ensures other { IfErr result (λ _. T.eq got.now want.now ≡ false) }
{
    if got == want {
        Ok(())
    } else {
        Err(Fail::new(format_args!("{got:?}, and not {want:?}")))
    }
}

/// As `same`, in this row of a table.
pub fn same_of<R: Display + Drop, T: PartialEq + Debug>(
    row: R,
    got: &T,
    want: &T,
) -> Result<(), Fail>
    ensures equal { IfOk result (λ _. T.eq got.now want.now ≡ true) }
    ensures other { IfErr result (λ _. T.eq got.now want.now ≡ false) }
{
    if got == want {
        Ok(())
    } else {
        Err(Fail::new(format_args!("{row}: {got:?}, and not {want:?}")))
    }
}

/// Ok if this holds; else a failure.
pub fn holds(is: bool) -> Result<(), Fail>
    ensures so { IfOk result (λ _. is ≡ true) }
    ensures not_so { IfErr result (λ _. is ≡ false) }
{
    same(&is, &true)
}

/// As `holds`, in this row of a table.
pub fn holds_of<R: Display + Drop>(row: R, is: bool) -> Result<(), Fail>
    ensures so { IfOk result (λ _. is ≡ true) }
    ensures not_so { IfErr result (λ _. is ≡ false) }
{
    same_of(row, &is, &true)
}

/// Do these parts, one after another, make the text?
pub fn consists_of(text: &[u8], parts: &[&str]) -> bool
    ensures { IsTrue result → text.now ≡ flat_map (λ part. part.now) parts.now }
{
    let mut rest = text;
    for part in parts {
        let Some(next) = rest.strip_prefix(part.as_bytes()) else {
            return false;
        };
        rest = next;
    }
    rest.is_empty()
}
