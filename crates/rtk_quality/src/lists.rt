//! Lists of entries: under a heading in a table, and as an array in JSON.

ghost use Rattle.std.specs.Prelude.{◌≡◌, ◌++◌, ℕ, List, length, IfOk, OnOk};
ghost use Rattle.rtk_quality.specs.Lists.{opening, closed};
ghost use Rattle.rtk_quality.specs.declared.form.Form.TheVariants.{Table, Json};

use crate::form::Form;
use std::alloc::AllocError;

/// The places in a text at which a list begins and at which its entries begin.
#[derive(Clone, Copy)]
pub(crate) struct ListStart {
    pub(crate) list: usize,
    pub(crate) entries: usize,
}

// Appends what stands before the entries of a list.
fn put_opening(text: &mut Vec<u8>, form: Form, heading: &[u8], key: &[u8]) -> Result<(), AllocError>
    ensures { OnOk result (text.new.items ≡ text.old.items ++ opening form heading.now key.now) }
{
    match form {
        Form::Table => text.extend_from_slice(heading),
        Form::Lines => Ok(()),
        Form::Json => text.extend_from_slice(key),
    }
}

/// Begins a list: by its heading in a table, and by its key in JSON.
pub(crate) fn begin_list(
    text: &mut Vec<u8>,
    form: Form,
    heading: &[u8],
    key: &[u8],
) -> Result<ListStart, AllocError>
    ensures text { OnOk result (text.new.items ≡ text.old.items ++ opening form heading.now key.now) }
    ensures list { IfOk result (λ start. start.list ≡ length text.old.items) }
    ensures entries { IfOk result (λ start. start.entries ≡ length text.new.items) }
{
    let list = text.len();
    put_opening(text, form, heading, key)?;
    Ok(ListStart {
        list,
        entries: text.len(),
    })
}

// Takes the heading away if no entry came.
fn end_table(text: &mut Vec<u8>, start: ListStart)
    ensures { (before first entries : List ℕ) → length before ≡ start.list → length (before ++ first) ≡ start.entries
        → text.old.items ≡ (before ++ first) ++ entries → text.new.items ≡ before ++ closed Table first entries }
{
    if text.len() == start.entries {
        text.truncate(start.list);
    }
}

// Ends the array, without the comma before its first entry, if there is one.
fn end_array(text: &mut Vec<u8>, start: ListStart) -> Result<(), AllocError>
    ensures { OnOk result ((before first entries : List ℕ) → length (before ++ first) ≡ start.entries
        → text.old.items ≡ (before ++ first) ++ entries → text.new.items ≡ before ++ closed Json first entries) }
{
    if start.entries < text.len() {
        text.remove(start.entries);
        return text.extend_from_slice(b"\n]");
    }
    text.extend_from_slice(b"]")
}

/// Ends a list whose entries were appended.
pub(crate) fn end_list(text: &mut Vec<u8>, form: Form, start: ListStart) -> Result<(), AllocError>
    ensures { OnOk result ((before first entries : List ℕ) → length before ≡ start.list → length (before ++ first) ≡ start.entries
        → text.old.items ≡ (before ++ first) ++ entries → text.new.items ≡ before ++ closed form first entries) }
{
    match form {
        Form::Table => {
            end_table(text, start);
            Ok(())
        }
        Form::Lines => Ok(()),
        Form::Json => end_array(text, start),
    }
}
