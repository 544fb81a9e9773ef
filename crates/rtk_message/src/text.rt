//! Numbers, faults and names of files as text, which the crates above put into their lines.
//!
//! If memory is refused, a first part of what is put may stand there.

ghost use Rattle.std.specs.Prelude.{◌≡◌, ◌++◌, codes, decimal, flat_map, OnOk};
ghost use Rattle.std.specs.List.{list_all};
ghost use Rattle.rtk_message.specs.AnyFaultCode.{any_fault_text};
ghost use Rattle.rtk_message.specs.FaultCode.{fault_text, number_text};
ghost use Rattle.rtk_message.specs.ShellText as shell;

use crate::any_fault::AnyFault;
use crate::fault::DecodeFault;
use itoa::Buffer;
use std::alloc::AllocError;

/// Appends a number in decimal.
pub fn put_number(line: &mut Vec<u8>, number: u64) -> Result<(), AllocError>
    // Fails only if memory is refused: tests/system/calls, rows put_number, put_named and put_fault.
    ensures { OnOk result (line.new.items ≡ line.old.items ++ decimal number) }
{
    line.extend_from_slice(Buffer::new().format(number).as_bytes())
}

/// Appends a word and the number that it names.
pub fn put_named(line: &mut Vec<u8>, name: &[u8], number: u64) -> Result<(), AllocError>
    ensures { OnOk result (line.new.items ≡ line.old.items ++ name.now ++ decimal number) }
{
    line.extend_from_slice(name)?;
    put_number(line, number)
}

/// Appends the code of a fault and the number of the message, or a hyphen if it has none.
pub fn put_fault(line: &mut Vec<u8>, fault: DecodeFault) -> Result<(), AllocError>
    ensures { OnOk result (line.new.items ≡ line.old.items ++ fault_text fault) }
{
    put_cause(line, fault.code(), fault.number())
}

/// Appends the code of a fault of the wider set and the number of the message, or a hyphen if it
/// has none.
pub fn put_any_fault(line: &mut Vec<u8>, fault: AnyFault) -> Result<(), AllocError>
    ensures { OnOk result (line.new.items ≡ line.old.items ++ any_fault_text fault) }
{
    put_cause(line, fault.code(), fault.number())
}

// Appends a code and the number of a message, or a hyphen if there is none.
fn put_cause(line: &mut Vec<u8>, code: &str, number: Option<u16>) -> Result<(), AllocError>
    ensures { OnOk result (line.new.items ≡ line.old.items ++ (code.now ++ codes " " ++ number_text number)) }
{
    line.extend_from_slice(code.as_bytes())?;
    match number {
        Some(number) => put_named(line, b" ", u64::from(number))?,
        None => line.extend_from_slice(b" -")?,
    }
    Ok(())
}

// Returns whether a byte is a digit or a letter of ASCII.
fn is_alphanumeric(byte: u8) -> bool
    ensures { result ≡ shell.is_alphanumeric byte }
{
    b'0' <= byte && byte <= b'9' || b'A' <= byte && byte <= b'Z' || b'a' <= byte && byte <= b'z'
}

// Returns whether a byte is one of % + , - . /.
fn is_plain_mark(byte: u8) -> bool
    ensures { result ≡ shell.is_plain_mark byte }
{
    byte == b'%' || byte == b'+' || b',' <= byte && byte <= b'/'
}

// Returns whether a byte is one of : = @ _.
fn is_other_mark(byte: u8) -> bool
    ensures { result ≡ shell.is_other_mark byte }
{
    byte == b':' || byte == b'=' || byte == b'@' || byte == b'_'
}

// Returns whether sh takes a byte of a word as it stands.
fn is_plain(byte: u8) -> bool
    ensures { result ≡ shell.is_plain byte }
{
    is_alphanumeric(byte) || is_plain_mark(byte) || is_other_mark(byte)
}

// Returns whether sh takes each byte of a name as it stands.
fn are_plain(name: &[u8]) -> bool
    ensures { result ≡ list_all shell.is_plain name.now }
{
    name.iter().all(|byte| is_plain(*byte))
}

// Appends a byte as it stands between single quotes. A single quote can't, so it ends the quotes,
// stands behind a backslash, and begins them again.
fn put_quoted_byte(line: &mut Vec<u8>, byte: u8) -> Result<(), AllocError>
    ensures { OnOk result (line.new.items ≡ line.old.items ++ shell.quoted_byte byte) }
{
    if byte == b'\'' {
        return line.extend_from_slice(b"'\\''");
    }
    line.push(byte)?;
    Ok(())
}

// Appends bytes as they stand between single quotes.
fn put_quoted_bytes(line: &mut Vec<u8>, name: &[u8]) -> Result<(), AllocError>
    ensures { OnOk result (line.new.items ≡ line.old.items ++ flat_map shell.quoted_byte name.now) }
{
    for byte in name {
        put_quoted_byte(line, *byte)?;
    }
    Ok(())
}

// Appends a name in single quotes.
fn put_quoted(line: &mut Vec<u8>, name: &[u8]) -> Result<(), AllocError>
    ensures { OnOk result (line.new.items ≡ line.old.items ++ shell.quoted name.now) }
{
    line.push(b'\'')?;
    put_quoted_bytes(line, name)?;
    line.push(b'\'')?;
    Ok(())
}

// Appends a name, in single quotes if it is empty or sh would not take it as it stands.
fn put_quoted_if_needed(line: &mut Vec<u8>, name: &[u8]) -> Result<(), AllocError>
    ensures { OnOk result (line.new.items ≡ line.old.items ++ shell.quoted_if_needed name.now) }
{
    if !name.is_empty() && are_plain(name) {
        line.extend_from_slice(name)
    } else {
        put_quoted(line, name)
    }
}

// Appends the present folder before a name that begins with a hyphen, since a command would take it
// for an option.
fn put_folder_before(line: &mut Vec<u8>, name: &[u8]) -> Result<(), AllocError>
    ensures { OnOk result (line.new.items ≡ line.old.items ++ shell.folder_before name.now) }
{
    if !name.is_empty() && name[0] == b'-' {
        line.extend_from_slice(b"./")?;
    }
    Ok(())
}

/// Appends the name of a file as sh takes it, so that a command with it can be pasted.
pub fn put_sh_quoted(line: &mut Vec<u8>, name: &[u8]) -> Result<(), AllocError>
    ensures { OnOk result (line.new.items ≡ line.old.items ++ shell.sh_quoted name.now) }
{
    put_folder_before(line, name)?;
    put_quoted_if_needed(line, name)?;
    Ok(())
}
