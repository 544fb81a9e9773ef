//! The links of a conversion: files and standard input, opened before one is read.
//!
//! A link is read through one buffer, whose size is a multiple of the 512 bytes that a conversion
//! asks for.

ghost use Rattle.std.specs.Prelude.{◌≡◌, length, IfOk, IfErr};
ghost use Rattle.std.specs.Io.Buffered.{reader_capacity};
ghost use Rattle.rtk_commands.specs.Steps.ReadLimits.{read_at_once};
ghost use Rattle.rtk_commands.specs.declared.fault.ToolFault.TheVariants.{OutOfMemory};

use crate::exit_status::{FAILED, fail, fail_to_open};
use crate::fault::ToolFault;
use crate::files::{Capture, STDIN, is_standard_input_readable, open_input};
use crate::resuming::Resumed;
use std::alloc::{AllocFailed, Global};
use std::fs::Files;
use std::io::{BufReader, Read};

/// How many bytes of a capture are read at once. It is a multiple of the 512 that a conversion asks
/// for, so that a file gives it 512 at a time, up to its end.
const READ_AT_ONCE: usize = 32_768;

/// A link of the program: a file or standard input, read ahead.
pub type Link<R> = BufReader<Resumed<Capture<<R as Files>::File, <R as Input>::Reader>>>;

/// Why the links are not open.
pub enum OpenFault<'a> {
    /// There is no file of this name, or it may not be read.
    NotOpened {
        /// The name of the link.
        name: &'a str,
    },
    /// No memory for reading ahead; or all files are open, and standard input was closed before.
    Failed(ToolFault),
}

impl From<ToolFault> for OpenFault<'_> {
    fn from(fault: ToolFault) -> Self {
        OpenFault::Failed(fault)
    }
}

impl<T: Drop> From<AllocFailed<T>> for OpenFault<'_> {
    fn from(refused: AllocFailed<T>) -> Self {
        OpenFault::Failed(ToolFault::from(refused))
    }
}

/// A reader that is read ahead. If memory is refused the reader is let go.
pub fn read_ahead<R: Read + Drop>(alloc: Global, reader: R) -> Result<BufReader<R>, ToolFault>
    ensures bytes { IfOk result (λ link. ⟦<BufReader<R> as Read>⟧.remaining link ≡ R.remaining reader) }
    ensures at_once { IfOk result (λ link. reader_capacity link ≡ read_at_once) }
    ensures fault { IfErr result (λ fault. fault ≡ OutOfMemory) }
{
    let link = BufReader::with_capacity(alloc, READ_AT_ONCE, reader)?;
    Ok(link)
}

fn open_link<'a, R: Files + Input + AllocGlobal>(
    rt: &R,
    name: &'a str,
) -> Result<Link<R>, OpenFault<'a>>
    ensures { IfOk result (λ link. reader_capacity link ≡ read_at_once) }
{
    let Some(capture) = open_input(rt, name) else {
        return Err(OpenFault::NotOpened { name });
    };
    let link = read_ahead(rt.alloc(), capture)?;
    Ok(link)
}

/// Is a link standard input?
pub fn has_standard_input(names: &[&str]) -> bool {
    names.iter().any(|name| *name == STDIN)
}

/// All links, open; none of them is read.
pub fn open_links<'a, R: Files + Input + AllocGlobal>(
    rt: &R,
    names: &[&'a str],
) -> Result<Vec<Link<R>>, OpenFault<'a>>
    ensures { IfOk result (λ links. length links.items ≡ length names.now) }
{
    let is_readable = !has_standard_input(names) || is_standard_input_readable(rt);
    let mut links = Vec::new(rt.alloc());
    for name in names {
        let link = open_link(rt, *name)?;
        links.push(link)?;
    }
    if !is_readable {
        return Err(OpenFault::Failed(ToolFault::Input));
    }
    Ok(links)
}

/// Says why the links are not open.
pub fn fail_to_open_links<R: Eprint>(rt: &R, fault: OpenFault<'_>) -> u8
    ensures { result ≡ FAILED }
{
    match fault {
        OpenFault::NotOpened { name } => fail_to_open(rt, name),
        OpenFault::Failed(fault) => fail(rt, fault),
    }
}
