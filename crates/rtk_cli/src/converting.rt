//! The command `convert`: opens the captures, converts them, and says how it went.
//!
//! At the end standard output is flushed, then the report, and the fault line comes last.

ghost use Rattle.std.specs.Prelude.{◌≡◌, ◌↔◌, ◌≤◌, length, map, OnOk, IfOk, IfErr, IsErrOf, IsTrue};
ghost use Rattle.std.specs.Io.KnownBytes.{Keeps};
ghost use Rattle.rtk_convert.specs.Converter.{IsLinkCount};
ghost use Rattle.rtk_convert.specs.Failure.{IsRunFault};
ghost use Rattle.rtk_convert.specs.Writing.{written};
ghost use Rattle.rtk_commands.specs.Passed.{taken_of};
ghost use Rattle.rtk_commands.specs.declared.exit_status.TheConstants.{REFUSED};
ghost use Rattle.rtk_cli.specs.Converting.{status_of};
ghost use Rattle.rtk_cli.specs.ConvertsBytes.{ConvertsBytes, KeepsBytes, EndsAtRead, ConvertsFirstBytes};
ghost use Rattle.rtk_cli.specs.Steps.Links.{bytes_had, bytes_held, AreLinksOf};

use crate::refusing::refuse;
use crate::words::BadWords;
use rtk_commands::{
    Before, DONE, GATHERED, MOST_READS, Reads, Resumed, ToolFault, Writes, fail, fail_to_end,
    fail_to_open_links, has_standard_input, open_links, sink,
};
use rtk_convert::{ConvertFault, Counts, MOST_LINKS, Setup, run};
use std::alloc::Global;
use std::fs::Files;
use std::io;
use std::io::{BufWriter, Read, Write};
use std::marker::Brand;

/// What a conversion of readers comes to.
#[derive(Drop)]
pub struct Converted<O, L> {
    /// The writer of the file.
    pub out: O,
    /// The writer of the report.
    pub report: L,
    /// The counts, or why the conversion is not done.
    pub done: Result<Counts, ConvertFault>,
    /// All that was gathered is out.
    pub is_out: bool,
}

// The readers as the sources of links, in their order and numbered from 0.
fn links_over<R: Read + Drop, K: Before>(
    alloc: Global,
    readers: Vec<R>,
) -> Result<Vec<Reads<R, K>>, ToolFault>
    requires had { K.had ≡ bytes_had R.remaining readers.items }
    requires few { length readers.items ≤ 16 }
    ensures sources { IfOk result (λ sources. AreLinksOf sources.items readers.items (λ link. link.number) (λ link. link.inner)) }
    ensures fault { IfErr result (λ fault. fault ≡ ToolFault.OutOfMemory) }
{
    let Ok(mut sources) = Vec::with_capacity(alloc, readers.len()) else {
        return Err(ToolFault::OutOfMemory);
    };
    let mut number = 0;
    for reader in readers {
        if sources.push(Reads::over(reader, number)).is_err() {
            return Err(ToolFault::OutOfMemory);
        }
        number += 1;
    }
    Ok(sources)
}

// Hands on what was gathered, the file's before the report's.
fn flush_both<O: Write + Drop, L: Write + Drop, K: Before>(
    done: Result<Counts, ConvertFault>,
    file: Writes<BufWriter<Resumed<O>>, K>,
    log: Writes<BufWriter<Resumed<L>>, K>,
) -> Converted<O, L>
    ensures done { result.done ≡ done }
    ensures out { IsTrue result.is_out
        → Keeps (⟦<BufWriter<Resumed<O>> as Write>⟧.contents file.inner) (O.contents result.out) }
    ensures report { IsTrue result.is_out
        → Keeps (⟦<BufWriter<Resumed<L>> as Write>⟧.contents log.inner) (L.contents result.report) }
{
    let (out, file_end) = file.into_writer();
    let (report, report_end) = log.into_writer();
    Converted {
        out: out.into_inner(),
        report: report.into_inner(),
        done,
        is_out: file_end.is_ok() && report_end.is_ok(),
    }
}

// `convert_through` over readers and writers by what `K` knows of their bytes: the file's writer has
// number 0, the report's number 1.
fn convert_by<R: Read + Drop, O: Write + Drop, L: Write + Drop, K: Before>(
    alloc: Global,
    setup: Setup,
    readers: Vec<R>,
    room: usize,
    out: O,
    report: L,
) -> Result<Converted<O, L>, ToolFault>
    requires had { K.had ≡ bytes_had R.remaining readers.items }
    requires held { K.held ≡ bytes_held (O.contents out) (L.contents report) }
    requires few { length readers.items ≤ 16 }
    ensures kept { IfOk result (λ c. IfOk c.done (λ counts. IsTrue c.is_out
        → KeepsBytes setup (map R.remaining readers.items) counts (written (O.contents out) (L.contents report))
        (written (taken_of (O.contents out) (O.contents c.out)) (taken_of (L.contents report) (L.contents c.report))))) }
    ensures first_part { IfOk result (λ c. EndsAtRead c.done → IsTrue c.is_out
        → ConvertsFirstBytes setup (map R.remaining readers.items) c.done (written (O.contents out) (L.contents report))
        (written (taken_of (O.contents out) (O.contents c.out)) (taken_of (L.contents report) (L.contents c.report)))) }
    ensures link_count { IfOk result (λ c. IsErrOf c.done ConvertFault.Setup ↔ ¬ (IsLinkCount (length readers.items))) }
    ensures faults { IfOk result (λ c. IfErr c.done IsRunFault) }
    ensures fault { IfErr result (λ fault. fault ≡ ToolFault.OutOfMemory) }
{
    let mut sources: Vec<Reads<R, K>> = links_over(alloc, readers)?;
    let Ok(mut file) = sink::<O, K>(alloc, room, out, 0) else {
        return Err(ToolFault::OutOfMemory);
    };
    let Ok(mut log) = sink::<L, K>(alloc, room, report, 1) else {
        return Err(ToolFault::OutOfMemory);
    };
    let done = run(
        alloc,
        setup,
        sources.as_mut_slice(),
        &mut file,
        &mut log,
        MOST_READS,
    );
    Ok(flush_both(done, file, log))
}

/// Converts what readers give, each of them a link: the file goes to `out`, the report to `report`,
/// and each of them gathers this much before it is written. At the end the file is out before the
/// report.
///
/// If it is done and all is out: the bytes that the readers had, all of them, are what was converted,
/// and what each writer holds afterwards is what it held before and exactly the file or the report.
/// Where the bytes of a reader or a writer are not known, nothing is said of them.
///
/// Only memory for the buffers is refused before a read; any other fault stands in `done`.
pub fn convert_through<R: Read + Drop, O: Write + Drop, L: Write + Drop>(
    alloc: Global,
    setup: Setup,
    readers: Vec<R>,
    room: usize,
    out: O,
    report: L,
) -> Result<Converted<O, L>, ToolFault>
    ensures headline { IfOk result (λ c. OnOk c.done (IsTrue c.is_out
        → ConvertsBytes setup (map R.remaining readers.items) (written (O.contents out) (L.contents report))
        (written (taken_of (O.contents out) (O.contents c.out)) (taken_of (L.contents report) (L.contents c.report))))) }
    ensures kept { IfOk result (λ c. IfOk c.done (λ counts. IsTrue c.is_out
        → KeepsBytes setup (map R.remaining readers.items) counts (written (O.contents out) (L.contents report))
        (written (taken_of (O.contents out) (O.contents c.out)) (taken_of (L.contents report) (L.contents c.report))))) }
    ensures first_part { IfOk result (λ c. EndsAtRead c.done → IsTrue c.is_out
        → ConvertsFirstBytes setup (map R.remaining readers.items) c.done (written (O.contents out) (L.contents report))
        (written (taken_of (O.contents out) (O.contents c.out)) (taken_of (L.contents report) (L.contents c.report)))) }
    ensures link_count { IfOk result (λ c. IsErrOf c.done ConvertFault.Setup ↔ ¬ (IsLinkCount (length readers.items))) }
    ensures faults { IfOk result (λ c. IfErr c.done IsRunFault) }
    ensures fault { IfErr result (λ fault. fault ≡ ToolFault.OutOfMemory) }
{
    // `convert_by` numbers its readers in a `u8`, so it takes at most 16. `run` sees whether there is any.
    if readers.len() > MOST_LINKS {
        return Ok(Converted {
            out,
            report,
            done: Err(ConvertFault::Setup),
            is_out: true,
        });
    }
    convert_by::<R, O, L, Brand>(alloc, setup, readers, room, out, report)
}

/// The exit status of a conversion, by its answer and by whether all that it wrote is out; the fault
/// line goes to standard error.
pub fn conversion_status<R: Eprint>(rt: &R, done: Result<Counts, ConvertFault>, is_out: bool) -> u8
    requires { IfErr done IsRunFault }
    ensures { result ≡ status_of done is_out }
{
    match done {
        Ok(_) if is_out => DONE,
        Ok(_) | Err(ConvertFault::Write { .. }) => fail(rt, ToolFault::Output),
        Err(ConvertFault::OutOfMemory) => fail(rt, ToolFault::OutOfMemory),
        Err(ConvertFault::Read { .. }) => fail(rt, ToolFault::Input),
        Err(ConvertFault::Endless) => fail_to_end(rt),
        // Not 1 to 16 links.
        Err(ConvertFault::Setup) => refuse(rt, BadWords::Links.line()),
        // Faults of calls on one link: `IsRunFault` says that a whole conversion has none of them.
        Err(ConvertFault::NoLink | ConvertFault::LinkClosed | ConvertFault::Stopped) =>
            unreachable!(),
    }
}

// Converts open captures to standard output; the file and the report gather this much before each
// write. The fault line comes last.
fn convert_opened<R: Print + Eprint + AllocGlobal, S: Read + Drop, W: Write + Drop>(
    rt: &R,
    report: W,
    setup: Setup,
    readers: Vec<S>,
    room: usize,
) -> u8
    ensures { result ≤ REFUSED }
{
    match convert_through(rt.alloc(), setup, readers, room, io::writer(rt), report) {
        Ok(converted) => conversion_status(rt, converted.done, converted.is_out),
        Err(fault) => fail(rt, fault),
    }
}

/// Converts captures: the file goes to standard output, the report to `report`. All captures are
/// opened before one is read. If one is standard input each write goes straight on, so that the
/// file can be followed.
#[inline(never)]
pub(crate) fn convert_links<R: Files + Input + Print + Eprint + AllocGlobal, W: Write + Drop>(
    rt: &R,
    report: W,
    setup: Setup,
    names: &[&str],
) -> u8
    ensures { result ≤ REFUSED }
{
    let readers = match open_links(rt, names) {
        Ok(readers) => readers,
        Err(fault) => return fail_to_open_links(rt, fault),
    };
    let room = if has_standard_input(names) {
        0
    } else {
        GATHERED
    };
    convert_opened(rt, report, setup, readers, room)
}
