//! The second pass of `auto`: captures that are joined to links are converted.

ghost use Rattle.std.specs.Prelude.{◌≡◌, map, IfOk, IfErr, OnOk, IsTrue};
ghost use Rattle.rtk_convert.specs.Failure.{IsRunFault};
ghost use Rattle.rtk_convert.specs.Writing.{written};
ghost use Rattle.rtk_commands.specs.Joined.{joined_bytes};
ghost use Rattle.rtk_commands.specs.Passed.{taken_of};
ghost use Rattle.rtk_cli.specs.ConvertsBytes.{ConvertsBytes};
ghost use Rattle.rtk_cli.specs.JoinedLinks.{links_bytes};

use crate::converting::{Converted, convert_through};
use rtk_commands::{GATHERED, Joined, Resumed, ToolFault, read_ahead};
use rtk_convert::Setup;
use std::alloc::Global;
use std::io::{BufReader, Read, Write};

/// A link whose captures are joined, read ahead.
type JoinedLink<R> = BufReader<Resumed<Joined<R>>>;

// The parts of a link as one reader.
fn joined_link<R: Read + Drop>(alloc: Global, parts: Vec<R>) -> Result<JoinedLink<R>, ToolFault>
    ensures { IfOk result (λ link. ⟦<JoinedLink<R> as Read>⟧.remaining link ≡ joined_bytes R.remaining parts.items) }
{
    read_ahead(alloc, Resumed::new(Joined::new(parts)))
}

// The links, each over its parts.
fn joined_links<R: Read + Drop>(
    alloc: Global,
    links: Vec<Vec<R>>,
) -> Result<Vec<JoinedLink<R>>, ToolFault>
    ensures { IfOk result (λ readers. map ⟦<JoinedLink<R> as Read>⟧.remaining readers.items ≡ links_bytes R.remaining links.items) }
{
    let mut readers = Vec::new(alloc);
    for parts in links {
        let link = joined_link(alloc, parts)?;
        if readers.push(link).is_err() {
            return Err(ToolFault::OutOfMemory);
        }
    }
    Ok(readers)
}

/// Converts what readers give, those of a link one after another: the file goes to `out`, the report to
/// `report`. If it is done and all is out: what was converted is all that the readers of each link had,
/// in their order. Where the bytes of a reader or a writer are not known, nothing is said of them.
pub fn convert_joined<R: Read + Drop, O: Write + Drop, L: Write + Drop>(
    alloc: Global,
    setup: Setup,
    links: Vec<Vec<R>>,
    out: O,
    report: L,
) -> Result<Converted<O, L>, ToolFault>
    ensures headline { IfOk result (λ c. OnOk c.done (IsTrue c.is_out
        → ConvertsBytes setup (links_bytes R.remaining links.items) (written (O.contents out) (L.contents report))
        (written (taken_of (O.contents out) (O.contents c.out)) (taken_of (L.contents report) (L.contents c.report))))) }
    ensures faults { IfOk result (λ c. IfErr c.done IsRunFault) }
{
    let readers = joined_links(alloc, links)?;
    convert_through(alloc, setup, readers, GATHERED, out, report)
}
