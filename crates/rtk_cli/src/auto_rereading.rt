//! The captures of a conversion, which are read a second time: as far as they were read at first, and only if
//! they are as they were.

ghost use Rattle.std.specs.Prelude.{◌≡◌, map, IfOk};
ghost use Rattle.rtk_captures.specs.CaptureNames.{capture_name};
ghost use Rattle.rtk_cli.specs.Said.{read_names, ReadsPlanned};

use rtk_commands::{Again, Digest, Later, is_longer};
use rtk_message::{put_named, put_sh_quoted};
use std::alloc::{AllocError, Global};
use std::cell::Cell;
use std::fs::Files;

/// A capture that was read: its name, and a digest of its bytes.
#[derive(Clone, Copy)]
pub(crate) struct CaptureRead<'a> {
    pub(crate) name: &'a str,
    pub(crate) digest: Digest,
}

/// A capture that is read again. Its mark is its place, counted over all links.
pub(crate) type RereadCapture<'a, R> = Again<'a, Later<'a, R>, usize>;

/// The name of the capture at a place; an empty one if there is none.
pub(crate) fn capture_name<'a>(names: &[&'a str], place: usize) -> &'a str
    ensures { result.now ≡ capture_name names.now place }
{
    match names.get(place) {
        Some(name) => *name,
        None => "",
    }
}

// The captures of these places.
fn captures_at<'a>(
    alloc: Global,
    places: &[usize],
    names: &[&'a str],
    digests: &[Digest],
) -> Result<Vec<CaptureRead<'a>>, AllocError>
    ensures { IfOk result (λ captures. read_names captures.items ≡ map (capture_name names.now) places.now) }
{
    let mut captures = Vec::new(alloc);
    for place in places {
        captures.push(CaptureRead {
            name: capture_name(names, *place),
            digest: digests.get(*place).copied().unwrap_or(Digest::new()),
        })?;
    }
    Ok(captures)
}

/// The captures of each link of a plan, as they were read.
pub(crate) fn captures_of_links<'a>(
    alloc: Global,
    links: &[Vec<usize>],
    names: &[&'a str],
    digests: &[Digest],
) -> Result<Vec<Vec<CaptureRead<'a>>>, AllocError>
    ensures { IfOk result (λ all. ReadsPlanned names.now links.now all.items) }
{
    let mut all = Vec::new(alloc);
    for link in links {
        all.push(captures_at(alloc, link.as_slice(), names, digests)?)?;
    }
    Ok(all)
}

// The files of captures, one after another.
fn files_of<'a, R: Files>(
    alloc: Global,
    rt: &'a R,
    links: &[Vec<CaptureRead<'a>>],
    differing: &'a Cell<Option<usize>>,
) -> Result<Vec<RereadCapture<'a, R>>, AllocError> {
    let mut files = Vec::new(alloc);
    for link in links {
        for capture in link {
            let place = files.len();
            let file = Later::new(rt, capture.name, capture.digest.bytes());
            files.push(Again::new(file, place, capture.digest, differing))?;
        }
    }
    Ok(files)
}

// Values in groups as large as the links.
fn grouped<T: Drop>(
    alloc: Global,
    values: Vec<T>,
    links: &[Vec<CaptureRead<'_>>],
) -> Result<Vec<Vec<T>>, AllocError> {
    let mut groups = Vec::new(alloc);
    let mut rest = values.into_iter();
    for link in links {
        let mut group = Vec::new(alloc);
        for _capture in link {
            if let Some(value) = rest.next() {
                group.push(value)?;
            }
        }
        groups.push(group)?;
    }
    Ok(groups)
}

/// The files of the captures of each link. The place of one that is not as it was is put into `differing`.
pub(crate) fn files_of_links<'a, R: Files>(
    alloc: Global,
    rt: &'a R,
    links: &[Vec<CaptureRead<'a>>],
    differing: &'a Cell<Option<usize>>,
) -> Result<Vec<Vec<RereadCapture<'a, R>>>, AllocError> {
    let files = files_of(alloc, rt, links, differing)?;
    grouped(alloc, files, links)
}

/// The name of the capture at this place, counted over all links.
pub(crate) fn name_at<'a>(links: &[Vec<CaptureRead<'a>>], place: usize) -> &'a str {
    let mut rest = place;
    for link in links {
        if let Some(capture) = link.get(rest) {
            return capture.name;
        }
        rest = rest.saturating_sub(link.len());
    }
    ""
}

// Appends the line of a capture that has grown.
fn put_grown_line(lines: &mut Vec<u8>, capture: &CaptureRead<'_>) -> Result<(), AllocError> {
    lines.extend_from_slice(b" grown ")?;
    put_sh_quoted(lines, capture.name.as_bytes())?;
    put_named(
        lines,
        b": what came after its first ",
        capture.digest.bytes(),
    )?;
    lines.extend_from_slice(b" bytes is not in the file\n")
}

/// Appends a line for each capture that has more bytes than were read.
pub(crate) fn put_grown<R: Files>(
    rt: &R,
    lines: &mut Vec<u8>,
    links: &[Vec<CaptureRead<'_>>],
) -> Result<(), AllocError> {
    for link in links {
        for capture in link {
            if is_longer(rt, capture.name, capture.digest.bytes()) {
                put_grown_line(lines, capture)?;
            }
        }
    }
    Ok(())
}
