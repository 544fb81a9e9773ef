//! The conversion of the pieces that stand on standard input.

use rtk_convert::{ConvertFault, Converter, Counts, Setup};
use rtk_frame::MemSink;
use rtk_obs::{Civil, Code, GpsMs, of_civil};
use rtk_rinex::Head;
use std::{io, str};

// How many epochs are kept open. With two, the first is written when the third comes.
const WINDOW: usize = 2;

// Noon or one o'clock of the day of the pieces, in GPS time.
fn hour_of_day(hour: u8) -> Option<GpsMs> {
    of_civil(Civil {
        year: 2024,
        month: 5,
        day: 17,
        hour,
        minute: 0,
        second: 0,
        millisecond: 0,
    })
}

/// A file of station 2003 with three codes, made at one o'clock, from messages near noon.
pub(crate) fn setup() -> Option<Setup> {
    let made = hour_of_day(13)?;
    let Ok(head) = Head::new(b"BASE", &[Code::G1C, Code::G2W, Code::G5X], made) else {
        return None;
    };
    match Setup::new(2003, hour_of_day(12)?, head, WINDOW) {
        Ok(setup) => Some(setup),
        Err(_) => None,
    }
}

// The link that a line names, and the hex text of its piece.
fn link_of(line: &str) -> Option<(usize, &str)> {
    let (link, piece) = line.split_once(' ')?;
    match link {
        "0" => Some((0, piece)),
        "1" => Some((1, piece)),
        _ => None,
    }
}

// The link and the piece of a line, or `None` for a line that has none, which is told.
fn piece_of(rt: &HostRuntime, line: &str) -> io::Result<Option<(usize, Vec<u8>)>> {
    let Some((link, digits)) = link_of(line) else {
        println!(rt; "no piece: {line}")?;
        return Ok(None);
    };
    let Ok(piece) = hex::decode(rt.alloc(), digits) else {
        println!(rt; "no hex text: {digits}")?;
        return Ok(None);
    };
    Ok(Some((link, piece)))
}

// Feeds each line's piece on its link, and prints how much of the file is written; `false` after a fault,
// which is told.
fn feed_each(
    rt: &HostRuntime,
    converter: &mut Converter,
    file: &mut MemSink,
    report: &mut MemSink,
) -> io::Result<bool> {
    for line in rt.lines(rt.alloc()) {
        let Some((link, piece)) = piece_of(rt, line?.as_str())? else {
            continue;
        };
        if let Err(fault) = converter.feed(link, &piece, file, report) {
            println!(rt; "{fault}")?;
            return Ok(false);
        }
        println!(rt; "link {link}: {} bytes are written", file.bytes().len())?;
    }
    Ok(true)
}

// Tells how many records the file has, and prints it; or tells why it is not whole.
fn print_file(rt: &HostRuntime, done: Result<Counts, ConvertFault>, file: &[u8]) -> io::Result<()> {
    match done {
        Ok(counts) => println!(rt; "{} records", counts.epochs)?,
        Err(fault) => return println!(rt; "{fault}"),
    }
    print!(rt; "{}", str::from_utf8(file).unwrap_or("no text"))
}

/// Feeds each line's piece on its link, and prints what is written.
pub(crate) fn feed_lines(rt: &HostRuntime, setup: Setup) -> io::Result<()> {
    let mut file = MemSink::new(rt.alloc(), 65_536, 4_096)?;
    let mut report = MemSink::new(rt.alloc(), 65_536, 4_096)?;
    let Ok(mut converter) = Converter::new(rt.alloc(), setup, 2) else {
        return println!(rt; "no converter");
    };
    if !feed_each(rt, &mut converter, &mut file, &mut report)? {
        return Ok(());
    }
    let done = converter.finish(&mut file, &mut report);
    print_file(rt, done, file.bytes())
}
