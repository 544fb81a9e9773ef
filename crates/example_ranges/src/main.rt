//! Prints the pseudoranges in frames of RTCM 3, which stand on standard input as hex text.
//!
//! A program over the libraries: bytes to frames, frames to messages, messages to observations.
#![tactic(auto)]

use rtk_frame::Frames;
use rtk_message::{Message, decode};
use rtk_obs::{CellEntry, cells_1004, cells_1074};
use std::{io, str};

// A line for each cell that has a pseudorange: satellite, code, metres.
fn print_ranges(rt: &HostRuntime, cells: &[CellEntry]) -> io::Result<()> {
    for entry in cells {
        let Some(range) = entry.cell.range_mm else {
            continue;
        };
        let name = entry.code.name();
        let code = str::from_utf8(&name).unwrap_or("?");
        let sign = if range < 0 { "-" } else { "" };
        let mm = range.unsigned_abs();
        println!(rt;
            "G{:02} {code} {sign}{}.{:03}",
            entry.satellite,
            mm / 1000,
            mm % 1000
        )?;
    }
    Ok(())
}

fn print_payload(rt: &HostRuntime, payload: &[u8]) -> io::Result<()> {
    match decode(payload) {
        Ok(Message::Obs1004(message)) => print_ranges(rt, &cells_1004(&message)),
        Ok(Message::Msm1074(message)) => print_ranges(rt, &cells_1074(&message)),
        Ok(_) => println!(rt; "a message without observations"),
        Err(fault) => println!(rt; "refused: {fault}"),
    }
}

fn main(rt: HostRuntime) -> io::Result<()> {
    for line in rt.lines(rt.alloc()) {
        let Ok(bytes) = hex::decode(rt.alloc(), line?.as_str()) else {
            println!(rt; "no hex text")?;
            continue;
        };
        let mut frames = Frames::new(&bytes);
        while let Some(frame) = frames.next_frame() {
            print_payload(&rt, frame.payload)?;
        }
    }
    Ok(())
}
