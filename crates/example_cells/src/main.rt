//! Prints the observations of all systems in frames of RTCM 3, which stand on standard input as hex text.
//!
//! A line `near 1399982400000` begins a capture. It tells a GPS time near its messages, in ms since
//! 1980-01-06 00:00:00. Each other line has frames. For each cell a line is printed: its moment, its satellite and
//! code, the pseudorange in m, the carrier phase in cycles, C/N0 in dB-Hz, and the least lock time in ms. A
//! dash is no value, and `half` at the end an open half-cycle ambiguity.
#![tactic(auto)]

mod cell_line;
mod listening;

use crate::listening::Listener;
use rtk_frame::Frames;
use std::io;

fn print_frames(rt: &HostRuntime, listener: &mut Listener, bytes: &[u8]) -> io::Result<()> {
    let mut frames = Frames::new(bytes);
    while let Some(frame) = frames.next_frame() {
        listener.print_payload(rt, frame.payload)?;
    }
    Ok(())
}

fn main(rt: HostRuntime) -> io::Result<()> {
    let mut listener = Listener::new();
    for line in rt.lines(rt.alloc()) {
        let line = line?;
        if let Some(time) = line.as_str().strip_prefix("near ") {
            listener.begin(time);
        } else if let Ok(bytes) = hex::decode(rt.alloc(), line.as_str()) {
            print_frames(&rt, &mut listener, &bytes)?;
        } else {
            println!(rt; "no hex text")?;
        }
    }
    Ok(())
}
