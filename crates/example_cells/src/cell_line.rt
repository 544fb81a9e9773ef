//! The line of a cell.

use rtk_obs::{Cell, GpsMs, civil};
use std::{fmt, io, str};

// A number of thousandths, as in -0.125, or a dash.
#[derive(Clone, Copy)]
struct Thousandths(Option<i64>);

impl fmt::Display for Thousandths {
    fn fmt<W: fmt::Write>(&self, f: &mut fmt::Formatter<W>) -> fmt::Result {
        let Some(value) = self.0 else {
            return write!(f, "-");
        };
        let sign = if value < 0 { "-" } else { "" };
        let size = value.unsigned_abs();
        write!(f, "{sign}{}.{:03}", size / 1000, size % 1000)
    }
}

// A moment as its date and time of day.
#[derive(Clone, Copy)]
struct Moment(GpsMs);

impl fmt::Display for Moment {
    fn fmt<W: fmt::Write>(&self, f: &mut fmt::Formatter<W>) -> fmt::Result {
        let reading = civil(self.0);
        write!(
            f,
            "{:04}-{:02}-{:02} {:02}:{:02}:{:02}.{:03}",
            reading.year,
            reading.month,
            reading.day,
            reading.hour,
            reading.minute,
            reading.second,
            reading.millisecond
        )
    }
}

/// Prints the line of a cell of this satellite and this code.
pub(crate) fn print_cell(
    rt: &HostRuntime,
    time: GpsMs,
    satellite: [u8; 3],
    code: [u8; 2],
    cell: &Cell,
) -> io::Result<()> {
    println!(rt;
        "{} {} {} {} {} {} {}{}",
        Moment(time),
        str::from_utf8(&satellite).unwrap_or("?"),
        str::from_utf8(&code).unwrap_or("?"),
        Thousandths(cell.range_mm),
        Thousandths(cell.phase_millicycles),
        Thousandths(cell.strength_millidbhz.map(i64::from)),
        cell.lock_time_ms,
        if cell.half { " half" } else { "" }
    )
}
