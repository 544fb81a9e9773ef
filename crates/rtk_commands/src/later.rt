//! A file that is open only while it is read, so that not all captures are open at once.

ghost use Rattle.std.specs.Prelude.{◌≡◌};
ghost use Rattle.std.specs.Io.KnownBytes.{Keeps};
ghost use Rattle.std.specs.Io.Take.{take_remaining};
ghost use Rattle.rtk_commands.specs.Later.{later_remaining};

use std::fs::Files;
use std::io::{Read, Take};
use std::{fs, io};

/// A file before, while and after it is read.
#[derive(Drop)]
pub enum LaterFile<F: Drop> {
    Waiting,
    Open(F),
    Ended,
}

/// The first bytes of a file, so many at most. It is opened at the first read, and closed at its end.
#[derive(Drop)]
pub struct Later<'a, R: Files> {
    rt: &'a R,
    name: &'a str,
    most: u64,
    file: LaterFile<Take<R::File>>,
}

impl<'a, R: Files> Later<'a, R> {
    /// The file of this name, before its first read.
    pub fn new(rt: &'a R, name: &'a str, most: u64) -> Later<'a, R> {
        Later {
            rt,
            name,
            most,
            file: LaterFile::Waiting,
        }
    }
}

// Opens the file, if it waits.
fn open_if_waiting<R: Files>(
    rt: &R,
    name: &str,
    most: u64,
    file: &mut LaterFile<Take<R::File>>,
) -> io::Result<()>
    ensures { Keeps (later_remaining (take_remaining R.File.remaining) file.old)
        (later_remaining (take_remaining R.File.remaining) file.new) }
{
    if let LaterFile::Waiting = file {
        *file = LaterFile::Open(fs::open(rt, name)?.take(most));
    }
    Ok(())
}

impl<F: Read + Drop> Read for LaterFile<F> {
    ghost use Rattle.rtk_commands.specs.Later.{later_remaining};

    ghost remaining = { later_remaining F.remaining };

    fn read(&mut self, buf: &mut [u8]) -> io::Result<usize> {
        let LaterFile::Open(file) = self else {
            return Ok(0);
        };
        let count = file.read(buf)?;
        if count == 0 && !buf.is_empty() {
            *self = LaterFile::Ended;
        }
        Ok(count)
    }
}

impl<R: Files> Read for Later<'_, R> {
    ghost use Rattle.rtk_commands.specs.Later.{later_remaining};

    ghost remaining = { λ later. later_remaining (take_remaining R.File.remaining) later.file };

    fn read(&mut self, buf: &mut [u8]) -> io::Result<usize> {
        open_if_waiting(self.rt, self.name, self.most, &mut self.file)?;
        self.file.read(buf)
    }
}
