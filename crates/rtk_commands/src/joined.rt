//! Readers that are read one after another, as one.

ghost use Rattle.std.specs.Prelude.{◌≡◌, None};
ghost use Rattle.rtk_commands.specs.Joined.{joined_bytes, joined_remaining};

use std::io;
use std::io::Read;

/// Parts that are read one after another. Its bytes are those of its parts, in their order, and it ends
/// where the last part does.
#[derive(Drop)]
pub struct Joined<R: Drop> {
    parts: Vec<R>,
    // The part that is read.
    at: usize,
}

impl<R: Read + Drop> Joined<R> {
    /// These parts as one reader, before its first call.
    pub fn new(parts: Vec<R>) -> Joined<R>
        ensures { joined_remaining R.remaining result ≡ joined_bytes R.remaining parts.items }
    {
        Joined { parts, at: 0 }
    }
}

impl<R: Read + Drop> Read for Joined<R> {
    ghost remaining = { joined_remaining R.remaining };

    fn read(&mut self, buf: &mut [u8]) -> io::Result<usize> {
        while self.at < self.parts.len() {
            let count = self.parts[self.at].read(buf)?;
            if count > 0 || buf.is_empty() {
                return Ok(count);
            }
            self.at += 1;
        }
        Ok(0)
    }
}
