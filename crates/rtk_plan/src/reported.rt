//! What a report lists, by its text as it passes: how many conflicts, and how many late messages of each link.

ghost use Rattle.std.specs.Prelude.{◌≡◌};
ghost use Rattle.rtk_plan.specs.Reported as spec;

use crate::written_file::TakesText;
use arrayvec::ArrayVec;
use memchr::memchr;
use std::alloc::AllocError;

/// The columns of a line of the report that say of what it is, as `link 16 conflict`.
const REPORT_COLUMNS: usize = 16;

/// How many links a conversion takes.
const MOST_LINKS: usize = 16;

/// How many conflicts and late messages a report lists so far.
#[derive(Drop)]
pub struct Reported {
    // The first columns of a line that goes on.
    line: ArrayVec<u8, REPORT_COLUMNS>,
    conflicts: u64,
    // By link.
    late: [u64; MOST_LINKS],
}

fn is_digit(byte: u8) -> bool {
    b'0' <= byte && byte <= b'9'
}

// The number of the link of a line, from 1, and what stands behind it. Links have one digit or two.
fn link_and_rest(line: &[u8]) -> Option<(usize, &[u8])> {
    let [b'l', b'i', b'n', b'k', b' ', ones, rest @ ..] = line else {
        return None;
    };
    if !is_digit(*ones) {
        return None;
    }
    let number = usize::from(ones.saturating_sub(b'0'));
    match rest {
        [more, rest @ ..] if is_digit(*more) => {
            Some((10 * number + usize::from(more.saturating_sub(b'0')), rest))
        }
        _ => Some((number, rest)),
    }
}

impl Reported {
    /// Nothing was written.
    pub fn new() -> Reported {
        Reported {
            line: ArrayVec::new(),
            conflicts: 0,
            late: [0; MOST_LINKS],
        }
    }

    /// How many conflicts the report lists.
    pub fn conflicts(&self) -> u64
        ensures { result ≡ self.now.conflicts }
    {
        self.conflicts
    }

    /// How many late messages of a link it lists. Links are counted from 0.
    pub fn late_of(&self, link: usize) -> u64
        ensures { result ≡ spec.late_of self.now link }
    {
        self.late.get(link).copied().unwrap_or(0)
    }

    fn take_part(&mut self, part: &[u8]) {
        let count = part.len().min(self.line.remaining_capacity());
        let _kept = self.line.try_extend_from_slice(&part[..count]);
    }

    // A late message of this link, from 1.
    fn take_late(&mut self, link: usize) {
        let place = link.wrapping_sub(1);
        if place < MOST_LINKS {
            self.late[place] = self.late[place].saturating_add(1);
        }
    }

    fn take_line(&mut self) {
        if let Some((link, rest)) = link_and_rest(self.line.as_slice()) {
            if rest.starts_with(b" conflict") {
                self.conflicts = self.conflicts.saturating_add(1);
            } else if rest.starts_with(b" late ") {
                self.take_late(link);
            }
        }
        self.line.clear();
    }
}

impl TakesText for Reported {
    fn take(&mut self, text: &[u8]) -> Result<(), AllocError> {
        let mut rest = text;
        for _line in 0..text.len() {
            let Some(end) = memchr(b'\n', rest) else {
                break;
            };
            let (line, more) = rest.split_at(end);
            self.take_part(line);
            self.take_line();
            rest = more.split_at(more.len().min(1)).1;
        }
        self.take_part(rest);
        Ok(())
    }
}
