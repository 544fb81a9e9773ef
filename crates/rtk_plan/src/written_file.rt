//! What a file has that is written, by its text as it passes: its epochs and satellites, and whether its header
//! has a position.

ghost use Rattle.std.specs.Prelude.{◌≡◌, ◌<◌, ◌++◌, flat_map, OnOk};
ghost use Rattle.rtk_survey.specs.Counting.{count_of};
ghost use Rattle.rtk_message.specs.declared.system.System.TheVariants.{Gps};
ghost use Rattle.rtk_plan.specs.SatelliteMarks.{marked_count};
ghost use Rattle.rtk_plan.specs.WrittenFile as spec;

use crate::satellite_marks::SatelliteMarks;
use arrayvec::ArrayVec;
use memchr::memchr;
use rtk_captures::put_time;
use rtk_message::{System, put_named};
use rtk_obs::{Civil, GpsMs, of_civil};
use std::alloc::{AllocError, Global};
use std::collections::BTreeMap;

/// The columns of a line of the header, which are looked at.
const HEADER_COLUMNS: usize = 80;

/// The columns of an epoch line with its time.
const TIME_COLUMNS: usize = 29;

/// How many gaps are listed.
const MOST_GAPS: usize = 10;

/// A step of so many ms is no gap.
const GREATEST_STEP_MS: u64 = 60_000;

/// The columns of a position of which nothing is known.
const NO_POSITION: &[u8] = b"        0.0000        0.0000        0.0000";

/// What looks at a text that passes in parts.
pub trait TakesText {
    /// The next part of the text.
    fn take(&mut self, text: &[u8]) -> Result<(), AllocError>;
}

/// A step between two records.
#[derive(Clone, Copy, Debug, PartialEq, Eq)]
pub struct Step {
    pub from: GpsMs,
    pub until: GpsMs,
}

impl Step {
    fn ms(&self) -> u64
        ensures { result ≡ spec.step_ms self.now }
    {
        self.until.ms().saturating_sub(self.from.ms())
    }
}

/// What a file has so far.
#[derive(Drop)]
pub struct WrittenFile {
    // The first columns of a line that goes on.
    line: ArrayVec<u8, HEADER_COLUMNS>,
    is_body: bool,
    has_position: bool,
    satellites: SatelliteMarks,
    first: Option<GpsMs>,
    last: Option<GpsMs>,
    // How often each step came, in ms.
    steps: BTreeMap<u64, u64>,
    // The longest steps, the longest first.
    longest: Vec<Step>,
}

fn byte_at(line: &[u8], place: usize) -> u8 {
    line.get(place).copied().unwrap_or(b'0')
}

// The number of two digits; a blank counts as 0.
fn two_digits(line: &[u8], place: usize) -> u8
    requires { place < 100 }
    ensures { result < 100 }
{
    let tens = byte_at(line, place).wrapping_sub(b'0') % 10;
    let ones = byte_at(line, place + 1).wrapping_sub(b'0') % 10;
    10 * tens + ones
}

// The moment of an epoch line, as in `> 2024 05 17 12 00 30.0000000`.
fn moment_in(line: &[u8]) -> Option<GpsMs> {
    let hundreds = u16::from(byte_at(line, 22).wrapping_sub(b'0') % 10);
    of_civil(Civil {
        year: 100 * u16::from(two_digits(line, 2)) + u16::from(two_digits(line, 4)),
        month: two_digits(line, 7),
        day: two_digits(line, 10),
        hour: two_digits(line, 13),
        minute: two_digits(line, 16),
        second: two_digits(line, 19),
        millisecond: 100 * hundreds + u16::from(two_digits(line, 23)),
    })
}

fn has_label(line: &[u8], label: &[u8]) -> bool {
    let columns = line.len().min(60);
    line[columns..].starts_with(label)
}

// Adds a step among the longest, the longest first, and keeps ten.
fn put_step(longest: &mut Vec<Step>, step: Step) -> Result<(), AllocError> {
    let place = match longest.iter().position(|other| other.ms() < step.ms()) {
        Some(place) => place,
        None => longest.len(),
    };
    longest.insert(place, step)?;
    longest.truncate(MOST_GAPS);
    Ok(())
}

impl WrittenFile {
    /// Nothing was written.
    pub fn new(alloc: Global) -> WrittenFile {
        WrittenFile {
            line: ArrayVec::new(),
            is_body: false,
            has_position: false,
            satellites: SatelliteMarks::new(),
            first: None,
            last: None,
            steps: BTreeMap::new(alloc),
            longest: Vec::new(alloc),
        }
    }

    fn take_step(&mut self, step: Step) -> Result<(), AllocError> {
        let count = self.steps.entry(step.ms())?.or_insert(0);
        *count = count.saturating_add(1);
        put_step(&mut self.longest, step)
    }

    fn take_epoch(&mut self, epoch: GpsMs) -> Result<(), AllocError> {
        if let Some(last) = self.last {
            self.take_step(Step {
                from: last,
                until: epoch,
            })?;
        }
        self.first = Some(self.first.unwrap_or(epoch));
        self.last = Some(epoch);
        Ok(())
    }

    fn take_header_line(&mut self) {
        let line = self.line.as_slice();
        let is_end = has_label(line, b"END OF HEADER");
        let is_position = has_label(line, b"APPROX POSITION XYZ");
        let is_known = is_position && !line.starts_with(NO_POSITION);
        self.is_body = is_end;
        self.has_position = self.has_position || is_known;
    }

    fn take_record_line(&mut self) -> Result<(), AllocError> {
        let first = self.line.first().copied();
        if first == Some(b'>') {
            let Some(epoch) = moment_in(self.line.as_slice()) else {
                return Ok(());
            };
            return self.take_epoch(epoch);
        }
        if let Some(letter) = first {
            let satellite = two_digits(self.line.as_slice(), 1);
            self.satellites.mark(letter, satellite);
        }
        Ok(())
    }

    // The line ends.
    fn take_line(&mut self) -> Result<(), AllocError> {
        if self.is_body {
            self.take_record_line()?;
        } else {
            self.take_header_line();
        }
        self.line.clear();
        Ok(())
    }

    // More of the line, of which the first columns are kept.
    fn take_part(&mut self, part: &[u8]) {
        let most = if self.is_body {
            TIME_COLUMNS
        } else {
            HEADER_COLUMNS
        };
        let room = most.saturating_sub(self.line.len());
        let count = part.len().min(room);
        let _kept = self.line.try_extend_from_slice(&part[..count]);
    }

    /// Has the header a position?
    pub fn has_position(&self) -> bool
        ensures { result ≡ self.now.has_position }
    {
        self.has_position
    }

    /// The first and the last epoch.
    pub fn span(&self) -> Option<Step>
        ensures { result ≡ spec.written_span self.now }
    {
        Some(Step {
            from: self.first?,
            until: self.last?,
        })
    }

    /// How many satellites of a system it has.
    pub fn satellites_of(&self, system: System) -> usize
        ensures { result ≡ marked_count self.now.satellites system }
    {
        self.satellites.count(system)
    }

    /// How many satellites of GPS it has.
    pub fn satellites(&self) -> usize
        ensures { result ≡ marked_count self.now.satellites Gps }
    {
        self.satellites_of(System::Gps)
    }

    // The most frequent step in ms, the lesser of two alike; 0 without one.
    fn interval_ms(&self) -> u64
        ensures { result ≡ spec.interval_ms self.now }
    {
        let (mut interval, mut most) = (0, 0);
        for (step, count) in &self.steps {
            if most < *count {
                interval = *step;
                most = *count;
            }
        }
        interval
    }

    // A step is a gap if it is longer.
    fn greatest_step_ms(&self) -> u64
        ensures { result ≡ spec.greatest_step_ms self.now }
    {
        GREATEST_STEP_MS.max(self.interval_ms().saturating_mul(10))
    }

    // How many steps are longer than this.
    fn gap_count(&self, greatest: u64) -> u64
        ensures { result ≡ spec.gap_count greatest self.now.steps.entries }
    {
        let mut gaps = 0u64;
        for (step, count) in &self.steps {
            gaps = gaps.saturating_add(count_if_longer(greatest, *step, *count));
        }
        gaps
    }

    /// Appends a line for each of the ten longest gaps, and how many more there are.
    pub fn put_gaps(&self, lines: &mut Vec<u8>) -> Result<(), AllocError>
        ensures { OnOk result (lines.new.items ≡ lines.old.items ++ spec.gap_lines self.now) }
    {
        let greatest = self.greatest_step_ms();
        let longest = self.longest.as_slice();
        put_listed_gaps(lines, longest, greatest)?;
        let listed = listed_gaps(longest, greatest);
        put_more_gaps(lines, self.gap_count(greatest).saturating_sub(listed))
    }
}

fn count_if_longer(greatest: u64, step: u64, count: u64) -> u64
    ensures { result ≡ spec.count_if_longer greatest step count }
{
    if greatest < step { count } else { 0 }
}

// Appends the line of a gap.
fn put_gap(lines: &mut Vec<u8>, gap: &Step) -> Result<(), AllocError>
    ensures { OnOk result (lines.new.items ≡ lines.old.items ++ spec.written_gap_line gap.now) }
{
    lines.extend_from_slice(b" gap ")?;
    put_time(lines, gap.from)?;
    lines.extend_from_slice(b" until ")?;
    put_time(lines, gap.until)?;
    lines.extend_from_slice(b"\n")
}

// Appends the line of a step, if it is longer than this.
fn put_gap_if(lines: &mut Vec<u8>, step: &Step, greatest: u64) -> Result<(), AllocError>
    ensures { OnOk result (lines.new.items ≡ lines.old.items ++ spec.written_gap_line_if greatest step.now) }
{
    if greatest < step.ms() {
        put_gap(lines, step)
    } else {
        Ok(())
    }
}

// Appends the lines of those steps that are longer than this.
fn put_listed_gaps(lines: &mut Vec<u8>, longest: &[Step], greatest: u64) -> Result<(), AllocError>
    ensures { OnOk result (lines.new.items ≡ lines.old.items ++ flat_map (spec.written_gap_line_if greatest) longest.now) }
{
    for step in longest {
        put_gap_if(lines, step, greatest)?;
    }
    Ok(())
}

// How many steps are longer than this.
fn listed_gaps(longest: &[Step], greatest: u64) -> u64
    ensures { result ≡ count_of (spec.is_gap greatest) longest.now }
{
    let mut count = 0u64;
    for step in longest {
        count = count.saturating_add(u64::from(greatest < step.ms()));
    }
    count
}

// Appends how many gaps have no line, if some have none.
fn put_more_gaps(lines: &mut Vec<u8>, more: u64) -> Result<(), AllocError>
    ensures { OnOk result (lines.new.items ≡ lines.old.items ++ spec.more_gaps_line more) }
{
    if more == 0 {
        return Ok(());
    }
    put_named(lines, b" more-gaps ", more)?;
    lines.extend_from_slice(b"\n")
}

impl TakesText for WrittenFile {
    fn take(&mut self, text: &[u8]) -> Result<(), AllocError> {
        let mut rest = text;
        for _line in 0..text.len() {
            let Some(end) = memchr(b'\n', rest) else {
                break;
            };
            let (line, more) = rest.split_at(end);
            self.take_part(line);
            self.take_line()?;
            rest = more.split_at(more.len().min(1)).1;
        }
        self.take_part(rest);
        Ok(())
    }
}
