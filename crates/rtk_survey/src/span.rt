//! The epochs of a station in a capture, before its date is known.

ghost use Rattle.std.specs.Prelude.{◌≡◌, Some, None, max, min, if◌then◌else◌};
ghost use Rattle.rtk_survey.specs.Epochs as spec;
ghost use Rattle.rtk_survey.specs.Epochs.{begun, is_followed, with_time, with_moment, last_time_of_week};

use crate::telling::dated_ms;
use rtk_obs::{GpsMs, WEEK_MS};

/// The week in which the first epoch of a capture is set before its date is known.
const UNDATED_WEEK: u64 = 1024;

/// The epochs of a station in a capture, each dated near the one before it, and the first as if it
/// were in week 1,024.
#[derive(Clone, Copy, Debug, PartialEq, Eq)]
pub struct Span {
    pub first: GpsMs,
    pub last: GpsMs,
    pub least: GpsMs,
    pub greatest: GpsMs,
    /// The greatest epoch but one; `None` if there is one epoch alone.
    pub next_greatest: Option<GpsMs>,
    /// Some epoch is before the one that came before it.
    pub falls: bool,
    /// Some epoch is more than a week from the first. Such epochs are left out.
    pub is_wide: bool,
}

fn lesser(a: GpsMs, b: GpsMs) -> GpsMs
    ensures { result ≡ min a b }
{
    if a.ms() <= b.ms() { a } else { b }
}

fn greater(a: GpsMs, b: GpsMs) -> GpsMs
    ensures { result ≡ max a b }
{
    if a.ms() <= b.ms() { b } else { a }
}

// The greatest of two moments, if there are two.
fn greater_if_any(known: Option<GpsMs>, moment: GpsMs) -> GpsMs
    ensures { result ≡ spec.greater_if_any known moment }
{
    match known {
        Some(known) => greater(known, moment),
        None => moment,
    }
}

// The greatest moment but one, after one more than these.
fn next_greatest(known: Option<GpsMs>, greatest: GpsMs, moment: GpsMs) -> Option<GpsMs>
    ensures { result ≡ spec.next_greatest known greatest moment }
{
    if greatest.ms() < moment.ms() {
        return Some(greatest);
    }
    if moment.ms() < greatest.ms() {
        return Some(greater_if_any(known, moment));
    }
    known
}

/// The moment, if it is at most a week from the first.
pub(crate) fn followed(first: GpsMs, ms: u64) -> Option<GpsMs>
    ensures { result ≡ (if is_followed first ms then Some ms else None) }
{
    let moment = GpsMs::new(ms)?;
    if ms <= first.ms() + WEEK_MS && first.ms() <= ms + WEEK_MS {
        Some(moment)
    } else {
        None
    }
}

impl Span {
    /// The first epoch of a capture, by its time of week (DF004, in ms).
    pub fn begun(tow: u32) -> Span
        ensures { result ≡ begun tow }
    {
        let Some(first) = GpsMs::new(UNDATED_WEEK * WEEK_MS + u64::from(tow)) else {
            unreachable!();
        };
        Span {
            first,
            last: first,
            least: first,
            greatest: first,
            next_greatest: None,
            falls: false,
            is_wide: false,
        }
    }

    /// An epoch more, at this moment.
    pub(crate) fn take_moment(&mut self, moment: GpsMs)
        ensures { self.new ≡ with_moment self.old moment }
    {
        self.least = lesser(self.least, moment);
        self.next_greatest = next_greatest(self.next_greatest, self.greatest, moment);
        self.greatest = greater(self.greatest, moment);
        self.falls = self.falls || moment.ms() < self.last.ms();
        self.last = moment;
    }

    /// An epoch more, by its time of week (DF004, in ms).
    pub fn take(&mut self, tow: u32)
        ensures { self.new ≡ with_time self.old tow }
    {
        match followed(self.first, dated_ms(self.last.ms(), tow)) {
            Some(moment) => self.take_moment(moment),
            None => self.is_wide = true,
        }
    }

    /// The time of week of the last epoch, in ms.
    pub fn last_time_of_week(&self) -> u32
        ensures { result ≡ last_time_of_week self.now }
    {
        (self.last.ms() % WEEK_MS) as u32
    }
}
