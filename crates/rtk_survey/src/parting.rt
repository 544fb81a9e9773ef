//! Where a capture begins anew: its 1013 and 1029 of the station tell one date, and then a second one.

ghost use Rattle.std.specs.Prelude.{◌≡◌};
ghost use Rattle.rtk_survey.specs.Parting as spec;

use crate::capture_dates::CaptureDates;
use crate::clock_chains::{ClockTold, clock_of, differs_in_time, more_follow};
use crate::date_message::DateMessage;
use crate::span::Span;
use crate::telling::DAY_MS;
use crate::tellings::Told;
use rtk_message::AnyMessage;
use rtk_obs::GpsMs;

/// A longer step between epochs, or one back, may be where a capture begins anew.
const LONGEST_STEP_MS: u64 = 60_000;

/// A step between two epochs of a capture, one after another, that goes back or is longer than 60 s.
#[derive(Clone, Copy, Debug, PartialEq, Eq)]
pub struct EpochStep {
    /// How long it is, forward or back.
    pub ms: u64,
    /// How many frames came before the first message of the epoch behind it.
    pub frame: u64,
}

/// The first message of a chain, which ends with a message whose multiple-message bit is 0.
#[derive(Clone, Copy, Debug, PartialEq, Eq)]
pub struct ChainStart {
    pub clock: ClockTold,
    /// How many frames came before it.
    pub frame: u64,
}

/// Where a second date begins. Frames are counted from the beginning of the capture.
#[derive(Clone, Copy, Debug, PartialEq, Eq)]
pub struct Parting {
    /// The first message of the chain of the station that has not ended, if an epoch came before it.
    pub start: Option<ChainStart>,
    /// The greatest such step since the last message of the first date; of several the last one.
    pub step: Option<EpochStep>,
    /// How many frames came before the first message of the second date.
    pub second: Option<u64>,
    /// An epoch came after that message.
    pub is_known: bool,
}

// How far two moments are apart.
fn apart_ms(a: GpsMs, b: GpsMs) -> u64
    ensures { result ≡ spec.apart_ms a b }
{
    a.ms().saturating_sub(b.ms()) + b.ms().saturating_sub(a.ms())
}

fn is_time_break(before: GpsMs, after: GpsMs) -> bool
    ensures { result ≡ spec.is_time_break before after }
{
    after.ms() < before.ms() || before.ms() + LONGEST_STEP_MS < after.ms()
}

fn greater_step(step: Option<EpochStep>, more: EpochStep) -> EpochStep
    ensures { result ≡ spec.greater_step step more }
{
    match step {
        Some(step) if more.ms < step.ms => step,
        _ => more,
    }
}

// The greatest of some steps, and of one more if that goes back or is long.
fn step_with(step: Option<EpochStep>, before: GpsMs, after: GpsMs, frame: u64) -> Option<EpochStep>
    ensures { result ≡ spec.step_with step before after frame }
{
    if is_time_break(before, after) {
        let ms = apart_ms(before, after);
        Some(greater_step(step, EpochStep { ms, frame }))
    } else {
        step
    }
}

// Are two times at most 60 s apart in the day? Times of GLONASS lack the leap seconds.
fn is_within_minute(time: u32, other: u32) -> bool
    ensures { result ≡ spec.is_within_minute time other }
{
    let (time, other) = (u64::from(time) % DAY_MS, u64::from(other) % DAY_MS);
    (time + (DAY_MS + LONGEST_STEP_MS)).saturating_sub(other) % DAY_MS <= 2 * LONGEST_STEP_MS
}

// Does a message stand in the chain that begins so? If a chain has no end, it can be of the session before.
fn is_in_chain(start: ChainStart, clock: ClockTold) -> bool
    ensures { result ≡ spec.is_in_chain start clock }
{
    is_within_minute(start.clock.time, clock.time) && !differs_in_time(start.clock, clock)
}

fn start_of_chain(start: Option<ChainStart>, message: ChainStart) -> ChainStart
    ensures { result ≡ spec.start_of_chain start message }
{
    match start {
        Some(start) if is_in_chain(start, message.clock) => start,
        _ => message,
    }
}

fn start_behind(more: bool, start: ChainStart) -> Option<ChainStart>
    ensures { result ≡ spec.start_behind more start }
{
    if more { Some(start) } else { None }
}

// The clock of a message, if it is of the station that is known.
fn own_clock(station: Option<u16>, message: &AnyMessage) -> Option<ClockTold>
    ensures { result ≡ spec.own_clock station message.now }
{
    match station {
        Some(station) if station == message.station() => clock_of(message),
        _ => None,
    }
}

impl Parting {
    /// Nothing came.
    pub(crate) fn new() -> Parting
        ensures { result ≡ spec.no_parting }
    {
        Parting {
            start: None,
            step: None,
            second: None,
            is_known: false,
        }
    }

    // The next epoch, after the last one.
    fn take_step(&mut self, before: GpsMs, after: GpsMs, frame: u64)
        ensures { self.new ≡ spec.with_step before after frame self.old }
    {
        if before.ms() == after.ms() || self.is_known {
            return;
        }
        self.step = step_with(self.step, before, after, frame);
        self.is_known = self.second.is_some();
    }

    // A message more: before it and after it these are the epochs.
    fn take_epochs(&mut self, before: Option<Span>, after: Option<Span>, frame: u64)
        ensures { self.new ≡ spec.with_epochs before after frame self.old }
    {
        if let (Some(before), Some(after)) = (before, after) {
            self.take_step(before.last, after.last, frame);
        }
    }

    /// A message more, after this station is known: before it and after it these are the epochs.
    pub(crate) fn take_message_of(
        &mut self,
        station: Option<u16>,
        message: &AnyMessage,
        before: Option<Span>,
        after: Option<Span>,
        frame: u64,
    )
        ensures { self.new ≡ spec.parting_with_message station message.now before after frame self.old }
    {
        let (Some(_), Some(clock)) = (before, own_clock(station, message)) else {
            return;
        };
        let start = start_of_chain(self.start, ChainStart { clock, frame });
        self.start = start_behind(more_follow(message), start);
        self.take_epochs(before, after, start.frame);
    }

    // A 1013 or a 1029 of the station: it tells the first date, or another one.
    fn take_own(&mut self, is_first: bool, frame: u64)
        ensures { self.new ≡ spec.with_own is_first frame self.old }
    {
        if self.second.is_some() {
            return;
        }
        if is_first {
            self.step = None;
        } else {
            self.second = Some(frame);
        }
    }

    // A 1013 or a 1029 of the station that tells this first epoch, after others. If two dates were told before an
    // epoch came, no place parts the capture.
    fn take_told(&mut self, own: &[Told], first: u64, frame: u64)
        ensures { self.new ≡ spec.parting_with_told own.now first frame self.old }
    {
        match own {
            [] => self.take_own(true, frame),
            [told] => self.take_own(told.first == first, frame),
            _ => {}
        }
    }

    /// A message more, if it has a date, of a capture that is of this station, if one is known.
    pub(crate) fn take_date(
        &mut self,
        now: GpsMs,
        station: Option<u16>,
        capture: &CaptureDates,
        message: Option<DateMessage>,
        frame: u64,
    )
        ensures { self.new ≡ spec.parting_with_date now station capture.now message frame self.old }
    {
        let (Some(station), Some(message)) = (station, message) else {
            return;
        };
        if let Some(first) = capture.first_by_own(now, station, &message) {
            self.take_told(capture.told.own.as_slice(), first, frame);
        }
    }

    /// How many frames come before the place at which the capture is parted: at the first message of the second
    /// date, or at the first message of an epoch before it where the time goes back or steps by more than 60 s, if the epoch after the
    /// message does not step further.
    pub fn frame(&self) -> Option<u64>
        ensures { result ≡ spec.parted_frame self.now }
    {
        let second = self.second?;
        match self.step {
            Some(step) => Some(step.frame.min(second)),
            None => Some(second),
        }
    }
}
