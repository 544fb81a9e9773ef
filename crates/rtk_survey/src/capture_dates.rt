//! The epochs of a station in a capture, and what the capture tells of the first of them.

ghost use Rattle.std.specs.Prelude.{◌≡◌};
ghost use Rattle.rtk_survey.specs.CaptureDates.{no_dates, with_tellings, with_waiting_date, with_waiting_week, with_waiting, with_epoch_time, with_date, first_by_own, with_own_moments, earlier_told, earliest_telling, own_moment_of};

use crate::date_message::DateMessage;
use crate::span::Span;
use crate::tellings::{Tellings, Told, first_epoch_told};
use arrayvec::ArrayVec;
use rtk_obs::GpsMs;

/// How many messages wait for the first epoch. Others are passed over.
const MOST_WAITING: usize = 64;

/// How many 1042, 1045 and 1046 wait for it beside them, so that they take the place of none.
const MOST_WAITING_WEEKS: usize = 16;

/// The epochs of a station in a capture, and the first epochs that its messages tell. It has some 3 kB
/// and asks for no memory.
#[derive(Clone, Drop)]
pub struct CaptureDates {
    /// The epochs of the station; `None` if there is none.
    pub span: Option<Span>,
    /// The 1013, 1029 and 1019 that came before the first epoch: the first 64 of them.
    pub waiting: ArrayVec<DateMessage, MOST_WAITING>,
    /// The 1042, 1045 and 1046 that came before the first epoch: the first 16 of them.
    pub waiting_weeks: ArrayVec<DateMessage, MOST_WAITING_WEEKS>,
    /// What messages told of the first epoch.
    pub told: Tellings,
}

// What messages tell, in their order.
fn take_all(told: &mut Tellings, now: GpsMs, station: u16, span: &Span, messages: &[DateMessage])
    ensures { told.new ≡ with_tellings now station span.now messages.now told.old }
{
    for message in messages {
        told.take(now, station, span, message);
    }
}

// The moments that messages name, in their order.
fn take_own_moments(named: &mut Tellings, now: GpsMs, station: u16, messages: &[DateMessage])
    ensures { named.new ≡ with_own_moments now station messages.now named.old }
{
    for message in messages {
        named.take_own_moment(now, station, message);
    }
}

fn earlier_told(known: Option<Told>, told: Told) -> Option<Told>
    ensures { result ≡ earlier_told known told }
{
    match known {
        Some(known) if known.first <= told.first => Some(known),
        _ => Some(told),
    }
}

fn earliest_telling(named: &[Told]) -> Option<Told>
    ensures { result ≡ earliest_telling named.now }
{
    let mut earliest = None;
    for told in named {
        earliest = earlier_told(earliest, *told);
    }
    earliest
}

impl CaptureDates {
    /// Nothing came.
    pub fn new() -> CaptureDates
        ensures { result ≡ no_dates }
    {
        CaptureDates {
            span: None,
            waiting: ArrayVec::new(),
            waiting_weeks: ArrayVec::new(),
            told: Tellings::new(),
        }
    }

    // A 1013, 1029 or 1019 more before the first epoch.
    fn wait_with_date(&mut self, message: DateMessage)
        ensures { self.new ≡ with_waiting_date self.old message }
    {
        if self.waiting.len() < MOST_WAITING {
            self.waiting.push(message);
        }
    }

    // A 1042, 1045 or 1046 more before the first epoch.
    fn wait_with_week(&mut self, message: DateMessage)
        ensures { self.new ≡ with_waiting_week self.old message }
    {
        if self.waiting_weeks.len() < MOST_WAITING_WEEKS {
            self.waiting_weeks.push(message);
        }
    }

    /// A message more that has a date, before the first epoch, as long as no station is known.
    pub fn wait(&mut self, message: DateMessage)
        ensures { self.new ≡ with_waiting self.old message }
    {
        match message {
            DateMessage::Utc(_) | DateMessage::Ephemeris(_) => self.wait_with_date(message),
            DateMessage::OtherEphemeris(_) => self.wait_with_week(message),
        }
    }

    /// An epoch more of this station, by its time of week (DF004, in ms).
    pub fn take_epoch(&mut self, now: GpsMs, station: u16, tow: u32)
        ensures { self.new ≡ with_epoch_time now station self.old tow }
    {
        if let Some(span) = &mut self.span {
            span.take(tow);
            self.told.take_epoch(now, tow);
            return;
        }
        let span = Span::begun(tow);
        take_all(&mut self.told, now, station, &span, self.waiting.as_slice());
        take_all(
            &mut self.told,
            now,
            station,
            &span,
            self.waiting_weeks.as_slice(),
        );
        self.waiting.clear();
        self.waiting_weeks.clear();
        self.span = Some(span);
    }

    /// A message more that has a date. Before the first epoch of the station it waits.
    pub fn take_date(&mut self, now: GpsMs, station: u16, message: DateMessage)
        ensures { self.new ≡ with_date now station self.old message }
    {
        match &self.span {
            None => self.wait(message),
            Some(span) => self.told.take_behind(now, station, span, &message),
        }
    }

    /// The moment that a message names, if no epoch came: the earliest of those that count, as of first epochs.
    pub fn own_moment(&self, now: GpsMs, station: u16) -> Option<Told>
        ensures { result ≡ own_moment_of now station self.now }
    {
        if self.span.is_some() {
            return None;
        }
        let mut named = Tellings::new();
        take_own_moments(&mut named, now, station, self.waiting.as_slice());
        take_own_moments(&mut named, now, station, self.waiting_weeks.as_slice());
        earliest_telling(named.counting())
    }

    /// The first epoch that a message tells, if it is a 1013 or a 1029 of this station and an epoch came.
    pub(crate) fn first_by_own(
        &self,
        now: GpsMs,
        station: u16,
        message: &DateMessage,
    ) -> Option<u64>
        ensures { result ≡ first_by_own now station self.now message.now }
    {
        let span = self.span?;
        match message {
            DateMessage::Utc(date) if date.station == station => {
                first_epoch_told(now, &span, message)
            }
            _ => None,
        }
    }
}
