//! How far a clock of GLONASS or BeiDou goes in a capture.
//!
//! It gives no epoch. It is followed near the epochs, so that it is known when its messages are more than a conversion can
//! date. As long as no epoch came, the dates that the station names take their place.

ghost use Rattle.std.specs.Prelude.{◌≡◌, ◌<◌, ◌^◌};
ghost use Rattle.rtk_survey.specs.BesideGps.{cells_beside_gps};
ghost use Rattle.rtk_survey.specs.ClockSpans as spec;

use crate::beside_gps::told_time;
use crate::clock_chains::tells_day;
use crate::clock_marks::{ClockMarks, opened_moment};
use crate::span::{Span, followed};
use crate::system_msm::gives_value;
use crate::telling::{DAY_MS, HALF_DAY_MS, dated};
use rtk_message::{AnyMessage, System};
use rtk_obs::{GpsMs, LAST_MS, SignalEntry, WEEK_MS};

/// A clock that is followed.
#[derive(Clone, Copy, Debug, PartialEq, Eq)]
pub enum FollowedClock {
    /// That of MSM of GLONASS, which tells the day of the week.
    GlonassWeek,
    /// That of MSM of BeiDou.
    BeidouWeek,
    /// That of 1012, which tell no day, and of MSM of GLONASS whose day is unknown, which count as 1012.
    GlonassDay,
}

/// The time that such a clock tells, in ms (`told_time`).
#[derive(Clone, Copy, Debug, PartialEq, Eq)]
pub struct FollowedTime {
    pub clock: FollowedClock,
    pub time: u32,
}

/// A `FollowedSpan` in plain numbers: the fields of its `Span`, in ms. A survey keeps one of each clock of a station.
#[derive(Clone, Copy, Debug, PartialEq, Eq)]
pub struct ClockSpan {
    pub first: u64,
    pub last: u64,
    pub least: u64,
    pub greatest: u64,
    pub next_greatest: Option<u64>,
    pub falls: bool,
    pub is_wide: bool,
    /// The last epoch or date before the last of its messages; `None` if none came.
    pub mark: Option<u64>,
    /// It is a date.
    pub by_dates: bool,
    /// The last MSM of GLONASS, if it came behind the last of these 1012.
    pub beside: Option<u64>,
    /// An MSM of GLONASS tells the day of these 1012.
    pub has_day: bool,
}

/// How far a clock goes.
#[derive(Clone, Copy, Debug, PartialEq, Eq)]
pub struct FollowedSpan {
    /// Its moments, as if the first epoch were in week 1,024, or by dates. Those of GLONASS lack the leap seconds.
    pub span: Span,
    /// The last epoch or date before the last of its messages; `None` if none came. Then nothing dates the moments.
    pub mark: Option<GpsMs>,
    /// It is a date, and so are the moments.
    pub by_dates: bool,
    /// The last MSM of GLONASS, if it came behind the last of these 1012. It is the last message then.
    pub beside: Option<GpsMs>,
    /// An MSM of GLONASS tells the day of these 1012, so that it is known where in a week they stand.
    pub has_day: bool,
}

// ---- the clock of a message

fn clock_of_glonass(clock: u32) -> FollowedClock
    ensures { result ≡ spec.clock_of_glonass clock }
{
    if tells_day(System::Glonass, clock) {
        FollowedClock::GlonassWeek
    } else {
        FollowedClock::GlonassDay
    }
}

fn followed_by(system: System, clock: u32) -> Option<FollowedTime>
    ensures { result ≡ spec.followed_by system clock }
{
    match system {
        System::Glonass => Some(FollowedTime {
            clock: clock_of_glonass(clock),
            time: told_time(system, clock),
        }),
        System::Beidou => Some(FollowedTime {
            clock: FollowedClock::BeidouWeek,
            time: told_time(system, clock),
        }),
        System::Gps | System::Galileo | System::Qzss | System::Sbas | System::Navic => None,
    }
}

fn followed_time(message: &AnyMessage) -> Option<FollowedTime>
    ensures { result ≡ spec.followed_time message.now }
{
    match message {
        AnyMessage::Message(_) => None,
        AnyMessage::Msm(message) => followed_by(message.system, message.header.tow),
        AnyMessage::Obs1012(message) => Some(FollowedTime {
            clock: FollowedClock::GlonassDay,
            time: told_time(System::Glonass, message.clock()),
        }),
    }
}

/// The time of a clock that a message tells, if it has a value.
pub(crate) fn followed_with_value(
    message: &AnyMessage,
    signals: &[SignalEntry],
) -> Option<FollowedTime>
    requires { signals.now ≡ cells_beside_gps message.now }
    ensures { result ≡ spec.followed_with_value message.now }
{
    let told = followed_time(message)?;
    if gives_value(message, signals) {
        Some(told)
    } else {
        None
    }
}

// ---- moments

// The moment with this time of day nearest to another moment; of two alike the earlier.
fn dated_in_day(at: GpsMs, time: u32) -> u64
    ensures value { result ≡ spec.dated_in_day at time }
    ensures bound { result < 2 ^ 61 }
{
    let from = at.ms().saturating_sub(HALF_DAY_MS);
    from + (u64::from(time) % DAY_MS + DAY_MS - from % DAY_MS) % DAY_MS
}

/// The moment nearest to another one at which a clock tells this time.
pub fn clock_moment(clock: FollowedClock, at: GpsMs, time: u32) -> u64
    ensures value { result ≡ spec.clock_moment clock at time }
    ensures bound { result < 2 ^ 61 }
{
    match clock {
        FollowedClock::GlonassWeek | FollowedClock::BeidouWeek => dated(at, time),
        FollowedClock::GlonassDay => dated_in_day(at, time),
    }
}

/// The clock that dates moments again: that of MSM of GLONASS, if one tells the day of a time of day.
pub fn redating_clock(clock: FollowedClock, has_day: bool) -> FollowedClock
    ensures { result ≡ spec.redating_clock clock has_day }
{
    if has_day {
        FollowedClock::GlonassWeek
    } else {
        clock
    }
}

/// The moment, if it can be written; else another one.
pub(crate) fn moment_or(ms: u64, other: GpsMs) -> GpsMs
    ensures { result ≡ spec.moment_or ms other }
{
    match GpsMs::new(ms) {
        Some(moment) => moment,
        None => other,
    }
}

/// One message alone.
pub(crate) fn span_at(moment: GpsMs) -> Span
    ensures { result ≡ spec.span_at moment }
{
    Span {
        first: moment,
        last: moment,
        least: moment,
        greatest: moment,
        next_greatest: None,
        falls: false,
        is_wide: false,
    }
}

// A moment as far from the second of two moments as it was from the first.
fn moved_moment(from: GpsMs, to: u64, moment: GpsMs) -> GpsMs
    requires { to < 2 ^ 61 }
    ensures { result ≡ spec.moved_moment from to moment }
{
    let ms = (moment.ms() + to).saturating_sub(from.ms()).min(LAST_MS);
    let Some(moved) = GpsMs::new(ms) else {
        unreachable!();
    };
    moved
}

fn moved_moment_if_any(from: GpsMs, to: u64, moment: Option<GpsMs>) -> Option<GpsMs>
    requires { to < 2 ^ 61 }
    ensures { result ≡ spec.moved_moment_if_any from to moment }
{
    match moment {
        Some(moment) => Some(moved_moment(from, to, moment)),
        None => None,
    }
}

fn moved_span(from: GpsMs, to: u64, span: &Span) -> Span
    requires { to < 2 ^ 61 }
    ensures { result ≡ spec.moved_span from to span.now }
{
    Span {
        first: moved_moment(from, to, span.first),
        last: moved_moment(from, to, span.last),
        least: moved_moment(from, to, span.least),
        greatest: moved_moment(from, to, span.greatest),
        next_greatest: moved_moment_if_any(from, to, span.next_greatest),
        falls: span.falls,
        is_wide: span.is_wide,
    }
}

// ---- one clock

/// A moment that is kept as a number, if there is one.
pub(crate) fn opened_if_any(ms: Option<u64>) -> Option<GpsMs>
    ensures { result ≡ spec.opened_if_any ms }
{
    match ms {
        Some(ms) => Some(opened_moment(ms)),
        None => None,
    }
}

fn kept_if_any(moment: Option<GpsMs>) -> Option<u64>
    ensures { result ≡ moment }
{
    match moment {
        Some(moment) => Some(moment.ms()),
        None => None,
    }
}

impl ClockSpan {
    /// How far the clock goes.
    pub fn opened(&self) -> FollowedSpan
        ensures { result ≡ spec.opened_span self.now }
    {
        FollowedSpan {
            span: Span {
                first: opened_moment(self.first),
                last: opened_moment(self.last),
                least: opened_moment(self.least),
                greatest: opened_moment(self.greatest),
                next_greatest: opened_if_any(self.next_greatest),
                falls: self.falls,
                is_wide: self.is_wide,
            },
            mark: opened_if_any(self.mark),
            by_dates: self.by_dates,
            beside: opened_if_any(self.beside),
            has_day: self.has_day,
        }
    }
}

/// The first message of a clock, near the last epoch or date if one came.
pub(crate) fn clock_begun(
    clock: FollowedClock,
    marks: &Option<ClockMarks>,
    time: u32,
) -> FollowedSpan
    ensures { result ≡ spec.clock_begun clock marks.now time }
{
    match marks {
        None => FollowedSpan {
            span: Span::begun(time),
            mark: None,
            by_dates: false,
            beside: None,
            has_day: false,
        },
        Some(marks) => {
            let ms = clock_moment(clock, marks.last, time);
            FollowedSpan {
                span: span_at(moment_or(ms, marks.last)),
                mark: Some(marks.last),
                by_dates: marks.date.is_some(),
                beside: None,
                has_day: false,
            }
        }
    }
}

/// Is the last epoch or date not the one that was the last before?
pub(crate) fn is_new_mark(before: Option<GpsMs>, last: GpsMs) -> bool
    ensures { result ≡ spec.is_new_mark before last }
{
    match before {
        Some(before) => before.ms() != last.ms(),
        None => true,
    }
}

/// A moment more; one that is more than a week from the first is not followed.
pub(crate) fn with_moment_near(span: &Span, ms: u64) -> Span
    ensures { result ≡ spec.with_moment_near span.now ms }
{
    let mut more = *span;
    match followed(span.first, ms) {
        Some(moment) => more.take_moment(moment),
        None => more.is_wide = true,
    }
    more
}

/// The last epoch or date.
pub(crate) fn last_mark_of(marks: &Option<ClockMarks>) -> Option<GpsMs>
    ensures { result ≡ spec.last_mark_of marks.now }
{
    match marks {
        Some(marks) => Some(marks.last),
        None => None,
    }
}

/// Are they dates?
pub(crate) fn are_dates_if_any(marks: &Option<ClockMarks>) -> bool
    ensures { result ≡ spec.are_dates_if_any marks.now }
{
    match marks {
        Some(marks) => marks.date.is_some(),
        None => false,
    }
}

impl FollowedSpan {
    /// As a survey keeps it.
    pub(crate) fn kept(&self) -> ClockSpan
        ensures { result ≡ spec.kept_span self.now }
    {
        ClockSpan {
            first: self.span.first.ms(),
            last: self.span.last.ms(),
            least: self.span.least.ms(),
            greatest: self.span.greatest.ms(),
            next_greatest: kept_if_any(self.span.next_greatest),
            falls: self.span.falls,
            is_wide: self.span.is_wide,
            mark: kept_if_any(self.mark),
            by_dates: self.by_dates,
            beside: kept_if_any(self.beside),
            has_day: self.has_day,
        }
    }

    /// The last message: of 1012 it may be an MSM of GLONASS behind them.
    pub(crate) fn last_message(&self) -> GpsMs
        ensures { result ≡ spec.last_message self.now }
    {
        match self.beside {
            Some(moment) => moment,
            None => self.span.last,
        }
    }

    /// Do epochs date it, or dates, as here?
    pub(crate) fn is_marked_by(&self, marks: &ClockMarks) -> bool
        ensures { result ≡ spec.is_marked_by marks.now self.now }
    {
        let are_dates = marks.date.is_some();
        let is_alike = if self.by_dates { are_dates } else { !are_dates };
        self.mark.is_some() && is_alike
    }

    // The last message at this moment, and the others with it.
    fn moved_messages(&self, to: u64, by_dates: bool) -> FollowedSpan
        requires { to < 2 ^ 61 }
        ensures { result ≡ spec.moved_messages to by_dates self.now }
    {
        let from = self.last_message();
        FollowedSpan {
            span: moved_span(from, to, &self.span),
            mark: None,
            by_dates,
            beside: moved_moment_if_any(from, to, self.beside),
            has_day: self.has_day,
        }
    }

    // Where the last message is set near a moment behind it. Of moments by dates the day of the week is known, which counts if
    // the message does not come after this moment by it.
    fn last_moved(&self, clock: FollowedClock, near: GpsMs) -> u64
        ensures value { result ≡ spec.last_moved clock near self.now }
        ensures bound { result < 2 ^ 61 }
    {
        let time = (self.last_message().ms() % WEEK_MS) as u32;
        let moment = clock_moment(redating_clock(clock, self.has_day), near, time);
        if self.by_dates {
            moment.min(dated(near, time))
        } else {
            moment
        }
    }

    /// The last message near a moment, and the others with it. Moments by dates keep their day, however often they are moved.
    pub(crate) fn moved_near(
        &self,
        clock: FollowedClock,
        near: GpsMs,
        by_dates: bool,
    ) -> FollowedSpan
        ensures { result ≡ spec.moved_near clock near by_dates self.now }
    {
        self.moved_messages(self.last_moved(clock, near), by_dates || self.by_dates)
    }

    /// Its moments near the epochs of the station: if none came before its messages, the last of them is set near the
    /// first epoch, and the others with it. Dates take the place of epochs, and epochs that of dates. A 1012 that a date
    /// dated keeps its day of the week, if it does not come after the first epoch by it.
    pub fn anchored(&self, clock: FollowedClock, marks: &ClockMarks) -> FollowedSpan
        ensures { result ≡ spec.clock_anchored clock marks.now self.now }
    {
        if self.is_marked_by(marks) {
            return *self;
        }
        self.moved_near(clock, marks.first, marks.date.is_some())
    }

    /// The same, if some came.
    pub(crate) fn anchored_if_any(
        &self,
        clock: FollowedClock,
        marks: &Option<ClockMarks>,
    ) -> FollowedSpan
        ensures { result ≡ spec.clock_anchored_if_any clock marks.now self.now }
    {
        match marks {
            Some(marks) => self.anchored(clock, marks),
            None => *self,
        }
    }

    /// The moment near which the next message is dated: the last epoch or date if it is new, else the last message.
    pub(crate) fn base(&self, marks: &Option<ClockMarks>) -> GpsMs
        ensures { result ≡ spec.clock_base marks.now self.now }
    {
        match marks {
            Some(marks) if is_new_mark(self.mark, marks.last) => marks.last,
            _ => self.last_message(),
        }
    }

    // A message more after these epochs or dates.
    fn with_time(&self, clock: FollowedClock, marks: &Option<ClockMarks>, time: u32) -> FollowedSpan
        ensures { result ≡ spec.with_clock_time clock marks.now time self.now }
    {
        let ms = clock_moment(clock, self.base(marks), time);
        FollowedSpan {
            span: with_moment_near(&self.span, ms),
            mark: last_mark_of(marks),
            by_dates: are_dates_if_any(marks),
            beside: None,
            has_day: self.has_day,
        }
    }
}

/// A message more of a clock, of which some came.
pub(crate) fn clock_with(
    clock: FollowedClock,
    marks: &Option<ClockMarks>,
    known: &ClockSpan,
    time: u32,
) -> FollowedSpan
    ensures { result ≡ spec.clock_with clock marks.now known.now time }
{
    let opened = known.opened();
    let anchored = opened.anchored_if_any(clock, marks);
    anchored.with_time(clock, marks, time)
}

/// A message more of a clock, of which some came or none.
pub(crate) fn clock_followed(
    clock: FollowedClock,
    marks: &Option<ClockMarks>,
    known: &Option<ClockSpan>,
    time: u32,
) -> ClockSpan
    ensures { result ≡ spec.clock_followed clock marks.now known.now time }
{
    match known {
        Some(known) => clock_with(clock, marks, known, time).kept(),
        None => clock_begun(clock, marks, time).kept(),
    }
}
