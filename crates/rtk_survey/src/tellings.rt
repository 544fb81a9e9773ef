//! What the messages of a capture tell of its first epoch.

ghost use Rattle.std.specs.Prelude.{◌≡◌, ◌^◌, ◌<◌, Some};
ghost use Rattle.std.specs.List.{list_any};
ghost use Rattle.rtk_survey.specs.CaptureDates.{tells_same, is_reference, first_epoch_from, first_epoch_told, with_told, with_first, with_telling, with_telling_behind, with_epoch_behind, reference_named, with_own_moment, no_tellings, is_rolled_over, is_one_rolled_over, do_system_weeks_decide, counting};

use crate::date_message::DateMessage;
use crate::far_date::{FarDate, far_date, far_from_next, first_far_date, last_far_date};
use crate::span::Span;
use crate::telling::{own_moment, told};
use arrayvec::ArrayVec;
use rtk_obs::{GpsMs, HALF_WEEK_MS, WEEK_MS};

/// The last moment near which a conversion dates: 2099-12-31 23:59:59.999.
const LAST_REFERENCE_MS: u64 = 3_786_479_999_999;

/// The week of GPS begins anew after 1,024 weeks: DF076 has 10 bits.
const ROLLOVER_MS: u64 = 1024 * WEEK_MS;

/// How many first epochs that differ are kept.
const MOST_TOLD: usize = 16;

/// A first epoch, with the first message that told it.
#[derive(Clone, Copy, Debug, Default, PartialEq, Eq)]
pub struct Told {
    pub message: DateMessage,
    /// The moment of the first epoch, in ms since 1980-01-06 of GPS time: one near which a conversion
    /// dates.
    pub first: u64,
}

/// The first epochs that messages told: of each kind of message the first 16 that differ.
#[derive(Clone, Drop)]
pub struct Tellings {
    /// By 1013 and 1029 of the station.
    pub own: ArrayVec<Told, MOST_TOLD>,
    /// By 1019, which names no station.
    pub weeks: ArrayVec<Told, MOST_TOLD>,
    /// By 1042, 1045 and 1046, which name no station.
    pub system_weeks: ArrayVec<Told, MOST_TOLD>,
    /// By 1013 and 1029 of other stations.
    pub others: ArrayVec<Told, MOST_TOLD>,
    /// The first date of a 1013 or a 1029 of the station that is more than half a day from the epochs beside it.
    pub far: Option<FarDate>,
    /// The last such date that is more than half a day from the epoch before it, if no epoch came behind it.
    pub waiting_far: Option<FarDate>,
}

/// Is it a moment near which a conversion dates?
pub(crate) fn is_reference(ms: u64) -> bool
    ensures { result ≡ is_reference ms }
{
    WEEK_MS <= ms && ms <= LAST_REFERENCE_MS
}

// The first epoch, if the last one so far is at this moment.
fn first_epoch_from(span: &Span, last: u64) -> Option<u64>
    requires { last < 2 ^ 62 }
    ensures { result ≡ first_epoch_from span.now (Some last) }
{
    let first = (last + span.first.ms()).saturating_sub(span.last.ms());
    if is_reference(first) {
        Some(first)
    } else {
        None
    }
}

/// The first epoch that a message tells after these epochs.
pub(crate) fn first_epoch_told(now: GpsMs, span: &Span, message: &DateMessage) -> Option<u64>
    ensures { result ≡ first_epoch_told now span.now message.now }
{
    let last = told(now, message, span.last_time_of_week())?;
    first_epoch_from(span, last)
}

/// The moment that a message names itself, if a conversion dates near it.
pub(crate) fn reference_named(now: GpsMs, message: &DateMessage) -> Option<u64>
    ensures { result ≡ reference_named now message.now }
{
    let moment = own_moment(now, message)?;
    if is_reference(moment) {
        Some(moment)
    } else {
        None
    }
}

fn is_known(list: &[Told], first: u64) -> bool
    ensures { result ≡ list_any (tells_same first) list.now }
{
    list.iter().any(|told| told.first == first)
}

// Adds a first epoch that differs from those before, if there is room.
fn put(list: &mut ArrayVec<Told, MOST_TOLD>, told: Told)
    ensures { list.new ≡ with_told list.old told }
{
    if !is_known(list.as_slice(), told.first) && list.len() < MOST_TOLD {
        list.push(told);
    }
}

// Does a week of GPS tell the moment of a week of another system, within half a week, but for one or more times the
// 1,024 weeks after which it begins anew?
fn is_rolled_over(system: &Told, gps: &Told) -> bool
    ensures { result ≡ is_rolled_over system.now gps.now }
{
    let later = gps.first.saturating_sub(system.first);
    WEEK_MS <= later && (later % ROLLOVER_MS + HALF_WEEK_MS) % ROLLOVER_MS < WEEK_MS
}

fn is_one_rolled_over(weeks: &[Told], system: &Told) -> bool
    ensures { result ≡ is_one_rolled_over weeks.now system.now }
{
    weeks.iter().any(|gps| is_rolled_over(system, gps))
}

impl Tellings {
    /// No message came.
    pub(crate) fn new() -> Tellings
        ensures { result ≡ no_tellings }
    {
        Tellings {
            own: ArrayVec::new(),
            weeks: ArrayVec::new(),
            system_weeks: ArrayVec::new(),
            others: ArrayVec::new(),
            far: None,
            waiting_far: None,
        }
    }

    fn put_first(&mut self, station: u16, message: &DateMessage, first: u64)
        ensures { self.new ≡ with_first station message.now first self.old }
    {
        let told = Told {
            message: *message,
            first,
        };
        match message {
            DateMessage::Utc(date) if date.station == station => put(&mut self.own, told),
            DateMessage::Utc(_) => put(&mut self.others, told),
            DateMessage::Ephemeris(_) => put(&mut self.weeks, told),
            DateMessage::OtherEphemeris(_) => put(&mut self.system_weeks, told),
        }
    }

    /// A message more that came before the first epoch of the station.
    pub(crate) fn take(&mut self, now: GpsMs, station: u16, span: &Span, message: &DateMessage)
        ensures { self.new ≡ with_telling now station span.now message.now self.old }
    {
        self.far = first_far_date(self.far, far_date(now, station, span, message));
        if let Some(first) = first_epoch_told(now, span, message) {
            self.put_first(station, message, first);
        }
    }

    /// A message more, after these epochs of the station.
    pub(crate) fn take_behind(
        &mut self,
        now: GpsMs,
        station: u16,
        span: &Span,
        message: &DateMessage,
    )
        ensures { self.new ≡ with_telling_behind now station span.now message.now self.old }
    {
        self.waiting_far = last_far_date(self.waiting_far, far_date(now, station, span, message));
        if let Some(first) = first_epoch_told(now, span, message) {
            self.put_first(station, message, first);
        }
    }

    /// An epoch at this time of week, behind the dates that wait for it.
    pub(crate) fn take_epoch(&mut self, now: GpsMs, tow: u32)
        ensures { self.new ≡ with_epoch_behind now tow self.old }
    {
        self.far = first_far_date(self.far, far_from_next(now, tow, self.waiting_far));
        self.waiting_far = None;
    }

    /// A message more of a capture without an epoch: the moment that it names itself.
    pub(crate) fn take_own_moment(&mut self, now: GpsMs, station: u16, message: &DateMessage)
        ensures { self.new ≡ with_own_moment now station message.now self.old }
    {
        if let Some(moment) = reference_named(now, message) {
            self.put_first(station, message, moment);
        }
    }

    /// Does a 1042, 1045 or 1046 tell that the week of a 1019 is an earlier one than the latest?
    pub fn do_system_weeks_decide(&self) -> bool
        ensures { result ≡ do_system_weeks_decide self.now }
    {
        let weeks = self.weeks.as_slice();
        let systems = self.system_weeks.as_slice();
        systems
            .iter()
            .any(|system| is_one_rolled_over(weeks, system))
    }

    /// The first epochs that count: those by 1013 and 1029 of the station; if there are none, those by
    /// 1019; if there are none, those by 1013 and 1029 of other stations; if there are none, those by 1042,
    /// 1045 and 1046. These count before those by 1019 if they tell that its week is an earlier one than the
    /// latest.
    pub fn counting(&self) -> &[Told]
        ensures { result.now ≡ counting self.now }
    {
        if !self.own.is_empty() {
            return self.own.as_slice();
        }
        if self.do_system_weeks_decide() {
            return self.system_weeks.as_slice();
        }
        if !self.weeks.is_empty() {
            return self.weeks.as_slice();
        }
        if !self.others.is_empty() {
            return self.others.as_slice();
        }
        self.system_weeks.as_slice()
    }
}
