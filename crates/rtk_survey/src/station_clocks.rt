//! The clocks of GLONASS and BeiDou of a station in a capture.
//!
//! A date that the station names may be far from the messages of these clocks beside it, where no epoch came.

ghost use Rattle.std.specs.Prelude.{◌≡◌, ◌≢◌, ℕ, OnOk};
ghost use Rattle.rtk_survey.specs.StationClocks as spec;
ghost use Rattle.rtk_survey.specs.StationClocks.{clocks_by_station, no_station_clocks};

use crate::clock_marks::{ClockMarks, opened_moment};
use crate::clock_spans::{
    ClockSpan, FollowedClock, FollowedSpan, FollowedTime, clock_followed, is_new_mark,
};
use crate::date_message::UtcDate;
use crate::day_clocks::{day_after_msm, day_followed, day_so_far, redated_near_if_any};
use crate::far_date::{FarDate, first_far_date};
use crate::telling::HALF_DAY_MS;
use rtk_obs::GpsMs;
use std::alloc::{AllocError, Global};
use std::collections::BTreeMap;

/// How far the clocks of a station go; `None` if no message of a clock has a value.
#[derive(Clone, Copy, Debug, PartialEq, Eq)]
pub struct StationClocks {
    pub glonass: Option<ClockSpan>,
    pub beidou: Option<ClockSpan>,
    pub glonass_day: Option<ClockSpan>,
    /// The 1012 before the last one, if no MSM of GLONASS came behind it: what comes behind it may date it again.
    pub day_before: Option<ClockSpan>,
    /// The first date that is far from the messages beside it, with one of these.
    pub far: Option<FarDate>,
}

// ---- a date that is far from the messages beside it

fn are_half_day_apart(one: u64, other: u64) -> bool
    ensures { result ≡ spec.are_half_day_apart one other }
{
    HALF_DAY_MS < one.saturating_sub(other) || HALF_DAY_MS < other.saturating_sub(one)
}

// Did the last message come behind the last date, or at most half a day before it?
fn is_message_beside(marks: &ClockMarks, known: &FollowedSpan) -> bool
    ensures { result ≡ spec.is_message_beside marks.now known.now }
{
    let last = known.last_message();
    !(is_new_mark(known.mark, marks.last) && are_half_day_apart(marks.last.ms(), last.ms()))
}

fn is_clock_beside(clock: FollowedClock, marks: &ClockMarks, known: &Option<ClockSpan>) -> bool
    ensures { result ≡ spec.is_clock_beside clock marks.now known.now }
{
    match known {
        Some(known) => {
            let opened = known.opened();
            let anchored = opened.anchored(clock, marks);
            is_message_beside(marks, &anchored)
        }
        None => false,
    }
}

fn last_if_any(clock: FollowedClock, marks: &ClockMarks, known: &Option<ClockSpan>) -> Option<GpsMs>
    ensures { result ≡ spec.last_if_any clock marks.now known.now }
{
    match known {
        Some(known) => {
            let opened = known.opened();
            let anchored = opened.anchored(clock, marks);
            Some(anchored.last_message())
        }
        None => None,
    }
}

fn one_of(one: Option<GpsMs>, other: Option<GpsMs>) -> Option<GpsMs>
    ensures { result ≡ spec.one_of one other }
{
    match one {
        Some(one) => Some(one),
        None => other,
    }
}

fn far_with_last(date: UtcDate, moment: Option<GpsMs>) -> Option<FarDate>
    ensures { result ≡ spec.far_with_last date moment }
{
    match moment {
        Some(moment) => Some(FarDate {
            date,
            epoch: moment.ms(),
        }),
        None => None,
    }
}

// A date at this moment that comes behind this message, but is before it.
fn far_if_before(date: UtcDate, at: GpsMs, moment: Option<GpsMs>) -> Option<FarDate>
    ensures { result ≡ spec.far_if_before date at moment }
{
    match moment {
        Some(moment) if at.ms() < moment.ms() => Some(FarDate {
            date,
            epoch: moment.ms(),
        }),
        _ => None,
    }
}

// ---- the clocks of a station

impl StationClocks {
    /// No message came.
    pub fn new() -> StationClocks
        ensures { result ≡ no_station_clocks }
    {
        StationClocks {
            glonass: None,
            beidou: None,
            glonass_day: None,
            day_before: None,
            far: None,
        }
    }

    // Did a message of a clock come behind the last date, or at most half a day before it?
    fn has_clock_beside(&self, marks: &ClockMarks) -> bool
        ensures { result ≡ spec.has_clock_beside marks.now self.now }
    {
        is_clock_beside(FollowedClock::GlonassWeek, marks, &self.glonass)
            || (is_clock_beside(FollowedClock::BeidouWeek, marks, &self.beidou)
                || is_clock_beside(FollowedClock::GlonassDay, marks, &self.glonass_day))
    }

    // The last message of a clock, of GLONASS if it has one.
    fn last_of_clocks(&self, marks: &ClockMarks) -> Option<GpsMs>
        ensures { result ≡ spec.last_of_clocks marks.now self.now }
    {
        let glonass = last_if_any(FollowedClock::GlonassWeek, marks, &self.glonass);
        let beidou = last_if_any(FollowedClock::BeidouWeek, marks, &self.beidou);
        let day = last_if_any(FollowedClock::GlonassDay, marks, &self.glonass_day);
        one_of(glonass, one_of(beidou, day))
    }

    // The last date, if it is far from the last message of each clock before it, and is before it or far from the message
    // behind it.
    fn far_beside(&self, date: UtcDate, marks: &ClockMarks, ms: u64) -> Option<FarDate>
        ensures { result ≡ spec.far_beside date marks.now self.now ms }
    {
        if self.has_clock_beside(marks) {
            None
        } else if are_half_day_apart(marks.last.ms(), ms) {
            Some(FarDate { date, epoch: ms })
        } else {
            far_if_before(date, marks.last, self.last_of_clocks(marks))
        }
    }

    // The same if the moments are of dates.
    fn far_from_message(&self, marks: &ClockMarks, ms: u64) -> Option<FarDate>
        ensures { result ≡ spec.far_from_message marks.now.date marks.now self.now ms }
    {
        match marks.date {
            Some(date) => self.far_beside(date, marks, ms),
            None => None,
        }
    }

    // The first of such dates, after a message more at this moment.
    fn far_with_message(&self, marks: &Option<ClockMarks>, ms: u64) -> Option<FarDate>
        ensures { result ≡ spec.far_with_message marks.now self.now ms }
    {
        match marks {
            Some(marks) => first_far_date(self.far, self.far_from_message(marks, ms)),
            None => self.far,
        }
    }

    // The last date, if no message came behind it, and it is far from the last one of each clock.
    fn far_at_end(&self, marks: &ClockMarks) -> Option<FarDate>
        ensures { result ≡ spec.far_at_end marks.now.date marks.now self.now }
    {
        match marks.date {
            Some(date) if !self.has_clock_beside(marks) => {
                far_with_last(date, self.last_of_clocks(marks))
            }
            _ => None,
        }
    }

    fn far_at_end_if_any(&self, marks: &Option<ClockMarks>) -> Option<FarDate>
        ensures { result ≡ spec.far_at_end_if_any marks.now self.now }
    {
        match marks {
            Some(marks) => self.far_at_end(marks),
            None => None,
        }
    }

    /// The clocks of a capture that ends, by its epochs or dates.
    #[tactic(auto, unfolding(crate::specs::StationClocks::clocks_settled))]
    pub fn settled(&self, marks: &Option<ClockMarks>) -> StationClocks
        ensures { result ≡ spec.clocks_settled marks.now self.now }
    {
        StationClocks {
            glonass: self.glonass,
            beidou: self.beidou,
            glonass_day: day_so_far(marks, &self.day_before, &self.glonass_day),
            day_before: self.day_before,
            far: self.far,
        }
    }

    /// The first date that is far from the messages of the clocks beside it.
    #[tactic(auto, unfolding(crate::specs::StationClocks::far_from_clocks))]
    pub fn far_date(&self, marks: &Option<ClockMarks>) -> Option<FarDate>
        ensures { result ≡ spec.far_from_clocks marks.now self.now }
    {
        let settled = self.settled(marks);
        first_far_date(self.far, settled.far_at_end_if_any(marks))
    }

    fn take_glonass(&mut self, marks: &Option<ClockMarks>, span: ClockSpan)
        ensures { self.new ≡ spec.with_glonass_clock marks.now span self.old }
    {
        let far = self.far_with_message(marks, span.last);
        let msm = opened_moment(span.last);
        let known = redated_near_if_any(marks, msm, &self.day_before, &self.glonass_day);
        let day = day_after_msm(marks, &span, &known);
        self.glonass = Some(span);
        self.glonass_day = day;
        self.day_before = None;
        self.far = far;
    }

    fn take_beidou(&mut self, marks: &Option<ClockMarks>, span: ClockSpan)
        ensures { self.new ≡ spec.with_beidou_clock marks.now span self.old }
    {
        let far = self.far_with_message(marks, span.last);
        self.beidou = Some(span);
        self.far = far;
    }

    // Behind these 1012.
    fn take_day(&mut self, marks: &Option<ClockMarks>, before: Option<ClockSpan>, span: ClockSpan)
        ensures { self.new ≡ spec.with_day_clock marks.now before span self.old }
    {
        let far = self.far_with_message(marks, span.last);
        self.glonass_day = Some(span);
        self.day_before = before;
        self.far = far;
    }

    fn take_day_behind(&mut self, marks: &Option<ClockMarks>, before: Option<ClockSpan>, time: u32)
        ensures { self.new ≡ spec.with_day_behind marks.now before time self.old }
    {
        let span = day_followed(marks, &self.glonass, &before, time);
        self.take_day(marks, before, span);
    }

    // A time more of a clock, after these epochs or dates.
    #[tactic(auto, unfolding(crate::specs::StationClocks::with_followed_time))]
    fn take(&mut self, marks: &Option<ClockMarks>, told: FollowedTime)
        ensures { self.new ≡ spec.with_followed_time marks.now told self.old }
    {
        let time = told.time;
        match told.clock {
            FollowedClock::GlonassWeek => {
                let clock = FollowedClock::GlonassWeek;
                let span = clock_followed(clock, marks, &self.glonass, time);
                self.take_glonass(marks, span);
            }
            FollowedClock::BeidouWeek => {
                let clock = FollowedClock::BeidouWeek;
                let span = clock_followed(clock, marks, &self.beidou, time);
                self.take_beidou(marks, span);
            }
            FollowedClock::GlonassDay => {
                let before = day_so_far(marks, &self.day_before, &self.glonass_day);
                self.take_day_behind(marks, before, time);
            }
        }
    }
}

/// No message came.
pub(crate) fn no_clocks_followed(alloc: Global) -> BTreeMap<u16, StationClocks>
    ensures { (n : ℕ) → clocks_by_station result n ≡ no_station_clocks }
{
    BTreeMap::new(alloc)
}

/// The clocks of a station.
pub fn clocks_by_station(clocks: &BTreeMap<u16, StationClocks>, station: u16) -> StationClocks
    ensures { result ≡ clocks_by_station clocks.now station }
{
    match clocks.get(&station) {
        Some(clocks) => *clocks,
        None => StationClocks::new(),
    }
}

/// A time more of a clock of a station, after these epochs or dates of it.
pub(crate) fn take_followed_time(
    clocks: &mut BTreeMap<u16, StationClocks>,
    station: u16,
    marks: &Option<ClockMarks>,
    told: FollowedTime,
) -> Result<(), AllocError>
    ensures own { OnOk result (clocks_by_station clocks.new station ≡ spec.with_followed_time marks.now told (clocks_by_station clocks.old station)) }
    ensures others { OnOk result ((n : ℕ) → n ≢ station → clocks_by_station clocks.new n ≡ clocks_by_station clocks.old n) }
{
    let own = clocks.entry(station)?.or_insert(StationClocks::new());
    own.take(marks, told);
    Ok(())
}
