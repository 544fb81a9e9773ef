//! Which moment a date message tells near a time of week, in ms since 1980-01-06 of GPS time.

ghost use Rattle.std.specs.Prelude.{◌≡◌, ◌^◌, ◌<◌, ◌≤◌, ◌+◌};
ghost use Rattle.rtk_survey.specs.Telling as spec;

use crate::date_message::{DateMessage, EphemerisDate, UtcDate};
use crate::system_message::SystemWeek;
use rtk_obs::{GpsMs, HALF_WEEK_MS, WEEK_MS};

pub(crate) const DAY_MS: u64 = 86_400_000;

pub(crate) const HALF_DAY_MS: u64 = 43_200_000;

/// The Modified Julian Day of 1980-01-06.
const FIRST_DAY: u64 = 44_244;

/// The Modified Julian Day of 1980-01-13. Earlier days tell nothing.
const EARLIEST_DAY: u16 = 44_251;

/// The greatest second of a day (DF052): that of a leap second.
const LAST_SECOND: u64 = 86_400;

/// The moment with this time of week nearest to another moment; of two alike the earlier.
pub(crate) fn dated_ms(near: u64, tow: u32) -> u64
    requires { near < 2 ^ 60 }
    ensures value { result ≡ spec.dated near tow }
    ensures bound { result < 2 ^ 61 }
{
    let from = near.saturating_sub(HALF_WEEK_MS);
    from + (u64::from(tow) + WEEK_MS - from % WEEK_MS) % WEEK_MS
}

/// The moment with this time of week (DF004, in ms) nearest to a reference, in ms; of two alike the
/// earlier. It may lie after 2100.
pub fn dated(near: GpsMs, tow: u32) -> u64
    ensures { result ≡ spec.dated near tow }
{
    dated_ms(near.ms(), tow)
}

/// The moment of a day and a second. A day before 1980-01-06 counts as that day, and a second after the
/// 86,400th as that second.
pub fn moment_of(date: UtcDate) -> GpsMs
    ensures { result ≡ spec.moment_of date }
{
    let days = u64::from(date.day).saturating_sub(FIRST_DAY);
    let second = u64::from(date.second).min(LAST_SECOND);
    let Some(moment) = GpsMs::new(DAY_MS * days + 1000 * second) else {
        unreachable!();
    };
    moment
}

/// Does the message tell a date, and one near which a conversion dates? Its day is not before
/// 1980-01-13, and a day has its second.
pub fn is_date(date: UtcDate) -> bool
    ensures { result ≡ spec.is_date date }
{
    EARLIEST_DAY <= date.day && u64::from(date.second) <= LAST_SECOND
}

// The last day that may be a date: the one after that of now.
fn last_day(now: GpsMs) -> u64
    ensures { result ≡ spec.day_of now + 1 }
{
    FIRST_DAY + now.ms() / DAY_MS + 1
}

// Is it a date, and none that is still to come?
fn is_possible(now: GpsMs, date: UtcDate) -> bool
    ensures { result ≡ spec.is_possible now date }
{
    let tomorrow = last_day(now);
    is_date(date) && u64::from(date.day) <= tomorrow
}

/// Is it a date that is still to come?
pub(crate) fn is_to_come(now: GpsMs, date: UtcDate) -> bool
    ensures { result ≡ spec.is_to_come now date }
{
    is_date(date) && last_day(now) < u64::from(date.day)
}

/// The moment that a 1013 or a 1029 tells of an epoch with this time of week, if its date counts.
pub(crate) fn told_by_utc(now: GpsMs, date: UtcDate, tow: u32) -> Option<u64>
    ensures { result ≡ spec.told_by_utc now date tow }
{
    if is_possible(now, date) {
        Some(dated_ms(moment_of(date).ms() + 1, tow))
    } else {
        None
    }
}

// Does a week's end lie between the reference time of an ephemeris and a time of week?
fn are_apart(reference_time_s: u32, tow: u32) -> bool
    ensures { result ≡ spec.are_apart reference_time_s tow }
{
    let reference_time = 1000 * u64::from(reference_time_s);
    let tow = u64::from(tow);
    tow + HALF_WEEK_MS < reference_time || reference_time + HALF_WEEK_MS < tow
}

fn told_by_ephemeris(now: GpsMs, ephemeris: EphemerisDate, tow: u32) -> Option<u64>
    ensures { result ≡ spec.told_by_ephemeris now ephemeris tow }
{
    if are_apart(ephemeris.reference_time_s, tow) {
        return None;
    }
    let present = now.ms() / WEEK_MS;
    let before = (present + 1024).saturating_sub(u64::from(ephemeris.week)) % 1024;
    if present < before {
        return None;
    }
    Some(WEEK_MS * (present - before) + u64::from(tow))
}

fn own_moment_of_ephemeris(now: GpsMs, ephemeris: EphemerisDate) -> Option<u64>
    ensures { result ≡ spec.own_moment_of_ephemeris now ephemeris }
{
    let tow = 1000 * u64::from(ephemeris.reference_time_s);
    if tow < WEEK_MS {
        told_by_ephemeris(now, ephemeris, tow as u32)
    } else {
        None
    }
}

// How many weeks a message of this number tells apart.
fn weeks_told_apart(number: u16) -> u64
    ensures value { result ≡ spec.weeks_told_apart number }
    ensures least { 4096 ≤ result }
    ensures most { result ≤ 8192 }
{
    if number == 1042 { 8192 } else { 4096 }
}

/// The week of GPS that is week 0 of the system of such a message.
pub(crate) fn first_week_of(number: u16) -> u64
    ensures value { result ≡ spec.first_week_of number }
    ensures most { result ≤ 1356 }
{
    if number == 1042 { 1356 } else { 1024 }
}

/// How many weeks before the week of now the latest week is that the message may name.
pub(crate) fn system_weeks_before(now: GpsMs, message: SystemWeek) -> u64
    ensures { result ≡ spec.system_weeks_before now message }
{
    let apart = weeks_told_apart(message.number);
    let week = u64::from(message.week) + first_week_of(message.number);
    (now.ms() / WEEK_MS + 2 * apart).saturating_sub(week) % apart
}

fn told_by_system_week(now: GpsMs, message: SystemWeek, tow: u32) -> Option<u64>
    ensures { result ≡ spec.told_by_system_week now message tow }
{
    if are_apart(message.reference_time_s, tow) {
        return None;
    }
    let present = now.ms() / WEEK_MS;
    let before = system_weeks_before(now, message);
    if present < before {
        return None;
    }
    Some(WEEK_MS * (present - before) + u64::from(tow))
}

fn own_moment_of_system_week(now: GpsMs, message: SystemWeek) -> Option<u64>
    ensures { result ≡ spec.own_moment_of_system_week now message }
{
    let tow = 1000 * u64::from(message.reference_time_s);
    if tow < WEEK_MS {
        told_by_system_week(now, message, tow as u32)
    } else {
        None
    }
}

/// The moment that a message names itself: that of its day and second, or the reference time of its
/// ephemeris; `None` if its date is passed over, as in `told`.
pub fn own_moment(now: GpsMs, message: &DateMessage) -> Option<u64>
    ensures { result ≡ spec.own_moment now message.now }
{
    match message {
        DateMessage::Utc(date) if is_possible(now, *date) => Some(moment_of(*date).ms()),
        DateMessage::Utc(_) => None,
        DateMessage::Ephemeris(ephemeris) => own_moment_of_ephemeris(now, *ephemeris),
        DateMessage::OtherEphemeris(message) => own_moment_of_system_week(now, *message),
    }
}

/// The moment that a message tells of an epoch with this time of week (DF004, in ms), in ms since
/// 1980-01-06 of GPS time; `None` if its date is passed over.
///
/// A 1013 or a 1029 tells the moment nearest to its own, of two alike the later. It is passed over if
/// its day is before 1980-01-13 or more than one after that of `now`, or if no day has its second. A
/// 1019 tells the latest week that is not after that of `now`. It is passed over if a week's end lies
/// between its reference time and the time of week, since senders differ there in the week they name. So
/// does a 1042, 1045 or 1046, by the week of its system.
pub fn told(now: GpsMs, message: &DateMessage, tow: u32) -> Option<u64>
    ensures { result ≡ spec.told now message.now tow }
{
    match message {
        DateMessage::Utc(date) => told_by_utc(now, *date, tow),
        DateMessage::Ephemeris(ephemeris) => told_by_ephemeris(now, *ephemeris, tow),
        DateMessage::OtherEphemeris(message) => told_by_system_week(now, *message, tow),
    }
}
