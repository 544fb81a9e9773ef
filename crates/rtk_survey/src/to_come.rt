//! The dates that are passed over since they are still to come.

ghost use Rattle.std.specs.Prelude.{◌≡◌};
ghost use Rattle.rtk_survey.specs.Telling.{weeks_before};
ghost use Rattle.rtk_survey.specs.ToCome as spec;

use crate::date_message::{DateMessage, EphemerisDate};
use crate::system_message::SystemWeek;
use crate::telling::{first_week_of, is_to_come, moment_of, system_weeks_before};
use crate::tellings::{Told, is_reference};
use rtk_obs::{GpsMs, WEEK_MS};

// How many weeks before the week of now the latest week is that a 1019 may name.
fn weeks_before(now: GpsMs, week: u16) -> u64
    ensures { result ≡ weeks_before now week }
{
    (now.ms() / WEEK_MS + 1024).saturating_sub(u64::from(week)) % 1024
}

fn ephemeris_to_come(now: GpsMs, ephemeris: EphemerisDate) -> Option<u64>
    ensures { result ≡ spec.ephemeris_to_come now ephemeris }
{
    if now.ms() / WEEK_MS < weeks_before(now, ephemeris.week) {
        let in_week = 1000 * u64::from(ephemeris.reference_time_s);
        Some(WEEK_MS * u64::from(ephemeris.week) + in_week)
    } else {
        None
    }
}

fn system_week_to_come(now: GpsMs, message: SystemWeek) -> Option<u64>
    ensures { result ≡ spec.system_week_to_come now message }
{
    if now.ms() / WEEK_MS < system_weeks_before(now, message) {
        let week = u64::from(message.week) + first_week_of(message.number);
        Some(WEEK_MS * week + 1000 * u64::from(message.reference_time_s))
    } else {
        None
    }
}

// The moment that a message names, if it is to come.
fn moment_to_come(now: GpsMs, message: &DateMessage) -> Option<u64>
    ensures { result ≡ spec.moment_to_come now message.now }
{
    match message {
        DateMessage::Utc(date) if is_to_come(now, *date) => Some(moment_of(*date).ms()),
        DateMessage::Utc(_) => None,
        DateMessage::Ephemeris(ephemeris) => ephemeris_to_come(now, *ephemeris),
        DateMessage::OtherEphemeris(message) => system_week_to_come(now, *message),
    }
}

/// A message with the moment that it names, if that is passed over since it is to come.
pub(crate) fn told_to_come(now: GpsMs, message: &DateMessage) -> Option<Told>
    ensures { result ≡ spec.told_to_come now message.now }
{
    let first = moment_to_come(now, message)?;
    if is_reference(first) {
        Some(Told {
            message: *message,
            first,
        })
    } else {
        None
    }
}
