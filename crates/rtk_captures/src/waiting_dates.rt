//! What a capture without an epoch of a station tells of one.

ghost use Rattle.std.specs.Prelude.{◌≡◌};
ghost use Rattle.rtk_captures.specs.WaitingDates as spec;

use crate::station_capture::is_heard;
use rtk_obs::{GpsMs, WEEK_MS};
use rtk_survey::{CaptureDates, CaptureSurvey, DateMessage, TargetSurvey};

// Messages that wait for the first epoch.
fn wait_with_all(dates: &mut CaptureDates, messages: &[DateMessage])
    ensures { dates.new ≡ spec.all_waiting dates.old messages.now }
{
    for message in messages {
        dates.wait(*message);
    }
}

// What messages tell of an epoch of a station that is the only one, and came after them, by its time of week.
fn dates_at(
    now: GpsMs,
    station: u16,
    tow: u32,
    messages: &[DateMessage],
    weeks: &[DateMessage],
) -> CaptureDates
    ensures { result ≡ spec.dates_at now station tow messages.now weeks.now }
{
    let mut dates = CaptureDates::new();
    wait_with_all(&mut dates, messages);
    wait_with_all(&mut dates, weeks);
    dates.take_epoch(now, station, tow);
    dates
}

// What the messages of a capture tell that wait for an epoch, if no other station is known in it.
fn dates_waiting(station: u16, tow: u32, target: &Option<TargetSurvey>) -> CaptureDates
    ensures { result ≡ spec.dates_waiting station tow target.now }
{
    match target {
        Some(target) if target.dates.station.unwrap_or(station) == station => {
            let waiting = target.dates.capture.waiting.as_slice();
            let weeks = target.dates.capture.waiting_weeks.as_slice();
            dates_at(target.present, station, tow, waiting, weeks)
        }
        _ => CaptureDates::new(),
    }
}

/// What the messages of a capture without an epoch, which has something of a station, tell of an epoch of it at this
/// moment.
pub fn dates_without_epoch(station: u16, near: GpsMs, survey: &CaptureSurvey) -> CaptureDates
    ensures { result ≡ spec.dates_without_epoch station near survey.now }
{
    if !is_heard(survey.contents.stations.get(&station)) {
        return CaptureDates::new();
    }
    let tow = (near.ms() % WEEK_MS) as u32;
    dates_waiting(station, tow, &survey.contents.target)
}
