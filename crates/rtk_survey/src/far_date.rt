//! The dates that messages of a station tell more than half a day from the epochs beside them.

ghost use Rattle.std.specs.Prelude.{◌≡◌};
ghost use Rattle.rtk_survey.specs.FarDates as spec;

use crate::date_message::{DateMessage, UtcDate};
use crate::span::Span;
use crate::telling::{HALF_DAY_MS, moment_of, told_by_utc};
use rtk_obs::GpsMs;

/// The date of a 1013 or a 1029, and the epoch beside the message as it dates it.
#[derive(Clone, Copy, Debug, PartialEq, Eq)]
pub struct FarDate {
    pub date: UtcDate,
    /// In ms since 1980-01-06 of GPS time.
    pub epoch: u64,
}

fn is_far(date: UtcDate, epoch: u64) -> bool
    ensures { result ≡ spec.is_far_from_epoch date epoch }
{
    let moment = moment_of(date).ms();
    HALF_DAY_MS < epoch.saturating_sub(moment) || HALF_DAY_MS < moment.saturating_sub(epoch)
}

fn far_from_epoch(date: UtcDate, epoch: Option<u64>) -> Option<FarDate>
    ensures { result ≡ spec.far_from_epoch date epoch }
{
    let epoch = epoch?;
    if is_far(date, epoch) {
        Some(FarDate { date, epoch })
    } else {
        None
    }
}

/// The date of a message after these epochs of the station, if it is a 1013 or a 1029 of it, and far from the last one.
pub(crate) fn far_date(
    now: GpsMs,
    station: u16,
    span: &Span,
    message: &DateMessage,
) -> Option<FarDate>
    ensures { result ≡ spec.far_date now station span.now message.now }
{
    match message {
        DateMessage::Utc(date) if date.station == station => {
            far_from_epoch(*date, told_by_utc(now, *date, span.last_time_of_week()))
        }
        _ => None,
    }
}

// A date that is far from the epoch before it, if it is far from the one behind it.
fn far_from_both(far: FarDate, behind: Option<FarDate>) -> Option<FarDate>
    ensures { result ≡ spec.far_from_both far behind }
{
    match behind {
        Some(_) => Some(far),
        None => None,
    }
}

/// A date that is far from the epoch before it, if it is far from the one behind it, which has this time of week.
pub(crate) fn far_from_next(now: GpsMs, tow: u32, far: Option<FarDate>) -> Option<FarDate>
    ensures { result ≡ spec.far_from_next now tow far }
{
    match far {
        Some(far) => far_from_both(
            far,
            far_from_epoch(far.date, told_by_utc(now, far.date, tow)),
        ),
        None => None,
    }
}

/// The last of such dates: this one, or else one that was told before.
pub(crate) fn last_far_date(known: Option<FarDate>, more: Option<FarDate>) -> Option<FarDate>
    ensures { result ≡ spec.last_far_date known more }
{
    match more {
        Some(more) => Some(more),
        None => known,
    }
}

/// The first of such dates: one that was told before, or else this one.
pub fn first_far_date(known: Option<FarDate>, more: Option<FarDate>) -> Option<FarDate>
    ensures { result ≡ spec.first_far_date known more }
{
    match known {
        Some(known) => Some(known),
        None => more,
    }
}
