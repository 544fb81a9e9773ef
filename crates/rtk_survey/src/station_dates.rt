//! The dates that the messages of a station tell: those of 1013 and 1029.

ghost use Rattle.std.specs.Prelude.{◌≡◌, ◌==◌, ◌&&◌, ℕ, List, [], ◌∷◌, None, Some, length, IfOk};
ghost use Rattle.rtk_survey.specs.Telling.{is_date};
ghost use Rattle.rtk_survey.specs.declared.date_message.DateMessage.{DateMessage};
ghost use Rattle.rtk_survey.specs.declared.date_message.DateMessage.TheVariants.{Utc};
ghost use Rattle.rtk_survey.specs.FrameDates as spec;

use crate::counting::count_if;
use crate::date_message::UtcDate;
use crate::telling::is_date;

/// The first date that messages of one number tell, and how many tell one.
#[derive(Clone, Copy, Debug, PartialEq, Eq)]
pub struct DateCount {
    pub first: Option<UtcDate>,
    pub count: u64,
}

/// What messages tell of the dates of a station.
#[derive(Clone, Copy, Debug, PartialEq, Eq)]
pub struct StationDates {
    pub of_1013: DateCount,
    pub of_1029: DateCount,
}

// The message tells a date, and is of this number.
fn counts_as(number: u16, date: UtcDate) -> bool
    ensures { result ≡ (is_date date && (date.number == number)) }
{
    is_date(date) && date.number == number
}

// The first date, after one more that may count.
fn earlier_or(first: Option<UtcDate>, counts: bool, date: UtcDate) -> Option<UtcDate>
    ensures { result ≡ spec.earlier_or first (spec.utc_if counts (Utc date)) }
{
    match first {
        Some(first) => Some(first),
        None if counts => Some(date),
        None => None,
    }
}

impl DateCount {
    // No message came.
    fn new() -> DateCount
        ensures { result ≡ spec.no_date_count }
    {
        DateCount {
            first: None,
            count: 0,
        }
    }

    // A message more of this number and station.
    fn count(&mut self, number: u16, date: UtcDate)
        ensures { (station : ℕ) (ds : List DateMessage) → station ≡ date.station → self.old ≡ spec.date_count number station ds
            → self.new ≡ spec.date_count number station (Utc date ∷ ds) }
    {
        let counts = counts_as(number, date);
        self.first = earlier_or(self.first, counts, date);
        self.count = count_if(self.count, counts);
    }
}

impl StationDates {
    /// No message came.
    pub(crate) fn new() -> StationDates
        ensures { result ≡ spec.no_station_dates }
    {
        StationDates {
            of_1013: DateCount::new(),
            of_1029: DateCount::new(),
        }
    }

    /// A message more of this station.
    pub(crate) fn count(&mut self, date: UtcDate)
        ensures { (station : ℕ) (ds : List DateMessage) → station ≡ date.station → self.old ≡ spec.station_dates station ds
            → self.new ≡ spec.station_dates station (Utc date ∷ ds) }
    {
        self.of_1013.count(1013, date);
        self.of_1029.count(1029, date);
    }

    /// Some message dates the station.
    pub fn has_date(&self) -> bool
        ensures { result ≡ spec.has_date self.now }
    {
        self.of_1013.first.is_some() || self.of_1029.first.is_some()
    }

    /// The date near which the command of the station converts.
    pub fn proposed_date(&self) -> Option<UtcDate>
        ensures { result ≡ spec.proposed_date self.now }
    {
        match self.of_1013.first {
            Some(date) => Some(date),
            None => self.of_1029.first,
        }
    }
}
