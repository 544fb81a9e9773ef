//! The epoch line of a record, read back.

ghost use Rattle.std.specs.Prelude.{◌≡◌, ◌≢◌, ℕ, ◌<◌, ◌≤◌, length, MatchOption};
ghost use Rattle.std.specs.Int.{IsInRange};
ghost use Rattle.rtk_obs.specs.Reading.{IsMoment, reading_of};
ghost use Rattle.rtk_rinex.specs.Record.{epoch_columns, epoch_line};
ghost use Rattle.rtk_rinex.specs.Steps.CheckValues.{seconds_in, civil_in, count_in};

use crate::columns::EPOCH_LINE;
use crate::digits::{is_same, number_of_digits};
use crate::record_text::epoch_line;
use rtk_obs::{Civil, GpsMs, of_civil};

/// What an epoch line shows.
#[derive(Clone, Copy)]
pub(crate) struct EpochStamp {
    /// The moment of the epoch.
    pub time: GpsMs,
    /// The date and time of this moment.
    pub reading: Civil,
    /// How many satellite lines follow, from 1.
    pub count: usize,
}

// Returns the date and time that an epoch line shows. Its seconds have been read before.
fn reading_in(line: &[u8], seconds: u64) -> Civil
    requires line { length line.now ≡ 35 }
    requires seconds { seconds ≡ seconds_in line.now }
    requires minute { seconds < 600_000_000 }
    ensures { result ≡ civil_in line.now }
{
    Civil {
        year: number_of_digits(&line[2..6]) as u16,
        month: number_of_digits(&line[7..9]) as u8,
        day: number_of_digits(&line[10..12]) as u8,
        hour: number_of_digits(&line[13..15]) as u8,
        minute: number_of_digits(&line[16..18]) as u8,
        second: (seconds / 10_000_000) as u8,
        millisecond: (seconds / 10_000 % 1000) as u16,
    }
}

/// Returns the moment and count in the columns of an epoch line of at most `most` satellites, read without
/// a test of their form. If the columns are an epoch line, they are the line of this moment and this count.
pub(crate) fn stamp_in(columns: &[u8], most: usize) -> Option<EpochStamp>
    requires columns { length columns.now ≡ 35 }
    requires most { most < 1000 }
    ensures { MatchOption result
        ((t n : ℕ) → IsMoment t → IsInRange 1 most n → columns.now ≢ epoch_columns (reading_of t) n)
        (λ s. IsMoment s.time × IsInRange 1 most s.count × (s.reading ≡ reading_of s.time)
        × ((t n : ℕ) → IsMoment t → IsInRange 1 most n → columns.now ≡ epoch_columns (reading_of t) n → (s.time ≡ t) × (s.count ≡ n))) }
{
    let seconds = number_of_digits(&columns[18..29]);
    if seconds >= 600_000_000 {
        return None;
    }
    let reading = reading_in(columns, seconds);
    let time = of_civil(reading)?;
    let count = number_of_digits(columns.split_at(32).1) as usize;
    if count == 0 || count > most {
        return None;
    }
    Some(EpochStamp {
        time,
        reading,
        count,
    })
}

/// Returns the moment and count of an epoch line, which ends in LF, or `None` exactly if the line
/// is no epoch line of at most `most` satellites.
pub(crate) fn read_epoch_line(line: &[u8], most: usize) -> Option<EpochStamp>
    requires { most < 1000 }
    ensures { MatchOption result
        ((t n : ℕ) → IsMoment t → IsInRange 1 most n → line.now ≢ epoch_line (reading_of t) n)
        (λ s. IsMoment s.time × IsInRange 1 most s.count × (line.now ≡ epoch_line (reading_of s.time) s.count)) }
{
    if line.len() != EPOCH_LINE {
        return None;
    }
    let stamp = stamp_in(line.split_at(EPOCH_LINE - 1).0, most)?;
    if is_same(&epoch_line(stamp.reading, stamp.count), line) {
        Some(stamp)
    } else {
        None
    }
}
