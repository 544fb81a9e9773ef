//! Which part of a file is written.

ghost use Rattle.std.specs.Prelude.{◌≡◌, ◌≤◌, ◌+◌, ◌&&◌};
ghost use Rattle.rtk_cut.specs.Cut.{IsStepOrNone, choice_of, is_near_step, is_at_or_after, is_earlier_than};

use rtk_obs::GpsMs;

/// The greatest step of a part, in s: a day.
pub const GREATEST_STEP_S: u32 = 86_400;

/// Which part of a file is written: of the records on a step those in a span.
#[derive(Clone, Copy, Debug)]
pub struct Part {
    /// The records at this moment and after it; all up to `until` if there is none.
    pub from: Option<GpsMs>,
    /// The records before this moment; all after `from` if there is none.
    pub until: Option<GpsMs>,
    /// The step in s, 1 to 86,400: records whose moment is a whole multiple of it, counted from
    /// 1980-01-06 00:00:00.000. All records if there is none.
    pub every: Option<u32>,
}

/// Which records of a file are written: a part, and how far in ms a record may lie from a moment and
/// still counts as being there, since the clocks of some receivers are not steered.
#[derive(Clone, Copy)]
pub(crate) struct Choice {
    pub(crate) from: Option<GpsMs>,
    pub(crate) until: Option<GpsMs>,
    pub(crate) every: Option<u32>,
    pub(crate) near_ms: u64,
}

impl Choice {
    /// A part, and how near is near enough.
    pub(crate) fn new(part: Part, near_ms: u64) -> Choice
        ensures { result ≡ choice_of part near_ms }
    {
        Choice {
            from: part.from,
            until: part.until,
            every: part.every,
            near_ms,
        }
    }

    /// Is a moment on the step, or near enough?
    pub(crate) fn has(&self, time: GpsMs) -> bool
        requires step { IsStepOrNone self.now.every }
        requires near { self.now.near_ms ≤ 25 }
        ensures { result ≡ is_near_step self.now.near_ms self.now.every time }
    {
        match self.every {
            Some(every) => (time.ms() + self.near_ms) % (u64::from(every) * 1000)
                <= 2 * self.near_ms,
            None => true,
        }
    }

    /// Is a moment in the span? It counts as so much later as is near enough.
    pub(crate) fn spans(&self, time: GpsMs) -> bool
        requires near { self.now.near_ms ≤ 25 }
        ensures { result ≡ (is_at_or_after self.now.from (time + self.now.near_ms)
            && is_earlier_than self.now.until (time + self.now.near_ms)) }
    {
        let later = time.ms() + self.near_ms;
        let is_at_or_after = match self.from {
            Some(from) => later >= from.ms(),
            None => true,
        };
        let is_earlier = match self.until {
            Some(until) => later < until.ms(),
            None => true,
        };
        is_at_or_after && is_earlier
    }
}
