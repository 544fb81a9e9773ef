//! How far the clocks of systems are apart within chains of messages.
//!
//! A chain ends with an observation message whose multiple-message bit is 0. If this message is missing, the chain is
//! dropped before the first message that tells another time of day than one of its system in the chain. Its clock is that
//! of its first message of GPS; if there is none, of Galileo, QZSS, SBAS or NavIC. A 1012 tells no day, so its clock is
//! compared within half a day. A leap second comes between two days of UTC, so clocks of GLONASS are counted by these days
//! too.

ghost use Rattle.std.specs.Prelude.{◌≡◌, ◌<◌, ◌≤◌, length, drop, IfSome, OnOk};
ghost use Rattle.rtk_survey.specs.Chains as spec;

use crate::beside_gps::told_time;
use crate::telling::{DAY_MS, HALF_DAY_MS};
use arrayvec::ArrayVec;
use rtk_message::{AnyMessage, Message, System};
use rtk_obs::WEEK_MS;
use std::alloc::AllocError;

/// How many clocks of a chain are kept. Others are passed over.
const MOST_WAITING: usize = 32;

/// How many offsets of a system that differ are kept.
const MOST_OFFSETS: usize = 8;

/// How many offsets of GLONASS are kept that differ or are of days that differ.
const MOST_DAY_OFFSETS: usize = 16;

/// A clock of GLONASS has the day (DF416) before 27 bits of the time of day (DF034).
const TIME_OF_DAY: u32 = 1 << 27;

/// A day (DF416) that is unknown.
const UNKNOWN_DAY: u32 = 7;

/// The clock of a message.
#[derive(Clone, Copy, Debug, PartialEq, Eq)]
pub struct ClockTold {
    pub system: System,
    /// The time of week, as `told_time` has it.
    pub time: u32,
    /// Is its day known?
    pub has_day: bool,
}

// A list that has room for such clocks is filled with it.
impl Default for ClockTold {
    fn default() -> ClockTold {
        ClockTold {
            system: System::Gps,
            time: 0,
            has_day: true,
        }
    }
}

/// The clock that times a chain.
#[derive(Clone, Copy, Debug, PartialEq, Eq)]
pub struct ChainClock {
    /// The rank of its system among those that time a chain.
    pub rank: u8,
    pub time: u32,
}

/// By how much clocks of a system are ahead of those of their chains.
#[derive(Clone, Copy, Debug, Default, PartialEq, Eq)]
pub struct ClockOffset {
    /// In ms, less than a week. That of GLONASS lacks the leap seconds.
    pub ahead_ms: u32,
    /// How many messages have it. Stays at the greatest `u64`.
    pub count: u64,
}

/// By how much clocks of GLONASS on a day of the week are ahead of those of their chains.
#[derive(Clone, Copy, Debug, Default, PartialEq, Eq)]
pub struct DayOffset {
    /// The day of UTC that these clocks tell: 0 for Sunday, 6 for Saturday.
    pub day: u8,
    /// In ms, less than a week, without the leap seconds.
    pub ahead_ms: u32,
    /// How many messages have it. Stays at the greatest `u64`.
    pub count: u64,
}

/// The offsets of each system: the first 8 that differ, in the order in which they came. Those of GLONASS also stand
/// apart for each day: the first 16 that differ.
#[derive(Clone, Drop)]
pub struct ClockOffsets {
    pub gps: ArrayVec<ClockOffset, MOST_OFFSETS>,
    pub glonass: ArrayVec<ClockOffset, MOST_OFFSETS>,
    pub galileo: ArrayVec<ClockOffset, MOST_OFFSETS>,
    pub beidou: ArrayVec<ClockOffset, MOST_OFFSETS>,
    pub qzss: ArrayVec<ClockOffset, MOST_OFFSETS>,
    pub sbas: ArrayVec<ClockOffset, MOST_OFFSETS>,
    pub navic: ArrayVec<ClockOffset, MOST_OFFSETS>,
    pub glonass_days: ArrayVec<DayOffset, MOST_DAY_OFFSETS>,
}

/// What is held of the clocks of a station.
#[derive(Clone, Drop)]
pub struct ClockSurvey {
    /// The clocks of the chain that has not ended.
    pub waiting: ArrayVec<ClockTold, MOST_WAITING>,
    /// The offsets in the chains that have ended.
    pub offsets: ClockOffsets,
}

// ---- the clock of a message

fn gps_clock(tow: u32) -> ClockTold
    ensures { result ≡ spec.gps_clock tow }
{
    ClockTold {
        system: System::Gps,
        time: tow,
        has_day: true,
    }
}

/// Does a clock of a system tell a day? One of GLONASS may not.
pub(crate) fn tells_day(system: System, clock: u32) -> bool
    ensures { result ≡ spec.tells_day system clock }
{
    match system {
        System::Glonass => clock / TIME_OF_DAY != UNKNOWN_DAY,
        System::Gps
        | System::Galileo
        | System::Beidou
        | System::Qzss
        | System::Sbas
        | System::Navic => true,
    }
}

fn told_clock(system: System, clock: u32) -> ClockTold
    ensures { result ≡ spec.told_clock system clock }
{
    ClockTold {
        system,
        time: told_time(system, clock),
        has_day: tells_day(system, clock),
    }
}

fn clock_of_four(message: &Message) -> Option<ClockTold>
    ensures { result ≡ spec.clock_of_four message.now }
{
    match message {
        Message::Obs1004(message) => Some(gps_clock(message.tow)),
        Message::Arp1005(_) | Message::Arp1006(_) => None,
        Message::Msm1074(message) => Some(gps_clock(message.header.tow)),
    }
}

/// The clock of an observation message.
pub(crate) fn clock_of(message: &AnyMessage) -> Option<ClockTold>
    ensures { result ≡ spec.clock_of message.now }
{
    match message {
        AnyMessage::Message(message) => clock_of_four(message),
        AnyMessage::Msm(message) => Some(told_clock(message.system, message.header.tow)),
        AnyMessage::Obs1012(message) => Some(told_clock(System::Glonass, message.clock())),
    }
}

fn more_follow_four(message: &Message) -> bool
    ensures { result ≡ spec.more_follow_four message.now }
{
    match message {
        Message::Obs1004(message) => message.synchronous,
        Message::Arp1005(_) | Message::Arp1006(_) => false,
        Message::Msm1074(message) => message.header.multiple_message,
    }
}

/// Do more messages of its chain follow?
pub(crate) fn more_follow(message: &AnyMessage) -> bool
    ensures { result ≡ spec.more_follow message.now }
{
    match message {
        AnyMessage::Message(message) => more_follow_four(message),
        AnyMessage::Msm(message) => message.header.multiple_message,
        AnyMessage::Obs1012(message) => message.synchronous,
    }
}

// ---- the clock of a chain

fn clock_rank(system: System) -> u8
    ensures { result ≡ spec.clock_rank system }
{
    match system {
        System::Gps => 0,
        System::Galileo => 1,
        System::Qzss => 2,
        System::Sbas => 3,
        System::Navic => 4,
        System::Beidou => 5,
        System::Glonass => 6,
    }
}

// The first clock of the system with this rank.
fn first_ranked(rank: u8, clocks: &[ClockTold]) -> Option<ChainClock>
    ensures { result ≡ spec.first_ranked rank clocks.now }
{
    for clock in clocks {
        if clock_rank(clock.system) == rank {
            let time = clock.time;
            return Some(ChainClock { rank, time });
        }
    }
    None
}

fn clock_or(clock: Option<ChainClock>, other: Option<ChainClock>) -> Option<ChainClock>
    ensures { result ≡ spec.clock_or clock other }
{
    match clock {
        Some(clock) => Some(clock),
        None => other,
    }
}

fn chain_clock(clocks: &[ClockTold]) -> Option<ChainClock>
    ensures { result ≡ spec.chain_clock clocks.now }
{
    let by_sbas_or_navic = clock_or(first_ranked(3, clocks), first_ranked(4, clocks));
    let by_qzss_to_navic = clock_or(first_ranked(2, clocks), by_sbas_or_navic);
    let by_galileo_to_navic = clock_or(first_ranked(1, clocks), by_qzss_to_navic);
    clock_or(first_ranked(0, clocks), by_galileo_to_navic)
}

// ---- how far other clocks are from it

fn ahead_of(base: u32, time: u32) -> u32
    ensures { result ≡ spec.ahead_of base time }
{
    ((u64::from(time) + WEEK_MS).saturating_sub(u64::from(base)) % WEEK_MS) as u32
}

// Less than a day ahead as within half a day.
fn from_half_day(ahead: u64) -> u32
    requires { ahead < 86_400_000 }
    ensures { result ≡ spec.from_half_day ahead }
{
    if ahead <= HALF_DAY_MS {
        ahead as u32
    } else {
        (ahead + (WEEK_MS - DAY_MS)) as u32
    }
}

fn ahead_in_day(base: u32, time: u32) -> u32
    ensures { result ≡ spec.ahead_in_day base time }
{
    let base = u64::from(base) % DAY_MS;
    let time = u64::from(time) % DAY_MS;
    from_half_day((time + DAY_MS).saturating_sub(base) % DAY_MS)
}

fn clock_ahead(base: u32, clock: ClockTold) -> u32
    ensures { result ≡ spec.clock_ahead base clock }
{
    if clock.has_day {
        ahead_of(base, clock.time)
    } else {
        ahead_in_day(base, clock.time)
    }
}

fn place_of(ahead: u32, list: &[ClockOffset]) -> Option<usize>
    ensures value { result ≡ spec.offset_place 0 ahead list.now }
    ensures bound { IfSome result (λ at. at < length list.now) }
{
    for (at, offset) in list.iter().enumerate() {
        if offset.ahead_ms == ahead {
            return Some(at);
        }
    }
    None
}

// Counts an offset.
fn count_offset(list: &mut ArrayVec<ClockOffset, MOST_OFFSETS>, ahead: u32)
    ensures { list.new ≡ spec.with_counted ahead list.old }
{
    match place_of(ahead, list.as_slice()) {
        Some(at) => {
            let offset = &mut list.as_mut_slice()[at];
            offset.count = offset.count.saturating_add(1);
        }
        None if list.len() < MOST_OFFSETS => list.push(ClockOffset {
            ahead_ms: ahead,
            count: 1,
        }),
        None => {}
    }
}

// The day of the week of UTC that a clock tells which is ahead by this of a time of week.
fn day_of_clock(base: u32, ahead: u32) -> u8
    ensures { result ≡ spec.day_of_clock base ahead }
{
    ((u64::from(base) + u64::from(ahead)) % WEEK_MS / DAY_MS) as u8
}

fn is_of_day(day: u8, ahead: u32, offset: DayOffset) -> bool
    ensures { result ≡ spec.is_of_day day ahead offset }
{
    offset.day == day && offset.ahead_ms == ahead
}

fn place_on_day(day: u8, ahead: u32, list: &[DayOffset]) -> Option<usize>
    ensures value { result ≡ spec.day_place 0 day ahead list.now }
    ensures bound { IfSome result (λ at. at < length list.now) }
{
    for (at, offset) in list.iter().enumerate() {
        if is_of_day(day, ahead, *offset) {
            return Some(at);
        }
    }
    None
}

// Counts an offset on a day.
fn count_on_day(list: &mut ArrayVec<DayOffset, MOST_DAY_OFFSETS>, day: u8, ahead: u32)
    ensures { list.new ≡ spec.with_day_counted day ahead list.old }
{
    match place_on_day(day, ahead, list.as_slice()) {
        Some(at) => {
            let offset = &mut list.as_mut_slice()[at];
            offset.count = offset.count.saturating_add(1);
        }
        None if list.len() < MOST_DAY_OFFSETS => list.push(DayOffset {
            day,
            ahead_ms: ahead,
            count: 1,
        }),
        None => {}
    }
}

// ---- a chain that has no end

/// Are two clocks of one system, and do they tell other times of day?
pub(crate) fn differs_in_time(clock: ClockTold, other: ClockTold) -> bool
    ensures { result ≡ spec.differs_in_time clock other }
{
    let (time, other_time) = (u64::from(clock.time), u64::from(other.time));
    clock_rank(clock.system) == clock_rank(other.system) && time % DAY_MS != other_time % DAY_MS
}

// Does a chain begin with a clock behind these clocks?
fn begins_chain(clocks: &[ClockTold], clock: ClockTold) -> bool
    ensures { result ≡ spec.begins_chain clocks.now clock }
{
    clocks.iter().any(|other| differs_in_time(clock, *other))
}

impl ClockOffsets {
    /// No chain ended.
    pub(crate) fn new() -> ClockOffsets
        ensures { result ≡ spec.no_offsets }
    {
        ClockOffsets {
            gps: ArrayVec::new(),
            glonass: ArrayVec::new(),
            galileo: ArrayVec::new(),
            beidou: ArrayVec::new(),
            qzss: ArrayVec::new(),
            sbas: ArrayVec::new(),
            navic: ArrayVec::new(),
            glonass_days: ArrayVec::new(),
        }
    }

    /// The offsets of a system.
    pub fn of(&self, system: System) -> &[ClockOffset]
        ensures { result.now ≡ spec.offsets_of self.now system }
    {
        match system {
            System::Gps => self.gps.as_slice(),
            System::Glonass => self.glonass.as_slice(),
            System::Galileo => self.galileo.as_slice(),
            System::Beidou => self.beidou.as_slice(),
            System::Qzss => self.qzss.as_slice(),
            System::Sbas => self.sbas.as_slice(),
            System::Navic => self.navic.as_slice(),
        }
    }

    // A clock of GLONASS more, in a chain that this time is of.
    fn count_glonass(&mut self, base: u32, ahead: u32)
        ensures { self.new ≡ spec.with_glonass base ahead self.old }
    {
        count_offset(&mut self.glonass, ahead);
        count_on_day(&mut self.glonass_days, day_of_clock(base, ahead), ahead);
    }

    // A clock of a system more, in a chain that this time is of.
    fn count(&mut self, system: System, base: u32, ahead: u32)
        ensures { self.new ≡ spec.with_ahead system base ahead self.old }
    {
        match system {
            System::Gps => count_offset(&mut self.gps, ahead),
            System::Glonass => self.count_glonass(base, ahead),
            System::Galileo => count_offset(&mut self.galileo, ahead),
            System::Beidou => count_offset(&mut self.beidou, ahead),
            System::Qzss => count_offset(&mut self.qzss, ahead),
            System::Sbas => count_offset(&mut self.sbas, ahead),
            System::Navic => count_offset(&mut self.navic, ahead),
        }
    }

    // A clock more, in a chain that this time is of.
    fn compare(&mut self, base: u32, clock: ClockTold)
        ensures { self.new ≡ spec.with_offset base clock self.old }
    {
        self.count(clock.system, base, clock_ahead(base, clock));
    }

    // Some clocks more.
    fn compare_all(&mut self, base: u32, clocks: &[ClockTold])
        ensures { self.new ≡ spec.with_compared base clocks.now self.old }
    {
        for clock in clocks {
            self.compare(base, *clock);
        }
    }

    // The clocks before the first one with this rank. The result is how many these are, and that one.
    fn compare_before(&mut self, rank: u8, base: u32, clocks: &[ClockTold]) -> usize
        ensures value { spec.with_compared base (drop result clocks.now) self.new ≡ spec.with_others rank base clocks.now self.old }
        ensures within { result ≤ length clocks.now }
    {
        for (at, clock) in clocks.iter().enumerate() {
            if clock_rank(clock.system) == rank {
                return at + 1;
            }
            self.compare(base, *clock);
        }
        clocks.len()
    }

    // All clocks but the first one with this rank.
    fn compare_others(&mut self, chain: ChainClock, clocks: &[ClockTold])
        ensures { self.new ≡ spec.with_others chain.rank chain.time clocks.now self.old }
    {
        let count = self.compare_before(chain.rank, chain.time, clocks);
        self.compare_all(chain.time, &clocks[count..]);
    }

    // A chain more.
    fn take_chain(&mut self, clocks: &[ClockTold])
        ensures { self.new ≡ spec.with_chain clocks.now self.old }
    {
        if let Some(chain) = chain_clock(clocks) {
            self.compare_others(chain, clocks);
        }
    }
}

impl ClockSurvey {
    /// No message came.
    pub(crate) fn new() -> ClockSurvey
        ensures { result ≡ spec.no_clocks }
    {
        ClockSurvey {
            waiting: ArrayVec::new(),
            offsets: ClockOffsets::new(),
        }
    }

    fn open_with(&mut self, clock: ClockTold)
        ensures { self.new ≡ spec.with_open clock self.old }
    {
        if self.waiting.len() < MOST_WAITING {
            self.waiting.push(clock);
        }
    }

    // The chain in which a clock stands.
    fn begin_chain_if(&mut self, clock: ClockTold)
        ensures { self.new ≡ spec.chain_before clock self.old }
    {
        if begins_chain(self.waiting.as_slice(), clock) {
            self.waiting.clear();
        }
    }

    fn end_chain(&mut self)
        ensures { self.new ≡ spec.chain_ended self.old }
    {
        self.offsets.take_chain(self.waiting.as_slice());
        self.waiting.clear();
    }

    /// A message more.
    pub(crate) fn take(&mut self, message: &AnyMessage)
        ensures { self.new ≡ spec.with_clock_of message.now self.old }
    {
        let Some(clock) = clock_of(message) else {
            return;
        };
        self.begin_chain_if(clock);
        if more_follow(message) {
            self.open_with(clock);
            return;
        }
        // A chain of one clock compares none.
        if self.waiting.is_empty() {
            return;
        }
        self.open_with(clock);
        self.end_chain();
    }
}

/// A message more. The first one that other messages follow makes the entry, since a chain of one message
/// compares no clock.
pub(crate) fn take_clock(
    entries: &mut Vec<ClockSurvey>,
    message: &AnyMessage,
) -> Result<(), AllocError>
    ensures { OnOk result (spec.clocks_at entries.new ≡ spec.with_clock_of message.now (spec.clocks_at entries.old)) }
{
    if entries.is_empty() {
        if !more_follow(message) {
            return Ok(());
        }
        entries.push(ClockSurvey::new())?;
    }
    entries[0].take(message);
    Ok(())
}
