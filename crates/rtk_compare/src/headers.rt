//! The headers of two files.

ghost use Rattle.std.specs.Prelude.{◌≡◌, bytes_eq};
ghost use Rattle.rtk_obs.specs.Carriers.{IsSlot, channel_at};
ghost use Rattle.rtk_rinex.specs.Header.{position_view};
ghost use Rattle.rtk_compare.specs.Cells.{is_gone, is_other_number};
ghost use Rattle.rtk_compare.specs.Differences.{Adds};
ghost use Rattle.rtk_compare.specs.Headers.{lines_of, is_known, is_same_place, position_differences, is_listed, code_line, code_lines, slot_lines, channel_lines, lines_of_told, told_beside, glonass_differences, marker_lines, shifts_line, header_lines};

use crate::difference::{Class, Place, What};
use crate::findings::Findings;
use rtk_obs::{AnyCode, Position};
use rtk_rinex::{Glonass, MixedHead, MixedHeading};

/// Something that both files can have or not.
#[derive(Clone, Copy)]
pub(crate) struct Having {
    /// The old file has it.
    pub(crate) was: bool,
    /// The new file has it.
    pub(crate) is: bool,
    pub(crate) is_same: bool,
}

impl Having {
    /// Adds that it is lost, or has changed.
    pub(crate) fn put(&self, what: What, findings: &mut Findings)
        ensures { Adds findings.old findings.new (lines_of self.now.was self.now.is self.now.is_same what) }
    {
        let place = Place::header();
        findings.push_if(self.was & !self.is, Class::Lost, what, &place);
        findings.push_if(
            self.was & self.is & !self.is_same,
            Class::Changed,
            what,
            &place,
        );
    }
}

// Is a position known? Zeros stand for one that is not.
fn is_known(position: &Position) -> bool
    ensures { result ≡ is_known (position_view position.now) }
{
    !(position.x == 0 && position.y == 0 && position.z == 0)
}

// Are two positions the same?
fn is_same_place(old: &Position, new: &Position) -> bool
    ensures { result ≡ is_same_place (position_view old.now) (position_view new.now) }
{
    old.x == new.x && old.y == new.y && old.z == new.z
}

// Compares positions and heights.
fn compare_positions(old: &Position, new: &Position, findings: &mut Findings)
    ensures { Adds findings.old findings.new (position_differences (position_view old.now) (position_view new.now)) }
{
    let was = is_known(old);
    let is = is_known(new);
    let is_same = is_same_place(old, new);
    let position = Having { was, is, is_same };
    position.put(What::Position, findings);
    let height = Having {
        was: 0 < old.height,
        is: 0 < new.height,
        is_same: old.height == new.height,
    };
    height.put(What::Height, findings);
}

// Is a code listed?
fn is_listed(code: AnyCode, listed: &[AnyCode]) -> bool
    ensures { result ≡ is_listed code listed.now }
{
    for other in listed {
        if code.number() == other.number() {
            return true;
        }
    }
    false
}

// Adds a code that is not listed any more.
fn compare_code(code: AnyCode, news: &[AnyCode], findings: &mut Findings)
    ensures { Adds findings.old findings.new (code_line code news.now) }
{
    let place = Place::of_code(code);
    let is_listed = is_listed(code, news);
    findings.push_if(!is_listed, Class::Lost, What::Code, &place);
}

// Adds the codes that are not listed any more.
fn compare_codes(olds: &[AnyCode], news: &[AnyCode], findings: &mut Findings)
    ensures { Adds findings.old findings.new (code_lines olds.now news.now) }
{
    for code in olds {
        compare_code(*code, news, findings);
    }
}

// Returns the number of the channel of a slot.
fn channel_of(glonass: &Glonass, slot: u8) -> Option<i8>
    requires { IsSlot slot }
    ensures { result ≡ channel_at glonass.now.channels slot }
{
    match glonass.channels().channel(slot) {
        Some(channel) => Some(channel.number()),
        None => None,
    }
}

// Has the old file a channel that the new one has not?
fn channel_is_gone(old: Option<i8>, new: Option<i8>) -> bool
    ensures { result ≡ is_gone old new }
{
    old.is_some() && new.is_none()
}

// Have both files a channel, but not the same?
fn is_other_channel(old: Option<i8>, new: Option<i8>) -> bool
    ensures { result ≡ is_other_number old new }
{
    match (old, new) {
        (Some(old), Some(new)) => old != new,
        _ => false,
    }
}

// Compares the channels of a slot.
fn compare_slots(old: &Glonass, new: &Glonass, slot: u8, findings: &mut Findings)
    requires { IsSlot slot }
    ensures { Adds findings.old findings.new (slot_lines old.now new.now slot) }
{
    let place = Place::of_slot(slot);
    let was = channel_of(old, slot);
    let is = channel_of(new, slot);
    let is_gone = channel_is_gone(was, is);
    findings.push_if(is_gone, Class::Lost, What::Channel, &place);
    let has_changed = is_other_channel(was, is);
    findings.push_if(has_changed, Class::Changed, What::Channel, &place);
}

// Compares the channels of all slots.
fn compare_channels(old: &Glonass, new: &Glonass, findings: &mut Findings)
    ensures { Adds findings.old findings.new (channel_lines old.now new.now) }
{
    for slot in 1..28 {
        compare_slots(old, new, slot, findings);
    }
}

// Compares what is told of GLONASS.
fn compare_told(old: &Glonass, new: &Glonass, findings: &mut Findings)
    ensures { Adds findings.old findings.new (lines_of_told old.now new.now) }
{
    compare_channels(old, new, findings);
    let place = Place::header();
    let is_same = old.leap_seconds() == new.leap_seconds();
    findings.push_if(!is_same, Class::Changed, What::LeapSeconds, &place);
}

// Compares what is told of GLONASS, if the new file tells it.
fn compare_with(old: &Glonass, new: Option<Glonass>, findings: &mut Findings)
    ensures { Adds findings.old findings.new (told_beside old.now new) }
{
    if let Some(new) = new {
        compare_told(old, &new, findings);
    }
}

// Compares what is told of GLONASS, if both files tell it.
fn compare_glonass(old: Option<Glonass>, new: Option<Glonass>, findings: &mut Findings)
    ensures { Adds findings.old findings.new (glonass_differences old new) }
{
    if let Some(old) = old {
        compare_with(&old, new, findings);
    }
}

/// Are two texts the same?
pub(crate) fn is_same_text(old: &[u8], new: &[u8]) -> bool
    ensures { result ≡ bytes_eq old.now new.now }
{
    old == new
}

// Compares the names of the markers.
fn compare_markers(old: &[u8], new: &[u8], findings: &mut Findings)
    ensures { Adds findings.old findings.new (marker_lines old.now new.now) }
{
    let place = Place::header();
    let is_same = is_same_text(old, new);
    findings.push_if(!is_same, Class::Changed, What::Marker, &place);
}

// Compares whether the files show Doppler shifts.
fn compare_shifts(was: bool, is: bool, findings: &mut Findings)
    ensures { Adds findings.old findings.new (shifts_line was is) }
{
    let place = Place::header();
    findings.push_if(was & !is, Class::Lost, What::Doppler, &place);
}

/// Compares the headers of two files.
pub(crate) fn compare_headers(
    old: &MixedHeading<'_>,
    new: &MixedHeading<'_>,
    findings: &mut Findings,
)
    ensures { Adds findings.old findings.new
        (header_lines old.now.head (position_view old.now.position) new.now.head (position_view new.now.position)) }
{
    compare_markers(old.head.marker(), new.head.marker(), findings);
    compare_positions(&old.position, &new.position, findings);
    compare_codes(old.head.codes(), new.head.codes(), findings);
    compare_glonass(old.head.glonass(), new.head.glonass(), findings);
    compare_shifts(old.head.has_doppler(), new.head.has_doppler(), findings);
}
