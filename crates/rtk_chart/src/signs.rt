//! What a bin shows of a satellite, over its codes; and the codes that a satellite has in a file.

ghost use Rattle.std.specs.Prelude.{◌≡◌, ◌<◌, ◌&&◌, ℕ, Bool};
ghost use Rattle.rtk_tracking.specs.Standing.{AreMarked};
ghost use Rattle.rtk_chart.specs.Grid.{tracking_at, marks_at};
ghost use Rattle.rtk_chart.specs.Signs.{is_tracked, has_slip, has_return, has_rise, has_half, least_level, is_drawn, has_code, is_never, is_missing};

use crate::code_marks::CodeMarks;
use crate::time_bin::TimeBin;
use crate::tracking::Tracking;
use rtk_tracking::lesser;

/// Some phase stands.
pub(crate) fn is_tracked(tracking: &Tracking) -> bool
    ensures { result ≡ is_tracked tracking.now }
{
    tracking.codes.iter().any(|marks| marks.phase)
}

pub(crate) fn has_slip(tracking: &Tracking) -> bool
    ensures { result ≡ has_slip tracking.now }
{
    tracking.codes.iter().any(|marks| marks.slip)
}

pub(crate) fn has_rise(tracking: &Tracking) -> bool
    ensures { result ≡ has_rise tracking.now }
{
    tracking.codes.iter().any(|marks| marks.rise)
}

pub(crate) fn has_return(tracking: &Tracking) -> bool
    ensures { result ≡ has_return tracking.now }
{
    tracking.codes.iter().any(|marks| marks.returned)
}

pub(crate) fn has_half(tracking: &Tracking) -> bool
    ensures { result ≡ has_half tracking.now }
{
    tracking.codes.iter().any(|marks| marks.half)
}

/// The least strength digit.
pub(crate) fn least_level(tracking: &Tracking) -> Option<u8>
    ensures { result ≡ least_level tracking.now }
{
    let mut least = None;
    for marks in &tracking.codes {
        least = lesser(least, marks.least);
    }
    least
}

/// The satellite at this place has a row in the file.
pub(crate) fn is_drawn(bins: &[TimeBin], place: usize) -> bool
    requires { place < 32 }
    ensures { result ≡ is_drawn bins.now place }
{
    for bin in bins {
        if bin.satellites[place].seen {
            return true;
        }
    }
    false
}

/// The marks of the code at this place.
pub(crate) fn marks_at(tracking: &Tracking, code: usize) -> CodeMarks
    ensures { result ≡ marks_at code tracking.now }
{
    if code < 16 {
        tracking.codes[code]
    } else {
        CodeMarks::new()
    }
}

// The satellite at this place has a phase of the code at this place in a bin.
fn has_phase_in(bin: &TimeBin, place: usize, code: usize) -> bool
    requires { place < 32 }
    ensures { result ≡ (marks_at code (tracking_at place bin.now)).phase }
{
    marks_at(&bin.satellites[place], code).phase
}

/// The satellite at this place has a phase of the code at this place somewhere in the file.
pub(crate) fn has_code(bins: &[TimeBin], place: usize, code: usize) -> bool
    requires { place < 32 }
    ensures { result ≡ has_code bins.now place code }
{
    for bin in bins {
        if has_phase_in(bin, place, code) {
            return true;
        }
    }
    false
}

/// Which codes the satellite at this place has somewhere in the file.
pub(crate) fn codes_had(bins: &[TimeBin], place: usize) -> [bool; 16]
    requires { place < 32 }
    ensures { AreMarked result (has_code bins.now place) }
{
    let mut had = [false; 16];
    for code in 0..16 {
        had[code] = has_code(bins, place, code);
    }
    had
}

/// The satellite at this place has a row in the file, and a phase of the code at this place nowhere.
pub(crate) fn is_never(bins: &[TimeBin], code: usize, place: usize) -> bool
    requires { place < 32 }
    ensures { result ≡ is_never bins.now code place }
{
    is_drawn(bins, place) && !has_code(bins, place, code)
}

// The code at this place is missing, and the satellite has it elsewhere.
fn is_missing_at(had: &[bool; 16], tracking: &Tracking, code: usize) -> bool
    requires { code < 16 }
    ensures { (has : ℕ → Bool) → AreMarked had.now has → result ≡ (has code && (marks_at code tracking.now).missing) }
{
    had[code] && marks_at(tracking, code).missing
}

/// A code is missing that the satellite has elsewhere.
pub(crate) fn is_missing(had: &[bool; 16], tracking: &Tracking) -> bool
    ensures { (has : ℕ → Bool) → AreMarked had.now has → result ≡ is_missing has tracking.now }
{
    for code in 0..16 {
        if is_missing_at(had, tracking, code) {
            return true;
        }
    }
    false
}
