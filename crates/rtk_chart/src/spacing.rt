//! How much room the lines of codes have in an SVG picture.

ghost use Rattle.std.specs.Prelude.{◌≡◌, ◌≤◌};
ghost use Rattle.rtk_chart.specs.SvgPicture.{lines_before, spacing_of, line_top, band_height, line_start, code_start, name_start, name_drop};

use crate::svg_codes::codes_before;
use crate::time_bin::TimeBin;

// More lines than these lie close, so that a day of all satellites fits a screen.
const MOST_WIDE: u64 = 48;

/// How the lines of codes lie.
#[derive(Clone, Copy)]
pub(crate) enum Spacing {
    /// Few lines have the room that their names need.
    Wide,
    /// Many lines have less than half of it, and bars of half the height.
    Close,
}

// How many lines the satellites before a place have: one for each code of theirs.
fn lines_before(bins: &[TimeBin], listed: usize, place: usize) -> u64
    requires listed { listed ≤ 16 }
    requires place { place ≤ 32 }
    ensures { result ≡ lines_before bins.now listed place }
{
    let mut lines = 0;
    for before in 0..place {
        lines += codes_before(bins, before, listed);
    }
    lines
}

impl Spacing {
    /// How the lines of a picture of so many codes lie.
    pub(crate) fn of(bins: &[TimeBin], listed: usize) -> Spacing
        requires { listed ≤ 16 }
        ensures { result ≡ spacing_of bins.now listed }
    {
        if lines_before(bins, listed, 32) > MOST_WIDE {
            return Spacing::Close;
        }
        Spacing::Wide
    }

    /// How far from the top of its band a line lies, after so many others.
    pub(crate) fn line_top(self, lines: u64) -> u64
        requires { lines ≤ 16 }
        ensures { result ≡ line_top self lines }
    {
        match self {
            Spacing::Wide => 22 * lines + 7,
            Spacing::Close => 10 * lines + 2,
        }
    }

    /// How high the band of a satellite with so many lines is.
    pub(crate) fn band_height(self, lines: u64) -> u64
        requires { lines ≤ 16 }
        ensures value { result ≡ band_height self lines }
        ensures least { 24 ≤ result }
        ensures bound { result ≤ 366 }
    {
        match self {
            Spacing::Wide => 22 * lines.max(1) + 14,
            Spacing::Close => 10 * lines.max(2) + 4,
        }
    }

    /// What stands between the place of a line and its title.
    pub(crate) fn line_start(self) -> &'static [u8]
        ensures { result.now ≡ line_start self }
    {
        match self {
            Spacing::Wide => b")'>\n<title>",
            Spacing::Close => b")scale(1 .5)'>\n<title>",
        }
    }

    /// What stands before the name of a code at its line.
    pub(crate) fn code_start(self) -> &'static [u8]
        ensures { result.now ≡ code_start self }
    {
        match self {
            Spacing::Wide => b"<text class='code' x='-6' y='16'>",
            Spacing::Close => b"<text class='code tiny' transform='scale(1 2)' x='-6' y='9'>",
        }
    }

    /// What stands before the height at which the name of a satellite lies.
    pub(crate) fn name_start(self) -> &'static [u8]
        ensures { result.now ≡ name_start self }
    {
        match self {
            Spacing::Wide => b"<text class='name' x='-40' y='",
            Spacing::Close => b"<text class='name low' x='-40' y='",
        }
    }

    /// How far below the middle of its band the name of a satellite stands.
    pub(crate) fn name_drop(self) -> u64
        ensures value { result ≡ name_drop self }
        ensures bound { result ≤ 9 }
    {
        match self {
            Spacing::Wide => 9,
            Spacing::Close => 7,
        }
    }
}
