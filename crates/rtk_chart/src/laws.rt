//! Laws of the definitions of a picture: how long and how wide a bin is, what it shows of its
//! epochs, where epochs are missing, what a heading tells, and how high and how large a picture is.

ghost use Rattle.rtk_chart.specs.Laws.{BinsAreFew, ShorterBinsAreTooMany, ScalesFillRoom, RowsHaveAllBins, ColumnsFillWidth, MissingMarksAreEpochs, MeansAreOfStrengths};
ghost use Rattle.rtk_chart.specs.MarkLaws.{CodesShowEpochs, SatellitesShowEpochs, CodesAreOfEpochs, GapsAreMissing, OutagesAreOfEpochs, MissingAreOfSteps, SlipsAndRisesAreDigits};
ghost use Rattle.rtk_chart.specs.GroupLaws.{SatellitesAreLabelled};
ghost use Rattle.rtk_chart.specs.HeadingLaws.{TablesHaveNumbers, TextHasHeading, EqualTextHeadings, SvgHasHeading, EqualSvgHeadings};
ghost use Rattle.rtk_chart.specs.SizeLaws.{SvgHasItsHeight, DaysFitScreen, NoneIsHigher, BarsAreSmall, NoBarIsLarger, BandsAreSmall, PicturesAreSmall, DaysAreSmall};

use rtk_obs::{one_reading, satellite_laws};
use rtk_tracking::bits_are_of_three_kinds;

/// A bin, which is drawn as a column, is as few intervals long as leave room for the file: so long,
/// there are as many bins as allowed at most, and if it were shorter there would be more.
pub fn bins_are_least()
    ensures few { BinsAreFew }
    ensures least { ShorterBinsAreTooMany }
{}

/// The bins of a picture fill its room. They are as short as leaves room, and each record has its
/// bin. In characters, a row has one character for each bin. In SVG, the
/// columns of the bins fill the width.
pub fn bins_fill_room()
    ensures scale { ScalesFillRoom }
    ensures rows { RowsHaveAllBins }
    ensures bands { ColumnsFillWidth }
{}

/// A bin has a mark between two records exactly if an epoch is missing in it: one a whole number of
/// intervals after the first record and before the second.
pub fn missing_marks_are_epochs()
    ensures { MissingMarksAreEpochs }
{}

/// A bin has of each code of each satellite the marks that the epochs in it call for, however many they
/// are, and no others. A satellite has a code in some bin exactly if it has its phase in some epoch. A bin
/// has the mark of missing epochs exactly if one is missing in it. A satellite has an outage in a bin exactly if
/// one of its outages lies there.
pub fn marks_are_of_epochs()
    ensures marks { CodesShowEpochs }
    ensures satellites { SatellitesShowEpochs }
    ensures codes { CodesAreOfEpochs }
    ensures gaps { GapsAreMissing }
    ensures outages { OutagesAreOfEpochs }
{}

/// Each bin of a picture has its column of strengths. The mean of a band in it is that of all strengths of the
/// band in the epochs of the column, if these and their sum are below 2^64.
pub fn means_are_of_strengths()
    ensures { MeansAreOfStrengths }
{}

/// In a picture of a file of any systems each satellite is drawn in one of the two groups of its system, and in no other
/// one. Its label there is its name in RINEX.
pub fn satellites_are_labelled()
    ensures { SatellitesAreLabelled }
{
    satellite_laws();
}

/// Missing epochs are counted step by step, and slips, returns and rises digit by digit: each digit with bit 0
/// is one of the three.
pub fn counts_are_of_epochs()
    ensures missing { MissingAreOfSteps }
    ensures slips { SlipsAndRisesAreDigits }
{
    bits_are_of_three_kinds();
}

/// A file with records has its numbers at the scale of each of its pictures: each record has its bin,
/// and moments and lengths of time are far below 2^64. Only its counts must be below 2^64.
pub fn files_have_numbers()
    ensures { TablesHaveNumbers }
{}

/// A picture in characters begins with its heading. Two files with equal headings have the same marker
/// and the same numbers, up to 2^64: first and last moment, interval and length of a bin if there is an
/// interval, records, satellites, slips, returns, rises and missing epochs.
pub fn text_headings_tell_numbers()
    ensures stands { TextHasHeading }
    ensures equal { EqualTextHeadings }
{
    one_reading();
}

/// A picture in SVG has its heading behind its marker. Two files with equal headings have the same
/// numbers, up to 2^64.
pub fn svg_headings_tell_numbers()
    ensures stands { SvgHasHeading }
    ensures equal { EqualSvgHeadings }
{
    one_reading();
}

/// A picture in SVG begins with its height, which is that of what it has. A picture of at most 40 satellites is less than
/// 2,000 units high, if each satellite has two bars or more, all have at most 130, and at most one code has a line
/// `never`. No picture is higher than 6,140 units.
pub fn svg_heights_are_of_what_is_drawn()
    ensures height { SvgHasItsHeight }
    ensures screen { DaysFitScreen }
    ensures most { NoneIsHigher }
{}

/// The line of a code in a picture in SVG has at most 620 bytes, and 22 more for each box and mark of its bar. Whatever
/// the file, it has at most 222,380 bytes. The bands of all satellites have at most 260 more for each satellite, and 22 more for
/// each box of an outage.
pub fn svg_bars_are_small()
    ensures forms { BarsAreSmall }
    ensures most { NoBarIsLarger }
    ensures bands { BandsAreSmall }
{}

/// A picture in SVG has at most 260,000 bytes beside its bands. So a picture of at most 40 satellites, 130 bars, and 29,000
/// boxes and marks has less than 1 MB.
pub fn svg_pictures_are_small()
    ensures parts { PicturesAreSmall }
    ensures day { DaysAreSmall }
{}
