//! Laws: the promise of a conversion, the file of a set of messages, and what calls find.

ghost use Rattle.rtk_convert.specs.ArrivalLaws.{OneSetHasOneFile, LateLeaveFile, SoFarBegins, HeaderIsFinal, OthersLeaveFile, KeptFileIsTable, FrameAddsToOne};
ghost use Rattle.rtk_convert.specs.CallLaws.{CallsKeepPromise, CallsWriteKept, CallsComeToTable};
ghost use Rattle.rtk_convert.specs.ChannelLaws.{ReportTellsChannels};
ghost use Rattle.rtk_convert.specs.ConverterLaws.{LinkDecidesRefusal, LinkHoldsNewest, WaitingDecidesFrames, HeldDecidesCall, HeldDecidesEnd};
ghost use Rattle.rtk_convert.specs.CountLaws.{EachFrameInOneClass};
ghost use Rattle.rtk_convert.specs.FileLaws.{FileIsTable};
ghost use Rattle.rtk_convert.specs.Headline.{SetHasOneFile};
ghost use Rattle.rtk_convert.specs.HistoryLaws.{ComesToOne, FeedsToOne, ClosesToOne, EndsAtOne, CallsFindOne, NextIsOne, ReadsComeToOne};
ghost use Rattle.rtk_convert.specs.NumberLaws.{CountLinesTellCounts, ReportTellsCounts, EpochsAreRecords, EpochsAreOfTable};
ghost use Rattle.rtk_convert.specs.SetupLaws.{DefaultTakesFour, GpsMessagesStay};

use rtk_collect::{signal_window_laws, stations_are_final};
use rtk_message::decodes_by_four;
use rtk_obs::clock_laws;

/// The file of every set of messages is the text of a well-formed table, and so is the file of all
/// found frames: the checker accepts both.
pub fn file_laws()
    ensures table { FileIsTable }
    ensures kept { KeptFileIsTable }
{}

/// If equal keys carry equal bodies, the file depends only on the set of messages that came in
/// time. Late messages change nothing, nor do frames that are other, refused or foreign.
pub fn set_decides_file()
    ensures same { OneSetHasOneFile }
    ensures late { LateLeaveFile }
    ensures others { OthersLeaveFile }
{
    signal_window_laws();
}

/// Each later file begins with what is written, whatever arrives after it; its header stays.
pub fn file_only_grows()
    ensures begins { SoFarBegins }
    ensures header { HeaderIsFinal }
{}

/// For a setup with codes of GPS alone whose MSM is 1074 the messages are 1004, 1005, 1006 and 1074: the class
/// of a payload is that by `decode`.
pub fn default_takes_four()
    ensures { DefaultTakesFour }
{
    decodes_by_four();
}

/// A setup with codes of GPS alone takes messages of GPS and of stations alone. The cells of these messages are
/// those of GPS, and their epochs the moments of their times of week.
pub fn gps_messages_stay()
    ensures { GpsMessagesStay }
{}

/// A payload has one class. So the same calls always find the same frames, and come to the same
/// history. At most one link is next. So the history alone decides which link is read next, and the
/// same reads always come to the same history.
pub fn one_history_of_calls()
    ensures class { ComesToOne }
    ensures feed { FeedsToOne }
    ensures close { ClosesToOne }
    ensures end { EndsAtOne }
    ensures all { CallsFindOne }
    ensures next { NextIsOne }
    ensures reads { ReadsComeToOne }
{
    clock_laws();
}

/// What a converter holds decides what each call makes of its history and what the call answers.
/// `feed` and `close` are refused by what the history says of their link. `newest` answers what the
/// link holds. `feed` and `close` find the frames of the bytes that wait on the link. Whatever else
/// the history was, the next history, what is written and the counts that `finish` answers come out
/// the same.
pub fn converter_laws()
    ensures refused { LinkDecidesRefusal }
    ensures newest { LinkHoldsNewest }
    ensures found { WaitingDecidesFrames }
    ensures call { HeldDecidesCall }
    ensures end { HeldDecidesEnd }
{
    signal_window_laws();
    stations_are_final();
}

/// What a frame adds goes to the file or to the report, never to both.
pub fn frames_add_to_one()
    ensures { FrameAddsToOne }
{}

/// Each found frame is counted in one class: if there are fewer than 2^64, the count of frames is
/// their number, and so is the sum of the seven counts after it.
pub fn each_frame_in_one_class()
    ensures { EachFrameInOneClass }
{}

/// A slot of GLONASS stands in a line of the report exactly if a satellite of it has no channel in some message
/// that was dated, and so no phases there.
pub fn report_tells_channels()
    ensures { ReportTellsChannels }
{}

/// Equal lines of counts tell equal counts, and so do equal reports with the same lines of frames: no count
/// stops short of what a u64 holds.
pub fn report_tells_counts()
    ensures lines { CountLinesTellCounts }
    ensures report { ReportTellsCounts }
{}

/// The count `epochs` is the number of records in the file, if fewer than 2^64 epochs are kept: how
/// many of these have a record that is not empty, and how many `check` tells of the file.
pub fn epochs_are_records()
    ensures kept { EpochsAreRecords }
    ensures table { EpochsAreOfTable }
{}

/// A set of messages has one file, whatever the order in which they came.
pub fn set_has_one_file()
    ensures { SetHasOneFile }
{}

/// Any calls of `feed` and `close` on a new converter, each answered Ok, V2 or V3, and then
/// `finish` keep the promise, by their contracts alone. If equal keys carry different bodies, the
/// file has for each key the body that came first in time. Either way the report and the counts are
/// of all frames.
pub fn calls_keep_promise()
    ensures headline { CallsKeepPromise }
    ensures kept { CallsWriteKept }
{}

/// The file of what any calls find is the text of a well-formed table: the checker accepts it.
pub fn calls_come_to_table()
    ensures { CallsComeToTable }
{}
