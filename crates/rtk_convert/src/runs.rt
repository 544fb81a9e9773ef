//! A run: it reads all links to their ends, each time the one whose newest epoch is the least.

ghost use Rattle.std.specs.Prelude.{◌≡◌, ◌≢◌, ◌↔◌, ◌<◌, ◌≤◌, ◌+◌, ℕ, length, sum_by, Decides, MatchOption, IfSome, OnOk, IfOk, IfErr, IsErrOf};
ghost use Rattle.rtk_convert.specs.Converter.{IsLinkCount, RepresentsHistory};
ghost use Rattle.rtk_convert.specs.Failure.{IsFrameFault, IsReadingFault, IsRunFault};
ghost use Rattle.rtk_convert.specs.Steps.Faults.{IsReadFault};
ghost use Rattle.rtk_convert.specs.Headline.{RunHeadline};
ghost use Rattle.rtk_convert.specs.Kept.{RunKeeps};
ghost use Rattle.rtk_convert.specs.History.{History, new_history, IsOpen, IsUpTo, IsNextLink};
ghost use Rattle.rtk_convert.specs.ReadSteps.{HasCalled, SameFailures};
ghost use Rattle.rtk_convert.specs.Steps.ReadLink.{CallsOne, ReadsNext, ReadsToEnds, FailsRead};
ghost use Rattle.rtk_convert.specs.ReadHistory.{AllClosed};
ghost use Rattle.rtk_convert.specs.Run.{FailsReading, StaysOpen, BreaksOffRun};
ghost use Rattle.rtk_convert.specs.Outcome.{NamesFailedStreams};
ghost use Rattle.rtk_convert.specs.Writing.{written};

use crate::converter::Converter;
use crate::fault::ConvertFault;
use crate::link_number::LinkNumber;
use rtk_frame::{Sink, Source, read_one};
use rtk_obs::GpsMs;
use rtk_setup::{Counts, Setup};
use std::alloc::Global;

// How many bytes a read asks for.
const PIECE: usize = 512;

// Returns whether an epoch is before another one. `None` is before all epochs.
fn is_before(epoch: Option<GpsMs>, other: Option<GpsMs>) -> bool
    ensures { Decides result (¬ (IsUpTo other epoch)) }
{
    match (epoch, other) {
        (_, None) => false,
        (None, Some(_)) => true,
        (Some(epoch), Some(other)) => epoch < other,
    }
}

// Returns the link that is read next, or `None` if all are closed.
fn next_link(converter: &Converter) -> Option<usize>
    ensures next { (h : History) → RepresentsHistory converter.now h → MatchOption result (AllClosed h) (λ link. IsNextLink h link) }
    ensures within { IfSome result (λ link. link < length converter.now.links) }
{
    let mut next: Option<usize> = None;
    for link in 0..converter.links() {
        if !converter.is_open(link) {
            continue;
        }
        let Some(other) = next else {
            next = Some(link);
            continue;
        };
        if is_before(converter.newest(link), converter.newest(other)) {
            next = Some(link);
        }
    }
    next
}

// Reads a link once. It feeds the bytes, or closes the link if there are none.
fn read_link<R: Source, O: Sink, L: Sink>(
    converter: &mut Converter,
    link: usize,
    sources: &mut [R],
    buf: &mut [u8],
    out: &mut O,
    log: &mut L,
) -> Result<(), ConvertFault>
    requires link { link < length sources.old }
    requires links { length sources.old ≤ 16 }
    requires room { length buf.old ≡ 512 }
    ensures same_setup { converter.new.conversion.setup ≡ converter.old.conversion.setup }
    ensures calls { CallsOne R.calls sources.old sources.new }
    ensures reads { ReadsNext R.given R.is_at_end converter.old link sources.old sources.new result converter.new
        (written (O.taken out.old) (L.taken log.old)) (written (O.taken out.new) (L.taken log.new)) }
    ensures read_failed { (h : History) → RepresentsHistory converter.old h → IsOpen h link → (k : ℕ) → IsErrOf result (ConvertFault.Read k)
        → (k ≡ link) × FailsRead R.given R.failures k sources.old sources.new
        (written (O.taken out.old) (L.taken log.old)) (written (O.taken out.new) (L.taken log.new)) }
    ensures fault { IfErr result (λ fault. (h : History) → RepresentsHistory converter.old h → IsOpen h link → IsReadFault fault) }
    ensures failed { NamesFailedStreams result (O.failures out.old) (O.failures out.new) (L.failures log.old) (L.failures log.new) }
    ensures no_failed_read { ((k : ℕ) → ¬ (IsErrOf result (ConvertFault.Read k))) → SameFailures R.failures sources.old sources.new }
{
    let Ok(count) = read_one(sources, link, buf) else {
        // The fault alone has the number as a `u8`.
        let link = LinkNumber::new(link).from_zero();
        return Err(ConvertFault::Read { link });
    };
    if count == 0 {
        return converter.close(link, out, log);
    }
    converter.feed(link, &buf[..count], out, log)
}

// Reads all links to their end.
fn read_all<R: Source, O: Sink, L: Sink>(
    converter: &mut Converter,
    sources: &mut [R],
    out: &mut O,
    log: &mut L,
    max_reads: u64,
) -> Result<(), ConvertFault>
    requires links { length sources.old ≤ 16 }
    requires fresh { RepresentsHistory converter.old (new_history (length sources.old)) }
    ensures same_setup { converter.new.conversion.setup ≡ converter.old.conversion.setup }
    ensures reads { sum_by R.calls sources.new ≤ sum_by R.calls sources.old + max_reads }
    ensures ends { ReadsToEnds R.given R.calls R.is_at_end converter.old.conversion.setup max_reads sources.old sources.new
        result converter.new (written (O.taken out.old) (L.taken log.old)) (written (O.taken out.new) (L.taken log.new)) }
    ensures read_failed { (link : ℕ) → IsErrOf result (ConvertFault.Read link)
        → FailsReading R.given R.failures R.calls converter.old.conversion.setup link sources.old sources.new
        (written (O.taken out.old) (L.taken log.old)) (written (O.taken out.new) (L.taken log.new)) }
    ensures fault { IfErr result IsReadingFault }
    ensures no_failed_read { ((k : ℕ) → ¬ (IsErrOf result (ConvertFault.Read k))) → SameFailures R.failures sources.old sources.new }
    ensures failed { NamesFailedStreams result (O.failures out.old) (O.failures out.new) (L.failures log.old) (L.failures log.new) }
{
    let mut buf = [0u8; PIECE];
    'reads: for _made in 0..max_reads {
        let Some(link) = next_link(converter) else {
            return Ok(());
        };
        read_link(converter, link, sources, &mut buf, out, log)?;
    }
    match next_link(converter) {
        None => Ok(()),
        Some(_) => Err(ConvertFault::Endless),
    }
}

/// Converts what the sources give, each of which is a link. The file goes to `out`, and the report
/// to `log`.
///
/// The next read is of the open link whose newest epoch is the least; a link that had no epoch yet
/// comes first, and of links with equal ones the one with the lowest number. A read asks for 512
/// bytes. One that gives none closes its link, and when all links are closed the conversion ends.
/// The order in which messages come, and so which are late, depends on how many bytes each read
/// gives.
///
/// The clause `headline` is the promise of a conversion in one sentence, and `kept` says the rest of
/// the same reads. `calls_keep_promise` says both of any calls of a `Converter`, and
/// `set_has_one_file` that the set decides the file.
///
/// V1 if there are not 1 to 16 sources, before anything else; V4 if memory is refused; V5 if a
/// write fails, and V6 if a read does; V7 if a link is still open after `max_reads` reads.
pub fn run<R: Source, O: Sink, L: Sink>(
    alloc: Global,
    setup: Setup,
    sources: &mut [R],
    out: &mut O,
    log: &mut L,
    max_reads: u64,
) -> Result<Counts, ConvertFault>
    // Done: the promise, and what it leaves out.
    ensures headline { OnOk result (RunHeadline R.given R.is_at_end setup sources.old sources.new
        (written (O.taken out.old) (L.taken log.old)) (written (O.taken out.new) (L.taken log.new))) }
    ensures kept { IfOk result (λ counts. RunKeeps R.given R.calls R.is_at_end setup sources.old sources.new counts
        (written (O.taken out.old) (L.taken log.old)) (written (O.taken out.new) (L.taken log.new))) }

    // Not done: what is out, as far as the run came.
    ensures breaks_off { IfErr result (λ fault. IsFrameFault fault
        → BreaksOffRun R.given R.calls R.is_at_end setup sources.old sources.new
        (written (O.taken out.old) (L.taken log.old)) (written (O.taken out.new) (L.taken log.new))) }
    ensures read_failed { (link : ℕ) → IsErrOf result (ConvertFault.Read link)
        → FailsReading R.given R.failures R.calls setup link sources.old sources.new
        (written (O.taken out.old) (L.taken log.old)) (written (O.taken out.new) (L.taken log.new)) }
    ensures endless { IsErrOf result ConvertFault.Endless
        → StaysOpen R.given R.is_at_end setup max_reads sources.old sources.new
        (written (O.taken out.old) (L.taken log.old)) (written (O.taken out.new) (L.taken log.new))
        × HasCalled R.calls sources.old sources.new max_reads }
    ensures untouched { IsErrOf result ConvertFault.Setup → (sources.new ≡ sources.old) × (out.new ≡ out.old) × (log.new ≡ log.old) }

    // When each fault, and how many reads; a stream or a source that failed is named.
    ensures link_count { IsErrOf result ConvertFault.Setup ↔ ¬ (IsLinkCount (length sources.old)) }
    // V4 comes only if memory is refused: tests/system/calls, rows `run of ..`.
    ensures fault { IfErr result IsRunFault }
    ensures reads { sum_by R.calls sources.new ≤ sum_by R.calls sources.old + max_reads }
    ensures failed { NamesFailedStreams result (O.failures out.old) (O.failures out.new) (L.failures log.old) (L.failures log.new) }
    ensures no_failed_read { ((k : ℕ) → ¬ (IsErrOf result (ConvertFault.Read k))) → SameFailures R.failures sources.old sources.new }
{
    let mut converter = Converter::new(alloc, setup, sources.len())?;
    if let Err(fault) = read_all(&mut converter, sources, out, log, max_reads) {
        return Err(fault);
    }
    converter.finish(out, log)
}
