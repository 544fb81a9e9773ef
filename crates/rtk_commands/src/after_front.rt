//! The part of a file without its first nine lines, in place of which those with a label are written.

ghost use Rattle.std.specs.Prelude.{◌≡◌, ◌≢◌, ◌⊎◌, IfOk, OnOk, OnErr, IfErr, Err, [], IsErrOf};
ghost use Rattle.rtk_frame.specs.Stream.{CountRises};
ghost use Rattle.rtk_cut.specs.Cut.{IsStepOrNone};
ghost use Rattle.rtk_commands.specs.declared.fault.ToolFault.TheVariants.{OutOfMemory, Output};
ghost use Rattle.rtk_commands.specs.CutInput.{WritesPartOfFile, WritesFirstOfPartOfFile, CountsPartOfFile, WritesRestOfPart, WritesFirstOfRest};
ghost use Rattle.rtk_commands.specs.FileTable.{text_of, HasItsLetter};

use crate::any_table::AnyTable;
use crate::before::Before;
use crate::fault::ToolFault;
use arrayvec::ArrayVec;
use rtk_cut::{CutCounts, CutFault, Part};
use rtk_frame::{Sink, StreamFault};
use rtk_label::PLAIN_FRONT;
use std::alloc::Global;
use std::marker::{Brand, Model, PhantomData};

// A sink that passes over the first nine lines that it takes, and hands on what comes after them. `K`
// knows what the sink behind had before.
#[derive(Drop)]
struct AfterFront<W: Sink, K: Before> {
    out: W,
    passed_over: ArrayVec<u8, PLAIN_FRONT>,
    of: PhantomData<K>,
}

impl<W: Sink, K: Before> Model for AfterFront<W, K> {
    ghost use Rattle.rtk_commands.specs.AfterFront.{AfterFrontView, after_front_code, IsAfterFront};

    ghost Value = { AfterFrontView W };

    ghost coded = { after_front_code W.code };

    ghost view = { λ s. record { out = s.out; passed_over = s.passed_over.items } };

    ghost invariant = { λ s. IsAfterFront (K.held 0) s.passed_over.items (W.taken s.out) };
}

impl<W: Sink, K: Before> AfterFront<W, K> {
    ghost use Rattle.rtk_commands.specs.AfterFront.{IsAfterFront};

    fn over(out: W) -> AfterFront<W, K>
        requires { K.held 0 ≡ W.taken out }
        ensures out { result.out ≡ out }
        ensures passed_over { result.passed_over ≡ [] }
    {
        AfterFront {
            out,
            passed_over: ArrayVec::new(),
            of: PhantomData,
        }
    }

    fn into_inner(self) -> W
        ensures out { result ≡ self.out }
        ensures after { IsAfterFront (K.held 0) self.passed_over (W.taken result) }
    {
        self.out
    }
}

impl<W: Sink, K: Before> Sink for AfterFront<W, K> {
    ghost use Rattle.rtk_commands.specs.AfterFront.{taken_after};

    ghost taken = { λ sink. taken_after (K.held 0) sink.passed_over (W.taken sink.out) };

    ghost failures = { λ sink. W.failures sink.out };

    fn write(&mut self, bytes: &[u8]) -> Result<usize, StreamFault> {
        let left = PLAIN_FRONT - self.passed_over.len();
        if left == 0 {
            return self.out.write(bytes);
        }
        let count = left.min(bytes.len());
        if self
            .passed_over
            .try_extend_from_slice(&bytes[..count])
            .is_err()
        {
            unreachable!();
        }
        Ok(count)
    }
}

// Writes the part of a table.
fn cut_table<W: Sink>(
    alloc: Global,
    table: &AnyTable<'_>,
    part: Part,
    out: &mut W,
) -> Result<CutCounts, ToolFault>
    requires letter { HasItsLetter table.now }
    requires step { IsStepOrNone part.every }
    ensures all { OnOk result (WritesPartOfFile (text_of table.now) part (W.taken out.old) (W.taken out.new)) }
    ensures counts { IfOk result (CountsPartOfFile (text_of table.now) part) }
    ensures first { OnErr result (WritesFirstOfPartOfFile (text_of table.now) part (W.taken out.old) (W.taken out.new)) }
    ensures output { IsErrOf result Output → CountRises (W.failures out.old) (W.failures out.new) }
    ensures no_failed_write { result ≢ Err Output → W.failures out.new ≡ W.failures out.old }
    ensures faults { IfErr result (λ fault. (fault ≡ OutOfMemory) ⊎ (fault ≡ Output)) }
{
    match table.cut(alloc, part, out) {
        Ok(counts) => Ok(counts),
        Err(CutFault::OutOfMemory) => Err(ToolFault::OutOfMemory),
        Err(CutFault::Write) => Err(ToolFault::Output),
    }
}

// `cut_rest` by what `K` knows of the sink.
fn cut_rest_by<W: Sink + Drop, K: Before>(
    alloc: Global,
    table: &AnyTable<'_>,
    part: Part,
    out: W,
) -> (W, Result<CutCounts, ToolFault>)
    requires letter { HasItsLetter table.now }
    requires step { IsStepOrNone part.every }
    requires known { K.held 0 ≡ W.taken out }
    ensures all { OnOk result.1 (WritesRestOfPart (text_of table.now) part (W.taken out) (W.taken result.0)) }
    ensures counts { IfOk result.1 (CountsPartOfFile (text_of table.now) part) }
    ensures first { OnErr result.1 (WritesFirstOfRest (text_of table.now) part (W.taken out) (W.taken result.0)) }
    ensures output { IsErrOf result.1 Output → CountRises (W.failures out) (W.failures result.0) }
    ensures no_failed_write { result.1 ≢ Err Output → W.failures result.0 ≡ W.failures out }
    ensures faults { IfErr result.1 (λ fault. (fault ≡ OutOfMemory) ⊎ (fault ≡ Output)) }
{
    let mut rest: AfterFront<W, K> = AfterFront::over(out);
    let done = cut_table(alloc, table, part, &mut rest);
    (rest.into_inner(), done)
}

/// Writes the part of a table without the nine lines that a label changes.
pub(crate) fn cut_rest<W: Sink + Drop>(
    alloc: Global,
    table: &AnyTable<'_>,
    part: Part,
    out: W,
) -> (W, Result<CutCounts, ToolFault>)
    requires letter { HasItsLetter table.now }
    requires step { IsStepOrNone part.every }
    ensures all { OnOk result.1 (WritesRestOfPart (text_of table.now) part (W.taken out) (W.taken result.0)) }
    ensures counts { IfOk result.1 (CountsPartOfFile (text_of table.now) part) }
    ensures first { OnErr result.1 (WritesFirstOfRest (text_of table.now) part (W.taken out) (W.taken result.0)) }
    ensures output { IsErrOf result.1 Output → CountRises (W.failures out) (W.failures result.0) }
    ensures no_failed_write { result.1 ≢ Err Output → W.failures result.0 ≡ W.failures out }
    ensures faults { IfErr result.1 (λ fault. (fault ≡ OutOfMemory) ⊎ (fault ≡ Output)) }
{
    cut_rest_by::<W, Brand>(alloc, table, part, out)
}
