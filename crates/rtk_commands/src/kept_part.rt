//! The command `cut` of some systems alone: the others are left out, and then the part is cut.

ghost use Rattle.std.specs.Prelude.{◌≡◌, ◌≢◌, ◌⊎◌, Err, IfOk, OnErr, IfErr, IsErrOf};
ghost use Rattle.rtk_frame.specs.Stream.{CountRises};
ghost use Rattle.rtk_cut.specs.Cut.{IsStepOrNone};
ghost use Rattle.rtk_commands.specs.FileTable.{IsTextOfSomeFile};
ghost use Rattle.rtk_commands.specs.FileText.{WritesAll, WritesFirst};
ghost use Rattle.rtk_commands.specs.KeptPartInput.{IsTextOfSystems, HasNoneAbsent, CutsPlain, CutsKeptOfPlain};
ghost use Rattle.rtk_commands.specs.declared.fault.ToolFault.TheVariants.{OutOfMemory, Output};

use crate::any_table::check_any;
use crate::cutting::cut_labelled;
use crate::fault::ToolFault;
use crate::file_answer::FileAnswer;
use crate::file_command::FileCommand;
use crate::with_label::{LabelledMixed, LabelledTable, mixed_with_label};
use rtk_cut::{Part, first_absent, keep_systems, kept_files_are_tables};
use rtk_frame::Sink;
use rtk_label::{Label, TimeLines};
use rtk_rinex::{MixedTextTable, SystemFlags, gps_files_stay, types_tell_shifts};
use std::alloc::Global;

/// The command `cut` of some systems of a file.
#[derive(Clone, Copy, Debug)]
pub struct KeptPart {
    /// The systems that are kept.
    pub kept: SystemFlags,
    /// The part of the file with these systems alone.
    pub part: Part,
}

// Writes the part of the file whose text this is, with a label and with its own time lines, as far as they are asked for.
fn cut_plain<W: Sink + Drop>(
    alloc: Global,
    plain: &[u8],
    label: Label,
    times: TimeLines,
    part: Part,
    out: W,
) -> (W, Result<FileAnswer, ToolFault>)
    requires some { IsTextOfSomeFile plain.now }
    requires step { IsStepOrNone part.every }
    ensures all { IfOk result.1 (λ answer. WritesAll (CutsPlain part plain.now times label answer) (W.taken out) (W.taken result.0)) }
    ensures first { OnErr result.1 (WritesFirst (CutsPlain part plain.now times label) (W.taken out) (W.taken result.0)) }
    ensures output { IsErrOf result.1 Output → CountRises (W.failures out) (W.failures result.0) }
    ensures no_failed_write { result.1 ≢ Err Output → W.failures result.0 ≡ W.failures out }
    ensures faults { IfErr result.1 (λ fault. (fault ≡ OutOfMemory) ⊎ (fault ≡ Output)) }
{
    let Ok(table) = check_any(plain) else {
        unreachable!();
    };
    let file = LabelledTable {
        label,
        times,
        table,
    };
    let (out, done) = cut_labelled(alloc, &file, &part, out);
    match done {
        Ok(counts) => (out, Ok(FileAnswer::Cut(counts))),
        Err(fault) => (out, Err(fault)),
    }
}

// Writes the part of a file of which some systems alone are kept, with a label and time lines. Of each of these systems the
// file has a code.
fn cut_present<W: Sink + Drop>(
    alloc: Global,
    table: &MixedTextTable<'_>,
    label: Label,
    times: TimeLines,
    command: KeptPart,
    out: W,
) -> (W, Result<FileAnswer, ToolFault>)
    requires some { IsTextOfSystems table.now.text }
    requires present { HasNoneAbsent command.kept table.now.text }
    requires step { IsStepOrNone command.part.every }
    ensures all { IfOk result.1 (λ answer. WritesAll (CutsKeptOfPlain command table.now.text times label answer) (W.taken out) (W.taken result.0)) }
    ensures part { IsErrOf result.1 Output → WritesFirst (CutsKeptOfPlain command table.now.text times label) (W.taken out) (W.taken result.0) }
    ensures memory { IsErrOf result.1 OutOfMemory → (W.taken result.0 ≡ W.taken out)
        ⊎ WritesFirst (CutsKeptOfPlain command table.now.text times label) (W.taken out) (W.taken result.0) }
    ensures output { IsErrOf result.1 Output → CountRises (W.failures out) (W.failures result.0) }
    ensures no_failed_write { result.1 ≢ Err Output → W.failures result.0 ≡ W.failures out }
    ensures faults { IfErr result.1 (λ fault. (fault ≡ OutOfMemory) ⊎ (fault ≡ Output)) }
{
    // Laws: what is kept of a file is a file, also if it is one of GPS alone, and its types tell whether it has Doppler
    // shifts.
    kept_files_are_tables();
    gps_files_stay();
    types_tell_shifts();
    let kept = match keep_systems(alloc, table, command.kept) {
        Ok(kept) => kept,
        Err(refused) => return (out, Err(refused.into())),
    };
    match kept {
        Some(narrow) => cut_plain(alloc, narrow.as_slice(), label, times, command.part, out),
        None => (out, Ok(FileAnswer::NoneChosen)),
    }
}

// Writes the part of a file of which some systems alone are kept, with its label, and with time lines if the file has them.
fn cut_kept<W: Sink + Drop>(
    alloc: Global,
    file: LabelledMixed<'_>,
    command: KeptPart,
    out: W,
) -> (W, Result<FileAnswer, ToolFault>)
    requires some { IsTextOfSystems file.table.text }
    requires step { IsStepOrNone command.part.every }
    ensures all { IfOk result.1 (λ answer. WritesAll (CutsKeptOfPlain command file.entry.table.text file.entry.times file.entry.label answer) (W.taken out) (W.taken result.0)) }
    ensures part { IsErrOf result.1 Output → WritesFirst (CutsKeptOfPlain command file.entry.table.text file.entry.times file.entry.label) (W.taken out) (W.taken result.0) }
    ensures memory { IsErrOf result.1 OutOfMemory → (W.taken result.0 ≡ W.taken out)
        ⊎ WritesFirst (CutsKeptOfPlain command file.entry.table.text file.entry.times file.entry.label) (W.taken out) (W.taken result.0) }
    ensures output { IsErrOf result.1 Output → CountRises (W.failures out) (W.failures result.0) }
    ensures no_failed_write { result.1 ≢ Err Output → W.failures result.0 ≡ W.failures out }
    ensures faults { IfErr result.1 (λ fault. (fault ≡ OutOfMemory) ⊎ (fault ≡ Output)) }
{
    let LabelledMixed {
        label,
        times,
        table,
    } = file;
    match first_absent(&table, command.kept) {
        Some(system) => (out, Ok(FileAnswer::Absent(system))),
        None => cut_present(alloc, &table, label, times, command, out),
    }
}

impl FileCommand for KeptPart {
    ghost use Rattle.std.specs.Prelude.{true};
    ghost use Rattle.rtk_cut.specs.Cut.{IsStepOrNone};
    ghost use Rattle.rtk_commands.specs.KeptPartInput.{CutsKeptOfText};

    ghost IN_PIECES = { true };

    const IN_PIECES: bool = true;

    ghost IsAllowed = { λ command. IsStepOrNone command.part.every };

    ghost writes = { CutsKeptOfText };

    fn write<W: Sink + Drop>(
        &self,
        alloc: Global,
        text: &mut [u8],
        out: W,
    ) -> (W, Result<FileAnswer, ToolFault>) {
        let read = match mixed_with_label(alloc, text) {
            Ok(read) => read,
            Err(refused) => return (out, Err(refused.into())),
        };
        match read {
            Ok(file) => cut_kept(alloc, file, *self, out),
            Err(fault) => (out, Ok(FileAnswer::Refused(fault))),
        }
    }
}
