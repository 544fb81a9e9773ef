//! What a command has made of a text before a byte of it is written.

ghost use Rattle.std.specs.Prelude.{◌≡◌, ◌≢◌, ◌⊎◌, [], Err, IfOk, IfErr, IsErrOf, IsOkAnd};
ghost use Rattle.rtk_frame.specs.Stream.{CountRises, with_more, TakesPart};
ghost use Rattle.rtk_commands.specs.declared.fault.ToolFault.TheVariants.{OutOfMemory, Output};

use crate::fault::ToolFault;
use crate::file_answer::FileAnswer;
use rtk_frame::{Sink, write_all};
use rtk_rinex::CheckFault;
use std::alloc::{AllocError, Global};

/// An answer, and all bytes that are written with it.
#[derive(Drop)]
pub(crate) struct Rendered {
    pub(crate) answer: FileAnswer,
    pub(crate) bytes: Vec<u8>,
}

impl Rendered {
    /// The text is refused, and nothing is written.
    pub(crate) fn refusal(alloc: Global, fault: CheckFault) -> Rendered
        ensures answer { result.answer ≡ FileAnswer.Refused fault }
        ensures bytes { result.bytes.items ≡ [] }
    {
        Rendered {
            answer: FileAnswer::Refused(fault),
            bytes: Vec::new(alloc),
        }
    }
}

/// Writes what was made of a text, or says that it could not be made.
pub(crate) fn write_rendered<W: Sink>(
    rendered: Result<Rendered, AllocError>,
    out: W,
) -> (W, Result<FileAnswer, ToolFault>)
    ensures all { IfOk result.1 (λ answer. IsOkAnd rendered (λ made.
        (answer ≡ made.answer) × (W.taken result.0 ≡ with_more (W.taken out) made.bytes.items))) }
    ensures part { IsErrOf result.1 Output → IsOkAnd rendered (λ made. TakesPart (W.taken out) (W.taken result.0) made.bytes.items) }
    ensures nothing { IsErrOf result.1 OutOfMemory → W.taken result.0 ≡ W.taken out }
    ensures output { IsErrOf result.1 Output → CountRises (W.failures out) (W.failures result.0) }
    ensures no_failed_write { result.1 ≢ Err Output → W.failures result.0 ≡ W.failures out }
    ensures faults { IfErr result.1 (λ fault. (fault ≡ OutOfMemory) ⊎ (fault ≡ Output)) }
{
    let made = match rendered {
        Ok(made) => made,
        Err(refused) => return (out, Err(refused.into())),
    };
    let mut out = out;
    match write_all(&mut out, made.bytes.as_slice()) {
        Ok(()) => (out, Ok(made.answer)),
        Err(_) => (out, Err(ToolFault::Output)),
    }
}
