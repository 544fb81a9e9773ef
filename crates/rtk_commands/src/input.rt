//! Inputs that are read whole, in pieces of 4,096 bytes.

ghost use Rattle.std.specs.Prelude.{◌≡◌, ◌≢◌, ◌+◌, ◌<◌, ◌≤◌, length, Err, IfOk, OnOk, IsErrOf, IfSome};
ghost use Rattle.std.specs.Io.KnownBytes.{Keeps};
ghost use Rattle.rtk_frame.specs.Stream.{CountRises};
ghost use Rattle.rtk_commands.specs.Input.{GivesText};
ghost use Rattle.rtk_commands.specs.declared.fault.ToolFault.TheVariants.{Input, TooLong, NotHex, Output};

use crate::before::Before;
use crate::fault::ToolFault;
use crate::files::Reads;
use rtk_frame::Source;
use std::alloc::Global;
use std::io::Read;
use std::marker::Brand;

/// The most bytes that one read asks for.
const PIECE: usize = 4096;

/// All bytes of a source, up to its end. An input longer than `limit` is refused; of it one byte
/// more than the limit is read.
pub(crate) fn read_whole<R: Source>(
    alloc: Global,
    reader: &mut R,
    limit: usize,
) -> Result<Vec<u8>, ToolFault>
    // `OutOfMemory` comes only if memory is refused: tests/system/calls, rows `show ..` and `check_file ..`.
    ensures whole { IfOk result (λ bytes. GivesText (R.given reader.old) (R.given reader.new) (λ text.
        (text ≡ bytes.items) × (length text ≤ limit))) }
    ensures to_the_end { OnOk result (R.is_at_end reader.new) }
    ensures no_fault { result ≢ Err Input → R.failures reader.new ≡ R.failures reader.old }
    ensures input { IsErrOf result Input → CountRises (R.failures reader.old) (R.failures reader.new) }
    ensures too_long { IsErrOf result TooLong
        → GivesText (R.given reader.old) (R.given reader.new) (λ text. length text ≡ limit + 1) }
    ensures within { GivesText (R.given reader.old) (R.given reader.new) (λ text.
        length text ≤ limit + 1) }
    ensures not_hex { IsErrOf result NotHex → ⊥ }
    ensures not_output { IsErrOf result Output → ⊥ }
{
    let mut bytes = Vec::new(alloc);
    let mut piece = [0u8; PIECE];
    while bytes.len() <= limit {
        let room = PIECE.min((limit - bytes.len()).saturating_add(1));
        let Ok(count) = reader.read(&mut piece[..room]) else {
            return Err(ToolFault::Input);
        };
        if count == 0 {
            return Ok(bytes);
        }
        bytes.extend_from_slice(&piece[..count])?;
    }
    Err(ToolFault::TooLong)
}

// `read_whole` over the reader of number 0, by what `K` knows of its bytes.
fn read_by<R: Read + Drop, K: Before>(
    alloc: Global,
    reader: R,
    limit: usize,
) -> Result<Vec<u8>, ToolFault>
    requires { Keeps (K.had 0) (R.remaining reader) }
    ensures whole { IfOk result (λ text. IfSome (K.had 0) (λ bytes. bytes ≡ text.items)) }
    ensures limit { IfOk result (λ text. length text.items ≤ limit) }
    ensures too_long { IsErrOf result TooLong → IfSome (K.had 0) (λ bytes. limit < length bytes) }
{
    let mut source: Reads<R, K> = Reads::over(reader, 0);
    let text = read_whole(alloc, &mut source, limit)?;
    Ok(text)
}

/// All bytes of a reader, up to its end: if they are known, they are those that it has left, in
/// order, none added, lost or changed.
pub fn read_through<R: Read + Drop>(
    alloc: Global,
    reader: R,
    limit: usize,
) -> Result<Vec<u8>, ToolFault>
    ensures whole { IfOk result (λ text. IfSome (R.remaining reader) (λ bytes. bytes ≡ text.items)) }
    ensures limit { IfOk result (λ text. length text.items ≤ limit) }
    ensures too_long { IsErrOf result TooLong → IfSome (R.remaining reader) (λ bytes. limit < length bytes) }
{
    read_by::<R, Brand>(alloc, reader, limit)
}
