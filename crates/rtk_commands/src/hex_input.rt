//! Captures that are written as hex text.

ghost use Rattle.std.specs.Prelude.{◌≡◌, ◌≢◌, Some, IfOk, IfErr, IsErrOf, IsNone};
ghost use Rattle.rtk_commands.specs.Hex.{is_white_space, bytes_of_hex};
ghost use Rattle.rtk_commands.specs.declared.fault.ToolFault.TheVariants.{NotHex, OutOfMemory};

use crate::fault::ToolFault;
use hex::FromHexError;
use std::alloc::Global;

// A byte that may stand between hex digits and is left out.
fn is_white_space(byte: u8) -> bool
    ensures { result ≡ is_white_space byte }
{
    matches!(byte, b' ' | b'\t' | b'\r' | b'\n')
}

/// The bytes that a hex text stands for: two digits each, of either case, the high four bits first.
/// Blanks, tabs and line ends (CR, LF) are left out.
pub(crate) fn decode_hex(alloc: Global, text: &[u8]) -> Result<Vec<u8>, ToolFault>
    ensures bytes { IfOk result (λ bytes. bytes_of_hex text.now ≡ Some bytes.items) }
    ensures not_hex { IsErrOf result NotHex → IsNone (bytes_of_hex text.now) }
    // `OutOfMemory` comes only if memory is refused: tests/system/calls, rows `show of hex ..`.
    ensures else_memory { IfErr result (λ fault. fault ≢ NotHex → fault ≡ OutOfMemory) }
{
    let mut digits = Vec::with_capacity(alloc, text.len()).map_err(|_| ToolFault::OutOfMemory)?;
    for byte in text {
        if !is_white_space(*byte) && digits.push(*byte).is_err() {
            return Err(ToolFault::OutOfMemory);
        }
    }
    match hex::decode(alloc, digits.as_slice()) {
        Ok(bytes) => Ok(bytes),
        Err(FromHexError::OutOfMemory) => Err(ToolFault::OutOfMemory),
        Err(_) => Err(ToolFault::NotHex),
    }
}
