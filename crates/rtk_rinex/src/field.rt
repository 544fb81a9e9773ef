//! What may stand in a field of a header.

ghost use Rattle.std.specs.Prelude.{All, Decides};
ghost use Rattle.std.specs.Int.{IsInRange};
ghost use Rattle.rtk_rinex.specs.Columns.{IsField};

// Returns whether each byte of a text is from 0x20 to 0x7E.
fn is_printed(text: &[u8]) -> bool
    ensures { Decides result (All (λ x. IsInRange 32 126 x) text.now) }
{
    for byte in text {
        if *byte < 0x20 || *byte > 0x7E {
            return false;
        }
    }
    true
}

/// Returns whether a text fits a field of this number of columns, so that it is read there again.
/// It has no more bytes than columns, each from 0x20 to 0x7E, and neither the first nor the last is
/// a blank. A text of no byte fits, since the field is then blank.
pub fn is_field(text: &[u8], width: usize) -> bool
    ensures { Decides result (IsField width text.now) }
{
    if text.len() == 0 {
        return true;
    }
    if text.len() > width {
        return false;
    }
    text[0] != b' ' && text[text.len() - 1] != b' ' && is_printed(text)
}
