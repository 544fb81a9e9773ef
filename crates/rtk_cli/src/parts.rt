//! The parts of a text between marks, as commas.

ghost use Rattle.std.specs.Prelude.{◌≡◌, ◌<◌, ◌∷◌, length, IfSome};
ghost use Rattle.rtk_cli.specs.Steps.Parts.{marked_parts, marked_parts_after};

/// The first part of a text, which ends before the mark, and the text behind the mark; without a mark there
/// is one part, and nothing behind it.
pub(crate) fn first_part(text: &[u8], mark: u8) -> (&[u8], Option<&[u8]>)
    ensures parts { marked_parts mark text.now ≡ result.0.now ∷ marked_parts_after mark result.1 }
    ensures shorter { IfSome result.1 (λ rest. length rest.now < length text.now) }
{
    for place in 0..text.len() {
        if text[place] == mark {
            return (&text[..place], Some(&text[place + 1..]));
        }
    }
    (text, None)
}
