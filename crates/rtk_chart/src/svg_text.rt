//! Words and numbers of an SVG picture.

ghost use Rattle.std.specs.Prelude.{◌≡◌, ◌++◌, OnOk};
ghost use Rattle.rtk_chart.specs.SvgPicture.{xml_character, xml_text, number_between};

use rtk_message::put_named;
use std::alloc::AllocError;

fn put_character(text: &mut Vec<u8>, character: u8) -> Result<(), AllocError>
    ensures { OnOk result (text.new.items ≡ text.old.items ++ xml_character character) }
{
    match character {
        b'&' => text.extend_from_slice(b"&amp;"),
        b'<' => text.extend_from_slice(b"&lt;"),
        b'>' => text.extend_from_slice(b"&gt;"),
        other => text.extend_from_slice(&[other]),
    }
}

/// Appends a text as XML has it.
pub(crate) fn put_xml(text: &mut Vec<u8>, words: &[u8]) -> Result<(), AllocError>
    ensures { OnOk result (text.new.items ≡ text.old.items ++ xml_text words.now) }
{
    for character in words {
        put_character(text, *character)?;
    }
    Ok(())
}

/// Appends a number between words.
pub(crate) fn put_between(
    text: &mut Vec<u8>,
    before: &[u8],
    number: u64,
    after: &[u8],
) -> Result<(), AllocError>
    ensures { OnOk result (text.new.items ≡ text.old.items ++ number_between before.now number after.now) }
{
    put_named(text, before, number)?;
    text.extend_from_slice(after)
}
