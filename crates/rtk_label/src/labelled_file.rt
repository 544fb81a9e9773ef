//! A file with the fields of a label, of GPS or of any systems.

ghost use Rattle.std.specs.Prelude.{◌≡◌, ◌++◌, drop, OnOk, OnErr, Decides};
ghost use Rattle.rtk_frame.specs.Stream.{with_more, TakesPart, CountRises};
ghost use Rattle.rtk_rinex.specs.Header.{position_view};
ghost use Rattle.rtk_rinex.specs.Table.{WellFormedTable, IsWellFormedTable, table_text};
ghost use Rattle.rtk_rinex.specs.MixedTable.{MixedTable, IsMixedTable, mixed_table_text};
ghost use Rattle.rtk_label.specs.Labelled.{IsLabel, IsFor};
ghost use Rattle.rtk_label.specs.LabelWriting.{IsForText, WritesLabelled, WritesFirstLabelled, WritesFront, WritesFirstOfFront};
ghost use Rattle.rtk_label.specs.LabelWriting.{IsForMixedText, WritesLabelledMixed, WritesFirstLabelledMixed, WritesMixedFront, WritesFirstOfMixedFront};
ghost use Rattle.rtk_label.specs.Steps.Fronts.{filled_front};

use crate::fields::after;
use crate::front::filled;
use crate::label::Label;
use rtk_frame::{Sink, StreamFault, write_all};
use rtk_obs::Position;
use rtk_rinex::{MixedTextTable, TextTable};

// Did the stream tell no height of the antenna?
fn has_no_height(position: &Position) -> bool
    ensures { Decides result ((position_view position.now).height ≡ 0) }
{
    position.height == 0
}

/// Is a label for this file? If the stream told the antenna's height, it is for none that has one.
pub fn is_for(label: &Label, table: &TextTable<'_>) -> bool
    ensures { (t : WellFormedTable) → IsWellFormedTable t → table.now.text ≡ table_text t
        → Decides result (IsFor label.now t.site) }
{
    if label.height.len() == 0 {
        return true;
    }
    has_no_height(&table.heading().position)
}

/// Is a label for this file of any systems, as `is_for` has it for GPS?
pub fn is_for_mixed(label: &Label, table: &MixedTextTable<'_>) -> bool
    ensures { (t : MixedTable) → IsMixedTable t → table.now.text ≡ mixed_table_text t
        → Decides result (IsFor label.now t.site) }
{
    if label.height.len() == 0 {
        return true;
    }
    has_no_height(&table.heading().position)
}

// Writes the first nine lines of a text with the fields of a label.
fn put_front<W: Sink>(label: &Label, text: &[u8], out: &mut W) -> Result<(), StreamFault>
    ensures good { IsLabel label.now }
    ensures all { OnOk result (W.taken out.new ≡ with_more (W.taken out.old) (filled_front label.now text.now)) }
    ensures part { TakesPart (W.taken out.old) (W.taken out.new) (filled_front label.now text.now) }
    ensures write_failed { OnErr result (CountRises (W.failures out.old) (W.failures out.new)) }
    ensures no_failed_write { OnOk result (W.failures out.new ≡ W.failures out.old) }
{
    let front = filled(label, text);
    write_all(out, front.as_slice())
}

// Writes a text whose first nine lines have the fields of a label.
fn put_text<W: Sink>(label: &Label, text: &[u8], out: &mut W) -> Result<(), StreamFault>
    ensures good { IsLabel label.now }
    ensures all { OnOk result (W.taken out.new ≡ with_more (W.taken out.old) (filled_front label.now text.now ++ drop 729 text.now)) }
    ensures part { TakesPart (W.taken out.old) (W.taken out.new) (filled_front label.now text.now ++ drop 729 text.now) }
    ensures write_failed { OnErr result (CountRises (W.failures out.old) (W.failures out.new)) }
    ensures no_failed_write { OnOk result (W.failures out.new ≡ W.failures out.old) }
{
    put_front(label, text, out)?;
    write_all(out, after(text, 729))
}

/// Writes a file with the fields of a label. No memory is taken: up to ten lines are made anew, and
/// the rest is written from the table's text.
pub fn write_labelled<W: Sink>(
    label: &Label,
    table: &TextTable<'_>,
    out: &mut W,
) -> Result<(), StreamFault>
    requires { IsForText label.now table.now.text }
    ensures all { OnOk result (WritesLabelled table.now.text label.now (W.taken out.old) (W.taken out.new)) }
    ensures first { OnErr result (WritesFirstLabelled table.now.text label.now (W.taken out.old) (W.taken out.new)) }

    // A failed write is told, and nothing else is.
    ensures write_failed { OnErr result (CountRises (W.failures out.old) (W.failures out.new)) }
    ensures no_failed_write { OnOk result (W.failures out.new ≡ W.failures out.old) }
{
    put_text(label, table.as_bytes(), out)
}

/// Writes a file of any systems with the fields of a label, as `write_labelled` does for GPS.
pub fn write_labelled_mixed<W: Sink>(
    label: &Label,
    table: &MixedTextTable<'_>,
    out: &mut W,
) -> Result<(), StreamFault>
    requires { IsForMixedText label.now table.now.text }
    ensures all { OnOk result (WritesLabelledMixed table.now.text label.now (W.taken out.old) (W.taken out.new)) }
    ensures first { OnErr result (WritesFirstLabelledMixed table.now.text label.now (W.taken out.old) (W.taken out.new)) }
    ensures write_failed { OnErr result (CountRises (W.failures out.old) (W.failures out.new)) }
    ensures no_failed_write { OnOk result (W.failures out.new ≡ W.failures out.old) }
{
    put_text(label, table.as_bytes(), out)
}

/// Writes only the lines of a file that a label changes, with its fields: nine lines, or ten with the
/// marker's number. What comes after the first `PLAIN_FRONT` bytes of the file is left to the caller.
pub fn write_front<W: Sink>(
    label: &Label,
    table: &TextTable<'_>,
    out: &mut W,
) -> Result<(), StreamFault>
    ensures all { OnOk result (WritesFront table.now.text label.now (W.taken out.old) (W.taken out.new)) }
    ensures first { WritesFirstOfFront table.now.text label.now (W.taken out.old) (W.taken out.new) }
    ensures write_failed { OnErr result (CountRises (W.failures out.old) (W.failures out.new)) }
    ensures no_failed_write { OnOk result (W.failures out.new ≡ W.failures out.old) }
{
    put_front(label, table.as_bytes(), out)
}

/// Writes only the lines of a file of any systems that a label changes, as `write_front` does for GPS.
pub fn write_front_mixed<W: Sink>(
    label: &Label,
    table: &MixedTextTable<'_>,
    out: &mut W,
) -> Result<(), StreamFault>
    ensures all { OnOk result (WritesMixedFront table.now.text label.now (W.taken out.old) (W.taken out.new)) }
    ensures first { WritesFirstOfMixedFront table.now.text label.now (W.taken out.old) (W.taken out.new) }
    ensures write_failed { OnErr result (CountRises (W.failures out.old) (W.failures out.new)) }
    ensures no_failed_write { OnOk result (W.failures out.new ≡ W.failures out.old) }
{
    put_front(label, table.as_bytes(), out)
}
