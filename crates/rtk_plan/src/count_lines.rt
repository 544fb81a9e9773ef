//! The counts of a conversion, as its report shows them.

ghost use Rattle.std.specs.Prelude.{◌≡◌, ◌++◌, OnOk};
ghost use Rattle.rtk_setup.specs.Counts as spec;

use rtk_message::put_named;
use rtk_setup::Counts;
use std::alloc::AllocError;

fn put_count(lines: &mut Vec<u8>, name: &[u8], count: u64) -> Result<(), AllocError>
    ensures { OnOk result (lines.new.items ≡ lines.old.items ++ spec.count_line name.now count) }
{
    put_named(lines, name, count)?;
    lines.push(b'\n')?;
    Ok(())
}

/// Appends the nine counts.
#[tactic(auto, unfolding(rtk_setup::specs::Counts::count_lines))]
pub fn put_counts(lines: &mut Vec<u8>, counts: &Counts) -> Result<(), AllocError>
    ensures { OnOk result (lines.new.items ≡ lines.old.items ++ spec.count_lines counts.now) }
{
    put_count(lines, b"frames ", counts.frames)?;
    put_count(lines, b"other ", counts.other)?;
    put_count(lines, b"refused ", counts.refused)?;
    put_count(lines, b"foreign ", counts.foreign)?;
    put_count(lines, b"taken ", counts.taken)?;
    put_count(lines, b"repeat ", counts.repeat)?;
    put_count(lines, b"conflict ", counts.conflict)?;
    put_count(lines, b"late ", counts.late)?;
    put_count(lines, b"epochs ", counts.epochs)?;
    Ok(())
}
