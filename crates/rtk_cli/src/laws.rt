//! Laws of the commands.
//!
//! Each function here does nothing but call laws. Its contract is the law, and a caller that calls it may cite it.

ghost use Rattle.rtk_cli.specs.CaptureOrder.{OrderMakesNoDifference};
ghost use Rattle.rtk_cli.specs.LabelPassing.{PassesLabelled};

use rtk_label::files_are_long;
use std::io::Write;

/// Captures that are given to `auto` in another order are taken in the same order.
pub fn order_makes_no_difference()
    ensures { OrderMakesNoDifference }
{}

/// In whatever parts the text of a file goes to a writer that fills its first lines, it is written with the label.
pub fn files_pass_labelled<W: Write>()
    ensures { PassesLabelled W.contents }
{
    files_are_long();
}
