//! The cells of a message, whatever its type.

ghost use Rattle.std.specs.Prelude.{◌≡◌, ◌≤◌, length, IsTrue};
ghost use Rattle.std.specs.List.{All};
ghost use Rattle.rtk_message.specs.declared.any_message.AnyMessage.TheVariants as AnyMessage;
ghost use Rattle.rtk_message.specs.Decoded.{IsValid};
ghost use Rattle.rtk_obs.specs.Cell.{IsInRange, AreRising};
ghost use Rattle.rtk_obs.specs.MessageCells.{cells_of};

use crate::cell::CellEntry;
use crate::legacy_cells::put_cells_1004;
use crate::msm1074_cells::put_cells_1074;
use arrayvec::ArrayVec;
use rtk_message::Message;

/// Puts the cells of a message into a list, in place of what it has, as `cells_1004` and `cells_1074`
/// give them. A station message has none. If the result is `true`, the cells rise.
#[inline(always)]
pub fn put_cells_of(message: &Message, found: &mut ArrayVec<CellEntry, 64>) -> bool
    requires { IsValid message.now }
    ensures cells { found.new.items ≡ cells_of (AnyMessage.Message message.now) }
    ensures ranges { All IsInRange found.new.items }
    ensures few { length found.new.items ≤ 64 }
    ensures rises { IsTrue result → AreRising found.new.items }
{
    match message {
        Message::Obs1004(message) => put_cells_1004(message, found),
        Message::Arp1005(_) | Message::Arp1006(_) => {
            found.clear();
            true
        }
        Message::Msm1074(message) => put_cells_1074(message, found),
    }
}
