//! A message with its epoch.

ghost use Rattle.std.specs.Prelude.{◌≡◌, ◌≢◌, ◌≤◌, ℤ, Bool, List, Option, length, All, IfSome, IfNone, IsTrue};
ghost use Rattle.std.specs.Option.{is_some};
ghost use Rattle.rtk_message.specs.AnyDecoded as any;
ghost use Rattle.rtk_message.specs.Decoded.{IsValid, tow_of};
ghost use Rattle.rtk_message.specs.MsmForm as msm_form;
ghost use Rattle.rtk_message.specs.declared.system.System.TheVariants.{Gps};
ghost use Rattle.rtk_obs.specs.Cell.{IsInRange, AreRising};
ghost use Rattle.rtk_obs.specs.MessageCells.{cells_of};
ghost use Rattle.rtk_obs.specs.SignalCells.{IsSignalInRange};
ghost use Rattle.rtk_collect.specs.Arrival.{At, epoch_of, message_of, IsWideMsm};
ghost use Rattle.rtk_collect.specs.Key.{KeysRise};
ghost use Rattle.rtk_collect.specs.Signals.{signals, entries_by};
ghost use Rattle.rtk_collect.specs.Steps.Borrowed.{borrowed};

use arrayvec::ArrayVec;
use rtk_message::{AnyMessage, Message, Msm, Obs1012, System};
use rtk_obs::{
    CellEntry, Channels, GpsMs, SignalEntry, put_cells_msm, put_cells_of, put_doppler_entries,
    put_entries_1012, put_entries_of, put_entries_with_sbas, put_signal_entries,
};
use std::marker::Model;

/// A message whose fields fit, which it borrows, with its epoch: the moment of its clock, which is a time
/// of week (DF004) in a message of GPS.
///
/// A 1005 or 1006 has no clock, and so no epoch.
#[derive(Drop)]
pub struct DatedRef<'a> {
    pub(crate) message: Borrowed<'a>,
    pub(crate) epoch: Option<GpsMs>,
}

/// A borrowed message: one of the four types, an MSM that is no 1074, or a 1012. An `AnyMessage` owns its message,
/// so a `&Message` can't be lent as one.
#[derive(Clone, Copy, Drop)]
pub(crate) enum Borrowed<'a> {
    Message(&'a Message),
    Msm(&'a Msm),
    Obs1012(&'a Obs1012),
}

// Puts the cells of a message of the four types into a list, in place of what it has: with those of SBAS in a
// 1004, or without them. None has a Doppler shift.
fn put_four(message: &Message, sbas: bool, found: &mut ArrayVec<SignalEntry, 64>)
    requires { IsValid message.now }
    ensures { (doppler : Bool) (channels : List (Option ℤ)) → found.new.items ≡ entries_by sbas doppler channels (AnyMessage.Message message.now) }
{
    if sbas {
        put_entries_with_sbas(message, found)
    } else {
        put_entries_of(message, found)
    }
}

// Puts the cells of an MSM into a list, in place of what it has: with their Doppler shifts, or without them.
fn put_msm(message: &Msm, channels: &Channels, doppler: bool, found: &mut ArrayVec<SignalEntry, 64>)
    requires { msm_form.IsValid message.now }
    ensures { (sbas : Bool) → found.new.items ≡ entries_by sbas doppler channels.now (AnyMessage.Msm message.now) }
{
    if doppler {
        put_doppler_entries(message, channels, found)
    } else {
        put_signal_entries(message, channels, found)
    }
}

// Returns whether a system is another one than GPS.
fn is_beside_gps(system: System) -> bool
    ensures { IsTrue result → system ≢ Gps }
{
    match system {
        System::Gps => false,
        _ => true,
    }
}

impl<'a> Borrowed<'a> {
    /// Returns whether the message is an MSM of another system than GPS, whose cells rise, since its satellites and
    /// signals rise and the codes rise with the signals. Those of GPS do not, of which L1C has the last signals.
    pub(crate) fn is_msm_beside_gps(self) -> bool
        ensures { IsTrue result → (sbas doppler : Bool) (channels : List (Option ℤ)) → KeysRise signals (entries_by sbas doppler channels (borrowed self.entry)) }
    {
        match self {
            Borrowed::Msm(message) => is_beside_gps(message.system),
            Borrowed::Message(_) | Borrowed::Obs1012(_) => false,
        }
    }

    /// Puts the cells of the message into a list, in place of what it has. If the result is `true`, they
    /// rise.
    pub(crate) fn put_cells(self, found: &mut ArrayVec<CellEntry, 64>) -> bool
        requires { any.IsValid (borrowed self) }
        ensures cells { found.new.items ≡ cells_of (borrowed self.entry) }
        ensures ranges { All IsInRange found.new.items }
        ensures few { length found.new.items ≤ 64 }
        ensures rises { IsTrue result → AreRising found.new.items }
    {
        match self {
            Borrowed::Message(message) => put_cells_of(message, found),
            Borrowed::Msm(message) => put_cells_msm(message, found),
            Borrowed::Obs1012(_) => {
                found.clear();
                true
            }
        }
    }

    /// Puts the cells of the message into a list, in place of what it has, each as one of any system: with those
    /// of SBAS in a 1004, or without them, and with the Doppler shifts of an MSM, or without them.
    pub(crate) fn put_entries(
        self,
        channels: &Channels,
        sbas: bool,
        doppler: bool,
        found: &mut ArrayVec<SignalEntry, 64>,
    )
        requires { any.IsValid (borrowed self) }
        ensures cells { found.new.items ≡ entries_by sbas doppler channels.now (borrowed self.entry) }
        ensures ranges { All IsSignalInRange found.new.items }
    {
        match self {
            Borrowed::Message(message) => put_four(message, sbas, found),
            Borrowed::Msm(message) => put_msm(message, channels, doppler, found),
            Borrowed::Obs1012(message) => put_entries_1012(message, channels, found),
        }
    }
}

// Clauses see an arrival: the epoch in ms and the message.
impl<'a> Model for DatedRef<'a> {
    ghost use Rattle.std.specs.Prelude.{◌≡◌};
    ghost use Rattle.std.specs.Option.{is_some};
    ghost use Rattle.rtk_message.specs.AnyDecoded.{IsValid, tow_of};
    ghost use Rattle.rtk_collect.specs.Arrival.{Arrival, At};
    ghost use Rattle.rtk_collect.specs.Steps.Borrowed.{borrowed};

    ghost Value = { Arrival };

    ghost view = { λ d. At d.epoch (borrowed d.message) };

    ghost invariant = { λ d. IsValid (borrowed d.message) × (is_some d.epoch ≡ is_some (tow_of (borrowed d.message))) };
}

impl<'a> DatedRef<'a> {
    /// Makes a message with its epoch, which is `None` exactly for 1005 and 1006.
    pub fn new(message: &'a Message, epoch: Option<GpsMs>) -> DatedRef<'a>
        requires fits { IsValid message.now }
        requires has_epoch { is_some epoch ≡ is_some (tow_of message.now) }
        ensures { result ≡ At epoch (AnyMessage.Message message.now) }
    {
        DatedRef {
            message: Borrowed::Message(message),
            epoch,
        }
    }

    /// Makes a message of a wider set with its epoch, which is `None` exactly for 1005 and 1006.
    pub fn of_any(message: &'a AnyMessage, epoch: Option<GpsMs>) -> DatedRef<'a>
        requires fits { any.IsValid message.now }
        requires has_epoch { is_some epoch ≡ is_some (any.tow_of message.now) }
        ensures { result ≡ At epoch message.now }
    {
        match message {
            AnyMessage::Message(message) => DatedRef {
                message: Borrowed::Message(message),
                epoch,
            },
            AnyMessage::Msm(message) => DatedRef {
                message: Borrowed::Msm(message),
                epoch,
            },
            AnyMessage::Obs1012(message) => DatedRef {
                message: Borrowed::Obs1012(message),
                epoch,
            },
        }
    }

    /// Returns the message, or `None` exactly for an MSM that is no 1074, and for a 1012.
    pub fn message(&self) -> Option<&'a Message>
        ensures value { IfSome result (λ m. AnyMessage.Message m.now ≡ message_of self.now) }
        ensures fits { IfSome result (λ m. IsValid m.now) }
        ensures none { IfNone result (IsWideMsm (message_of self.now)) }
    {
        match self.message {
            Borrowed::Message(message) => Some(message),
            Borrowed::Msm(_) | Borrowed::Obs1012(_) => None,
        }
    }

    /// Returns the message number (DF002).
    pub fn number(&self) -> u16
        ensures { result ≡ any.number_of (message_of self.now) }
    {
        match self.message {
            Borrowed::Message(message) => message.number(),
            Borrowed::Msm(message) => message.msm_type().number(),
            Borrowed::Obs1012(_) => 1012,
        }
    }

    /// Returns the epoch, which is `None` exactly for 1005 and 1006.
    pub fn epoch(&self) -> Option<GpsMs>
        ensures value { result ≡ epoch_of self.now }
        ensures has_epoch { is_some result ≡ is_some (any.tow_of (message_of self.now)) }
    {
        self.epoch
    }
}
