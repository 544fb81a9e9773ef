//! A message with its epoch.

ghost use Rattle.std.specs.Prelude.{◌≡◌};
ghost use Rattle.std.specs.Option.{is_some};
ghost use Rattle.rtk_message.specs.declared.any_message.AnyMessage.TheVariants as AnyMessage;
ghost use Rattle.rtk_message.specs.Decoded.{IsValid, tow_of};
ghost use Rattle.rtk_collect.specs.Arrival.{At, epoch_of, message_of};

use rtk_message::Message;
use rtk_obs::GpsMs;
use std::marker::Model;

/// A message whose fields fit, with its epoch: the moment of its time of week (DF004).
///
/// A 1005 or 1006 has no time, and so no epoch.
#[derive(Drop)]
pub struct Dated {
    pub(crate) message: Message,
    pub(crate) epoch: Option<GpsMs>,
}

// Clauses see an arrival: the epoch in ms and the message.
impl Model for Dated {
    ghost use Rattle.std.specs.Prelude.{◌≡◌};
    ghost use Rattle.std.specs.Option.{is_some};
    ghost use Rattle.rtk_message.specs.declared.any_message.AnyMessage.TheVariants as AnyMessage;
    ghost use Rattle.rtk_message.specs.Decoded.{IsValid, tow_of};
    ghost use Rattle.rtk_collect.specs.Arrival.{Arrival, At};

    ghost Value = { Arrival };

    ghost view = { λ d. At d.epoch (AnyMessage.Message d.message) };

    ghost invariant = { λ d. IsValid d.message × (is_some d.epoch ≡ is_some (tow_of d.message)) };
}

impl Dated {
    /// Makes a message with its epoch, which is `None` exactly for 1005 and 1006.
    pub fn new(message: Message, epoch: Option<GpsMs>) -> Dated
        requires fits { IsValid message }
        requires has_epoch { is_some epoch ≡ is_some (tow_of message) }
        ensures { result ≡ At epoch (AnyMessage.Message message) }
    {
        Dated { message, epoch }
    }

    /// Returns the message.
    pub fn message(&self) -> &Message
        ensures value { AnyMessage.Message result.now ≡ message_of self.now }
        ensures fits { IsValid result.now }
    {
        &self.message
    }

    /// Returns the epoch, which is `None` exactly for 1005 and 1006.
    pub fn epoch(&self) -> Option<GpsMs>
        ensures { result ≡ epoch_of self.now }
    {
        self.epoch
    }
}
