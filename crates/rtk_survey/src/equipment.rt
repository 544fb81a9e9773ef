//! What the messages of a station told last of its antenna and its receiver.

ghost use Rattle.std.specs.Prelude.{◌≡◌};
ghost use Rattle.rtk_survey.specs.EquipmentHistory as spec;

use crate::equipment_message::{Antenna, EquipmentMessage, Receiver, Text};

/// A text that was told.
#[derive(Clone, Drop)]
pub struct TextHistory {
    /// The last; `None` if no message told it.
    pub last: Option<Text>,
    /// How many messages told another text than the one that told it before.
    pub changes: u64,
}

/// An antenna setup that was told.
#[derive(Clone, Copy, Debug, PartialEq, Eq)]
pub struct SetupHistory {
    /// The last; `None` if no message told it.
    pub last: Option<u8>,
    /// How many messages told another setup than the one that told it before.
    pub changes: u64,
}

/// What the messages of a station told. It has some 1.4 kB.
#[derive(Clone, Drop)]
pub struct Equipment {
    pub antenna_type: TextHistory,
    pub antenna_serial: TextHistory,
    pub antenna_setup: SetupHistory,
    pub receiver_type: TextHistory,
    pub receiver_version: TextHistory,
    pub receiver_serial: TextHistory,
}

fn copied(text: &Text) -> Text
    ensures { result ≡ text.now }
{
    let mut copy = Text::new();
    if copy.try_extend_from_slice(text.as_slice()).is_err() {
        unreachable!();
    }
    copy
}

fn is_other_text(last: &Option<Text>, text: &Text) -> bool
    ensures { result ≡ spec.is_other_text last.now text.now }
{
    match last {
        Some(last) => last.as_slice() != text.as_slice(),
        None => false,
    }
}

fn is_other_if_told(last: &Option<Text>, later: &Option<Text>) -> bool
    ensures { result ≡ spec.is_other_if_told last.now later.now }
{
    match later {
        Some(later) => is_other_text(last, later),
        None => false,
    }
}

fn copied_if_any(text: &Option<Text>) -> Option<Text>
    ensures { result ≡ text.now }
{
    match text {
        Some(text) => Some(copied(text)),
        None => None,
    }
}

fn is_other_setup(last: Option<u8>, setup: u8) -> bool
    ensures { result ≡ spec.is_other_setup last setup }
{
    match last {
        Some(last) => last != setup,
        None => false,
    }
}

impl TextHistory {
    // No message told it.
    fn new() -> TextHistory
        ensures { result ≡ spec.no_text }
    {
        TextHistory {
            last: None,
            changes: 0,
        }
    }

    // A message more that tells it.
    fn take(&mut self, text: Text)
        ensures { self.new ≡ spec.with_text text self.old }
    {
        if is_other_text(&self.last, &text) {
            self.changes = self.changes.saturating_add(1);
        }
        self.last = Some(text);
    }

    // What was told last by messages that came later.
    fn take_later(&mut self, later: &TextHistory)
        ensures { self.new ≡ spec.with_text_if_any later.now.last self.old }
    {
        if let Some(text) = &later.last {
            self.take(copied(text));
        }
    }

    // The text is not known any more: from now on it is empty, if it was told.
    fn clear(&mut self)
        ensures { self.new ≡ spec.without_text self.old }
    {
        if self.last.is_some() {
            self.take(Text::new());
        }
    }

    // The serial number that a message tells of an antenna, or none. If the antenna is another one than
    // before, the number of before is not its own.
    fn take_serial(&mut self, is_other: bool, serial: Option<Text>)
        ensures { self.new ≡ spec.with_serial is_other serial self.old }
    {
        match serial {
            Some(serial) => self.take(serial),
            None if is_other => self.clear(),
            None => {}
        }
    }
}

impl SetupHistory {
    // No message told it.
    fn new() -> SetupHistory
        ensures { result ≡ spec.no_setup }
    {
        SetupHistory {
            last: None,
            changes: 0,
        }
    }

    // A message more that tells it.
    fn take(&mut self, setup: u8)
        ensures { self.new ≡ spec.with_setup setup self.old }
    {
        if is_other_setup(self.last, setup) {
            self.changes = self.changes.saturating_add(1);
        }
        self.last = Some(setup);
    }

    // A message more that may tell it.
    fn take_if_any(&mut self, setup: Option<u8>)
        ensures { self.new ≡ spec.with_setup_if_any setup self.old }
    {
        if let Some(setup) = setup {
            self.take(setup);
        }
    }
}

impl Equipment {
    /// No message came.
    pub fn new() -> Equipment
        ensures { result ≡ spec.no_equipment }
    {
        Equipment {
            antenna_type: TextHistory::new(),
            antenna_serial: TextHistory::new(),
            antenna_setup: SetupHistory::new(),
            receiver_type: TextHistory::new(),
            receiver_version: TextHistory::new(),
            receiver_serial: TextHistory::new(),
        }
    }

    fn take_antenna(&mut self, antenna: Antenna)
        ensures { self.new ≡ spec.with_antenna antenna self.old }
    {
        let is_other = is_other_text(&self.antenna_type.last, &antenna.antenna_type);
        self.antenna_serial.take_serial(is_other, antenna.serial);
        self.antenna_type.take(antenna.antenna_type);
        self.antenna_setup.take(antenna.setup);
    }

    fn take_receiver(&mut self, receiver: Receiver)
        ensures { self.new ≡ spec.with_receiver receiver self.old }
    {
        self.receiver_type.take(receiver.receiver_type);
        self.receiver_version.take(receiver.version);
        self.receiver_serial.take(receiver.serial);
    }

    /// A message more of this station.
    pub fn take(&mut self, message: EquipmentMessage)
        ensures { self.new ≡ spec.with_message message self.old }
    {
        self.take_antenna(message.antenna);
        if let Some(receiver) = message.receiver {
            self.take_receiver(receiver);
        }
    }

    /// What was told last of the antenna of this station by messages that came later. A serial number of
    /// before stays only if they tell the same type.
    pub fn take_later_antenna(&mut self, later: &Equipment)
        ensures { self.new ≡ spec.with_later_antenna later.now self.old }
    {
        let is_other = is_other_if_told(&self.antenna_type.last, &later.antenna_type.last);
        let serial = copied_if_any(&later.antenna_serial.last);
        self.antenna_serial.take_serial(is_other, serial);
        self.antenna_type.take_later(&later.antenna_type);
        self.antenna_setup.take_if_any(later.antenna_setup.last);
    }

    /// What was told last of the receiver of this station by messages that came later.
    pub fn take_later_receiver(&mut self, later: &Equipment)
        ensures { self.new ≡ spec.with_later_receiver later.now self.old }
    {
        self.receiver_type.take_later(&later.receiver_type);
        self.receiver_version.take_later(&later.receiver_version);
        self.receiver_serial.take_later(&later.receiver_serial);
    }
}
