//! What the payload of a frame means for a conversion: its class, and its epoch if it has one.

ghost use Rattle.std.specs.Prelude.{◌≡◌, IfOk};
ghost use Rattle.rtk_bits.specs.Bits.{bits};
ghost use Rattle.rtk_message.specs.AnyDecoded.{DecodesBy, number_of};
ghost use Rattle.rtk_obs.specs.Clocks.{IsClock, IsClockMoment};
ghost use Rattle.rtk_convert.specs.FrameClass.{IsDatedMessage, IsClassOfReading, system_of, class_of_fault};
ghost use Rattle.rtk_setup.specs.Setup.{taken_by, takes};
ghost use Rattle.rtk_convert.specs.Steps.ReadMessage.{IsRead, IsReadMessage};

use rtk_collect::DatedRef;
use rtk_message::{AnyDecoder, AnyFault, AnyMessage, System};
use rtk_obs::{GpsMs, date, date_clock};
use rtk_setup::Setup;

/// What the payload of a frame means for a conversion.
#[derive(Drop)]
pub enum FrameClass<'a> {
    /// A message with another number than those that the setup takes.
    OtherMessage,
    /// A payload that is cut short, or that the standard rules out.
    Refused(AnyFault),
    /// A message of another station.
    Foreign,
    /// A message of the chosen station, with its epoch.
    Dated(DatedRef<'a>),
}

// The message of GPS and SBAS that no MSM is.
const LEGACY: u16 = 1004;

/// Returns what a payload is read as, by the messages that the setup takes. It is lent until the
/// next call.
pub(crate) fn read_message<'a>(
    setup: &Setup,
    decoder: &'a mut AnyDecoder,
    payload: &[u8],
) -> &'a Result<AnyMessage, AnyFault>
    ensures { DecodesBy (taken_by setup.now) (bits payload.now) result.now }
{
    decoder.read(setup.accepted(), payload)
}

// Returns the system of a message.
fn system_of(message: &AnyMessage) -> System
    ensures { result ≡ system_of message.now }
{
    match message {
        AnyMessage::Message(_) => System::Gps,
        AnyMessage::Msm(msm) => msm.system,
        AnyMessage::Obs1012(_) => System::Glonass,
    }
}

// Returns the moment of the clock of a system that is nearest to the reference. The clock of GPS, which nearly
// every station sends most, is dated without asking for any other system.
#[inline(always)]
fn moment_of(setup: &Setup, system: System, clock: u32) -> GpsMs
    requires { IsClock system clock }
    ensures { IsClockMoment system setup.now.near clock setup.now.leap_seconds result }
{
    let near = setup.near();
    match system {
        System::Gps => date(near, clock),
        _ => date_clock(system, near, clock, setup.leap_seconds()),
    }
}

// Returns a message with its epoch, which is the moment of its clock that is nearest to the reference. It is
// inlined, since there is one call, for each message.
#[inline(always)]
fn dated_message<'a>(setup: &Setup, message: &'a AnyMessage) -> DatedRef<'a>
    requires { IsReadMessage setup.now message.now }
    ensures { IsDatedMessage setup.now message.now result }
{
    let Some(clock) = message.tow() else {
        return DatedRef::of_any(message, None);
    };
    let epoch = moment_of(setup, system_of(message), clock);
    DatedRef::of_any(message, Some(epoch))
}

// Returns whether the setup takes a message that was read. A 1004 is read whatever the codes are, and taken
// if one of them is of GPS or SBAS. The number is asked last, since with such a code all that is read is taken.
#[inline(always)]
fn is_taken(setup: &Setup, message: &AnyMessage) -> bool
    requires { IsRead setup.now (number_of message.now) }
    ensures { result ≡ takes setup.now (number_of message.now) }
{
    setup.takes_1004() || message.number() != LEGACY
}

// Returns whether the setup takes messages of a number.
fn takes(setup: &Setup, number: u16) -> bool
    ensures { result ≡ takes setup.now number }
{
    if number == LEGACY {
        return setup.takes_1004();
    }
    setup.accepted().accepts(number)
}

// Returns the class of a payload that is no message.
fn class_of_fault<'a>(setup: &Setup, fault: AnyFault) -> FrameClass<'a>
    ensures { result ≡ class_of_fault setup.now fault }
{
    match fault {
        AnyFault::NoNumber => FrameClass::Refused(fault),
        AnyFault::Other { .. } => FrameClass::OtherMessage,
        AnyFault::Short { number }
        | AnyFault::EpochRange { number }
        | AnyFault::TooManyCells { number } => {
            if takes(setup, number) {
                FrameClass::Refused(fault)
            } else {
                FrameClass::OtherMessage
            }
        }
    }
}

/// Returns the class of a payload that is read so, which is a message that the class borrows, or a
/// fault.
///
/// It is inlined, so that the class of a message is told by branches and not by a value in memory.
#[inline(always)]
pub(crate) fn classify<'a>(
    setup: &Setup,
    reading: &'a Result<AnyMessage, AnyFault>,
) -> FrameClass<'a>
    requires { IfOk reading.now (λ m. IsReadMessage setup.now m) }
    ensures { IsClassOfReading setup.now reading.now result }
{
    match reading {
        Ok(message) => {
            if !is_taken(setup, message) {
                return FrameClass::OtherMessage;
            }
            if message.station() != setup.station() {
                return FrameClass::Foreign;
            }
            FrameClass::Dated(dated_message(setup, message))
        }
        Err(fault) => class_of_fault(setup, *fault),
    }
}
