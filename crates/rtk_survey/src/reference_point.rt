//! The antenna reference point of a station.

ghost use Rattle.std.specs.Prelude.{◌≡◌, List, ◌∷◌};
ghost use Rattle.rtk_message.specs.declared.any_message.AnyMessage.{AnyMessage};
ghost use Rattle.rtk_survey.specs.ReferencePoints as spec;

use crate::points::are_far;
use rtk_message::{AnyMessage, Arp1005, Message};

/// The antenna reference point of a station (ECEF), in 0.0001 m.
#[derive(Clone, Copy, Debug, PartialEq, Eq)]
pub struct ReferencePoint {
    /// X (DF025).
    pub x: i64,
    /// Y (DF026).
    pub y: i64,
    /// Z (DF027).
    pub z: i64,
}

fn point_of_arp(arp: &Arp1005) -> ReferencePoint
    ensures { result ≡ spec.point_of_arp arp.now }
{
    ReferencePoint {
        x: arp.x,
        y: arp.y,
        z: arp.z,
    }
}

fn is_zero(coordinate: &i64) -> bool
    ensures { result ≡ spec.is_zero coordinate.now }
{
    coordinate.unsigned_abs() == 0
}

// A station that does not know its position sends zeros.
fn is_unknown(point: &ReferencePoint) -> bool
    ensures { result ≡ spec.is_unknown point.now }
{
    is_zero(&point.x) && is_zero(&point.y) && is_zero(&point.z)
}

fn known_point(point: ReferencePoint) -> Option<ReferencePoint>
    ensures { result ≡ spec.known_point point }
{
    if is_unknown(&point) {
        None
    } else {
        Some(point)
    }
}

fn point_of_four(message: &Message) -> Option<ReferencePoint>
    ensures { result ≡ spec.point_of_four message.now }
{
    match message {
        Message::Arp1005(message) => known_point(point_of_arp(message)),
        Message::Arp1006(message) => known_point(point_of_arp(&message.arp)),
        Message::Obs1004(_) | Message::Msm1074(_) => None,
    }
}

fn point_of(message: &AnyMessage) -> Option<ReferencePoint>
    ensures { result ≡ spec.point_of message.now }
{
    match message {
        AnyMessage::Message(message) => point_of_four(message),
        AnyMessage::Msm(_) | AnyMessage::Obs1012(_) => None,
    }
}

/// The first reference point of a station, after a message more.
pub fn first_point_with(
    first: Option<ReferencePoint>,
    message: &AnyMessage,
) -> Option<ReferencePoint>
    ensures { (ms : List AnyMessage) → first ≡ spec.first_point ms → result ≡ spec.first_point (message.now ∷ ms) }
{
    match first {
        Some(point) => Some(point),
        None => point_of(message),
    }
}

// The point, if it is far from the first one.
fn if_far(first: Option<ReferencePoint>, point: Option<ReferencePoint>) -> Option<ReferencePoint>
    ensures { result ≡ spec.if_far first point }
{
    match (first, point) {
        (Some(first), Some(point)) if are_far(&first, &point) => Some(point),
        _ => None,
    }
}

/// The first reference point of a station that is far from its first one, after a message more; before it these
/// are the first one and the far one.
pub fn far_point_with(
    first: Option<ReferencePoint>,
    far: Option<ReferencePoint>,
    message: &AnyMessage,
) -> Option<ReferencePoint>
    ensures { (ms : List AnyMessage) → first ≡ spec.first_point ms → far ≡ spec.far_point ms
        → result ≡ spec.far_point (message.now ∷ ms) }
{
    match far {
        Some(point) => Some(point),
        None => if_far(first, point_of(message)),
    }
}

fn are_other(a: &ReferencePoint, b: &ReferencePoint) -> bool
    ensures { result ≡ spec.are_other a.now b.now }
{
    !(a.x == b.x && a.y == b.y && a.z == b.z)
}

/// Is it another point than the first one? None differs from none.
pub fn is_other_point(first: Option<ReferencePoint>, point: Option<ReferencePoint>) -> bool
    ensures { result ≡ spec.is_other_point first point }
{
    match (first, point) {
        (Some(first), Some(point)) => are_other(&first, &point),
        _ => false,
    }
}

/// Has a station told another reference point than its first one, after a message more? Before it these are the
/// first one and whether it had.
pub fn has_other_point_with(
    first: Option<ReferencePoint>,
    has_other: bool,
    message: &AnyMessage,
) -> bool
    ensures { (ms : List AnyMessage) → first ≡ spec.first_point ms → has_other ≡ spec.has_other_point ms
        → result ≡ spec.has_other_point (message.now ∷ ms) }
{
    has_other || is_other_point(first, point_of(message))
}
