//! The position of a station's antenna.

ghost use Rattle.std.specs.Prelude.{◌≡◌, ◌↔◌, IsTrue, MatchOption};
ghost use Rattle.rtk_obs.specs.Coordinates.{IsCoordinate};

/// The antenna reference point of a station and the height of the antenna, in 0.0001 m.
///
/// The coordinates are earth-centered and earth-fixed; each fits 38 bits with a sign, as in the
/// messages that give them.
#[derive(Clone, Copy, Debug, PartialEq, Eq)]
pub struct Position {
    /// ECEF X (DF025), in 0.0001 m.
    pub x: i64,
    /// ECEF Y (DF026), in 0.0001 m.
    pub y: i64,
    /// ECEF Z (DF027), in 0.0001 m.
    pub z: i64,
    /// Antenna height (DF028), in 0.0001 m.
    pub height: u16,
    ghost x_fits: { IsCoordinate x },
    ghost y_fits: { IsCoordinate y },
    ghost z_fits: { IsCoordinate z },
}

// Returns whether a coordinate fits 38 bits.
fn is_coordinate(v: i64) -> bool
    ensures { IsTrue result ↔ IsCoordinate v }
{
    -(1 << 37) <= v && v < 1 << 37
}

impl Position {
    ghost use Rattle.rtk_obs.specs.Coordinates.{AreCoordinates};
    ghost use Rattle.rtk_obs.specs.PositionFields.{HasFields};

    /// Returns the position with these fields, or `None` exactly if a coordinate doesn't fit 38
    /// bits.
    pub fn new(x: i64, y: i64, z: i64, height: u16) -> Option<Position>
        ensures { MatchOption result (¬ (AreCoordinates x y z)) (HasFields x y z height) }
    {
        if is_coordinate(x) && is_coordinate(y) && is_coordinate(z) {
            Some(Position { x, y, z, height })
        } else {
            None
        }
    }
}
