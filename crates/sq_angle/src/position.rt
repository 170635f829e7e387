//! A position: a latitude and a longitude.
ghost use Rattle.std.specs.Prelude.{◌≡◌, ◌↔◌, IsSome, IfSome};
ghost use Rattle.sq_angle.specs.Angle.{degrees};
ghost use Rattle.sq_angle.specs.Bounds.{IsPosition};

use crate::angle::Angle;

/// A position on the globe: at most 90 degrees of latitude, north positive, and at most 180 of longitude, east
/// positive.
///
/// Two positions are equal if both angles are equal by value.
#[derive(Clone, Copy, Debug, PartialEq, Eq)]
pub struct Position {
    lat: Angle,
    lon: Angle,
    pub ghost in_range: { IsPosition (degrees lat) (degrees lon) },
}

impl Position {
    ghost use Rattle.sq_angle.specs.Position.{lat_of, lon_of};

    /// Returns the position of a latitude and a longitude. Returns `None` exactly if the magnitude of the latitude is
    /// above 90 degrees or that of the longitude is above 180.
    pub fn new(lat: Angle, lon: Angle) -> Option<Position>
        ensures variant { IsSome result ↔ IsPosition (degrees lat) (degrees lon) }
        ensures value { IfSome result (λ p. (lat_of p ≡ lat) × (lon_of p ≡ lon)) }
    {
        if !lat.is_within(90) || !lon.is_within(180) {
            return None;
        }
        Some(Position { lat, lon })
    }

    /// Returns the position of a latitude and a longitude without a test. They have to be within 90 and 180 degrees.
    #[inline(always)]
    pub fn known(lat: Angle, lon: Angle) -> Position
        requires { IsPosition (degrees lat) (degrees lon) }
        ensures lat { lat_of result ≡ lat }
        ensures lon { lon_of result ≡ lon }
    {
        Position { lat, lon }
    }

    /// Returns the latitude in degrees, not in lowest terms.
    pub fn lat(&self) -> Angle
        ensures { result ≡ lat_of self.now }
    {
        self.lat
    }

    /// Returns the longitude in degrees, not in lowest terms.
    pub fn lon(&self) -> Angle
        ensures { result ≡ lon_of self.now }
    {
        self.lon
    }
}
