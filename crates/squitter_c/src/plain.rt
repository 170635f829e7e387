//! Plain values that are passed to and from C, and the values that they represent.
ghost use Rattle.std.specs.Prelude.{◌≡◌, ◌↔◌, IfSome, IsSome};
ghost use Rattle.sq_angle.specs.Angle.{degrees};
ghost use Rattle.squitter_c.specs.Plain.{IsAngleOf, IsFlag, IsLowestOf, IsLowestPosition, IsOfDegrees, IsParity};
ghost use Rattle.squitter_c.specs.Plain.{PlainIsAngle, PlainIsPosition};

use sq_angle::{Angle, Position};
use sq_zones::Parity;

/// A fraction of degrees.
#[repr(C)]
#[derive(Clone, Copy)]
pub struct PlainAngle {
    pub num: i64,
    pub den: u64,
}

/// A latitude, north positive, and a longitude, east positive.
#[repr(C)]
#[derive(Clone, Copy)]
pub struct PlainPosition {
    pub lat: PlainAngle,
    pub lon: PlainAngle,
}

/// Returns the angle of a fraction of degrees. `None` exactly if it is not a valid angle: see [`Angle::new`] for the
/// limits.
pub fn angle_of(plain: &PlainAngle) -> Option<Angle>
    ensures variant { IsSome result ↔ PlainIsAngle plain.now }
    ensures value { IfSome result (IsAngleOf plain.now) }
{
    Angle::new(plain.num, plain.den)
}

/// Returns the position of two fractions of degrees. `None` exactly if one of them is not a valid angle, or both
/// together are not a valid position: see [`Position::new`] for the limits.
pub fn position_of(plain: &PlainPosition) -> Option<Position>
    ensures variant { IsSome result ↔ PlainIsPosition plain.now }
    ensures value { IfSome result (IsOfDegrees plain.now) }
{
    let lat = angle_of(&plain.lat)?;
    let lon = angle_of(&plain.lon)?;
    Position::new(lat, lon)
}

/// Returns a position in degrees, both fractions in lowest terms.
pub fn plain_position(position: &Position) -> PlainPosition
    ensures { IsLowestPosition position.now result }
{
    PlainPosition {
        lat: plain_angle(&position.lat()),
        lon: plain_angle(&position.lon()),
    }
}

/// Returns an angle in degrees, in lowest terms.
pub fn plain_angle(angle: &Angle) -> PlainAngle
    ensures { IsLowestOf (degrees angle.now) result }
{
    let (num, den) = angle.reduced();
    PlainAngle { num, den }
}

/// Returns the parity of a number: 0 is even and 1 is odd. `None` for any other number.
pub fn parity_of(odd: u8) -> Option<Parity>
    ensures variant { IsSome result ↔ IsFlag odd }
    ensures value { IfSome result (IsParity odd) }
{
    match odd {
        0 => Some(Parity::Even),
        1 => Some(Parity::Odd),
        _ => None,
    }
}
