//! Rounding a position to a point of the grid, and encoding it.
ghost use Rattle.std.specs.Prelude.{◌≡◌, ◌≤◌, ◌<◌, ℤ, pos};
ghost use Rattle.sq_angle.specs.Angle.{degrees};
ghost use Rattle.sq_angle.specs.Fraction.{IsWithin};
ghost use Rattle.sq_angle.specs.Nearest.{IsNearest};
ghost use Rattle.sq_angle.specs.Position.{lat_of, lon_of};
ghost use Rattle.sq_angle.specs.Whole.{IsCongruent};
ghost use Rattle.sq_cpr.specs.Code.{numbers_of};
ghost use Rattle.sq_cpr.specs.Grid.{Point, IsGridPoint, IsLatitude, step, circle, lat_zones as lat_zones_of, latitude};
ghost use Rattle.sq_cpr.specs.Grid.{longitude, code_of};
ghost use Rattle.sq_cpr.specs.Rounds.{PositionRoundsTo};

use crate::code::Code;
use crate::grid::{GridPoint, angle_at, lat_zones};
use crate::index::{nearest_index, on_circle};
use crate::span::{Span, degrees_of, repeats_of};
use sq_angle::{Angle, Position};
use sq_zones::{Parity, lon_zones};

/// Rounds a position to a point of the parity's grid (RTCA DO-260B, appendix on compact position reporting). The
/// point has the nearest latitude index, and the nearest longitude index by the longitude zones of that latitude. If
/// two indices are equally near, it has the northern or the eastern one.
///
/// Each position rounds to exactly one point. A point's own [`GridPoint::position`] rounds to that point.
pub fn nearest<S: Span>(position: &Position, parity: Parity) -> GridPoint<S>
    ensures parity { result.parity ≡ parity }
    ensures of_grid { IsGridPoint S.span result }
    ensures rounds { PositionRoundsTo S.span position.now result }
    ensures only { (point : Point) → point.parity ≡ parity
        → PositionRoundsTo S.span position.now point → point ≡ result }
    ensures itself { (point : Point) → IsGridPoint S.span point → point.parity ≡ parity
        → degrees (lat_of position.now) ≡ latitude S.span point
        → degrees (lon_of position.now) ≡ longitude S.span point
        → point ≡ result }
{
    rounded(position, parity)
}

/// Encodes a position: returns the code of its rounded point.
pub fn encode<S: Span>(position: &Position, parity: Parity) -> Code
    ensures code { (point : Point) × (point.parity ≡ parity)
        × PositionRoundsTo S.span position.now point × (numbers_of result ≡ code_of point) }
    ensures only { (point : Point) → point.parity ≡ parity
        → PositionRoundsTo S.span position.now point → numbers_of result ≡ code_of point }
{
    nearest::<S>(position, parity).code()
}

// Rounds a position to a point.
fn rounded<S: Span>(position: &Position, parity: Parity) -> GridPoint<S>
    ensures parity { result.parity ≡ parity }
    ensures rounds { PositionRoundsTo S.span position.now result }
{
    let lat_index = nearest_latitude::<S>(&position.lat(), parity);
    let lat = angle_at::<S>(parity, lat_index).unwrap();
    let lon_index = nearest_longitude::<S>(&position.lon(), lon_zones(&lat, parity));
    GridPoint::new(parity, lat_index, lon_index).unwrap()
}

// Returns the nearest latitude index.
fn nearest_latitude<S: Span>(lat: &Angle, parity: Parity) -> i32
    requires { IsWithin 90 (degrees lat.now) }
    ensures nearest { IsNearest (degrees lat.now) (step S.span.degrees (lat_zones_of parity)) result }
    ensures within { IsLatitude S.span.degrees parity result }
{
    nearest_index(lat, degrees_of::<S>(), lat_zones(parity)) as i32
}

// Returns the nearest number of longitude steps, as an index of the circle.
fn nearest_longitude<S: Span>(lon: &Angle, zones: u8) -> u32
    requires at_least { 1 ≤ zones }
    requires at_most { zones ≤ 59 }
    ensures within { result < circle zones S.span.repeats }
    ensures nearest { (index : ℤ) × IsNearest (degrees lon.now) (step S.span.degrees zones) index
        × IsCongruent (circle zones S.span.repeats) index (pos result) }
{
    let index = nearest_index(lon, degrees_of::<S>(), zones);
    on_circle(index, zones, repeats_of::<S>())
}
