//! The points of a grid.
ghost use Rattle.std.specs.Prelude.{◌≡◌, ◌↔◌, IsSome, IfSome, ◌≤◌, ◌<◌, ◌*◌, ◌^◌, pos, ◌-ℤ◌, nat_lt, if◌then◌else◌};
ghost use Rattle.sq_angle.specs.Angle.{degrees};
ghost use Rattle.sq_angle.specs.Fraction.{IsWithin};
ghost use Rattle.sq_angle.specs.Position.{lat_of, lon_of};
ghost use Rattle.sq_cpr.specs.Code.{numbers_of};
ghost use Rattle.sq_cpr.specs.Grid.{Point, IsGridPoint, HasPoint, IsLatitude, circle, lat_zones as lat_zones_of};
ghost use Rattle.sq_cpr.specs.Grid.{grid_latitude, grid_longitude, latitude, longitude, code_of, point_at};

use crate::code::{CODES_OF_ZONE, Code};
use crate::span::{Span, degrees_of};
use sq_angle::{Angle, Position};
use sq_zones::{Parity, lon_zones};
use std::marker::{Model, PhantomData};

/// The number of latitude zones of an even grid.
pub(crate) const EVEN_LAT_ZONES: u8 = 60;

/// The number of latitude zones of an odd grid.
pub(crate) const ODD_LAT_ZONES: u8 = 59;

/// A point of a parity's grid (RTCA DO-260B, appendix on compact position reporting). Its latitude is `lat_index`
/// steps of the latitude zones. Its longitude is `lon_index` steps of the longitude zones at its own latitude.
///
/// Two points of a span are equal exactly if their parities and both indices are equal.
#[derive_where(Clone, Copy, Debug, PartialEq, Eq)]
pub struct GridPoint<S: Span> {
    parity: Parity,
    lat_index: i32,
    zones: u8,
    lon_index: u32,
    span: PhantomData<S>,
}

impl<S: Span> Model for GridPoint<S> {
    ghost Value = { Point };

    ghost view = { λ p. point_at p.parity p.lat_index p.zones p.lon_index };

    ghost invariant = { λ p. IsGridPoint S.span (point_at p.parity p.lat_index p.zones p.lon_index) };

    ghost inverse = { λ p. record {
      parity = p.parity;
      lat_index = p.lat_index;
      zones = p.zones;
      lon_index = p.lon_index;
      span = record {};
    } };
}

impl<S: Span> GridPoint<S> {
    /// Returns the point with these indices. Returns `None` exactly if the grid has no such point: the latitude would
    /// lie outside -90 to 90 degrees, or the longitude index is at least the number of steps of the circle.
    pub fn new(parity: Parity, lat_index: i32, lon_index: u32) -> Option<GridPoint<S>>
        ensures variant { IsSome result ↔ HasPoint S.span parity lat_index lon_index }
        ensures value { IfSome result (λ p. (p.parity ≡ parity) × (p.lat_index ≡ lat_index)
            × (p.lon_index ≡ lon_index)) }
        ensures of_grid { IfSome result (IsGridPoint S.span) }
    {
        let lat = angle_at::<S>(parity, lat_index)?;
        let zones = lon_zones(&lat, parity);
        if u64::from(lon_index) >= u64::from(zones) * CODES_OF_ZONE * u64::from(S::REPEATS) {
            return None;
        }
        Some(GridPoint::of_parts(parity, lat_index, zones, lon_index))
    }

    // Returns the point of these parts, which have to be those of a grid point.
    pub(crate) fn of_parts(
        parity: Parity,
        lat_index: i32,
        zones: u8,
        lon_index: u32,
    ) -> GridPoint<S>
        requires { IsGridPoint S.span (point_at parity lat_index zones lon_index) }
        ensures value { result ≡ point_at parity lat_index zones lon_index }
        ensures of_grid { IsGridPoint S.span result }
    {
        GridPoint {
            parity,
            lat_index,
            zones,
            lon_index,
            span: PhantomData,
        }
    }

    /// Returns the parity of the point's grid.
    pub fn parity(&self) -> Parity
        ensures value { result ≡ self.now.parity }
        ensures of_grid { IsGridPoint S.span self.now }
    {
        self.parity
    }

    /// Returns the latitude in steps, north positive.
    pub fn lat_index(&self) -> i32
        ensures { result ≡ self.now.lat_index }
    {
        self.lat_index
    }

    /// Returns the number of longitude zones at the point's latitude, from 1 to 59.
    pub fn zones(&self) -> u8
        ensures { result ≡ self.now.zones }
    {
        self.zones
    }

    /// Returns the longitude in steps, eastwards from the prime meridian.
    pub fn lon_index(&self) -> u32
        ensures { result ≡ self.now.lon_index }
    {
        self.lon_index
    }

    /// Returns the code of the point: both indices modulo 2^17.
    pub fn code(&self) -> Code
        ensures { numbers_of result ≡ code_of self.now }
    {
        let lat = self.lat_index.rem_euclid(CODES_OF_ZONE as i32) as u32;
        let lon = self.lon_index % CODES_OF_ZONE as u32;
        Code::new(lat, lon).unwrap()
    }

    /// Returns the exact position of the point. W is the span's degrees, and i is 0 for even and 1 for odd. The
    /// latitude is `lat_index * W` over `(60 - i) * 2^17`. The longitude is `lon_index * W` over `zones * 2^17`, less
    /// 360 degrees from 180 up.
    pub fn position(&self) -> Position
        ensures lat { degrees (lat_of result) ≡ latitude S.span self.now }
        ensures lon { degrees (lon_of result) ≡ longitude S.span self.now }
    {
        let lat = lat_angle::<S>(self.parity, self.lat_index);
        let lon = lon_angle::<S>(self.zones, self.lon_index);
        Position::known(lat, lon)
    }
}

/// Returns the number of latitude zones of a parity: 60 even, 59 odd.
pub fn lat_zones(parity: Parity) -> u8
    ensures { result ≡ lat_zones_of parity }
{
    EVEN_LAT_ZONES - parity.index()
}

// Returns the latitude at an index; it has to lie in -90 to 90 degrees.
fn lat_angle<S: Span>(parity: Parity, lat_index: i32) -> Angle
    requires { IsLatitude S.span.degrees parity lat_index }
    ensures value { degrees result ≡ grid_latitude S.span.degrees parity lat_index }
    ensures within { IsWithin 90 (degrees result) }
{
    let num = i64::from(degrees_of::<S>()) * i64::from(lat_index);
    Angle::known(num, u64::from(lat_zones(parity)) * CODES_OF_ZONE)
}

// Returns the latitude at an index, or `None` if it lies outside -90 to 90 degrees.
pub(crate) fn angle_at<S: Span>(parity: Parity, lat_index: i32) -> Option<Angle>
    ensures variant { IsSome result ↔ IsLatitude S.span.degrees parity lat_index }
    ensures value { IfSome result (λ a. degrees a ≡ grid_latitude S.span.degrees parity lat_index) }
{
    let num = i64::from(degrees_of::<S>()) * i64::from(lat_index);
    let angle = Angle::new(num, u64::from(lat_zones(parity)) * CODES_OF_ZONE)?;
    if angle.is_within(90) {
        Some(angle)
    } else {
        None
    }
}

// Returns the longitude at an index of the circle.
fn lon_angle<S: Span>(zones: u8, lon_index: u32) -> Angle
    requires at_least { 1 ≤ zones }
    requires of_circle { lon_index < circle zones S.span.repeats }
    ensures value { degrees result ≡ grid_longitude S.span.degrees zones lon_index }
    ensures within { IsWithin 180 (degrees result) }
{
    let den = u64::from(zones) * CODES_OF_ZONE;
    let east = u64::from(degrees_of::<S>()) * u64::from(lon_index);
    let num = west_from_180(east, den);
    Angle::known(num, den)
}

// Returns the numerator over `den` of `east / den` degrees, less 360 degrees from 180 up.
fn west_from_180(east: u64, den: u64) -> i64
    requires small { den < 2 ^ 40 }
    requires of_circle { east < 360 * den }
    ensures value { result ≡ (if nat_lt east (180 * den) then pos east else (pos east -ℤ pos (360 * den))) }
    ensures within { IsWithin 180 (record { num = result; den = den }) }
{
    if east < 180 * den {
        east as i64
    } else {
        east as i64 - (360 * den) as i64
    }
}
