//! Decoding an even and an odd code together.
ghost use Rattle.std.specs.Prelude.{◌≡◌, ℕ, ℤ, ◌*◌, ◌^◌, ◌<◌, ◌≤◌, pos, unsigned_abs};
ghost use Rattle.sq_angle.specs.Angle.{degrees};
ghost use Rattle.sq_angle.specs.Fraction.{IsWithin, whole};
ghost use Rattle.sq_angle.specs.Position.{lat_of, lon_of};
ghost use Rattle.sq_angle.specs.Whole.{IsCongruent};
ghost use Rattle.sq_cpr.specs.Code.{numbers_of};
ghost use Rattle.sq_cpr.specs.Grid.{circle, codes_of_zone};
ghost use Rattle.sq_cpr.specs.Near.{IsRepresentative};
ghost use Rattle.sq_cpr.specs.Near.{angle_at as angle_of_index};
ghost use Rattle.sq_cpr.specs.Close.{IsClosePair};
ghost use Rattle.sq_cpr.specs.Close.{zones_of as zones_of_count};
ghost use Rattle.sq_cpr.specs.Span.{ground};
ghost use Rattle.sq_cpr.specs.Pair.{code_pair, of_parity, AreLatitudes, AreAt, AirPairAnswer, PairAnswerAt};

use crate::code::Code;
use crate::faults::PairFault;
use crate::grid::{EVEN_LAT_ZONES, GridPoint, ODD_LAT_ZONES, angle_at};
use crate::index::{index_of, index_within, on_circle, pair_zone};
use crate::span::{Air, Ground, Span, degrees_of, repeats_of};
use sq_angle::{Angle, Position};
use sq_zones::{Parity, zone_count};

// An index of the even grid and one of the odd grid.
#[derive(Clone, Copy)]
struct Indices {
    even: i32,
    odd: i32,
}

impl Indices {
    // Returns the index of the parity's grid.
    fn of(self, parity: Parity) -> i32
        ensures { result ≡ of_parity parity self.even self.odd }
    {
        match parity {
            Parity::Even => self.even,
            Parity::Odd => self.odd,
        }
    }
}

// Returns the longitude number of the newest code.
fn lon_of_newest(newest: Parity, even: Code, odd: Code) -> u32
    ensures value { result ≡ of_parity newest (numbers_of even).lon (numbers_of odd).lon }
    ensures small { result < codes_of_zone }
{
    match newest {
        Parity::Even => even.lon(),
        Parity::Odd => odd.lon(),
    }
}

// Returns the number of longitude zones of a parity for the zone count (NL) `count`: one less for odd, and at least
// one.
fn zones_of(parity: Parity, count: u8) -> u8
    requires some { 1 ≤ count }
    requires small { count ≤ 59 }
    ensures value { result ≡ zones_of_count parity count }
    ensures at_least { 1 ≤ result }
    ensures at_most { result ≤ 59 }
{
    match parity {
        Parity::Even => count,
        Parity::Odd => (count - 1).max(1),
    }
}

// Returns the indices of the close latitudes of two codes, each at its representative at the reference.
#[inline(always)]
fn close_latitudes(span: u32, even: Code, odd: Code, reference: &Angle) -> Indices
    requires span_some { 0 < span }
    requires span_small { span ≤ 360 }
    requires reference_small { IsWithin 180 (degrees reference.now) }
    ensures latitudes { AreLatitudes span (numbers_of even) (numbers_of odd) result.even result.odd }
    ensures at { AreAt span (degrees reference.now) result.even result.odd }
{
    let zone = pair_zone(EVEN_LAT_ZONES, ODD_LAT_ZONES, even.lat(), odd.lat());
    let (even, odd) = (index_of(even.lat(), zone), index_of(odd.lat(), zone));
    Indices {
        even: index_within(even, EVEN_LAT_ZONES, EVEN_LAT_ZONES, span, reference),
        odd: index_within(odd, ODD_LAT_ZONES, ODD_LAT_ZONES, span, reference),
    }
}

// Returns the longitude that lies whole spans from the base and represents it at the reference, as an index on the
// circle.
#[inline(always)]
fn turned_longitude<S: Span>(base: i64, zones: u8, reference: &Angle) -> u32
    requires base_small { unsigned_abs base < 2 ^ 44 }
    requires zones_some { 1 ≤ zones }
    requires zones_small { zones ≤ 59 }
    requires reference_small { IsWithin 180 (degrees reference.now) }
    ensures index { (index : ℤ) × IsCongruent (zones * codes_of_zone) index base
        × IsRepresentative S.span.degrees (degrees reference.now) (angle_of_index S.span.degrees zones index)
        × IsCongruent (circle zones S.span.repeats) (pos result) index }
    ensures below { result < circle zones S.span.repeats }
{
    let span = degrees_of::<S>();
    // If the span is the whole circle, a representative and the base are the same index of the circle.
    if repeats_of::<S>() == 1 {
        return on_circle(base, zones, 1);
    }
    let turned = index_within(base, zones, zones, span, reference);
    on_circle(i64::from(turned), zones, repeats_of::<S>())
}

// Returns the newest of the close longitudes of two codes at its representative at the reference, as an index on the
// circle. Both latitudes have the zone count `count`.
#[inline(always)]
fn close_longitude<S: Span>(
    count: u8,
    newest: Parity,
    even: Code,
    odd: Code,
    reference: &Angle,
) -> u32
    requires count_some { 1 ≤ count }
    requires count_small { count ≤ 59 }
    requires reference_small { IsWithin 180 (degrees reference.now) }
    ensures longitudes { (p q : ℤ) × IsClosePair S.span.degrees (zones_of_count Parity.Even count)
        (zones_of_count Parity.Odd count) (numbers_of even).lon (numbers_of odd).lon p q
        × IsRepresentative S.span.degrees (degrees reference.now)
        (angle_of_index S.span.degrees (zones_of_count newest count) (of_parity newest p q))
        × IsCongruent (circle (zones_of_count newest count) S.span.repeats) (pos result) (of_parity newest p q) }
    ensures below { result < circle (zones_of_count newest count) S.span.repeats }
{
    let zone = pair_zone(
        zones_of(Parity::Even, count),
        zones_of(Parity::Odd, count),
        even.lon(),
        odd.lon(),
    );
    let base = index_of(lon_of_newest(newest, even, odd), zone);
    turned_longitude::<S>(base, zones_of(newest, count), reference)
}

// Returns the newest point of the close pair, with each coordinate at its representative at the place. This function
// and `pair_air` are inlined: a call would return the point through memory, and copying it from there waits for its
// stores.
#[inline(always)]
fn pair<S: Span>(
    even: Code,
    odd: Code,
    newest: Parity,
    place: &Position,
) -> Result<GridPoint<S>, PairFault>
    ensures { PairAnswerAt S.span (code_pair (numbers_of even) (numbers_of odd) newest) place.now result }
{
    let span = degrees_of::<S>();
    let lats = close_latitudes(span, even, odd, &place.lat());
    let Some(even_lat) = angle_at::<S>(Parity::Even, lats.even) else {
        return Err(PairFault::OutOfRange);
    };
    let Some(odd_lat) = angle_at::<S>(Parity::Odd, lats.odd) else {
        return Err(PairFault::OutOfRange);
    };
    let count = zone_count(&even_lat);
    let odd_count = zone_count(&odd_lat);
    if count != odd_count {
        return Err(PairFault::ZoneCounts(count, odd_count));
    }
    let lon_index = close_longitude::<S>(count, newest, even, odd, &place.lon());
    let zones = zones_of(newest, count);
    Ok(GridPoint::of_parts(newest, lats.of(newest), zones, lon_index))
}

// Returns the position at latitude 0 and longitude 0.
fn origin() -> Position
    ensures lat { degrees (lat_of result) ≡ whole 0 }
    ensures lon { degrees (lon_of result) ≡ whole 0 }
{
    let zero = Angle::new(0, 1).unwrap();
    Position::new(zero, zero).unwrap()
}

/// Decodes an even and an odd airborne code sent from nearly the same position. Exactly one pair of points has close
/// latitudes and close longitudes. Returns the point of that pair with the newest parity.
///
/// Errors, in this order: `OutOfRange` if the close latitudes, modulo 360 degrees, do not both lie within -90 to 90
/// degrees, and `ZoneCounts` if their zone counts (NL) differ. The even count comes first. RTCA DO-260B, appendix on
/// compact position reporting, globally unambiguous airborne decoding.
#[inline(always)]
pub fn pair_air(even: Code, odd: Code, newest: Parity) -> Result<GridPoint<Air>, PairFault>
    ensures { AirPairAnswer (code_pair (numbers_of even) (numbers_of odd) newest) result }
{
    pair::<Air>(even, odd, newest, &origin())
}

/// Decodes an even and an odd surface code sent from nearly the same position. They have several pairs of close
/// points, 90 degrees apart. Returns the point of the newest parity that is within 45 degrees of the site in both
/// coordinates. If two are exactly 45 degrees away on either side, it returns the northern or the eastern one.
///
/// Each latitude is chosen in this way on its own. Errors, in this order: `OutOfRange` if one of the latitudes lies
/// outside -90 to 90 degrees, and `ZoneCounts` if the zone counts (NL) differ. The even count comes first. RTCA
/// DO-260B, appendix on compact position reporting, globally unambiguous surface decoding.
pub fn pair_ground(
    even: Code,
    odd: Code,
    newest: Parity,
    site: &Position,
) -> Result<GridPoint<Ground>, PairFault>
    ensures { PairAnswerAt ground (code_pair (numbers_of even) (numbers_of odd) newest) site.now result }
{
    pair::<Ground>(even, odd, newest, site)
}
