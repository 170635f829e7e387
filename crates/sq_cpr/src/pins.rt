//! Guards of the definitions: each has one value, some value or an exact condition, so none can be weakened unnoticed.
//! A function with an empty body does nothing: its contract is the statement.
ghost use Rattle.std.specs.Prelude.{◌≡◌, ◌↔◌, IsTrue};
ghost use Rattle.sq_cpr.specs.Code.{numbers_of};
ghost use Rattle.sq_cpr.specs.Laws.{OnePairOfZones, OneCode};
ghost use Rattle.sq_cpr.specs.DecodeLaws.{OneNearLongitude, OneLocalAnswer};
ghost use Rattle.sq_cpr.specs.DecodeLaws.{OneZoneIsClose, OnePairAnswer};
ghost use Rattle.sq_cpr.specs.DecodeLaws.{OneAirPairAnswer};
ghost use Rattle.sq_cpr.specs.DecodeLaws.{SomeLocalAnswer, SomePairAnswer};
ghost use Rattle.sq_cpr.specs.DecodeLaws.{SomeAirPairAnswer};
ghost use Rattle.sq_cpr.specs.Exactly.{Across180Degrees, AtTheLimits, CloseExactly, DifferAroundExactly, DifferExactly};
ghost use Rattle.sq_cpr.specs.Exactly.{FollowingExactly, LimitsAsNumbers, LimitsInWords, PointWithinExactly};
ghost use Rattle.sq_cpr.specs.Exactly.{SlowExactly, WithinExactly};
ghost use Rattle.sq_cpr.specs.Exactly.{NearThreeDecimals, StrictlyNearExactly, TameAnswerExactly, TameExactly};
ghost use Rattle.sq_cpr.specs.Exactly.{GridPointExactly, TwoCountsExactly, WindowExactly, ZonesAsNumbers};

use crate::code::Code;
use crate::faults::{LocalFault, PairFault};
use crate::grid::GridPoint;
use crate::span::Span;

/// A position lies in exactly one pair of zones of each parity's grid.
pub fn one_pair_of_zones<S: Span>()
    ensures { OnePairOfZones S.span }
{}

/// A point has exactly one code of 17 bits.
pub fn one_code()
    ensures { OneCode }
{}

/// Each longitude code has exactly one index on the circle near a reference, for any number of zones.
pub fn one_near_longitude<S: Span>()
    ensures { OneNearLongitude S.span }
{}

/// Decoding near a reference has at most one result.
pub fn one_local_answer<S: Span>()
    ensures { OneLocalAnswer S.span }
{}

/// If each grid has one zone, any two angles are close.
pub fn one_zone_is_close<S: Span>()
    ensures { OneZoneIsClose S.span }
{}

/// Decoding a pair at a place has at most one result.
pub fn one_pair_answer<S: Span>()
    ensures { OnePairAnswer S.span }
{}

/// Decoding an airborne pair has at most one result.
pub fn one_air_pair_answer()
    ensures { OneAirPairAnswer }
{}

/// Two angles differ by less than a limit exactly if each lies below the other plus the limit. Modulo 360 degrees,
/// they do exactly if they do after some whole turns are added to the first.
pub fn differ_exactly()
    ensures straight { DifferExactly }
    ensures around { DifferAroundExactly }
{}

/// Longitudes on either side of 180 degrees.
pub fn across_180_degrees()
    ensures { Across180Degrees }
{}

/// Differences next to the limits, for points with 59 and 58 zones.
pub fn at_the_limits()
    ensures { AtTheLimits }
{}

/// The limits for slow positions, as numbers and as formulas of the span and the zones.
pub fn limits_of_slow()
    ensures numbers { LimitsAsNumbers }
    ensures words { LimitsInWords }
{}

/// The exact condition for slow.
pub fn slow_exactly<S: Span>()
    ensures { SlowExactly S.span }
{}

/// The exact condition for slow for following.
pub fn following_exactly<S: Span>()
    ensures { FollowingExactly S.span }
{}

/// The exact condition for being within a number of degrees of a site, for positions and for points.
pub fn within_exactly<S: Span>()
    ensures positions { WithinExactly }
    ensures points { PointWithinExactly S.span }
{}

/// The exact condition for being strictly near a reference, for points and for each coordinate.
pub fn strictly_near_exactly<S: Span>()
    ensures points { StrictlyNearExactly S.span }
    ensures window { WindowExactly }
{}

/// An even and an odd point next to a reference of three decimals.
pub fn near_three_decimals()
    ensures { NearThreeDecimals }
{}

/// The exact condition for tame.
pub fn tame_exactly<S: Span>()
    ensures { TameExactly S.span }
{}

/// A point is on the grid exactly if its latitude is within 90 degrees, with the zones there, and its longitude index
/// is on the circle. An even grid has 60 zones of latitude and an odd one 59.
pub fn grid_point_exactly<S: Span>()
    ensures point { GridPointExactly S.span }
    ensures zones { ZonesAsNumbers }
{}

/// The result for tame points is the newest one, or the two zone counts of their latitudes if these differ.
pub fn tame_answer_exactly<S: Span>()
    ensures counts { TwoCountsExactly S.span }
    ensures answer { TameAnswerExactly S.span }
{}

/// Points are close exactly if they are tame and have one zone count.
pub fn close_exactly<S: Span>()
    ensures { CloseExactly S.span }
{}

/// Decoding near a reference has a result.
pub fn some_local_answer<S: Span>()
    ensures { SomeLocalAnswer S.span }
{}

/// Decoding a pair has a result, at a place and in the air.
pub fn some_pair_answer<S: Span>()
    ensures at_a_place { SomePairAnswer S.span }
    ensures in_air { SomeAirPairAnswer }
{}

/// Compares two points by `==`, which is true exactly if their parity and both indices are the same.
pub fn equal_points<S: Span>(a: &GridPoint<S>, b: &GridPoint<S>) -> bool
    ensures equal { IsTrue result ↔ (a.now ≡ b.now) }
    ensures indices { IsTrue result ↔ ((a.now.parity ≡ b.now.parity) × (a.now.lat_index ≡ b.now.lat_index)
        × (a.now.lon_index ≡ b.now.lon_index)) }
{
    // the contract of each call says that its point is on the grid
    let _ = (a.parity(), b.parity());
    a == b
}

/// Compares two codes by `==`, which is true exactly if both numbers are the same.
pub fn equal_codes(code: &Code, other: &Code) -> bool
    ensures { IsTrue result ↔ (numbers_of code.now ≡ numbers_of other.now) }
{
    code == other
}

/// Compares two errors of local decoding by `==`, which is true exactly if they are the same.
pub fn equal_local_faults(local_fault: &LocalFault, other: &LocalFault) -> bool
    ensures { IsTrue result ↔ (local_fault.now ≡ other.now) }
{
    local_fault == other
}

/// Compares two errors of pair decoding by `==`, which is true exactly if they are the same.
pub fn equal_pair_faults(pair_fault: &PairFault, other: &PairFault) -> bool
    ensures { IsTrue result ↔ (pair_fault.now ≡ other.now) }
{
    pair_fault == other
}
