//! Laws of grids, codes, zones and decoding, over the definitions in the contracts of the calls.
//!
//! A function with an empty body does nothing: its contract is the law. The others make the call that they speak of.
ghost use Rattle.sq_cpr.specs.Laws.{RoundsToOne, RoundsToItself, SameZones, SamePoints};
ghost use Rattle.sq_cpr.specs.DecodeLaws.{FractionsAgree};
ghost use Rattle.sq_cpr.specs.DecodeLaws.{OneCloseLatitudes, OneCloseLongitudes, OneNearLatitude};
ghost use Rattle.sq_cpr.specs.DecodeLaws.{StrictlyNearIsNear, NearPointIsLocal, StrictlyNearPointIsLocal};
ghost use Rattle.sq_cpr.specs.DecodeLaws.{LocalKeepsCode};
ghost use Rattle.sq_cpr.specs.DecodeLaws.{PairKeepsCode, AirPairKeepsCode, CloseAirPointsAreAnswered};
ghost use Rattle.sq_cpr.specs.DecodeLaws.{CloseGroundPointsAreAnswered};
ghost use Rattle.sq_cpr.specs.DecodeLaws.{TameAirPointsAreAnswered, TameGroundPointsAreAnswered, SlowIsTame};
ghost use Rattle.sq_cpr.specs.DecodeLaws.{RoundsNearSite, FollowingIsNear};
ghost use Rattle.sq_cpr.specs.Exactly.{TurnsChangeNothing};

use crate::span::Span;

/// A position rounds to exactly one point of each parity's grid.
pub fn rounds_to_one<S: Span>()
    ensures { RoundsToOne S.span }
{}

/// A point's own position rounds to that point.
pub fn rounds_to_itself<S: Span>()
    ensures { RoundsToItself S.span }
{}

/// If two positions lie in the same zones, the points to which they round have equal codes exactly if the points are
/// equal.
pub fn same_zones<S: Span>()
    ensures { SameZones S.span }
{}

/// Two points of a grid are equal exactly if their parities and both indices are equal.
pub fn same_points<S: Span>()
    ensures { SamePoints S.span }
{}

/// Each latitude code has exactly one index near a reference.
pub fn one_near_latitude<S: Span>()
    ensures { OneNearLatitude S.span }
{}

/// Any two latitude codes have exactly one close pair of latitudes.
pub fn one_close_latitudes<S: Span>()
    ensures { OneCloseLatitudes S.span }
{}

/// Any two longitude codes have exactly one close pair of longitudes, for each zone count from 1 to 59.
pub fn one_close_longitudes<S: Span>()
    ensures { OneCloseLongitudes S.span }
{}

/// The windows near a reference and between close angles, stated with fractions, agree with their multiplied-out
/// forms.
pub fn fractions_agree<S: Span>()
    ensures { FractionsAgree S.span }
{}

/// A strictly near point is near.
pub fn strictly_near_is_near<S: Span>()
    ensures { StrictlyNearIsNear S.span }
{}

/// A point with the code that is near the reference is the result of decoding there.
pub fn near_point_is_local<S: Span>()
    ensures { NearPointIsLocal S.span }
{}

/// A point with the code that is strictly near the reference is the result of decoding there.
pub fn strictly_near_point_is_local<S: Span>()
    ensures { StrictlyNearPointIsLocal S.span }
{}

/// A point decoded near a reference has the given code and parity.
pub fn local_keeps_code<S: Span>()
    ensures { LocalKeepsCode S.span }
{}

/// A point decoded from a pair at a place has the newest code and parity.
pub fn pair_keeps_code<S: Span>()
    ensures { PairKeepsCode S.span }
{}

/// A point decoded from an airborne pair has the newest code and parity.
pub fn air_pair_keeps_code()
    ensures { AirPairKeepsCode }
{}

/// The codes of close airborne points decode to the newest point.
pub fn close_air_points_are_answered()
    ensures { CloseAirPointsAreAnswered }
{}

/// The codes of close surface points decode to the newest point if both lie less than 45 degrees from the site.
pub fn close_ground_points_are_answered()
    ensures { CloseGroundPointsAreAnswered }
{}

/// The codes of tame airborne points decode to the newest point or to `ZoneCounts`, and never to `OutOfRange`. Points
/// are tame if their latitudes are close and, if their zone counts are equal, their longitudes are close too.
pub fn tame_air_points_are_answered()
    ensures { TameAirPointsAreAnswered }
{}

/// The codes of tame surface points less than 45 degrees from the site decode to the newest point or to `ZoneCounts`,
/// and never to `OutOfRange`. Points are tame if their latitudes are close and, if their zone counts are equal, their
/// longitudes are close too.
pub fn tame_ground_points_are_answered()
    ensures { TameGroundPointsAreAnswered }
{}

/// Slow positions round to tame points. Positions are slow if their latitudes differ by less than the closeness minus
/// a step of the odd grid. If the zone counts are equal and at least two, the longitudes have to differ by less than
/// theirs as well.
pub fn slow_is_tame<S: Span>()
    ensures { SlowIsTame S.span }
{}

/// A position less than 44 degrees from the site rounds to a point less than 45 degrees from it.
pub fn rounds_near_site<S: Span>()
    ensures { RoundsNearSite S.span }
{}

/// Positions that are slow for following round to points that are strictly near one another.
pub fn following_is_near<S: Span>()
    ensures { FollowingIsNear S.span }
{}

/// Adding whole turns to either angle keeps a difference modulo 360 degrees below its limit.
pub fn turns_change_nothing()
    ensures { TurnsChangeNothing }
{}
