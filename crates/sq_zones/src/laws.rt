//! Laws of zone counts, over the definition in the contracts of the calls.
//!
//! A function with an empty body does nothing: its contract is the law.
ghost use Rattle.sq_zones.specs.Laws.{LimitsAsFractions, ZonesByValue, FewerTowardsPoles};

/// The test of a latitude against a limit of the table compares their fractions.
pub fn limits_as_fractions()
    ensures { LimitsAsFractions }
{}

/// Latitudes of the same magnitude have the same zone count, for any form of their fractions.
pub fn zones_by_value()
    ensures { ZonesByValue }
{}

/// The zone count stays equal or decreases with the distance from the equator.
pub fn fewer_towards_poles()
    ensures { FewerTowardsPoles }
{}
