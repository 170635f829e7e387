//! Whether a place can be true: how far it is from a site, and how fast an aircraft came there.
ghost use Rattle.std.specs.Prelude.{◌≡◌, ◌≤◌, ◌*◌, ◌^◌, ◌*ℤ◌, min, option_copied, pos};
ghost use Rattle.sq_angle.specs.Angle.{degrees};
ghost use Rattle.sq_track.specs.Watch.{are_apart, gap, is_beyond, is_longer, is_too_fast, parts, way_at, whole_miles};

use crate::contact::LastFix;
use sq_angle::{Angle, Position};
use sq_zones::zone_count;

// A degree of latitude has so many nautical miles.
const LAT_MILES: u8 = 60;

// The milliseconds of an hour.
const HOUR: u64 = 3_600_000;

// More miles, times the milliseconds of an hour, than two positions can lie apart.
const MOST: u128 = 1 << 40;

/// What is known of the places of aircraft, from a receiver's range and from their speed. Places that cannot be true
/// show that aircraft moved faster than the tracker takes them to, or that two of them have one address.
#[derive(Clone, Copy, Debug)]
pub struct Watch {
    /// No aircraft is further from the site than so many nautical miles.
    pub range: Option<u32>,
    /// No aircraft is faster than so many knots.
    pub speed: Option<u32>,
}

// num / den nautical miles.
#[derive(Clone, Copy)]
struct Miles {
    num: u64,
    den: u64,
}

impl Miles {
    // Returns so many nautical miles.
    fn whole(range: u32) -> Miles
        ensures miles { result ≡ whole_miles range }
        ensures small { result.num ≤ 2 ^ 40 }
    {
        Miles {
            num: u64::from(range),
            den: 1,
        }
    }

    // Returns the way at a speed in so many milliseconds and a mile, or more than there is on the globe.
    fn way(speed: u32, elapsed: u64) -> Miles
        ensures den { result.den ≡ 3600000 }
        ensures num { result.num ≡ min (way_at speed elapsed).num (2 ^ 40) }
    {
        let way = u128::from(speed) * u128::from(elapsed) + u128::from(HOUR);
        Miles {
            num: way.min(MOST) as u64,
            den: HOUR,
        }
    }
}

// Returns the parts of a degree from one angle to another.
fn gap(one: &Angle, other: &Angle) -> u128
    ensures { result ≡ gap (degrees one.now) (degrees other.now) }
{
    (times(one, other) - times(other, one)).unsigned_abs()
}

// Returns an angle in parts of a degree, as the denominators of both make them.
fn times(angle: &Angle, other: &Angle) -> i128
    ensures { result ≡ pos (degrees other.now).den *ℤ (degrees angle.now).num }
{
    i128::from(other.den()) * i128::from(angle.num())
}

// Returns how many of the parts a degree has.
fn parts(one: &Angle, other: &Angle) -> u128
    ensures parts { result ≡ parts (degrees one.now) (degrees other.now) }
    ensures small { result ≤ 10 ^ 24 }
{
    u128::from(one.den()) * u128::from(other.den())
}

// Returns whether the way is longer than the miles.
fn is_longer(miles: Miles, a_degree: u8, way: u128, parts: u128) -> bool
    requires miles { (miles.num ≤ 2 ^ 40) × (miles.den ≤ 3600000) }
    requires few { a_degree ≤ 60 }
    requires way { way ≤ 720 * parts }
    requires parts { parts ≤ 10 ^ 24 }
    ensures { result ≡ is_longer miles a_degree way parts }
{
    u128::from(miles.num) * parts < u128::from(a_degree) * way * u128::from(miles.den)
}

// Returns whether two positions lie further apart than so many nautical miles.
fn are_apart(miles: Miles, one: &Position, other: &Position) -> bool
    requires { (miles.num ≤ 2 ^ 40) × (miles.den ≤ 3600000) }
    ensures { result ≡ are_apart miles one.now other.now }
{
    let (lat, other_lat) = (one.lat(), other.lat());
    if is_longer(
        miles,
        LAT_MILES,
        gap(&lat, &other_lat),
        parts(&lat, &other_lat),
    ) {
        return true;
    }
    let zones = zone_count(&lat).min(zone_count(&other_lat));
    if zones < 2 {
        return false;
    }
    let (lon, other_lon) = (one.lon(), other.lon());
    let (way, parts) = (gap(&lon, &other_lon), parts(&lon, &other_lon));
    is_longer(
        miles,
        zones,
        way.min((360 * parts).saturating_sub(way)),
        parts,
    )
}

impl Watch {
    /// Returns whether a place is further from the site than the range, if both are known. Its latitude differs by more
    /// than range / 60 degrees, or its longitude by more than range / NL degrees, the shorter way round. NL is the
    /// smaller zone count of the two. If that is 1, longitudes are not compared.
    pub fn is_beyond(&self, site: Option<&Position>, place: &Position) -> bool
        ensures { result ≡ is_beyond self.now.range (option_copied site.entry) place.now }
    {
        match (self.range, site) {
            (Some(range), Some(site)) => are_apart(Miles::whole(range), site, place),
            _ => false,
        }
    }

    /// Returns whether an aircraft is too fast, if its place before and the speed are known. Its place at `moment` (ms)
    /// is further from that one, as [`Watch::is_beyond`] compares places, than the speed takes it in the time between,
    /// and a nautical mile.
    pub fn is_too_fast(&self, before: Option<&LastFix>, moment: u64, place: &Position) -> bool
        ensures { result ≡ is_too_fast self.now.speed (option_copied before.entry) moment place.now }
    {
        match (self.speed, before) {
            (Some(speed), Some(before)) => {
                let way = Miles::way(speed, moment.saturating_sub(before.moment));
                are_apart(way, &before.position, place)
            }
            _ => false,
        }
    }
}
