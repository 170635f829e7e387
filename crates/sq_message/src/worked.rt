//! The headline at worked positions, in numbers.
//!
//! The frames 8D40621D58C382D690C8AC2863A7 and 8D40621D58C386435CC412692AD6 are worked in the literature. The first
//! was sent from 52.2572021 3.9193726, which rounds to the point of the even airborne grid with the indices 1,141,576
//! and 51,372. The second was sent from 52.26578 3.93891, which rounds to the point of the odd one with 1,122,734 and
//! 50,194.
ghost use Rattle.std.specs.Prelude.{◌≡◌, pos, Ok};
ghost use Rattle.sq_angle.specs.Bounds.{IsAngle, IsPosition};
ghost use Rattle.sq_zones.specs.declared.parity.Parity.TheVariants.{Even, Odd};
ghost use Rattle.sq_cpr.specs.Grid.{point_at};
ghost use Rattle.sq_cpr.specs.Pair.{of_parity};
ghost use Rattle.sq_message.specs.declared.place.Place.TheVariants.{Air, Ground};
ghost use Rattle.sq_message.specs.Places.{IsAt};

use crate::laws::{read_near_of_sent, read_pair_of_sent};
use crate::{AirHead, Angle, GroundHead, Parity, Place, PlaceFault, Position};

// Returns the position at `lat` / `parts` and `lon` / `parts` degrees.
fn position_of(lat: i64, lon: i64, parts: u64) -> Position
    requires lat { IsAngle lat parts }
    requires lon { IsAngle lon parts }
    requires both { IsPosition (record { num = lat; den = parts }) (record { num = lon; den = parts }) }
    ensures { IsAt (record { num = lat; den = parts }) (record { num = lon; den = parts }) result }
{
    let lat = Angle::new(lat, parts).unwrap();
    let lon = Angle::new(lon, parts).unwrap();
    Position::new(lat, lon).unwrap()
}

/// Sends 52.2572021 3.9193726 in the even format with any head and decodes the frame near 52.258 3.918. The result is
/// the point to which the position rounds.
pub fn read_near(head: AirHead) -> Result<Place, PlaceFault>
    ensures { result ≡ Ok (Air (point_at Even (pos 1141576) 36 51372)) }
{
    let here = position_of(522_572_021, 39_193_726, 10_000_000);
    let reference = position_of(52_258, 3_918, 1_000);
    let (_, place) = read_near_of_sent(head, Parity::Even, &here, &reference);
    place
}

/// Sends 52.2572021 3.9193726 in the even format and 52.26578 3.93891 in the odd one, with any head, and decodes the
/// frames as a pair. The result is the point of the newest.
pub fn read_pair(head: AirHead, newest: Parity) -> Result<Place, PlaceFault>
    ensures { result ≡ Ok (Air (of_parity newest (point_at Even (pos 1141576) 36 51372)
        (point_at Odd (pos 1122734) 35 50194))) }
{
    let even = position_of(522_572_021, 39_193_726, 10_000_000);
    let odd = position_of(5_226_578, 393_891, 100_000);
    let (_, _, place) = read_pair_of_sent(head, &even, head, &odd, newest, None);
    place
}

/// Sends 52.3206071 4.7347347 on the ground in the odd format with any head and decodes the frame near 51.99 4.375.
/// The result is the point to which the position rounds.
pub fn read_near_on_ground(head: GroundHead) -> Result<Place, PlaceFault>
    ensures { result ≡ Ok (Ground (point_at Odd (pos 4495647) 35 241341)) }
{
    let here = position_of(523_206_071, 47_347_347, 10_000_000);
    let reference = position_of(51_990, 4_375, 1_000);
    let (_, place) = read_near_of_sent(head, Parity::Odd, &here, &reference);
    place
}

/// Sends 52.32304 4.7304726 in the even format and 52.3206071 4.7347347 in the odd one, on the ground with any head.
/// The frames decoded as a pair with the site 51.99 4.375 give the point of the newest.
pub fn read_pair_on_ground(head: GroundHead, newest: Parity) -> Result<Place, PlaceFault>
    ensures { result ≡ Ok (Ground (of_parity newest (point_at Even (pos 4572057) 36 248013)
        (point_at Odd (pos 4495647) 35 241341))) }
{
    let even = position_of(523_230_400, 47_304_726, 10_000_000);
    let odd = position_of(523_206_071, 47_347_347, 10_000_000);
    let site = position_of(51_990, 4_375, 1_000);
    let (_, _, place) = read_pair_of_sent(head, &even, head, &odd, newest, Some(&site));
    place
}

/// Sends 52.32304 -175.2695274 and 52.3206071 -175.2652653, which have the codes of the pair of
/// [`read_pair_on_ground`]. Decoded with the site 51.99 179.375, on the other side of 180 degrees, they give the
/// point of the newest.
pub fn read_pair_across_180_degrees(head: GroundHead, newest: Parity) -> Result<Place, PlaceFault>
    ensures { result ≡ Ok (Ground (of_parity newest (point_at Even (pos 4572057) 36 9685197)
        (point_at Odd (pos 4495647) 35 9416381))) }
{
    let even = position_of(523_230_400, -1_752_695_274, 10_000_000);
    let odd = position_of(523_206_071, -1_752_652_653, 10_000_000);
    let site = position_of(51_990, 179_375, 1_000);
    let (_, _, place) = read_pair_of_sent(head, &even, head, &odd, newest, Some(&site));
    place
}
