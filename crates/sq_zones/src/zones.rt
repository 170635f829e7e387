//! The zone count (NL) of a latitude, by bands of latitudes and the table of limits.
ghost use Rattle.std.specs.Prelude.{◌≡◌, ◌≤◌, ◌*◌, ◌/◌, ◌^◌, count_by, nat_le, slice_index};
ghost use Rattle.std.specs.Int.{div_ceil};
ghost use Rattle.sq_angle.specs.Angle.{degrees};
ghost use Rattle.sq_angle.specs.Bounds.{most_den};
ghost use Rattle.sq_angle.specs.Fraction.{IsWithin};
ghost use Rattle.sq_zones.specs.Zones.{zones_at, lon_zones_at};

use crate::parity::Parity;
use sq_angle::{Angle, quotient};

// The greatest latitude with 59 zones, with 58 and so on down to 2, in units of 10^-8 degree.
static ZONE_LIMITS: [u64; 58] = [
    1_047_047_130,
    1_482_817_437,
    1_818_626_357,
    2_102_939_493,
    2_354_504_487,
    2_582_924_707,
    2_793_898_710,
    2_991_135_686,
    3_177_209_708,
    3_353_993_436,
    3_522_899_598,
    3_685_025_108,
    3_841_241_892,
    3_992_256_684,
    4_138_651_832,
    4_280_914_012,
    4_419_454_951,
    4_554_626_723,
    4_686_733_252,
    4_816_039_128,
    4_942_776_439,
    5_067_150_166,
    5_189_342_469,
    5_309_516_153,
    5_427_817_472,
    5_544_378_444,
    5_659_318_756,
    5_772_747_354,
    5_884_763_776,
    5_995_459_277,
    6_104_917_774,
    6_213_216_659,
    6_320_427_479,
    6_426_616_523,
    6_531_845_310,
    6_636_171_008,
    6_739_646_774,
    6_842_322_022,
    6_944_242_631,
    7_045_451_075,
    7_145_986_473,
    7_245_884_545,
    7_345_177_442,
    7_443_893_416,
    7_542_056_257,
    7_639_684_391,
    7_736_789_461,
    7_833_374_083,
    7_929_428_225,
    8_024_923_213,
    8_119_801_349,
    8_213_956_981,
    8_307_199_445,
    8_399_173_563,
    8_489_166_191,
    8_575_541_621,
    8_653_536_998,
    8_700_000_000,
];

// The latitudes up to 90 degrees lie in bands of 2^25 units, about a third of a degree. Each band contains at most
// one transition latitude.
const BAND_BITS: u32 = 25;

// For each band, the index of the transition latitude to compare with. Earlier ones lie below the band, later ones
// above.
static LIMIT_OF_BAND: [u8; 269] = [
    0, 0, 0, 0, 0, 0, 0, 0, 0, 0, 0, 0, 0, 0, 0, 0, 0, 0, 0, 0, 0, 0, 0, 0, 0, 0, 0, 0, 0, 0, 0, 0,
    0, 0, 0, 0, 0, 0, 0, 0, 0, 0, 0, 0, 1, 1, 1, 1, 1, 1, 1, 1, 1, 1, 2, 2, 2, 2, 2, 2, 2, 2, 3, 3,
    3, 3, 3, 3, 3, 3, 4, 4, 4, 4, 4, 4, 5, 5, 5, 5, 5, 5, 5, 6, 6, 6, 6, 6, 6, 7, 7, 7, 7, 7, 8, 8,
    8, 8, 8, 9, 9, 9, 9, 9, 10, 10, 10, 10, 10, 11, 11, 11, 11, 11, 12, 12, 12, 12, 13, 13, 13, 13,
    13, 14, 14, 14, 14, 15, 15, 15, 15, 16, 16, 16, 16, 17, 17, 17, 17, 18, 18, 18, 18, 19, 19, 19,
    19, 20, 20, 20, 20, 21, 21, 21, 22, 22, 22, 22, 23, 23, 23, 24, 24, 24, 24, 25, 25, 25, 26, 26,
    26, 26, 27, 27, 27, 28, 28, 28, 29, 29, 29, 30, 30, 30, 30, 31, 31, 31, 32, 32, 32, 33, 33, 33,
    34, 34, 34, 35, 35, 35, 36, 36, 36, 37, 37, 37, 38, 38, 38, 39, 39, 39, 40, 40, 40, 41, 41, 41,
    42, 42, 42, 43, 43, 43, 44, 44, 44, 45, 45, 45, 46, 46, 46, 47, 47, 47, 48, 48, 48, 49, 49, 50,
    50, 50, 51, 51, 51, 52, 52, 52, 53, 53, 54, 54, 54, 55, 55, 56, 56, 57, 57, 57, 57, 57, 57, 57,
    57, 57, 57,
];

/// Returns the number of longitude zones at a latitude (NL): from 59 at the equator to 1 at the poles.
///
/// It is 1, plus one for each limit of the table that is at least the magnitude of the latitude. A latitude that
/// equals a limit has the larger count. The latitude has to be from -90 to 90 degrees: [`Angle::is_within`] tests it,
/// and a position's latitude always is. RTCA DO-260B, section 2.2.3.2.
pub fn zone_count(lat: &Angle) -> u8
    requires { IsWithin 90 (degrees lat.now) }
    ensures value { result ≡ zones_at (degrees lat.now) }
    ensures at_least { 1 ≤ result }
    ensures at_most { result ≤ 59 }
{
    let scaled = scaled_up(lat.num().unsigned_abs(), lat.den());
    1 + limits_from(scaled)
}

/// Returns the number of longitude zones at a latitude on the grid of a parity: [`zone_count`] for even, and one less
/// but at least 1 for odd.
///
/// The latitude has to be from -90 to 90 degrees.
pub fn lon_zones(lat: &Angle, parity: Parity) -> u8
    requires { IsWithin 90 (degrees lat.now) }
    ensures value { result ≡ lon_zones_at parity (degrees lat.now) }
    ensures at_least { 1 ≤ result }
    ensures at_most { result ≤ 59 }
{
    (zone_count(lat) - parity.index()).max(1)
}

// Returns `magnitude / den` in units of 10^-8 degree, rounded up. The result is at most a limit exactly if the
// latitude is.
fn scaled_up(magnitude: u64, den: u64) -> u64
    requires positive { 1 ≤ den }
    requires within { magnitude ≤ 90 * den }
    requires at_most { den ≤ most_den }
    ensures value { result ≡ div_ceil (magnitude * 10 ^ 8) den }
    ensures small { result ≤ 9 * 10 ^ 9 }
{
    let scaled = 100_000_000 * u128::from(magnitude);
    quotient(scaled + u128::from(den - 1), den) as u64
}

// Returns the number of limits that are at least the scaled latitude: those after the limit of its band, and that
// limit if it is one of them.
fn limits_from(scaled: u64) -> u8
    requires { scaled ≤ 9 * 10 ^ 9 }
    ensures value { result ≡ count_by (λ limit. nat_le scaled limit) ZONE_LIMITS }
    ensures at_most { result ≤ 58 }
{
    let place = limit_of_band(scaled);
    57 - place + u8::from(is_at_most(scaled, place))
}

// Returns the index of the limit of the scaled latitude's band.
fn limit_of_band(scaled: u64) -> u8
    requires { scaled ≤ 9 * 10 ^ 9 }
    ensures value { result ≡ slice_index LIMIT_OF_BAND (scaled / 2 ^ 25) }
    ensures at_most { result ≤ 57 }
{
    LIMIT_OF_BAND[(scaled >> BAND_BITS) as usize]
}

// Returns whether the scaled latitude is at most the limit at an index.
fn is_at_most(scaled: u64, place: u8) -> bool
    requires { place ≤ 57 }
    ensures { result ≡ nat_le scaled (slice_index ZONE_LIMITS place) }
{
    scaled <= ZONE_LIMITS[usize::from(place)]
}
