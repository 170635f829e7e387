//! Codes decoded near a reference and in pairs: places, their indices and zones, and the errors. The tables of worked
//! codes are in `vectors/cases/worked`, which the program and the library run.
use crate::rows::position;
use sq_cpr::Parity::{Even, Odd};
use sq_cpr::{
    Air, Code, Ground, LocalFault, PairFault, Parity, Position, Span, local, pair_air, pair_ground,
};
use sq_zones::zone_count;

// Decodes a code near a reference. Returns the latitude index, the zones and the longitude index of the point.
fn indices_of<S: Span>(
    code: (u32, u32),
    parity: Parity,
    lat: (i64, u64),
    lon: (i64, u64),
) -> Option<(i32, u8, u32)> {
    let code = Code::new(code.0, code.1)?;
    let reference = position(lat, lon)?;
    let near = local::<S>(code, parity, &reference).ok()?;
    if near.parity() == parity {
        Some((near.lat_index(), near.zones(), near.lon_index()))
    } else {
        None
    }
}

// Decodes the even code (0, 65536) near a reference. Returns the latitude index, the zones and the longitude index.
fn indices_near(lat: (i64, u64), lon: (i64, u64)) -> Option<(i32, u8, u32)> {
    indices_of::<Air>((0, 65_536), Even, lat, lon)
}

#[test]
fn worked_parts(rt: HostRuntime) {
    assert!(rt; indices_near((10, 1), (100, 1)) == Some((262_144, 58, 2_162_688)));
    assert!(rt; indices_near((0, 1), (359, 2)) == Some((0, 59, 3_866_624)));
}

// References with long fractions. The expected indices were computed in whole numbers by
// base - period * floor((2 * away + width - 1) / (2 * width)).
//
// Half a zone from 0 degrees the result is the northern or the eastern point. A numerator that differs by 1 gives the
// other point.
#[test]
fn latitudes_half_a_zone_from_long_references(rt: HostRuntime) {
    for (lat, index) in [
        ((3_000_000_000, 1_000_000_000), 131_072),
        ((2_999_999_999, 1_000_000_000), 0),
        ((-3_000_000_000, 1_000_000_000), 0),
        ((-3_000_000_001, 1_000_000_000), -131_072),
        ((3_000_000_003, 1_000_000_001), 131_072),
        ((3_000_000_002, 1_000_000_001), 0),
        ((-3_000_000_003, 1_000_000_001), 0),
        ((-3_000_000_004, 1_000_000_001), -131_072),
    ] {
        let found = indices_of::<Air>((0, 0), Even, lat, (0, 1));
        assert!(rt; found == Some((index, 59, 0)), "{index}");
    }
}

#[test]
fn longitudes_half_a_zone_from_long_references(rt: HostRuntime) {
    for (lon, index) in [
        ((3_050_847_360, 999_999_968), 131_072),
        ((3_050_847_359, 999_999_968), 0),
        ((-3_050_847_360, 999_999_968), 0),
        ((-3_050_847_361, 999_999_968), 7_602_176),
        ((3_050_847_540, 1_000_000_027), 131_072),
        ((3_050_847_539, 1_000_000_027), 0),
        ((-3_050_847_540, 1_000_000_027), 0),
        ((-3_050_847_541, 1_000_000_027), 7_602_176),
    ] {
        let found = indices_of::<Air>((0, 0), Even, (0, 1), lon);
        assert!(rt; found == Some((0, 59, index)), "{index}");
    }
}

// The poles, where the numbers are the largest.
#[test]
fn poles_of_long_references(rt: HostRuntime) {
    for (north, south, east, west) in [
        (
            (90_000_000_000, 1_000_000_000),
            (-90_000_000_000, 1_000_000_000),
            (180_000_000_000, 1_000_000_000),
            (-180_000_000_000, 1_000_000_000),
        ),
        (
            (90_000_000_090, 1_000_000_001),
            (-90_000_000_090, 1_000_000_001),
            (180_000_000_180, 1_000_000_001),
            (-180_000_000_180, 1_000_000_001),
        ),
    ] {
        for lon in [east, west] {
            let found = indices_of::<Air>((98_304, 65_536), Odd, north, lon);
            assert!(rt; found == Some((1_933_312, 1, 65_536)));
            let found = indices_of::<Air>((32_768, 65_536), Odd, south, lon);
            assert!(rt; found == Some((-1_933_312, 1, 65_536)));
        }
    }
}

// The worked places over the North Sea and on the ground.
#[test]
fn worked_places_near_long_references(rt: HostRuntime) {
    for (lat, lon) in [
        (
            (52_258_000_000, 1_000_000_000),
            (3_918_000_000, 1_000_000_000),
        ),
        (
            (52_258_000_052, 1_000_000_001),
            (3_918_000_004, 1_000_000_001),
        ),
    ] {
        let found = indices_of::<Air>((93_000, 51_372), Even, lat, lon);
        assert!(rt; found == Some((1_141_576, 36, 51_372)));
    }
    for (lat, lon) in [
        (
            (51_990_000_000, 1_000_000_000),
            (4_375_000_000, 1_000_000_000),
        ),
        (
            (51_990_000_052, 1_000_000_001),
            (4_375_000_004, 1_000_000_001),
        ),
    ] {
        let found = indices_of::<Ground>((39_199, 110_269), Odd, lat, lon);
        assert!(rt; found == Some((4_495_647, 35, 241_341)));
    }
}

// Decodes a code near a reference and returns the position.
fn position_near<S: Span>(code: Code, parity: Parity, reference: &Position) -> Option<Position> {
    let point = local::<S>(code, parity, reference).ok()?;
    Some(point.position())
}

// The worked frame over the North Sea near a reference, one near Amsterdam on the ground, and a latitude past the pole.
#[test]
fn near_a_reference(rt: HostRuntime) {
    let code = Code::new(93_000, 51_372).expect(&rt, "a code");
    let reference = position((26_129, 500), (1959, 500)).expect(&rt, "a reference");
    let found = position_near::<Air>(code, Even, &reference);
    assert!(rt; found.is_some() && found == position((428_091, 8192), (64_215, 16_384)));
    let code = Code::new(39_199, 110_269).expect(&rt, "a code");
    let reference = position((5199, 100), (35, 8)).expect(&rt, "a reference");
    let found = position_near::<Ground>(code, Odd, &reference);
    assert!(rt;
        found.is_some() && found == position((202_304_115, 3_866_624), (2_172_069, 458_752))
    );
    let code = Code::new(21_845, 0).expect(&rt, "a code");
    let pole = position((89, 1), (0, 1)).expect(&rt, "a reference");
    assert!(rt; local::<Air>(code, Even, &pole).err() == Some(LocalFault::OutOfRange));
}

// Decodes an airborne pair and returns the position.
fn position_in_air(even: Code, odd: Code, newest: Parity) -> Option<Position> {
    let point = pair_air(even, odd, newest).ok()?;
    Some(point.position())
}

// Returns an even and an odd code.
fn codes(even: (u32, u32), odd: (u32, u32)) -> Option<(Code, Code)> {
    let even = Code::new(even.0, even.1)?;
    let odd = Code::new(odd.0, odd.1)?;
    Some((even, odd))
}

#[test]
fn in_pairs(rt: HostRuntime) {
    let (even, odd) = codes((93_000, 51_372), (74_158, 50_194)).expect(&rt, "codes");
    let found = position_in_air(even, odd, Even);
    assert!(rt; found.is_some() && found == position((428_091, 8192), (64_215, 16_384)));
    let found = position_in_air(even, odd, Odd);
    assert!(rt; found.is_some() && found == position((25_261_515, 483_328), (225_873, 57_344)));
    let (even, odd) = codes((97_659, 80_100), (93_846, 80_100)).expect(&rt, "codes");
    assert!(rt; pair_air(even, odd, Odd).err() == Some(PairFault::ZoneCounts(58, 59)));
    let (even, odd) = codes((0, 0), (87_381, 0)).expect(&rt, "codes");
    assert!(rt; pair_air(even, odd, Even).err() == Some(PairFault::OutOfRange));
}

// The worked pair near 38 degrees south: both latitudes have the zone count 47.
#[test]
fn zone_counts_of_a_southern_pair(rt: HostRuntime) {
    let site = position((-3801, 100), (4375, 1000)).expect(&rt, "a site");
    let (even, odd) = codes((115_609, 116_941), (39_199, 110_269)).expect(&rt, "codes");
    for (newest, zones) in [(Even, 47), (Odd, 46)] {
        let point = pair_ground(even, odd, newest, &site).expect(&rt, "a point");
        assert!(rt; point.zones() == zones);
        let lat = point.position().lat();
        assert!(rt; lat.is_within(90));
        assert!(rt; zone_count(&lat) == 47);
    }
}

// A southern pair on the ground at sites with denominators of about 10^9.
#[test]
fn pairs_at_long_sites(rt: HostRuntime) {
    let (even, odd) = codes((115_609, 116_941), (39_199, 110_269)).expect(&rt, "codes");
    for (lat, lon, even_lon, odd_lon) in [
        (
            (-38_010_000_000, 1_000_000_000),
            (4_375_000_000, 1_000_000_000),
            379_085,
            372_413,
        ),
        (
            (-38_010_000_039, 1_000_000_001),
            (4_375_000_004, 1_000_000_001),
            379_085,
            372_413,
        ),
        (
            (-38_000_000_000, 1_000_000_000),
            (144_000_000_000, 1_000_000_000),
            12_699_853,
            12_431_037,
        ),
        (
            (-38_000_000_038, 1_000_000_001),
            (144_000_000_144, 1_000_000_001),
            12_699_853,
            12_431_037,
        ),
    ] {
        let site = position(lat, lon).expect(&rt, "a site");
        let point = pair_ground(even, odd, Even, &site).expect(&rt, "a point");
        assert!(rt; (point.lat_index(), point.lon_index()) == (-3_292_263, even_lon));
        let point = pair_ground(even, odd, Odd, &site).expect(&rt, "a point");
        assert!(rt; (point.lat_index(), point.lon_index()) == (-3_237_601, odd_lon));
    }
}
