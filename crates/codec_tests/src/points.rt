//! Codes at and past their limits, worked points and codes, and the limits of the grids.
use sq_cpr::{
    Air, Angle, CODES_OF_ZONE, Code, GridPoint, Ground, LocalFault, PairFault, Parity, Position,
    Span, encode, lat_zones, laws, nearest, pins,
};
use std::process::Abort;

#[test]
fn makes_codes_of_17_bits(rt: HostRuntime) {
    let Some(code) = Code::new(131_071, 0) else {
        panic!(rt; "a code of 17 bits");
    };
    assert!(rt; code.lat() == 131_071);
    assert!(rt; code.lon() == 0);
    assert!(rt; Code::new(131_071, 131_071).is_some());
    assert!(rt; Code::new(131_072, 0).is_none());
    assert!(rt; Code::new(0, 131_072).is_none());
}

#[test]
fn counts_codes_and_zones_of_latitude(rt: HostRuntime) {
    assert!(rt; CODES_OF_ZONE == 131_072);
    assert!(rt; lat_zones(Parity::Even) == 60);
    assert!(rt; lat_zones(Parity::Odd) == 59);
}

// Returns the position of two fractions, each a numerator over a denominator.
fn position(rt: &impl Abort, lat: (i64, u64), lon: (i64, u64)) -> Position {
    let lat = Angle::new(lat.0, lat.1).expect(rt, "a latitude");
    let lon = Angle::new(lon.0, lon.1).expect(rt, "a longitude");
    Position::new(lat, lon).expect(rt, "a position")
}

// Returns the latitude index, the zones and the longitude index of a point.
fn indices<S: Span>(point: &GridPoint<S>) -> (i32, u8, u32) {
    (point.lat_index(), point.zones(), point.lon_index())
}

#[test]
fn rounds_a_latitude_to_the_nearest_index(rt: HostRuntime) {
    let rows = [
        ((3, 131_072), 1),
        ((-3, 131_072), 0),
        ((22_888_183, 1_000_000_000_000), 0),
        ((22_888_184, 1_000_000_000_000), 1),
        ((599_999, 100_000), 131_072),
        ((0, 1), 0),
        ((90_000_000_000_000, 1_000_000_000_000), 1_966_080),
        ((-90_000_000_000_000, 1_000_000_000_000), -1_966_080),
    ];
    for (lat, index) in rows {
        let place = position(&rt, lat, (0, 1));
        let point = nearest::<Air>(&place, Parity::Even);
        assert!(rt; point.lat_index() == index, "at {index}");
        assert!(rt; point.parity() == Parity::Even);
    }
}

#[test]
fn rounds_a_longitude_to_the_nearest_index(rt: HostRuntime) {
    let rows = [
        ((45, 1_933_312), 1),
        ((-45, 1_933_312), 0),
        ((-45, 966_656), 7_733_247),
        ((0, 1), 0),
    ];
    for (lon, index) in rows {
        let point = nearest::<Air>(&position(&rt, (0, 1), lon), Parity::Even);
        assert!(rt; indices(&point) == (0, 59, index));
    }
}

#[test]
fn rounds_to_points_at_a_pole(rt: HostRuntime) {
    let pole = position(&rt, (90, 1), (0, 1));
    for (parity, index, code) in [
        (Parity::Even, 1_966_080, 0),
        (Parity::Odd, 1_933_312, 98_304),
    ] {
        let point = nearest::<Air>(&pole, parity);
        assert!(rt; indices(&point) == (index, 1, 0));
        assert!(rt; Some(point.code()) == Code::new(code, 0));
    }
    for (parity, index) in [(Parity::Even, 7_864_320), (Parity::Odd, 7_733_248)] {
        let point = nearest::<Ground>(&pole, parity);
        assert!(rt; indices(&point) == (index, 1, 0));
        assert!(rt; Some(point.code()) == Code::new(0, 0));
    }
}

#[test]
fn rounds_alike_on_both_sides_of_180_degrees(rt: HostRuntime) {
    for lon in [180, -180] {
        let place = position(&rt, (87, 1), (lon, 1));
        let even = nearest::<Air>(&place, Parity::Even);
        assert!(rt; indices(&even) == (1_900_544, 2, 131_072));
        assert!(rt; Some(even.code()) == Code::new(65_536, 0));
        assert!(rt; Some(even.position().lon()) == Angle::new(-180, 1));
        let odd = nearest::<Air>(&place, Parity::Odd);
        assert!(rt; indices(&odd) == (1_868_868, 1, 65_536));
        assert!(rt; Some(odd.code()) == Code::new(33_860, 65_536));
    }
}

#[test]
fn rounds_a_position_of_the_grid_to_itself(rt: HostRuntime) {
    let place = position(&rt, (-45, 1), (-90, 1));
    let point = nearest::<Air>(&place, Parity::Even);
    assert!(rt; indices(&point) == (-983_040, 42, 4_128_768));
    assert!(rt; Some(point.code()) == Code::new(65_536, 65_536));
    assert!(rt; point.position() == place);
    assert!(rt; pins::equal_points(&nearest(&point.position(), Parity::Even), &point));
    let surface = nearest::<Ground>(&place, Parity::Odd);
    let again = nearest::<Ground>(&surface.position(), Parity::Odd);
    assert!(rt; pins::equal_points(&again, &surface));
    assert!(rt; !pins::equal_points(&again, &nearest(&place, Parity::Even)));
}

#[test]
fn encodes_worked_positions(rt: HostRuntime) {
    let rows = [
        ((0, 1), (0, 1), Parity::Even, (0, 0)),
        ((599_999, 100_000), (0, 1), Parity::Even, (0, 0)),
        (
            (104_704_573, 10_000_000),
            (10, 1),
            Parity::Even,
            (97_659, 80_100),
        ),
        (
            (104_704_573, 10_000_000),
            (10, 1),
            Parity::Odd,
            (93_846, 80_100),
        ),
    ];
    for (lat, lon, parity, (lat_code, lon_code)) in rows {
        let code = encode::<Air>(&position(&rt, lat, lon), parity);
        assert!(rt;
            Some(code) == Code::new(lat_code, lon_code),
            "{lat_code} {lon_code}"
        );
    }
    let ground = position(&rt, (428_091, 8192), (64_215, 16_384));
    assert!(rt; Some(encode::<Ground>(&ground, Parity::Even)) == Code::new(109_856, 74_416));
}

fn is_point<S: Span>(lat_index: i32, lon_index: u32) -> bool {
    GridPoint::<S>::new(Parity::Even, lat_index, lon_index).is_some()
}

#[test]
fn makes_points_within_the_limits_of_their_grid(rt: HostRuntime) {
    let rows = [
        (1_966_080, 131_071, true),
        (1_966_080, 131_072, false),
        (1_966_081, 0, false),
        (-1_966_080, 0, true),
        (-1_966_081, 0, false),
        (0, 7_733_247, true),
        (0, 7_733_248, false),
    ];
    for (lat_index, lon_index, expected) in rows {
        assert!(rt;
            is_point::<Air>(lat_index, lon_index) == expected,
            "{lat_index} {lon_index}"
        );
    }
    assert!(rt; is_point::<Ground>(0, 30_932_991));
    assert!(rt; !is_point::<Ground>(0, 30_932_992));
}

#[test]
fn the_last_point_of_a_latitude_has_a_position(rt: HostRuntime) {
    let last = GridPoint::<Air>::new(Parity::Even, 0, 7_733_247).expect(&rt, "a point");
    assert!(rt; Some(last.position().lon()) == Angle::new(-45, 966_656));
    assert!(rt; last.position().lat() == Angle::new(0, 1).expect(&rt, "an angle"));
}

#[test]
fn laws_are_of_both_spans(rt: HostRuntime) {
    laws::rounds_to_one::<Air>();
    laws::rounds_to_one::<Ground>();
    laws::rounds_to_itself::<Air>();
    laws::rounds_to_itself::<Ground>();
    pins::one_pair_of_zones::<Air>();
    pins::one_pair_of_zones::<Ground>();
    laws::same_zones::<Air>();
    laws::same_zones::<Ground>();
    laws::same_points::<Air>();
    laws::same_points::<Ground>();
    pins::some_local_answer::<Air>();
    pins::some_local_answer::<Ground>();
    pins::some_pair_answer::<Air>();
    pins::some_pair_answer::<Ground>();
    pins::slow_exactly::<Air>();
    pins::slow_exactly::<Ground>();
    pins::following_exactly::<Air>();
    pins::following_exactly::<Ground>();
    pins::within_exactly::<Air>();
    pins::within_exactly::<Ground>();
    pins::close_exactly::<Air>();
    pins::close_exactly::<Ground>();
    pins::grid_point_exactly::<Air>();
    pins::grid_point_exactly::<Ground>();
    pins::tame_answer_exactly::<Air>();
    pins::tame_answer_exactly::<Ground>();
    pins::limits_of_slow();
    pins::at_the_limits();
    pins::across_180_degrees();
    pins::differ_exactly();
    laws::turns_change_nothing();
    pins::one_code();
}

#[test]
fn codes_are_equal_by_both_numbers(rt: HostRuntime) {
    let code = Code::new(5, 7).expect(&rt, "a code");
    let same = Code::new(5, 7).expect(&rt, "a code");
    let north = Code::new(6, 7).expect(&rt, "a code");
    let east = Code::new(5, 8).expect(&rt, "a code");
    assert!(rt; pins::equal_codes(&code, &same));
    assert!(rt; !pins::equal_codes(&code, &north) && !pins::equal_codes(&code, &east));
}

#[test]
fn faults_are_equal_by_all_of_them(rt: HostRuntime) {
    assert!(rt; pins::equal_local_faults(&LocalFault::OutOfRange, &LocalFault::OutOfRange));
    let counts = PairFault::ZoneCounts(36, 35);
    assert!(rt; pins::equal_pair_faults(&counts, &PairFault::ZoneCounts(36, 35)));
    assert!(rt; !pins::equal_pair_faults(&counts, &PairFault::ZoneCounts(36, 37)));
    assert!(rt; !pins::equal_pair_faults(&counts, &PairFault::OutOfRange));
}
