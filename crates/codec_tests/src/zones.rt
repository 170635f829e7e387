//! Worked zone counts, and the bands against a plain loop over the limits.
use sq_zones::pins::equal_parities;
use sq_zones::{Angle, Parity, lon_zones, zone_count};
use std::process::Abort;

// The 58 limits in units of 10^-8 degree, each with the zone count up to and including it, independent of the table
// in the code.
const LIMITS: &str = "\
1047047130 59
1482817437 58
1818626357 57
2102939493 56
2354504487 55
2582924707 54
2793898710 53
2991135686 52
3177209708 51
3353993436 50
3522899598 49
3685025108 48
3841241892 47
3992256684 46
4138651832 45
4280914012 44
4419454951 43
4554626723 42
4686733252 41
4816039128 40
4942776439 39
5067150166 38
5189342469 37
5309516153 36
5427817472 35
5544378444 34
5659318756 33
5772747354 32
5884763776 31
5995459277 30
6104917774 29
6213216659 28
6320427479 27
6426616523 26
6531845310 25
6636171008 24
6739646774 23
6842322022 22
6944242631 21
7045451075 20
7145986473 19
7245884545 18
7345177442 17
7443893416 16
7542056257 15
7639684391 14
7736789461 13
7833374083 12
7929428225 11
8024923213 10
8119801349 9
8213956981 8
8307199445 7
8399173563 6
8489166191 5
8575541621 4
8653536998 3
8700000000 2";

// Parses the limit and the zone count of a line.
fn limit_of(line: &str) -> Option<(i64, u8)> {
    let (limit, zones) = line.split_once(' ')?;
    let limit = limit.parse::<i64>().ok()?;
    let zones = zones.parse::<u8>().ok()?;
    Some((limit, zones))
}

// Returns the zone count of a latitude, or `None` if the angle is outside -90 to 90 degrees.
fn count_of(lat: &Angle) -> Option<u8> {
    if lat.is_within(90) {
        Some(zone_count(lat))
    } else {
        None
    }
}

// Returns the zone count of `num / den` degrees, or `None` if that is not a latitude.
fn count_at(num: i64, den: u64) -> Option<u8> {
    let lat = Angle::new(num, den)?;
    count_of(&lat)
}

// Returns whether the magnitude of `num / den` degrees is at most the limit of a line.
fn is_at_most(num: i64, den: u64, line: &str) -> Option<bool> {
    let (limit, _) = limit_of(line)?;
    let scaled = u128::from(num.unsigned_abs()) * 100_000_000;
    Some(scaled <= u128::from(limit.unsigned_abs()) * u128::from(den))
}

// Returns the zone count by a plain loop: 1, plus one for each of the 58 limits that is at least the latitude's
// magnitude.
fn count_by_loop(num: i64, den: u64) -> u8 {
    let mut zones = 1_u8;
    for line in LIMITS.lines() {
        if is_at_most(num, den, line) == Some(true) {
            zones = zones.saturating_add(1);
        }
    }
    zones
}

#[test]
fn worked_latitudes(rt: HostRuntime) {
    let rows = [
        (0, 1, 59),
        (104_704_713, 10_000_000, 59),
        (10_470_471_301, 1_000_000_000, 58),
        (10_470_471_300_001, 1_000_000_000_000, 58),
        (87, 1, 2),
        (-87, 1, 2),
        (87_000_000_001, 1_000_000_000, 1),
        (90, 1, 1),
        (-90, 1, 1),
    ];
    for (num, den, zones) in rows {
        assert!(rt; count_at(num, den) == Some(zones), "{num} / {den}");
    }
}

#[test]
fn worked_longitude_zones(rt: HostRuntime) {
    let rows = [
        (0, Parity::Even, 59),
        (0, Parity::Odd, 58),
        (87, Parity::Even, 2),
        (87, Parity::Odd, 1),
        (90, Parity::Even, 1),
        (90, Parity::Odd, 1),
        (-90, Parity::Odd, 1),
    ];
    for (num, parity, zones) in rows {
        let lat = Angle::new(num, 1).expect(&rt, "an angle");
        assert!(rt; lat.is_within(90));
        assert!(rt; lon_zones(&lat, parity) == zones, "{num}");
    }
}

#[test]
fn parity_indices(rt: HostRuntime) {
    assert!(rt; Parity::Even.index() == 0);
    assert!(rt; Parity::Odd.index() == 1);
    assert!(rt; equal_parities(&Parity::Odd, &Parity::Odd));
    assert!(rt; !equal_parities(&Parity::Odd, &Parity::Even));
}

// Asserts the zone count against the loop at `tenths` tenths of a degree, as a fraction with the denominator `den`.
fn assert_tenths(rt: &impl Abort, tenths: u64, den: u64) {
    let num = i64::try_from(tenths.saturating_mul(den / 10)).expect(rt, "a latitude");
    let zones = Some(count_by_loop(num, den));
    assert!(rt; count_at(num, den) == zones, "{num} / {den}");
    assert!(rt;
        count_at(num.saturating_neg(), den) == zones,
        "south, {num} / {den}"
    );
}

// Asserts the zone counts at `tenths` tenths of a degree, with short and long denominators.
fn assert_tenths_by_each(rt: &impl Abort, tenths: u64) {
    let dens = [
        10,
        70,
        360,
        99_999_990,
        1_000_000_000,
        999_999_999_990,
        1_000_000_000_000,
    ];
    for den in dens {
        assert_tenths(rt, tenths, den);
    }
}

#[test]
fn bands_as_the_loop(rt: HostRuntime) {
    for tenths in 0..901u64 {
        assert_tenths_by_each(&rt, tenths);
    }
}
