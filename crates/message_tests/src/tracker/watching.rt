//! Places that cannot be true: at the borders of a range and of a speed, just below and just above.
use sq_angle::{Angle, Position};
use sq_track::{LastFix, Watch};
use std::test::Fail;

// A position of two fractions of degrees with one denominator.
fn at(lat: i64, lon: i64, den: u64) -> Option<Position> {
    Position::new(Angle::new(lat, den)?, Angle::new(lon, den)?)
}

// Whether a place is beyond a range from a site, both in degrees with one denominator.
fn is_beyond(range: u32, site: (i64, i64), place: (i64, i64), den: u64) -> Option<bool> {
    let watch = Watch {
        range: Some(range),
        speed: None,
    };
    let (site, place) = (at(site.0, site.1, den)?, at(place.0, place.1, den)?);
    Some(watch.is_beyond(Some(&site), &place))
}

#[test]
fn a_range_in_latitude(rt: HostRuntime) {
    // 60 miles are a degree, from pole to pole.
    for (range, lat, beyond) in [
        (60, 999, false),
        (60, 1000, false),
        (60, 1001, true),
        (0, 1, true),
    ] {
        assert!(rt; is_beyond(range, (0, 0), (lat, 0), 1000) == Some(beyond));
        assert!(rt; is_beyond(range, (0, 0), (-lat, 0), 1000) == Some(beyond));
    }
    assert!(rt; is_beyond(10_800, (-90, 0), (90, 0), 1) == Some(false));
    assert!(rt; is_beyond(10_799, (-90, 0), (90, 0), 1) == Some(true));
}

#[test]
fn a_range_in_longitude(rt: HostRuntime) {
    // Miles a degree: 59 at the equator, 2 at 87 degrees, and none above.
    for (lat, miles) in [(0, 59), (87, 2), (-87, 2)] {
        assert!(rt; is_beyond(miles, (1000 * lat, 0), (1000 * lat, 1000), 1000) == Some(false));
        assert!(rt; is_beyond(miles, (1000 * lat, 0), (1000 * lat, 1001), 1000) == Some(true));
        assert!(rt; is_beyond(miles, (1000 * lat, 0), (1000 * lat, -1001), 1000) == Some(true));
    }
    assert!(rt; is_beyond(1, (88, 0), (88, 180), 1) == Some(false));
    // The smaller count of the two: at 87 degrees it is 2, whichever is the site.
    assert!(rt; is_beyond(5220, (0, 0), (87, 180), 1) == Some(false));
    assert!(rt; is_beyond(5220, (87, 180), (0, 0), 1) == Some(false));
    // Across 180 degrees it is the shorter way.
    assert!(rt; is_beyond(118, (0, 179), (0, -179), 1) == Some(false));
    assert!(rt; is_beyond(117, (0, 179), (0, -179), 1) == Some(true));
    assert!(rt; is_beyond(10_620, (0, 90), (0, -90), 1) == Some(false));
    assert!(rt; is_beyond(10_619, (0, 90), (0, -90), 1) == Some(true));
}

// Whether an aircraft is too fast, from the equator at a moment of 1000 to a latitude of these parts of a degree.
fn is_too_fast(speed: u32, moment: u64, lat: i64, den: u64) -> Option<bool> {
    let watch = Watch {
        range: None,
        speed: Some(speed),
    };
    let before = LastFix {
        moment: 1000,
        position: at(0, 0, 1)?,
    };
    Some(watch.is_too_fast(Some(&before), moment, &at(lat, 0, den)?))
}

#[test]
fn a_speed(rt: HostRuntime) {
    // 3600 knots are a mile in a second; a mile more is allowed. Two miles are a thirtieth of a degree.
    assert!(rt; is_too_fast(3600, 2000, 1, 30) == Some(false));
    assert!(rt; is_too_fast(3600, 1999, 1, 30) == Some(true));
    assert!(rt; is_too_fast(3599, 2000, 1, 30) == Some(true));
    // At once, and for a moment before: a mile.
    for moment in [1000, 999, 0] {
        assert!(rt; is_too_fast(u32::MAX, moment, 1, 60) == Some(false));
        assert!(rt; is_too_fast(u32::MAX, moment, 1, 59) == Some(true));
    }
    // The longest time, and no speed.
    assert!(rt; is_too_fast(u32::MAX, u64::MAX, 90, 1) == Some(false));
    assert!(rt; is_too_fast(1, u64::MAX, 90, 1) == Some(false));
    assert!(rt; is_too_fast(0, u64::MAX, 1, 59) == Some(true));
}

#[test]
fn what_is_not_known(rt: HostRuntime) -> Result<(), Fail> {
    let (Some(site), Some(place)) = (at(90, 0, 1), at(-90, 0, 1)) else {
        return Ok(());
    };
    let before = LastFix {
        moment: 0,
        position: site,
    };
    let both = Watch {
        range: Some(1),
        speed: Some(1),
    };
    let none = Watch {
        range: None,
        speed: None,
    };
    assert!(rt; both.is_beyond(Some(&site), &place) && both.is_too_fast(Some(&before), 0, &place));
    assert!(rt; !both.is_beyond(None, &place) && !both.is_too_fast(None, 0, &place));
    assert!(rt;
        !none.is_beyond(Some(&site), &place) && !none.is_too_fast(Some(&before), 0, &place)
    );
    Ok(())
}
