//! Worked angles: limits, values, texts read and written, positions.
use crate::rows::{read_angle, read_fraction, read_position};
use sq_angle::pins::{equal_angle_faults, equal_angles, equal_positions, is_below};
use sq_angle::{Angle, AngleFault, Position, quotient};
use sq_digits::TextBuffer;
use std::process::Abort;

#[test]
fn limits(rt: HostRuntime) {
    let rows = [
        (0, 1, true),
        (360, 1, true),
        (-360, 1, true),
        (361, 1, false),
        (-361, 1, false),
        (1, 0, false),
        (1, 1_000_000_001, true),
        (1, 1_000_000_000_000, true),
        (1, 1_000_000_000_001, false),
        (360_000_000_000_000, 1_000_000_000_000, true),
        (360_000_000_000_001, 1_000_000_000_000, false),
        (i64::MIN, 1_000_000_000_000, false),
    ];
    for (num, den, is_angle) in rows {
        assert!(rt; Angle::new(num, den).is_some() == is_angle, "{num} / {den}");
    }
}

#[test]
fn parts_as_given(rt: HostRuntime) {
    let angle = Angle::new(-50, 100).expect(&rt, "an angle");
    assert!(rt; angle.num() == -50);
    assert!(rt; angle.den() == 100);
}

// Returns how an angle compares with another, by the operators.
fn order(a: &Angle, b: &Angle) -> &'static str {
    if a == b {
        "equals"
    } else if a < b {
        "below"
    } else {
        "above"
    }
}

// Returns how two angles compare, by the calls of the laws.
fn order_by_calls(a: &Angle, b: &Angle) -> &'static str {
    if equal_angles(a, b) {
        "equals"
    } else if is_below(a, b) {
        "below"
    } else {
        "above"
    }
}

// Two angles, and how the first compares with the second.
const ORDERED: &str = "\
1/2 equals 2/4
2/4 equals 1/2
1/2 below 500000000001/1000000000000
1/2 above -50/100
-50/100 below 2/4
1/2 above 0
0 below 1/2";

// Returns the two angles of a row, and the word between them.
fn ordered(row: &str) -> Option<(Angle, &str, Angle)> {
    let mut words = row.split_whitespace();
    let first = read_angle(&mut words)?;
    let order = words.next()?;
    let second = read_angle(&mut words)?;
    Some((first, order, second))
}

#[test]
fn equal_and_ordered_by_value(rt: HostRuntime) {
    assert!(rt; ORDERED.lines().count() == 7);
    for row in ORDERED.lines() {
        let (first, expected, second) = ordered(row).expect(&rt, "two angles");
        assert!(rt; order(&first, &second) == expected, "{row}");
        assert!(rt; order_by_calls(&first, &second) == expected, "{row}");
        assert!(rt; (first != second) == (expected != "equals"), "{row}");
    }
}

// A fraction, and its lowest terms.
const LOWEST_TERMS: &str = "\
1/2 1/2
2/4 1/2
-50/100 -1/2
0/7 0/1
360000000000000/1000000000000 360/1
-21060000/1966080 -43875/4096
360000000000/1000000000000 9/25
7/999999999989 7/999999999989
-179999999999999/1000000000000 -179999999999999/1000000000000
123456789012345/999999999999 41152263004115/333333333333
15461882265/128849018880 1030792151/8589934592
-25261515/483328 -25261515/483328";

// Returns whether the second fraction of a row is the first one in lowest terms, or `None` if the row is malformed.
fn is_reduced(row: &str) -> Option<bool> {
    let mut words = row.split_whitespace();
    let angle = read_angle(&mut words)?;
    let lowest = read_fraction(&mut words)?;
    Some(angle.reduced() == lowest)
}

#[test]
fn lowest_terms(rt: HostRuntime) {
    assert!(rt; LOWEST_TERMS.lines().count() == 12);
    for row in LOWEST_TERMS.lines() {
        assert!(rt; is_reduced(row) == Some(true), "{row}");
    }
}

#[test]
fn within(rt: HostRuntime) {
    let rows = [
        (90, 1, 90, true),
        (-90, 1, 90, true),
        (90_000_000_001, 1_000_000_000, 90, false),
        (-90_000_000_001, 1_000_000_000, 90, false),
        (0, 1, 0, true),
        (1, 1_000_000_000_000, 0, false),
        (360, 1, 65_535, true),
    ];
    for (num, den, limit, is_within) in rows {
        let angle = Angle::new(num, den).expect(&rt, "an angle");
        assert!(rt; angle.is_within(limit) == is_within, "{num} / {den}");
    }
}

// Reads a text as an angle and returns its numerator and denominator.
fn parts_of(text: &str) -> Option<(i64, u64)> {
    let angle = Angle::read(text).ok()?;
    Some((angle.num(), angle.den()))
}

#[test]
fn reads(rt: HostRuntime) {
    let rows = [
        ("0", 0, 1),
        ("-0", 0, 1),
        ("007", 7, 1),
        ("-0.50", -50, 100),
        ("-360", -360, 1),
        ("360", 360, 1),
        ("360.000000000000", 360_000_000_000_000, 1_000_000_000_000),
        ("10.4704713", 104_704_713, 10_000_000),
        ("-89.999999999999", -89_999_999_999_999, 1_000_000_000_000),
        ("0.000000000001", 1, 1_000_000_000_000),
    ];
    for (text, num, den) in rows {
        assert!(rt; parts_of(text) == Some((num, den)), "{text}");
    }
}

// Returns why a text is refused.
fn refusal(text: &str) -> Option<AngleFault> {
    Angle::read(text).err()
}

fn assert_refused(rt: &impl Abort, texts: &[&str], fault: AngleFault) {
    for text in texts {
        assert!(rt; refusal(text) == Some(fault), "{text}");
    }
}

const NOT_NUMBERS: [&str; 22] = [
    "",
    "-",
    "+1",
    "--1",
    "1-",
    "1.",
    ".5",
    "-.5",
    ".",
    "1.2.3",
    "1.2.",
    "1.-5",
    "1.+5",
    "1,5",
    "1e2",
    " 1",
    "1\n",
    "٣",
    "1234",
    "1234.1234567890",
    "11111111111111111111111111111111111111111111111111111111111111111",
    "1.1111111111111111111111111111111111111111111111111111111111111x",
];

#[test]
fn refuses_what_is_no_number(rt: HostRuntime) {
    assert_refused(&rt, &NOT_NUMBERS, AngleFault::NotANumber);
}

const TOO_MANY_DECIMALS: [&str; 4] = [
    "1.1111111111111111111111111111111111111111111111111111111111111",
    "0.1234567890123",
    "999.1234567890123",
    "0.0000000000000",
];

#[test]
fn refuses_too_many_decimals(rt: HostRuntime) {
    assert_refused(&rt, &TOO_MANY_DECIMALS, AngleFault::TooManyDecimals);
}

const OUT_OF_RANGE: [&str; 4] = ["360.1", "-360.000000000001", "999", "999.1234567890"];

#[test]
fn refuses_what_is_out_of_range(rt: HostRuntime) {
    assert_refused(&rt, &OUT_OF_RANGE, AngleFault::OutOfRange);
}

#[test]
fn tells_faults(rt: HostRuntime) {
    let rows = [
        (AngleFault::NotANumber, "not a number"),
        (AngleFault::TooManyDecimals, "too many decimals"),
        (AngleFault::OutOfRange, "out of range"),
    ];
    for (fault, text) in rows {
        let told = format!(in rt.alloc(); "{fault}").unwrap_or(String::new(rt.alloc()));
        assert!(rt; told.as_str() == text, "{text}");
        assert!(rt; equal_angle_faults(&fault, &fault));
    }
    assert!(rt; !equal_angle_faults(&AngleFault::NotANumber, &AngleFault::OutOfRange));
}

// A fraction, and its text with seven decimals.
const SEVEN_DECIMALS: &str = "\
-50/100 -0.5000000
0/1 0.0000000
1/20000000 0.0000001
-1/20000000 -0.0000001
3/20000000 0.0000002
5/20000000 0.0000003
-5/20000000 -0.0000003
-1/100000000 0.0000000
49999/1000000000000 0.0000000
5/100000000 0.0000001
25261515/483328 52.2657802
225873/57344 3.9389125
-360/1 -360.0000000
99999999999999/1000000000000 100.0000000";

fn is_written(row: &str) -> Option<bool> {
    let mut words = row.split_whitespace();
    let angle = read_angle(&mut words)?;
    let text = words.next()?;
    Some(angle.decimal7().as_str() == text)
}

#[test]
fn seven_decimals(rt: HostRuntime) {
    assert!(rt; SEVEN_DECIMALS.lines().count() == 14);
    for row in SEVEN_DECIMALS.lines() {
        assert!(rt; is_written(row) == Some(true), "{row}");
    }
}

// Returns the position of a latitude and a longitude, each a numerator over a denominator, or `None` if they are not
// valid.
fn position_of(text: &str) -> Option<Position> {
    read_position(&mut text.split_whitespace())
}

#[test]
fn limits_positions(rt: HostRuntime) {
    assert!(rt; position_of("90000000001/1000000000 -180").is_none());
    assert!(rt; position_of("90 -180000000001/1000000000").is_none());
    let position = position_of("90 -180").expect(&rt, "a position");
    assert!(rt; position.lat().num() == 90);
    assert!(rt; position.lon().num() == -180);
}

fn are_equal(a: &Position, b: &Position) -> bool {
    a == b
}

fn are_unequal(a: &Position, b: &Position) -> bool {
    a != b
}

fn are_equal_by_call(a: &Position, b: &Position) -> bool {
    equal_positions(a, b)
}

// Asserts that two positions are equal, or that they are not.
fn assert_equal(rt: &impl Abort, a: &str, b: &str, equal: bool) {
    let first = position_of(a).expect(rt, "a position");
    let second = position_of(b).expect(rt, "a position");
    assert!(rt; are_equal(&first, &second) == equal, "{a}, {b}");
    assert!(rt; are_unequal(&first, &second) != equal, "{a}, {b}");
    assert!(rt; are_equal_by_call(&first, &second) == equal, "{a}, {b}");
}

#[test]
fn equal_positions_by_value(rt: HostRuntime) {
    assert_equal(&rt, "90 -360/2", "90 -180", true);
    assert_equal(&rt, "90 90", "90 -180", false);
    assert_equal(&rt, "0 1/2", "0 2/4", true);
    assert_equal(&rt, "0 1/2", "1/2 1/2", false);
    assert_equal(&rt, "0 1/2", "0 0", false);
}

#[test]
fn quotients(rt: HostRuntime) {
    let rows = [
        (77_332_479, 7_733_248, 9),
        (77_332_480, 7_733_248, 10),
        (72_057_594_037_927_935, 16_646_144, 4_328_785_936),
        (1_000_000_000_000_000, 7_733_248, 129_311_771),
        (1_000, 3, 333),
        (55_340_232_221_128_654_848, 7, 7_905_747_460_161_236_406),
    ];
    for (value, divisor, expected) in rows {
        assert!(rt; quotient(value, divisor) == expected, "{value} / {divisor}");
    }
}

#[test]
fn appends_an_angle(rt: HostRuntime) {
    let mut text = TextBuffer::<20>::new();
    text.push_str("at ");
    let west = Angle::new(-1, 2).expect(&rt, "an angle");
    west.push_decimal7(&mut text);
    assert!(rt; text.as_str() == "at -0.5000000");
}

#[test]
fn known_angles_and_positions(rt: HostRuntime) {
    let north = Angle::known(181, 2);
    assert!(rt; Angle::new(181, 2) == Some(north));
    let lat = Angle::known(-90, 1);
    let lon = Angle::known(1_799, 10);
    let position = Position::known(lat, lon);
    assert!(rt; Position::new(lat, lon) == Some(position));
    assert!(rt; position.lat() == lat && position.lon() == lon);
}
