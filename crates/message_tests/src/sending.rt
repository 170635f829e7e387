//! Heads at and past their limits, and the frames of worked positions.
use crate::samples::position;
use sq_message::{
    AirFields, AirHead, Frame, GroundFields, GroundHead, Parity, altitude, field_of_feet, laws,
    send_air, send_ground, write_frame,
};
use std::process::Abort;

// Returns the head of an aircraft at 38,000 feet.
pub fn air_head(rt: &impl Abort) -> AirHead {
    let altitude = field_of_feet(38_000).expect(rt, "a field");
    let fields = AirFields::new(11, 0, false, altitude, false).expect(rt, "fields");
    AirHead::new(5, 0x40621D, fields).expect(rt, "a head")
}

// Returns the head of an aircraft on the ground.
pub fn ground_head(rt: &impl Abort) -> GroundHead {
    let fields = GroundFields::new(7, 0, false, 0, false).expect(rt, "fields");
    GroundHead::new(4, 0x484175, fields).expect(rt, "a head")
}

#[test]
fn keeps_what_a_head_in_the_air_is_made_of(rt: HostRuntime) {
    let head = air_head(&rt);
    assert!(rt; (head.ca(), head.address()) == (5, 0x40621D));
    assert!(rt; head.fields().altitude() == 0xC38);
}

#[test]
fn keeps_what_a_head_on_the_ground_is_made_of(rt: HostRuntime) {
    let head = ground_head(&rt);
    assert!(rt; (head.ca(), head.address()) == (4, 0x484175));
    assert!(rt; head.fields().type_code() == 7);
}

// Returns whether there is a head with this capability and address and the usual fields.
fn is_air_head(rt: &impl Abort, ca: u8, address: u32) -> bool {
    AirHead::new(ca, address, air_head(rt).fields()).is_some()
}

fn is_ground_head(rt: &impl Abort, ca: u8, address: u32) -> bool {
    GroundHead::new(ca, address, ground_head(rt).fields()).is_some()
}

#[test]
fn limits_heads(rt: HostRuntime) {
    assert!(rt; is_air_head(&rt, 7, 0xFFFFFF));
    assert!(rt; !is_air_head(&rt, 8, 0xFFFFFF));
    assert!(rt; !is_air_head(&rt, 7, 0x1000000));
    assert!(rt; is_ground_head(&rt, 7, 0xFFFFFF));
    assert!(rt; !is_ground_head(&rt, 8, 0xFFFFFF));
    assert!(rt; !is_ground_head(&rt, 7, 0x1000000));
}

#[test]
fn writes_worked_positions_in_the_air(rt: HostRuntime) {
    let worked = position(&rt, (104_704_573, 10_000_000), (10, 1));
    let rows = [
        (
            Parity::Even,
            [
                0x8D, 0x40, 0x62, 0x1D, 0x58, 0xC3, 0x82, 0xFA, 0xF7, 0x38, 0xE4, 0x11, 0xB0, 0xAA,
            ],
        ),
        (
            Parity::Odd,
            [
                0x8D, 0x40, 0x62, 0x1D, 0x58, 0xC3, 0x86, 0xDD, 0x2D, 0x38, 0xE4, 0x86, 0xBD, 0x11,
            ],
        ),
    ];
    for (parity, bytes) in rows {
        let squitter = send_air(air_head(&rt), &worked, parity);
        assert!(rt; write_frame(&squitter) == Frame(bytes));
    }
}

#[test]
fn writes_one_frame_however_a_position_is_given(rt: HostRuntime) {
    let frame = Frame([
        0x8D, 0x40, 0x62, 0x1D, 0x58, 0xC3, 0x82, 0xD6, 0x90, 0xC8, 0xAC, 0x28, 0x63, 0xA7,
    ]);
    let short = position(&rt, (522_572_021, 10_000_000), (39_193_726, 10_000_000));
    let long = position(
        &rt,
        (52_257_202_100_000, 1_000_000_000_000),
        (3_919_372_600_000, 1_000_000_000_000),
    );
    let (first, second) = laws::frames(air_head(&rt), Parity::Even, &short, &long);
    assert!(rt; first == frame);
    assert!(rt; second == frame);
}

#[test]
fn writes_a_worked_position_on_the_ground(rt: HostRuntime) {
    let worked = position(&rt, (523_230_400, 10_000_000), (47_304_726, 10_000_000));
    let squitter = send_ground(ground_head(&rt), &worked, Parity::Even);
    let frame = Frame([
        0x8C, 0x48, 0x41, 0x75, 0x38, 0x00, 0x03, 0x87, 0x33, 0xC8, 0xCD, 0xE5, 0xB7, 0xBB,
    ]);
    assert!(rt; write_frame(&squitter) == frame);
}

// Different points of one zone have different frames. A point that lies a whole zone further north has the same
// frame.
#[test]
fn tells_points_apart_within_zones(rt: HostRuntime) {
    let here = position(&rt, (0, 1), (0, 1));
    let beside = position(&rt, (1, 1_000_000), (0, 1));
    let north = position(&rt, (1, 2), (0, 1));
    let head = air_head(&rt);
    let (first, second) = laws::frames(head, Parity::Even, &here, &beside);
    assert!(rt; first == second);
    let (first, second) = laws::frames(head, Parity::Even, &here, &north);
    assert!(rt; first != second);
    let zone_further = position(&rt, (6, 1), (0, 1));
    let (first, second) = laws::frames(head, Parity::Even, &here, &zone_further);
    assert!(rt; first == second);
    let head = ground_head(&rt);
    let (first, second) = laws::frames(head, Parity::Odd, &here, &here);
    assert!(rt; first == second);
    let (first, second) = laws::frames(head, Parity::Odd, &here, &north);
    assert!(rt; first != second);
    laws::same_zones::<AirFields>();
    laws::same_zones::<GroundFields>();
}
