//! Real frames read and written, damaged frames, limits of fields, and altitudes.
ghost use Rattle.std.specs.Prelude.{◌≤◌};

use crate::samples::{AIR_EVEN, AIR_ODD, GROUND_EVEN, GROUND_ODD, IDENTITY, read};
use sq_bits::remainder;
use sq_message::{
    AirFields, Airborne, Altitude, Code, Frame, FrameFault, GroundFields, Me, Other, Parity,
    Squitter, Surface, altitude, field_of_feet, laws, pins, read_frame, write_frame,
};
use std::process::Abort;

// Returns the frame with one bit flipped.
fn flipped(frame: &Frame, bit: u8) -> Frame
    requires begins { 1 ≤ bit }
    requires within { bit ≤ 112 }
{
    frame.with_field(bit, 1, frame.field(bit, 1) ^ 1)
}

fn airborne_of(rt: &impl Abort, frame: &Frame) -> Airborne {
    let Me::Airborne(airborne) = read(rt, frame).me() else {
        panic!(rt; "an airborne position");
    };
    airborne
}

fn surface_of(rt: &impl Abort, frame: &Frame) -> Surface {
    let Me::Surface(surface) = read(rt, frame).me() else {
        panic!(rt; "a surface position");
    };
    surface
}

// Returns the type code, the surveillance status, the flag, the altitude and the time bit.
fn air_numbers(fields: &AirFields) -> [u16; 5] {
    [
        u16::from(fields.type_code()),
        u16::from(fields.status()),
        u16::from(fields.flag()),
        fields.altitude(),
        u16::from(fields.time()),
    ]
}

// Returns the type code, the movement, the track status, the track and the time bit.
fn ground_numbers(fields: &GroundFields) -> [u8; 5] {
    [
        fields.type_code(),
        fields.movement(),
        u8::from(fields.track_status()),
        fields.track(),
        u8::from(fields.time()),
    ]
}

fn code_numbers(code: Code) -> [u32; 2] {
    [code.lat(), code.lon()]
}

// Returns the capability and the address in a frame.
fn sender(rt: &impl Abort, frame: &Frame) -> (u8, u32) {
    let squitter = read(rt, frame);
    (squitter.ca(), squitter.address())
}

#[test]
fn reads_capabilities_and_addresses(rt: HostRuntime) {
    assert!(rt; sender(&rt, &AIR_EVEN) == (5, 0x40621D));
    assert!(rt; sender(&rt, &GROUND_EVEN) == (4, 0x484175));
}

#[test]
fn reads_an_airborne_position(rt: HostRuntime) {
    let airborne = airborne_of(&rt, &AIR_EVEN);
    assert!(rt; air_numbers(&airborne.fields()) == [11, 0, 0, 0xC38, 0]);
    assert!(rt; airborne.parity() == Parity::Even);
    assert!(rt; code_numbers(airborne.code()) == [93_000, 51_372]);
}

#[test]
fn reads_an_odd_airborne_position(rt: HostRuntime) {
    let airborne = airborne_of(&rt, &AIR_ODD);
    assert!(rt; airborne.parity == Parity::Odd);
    assert!(rt; code_numbers(airborne.code) == [74_158, 50_194]);
}

#[test]
fn reads_a_surface_position(rt: HostRuntime) {
    let surface = surface_of(&rt, &GROUND_EVEN);
    assert!(rt; ground_numbers(&surface.fields()) == [7, 42, 1, 50, 0]);
    assert!(rt; surface.parity() == Parity::Even);
    assert!(rt; code_numbers(surface.code()) == [115_609, 116_941]);
}

#[test]
fn reads_an_odd_surface_position(rt: HostRuntime) {
    let surface = surface_of(&rt, &GROUND_ODD);
    assert!(rt; surface.fields.movement() == 40);
    assert!(rt; surface.fields.track() == 35);
    assert!(rt; surface.parity == Parity::Odd);
    assert!(rt; code_numbers(surface.code) == [39_199, 110_269]);
}

#[test]
fn keeps_another_type_code(rt: HostRuntime) {
    let squitter = read_frame(&IDENTITY).expect(&rt, "a squitter");
    assert!(rt; squitter.address() == 0x406B90);
    let Me::Other(other) = squitter.me() else {
        panic!(rt; "another message");
    };
    assert!(rt; other.raw() == 0x2015A678D4D220);
    assert!(rt; other.type_code() == 4);
}

#[test]
fn writes_what_it_reads(rt: HostRuntime) {
    for frame in [AIR_EVEN, AIR_ODD, IDENTITY, GROUND_EVEN, GROUND_ODD] {
        let squitter = read_frame(&frame).expect(&rt, "a squitter");
        assert!(rt; write_frame(&squitter) == frame);
        assert!(rt; laws::written_of_read(&frame) == Ok((squitter, frame)));
        assert!(rt; laws::read_of_written(&squitter) == (frame, Ok(squitter)));
    }
}

#[test]
fn refuses_other_formats_first(rt: HostRuntime) {
    for format in 0..32u8 {
        if format != 17 {
            let frame = AIR_EVEN.with_field(1, 5, u64::from(format));
            assert!(rt; read_frame(&frame) == Err(FrameFault::NotDf17(format)));
        }
    }
    for (bit, format) in [(1, 1), (2, 25), (3, 21), (4, 19), (5, 16)] {
        let frame = flipped(&AIR_EVEN, bit);
        assert!(rt; read_frame(&frame) == Err(FrameFault::NotDf17(format)));
    }
}

#[test]
fn refuses_each_flipped_bit(rt: HostRuntime) {
    for bit in 6..=112u8 {
        let frame = flipped(&AIR_EVEN, bit);
        let alone = remainder(&Frame([0; 14]).with_field(bit, 1, 1));
        assert!(rt;
            read_frame(&frame) == Err(FrameFault::Parity(alone)),
            "bit {bit}"
        );
    }
}

fn is_airborne(type_code: u8) -> bool {
    matches!(type_code, 9..=18 | 20..=22)
}

fn is_surface(type_code: u8) -> bool {
    matches!(type_code, 5..=8)
}

// Returns whether this type code is read back, from a message of its kind.
fn is_read_back(me: &Me, type_code: u8) -> bool {
    match me {
        Me::Airborne(position) => {
            is_airborne(type_code) && position.fields.type_code() == type_code
        }
        Me::Surface(position) => is_surface(type_code) && position.fields.type_code() == type_code,
        Me::Other(other) => {
            !is_airborne(type_code) && !is_surface(type_code) && other.type_code() == type_code
        }
    }
}

#[test]
fn reads_every_type_code(rt: HostRuntime) {
    for type_code in 0..32u8 {
        let frame = sq_bits::sealed(&AIR_EVEN.with_field(33, 5, u64::from(type_code)));
        let squitter = read_frame(&frame).expect(&rt, "a squitter");
        assert!(rt;
            is_read_back(&squitter.me(), type_code),
            "type code {type_code}"
        );
        assert!(rt; write_frame(&squitter) == frame, "type code {type_code}");
    }
}

// Returns whether there are fields with these values.
fn is_air(type_code: u8, status: u8, flag: bool, altitude: u16, time: bool) -> bool {
    AirFields::new(type_code, status, flag, altitude, time).is_some()
}

fn is_ground(type_code: u8, movement: u8, track_status: bool, track: u8, time: bool) -> bool {
    GroundFields::new(type_code, movement, track_status, track, time).is_some()
}

#[test]
fn limits_type_codes_of_fields(rt: HostRuntime) {
    for type_code in 0..=255u8 {
        assert!(rt; is_air(type_code, 3, true, 4095, true) == is_airborne(type_code));
        assert!(rt; is_ground(type_code, 127, true, 127, true) == is_surface(type_code));
    }
}

#[test]
fn limits_fields(rt: HostRuntime) {
    assert!(rt; !is_air(9, 4, false, 0, false));
    assert!(rt; !is_air(9, 0, false, 4096, false));
    assert!(rt; !is_ground(5, 128, false, 0, false));
    assert!(rt; !is_ground(5, 0, false, 128, false));
}

#[test]
fn limits_squitters(rt: HostRuntime) {
    let other = Other::new(0).expect(&rt, "type code 0");
    assert!(rt; Other::new(1 << 56).is_none());
    assert!(rt; Other::new((1 << 56) - 1).is_some());
    assert!(rt; Other::new(19 << 51).is_some());
    assert!(rt; Other::new(5 << 51).is_none());
    assert!(rt; Other::new(22 << 51).is_none());
    assert!(rt; Squitter::new(7, 0xFF_FFFF, Me::Other(other)).is_some());
    assert!(rt; Squitter::new(8, 0, Me::Other(other)).is_none());
    assert!(rt; Squitter::new(0, 0x100_0000, Me::Other(other)).is_none());
}

// Returns the altitude of a field under a type code.
fn altitude_of(rt: &impl Abort, type_code: u8, field: u16) -> Altitude {
    let fields = AirFields::new(type_code, 0, false, field, false).expect(rt, "fields");
    let code = Code::new(0, 0).expect(rt, "a code");
    altitude(&Airborne {
        fields,
        parity: Parity::Even,
        code,
    })
}

#[test]
fn means_altitudes(rt: HostRuntime) {
    let rows = [
        (11, 0x000, Altitude::Missing),
        (11, 0x010, Altitude::Feet(-1000)),
        (11, 0x0FF, Altitude::Feet(2175)),
        (11, 0xC38, Altitude::Feet(38_000)),
        (11, 0xFFF, Altitude::Feet(50_175)),
        (11, 0x00F, Altitude::Raw(15)),
        (18, 0xFFF, Altitude::Feet(50_175)),
        (9, 0x00F, Altitude::Raw(15)),
        (20, 0x0FF, Altitude::Raw(255)),
        (22, 0x000, Altitude::Raw(0)),
    ];
    for (type_code, field, want) in rows {
        assert!(rt;
            pins::equal_altitudes(&altitude_of(&rt, type_code, field), &want),
            "field {field}"
        );
    }
    pins::altitude_exactly();
    pins::squitter_of_exactly();
    pins::pair_place_exactly();
    assert!(rt; !pins::equal_altitudes(&Altitude::Feet(25), &Altitude::Feet(50)));
    assert!(rt; !pins::equal_altitudes(&Altitude::Missing, &Altitude::Raw(0)));
}

// Altitudes in feet and their fields.
const FIELDS_OF_FEET: &str = "\
38000 0xC38
-1000 0x010
2175 0x0FF
50175 0xFFF
38010 none
-1025 none
50200 none";

fn feet(word: &str) -> Option<i32> {
    word.parse::<i32>().ok()
}

fn field(word: &str) -> Option<u16> {
    let (_, digits) = word.split_once("0x")?;
    u16::from_str_radix(digits, 16).ok()
}

// Returns whether the altitude of a row has the row's field, or no field if the row says `none`.
fn is_field_of_feet(row: &str) -> Option<bool> {
    let (first, second) = row.split_once(' ')?;
    let feet = feet(first)?;
    Some(field_of_feet(feet) == field(second))
}

#[test]
fn finds_fields_of_feet(rt: HostRuntime) {
    assert!(rt; FIELDS_OF_FEET.lines().count() == 7);
    for row in FIELDS_OF_FEET.lines() {
        assert!(rt; is_field_of_feet(row) == Some(true), "{row}");
    }
}

#[test]
fn finds_each_field_of_feet(rt: HostRuntime) {
    for field in 0..4096u16 {
        if let Altitude::Feet(feet) = altitude_of(&rt, 11, field) {
            assert!(rt; field_of_feet(feet) == Some(field), "field {field}");
        }
    }
}
