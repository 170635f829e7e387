//! Shared by the tests: worked frames, and functions that make squitters and positions.
use sq_message::{
    AirFields, AirHead, Airborne, Angle, Code, Frame, GroundFields, GroundHead, Me, Other, Parity,
    Position, Squitter, Surface, read_frame, send_air, send_ground,
};
use std::process::Abort;

pub const AIR_EVEN: Frame = Frame([
    0x8D, 0x40, 0x62, 0x1D, 0x58, 0xC3, 0x82, 0xD6, 0x90, 0xC8, 0xAC, 0x28, 0x63, 0xA7,
]);

pub const AIR_ODD: Frame = Frame([
    0x8D, 0x40, 0x62, 0x1D, 0x58, 0xC3, 0x86, 0x43, 0x5C, 0xC4, 0x12, 0x69, 0x2A, 0xD6,
]);

pub const IDENTITY: Frame = Frame([
    0x8D, 0x40, 0x6B, 0x90, 0x20, 0x15, 0xA6, 0x78, 0xD4, 0xD2, 0x20, 0xAA, 0x4B, 0xDA,
]);

pub const GROUND_EVEN: Frame = Frame([
    0x8C, 0x48, 0x41, 0x75, 0x3A, 0xAB, 0x23, 0x87, 0x33, 0xC8, 0xCD, 0x40, 0x20, 0xB1,
]);

pub const GROUND_ODD: Frame = Frame([
    0x8C, 0x48, 0x41, 0x75, 0x3A, 0x8A, 0x35, 0x32, 0x3F, 0xAE, 0xBD, 0xAC, 0x70, 0x2D,
]);

// The address of the airborne frames.
pub const AIR: u32 = 0x40621D;

// Reads the squitter of a frame.
pub fn read(rt: &impl Abort, frame: &Frame) -> Squitter {
    read_frame(frame).expect(rt, "a squitter")
}

// Returns an airborne squitter with this parity and code.
pub fn airborne(address: u32, parity: Parity, lat: u32, lon: u32) -> Option<Squitter> {
    let fields = AirFields::new(11, 0, false, 0xC38, false)?;
    let code = Code::new(lat, lon)?;
    let me = Me::Airborne(Airborne {
        fields,
        parity,
        code,
    });
    Squitter::new(5, address, me)
}

// Returns a surface squitter with this parity and code.
pub fn surface(address: u32, parity: Parity, lat: u32, lon: u32) -> Option<Squitter> {
    let fields = GroundFields::new(7, 0, false, 0, false)?;
    let code = Code::new(lat, lon)?;
    let me = Me::Surface(Surface {
        fields,
        parity,
        code,
    });
    Squitter::new(4, address, me)
}

// Returns a squitter without a position.
pub fn other(address: u32) -> Option<Squitter> {
    let raw = Other::new(0)?;
    Squitter::new(5, address, Me::Other(raw))
}

// Returns the squitter sent in the air from a position.
pub fn sent_in_air(address: u32, from: &Position, parity: Parity) -> Option<Squitter> {
    let fields = AirFields::new(11, 0, false, 0, false)?;
    let head = AirHead::new(5, address, fields)?;
    Some(send_air(head, from, parity))
}

// Returns the squitter sent on the ground from a position.
pub fn sent_on_ground(address: u32, from: &Position, parity: Parity) -> Option<Squitter> {
    let fields = GroundFields::new(7, 0, false, 0, false)?;
    let head = GroundHead::new(4, address, fields)?;
    Some(send_ground(head, from, parity))
}

// Returns the position of two fractions, each a numerator over a denominator.
pub fn position(rt: &impl Abort, lat: (i64, u64), lon: (i64, u64)) -> Position {
    let lat = Angle::new(lat.0, lat.1).expect(rt, "a latitude");
    let lon = Angle::new(lon.0, lon.1).expect(rt, "a longitude");
    Position::new(lat, lon).expect(rt, "a position")
}
