//! The job of encoding: positions as fractions of all sizes to frames, and places as text.
use crate::dice::Dice;
use crate::digest::Digest;
use sq_message::{
    AirFields, AirHead, Angle, GroundFields, GroundHead, Parity, Position, Squitter, place_local,
    send_air, send_ground, write_frame,
};
use sq_text::place_text;

// The magnitude of an angle has at most so many degrees.
const LATITUDES: u64 = 90;

const LONGITUDES: u64 = 180;

// A denominator of any size: of decimals, a power of two, or any number.
fn denominator(dice: &mut Dice) -> u64 {
    match dice.roll() >> 28 {
        0 => 1,
        1 => 10,
        2 | 3 => 10_000,
        4..8 => 10_000_000,
        8 => 1_000_000_000_000,
        9 | 10 => 131_072,
        11 => 1 << 32,
        12 | 13 => 1 + u64::from(dice.below(1_000_000)),
        _ => dice.below_long(1_000_000_000_000).wrapping_add(1),
    }
}

// An angle of at most so many degrees.
fn angle(dice: &mut Dice, degrees: u64) -> Option<Angle> {
    let den = denominator(dice);
    let most = degrees.wrapping_mul(den) & 0xFF_FFFF_FFFF_FFFF;
    let above = dice.below_long(most.wrapping_mul(2).wrapping_add(1)) & 0xFF_FFFF_FFFF_FFFF;
    Angle::new((above as i64).wrapping_sub(most as i64), den)
}

fn position(dice: &mut Dice) -> Option<Position> {
    Position::new(angle(dice, LATITUDES)?, angle(dice, LONGITUDES)?)
}

// The squitter of a position, of any kind and parity.
fn squitter(dice: &mut Dice, from: &Position) -> Option<Squitter> {
    let roll = dice.roll();
    let address = roll >> 8;
    let parity = if roll & 1 == 0 {
        Parity::Even
    } else {
        Parity::Odd
    };
    if roll & 6 == 0 {
        let fields = GroundFields::new(
            7,
            (roll >> 25) as u8,
            true,
            (roll >> 18 & 0x7F) as u8,
            false,
        )?;
        return Some(send_ground(GroundHead::new(4, address, fields)?, from, parity));
    }
    let fields = AirFields::new(11, 0, false, (roll >> 20) as u16, false)?;
    Some(send_air(AirHead::new(5, address, fields)?, from, parity))
}

// Encodes a position, decodes it near itself, and tells the place; and tells the position as it was given, of one in
// four.
fn encode(digest: &mut Digest, dice: &mut Dice) -> Option<()> {
    let from = position(dice)?;
    let squitter = squitter(dice, &from)?;
    digest.add(&write_frame(&squitter).0);
    match place_local(&squitter, &from) {
        Ok(place) => digest.add(place_text(&place.position()).as_bytes()),
        Err(fault) => digest.add(fault.label().as_bytes()),
    }
    if dice.roll() >> 30 == 0 {
        digest.add(place_text(&from).as_bytes());
    }
    Some(())
}

/// So many positions to frames and texts.
pub(crate) fn encode_all(seed: u64, count: u64) -> u64 {
    let mut digest = Digest::new();
    let mut dice = Dice::new(seed);
    for _ in 0..count {
        if encode(&mut digest, &mut dice).is_none() {
            digest.add(b"none");
        }
    }
    digest.value()
}
