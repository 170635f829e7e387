//! The frames that a log is made of: of aircraft in the air and on the ground around a site, and without a position.
use crate::changes::Template;
use crate::dice::Dice;
use sq_message::{
    AirFields, AirHead, Angle, GroundFields, GroundHead, Me, Other, Parity, Position, Squitter,
    field_of_feet, send_air, send_ground, write_frame,
};
use std::alloc::{AllocError, Global};

// A degree has so many of the parts in which places are made.
const PARTS: u64 = 1_000_000;

/// A part of the globe, in millionths of a degree.
#[derive(Clone, Copy)]
pub(crate) struct Region {
    pub(crate) south: i32,
    pub(crate) height: u32,
    pub(crate) west: i32,
    pub(crate) width: u32,
}

/// What a receiver near Amsterdam hears in the air.
pub(crate) const AIRSPACE: Region = Region {
    south: 48_000_000,
    height: 9_000_000,
    west: -3_000_000,
    width: 15_000_000,
};

/// And on the ground.
pub(crate) const AIRPORT: Region = Region {
    south: 52_280_000,
    height: 80_000,
    west: 4_700_000,
    width: 120_000,
};

/// All latitudes and longitudes.
pub(crate) const GLOBE: Region = Region {
    south: -90_000_000,
    height: 180_000_001,
    west: -180_000_000,
    width: 360_000_001,
};

/// A position in the region.
pub(crate) fn position_in(dice: &mut Dice, region: Region) -> Option<Position> {
    let lat = i64::from(region.south) + i64::from(dice.below(region.height));
    let lon = i64::from(region.west) + i64::from(dice.below(region.width));
    Position::new(Angle::new(lat, PARTS)?, Angle::new(lon, PARTS)?)
}

/// The squitter of an aircraft in the air, of address 0.
pub(crate) fn air_squitter(dice: &mut Dice, from: &Position, parity: Parity) -> Option<Squitter> {
    let altitude = field_of_feet((dice.below(1600) & 0x7FF) as i32 * 25)?;
    let fields = AirFields::new(11, 0, false, altitude, false)?;
    let head = AirHead::new(5, 0, fields)?;
    Some(send_air(head, from, parity))
}

/// The squitter of an aircraft on the ground, of address 0.
pub(crate) fn ground_squitter(
    dice: &mut Dice,
    from: &Position,
    parity: Parity,
) -> Option<Squitter> {
    let movement = (dice.below(124) & 0x7F) as u8;
    let track = (dice.below(128) & 0x7F) as u8;
    let fields = GroundFields::new(7, movement, true, track, false)?;
    let head = GroundHead::new(4, 0, fields)?;
    Some(send_ground(head, from, parity))
}

// A squitter without a position: a velocity or an identification.
fn other_squitter(dice: &mut Dice) -> Option<Squitter> {
    let type_code: u64 = if dice.below(3) == 0 { 4 } else { 19 };
    let rest = dice.roll_long() & 0x7_FFFF_FFFF_FFFF;
    Squitter::new(5, 0, Me::Other(Other::new(type_code << 51 | rest)?))
}

/// The frames that a log is made of, of each kind; at 2k and 2k + 1 the even and the odd one of a place.
#[derive(Drop)]
pub(crate) struct Templates {
    air: Vec<Template>,
    ground: Vec<Template>,
    other: Vec<Template>,
}

// How many places the air has, and the ground, and how many messages have no position.
const AIR_PLACES: u32 = 256;

const GROUND_PLACES: u32 = 16;

const OTHERS: u32 = 64;

// Appends the template of a squitter, if there is one.
fn push(into: &mut Vec<Template>, squitter: Option<Squitter>) -> Result<(), AllocError> {
    if let Some(squitter) = squitter {
        into.push(Template::new(&write_frame(&squitter)))?;
    }
    Ok(())
}

impl Templates {
    /// Frames of places that the dice choose.
    pub(crate) fn new(alloc: Global, dice: &mut Dice) -> Result<Templates, AllocError> {
        let mut air = Vec::new(alloc);
        for _ in 0..AIR_PLACES {
            if let Some(from) = position_in(dice, AIRSPACE) {
                push(&mut air, air_squitter(dice, &from, Parity::Even))?;
                push(&mut air, air_squitter(dice, &from, Parity::Odd))?;
            }
        }
        let mut ground = Vec::new(alloc);
        for _ in 0..GROUND_PLACES {
            if let Some(from) = position_in(dice, AIRPORT) {
                push(&mut ground, ground_squitter(dice, &from, Parity::Even))?;
                push(&mut ground, ground_squitter(dice, &from, Parity::Odd))?;
            }
        }
        let mut other = Vec::new(alloc);
        for _ in 0..OTHERS {
            push(&mut other, other_squitter(dice))?;
        }
        Ok(Templates { air, ground, other })
    }

    /// The frame of a place in the air, even or odd.
    pub(crate) fn air(&self, place: u32, odd: bool) -> Option<&Template> {
        self.air
            .get((place % AIR_PLACES * 2 + u32::from(odd)) as usize)
    }

    /// The frame of a place on the ground, even or odd.
    pub(crate) fn ground(&self, place: u32, odd: bool) -> Option<&Template> {
        self.ground
            .get((place % GROUND_PLACES * 2 + u32::from(odd)) as usize)
    }

    /// A frame without a position.
    pub(crate) fn other(&self, number: u32) -> Option<&Template> {
        self.other.get((number % OTHERS) as usize)
    }
}
