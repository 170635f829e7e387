//! The job of a library's caller: frames anywhere on the globe, in arrays, read and decoded without text.
use crate::changes::{Changes, Template};
use crate::dice::Dice;
use crate::digest::Mix;
use crate::templates::{GLOBE, air_squitter, ground_squitter, position_in};
use sq_message::{
    Angle, Parity, Place, PlaceFault, Position, Received, Squitter, place_local, place_pair,
    read_frame, write_frame,
};
use sq_track::{Heard, TrackFault, Tracker, hear_each};
use std::alloc::{AllocError, Global};

// How many places there are, and how many aircraft.
const PLACES: u32 = 2048;

const AIRCRAFT: u32 = 1024;

// An array has the frames of so many pairs.
const PAIRS: u32 = 128;

// The two frames of a place, and a reference near it.
#[derive(Clone, Copy)]
struct Spot {
    even: Template,
    odd: Template,
    reference: Position,
}

// A reference of any denominator, within half a degree of the place where the globe allows it.
fn near(dice: &mut Dice, from: &Position) -> Option<Position> {
    let den = match dice.roll() >> 30 {
        0 => 1000,
        1 => 10_000_000,
        2 => 7_864_320,
        _ => 1 + u64::from(dice.roll()),
    };
    Position::new(
        near_angle(dice, &from.lat(), den)?,
        near_angle(dice, &from.lon(), den)?,
    )
}

fn near_angle(dice: &mut Dice, from: &Angle, den: u64) -> Option<Angle> {
    let millionths = from.num().wrapping_add(i64::from(dice.below(1_000_000)));
    let scaled = i128::from(millionths.wrapping_sub(500_000)) * i128::from(den) / 1_000_000;
    match i64::try_from(scaled) {
        Ok(num) => Angle::new(num, den),
        Err(_) => None,
    }
}

// A place on the globe: one in eight is on the ground.
fn make_spot(dice: &mut Dice) -> Option<Spot> {
    let from = position_in(dice, GLOBE)?;
    let is_ground = dice.roll() >> 29 == 0;
    let even = squitter(dice, is_ground, &from, Parity::Even)?;
    let odd = squitter(dice, is_ground, &from, Parity::Odd)?;
    let reference = match near(dice, &from) {
        Some(reference) => reference,
        None => from,
    };
    Some(Spot {
        even: Template::new(&write_frame(&even)),
        odd: Template::new(&write_frame(&odd)),
        reference,
    })
}

fn squitter(dice: &mut Dice, is_ground: bool, from: &Position, parity: Parity) -> Option<Squitter> {
    if is_ground {
        ground_squitter(dice, from, parity)
    } else {
        air_squitter(dice, from, parity)
    }
}

fn mix_place(mix: &mut Mix, place: &Place) {
    let position = place.position();
    mix.add_signed(position.lat().num());
    mix.add(position.lat().den());
    mix.add_signed(position.lon().num());
    mix.add(position.lon().den());
}

fn mix_answer(mix: &mut Mix, answer: Result<Place, PlaceFault>) {
    match answer {
        Ok(place) => mix_place(mix, &place),
        Err(PlaceFault::ZoneCounts(even, odd)) => mix_split(mix, even, odd),
        Err(fault) => mix.add(fault.label().len() as u64),
    }
}

fn mix_split(mix: &mut Mix, even: u8, odd: u8) {
    mix.add(1 << 16 | u64::from(even) << 8 | u64::from(odd));
}

fn mix_heard(mix: &mut Mix, heard: &Result<Heard, TrackFault>) {
    match heard {
        Ok(Heard::Fix(place)) => mix_place(mix, place),
        Ok(Heard::Followed(place)) => {
            mix.add(1);
            mix_place(mix, place);
        }
        Ok(Heard::Waiting) => mix.add(2),
        Ok(Heard::Split(even, odd)) => mix_split(mix, *even, *odd),
        Ok(Heard::Far) => mix.add(3),
        Ok(Heard::NoSite) => mix.add(4),
        Ok(Heard::NotPosition) => mix.add(5),
        Err(TrackFault::Memory) => mix.add(6),
        Err(TrackFault::NoLimit) => mix.add(7),
        Err(TrackFault::Full) => mix.add(8),
        Err(TrackFault::MomentBack(last)) => {
            mix.add(9);
            mix.add(*last);
        }
    }
}

// What is decoded, and the two trackers that hear it.
#[derive(Drop)]
struct Decoding {
    dice: Dice,
    changes: Changes,
    spots: Vec<Spot>,
    one_by_one: Tracker,
    in_arrays: Tracker,
    moment: u64,
    mix: Mix,
}

impl Decoding {
    // Reads the two frames of a place, which an aircraft sends, and decodes each near the reference, and both together.
    fn decode_pair(&mut self, received: &mut Vec<Received>) -> Result<(), AllocError> {
        let number = self.dice.below(AIRCRAFT);
        let change = self.dice.roll() & 0xFFFF;
        let Some(spot) = self.spots.get((self.dice.below(PLACES)) as usize) else {
            return Ok(());
        };
        let reference = spot.reference;
        let address = number.wrapping_mul(0x9E_3779) & 0xFF_FFFF;
        let even = read_frame(&self.changes.frame(&spot.even, address, change));
        let odd = read_frame(&self.changes.frame(&spot.odd, address, change));
        let (Ok(even), Ok(odd)) = (even, odd) else {
            return Ok(());
        };
        mix_answer(&mut self.mix, place_local(&even, &reference));
        mix_answer(&mut self.mix, place_local(&odd, &reference));
        mix_answer(&mut self.mix, place_pair(&even, &odd, Some(&reference)));
        for squitter in [even, odd] {
            let moment = self.moment;
            mix_heard(&mut self.mix, &self.one_by_one.hear(moment, &squitter));
            received.push(Received { moment, squitter })?;
        }
        self.moment = self.moment.wrapping_add(1);
        Ok(())
    }

    // Decodes the frames of an array one by one, and then has the array heard.
    fn decode_array(&mut self, alloc: Global) -> Result<(), AllocError> {
        let mut received = Vec::new(alloc);
        for _ in 0..PAIRS {
            self.decode_pair(&mut received)?;
        }
        let mut heard = vec![in alloc; Ok(Heard::Waiting); received.len()]?;
        hear_each(&mut self.in_arrays, &received, &mut heard);
        for one in &heard {
            mix_heard(&mut self.mix, one);
        }
        Ok(())
    }
}

fn spots(alloc: Global, dice: &mut Dice) -> Result<Vec<Spot>, AllocError> {
    let mut spots = Vec::new(alloc);
    for _ in 0..PLACES {
        if let Some(spot) = make_spot(dice) {
            spots.push(spot)?;
        }
    }
    Ok(spots)
}

/// Decodes so many pairs of frames.
pub(crate) fn decode(alloc: Global, seed: u64, pairs: u64) -> Result<u64, AllocError> {
    let mut dice = Dice::new(seed);
    let spots = spots(alloc, &mut dice)?;
    let site = match spots.first() {
        Some(spot) => Some(spot.reference),
        None => None,
    };
    let Ok(one_by_one) = Tracker::new(alloc, 100_000, 10_000, site) else {
        return Err(AllocError);
    };
    let Ok(in_arrays) = Tracker::new(alloc, 100_000, 10_000, None) else {
        return Err(AllocError);
    };
    let mut decoding = Decoding {
        dice,
        changes: Changes::new(),
        spots,
        one_by_one,
        in_arrays,
        moment: 0,
        mix: Mix::new(),
    };
    for _ in 0..pairs / u64::from(PAIRS) {
        decoding.decode_array(alloc)?;
    }
    Ok(decoding.mix.value())
}
