//! The job of a reader of fields: frames of each type code, read and taken apart.
use crate::changes::{Changes, Template};
use crate::dice::Dice;
use crate::digest::Mix;
use sq_bits::{Frame, sealed};
use sq_message::{
    Airborne, Altitude, Code, Me, Other, Parity, Squitter, Surface, altitude, read_frame,
};
use std::alloc::{AllocError, Global};

// How many messages there are.
const MESSAGES: u32 = 2048;

// The bytes of a squitter up to its message: downlink format 17 with capability 5, and address 0.
const HEAD: [u8; 4] = [0x8D, 0, 0, 0];

// A frame with any message, of any type code.
fn any_frame(dice: &mut Dice) -> Frame {
    let [_, a, b, c, d, e, f, g] = dice.roll_long().to_be_bytes();
    let [h, i, j, k] = HEAD;
    sealed(&Frame([h, i, j, k, a, b, c, d, e, f, g, 0, 0, 0]))
}

fn mix_code(mix: &mut Mix, parity: Parity, code: &Code) {
    mix.add(
        u64::from(parity == Parity::Odd) << 34
            | u64::from(code.lat()) << 17
            | u64::from(code.lon()),
    );
}

fn mix_altitude(mix: &mut Mix, altitude: Altitude) {
    match altitude {
        Altitude::Missing => mix.add(1),
        Altitude::Feet(feet) => mix.add_signed(i64::from(feet)),
        Altitude::Raw(bits) => mix.add(1 << 16 | u64::from(bits)),
    }
}

fn mix_air(mix: &mut Mix, air: &Airborne) {
    let fields = air.fields();
    mix.add(u64::from(fields.type_code()) << 8 | u64::from(fields.status()));
    mix.add(u64::from(fields.flag()) << 1 | u64::from(fields.time()));
    mix_altitude(mix, altitude(air));
    mix_code(mix, air.parity(), &air.code());
}

fn mix_ground(mix: &mut Mix, ground: &Surface) {
    let fields = ground.fields();
    mix.add(u64::from(fields.type_code()) << 8 | u64::from(fields.movement()));
    mix.add(u64::from(fields.track_status()) << 8 | u64::from(fields.track()));
    mix.add(u64::from(fields.time()));
    mix_code(mix, ground.parity(), &ground.code());
}

fn mix_other(mix: &mut Mix, other: &Other) {
    mix.add(u64::from(other.type_code()));
    mix.add(other.raw());
}

fn mix_squitter(mix: &mut Mix, squitter: &Squitter) {
    mix.add(u64::from(squitter.ca()) << 24 | u64::from(squitter.address()));
    match squitter.me() {
        Me::Airborne(air) => mix_air(mix, &air),
        Me::Surface(ground) => mix_ground(mix, &ground),
        Me::Other(other) => mix_other(mix, &other),
    }
}

/// Reads so many frames, and mixes in each field of each.
pub(crate) fn read(alloc: Global, seed: u64, frames: u64) -> Result<u64, AllocError> {
    let mut dice = Dice::new(seed);
    let changes = Changes::new();
    let mut templates = Vec::new(alloc);
    for _ in 0..MESSAGES {
        templates.push(Template::new(&any_frame(&mut dice)))?;
    }
    let mut mix = Mix::new();
    for _ in 0..frames {
        let Some(template) = templates.get(dice.below(MESSAGES) as usize) else {
            break;
        };
        let address = dice.roll() & 0xFF_FFFF;
        let change = dice.roll() & 0xFFFF;
        if let Ok(squitter) = read_frame(&changes.frame(template, address, change)) {
            mix_squitter(&mut mix, &squitter);
        }
    }
    Ok(mix.value())
}
