//! The fields of a squitter, as plain numbers.
ghost use Rattle.std.specs.Prelude.{◌≡◌};
ghost use Rattle.squitter_c.specs.Fields.{IsPlainAirborne, IsPlainAltitude, IsPlainOther, IsPlainSquitter};
ghost use Rattle.squitter_c.specs.Fields.{IsPlainSurface};

use sq_message::{Airborne, Altitude, Me, Other, Squitter, Surface, altitude};

/// A squitter, field by field. A field that its kind lacks is 0.
#[repr(C)]
#[derive(Clone, Copy)]
pub struct PlainSquitter {
    /// The 56 bits of a message of kind other.
    pub raw: u64,
    pub address: u32,
    /// The CPR code, below 131072 each.
    pub lat: u32,
    pub lon: u32,
    pub feet: i32,
    /// The altitude field, 12 bits.
    pub altitude: u16,
    /// 0 for none, 1 for feet, 2 for a field in another form.
    pub altitude_form: u8,
    /// 0 for other, 1 for air, 2 for ground.
    pub kind: u8,
    pub ca: u8,
    pub type_code: u8,
    pub odd: u8,
    pub time: u8,
    pub status: u8,
    pub flag: u8,
    pub movement: u8,
    pub track_status: u8,
    pub track: u8,
}

// All fields 0.
const EMPTY: PlainSquitter = PlainSquitter {
    raw: 0,
    address: 0,
    lat: 0,
    lon: 0,
    feet: 0,
    altitude: 0,
    altitude_form: 0,
    kind: 0,
    ca: 0,
    type_code: 0,
    odd: 0,
    time: 0,
    status: 0,
    flag: 0,
    movement: 0,
    track_status: 0,
    track: 0,
};

// Returns the fields of a squitter.
pub(crate) fn plain_squitter(squitter: &Squitter) -> PlainSquitter
    ensures { IsPlainSquitter squitter.now result }
{
    let message = match squitter.me() {
        Me::Airborne(airborne) => plain_airborne(&airborne),
        Me::Surface(surface) => plain_surface(&surface),
        Me::Other(other) => plain_other(&other),
    };
    PlainSquitter {
        ca: squitter.ca(),
        address: squitter.address(),
        ..message
    }
}

fn plain_airborne(airborne: &Airborne) -> PlainSquitter
    ensures { IsPlainAirborne airborne.now result }
{
    let fields = airborne.fields();
    let (altitude_form, feet) = plain_altitude(altitude(airborne));
    PlainSquitter {
        kind: 1,
        type_code: fields.type_code(),
        status: fields.status(),
        flag: u8::from(fields.flag()),
        altitude: fields.altitude(),
        altitude_form,
        feet,
        time: u8::from(fields.time()),
        odd: airborne.parity().index(),
        lat: airborne.code().lat(),
        lon: airborne.code().lon(),
        ..EMPTY
    }
}

// Returns the form of an altitude, and its feet or 0.
pub(crate) fn plain_altitude(altitude: Altitude) -> (u8, i32)
    ensures { IsPlainAltitude altitude result.0 result.1 }
{
    match altitude {
        Altitude::Missing => (0, 0),
        Altitude::Feet(feet) => (1, feet),
        Altitude::Raw(_) => (2, 0),
    }
}

fn plain_surface(surface: &Surface) -> PlainSquitter
    ensures { IsPlainSurface surface.now result }
{
    let fields = surface.fields();
    PlainSquitter {
        kind: 2,
        type_code: fields.type_code(),
        movement: fields.movement(),
        track_status: u8::from(fields.track_status()),
        track: fields.track(),
        time: u8::from(fields.time()),
        odd: surface.parity().index(),
        lat: surface.code().lat(),
        lon: surface.code().lon(),
        ..EMPTY
    }
}

fn plain_other(other: &Other) -> PlainSquitter
    ensures { IsPlainOther other.now result }
{
    PlainSquitter {
        kind: 0,
        type_code: other.type_code(),
        raw: other.raw(),
        ..EMPTY
    }
}
