//! Altitudes: decoding a field to feet, and encoding feet as a field.
ghost use Rattle.std.specs.Prelude.{◌≡◌};
ghost use Rattle.squitter_c.specs.Altitudes.{IsFeetOfField, IsFieldAnswer, IsFieldWritten, IsMeaningAnswer};

use crate::faults::{Fault, NONE, Reason};
use crate::fields::plain_altitude;
use sq_message::{AirFields, Airborne, Code, Parity, altitude, field_of_feet};

/// The meaning of an altitude field.
#[repr(C)]
#[derive(Clone, Copy)]
pub struct PlainAltitude {
    pub feet: i32,
    /// 0 for none, 1 for feet, 2 for a field in another form.
    pub form: u8,
}

/// Decodes the altitude field of an airborne position to feet, by its type code (ICAO Doc 9871, register 0,5). The
/// fault is `NoHead` if no airborne position has this type code, or if the field is not one of 12 bits.
#[unsafe(no_mangle)]
pub extern "C" fn squitter_feet_of_field(
    type_code: u8,
    field: u16,
    out: &mut PlainAltitude,
) -> Fault
    ensures { IsFeetOfField type_code field out.old out.new result }
{
    match meaning(type_code, field) {
        Ok(altitude) => {
            *out = altitude;
            NONE
        }
        Err(reason) => Fault::of(reason),
    }
}

// Returns the meaning of a field.
fn meaning(type_code: u8, field: u16) -> Result<PlainAltitude, Reason>
    ensures { IsMeaningAnswer type_code field result }
{
    let Some(fields) = AirFields::new(type_code, 0, false, field, false) else {
        return Err(Reason::NoHead);
    };
    let airborne = Airborne {
        fields,
        parity: Parity::Even,
        code: Code::new(0, 0).unwrap(),
    };
    let (form, feet) = plain_altitude(altitude(&airborne));
    Ok(PlainAltitude { feet, form })
}

/// Encodes feet as an altitude field with Q = 1. The fault is `NoFeet` unless `feet` is a multiple of 25 from -1000
/// to 50175.
#[unsafe(no_mangle)]
pub extern "C" fn squitter_field_of_feet(feet: i32, out: &mut u16) -> Fault
    ensures { IsFieldWritten feet out.old out.new result }
{
    match field_of(feet) {
        Ok(field) => {
            *out = field;
            NONE
        }
        Err(reason) => Fault::of(reason),
    }
}

// Returns the field of feet.
fn field_of(feet: i32) -> Result<u16, Reason>
    ensures { IsFieldAnswer feet result }
{
    match field_of_feet(feet) {
        Some(field) => Ok(field),
        None => Err(Reason::NoFeet),
    }
}
