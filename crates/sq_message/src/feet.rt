//! Altitudes and their fields.
ghost use Rattle.std.specs.Prelude.{◌≡◌, ℕ, pos, ◌*◌, ◌/◌, ◌<◌, ◌↔◌, ◌+ℤ◌, IfSome, IsSome};
ghost use Rattle.sq_message.specs.Parts.{air_parts};
ghost use Rattle.sq_message.specs.Altitudes.{HasField, IsAltitude, IsFieldOfFeet};

use crate::{Airborne, Altitude};

/// Returns the altitude of an airborne position (ICAO Doc 9871, register 0,5). For type codes 9 to 18 it is `Missing`
/// if the field is 0, `Feet` if the Q bit is 1, and otherwise `Raw`. For type codes 20 to 22 it is always `Raw`.
pub fn altitude(airborne: &Airborne) -> Altitude
    ensures { let fields = air_parts airborne.now.fields in IsAltitude fields.type_code fields.altitude result }
{
    let field = airborne.fields.altitude;
    if airborne.fields.type_code >= 20 {
        Altitude::Raw(field)
    } else if field == 0 {
        Altitude::Missing
    } else if field / 16 % 2 == 1 {
        Altitude::Feet(feet_of(field / 32 * 16 + field % 16))
    } else {
        Altitude::Raw(field)
    }
}

// Returns the altitude in feet of a number of steps of 25 feet; step 0 is -1000 feet.
fn feet_of(steps: u16) -> i32
    ensures { result +ℤ pos 1000 ≡ pos (25 * steps) }
{
    i32::from(steps) * 25 - 1000
}

/// Encodes an altitude in feet as a 12-bit field with Q = 1. Returns `None` unless the altitude is a multiple of 25
/// from -1000 to 50175.
pub fn field_of_feet(feet: i32) -> Option<u16>
    ensures variant { IsSome result ↔ HasField feet }
    ensures field { IfSome result (λ field. IsFieldOfFeet field feet) }
    ensures small { IfSome result (λ field. field < 4096) }
    ensures exact { (field : ℕ) → IsFieldOfFeet field feet → result ≡ Some field }
{
    let steps = steps_of(feet)?;
    Some(steps / 16 * 32 + 16 + steps % 16)
}

// Returns the number of steps of 25 feet from -1000 feet up to an altitude, or `None` if the altitude has no field.
fn steps_of(feet: i32) -> Option<u16>
    ensures variant { IsSome result ↔ HasField feet }
    ensures steps { IfSome result (λ steps. feet +ℤ pos 1000 ≡ pos (25 * steps)) }
    ensures small { IfSome result (λ steps. steps < 2048) }
{
    if feet < -1000 || feet > 50175 || feet % 25 != 0 {
        return None;
    }
    Some(((feet + 1000) / 25) as u16)
}
