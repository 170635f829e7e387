//! Angles: their texts, the angles of texts, and the zone count of a latitude.
ghost use Rattle.std.specs.Prelude.{◌<◌, length};
ghost use Rattle.sq_angle.specs.Reading.{IsReading};
ghost use Rattle.squitter_c.specs.Angles.{IsAngleRead, IsAngleWritten, IsZoneAnswer, IsZoneCount, StandsIn};

use crate::faults::{Fault, NONE, Reason};
use crate::plain::{PlainAngle, angle_of, plain_angle};
use sq_angle::{Angle, AngleFault};
use sq_zones::zone_count;

/// Writes the number of longitude zones at a latitude (NL), from 1 to 59. The fault is `NoLatitude` if the fraction
/// is not an angle from -90 to 90 degrees. RTCA DO-260B, section 2.2.3.2.
#[unsafe(no_mangle)]
pub extern "C" fn squitter_zone_count(lat: &PlainAngle, out: &mut u8) -> Fault
    ensures { IsZoneCount lat.now out.old out.new result }
{
    match zones(lat) {
        Ok(count) => {
            *out = count;
            NONE
        }
        Err(reason) => Fault::of(reason),
    }
}

// Returns the zone count of a latitude.
fn zones(lat: &PlainAngle) -> Result<u8, Reason>
    ensures { IsZoneAnswer lat.now result }
{
    let Some(lat) = angle_of(lat) else {
        return Err(Reason::NoLatitude);
    };
    if !lat.is_within(90) {
        return Err(Reason::NoLatitude);
    }
    Ok(zone_count(&lat))
}

/// Writes an angle with seven decimals, at most 12 bytes, and zeros after them.
#[unsafe(no_mangle)]
pub extern "C" fn squitter_text_of_angle(angle: &PlainAngle, out: &mut [u8; 16]) -> Fault
    ensures { IsAngleWritten angle.now out.old out.new result }
{
    match angle_of(angle) {
        Some(angle) => {
            let text = angle.decimal7();
            fill(out, text.as_str());
            NONE
        }
        None => Fault::of(Reason::NoAngle),
    }
}

/// Parses an angle, and writes it in lowest terms.
#[unsafe(no_mangle)]
pub extern "C" fn squitter_angle_of_text(text: &[u8], out: &mut PlainAngle) -> Fault
    ensures { IsAngleRead text.now out.old out.new result }
{
    match read_angle(text) {
        Ok(angle) => {
            *out = plain_angle(&angle);
            NONE
        }
        Err(fault) => Fault::of(Reason::Angle(fault)),
    }
}

// Parses an angle.
fn read_angle(text: &[u8]) -> Result<Angle, AngleFault>
    ensures { IsReading text.now result }
{
    match std::str::from_utf8(text) {
        Ok(text) => Angle::read(text),
        Err(_) => Err(AngleFault::NotANumber),
    }
}

// Writes the text at the front, and zeros after it.
pub(crate) fn fill(out: &mut [u8], text: &str)
    requires { length text.now < length out.old }
    ensures { StandsIn text.now out.new }
{
    let bytes = text.as_bytes();
    for place in 0..out.len() {
        out[place] = match bytes.get(place) {
            Some(byte) => *byte,
            None => 0,
        };
    }
}
