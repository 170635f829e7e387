//! Angles and positions in units of 10^-7 degree.
ghost use Rattle.std.specs.Prelude.{◌≡◌, ◌≤◌, ◌*◌, ◌^◌, ◌<◌, unsigned_abs};
ghost use Rattle.sq_angle.specs.Angle.{degrees};
ghost use Rattle.sq_angle.specs.Fraction.{IsWithin};
ghost use Rattle.sq_angle.specs.Spelling.{signed as signed_number};
ghost use Rattle.squitter_c.specs.E7.{AreE7Of, IsAngleE7, IsE7, IsPositionE7};

use crate::faults::{Fault, NONE, Reason};
use crate::plain::{PlainAngle, PlainPosition, angle_of, position_of};
use sq_angle::{Angle, Position};

/// A latitude and a longitude in units of 10^-7 degree.
#[repr(C)]
#[derive(Clone, Copy)]
pub struct DegreesE7 {
    pub lat: i32,
    pub lon: i32,
}

/// The angle in units of 10^-7 degree, rounded half away from zero. Returns `BAD_ANGLE` and leaves `out` unchanged if
/// the fraction is not a valid angle.
#[unsafe(no_mangle)]
pub extern "C" fn squitter_angle_e7(angle: &PlainAngle, out: &mut i64) -> Fault
    ensures { IsAngleE7 angle.now out.old out.new result }
{
    match angle_of(angle) {
        Some(angle) => {
            *out = e7_of(&angle);
            NONE
        }
        None => Fault::of(Reason::NoAngle),
    }
}

/// The position in units of 10^-7 degree, rounded half away from zero. Returns `BAD_POSITION`, with `out` unchanged, if
/// the fractions are not a valid position.
#[unsafe(no_mangle)]
pub extern "C" fn squitter_position_e7(position: &PlainPosition, out: &mut DegreesE7) -> Fault
    ensures { IsPositionE7 position.now out.old out.new result }
{
    match position_of(position) {
        Some(position) => {
            *out = both(&position);
            NONE
        }
        None => Fault::of(Reason::NoPosition),
    }
}

// Returns both coordinates in units of 10^-7 degree.
pub(crate) fn both(position: &Position) -> DegreesE7
    ensures { AreE7Of position.now result }
{
    DegreesE7 {
        lat: e7_of(&position.lat()) as i32,
        lon: e7_of(&position.lon()) as i32,
    }
}

// Returns an angle in units of 10^-7 degree.
fn e7_of(angle: &Angle) -> i64
    ensures value { IsE7 (degrees angle.now) result }
    ensures small { unsigned_abs result < 400 * 10 ^ 7 }
    ensures half { IsWithin 180 (degrees angle.now) → unsigned_abs result ≤ 180 * 10 ^ 7 }
{
    signed(angle.num() < 0, angle.ten_millionths())
}

// Returns a number with its sign.
fn signed(negative: bool, magnitude: u64) -> i64
    requires { magnitude < 2 ^ 63 }
    ensures { result ≡ signed_number negative magnitude }
{
    let number = magnitude as i64;
    if negative { -number } else { number }
}
