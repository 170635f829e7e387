//! The columns of a squitter.
ghost use Rattle.std.specs.Prelude.{◌≡◌, ◌+◌, ◌≤◌, ◌++◌, List, ℕ, codes, length};
ghost use Rattle.sq_digits.specs.Buffer.{text_len};
ghost use Rattle.sq_angle.specs.Angle.{degrees};
ghost use Rattle.sq_angle.specs.Decimal.{IsDecimal7};
ghost use Rattle.sq_text.specs.Faults.{fault_text};
ghost use Rattle.sq_text.specs.Altitudes.{AltitudeReader};
ghost use Rattle.sq_text.specs.Rows.{Number, Word, cell, degrees_width, fault_width, number_width, signed_width};
ghost use Rattle.sq_text.specs.Squitters.{bit_cell, feet_cell, feet_of, kind_name};

use crate::rows::{Form, push_blank, push_name, push_number, push_quoted_name, push_signed, quote};
use crate::{LineFault, push_decimals, push_fault};
use sq_angle::Angle;
use sq_digits::TextBuffer;
use sq_message::{Airborne, Altitude, Me, altitude};

/// Returns the kind of a message: `air`, `ground` or `other`.
#[inline(always)]
pub fn kind_name(me: &Me) -> &'static str
    ensures text { result.now ≡ kind_name me.now }
    ensures short { length result.now ≤ 6 }
{
    match me {
        Me::Airborne(_) => "air",
        Me::Surface(_) => "ground",
        Me::Other(_) => "other",
    }
}

/// Appends the altitude of a message in feet as `feet`, at most 19 bytes. The value is empty if the message has no
/// altitude in steps of 25 feet.
#[inline(always)]
pub fn push_feet<const N: usize>(text: &mut TextBuffer<N>, form: Form, me: &Me)
    requires { text_len text.old + length (codes "feet") + signed_width ≤ N }
    ensures bytes { (altitudes : AltitudeReader)
        → text.new.bytes ≡ text.old.bytes ++ cell form (codes "feet") (feet_of altitudes me.now) }
    ensures len { text_len text.new ≤ text_len text.old + length (codes "feet") + signed_width }
{
    match me {
        Me::Airborne(airborne) => push_airborne_feet(text, form, airborne),
        Me::Surface(_) | Me::Other(_) => push_blank(text, form, "feet"),
    }
}

/// Appends the altitude of an airborne position in feet as `feet`, at most 19 bytes. The value is empty if the
/// position has no altitude in steps of 25 feet (ICAO Doc 9871, register 0,5).
#[inline(always)]
pub fn push_airborne_feet<const N: usize>(text: &mut TextBuffer<N>, form: Form, airborne: &Airborne)
    requires { text_len text.old + length (codes "feet") + signed_width ≤ N }
    ensures bytes { (altitudes : AltitudeReader) → text.new.bytes
        ≡ text.old.bytes ++ cell form (codes "feet") (feet_cell (altitudes.read airborne.now.fields)) }
    ensures len { text_len text.new ≤ text_len text.old + length (codes "feet") + signed_width }
{
    match altitude(airborne) {
        Altitude::Feet(feet) => push_signed(text, form, "feet", feet),
        Altitude::Missing | Altitude::Raw(_) => push_blank(text, form, "feet"),
    }
}

/// Appends a bit as 0 or 1, with at most 24 bytes beside its name.
#[inline(always)]
pub fn push_bit<const N: usize>(text: &mut TextBuffer<N>, form: Form, name: &str, bit: bool)
    requires { text_len text.old + length name.now + number_width ≤ N }
    ensures bytes { text.new.bytes ≡ text.old.bytes ++ cell form name.now (bit_cell bit) }
    ensures len { text_len text.new ≤ text_len text.old + length name.now + number_width }
{
    push_number(text, form, name, u64::from(bit));
}

/// Appends an angle in degrees with seven decimals, with at most 16 bytes beside its name.
#[tactic(auto, unfolding(crate::specs::Rows::cell))]
#[inline(always)]
pub fn push_degrees<const N: usize>(text: &mut TextBuffer<N>, form: Form, name: &str, angle: &Angle)
    requires { text_len text.old + length name.now + degrees_width ≤ N }
    ensures bytes { (part : List ℕ) × IsDecimal7 (degrees angle.now) part
        × (text.new.bytes ≡ text.old.bytes ++ cell form name.now (Number part)) }
    ensures len { text_len text.new ≤ text_len text.old + length name.now + degrees_width }
{
    push_name(text, form, name);
    push_decimals(text, angle);
}

/// Appends the text of a line's error as a word, with at most 38 bytes beside its name.
#[tactic(auto, unfolding(crate::specs::Rows::cell))]
pub fn push_fault_word<const N: usize>(
    text: &mut TextBuffer<N>,
    form: Form,
    name: &str,
    fault: LineFault,
)
    requires { text_len text.old + length name.now + fault_width ≤ N }
    ensures bytes { text.new.bytes ≡ text.old.bytes ++ cell form name.now (Word (fault_text fault)) }
    ensures len { text_len text.new ≤ text_len text.old + length name.now + fault_width }
{
    push_quoted_name(text, form, name);
    push_fault(text, fault);
    text.push_str(quote(form));
}
