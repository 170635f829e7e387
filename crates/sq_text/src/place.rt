//! A position in two lines.
ghost use Rattle.std.specs.Prelude.{◌≡◌, ◌+◌, ◌≤◌, ◌<◌, ◌^◌, ◌++◌, List, ℕ, codes, decimal, length, unsigned_abs};
ghost use Rattle.std.specs.Fmt.{signed_decimal};
ghost use Rattle.sq_digits.specs.Buffer.{text_len};
ghost use Rattle.sq_angle.specs.Angle.{degrees};
ghost use Rattle.sq_angle.specs.Decimal.{IsDecimal7};
ghost use Rattle.sq_text.specs.Place.{IsFractionText, IsPlaceText};

use sq_angle::{Angle, Position};
use sq_digits::{TextBuffer, push_decimal, push_signed_decimal};

/// The text of a position: two lines.
pub type PlaceText = TextBuffer<160>;

/// Returns the position in two lines: latitude and longitude with seven decimals, and then both in lowest terms, as
/// `num/den`.
pub fn place_text(position: &Position) -> PlaceText
    ensures { IsPlaceText position.now result.bytes }
{
    let mut text = PlaceText::new();
    push_decimals(&mut text, &position.lat());
    text.push_str(" ");
    push_decimals(&mut text, &position.lon());
    text.push_str("\n");
    push_fraction(&mut text, &position.lat());
    text.push_str(" ");
    push_fraction(&mut text, &position.lon());
    text.push_str("\n");
    text
}

/// Appends an angle with seven decimals, at most 12 bytes.
#[inline(always)]
pub fn push_decimals<const N: usize>(text: &mut TextBuffer<N>, angle: &Angle)
    requires { text_len text.old + 12 ≤ N }
    ensures bytes { (part : List ℕ) × IsDecimal7 (degrees angle.now) part × (text.new.bytes ≡ text.old.bytes ++ part) }
    ensures len { text_len text.new ≤ text_len text.old + 12 }
{
    angle.push_decimal7(text);
}

fn push_fraction(text: &mut PlaceText, angle: &Angle)
    requires { text_len text.old ≤ 100 }
    ensures bytes { (part : List ℕ) × IsFractionText (degrees angle.now) part
        × (text.new.bytes ≡ text.old.bytes ++ part) }
    ensures len { text_len text.new ≤ text_len text.old + 42 }
{
    let (num, den) = angle.reduced();
    push_signed_decimal(text, num);
    text.push(b'/');
    push_decimal(text, den);
}
