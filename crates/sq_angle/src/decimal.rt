//! An angle as text with seven decimals.
ghost use Rattle.std.specs.Prelude.{◌≡◌, ◌+◌, ◌*◌, ◌^◌, ◌<◌, ◌≤◌, ◌++◌, List, ℕ, pos, decimal};
ghost use Rattle.arrayvec.specs.ArrayString.{array_string_len};
ghost use Rattle.sq_digits.specs.Buffer.{text_len};
ghost use Rattle.sq_digits.specs.Digits.{fixed_digits};
ghost use Rattle.sq_angle.specs.Angle.{degrees};
ghost use Rattle.sq_angle.specs.Decimal.{IsDecimal7, ten_millionth};
ghost use Rattle.sq_angle.specs.Fraction.{IsWithin, magnitude};
ghost use Rattle.sq_angle.specs.Nearest.{IsNearest};

use crate::angle::Angle;
use crate::quotients::quotient;
use arrayvec::ArrayString;
use sq_digits::{TextBuffer, push_digit, push_leading, push_three};

impl Angle {
    /// Returns the value in degrees as text with seven decimals, rounded half away from zero. The text has at least one
    /// digit before the point, and begins with `-` only if a digit is not 0. At most 12 bytes.
    pub fn decimal7(&self) -> ArrayString<16>
        ensures text { IsDecimal7 (degrees self.now) result.bytes }
        ensures short { array_string_len result ≤ 12 }
    {
        let mut text = TextBuffer::<16>::new();
        self.push_decimal7(&mut text);
        let mut shown = ArrayString::new();
        shown.push_str(text.as_str());
        shown
    }

    /// Appends the text of [`Angle::decimal7`], at most 12 bytes.
    #[inline(always)]
    pub fn push_decimal7<const N: usize>(&self, text: &mut TextBuffer<N>)
        requires { text_len text.old + 12 ≤ N }
        ensures bytes { (part : List ℕ) × IsDecimal7 (degrees self.now) part
            × (text.new.bytes ≡ text.old.bytes ++ part) }
        ensures len { text_len text.new ≤ text_len text.old + 12 }
    {
        let places = self.ten_millionths();
        if self.num() < 0 && places > 0 {
            text.push(b'-');
        }
        push_leading(text, places / 10_000_000);
        text.push(b'.');
        push_seven(text, places % 10_000_000);
    }

    /// Returns the magnitude in units of 10^-7 degree, rounded half up: the digits of the text with seven decimals.
    /// The result is at most 180 * 10^7 if the angle is within 180 degrees.
    pub fn ten_millionths(&self) -> u64
        ensures value { IsNearest (magnitude (degrees self.now)) ten_millionth (pos result) }
        ensures small { result < 400 * 10 ^ 7 }
        ensures half { IsWithin 180 (degrees self.now) → result ≤ 180 * 10 ^ 7 }
    {
        let scaled = 20_000_000 * u128::from(self.num().unsigned_abs());
        let den = self.den();
        quotient(scaled + u128::from(den), 2 * den) as u64
    }
}

// Appends a number below 10^7 as seven digits.
#[inline(always)]
fn push_seven<const N: usize>(text: &mut TextBuffer<N>, number: u64)
    requires small { number < 10 ^ 7 }
    requires room { text_len text.old + 7 ≤ N }
    ensures bytes { text.new.bytes ≡ text.old.bytes ++ fixed_digits 7 number }
    ensures len { text_len text.new ≡ text_len text.old + 7 }
{
    push_digit(text, number / 1_000_000);
    push_three(text, number / 1_000 % 1_000);
    push_three(text, number % 1_000);
}
