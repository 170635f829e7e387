//! Parsing texts as angles.
ghost use Rattle.std.specs.Prelude.{◌≡◌, ◌↔◌, ◌≤◌, ◌<◌, ◌^◌, ◌++◌, ◌∷◌, IsTrue, false, MatchOption, List, ℕ, length};
ghost use Rattle.std.specs.Bool.{OnFalse};
ghost use Rattle.std.specs.Char.{IsAsciiDigit};
ghost use Rattle.std.specs.List.{AllByRecursion};
ghost use Rattle.std.specs.Str.Parse.{digits_value};
ghost use Rattle.sq_angle.specs.Points.{EndsInPoint, StandsAroundPoint};
ghost use Rattle.sq_angle.specs.Reading.{IsReading};
ghost use Rattle.sq_angle.specs.Spelling.{Parts, IsSpelling, Spells, minus};
ghost use Rattle.sq_angle.specs.Spelling.{signed as signed_number};

use crate::angle::Angle;
use thiserror::Error;

// The greatest number of digits after the point.
const MAX_DECIMALS: usize = 12;

/// Why a text is not an angle: the first of these that applies.
#[derive(Clone, Copy, Debug, PartialEq, Eq, Error)]
#[error("{text}", text = self.label())]
pub enum AngleFault {
    /// The text is not an optional `-`, one to three digits, and optionally a point and one or more digits.
    NotANumber,
    /// There are more than twelve digits after the point.
    TooManyDecimals,
    /// The magnitude is above 360 degrees.
    OutOfRange,
}

impl AngleFault {
    ghost use Rattle.sq_angle.specs.Faults.{angle_fault_text};

    /// Returns the text of the error, at most 17 bytes. It has no number.
    pub fn label(self) -> &'static str
        ensures value { result.now ≡ angle_fault_text self }
        ensures short { length result.now ≤ 17 }
    {
        match self {
            AngleFault::NotANumber => "not a number",
            AngleFault::TooManyDecimals => "too many decimals",
            AngleFault::OutOfRange => "out of range",
        }
    }
}

impl Angle {
    /// Parses an angle in degrees: an optional `-`, one to three ASCII digits, and optionally a point and one to
    /// twelve digits. The denominator is 10 to the number of decimals, so `-0.50` is -50 over 100.
    ///
    /// The form of the whole text is checked first, then the number of decimals, and then the magnitude. Returns an
    /// [`AngleFault`] exactly if it is the first that applies.
    pub fn read(text: &str) -> Result<Angle, AngleFault>
        ensures { IsReading text.now result }
    {
        let Some(spelling) = spelling_of(text) else {
            return Err(AngleFault::NotANumber);
        };
        if spelling.decimals.len() > MAX_DECIMALS {
            return Err(AngleFault::TooManyDecimals);
        }
        let den = 10_u64.pow(spelling.decimals.len() as u32);
        let magnitude = number_of(spelling.whole) * den + number_of(spelling.decimals);
        match Angle::new(signed(spelling.negative, magnitude), den) {
            Some(angle) => Ok(angle),
            None => Err(AngleFault::OutOfRange),
        }
    }
}

// The parts of the text of an angle: its sign, the digits before the point and those after it.
#[derive(Clone, Copy)]
struct Spelling<'a> {
    negative: bool,
    whole: &'a str,
    decimals: &'a str,
}

// Returns the parts of the text if it has the form of an angle with any number of decimals.
fn spelling_of(text: &str) -> Option<Spelling<'_>>
    ensures { MatchOption result ((p : Parts) → ¬ Spells text.now p)
        (λ s. Spells text.now (record { negative = s.negative; whole = s.whole.now; decimals = s.decimals.now })) }
{
    let (negative, magnitude) = without_minus(text);
    let Some((whole, decimals)) = around_point(magnitude) else {
        return None;
    };
    if !are_parts(whole, decimals) {
        return None;
    }
    Some(Spelling {
        negative,
        whole,
        decimals,
    })
}

// Returns whether the text begins with `-`, and the rest of it.
fn without_minus(text: &str) -> (bool, &str)
    ensures parts { text.now ≡ minus result.0 ++ result.1.now }
    ensures other { OnFalse result.0 ((rest : List ℕ) → ¬ (text.now ≡ 45 ∷ rest)) }
{
    match text.strip_prefix('-') {
        Some(rest) => (true, rest),
        None => (false, text),
    }
}

// Splits the text at its first point. Returns `None` if nothing follows the point.
fn around_point(text: &str) -> Option<(&str, &str)>
    ensures { MatchOption result (EndsInPoint text.now) (λ parts. StandsAroundPoint text.now parts.0.now parts.1.now) }
{
    let Some((whole, decimals)) = text.split_once('.') else {
        return Some((text, ""));
    };
    if decimals.is_empty() {
        return None;
    }
    Some((whole, decimals))
}

// Returns whether `whole` is one to three digits and `decimals` has only digits.
fn are_parts(whole: &str, decimals: &str) -> bool
    ensures { IsTrue result ↔ IsSpelling (record { negative = false; whole = whole.now; decimals = decimals.now }) }
{
    matches!(whole.len(), 1..=3) && are_digits(whole) && are_digits(decimals)
}

// Returns whether each character is an ASCII digit.
fn are_digits(text: &str) -> bool
    ensures { IsTrue result ↔ AllByRecursion IsAsciiDigit text.now }
{
    text.bytes().all(|byte| byte.is_ascii_digit())
}

// Returns the number of at most twelve digits, or 0 if there are none.
fn number_of(digits: &str) -> u64
    requires digits { AllByRecursion IsAsciiDigit digits.now }
    requires short { length digits.now ≤ 12 }
    ensures value { result ≡ digits_value 10 digits.now }
    ensures small { result < 10 ^ length digits.now }
{
    digits.parse().unwrap_or(0)
}

// Returns the magnitude with its sign.
fn signed(negative: bool, magnitude: u64) -> i64
    requires { magnitude < 2 ^ 63 }
    ensures { result ≡ signed_number negative magnitude }
{
    let number = magnitude as i64;
    if negative { -number } else { number }
}
