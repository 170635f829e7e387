//! Squitters with their timestamps.
ghost use Rattle.std.specs.Prelude.{◌≡◌, ◌≤◌, ◌↔◌, ◌^◌, ◌<◌, ℕ, List, IsTrue, IfSome, IfNone, length, slice_index, take};
ghost use Rattle.std.specs.Char.{IsAsciiDigit};
ghost use Rattle.std.specs.List.{AllByRecursion};
ghost use Rattle.std.specs.Str.Parse.{digits_value};
ghost use Rattle.sq_text.specs.Timed.{HasNoMoment, IsMomentLine, IsDecimalText, IsTimedReading};

use crate::faults::LineFault;
use crate::front_digits::front_number;
use crate::reading::read_squitter;
use sq_digits::{DIGIT_LANES, count_digits};
use sq_message::Received;

// The greatest number of digits of a number below 2^64.
const DIGITS: usize = 20;

/// Reads a timestamp of 1 to 20 decimal digits, below 2^64, one space, and a frame text.
///
/// Errors, in this order: `Moment` if there is no space, or no timestamp before the first one; the errors of the frame
/// text and of its frame, as in `read_squitter`.
#[inline(always)]
pub fn read_timed(text: &[u8]) -> Result<Received, LineFault>
    ensures { IsTimedReading text.now result }
{
    match split_moment(text) {
        Some((moment, rest)) => {
            let squitter = read_squitter(rest)?;
            Ok(Received { moment, squitter })
        }
        None => Err(LineFault::Moment),
    }
}

// Returns the timestamp at the front of the text, and the text behind the space that follows it.
#[inline(always)]
fn split_moment(text: &[u8]) -> Option<(u64, &[u8])>
    ensures some { IfSome result (λ parts. IsMomentLine text.now parts.1.now parts.0) }
    ensures none { IfNone result (HasNoMoment text.now) }
{
    let (moment, count) = leading_number(text);
    if count > 0 && count < text.len() && text[count] == b' ' {
        return Some((moment, &text[count + 1..]));
    }
    if count < DIGITS - 1 {
        return None;
    }
    split_longest(text)
}

// Returns the number in the digits at the front of a text, up to 19 of them, and their count. Lanes count the digits
// among the first 16 bytes, and words join them; `more_digits` reads all others.
#[inline(always)]
fn leading_number(text: &[u8]) -> (u64, usize)
    ensures within { result.1 ≤ length text.now }
    ensures few { result.1 < 20 }
    ensures digits { AllByRecursion IsAsciiDigit (take result.1 text.now) }
    ensures last { result.1 < 19 → result.1 < length text.now → ¬ IsAsciiDigit (slice_index text.now result.1) }
    ensures value { result.0 ≡ digits_value 10 (take result.1 text.now) }
{
    if text.len() < DIGIT_LANES {
        return more_digits(text, 0, 0);
    }
    let count = count_digits(text);
    if count == 0 {
        return (0, 0);
    }
    let number = front_number(text, count);
    if count < DIGIT_LANES {
        return (number, count);
    }
    more_digits(text, number, count)
}

// Returns the number in the digits at the front of a text, up to 19 of them, and their count. The first `start`
// digits have the value `number`, and the loop reads the others byte by byte. It is used for texts below 16 bytes and
// for timestamps of 16 digits and more.
#[cold]
#[inline(never)]
fn more_digits(text: &[u8], number: u64, start: usize) -> (u64, usize)
    requires within { start ≤ length text.now }
    requires few { start < 20 }
    requires digits { AllByRecursion IsAsciiDigit (take start text.now) }
    requires value { number ≡ digits_value 10 (take start text.now) }
    ensures few { (result.1 ≤ length text.now) × (result.1 < 20) }
    ensures digits { AllByRecursion IsAsciiDigit (take result.1 text.now) }
    ensures last { result.1 < 19 → result.1 < length text.now → ¬ IsAsciiDigit (slice_index text.now result.1) }
    ensures value { result.0 ≡ digits_value 10 (take result.1 text.now) }
{
    let most = text.len().min(DIGITS - 1);
    let mut number = number;
    for count in start..most {
        let byte = text[count];
        if !byte.is_ascii_digit() {
            return (number, count);
        }
        number = number * 10 + u64::from(byte - b'0');
    }
    (number, most)
}

// Splits a text that begins with nineteen digits and has no space after these: only a timestamp of twenty digits is
// left.
#[cold]
#[inline(never)]
fn split_longest(text: &[u8]) -> Option<(u64, &[u8])>
    requires digits { AllByRecursion IsAsciiDigit (take 19 text.now) }
    requires apart { 19 < length text.now → ¬ (slice_index text.now 19 ≡ 32) }
    ensures some { IfSome result (λ parts. IsMomentLine text.now parts.1.now parts.0) }
    ensures none { IfNone result (HasNoMoment text.now) }
{
    if text.len() <= DIGITS || text[DIGITS] != b' ' {
        return None;
    }
    match read_decimal(&text[..DIGITS]) {
        Some(moment) => Some((moment, &text[DIGITS + 1..])),
        None => None,
    }
}

/// Parses 1 to 20 decimal digits: a timestamp, or an option of the program. Returns `None` for any other text and for
/// numbers from 2^64 on.
pub fn read_decimal(digits: &[u8]) -> Option<u64>
    ensures some { IfSome result (IsDecimalText digits.now) }
    ensures none { IfNone result ((number : ℕ) → ¬ IsDecimalText digits.now number) }
{
    let [front @ .., last] = digits else {
        return None;
    };
    if front.len() >= DIGITS || !are_digits(digits) {
        return None;
    }
    // All digits but the last fit 64 bits.
    let value = 10 * u128::from(value_of(front)) + u128::from(last - b'0');
    if value > u128::from(u64::MAX) {
        return None;
    }
    Some(value as u64)
}

// Returns whether each byte is an ASCII digit.
fn are_digits(bytes: &[u8]) -> bool
    ensures { IsTrue result ↔ AllByRecursion IsAsciiDigit bytes.now }
{
    bytes.iter().all(|byte| byte.is_ascii_digit())
}

// Returns the number of at most nineteen digits.
fn value_of(digits: &[u8]) -> u64
    requires digits { AllByRecursion IsAsciiDigit digits.now }
    requires short { length digits.now < 20 }
    ensures value { result ≡ digits_value 10 digits.now }
    ensures small { result < 10 ^ 19 }
{
    let mut value = 0;
    for &digit in digits {
        value = value * 10 + u64::from(digit - b'0');
    }
    value
}
