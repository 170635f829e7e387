//! Cells of a row, and numbers in digits.
ghost use Rattle.std.specs.Prelude.{◌≡◌, ◌≢◌, ◌≤◌, ◌<◌, ◌+◌, ◌*◌, ◌^◌, Some, None, IfSome, MatchOption, length, slice_index, take, false, true, ℕ};
ghost use Rattle.std.specs.Char.{IsAsciiDigit, digit_value};
ghost use Rattle.std.specs.Str.Parse.{digits_value};
ghost use Rattle.sq_feed.specs.Cells.{are_digits, bare_comma, cell_end, cell_of, column_of, content_of, is_named, millis_of, number_of, position_of, thousandths, unquoted};

use std::simd::prelude::*;

// The number of bytes that are compared at once.
pub(crate) const LANES: usize = 16;

// The maximum number of digits of the seconds.
const SECONDS: usize = 12;

// Any number of 19 digits is below 2^64.
const SHORT: usize = 19;

// The milliseconds in a second.
const SECOND: u64 = 1000;

// Returns the index of the first such byte, or the length of the text. Compares sixteen bytes at once.
pub(crate) fn position_of(byte: u8, text: &[u8]) -> usize
    ensures value { result ≡ position_of byte text.now }
    ensures within { result ≤ length text.now }
    ensures first { (k : ℕ) → k < result → slice_index text.now k ≢ byte }
    ensures found { result < length text.now → slice_index text.now result ≡ byte }
{
    for group in 0..text.len() / LANES {
        let at = position_in_16(byte, &text[LANES * group..]);
        if at < LANES {
            return LANES * group + at;
        }
    }
    if text.len() < LANES {
        return position_from(byte, text, 0);
    }
    // The last sixteen bytes overlap with those that were compared.
    let last = text.len() - LANES;
    let at = position_in_16(byte, &text[last..]);
    if at < LANES {
        return last + at;
    }
    text.len()
}

// Returns the index of the first such byte among the first sixteen, or 16.
#[inline(always)]
pub(crate) fn position_in_16(byte: u8, text: &[u8]) -> usize
    requires { 16 ≤ length text.now }
    ensures { result ≡ position_of byte (take 16 text.now) }
{
    let mask = u8x16::from_slice(text)
        .simd_eq(u8x16::splat(byte))
        .to_bitmask();
    if mask == 0 {
        return LANES;
    }
    mask.trailing_zeros() as usize
}

// Returns the index of the first such byte, or the length of the text. The byte must not occur before `start`.
#[inline(always)]
fn position_from(byte: u8, text: &[u8], start: usize) -> usize
    requires within { start ≤ length text.now }
    requires none { (k : ℕ) → k < start → slice_index text.now k ≢ byte }
    ensures value { result ≡ position_of byte text.now }
    ensures within { result ≤ length text.now }
    ensures first { (k : ℕ) → k < result → slice_index text.now k ≢ byte }
    ensures found { result < length text.now → slice_index text.now result ≡ byte }
{
    for at in start..text.len() {
        if text[at] == byte {
            return at;
        }
    }
    text.len()
}

// Returns whether all bytes are decimal digits.
pub(crate) fn are_digits(text: &[u8]) -> bool
    ensures { result ≡ are_digits text.now }
{
    for byte in text {
        if !byte.is_ascii_digit() {
            return false;
        }
    }
    true
}

// Parses 1 to `most` decimal digits. Returns `None` for another length or byte, or if the number is 2^64 or more.
pub(crate) fn number_of(most: usize, digits: &[u8]) -> Option<u64>
    ensures value { result ≡ number_of most digits.now }
    ensures small { IfSome result (λ number. number < 10 ^ most) }
{
    if digits.is_empty() || digits.len() > most {
        return None;
    }
    if digits.len() <= SHORT {
        return short_number(digits);
    }
    if !are_digits(digits) {
        return None;
    }
    value_of(digits)
}

// Parses up to 19 decimal digits. Returns `None` if another byte is among them.
#[inline(always)]
fn short_number(digits: &[u8]) -> Option<u64>
    requires { length digits.now ≤ 19 }
    ensures { MatchOption result (are_digits digits.now ≡ false)
        (λ n. (are_digits digits.now ≡ true) × (n ≡ digits_value 10 digits.now)) }
{
    let mut number = 0u64;
    for byte in digits {
        if !byte.is_ascii_digit() {
            return None;
        }
        number = number * 10 + u64::from(*byte - b'0');
    }
    Some(number)
}

// Returns the number with these ten decimal digits.
#[inline(always)]
pub(crate) fn ten_digits(digits: &[u8]) -> u64
    requires long { length digits.now ≡ 10 }
    requires digits { are_digits digits.now ≡ true }
    ensures value { result ≡ digits_value 10 digits.now }
    ensures small { result < 10000000000 }
{
    let mut number = 0u64;
    for at in 0..10 {
        number = number * 10 + u64::from(digits[at]) - u64::from(b'0');
    }
    number
}

// Returns the number with these decimal digits, or `None` if it is 2^64 or more.
fn value_of(digits: &[u8]) -> Option<u64>
    requires { are_digits digits.now ≡ true }
    ensures { MatchOption result (2 ^ 64 ≤ digits_value 10 digits.now) (λ n. n ≡ digits_value 10 digits.now) }
{
    let mut number = 0u64;
    for byte in digits {
        match number.checked_mul(10) {
            None => return None,
            Some(tens) => match tens.checked_add(u64::from(*byte - b'0')) {
                None => return None,
                Some(next) => number = next,
            },
        }
    }
    Some(number)
}

// Returns the first three decimals as thousandths: 0 to 999.
pub(crate) fn thousandths(decimals: &[u8]) -> u64
    requires { are_digits decimals.now ≡ true }
    ensures value { result ≡ thousandths decimals.now }
    ensures small { result < 1000 }
{
    match decimals {
        [] => 0,
        [a] => 100 * digit(*a),
        [a, b] => 100 * digit(*a) + 10 * digit(*b),
        [a, b, c, ..] => three_digits(*a, *b, *c),
    }
}

// Returns the number with three decimal digits. One subtraction corrects for the ASCII codes of all three.
#[inline(always)]
fn three_digits(a: u8, b: u8, c: u8) -> u64
    requires { IsAsciiDigit a × IsAsciiDigit b × IsAsciiDigit c }
    ensures value { result ≡ 100 * digit_value a + 10 * digit_value b + digit_value c }
    ensures small { result < 1000 }
{
    100 * u64::from(a) + 10 * u64::from(b) + u64::from(c) - 111 * u64::from(b'0')
}

// Returns the value of an ASCII digit.
#[inline(always)]
fn digit(byte: u8) -> u64
    requires { IsAsciiDigit byte }
    ensures value { result ≡ digit_value byte }
    ensures small { result < 10 }
{
    u64::from(byte - b'0')
}

// Parses seconds with or without decimals, and returns milliseconds, rounded down.
pub(crate) fn millis_of(cell: &[u8]) -> Option<u64>
    ensures { result ≡ millis_of cell.now }
{
    let point = position_of(b'.', cell);
    let seconds = number_of(SECONDS, &cell[..point])?;
    let decimals = &cell[(point + 1).min(cell.len())..];
    if !are_digits(decimals) {
        return None;
    }
    Some(seconds * SECOND + thousandths(decimals))
}

// Returns cell `k` of a row, counted from 0, or `None` if the row is shorter.
pub(crate) fn cell_of(k: usize, row: &[u8]) -> Option<&[u8]>
    ensures { MatchOption result (cell_of k (Some row.now) ≡ None) (λ cell. cell_of k (Some row.now) ≡ Some cell.now) }
{
    let mut rest = row;
    for step in 0..k {
        let at = cell_end(rest);
        if at >= rest.len() {
            return None;
        }
        let _ = step;
        rest = &rest[at + 1..];
    }
    Some(&rest[..cell_end(rest)])
}

// Returns the length of the first cell of a row. A comma ends it, but for one between the quotes of a cell that begins
// with a quote.
fn cell_end(row: &[u8]) -> usize
    ensures value { result ≡ cell_end row.now }
    ensures within { result ≤ length row.now }
{
    if !row.is_empty() && row[0] == b'"' {
        bare_comma(row)
    } else {
        position_of(b',', row)
    }
}

// Returns the index of the first comma that is not between quotes, or the length of the text.
fn bare_comma(text: &[u8]) -> usize
    ensures value { result ≡ bare_comma false text.now }
    ensures within { result ≤ length text.now }
{
    let mut quoted = false;
    for (at, byte) in text.iter().enumerate() {
        if !quoted && *byte == b',' {
            return at;
        }
        if *byte == b'"' {
            quoted = !quoted;
        }
    }
    text.len()
}

// Returns the content of a cell, without spaces around it and then without quotes.
pub(crate) fn content_of(cell: &[u8]) -> &[u8]
    ensures { result.now ≡ content_of cell.now }
{
    unquoted(cell.trim_ascii())
}

// Drops the quotes around a cell, if there are any.
fn unquoted(cell: &[u8]) -> &[u8]
    ensures { result.now ≡ unquoted cell.now }
{
    if cell.len() >= 2 && cell[0] == b'"' && cell[cell.len() - 1] == b'"' {
        &cell[1..cell.len() - 1]
    } else {
        cell
    }
}

// Returns the index of the first cell with this name.
pub(crate) fn column_of(name: &[u8], row: &[u8]) -> Option<usize>
    ensures { result ≡ column_of name.now row.now }
{
    let mut rest = row;
    for k in 0..row.len() + 1 {
        let at = cell_end(rest);
        if is_named(name, &rest[..at]) {
            return Some(k);
        }
        if at >= rest.len() {
            return None;
        }
        rest = &rest[at + 1..];
    }
    None
}

// Returns whether a cell has this name, in upper or lower case.
pub(crate) fn is_named(name: &[u8], cell: &[u8]) -> bool
    ensures { result ≡ is_named name.now cell.now }
{
    content_of(cell).eq_ignore_ascii_case(name)
}
