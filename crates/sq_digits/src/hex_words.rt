//! Words of 28 and of 40 hexadecimal digits, read in lanes.
ghost use Rattle.std.specs.Prelude.{◌≡◌, ◌+◌, ◌<◌, ◌≤◌, ℕ, MatchOption, length, slice_index};
ghost use Rattle.std.specs.Char.{digit_value};
ghost use Rattle.sq_digits.specs.HexDigits.{AreHex, bytes_of as spelled_by};

use crate::hex_lanes::{are_values, bytes_of, digit_values};
use std::simd::prelude::*;

// Returns the values of the sixteen hexadecimal digits from index `at` on, and 16 or more for each other byte.
#[inline(always)]
fn values_at(text: &[u8], at: usize) -> u8x16
    requires { at + 16 ≤ length text.now }
    ensures value { (k : ℕ) → k < 16 → slice_index result k < 16
        → digit_value (slice_index text.now (at + k)) ≡ slice_index result k }
    ensures digit { (k : ℕ) → k < 16 → digit_value (slice_index text.now (at + k)) < 16 → slice_index result k < 16 }
{
    digit_values(u8x16::from_slice(&text[at..]))
}

/// Decodes 28 hexadecimal digits of either case to fourteen bytes. Returns `None` if any byte is not a digit.
#[inline(always)]
pub fn decode_28(digits: &[u8]) -> Option<[u8; 14]>
    requires { length digits.now ≡ 28 }
    ensures { MatchOption result (¬ AreHex digits.now) (λ bytes. AreHex digits.now × (bytes ≡ spelled_by digits.now)) }
{
    // The last sixteen digits begin with the last four of the first sixteen.
    let front = values_at(digits, 0);
    let back = values_at(digits, 12);
    if !are_values(front, back) {
        return None;
    }
    let first = bytes_of(front);
    let last = bytes_of(back);
    Some([
        first[0], first[1], first[2], first[3], first[4], first[5], first[6], first[7], last[2],
        last[3], last[4], last[5], last[6], last[7],
    ])
}

/// Decodes 40 hexadecimal digits of either case to twenty bytes. Returns `None` if any byte is not a digit.
#[inline(always)]
pub fn decode_40(digits: &[u8]) -> Option<[u8; 20]>
    requires { length digits.now ≡ 40 }
    ensures { MatchOption result (¬ AreHex digits.now) (λ bytes. AreHex digits.now × (bytes ≡ spelled_by digits.now)) }
{
    // The last sixteen digits begin with the last eight of the middle sixteen.
    let front = values_at(digits, 0);
    let inner = values_at(digits, 16);
    let back = values_at(digits, 24);
    if !are_values(front, inner) {
        return None;
    }
    if !are_values(back, back) {
        return None;
    }
    let first = bytes_of(front);
    let middle = bytes_of(inner);
    let last = bytes_of(back);
    Some([
        first[0], first[1], first[2], first[3], first[4], first[5], first[6], first[7], middle[0],
        middle[1], middle[2], middle[3], middle[4], middle[5], middle[6], middle[7], last[4],
        last[5], last[6], last[7],
    ])
}
